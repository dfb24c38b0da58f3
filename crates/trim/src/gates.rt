//! The marked gates of a circuit in a new one.
ghost use Rattle.std.specs.Prelude.{◌≡◌, ◌+◌, ◌<◌, ◌∷◌, ◌++◌, [], length, map, IfOk, OnOk};
ghost use Rattle.aig.specs.Circuits.{AreGates};
ghost use Rattle.aig.specs.Strategies.{IsStrategy};
ghost use Rattle.trim.specs.Marks.{AreMarks, Rebuilds, output_through};

use crate::edges::moved;
use aig::{Aig, Edge, Output, Strategy};
use memory::NoMemory;
use std::alloc::Global;

// Puts the marked gates into a new circuit in their order, and the edge of each gate into a table.
pub(crate) fn put_gates(
    s: &Strategy,
    marks: &[bool],
    aig: &mut Aig,
    table: &mut Vec<Edge>,
) -> Result<(), NoMemory>
    requires marks { AreMarks s.now s.now.outputs 0 marks.now }
    requires start { Rebuilds s.now.aig marks.now 0 table.old.items aig.old }
    ensures gates { AreGates s.now.aig.inputs s.now.aig.gates }
    ensures all { OnOk result (Rebuilds s.now.aig marks.now (length s.now.aig.gates) table.new.items aig.new) }
{
    for place in 0..s.aig.gates() {
        let e = next_edge(s, marks, place, aig, table)?;
        table.push(e)?;
    }
    Ok(())
}

// The edge of the next gate: that of the gate put into the new circuit, or a constant if it isn't marked.
fn next_edge(
    s: &Strategy,
    marks: &[bool],
    place: usize,
    aig: &mut Aig,
    table: &[Edge],
) -> Result<Edge, NoMemory>
    requires gates { AreGates s.now.aig.inputs s.now.aig.gates }
    requires marks { AreMarks s.now s.now.outputs 0 marks.now }
    requires place { place < length s.now.aig.gates }
    requires before { Rebuilds s.now.aig marks.now place table.now aig.old }
    ensures { IfOk result (λ e. Rebuilds s.now.aig marks.now (place + 1) (table.now ++ e ∷ []) aig.new) }
{
    if !marks[place] {
        return Ok(Edge::constant(false));
    }
    let (left, right) = s.aig.gate(place);
    let a = moved(&s.aig, table, left);
    let b = moved(&s.aig, table, right);
    aig.and(a, b)
}

// The outputs, with the edges that a table has for theirs.
pub(crate) fn moved_outputs(
    alloc: Global,
    s: &Strategy,
    table: &[Edge],
) -> Result<Vec<Output>, NoMemory>
    requires strategy { IsStrategy s.now }
    requires table { length table.now ≡ length s.now.aig.gates }
    ensures { IfOk result (λ outputs. outputs.items ≡ map (output_through table.now) s.now.outputs) }
{
    let mut outputs = Vec::new(alloc);
    for output in s.outputs.outputs() {
        outputs.push(Output {
            var: output.var,
            edge: moved(&s.aig, table, output.edge),
        })?;
    }
    Ok(outputs)
}
