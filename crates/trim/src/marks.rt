//! Marks of the gates that are reached from outputs.
ghost use Rattle.std.specs.Prelude.{◌≡◌, ℕ, ◌<◌, ◌||◌, ◌&&◌, false, length, slice_index_or, IfOk};
ghost use Rattle.aig.specs.Circuits.{IsEdge};
ghost use Rattle.aig.specs.Strategies.{IsStrategy};
ghost use Rattle.aig.specs.declared.edge.And.{And};
ghost use Rattle.trim.specs.Marks.{AreMarks, is_from, is_marked, is_over};

use crate::edges::gate_place;
use aig::{Aig, Edge, Strategy};
use memory::NoMemory;
use std::alloc::Global;

// The marks of the gates that are reached.
pub(crate) fn marks_of(alloc: Global, s: &Strategy) -> Result<Vec<bool>, NoMemory>
    requires { IsStrategy s.now }
    ensures { IfOk result (λ marks. AreMarks s.now s.now.outputs 0 marks.items) }
{
    let mut marks = unmarked(alloc, s.aig.gates())?;
    mark_outputs(&mut marks, s);
    mark_gates(&mut marks, s);
    Ok(marks)
}

// That many places, none of them marked.
fn unmarked(alloc: Global, len: usize) -> Result<Vec<bool>, NoMemory>
    ensures room { IfOk result (λ marks. length marks.items ≡ len) }
    ensures none { IfOk result (λ marks. (j : ℕ) → is_marked marks.items j ≡ false) }
{
    let mut marks = Vec::new(alloc);
    marks.resize(len, false)?;
    Ok(marks)
}

// Marks the gates that outputs come from.
fn mark_outputs(marks: &mut Vec<bool>, s: &Strategy)
    requires strategy { IsStrategy s.now }
    requires room { length marks.old.items ≡ length s.now.aig.gates }
    requires none { (j : ℕ) → is_marked marks.old.items j ≡ false }
    ensures { AreMarks s.now s.now.outputs (length s.now.aig.gates) marks.new.items }
{
    for output in s.outputs.outputs() {
        mark(marks, &s.aig, output.edge);
    }
}

// Marks the gates that marked gates come from, from the last gate down.
fn mark_gates(marks: &mut Vec<bool>, s: &Strategy)
    requires { AreMarks s.now s.now.outputs (length s.now.aig.gates) marks.old.items }
    ensures { AreMarks s.now s.now.outputs 0 marks.new.items }
{
    let mut left = s.aig.gates();
    while left > 0 {
        left -= 1;
        mark_edges(marks, &s.aig, left);
    }
}

// Marks the gates that a gate comes from, if it is marked itself.
fn mark_edges(marks: &mut Vec<bool>, aig: &Aig, place: usize)
    requires place { place < length aig.now.gates }
    requires room { length marks.old.items ≡ length aig.now.gates }
    ensures room { length marks.new.items ≡ length aig.now.gates }
    ensures marks { (j : ℕ) (d : And) → is_marked marks.new.items j ≡ (is_marked marks.old.items j
        || (is_marked marks.old.items place && is_over (slice_index_or aig.now.gates place d) j)) }
{
    if !marks[place] {
        return;
    }
    let (left, right) = aig.gate(place);
    mark(marks, aig, left);
    mark(marks, aig, right);
}

// Marks the gate that an edge comes from, if it comes from one.
fn mark(marks: &mut Vec<bool>, aig: &Aig, e: Edge)
    requires edge { IsEdge aig.now e }
    requires room { length marks.old.items ≡ length aig.now.gates }
    ensures room { length marks.new.items ≡ length aig.now.gates }
    ensures marks { (j : ℕ) → is_marked marks.new.items j ≡ (is_marked marks.old.items j || is_from e j) }
{
    if let Some(place) = gate_place(aig, e) {
        marks[place] = true;
    }
}
