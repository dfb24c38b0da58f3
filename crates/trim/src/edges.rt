//! Edges, by the gates that they come from.
ghost use Rattle.std.specs.Prelude.{◌≡◌, ◌<◌, ◌≤◌, length};
ghost use Rattle.aig.specs.Circuits.{IsEdge, IsNode};
ghost use Rattle.trim.specs.Marks.{gate_in, through, with_sign as signed_edge};

use aig::{Aig, Edge};

// The place of the gate that an edge comes from.
pub(crate) fn gate_place(aig: &Aig, e: Edge) -> Option<usize>
    requires { IsEdge aig.now e }
    ensures { result ≡ gate_in e.node }
{
    let inputs = aig.inputs() as u128;
    let variable = e.number(aig.inputs()) / 2;
    if variable <= inputs {
        return None;
    }
    Some((variable - inputs - 1) as usize)
}

// Whether an edge is the negation of what it comes from.
fn is_negated(aig: &Aig, e: Edge) -> bool
    ensures { result ≡ e.negated }
{
    e.number(aig.inputs()) % 2 == 1
}

// An edge, or the opposite one.
fn with_sign(e: Edge, negated: bool) -> Edge
    ensures { result ≡ signed_edge negated e }
{
    if negated { e.not() } else { e }
}

// The edge for one of the old circuit, by a table with an edge for each of its gates.
pub(crate) fn moved(old: &Aig, table: &[Edge], e: Edge) -> Edge
    requires known { IsNode old.now.inputs (length table.now) e.node }
    requires few { length table.now ≤ length old.now.gates }
    ensures { result ≡ through table.now e }
{
    match gate_place(old, e) {
        None => e,
        Some(place) => with_sign(table[place], is_negated(old, e)),
    }
}
