//! Edges by variable.
ghost use Rattle.std.specs.Prelude.{◌≡◌, ℕ, ◌+◌, ◌<◌, ◌^◌, ◌==◌, if◌then◌else◌, Some, None, slice_index_or, OnOk, IsTrue, is_some};
ghost use Rattle.extract.specs.Tables.{edge_of};

use aig::Edge;
use memory::NoMemory;
use prefix::Var;

// The edge of a variable.
pub(crate) fn edge_at(table: &Vec<Option<Edge>>, v: Var) -> Option<Edge>
    ensures { result ≡ edge_of table.now.items v }
{
    entry_at(table, v.number() as usize)
}

// Gives a variable its edge.
pub(crate) fn put_edge(table: &mut Vec<Option<Edge>>, v: Var, e: Edge) -> Result<(), NoMemory>
    ensures { OnOk result ((w : ℕ) →
        edge_of table.new.items w ≡ (if v == w then Some e else edge_of table.old.items w)) }
{
    put_entry(table, v.number() as usize, e)
}

// The edge at a place.
pub(crate) fn entry_at(table: &Vec<Option<Edge>>, i: usize) -> Option<Edge>
    ensures { result ≡ edge_of table.now.items i }
{
    table.get(i).copied().unwrap_or(None)
}

// Puts an edge at a place.
pub(crate) fn put_entry(table: &mut Vec<Option<Edge>>, i: usize, e: Edge) -> Result<(), NoMemory>
    requires { i + 1 < 2 ^ 64 }
    ensures { OnOk result ((w : ℕ) →
        edge_of table.new.items w ≡ (if i == w then Some e else edge_of table.old.items w)) }
{
    if i >= table.len() {
        table.resize(i + 1, None)?;
    }
    table[i] = Some(e);
    Ok(())
}
