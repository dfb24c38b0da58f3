//! The circuit of the first-falsified rule.
ghost use Rattle.std.specs.Prelude.{◌≡◌, ℕ, ◌+◌, ◌*◌, ◌<◌, ◌≤◌, [], Bool, false, List, length, map, unwrap_or, slice_index_or, All, IfOk, OnOk, IsTrue, is_some, if◌then◌else◌, ◌&&◌, not};
ghost use Rattle.prefix.specs.Sides.{bad_of};
ghost use Rattle.calculus.specs.Rows.{Assignment, is_bad, is_bad_throughout};
ghost use Rattle.aig.specs.Circuits.{Circuit, value_of, IsEdge, Grows};
ghost use Rattle.extract.specs.Tables.{edge_of, Agrees, AreEdges, AreKept, CoversRow, CoversRemoved, removed_of};
ghost use Rattle.step_core.specs.Cores.{core_rows};
ghost use Rattle.extract.specs.Removals.{first_bad, weight_of};

use crate::edges::{edge_at, entry_at, put_entry};
use crate::index::Removal;
use aig::{Aig, Edge};
use memory::NoMemory;
use prefix::{Lit, Quant};
use step_core::Core;

// The edge that is true where a literal is bad.
fn bad_edge(pivot: Quant, table: &Vec<Option<Edge>>, lit: Lit) -> Edge
    requires { IsTrue (is_some (edge_of table.now.items lit.variable)) }
    ensures value { (circuit : Circuit) (inputs : List Bool) (values : Assignment) →
        Agrees circuit inputs table.now.items values → value_of circuit inputs result ≡ is_bad pivot values lit }
    ensures stands { (circuit : Circuit) → AreEdges circuit table.now.items → IsEdge circuit result }
{
    let e = edge_at(table, lit.var()).unwrap();
    if lit.is_positive() == (pivot == Quant::Forall) {
        return e;
    }
    e.not()
}

// The edge that is true where a row is bad.
fn bad_row_edge(
    aig: &mut Aig,
    pivot: Quant,
    table: &Vec<Option<Edge>>,
    lits: &[Lit],
) -> Result<Edge, NoMemory>
    requires edges { AreEdges aig.old table.now.items }
    requires covered { CoversRow table.now.items lits.now }
    ensures value { IfOk result (λ e. (inputs : List Bool) (values : Assignment) →
        Agrees aig.new inputs table.now.items values →
        value_of aig.new inputs e ≡ is_bad_throughout pivot values lits.now) }
    ensures stands { IfOk result (λ e. IsEdge aig.new e) }
    ensures grows { Grows aig.old aig.new }
    ensures size { length aig.new.gates ≤ length aig.old.gates + length lits.now }
{
    let mut all = Edge::constant(true);
    for lit in lits {
        all = aig.and(all, bad_edge(pivot, table, *lit))?;
    }
    Ok(all)
}

// The edge with this value where the condition is true, and else that of the rest.
fn chosen(aig: &mut Aig, condition: Edge, value: bool, rest: Edge) -> Result<Edge, NoMemory>
    requires condition { IsEdge aig.old condition }
    requires rest { IsEdge aig.old rest }
    ensures value { IfOk result (λ e. (inputs : List Bool) →
        value_of aig.new inputs e
        ≡ (if value_of aig.old inputs condition then value else value_of aig.old inputs rest)) }
    ensures stands { IfOk result (λ e. IsEdge aig.new e) }
    ensures grows { Grows aig.old aig.new }
    ensures size { length aig.new.gates ≤ length aig.old.gates + 1 }
{
    if value {
        let neither = aig.and(condition.not(), rest.not())?;
        return Ok(neither.not());
    }
    aig.and(condition.not(), rest)
}

// The edge of a row of the core, built once for each step and kept.
fn kept_row_edge(
    aig: &mut Aig,
    pivot: Quant,
    core: &Core,
    table: &Vec<Option<Edge>>,
    kept: &mut Vec<Option<Edge>>,
    step: usize,
) -> Result<Edge, NoMemory>
    requires edges { AreEdges aig.old table.now.items }
    requires kept { AreKept pivot (core_rows core.now.lines) aig.old table.now.items kept.old.items }
    requires within { step < length core.now.lines }
    requires covered { CoversRow table.now.items (slice_index_or (core_rows core.now.lines) step []) }
    ensures value { IfOk result (λ e. (inputs : List Bool) (values : Assignment) →
        Agrees aig.new inputs table.now.items values →
        value_of aig.new inputs e
        ≡ is_bad_throughout pivot values (slice_index_or (core_rows core.now.lines) step [])) }
    ensures stands { IfOk result (λ e. IsEdge aig.new e) }
    ensures grows { Grows aig.old aig.new }
    ensures kept { OnOk result (AreKept pivot (core_rows core.now.lines) aig.new table.now.items kept.new.items) }
    ensures size { length aig.new.gates
        ≤ length aig.old.gates + length (slice_index_or (core_rows core.now.lines) step []) }
{
    if let Some(e) = entry_at(kept, step) {
        return Ok(e);
    }
    let _ = core.len();
    let e = bad_row_edge(aig, pivot, table, core.lits(step + 1))?;
    put_entry(kept, step, e)?;
    Ok(e)
}

// The edge of a variable by the first-falsified rule, from the removals of its literals.
pub(crate) fn first_falsified(
    aig: &mut Aig,
    pivot: Quant,
    core: &Core,
    table: &Vec<Option<Edge>>,
    kept: &mut Vec<Option<Edge>>,
    removals: &[Removal],
) -> Result<Edge, NoMemory>
    requires edges { AreEdges aig.old table.now.items }
    requires kept { AreKept pivot (core_rows core.now.lines) aig.old table.now.items kept.old.items }
    requires within { All (λ r. r.step < length core.now.lines) removals.now }
    requires covered { CoversRemoved table.now.items (map (removed_of (core_rows core.now.lines)) removals.now) }
    ensures value { IfOk result (λ e. (inputs : List Bool) (values : Assignment) →
        Agrees aig.new inputs table.now.items values →
        value_of aig.new inputs e
        ≡ unwrap_or (first_bad pivot values (map (removed_of (core_rows core.now.lines)) removals.now)) false) }
    ensures stands { IfOk result (λ e. IsEdge aig.new e) }
    ensures grows { Grows aig.old aig.new }
    ensures kept { OnOk result (AreKept pivot (core_rows core.now.lines) aig.new table.now.items kept.new.items) }
    ensures size { OnOk result (length aig.new.gates
        ≤ length aig.old.gates + weight_of (map (removed_of (core_rows core.now.lines)) removals.now)) }
{
    let mut rest = Edge::constant(false);
    let mut left = removals.len();
    while left > 0 {
        left -= 1;
        rest = one_more(aig, pivot, core, table, kept, removals[left], rest)?;
    }
    Ok(rest)
}

// The edge of the rule with one more removal in front.
fn one_more(
    aig: &mut Aig,
    pivot: Quant,
    core: &Core,
    table: &Vec<Option<Edge>>,
    kept: &mut Vec<Option<Edge>>,
    removal: Removal,
    rest: Edge,
) -> Result<Edge, NoMemory>
    requires edges { AreEdges aig.old table.now.items }
    requires kept { AreKept pivot (core_rows core.now.lines) aig.old table.now.items kept.old.items }
    requires rest { IsEdge aig.old rest }
    requires within { removal.step < length core.now.lines }
    requires covered { CoversRow table.now.items (removed_of (core_rows core.now.lines) removal).row }
    ensures value { IfOk result (λ e. (inputs : List Bool) (values : Assignment) →
        Agrees aig.new inputs table.now.items values →
        value_of aig.new inputs e
        ≡ (if is_bad_throughout pivot values (removed_of (core_rows core.now.lines) removal).row then
        removal.value else value_of aig.old inputs rest)) }
    ensures stands { IfOk result (λ e. IsEdge aig.new e) }
    ensures grows { Grows aig.old aig.new }
    ensures kept { OnOk result (AreKept pivot (core_rows core.now.lines) aig.new table.now.items kept.new.items) }
    ensures size { length aig.new.gates
        ≤ length aig.old.gates + (length (removed_of (core_rows core.now.lines) removal).row + 1) }
{
    let bad = kept_row_edge(aig, pivot, core, table, kept, removal.step)?;
    chosen(aig, bad, removal.value, rest)
}
