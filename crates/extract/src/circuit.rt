//! The circuit of a core. Edges come in prefix order: inputs, assumed constants, then those of the rule. What is said
//! of an edge holds for all values that agree with the table, so more edges only strengthen the premise.
ghost use Rattle.std.specs.Prelude.{◌≡◌, ◌≢◌, ℕ, ◌+◌, ◌<◌, ◌≤◌, ◌⊎◌, ◌++◌, ◌&&◌, not, Bool, None, Some, [], length, map, filter, is_some, false, unwrap_or, ◌^◌, All, if◌then◌else◌, Contains, List, IfOk, OnOk, IsTrue};
ghost use Rattle.prefix.specs.Scopes.{quantifier_of, all_variables, is_among};
ghost use Rattle.truth.specs.Truth.{assumed_value};
ghost use Rattle.calculus.specs.Rows.{Row, Assignment, is_of};
ghost use Rattle.calculus.specs.Verdicts.{AreOuter};
ghost use Rattle.calculus.specs.Limits.{gate_weight};
ghost use Rattle.calculus.specs.Plays.{KeepsInputs, FollowsProof, Wins, DependsOnEarlier};
ghost use Rattle.aig.specs.Circuits.{value_of, IsEdge, Grows};
ghost use Rattle.aig.specs.Strategies.{IsStrategy, output_of, output_vars, values_of};
ghost use Rattle.aig.specs.declared.edge.Edge.{Edge};
ghost use Rattle.aig.specs.declared.edge.Node.TheVariants.{Constant};
ghost use Rattle.extract.specs.Tables.{IsPlayTable, edge_of, Agrees, Covers, CoversRemoved, Keeps, AreEdges, AreKept, IsInputEdge, IsAssumedEdge, IsRuledEdge, IsReady, removed_of, removals_at};
ghost use Rattle.step_core.specs.Cores.{core_rows, inferences_of, loser_of, IsProofOf};
ghost use Rattle.extract.specs.Removals.{first_bad, weight_of, weights_of, removals};

use crate::edges::{edge_at, put_edge};
use crate::index::{RemovalList, index_of};
use crate::rule::first_falsified;
use aig::{Aig, Edge, Output, OutputList, Strategy, VarList};
use calculus::circuits_win;
use memory::NoMemory;
use prefix::{Lit, Prefix, Quant, Var};
use std::alloc::Global;
use std::collections::BTreeSet;
use step_core::Core;

// The variables of a prefix, in order.
fn variables_of(alloc: Global, prefix: &Prefix) -> Result<Vec<Var>, NoMemory>
    ensures value { IfOk result (λ vars. vars.items ≡ all_variables prefix.now) }
    ensures few { IfOk result (λ vars. length vars.items ≤ 1048576) }
{
    let _ = prefix.len();
    let mut vars = Vec::new(alloc);
    for s in 0..prefix.scopes() {
        push_scope(&mut vars, prefix.vars_of(s + 1))?;
    }
    Ok(vars)
}

// Puts the variables of a scope at the end.
fn push_scope(vars: &mut Vec<Var>, scope: &BTreeSet<Var>) -> Result<(), NoMemory>
    ensures { OnOk result (vars.new.items ≡ vars.old.items ++ scope.now.keys) }
{
    for v in scope {
        vars.push(*v)?;
    }
    Ok(())
}

// Whether a variable has this quantifier.
pub(crate) fn has_quant(prefix: &Prefix, v: Var, quant: Quant) -> bool
    ensures { result ≡ is_of (quantifier_of prefix.now v) quant }
{
    match prefix.quant(v) {
        None => false,
        Some(q) => q == quant,
    }
}

// The variables of a list that have this quantifier.
fn with_quant(
    alloc: Global,
    prefix: &Prefix,
    vars: &[Var],
    quant: Quant,
) -> Result<Vec<Var>, NoMemory>
    ensures value { IfOk result (λ some. some.items
        ≡ filter (λ v. is_of (quantifier_of prefix.now v) quant) vars.now) }
    ensures few { IfOk result (λ some. length some.items ≤ length vars.now) }
{
    let mut some = Vec::new(alloc);
    for v in vars {
        if has_quant(prefix, *v, quant) {
            some.push(*v)?;
        }
    }
    Ok(some)
}

// A table with the edges of the inputs.
fn input_table(alloc: Global, aig: &Aig, inputs: &[Var]) -> Result<Vec<Option<Edge>>, NoMemory>
    requires few { length inputs.now ≤ aig.now.inputs }
    requires bound { aig.now.inputs < 2 ^ 32 }
    ensures edges { IfOk result (λ table. (x : ℕ) (e : Edge) → edge_of table.items x ≡ Some e →
        IsInputEdge aig.now inputs.now x e) }
    ensures covers { IfOk result (λ table. Covers table.items inputs.now) }
{
    let mut table = Vec::new(alloc);
    for i in 0..inputs.len() {
        put_edge(&mut table, inputs[i], aig.input(i as u32))?;
    }
    Ok(table)
}

// Gives the assumed variables without an edge their constants.
fn put_assumed(table: &mut Vec<Option<Edge>>, assumptions: &[Lit]) -> Result<(), NoMemory>
    ensures edges { OnOk result ((x : ℕ) (e : Edge) → edge_of table.new.items x ≡ Some e →
        (edge_of table.old.items x ≡ Some e) ⊎ ((edge_of table.old.items x ≡ None)
        × IsAssumedEdge assumptions.now x e)) }
    ensures keeps { OnOk result (Keeps table.old.items table.new.items) }
    ensures covers { OnOk result ((x : ℕ) (b : Bool) → assumed_value assumptions.now x ≡ Some b →
        IsTrue (is_some (edge_of table.new.items x))) }
{
    for lit in assumptions {
        if edge_at(table, lit.var()).is_some() {
            continue;
        }
        put_edge(table, lit.var(), Edge::constant(lit.is_positive()))?;
    }
    Ok(())
}

// Gives the variables without an edge those of the first-falsified rule.
fn put_ruled(
    aig: &mut Aig,
    pivot: Quant,
    core: &Core,
    index: &Vec<RemovalList>,
    vars: &[Var],
    table: &mut Vec<Option<Edge>>,
    kept: &mut Vec<Option<Edge>>,
) -> Result<(), NoMemory>
    requires kept { AreKept pivot (core_rows core.now.lines) aig.old table.old.items kept.old.items }
    requires stand { AreEdges aig.old table.old.items }
    requires within { (x : ℕ) → All (λ r. r.step < length core.now.lines) (removals_at index.now.items x) }
    requires ready { IsReady (core_rows core.now.lines) index.now.items vars.now table.old.items }
    ensures edges { OnOk result ((x : ℕ) (e : Edge) → edge_of table.new.items x ≡ Some e →
        (edge_of table.old.items x ≡ Some e) ⊎ ((edge_of table.old.items x ≡ None) × Contains vars.now x
        × IsRuledEdge pivot (core_rows core.now.lines) index.now.items aig.new table.new.items x)) }
    ensures keeps { OnOk result (Keeps table.old.items table.new.items) }
    ensures covers { OnOk result (Covers table.new.items vars.now) }
    ensures stand { OnOk result (AreEdges aig.new table.new.items) }
    ensures grows { OnOk result (Grows aig.old aig.new) }
    ensures kept { OnOk result (AreKept pivot (core_rows core.now.lines) aig.new table.new.items kept.new.items) }
    ensures size { OnOk result (length aig.new.gates
        ≤ length aig.old.gates
        + weights_of (λ x. map (removed_of (core_rows core.now.lines)) (removals_at index.now.items x)) vars.now) }
{
    for v in vars {
        put_rule(aig, pivot, core, index, *v, table, kept)?;
    }
    Ok(())
}

// Gives a variable without an edge that of the first-falsified rule.
fn put_rule(
    aig: &mut Aig,
    pivot: Quant,
    core: &Core,
    index: &Vec<RemovalList>,
    v: Var,
    table: &mut Vec<Option<Edge>>,
    kept: &mut Vec<Option<Edge>>,
) -> Result<(), NoMemory>
    requires kept { AreKept pivot (core_rows core.now.lines) aig.old table.old.items kept.old.items }
    requires stand { AreEdges aig.old table.old.items }
    requires within { (x : ℕ) → All (λ r. r.step < length core.now.lines) (removals_at index.now.items x) }
    requires ready { edge_of table.old.items v ≡ None →
        CoversRemoved table.old.items (map (removed_of (core_rows core.now.lines)) (removals_at index.now.items
        v)) }
    ensures edges { OnOk result ((x : ℕ) (e : Edge) → edge_of table.new.items x ≡ Some e →
        (edge_of table.old.items x ≡ Some e) ⊎ ((edge_of table.old.items x ≡ None) × (x ≡ v)
        × IsRuledEdge pivot (core_rows core.now.lines) index.now.items aig.new table.new.items x)) }
    ensures keeps { OnOk result (Keeps table.old.items table.new.items) }
    ensures covers { OnOk result (IsTrue (is_some (edge_of table.new.items v))) }
    ensures stand { OnOk result (AreEdges aig.new table.new.items) }
    ensures grows { OnOk result (Grows aig.old aig.new) }
    ensures kept { OnOk result (AreKept pivot (core_rows core.now.lines) aig.new table.new.items kept.new.items) }
    ensures size { OnOk result (length aig.new.gates
        ≤ length aig.old.gates
        + weight_of (map (removed_of (core_rows core.now.lines)) (removals_at index.now.items v))) }
{
    if edge_at(table, v).is_some() {
        return Ok(());
    }
    let e = rule_edge(aig, pivot, core, index, v, table, kept)?;
    put_edge(table, v, e)
}

// The edge of a variable by the first-falsified rule.
fn rule_edge(
    aig: &mut Aig,
    pivot: Quant,
    core: &Core,
    index: &Vec<RemovalList>,
    v: Var,
    table: &Vec<Option<Edge>>,
    kept: &mut Vec<Option<Edge>>,
) -> Result<Edge, NoMemory>
    requires kept { AreKept pivot (core_rows core.now.lines) aig.old table.now.items kept.old.items }
    requires stand { AreEdges aig.old table.now.items }
    requires within { (x : ℕ) → All (λ r. r.step < length core.now.lines) (removals_at index.now.items x) }
    requires ready { CoversRemoved table.now.items (map (removed_of (core_rows core.now.lines)) (removals_at
        index.now.items v)) }
    ensures value { IfOk result (λ e. (inputs : List Bool) (values : Assignment) →
        Agrees aig.new inputs table.now.items values →
        value_of aig.new inputs e
        ≡ unwrap_or (first_bad pivot values (map (removed_of (core_rows core.now.lines)) (removals_at
        index.now.items v))) false) }
    ensures stands { IfOk result (λ e. IsEdge aig.new e) }
    ensures grows { Grows aig.old aig.new }
    ensures kept { OnOk result (AreKept pivot (core_rows core.now.lines) aig.new table.now.items kept.new.items) }
    ensures size { OnOk result (length aig.new.gates
        ≤ length aig.old.gates
        + weight_of (map (removed_of (core_rows core.now.lines)) (removals_at index.now.items v))) }
{
    match index.get(v.number() as usize) {
        None => Ok(Edge::constant(false)),
        Some(list) => first_falsified(aig, pivot, core, table, kept, list.removals()),
    }
}

// The outputs of these variables.
fn outputs_of(
    alloc: Global,
    winners: &[Var],
    table: &Vec<Option<Edge>>,
) -> Result<Vec<Output>, NoMemory>
    requires { Covers table.now.items winners.now }
    ensures vars { IfOk result (λ outputs. output_vars outputs.items ≡ winners.now) }
    ensures edges { IfOk result (λ outputs. (x : ℕ) →
        output_of outputs.items x ≡ (if is_among x winners.now then edge_of table.now.items x else None)) }
    ensures each { IfOk result (λ outputs. All (λ o. edge_of table.now.items o.var ≡ Some o.edge) outputs.items) }
{
    let mut outputs = Vec::new(alloc);
    for v in winners {
        outputs.push(Output {
            var: *v,
            edge: edge_at(table, *v).unwrap(),
        })?;
    }
    Ok(outputs)
}

// The edges of all variables.
fn table_of(
    alloc: Global,
    aig: &mut Aig,
    core: &Core,
    prefix: &Prefix,
    assumptions: &[Lit],
    vars: &[Var],
    inputs: &[Var],
) -> Result<Vec<Option<Edge>>, NoMemory>
    requires outer { AreOuter prefix.now assumptions.now }
    requires proof { (clauses : List Row) × IsProofOf core.now prefix.now assumptions.now clauses }
    requires vars { vars.now ≡ all_variables prefix.now }
    requires inputs { inputs.now
        ≡ filter (λ v. is_of (quantifier_of prefix.now v) (loser_of core.now)) (all_variables prefix.now) }
    requires count { aig.old.inputs ≡ length inputs.now }
    requires few { length inputs.now ≤ 1048576 }
    ensures plays { IfOk result (λ table. IsPlayTable (loser_of core.now) prefix.now assumptions.now
        (inferences_of core.now.lines) inputs.now aig.new table.items) }
    ensures size { OnOk result (length aig.new.gates
        ≤ length aig.old.gates + gate_weight (inferences_of core.now.lines)) }
{
    let loser = core.loser();
    let _ = prefix.scopes();
    let mut table = input_table(alloc, aig, inputs)?;
    put_assumed(&mut table, assumptions)?;
    let index = index_of(alloc, loser, core)?;
    let mut kept = Vec::new(alloc);
    put_ruled(aig, loser, core, &index, vars, &mut table, &mut kept)?;
    Ok(table)
}

/// The circuit of a core, which is a proof under assumptions: its inputs are the loser's variables, its outputs the
/// winner's, both in prefix order. It gives each output its assumed value, or else that of the first-falsified rule
/// (Balabanov and Jiang, *Unified QBF certification and its applications*, 2012). So it wins, and each output rests on
/// inputs of earlier scopes alone. Fails for want of memory alone.
pub fn extract(
    alloc: Global,
    core: &Core,
    prefix: &Prefix,
    assumptions: &[Lit],
) -> Result<Strategy, NoMemory>
    requires outer { AreOuter prefix.now assumptions.now }
    requires proof { (clauses : List Row) × IsProofOf core.now prefix.now assumptions.now clauses }
    ensures winner { IfOk result (λ s. s.winner ≡ core.now.winner) }
    ensures inputs { IfOk result (λ s. s.inputs
        ≡ filter (λ v. is_of (quantifier_of prefix.now v) (loser_of core.now)) (all_variables prefix.now)) }
    ensures outputs { IfOk result (λ s. output_vars s.outputs
        ≡ filter (λ v. is_of (quantifier_of prefix.now v) core.now.winner) (all_variables prefix.now)) }
    ensures strategy { IfOk result IsStrategy }
    ensures assumed { IfOk result (λ s. (x : ℕ) (b : Bool) → assumed_value assumptions.now x ≡ Some b →
        quantifier_of prefix.now x ≢ Some (loser_of core.now) →
        output_of s.outputs x ≡ Some (record { node = Constant; negated = b })) }
    ensures keeps { IfOk result (λ s. KeepsInputs (loser_of core.now) prefix.now (values_of s)) }
    ensures follows { IfOk result (λ s. FollowsProof (loser_of core.now) prefix.now assumptions.now
        (inferences_of core.now.lines) (values_of s)) }
    ensures wins { IfOk result (λ s. (clauses : List Row) →
        IsProofOf core.now prefix.now assumptions.now clauses →
        Wins (loser_of core.now) prefix.now clauses assumptions.now (values_of s)) }
    ensures earlier { IfOk result (λ s. DependsOnEarlier (loser_of core.now) prefix.now (values_of s)) }
    ensures size { IfOk result (λ s. length s.aig.gates ≤ gate_weight (inferences_of core.now.lines)) }
{
    let all = variables_of(alloc, prefix)?;
    let vars = all.as_slice();
    let winner = core.winner();
    let inputs = with_quant(alloc, prefix, vars, core.loser())?;
    let winners = with_quant(alloc, prefix, vars, winner)?;
    let mut aig = Aig::new(alloc, inputs.len() as u32)?;
    let table = table_of(
        alloc,
        &mut aig,
        core,
        prefix,
        assumptions,
        vars,
        inputs.as_slice(),
    )?;
    let outputs = outputs_of(alloc, winners.as_slice(), &table)?;
    circuits_win();
    Ok(Strategy {
        aig,
        winner,
        inputs: VarList::from_vec(inputs),
        outputs: OutputList::from_vec(outputs),
    })
}
