//! Small circuits, which are worked values of the crate too.
ghost use Rattle.std.specs.Prelude.{◌≡◌, ◌≤◌, ◌^◌, ◌∷◌, ◌++◌, [], length, IfOk, OnOk};
ghost use Rattle.prefix.specs.declared.quant.Quant.TheVariants.{Exists, Forall};
ghost use Rattle.qcir.specs.declared.circuit.GateKind.TheVariants.{Or};
ghost use Rattle.qcir.specs.Truth.{gate_names};
ghost use Rattle.qcir.specs.Translation.{IsCircuit, clause_count, scopes_with};
ghost use Rattle.qcir.specs.Worked.{alike as are_alike, doubled as are_doubled, gate as is_gate, no_, nothing as is_nothing, over_doubled as is_over_doubled, same_after as is_same_after, same_before as is_same_before, scope, yes_};

use prefix::{Lit, LitList, Prefix, Quant, Var};
use qcir::{Circuit, Gate, GateKind, GateList, translate, worked_truths};
use std::alloc::Global;
use std::test::Fail;
use truth::Formula;

// Which circuit.
#[derive(Clone, Copy, Debug)]
pub(crate) enum Case {
    SameAfter,
    SameBefore,
    Doubled,
    Nothing,
}

// The variable with this number.
fn variable(n: u32) -> Result<Var, Fail>
    ensures { IfOk result (λ v. v ≡ n) }
{
    Ok(Var::new(n).ok_or("range")?)
}

// The variable with this number as a literal.
fn yes(n: u32) -> Result<Lit, Fail>
    ensures { IfOk result (λ l. l ≡ yes_ n) }
{
    Ok(Lit::new(variable(n)?, true))
}

// Its negation.
fn no(n: u32) -> Result<Lit, Fail>
    ensures { IfOk result (λ l. l ≡ no_ n) }
{
    Ok(Lit::new(variable(n)?, false))
}

// A gate with these inputs.
fn gate(alloc: Global, n: u32, kind: GateKind, inputs: &[Lit]) -> Result<Gate, Fail>
    ensures { IfOk result (λ g. g ≡ is_gate n kind inputs.now) }
{
    let var = variable(n)?;
    let inputs = LitList::from_vec(Vec::from_slice(alloc, inputs)?)?;
    Ok(Gate { var, kind, inputs })
}

// Puts a gate with these inputs at the end of a list.
fn put(
    gates: &mut Vec<Gate>,
    alloc: Global,
    n: u32,
    kind: GateKind,
    inputs: &[Lit],
) -> Result<(), Fail>
    ensures { OnOk result (gates.new.items ≡ gates.old.items ++ is_gate n kind inputs.now ∷ []) }
{
    let made = gate(alloc, n, kind, inputs)?;
    gates.push(made)?;
    Ok(())
}

// Puts 9, which is whether 7 and 3 are the same, and its inputs into an empty list.
fn put_alike(gates: &mut Vec<Gate>, alloc: Global) -> Result<(), Fail>
    requires { gates.old.items ≡ [] }
    ensures { OnOk result (gates.new.items ≡ are_alike) }
{
    put(gates, alloc, 12, GateKind::And, &[yes(7)?, yes(3)?])?;
    put(gates, alloc, 5, GateKind::And, &[no(7)?, no(3)?])?;
    put(gates, alloc, 9, GateKind::Or, &[yes(12)?, yes(5)?])?;
    Ok(())
}

// 9, which is whether 7 and 3 are the same.
fn alike(alloc: Global) -> Result<GateList, Fail>
    ensures { IfOk result (λ gates. gates ≡ are_alike) }
{
    let mut gates = Vec::new(alloc);
    put_alike(&mut gates, alloc)?;
    Ok(GateList::from_vec(gates))
}

// Puts gates with an input twice and with opposite inputs into an empty list.
fn put_doubled(gates: &mut Vec<Gate>, alloc: Global) -> Result<(), Fail>
    requires { gates.old.items ≡ [] }
    ensures { OnOk result (gates.new.items ≡ are_doubled) }
{
    put(gates, alloc, 8, GateKind::Or, &[yes(2)?, yes(2)?, no(4)?])?;
    put(gates, alloc, 11, GateKind::And, &[yes(6)?, no(6)?])?;
    put(gates, alloc, 10, GateKind::And, &[yes(8)?, no(11)?])?;
    Ok(())
}

// Gates with an input twice and with opposite inputs.
fn doubled(alloc: Global) -> Result<GateList, Fail>
    ensures { IfOk result (λ gates. gates ≡ are_doubled) }
{
    let mut gates = Vec::new(alloc);
    put_doubled(&mut gates, alloc)?;
    Ok(GateList::from_vec(gates))
}

// A disjunction of no inputs, 2.
fn empty(alloc: Global) -> Result<GateList, Fail>
    ensures { IfOk result (λ gates. gates ≡ is_gate 2 Or [] ∷ []) }
{
    let mut gates = Vec::new(alloc);
    put(&mut gates, alloc, 2, GateKind::Or, &[])?;
    Ok(GateList::from_vec(gates))
}

// Puts 7 for each and then 3 that there is into an empty prefix.
fn put_after(prefix: &mut Prefix) -> Result<(), Fail>
    requires { prefix.old ≡ [] }
    ensures { OnOk result (prefix.new ≡ scope Forall (7 ∷ []) ∷ scope Exists (3 ∷ []) ∷ []) }
{
    prefix.add_scope(Quant::Forall, None)?;
    prefix.add_var(7, 1)?;
    prefix.add_scope(Quant::Exists, None)?;
    prefix.add_var(3, 2)?;
    Ok(())
}

fn scopes_after(alloc: Global) -> Result<Prefix, Fail>
    ensures { IfOk result (λ p. p ≡ scope Forall (7 ∷ []) ∷ scope Exists (3 ∷ []) ∷ []) }
{
    let mut prefix = Prefix::new(alloc);
    put_after(&mut prefix)?;
    Ok(prefix)
}

// For each 7 there is a 3 that is the same.
fn same_after(alloc: Global) -> Result<Circuit, Fail>
    ensures { IfOk result (λ c. c ≡ is_same_after) }
{
    let output = yes(9)?;
    let prefix = scopes_after(alloc)?;
    let gates = alike(alloc)?;
    Ok(Circuit {
        prefix,
        gates,
        output,
    })
}

// Puts 3 that there is and then 7 for each into an empty prefix.
fn put_before(prefix: &mut Prefix) -> Result<(), Fail>
    requires { prefix.old ≡ [] }
    ensures { OnOk result (prefix.new ≡ scope Exists (3 ∷ []) ∷ scope Forall (7 ∷ []) ∷ []) }
{
    prefix.add_scope(Quant::Exists, None)?;
    prefix.add_var(3, 1)?;
    prefix.add_scope(Quant::Forall, None)?;
    prefix.add_var(7, 2)?;
    Ok(())
}

fn scopes_before(alloc: Global) -> Result<Prefix, Fail>
    ensures { IfOk result (λ p. p ≡ scope Exists (3 ∷ []) ∷ scope Forall (7 ∷ []) ∷ []) }
{
    let mut prefix = Prefix::new(alloc);
    put_before(&mut prefix)?;
    Ok(prefix)
}

// There is a 3 that is the same as each 7.
fn same_before(alloc: Global) -> Result<Circuit, Fail>
    ensures { IfOk result (λ c. c ≡ is_same_before) }
{
    let output = yes(9)?;
    let prefix = scopes_before(alloc)?;
    let gates = alike(alloc)?;
    Ok(Circuit {
        prefix,
        gates,
        output,
    })
}

// Puts 4 that there is and then 6 and 2 for each into an empty prefix.
fn put_over(prefix: &mut Prefix) -> Result<(), Fail>
    requires { prefix.old ≡ [] }
    ensures { OnOk result (prefix.new ≡ scope Exists (4 ∷ []) ∷ scope Forall (2 ∷ 6 ∷ []) ∷ []) }
{
    prefix.add_scope(Quant::Exists, None)?;
    prefix.add_var(4, 1)?;
    prefix.add_scope(Quant::Forall, None)?;
    prefix.add_var(6, 2)?;
    prefix.add_var(2, 2)?;
    Ok(())
}

fn scopes_over(alloc: Global) -> Result<Prefix, Fail>
    ensures { IfOk result (λ p. p ≡ scope Exists (4 ∷ []) ∷ scope Forall (2 ∷ 6 ∷ []) ∷ []) }
{
    let mut prefix = Prefix::new(alloc);
    put_over(&mut prefix)?;
    Ok(prefix)
}

// There is a 4 with which each 2 makes 10 true.
fn over_doubled(alloc: Global) -> Result<Circuit, Fail>
    ensures { IfOk result (λ c. c ≡ is_over_doubled (yes_ 10)) }
{
    let output = yes(10)?;
    let prefix = scopes_over(alloc)?;
    let gates = doubled(alloc)?;
    Ok(Circuit {
        prefix,
        gates,
        output,
    })
}

// An empty disjunction, without a scope.
fn nothing(alloc: Global) -> Result<Circuit, Fail>
    ensures { IfOk result (λ c. c ≡ is_nothing) }
{
    let output = yes(2)?;
    let gates = empty(alloc)?;
    Ok(Circuit {
        prefix: Prefix::new(alloc),
        gates,
        output,
    })
}

// The circuit of a case.
fn circuit_of(alloc: Global, case: Case) -> Result<Circuit, Fail>
    ensures circuit { IfOk result IsCircuit }
    ensures scopes { IfOk result (λ c. length (scopes_with c.prefix (gate_names c.gates)) ≤ 65536) }
    ensures clauses { IfOk result (λ c. clause_count c.gates ≤ 2 ^ 24) }
{
    worked_truths();
    match case {
        Case::SameAfter => same_after(alloc),
        Case::SameBefore => same_before(alloc),
        Case::Doubled => over_doubled(alloc),
        Case::Nothing => nothing(alloc),
    }
}

// Its formula.
pub(crate) fn formula_of(alloc: Global, case: Case) -> Result<Formula, Fail> {
    let circuit = circuit_of(alloc, case)?;
    Ok(translate(alloc, &circuit)?)
}
