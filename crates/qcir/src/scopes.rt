//! The prefix of a circuit's formula.
ghost use Rattle.std.specs.Prelude.{◌≡◌, ◌<◌, ◌≤◌, ◌++◌, ◌∷◌, [], true, false, length, max, take, OnOk, IfOk, IsOkUnless};
ghost use Rattle.prefix.specs.declared.quant.Quant.TheVariants.{Exists};
ghost use Rattle.prefix.specs.Scopes.{IsPrefix, all_variables};
ghost use Rattle.clauses.specs.Clause.{ascending};
ghost use Rattle.builder.specs.NewScope.{AreNew};
ghost use Rattle.qcir.specs.Truth.{gate_names};
ghost use Rattle.qcir.specs.Translation.{IsCircuit, greatest_of, scopes_with};
ghost use Rattle.qcir.specs.Building.{ends_existential as is_last_existential};

use crate::circuit::{Circuit, Gate};
use prefix::{Prefix, PrefixRefusal, Quant, Var};
use std::alloc::{AllocError, Global};
use std::collections::BTreeSet;

// The scopes of a circuit with its gates in the last, or behind it.
pub(crate) fn prefix_of(alloc: Global, circuit: &Circuit) -> Result<Prefix, PrefixRefusal>
    requires circuit { IsCircuit circuit.now }
    requires small { length (scopes_with circuit.now.prefix (gate_names circuit.now.gates)) ≤ 65536 }
    ensures scopes { IfOk result (λ p. p ≡ scopes_with circuit.now.prefix (gate_names circuit.now.gates)) }
    ensures memory { IsOkUnless result PrefixRefusal.NoMemory }
{
    if ends_existential(&circuit.prefix) {
        joined(alloc, circuit)
    } else {
        followed(alloc, circuit)
    }
}

// Whether the last scope is existential.
fn ends_existential(prefix: &Prefix) -> bool
    ensures { result ≡ is_last_existential prefix.now }
{
    match prefix.scope_quant(prefix.scopes()) {
        Some(Quant::Exists) => true,
        _ => false,
    }
}

// The scopes with the gates in the last, which is existential.
fn joined(alloc: Global, circuit: &Circuit) -> Result<Prefix, PrefixRefusal>
    requires circuit { IsCircuit circuit.now }
    requires last { is_last_existential circuit.now.prefix ≡ true }
    ensures scopes { IfOk result (λ p. p ≡ scopes_with circuit.now.prefix (gate_names circuit.now.gates)) }
    ensures memory { IsOkUnless result PrefixRefusal.NoMemory }
{
    let count = circuit.prefix.scopes();
    let mut vars = Vec::new(alloc);
    put_vars(&mut vars, circuit.prefix.vars_of(count))?;
    put_names(&mut vars, circuit.gates.gates())?;
    with_last(alloc, &circuit.prefix, count - 1, vars)
}

// The scopes with the gates, if any, behind the last, which isn't existential.
fn followed(alloc: Global, circuit: &Circuit) -> Result<Prefix, PrefixRefusal>
    requires circuit { IsCircuit circuit.now }
    requires last { is_last_existential circuit.now.prefix ≡ false }
    requires small { length (scopes_with circuit.now.prefix (gate_names circuit.now.gates)) ≤ 65536 }
    ensures scopes { IfOk result (λ p. p ≡ scopes_with circuit.now.prefix (gate_names circuit.now.gates)) }
    ensures memory { IsOkUnless result PrefixRefusal.NoMemory }
{
    let count = circuit.prefix.scopes();
    let gates = circuit.gates.gates();
    if gates.is_empty() {
        return first_scopes(alloc, &circuit.prefix, count);
    }
    let mut vars = Vec::new(alloc);
    put_names(&mut vars, gates)?;
    with_last(alloc, &circuit.prefix, count, vars)
}

// Puts the variables of a set behind others, ascending.
fn put_vars(vars: &mut Vec<Var>, set: &BTreeSet<Var>) -> Result<(), AllocError>
    ensures { OnOk result (vars.new.items ≡ vars.old.items ++ set.now.keys) }
{
    for v in set {
        vars.push(*v)?;
    }
    Ok(())
}

// Puts the variables of gates behind others.
fn put_names(vars: &mut Vec<Var>, gates: &[Gate]) -> Result<(), AllocError>
    ensures { OnOk result (vars.new.items ≡ vars.old.items ++ gate_names gates.now) }
{
    for gate in gates {
        vars.push(gate.var)?;
    }
    Ok(())
}

// So many scopes, and behind them an existential one. It sorts the variables of that.
fn with_last(
    alloc: Global,
    old: &Prefix,
    count: usize,
    vars: Vec<Var>,
) -> Result<Prefix, PrefixRefusal>
    requires valid { IsPrefix old.now }
    requires count { count ≤ length old.now }
    requires room { count < 65536 }
    requires new { AreNew (take count old.now) vars.items }
    ensures scopes { IfOk result (λ p. p
        ≡ take count old.now ++ record { quantifier = Exists; variables = ascending vars.items } ∷ []) }
    ensures memory { IsOkUnless result PrefixRefusal.NoMemory }
{
    let mut vars = vars;
    vars.sort_unstable();
    let mut prefix = first_scopes(alloc, old, count)?;
    add_scope(&mut prefix, Quant::Exists, &vars)?;
    Ok(prefix)
}

// So many of the scopes.
fn first_scopes(alloc: Global, old: &Prefix, count: usize) -> Result<Prefix, PrefixRefusal>
    requires valid { IsPrefix old.now }
    requires count { count ≤ length old.now }
    ensures scopes { IfOk result (λ p. p ≡ take count old.now) }
    ensures memory { IsOkUnless result PrefixRefusal.NoMemory }
{
    let mut prefix = Prefix::new(alloc);
    for s in 0..count {
        let quant = old.scope_quant(s + 1).unwrap();
        copy_scope(alloc, &mut prefix, quant, old.vars_of(s + 1))?;
    }
    Ok(prefix)
}

// Puts in a scope with the variables of a set as the last.
fn copy_scope(
    alloc: Global,
    prefix: &mut Prefix,
    quant: Quant,
    set: &BTreeSet<Var>,
) -> Result<(), PrefixRefusal>
    requires room { length prefix.old < 65536 }
    requires new { AreNew prefix.old set.now.keys }
    ensures ok { OnOk result (prefix.new
        ≡ prefix.old ++ record { quantifier = quant; variables = ascending set.now.keys } ∷ []) }
    ensures memory { IsOkUnless result PrefixRefusal.NoMemory }
{
    let mut vars = Vec::new(alloc);
    put_vars(&mut vars, set)?;
    add_scope(prefix, quant, &vars)
}

// Puts in a scope as the last.
fn add_scope(prefix: &mut Prefix, quant: Quant, vars: &[Var]) -> Result<(), PrefixRefusal>
    requires room { length prefix.old < 65536 }
    requires new { AreNew prefix.old vars.now }
    ensures ok { OnOk result (prefix.new
        ≡ prefix.old ++ record { quantifier = quant; variables = ascending vars.now } ∷ []) }
    ensures memory { IsOkUnless result PrefixRefusal.NoMemory }
{
    prefix.add_scope(quant, None)?;
    let number = prefix.scopes() as u64;
    for v in vars {
        prefix.add_var(v.number() as u64, number)?;
    }
    Ok(())
}

// The greatest number of a variable, 0 without one.
pub(crate) fn greatest_var(prefix: &Prefix) -> u32
    ensures { result ≡ greatest_of (all_variables prefix.now) }
{
    let mut greatest = 0;
    for s in 0..prefix.scopes() {
        greatest = greatest_above(greatest, prefix.vars_of(s + 1));
    }
    greatest
}

// The greatest of a number and those of variables.
fn greatest_above(least: u32, vars: &BTreeSet<Var>) -> u32
    ensures { result ≡ max least (greatest_of vars.now.keys) }
{
    let mut greatest = least;
    for v in vars {
        greatest = greatest.max(v.number());
    }
    greatest
}
