//! A circuit by which 3 is the conjunction of 1 and 2, for formulas with an assumed variable.
ghost use Rattle.std.specs.Prelude.{◌≡◌, true, false, ◌∷◌, [], IfOk, OnOk};
ghost use Rattle.prefix.specs.declared.quant.Quant.TheVariants.{Exists, Forall};
ghost use Rattle.aig.specs.Circuits.{IsEdge};
ghost use Rattle.aig.specs.Strategies.{IsStrategy, output_vars};

use crate::games::{checked, one_output, variable};
use aig::{Aig, Edge, Strategy, VarList};
use prefix::{Lit, LitList, Prefix, PrefixRefusal, Quant};
use std::alloc::Global;
use std::test::Fail;
use truth::{ClauseList, Formula};

// The list of the inputs 1 and 2.
fn two_inputs(alloc: Global) -> Result<VarList, Fail>
    ensures { IfOk result (λ vars. vars ≡ 1 ∷ 2 ∷ []) }
{
    let first = variable(1)?;
    let second = variable(2)?;
    Ok(VarList::from_vec(Vec::from_slice(alloc, &[first, second])?))
}

// The edge of the conjunction of both inputs.
fn both(aig: &mut Aig) -> Result<Edge, Fail>
    requires { aig.old.inputs ≡ 2 }
    ensures edge { IfOk result (λ e. IsEdge aig.new e) }
    ensures inputs { aig.new.inputs ≡ 2 }
{
    let first = aig.input(0);
    let second = aig.input(1);
    Ok(aig.and(first, second)?)
}

// The circuit.
fn conjunction(alloc: Global) -> Result<Strategy, Fail>
    ensures strategy { IfOk result IsStrategy }
    ensures winner { IfOk result (λ s. s.winner ≡ Exists) }
    ensures inputs { IfOk result (λ s. s.inputs ≡ 1 ∷ 2 ∷ []) }
    ensures outputs { IfOk result (λ s. output_vars s.outputs ≡ 3 ∷ []) }
{
    let var = variable(3)?;
    let mut aig = Aig::new(alloc, 2)?;
    let edge = both(&mut aig)?;
    let outputs = one_output(alloc, var, edge)?;
    let inputs = two_inputs(alloc)?;
    Ok(Strategy {
        aig,
        winner: Quant::Exists,
        inputs,
        outputs,
    })
}

// Puts the scopes `e 3, a 1 2` in.
fn put_output_first(prefix: &mut Prefix) -> Result<(), PrefixRefusal>
    requires { prefix.old ≡ [] }
    ensures { OnOk result (prefix.new ≡ record { quantifier = Exists; variables = 3 ∷ [] }
        ∷ record { quantifier = Forall; variables = 1 ∷ 2 ∷ [] } ∷ []) }
{
    prefix.add_scope(Quant::Exists, None)?;
    prefix.add_var(3, 1)?;
    prefix.add_scope(Quant::Forall, None)?;
    prefix.add_var(1, 2)?;
    prefix.add_var(2, 2)
}

// The prefix `e 3, a 1 2`.
fn output_first(alloc: Global) -> Result<Prefix, Fail>
    ensures { IfOk result (λ p. p ≡ record { quantifier = Exists; variables = 3 ∷ [] }
        ∷ record { quantifier = Forall; variables = 1 ∷ 2 ∷ [] } ∷ []) }
{
    let mut prefix = Prefix::new(alloc);
    put_output_first(&mut prefix)?;
    Ok(prefix)
}

// Puts the scopes `a 1 2, e 3` in.
fn put_inputs_first(prefix: &mut Prefix) -> Result<(), PrefixRefusal>
    requires { prefix.old ≡ [] }
    ensures { OnOk result (prefix.new ≡ record { quantifier = Forall; variables = 1 ∷ 2 ∷ [] }
        ∷ record { quantifier = Exists; variables = 3 ∷ [] } ∷ []) }
{
    prefix.add_scope(Quant::Forall, None)?;
    prefix.add_var(1, 1)?;
    prefix.add_var(2, 1)?;
    prefix.add_scope(Quant::Exists, None)?;
    prefix.add_var(3, 2)
}

// The prefix `a 1 2, e 3`.
fn inputs_first(alloc: Global) -> Result<Prefix, Fail>
    ensures { IfOk result (λ p. p ≡ record { quantifier = Forall; variables = 1 ∷ 2 ∷ [] }
        ∷ record { quantifier = Exists; variables = 3 ∷ [] } ∷ []) }
{
    let mut prefix = Prefix::new(alloc);
    put_inputs_first(&mut prefix)?;
    Ok(prefix)
}

// A literal with this sign.
fn literal(n: u32, positive: bool) -> Result<Lit, Fail>
    ensures { IfOk result (λ l. l ≡ record { variable = n; positive = positive }) }
{
    Ok(Lit::new(variable(n)?, positive))
}

// The clause 3.
fn output(alloc: Global) -> Result<LitList, Fail>
    ensures { IfOk result (λ c. c ≡ record { variable = 3; positive = true } ∷ []) }
{
    let three = literal(3, true)?;
    Ok(LitList::from_vec(Vec::from_slice(alloc, &[three])?)?)
}

// The one clause 3.
fn output_holds(alloc: Global) -> Result<ClauseList, Fail>
    ensures { IfOk result (λ cs. cs ≡ (record { variable = 3; positive = true } ∷ []) ∷ []) }
{
    let mut clauses = ClauseList::new(alloc);
    clauses.push(output(alloc)?)?;
    Ok(clauses)
}

// The formula of `e 3, a 1 2` for no clause.
fn free(alloc: Global) -> Result<Formula, Fail>
    ensures prefix { IfOk result (λ f. f.prefix ≡ record { quantifier = Exists; variables = 3 ∷ [] }
        ∷ record { quantifier = Forall; variables = 1 ∷ 2 ∷ [] } ∷ []) }
    ensures clauses { IfOk result (λ f. f.clauses ≡ []) }
{
    Ok(Formula {
        prefix: output_first(alloc)?,
        clauses: ClauseList::new(alloc),
        declared_vars: 3,
        declared_clauses: 0,
    })
}

// The circuit's check formula in that formula, with 3 assumed.
fn check_output(alloc: Global, game: &Formula) -> Result<Formula, Fail>
    requires prefix { game.now.prefix ≡ record { quantifier = Exists; variables = 3 ∷ [] }
        ∷ record { quantifier = Forall; variables = 1 ∷ 2 ∷ [] } ∷ [] }
    requires clauses { game.now.clauses ≡ [] }
{
    let assumed = literal(3, true)?;
    let player = conjunction(alloc)?;
    checked(alloc, game, &[assumed], &player)
}

// The check formula under `e 3, a 1 2` for no clause, with 3 assumed.
pub(crate) fn check_assumed_output(alloc: Global) -> Result<Formula, Fail> {
    let game = free(alloc)?;
    check_output(alloc, &game)
}

// The formula of `a 1 2, e 3` for the clause 3.
fn bound(alloc: Global) -> Result<Formula, Fail>
    ensures prefix { IfOk result (λ f. f.prefix ≡ record { quantifier = Forall; variables = 1 ∷ 2 ∷ [] }
        ∷ record { quantifier = Exists; variables = 3 ∷ [] } ∷ []) }
    ensures clauses { IfOk result (λ f. f.clauses ≡ (record { variable = 3; positive = true } ∷ []) ∷ []) }
{
    Ok(Formula {
        prefix: inputs_first(alloc)?,
        clauses: output_holds(alloc)?,
        declared_vars: 3,
        declared_clauses: 1,
    })
}

// The circuit's check formula in that formula, with -1 assumed.
fn check_input(alloc: Global, game: &Formula) -> Result<Formula, Fail>
    requires prefix { game.now.prefix ≡ record { quantifier = Forall; variables = 1 ∷ 2 ∷ [] }
        ∷ record { quantifier = Exists; variables = 3 ∷ [] } ∷ [] }
    requires clauses { game.now.clauses ≡ (record { variable = 3; positive = true } ∷ []) ∷ [] }
{
    let assumed = literal(1, false)?;
    let player = conjunction(alloc)?;
    checked(alloc, game, &[assumed], &player)
}

// The check formula under `a 1 2, e 3` for the clause 3, with -1 assumed.
pub(crate) fn check_assumed_input(alloc: Global) -> Result<Formula, Fail> {
    let game = bound(alloc)?;
    check_input(alloc, &game)
}
