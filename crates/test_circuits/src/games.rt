//! A formula that is won by differing, circuits that play it, and their check formulas.
ghost use Rattle.std.specs.Prelude.{◌≡◌, ◌<◌, ◌∷◌, [], IfOk, OnOk};
ghost use Rattle.prefix.specs.declared.quant.Quant.TheVariants.{Exists, Forall};
ghost use Rattle.aig.specs.Circuits.{IsEdge};
ghost use Rattle.aig.specs.Strategies.{IsStrategy, output_vars};
ghost use Rattle.certcheck.specs.Theorems.{IsFor};
ghost use Rattle.certcheck.specs.Worked.{differ};

use aig::{Aig, Edge, Output, OutputList, Strategy, VarList};
use certcheck::check_formula;
use prefix::{Lit, LitList, Prefix, PrefixRefusal, Quant, Var};
use std::alloc::Global;
use std::test::Fail;
use truth::{ClauseList, Formula};

// What a circuit makes of 1 for 2.
#[derive(Clone, Copy, Debug)]
pub(crate) enum Rule {
    Opposite,
    False,
    True,
}

// The variable with this number.
pub(crate) fn variable(n: u32) -> Result<Var, Fail>
    ensures { IfOk result (λ v. v ≡ n) }
{
    Ok(Var::new(n).ok_or("range")?)
}

// The edge of a rule.
fn edge_of(aig: &Aig, rule: Rule) -> Edge
    requires { 0 < aig.now.inputs }
    ensures { IsEdge aig.now result }
{
    match rule {
        Rule::Opposite => aig.input(0).not(),
        Rule::False => Edge::constant(false),
        Rule::True => Edge::constant(true),
    }
}

// The list of the one input 1.
fn one_input(alloc: Global) -> Result<VarList, Fail>
    ensures { IfOk result (λ vars. vars ≡ 1 ∷ []) }
{
    let first = variable(1)?;
    Ok(VarList::from_vec(Vec::from_slice(alloc, &[first])?))
}

// The list of one output.
pub(crate) fn one_output(alloc: Global, var: Var, edge: Edge) -> Result<OutputList, Fail>
    ensures { IfOk result (λ outputs. outputs ≡ record { var = var; edge = edge } ∷ []) }
{
    let mut outputs = Vec::new(alloc);
    outputs.push(Output { var, edge })?;
    Ok(OutputList::from_vec(outputs))
}

// The circuit of a rule.
fn player(alloc: Global, rule: Rule) -> Result<Strategy, Fail>
    ensures strategy { IfOk result IsStrategy }
    ensures winner { IfOk result (λ s. s.winner ≡ Exists) }
    ensures inputs { IfOk result (λ s. s.inputs ≡ 1 ∷ []) }
    ensures outputs { IfOk result (λ s. output_vars s.outputs ≡ 2 ∷ []) }
{
    let var = variable(2)?;
    let aig = Aig::new(alloc, 1)?;
    let edge = edge_of(&aig, rule);
    let outputs = one_output(alloc, var, edge)?;
    let inputs = one_input(alloc)?;
    Ok(Strategy {
        aig,
        winner: Quant::Exists,
        inputs,
        outputs,
    })
}

// Puts the scopes `a 1, e 2` in.
fn put_board(prefix: &mut Prefix) -> Result<(), PrefixRefusal>
    requires { prefix.old ≡ [] }
    ensures { OnOk result (prefix.new ≡ record { quantifier = Forall; variables = 1 ∷ [] }
        ∷ record { quantifier = Exists; variables = 2 ∷ [] } ∷ []) }
{
    prefix.add_scope(Quant::Forall, None)?;
    prefix.add_var(1, 1)?;
    prefix.add_scope(Quant::Exists, None)?;
    prefix.add_var(2, 2)
}

// The prefix `a 1, e 2`.
fn board(alloc: Global) -> Result<Prefix, Fail>
    ensures { IfOk result (λ p. p ≡ record { quantifier = Forall; variables = 1 ∷ [] }
        ∷ record { quantifier = Exists; variables = 2 ∷ [] } ∷ []) }
{
    let mut prefix = Prefix::new(alloc);
    put_board(&mut prefix)?;
    Ok(prefix)
}

// A clause of 1 and 2 with these signs.
fn clause(alloc: Global, first: bool, second: bool) -> Result<LitList, Fail>
    ensures { IfOk result (λ c. c ≡ record { variable = 1; positive = first }
        ∷ record { variable = 2; positive = second } ∷ []) }
{
    let one = Lit::new(variable(1)?, first);
    let two = Lit::new(variable(2)?, second);
    Ok(LitList::from_vec(Vec::from_slice(alloc, &[one, two])?)?)
}

// Puts the clauses 1 2 and -1 -2 in.
fn put_clauses(alloc: Global, clauses: &mut ClauseList) -> Result<(), Fail>
    requires { clauses.old ≡ [] }
    ensures { OnOk result (clauses.new ≡ differ) }
{
    clauses.push(clause(alloc, true, true)?)?;
    clauses.push(clause(alloc, false, false)?)?;
    Ok(())
}

// The clauses 1 2 and -1 -2.
fn clauses(alloc: Global) -> Result<ClauseList, Fail>
    ensures { IfOk result (λ cs. cs ≡ differ) }
{
    let mut clauses = ClauseList::new(alloc);
    put_clauses(alloc, &mut clauses)?;
    Ok(clauses)
}

// The formula, where 2 is to differ from 1.
fn differing(alloc: Global) -> Result<Formula, Fail>
    ensures prefix { IfOk result (λ f. f.prefix ≡ record { quantifier = Forall; variables = 1 ∷ [] }
        ∷ record { quantifier = Exists; variables = 2 ∷ [] } ∷ []) }
    ensures clauses { IfOk result (λ f. f.clauses ≡ differ) }
{
    Ok(Formula {
        prefix: board(alloc)?,
        clauses: clauses(alloc)?,
        declared_vars: 2,
        declared_clauses: 2,
    })
}

// The check formula of a circuit under assumptions.
pub(crate) fn checked(
    alloc: Global,
    game: &Formula,
    assumptions: &[Lit],
    player: &Strategy,
) -> Result<Formula, Fail>
    requires { IsFor game.now.prefix game.now.clauses assumptions.now player.now }
{
    Ok(check_formula(alloc, game, assumptions, player)?)
}

// The check formula of a rule, in the formula where 2 is to differ from 1.
pub(crate) fn check_rule(alloc: Global, rule: Rule) -> Result<Formula, Fail> {
    let game = differing(alloc)?;
    let player = player(alloc, rule)?;
    Ok(check_formula(alloc, &game, &[], &player)?)
}

// A circuit without inputs and outputs.
fn idle(alloc: Global, winner: Quant) -> Result<Strategy, Fail>
    ensures strategy { IfOk result IsStrategy }
    ensures inputs { IfOk result (λ s. s.inputs ≡ []) }
    ensures outputs { IfOk result (λ s. output_vars s.outputs ≡ []) }
{
    Ok(Strategy {
        aig: Aig::new(alloc, 0)?,
        winner,
        inputs: VarList::from_vec(Vec::new(alloc)),
        outputs: OutputList::from_vec(Vec::new(alloc)),
    })
}

// The check formula of such a circuit, in a formula without variables and clauses.
fn check_idle(alloc: Global, game: &Formula, winner: Quant) -> Result<Formula, Fail>
    requires prefix { game.now.prefix ≡ [] }
    requires clauses { game.now.clauses ≡ [] }
{
    let player = idle(alloc, winner)?;
    checked(alloc, game, &[], &player)
}

// The check formula of a circuit without inputs and outputs, for no clause.
pub(crate) fn check_nothing(alloc: Global, winner: Quant) -> Result<Formula, Fail> {
    let game = Formula {
        prefix: Prefix::new(alloc),
        clauses: ClauseList::new(alloc),
        declared_vars: 0,
        declared_clauses: 0,
    };
    check_idle(alloc, &game, winner)
}
