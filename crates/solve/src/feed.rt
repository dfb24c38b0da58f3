//! A formula that was read, fed to an engine. The clauses are turned over once before they move in, since a vector
//! gives back its end.
ghost use Rattle.std.specs.Prelude.{◌≡◌, ◌∷◌, ◌++◌, ◌<◌, ◌≤◌, ◌^◌, [], length, reverse, IfOk, IsOkUnless, OnOk};
ghost use Rattle.std.specs.List.{AllByRecursion};
ghost use Rattle.prefix.specs.Scopes.{IsAscending, IsPrefix};
ghost use Rattle.truth.specs.Formed.{IsClauseOver, IsFormed};
ghost use Rattle.qdimacs.specs.Kept.{AreNew};
ghost use Rattle.frames.specs.State.{literals_in};
ghost use Rattle.solve.specs.Feeding.{HoldsFormula};

use engine::Engine;
use frames::FrameRefusal;
use prefix::{LitList, Prefix, Quant, Var};
use std::alloc::{AllocError, Global};
use std::collections::BTreeSet;
use truth::Formula;

// After so many clauses that have moved their room is given back.
const MOVED: usize = 4_096;

// Gives the scopes, the variables and copies of the clauses of a formula to an engine that has none. They are refused
// for want of memory alone. The time is linear in the variables and literals.
pub(crate) fn feed(alloc: Global, engine: &mut Engine, f: &Formula) -> Result<(), FrameRefusal>
    requires empty { HoldsFormula [] [] engine.old }
    requires formed { IsFormed f.now }
    ensures ok { OnOk result (HoldsFormula f.now.prefix f.now.clauses engine.new) }
    ensures memory { IsOkUnless result FrameRefusal.NoMemory }
{
    feed_scopes(engine, &f.prefix)?;
    feed_clauses(alloc, engine, f.clauses.clauses())
}

// The same of a formula whose clauses move in, so that they stand once; its prefix goes before they come.
pub(crate) fn feed_whole(engine: &mut Engine, f: Formula) -> Result<(), FrameRefusal>
    requires empty { HoldsFormula [] [] engine.old }
    requires formed { IsFormed f }
    ensures ok { OnOk result (HoldsFormula f.prefix f.clauses engine.new) }
    ensures memory { IsOkUnless result FrameRefusal.NoMemory }
{
    feed_scopes(engine, &f.prefix)?;
    drop(f.prefix);
    move_clauses(engine, f.clauses.into_vec())
}

// Gives the scopes with their variables.
fn feed_scopes(engine: &mut Engine, prefix: &Prefix) -> Result<(), FrameRefusal>
    requires { HoldsFormula [] [] engine.old }
    ensures ok { OnOk result (HoldsFormula prefix.now [] engine.new) }
    ensures valid { IsPrefix prefix.now }
    ensures memory { IsOkUnless result FrameRefusal.NoMemory }
{
    for number in 1..prefix.scopes() + 1 {
        if let Some(quant) = prefix.scope_quant(number) {
            feed_scope(engine, quant, prefix.vars_of(number))?;
        }
    }
    Ok(())
}

// Gives a scope, as the last, with its variables.
fn feed_scope(engine: &mut Engine, quant: Quant, vars: &BTreeSet<Var>) -> Result<(), FrameRefusal>
    requires holds { HoldsFormula engine.old.formula.scopes [] engine.old }
    requires room { length engine.old.formula.scopes < 65536 }
    requires new { AreNew engine.old.formula.scopes vars.now.keys }
    requires ascending { IsAscending vars.now.keys }
    ensures ok { OnOk result (HoldsFormula (engine.old.formula.scopes
        ++ record { quantifier = quant; variables = vars.now.keys } ∷ []) [] engine.new) }
    ensures memory { IsOkUnless result FrameRefusal.NoMemory }
{
    engine.scope(quant, None)?;
    let number = engine.prefix().scopes() as u64;
    for var in vars {
        engine.var(var.number() as u64, number)?;
    }
    Ok(())
}

// Gives the clauses, copied.
fn feed_clauses(alloc: Global, engine: &mut Engine, clauses: &[LitList]) -> Result<(), FrameRefusal>
    requires holds { HoldsFormula engine.old.formula.scopes [] engine.old }
    requires valid { IsPrefix engine.old.formula.scopes }
    requires rows { AllByRecursion (IsClauseOver engine.old.formula.scopes) clauses.now }
    requires count { length clauses.now ≤ 2 ^ 24 }
    requires amount { literals_in clauses.now ≤ 2 ^ 28 }
    ensures ok { OnOk result (HoldsFormula engine.old.formula.scopes clauses.now engine.new) }
    ensures memory { IsOkUnless result FrameRefusal.NoMemory }
{
    for clause in clauses {
        let row = copied(alloc, clause)?;
        engine.row(row)?;
    }
    Ok(())
}

// Gives the clauses, which move in from the first on. The room of those that have moved is given back as they go.
fn move_clauses(engine: &mut Engine, clauses: Vec<LitList>) -> Result<(), FrameRefusal>
    requires holds { HoldsFormula engine.old.formula.scopes [] engine.old }
    requires valid { IsPrefix engine.old.formula.scopes }
    requires rows { AllByRecursion (IsClauseOver engine.old.formula.scopes) clauses.items }
    requires count { length clauses.items ≤ 2 ^ 24 }
    requires amount { literals_in clauses.items ≤ 2 ^ 28 }
    ensures ok { OnOk result (HoldsFormula engine.old.formula.scopes clauses.items engine.new) }
    ensures memory { IsOkUnless result FrameRefusal.NoMemory }
{
    let mut to_come = clauses;
    to_come.reverse();
    move_all(engine, &mut to_come)
}

// Gives the clauses, which move in from the last on.
fn move_all(engine: &mut Engine, clauses: &mut Vec<LitList>) -> Result<(), FrameRefusal>
    requires holds { HoldsFormula engine.old.formula.scopes [] engine.old }
    requires valid { IsPrefix engine.old.formula.scopes }
    requires rows { AllByRecursion (IsClauseOver engine.old.formula.scopes) (reverse clauses.old.items) }
    requires count { length (reverse clauses.old.items) ≤ 2 ^ 24 }
    requires amount { literals_in (reverse clauses.old.items) ≤ 2 ^ 28 }
    ensures ok { OnOk result (HoldsFormula engine.old.formula.scopes (reverse clauses.old.items) engine.new) }
    ensures memory { IsOkUnless result FrameRefusal.NoMemory }
{
    while let Some(clause) = clauses.pop() {
        engine.row(clause)?;
        give_back(clauses);
    }
    Ok(())
}

// Gives back the room of the clauses that have moved, each time so many have.
fn give_back(clauses: &mut Vec<LitList>)
    ensures { clauses.new.items ≡ clauses.old.items }
{
    if clauses.len() % MOVED == 0 {
        clauses.shrink_to_fit();
    }
}

// A copy of a clause.
fn copied(alloc: Global, clause: &LitList) -> Result<LitList, AllocError>
    ensures { IfOk result (λ row. row ≡ clause.now) }
{
    let mut lits = Vec::with_capacity(alloc, clause.lits().len())?;
    lits.extend_from_slice(clause.lits())?;
    LitList::from_vec(lits)
}
