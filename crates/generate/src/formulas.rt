//! Formulas.
ghost use Rattle.std.specs.Prelude.{◌≡◌, ◌∷◌, ◌++◌, [], ◌+◌, ◌≤◌, ◌<◌, length, IfOk, OnOk, IsOkUnless};
ghost use Rattle.std.specs.List.{AllByRecursion};
ghost use Rattle.prefix.specs.Scopes.{all_variables};
ghost use Rattle.truth.specs.Formed.{IsFormed};
ghost use Rattle.generate.specs.Draws.{start_of};
ghost use Rattle.generate.specs.Made.{clauses_from, made, scope_from, scopes_over};

use crate::clause::draw_clause;
use crate::draws::Draws;
use memory::NoMemory;
use prefix::{Prefix, PrefixRefusal, Quant};
use std::alloc::{AllocError, Global};
use truth::{ClauseList, Formula};

/// The formula that SEED, a number of variables and a number of clauses stand for.
///
/// Its prefix has an existential, a universal and an existential scope; each clause has three literals over different
/// variables, drawn by a linear congruential generator. It declares the numbers of variables and of clauses given. The
/// time is linear in both.
///
/// Fails for want of memory alone.
pub fn make(alloc: Global, seed: u32, vars: u32, clauses: u32) -> Result<Formula, NoMemory>
    requires low { 3 ≤ vars }
    requires high { vars ≤ 32000 }
    requires count { clauses ≤ 1000000 }
    ensures value { IfOk result (λ f. f ≡ made seed vars clauses) }
    // It is as a formula that was read is.
    ensures formed { IfOk result IsFormed }
{
    let Ok(prefix) = make_prefix(alloc, vars) else {
        return Err(NoMemory);
    };
    let mut draws = Draws::new(seed);
    Ok(Formula {
        prefix,
        clauses: draw_clauses(alloc, &mut draws, vars, clauses)?,
        declared_vars: vars,
        declared_clauses: clauses,
    })
}

// The prefix over that many variables.
fn make_prefix(alloc: Global, vars: u32) -> Result<Prefix, PrefixRefusal>
    requires low { 3 ≤ vars }
    requires high { vars ≤ 32000 }
    ensures scopes { IfOk result (λ p. p ≡ scopes_over vars) }
    ensures memory { IsOkUnless result PrefixRefusal.NoMemory }
{
    let third = vars / 3;
    let mut prefix = Prefix::new(alloc);
    add_scope(&mut prefix, Quant::Exists, 1, third)?;
    add_scope(&mut prefix, Quant::Forall, third + 1, third)?;
    add_scope(&mut prefix, Quant::Exists, 2 * third + 1, vars - 2 * third)?;
    Ok(prefix)
}

// Puts in a scope, as the last, with so many variables from one on.
fn add_scope(prefix: &mut Prefix, quant: Quant, first: u32, count: u32) -> Result<(), PrefixRefusal>
    requires room { length prefix.old < 65536 }
    requires positive { 1 ≤ first }
    requires bound { first + count ≤ 1048577 }
    requires new { AllByRecursion (λ v. v < first) (all_variables prefix.old) }
    ensures ok { OnOk result (prefix.new ≡ prefix.old ++ scope_from quant first count ∷ []) }
    ensures memory { IsOkUnless result PrefixRefusal.NoMemory }
{
    prefix.add_scope(quant, None)?;
    let number = prefix.scopes() as u64;
    for v in first..first + count {
        prefix.add_var(v as u64, number)?;
    }
    Ok(())
}

// Draws so many clauses.
fn draw_clauses(
    alloc: Global,
    draws: &mut Draws,
    vars: u32,
    count: u32,
) -> Result<ClauseList, AllocError>
    requires low { 3 ≤ vars }
    requires high { vars ≤ 32000 }
    ensures { IfOk result (λ cs. cs ≡ clauses_from draws.old vars count) }
{
    let mut clauses = ClauseList::new(alloc);
    for _ in 0..count {
        clauses.push(draw_clause(alloc, draws, vars)?)?;
    }
    Ok(clauses)
}
