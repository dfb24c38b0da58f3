//! Assumptions, solves, and what is set for them.
ghost use Rattle.std.specs.Prelude.{◌≡◌, ◌+◌, ◌≤◌, true, false, IfSome};
ghost use Rattle.frames.specs.Commands.{Assume, refusal_of};
ghost use Rattle.search.specs.Counting.{size_of};
ghost use Rattle.engine.specs.Keeping.{MayBeKept};
ghost use Rattle.engine.specs.State.{changed, forgotten};
ghost use Rattle.qbf_c.specs.Codes.{Did, accepted, bad_kept, no_engine};
ghost use Rattle.qbf_c.specs.Solved.{SolveSays};

use crate::code::{ACCEPTED, NO_ENGINE};
use crate::handle::{Handle, taken};
use crate::{asks, commands};
use std::alloc::Global;

/// Assumes a literal for the next verdict.
#[unsafe(no_mangle)]
pub extern "C" fn qbf_assume(alloc: Global, qbf: &mut Handle, lit: i64) -> u32
    ensures live { qbf.new.live ≡ qbf.old.live }
    ensures none { qbf.old.live ≡ false → result ≡ no_engine }
    ensures did { qbf.old.live ≡ true → Did (refusal_of qbf.old.engine.formula (Assume lit))
        (qbf.new.engine ≡ changed qbf.old.engine (Assume lit))
        (qbf.new.engine ≡ qbf.old.engine) result }
{
    let Some(mut engine) = taken(alloc, qbf) else {
        return NO_ENGINE;
    };
    let code = commands::assume(&mut engine, lit);
    *qbf = Handle::of(engine);
    code
}

/// Takes all assumptions back. It takes no memory.
#[unsafe(no_mangle)]
pub extern "C" fn qbf_forget_assumptions(alloc: Global, qbf: &mut Handle) -> u32
    ensures live { qbf.new.live ≡ qbf.old.live }
    ensures none { qbf.old.live ≡ false → result ≡ no_engine }
    ensures forgot { qbf.old.live ≡ true → (result ≡ accepted) × (qbf.new.engine ≡ forgotten qbf.old.engine) }
{
    let Some(mut engine) = taken(alloc, qbf) else {
        return NO_ENGINE;
    };
    engine.forget_assumptions();
    *qbf = Handle::of(engine);
    ACCEPTED
}

/// Decides the formula under the assumptions, in at most so many steps: 10 where it is true, 20 where it is false, 0
/// where the budget is spent.
#[unsafe(no_mangle)]
pub extern "C" fn qbf_solve(alloc: Global, qbf: &mut Handle, budget: u64, spent: &mut u64) -> u32
    ensures live { qbf.new.live ≡ qbf.old.live }
    ensures none { qbf.old.live ≡ false → (result ≡ no_engine) × (spent.new ≡ spent.old) }
    ensures says { qbf.old.live ≡ true → SolveSays budget qbf.old.engine qbf.new.engine spent.new result }
{
    let Some(mut engine) = taken(alloc, qbf) else {
        return NO_ENGINE;
    };
    let code = asks::solve(&mut engine, budget, spent);
    *qbf = Handle::of(engine);
    code
}

/// How often a solve may begin anew.
#[unsafe(no_mangle)]
pub extern "C" fn qbf_set_restarts(alloc: Global, qbf: &mut Handle, restarts: u32) -> u32
    ensures live { qbf.new.live ≡ qbf.old.live }
    ensures none { qbf.old.live ≡ false → result ≡ no_engine }
    ensures set { qbf.old.live ≡ true → (result ≡ accepted)
        × (qbf.new.engine ≡ record qbf.old.engine { restarts = restarts }) }
{
    let Some(mut engine) = taken(alloc, qbf) else {
        return NO_ENGINE;
    };
    engine.set_restarts(restarts);
    *qbf = Handle::of(engine);
    ACCEPTED
}

/// How many long learned rows a solve may keep, from 16 to 16,777,216.
#[unsafe(no_mangle)]
pub extern "C" fn qbf_set_kept_rows(alloc: Global, qbf: &mut Handle, rows: u32) -> u32
    ensures live { qbf.new.live ≡ qbf.old.live }
    ensures none { qbf.old.live ≡ false → result ≡ no_engine }
    ensures set { qbf.old.live ≡ true → MayBeKept rows → (result ≡ accepted)
        × (qbf.new.engine ≡ record qbf.old.engine { kept_rows = rows }) }
    ensures refused { qbf.old.live ≡ true → ¬ MayBeKept rows → (result ≡ bad_kept)
        × (qbf.new.engine ≡ qbf.old.engine) }
{
    let Some(mut engine) = taken(alloc, qbf) else {
        return NO_ENGINE;
    };
    let code = commands::set_kept_rows(&mut engine, rows);
    *qbf = Handle::of(engine);
    code
}

/// How many long learned rows are attached: with a verdict at most as many as its solve might keep, one more, and one
/// for each variable.
#[unsafe(no_mangle)]
pub extern "C" fn qbf_kept_long(alloc: Global, qbf: &mut Handle, rows: &mut u64) -> u32
    ensures live { qbf.new.live ≡ qbf.old.live }
    ensures none { qbf.old.live ≡ false → (result ≡ no_engine) × (rows.new ≡ rows.old) }
    ensures same { qbf.old.live ≡ true → qbf.new.engine ≡ qbf.old.engine }
    ensures told { qbf.old.live ≡ true → (result ≡ accepted) × (rows.new ≡ qbf.old.engine.kept_long) }
    ensures few { qbf.old.live ≡ true → IfSome qbf.old.engine.verdict
        (λ v. rows.new ≤ v.kept + 1 + size_of qbf.old.engine.formula.scopes) }
{
    let Some(engine) = taken(alloc, qbf) else {
        return NO_ENGINE;
    };
    *rows = engine.kept_long() as u64;
    *qbf = Handle::of(engine);
    ACCEPTED
}
