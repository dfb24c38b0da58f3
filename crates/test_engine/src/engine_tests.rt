//! Tests of `engine`: formulas that are decided, under assumptions and frames.
mod asks;
mod forgets;
mod leaves;
mod limits;
mod play;
mod saves;

use asks::{Case, answers, falls_silent};
use engine::Engine;
use forgets::forgets_many;
use play::{are_frames_right, is_budget_kept, put, put_scope, truth_within};
use prefix::Quant;
use saves::leaves_no_more;
use std::alloc::Global;
use std::test::Fail;

// One of two variables that follow each other holds.
fn either(engine: &mut Engine, var: u32) -> Result<(), Fail> {
    let lit = i64::from(var);
    Ok(engine.clause(&[lit, lit + 1])?)
}

// One of two variables holds, whatever another one is.
fn whatever(engine: &mut Engine, var: u32) -> Result<(), Fail> {
    let lit = i64::from(var);
    engine.clause(&[lit, 41, 42])?;
    Ok(engine.clause(&[-lit, 41, 42])?)
}

// Forty existential variables that are decided first, and a contradiction behind a universal one.
fn put_contradiction_behind(engine: &mut Engine, alloc: Global) -> Result<(), Fail> {
    put_scope(engine, Quant::Exists, 1, 40)?;
    put_scope(engine, Quant::Forall, 41, 41)?;
    put_scope(engine, Quant::Exists, 42, 43)?;
    for var in 1..40 {
        either(engine, var)?;
    }
    let contradiction = [42, 43, 0, 42, -43, 0, -42, 43, 0, -42, -43, 0];
    put(alloc, engine, &contradiction)
}

// Forty universal variables, for which cubes are learned.
fn put_forty_universal(engine: &mut Engine) -> Result<(), Fail> {
    put_scope(engine, Quant::Forall, 1, 40)?;
    put_scope(engine, Quant::Exists, 41, 42)?;
    for var in 1..=40 {
        whatever(engine, var)?;
    }
    Ok(engine.clause(&[-41, -42])?)
}

// One of the two formulas above.
#[derive(Clone, Copy)]
pub(crate) enum Large {
    ContradictionBehind,
    FortyUniversal,
}

fn put_large(engine: &mut Engine, alloc: Global, formula: Large) -> Result<(), Fail> {
    match formula {
        Large::ContradictionBehind => put_contradiction_behind(engine, alloc),
        Large::FortyUniversal => put_forty_universal(engine),
    }
}

// What a test does with a new engine. An engine that a function owns makes its proof long, so one function owns them
// all.
#[derive(Clone, Copy)]
pub(crate) enum Job {
    // A formula has this truth, and is decided in at most a thousand steps.
    Large(Large, bool),
    // The verdicts of the formula that is drawn from a seed are right where a frame comes and goes.
    Frames(u32),
    // A solve of that formula with so many steps is right or spends them, where so many are enough.
    Budget(u32, u64, u64),
    // A verdict answers until a change comes.
    Silence,
    // A formula is decided, and its verdict answers, as it should.
    Answers(Case),
    // A thousand lessons are forgotten.
    Forgets,
    // So many rounds of push, solve and pop leave no more behind than one.
    Rounds(u32),
}

fn has_truth(
    engine: &mut Engine,
    alloc: Global,
    formula: Large,
    truth: bool,
) -> Result<bool, Fail> {
    put_large(engine, alloc, formula)?;
    Ok(truth_within(engine, 1000)? == truth)
}

// Whether it is so.
fn is_done(engine: &mut Engine, alloc: Global, job: Job) -> Result<bool, Fail> {
    match job {
        Job::Large(formula, truth) => has_truth(engine, alloc, formula, truth),
        Job::Frames(seed) => are_frames_right(engine, alloc, seed),
        Job::Budget(seed, budget, enough) => is_budget_kept(engine, alloc, seed, budget, enough),
        Job::Silence => falls_silent(engine),
        Job::Answers(case) => answers(engine, alloc, &case),
        Job::Forgets => forgets_many(engine, alloc),
        Job::Rounds(rounds) => leaves_no_more(engine, rounds),
    }
}

// The same with a new engine.
pub(crate) fn holds(alloc: Global, job: Job) -> Result<bool, Fail> {
    let mut engine = Engine::new(alloc)?;
    is_done(&mut engine, alloc, job)
}

#[test]
fn what_comes_first_is_not_tried_again(rt: HostRuntime) -> Result<(), Fail> {
    assert!(rt; holds(rt.alloc(), Job::Large(Large::ContradictionBehind, false))?);
    Ok(())
}

#[test]
fn cubes_spare_the_values_of_universal_variables(rt: HostRuntime) -> Result<(), Fail> {
    assert!(rt; holds(rt.alloc(), Job::Large(Large::FortyUniversal, true))?);
    Ok(())
}

// The verdicts of formulas from so many seeds are right. Fails with the first seed whose verdicts aren't.
fn go_through_frames(alloc: Global, seeds: u32) -> Result<(), Fail> {
    for seed in 0..seeds {
        if !holds(alloc, Job::Frames(seed))? {
            return Err(("seed", seed))?;
        }
    }
    Ok(())
}

// Clauses come in and go, variables are assumed, and each verdict is that of the plain recursion.
#[test]
fn verdicts_are_those_of_the_plain_recursion(rt: HostRuntime) -> Result<(), Fail> {
    go_through_frames(rt.alloc(), 1000)
}

// Budgets are kept with the formula from a seed. Fails with the first one that isn't.
fn keep_budgets(alloc: Global, seed: u32) -> Result<(), Fail> {
    let enough = 3 * (8 * 6 + 8) * 128;
    for budget in [0, 1, 20, enough - 1, enough] {
        if !holds(alloc, Job::Budget(seed, budget, enough))? {
            return Err((seed, budget))?;
        }
    }
    Ok(())
}

// With too few steps a solve stops where they are spent, and the next one is right; with enough it never stops.
#[test]
fn budgets_are_kept(rt: HostRuntime) -> Result<(), Fail> {
    for seed in 0..300 {
        keep_budgets(rt.alloc(), seed)?;
    }
    Ok(())
}
