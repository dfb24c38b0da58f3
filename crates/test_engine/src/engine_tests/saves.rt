//! What the search saves, in steps: no clause says that lessons, that these are shortened, that many are kept,
//! priorities, first signs or restarts help, or that end rows are kept. Each number lies between the steps that a solve
//! takes and those that it takes without one of these.
ghost use Rattle.std.specs.Prelude.{◌<◌};
ghost use Rattle.engine.specs.Keeping.{MayBeKept};

use super::play::{put, put_scope};
use super::{Job, holds};
use engine::{Engine, SolveStop};
use fixtures::Random;
use prefix::Quant;
use std::alloc::Global;
use std::test::Fail;
use steps::Steps;

// How a solve within so many steps ended: with a truth, or stopped after so many restarts.
#[derive(Clone, Copy, PartialEq, Eq)]
pub(crate) enum Ended {
    Answered(bool),
    Stopped(u64),
}

// Solves within so many steps.
pub(crate) fn solve(engine: &mut Engine, budget: u64) -> Result<Ended, Fail> {
    match engine.solve(&mut Steps::new(budget)) {
        Ok(verdict) => Ok(Ended::Answered(verdict.truth)),
        Err(SolveStop::Spent(stopped)) => Ok(Ended::Stopped(stopped.restarts())),
        Err(SolveStop::NoMemory) => Err("no memory")?,
    }
}

// The variable that says that a pigeon sits in a hole.
fn sits(pigeon: u16, hole: u16) -> u16
    requires pigeon { pigeon < 8 }
    requires hole { hole < 8 }
{
    8 * pigeon + hole + 1
}

// Puts the clause that a pigeon sits in a hole, with a 0 behind it, at the end of a list.
fn push_home(clause: &mut Vec<i32>, holes: u16, pigeon: u16) -> Result<(), Fail>
    requires holes { holes < 8 }
    requires pigeon { pigeon < 8 }
{
    for hole in 0..holes {
        clause.push(i32::from(sits(pigeon, hole)))?;
    }
    Ok(clause.push(0)?)
}

// A pigeon sits in a hole.
fn put_home(engine: &mut Engine, alloc: Global, holes: u16, pigeon: u16) -> Result<(), Fail>
    requires holes { holes < 8 }
    requires pigeon { pigeon < 8 }
{
    let mut clause = Vec::new(alloc);
    push_home(&mut clause, holes, pigeon)?;
    put(alloc, engine, &clause)
}

// Two pigeons don't sit in one hole.
fn put_apart(
    engine: &mut Engine,
    alloc: Global,
    holes: u16,
    one: u16,
    other: u16,
) -> Result<(), Fail>
    requires holes { holes < 8 }
    requires one { one < 8 }
    requires other { other < 8 }
{
    for hole in 0..holes {
        let clause = [
            -i32::from(sits(one, hole)),
            -i32::from(sits(other, hole)),
            0,
        ];
        put(alloc, engine, &clause)?;
    }
    Ok(())
}

// A pigeon sits in a hole, and in none with an earlier one.
fn put_pigeon(engine: &mut Engine, alloc: Global, holes: u16, pigeon: u16) -> Result<(), Fail>
    requires holes { holes < 8 }
    requires pigeon { pigeon < 8 }
{
    put_home(engine, alloc, holes, pigeon)?;
    for earlier in 0..pigeon {
        put_apart(engine, alloc, holes, earlier, pigeon)?;
    }
    Ok(())
}

// Puts in that there is one pigeon more than there are holes, and each sits in a hole of its own.
fn put_pigeons(engine: &mut Engine, alloc: Global, holes: u16) -> Result<(), Fail>
    requires { holes < 8 }
{
    put_scope(engine, Quant::Exists, 1, 64)?;
    for pigeon in 0..=holes {
        put_pigeon(engine, alloc, holes, pigeon)?;
    }
    Ok(())
}

// A literal of one of so many variables, with either sign.
fn draw_literal(random: &mut Random, vars: u32) -> i32
    requires some { 0 < vars }
    requires most { vars < 1000 }
{
    let var = random.below(vars) as i32 + 1;
    if random.below(2) == 0 { var } else { -var }
}

// A clause of three literals that are drawn.
fn put_drawn(engine: &mut Engine, alloc: Global, random: &mut Random, vars: u32) -> Result<(), Fail>
    requires some { 0 < vars }
    requires most { vars < 1000 }
{
    let clause = [
        draw_literal(random, vars),
        draw_literal(random, vars),
        draw_literal(random, vars),
        0,
    ];
    put(alloc, engine, &clause)
}

// Puts in so many of them.
pub(crate) fn put_many(
    engine: &mut Engine,
    alloc: Global,
    seed: u32,
    vars: u32,
    clauses: u32,
) -> Result<(), Fail>
    requires some { 0 < vars }
    requires most { vars < 1000 }
{
    let mut random = Random::new(seed);
    put_scope(engine, Quant::Exists, 1, u64::from(vars))?;
    for _ in 0..clauses {
        put_drawn(engine, alloc, &mut random, vars)?;
    }
    Ok(())
}

#[derive(Clone, Copy)]
enum Formula {
    // One pigeon more than there are holes, at most seven of these.
    Pigeons(u16),
    // So many clauses that are drawn from a seed, over so many variables, at least one and fewer than a thousand: the
    // seed, the variables and the clauses.
    Many(u32, u32, u32),
}

fn put_formula(engine: &mut Engine, alloc: Global, formula: Formula) -> Result<(), Fail> {
    match formula {
        Formula::Pigeons(holes) => put_pigeons(engine, alloc, holes.min(7)),
        Formula::Many(seed, vars, clauses) => {
            if vars == 0 || vars >= 1000 {
                return Err("too few variables, or too many")?;
            }
            put_many(engine, alloc, seed, vars, clauses)
        }
    }
}

// Solves within each of these numbers of steps in turn. Fails with the first one that doesn't end as it should.
fn solve_each(engine: &mut Engine, turns: &[(u64, Ended)]) -> Result<(), Fail> {
    for (budget, want) in turns {
        let ended = solve(engine, *budget)?;
        if ended != *want {
            return Err(("steps", *budget))?;
        }
    }
    Ok(())
}

fn put_and_solve(
    engine: &mut Engine,
    alloc: Global,
    formula: Formula,
    restarts: u32,
    turns: &[(u64, Ended)],
) -> Result<(), Fail> {
    put_formula(engine, alloc, formula)?;
    engine.set_restarts(restarts);
    solve_each(engine, turns)
}

// Solves a formula in a new engine, where a search may begin anew so often. Fails where a solve doesn't end so.
fn ends(
    alloc: Global,
    formula: Formula,
    restarts: u32,
    turns: &[(u64, Ended)],
) -> Result<(), Fail> {
    let mut engine = Engine::new(alloc)?;
    put_and_solve(&mut engine, alloc, formula, restarts, turns)
}

// A solve goes on with the lessons of one that was stopped; where lessons aren't kept, this one takes 4,539 steps.
#[test]
fn lessons_are_kept_for_the_next_solve(rt: HostRuntime) -> Result<(), Fail> {
    let turns = [(1_500, Ended::Stopped(0)), (2_000, Ended::Answered(false))];
    ends(rt.alloc(), Formula::Pigeons(5), 0, &turns)
}

// Solved again, a formula takes no step, unless a lesson of one literal is assigned first. Where end rows aren't kept,
// it takes some.
#[test]
fn end_rows_are_kept_for_the_next_solve(rt: HostRuntime) -> Result<(), Fail> {
    for (formula, first, truth) in [
        (Formula::Pigeons(5), 4_000, false),
        (Formula::Many(3, 80, 344), 8_000, true),
    ] {
        let end = Ended::Answered(truth);
        ends(rt.alloc(), formula, 0, &[(first, end), (0, end)])?;
    }
    Ok(())
}

// Puts in a clause in a frame of its own, solves, and drops the frame.
fn go_round(engine: &mut Engine) -> Result<(), Fail> {
    engine.push()?;
    engine.clause(&[1])?;
    solve(engine, 10)?;
    Ok(engine.pop()?)
}

// So many such rounds.
fn go_rounds(engine: &mut Engine, rounds: u32) -> Result<(), Fail> {
    for _ in 0..rounds {
        go_round(engine)?;
    }
    Ok(())
}

// Whether as many steps are live in a new engine behind the first such round as behind so many more.
pub(crate) fn leaves_no_more(engine: &mut Engine, rounds: u32) -> Result<bool, Fail> {
    put_scope(engine, Quant::Exists, 1, 1)?;
    go_round(engine)?;
    let first = engine.derivation().live_steps();
    go_rounds(engine, rounds)?;
    Ok(engine.derivation().live_steps() == first)
}

// A later round makes no initial cube, since that of the first one serves.
#[test]
fn rounds_with_the_same_clause_leave_no_more_behind(rt: HostRuntime) -> Result<(), Fail> {
    assert!(rt; holds(rt.alloc(), Job::Rounds(20))?);
    Ok(())
}

// This takes 3,927 steps. Where priorities don't begin with how often a variable occurs it takes 6,021, where none
// rises 5,303, without those of the rows that lessons were resolved with 5,168, and where lessons aren't shortened
// 4,742.
#[test]
fn priorities_count_and_lessons_are_shortened(rt: HostRuntime) -> Result<(), Fail> {
    let formula = Formula::Many(5, 80, 344);
    ends(rt.alloc(), formula, 0, &[(4_300, Ended::Answered(false))])
}

// This takes 919 steps. Where each existential variable is false at first it takes 1,118.
#[test]
fn first_signs_are_those_of_most_clauses(rt: HostRuntime) -> Result<(), Fail> {
    let formula = Formula::Many(0, 800, 2_400);
    ends(rt.alloc(), formula, 0, &[(1_000, Ended::Answered(true))])
}

// Solves a formula in a new engine that may keep so many long learned rows. Fails where a solve doesn't end so.
fn ends_with(alloc: Global, formula: Formula, kept: u32, turns: &[(u64, Ended)]) -> Result<(), Fail>
    requires { MayBeKept kept }
{
    let mut engine = Engine::new(alloc)?;
    engine.set_kept_rows(kept);
    put_and_solve(&mut engine, alloc, formula, 0, turns)
}

// This takes 40,665 steps. Where more than 512 rows are forgotten it takes 84,894.
#[test]
fn many_rows_are_kept_where_they_may_be(rt: HostRuntime) -> Result<(), Fail> {
    let formula = Formula::Pigeons(7);
    ends_with(
        rt.alloc(),
        formula,
        100_000,
        &[(60_000, Ended::Answered(false))],
    )?;
    ends_with(rt.alloc(), formula, 512, &[(60_000, Ended::Stopped(0))])
}

// The search begins anew with the 64th lesson, and where that is allowed with the 128th.
#[test]
fn a_search_begins_anew_no_more_often_than_it_may(rt: HostRuntime) -> Result<(), Fail> {
    for (holes, restarts, budget, made) in [
        (5, 0, 2_000, 0),
        (5, 1, 1_000, 0),
        (5, 1, 2_000, 1),
        (6, 1, 9_000, 1),
        (6, 2, 9_000, 2),
    ] {
        let formula = Formula::Pigeons(holes);
        let stopped = (budget, Ended::Stopped(made));
        ends(rt.alloc(), formula, restarts, &[stopped])?;
    }
    Ok(())
}
