//! Small formulas that are drawn, and decided in two ways.
ghost use Rattle.std.specs.Prelude.{◌<◌};

use engine::{Engine, SolveStop};
use fixtures::{Random, literal, prefix_of, rows};
use prefix::{Lit, LitList, Prefix, Quant};
use std::alloc::Global;
use std::test::Fail;
use steps::Steps;
use truth::{ClauseList, Formula, decide_plain};

// How many variables a formula has, two in each of its three scopes.
const VARS: u64 = 6;

// The truth that the engine finds with so many steps.
pub(crate) fn truth_within(engine: &mut Engine, budget: u64) -> Result<bool, Fail> {
    Ok(engine.solve(&mut Steps::new(budget))?.truth)
}

// Puts in a scope of the variables from one number to another.
pub(crate) fn put_scope(
    engine: &mut Engine,
    quant: Quant,
    first: u64,
    last: u64,
) -> Result<(), Fail> {
    engine.scope(quant, None)?;
    let scope = engine.prefix().scopes() as u64;
    for var in first..=last {
        engine.var(var, scope)?;
    }
    Ok(())
}

// Puts in clauses, each with a 0 behind it, by a row that is empty.
fn put_by(engine: &mut Engine, row: &mut Vec<i64>, numbers: &[i32]) -> Result<(), Fail> {
    for number in numbers {
        if *number != 0 {
            row.push(i64::from(*number))?;
            continue;
        }
        engine.clause(row.as_slice())?;
        row.clear();
    }
    Ok(())
}

// Puts in clauses, each with a 0 behind it.
pub(crate) fn put(alloc: Global, engine: &mut Engine, numbers: &[i32]) -> Result<(), Fail> {
    let mut row = Vec::new(alloc);
    put_by(engine, &mut row, numbers)
}

// Assumes literals.
pub(crate) fn assume(engine: &mut Engine, lits: &[i32]) -> Result<(), Fail> {
    for lit in lits {
        engine.assume(i64::from(*lit))?;
    }
    Ok(())
}

// Puts a row over the first variables at the end of a list, each of them with either sign or left out.
fn draw_row(random: &mut Random, row: &mut Vec<i32>, vars: u16) -> Result<(), Fail> {
    for var in 1..=vars {
        match random.below(5) {
            0 => row.push(i32::from(var))?,
            1 => row.push(-i32::from(var))?,
            _ => continue,
        }
    }
    Ok(())
}

// Puts clauses, each with a 0 behind it, at the end of a list, one to so many.
fn draw_clauses(random: &mut Random, numbers: &mut Vec<i32>, most: u32) -> Result<(), Fail>
    requires { 0 < most }
{
    for _ in 0..=random.below(most) {
        draw_row(random, numbers, 6)?;
        numbers.push(0)?;
    }
    Ok(())
}

// The quantifier of the first, the second or the third scope, by the bits of a number.
fn quant_of(quants: u32, scope: u64) -> Quant {
    let bit = match scope {
        1 => quants % 2,
        2 => quants / 2 % 2,
        _ => quants / 4 % 2,
    };
    if bit == 0 {
        Quant::Exists
    } else {
        Quant::Forall
    }
}

// A formula over six variables in three scopes, whose quantifiers are the bits of a number: the clauses of frame 0,
// those of a frame to be pushed, and literals of the first scope to assume.
#[derive(Drop)]
struct Drawn {
    alloc: Global,
    quants: u32,
    clauses: Vec<i32>,
    pushed: Vec<i32>,
    assumed: Vec<i32>,
}

impl Drawn {
    fn new(alloc: Global, seed: u32) -> Result<Self, Fail> {
        let mut drawn = Self {
            alloc,
            quants: 0,
            clauses: Vec::new(alloc),
            pushed: Vec::new(alloc),
            assumed: Vec::new(alloc),
        };
        drawn.fill(&mut Random::new(seed))?;
        Ok(drawn)
    }

    fn fill(&mut self, random: &mut Random) -> Result<(), Fail> {
        self.quants = random.below(8);
        draw_clauses(random, &mut self.clauses, 9)?;
        draw_clauses(random, &mut self.pushed, 4)?;
        draw_row(random, &mut self.assumed, 2)
    }

    // Puts the scopes and the clauses of frame 0 into a new engine.
    fn put_into(&self, engine: &mut Engine) -> Result<(), Fail> {
        for scope in 1..=3 {
            let quant = quant_of(self.quants, scope);
            put_scope(engine, quant, 2 * scope - 1, 2 * scope)?;
        }
        put(self.alloc, engine, &self.clauses)
    }

    // Whether verdicts are right: of frame 0, again, and under assumptions.
    fn goes_alone(&self, engine: &mut Engine) -> Result<bool, Fail> {
        let alone = self.is_right(engine, false, false)?;
        let again = self.is_right(engine, false, false)?;
        let assuming = self.is_right(engine, false, true)?;
        Ok(alone && again && assuming)
    }

    // The same with the clauses of the pushed frame too, and under assumptions there.
    fn goes_pushed(&self, engine: &mut Engine) -> Result<bool, Fail> {
        put(self.alloc, engine, &self.pushed)?;
        let pushed = self.is_right(engine, true, false)?;
        let both = self.is_right(engine, true, true)?;
        Ok(pushed && both)
    }

    // Whether verdicts are right before a frame is pushed, with it, and without it again.
    fn goes_through_frames(&self, engine: &mut Engine) -> Result<bool, Fail> {
        self.put_into(engine)?;
        let alone = self.goes_alone(engine)?;
        engine.push()?;
        let pushed = self.goes_pushed(engine)?;
        engine.pop()?;
        let popped = self.is_right(engine, false, false)?;
        Ok(alone && pushed && popped)
    }

    // Solves, with the pushed frame where it is, under the assumptions where that is asked for, and compares the
    // verdict with that of the plain recursion.
    fn is_right(
        &self,
        engine: &mut Engine,
        is_pushed: bool,
        is_assuming: bool,
    ) -> Result<bool, Fail> {
        let plain = self.plain(is_pushed, is_assuming)?;
        if is_assuming {
            assume(engine, &self.assumed)?;
        }
        Ok(truth_within(engine, u64::MAX)? == plain)
    }

    // Puts the clauses at the end of a list, those of the pushed frame where it is, and what is assumed.
    fn push_all(
        &self,
        clauses: &mut ClauseList,
        is_pushed: bool,
        assumed: &[i32],
    ) -> Result<(), Fail> {
        push_clauses(self.alloc, clauses, &self.clauses)?;
        if is_pushed {
            push_clauses(self.alloc, clauses, &self.pushed)?;
        }
        push_units(self.alloc, clauses, assumed)
    }

    fn clause_list(&self, is_pushed: bool, assumed: &[i32]) -> Result<ClauseList, Fail> {
        let mut clauses = ClauseList::new(self.alloc);
        self.push_all(&mut clauses, is_pushed, assumed)?;
        Ok(clauses)
    }

    // The verdict of the plain recursion, where assumed literals are clauses over variables that are tried first.
    fn plain(&self, is_pushed: bool, is_assuming: bool) -> Result<bool, Fail> {
        let assumed: &[i32] = if is_assuming { &self.assumed } else { &[] };
        let clauses = self.clause_list(is_pushed, assumed)?;
        let prefix = assuming(self.alloc, self.quants, assumed)?;
        plain_truth(self.alloc, prefix, clauses)
    }

    // Whether a solve with so few steps is right, or spends them all and tells so, which it never does where they are
    // enough; and the next one is right.
    fn stops_at(&self, engine: &mut Engine, budget: u64, enough: u64) -> Result<bool, Fail> {
        self.put_into(engine)?;
        let plain = self.plain(false, false)?;
        let is_kept = keeps_budget(engine, plain, budget, enough);
        Ok(self.is_right(engine, false, false)? && is_kept)
    }
}

// Whether a solve finds this truth, or spends its budget and tells so, where that isn't enough.
fn keeps_budget(engine: &mut Engine, truth: bool, budget: u64, enough: u64) -> bool {
    let mut steps = Steps::new(budget);
    match engine.solve(&mut steps) {
        Ok(verdict) => verdict.truth == truth,
        Err(SolveStop::Spent(stopped)) => {
            stopped.budget() == budget
                && stopped.vars() == VARS as usize
                && steps.spent() == budget
                && budget < enough
        }
        Err(SolveStop::NoMemory) => false,
    }
}

// Whether a new engine's verdicts of a drawn formula are right where a frame comes and goes.
pub(crate) fn are_frames_right(
    engine: &mut Engine,
    alloc: Global,
    seed: u32,
) -> Result<bool, Fail> {
    let drawn = Drawn::new(alloc, seed)?;
    drawn.goes_through_frames(engine)
}

// Whether a solve of a drawn formula in a new engine keeps its budget.
pub(crate) fn is_budget_kept(
    engine: &mut Engine,
    alloc: Global,
    seed: u32,
    budget: u64,
    enough: u64,
) -> Result<bool, Fail> {
    engine.set_restarts(2);
    let drawn = Drawn::new(alloc, seed)?;
    drawn.stops_at(engine, budget, enough)
}

// Puts clauses, each with a 0 behind it, at the end of a list.
pub(crate) fn push_clauses(
    alloc: Global,
    clauses: &mut ClauseList,
    numbers: &[i32],
) -> Result<(), Fail> {
    for lits in rows(alloc, numbers)? {
        clauses.push(lits)?;
    }
    Ok(())
}

// The clause of one literal.
fn unit_of(alloc: Global, lit: Lit) -> Result<LitList, Fail> {
    Ok(LitList::from_vec(Vec::from_slice(alloc, &[lit])?)?)
}

// Puts clauses of one literal each at the end of a list.
fn push_units(alloc: Global, clauses: &mut ClauseList, numbers: &[i32]) -> Result<(), Fail> {
    for number in numbers {
        let lit = literal(*number)?;
        clauses.push(unit_of(alloc, lit)?)?;
    }
    Ok(())
}

// The scope of a variable, where one that is assumed is in the first of four, and the others two in each of those
// behind it.
fn scope_of(assumed: &[i32], var: u64) -> u64 {
    if is_over(assumed, var) {
        1
    } else {
        var.div_ceil(2) + 1
    }
}

// The prefix, with assumed variables in an existential scope of their own before all others.
fn assuming(alloc: Global, quants: u32, assumed: &[i32]) -> Result<Prefix, Fail> {
    let quants = [
        Quant::Exists,
        quant_of(quants, 1),
        quant_of(quants, 2),
        quant_of(quants, 3),
    ];
    let scopes = [
        scope_of(assumed, 1),
        scope_of(assumed, 2),
        scope_of(assumed, 3),
        scope_of(assumed, 4),
        scope_of(assumed, 5),
        scope_of(assumed, 6),
    ];
    prefix_of(alloc, &quants, &scopes)
}

// Whether one of these literals is over a variable.
fn is_over(lits: &[i32], var: u64) -> bool {
    lits.iter().any(|lit| u64::from(lit.unsigned_abs()) == var)
}

// The verdict of the plain recursion.
pub(crate) fn plain_truth(
    alloc: Global,
    prefix: Prefix,
    clauses: ClauseList,
) -> Result<bool, Fail> {
    let formula = Formula {
        prefix,
        clauses,
        declared_vars: 0,
        declared_clauses: 0,
    };
    Ok(decide_plain(alloc, &formula, &mut Steps::new(u64::MAX))?)
}
