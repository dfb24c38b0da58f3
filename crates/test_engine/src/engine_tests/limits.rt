//! Formulas of one to four variables with a scope each, of all quantifiers, and budgets at their limits.
ghost use Rattle.std.specs.Prelude.{◌<◌};

use super::play::{plain_truth, push_clauses, put};
use engine::{Engine, SolveStop};
use generate::Draws;
use prefix::{Prefix, Quant};
use std::alloc::Global;
use std::test::Fail;
use steps::Steps;
use truth::ClauseList;

// So many variables, as many choices of quantifiers, the steps that always suffice, and those that do where a search
// may begin anew twice.
const LIMITS: [(u32, u32, u64, u64); 4] = [
    (1, 2, 64, 192),
    (2, 4, 192, 576),
    (3, 8, 512, 1_536),
    (4, 16, 1_280, 3_840),
];

// The quantifier of a scope, by the bits of a number.
fn quant_of(bits: u32, scope: u32) -> Quant {
    let mut left = bits;
    for _ in 1..scope {
        left /= 2;
    }
    if left % 2 == 1 {
        Quant::Forall
    } else {
        Quant::Exists
    }
}

// A formula: quantifiers of its scopes, each of which has the variable of its number, and clauses, each with a 0 behind
// it.
#[derive(Drop)]
struct Shape {
    alloc: Global,
    quants: Vec<Quant>,
    clauses: Vec<i32>,
}

// Puts a clause, with a 0 behind it, at the end of a list: each variable with a sign that is drawn, or left out.
fn draw_clause(draws: &mut Draws, clauses: &mut Vec<i32>, vars: u16) -> Result<(), Fail> {
    for var in 1..=vars {
        match draws.draw(3) {
            0 => continue,
            1 => clauses.push(i32::from(var))?,
            _ => clauses.push(-i32::from(var))?,
        }
    }
    Ok(clauses.push(0)?)
}

// Puts in a scope with the variable of its number.
fn put_next(engine: &mut Engine, quant: Quant) -> Result<(), Fail> {
    engine.scope(quant, None)?;
    let last = engine.prefix().scopes() as u64;
    engine.var(last, last)?;
    Ok(())
}

// The truth that a solve finds, unless it spends its budget, and the steps that it takes.
type Solved = (Option<bool>, u64);

fn solve(engine: &mut Engine, budget: u64) -> Result<Solved, Fail> {
    let mut steps = Steps::new(budget);
    match engine.solve(&mut steps) {
        Ok(verdict) => Ok((Some(verdict.truth), steps.spent())),
        Err(SolveStop::Spent(_)) => Ok((None, steps.spent())),
        Err(SolveStop::NoMemory) => Err("no memory")?,
    }
}

// Puts the quantifiers of so many scopes at the end of a list.
fn put_quants(quants: &mut Vec<Quant>, vars: u32, bits: u32) -> Result<(), Fail> {
    for scope in 1..=vars {
        quants.push(quant_of(bits, scope))?;
    }
    Ok(())
}

// Puts two clauses for each variable, which are drawn from a seed, at the end of a list.
fn draw_clauses(clauses: &mut Vec<i32>, vars: u32, seed: u32) -> Result<(), Fail>
    requires { vars < 5 }
{
    let mut draws = Draws::new(seed);
    for _ in 0..2 * vars {
        draw_clause(&mut draws, clauses, vars as u16)?;
    }
    Ok(())
}

// Puts in a scope of each of these quantifiers, with the variable of its number.
fn put_scopes(prefix: &mut Prefix, quants: &[Quant]) -> Result<(), Fail> {
    for quant in quants {
        prefix.add_scope(*quant, None)?;
        let last = prefix.scopes() as u64;
        prefix.add_var(last, last)?;
    }
    Ok(())
}

impl Shape {
    fn new(alloc: Global, vars: u32, bits: u32, seed: u32) -> Result<Self, Fail>
        requires { vars < 5 }
    {
        let mut shape = Self {
            alloc,
            quants: Vec::new(alloc),
            clauses: Vec::new(alloc),
        };
        shape.fill(vars, bits, seed)?;
        Ok(shape)
    }

    fn fill(&mut self, vars: u32, bits: u32, seed: u32) -> Result<(), Fail>
        requires { vars < 5 }
    {
        put_quants(&mut self.quants, vars, bits)?;
        draw_clauses(&mut self.clauses, vars, seed)
    }

    // Puts the formula into a new engine.
    fn put_into(&self, engine: &mut Engine) -> Result<(), Fail> {
        for quant in &self.quants {
            put_next(engine, *quant)?;
        }
        put(self.alloc, engine, &self.clauses)
    }

    fn prefix(&self) -> Result<Prefix, Fail> {
        let mut prefix = Prefix::new(self.alloc);
        put_scopes(&mut prefix, &self.quants)?;
        Ok(prefix)
    }

    fn clause_list(&self) -> Result<ClauseList, Fail> {
        let mut clauses = ClauseList::new(self.alloc);
        push_clauses(self.alloc, &mut clauses, &self.clauses)?;
        Ok(clauses)
    }

    // The verdict of the plain recursion.
    fn plain(&self) -> Result<bool, Fail> {
        let clauses = self.clause_list()?;
        let prefix = self.prefix()?;
        plain_truth(self.alloc, prefix, clauses)
    }

    // The truth that a solve in a new engine finds, unless it spends its budget, and the steps that it takes.
    fn solve_in(&self, engine: &mut Engine, restarts: u32, budget: u64) -> Result<Solved, Fail> {
        self.put_into(engine)?;
        engine.set_restarts(restarts);
        solve(engine, budget)
    }

    // `solve_in` a new engine, which it owns.
    fn solve(&self, restarts: u32, budget: u64) -> Result<Solved, Fail> {
        let mut engine = Engine::new(self.alloc)?;
        self.solve_in(&mut engine, restarts, budget)
    }

    // Whether a solve finds this truth, or spends its budget, where it is below the limit.
    fn is_right(&self, truth: bool, restarts: u32, budget: u64, limit: u64) -> Result<bool, Fail> {
        let (found, spent) = self.solve(restarts, budget)?;
        Ok(match found {
            Some(found) => found == truth,
            None => spent == budget && budget < limit,
        })
    }

    // Whether the steps that a solve takes suffice for this truth, and one less, where it takes any, doesn't.
    fn needs_its_steps(&self, truth: bool) -> Result<bool, Fail> {
        let (_, taken) = self.solve(0, u64::MAX)?;
        let (found, spent) = self.solve(0, taken)?;
        if found != Some(truth) || spent != taken {
            return Ok(false);
        }
        if taken == 0 {
            return Ok(true);
        }
        let (found, _) = self.solve(0, taken - 1)?;
        Ok(found.is_none())
    }

    // Whether it is so with no step, with one, with as many as are due and one less, and with one less than the limit
    // and all of it; and where a search may begin anew twice.
    fn keeps_limits(&self, once: u64, thrice: u64) -> Result<bool, Fail> {
        let truth = self.plain()?;
        for budget in [0, 1, once.saturating_sub(1), once] {
            if !self.is_right(truth, 0, budget, once)? {
                return Ok(false);
            }
        }
        Ok(self.needs_its_steps(truth)? && self.is_right(truth, 2, thrice, thrice)?)
    }
}

// Whether the formula of these quantifiers that is drawn from a seed keeps the limits.
fn is_kept(
    alloc: Global,
    vars: u32,
    bits: u32,
    seed: u32,
    once: u64,
    thrice: u64,
) -> Result<bool, Fail>
    requires { vars < 5 }
{
    let shape = Shape::new(alloc, vars, bits, seed)?;
    shape.keeps_limits(once, thrice)
}

// Whether the formulas of these quantifiers keep the limits.
fn are_kept(alloc: Global, vars: u32, bits: u32, once: u64, thrice: u64) -> Result<bool, Fail>
    requires { vars < 5 }
{
    for seed in 0..10 {
        if !is_kept(alloc, vars, bits, seed, once, thrice)? {
            return Ok(false);
        }
    }
    Ok(true)
}

// The same for all quantifiers of so many variables. Fails with those where it isn't so.
fn keep_all(alloc: Global, vars: u32, choices: u32, once: u64, thrice: u64) -> Result<(), Fail>
    requires { vars < 5 }
{
    for bits in 0..choices {
        if !are_kept(alloc, vars, bits, once, thrice)? {
            return Err((vars, bits))?;
        }
    }
    Ok(())
}

#[test]
fn limits_are_met_exactly(rt: HostRuntime) -> Result<(), Fail> {
    for (vars, choices, once, thrice) in LIMITS {
        keep_all(rt.alloc(), vars.min(4), choices, once, thrice)?;
    }
    Ok(())
}
