//! A formula decided, and its verdict asked.
ghost use Rattle.std.specs.Prelude.{◌≡◌, ◌≢◌, Bool, Some, IfSome, MatchOption};
ghost use Rattle.prefix.specs.Literal.{signed_number};
ghost use Rattle.truth.specs.Truth.{assumed_value};
ghost use Rattle.engine.specs.Asks.{Decides, IsVerdictOf, PlaysFirst, first_values, values_of};
ghost use Rattle.engine.specs.Refusals.{value_refusal};
ghost use Rattle.qbf_c.specs.Buffers.{FillsInPlace};
ghost use Rattle.qbf_c.specs.Codes.{accepted, ask_code, ask_refusal_code, verdict_code};
ghost use Rattle.qbf_c.specs.Solved.{SolveSays};
ghost use Rattle.qbf_c.specs.Told.{AreRelevant, CoreSays};

use crate::code::{ACCEPTED, NO_MEMORY, NO_VERDICT, UNDECIDED, asked, decided, untold};
use crate::fill::{fill, fill_numbers};
use engine::{Engine, SolveStop};
use steps::Steps;

pub(crate) fn solve(engine: &mut Engine, budget: u64, spent: &mut u64) -> u32
    ensures { SolveSays budget engine.old engine.new spent.new result }
{
    let mut steps = Steps::new(budget);
    let answer = engine.solve(&mut steps);
    *spent = steps.spent();
    match answer {
        Ok(verdict) => decided(verdict.truth),
        Err(SolveStop::Spent(_)) => UNDECIDED,
        Err(SolveStop::NoMemory) => NO_MEMORY,
    }
}

pub(crate) fn verdict(engine: &Engine) -> u32
    ensures value { result ≡ verdict_code engine.now.verdict }
    ensures facts { IfSome engine.now.verdict (IsVerdictOf engine.now.formula) }
    ensures first { IfSome engine.now.verdict (PlaysFirst engine.now.formula) }
{
    match engine.verdict() {
        Some(verdict) => decided(verdict.truth),
        None => NO_VERDICT,
    }
}

pub(crate) fn value(engine: &Engine, var: u64, lit: &mut i32) -> u32
    ensures refused { MatchOption (value_refusal engine.now var) (result ≡ accepted) (λ e. result ≡ ask_code e) }
    ensures value { result ≡ accepted → IfSome engine.now.verdict (λ v. lit.new
        ≡ signed_number (record { variable = var; positive = values_of engine.now.formula v var })) }
    ensures assumed { result ≡ accepted → IfSome engine.now.verdict
        (λ v. (b : Bool) → assumed_value v.assumptions var ≡ Some b
        → lit.new ≡ signed_number (record { variable = var; positive = b })) }
    ensures decides { result ≡ accepted → IfSome engine.now.verdict
        (λ v. Decides engine.now.formula v (first_values engine.now.formula v)) }
    ensures facts { IfSome engine.now.verdict (IsVerdictOf engine.now.formula) }
    ensures kept { result ≢ accepted → lit.new ≡ lit.old }
{
    match engine.value(var) {
        Ok(answer) => {
            *lit = answer.number();
            ACCEPTED
        }
        Err(refusal) => asked(refusal),
    }
}

pub(crate) fn relevant(engine: &Engine, lits: &mut [i32], count: &mut usize) -> u32
    ensures says { FillsInPlace (ask_refusal_code engine.now)
        (λ numbers. IfSome engine.now.verdict (λ v. AreRelevant engine.now.formula v numbers))
        lits.old lits.new count.old count.new result }
    ensures facts { IfSome engine.now.verdict (IsVerdictOf engine.now.formula) }
{
    match engine.relevant() {
        Ok(relevant) => fill_numbers(relevant, lits, count),
        Err(refusal) => asked(refusal),
    }
}

pub(crate) fn group_core(engine: &Engine, budget: u64, groups: &mut [u32], count: &mut usize) -> u32
    ensures says { CoreSays budget engine.now groups.old groups.new count.old count.new result }
    ensures facts { IfSome engine.now.verdict (IsVerdictOf engine.now.formula) }
{
    match engine.group_core(budget) {
        Ok(core) => fill(&core, groups, count),
        Err(refusal) => untold(refusal),
    }
}
