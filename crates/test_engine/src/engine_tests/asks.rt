//! What verdicts answer.
ghost use Rattle.aig.specs.Strategies.{IsStrategy};

use super::play::{assume, put, put_scope, truth_within};
use super::{Job, holds};
use aig::Strategy;
use engine::{AskRefusal, Engine};
use prefix::{Lit, Quant, Var};
use std::alloc::Global;
use std::test::Fail;
use step_core::Core;

// A formula with 1 and 2 in its first scope, of this quantifier, and 3 in its second, of the other one; clauses, each
// with a 0 behind it; what is assumed; the truth; the relevant assumptions; and for 1 and 2 the number of the literal
// that is told, or of the refusal.
#[derive(Clone, Copy)]
pub(crate) struct Case {
    first: Quant,
    clauses: &'static [i32],
    assumed: &'static [i32],
    truth: bool,
    relevant: &'static [i32],
    values: [i32; 2],
}

// Formulas whose answers are known. The first three are false where 1 holds and true where it doesn't, the others true
// where 1 holds and 2 doesn't.
const CASES: [Case; 6] = [
    Case {
        first: Quant::Forall,
        clauses: &[-1, 3, 0, -1, -3, 0],
        assumed: &[],
        truth: false,
        relevant: &[],
        values: [1, -2],
    },
    Case {
        first: Quant::Forall,
        clauses: &[-1, 3, 0, -1, -3, 0],
        assumed: &[1, 2],
        truth: false,
        relevant: &[1],
        values: [1, 2],
    },
    Case {
        first: Quant::Forall,
        clauses: &[-1, 3, 0, -1, -3, 0],
        assumed: &[-1, 2],
        truth: true,
        relevant: &[-1],
        values: [52, 52],
    },
    Case {
        first: Quant::Exists,
        clauses: &[1, 3, 0, 1, -3, 0, -2, 0],
        assumed: &[],
        truth: true,
        relevant: &[],
        values: [1, -2],
    },
    Case {
        first: Quant::Exists,
        clauses: &[1, 3, 0, 1, -3, 0, -2, 0],
        assumed: &[-2],
        truth: true,
        relevant: &[-2],
        values: [1, -2],
    },
    Case {
        first: Quant::Exists,
        clauses: &[1, 3, 0, 1, -3, 0, -2, 0],
        assumed: &[1, 2],
        truth: false,
        relevant: &[2],
        values: [52, 52],
    },
];

// The number of a literal, or that of a refusal.
fn number(answer: Result<Lit, AskRefusal>) -> i32 {
    match answer {
        Ok(lit) => lit.number(),
        Err(refusal) => i32::from(refusal.number().unwrap_or(0)),
    }
}

// The side that wins where the formula has this truth.
fn winner(truth: bool) -> Quant {
    if truth { Quant::Exists } else { Quant::Forall }
}

// Puts the formula into a new engine, with its assumptions.
fn put_case(engine: &mut Engine, alloc: Global, case: &Case) -> Result<(), Fail> {
    put_scope(engine, case.first, 1, 2)?;
    put_scope(engine, case.first.other(), 3, 3)?;
    put(alloc, engine, case.clauses)?;
    assume(engine, case.assumed)
}

// Whether these variables are told by these numbers.
fn are_told(engine: &Engine, values: &[(u64, i32)]) -> bool {
    for (var, want) in values {
        if number(engine.value(*var)) != *want {
            return false;
        }
    }
    true
}

// Whether 1, 2 and two other numbers are told as they should be.
fn has_values(engine: &Engine, values: [i32; 2]) -> bool {
    are_told(engine, &[(1, values[0]), (2, values[1]), (3, 51), (0, 51)])
}

// Whether these literals are relevant, and no other.
fn is_relevant(engine: &Engine, wanted: &[i32]) -> Result<bool, Fail> {
    let list = engine.relevant()?;
    Ok(list.len() == wanted.len() && list.iter().zip(wanted).all(|(lit, n)| lit.number() == *n))
}

// Whether a row is over the variables of these literals.
fn is_over(row: &[Lit], wanted: &[i32]) -> bool {
    row.len() == wanted.len()
        && row
            .iter()
            .zip(wanted)
            .all(|(lit, n)| lit.number().unsigned_abs() == n.unsigned_abs())
}

// Whether a proof is the winner's, and ends in a row over the variables of these literals.
fn is_proof(core: &Core, winner: Quant, wanted: &[i32]) -> bool {
    let last = core.len();
    if last == 0 || core.winner() != winner {
        return false;
    }
    is_over(core.lits(last), wanted)
}

// Whether the engine's proof is so.
fn is_traced(engine: &Engine, winner: Quant, wanted: &[i32]) -> Result<bool, Fail> {
    let core = engine.trace_core()?;
    Ok(is_proof(&core, winner, wanted))
}

// The sign of 1 or 2 among these numbers.
fn is_positive(values: [i32; 2], v: Var) -> bool {
    if v.number() == 1 {
        values[0] > 0
    } else {
        values[1] > 0
    }
}

// Whether all outputs have these signs with such inputs, where there are places for the values of the gates.
fn are_signs(
    strategy: &Strategy,
    inputs: &[bool],
    scratch: &mut [bool],
    values: [i32; 2],
) -> Result<bool, Fail>
    requires { IsStrategy strategy.now }
{
    if inputs.len() < strategy.aig.inputs() as usize || scratch.len() < strategy.aig.gates() {
        return Err("no room")?;
    }
    for output in strategy.outputs.outputs() {
        let value = strategy.aig.value(output.edge, inputs, scratch);
        if value != is_positive(values, output.var) {
            return Ok(false);
        }
    }
    Ok(true)
}

// Whether there are two outputs, over 1 and 2, that have these signs where all inputs are false.
fn has_signs(strategy: &Strategy, values: [i32; 2]) -> Result<bool, Fail>
    requires { IsStrategy strategy.now }
{
    let inputs = [false; 3];
    let mut scratch = [false; 16];
    let are_so = are_signs(strategy, &inputs, &mut scratch, values)?;
    Ok(are_so && strategy.outputs.outputs().len() == 2)
}

// Whether a circuit is the winner's, and plays the values that are told where these are the winner's.
fn is_circuit(strategy: &Strategy, winner: Quant, values: [i32; 2]) -> Result<bool, Fail>
    requires { IsStrategy strategy.now }
{
    if strategy.winner != winner {
        return Ok(false);
    }
    if values[0] == 52 {
        return Ok(strategy.inputs.vars().len() == 2);
    }
    has_signs(strategy, values)
}

// Whether the engine's circuit is so.
fn is_certified(engine: &Engine, winner: Quant, values: [i32; 2]) -> Result<bool, Fail> {
    let strategy = engine.certificate()?;
    is_circuit(&strategy, winner, values)
}

// Whether the proof's last step is live in the derivation, with so many literals.
fn is_derived(engine: &Engine, len: usize) -> bool {
    let derivation = engine.derivation();
    match engine.verdict() {
        None => false,
        Some(verdict) => {
            derivation.is_live(verdict.end) && derivation.lits(verdict.end).len() == len
        }
    }
}

// Whether the verdict, which the winner has, answers as it should.
fn tells(engine: &Engine, winner: Quant, case: &Case) -> Result<bool, Fail> {
    Ok(
        has_values(engine, case.values)
            && is_derived(engine, case.relevant.len())
            && is_relevant(engine, case.relevant)?
            && is_traced(engine, winner, case.relevant)?
            && is_certified(engine, winner, case.values)?,
    )
}

// Whether a formula is decided, and its verdict answers, as it should.
pub(crate) fn answers(engine: &mut Engine, alloc: Global, case: &Case) -> Result<bool, Fail> {
    put_case(engine, alloc, case)?;
    let truth = truth_within(engine, u64::MAX)?;
    Ok(truth == case.truth && tells(engine, winner(truth), case)?)
}

// The same of each case in a new engine. Fails with the place of the first one that isn't so.
fn answer_each(alloc: Global, cases: &[Case]) -> Result<(), Fail> {
    for (place, case) in cases.iter().enumerate() {
        if !holds(alloc, Job::Answers(*case))? {
            return Err(("case", place))?;
        }
    }
    Ok(())
}

#[test]
fn verdicts_answer(rt: HostRuntime) -> Result<(), Fail> {
    answer_each(rt.alloc(), &CASES)
}

// The number of the refusal, where there is one.
fn refusal<T: Drop>(answer: Result<T, AskRefusal>) -> Option<u8> {
    match answer {
        Ok(_) => None,
        Err(refusal) => refusal.number(),
    }
}

// Whether every question is refused for want of a verdict.
fn is_silent(engine: &Engine) -> bool {
    engine.verdict().is_none()
        && are_told(engine, &[(9, 50), (1, 50)])
        && refusal(engine.trace_core()) == Some(50)
        && refusal(engine.certificate()) == Some(50)
        && engine.relevant().is_err()
}

// Whether 1 is told to be false, and nothing is relevant.
fn tells_false(engine: &Engine) -> Result<bool, Fail> {
    Ok(are_told(engine, &[(1, -1)]) && is_relevant(engine, &[])?)
}

// Whether a formula is true, and told to be.
fn is_told(engine: &mut Engine) -> Result<bool, Fail> {
    Ok(truth_within(engine, 10)? && tells_false(engine)?)
}

// Whether a new engine's verdict answers until a change comes.
pub(crate) fn falls_silent(engine: &mut Engine) -> Result<bool, Fail> {
    put_scope(engine, Quant::Exists, 1, 2)?;
    let is_new = is_silent(engine);
    let told = is_told(engine)?;
    engine.push()?;
    Ok(is_new && told && is_silent(engine))
}

#[test]
fn changes_make_verdicts_silent(rt: HostRuntime) -> Result<(), Fail> {
    assert!(rt; holds(rt.alloc(), Job::Silence)?);
    Ok(())
}
