//! An engine that is refused memory: what a call leaves, and its answer where it comes again.
use engine::{AskRefusal, Engine, SolveStop};
use frames::FrameRefusal;
use prefix::Quant;
use std::alloc::Global;
use std::test::Fail;
use steps::Steps;

// A call of the engine.
#[derive(Debug, Clone, Copy)]
enum Turn {
    Scope(Quant, Option<u64>),
    Var(u64, u64),
    Clause([i64; 2]),
    Push,
    Pop,
    Assume(i64),
    Solve,
    Trace,
    Cert,
}

// What a call answers.
#[derive(Debug, Clone, Copy, PartialEq)]
enum Answer {
    Done,
    Truth(bool),
    Refused(u8),
    Spent,
    NoMemory,
}

// Calls and their answers. Each command that makes a change comes once behind a verdict. A clause of one literal says
// it twice.
const TURNS: [(Turn, Answer); 31] = [
    (Turn::Scope(Quant::Forall, None), Answer::Done),
    (Turn::Var(1, 1), Answer::Done),
    (Turn::Scope(Quant::Exists, None), Answer::Done),
    (Turn::Var(2, 2), Answer::Done),
    (Turn::Clause([1, 2]), Answer::Done),
    (Turn::Clause([1, -2]), Answer::Done),
    (Turn::Solve, Answer::Truth(false)),
    (Turn::Trace, Answer::Done),
    (Turn::Cert, Answer::Done),
    (Turn::Push, Answer::Done),
    (Turn::Solve, Answer::Truth(false)),
    (Turn::Clause([-1, 2]), Answer::Done),
    (Turn::Solve, Answer::Truth(false)),
    (Turn::Assume(1), Answer::Done),
    (Turn::Solve, Answer::Truth(true)),
    (Turn::Trace, Answer::Done),
    (Turn::Cert, Answer::Done),
    (Turn::Scope(Quant::Exists, Some(1)), Answer::Done),
    (Turn::Var(3, 1), Answer::Done),
    (Turn::Solve, Answer::Truth(false)),
    (Turn::Var(4, 1), Answer::Done),
    (Turn::Push, Answer::Done),
    (Turn::Clause([3, 3]), Answer::Done),
    (Turn::Assume(-3), Answer::Done),
    (Turn::Assume(3), Answer::Refused(43)),
    (Turn::Solve, Answer::Truth(false)),
    (Turn::Pop, Answer::Done),
    (Turn::Trace, Answer::Refused(50)),
    (Turn::Solve, Answer::Truth(false)),
    (Turn::Pop, Answer::Done),
    (Turn::Pop, Answer::Refused(40)),
];

fn refused(number: Option<u8>) -> Answer {
    match number {
        Some(number) => Answer::Refused(number),
        None => Answer::NoMemory,
    }
}

fn commanded(answer: Result<(), FrameRefusal>) -> Answer {
    match answer {
        Ok(()) => Answer::Done,
        Err(refusal) => refused(refusal.number()),
    }
}

fn asked<T: Drop>(answer: Result<T, AskRefusal>) -> Answer {
    match answer {
        Ok(_) => Answer::Done,
        Err(refusal) => refused(refusal.number()),
    }
}

fn solved(engine: &mut Engine) -> Answer {
    match engine.solve(&mut Steps::new(u64::MAX)) {
        Ok(verdict) => Answer::Truth(verdict.truth),
        Err(SolveStop::Spent(_)) => Answer::Spent,
        Err(SolveStop::NoMemory) => Answer::NoMemory,
    }
}

// Makes a call.
fn after(engine: &mut Engine, turn: Turn) -> Answer {
    match turn {
        Turn::Scope(quant, at) => commanded(engine.scope(quant, at)),
        Turn::Var(var, scope) => commanded(engine.var(var, scope)),
        Turn::Clause(lits) => commanded(engine.clause(&lits)),
        Turn::Push => commanded(engine.push()),
        Turn::Pop => commanded(engine.pop()),
        Turn::Assume(lit) => commanded(engine.assume(lit)),
        Turn::Solve => solved(engine),
        Turn::Trace => asked(engine.trace_core()),
        Turn::Cert => asked(engine.certificate()),
    }
}

// What is told without memory: the value of variable 1, or the number of the refusal, and how many assumptions are
// relevant.
type Told = (i32, Option<usize>);

// What is told where there is no verdict.
const SILENT: Told = (50, None);

fn told(engine: &Engine) -> Told {
    let value = match engine.value(1) {
        Ok(lit) => lit.number(),
        Err(refusal) => i32::from(refusal.number().unwrap_or(0)),
    };
    (value, engine.relevant().ok().map(|lits| lits.len()))
}

// Whether a call has this answer. Where it wants memory, what is told is as it was, unless it is a solve, which leaves
// no verdict; and the same call once more has the answer.
fn has_answer(engine: &mut Engine, turn: Turn, want: Answer) -> bool {
    let before = told(engine);
    let answer = after(engine, turn);
    if answer != Answer::NoMemory {
        return answer == want;
    }
    let left = match turn {
        Turn::Solve => SILENT,
        _ => before,
    };
    told(engine) == left && after(engine, turn) == want
}

// Whether all these calls have their answers.
fn have_answers(engine: &mut Engine, turns: &[(Turn, Answer)]) -> bool {
    for (turn, want) in turns {
        if !has_answer(engine, *turn, *want) {
            return false;
        }
    }
    true
}

// How many frames are open behind a call.
fn open_behind(open: usize, turn: Turn) -> usize {
    match turn {
        Turn::Push => open.saturating_add(1),
        Turn::Pop => open.saturating_sub(1),
        _ => open,
    }
}

// Whether so many frames are popped and no more, and then nothing is told.
fn pops(engine: &mut Engine, open: usize) -> bool {
    let before = told(engine);
    for _ in 0..open {
        if engine.pop() != Ok(()) || told(engine) != SILENT {
            return false;
        }
    }
    engine.pop() == Err(FrameRefusal::NoFrame) && (open > 0 || told(engine) == before)
}

// Whether those of these calls up to the first that wants memory have their answers, and there as many frames are
// popped as are open.
fn pops_where_refused(engine: &mut Engine, turns: &[(Turn, Answer)]) -> bool {
    let mut open = 0;
    for (turn, want) in turns {
        let answer = after(engine, *turn);
        if answer == Answer::NoMemory {
            return pops(engine, open);
        }
        if answer != *want {
            return false;
        }
        open = open_behind(open, *turn);
    }
    pops(engine, 0)
}

// A new engine, at the second attempt where there was no memory at the first.
fn made(alloc: Global) -> Result<Engine, Fail> {
    if let Ok(engine) = Engine::new(alloc) {
        return Ok(engine);
    }
    Ok(Engine::new(alloc)?)
}

// What is looked for where a call wants memory: its answer once more, or how many frames are popped.
#[derive(Clone, Copy)]
enum Look {
    Again,
    Popping,
}

fn is_right(engine: &mut Engine, look: Look) -> bool {
    match look {
        Look::Again => have_answers(engine, &TURNS),
        Look::Popping => pops_where_refused(engine, &TURNS),
    }
}

// The same of a new engine. One function owns it, which keeps proofs short.
fn is_so(alloc: Global, look: Look) -> Result<bool, Fail> {
    let mut engine = made(alloc)?;
    Ok(is_right(&mut engine, look))
}

#[test]
fn a_call_that_wants_memory_has_its_answer_once_more(rt: HostRuntime) -> Result<(), Fail> {
    assert!(rt; is_so(rt.alloc(), Look::Again)?);
    Ok(())
}

#[test]
fn frames_are_popped_where_memory_is_wanted(rt: HostRuntime) -> Result<(), Fail> {
    assert!(rt; is_so(rt.alloc(), Look::Popping)?);
    Ok(())
}
