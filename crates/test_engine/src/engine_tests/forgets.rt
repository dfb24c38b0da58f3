//! That long lessons are forgotten: no clause counts those that were.
ghost use Rattle.std.specs.Prelude.{IsTrue};
ghost use Rattle.derive.specs.State.{has_rows};

use super::saves::{Ended, put_many, solve};
use super::{Job, holds};
use derive::{Derivation, Step, StepId};
use engine::Engine;
use std::alloc::Global;
use std::test::Fail;

// After how many lessons a search begins anew.
const LESSONS: u64 = 64;

// Whether a step is live, has at most three literals, and is no input clause.
fn is_short_lesson(derivation: &Derivation, id: StepId) -> bool
    requires { IsTrue (has_rows derivation.now) }
{
    derivation.is_live(id)
        && derivation.lits(id).len() <= 3
        && !matches!(derivation.step(id), Step::InputClause)
}

// How many steps are so, and may be lessons that are kept.
fn short_lessons(derivation: &Derivation) -> u64
    requires { IsTrue (has_rows derivation.now) }
{
    let mut count: u64 = 0;
    for id in 0..derivation.next_id() {
        if is_short_lesson(derivation, id) {
            count = count.saturating_add(1);
        }
    }
    count
}

// How many lessons were forgotten, at least: of those of a search that began anew after each 64th, without those that
// are kept.
fn forgotten(engine: &Engine, restarts: u64) -> u64 {
    let short = short_lessons(engine.derivation());
    let kept = short.saturating_add(engine.kept_long() as u64);
    restarts.saturating_mul(LESSONS).saturating_sub(kept)
}

// Whether a new engine forgets a thousand lessons of a formula that it can't decide.
pub(crate) fn forgets_many(engine: &mut Engine, alloc: Global) -> Result<bool, Fail> {
    put_many(engine, alloc, 1, 200, 852)?;
    engine.set_restarts(1_000_000);
    match solve(engine, 130_000)? {
        Ended::Answered(_) => Ok(false),
        Ended::Stopped(restarts) => Ok(forgotten(engine, restarts) >= 1_000),
    }
}

#[test]
fn a_thousand_lessons_are_forgotten(rt: HostRuntime) -> Result<(), Fail> {
    assert!(rt; holds(rt.alloc(), Job::Forgets)?);
    Ok(())
}
