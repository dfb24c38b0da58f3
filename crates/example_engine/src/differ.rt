//! A formula built, and decided.
ghost use Rattle.std.specs.Prelude.{◌≡◌, true, IfOk, IsOk, IsOkUnless, OnOk};
ghost use Rattle.engine.specs.State.{new_engine};
ghost use Rattle.example_engine.specs.Answers.{IsRight};
ghost use Rattle.example_engine.specs.Differing.{Holds, differing};

use crate::answer::{Answer, decide};
use engine::Engine;
use frames::FrameRefusal;
use memory::NoMemory;
use prefix::Quant;
use std::alloc::Global;

// So many steps always suffice for two variables: (8 * 2 + 8) * 2^(2 + 1).
const ENOUGH: u64 = 192;

/// Whether there is a value of 2 that differs from that of 1, asked where 1 is true.
pub fn differ_from_one(alloc: Global) -> Result<Answer, NoMemory>
    ensures right { IfOk result (IsRight differing) }
    ensures yes { IfOk result (λ a. a.truth ≡ true) }
{
    let mut engine = Engine::new(alloc)?;
    ask(&mut engine)?;
    decide(&mut engine, ENOUGH)
}

// Builds the formula.
fn ask(engine: &mut Engine) -> Result<(), NoMemory>
    requires { engine.old ≡ new_engine }
    ensures { OnOk result (Holds differing engine.new) }
{
    accepted(engine.scope(Quant::Forall, None))?;
    accepted(engine.var(1, 1))?;
    accepted(engine.scope(Quant::Exists, None))?;
    accepted(engine.var(2, 2))?;
    accepted(engine.clause(&[1, 2]))?;
    accepted(engine.clause(&[-1, -2]))?;
    accepted(engine.assume(1))
}

// What is answered to a command that nothing refuses.
fn accepted(answer: Result<(), FrameRefusal>) -> Result<(), NoMemory>
    requires { IsOkUnless answer FrameRefusal.NoMemory }
    ensures { OnOk result (IsOk answer) }
{
    match answer {
        Ok(()) => Ok(()),
        Err(FrameRefusal::NoMemory) => Err(NoMemory),
        Err(_) => unreachable!(),
    }
}
