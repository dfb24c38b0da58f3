//! A step that comes in, and how it is kept.
ghost use Rattle.std.specs.Prelude.{◌≡◌, ◌<◌, IfOk};
ghost use Rattle.derive.specs.Packed.{joined};
ghost use Rattle.derive.specs.Told.{told, why_of};

use super::note::{HALF, Kind, Note};
use super::{Step, StepId};
use memory::NoMemory;
use prefix::Quant;
use std::marker::Model;

// The side of a step, what it is, and the greatest frame in its support.
#[derive(Debug, Drop)]
pub(crate) struct NewStep {
    side: Quant,
    step: Step,
    tag: usize,
}

impl Model for NewStep {
    ghost use Rattle.derive.specs.State.{Note as Kept};

    ghost Value = { Kept };

    ghost use Rattle.derive.specs.Told.{why_of};

    ghost view = { λ n. record { side = n.side; why = why_of n.step; tag = n.tag } };
}

impl NewStep {
    // A step, whose side an input step tells.
    pub(crate) fn new(side: Quant, step: Step, tag: usize) -> Self
        requires { step ≡ told side (why_of step) }
        ensures { result ≡ record { side = side; why = why_of step; tag = tag } }
    {
        Self { side, step, tag }
    }

    // The step as it is kept. There is no memory for more than 2^36 steps, nor for as many as 2^32 frames.
    pub(crate) fn kept(&self) -> Result<Note, NoMemory>
        ensures { IfOk result (λ note. note ≡ self.now) }
    {
        let tag = u32::try_from(self.tag).map_err(|_| NoMemory)?;
        match &self.step {
            Step::InputClause | Step::InputCube => {
                Ok(Note::over(Kind::Given, self.side, (0, 0), (0, 0), 0, tag))
            }
            Step::Reduced(a) => {
                let on = split(*a)?;
                Ok(Note::over(Kind::Reduced, self.side, on, (0, 0), 0, tag))
            }
            Step::Finished(a) => {
                let on = split(*a)?;
                Ok(Note::over(Kind::Finished, self.side, on, (0, 0), 0, tag))
            }
            Step::Resolved { a, b, pivot } => {
                let on = split(*a)?;
                let and = split(*b)?;
                Ok(Note::over(Kind::Resolved, self.side, on, and, pivot.number(), tag))
            }
        }
    }
}

// The last 32 bits of an id, and the 4 bits before them.
fn split(id: StepId) -> Result<(u32, u8), NoMemory>
    ensures id { IfOk result (λ parts. joined parts.0 parts.1 ≡ id) }
    ensures high { IfOk result (λ parts. parts.1 < 16) }
{
    let high = id / HALF;
    if high >= 16 {
        return Err(NoMemory);
    }
    Ok(((id % HALF) as u32, high as u8))
}
