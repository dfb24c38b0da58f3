//! The codes that calls answer.
ghost use Rattle.std.specs.Prelude.{◌≡◌};
ghost use Rattle.qbf_c.specs.Codes.{ask_code, code_of, core_code, truth_code};

use engine::{AskRefusal, CoreRefusal};
use frames::FrameRefusal;

// Accepted.
pub(crate) const ACCEPTED: u32 = 0;

// The budget of a solve is spent.
pub(crate) const UNDECIDED: u32 = 0;

// No scope has that number.
pub(crate) const SCOPE_RANGE: u32 = 3;

// The variable isn't in the prefix.
pub(crate) const UNKNOWN_VAR: u32 = 41;

// There is no verdict.
pub(crate) const NO_VERDICT: u32 = 50;

// The formula is true.
pub(crate) const NOT_FALSE: u32 = 53;

// There is no memory.
pub(crate) const NO_MEMORY: u32 = 60;

// The handle holds no engine.
pub(crate) const NO_ENGINE: u32 = 61;

// The buffer has less room than is wanted.
pub(crate) const SHORT: u32 = 62;

// The budget of a trial is spent.
pub(crate) const TRIAL_SPENT: u32 = 63;

// There is no such version.
pub(crate) const BAD_VERSION: u32 = 64;

// So many rows can't be kept.
pub(crate) const BAD_KEPT: u32 = 65;

// The code of an answer to a command.
pub(crate) fn told(answer: Result<(), FrameRefusal>) -> u32
    ensures { result ≡ code_of answer }
{
    match answer {
        Ok(()) => ACCEPTED,
        Err(refusal) => match refusal.number() {
            Some(number) => u32::from(number),
            None => NO_MEMORY,
        },
    }
}

// The code of a refused question.
pub(crate) fn asked(refusal: AskRefusal) -> u32
    ensures { result ≡ ask_code refusal }
{
    match refusal.number() {
        Some(number) => u32::from(number),
        None => NO_MEMORY,
    }
}

// The code of a core that isn't told.
pub(crate) fn untold(refusal: CoreRefusal) -> u32
    ensures { result ≡ core_code refusal }
{
    match refusal {
        CoreRefusal::NoVerdict => NO_VERDICT,
        CoreRefusal::NotUnsat => NOT_FALSE,
        CoreRefusal::Spent(_) => TRIAL_SPENT,
        CoreRefusal::NoMemory => NO_MEMORY,
    }
}

// The code of a verdict.
pub(crate) fn decided(truth: bool) -> u32
    ensures { result ≡ truth_code truth }
{
    if truth { 10 } else { 20 }
}
