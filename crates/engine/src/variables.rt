//! Variables that may be added.
ghost use Rattle.std.specs.Prelude.{◌≡◌, ◌≢◌, ◌≤◌, Ok, Err, MatchOption, SomeIff};
ghost use Rattle.prefix.specs.Refusals.{variable_refusal};
ghost use Rattle.frames.specs.Commands.{AddVariable, refusal_of};

use frames::{FrameRefusal, Frames};
use prefix::{Prefix, PrefixRefusal, Var};

// The variable of this number, where it may go into the scope; else why it is refused.
pub(crate) fn variable_for(frames: &Frames, var: u64, scope: u64) -> Result<Var, FrameRefusal>
    ensures { MatchOption (refusal_of frames.now.formula (AddVariable var scope)) (result ≡ Ok var)
        (λ e. result ≡ Err e) }
{
    if !frames.assumptions().is_empty() {
        return Err(FrameRefusal::AssumptionsHeld);
    }
    match new_variable(frames.prefix(), var, scope) {
        Ok(v) => Ok(v),
        Err(refusal) => Err(FrameRefusal::Prefix(refusal)),
    }
}

// The same as the prefix refuses it.
fn new_variable(prefix: &Prefix, var: u64, scope: u64) -> Result<Var, PrefixRefusal>
    ensures value { MatchOption (variable_refusal prefix.now var scope) (result ≡ Ok var) (λ e. result ≡ Err e) }
    ensures memory { result ≢ Err PrefixRefusal.NoMemory }
{
    let Some(v) = variable(var) else {
        return Err(PrefixRefusal::VarRange);
    };
    if prefix.level(v).is_some() {
        return Err(PrefixRefusal::VarTwice);
    }
    if scope == 0 || scope > prefix.scopes() as u64 {
        return Err(PrefixRefusal::ScopeRange);
    }
    Ok(v)
}

// The variable of a number, where it has one.
pub(crate) fn variable(number: u64) -> Option<Var>
    ensures { SomeIff result ((1 ≤ number) × (number ≤ 1048576)) number }
{
    if number > Var::MAX as u64 {
        return None;
    }
    Var::new(number as u32)
}
