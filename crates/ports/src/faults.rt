//! A count of faults.
ghost use Rattle.std.specs.Prelude.{◌≡◌, Ok, IfOk, IsErr, OnErr};
ghost use Rattle.ports.specs.Causes.{HasCause, raised};

use super::Failed;
use std::marker::Model;

// How often a call failed. At 2^64 - 1 the count stays.
#[derive(Debug, Drop)]
pub(crate) struct Faults {
    count: u64,
}

impl Model for Faults {
    ghost use Rattle.std.specs.Prelude.{ℕ};

    ghost Value = { ℕ };

    ghost view = { λ f. f.count };
}

impl Faults {
    // No fault yet.
    pub(crate) fn new() -> Self
        ensures { result ≡ 0 }
    {
        Self { count: 0 }
    }

    // Counts a fault, and answers a failing call.
    pub(crate) fn fail<T>(&mut self) -> Result<T, Failed>
        ensures counted { self.new ≡ raised self.old }
        ensures failed { IsErr result }
        ensures cause { HasCause self.old self.new result }
    {
        self.count = self.count.saturating_add(1);
        Err(Failed)
    }

    // Hands an answer on. An error is a fault, and nothing else is.
    pub(crate) fn counted<T, E: Drop>(&mut self, answer: Result<T, E>) -> Result<T, Failed>
        ensures ok { IfOk answer (λ x. (result ≡ Ok x) × (self.new ≡ self.old)) }
        ensures err { OnErr answer (IsErr result × (self.new ≡ raised self.old)) }
        ensures cause { HasCause self.old self.new result }
    {
        match answer {
            Ok(x) => Ok(x),
            Err(_) => self.fail(),
        }
    }
}
