//! The calls of a desk or a sink in memory.
ghost use Rattle.std.specs.Prelude.{◌≡◌, ◌↔◌, IsErr, IsTrue, OnOk, OnErr};
ghost use Rattle.ports.specs.Calls.{is_due, one_made, one_failed};
ghost use Rattle.ports.specs.Causes.{HasCause, raised};

use super::Failed;
use super::faults::Faults;
use std::marker::Model;

// How many calls were made and how many failed, and which are to fail.
#[derive(Debug, Drop)]
pub(crate) struct Calls {
    failing: Vec<u64>,
    made: u64,
    faults: Faults,
}

impl Model for Calls {
    ghost use Rattle.ports.specs.Calls.{Tally};

    ghost Value = { Tally };

    ghost view = { λ c. record { failing = c.failing.items; made = c.made; failed = c.faults } };
}

impl Calls {
    // No call yet. Those with these numbers, counted from 1, are to fail.
    pub(crate) fn new(failing: Vec<u64>) -> Self
        ensures { result ≡ record { failing = failing.items; made = 0; failed = 0 } }
    {
        Self {
            failing,
            made: 0,
            faults: Faults::new(),
        }
    }

    // Counts a call, and fails where it is to fail.
    pub(crate) fn begin(&mut self) -> Result<(), Failed>
        ensures exact { IsErr result ↔ IsTrue (is_due self.old) }
        ensures ok { OnOk result (self.new ≡ one_made self.old) }
        ensures err { OnErr result (self.new ≡ one_failed self.old) }
        ensures cause { HasCause self.old.failed self.new.failed result }
    {
        self.made = self.made.saturating_add(1);
        if self.failing.contains(&self.made) {
            return self.faults.fail();
        }
        Ok(())
    }

    // Fails the call that was begun.
    pub(crate) fn fail<T>(&mut self) -> Result<T, Failed>
        ensures failed { IsErr result }
        ensures counted { self.new ≡ record self.old { failed = raised self.old.failed } }
        ensures cause { HasCause self.old.failed self.new.failed result }
    {
        self.faults.fail()
    }
}
