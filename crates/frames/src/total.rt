//! How many clauses and literals stand. They are counted, so that a limit is asked in constant time.
ghost use Rattle.std.specs.Prelude.{◌≡◌, ◌≤◌, ◌+◌, ◌^◌, ◌<◌};
ghost use Rattle.frames.specs.Commands.{exceeds};
ghost use Rattle.truth.specs.Limits.{max_literals};

use crate::frames::Frames;

// How many clauses stand in all frames and groups, and how many literals these have in all.
#[derive(Clone, Copy, Debug)]
pub(crate) struct Total {
    pub(crate) clauses: usize,
    pub(crate) literals: usize,
}

impl Total {
    // Nothing.
    pub(crate) fn new() -> Self
        ensures { result ≡ record { clauses = 0; literals = 0 } }
    {
        Self {
            clauses: 0,
            literals: 0,
        }
    }

    // Whether a row of so many literals beside all that goes beyond a limit.
    pub(crate) fn is_beyond(&self, added: usize) -> bool
        requires few { self.now.literals ≤ max_literals }
        ensures { result ≡ exceeds self.now.clauses self.now.literals added }
    {
        self.clauses >= Frames::MAX_CLAUSES || added > Frames::MAX_LITERALS - self.literals
    }

    // Counts a row of so many literals.
    pub(crate) fn add(&mut self, literals: usize)
        requires clauses { self.old.clauses + 1 < 2 ^ 64 }
        requires fits { self.old.literals + literals < 2 ^ 64 }
        ensures { self.new ≡ record { clauses = self.old.clauses + 1; literals = self.old.literals + literals } }
    {
        self.clauses += 1;
        self.literals += literals;
    }

    // Counts a row of so many literals no longer.
    pub(crate) fn take(&mut self, literals: usize)
        requires some { 1 ≤ self.old.clauses }
        requires fits { literals ≤ self.old.literals }
        ensures clauses { self.old.clauses ≡ self.new.clauses + 1 }
        ensures literals { self.old.literals ≡ self.new.literals + literals }
    {
        self.clauses -= 1;
        self.literals -= literals;
    }
}
