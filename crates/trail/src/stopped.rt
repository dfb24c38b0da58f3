//! What is told of a search that stopped.
ghost use Rattle.std.specs.Prelude.{◌≡◌, ◌+◌, ◌<◌};
ghost use Rattle.calculus.specs.Limits.{assignment_limit};

use std::marker::Model;

/// What is told of a search that stopped because its budget was spent. `Trail::stop` alone makes one, and it is never
/// copied.
#[derive(Debug, Drop)]
pub struct Stopped {
    budget: u64,
    vars: usize,
    assigned: u64,
    restarts: u64,
}

impl Model for Stopped {
    ghost use Rattle.std.specs.Prelude.{◌+◌, ◌<◌};
    ghost use Rattle.calculus.specs.Limits.{assignment_limit};
    ghost use Rattle.trail.specs.State.{Account};

    ghost Value = { Account };

    ghost view = { λ s. record { budget = s.budget; vars = s.vars; assigned = s.assigned; restarts = s.restarts } };

    ghost invariant = { λ s. s.assigned + 1 < assignment_limit s.restarts s.vars };
}

impl Stopped {
    // What a stop tells.
    pub(crate) fn new(budget: u64, vars: usize, assigned: u64, restarts: u64) -> Self
        requires { assigned + 1 < assignment_limit restarts vars }
        ensures { result ≡ record { budget = budget; vars = vars; assigned = assigned; restarts = restarts } }
    {
        Self {
            budget,
            vars,
            assigned,
            restarts,
        }
    }

    /// The budget that was spent.
    pub fn budget(&self) -> u64
        ensures { result ≡ self.now.budget }
    {
        self.budget
    }

    /// The number of the prefix's variables.
    pub fn vars(&self) -> usize
        ensures { result ≡ self.now.vars }
    {
        self.vars
    }

    /// How many literals were assigned, undone ones too; at 2^64 - 1 the count stays. Each assignment raised the
    /// weight of the trail above all earlier ones since the last restart, so they are few.
    pub fn assigned(&self) -> u64
        ensures value { result ≡ self.now.assigned }
        ensures few { self.now.assigned + 1 < assignment_limit self.now.restarts self.now.vars }
    {
        self.assigned
    }

    /// How often the search began anew; at 2^64 - 1 the count stays.
    pub fn restarts(&self) -> u64
        ensures { result ≡ self.now.restarts }
    {
        self.restarts
    }
}
