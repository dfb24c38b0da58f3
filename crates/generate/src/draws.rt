//! The generator of numbers.
ghost use Rattle.std.specs.Prelude.{◌≡◌, ◌+◌, ◌<◌};
ghost use Rattle.generate.specs.Draws.{drawn, start_of, state_at};

use std::marker::Model;

/// Numbers that are drawn one after another, the same ones from a seed each time. Contracts see it as its state.
#[derive(Debug, Drop)]
pub struct Draws {
    state: u32,
}

impl Model for Draws {
    ghost use Rattle.std.specs.Prelude.{ℕ};

    ghost Value = { ℕ };

    ghost view = { λ d. d.state };
}

impl Draws {
    // The number of states, 2^31.
    const STATES: u64 = 2_147_483_648;

    const MULTIPLIER: u64 = 1_103_515_245;

    const INCREMENT: u64 = 12_345;

    /// The draws of a seed. This takes no memory.
    pub fn new(seed: u32) -> Self
        ensures { result ≡ start_of seed }
    {
        Self {
            state: (u64::from(seed) % Self::STATES) as u32,
        }
    }

    /// Draws a number below another. This takes no memory.
    pub fn draw(&mut self, below: u32) -> u32
        requires { 0 < below }
        ensures state { self.new ≡ state_at self.old 1 }
        ensures value { result ≡ drawn self.old 0 below }
        ensures bound { result < below }
    {
        let product = u64::from(self.state) * Self::MULTIPLIER;
        self.state = ((product + Self::INCREMENT) % Self::STATES) as u32;
        self.state / 65_536 % below
    }
}
