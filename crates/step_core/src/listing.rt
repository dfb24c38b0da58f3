//! Cores.
ghost use Rattle.std.specs.Prelude.{◌≡◌, ℕ, ◌≤◌, ◌<◌, length};
ghost use Rattle.prefix.specs.Sides.{opposite};
ghost use Rattle.step_core.specs.Cores.{IsNumbered, RestsOnNumber, core_rows, loser_of, row_numbered, step_numbered};

use prefix::{Lit, LitList, Quant, Var};
use std::marker::Model;

/// Why a step of a core stands, with the numbers of the steps that it rests on.
#[derive(Clone, Copy, Debug, PartialEq, Eq)]
pub enum CoreStep {
    /// An input: a clause of the formula, or an initial cube.
    Input,
    /// The step of this number without some literals: its reduction, or, in the last step alone, its finish.
    One(usize),
    /// The resolvent of two steps on a variable that is positive in one and negative in the other.
    Two {
        positive: usize,
        negative: usize,
        pivot: Var,
    },
}

// A step with its literals.
#[derive(Debug, Drop)]
pub(crate) struct Line {
    pub(crate) lits: LitList,
    pub(crate) step: CoreStep,
}

/// The steps that a verdict rests on, numbered from 1: the inputs first, each after those that it rests on, and each
/// but the last with a later one that rests on it. Contracts see a core as the list of its steps with the winner. It
/// has a copy of the literals, so that the derivation may go on while a trace is written or a circuit is made.
#[derive(Debug, Drop)]
pub struct Core {
    winner: Quant,
    lines: Vec<Line>,
}

impl Model for Core {
    ghost use Rattle.step_core.specs.Cores.{Trace, IsNumbered};

    ghost Value = { Trace };

    ghost view = { λ c. record { winner = c.winner; lines = c.lines.items } };

    ghost invariant = { λ c. IsNumbered c.lines.items };
}

impl Core {
    // A core of these steps.
    pub(crate) fn new(winner: Quant, lines: Vec<Line>) -> Self
        requires { IsNumbered lines.items }
        ensures { result ≡ record { winner = winner; lines = lines.items } }
    {
        Self { winner, lines }
    }

    /// How many steps there are. This takes no memory.
    pub fn len(&self) -> usize
        ensures value { result ≡ length self.now.lines }
        ensures valid { IsNumbered self.now.lines }
    {
        self.lines.len()
    }

    /// The side that wins: `Forall` where the steps are clauses, `Exists` where they are cubes. This takes no memory.
    pub fn winner(&self) -> Quant
        ensures { result ≡ self.now.winner }
    {
        self.winner
    }

    /// The side that loses, whose quantifier the pivots have: `Exists` where the steps are clauses, `Forall` where they
    /// are cubes. This takes no memory.
    pub fn loser(&self) -> Quant
        ensures { result ≡ loser_of self.now }
    {
        self.winner.other()
    }

    /// The literals of step number `i`, from 1. This takes no memory.
    pub fn lits(&self, i: usize) -> &[Lit]
        requires first { 1 ≤ i }
        requires last { i ≤ length self.now.lines }
        ensures { result.now ≡ row_numbered (core_rows self.now.lines) i }
    {
        self.lines[i - 1].lits.lits()
    }

    /// Why step number `i`, from 1, stands. It rests on earlier steps. This takes no memory.
    pub fn step(&self, i: usize) -> CoreStep
        requires first { 1 ≤ i }
        requires last { i ≤ length self.now.lines }
        ensures value { result ≡ step_numbered self.now.lines i }
        ensures earlier { (k : ℕ) → RestsOnNumber result k → (1 ≤ k) × (k < i) }
    {
        self.lines[i - 1].step
    }
}
