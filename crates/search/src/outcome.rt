//! What a search finds, and how it ends.
ghost use Rattle.std.specs.Prelude.{◌≡◌};
ghost use Rattle.search.specs.declared.outcome.SolveStop.TheVariants.{NoMemory as no_memory};

use derive::StepId;
use memory::NoMemory;
use prefix::{Lit, Quant};
use std::alloc::AllocError;
use thiserror::Error;
use trail::Stopped;

// What both watches find: a row of a side that is unit in a literal, a bad row, or none of both.
#[derive(Clone, Copy, Debug)]
pub(crate) enum Found {
    Unit(Quant, StepId, Lit),
    Bad(Quant, StepId),
    Quiet,
}

// A bad row of a side.
#[derive(Clone, Copy, Debug)]
pub(crate) struct BadRow {
    pub side: Quant,
    pub row: StepId,
}

// An end row of a side.
#[derive(Clone, Copy, Debug)]
pub(crate) struct EndRow {
    pub side: Quant,
    pub row: StepId,
}

/// What a search found: the side that loses, and the step that its proof ends in.
#[derive(Clone, Copy, Debug, PartialEq, Eq)]
pub struct Outcome {
    /// The quantifier of the variables of the side that loses: exists where the formula is false.
    pub loser: Quant,
    /// The finish of the end row that the search came to, or that row where it has assumed variables alone.
    pub end: StepId,
}

/// Why a solve stopped before it had a verdict.
#[derive(Debug, Drop, Error)]
pub enum SolveStop {
    /// A step is due and the budget is spent.
    #[error("the budget of steps is spent")]
    Spent(Stopped),
    /// Want of memory.
    #[error("out of memory")]
    NoMemory,
}

impl From<NoMemory> for SolveStop {
    ghost from_gives = { λ _ e. e ≡ no_memory };

    fn from(_error: NoMemory) -> Self {
        Self::NoMemory
    }
}
