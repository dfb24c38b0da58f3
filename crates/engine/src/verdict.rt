//! Verdicts.
ghost use Rattle.std.specs.Prelude.{◌≡◌};
ghost use Rattle.prefix.specs.Sides.{bad_of};
ghost use Rattle.engine.specs.Refusals.{winner_of};

use derive::StepId;
use prefix::{Lit, Quant};
use std::marker::Model;

/// What a solve found: the truth of the open formula under its assumptions, and the step that its proof ends in.
#[derive(Clone, Copy, Debug, PartialEq, Eq)]
pub struct Verdict {
    /// Whether the formula is true.
    pub truth: bool,
    /// The step whose literals are those over assumed variables in the end row of the proof.
    pub end: StepId,
}

// A verdict that is held, with the assumptions that it was found under, with those of them that matter, and with how
// many long learned rows its solve might keep.
#[derive(Debug, Drop)]
pub(crate) struct Held {
    pub(crate) verdict: Verdict,
    pub(crate) assumed: Literals,
    pub(crate) relevant: Literals,
    pub(crate) kept: u32,
}

// Literals in their order; contracts see them as that list.
#[derive(Debug, Drop)]
pub(crate) struct Literals {
    lits: Vec<Lit>,
}

impl Model for Literals {
    ghost use Rattle.std.specs.Prelude.{List};
    ghost use Rattle.prefix.specs.Literal.{Literal};

    ghost Value = { List Literal };

    ghost view = { λ l. l.lits.items };
}

impl Literals {
    // These literals. This takes no memory.
    pub(crate) fn from_vec(lits: Vec<Lit>) -> Self
        ensures { result ≡ lits.items }
    {
        Self { lits }
    }

    // Those literals.
    pub(crate) fn lits(&self) -> &[Lit]
        ensures { result.now ≡ self.now }
    {
        &self.lits
    }
}

// The truth where this side loses.
pub(crate) fn truth_against(loser: Quant) -> bool
    ensures { result ≡ bad_of loser }
{
    match loser {
        Quant::Exists => false,
        Quant::Forall => true,
    }
}

// The side that wins.
pub(crate) fn winner_of(truth: bool) -> Quant
    ensures { result ≡ winner_of truth }
{
    if truth { Quant::Exists } else { Quant::Forall }
}
