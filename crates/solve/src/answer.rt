//! The answer to a formula.
ghost use Rattle.std.specs.Prelude.{◌≡◌, Bool};
ghost use Rattle.engine.specs.Refusals.{winner_of};
ghost use Rattle.solve.specs.Decisions.{answer_with};
ghost use Rattle.solve.specs.Answers.{answer_status, answer_line};

use prefix::Quant;

/// The answer to a formula.
#[derive(Clone, Copy, Debug, PartialEq, Eq)]
pub enum Answer {
    /// It is true.
    Sat,
    /// It is false.
    Unsat,
    /// The budget was spent first.
    Unknown,
}

impl Answer {
    /// The exit status: 10, 20 or 0.
    pub fn status(self) -> u8
        ensures { result ≡ answer_status self }
    {
        match self {
            Self::Sat => 10,
            Self::Unsat => 20,
            Self::Unknown => 0,
        }
    }

    /// The line on the output, with its line end.
    pub fn line(self) -> &'static str
        ensures { result.now ≡ answer_line self }
    {
        match self {
            Self::Sat => "SAT\n",
            Self::Unsat => "UNSAT\n",
            Self::Unknown => "UNKNOWN\n",
        }
    }

    /// The side that wins where this is a verdict.
    pub fn winner(self) -> Quant
        ensures { (truth : Bool) → self ≡ answer_with truth → result ≡ winner_of truth }
    {
        match self {
            Self::Sat => Quant::Exists,
            _ => Quant::Forall,
        }
    }
}
