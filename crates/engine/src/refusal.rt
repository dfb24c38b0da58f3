//! Why a question isn't answered.
ghost use Rattle.std.specs.Prelude.{◌≡◌};
ghost use Rattle.engine.specs.declared.refusal.AskRefusal.TheVariants.{NoMemory as no_memory};
ghost use Rattle.engine.specs.Refusals.{ask_number};

use memory::NoMemory;
use thiserror::Error;

/// Why a question about the last verdict isn't answered. The verdict stays.
#[derive(Clone, Copy, Debug, PartialEq, Eq, Error)]
pub enum AskRefusal {
    /// There is no verdict, or a change came after it.
    #[error("there is no verdict")]
    NoVerdict,
    /// The variable isn't in the first scope.
    #[error("the variable isn't in the first scope")]
    NotOutermost,
    /// The first scope isn't of the side that wins.
    #[error("the first scope isn't of the side that wins")]
    NotWinner,
    /// There is no memory. It is tried after all other refusals.
    #[error("out of memory")]
    NoMemory,
}

impl AskRefusal {
    /// The number that a reply to a script tells: 50 to 52, and none for want of memory.
    pub fn number(self) -> Option<u8>
        ensures { result ≡ ask_number self }
    {
        match self {
            Self::NoVerdict => Some(50),
            Self::NotOutermost => Some(51),
            Self::NotWinner => Some(52),
            Self::NoMemory => None,
        }
    }
}

impl From<NoMemory> for AskRefusal {
    ghost from_gives = { λ _ e. e ≡ no_memory };

    fn from(_error: NoMemory) -> Self {
        Self::NoMemory
    }
}
