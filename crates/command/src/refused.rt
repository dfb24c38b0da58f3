//! Why there is no command. The text is owned, so that callers don't depend on `clap`.
ghost use Rattle.std.specs.Prelude.{◌≡◌};
ghost use Rattle.command.specs.declared.refused.Refused.TheVariants.{NoMemory};

use std::alloc::{AllocError, AllocFailed};
use thiserror::Error;

/// Why words give no command.
#[derive(Debug, Drop, Error)]
pub enum Refused {
    /// The words are of no command, or ask for help. The text, what is wrong or the help, is for the user.
    #[error("{0}")]
    Usage(String),
    #[error("no memory")]
    NoMemory,
}

impl From<AllocError> for Refused {
    ghost from_gives = { λ _ e. e ≡ NoMemory };

    fn from(_error: AllocError) -> Self {
        Self::NoMemory
    }
}

impl<T: Drop> From<AllocFailed<T>> for Refused {
    ghost from_gives = { λ _ e. e ≡ NoMemory };

    fn from(_error: AllocFailed<T>) -> Self {
        Self::NoMemory
    }
}
