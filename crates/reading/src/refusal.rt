//! Why a text isn't what it should be.
ghost use Rattle.std.specs.Prelude.{◌≡◌};
ghost use Rattle.reading.specs.declared.refusal.ReadRefusal.TheVariants.{NoMemory};

use std::alloc::{AllocError, AllocFailed};
use thiserror::Error;

/// What there may be only so many of in a text.
#[derive(Clone, Copy, Debug, PartialEq, Eq)]
pub enum Quantity {
    /// 1,048,576 declared variables.
    Variables,
    /// 65,536 scopes.
    Scopes,
    /// 2^24 declared clauses.
    Clauses,
    /// 2^28 literals, repeats counted.
    Literals,
    /// 2^30 bytes.
    Bytes,
}

/// Why a text is no formula, or no script. Lines are numbered from 1; that of the end is 1 plus the number of all line
/// ends.
#[derive(Clone, Copy, Debug, PartialEq, Eq, Error)]
pub enum ReadRefusal {
    /// The text is refused, at the word, the header or the end on this line: 7 is a byte of a word that is none of 33
    /// to 126, 8 a number whose magnitude is above 2^63 - 1. Of a formula, 10 is no header, 11 a malformed header, 12 a
    /// variable that isn't declared, 13 a variable that stands in a set already, 14 a set behind a clause, 15 a set or
    /// clause without its 0, 16 fewer clauses than declared, 17 more clauses than declared, 18 a word that doesn't
    /// belong there. Of a script, 30 is no header, 31 no command of the version, 32 a command whose words haven't its
    /// form.
    #[error("line {line}: refused with number {number}")]
    Refused { number: u8, line: u32 },
    /// The text goes beyond a limit on this line.
    #[error("line {line}: beyond a limit of the reader")]
    Limit { quantity: Quantity, line: u32 },
    /// The text can't be read.
    #[error("the text can't be read")]
    ReadFault,
    /// There is no memory.
    #[error("out of memory")]
    NoMemory,
}

impl From<AllocError> for ReadRefusal {
    ghost from_gives = { λ _ e. e ≡ NoMemory };

    fn from(_error: AllocError) -> Self {
        Self::NoMemory
    }
}

impl<T: Drop> From<AllocFailed<T>> for ReadRefusal {
    ghost from_gives = { λ _ e. e ≡ NoMemory };

    fn from(_error: AllocFailed<T>) -> Self {
        Self::NoMemory
    }
}
