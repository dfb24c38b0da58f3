//! Why a text is no circuit.
ghost use Rattle.std.specs.Prelude.{◌≡◌};
ghost use Rattle.qcir_reader.specs.declared.refusal.QcirRefusal.TheVariants.{NoMemory};

use reading::Quantity;
use std::alloc::{AllocError, AllocFailed};
use thiserror::Error;

// The numbers of refusals.
pub(crate) const BAD_BYTE: u8 = 7;

pub(crate) const NUMBER_RANGE: u8 = 8;

pub(crate) const BAD_STATEMENT: u8 = 70;

pub(crate) const BAD_NAME: u8 = 71;

pub(crate) const UNSUPPORTED: u8 = 72;

pub(crate) const NAME_TWICE: u8 = 73;

pub(crate) const UNKNOWN: u8 = 74;

/// Why a text is no circuit. Lines are numbered from 1; that of the end is 1 plus the number of all line ends.
#[derive(Clone, Copy, Debug, PartialEq, Eq, Error)]
pub enum QcirRefusal {
    /// The text is refused, at the word, the output's literal or the end on this line: 7 is a byte of a word that is
    /// none of 33 to 126, 8 a number whose magnitude is above 2^63 - 1, 70 a word that the grammar doesn't allow there,
    /// or an end inside a statement or without an output, 71 a number that names no variable: 0, above 1,048,576, or
    /// negative where a variable is wanted; 72 what QCIR-14 has and this reader doesn't, as `xor`, `ite`, `free` and
    /// quantifiers behind `=`; 73 a name that is quantified or defined already, 74 an input that isn't known yet, or an
    /// output that nothing defines.
    #[error("line {line}: refused with number {number}")]
    Refused { number: u8, line: u32 },
    /// The text goes beyond a limit on this line: 65,536 scopes, with one for the gates, 2^24 clauses, counted as one
    /// for each input of a gate, one for each gate, and one for the output, or 2^30 bytes.
    #[error("line {line}: beyond a limit of the reader")]
    Limit { quantity: Quantity, line: u32 },
    /// The text can't be read.
    #[error("the text can't be read")]
    ReadFault,
    /// There is no memory.
    #[error("out of memory")]
    NoMemory,
}

// The refusal of this number on this line.
pub(crate) fn refused(number: u8, line: u32) -> QcirRefusal
    ensures { result ≡ QcirRefusal.Refused number line }
{
    QcirRefusal::Refused { number, line }
}

// The refusal beyond this limit on this line.
pub(crate) fn beyond(quantity: Quantity, line: u32) -> QcirRefusal
    ensures { result ≡ QcirRefusal.Limit quantity line }
{
    QcirRefusal::Limit { quantity, line }
}

impl From<AllocError> for QcirRefusal {
    ghost from_gives = { λ _ e. e ≡ NoMemory };

    fn from(_error: AllocError) -> Self {
        Self::NoMemory
    }
}

impl<T: Drop> From<AllocFailed<T>> for QcirRefusal {
    ghost from_gives = { λ _ e. e ≡ NoMemory };

    fn from(_error: AllocFailed<T>) -> Self {
        Self::NoMemory
    }
}
