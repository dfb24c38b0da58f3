//! The numbers of refusals.
ghost use Rattle.std.specs.Prelude.{◌≡◌};

use reading::{Quantity, ReadRefusal};

pub(crate) const BAD_BYTE: u8 = 7;

pub(crate) const NUMBER_RANGE: u8 = 8;

pub(crate) const NO_HEADER: u8 = 10;

pub(crate) const BAD_HEADER: u8 = 11;

pub(crate) const VARIABLE_RANGE: u8 = 12;

pub(crate) const VARIABLE_TWICE: u8 = 13;

pub(crate) const SET_AFTER_CLAUSE: u8 = 14;

pub(crate) const MISSING_ZERO: u8 = 15;

pub(crate) const TOO_FEW_CLAUSES: u8 = 16;

pub(crate) const TOO_MANY_CLAUSES: u8 = 17;

pub(crate) const BAD_WORD: u8 = 18;

// The refusal of this number on this line.
pub(crate) fn refused(number: u8, line: u32) -> ReadRefusal
    ensures { result ≡ ReadRefusal.Refused number line }
{
    ReadRefusal::Refused { number, line }
}

// The refusal beyond this limit on this line.
pub(crate) fn beyond(quantity: Quantity, line: u32) -> ReadRefusal
    ensures { result ≡ ReadRefusal.Limit quantity line }
{
    ReadRefusal::Limit { quantity, line }
}
