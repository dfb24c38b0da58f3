//! How the work on an input ends.
ghost use Rattle.std.specs.Prelude.{◌≡◌};
ghost use Rattle.solve.specs.declared.ending.Ending.TheVariants.{Refused, Limit, ReadFault, WriteFault, NoMemory as NoRoom};
ghost use Rattle.solve.specs.Endings.{ending_for};

use memory::NoMemory;
use ports::Failed;
use reading::{Quantity, ReadRefusal};
use std::alloc::AllocError;

/// How the work on an input ends.
#[derive(Clone, Copy, Debug, PartialEq, Eq)]
pub enum Ending {
    /// The answer is written. It has this exit status (`Answer::status`).
    Done(u8),
    /// The input is malformed: the rule of that number refuses it on this line.
    Refused { number: u8, line: u32 },
    /// The input goes beyond a limit on this line.
    Limit { quantity: Quantity, line: u32 },
    /// The check formula of the certificate goes beyond this limit. The certificate is written in its place.
    CheckLimit { quantity: Quantity },
    /// The input can't be read.
    ReadFault,
    /// The output can't be written.
    WriteFault,
    /// There is no memory.
    NoMemory,
}

// The ending where a text is no formula, or can't be read.
impl From<ReadRefusal> for Ending {
    ghost from_gives = { λ e ending. ending ≡ ending_for e };

    fn from(e: ReadRefusal) -> Self {
        match e {
            ReadRefusal::Refused { number, line } => Self::Refused { number, line },
            ReadRefusal::Limit { quantity, line } => Self::Limit { quantity, line },
            ReadRefusal::ReadFault => Self::ReadFault,
            ReadRefusal::NoMemory => Self::NoMemory,
        }
    }
}

// The ending where the output fails.
impl From<Failed> for Ending {
    ghost from_gives = { λ _ ending. ending ≡ WriteFault };

    fn from(_e: Failed) -> Self {
        Self::WriteFault
    }
}

impl From<AllocError> for Ending {
    ghost from_gives = { λ _ ending. ending ≡ NoRoom };

    fn from(_e: AllocError) -> Self {
        Self::NoMemory
    }
}

impl From<NoMemory> for Ending {
    ghost from_gives = { λ _ ending. ending ≡ NoRoom };

    fn from(_e: NoMemory) -> Self {
        Self::NoMemory
    }
}
