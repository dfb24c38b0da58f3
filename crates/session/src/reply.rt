//! Replies to commands.
ghost use Rattle.std.specs.Prelude.{◌≡◌};
ghost use Rattle.session.specs.declared.reply.SessionStop.TheVariants.{NoMemory};
ghost use Rattle.session.specs.Endings.{ending_at};
ghost use Rattle.session.specs.Steps.{reply_to, told_by};
ghost use Rattle.solve.specs.Entries.{listed};

use memory::NoMemory as NoRoom;
use solve::{Decision, Ending};
use trail::Stopped;

/// The reply to a command.
#[derive(Debug, Drop)]
pub enum Reply {
    /// The formula was changed. Nothing is written.
    Silent,
    /// The command is refused by the rule of this number, and changes nothing: `refused N`.
    Refused(u8),
    /// The formula is true: `SAT`.
    Sat,
    /// It is false: `UNSAT`.
    Unsat,
    /// The budget was spent first: `UNKNOWN`, with what the search tells that stopped.
    Unknown(Stopped),
    /// What was asked of the verdict.
    Written,
}

/// Why a command has no reply.
#[derive(Debug, Drop)]
pub enum SessionStop {
    /// The reply couldn't be written; a front of it is. Where it was `UNKNOWN`, with what the search that stopped
    /// tells.
    WriteFault(Option<Stopped>),
    /// There is no memory. Nothing is written; a solve leaves the formula and the assumptions, and no verdict, and any
    /// other command leaves the session as it was, but that `clause` and `activate` may have let go of long learned
    /// rows.
    NoMemory,
}

impl Reply {
    // The reply to a solve that came to this.
    pub(crate) fn to_solve(decision: Decision) -> Self
        ensures { result ≡ reply_to decision }
    {
        match decision {
            Decision::Sat => Self::Sat,
            Decision::Unsat => Self::Unsat,
            Decision::Unknown(stopped) => Self::Unknown(stopped),
        }
    }

    // What it tells of a search that stopped.
    pub(crate) fn into_stopped(self) -> Option<Stopped>
        ensures { listed result ≡ told_by self }
    {
        match self {
            Self::Unknown(stopped) => Some(stopped),
            _ => None,
        }
    }
}

impl From<NoRoom> for SessionStop {
    ghost from_gives = { λ _ stop. stop ≡ NoMemory };

    fn from(_e: NoRoom) -> Self {
        Self::NoMemory
    }
}

// The ending where a reply fails.
impl From<SessionStop> for Ending {
    ghost from_gives = { λ e ending. ending ≡ ending_at e };

    fn from(e: SessionStop) -> Self {
        match e {
            SessionStop::WriteFault(_) => Self::WriteFault,
            SessionStop::NoMemory => Self::NoMemory,
        }
    }
}
