//! Why a command is refused.
ghost use Rattle.std.specs.Prelude.{◌≡◌};
ghost use Rattle.frames.specs.declared.refusal.FrameRefusal.TheVariants.{NoMemory};
ghost use Rattle.frames.specs.Refusal.{refusal_for, number_of};

use prefix::PrefixRefusal;
use std::alloc::{AllocError, AllocFailed};
use thiserror::Error;

/// Why a command is refused. The formula is then as it was before.
#[derive(Clone, Copy, Debug, PartialEq, Eq, Error)]
pub enum FrameRefusal {
    /// The prefix refuses the scope or the variable, for another reason than want of memory.
    #[error(transparent)]
    Prefix(PrefixRefusal),
    /// No pushed frame is open.
    #[error("no pushed frame is open")]
    NoFrame,
    /// A literal's variable isn't in the prefix.
    #[error("the variable isn't in the prefix")]
    UnknownVar,
    /// The assumed variable isn't in the first scope.
    #[error("the variable isn't in the first scope")]
    AssumeScope,
    /// The negation of the literal is assumed.
    #[error("the negation is assumed")]
    AssumeClash,
    /// An assumption stands, so that scopes and variables can't be added.
    #[error("an assumption stands")]
    AssumptionsHeld,
    /// So many frames, clauses or literals stand as may.
    #[error("a limit is reached")]
    Limit,
    /// A group is open.
    #[error("a group is open")]
    GroupOpen,
    /// The number of the group is 0 or above `Frames::MAX_GROUP`.
    #[error("the number of the group is out of range")]
    GroupRange,
    /// No group is open, or the group was never opened.
    #[error("there is no such group")]
    NoGroup,
    /// A pushed frame is open.
    #[error("a pushed frame is open")]
    GroupFrame,
    /// There is no memory. It is tried after all other refusals.
    #[error("out of memory")]
    NoMemory,
}

impl FrameRefusal {
    /// The number that a reply to a script tells: 1 to 4 for the prefix's refusals, 40 to 49 for those of frames, and
    /// none for want of memory.
    pub fn number(self) -> Option<u8>
        ensures { result ≡ number_of self }
    {
        match self {
            Self::Prefix(PrefixRefusal::VarTwice) => Some(1),
            Self::Prefix(PrefixRefusal::VarRange) => Some(2),
            Self::Prefix(PrefixRefusal::ScopeRange) => Some(3),
            Self::Prefix(PrefixRefusal::ScopeLimit) => Some(4),
            Self::Prefix(PrefixRefusal::NoMemory) => None,
            Self::NoFrame => Some(40),
            Self::UnknownVar => Some(41),
            Self::AssumeScope => Some(42),
            Self::AssumeClash => Some(43),
            Self::AssumptionsHeld => Some(44),
            Self::Limit => Some(45),
            Self::GroupOpen => Some(46),
            Self::GroupRange => Some(47),
            Self::NoGroup => Some(48),
            Self::GroupFrame => Some(49),
            Self::NoMemory => None,
        }
    }
}

impl From<PrefixRefusal> for FrameRefusal {
    ghost from_gives = { λ refusal e. e ≡ refusal_for refusal };

    fn from(refusal: PrefixRefusal) -> Self {
        match refusal {
            PrefixRefusal::NoMemory => Self::NoMemory,
            PrefixRefusal::VarTwice => Self::Prefix(PrefixRefusal::VarTwice),
            PrefixRefusal::VarRange => Self::Prefix(PrefixRefusal::VarRange),
            PrefixRefusal::ScopeRange => Self::Prefix(PrefixRefusal::ScopeRange),
            PrefixRefusal::ScopeLimit => Self::Prefix(PrefixRefusal::ScopeLimit),
        }
    }
}

impl From<AllocError> for FrameRefusal {
    ghost from_gives = { λ _ e. e ≡ NoMemory };

    fn from(_error: AllocError) -> Self {
        Self::NoMemory
    }
}

impl<T: Drop> From<AllocFailed<T>> for FrameRefusal {
    ghost from_gives = { λ _ e. e ≡ NoMemory };

    fn from(_error: AllocFailed<T>) -> Self {
        Self::NoMemory
    }
}

impl From<memory::NoMemory> for FrameRefusal {
    ghost from_gives = { λ _ e. e ≡ NoMemory };

    fn from(_error: memory::NoMemory) -> Self {
        Self::NoMemory
    }
}
