//! What a solve comes to.
ghost use Rattle.std.specs.Prelude.{◌≡◌, ◌<◌, ◌++◌, vec_len, vec_capacity};
ghost use Rattle.solve.specs.Decisions.{answered, told_by};
ghost use Rattle.solve.specs.Entries.{listed};

use crate::answer::Answer;
use trail::Stopped;

/// What a solve of the open formula comes to.
#[derive(Debug, Drop)]
pub enum Decision {
    /// It is true.
    Sat,
    /// It is false.
    Unsat,
    /// The budget was spent first. With what the search tells that stopped.
    Unknown(Stopped),
}

impl Decision {
    /// Its answer.
    pub fn answer(&self) -> Answer
        ensures { result ≡ answered self.now }
    {
        match self {
            Self::Sat => Answer::Sat,
            Self::Unsat => Answer::Unsat,
            Self::Unknown(_) => Answer::Unknown,
        }
    }

    /// What it tells of a search that stopped.
    pub fn into_stopped(self) -> Option<Stopped>
        ensures { listed result ≡ told_by self }
    {
        match self {
            Self::Unknown(stopped) => Some(stopped),
            _ => None,
        }
    }
}

/// Puts what is told, if anything is, into the list, which has room for it.
pub fn put_told(stops: &mut Vec<Stopped>, told: Option<Stopped>)
    requires room { vec_len stops.old < vec_capacity stops.old }
    ensures { stops.new.items ≡ stops.old.items ++ listed told }
{
    if let Some(stopped) = told {
        let _ = stops.push(stopped);
    }
}
