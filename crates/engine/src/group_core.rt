//! The core of a false formula among its groups.
ghost use Rattle.std.specs.Prelude.{◌≡◌, IfOk, IfErr, IfSome, OnOk, MatchOption};
ghost use Rattle.engine.specs.declared.group_core.CoreRefusal.TheVariants.{NoMemory as no_memory};
ghost use Rattle.engine.specs.Asks.{IsVerdictOf};
ghost use Rattle.engine.specs.Cores.{HasCore, IsCoreStop, active_parts, core_number, core_of, core_refusal, stopped_by};

use crate::engine::Engine;
use cores::{Part, Question, core_of, cores_are_minimal};
use frames::Frames;
use memory::NoMemory;
use search::SolveStop;
use std::alloc::Global;
use thiserror::Error;
use trail::Stopped;

/// Why a core isn't told. The verdict stays.
#[derive(Debug, Drop, Error)]
pub enum CoreRefusal {
    /// There is no verdict, or a change came after it.
    #[error("there is no verdict")]
    NoVerdict,
    /// The formula is true.
    #[error("the formula is true")]
    NotUnsat,
    /// The budget of a trial is spent, with what is told of its search.
    #[error("the budget of steps is spent")]
    Spent(Stopped),
    /// There is no memory.
    #[error("out of memory")]
    NoMemory,
}

impl CoreRefusal {
    /// The number that a reply to a script tells: 50 or 53, and none for a spent budget and for want of memory.
    pub fn number(&self) -> Option<u8>
        ensures { result ≡ core_number self.now }
    {
        match self {
            Self::NoVerdict => Some(50),
            Self::NotUnsat => Some(53),
            Self::Spent(_) | Self::NoMemory => None,
        }
    }
}

impl From<NoMemory> for CoreRefusal {
    ghost from_gives = { λ _ e. e ≡ no_memory };

    fn from(_error: NoMemory) -> Self {
        Self::NoMemory
    }
}

impl From<SolveStop> for CoreRefusal {
    ghost from_gives = { λ stop e. e ≡ stopped_by stop };

    fn from(stop: SolveStop) -> Self {
        match stop {
            SolveStop::Spent(stopped) => Self::Spent(stopped),
            SolveStop::NoMemory => Self::NoMemory,
        }
    }
}

impl Engine {
    /// The numbers of the groups of the core, ascending: where the verdict is that the formula is false, one active
    /// group after the other, by number, is left out where the clauses outside groups are false with those of the
    /// groups that are left, under the verdict's assumptions. So with the clauses of the core's groups they are false,
    /// and with those of all but any one of these groups true. The verdict stays.
    ///
    /// Each trial has this budget of steps, and the restarts and the kept rows of the engine. Refused, in this order,
    /// with NoVerdict, with NotUnsat where the formula is true, and with NoMemory. Spent comes only where the budget of
    /// a trial is spent, which is never so where it suffices for the variables and the restarts. It takes the time of
    /// putting all open clauses into a search of its own, and of a solve for each active group.
    pub fn group_core(&self, budget: u64) -> Result<Vec<u32>, CoreRefusal>
        ensures refused { MatchOption (core_refusal self.now)
            (IfSome self.now.verdict (λ v. IfErr result
            (IsCoreStop self.now.restarts budget self.now.formula v.assumptions)))
            (λ e. result ≡ Err e) }
        ensures value { IfSome self.now.verdict (λ v. IfOk result (λ core. core.items
            ≡ core_of self.now.formula v.assumptions)) }
        ensures core { IfSome self.now.verdict (λ v. OnOk result (HasCore self.now.formula v.assumptions)) }
        ensures verdict { IfSome self.now.verdict (IsVerdictOf self.now.formula) }
    {
        cores_are_minimal();
        let _facts = self.verdict();
        let Some(held) = &self.verdict else {
            return Err(CoreRefusal::NoVerdict);
        };
        if held.verdict.truth {
            return Err(CoreRefusal::NotUnsat);
        }
        // All clauses are rows of the prefix.
        let _groups = self.frames.groups_len();
        let parts = active_parts(self.alloc, &self.frames)?;
        let question = Question {
            prefix: self.frames.prefix(),
            assumptions: held.assumed.lits(),
            budget,
            restarts: self.restarts,
            kept: self.kept_rows,
        };
        let core = core_of(
            self.alloc,
            &question,
            self.search.room(),
            self.frames.other_clauses(),
            &parts,
        )?;
        Ok(core)
    }
}

// The active groups, by number.
fn active_parts<'a>(alloc: Global, frames: &'a Frames) -> Result<Vec<Part<'a>>, NoMemory>
    ensures { IfOk result (λ parts. parts.items ≡ active_parts frames.now.formula.groups) }
{
    let mut parts = Vec::new(alloc);
    for place in 0..frames.groups_len() {
        let group = frames.group(place);
        if !group.is_active() {
            continue;
        }
        parts.push(Part::new(group.number(), group.clauses()))?;
    }
    Ok(parts)
}
