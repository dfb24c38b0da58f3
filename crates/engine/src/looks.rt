//! What is seen of an engine's formula.
ghost use Rattle.std.specs.Prelude.{◌≡◌, IfOk, IfSome, IsOk, MatchOption};
ghost use Rattle.std.specs.List.{AllByRecursion};
ghost use Rattle.calculus.specs.Rows.{IsRow};
ghost use Rattle.frames.specs.State.{depth as depth_of, open_clauses as clauses_of};
ghost use Rattle.engine.specs.Asks.{IfAnswered, IsVerdictOf};
ghost use Rattle.engine.specs.Refusals.{ask_refusal};

use crate::engine::Engine;
use crate::refusal::AskRefusal;
use matrix::Matrix;
use memory::NoMemory;
use prefix::Lit;
use std::alloc::Global;

impl Engine {
    /// The number of pushed frames. This takes no memory and constant time.
    pub fn depth(&self) -> usize
        ensures { result ≡ depth_of self.now.formula.frames }
    {
        self.frames.depth()
    }

    /// The clauses of the open formula: those of all open frames, those of frame 0 first, and then those of the active
    /// groups, by number. The memory is that of a place for each group.
    pub fn open_clauses(&self, alloc: Global) -> Result<Matrix<'_>, NoMemory>
        ensures value { IfOk result (λ matrix. matrix ≡ clauses_of self.now.formula) }
        ensures rows { AllByRecursion (IsRow self.now.formula.scopes) (clauses_of self.now.formula) }
    {
        self.frames.open_clauses(alloc)
    }

    /// The assumptions that the last verdict was found under, ascending by variable. This takes no memory and constant
    /// time.
    pub fn assumed(&self) -> Result<&[Lit], AskRefusal>
        ensures refused { MatchOption (ask_refusal self.now) (IsOk result) (λ e. result ≡ Err e) }
        ensures value { IfAnswered self.now.verdict result (λ v list. list.now ≡ v.assumptions) }
        ensures verdict { IfSome self.now.verdict (IsVerdictOf self.now.formula) }
    {
        let _facts = self.verdict();
        match &self.verdict {
            None => Err(AskRefusal::NoVerdict),
            Some(held) => Ok(held.assumed.lits()),
        }
    }
}
