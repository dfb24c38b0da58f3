//! A solve, from rest to rest.
ghost use Rattle.std.specs.Prelude.{◌≡◌, ℕ, ◌+◌, ◌-◌, ◌*◌, ◌<◌, ◌≤◌, IfOk, IfErr, OnOk, OnErr, Err, length};
ghost use Rattle.prefix.specs.Scopes.{IsAscending};
ghost use Rattle.prefix.specs.declared.quant.Quant.{Quant as Q};
ghost use Rattle.steps.specs.Counter.{left, step_limit};
ghost use Rattle.steps.specs.declared.stop.Stop.TheVariants.{Spent as spent};
ghost use Rattle.calculus.specs.Limits.{propagation_limit};
ghost use Rattle.calculus.specs.Rows.{variables_in};
ghost use Rattle.calculus.specs.Search.{AreTheAssumptions, IsRefuted};
ghost use Rattle.calculus.specs.Verdicts.{AreOuter, IsEndRow};
ghost use Rattle.trail.specs.State.{account_of};
ghost use Rattle.trail.specs.declared.allowed.Allowed.TheVariants.{Anything};
ghost use Rattle.derive.specs.State.{clauses_of, row_of};
ghost use Rattle.clean.specs.Reasons.{IsReducedStep};
ghost use Rattle.clean.specs.Turns.{reductions_in};
ghost use Rattle.search.specs.State.{IsAtRest, IsPaused, IsResting, IsSearching};
ghost use Rattle.search.specs.Counting.{IsBounded, IsCounted, ReducesFew, size_of};
ghost use Rattle.search.specs.Finishes.{HasNoFinish, IsFinishId};
ghost use Rattle.search.specs.Forcing.{HasNoCubes, IsForced, NoCubeAttached};
ghost use Rattle.search.specs.Forgetting.{HasFewLong};
ghost use Rattle.search.specs.Long.{long_in};
ghost use Rattle.search.specs.Moves.{IsMatrix, KeepsOlder};
ghost use Rattle.search.specs.Stops.{IsOutcome, IsQuickStop, IsStop, WasSpentWhenDue};

use crate::outcome::{EndRow, Outcome, SolveStop};
use crate::search::{RESTART_INTERVAL, Search};
use derive::StepId;
use matrix::Matrix;
use memory::NoMemory;
use prefix::{Lit, Prefix};
use steps::{Spent, Steps, Stop};
use trail::Stopped;

impl Search {
    /// Decides the formula of the prefix and the clauses of the matrix, which are the open clauses, under assumptions
    /// of the first scope, by search with learned clauses and cubes (QCDCL). What it learns stays for the next call.
    /// The finish of the last outcome goes: after a call no finish is live but that of its own outcome.
    ///
    /// After each 64th lesson it begins anew from its assumptions and what follows from them, at most `restarts` times.
    ///
    /// For each step that it takes at most one reduction comes in; and it takes fewer steps than suffice for the
    /// variables.
    ///
    /// Where more than `kept` long learned rows are no reasons, which it looks for at its start and after each lesson,
    /// the oldest of these are forgotten until half of `kept` are left. Steps that nothing kept rests on are dropped
    /// then, or at a later such time, once as many ids were given as steps were live the last time, and one for 64 of
    /// all ids. With an outcome at most `kept` long learned rows, one more, and one for each variable are kept.
    ///
    /// Spent comes only where a step is due and the budget is spent, which with as many steps left as suffice for the
    /// variables and the restarts is never so. After it and after want of memory the search is at rest, with the same
    /// open clauses. The row that ends it stays attached for later solves, where there is memory for it, unless no call
    /// of the watches was quiet, or it is long beside more than `kept` long ones. No clause says so.
    pub fn solve(
        &mut self,
        prefix: &Prefix,
        matrix: &Matrix<'_>,
        assumptions: &[Lit],
        restarts: u32,
        kept: u32,
        steps: &mut Steps,
    ) -> Result<Outcome, SolveStop>
        requires resting { IsResting prefix.now self.old }
        requires matrix { IsMatrix self.old.derivation matrix.now }
        requires outer { AreOuter prefix.now assumptions.now }
        requires ascending { IsAscending (variables_in assumptions.now) }
        ensures outcome { IfOk result (IsOutcome prefix.now matrix.now assumptions.now self.new.derivation) }
        ensures stop { IfErr result
            (IsStop restarts prefix.now self.old.derivation assumptions.now steps.old steps.new) }
        ensures quick { HasNoCubes self.old → IsRefuted prefix.now matrix.now assumptions.now →
            IfErr result (IsQuickStop (size_of prefix.now) steps.old) }
        ensures resting { IsResting prefix.now self.new }
        ensures clauses { clauses_of self.new.derivation ≡ clauses_of self.old.derivation }
        ensures older { KeepsOlder self.old.derivation self.new.derivation }
        ensures finishes { IfOk result (λ o. (id : ℕ) → IsFinishId self.new.derivation id → id ≡ o.end) }
        ensures unfinished { OnErr result (HasNoFinish self.new.derivation) }
        ensures reductions { reductions_in self.new.derivation
            ≤ reductions_in self.old.derivation + (steps.new.spent - steps.old.spent) }
        ensures few { steps.new.spent - steps.old.spent < step_limit restarts (size_of prefix.now) }
        ensures long { OnOk result (long_in self.new.derivation ≤ kept + 1 + size_of prefix.now) }
        ensures budget { steps.new.budget ≡ steps.old.budget }
        ensures rises { steps.old.spent ≤ steps.new.spent }
    {
        self.start(prefix, kept)?;
        match self.run(prefix, matrix, assumptions, restarts, kept, steps) {
            Ok(end) => self.conclude(prefix, matrix, end, assumptions),
            Err(Stop::Spent) => Err(SolveStop::Spent(self.stop(prefix, steps))),
            Err(Stop::NoMemory) => {
                self.give_up(prefix);
                Err(SolveStop::NoMemory)
            }
        }
    }

    // Attaches what is watched, and forgets long learned rows where there are more than may be kept.
    fn start(&mut self, prefix: &Prefix, kept: u32) -> Result<(), NoMemory>
        requires { IsResting prefix.now self.old }
        ensures paused { OnOk result (IsPaused prefix.now self.new) }
        ensures long { OnOk result (HasFewLong kept prefix.now self.new) }
        ensures trail { OnOk result (self.new.trail ≡ self.old.trail) }
        ensures clauses { clauses_of self.new.derivation ≡ clauses_of self.old.derivation }
        ensures older { KeepsOlder self.old.derivation self.new.derivation }
        ensures cubes { OnOk result (HasNoCubes self.old → NoCubeAttached self.new) }
        ensures reductions { reductions_in self.new.derivation ≤ reductions_in self.old.derivation }
        ensures resting { OnErr result (IsResting prefix.now self.new) }
        ensures unfinished { OnErr result (HasNoFinish self.new.derivation) }
    {
        self.attach_all(prefix);
        match self.reduce_database(prefix, kept) {
            Ok(()) => Ok(()),
            Err(stop) => {
                self.give_up(prefix);
                Err(stop)
            }
        }
    }

    // Ends before a search: the finish of the last outcome goes.
    fn give_up(&mut self, prefix: &Prefix)
        requires paused { IsPaused prefix.now self.old }
        ensures resting { IsResting prefix.now self.new }
        ensures clauses { clauses_of self.new.derivation ≡ clauses_of self.old.derivation }
        ensures older { KeepsOlder self.old.derivation self.new.derivation }
        ensures unfinished { HasNoFinish self.new.derivation }
        ensures reductions { reductions_in self.new.derivation ≡ reductions_in self.old.derivation }
    {
        self.settle(prefix);
        self.drop_finish(prefix);
    }

    // Searches from an empty trail, to an end row.
    fn run(
        &mut self,
        prefix: &Prefix,
        matrix: &Matrix<'_>,
        assumptions: &[Lit],
        restarts: u32,
        kept: u32,
        steps: &mut Steps,
    ) -> Result<EndRow, Stop>
        requires paused { IsPaused prefix.now self.old }
        requires long { HasFewLong kept prefix.now self.old }
        requires rest { IsAtRest self.old.trail }
        requires matrix { IsMatrix self.old.derivation matrix.now }
        requires outer { AreOuter prefix.now assumptions.now }
        requires ascending { IsAscending (variables_in assumptions.now) }
        ensures paused { IsPaused prefix.now self.new }
        ensures clauses { clauses_of self.new.derivation ≡ clauses_of self.old.derivation }
        ensures older { KeepsOlder self.old.derivation self.new.derivation }
        ensures row { IfOk result (λ e. IsReducedStep e.side prefix.now self.new.derivation e.row) }
        ensures end { IfOk result (λ e. IsEndRow e.side prefix.now assumptions.now (row_of self.new.derivation e.row)) }
        ensures bounded { IsBounded (size_of prefix.now) steps.old.spent self.new.trail steps.new }
        ensures restarts { self.new.trail.restarts ≤ restarts }
        ensures long { OnOk result (HasFewLong kept prefix.now self.new) }
        ensures due { result ≡ Err spent → WasSpentWhenDue prefix.now self.old.derivation assumptions.now steps.old
            self.new.trail.assigned }
        ensures spent { result ≡ Err spent → steps.new.spent ≡ steps.new.budget }
        ensures refuted { NoCubeAttached self.old → IsRefuted prefix.now matrix.now assumptions.now →
            result ≡ Err spent → left steps.old < propagation_limit (size_of prefix.now) }
        ensures reductions { ReducesFew self.old.derivation self.new.derivation steps.old steps.new }
        ensures budget { steps.new.budget ≡ steps.old.budget }
        ensures rises { steps.old.spent ≤ steps.new.spent }
    {
        self.assume(prefix, assumptions, steps)?;
        'turns: loop {
            if let Some(end) = self.turn(prefix, matrix, restarts, kept, steps)? {
                return Ok(end);
            }
        }
    }

    // Assumes literals on an empty trail.
    fn assume(
        &mut self,
        prefix: &Prefix,
        assumptions: &[Lit],
        steps: &mut Steps,
    ) -> Result<(), Spent>
        requires paused { IsPaused prefix.now self.old }
        requires rest { IsAtRest self.old.trail }
        requires outer { AreOuter prefix.now assumptions.now }
        requires ascending { IsAscending (variables_in assumptions.now) }
        ensures searching { OnOk result (IsSearching prefix.now self.new) }
        ensures allowed { OnOk result (self.new.trail.allowed ≡ Anything) }
        ensures assumed { OnOk result (AreTheAssumptions self.new.trail.placed assumptions.now) }
        ensures counted { OnOk result (IsCounted (size_of prefix.now) 0 steps.old.spent self.new.trail steps.new) }
        ensures paused { IsPaused prefix.now self.new }
        ensures derivation { self.new.derivation ≡ self.old.derivation }
        ensures restarts { self.new.trail.restarts ≡ self.old.trail.restarts }
        ensures long { self.new.long ≡ self.old.long }
        ensures forced { NoCubeAttached self.old →
            OnOk result (IsForced prefix.now steps.old.spent self.new steps.new) }
        ensures bounded { OnErr result (IsBounded (size_of prefix.now) steps.old.spent self.new.trail steps.new) }
        ensures due { OnErr result (left steps.old < length assumptions.now) }
        ensures assigned { OnErr result (self.new.trail.assigned ≡ left steps.old) }
        ensures spent { OnErr result (steps.new.spent ≡ steps.new.budget) }
        ensures budget { steps.new.budget ≡ steps.old.budget }
        ensures rises { steps.old.spent ≤ steps.new.spent }
    {
        // The counter is within its budget.
        let _budget = steps.budget();
        self.trail.assume_all(prefix, assumptions, steps)?;
        Ok(())
    }

    // Ends with an end row: the trail is emptied, and the row's finish comes in, for that of the last outcome.
    fn conclude(
        &mut self,
        prefix: &Prefix,
        matrix: &Matrix<'_>,
        end: EndRow,
        assumptions: &[Lit],
    ) -> Result<Outcome, SolveStop>
        requires paused { IsPaused prefix.now self.old }
        requires matrix { IsMatrix self.old.derivation matrix.now }
        requires outer { AreOuter prefix.now assumptions.now }
        requires ascending { IsAscending (variables_in assumptions.now) }
        requires row { IsReducedStep end.side prefix.now self.old.derivation end.row }
        requires end { IsEndRow end.side prefix.now assumptions.now (row_of self.old.derivation end.row) }
        ensures outcome { IfOk result (IsOutcome prefix.now matrix.now assumptions.now self.new.derivation) }
        ensures err { OnErr result (result ≡ Err SolveStop.NoMemory) }
        ensures resting { IsResting prefix.now self.new }
        ensures clauses { clauses_of self.new.derivation ≡ clauses_of self.old.derivation }
        ensures older { KeepsOlder self.old.derivation self.new.derivation }
        ensures reductions { reductions_in self.new.derivation ≡ reductions_in self.old.derivation }
        ensures long { self.new.long ≡ self.old.long }
        ensures finishes { IfOk result (λ o. (id : ℕ) → IsFinishId self.new.derivation id → id ≡ o.end) }
        ensures unfinished { OnErr result (HasNoFinish self.new.derivation) }
    {
        self.settle(prefix);
        self.drop_finish(prefix);
        let id = self.finish(prefix, matrix, end, assumptions)?;
        Ok(Outcome {
            loser: end.side,
            end: id,
        })
    }

    // Puts in the finish of an end row, where there is no other one.
    fn finish(
        &mut self,
        prefix: &Prefix,
        matrix: &Matrix<'_>,
        end: EndRow,
        assumptions: &[Lit],
    ) -> Result<StepId, NoMemory>
        requires resting { IsResting prefix.now self.old }
        requires unfinished { HasNoFinish self.old.derivation }
        requires matrix { IsMatrix self.old.derivation matrix.now }
        requires outer { AreOuter prefix.now assumptions.now }
        requires ascending { IsAscending (variables_in assumptions.now) }
        requires row { IsReducedStep end.side prefix.now self.old.derivation end.row }
        requires end { IsEndRow end.side prefix.now assumptions.now (row_of self.old.derivation end.row) }
        ensures outcome { IfOk result (λ id. IsOutcome prefix.now matrix.now assumptions.now self.new.derivation
            (record { loser = end.side; end = id })) }
        ensures resting { IsResting prefix.now self.new }
        ensures clauses { clauses_of self.new.derivation ≡ clauses_of self.old.derivation }
        ensures older { KeepsOlder self.old.derivation self.new.derivation }
        ensures reductions { reductions_in self.new.derivation ≡ reductions_in self.old.derivation }
        ensures long { self.new.long ≡ self.old.long }
        ensures finishes { IfOk result (λ end. (id : ℕ) → IsFinishId self.new.derivation id → id ≡ end) }
        ensures unfinished { OnErr result (HasNoFinish self.new.derivation) }
    {
        // The prefix is a valid one.
        let _valid = prefix.scopes();
        self.derivation.finish(prefix, end.row, assumptions)
    }

    // Empties the trail; what is watched stays attached.
    fn settle(&mut self, prefix: &Prefix)
        requires paused { IsPaused prefix.now self.old }
        ensures resting { IsResting prefix.now self.new }
        ensures derivation { self.new.derivation ≡ self.old.derivation }
        ensures long { self.new.long ≡ self.old.long }
    {
        self.decider.undoing(&self.trail, prefix, 0);
        self.trail.clear();
        self.watches.undone(0);
        self.joined = true;
        self.lessons_left = RESTART_INTERVAL;
        self.was_quiet = false;
    }

    // Ends where the budget is spent: the trail is emptied, and the finish of the last outcome goes; what is watched
    // stays attached.
    fn stop(&mut self, prefix: &Prefix, steps: &Steps) -> Stopped
        requires paused { IsPaused prefix.now self.old }
        requires spent { steps.now.spent ≡ steps.now.budget }
        ensures resting { IsResting prefix.now self.new }
        ensures clauses { clauses_of self.new.derivation ≡ clauses_of self.old.derivation }
        ensures older { KeepsOlder self.old.derivation self.new.derivation }
        ensures unfinished { HasNoFinish self.new.derivation }
        ensures reductions { reductions_in self.new.derivation ≡ reductions_in self.old.derivation }
        ensures stopped { result ≡ account_of prefix.now self.old.trail steps.now.budget }
    {
        self.decider.undoing(&self.trail, prefix, 0);
        let stopped = self.trail.stop(prefix, steps);
        self.watches.undone(0);
        self.joined = true;
        self.lessons_left = RESTART_INTERVAL;
        self.was_quiet = false;
        self.drop_finish(prefix);
        stopped
    }
}
