//! What bad rows teach, and what is done about it. The rows that only shortened a lesson raise no priorities: where
//! they did, 0.94 of the conflicts were left on 116 formulas in place of 0.91.
ghost use Rattle.std.specs.Prelude.{◌≡◌, ◌≢◌, ◌≤◌, ◌<◌, ◌+◌, ◌-◌, ◌*◌, ◌^◌, ℕ, IsTrue, IfOk, OnOk, OnErr, Ok, Err, None, length, List};
ghost use Rattle.prefix.specs.Literal.{Literal};
ghost use Rattle.prefix.specs.declared.quant.Quant.{Quant as Q};
ghost use Rattle.steps.specs.Counter.{Counter, left};
ghost use Rattle.steps.specs.declared.stop.Stop.TheVariants.{Spent as spent};
ghost use Rattle.calculus.specs.Search.{IsBadRow, IsUnitIn, MakesUnitAt, good_literal, last_level, value_on};
ghost use Rattle.calculus.specs.Search.Cause.{Propagated as propagated};
ghost use Rattle.decide.specs.Decision.{IsDecision};
ghost use Rattle.trail.specs.State.{IsTrailFor};
ghost use Rattle.trail.specs.declared.allowed.Allowed.TheVariants.{Anything, Nothing};
ghost use Rattle.derive.specs.State.{has_rows, row_of, side_at, IsLegalFor};
ghost use Rattle.derive.specs.Growing.{GainsSteps};
ghost use Rattle.clean.specs.Reasons.{HaveReasons, IsReducedStep};
ghost use Rattle.clean.specs.Marks.{CleansReasons, KeepsReasons, StopsCleaning, marks_left};
ghost use Rattle.clean.specs.Turns.{reductions_in};
ghost use Rattle.analyse.specs.Lessons.{IsLesson, NeedsResolution};
ghost use Rattle.search.specs.State.{IsAttached, IsSearching};
ghost use Rattle.search.specs.Counting.{lesson_cost, size_of};
ghost use Rattle.search.specs.Parts.{GoesOn, StopsWhenDue};
ghost use Rattle.search.specs.Moves.{Advances, Analyses, BeginsAnew, Halts, Pushes, Undoes, WasDue};

use crate::outcome::EndRow;
use crate::propagating::propagate;
use crate::search::{RESTART_INTERVAL, Search};
use analyse::{Lesson, analyse};
use decide::Decider;
use derive::{Derivation, Step, StepId};
use memory::NoMemory;
use prefix::{Clauses, Cubes, Lit, Prefix, Quant};
use steps::{Spent, Steps, Stop};
use trail::{Trail, Why};

impl Search {
    // Learns from a bad row of a side: the search goes on, or ends with an end row.
    pub(crate) fn learn(
        &mut self,
        prefix: &Prefix,
        side: Quant,
        row: StepId,
        restarts: u32,
        kept: u32,
        steps: &mut Steps,
    ) -> Result<Option<EndRow>, Stop>
        requires searching { IsSearching prefix.now self.old }
        requires row { IsReducedStep side prefix.now self.old.derivation row }
        requires bad { IsBadRow side prefix.now (value_on self.old.trail.placed) (row_of self.old.derivation row) }
        ensures goes { GoesOn prefix.now 1 restarts kept self.old self.new steps.old steps.new result }
        ensures stops { StopsWhenDue prefix.now 1 self.old self.new steps.old steps.new result }
        ensures ends { last_level self.old.trail.placed ≡ 0 → result ≢ Ok None }
        ensures few { last_level self.old.trail.placed ≡ 0 → result ≡ Err spent → left steps.old
            < 2 * (marks_left self.old.trail * length self.old.trail.placed + length self.old.trail.placed) }
    {
        match self.analysed(prefix, side, row, steps)? {
            Lesson::End { row } => {
                self.attach_end(prefix, row, kept);
                Ok(Some(EndRow { side, row }))
            }
            Lesson::Learn {
                row,
                lit,
                level,
                ..
            } => {
                if self.is_restart_due(restarts) {
                    self.restart(prefix, row)?;
                } else {
                    self.backjump(prefix, side, row, lit, level, steps)?;
                }
                self.reduce_database(prefix, kept)?;
                Ok(None)
            }
        }
    }

    // Counts a lesson, and tells whether a restart is due after it; so many may be made.
    fn is_restart_due(&mut self, restarts: u32) -> bool
        ensures same { self.new ≡ self.old }
        ensures fewer { IsTrue result → self.old.trail.restarts < restarts }
        ensures small { IsTrue result → self.old.trail.restarts + 1 < 2 ^ 64 }
    {
        self.lessons_left = self.lessons_left.saturating_sub(1);
        if self.lessons_left > 0 {
            return false;
        }
        self.lessons_left = RESTART_INTERVAL;
        self.trail.restarts() < u64::from(restarts)
    }

    // Restarts: undoes to level 0, and attaches a learned row.
    fn restart(&mut self, prefix: &Prefix, row: StepId) -> Result<(), NoMemory>
        requires searching { IsSearching prefix.now self.old }
        requires row { IsReducedStep (side_at self.old.derivation row) prefix.now self.old.derivation row }
        requires below { 0 < last_level self.old.trail.placed }
        requires small { self.old.trail.restarts + 1 < 2 ^ 64 }
        ensures ok { OnOk result ((steps : Counter) →
            Advances prefix.now (lesson_cost (size_of prefix.now)) self.old self.new steps steps) }
        ensures err { OnErr result ((steps : Counter) →
            Halts prefix.now (lesson_cost (size_of prefix.now)) self.old self.new steps steps) }
        ensures kept { OnOk result (IsAttached self.new (side_at self.old.derivation row) row) }
        ensures reductions { reductions_in self.new.derivation ≡ reductions_in self.old.derivation }
        ensures restarts { self.new.trail.restarts ≡ self.old.trail.restarts + 1 }
    {
        bump(&mut self.decider, self.derivation.lits(row));
        self.undo_all(prefix);
        self.attach_learned(prefix, row)?;
        Ok(())
    }

    // Undoes to level 0, and counts a restart.
    fn undo_all(&mut self, prefix: &Prefix)
        requires searching { IsSearching prefix.now self.old }
        requires below { 0 < last_level self.old.trail.placed }
        ensures { BeginsAnew prefix.now self.old self.new }
    {
        let front = self.trail.len_to(0);
        self.decider.undoing(&self.trail, prefix, front);
        self.trail.restart();
        self.watches.undone(front);
    }

    // What a bad row of a side teaches.
    fn analysed(
        &mut self,
        prefix: &Prefix,
        side: Quant,
        row: StepId,
        steps: &mut Steps,
    ) -> Result<Lesson, Stop>
        requires searching { IsSearching prefix.now self.old }
        requires row { IsReducedStep side prefix.now self.old.derivation row }
        requires bad { IsBadRow side prefix.now (value_on self.old.trail.placed) (row_of self.old.derivation row) }
        ensures ok { OnOk result (Analyses prefix.now self.old self.new steps.old steps.new) }
        ensures restarts { self.new.trail.restarts ≡ self.old.trail.restarts }
        ensures long { self.new.long ≡ self.old.long }
        ensures lesson { IfOk result (λ lesson.
            IsLesson side prefix.now self.new.trail.placed self.new.derivation lesson) }
        ensures stops { StopsWhenDue prefix.now 1 self.old self.new steps.old steps.new result }
        ensures few { result ≡ Err spent → left steps.old
            < 2 * (marks_left self.old.trail * length self.old.trail.placed + length self.old.trail.placed) }
    {
        bump(&mut self.decider, self.derivation.lits(row));
        self.decider.decay();
        let first = self.derivation.next_id();
        let lesson = lesson_of(
            &mut self.derivation,
            &mut self.trail,
            prefix,
            side,
            row,
            steps,
        );
        let end = end_of(&lesson, &self.derivation);
        bump_resolved(&mut self.decider, &self.derivation, first, end);
        // The counter is within its budget.
        let _budget = steps.budget();
        lesson
    }

    // Undoes to the level of a learned row, attaches the row, and assigns the literal in which it is unit then.
    fn backjump(
        &mut self,
        prefix: &Prefix,
        side: Quant,
        row: StepId,
        lit: Lit,
        level: usize,
        steps: &mut Steps,
    ) -> Result<(), Stop>
        requires searching { IsSearching prefix.now self.old }
        requires row { IsReducedStep side prefix.now self.old.derivation row }
        requires unit { MakesUnitAt side prefix.now self.old.trail.placed (row_of self.old.derivation row) lit level }
        ensures ok { OnOk result (Advances prefix.now (lesson_cost (size_of prefix.now)) self.old self.new
            steps.old steps.new) }
        ensures err { OnErr result (Halts prefix.now (lesson_cost (size_of prefix.now)) self.old self.new
            steps.old steps.new) }
        ensures spent { result ≡ Err spent → steps.new.spent ≡ steps.new.budget }
        ensures due { result ≡ Err spent → WasDue prefix.now self.old self.new }
        ensures kept { OnOk result (IsAttached self.new side row) }
        ensures reductions { reductions_in self.new.derivation ≡ reductions_in self.old.derivation }
        ensures restarts { self.new.trail.restarts ≡ self.old.trail.restarts }
    {
        bump(&mut self.decider, self.derivation.lits(row));
        self.undo(prefix, level);
        self.attach_learned(prefix, row)?;
        self.propagate(prefix, side, row, lit, steps)?;
        Ok(())
    }

    // Undoes to a level below that of the trail.
    fn undo(&mut self, prefix: &Prefix, level: usize)
        requires searching { IsSearching prefix.now self.old }
        requires below { level < last_level self.old.trail.placed }
        ensures { Undoes prefix.now level self.old self.new }
    {
        let keep = self.trail.len_to(level);
        self.decider.undoing(&self.trail, prefix, keep);
        self.trail.undo_to(level);
        self.watches.undone(keep);
    }

    // Assigns the literal that a unit row of a side asks for; the row is its reason.
    fn propagate(
        &mut self,
        prefix: &Prefix,
        side: Quant,
        row: StepId,
        lit: Lit,
        steps: &mut Steps,
    ) -> Result<(), Spent>
        requires searching { IsSearching prefix.now self.old }
        requires row { IsReducedStep side prefix.now self.old.derivation row }
        requires unit { IsUnitIn side prefix.now (value_on self.old.trail.placed) (row_of self.old.derivation row) lit }
        requires allowed { self.old.trail.allowed ≢ Nothing }
        ensures ok { OnOk result (Advances prefix.now 0 self.old self.new steps.old steps.new) }
        ensures restarts { self.new.trail.restarts ≡ self.old.trail.restarts }
        ensures long { self.new.long ≡ self.old.long }
        ensures pushes { OnOk result (Pushes self.old self.new (good_literal side lit) (propagated row)
            steps.old steps.new) }
        ensures same { OnErr result (self.new ≡ self.old) }
        ensures uncounted { OnErr result (steps.new ≡ steps.old) }
        ensures spent { OnErr result (steps.new.spent ≡ steps.new.budget) }
    {
        propagate(&mut self.trail, prefix, side, row, lit, steps)?;
        Ok(())
    }

    // Assigns a decision.
    pub(crate) fn decide(
        &mut self,
        prefix: &Prefix,
        lit: Lit,
        steps: &mut Steps,
    ) -> Result<(), Spent>
        requires searching { IsSearching prefix.now self.old }
        requires decision { IsDecision prefix.now self.old.trail.placed lit.variable }
        requires allowed { self.old.trail.allowed ≡ Anything }
        ensures ok { OnOk result (Advances prefix.now 0 self.old self.new steps.old steps.new) }
        ensures restarts { self.new.trail.restarts ≡ self.old.trail.restarts }
        ensures long { self.new.long ≡ self.old.long }
        ensures derivation { self.new.derivation ≡ self.old.derivation }
        ensures same { OnErr result (self.new ≡ self.old) }
        ensures uncounted { OnErr result (steps.new ≡ steps.old) }
        ensures spent { OnErr result (steps.new.spent ≡ steps.new.budget) }
    {
        self.trail.assign(prefix, lit, Why::Decided, steps)?;
        Ok(())
    }
}

// What a bad row of a side teaches.
fn lesson_of(
    derivation: &mut Derivation,
    trail: &mut Trail,
    prefix: &Prefix,
    side: Quant,
    row: StepId,
    steps: &mut Steps,
) -> Result<Lesson, Stop>
    requires rows { IsTrue (has_rows derivation.old) }
    requires legal { IsLegalFor prefix.now derivation.old }
    requires trail { IsTrailFor prefix.now trail.old }
    requires reasons { HaveReasons side prefix.now derivation.old trail.old }
    requires row { IsReducedStep side prefix.now derivation.old row }
    requires bad { IsBadRow side prefix.now (value_on trail.old.placed) (row_of derivation.old row) }
    ensures lesson { IfOk result (λ lesson. IsLesson side prefix.now trail.new.placed derivation.new lesson) }
    ensures counted { OnOk result (CleansReasons prefix.now derivation.old derivation.new trail.old trail.new
        steps.old steps.new (length trail.old.placed)) }
    ensures err { OnErr result (StopsCleaning prefix.now derivation.old derivation.new trail.old trail.new
        steps.old steps.new (marks_left trail.old * length trail.old.placed + length trail.old.placed)) }
    ensures due { OnErr result (NeedsResolution side prefix.now trail.old.placed (row_of derivation.old row)) }
    ensures spent { result ≡ Err spent → steps.new.spent ≡ steps.new.budget }
    ensures few { result ≡ Err spent →
        left steps.old < 2 * (marks_left trail.old * length trail.old.placed + length trail.old.placed) }
    ensures reasons { KeepsReasons prefix.now derivation.old derivation.new trail.old trail.new }
    ensures trail { IsTrailFor prefix.now trail.new }
    ensures gains { GainsSteps derivation.old derivation.new }
    ensures legal { IsLegalFor prefix.now derivation.new }
{
    match side {
        Quant::Exists => analyse::<Clauses>(derivation, trail, prefix, row, steps),
        Quant::Forall => analyse::<Cubes>(derivation, trail, prefix, row, steps),
    }
}

// The id before which the steps of an analysis came in that led to its lesson; those from there on only shortened it.
fn end_of(lesson: &Result<Lesson, Stop>, derivation: &Derivation) -> StepId {
    match lesson {
        Ok(Lesson::Learn { shortened_from, .. }) => *shortened_from,
        _ => derivation.next_id(),
    }
}

// Raises the priorities of the variables of the rows below an id that the steps from there on, before another id, were
// resolved from.
fn bump_resolved(decider: &mut Decider, derivation: &Derivation, first: StepId, end: StepId)
    requires { IsTrue (has_rows derivation.now) }
    ensures { decider.new ≡ decider.old }
{
    for id in first..end {
        bump_antecedents(decider, derivation, first, id);
    }
}

// Raises the priorities of the variables of the rows below an id that one step was resolved from, if it is live.
fn bump_antecedents(decider: &mut Decider, derivation: &Derivation, first: StepId, id: StepId)
    requires { IsTrue (has_rows derivation.now) }
    ensures { decider.new ≡ decider.old }
{
    if derivation.is_live(id) {
        if let Step::Resolved { a, b, pivot: _ } = derivation.step(id) {
            bump_below(decider, derivation, first, a);
            bump_below(decider, derivation, first, b);
        }
    }
}

// Raises the priorities of the variables of a live row below an id.
fn bump_below(decider: &mut Decider, derivation: &Derivation, first: StepId, id: StepId)
    requires { IsTrue (has_rows derivation.now) }
    ensures { decider.new ≡ decider.old }
{
    if id < first && derivation.is_live(id) {
        bump(decider, derivation.lits(id));
    }
}

// Raises the priorities of the variables of a row.
fn bump(decider: &mut Decider, row: &[Lit])
    ensures { decider.new ≡ decider.old }
{
    for lit in row {
        decider.bump(lit.var());
    }
}
