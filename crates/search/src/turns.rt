//! The turns of a search.
ghost use Rattle.std.specs.Prelude.{◌≡◌, ◌-◌, ◌+◌, ◌*◌, ◌<◌, ◌≤◌, ℕ, IfOk, OnOk, Ok, Err, None, List};
ghost use Rattle.prefix.specs.Literal.{Literal};
ghost use Rattle.prefix.specs.declared.quant.Quant.{Quant as Q};
ghost use Rattle.prefix.specs.declared.quant.Quant.TheVariants.{Exists as exists, Forall as forall};
ghost use Rattle.steps.specs.declared.stop.Stop.TheVariants.{Spent as spent};
ghost use Rattle.calculus.specs.Limits.{propagation_limit};
ghost use Rattle.calculus.specs.Search.{IsBadRow, value_on};
ghost use Rattle.trail.specs.Open.{AreAssigned};
ghost use Rattle.trail.specs.declared.allowed.Allowed.TheVariants.{Anything};
ghost use Rattle.derive.specs.State.{clauses_of, row_of};
ghost use Rattle.watch.specs.Events.{AreQuiet};
ghost use Rattle.clean.specs.Reasons.{IsReducedStep};
ghost use Rattle.search.specs.State.{IsSearching, rows_of};
ghost use Rattle.search.specs.Counting.{size_of};
ghost use Rattle.search.specs.Forcing.{IsRefuting};
ghost use Rattle.search.specs.Parts.{GoesOn, StopsWhenDue};
ghost use Rattle.search.specs.Moves.{Continues, IsMatrix};

use crate::outcome::EndRow;
use crate::search::Search;
use cover::cover;
use derive::StepId;
use matrix::Matrix;
use prefix::{Prefix, Quant};
use steps::{Steps, Stop};

impl Search {
    // One turn: unit rows propagate; then a bad row teaches, a variable is decided, or a solution teaches.
    pub(crate) fn turn(
        &mut self,
        prefix: &Prefix,
        matrix: &Matrix<'_>,
        restarts: u32,
        kept: u32,
        steps: &mut Steps,
    ) -> Result<Option<EndRow>, Stop>
        requires searching { IsSearching prefix.now self.old }
        requires allowed { self.old.trail.allowed ≡ Anything }
        requires matrix { IsMatrix self.old.derivation matrix.now }
        ensures goes { GoesOn prefix.now 0 restarts kept self.old self.new steps.old steps.new result }
        ensures stops { StopsWhenDue prefix.now 0 self.old self.new steps.old steps.new result }
        ensures forced { (start : ℕ) → IsRefuting prefix.now matrix.now start self.old steps.old → result ≡ Ok None →
            IsRefuting prefix.now matrix.now start self.new steps.new }
        ensures refuted { (start : ℕ) → IsRefuting prefix.now matrix.now start self.old steps.old →
            result ≡ Err spent → steps.new.budget - start < propagation_limit (size_of prefix.now) }
    {
        match self.propagate_all(prefix, steps)? {
            Some(bad) => self.learn(prefix, bad.side, bad.row, restarts, kept, steps),
            None => self.quiet(prefix, matrix, restarts, kept, steps),
        }
    }

    // A turn where the watches are quiet: a variable is decided, or a solution teaches.
    fn quiet(
        &mut self,
        prefix: &Prefix,
        matrix: &Matrix<'_>,
        restarts: u32,
        kept: u32,
        steps: &mut Steps,
    ) -> Result<Option<EndRow>, Stop>
        requires searching { IsSearching prefix.now self.old }
        requires quiet { AreQuiet exists prefix.now (value_on self.old.trail.placed) (rows_of self.old) }
        requires allowed { self.old.trail.allowed ≡ Anything }
        requires matrix { IsMatrix self.old.derivation matrix.now }
        ensures goes { GoesOn prefix.now 0 restarts kept self.old self.new steps.old steps.new result }
        ensures stops { StopsWhenDue prefix.now 0 self.old self.new steps.old steps.new result }
    {
        self.was_quiet = true;
        let Some(lit) = self.decider.next_decision(&self.trail, prefix) else {
            let cube = self.solution(prefix, matrix, steps)?;
            return self.learn(prefix, Quant::Forall, cube, restarts, kept, steps);
        };
        self.decide(prefix, lit, steps)?;
        Ok(None)
    }

    // The reduction of an initial cube that a solution gives, which counts a step where something goes.
    fn solution(
        &mut self,
        prefix: &Prefix,
        matrix: &Matrix<'_>,
        steps: &mut Steps,
    ) -> Result<StepId, Stop>
        requires searching { IsSearching prefix.now self.old }
        requires quiet { AreQuiet exists prefix.now (value_on self.old.trail.placed) (rows_of self.old) }
        requires assigned { AreAssigned prefix.now self.old.trail.placed }
        requires matrix { IsMatrix self.old.derivation matrix.now }
        ensures ok { OnOk result (Continues prefix.now 0 1 self.old self.new steps.old steps.new) }
        ensures stops { StopsWhenDue prefix.now 0 self.old self.new steps.old steps.new result }
        ensures trail { self.new.trail ≡ self.old.trail }
        ensures long { self.new.long ≡ self.old.long }
        ensures row { IfOk result (λ id. IsReducedStep forall prefix.now self.new.derivation id) }
        ensures bad { IfOk result (λ id. IsBadRow forall prefix.now (value_on self.new.trail.placed)
            (row_of self.new.derivation id)) }
    {
        let cube = cover(&mut self.derivation, &self.trail, prefix, matrix)?;
        let reduced = self.derivation.reduce_counted(prefix, cube, steps);
        // The counter is within its budget.
        let _budget = steps.budget();
        reduced
    }
}
