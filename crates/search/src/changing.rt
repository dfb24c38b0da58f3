//! Changes of the formula, between solves.
ghost use Rattle.std.specs.Prelude.{◌≡◌, ◌≤◌, ◌+◌, ◌==◌, ◌||◌, ℕ, IsTrue, List, drop, length, not, filter, IfOk, OnOk, OnErr};
ghost use Rattle.std.specs.List.{All, AllByRecursion};
ghost use Rattle.prefix.specs.Scopes.{Scope};
ghost use Rattle.calculus.specs.Derivations.{Extends};
ghost use Rattle.calculus.specs.Rows.{IsRow};
ghost use Rattle.derive.specs.Cubes.{misses, misses_one};
ghost use Rattle.derive.specs.Dropping.{NoneOutsideBelow, has_tag, is_outside, mentions, names, unless_finish};
ghost use Rattle.derive.specs.State.{OpenClause, SameStep, clauses_of, is_live, note_at};
ghost use Rattle.clean.specs.Turns.{reductions_in};
ghost use Rattle.search.specs.State.{IsIntact, IsResting, IsTallied, rows_of};
ghost use Rattle.search.specs.Finishes.{GainsNoFinish, HasNoFinish};
ghost use Rattle.search.specs.Forcing.{HasNoCubes};
ghost use Rattle.search.specs.Leaving.{Loses, leaves};
ghost use Rattle.search.specs.Moves.{KeepsOlder, SameSteps};
ghost use Rattle.search.specs.Watching.{NoneFalls, TakesAll, TakesIn};
ghost use Rattle.search.specs.Changing.{AddsClause, AddsClauses, IsRoomy, RestingGrows, StaysResting, WatchesMany, WatchesMore, room_of};

use crate::leaving::Leaving;
use crate::search::Search;
use decide::Decider;
use derive::{Derivation, StepId};
use memory::NoMemory;
use prefix::{Lit, LitList, Prefix, Var};

impl Search {
    /// The derivation: what was put in, what was learned, and the finish of the last outcome.
    pub fn derivation(&self) -> &Derivation
        ensures { result.now ≡ self.now.derivation }
    {
        &self.derivation
    }

    /// Makes room for the variables up to this one: on the trail, for their signs, and in both watches. It only grows.
    /// With no memory there may be more room in some of them, and all else is as it was.
    pub fn reserve(&mut self, v: Var) -> Result<(), NoMemory>
        ensures ok { OnOk result (IsRoomy v self.new) }
        ensures resting { StaysResting self.old self.new }
        ensures derivation { self.new.derivation ≡ self.old.derivation }
        ensures watched { self.new.watched ≡ self.old.watched }
        ensures finishes { GainsNoFinish self.old.derivation self.new.derivation }
        ensures older { KeepsOlder self.old.derivation self.new.derivation }
    {
        let vars = v.number() as usize;
        self.watches.clauses.reserve(vars)?;
        self.watches.cubes.reserve(vars)?;
        self.decider.reserve(vars)?;
        self.trail.reserve(vars)?;
        Ok(())
    }

    /// The number up to which variables have room: on the trail, for their signs, and in both watches.
    pub fn room(&self) -> usize
        ensures { result ≡ room_of self.now }
    {
        let kept = self.trail.room().min(self.decider.room());
        kept.min(self.watches.room())
    }

    /// Puts in a clause of a frame, with its reduction where something goes; the initial cubes that hold no literal of
    /// it go, with all that rests on them, and the other cubes stay. With no memory the steps are as they were. What
    /// was to be watched is so still, and its reduction comes behind. Where a cube goes, all cubes from the first such
    /// id on are detached, and the next solve attaches those that are left.
    pub fn add_clause(
        &mut self,
        prefix: &Prefix,
        lits: &[Lit],
        frame: usize,
    ) -> Result<(), NoMemory>
        requires resting { IsResting prefix.now self.old }
        requires row { IsRow prefix.now lits.now }
        ensures ok { OnOk result (AddsClause frame lits.now (clauses_of self.old.derivation)
            (clauses_of self.new.derivation)) }
        ensures err { OnErr result (SameSteps self.old.derivation self.new.derivation) }
        ensures more { OnOk result (WatchesMore self.old.watched self.new.watched) }
        ensures watched { OnErr result (self.new.watched ≡ self.old.watched) }
        ensures fewer { OnErr result (self.new.long ≤ self.old.long) }
        ensures resting { IsResting prefix.now self.new }
        ensures cubes { HasNoCubes self.old → HasNoCubes self.new }
        ensures finishes { GainsNoFinish self.old.derivation self.new.derivation }
        ensures reductions { reductions_in self.new.derivation ≤ reductions_in self.old.derivation + 1 }
        ensures older { KeepsOlder self.old.derivation self.new.derivation }
    {
        let from = self.derivation.missing_from(lits);
        self.detach_from(from, &Leaving::Cubes);
        let id = self.input(prefix, lits, frame)?;
        self.attach(prefix, id);
        Ok(())
    }

    // Puts in a clause of a frame with which no attached row falls, and answers the id of its reduction.
    fn input(&mut self, prefix: &Prefix, lits: &[Lit], frame: usize) -> Result<StepId, NoMemory>
        requires intact { IsIntact prefix.now self.old }
        requires tallied { IsTallied self.old }
        requires row { IsRow prefix.now lits.now }
        requires none { NoneFalls (misses lits.now (rows_of self.old)) self.old }
        ensures ok { OnOk result (AddsClause frame lits.now (clauses_of self.old.derivation)
            (clauses_of self.new.derivation)) }
        ensures err { OnErr result (self.new ≡ self.old) }
        ensures takes { IfOk result (TakesIn prefix.now self.old self.new) }
        ensures cubes { OnOk result (HasNoCubes self.old → HasNoCubes self.new) }
        ensures finishes { GainsNoFinish self.old.derivation self.new.derivation }
        ensures reductions { reductions_in self.new.derivation ≤ reductions_in self.old.derivation + 1 }
        ensures older { KeepsOlder self.old.derivation self.new.derivation }
    {
        self.watched.reserve(1)?;
        let (_, id) = self.derivation.input_clause(prefix, lits, frame)?;
        self.decider.count(lits);
        let _ = self.watched.push(id);
        Ok(id)
    }

    /// Puts in clauses of a frame, each with its reduction where something goes, or none of them; the initial cubes
    /// that hold no literal of one of them go, with all that rests on them, and the other cubes stay. With no memory
    /// the steps are as they were. What was to be watched is so still, and the reductions come behind. Where a cube
    /// goes, all cubes from the first such id on are detached, and the next solve attaches those that are left.
    pub fn add_clauses(
        &mut self,
        prefix: &Prefix,
        clauses: &[LitList],
        frame: usize,
    ) -> Result<(), NoMemory>
        requires resting { IsResting prefix.now self.old }
        requires rows { AllByRecursion (IsRow prefix.now) clauses.now }
        ensures ok { OnOk result (AddsClauses frame clauses.now (clauses_of self.old.derivation)
            (clauses_of self.new.derivation)) }
        ensures err { OnErr result (SameSteps self.old.derivation self.new.derivation) }
        ensures more { OnOk result (WatchesMany (length clauses.now) self.old.watched self.new.watched) }
        ensures watched { OnErr result (self.new.watched ≡ self.old.watched) }
        ensures fewer { OnErr result (self.new.long ≤ self.old.long) }
        ensures resting { IsResting prefix.now self.new }
        ensures cubes { HasNoCubes self.old → HasNoCubes self.new }
        ensures finishes { GainsNoFinish self.old.derivation self.new.derivation }
        ensures reductions { reductions_in self.new.derivation ≤ reductions_in self.old.derivation
            + length clauses.now }
        ensures older { KeepsOlder self.old.derivation self.new.derivation }
    {
        let from = self.derivation.missing_one_from(clauses);
        self.detach_from(from, &Leaving::Cubes);
        let place = self.input_all(prefix, clauses, frame)?;
        self.attach_from(prefix, place);
        Ok(())
    }

    // Puts in clauses of a frame with which no attached row falls, and answers the place on the list of rows to watch
    // from which on their reductions stand.
    fn input_all(
        &mut self,
        prefix: &Prefix,
        clauses: &[LitList],
        frame: usize,
    ) -> Result<usize, NoMemory>
        requires intact { IsIntact prefix.now self.old }
        requires tallied { IsTallied self.old }
        requires rows { All (IsRow prefix.now) clauses.now }
        requires none { NoneFalls (misses_one clauses.now (rows_of self.old)) self.old }
        ensures ok { OnOk result (AddsClauses frame clauses.now (clauses_of self.old.derivation)
            (clauses_of self.new.derivation)) }
        ensures more { OnOk result (WatchesMany (length clauses.now) self.old.watched self.new.watched) }
        ensures err { OnErr result (self.new ≡ self.old) }
        ensures takes { IfOk result (λ place. TakesAll prefix.now self.old self.new (drop place self.new.watched)) }
        ensures cubes { OnOk result (HasNoCubes self.old → HasNoCubes self.new) }
        ensures finishes { GainsNoFinish self.old.derivation self.new.derivation }
        ensures reductions { reductions_in self.new.derivation ≤ reductions_in self.old.derivation
            + length clauses.now }
        ensures older { KeepsOlder self.old.derivation self.new.derivation }
    {
        let place = self.watched.len();
        self.derivation
            .input_clauses(prefix, clauses, frame, &mut self.watched)?;
        count_all(&mut self.decider, clauses);
        Ok(place)
    }

    /// Drops the clauses of a frame, with all that rests on them. This takes no memory.
    pub fn drop_frame(&mut self, frame: usize)
        requires { (scopes : List Scope) × IsResting scopes self.old }
        ensures loses { Loses (has_tag frame) self.old.derivation self.new.derivation }
        ensures clauses { clauses_of self.new.derivation ≡ filter (λ (c : OpenClause). not (c.frame == frame))
            (clauses_of self.old.derivation) }
        ensures watched { self.new.watched ≡ self.old.watched }
        ensures resting { StaysResting self.old self.new }
        ensures cubes { HasNoCubes self.old → HasNoCubes self.new }
        ensures finishes { GainsNoFinish self.old.derivation self.new.derivation }
        ensures reductions { reductions_in self.new.derivation ≤ reductions_in self.old.derivation }
        ensures older { KeepsOlder self.old.derivation self.new.derivation }
    {
        let from = self.derivation.frame_from(frame);
        self.detach_from(from, &Leaving::Frame(frame));
        self.derivation.drop_frame(frame);
    }

    /// Drops what leaves with a frame: its clauses, the steps that name a variable outside a prefix, and all that rests
    /// on either. Every other step stays, with its row. The prefix is the one of before without the frame's variables,
    /// and the search rests under it then.
    ///
    /// No step with an id below `from` names a variable outside the prefix, as where that was the next id when the
    /// first of these variables came. This goes over the literals of the steps from that id on, and takes no memory.
    pub fn pop_frame(&mut self, prefix: &Prefix, frame: usize, from: StepId)
        requires resting { (old : List Scope) × Extends prefix.now old × IsResting old self.old }
        requires below { NoneOutsideBelow prefix.now from self.old.derivation }
        ensures loses { Loses (leaves frame prefix.now (rows_of self.old)) self.old.derivation self.new.derivation }
        ensures clauses { clauses_of self.new.derivation ≡ filter (λ (c : OpenClause).
            not (c.frame == frame || mentions (is_outside prefix.now) c.row)) (clauses_of self.old.derivation) }
        ensures watched { self.new.watched ≡ self.old.watched }
        ensures resting { IsResting prefix.now self.new }
        ensures cubes { HasNoCubes self.old → HasNoCubes self.new }
        ensures finishes { GainsNoFinish self.old.derivation self.new.derivation }
        ensures reductions { reductions_in self.new.derivation ≤ reductions_in self.old.derivation }
        ensures older { KeepsOlder self.old.derivation self.new.derivation }
    {
        self.drop_frame(frame);
        self.drop_outside(prefix, from);
    }

    // Drops the steps that name a variable outside a prefix, with all that rests on them.
    fn drop_outside(&mut self, prefix: &Prefix, from: StepId)
        requires resting { (old : List Scope) × Extends prefix.now old × IsResting old self.old }
        requires below { NoneOutsideBelow prefix.now from self.old.derivation }
        ensures loses { Loses (names (is_outside prefix.now) (rows_of self.old)) self.old.derivation
            self.new.derivation }
        ensures clauses { clauses_of self.new.derivation ≡ filter (λ (c : OpenClause).
            not (mentions (is_outside prefix.now) c.row)) (clauses_of self.old.derivation) }
        ensures watched { self.new.watched ≡ self.old.watched }
        ensures resting { IsResting prefix.now self.new }
        ensures cubes { HasNoCubes self.old → HasNoCubes self.new }
        ensures finishes { GainsNoFinish self.old.derivation self.new.derivation }
        ensures reductions { reductions_in self.new.derivation ≤ reductions_in self.old.derivation }
    {
        self.detach_outside(prefix, from);
        self.derivation.drop_outside(from, prefix);
    }

    /// Drops the finish of the last outcome, and no other step. This takes no memory.
    pub fn drop_finish(&mut self, prefix: &Prefix)
        requires { IsResting prefix.now self.old }
        ensures exactly { (id : ℕ) → note_at self.new.derivation id ≡ unless_finish (note_at self.old.derivation id) }
        ensures others { (id : ℕ) → IsTrue (is_live self.new.derivation id) →
            SameStep self.old.derivation self.new.derivation id }
        ensures finishes { HasNoFinish self.new.derivation }
        ensures reductions { reductions_in self.new.derivation ≡ reductions_in self.old.derivation }
        ensures long { self.new.long ≡ self.old.long }
        ensures watched { self.new.watched ≡ self.old.watched }
        ensures resting { IsResting prefix.now self.new }
        ensures clauses { clauses_of self.new.derivation ≡ clauses_of self.old.derivation }
        ensures cubes { HasNoCubes self.old → HasNoCubes self.new }
        ensures older { KeepsOlder self.old.derivation self.new.derivation }
    {
        self.derivation.drop_finish();
    }
}

// Counts the literals of clauses, for the signs that variables have at first.
fn count_all(decider: &mut Decider, clauses: &[LitList])
    ensures { decider.new ≡ decider.old }
{
    for clause in clauses {
        decider.count(clause.lits());
    }
}

/// A search at rest is so under a larger prefix, where there is room for its variables.
pub fn resting_grows()
    ensures { RestingGrows }
{}
