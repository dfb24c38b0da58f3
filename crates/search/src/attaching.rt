//! Rows that are attached to the watches, and detached.
ghost use Rattle.std.specs.Prelude.{◌≡◌, ◌<◌, ℕ, IsTrue, List, Contains, drop, length, slice_index, true, false, filter, ◌+◌, ◌-◌, ◌≤◌, if◌then◌else◌, OnOk};
ghost use Rattle.prefix.specs.Scopes.{Scope};
ghost use Rattle.derive.specs.State.{has_rows, is_live, next_id, side_at};
ghost use Rattle.watch.specs.Links.{is_attached};
ghost use Rattle.clean.specs.Reasons.{IsReducedStep};
ghost use Rattle.search.specs.State.{IsAttached, IsIntact, IsPaused, IsResting, IsSearching, IsTallied, rows_of, with_long};
ghost use Rattle.search.specs.Forgetting.{HasFewLong};
ghost use Rattle.search.specs.Long.{is_long};
ghost use Rattle.search.specs.Moves.{SameSteps};
ghost use Rattle.search.specs.Forcing.{HasNoCubes, NoCubeAttached};
ghost use Rattle.search.specs.Watching.{Joins, JoinsAll, Keeps, Parts};

use crate::forgetting::is_long;
use crate::search::Search;
use derive::{Derivation, StepId};
use memory::NoMemory;
use prefix::Prefix;

impl Search {
    // Attaches a row to watch to the watch of its side, unless it is attached; it isn't counted.
    pub(crate) fn attach_uncounted(&mut self, prefix: &Prefix, id: StepId)
        requires intact { IsIntact prefix.now self.old }
        requires live { IsTrue (is_live self.old.derivation id) }
        requires listed { Contains self.old.watched id }
        ensures joins { Joins prefix.now self.old self.new id }
        ensures long { self.new.long ≡ self.old.long }
    {
        let side = self.derivation.side(id);
        self.watches
            .attach(side, &mut self.derivation, &self.trail, prefix, id);
    }

    // Detaches a row to watch from the watch of its side, if it is attached; it is counted still.
    fn detach_uncounted(&mut self, id: StepId)
        requires intact { (scopes : List Scope) × IsIntact scopes self.old }
        requires live { IsTrue (is_live self.old.derivation id) }
        ensures parts { Parts self.old self.new id }
        ensures long { self.new.long ≡ self.old.long }
    {
        let side = self.derivation.side(id);
        self.watches.detach(side, &mut self.derivation, id);
    }

    // Attaches a row to watch, unless it is attached, and counts it where it is a long learned one.
    pub(crate) fn attach(&mut self, prefix: &Prefix, id: StepId)
        requires intact { IsIntact prefix.now self.old }
        requires tallied { IsTallied self.old }
        requires live { IsTrue (is_live self.old.derivation id) }
        requires listed { Contains self.old.watched id }
        ensures joins { Joins prefix.now self.old self.new id }
        ensures tallied { IsTallied self.new }
        ensures one { self.new.long ≤ self.old.long + (if is_long self.old.derivation id then 1 else 0) }
    {
        if self.has(id) {
            return;
        }
        self.attach_uncounted(prefix, id);
        self.count(id);
    }

    // Counts a row that was attached, where it is a long learned one.
    fn count(&mut self, id: StepId)
        requires live { IsTrue (is_live self.old.derivation id) }
        requires rows { IsTrue (has_rows self.old.derivation) }
        requires fits { IsTrue (is_long self.old.derivation id) → self.old.long < next_id self.old.derivation }
        ensures { self.new ≡ with_long self.old (self.old.long + (if is_long self.old.derivation id then 1 else 0)) }
    {
        // Ids are fewer than 2 ^ 64.
        let _next = self.derivation.next_id();
        if is_long(&self.derivation, id) {
            self.long += 1;
        }
    }

    // Detaches a row to watch, if it is attached, and counts it no more.
    pub(crate) fn detach(&mut self, id: StepId)
        requires intact { (scopes : List Scope) × IsIntact scopes self.old }
        requires tallied { IsTallied self.old }
        requires live { IsTrue (is_live self.old.derivation id) }
        ensures parts { Parts self.old self.new id }
        ensures tallied { IsTallied self.new }
        ensures fewer { self.new.long ≤ self.old.long }
        ensures one { self.old.long ≤ self.new.long + 1 }
    {
        if self.has(id) {
            self.detach_uncounted(id);
            self.discount(id);
        }
    }

    // Counts a row that was detached no more, where it is a long learned one.
    fn discount(&mut self, id: StepId)
        requires live { IsTrue (is_live self.old.derivation id) }
        requires rows { IsTrue (has_rows self.old.derivation) }
        ensures { self.new ≡ with_long self.old (self.old.long - (if is_long self.old.derivation id then 1 else 0)) }
    {
        if is_long(&self.derivation, id) {
            self.long = self.long.saturating_sub(1);
        }
    }

    // Attaches every live row to watch. Where all are known to be attached, this takes constant time, but for each time
    // that the list has grown by a quarter: then it forgets the rows of steps that were dropped.
    pub(crate) fn attach_all(&mut self, prefix: &Prefix)
        requires { IsResting prefix.now self.old }
        ensures paused { IsPaused prefix.now self.new }
        ensures trail { self.new.trail ≡ self.old.trail }
        ensures steps { SameSteps self.old.derivation self.new.derivation }
        ensures cubes { HasNoCubes self.old → NoCubeAttached self.new }
    {
        if !self.joined || self.watched.len() >= self.tidy_at {
            self.attach_listed(prefix);
        }
    }

    // Attaches every live row to watch by a look at each of them. Those of steps that were dropped go off the list.
    fn attach_listed(&mut self, prefix: &Prefix)
        requires intact { IsIntact prefix.now self.old }
        requires tallied { IsTallied self.old }
        ensures paused { IsPaused prefix.now self.new }
        ensures trail { self.new.trail ≡ self.old.trail }
        ensures steps { SameSteps self.old.derivation self.new.derivation }
        ensures part { (id : ℕ) → Contains self.new.watched id → Contains self.old.watched id }
    {
        unlist_dropped(&mut self.watched, &self.derivation);
        self.tidy_at = self.watched.len().saturating_add(self.watched.len() / 4);
        for k in 0..self.watched.len() {
            self.attach_at(prefix, k);
        }
    }

    // Attaches the rows to watch from a place on the list on.
    pub(crate) fn attach_from(&mut self, prefix: &Prefix, place: usize)
        requires intact { IsIntact prefix.now self.old }
        requires tallied { IsTallied self.old }
        requires live { (id : ℕ) → Contains (drop place self.old.watched) id → IsTrue (is_live self.old.derivation id) }
        ensures { JoinsAll prefix.now self.old self.new (drop place self.old.watched) }
    {
        for k in place..self.watched.len() {
            self.attach_at(prefix, k);
        }
    }

    // Attaches the row to watch with this place on the list.
    fn attach_at(&mut self, prefix: &Prefix, k: usize)
        requires intact { IsIntact prefix.now self.old }
        requires tallied { IsTallied self.old }
        requires within { k < length self.old.watched }
        requires live { IsTrue (is_live self.old.derivation (slice_index self.old.watched k)) }
        ensures joins { Joins prefix.now self.old self.new (slice_index self.old.watched k) }
        ensures tallied { IsTallied self.new }
    {
        let id = self.watched[k];
        self.attach(prefix, id);
    }

    // Attaches a row that was learned, unless it is attached: it is watched from now on.
    pub(crate) fn attach_learned(&mut self, prefix: &Prefix, row: StepId) -> Result<(), NoMemory>
        requires searching { IsSearching prefix.now self.old }
        requires reduced { IsReducedStep (side_at self.old.derivation row) prefix.now self.old.derivation row }
        ensures keeps { Keeps prefix.now self.old self.new }
        ensures kept { OnOk result (IsAttached self.new (side_at self.old.derivation row) row) }
        ensures one { self.new.long ≤ self.old.long + (if is_long self.old.derivation row then 1 else 0) }
    {
        if self.has(row) {
            return Ok(());
        }
        self.watched.push(row)?;
        self.attach(prefix, row);
        Ok(())
    }

    // Attaches an end row, for a later solve to end by, where there is memory for it: but for a long one beside more
    // long ones than may be kept. Where the watches weren't quiet since the solve began, a row with the same literals
    // may be attached already, and none is attached: what this solve found without a decision, a later one finds too.
    pub(crate) fn attach_end(&mut self, prefix: &Prefix, row: StepId, kept: u32)
        requires searching { IsSearching prefix.now self.old }
        requires reduced { IsReducedStep (side_at self.old.derivation row) prefix.now self.old.derivation row }
        ensures keeps { Keeps prefix.now self.old self.new }
        ensures long { HasFewLong kept prefix.now self.old → HasFewLong kept prefix.now self.new }
    {
        if self.was_quiet && self.may_stay(row, kept) {
            let _ = self.attach_learned(prefix, row);
        }
    }

    // Whether a live row is short, or no more long ones are attached than may be kept.
    fn may_stay(&self, row: StepId, kept: u32) -> bool
        requires live { IsTrue (is_live self.now.derivation row) }
        requires rows { IsTrue (has_rows self.now.derivation) }
        ensures { IsTrue result → IsTrue (is_long self.now.derivation row) → self.now.long ≤ kept }
    {
        self.long <= kept as usize || !is_long(&self.derivation, row)
    }

    // Whether a live row is attached to the watch of its side.
    #[inline(always)]
    pub(crate) fn has(&mut self, row: StepId) -> bool
        requires live { IsTrue (is_live self.old.derivation row) }
        requires rows { IsTrue (has_rows self.old.derivation) }
        ensures same { self.new ≡ self.old }
        ensures has { result ≡ is_attached (side_at self.old.derivation row) (rows_of self.old) row }
    {
        let side = self.derivation.side(row);
        self.watches.has(side, &mut self.derivation, row)
    }
}

// Takes out the ids of steps that were dropped.
fn unlist_dropped(watched: &mut Vec<StepId>, derivation: &Derivation)
    ensures { watched.new.items ≡ filter (λ id. is_live derivation.now id) watched.old.items }
{
    watched.retain(|id| derivation.is_live(*id));
}
