//! Long learned rows: how many are attached, and which are forgotten. Where a sweep is due, room is taken before
//! anything is detached, for all reasons and all rows to watch; then nothing can fail, and want of memory leaves the
//! search as it was.
ghost use Rattle.std.specs.Prelude.{◌≡◌, ◌+◌, ◌<◌, ◌≤◌, ◌⊎◌, ◌^◌, ℕ, if◌then◌else◌, IsTrue, List, OnOk, OnErr, Contains, Some, [], filter, length, slice_index, slice_index_or, vec_capacity};
ghost use Rattle.std.specs.List.{list_any};
ghost use Rattle.prefix.specs.declared.quant.Quant.{Quant};
ghost use Rattle.prefix.specs.Literal.{Literal};
ghost use Rattle.prefix.specs.Scopes.{Scope};
ghost use Rattle.rows.specs.Arena.{Arena};
ghost use Rattle.calculus.specs.Search.{Placed, cause_on, place_on};
ghost use Rattle.calculus.specs.Search.Cause.{Propagated as propagated};
ghost use Rattle.derive.specs.State.{arena_of, has_rows, is_live, note_at, row_of};
ghost use Rattle.search.specs.Long.{is_input, is_kept_long, is_learned, is_long, long_in};
ghost use Rattle.search.specs.Forgetting.{AreLive, Clears, Forgets, HaveAllReasons, LetsOldest, Thins, is_by_long, is_from, is_held, is_reason, long_reasons, may_go, reason_of, without_detached};
ghost use Rattle.search.specs.State.{IsAttached, IsIntact, IsResting, IsSearching, IsTallied};

use crate::search::Search;
use derive::{Derivation, Step, StepId};
use memory::NoMemory;
use prefix::{Prefix, Var};
use rows::Rows;
use trail::{Trail, Why};

// The link field of a row that names the watch which it is attached to.
const MARK: usize = 6;

impl Search {
    /// How many long learned rows are attached: rows with more than three literals that are neither an input clause nor
    /// the reduction of one.
    pub fn kept_long(&self) -> usize
        requires resting { (scopes : List Scope) × IsResting scopes self.now }
        ensures value { result ≡ long_in self.now.derivation }
        ensures long { result ≡ self.now.long }
    {
        self.long
    }

    // Reduces the database where more long learned rows than may be kept are no reasons: the oldest are detached, and
    // steps may be dropped. What else is attached stays so.
    pub(crate) fn reduce_database(&mut self, prefix: &Prefix, kept: u32) -> Result<(), NoMemory>
        requires searching { IsSearching prefix.now self.old }
        ensures ok { OnOk result (Forgets kept prefix.now self.old self.new) }
        ensures err { OnErr result (self.new ≡ self.old) }
    {
        let kept = kept as usize;
        if self.long <= kept {
            return Ok(());
        }
        let most = self.long - kept;
        let reasons = self.long_reasons(most);
        if most <= reasons {
            return Ok(());
        }
        self.reduce_to_half(prefix, kept, reasons)
    }

    // How many literals were propagated from long learned rows that are attached, counted up to so many, from the last
    // literal on.
    fn long_reasons(&mut self, most: usize) -> usize
        requires { IsTrue (has_rows self.old.derivation) }
        ensures same { self.new ≡ self.old }
        ensures few { result ≤ long_reasons self.old }
        ensures all { result < most → result ≡ long_reasons self.old }
    {
        let mut count = 0;
        let mut place = self.trail.len();
        while place > 0 && count < most {
            place -= 1;
            if self.has_long_reason(place) {
                count += 1;
            }
        }
        count
    }

    // Whether the literal at a place of the trail was propagated from a long learned row that is attached.
    fn has_long_reason(&mut self, place: usize) -> bool
        requires rows { IsTrue (has_rows self.old.derivation) }
        requires within { place < length self.old.trail.placed }
        ensures same { self.new ≡ self.old }
        ensures is { (other : Placed) → result ≡ is_by_long self.old.derivation
            (slice_index_or self.old.trail.placed place other).cause }
    {
        let Some(id) = propagated_from(&self.trail, self.trail.at(place).var()) else {
            return false;
        };
        self.derivation.is_live(id) && is_long(&self.derivation, id) && self.has(id)
    }

    // Reduces the database where more than may be kept are no reasons: half of those that may be kept are left beside
    // the reasons, of which there are so many.
    fn reduce_to_half(
        &mut self,
        prefix: &Prefix,
        kept: usize,
        reasons: usize,
    ) -> Result<(), NoMemory>
        requires searching { IsSearching prefix.now self.old }
        requires more { kept + reasons < self.old.long }
        requires reasons { reasons ≡ long_reasons self.old }
        requires fits { kept + reasons < 2 ^ 64 }
        ensures ok { OnOk result (Forgets kept prefix.now self.old self.new) }
        ensures err { OnErr result (self.new ≡ self.old) }
    {
        let most = kept / 2 + reasons;
        if self.derivation.next_id() < self.sweep_at {
            self.detach_oldest(prefix, most);
            self.unlist_detached();
            return Ok(());
        }
        let mut keep = Vec::new(*self.watched.allocator());
        push_reasons(&mut keep, &self.trail, &self.derivation)?;
        keep.reserve(self.watched.len())?;
        self.detach_oldest(prefix, most);
        self.unlist_detached();
        self.sweep(prefix, &mut keep);
        Ok(())
    }

    // Detaches the oldest rows that may be forgotten, until so many long ones are left.
    fn detach_oldest(&mut self, prefix: &Prefix, most: usize)
        requires { IsSearching prefix.now self.old }
        ensures thins { Thins prefix.now self.old self.new }
        ensures enough { most ≤ self.old.long → most ≤ self.new.long }
        ensures few { (self.new.long ≤ most) ⊎ (self.new.long ≤ long_reasons self.old) }
        ensures oldest { LetsOldest self.old self.new }
    {
        let mut k = 0;
        while self.long > most && k < self.watched.len() {
            self.detach_free(prefix, k);
            k += 1;
        }
    }

    // Detaches the row to watch with this place on the list, if it may be forgotten.
    fn detach_free(&mut self, prefix: &Prefix, k: usize)
        requires intact { IsIntact prefix.now self.old }
        requires tallied { IsTallied self.old }
        requires within { k < length self.old.watched }
        ensures thins { Thins prefix.now self.old self.new }
        ensures seen { IsTrue (is_kept_long self.new.derivation (slice_index self.old.watched k)) →
            IsTrue (is_reason self.new (slice_index self.old.watched k)) }
        ensures only { (side : Quant) (id : ℕ) → IsAttached self.old side id → (IsAttached self.new side id → ⊥) →
            id ≡ slice_index self.old.watched k }
        ensures fewer { self.new.long ≤ self.old.long }
        ensures one { self.old.long ≤ self.new.long + 1 }
    {
        let id = self.watched[k];
        if self.derivation.is_live(id) && self.may_go(id) {
            self.detach(id);
        }
    }

    // Whether a live row may be forgotten.
    fn may_go(&self, id: StepId) -> bool
        requires live { IsTrue (is_live self.now.derivation id) }
        requires rows { IsTrue (has_rows self.now.derivation) }
        ensures { result ≡ may_go self.now id }
    {
        is_long(&self.derivation, id) && !is_reason(&self.derivation, &self.trail, id)
    }

    // Leaves the rows that aren't attached out of the list of those to watch.
    fn unlist_detached(&mut self)
        requires { IsTrue (has_rows self.old.derivation) }
        ensures { self.new ≡ without_detached self.old }
    {
        retain_attached(&mut self.watched, &mut self.derivation);
    }

    // Drops the steps that are no input clauses and that neither a row to watch nor one of these steps rests on. This
    // is due again once as many ids were given as steps are live then, and a few more the more ids there are.
    fn sweep(&mut self, prefix: &Prefix, keep: &mut Vec<StepId>)
        requires searching { IsSearching prefix.now self.old }
        requires watched { AreLive self.old.derivation self.old.watched }
        requires live { AreLive self.old.derivation keep.old.items }
        requires reasons { HaveAllReasons self.old.derivation self.old.trail.placed keep.old.items }
        requires room { length keep.old.items + length self.old.watched ≤ vec_capacity keep.old }
        ensures { Clears prefix.now self.old self.new }
    {
        let next = self.derivation.next_id();
        let _ = keep.extend_from_slice(&self.watched);
        self.derivation.sweep(keep);
        let live = self.derivation.live_steps();
        self.sweep_at = next.saturating_add(live).saturating_add(next / 64);
    }
}

// Adds the live steps that variables were propagated from.
fn push_reasons(
    keep: &mut Vec<StepId>,
    trail: &Trail,
    derivation: &Derivation,
) -> Result<(), NoMemory>
    requires { keep.old.items ≡ [] }
    ensures live { AreLive derivation.now keep.new.items }
    ensures all { OnOk result (HaveAllReasons derivation.now trail.now.placed keep.new.items) }
{
    for place in 0..trail.len() {
        push_reason(keep, trail, derivation, place)?;
    }
    Ok(())
}

// Adds the step that the literal at a place of the trail was propagated from, if it is live.
fn push_reason(
    keep: &mut Vec<StepId>,
    trail: &Trail,
    derivation: &Derivation,
    place: usize,
) -> Result<(), NoMemory>
    requires { place < length trail.now.placed }
    ensures live { AreLive derivation.now keep.old.items → AreLive derivation.now keep.new.items }
    ensures stays { (id : ℕ) → Contains keep.old.items id → Contains keep.new.items id }
    ensures there { OnOk result ((x id : ℕ) → place_on trail.now.placed x ≡ place →
        cause_on trail.now.placed x ≡ Some (propagated id) → IsTrue (is_live derivation.now id) →
        Contains keep.new.items id) }
{
    match propagated_from(trail, trail.at(place).var()) {
        Some(id) => push_live(keep, derivation, id),
        None => Ok(()),
    }
}

// Adds a step, if it is live.
fn push_live(keep: &mut Vec<StepId>, derivation: &Derivation, id: StepId) -> Result<(), NoMemory>
    ensures live { AreLive derivation.now keep.old.items → AreLive derivation.now keep.new.items }
    ensures stays { (i : ℕ) → Contains keep.old.items i → Contains keep.new.items i }
    ensures there { OnOk result (IsTrue (is_live derivation.now id) → Contains keep.new.items id) }
{
    if derivation.is_live(id) {
        keep.push(id)?;
    }
    Ok(())
}

// The step that a variable was propagated from, if it was.
fn propagated_from(trail: &Trail, v: Var) -> Option<StepId>
    ensures { result ≡ reason_of (cause_on trail.now.placed v) }
{
    match trail.why(v) {
        Some(Why::Propagated(id)) => Some(id),
        _ => None,
    }
}

// Whether a live row is a long learned one.
#[inline(always)]
pub(crate) fn is_long(derivation: &Derivation, id: StepId) -> bool
    requires live { IsTrue (is_live derivation.now id) }
    requires rows { IsTrue (has_rows derivation.now) }
    ensures { result ≡ is_long derivation.now id }
{
    is_learned(derivation, id) && derivation.lits(id).len() > 3
}

// Whether a live step is neither an input clause nor the reduction of one.
fn is_learned(derivation: &Derivation, id: StepId) -> bool
    requires { IsTrue (is_live derivation.now id) }
    ensures { result ≡ is_learned derivation.now.notes (note_at derivation.now id) }
{
    match derivation.step(id) {
        Step::InputClause => false,
        Step::Reduced(a) => !is_input(derivation, a),
        _ => true,
    }
}

// Whether a live step is an input clause.
fn is_input(derivation: &Derivation, id: StepId) -> bool
    requires { IsTrue (is_live derivation.now id) }
    ensures { result ≡ is_input (note_at derivation.now id) }
{
    matches!(derivation.step(id), Step::InputClause)
}

// Whether a variable in a live row was propagated from it.
fn is_reason(derivation: &Derivation, trail: &Trail, id: StepId) -> bool
    requires live { IsTrue (is_live derivation.now id) }
    requires rows { IsTrue (has_rows derivation.now) }
    ensures { result ≡ list_any (λ (l : Literal). is_from id (cause_on trail.now.placed l.variable))
        (row_of derivation.now id) }
{
    derivation
        .lits(id)
        .iter()
        .any(|l| is_propagated_from(trail, l.var(), id))
}

// Whether a variable was propagated from a step.
fn is_propagated_from(trail: &Trail, v: Var, id: StepId) -> bool
    ensures { result ≡ is_from id (cause_on trail.now.placed v) }
{
    match trail.why(v) {
        Some(Why::Propagated(by)) => by == id,
        _ => false,
    }
}

// Takes out the ids of rows that aren't attached to a watch.
fn retain_attached(watched: &mut Vec<StepId>, derivation: &mut Derivation)
    requires { IsTrue (has_rows derivation.old) }
    ensures watched { watched.new.items ≡ filter (is_held (arena_of derivation.old)) watched.old.items }
    ensures same { derivation.new ≡ derivation.old }
{
    let rows = derivation.take_rows();
    retain_held(watched, &rows);
    derivation.put_rows(rows);
}

// Takes out the ids of rows that aren't attached, with the rows at hand.
fn retain_held(watched: &mut Vec<StepId>, rows: &Rows)
    ensures { watched.new.items ≡ filter (is_held rows.now) watched.old.items }
{
    watched.retain(|id| is_held(rows, *id));
}

// Whether there is a row under an id that is attached to a watch.
fn is_held(rows: &Rows, id: StepId) -> bool
    ensures { result ≡ is_held rows.now id }
{
    rows.is_live(id) && rows.link(id, MARK).is_some()
}
