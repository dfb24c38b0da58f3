//! The trail.
ghost use Rattle.std.specs.Prelude.{◌≡◌, ◌≢◌, ◌↔◌, ℕ, [], ◌∷◌, ◌++◌, ◌+◌, ◌^◌, ◌<◌, ◌≤◌, ◌==◌, length, take, slice_get, count_by, false, All, IfSome, IsNone, IsTrue, IsErr, OnOk, OnErr, List, Contains, Some, None};
ghost use Rattle.std.specs.Option.{option_map};
ghost use Rattle.prefix.specs.Literal.{Literal};
ghost use Rattle.prefix.specs.Scopes.{Scope, all_variables, depth_of, variables_at, AreDistinct, IsPrefix};
ghost use Rattle.steps.specs.Counter.{after, left};
ghost use Rattle.calculus.specs.Search.{MayStand, value_on, place_on, cause_on, cut_trail, decision_level_on, is_decision, last_level, literals_on};
ghost use Rattle.calculus.specs.Search.Cause.{Assumed as assumed_cause};
ghost use Rattle.calculus.specs.Rows.{variables_in};
ghost use Rattle.calculus.specs.Verdicts.{AreOuter};
ghost use Rattle.trail.specs.declared.allowed.Allowed.TheVariants.{Anything, NoDecision, Nothing};
ghost use Rattle.trail.specs.Causes.{cause_of};
ghost use Rattle.trail.specs.Finished.{emptied};
ghost use Rattle.trail.specs.Open.{is_assigned, is_finished, AreAssigned, AreAssignedBefore, IsFirstOpen};
ghost use Rattle.trail.specs.Table.{spot_on};
ghost use Rattle.trail.specs.State.{new_trail, without_last, with_room, with_placed, with_finished, with_literal, with_assumed, given_up, undone_to, restarted, cleared, counted, account_of, HasRoom, IsFew, is_marked, with_clean, IsPropagated, MayFollow, IsTrailFor, Outweighs, OutweighsWithOne};

use super::allowed::Allowed;
use super::entry::{Entry, Spot, last_floor};
use super::finished::Finished;
use super::spots::Spots;
use super::tally::{count_down, count_up, widen};
use super::{Stopped, Why};
use memory::NoMemory;
use prefix::{Lit, Prefix, Var};
use std::alloc::Global;
use std::collections::BTreeSet;
use std::marker::Model;
use steps::{Spent, Steps};

/// An assignment trail: the assigned literals, oldest first, each with its cause. Contracts see it as that list, with
/// the number of assignments, the room, and what may be assigned next.
///
/// Level 0 has the assumed literals and what is propagated before the first decision; each decision opens a level.
/// Every look-up takes constant time, and to undo costs what is undone. The trail keeps its order for the prefix that
/// its calls were given since the last `clear` or `stop`.
#[derive(Debug, Drop)]
pub struct Trail {
    entries: Vec<Entry>,
    // Where each variable stands, at its number less 1.
    spots: Spots,
    // How many entries are of each scope, at its number less 1; scopes of greater numbers than its length aren't
    // counted.
    tallies: Vec<u32>,
    // The scopes that are known to be all assigned, of those that are counted.
    finished: Finished,
    assigned: u64,
    restarts: u64,
    allowed: Allowed,
}

impl Model for Trail {
    ghost use Rattle.std.specs.Prelude.{length, vec_capacity};
    ghost use Rattle.trail.specs.State.{TrailState};

    ghost Value = { TrailState };

    ghost use Rattle.trail.specs.Table.{trail_of, depths_of, marks_of, IsTable, IsTallied, HavePlaces};

    ghost view = { λ t. record {
      placed = trail_of t.entries.items;
      depths = depths_of t.entries.items;
      marks = marks_of t.entries.items;
      finished = t.finished;
      assigned = t.assigned;
      restarts = t.restarts;
      room = length t.spots;
      allowed = t.allowed;
    } };

    ghost invariant = { λ t.
        IsTable t.entries.items t.spots (vec_capacity t.entries)
        × IsTallied t.entries.items t.tallies.items
        × HavePlaces (length t.spots) t.tallies.items t.finished };
}

impl Trail {
    /// An empty trail without room for variables. This takes no memory.
    pub fn new(alloc: Global) -> Self
        ensures value { result ≡ new_trail }
        ensures kept { (scopes : List Scope) → IsTrailFor scopes result }
    {
        Self {
            entries: Vec::new(alloc),
            spots: Spots::new(alloc),
            tallies: Vec::new(alloc),
            finished: Finished::new(alloc),
            assigned: 0,
            restarts: 0,
            allowed: Allowed::Anything,
        }
    }

    /// Makes room for the variables of numbers up to `vars`, and counts the scopes of numbers up to that. Where the
    /// room grows this looks at each literal of the trail once. With no memory the trail stays as it was.
    pub fn reserve(&mut self, vars: usize) -> Result<(), NoMemory>
        ensures ok { OnOk result (self.new ≡ with_room self.old vars) }
        ensures err { OnErr result (self.new ≡ self.old) }
        ensures kept { (scopes : List Scope) → IsTrailFor scopes self.old → IsTrailFor scopes self.new }
    {
        let room = self.spots.len();
        if room < vars {
            self.entries.reserve(vars - self.entries.len())?;
            widen(&mut self.tallies, &self.entries, vars)?;
            self.spots.widen(vars)?;
            if let Err(e) = self.finished.widen(vars) {
                self.spots.truncate(room);
                return Err(e.into());
            }
        }
        Ok(())
    }

    /// The value of a variable; none exactly where it is unassigned.
    pub fn value(&self, v: Var) -> Option<bool>
        ensures { result ≡ value_on self.now.placed v }
    {
        self.spots.value(v.index())
    }

    /// The place of a variable on the trail, from 0; none exactly where it is unassigned.
    pub fn place(&self, v: Var) -> Option<usize>
        ensures value { result ≡ option_map (λ b. place_on self.now.placed v) (value_on self.now.placed v) }
        ensures within { IfSome result (λ n. n < length self.now.placed) }
    {
        self.spots.place(v.index())
    }

    /// The decision level of a variable; none exactly where it is unassigned.
    pub fn level_of(&self, v: Var) -> Option<usize>
        ensures { result ≡ option_map (λ b. decision_level_on self.now.placed v) (value_on self.now.placed v) }
    {
        Some(self.entries[self.place(v)?].level)
    }

    /// Why a variable is assigned; none exactly where it is unassigned.
    pub fn why(&self, v: Var) -> Option<Why>
        ensures { option_map cause_of result ≡ cause_on self.now.placed v }
    {
        Some(self.entries[self.place(v)?].why)
    }

    /// Whether the reason of a variable is marked as clean; only that of a propagated one can be.
    pub fn is_clean(&self, v: Var) -> bool
        ensures { result ≡ is_marked self.now v }
    {
        match self.place(v) {
            Some(place) => self.entries[place].clean,
            None => false,
        }
    }

    /// Puts the step with this id in the place of the reason of a propagated variable, and marks it as clean; nothing
    /// else changes. The mark goes with the literal, when it is undone. What a clean reason is, the caller says. This
    /// takes no memory.
    pub fn set_clean(&mut self, v: Var, reason: usize)
        requires propagated { IsPropagated self.old.placed v }
        ensures value { self.new ≡ with_clean self.old v reason }
        ensures kept { (scopes : List Scope) → IsTrailFor scopes self.old → IsTrailFor scopes self.new }
    {
        if let Some(place) = self.place(v) {
            let entry = &mut self.entries[place];
            entry.why = Why::Propagated(reason);
            entry.clean = true;
        }
    }

    /// The allocator of the trail's tables.
    pub fn alloc(&self) -> Global {
        *self.entries.allocator()
    }

    /// The literal at a place, from 0.
    pub fn at(&self, place: usize) -> Lit
        requires { place < length self.now.placed }
        ensures literal { slice_get (literals_on self.now.placed) place ≡ Some result }
        ensures place { place_on self.now.placed result.variable ≡ place }
        ensures value { value_on self.now.placed result.variable ≡ Some result.positive }
    {
        self.entries[place].lit
    }

    /// How many literals are assigned.
    pub fn len(&self) -> usize
        ensures { result ≡ length self.now.placed }
    {
        self.entries.len()
    }

    /// The greatest number of a variable that there is room for. Each assigned variable's number is at most that, and
    /// so is the number of assigned literals.
    pub fn room(&self) -> usize
        ensures value { result ≡ self.now.room }
        ensures reserved { HasRoom self.now }
    {
        self.spots.len()
    }

    /// Whether nothing is assigned.
    pub fn is_empty(&self) -> bool
        ensures { IsTrue result ↔ (self.now.placed ≡ []) }
    {
        self.entries.is_empty()
    }

    /// How many decisions stand on the trail.
    pub fn level(&self) -> usize
        ensures { result ≡ last_level self.now.placed }
    {
        match self.entries.last() {
            None => 0,
            Some(entry) => entry.level,
        }
    }

    /// How many literals were assigned since the last `clear` or `stop`, undone ones too; at 2^64 - 1 the count
    /// stays. Each assignment raised the weight of the trail above all earlier ones since the last `restart`, so they
    /// are few.
    pub fn assigned(&self) -> u64
        ensures value { result ≡ self.now.assigned }
        ensures few { (scopes : List Scope) → IsTrailFor scopes self.now → IsFew scopes self.now }
    {
        self.assigned
    }

    /// How often `restart` was called since the last `clear` or `stop`; at 2^64 - 1 the count stays.
    pub fn restarts(&self) -> u64
        ensures { result ≡ self.now.restarts }
    {
        self.restarts
    }

    /// Assigns a literal, which counts a step. The prefix is that of the calls since the last `clear` or `stop`; the
    /// variable is one of it, unassigned, and there is room for it. `Assumed` is for literals of the first scope while
    /// all others are assumed, `Decided` for variables of the first scope that isn't all assigned, and not for the
    /// first assignment after a cut that took literals off.
    ///
    /// Spent comes exactly where the budget is spent, and changes nothing. This takes no memory.
    pub fn assign(
        &mut self,
        prefix: &Prefix,
        lit: Lit,
        why: Why,
        steps: &mut Steps,
    ) -> Result<(), Spent>
        requires prefix { IsTrailFor prefix.now self.old }
        requires known { Contains (all_variables prefix.now) lit.variable }
        requires unassigned { value_on self.old.placed lit.variable ≡ None }
        requires room { lit.variable ≤ self.old.room }
        requires order { MayStand prefix.now self.old.placed lit.variable (cause_of why) }
        requires allowed { MayFollow self.old.allowed (cause_of why) }
        ensures ok { OnOk result (self.new ≡ with_literal prefix.now self.old lit (cause_of why)) }
        ensures err { OnErr result (self.new ≡ self.old) }
        ensures spent { IsErr result ↔ (steps.old.spent ≡ steps.old.budget) }
        ensures counted { OnOk result (steps.new ≡ after steps.old 1) }
        ensures uncounted { OnErr result (steps.new ≡ steps.old) }
        ensures within { steps.old.spent ≤ steps.old.budget }
        ensures kept { IsTrailFor prefix.now self.new }

        // A count of assignments that isn't above that of the steps rises by one, and stays so.
        ensures one { OnOk result (self.old.assigned ≤ steps.old.spent → self.new.assigned ≡ self.old.assigned + 1) }
        ensures below { OnOk result (self.old.assigned ≤ steps.old.spent → self.new.assigned ≤ steps.new.spent) }

        // Each assignment raises the weight.
        ensures raised { OnOk result (Outweighs self.new.placed self.old.placed) }
    {
        // The budget is a u64: a count within it doesn't reach the end of its type.
        let _ = steps.budget();
        steps.tick()?;
        let depth = prefix.depth(lit.var());
        self.push(lit, why, depth - 1);
        self.mark_finished(prefix, depth, why);
        Ok(())
    }

    /// Assumes literals of the first scope over different variables, on an empty trail. The conditions are those of
    /// `assign` for each.
    ///
    /// Spent comes exactly where fewer steps are left than there are literals. What was assigned before it came is
    /// undone then, and nothing is assigned before a `clear` or `stop`. This takes no memory.
    pub fn assume_all(
        &mut self,
        prefix: &Prefix,
        lits: &[Lit],
        steps: &mut Steps,
    ) -> Result<(), Spent>
        requires prefix { IsTrailFor prefix.now self.old }
        requires empty { self.old.placed ≡ [] }
        requires outer { AreOuter prefix.now lits.now }
        requires different { AreDistinct (variables_in lits.now) }
        requires room { All (λ l. l.variable ≤ self.old.room) lits.now }
        requires allowed { MayFollow self.old.allowed assumed_cause }
        ensures ok { OnOk result (self.new ≡ with_assumed prefix.now self.old lits.now) }
        ensures err { OnErr result (self.new ≡ given_up self.old (left steps.old)) }
        ensures spent { IsErr result ↔ (left steps.old < length lits.now) }
        ensures counted { OnOk result (steps.new ≡ after steps.old (length lits.now)) }
        ensures uncounted { OnErr result (steps.new ≡ after steps.old (left steps.old)) }
        ensures kept { IsTrailFor prefix.now self.new }
    {
        let assumed = self.assume_each(prefix, lits, steps);
        if assumed.is_err() {
            self.undo_all();
            self.allowed = Allowed::Nothing;
        }
        assumed
    }

    /// Cuts the trail to a decision level: what was assigned later goes. A level that isn't below that of the trail
    /// changes nothing; after any other one the first assignment is no decision. This takes no memory.
    pub fn undo_to(&mut self, level: usize)
        ensures cut { self.new ≡ undone_to level self.old }
        ensures kept { (scopes : List Scope) → IsTrailFor scopes self.old → IsTrailFor scopes self.new }
        ensures placed { level < last_level self.old.placed → self.new.placed ≡ cut_trail level self.old.placed }
        ensures allowed { level < last_level self.old.placed → self.new.allowed ≡ NoDecision }
        ensures same { last_level self.old.placed ≤ level → self.new ≡ self.old }
        ensures assigned { self.new.assigned ≡ self.old.assigned }
        ensures room { self.new.room ≡ self.old.room }
        ensures restarts { self.new.restarts ≡ self.old.restarts }

        // What is assigned after a cut raises the weight over that of the whole trail before it.
        ensures raised { level < last_level self.old.placed → OutweighsWithOne self.new.placed self.old.placed }
    {
        while self.level() > level {
            self.pop();
        }
    }

    /// Cuts the trail to level 0, counts this, and lets the search begin anew from there: a decision may come next,
    /// unless assumptions were given up, and the weight rises from that of what is left. This takes no memory.
    pub fn restart(&mut self)
        ensures value { self.new ≡ restarted self.old }
        ensures kept { (scopes : List Scope) → IsTrailFor scopes self.old → IsTrailFor scopes self.new }
        ensures placed { self.new.placed ≡ cut_trail 0 self.old.placed }
        ensures allowed { self.old.allowed ≢ Nothing → self.new.allowed ≡ Anything }
        ensures restarts { self.new.restarts ≡ counted self.old.restarts 1 }
        ensures assigned { self.new.assigned ≡ self.old.assigned }
        ensures room { self.new.room ≡ self.old.room }
    {
        // A count is below 2^64.
        let _assigned = self.assigned();
        self.undo_to(0);
        self.restarts = self.restarts.saturating_add(1);
        self.allowed = self.allowed.anew();
    }

    /// Empties the trail, level 0 too, and begins the counts anew. This takes no memory. The time is that of taking the
    /// literals off, and of one byte for each variable of the room.
    pub fn clear(&mut self)
        ensures cleared { self.new ≡ cleared self.old }
        ensures kept { (scopes : List Scope) → IsTrailFor scopes self.new }
    {
        self.undo_all();
        self.assigned = 0;
        self.restarts = 0;
        self.allowed = Allowed::Anything;
    }

    /// Empties the trail as `clear` does, where the budget is spent, and tells the counter's budget, the number of the
    /// prefix's variables, how many literals were assigned and how often the search began anew. This takes no memory.
    /// The time is that of taking the literals off, and of one byte for each variable of the room.
    pub fn stop(&mut self, prefix: &Prefix, steps: &Steps) -> Stopped
        requires prefix { IsTrailFor prefix.now self.old }
        requires spent { steps.now.spent ≡ steps.now.budget }
        ensures stopped { result ≡ account_of prefix.now self.old steps.now.budget }
        ensures cleared { self.new ≡ cleared self.old }
        ensures kept { (scopes : List Scope) → IsTrailFor scopes self.new }
    {
        let stopped = Stopped::new(
            steps.budget(),
            prefix.len(),
            self.assigned(),
            self.restarts(),
        );
        self.clear();
        stopped
    }

    /// The first scope with an unassigned variable, for the prefix of the calls since the last `clear` or `stop`; none
    /// exactly where every variable is assigned.
    ///
    /// Scopes that are known to be all assigned aren't looked at one by one: those that an assignment filled, and all
    /// before a decision, up to the first literal of theirs that is undone. Up to 2^18 such scopes in a row are passed
    /// over by looking at no more than 320 marks. Else this looks at a scope without variables, and at the scopes of
    /// numbers past the room.
    pub fn first_open(&self, prefix: &Prefix) -> Option<usize>
        requires prefix { IsTrailFor prefix.now self.now }
        ensures none { IsNone result ↔ AreAssigned prefix.now self.now.placed }
        ensures some { IfSome result (IsFirstOpen prefix.now self.now.placed) }
    {
        let floor = self.floor().min(prefix.scopes() + 1);
        let mut scope = self.next_unfinished(prefix, floor);
        while scope <= prefix.scopes() {
            if !self.is_full(prefix, scope) {
                return Some(scope);
            }
            scope = self.next_unfinished(prefix, scope + 1);
        }
        None
    }

    /// How many literals `undo_to` keeps of this decision level and those before it.
    pub fn len_to(&self, level: usize) -> usize
        ensures { result ≡ length (cut_trail level self.now.placed) }
    {
        let mut len = self.entries.len();
        while len > 0 && self.entries[len - 1].level > level {
            len -= 1;
        }
        len
    }

    // The number of a scope from this one on, up to which all from there on are assigned.
    fn next_unfinished(&self, prefix: &Prefix, scope: usize) -> usize
        requires prefix { IsTrailFor prefix.now self.now }
        requires first { 1 ≤ scope }
        requires small { scope < 2 ^ 32 }
        requires earlier { AreAssignedBefore prefix.now self.now.placed scope }
        ensures least { scope ≤ result }
        ensures earlier { AreAssignedBefore prefix.now self.now.placed result }
    {
        self.finished.next_outside(scope - 1) + 1
    }

    // Whether every variable of a scope is assigned.
    #[inline(always)]
    fn is_full(&self, prefix: &Prefix, scope: usize) -> bool
        requires prefix { IsTrailFor prefix.now self.now }
        requires first { 1 ≤ scope }
        requires last { scope ≤ length prefix.now }
        ensures { result ≡ is_finished prefix.now self.now.placed scope }
    {
        scope <= prefix.scopes() && self.assigned_in(prefix, scope) == prefix.vars_of(scope).len()
    }

    // How many variables of a scope are assigned. This takes constant time, but for a scope without a place in the
    // table.
    #[inline(always)]
    fn assigned_in(&self, prefix: &Prefix, scope: usize) -> usize
        requires prefix { IsTrailFor prefix.now self.now }
        requires valid { IsPrefix prefix.now }
        requires first { 1 ≤ scope }
        requires last { scope ≤ length prefix.now }
        ensures { result ≡ count_by (is_assigned self.now.placed) (variables_at prefix.now scope) }
    {
        if scope <= self.tallies.len() {
            self.tallies[scope - 1] as usize
        } else {
            self.count_assigned(prefix.vars_of(scope))
        }
    }

    // How many of some variables are assigned.
    fn count_assigned(&self, vars: &BTreeSet<Var>) -> usize
        ensures { result ≡ count_by (is_assigned self.now.placed) vars.now.keys }
    {
        vars.iter().filter(|v| self.value(**v).is_some()).count()
    }

    // The number of a scope before which every variable is assigned: that of the last decision, or the first.
    fn floor(&self) -> usize
        ensures positive { 1 ≤ result }
        ensures earlier { (scopes : List Scope) → IsTrailFor scopes self.now →
            AreAssignedBefore scopes self.now.placed result }
    {
        last_floor(&self.entries)
    }

    // Puts a literal on the trail, with the number less 1 of its scope.
    fn push(&mut self, lit: Lit, why: Why, scope: usize)
        requires unassigned { value_on self.old.placed lit.variable ≡ None }
        requires room { lit.variable ≤ self.old.room }
        requires small { scope < 2 ^ 63 }
        ensures { self.new ≡ with_placed self.old lit (cause_of why) (scope + 1) }
    {
        let place = self.entries.len();
        let entry = Entry {
            lit,
            why,
            level: why.level_after(self.level()),
            scope,
            floor: why.floor_after(last_floor(&self.entries), scope),
            clean: false,
        };
        let spot = Spot {
            value: lit.is_positive(),
            place,
        };
        // There is room for it.
        let _ = self.entries.push(entry);
        self.spots.set(lit.var().index(), spot);
        count_up(&mut self.tallies, scope);
        self.assigned = self.assigned.saturating_add(1);
        self.allowed = Allowed::Anything;
    }

    // Marks the scope with this number where all its variables are assigned, and each earlier one once it is decided
    // in it.
    fn mark_finished(&mut self, prefix: &Prefix, scope: usize, why: Why)
        requires prefix { IsTrailFor prefix.now self.old }
        requires first { 1 ≤ scope }
        requires last { scope ≤ length prefix.now }
        requires small { scope < 2 ^ 32 }
        ensures { self.new ≡
            with_finished self.old (is_finished prefix.now self.old.placed scope) (is_decision (cause_of why)) scope }
    {
        let is_full = self.is_full(prefix, scope);
        self.finished.note(is_full, why.is_decision(), scope);
    }

    // Takes the last literal off.
    fn pop(&mut self)
        requires { 0 < length self.old.placed }
        ensures { self.new ≡ without_last self.old }
    {
        if let Some(entry) = self.entries.pop() {
            self.spots.clear(entry.lit.var().index());
            count_down(&mut self.tallies, entry.scope);
            self.finished.take_out(entry.scope);
            self.allowed = Allowed::NoDecision;
        }
    }

    // Takes all literals off, and lets no scope be known as all assigned.
    fn undo_all(&mut self)
        ensures placed { self.new.placed ≡ [] }
        ensures depths { self.new.depths ≡ [] }
        ensures marks { self.new.marks ≡ [] }
        ensures finished { self.new.finished ≡ emptied self.old.finished }
        ensures assigned { self.new.assigned ≡ self.old.assigned }
        ensures restarts { self.new.restarts ≡ self.old.restarts }
        ensures room { self.new.room ≡ self.old.room }
    {
        while !self.entries.is_empty() {
            self.pop();
        }
        self.finished.clear();
    }

    // Assumes literals up to the first one for which no step is left.
    fn assume_each(&mut self, prefix: &Prefix, lits: &[Lit], steps: &mut Steps) -> Result<(), Spent>
        requires prefix { IsTrailFor prefix.now self.old }
        requires empty { self.old.placed ≡ [] }
        requires outer { AreOuter prefix.now lits.now }
        requires different { AreDistinct (variables_in lits.now) }
        requires room { All (λ l. l.variable ≤ self.old.room) lits.now }
        requires allowed { MayFollow self.old.allowed assumed_cause }
        ensures ok { OnOk result (self.new ≡ with_assumed prefix.now self.old lits.now) }
        ensures counted { OnOk result (steps.new ≡ after steps.old (length lits.now)) }
        ensures enough { OnOk result (length lits.now ≤ left steps.old) }
        ensures err { OnErr result (self.new ≡ with_assumed prefix.now self.old (take (left steps.old) lits.now)) }
        ensures uncounted { OnErr result (steps.new ≡ after steps.old (left steps.old)) }
        ensures fewer { OnErr result (left steps.old < length lits.now) }
        ensures kept { IsTrailFor prefix.now self.new }
    {
        for &lit in lits {
            self.assign(prefix, lit, Why::Assumed, steps)?;
        }
        Ok(())
    }
}
