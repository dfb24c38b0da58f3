//! The decider.
ghost use Rattle.std.specs.Prelude.{◌≡◌, ◌↔◌, ℕ, ◌++◌, ◌≤◌, [], length, drop, replicate, IsNone, IsSome, IfSome, OnOk, OnErr, None};
ghost use Rattle.prefix.specs.Scopes.{Scope, level_of};
ghost use Rattle.calculus.specs.Search.{literals_on, value_on};
ghost use Rattle.trail.specs.Open.{AreAssigned, IsFirstOpen};
ghost use Rattle.trail.specs.State.{IsTrailFor};
ghost use Rattle.decide.specs.Memory.{phase_of, saved, with_phase};
ghost use Rattle.decide.specs.Decision.{IsDecision, IsOpenIn};

use super::waiting::{Waiting, WaitingList};
use memory::NoMemory;
use prefix::{Lit, Prefix, Quant, Var};
use std::alloc::Global;
use std::marker::Model;
use trail::Trail;

/// Chooses decisions. Contracts see it as the list of the signs that the variables had last, for as many variables as
/// there is room for.
///
/// A decision is over a variable of the first scope that isn't all assigned, one of the greatest priority as far as
/// `undoing` told which variables come back. A call takes the logarithm of the room for each variable that was
/// assigned or told since; where a variable of the scope wasn't told, it looks at all variables of the scope once.
#[derive(Debug, Drop)]
pub struct Decider {
    // The sign that each variable had last, at its number less 1.
    phases: Vec<Option<bool>>,
    // How many more counted literals of each variable were positive than negative, at its number less 1.
    tallies: Vec<i32>,
    // The variables that wait, each at its number less 1, with their priorities.
    waiting: WaitingList,
}

impl Model for Decider {
    ghost use Rattle.std.specs.Prelude.{◌≤◌, length};
    ghost use Rattle.decide.specs.Memory.{Memory};

    ghost Value = { Memory };

    ghost view = { λ d. d.phases.items };

    ghost invariant = { λ d. length d.phases.items ≤ d.waiting };
}

impl Decider {
    /// A decider without room for variables. This takes no memory.
    pub fn new(alloc: Global) -> Self
        ensures { result ≡ [] }
    {
        Self {
            phases: Vec::new(alloc),
            tallies: Vec::new(alloc),
            waiting: WaitingList::new(alloc),
        }
    }

    /// Makes room for the variables of numbers up to `vars` at least. It only grows: the signs and the priorities stay,
    /// and what is new has no sign. Where it grows no variable waits any more, so that the next decision looks at those
    /// of its scope. With no memory the signs stay as they were. Where the room grows it at least doubles, so that one
    /// variable more at a time costs constant time on the average.
    pub fn reserve(&mut self, vars: usize) -> Result<(), NoMemory>
        ensures ok { OnOk result (vars ≤ length self.new) }
        ensures grown { (more : ℕ) × (self.new ≡ self.old ++ replicate more None) }
        ensures phases { (x : ℕ) → phase_of self.new x ≡ phase_of self.old x }
        ensures err { OnErr result (self.new ≡ self.old) }
    {
        let count = self.phases.len();
        if count < vars {
            let more = vars.max(2 * count);
            self.waiting.reserve(more)?;
            self.tallies.resize(more, 0)?;
            self.phases.resize(more, None)?;
        }
        Ok(())
    }

    /// The number up to which variables have room.
    pub fn room(&self) -> usize
        ensures { result ≡ length self.now }
    {
        self.phases.len()
    }

    /// Counts the literals of a clause: for the signs that variables have at first, and for their priorities, each of
    /// which rises by what a first call of `bump` adds. A literal of a variable without room isn't counted. This takes
    /// no memory.
    pub fn count(&mut self, lits: &[Lit])
        ensures { self.new ≡ self.old }
    {
        for lit in lits {
            self.count_one(*lit);
        }
    }

    /// Raises the priority of a variable that there is room for, by more the more often `decay` was called. This takes
    /// no memory.
    pub fn bump(&mut self, v: Var)
        ensures { self.new ≡ self.old }
    {
        self.waiting.bump(v);
    }

    /// Lets later calls of `bump` count more: each call by a sixteenth. This takes no memory; one call in several
    /// hundred looks at all variables.
    pub fn decay(&mut self)
        ensures { self.new ≡ self.old }
    {
        self.waiting.decay();
    }

    /// Tells that the literals from place `keep` on are about to be undone: their variables come back, each with the
    /// sign that it had. To be told serves the choice and its speed alone. This takes no memory.
    pub fn undoing(&mut self, trail: &Trail, prefix: &Prefix, keep: usize)
        ensures { self.new ≡ saved (drop keep (literals_on trail.now.placed)) self.old }
    {
        for place in keep..trail.len() {
            self.put_back(trail.at(place), prefix);
        }
    }

    /// The next decision: none exactly where every variable is assigned; else a literal over an unassigned variable
    /// of the first scope that has one, with the sign that the variable had last, if it had one. At first an
    /// existential variable has the sign that most of its counted literals have, or false, and a universal one has the
    /// other sign, or true. The prefix is that of the trail's calls. This takes no memory.
    pub fn next_decision(&mut self, trail: &Trail, prefix: &Prefix) -> Option<Lit>
        requires { IsTrailFor prefix.now trail.now }
        ensures none { IsNone result ↔ AreAssigned prefix.now trail.now.placed }
        ensures decision { IfSome result (λ l. IsDecision prefix.now trail.now.placed l.variable) }
        ensures sign { IfSome result (λ l. IfSome (phase_of self.old l.variable) (λ last. l.positive ≡ last)) }
        ensures phases { self.new ≡ self.old }
    {
        let scope = trail.first_open(prefix)?;
        let v = self.choose(trail, prefix, scope)?;
        Some(Lit::new(v, self.sign(v, prefix)))
    }

    // A variable to decide of a scope that has an unassigned one.
    fn choose(&mut self, trail: &Trail, prefix: &Prefix, scope: usize) -> Option<Var>
        requires { IsFirstOpen prefix.now trail.now.placed scope }
        ensures some { IfSome result (IsOpenIn prefix.now trail.now.placed scope) }
        ensures found { IsSome result }
        ensures phases { self.new ≡ self.old }
    {
        match self.first_waiting(trail, prefix, scope) {
            Some(v) => Some(v),
            None => {
                let other = self.refill(trail, prefix, scope)?;
                let first = self.first_waiting(trail, prefix, scope);
                Some(first.unwrap_or(other))
            }
        }
    }

    // The variable that comes first of those that wait, where it is unassigned and of this scope. What waits before
    // it goes.
    fn first_waiting(&mut self, trail: &Trail, prefix: &Prefix, scope: usize) -> Option<Var>
        ensures some { IfSome result (IsOpenIn prefix.now trail.now.placed scope) }
        ensures phases { self.new ≡ self.old }
    {
        for _ in 0..self.room() {
            let waiting = self.first()?;
            let v = Var::new(waiting.number)?;
            if trail.value(v).is_none() {
                if prefix.level(v) == Some(scope) {
                    return Some(v);
                }
                if waiting.scope > scope {
                    return None;
                }
            }
            self.take_out(v);
        }
        None
    }

    // Lets the unassigned variables of a scope wait, and answers one of them.
    fn refill(&mut self, trail: &Trail, prefix: &Prefix, scope: usize) -> Option<Var>
        requires { IsFirstOpen prefix.now trail.now.placed scope }
        ensures some { IfSome result (IsOpenIn prefix.now trail.now.placed scope) }
        ensures found { IsSome result }
        ensures phases { self.new ≡ self.old }
    {
        let mut one = None;
        for v in prefix.vars_of(scope) {
            if trail.value(*v).is_some() {
                continue;
            }
            self.put(*v, scope);
            one = Some(*v);
        }
        one
    }

    // The sign that a decision over a variable has.
    fn sign(&self, v: Var, prefix: &Prefix) -> bool
        ensures { IfSome (phase_of self.now v) (λ last. result ≡ last) }
    {
        match self.phase(v) {
            Some(last) => last,
            None => self.is_mostly_positive(v) != (prefix.quant(v) == Some(Quant::Forall)),
        }
    }

    // Whether more counted literals of a variable were positive than negative.
    fn is_mostly_positive(&self, v: Var) -> bool {
        match self.tallies.get(v.index()) {
            Some(tally) => *tally > 0,
            None => false,
        }
    }

    // Counts a literal.
    fn count_one(&mut self, lit: Lit)
        ensures { self.new ≡ self.old }
    {
        let i = lit.var().index();
        if i < self.tallies.len() {
            let more = if lit.is_positive() { 1 } else { -1 };
            self.tallies[i] = self.tallies[i].saturating_add(more);
            self.waiting.count(lit.var());
        }
    }

    // The sign that a variable had last.
    fn phase(&self, v: Var) -> Option<bool>
        ensures { result ≡ phase_of self.now v }
    {
        *self.phases.get(v.index())?
    }

    // Saves the sign of a literal.
    fn save(&mut self, lit: Lit)
        ensures { self.new ≡ with_phase self.old lit }
    {
        let i = lit.var().index();
        if i < self.phases.len() {
            self.phases[i] = Some(lit.is_positive());
        }
    }

    // Saves the sign of a literal and lets its variable wait, if it doesn't already.
    fn put_back(&mut self, lit: Lit, prefix: &Prefix)
        ensures { self.new ≡ with_phase self.old lit }
    {
        self.save(lit);
        if self.is_waiting(lit.var()) {
            return;
        }
        if let Some(scope) = prefix.level(lit.var()) {
            self.put(lit.var(), scope);
        }
    }

    // What comes first of all that wait.
    fn first(&self) -> Option<Waiting> {
        self.waiting.first()
    }

    // Whether a variable waits.
    fn is_waiting(&self, v: Var) -> bool {
        self.waiting.is_waiting(v)
    }

    // Lets a variable of a scope wait.
    #[inline(always)]
    fn put(&mut self, v: Var, scope: usize)
        ensures { self.new ≡ self.old }
    {
        self.waiting.put(v, scope);
    }

    // Lets a variable wait no longer.
    fn take_out(&mut self, v: Var)
        ensures { self.new ≡ self.old }
    {
        self.waiting.take_out(v);
    }
}
