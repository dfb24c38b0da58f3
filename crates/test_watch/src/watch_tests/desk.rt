//! What the tests of a watch play with.
ghost use Rattle.std.specs.Prelude.{◌≡◌, [], List, IfOk, OnOk, IsTrue};
ghost use Rattle.prefix.specs.Scopes.{Scope};
ghost use Rattle.rows.specs.Arena.{is_live, literals_at};
ghost use Rattle.trail.specs.State.{IsTrailFor};
ghost use Rattle.trail.specs.declared.allowed.Allowed.TheVariants.{Anything};
ghost use Rattle.watch.specs.State.{Holds, IsRoomFor, IsUnattached, looked};

use super::plain::{is_bad, is_unit, tells};
use prefix::{Lit, Prefix, Side, Var};
use rows::{RowId, Rows};
use std::alloc::Global;
use std::marker::Model;
use std::test::Fail;
use steps::Steps;
use trail::Trail;
use watch::{Event, Watch};

// An empty trail with room for the variables up to a number.
fn trail_for(alloc: Global, last: usize) -> Result<Trail, Fail>
    ensures kept { IfOk result (λ t. (scopes : List Scope) → IsTrailFor scopes t) }
    ensures allowed { IfOk result (λ t. t.allowed ≡ Anything) }
{
    let mut trail = Trail::new(alloc);
    trail.reserve(last)?;
    Ok(trail)
}

// A watch of no rows with room for the variables up to a number.
fn watch_for<S: Side>(alloc: Global, last: usize) -> Result<Watch<S>, Fail>
    ensures holds { IfOk result (λ w. (scopes : List Scope) → Holds S.PIVOT scopes w []) }
    ensures looked { IfOk result (λ w. looked w ≡ []) }
{
    let mut watch = Watch::new(alloc);
    watch.reserve(last)?;
    Ok(watch)
}

// Whether the variables of a row are in the prefix, with numbers up to this.
fn is_known(prefix: &Prefix, room: usize, lits: &[Lit]) -> bool
    ensures { IsTrue result → IsRoomFor prefix.now room lits.now }
{
    for lit in lits {
        if prefix.level(lit.var()).is_none() {
            return false;
        }
        if lit.var().number() as usize > room {
            return false;
        }
    }
    true
}

// Whether a row may be attached: it is live and not attached, and there is room for its variables.
fn may_attach<S: Side>(watch: &Watch<S>, rows: &Rows, prefix: &Prefix, id: RowId) -> bool
    ensures live { IsTrue result → IsTrue (is_live rows.now id) }
    ensures unattached { IsTrue result → IsUnattached rows.now id }
    ensures known { IsTrue result → IsRoomFor prefix.now watch.now.room (literals_at rows.now id) }
{
    if !rows.is_live(id) {
        return false;
    }
    if rows.link(id, 6).is_some() {
        return false;
    }
    is_known(prefix, watch.room(), rows.lits(id))
}

// A prefix with rows, a trail and a watch of one side, each of whose calls is made once it is seen that it may be.
// Contracts see the trail.
#[derive(Drop)]
pub(crate) struct Desk<S: Side> {
    prefix: Prefix,
    rows: Rows,
    trail: Trail,
    steps: Steps,
    watch: Watch<S>,
}

impl<S: Side> Model for Desk<S> {
    ghost use Rattle.trail.specs.State.{TrailState};
    ghost use Rattle.test_watch.specs.Ready.{IsReady};

    ghost Value = { TrailState };

    ghost view = { λ d. d.trail };

    ghost invariant = { λ d. IsReady S.PIVOT d.prefix d.rows d.trail d.watch };
}

impl<S: Side> Desk<S> {
    // A desk without rows, with room for the variables up to a number.
    pub(crate) fn new(alloc: Global, prefix: Prefix, last: usize) -> Result<Self, Fail> {
        let trail = trail_for(alloc, last)?;
        let watch = watch_for::<S>(alloc, last)?;
        Ok(Self {
            prefix,
            rows: Rows::new(alloc),
            trail,
            steps: Steps::new(10_000),
            watch,
        })
    }

    // Puts in a row.
    fn put(&mut self, lits: &[Lit]) -> Result<RowId, Fail> {
        Ok(self.rows.add(lits)?)
    }

    // Attaches a row, if it may be attached; whether it did.
    fn attach(&mut self, id: RowId) -> bool {
        if !may_attach(&self.watch, &self.rows, &self.prefix, id) {
            return false;
        }
        self.watch
            .attach(&mut self.rows, &self.trail, &self.prefix, id);
        true
    }

    // Puts in a row and attaches it; whether it could be attached.
    pub(crate) fn add(&mut self, lits: &[Lit]) -> Result<bool, Fail> {
        let id = self.put(lits)?;
        Ok(self.attach(id))
    }

    // Detaches a row, if it is attached; whether it did.
    pub(crate) fn detach(&mut self, id: RowId) -> bool {
        if !self.rows.is_live(id) || !self.watch.has(&self.rows, id) {
            return false;
        }
        self.watch.detach(&mut self.rows, id);
        true
    }

    // Propagates a literal from step 7, where it may be assigned.
    pub(crate) fn propagate(&mut self, lit: Lit) -> Result<(), Fail>
        ensures { OnOk result (self.new.allowed ≡ Anything) }
    {
        fixtures::propagate(&mut self.trail, &self.prefix, lit, &mut self.steps)
    }

    // Decides a literal, where it may be decided.
    pub(crate) fn decide(&mut self, lit: Lit) -> Result<(), Fail>
        requires { self.old.allowed ≡ Anything }
    {
        fixtures::decide(&mut self.trail, &self.prefix, lit, &mut self.steps)
    }

    // Cuts the trail to a level, and tells the watch.
    pub(crate) fn undo(&mut self, level: usize) {
        self.trail.undo_to(level);
        self.watch.undone(self.trail.len());
    }

    // Empties the trail, and tells the watch.
    pub(crate) fn clear(&mut self) {
        self.trail.clear();
        self.watch.undone(0);
    }

    // The next event, if there is room for the trail's variables.
    pub(crate) fn next(&mut self) -> Option<Event> {
        if self.trail.room() > self.watch.room() {
            return None;
        }
        Some(self.watch.next(&mut self.rows, &self.trail, &self.prefix))
    }

    // Whether a row is in the lists of these names.
    pub(crate) fn is_in(&self, id: RowId, first: usize, second: usize) -> bool {
        if !self.rows.is_live(id) {
            return false;
        }
        self.rows.link(id, 0) == Some(first) && self.rows.link(id, 3) == Some(second)
    }

    // Whether a variable is assigned.
    pub(crate) fn is_assigned(&self, v: Var) -> bool {
        self.trail.value(v).is_some()
    }

    // Whether a literal may be decided: it is open, and of the first scope that isn't all assigned.
    pub(crate) fn is_next(&self, lit: Lit) -> bool {
        !self.is_assigned(lit.var())
            && self.prefix.level(lit.var()) == self.trail.first_open(&self.prefix)
    }

    // The literals of a row, if it is attached.
    fn attached(&self, id: RowId) -> Option<&[Lit]> {
        if !self.rows.is_live(id) || !self.watch.has(&self.rows, id) {
            return None;
        }
        Some(self.rows.lits(id))
    }

    // Whether an attached row is bad.
    fn is_bad(&self, id: RowId) -> bool {
        match self.attached(id) {
            Some(lits) => is_bad::<S>(&self.trail, &self.prefix, lits),
            None => false,
        }
    }

    // Whether an attached row is unit in a literal.
    fn is_unit(&self, id: RowId, lit: Lit) -> bool {
        match self.attached(id) {
            Some(lits) => is_unit::<S>(&self.trail, &self.prefix, lits, lit),
            None => false,
        }
    }

    // Whether a row is attached, and bad or unit in some literal of it.
    fn tells(&self, id: RowId) -> bool {
        match self.attached(id) {
            Some(lits) => tells::<S>(&self.trail, &self.prefix, lits),
            None => false,
        }
    }

    // Whether no attached row is bad or unit.
    fn is_quiet(&self) -> bool {
        for id in 0..self.rows.next_id() {
            if self.tells(id) {
                return false;
            }
        }
        true
    }

    // Whether an event is right by the plain definitions.
    pub(crate) fn is_right(&self, event: &Event) -> bool {
        match event {
            Event::Unit(id, lit) => self.is_unit(*id, *lit),
            Event::Bad(id) => self.is_bad(*id),
            Event::Quiet => self.is_quiet(),
        }
    }
}
