//! Calls of a watch on the rows of a derivation.
ghost use Rattle.std.specs.Prelude.{◌≡◌, ◌≤◌, ◌⊎◌, IsTrue, Some, min};
ghost use Rattle.rows.specs.Arena.{literals_at, is_live as is_stored};
ghost use Rattle.calculus.specs.Search.{literals_on, value_on};
ghost use Rattle.derive.specs.State.{arena_of, has_rows, is_live, row_of};
ghost use Rattle.watch.specs.Events.{IsEvent};
ghost use Rattle.watch.specs.Links.{is_attached, mark_of};
ghost use Rattle.watch.specs.State.{Attaches, Holds, IsFront, IsRoomFor, IsThreaded, IsUnattached, GoesOnHolding, KeepsLooked, looked, new_watch, undone_to};
ghost use Rattle.search.specs.Watching.{AgreesElsewhere, KeepsMarks, KeepsRows, SameElsewhere, Touches, Unmarks, watch_at};

use derive::{Derivation, StepId};
use prefix::{Clauses, Cubes, Prefix, Quant, Side};
use rows::{RowId, Rows};
use std::alloc::Global;
use trail::Trail;
use watch::{Event, Watch, agreeing_laws, looking_laws};

// The watches of both sides.
#[derive(Debug, Drop)]
pub(crate) struct Watches {
    pub(crate) clauses: Watch<Clauses>,
    pub(crate) cubes: Watch<Cubes>,
}

impl Watches {
    // Watches of no rows, without room for variables.
    pub(crate) fn new(alloc: Global) -> Self
        ensures clauses { result.clauses ≡ new_watch }
        ensures cubes { result.cubes ≡ new_watch }
    {
        Self {
            clauses: Watch::new(alloc),
            cubes: Watch::new(alloc),
        }
    }

    // The number up to which variables have room in both.
    pub(crate) fn room(&self) -> usize
        ensures { result ≡ min self.now.clauses.room self.now.cubes.room }
    {
        self.clauses.room().min(self.cubes.room())
    }

    // Tells both that the trail was cut to a length.
    pub(crate) fn undone(&mut self, len: usize)
        ensures clauses { self.new.clauses ≡ undone_to len self.old.clauses }
        ensures cubes { self.new.cubes ≡ undone_to len self.old.cubes }
    {
        self.clauses.undone(len);
        self.cubes.undone(len);
    }

    // What that of a side tells of its rows.
    #[inline(always)]
    pub(crate) fn next(
        &mut self,
        side: Quant,
        rows: &mut Rows,
        trail: &Trail,
        prefix: &Prefix,
    ) -> Event
        requires holds { Holds side prefix.now (watch_at side self.old) rows.old }
        requires front { IsFront (looked (watch_at side self.old)) (literals_on trail.now.placed) }
        requires room { trail.now.room ≤ (watch_at side self.old).room }
        ensures event { IsEvent side prefix.now (value_on trail.now.placed) rows.new result }
        ensures same { KeepsRows rows.old rows.new }
        ensures agrees { AgreesElsewhere side rows.old rows.new }
        ensures holds { Holds side prefix.now (watch_at side self.new) rows.new }
        ensures looked { looked (watch_at side self.new) ≡ literals_on trail.now.placed }
        ensures room { (watch_at side self.new).room ≡ (watch_at side self.old).room }
        ensures marks { KeepsMarks rows.old rows.new }
        ensures others { SameElsewhere side self.old self.new }
    {
        match side {
            Quant::Exists => next_of(&mut self.clauses, rows, trail, prefix),
            Quant::Forall => next_of(&mut self.cubes, rows, trail, prefix),
        }
    }

    // Attaches a row to that of a side, unless it is attached; it is attached to no other one.
    pub(crate) fn attach(
        &mut self,
        side: Quant,
        derivation: &mut Derivation,
        trail: &Trail,
        prefix: &Prefix,
        id: StepId,
    )
        requires rows { IsTrue (has_rows derivation.old) }
        requires live { IsTrue (is_live derivation.old id) }
        requires holds { Holds side prefix.now (watch_at side self.old) (arena_of derivation.old) }
        requires marked { IsUnattached (arena_of derivation.old) id
            ⊎ IsTrue (is_attached side (arena_of derivation.old) id) }
        requires known { IsRoomFor prefix.now (watch_at side self.old).room (row_of derivation.old id) }
        ensures touches { Touches side derivation.old derivation.new }
        ensures holds { Holds side prefix.now (watch_at side self.new) (arena_of derivation.new) }
        ensures looked { KeepsLooked (watch_at side self.old) (watch_at side self.new) }
        ensures attached { Attaches side (arena_of derivation.old) (arena_of derivation.new) id
            (Some (mark_of side)) }
        ensures others { SameElsewhere side self.old self.new }
    {
        match side {
            Quant::Exists => attach_to(&mut self.clauses, derivation, trail, prefix, id),
            Quant::Forall => attach_to(&mut self.cubes, derivation, trail, prefix, id),
        }
    }

    // Detaches a row, if it is attached to that of a side.
    pub(crate) fn detach(&mut self, side: Quant, derivation: &mut Derivation, id: StepId)
        requires rows { IsTrue (has_rows derivation.old) }
        requires live { IsTrue (is_live derivation.old id) }
        requires threaded { IsThreaded side (watch_at side self.old) (arena_of derivation.old) }
        ensures touches { Touches side derivation.old derivation.new }
        ensures holds { GoesOnHolding side (watch_at side self.old) (arena_of derivation.old)
            (watch_at side self.new) (arena_of derivation.new) }
        ensures looked { KeepsLooked (watch_at side self.old) (watch_at side self.new) }
        ensures detached { Unmarks side (arena_of derivation.old) (arena_of derivation.new) id }
        ensures others { SameElsewhere side self.old self.new }
    {
        match side {
            Quant::Exists => detach_from(&mut self.clauses, derivation, id),
            Quant::Forall => detach_from(&mut self.cubes, derivation, id),
        }
    }

    // Whether a row is attached to that of a side.
    pub(crate) fn has(&self, side: Quant, derivation: &mut Derivation, id: StepId) -> bool
        requires rows { IsTrue (has_rows derivation.old) }
        requires live { IsTrue (is_live derivation.old id) }
        ensures same { derivation.new ≡ derivation.old }
        ensures has { result ≡ is_attached side (arena_of derivation.old) id }
    {
        match side {
            Quant::Exists => has_row(&self.clauses, derivation, id),
            Quant::Forall => has_row(&self.cubes, derivation, id),
        }
    }
}

// What a watch tells of its rows.
#[inline(always)]
fn next_of<S: Side>(watch: &mut Watch<S>, rows: &mut Rows, trail: &Trail, prefix: &Prefix) -> Event
    requires holds { Holds S.PIVOT prefix.now watch.old rows.old }
    requires front { IsFront (looked watch.old) (literals_on trail.now.placed) }
    requires room { trail.now.room ≤ watch.old.room }
    ensures event { IsEvent S.PIVOT prefix.now (value_on trail.now.placed) rows.new result }
    ensures same { KeepsRows rows.old rows.new }
    ensures agrees { AgreesElsewhere S.PIVOT rows.old rows.new }
    ensures holds { Holds S.PIVOT prefix.now watch.new rows.new }
    ensures looked { looked watch.new ≡ literals_on trail.now.placed }
    ensures room { watch.new.room ≡ watch.old.room }
    ensures marks { KeepsMarks rows.old rows.new }
{
    // The room tells that it is enough for the trail, a law that the watch's, which is no smaller, is so too; another
    // one that the rows of the other watch are as they were.
    let _room = trail.room();
    looking_laws();
    agreeing_laws();
    watch.next(rows, trail, prefix)
}

// Attaches a row that is attached to no watch of the other side, unless it is attached to this one.
fn attach_to<S: Side>(
    watch: &mut Watch<S>,
    derivation: &mut Derivation,
    trail: &Trail,
    prefix: &Prefix,
    id: StepId,
)
    requires rows { IsTrue (has_rows derivation.old) }
    requires live { IsTrue (is_live derivation.old id) }
    requires holds { Holds S.PIVOT prefix.now watch.old (arena_of derivation.old) }
    requires marked { IsUnattached (arena_of derivation.old) id
        ⊎ IsTrue (is_attached S.PIVOT (arena_of derivation.old) id) }
    requires known { IsRoomFor prefix.now watch.old.room (row_of derivation.old id) }
    ensures touches { Touches S.PIVOT derivation.old derivation.new }
    ensures holds { Holds S.PIVOT prefix.now watch.new (arena_of derivation.new) }
    ensures looked { KeepsLooked watch.old watch.new }
    ensures attached { Attaches S.PIVOT (arena_of derivation.old) (arena_of derivation.new) id
        (Some (mark_of S.PIVOT)) }
{
    let mut rows = derivation.take_rows();
    attach_unless::<S>(watch, &mut rows, trail, prefix, id);
    derivation.put_rows(rows);
}

// Attaches a row unless it is attached.
fn attach_unless<S: Side>(
    watch: &mut Watch<S>,
    rows: &mut Rows,
    trail: &Trail,
    prefix: &Prefix,
    id: RowId,
)
    requires live { IsTrue (is_stored rows.old id) }
    requires holds { Holds S.PIVOT prefix.now watch.old rows.old }
    requires marked { IsUnattached rows.old id ⊎ IsTrue (is_attached S.PIVOT rows.old id) }
    requires known { IsRoomFor prefix.now watch.old.room (literals_at rows.old id) }
    ensures holds { Holds S.PIVOT prefix.now watch.new rows.new }
    ensures looked { KeepsLooked watch.old watch.new }
    ensures attached { Attaches S.PIVOT rows.old rows.new id (Some (mark_of S.PIVOT)) }
    ensures agrees { AgreesElsewhere S.PIVOT rows.old rows.new }
{
    // The rows that are attached to the other watch are as they were.
    agreeing_laws();
    if !watch.has(rows, id) {
        watch.attach(rows, trail, prefix, id);
    }
}

// Detaches a row, if it is attached to this watch.
fn detach_from<S: Side>(watch: &mut Watch<S>, derivation: &mut Derivation, id: StepId)
    requires rows { IsTrue (has_rows derivation.old) }
    requires live { IsTrue (is_live derivation.old id) }
    requires threaded { IsThreaded S.PIVOT watch.old (arena_of derivation.old) }
    ensures touches { Touches S.PIVOT derivation.old derivation.new }
    ensures holds { GoesOnHolding S.PIVOT watch.old (arena_of derivation.old) watch.new (arena_of derivation.new) }
    ensures looked { KeepsLooked watch.old watch.new }
    ensures detached { Unmarks S.PIVOT (arena_of derivation.old) (arena_of derivation.new) id }
{
    let mut rows = derivation.take_rows();
    detach_if::<S>(watch, &mut rows, id);
    derivation.put_rows(rows);
}

// Detaches a row if it is attached.
fn detach_if<S: Side>(watch: &mut Watch<S>, rows: &mut Rows, id: RowId)
    requires live { IsTrue (is_stored rows.old id) }
    requires threaded { IsThreaded S.PIVOT watch.old rows.old }
    ensures holds { GoesOnHolding S.PIVOT watch.old rows.old watch.new rows.new }
    ensures looked { KeepsLooked watch.old watch.new }
    ensures same { KeepsRows rows.old rows.new }
    ensures detached { Unmarks S.PIVOT rows.old rows.new id }
    ensures agrees { AgreesElsewhere S.PIVOT rows.old rows.new }
{
    // The rows that are attached to the other watch are as they were.
    agreeing_laws();
    if watch.has(rows, id) {
        watch.detach(rows, id);
    }
}

// Whether a row is attached to this watch.
fn has_row<S: Side>(watch: &Watch<S>, derivation: &mut Derivation, id: StepId) -> bool
    requires rows { IsTrue (has_rows derivation.old) }
    requires live { IsTrue (is_live derivation.old id) }
    ensures same { derivation.new ≡ derivation.old }
    ensures has { result ≡ is_attached S.PIVOT (arena_of derivation.old) id }
{
    let rows = derivation.take_rows();
    let has = watch.has(&rows, id);
    derivation.put_rows(rows);
    has
}
