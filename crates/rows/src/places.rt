//! Where rows stand.
ghost use Rattle.std.specs.Prelude.{◌≡◌, ◌+◌, ◌<◌, ◌≤◌, ◌∷◌, ◌++◌, [], None, Some, IsTrue, is_some, length, slice_set, vec_len, vec_capacity};
ghost use Rattle.rows.specs.Places.{AreMoving, AreSpread, KeepsParts, Reblocks, blocks_of, place_at};
ghost use Rattle.rows.specs.Spots.{IsFirstFree};

use super::rows::RowId;
use super::spots::Places;
use prefix::Lit;

// Where the literals of a row stand, and which block of link fields it has, if it has one.
#[derive(Clone, Copy, Debug)]
pub(crate) struct Place {
    pub start: usize,
    pub len: usize,
    pub block: Option<usize>,
}

// Gives a row another block, the first one that no row has.
pub(crate) fn set_block(places: &mut Places, id: RowId, block: usize)
    requires live { IsTrue (is_some (place_at places.old id)) }
    requires number { IsFirstFree (blocks_of places.old) block }
    ensures blocks { blocks_of places.new ≡ slice_set (blocks_of places.old) id (Some (Some block)) }
    ensures same { Reblocks places.old places.new }
{
    places.set_block(id, block);
}

// Puts the literals of a row in behind those of all others, where there is room for them.
#[inline(always)]
pub(crate) fn put(all: &mut Vec<Lit>, lits: &[Lit])
    requires { length all.old.items + length lits.now ≤ vec_capacity all.old }
    ensures lits { all.new.items ≡ all.old.items ++ lits.now }
    ensures room { vec_capacity all.old ≤ vec_capacity all.new }
{
    // There is room for them.
    let _ = all.extend_from_slice(lits);
}

// Moves the literals of all rows together, down to the front.
pub(crate) fn slide(lits: &mut Vec<Lit>, places: &mut Places)
    requires { AreSpread (length lits.old.items) places.old }
    ensures spread { AreSpread (length lits.new.items) places.new }
    ensures kept { KeepsParts lits.old.items places.old lits.new.items places.new }
{
    let gap = places.gap();
    let to = settle_all(lits, places, 0, gap.start, 0);
    let count = places.len();
    let to = settle_all(lits, places, gap.end, count, to);
    lits.truncate(to);
}

// Moves the literals of all rows from one id up to another down, as `settle` does one by one.
fn settle_all(
    lits: &mut Vec<Lit>,
    places: &mut Places,
    first: RowId,
    end: RowId,
    to: usize,
) -> usize
    requires order { first ≤ end }
    requires given { end ≤ length places.old }
    requires moving { AreMoving (length lits.old.items) places.old first to }
    ensures moving { AreMoving (length lits.new.items) places.new end result }
    ensures kept { KeepsParts lits.old.items places.old lits.new.items places.new }
{
    let mut to = to;
    for id in first..end {
        to = settle(lits, places, id, to);
    }
    to
}

// Moves the literals of a row, if it is live, down to a place that no row before it reaches, and answers the place
// behind them.
fn settle(lits: &mut Vec<Lit>, places: &mut Places, id: RowId, to: usize) -> usize
    requires given { id < length places.old }
    requires moving { AreMoving (length lits.old.items) places.old id to }
    ensures moving { AreMoving (length lits.new.items) places.new (id + 1) result }
    ensures kept { KeepsParts lits.old.items places.old lits.new.items places.new }
{
    match places.place(id) {
        None => to,
        Some(place) => {
            move_down(lits, places, id, place, to);
            to + place.len
        }
    }
}

// Moves the literals of a row down.
fn move_down(lits: &mut Vec<Lit>, places: &mut Places, id: RowId, place: Place, to: usize)
    requires place { place_at places.old id ≡ Some place }
    requires moving { AreMoving (length lits.old.items) places.old id to }
    ensures moving { AreMoving (length lits.new.items) places.new (id + 1) (to + place.len) }
    ensures kept { KeepsParts lits.old.items places.old lits.new.items places.new }
{
    if to == place.start {
        return;
    }
    lits.copy_within(place.start..place.start + place.len, to);
    places.set_start(id, to);
}
