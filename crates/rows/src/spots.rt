//! The places of all rows, by their slots and spots.
ghost use Rattle.std.specs.Prelude.{◌≡◌, ◌≢◌, ℕ, ◌∷◌, ◌++◌, ◌+◌, ◌<◌, ◌≤◌, [], None, Some, IfSome, IsTrue, OnErr, OnOk, count_by, is_some, length, slice_set, take, vec_capacity};
ghost use Rattle.std.specs.Option.{option_map};
ghost use Rattle.rows.specs.Places.{AreDead, blocks_of, len_of, moved_to, place_at, start_of, with_block};
ghost use Rattle.rows.specs.Spots.{IsFirstFree, spot_at, spotted};

use super::places::Place;
use super::rows::RowId;
use super::slots::{Slot, Spot};
use super::table::{Run, Table};
use memory::NoMemory;
use std::alloc::{AllocError, Global};
use std::marker::Model;

// The places of the rows of all ids given. A row that has no block stands where its slot says. The slot of a row that
// has one says only the block's number, under which its spot stands: so who wants a link reads the slot and the block
// alone. No two rows have the same block.
#[derive(Debug, Drop)]
pub(crate) struct Places {
    // What is told of each row but for the spots.
    slots: Table,
    // The spots of the rows with a block, with room for those of all live rows. Behind them there may be some of rows
    // that went.
    spots: Vec<Spot>,
}

impl Model for Places {
    ghost use Rattle.std.specs.Prelude.{List, Option, length, vec_capacity};
    ghost use Rattle.rows.specs.declared.places.Place.{Place};

    ghost Value = { List (Option Place) };

    ghost use Rattle.rows.specs.Places.{blocks_of};
    ghost use Rattle.rows.specs.Spots.{AreSpotted, all_standing};

    ghost view = { λ p. all_standing p.spots.items p.slots };

    ghost invariant = { λ p. AreSpotted (blocks_of p.slots) (length p.spots.items) (vec_capacity p.spots) };
}

impl Places {
    // The places of no rows. This takes no memory.
    pub(crate) fn new(alloc: Global) -> Self
        ensures { result ≡ [] }
    {
        Self {
            slots: Table::new(alloc),
            spots: Vec::new(alloc),
        }
    }

    // How many ids there are.
    #[inline]
    pub(crate) fn len(&self) -> usize
        ensures { result ≡ length self.now }
    {
        self.slots.len()
    }

    // How many ids have a slot.
    pub(crate) fn kept(&self) -> usize {
        self.slots.kept()
    }

    // The ids that have no slot.
    pub(crate) fn gap(&self) -> Run
        ensures { AreDead self.now result.start result.end }
    {
        self.slots.gap()
    }

    // Whether the row of an id is live.
    #[inline]
    pub(crate) fn is_live(&self, id: RowId) -> bool
        ensures { result ≡ is_some (place_at self.now id) }
    {
        self.slots.is_live(id)
    }

    // The place of the row of an id, if it is live.
    pub(crate) fn place(&self, id: RowId) -> Option<Place>
        ensures { result ≡ place_at self.now id }
    {
        if self.is_live(id) {
            Some(self.place_of(id))
        } else {
            None
        }
    }

    // The place of a live row.
    #[inline(always)]
    pub(crate) fn place_of(&self, id: RowId) -> Place
        requires { IsTrue (is_some (place_at self.now id)) }
        ensures value { place_at self.now id ≡ Some result }
        ensures start { result.start < 1099511627776 }
        ensures len { result.len < 16777216 }
    {
        let place = self.slots.place_of(id);
        match place.block {
            None => place,
            Some(block) => stand(self.spots[block], block),
        }
    }

    // Puts the slot of the next id in, of a row without a block. With no memory nothing changes. Before, no more than
    // `live` rows are live: room for a spot of each is taken.
    #[inline(always)]
    pub(crate) fn push(&mut self, live: usize, slot: Slot) -> Result<(), NoMemory>
        requires live { count_by is_some (blocks_of self.old) ≤ live }
        requires few { live < 4294967296 }
        requires own { IfSome slot (λ p. p.block ≡ None) }
        ensures ok { OnOk result (self.new ≡ self.old ++ slot ∷ []) }
        ensures err { OnErr result (self.new ≡ self.old) }
    {
        reserve(&mut self.spots, live + 1)?;
        self.slots.push(slot)
    }

    // Puts two slots in as two calls of `push` do, or none.
    pub(crate) fn push_pair(
        &mut self,
        live: usize,
        first: Slot,
        second: Slot,
    ) -> Result<(), NoMemory>
        requires live { count_by is_some (blocks_of self.old) ≤ live }
        requires few { live < 4294967295 }
        requires first { IfSome first (λ p. p.block ≡ None) }
        requires second { IfSome second (λ p. p.block ≡ None) }
        ensures ok { OnOk result (self.new ≡ (self.old ++ first ∷ []) ++ second ∷ []) }
        ensures err { OnErr result (self.new ≡ self.old) }
    {
        reserve(&mut self.spots, live + 2)?;
        self.slots.push_pair(first, second)
    }

    // Lets a live row be live no more.
    pub(crate) fn clear(&mut self, id: RowId)
        requires { IsTrue (is_some (place_at self.old id)) }
        ensures { self.new ≡ slice_set self.old id None }
    {
        self.slots.clear(id);
    }

    // Gives a live row another block, the first one that no row has. This takes no memory.
    pub(crate) fn set_block(&mut self, id: RowId, block: usize)
        requires live { IsTrue (is_some (place_at self.old id)) }
        requires number { IsFirstFree (blocks_of self.old) block }
        ensures { self.new ≡ slice_set self.old id (option_map (with_block (Some block)) (place_at self.old id)) }
    {
        let place = self.place_of(id);
        write(&mut self.spots, block, Spot::new(place.start, place.len));
        self.slots.set_block(id, block);
    }

    // Gives a live row another place, which is no further on.
    pub(crate) fn set_start(&mut self, id: RowId, start: usize)
        requires live { IsTrue (is_some (place_at self.old id)) }
        requires down { IfSome (place_at self.old id) (λ p. start ≤ p.start) }
        ensures { self.new ≡ slice_set self.old id (option_map (moved_to start) (place_at self.old id)) }
    {
        match self.slots.place_of(id).block {
            None => self.slots.set_start(id, start),
            Some(block) => move_to(&mut self.spots, block, start),
        }
    }

    // Leaves so many ids. This takes no memory.
    pub(crate) fn truncate(&mut self, count: usize)
        ensures { self.new ≡ take count self.old }
    {
        self.slots.truncate(count);
    }

    // Lets go of slots without a live row. This takes no memory, and time in proportion to the slots.
    pub(crate) fn trim(&mut self)
        ensures { self.new ≡ self.old }
    {
        self.slots.trim();
    }
}

// The place of a row that has a block, and this spot.
#[inline(always)]
fn stand(spot: Spot, block: usize) -> Place
    ensures value { result ≡ spotted spot block }
    ensures start { result.start < 1099511627776 }
    ensures len { result.len < 16777216 }
{
    Place {
        start: spot.start(),
        len: spot.len(),
        block: Some(block),
    }
}

// Makes room for so many spots, those there are among them. With no memory the spots stay as they were.
fn reserve(spots: &mut Vec<Spot>, count: usize) -> Result<(), AllocError>
    ensures items { spots.new.items ≡ spots.old.items }
    ensures room { vec_capacity spots.old ≤ vec_capacity spots.new }
    ensures ok { OnOk result (count ≤ vec_capacity spots.new) }
{
    spots.reserve(count.saturating_sub(spots.len()))
}

// Writes the spot under a block's number, which is that of one of these or the next one. There is room for it.
fn write(spots: &mut Vec<Spot>, block: usize, spot: Spot)
    requires next { block ≤ length spots.old.items }
    requires room { block < vec_capacity spots.old }
    ensures here { spot_at spots.new.items block ≡ spot }
    ensures others { (b : ℕ) → b ≢ block → spot_at spots.new.items b ≡ spot_at spots.old.items b }
    ensures count { length spots.old.items ≤ length spots.new.items }
    ensures within { block < length spots.new.items }
    ensures room { vec_capacity spots.old ≤ vec_capacity spots.new }
{
    if block < spots.len() {
        spots[block] = spot;
    } else {
        spots.push_reserved(spot);
    }
}

// Lets the spot under a block's number start at another place, which is no further on.
fn move_to(spots: &mut Vec<Spot>, block: usize, start: usize)
    requires within { block < length spots.old.items }
    requires down { start ≤ start_of (spot_at spots.old.items block).low (spot_at spots.old.items block).rest }
    ensures start { start_of (spot_at spots.new.items block).low (spot_at spots.new.items block).rest ≡ start }
    ensures len { len_of (spot_at spots.new.items block).rest ≡ len_of (spot_at spots.old.items block).rest }
    ensures others { (b : ℕ) → b ≢ block → spot_at spots.new.items b ≡ spot_at spots.old.items b }
    ensures count { length spots.new.items ≡ length spots.old.items }
    ensures room { vec_capacity spots.old ≤ vec_capacity spots.new }
{
    spots[block] = spots[block].moved_to(start);
}
