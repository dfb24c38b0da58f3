//! The slots of all ids, in which a place has either a block or a start and a length. The gap makes work that comes
//! back to the rows that it had keep nothing for the ids between. With pages for all ids each look would go through one
//! table more: that was measured, with 23 % more instructions on twelve formulas.
ghost use Rattle.std.specs.Prelude.{◌≡◌, ◌∷◌, ◌++◌, ◌<◌, ◌≤◌, [], None, IfSome, IsTrue, OnErr, OnOk, is_some, length, slice_set, take};
ghost use Rattle.std.specs.Option.{option_map};
ghost use Rattle.rows.specs.Places.{AreDead, Swaps, moved_to, most_blocks, only_block, place_at};

use super::places::Place;
use super::rows::RowId;
use super::slots::Slot;
use memory::NoMemory;
use std::alloc::Global;
use std::marker::Model;

// The slots of all ids given, in their order, but for the ids of one gap, none of whose rows is live: they need none.
#[derive(Debug, Drop)]
pub(crate) struct Table {
    // How many ids stand in front of the gap. The first slots are theirs.
    split: usize,
    // How many ids stand in the gap.
    gone: usize,
    // The slots of all other ids.
    slots: Vec<Slot>,
}

// Ids, or slots, that follow one another: the first one, and the one behind the last.
#[derive(Clone, Copy, Debug)]
pub(crate) struct Run {
    pub start: usize,
    pub end: usize,
}

impl Model for Table {
    ghost use Rattle.std.specs.Prelude.{List, Option, length, ◌+◌, ◌<◌, ◌≤◌, ◌^◌};
    ghost use Rattle.rows.specs.declared.places.Place.{Place};

    ghost Value = { List (Option Place) };

    ghost use Rattle.rows.specs.Places.{around_gone};

    ghost view = { λ t. around_gone t.split t.gone t.slots.items };

    ghost invariant = { λ t. (t.split ≤ length t.slots.items) × (t.gone + length t.slots.items < 2 ^ 64) };
}

impl Table {
    // The slots of no ids. This takes no memory.
    pub(crate) fn new(alloc: Global) -> Self
        ensures { result ≡ [] }
    {
        Self {
            split: 0,
            gone: 0,
            slots: Vec::new(alloc),
        }
    }

    // How many ids there are.
    #[inline]
    pub(crate) fn len(&self) -> usize
        ensures { result ≡ length self.now }
    {
        self.gone + self.slots.len()
    }

    // How many ids have a slot.
    pub(crate) fn kept(&self) -> usize {
        self.slots.len()
    }

    // The ids that have no slot.
    pub(crate) fn gap(&self) -> Run
        ensures { AreDead self.now result.start result.end }
    {
        Run {
            start: self.split,
            end: self.split + self.gone,
        }
    }

    // Whether the row of an id is live.
    #[inline]
    pub(crate) fn is_live(&self, id: RowId) -> bool
        ensures { result ≡ is_some (place_at self.now id) }
    {
        // The difference wraps round for the ids in front of the gap, so that one test is enough.
        if id.wrapping_sub(self.split) < self.gone {
            return false;
        }
        match self.slots.get(id - gone_before(id, self.split, self.gone)) {
            Some(slot) => slot.is_live(),
            None => false,
        }
    }

    // The place of a live row. Where it has a block, only that is told.
    #[inline(always)]
    pub(crate) fn place_of(&self, id: RowId) -> Place
        requires { IsTrue (is_some (place_at self.now id)) }
        ensures value { place_at self.now id ≡ Some result }
        ensures start { result.start < 1099511627776 }
        ensures len { result.len < 16777216 }
    {
        match self.slots[id - gone_before(id, self.split, self.gone)].place() {
            Some(place) => place,
            None => unreachable!(),
        }
    }

    // Puts the slot of the next id in. With no memory nothing changes.
    #[inline(always)]
    pub(crate) fn push(&mut self, slot: Slot) -> Result<(), NoMemory>
        ensures ok { OnOk result (self.new ≡ self.old ++ slot ∷ []) }
        ensures err { OnErr result (self.new ≡ self.old) }
    {
        if self.len() == usize::MAX {
            return Err(NoMemory);
        }
        self.slots.push(slot)?;
        Ok(())
    }

    // Puts two slots in as two calls of `push` do, or none.
    pub(crate) fn push_pair(&mut self, first: Slot, second: Slot) -> Result<(), NoMemory>
        ensures ok { OnOk result (self.new ≡ (self.old ++ first ∷ []) ++ second ∷ []) }
        ensures err { OnErr result (self.new ≡ self.old) }
    {
        let count = self.len();
        self.push(first)?;
        if self.push(second).is_err() {
            self.truncate(count);
            return Err(NoMemory);
        }
        Ok(())
    }

    // Lets a live row be live no more.
    pub(crate) fn clear(&mut self, id: RowId)
        requires { IsTrue (is_some (place_at self.old id)) }
        ensures { self.new ≡ slice_set self.old id None }
    {
        self.slots[id - gone_before(id, self.split, self.gone)].clear();
    }

    // Gives a live row a block, of which alone its slot tells from then on.
    pub(crate) fn set_block(&mut self, id: RowId, block: usize)
        requires live { IsTrue (is_some (place_at self.old id)) }
        requires fits { block < most_blocks }
        ensures { self.new ≡ slice_set self.old id (Some (only_block block)) }
    {
        self.slots[id - gone_before(id, self.split, self.gone)].set_block(block);
    }

    // Gives a live row without a block another place, which is no further on.
    pub(crate) fn set_start(&mut self, id: RowId, start: usize)
        requires live { IsTrue (is_some (place_at self.old id)) }
        requires own { IfSome (place_at self.old id) (λ p. p.block ≡ None) }
        requires down { IfSome (place_at self.old id) (λ p. start ≤ p.start) }
        ensures { self.new ≡ slice_set self.old id (option_map (moved_to start) (place_at self.old id)) }
    {
        self.slots[id - gone_before(id, self.split, self.gone)].set_start(start);
    }

    // Leaves so many ids. This takes no memory.
    pub(crate) fn truncate(&mut self, count: usize)
        ensures { self.new ≡ take count self.old }
    {
        if count < self.split {
            self.split = 0;
            self.gone = 0;
            self.slots.truncate(count);
        } else if count - self.split < self.gone {
            self.gone = count - self.split;
            self.slots.truncate(self.split);
        } else {
            self.slots.truncate(count - self.gone);
        }
    }

    // Lets go of slots without a live row. This takes no memory, and time in proportion to the slots.
    pub(crate) fn trim(&mut self)
        ensures { self.new ≡ self.old }
    {
        self.move_gap();
        self.widen_gap();
    }

    // Lets the gap begin where the longest run of slots without a live row does, if it stands in or beside that. Else
    // it goes there if the run is longer than the gap, and at least half of all slots: as many slots of the run go to
    // the ids of the gap that was.
    fn move_gap(&mut self)
        ensures { self.new ≡ self.old }
    {
        let run = longest_dead(&self.slots);
        if run.start <= self.split && self.split <= run.end {
            self.split = run.start;
            return;
        }
        let dead = run.end - run.start;
        if dead <= self.gone || dead < self.slots.len() - dead {
            return;
        }
        if self.split < run.start {
            swap_parts(
                &mut self.slots,
                self.split,
                run.start,
                run.start + self.gone,
            );
            self.split = run.start + self.gone;
            return;
        }
        swap_parts(
            &mut self.slots,
            run.start,
            run.start + self.gone,
            self.split,
        );
        self.split = run.start;
    }

    // Lets the gap take in the ids right behind it whose rows aren't live.
    fn widen_gap(&mut self)
        ensures { self.new ≡ self.old }
    {
        let end = dead_behind(&self.slots, self.split);
        let dead = end - self.split;
        let count = self.slots.len();
        swap_parts(&mut self.slots, self.split, end, count);
        self.slots.truncate(count - dead);
        self.gone += dead;
    }
}

// How many ids without a slot stand in front of an id that has one.
#[inline(always)]
fn gone_before(id: RowId, split: usize, gone: usize) -> usize
    ensures front { id < split → result ≡ 0 }
    ensures behind { split ≤ id → result ≡ gone }
{
    if id < split { 0 } else { gone }
}

// Lets two parts of a list that stand side by side change places.
fn swap_parts(slots: &mut Vec<Slot>, start: usize, middle: usize, end: usize)
    requires first { start ≤ middle }
    requires second { middle ≤ end }
    requires within { end ≤ length slots.old.items }
    ensures swapped { Swaps slots.old.items slots.new.items start middle end }
    ensures count { length slots.new.items ≡ length slots.old.items }
{
    slots[start..end].rotate_left(middle - start);
}

// The end of the slots without a live row from there on.
fn dead_behind(slots: &Vec<Slot>, start: usize) -> usize
    requires { start ≤ length slots.now.items }
    ensures { AreDead slots.now.items start result }
{
    for at in start..slots.len() {
        if slots[at].is_live() {
            return at;
        }
    }
    slots.len()
}

// The longest run of slots without a live row.
fn longest_dead(slots: &Vec<Slot>) -> Run
    ensures { AreDead slots.now.items result.start result.end }
{
    let mut longest = Run { start: 0, end: 0 };
    // Where the run begins that reaches up to here.
    let mut start = 0;
    for at in 0..slots.len() {
        if slots[at].is_live() {
            start = at + 1;
        } else if at - start >= longest.end - longest.start {
            longest = Run { start, end: at + 1 };
        }
    }
    longest
}
