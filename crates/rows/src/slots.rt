//! Places as they are kept, in 8 bytes each, and 8 bytes more for a row that has a block.
ghost use Rattle.std.specs.Prelude.{◌≡◌, ◌+◌, ◌<◌, ◌≤◌, IfOk, IfSome, OnOk, IsTrue, None, Some, is_some, length};
ghost use Rattle.std.specs.Option.{option_map};
ghost use Rattle.rows.specs.Places.{len_of, moved_to, most_blocks, only_block, start_of};

use super::places::Place;
use memory::NoMemory;
use prefix::Lit;
use std::marker::Model;

// What stands in place of a length, and of a start's first bits, for a row that has a block.
const HAS_BLOCK: u32 = u32::MAX - 1;

// What stands in place of a length for a row that isn't live.
const NOT_LIVE: u32 = u32::MAX;

// How many blocks there may be.
const MOST_BLOCKS: usize = HAS_BLOCK as usize;

// How many starts a slot can tell of, those of 40 bits.
const STARTS: usize = 1 << 40;

// How many lengths a slot can tell of, those of 24 bits but for the last one, which the two numbers above have.
const LENGTHS: usize = (1 << 24) - 1;

// How many starts there are with the same bits before the last 32.
const LOW: usize = 1 << 32;

// How many values those bits have.
const HIGH: u32 = 1 << 8;

// Where the literals of a row stand.
#[derive(Clone, Copy, Debug)]
pub(crate) struct Spot {
    // The last 32 bits of where they start.
    pub low: u32,
    // How many there are, and, in the last 8 bits, the bits of the start before its last 32.
    pub rest: u32,
}

// The place of a row, or that the row isn't live. A row without a block has its spot here, and one with a block has
// only the block's number here, its spot elsewhere.
#[derive(Debug, Drop)]
pub(crate) struct Slot {
    // The first number of the spot, or the block's number.
    low: u32,
    // The second number of the spot, or that the row has a block, or that it isn't live.
    rest: u32,
}

impl Model for Slot {
    ghost use Rattle.std.specs.Prelude.{Option};
    ghost use Rattle.rows.specs.declared.places.Place.{Place};

    ghost Value = { Option Place };

    ghost use Rattle.rows.specs.Places.{slot_of};

    ghost view = { λ s. slot_of s.low s.rest };
}

// The slot of a row with these literals, which stand from there on, and without a block. There is no memory for a
// longer row than a slot can tell of, nor for one further on.
pub(crate) fn slot_from(start: usize, lits: &[Lit]) -> Result<Slot, NoMemory>
    ensures { IfOk result (λ slot. slot ≡ Some (record { start = start; len = length lits.now; block = None })) }
{
    if start >= STARTS || lits.len() >= LENGTHS {
        return Err(NoMemory);
    }
    Ok(Slot::new(start, lits.len()))
}

// Whether there are numbers for the blocks of all live rows with some more of them. There is no memory for others.
pub(crate) fn within(live: usize, more: usize) -> Result<(), NoMemory>
    requires { more ≤ 2 }
    ensures { OnOk result (live + more ≤ most_blocks) }
{
    if live > MOST_BLOCKS - more {
        return Err(NoMemory);
    }
    Ok(())
}

impl Spot {
    // The spot of so many literals from there on.
    pub(crate) fn new(start: usize, len: usize) -> Self
        requires place { start < 1099511627776 }
        requires short { len < 16777216 }
        ensures start { start_of result.low result.rest ≡ start }
        ensures len { len_of result.rest ≡ len }
    {
        Self {
            low: (start % LOW) as u32,
            rest: len as u32 * HIGH + (start / LOW) as u32,
        }
    }

    // Where the literals start.
    #[inline(always)]
    pub(crate) fn start(self) -> usize
        ensures value { result ≡ start_of self.low self.rest }
        ensures place { result < 1099511627776 }
    {
        (self.rest % HIGH) as usize * LOW + self.low as usize
    }

    // How many literals there are.
    #[inline(always)]
    pub(crate) fn len(self) -> usize
        ensures value { result ≡ len_of self.rest }
        ensures short { result < 16777216 }
    {
        (self.rest / HIGH) as usize
    }

    // The spot of as many literals that start no further on.
    pub(crate) fn moved_to(self, start: usize) -> Self
        requires down { start ≤ start_of self.low self.rest }
        ensures start { start_of result.low result.rest ≡ start }
        ensures len { len_of result.rest ≡ len_of self.rest }
        ensures rest { result.rest ≤ self.rest }
    {
        Self {
            low: (start % LOW) as u32,
            rest: self.rest / HIGH * HIGH + (start / LOW) as u32,
        }
    }
}

impl Slot {
    // The slot of a row without a block.
    pub(crate) fn new(start: usize, len: usize) -> Self
        requires place { start < 1099511627776 }
        requires short { len < 16777215 }
        ensures { result ≡ Some (record { start = start; len = len; block = None }) }
    {
        let spot = Spot::new(start, len);
        Self {
            low: spot.low,
            rest: spot.rest,
        }
    }

    // Whether the row is live.
    #[inline]
    pub(crate) fn is_live(&self) -> bool
        ensures { result ≡ is_some self.now }
    {
        self.rest != NOT_LIVE
    }

    // The place of the row, if it is live. Where it has a block, only that is told.
    #[inline(always)]
    pub(crate) fn place(&self) -> Option<Place>
        ensures value { result ≡ self.now }
        ensures small { IfSome result (λ p. (p.start < 1099511627776) × (p.len < 16777216)) }
    {
        if self.rest == NOT_LIVE {
            return None;
        }
        if self.rest == HAS_BLOCK {
            return Some(Place {
                start: 0,
                len: 0,
                block: Some(self.low as usize),
            });
        }
        let spot = Spot {
            low: self.low,
            rest: self.rest,
        };
        Some(Place {
            start: spot.start(),
            len: spot.len(),
            block: None,
        })
    }

    // Lets the row be no live one.
    pub(crate) fn clear(&mut self)
        ensures { self.new ≡ None }
    {
        self.rest = NOT_LIVE;
    }

    // Gives a row a block, of which alone the slot tells from then on.
    pub(crate) fn set_block(&mut self, block: usize)
        requires { block < most_blocks }
        ensures { self.new ≡ Some (only_block block) }
    {
        self.low = block as u32;
        self.rest = HAS_BLOCK;
    }

    // Gives a live row without a block another place, which is no further on.
    pub(crate) fn set_start(&mut self, start: usize)
        requires live { IsTrue (is_some self.old) }
        requires own { IfSome self.old (λ p. p.block ≡ None) }
        requires down { IfSome self.old (λ p. start ≤ p.start) }
        ensures { self.new ≡ option_map (moved_to start) self.old }
    {
        let spot = Spot {
            low: self.low,
            rest: self.rest,
        };
        let spot = spot.moved_to(start);
        self.low = spot.low;
        self.rest = spot.rest;
    }
}
