//! A set of scopes, in which the next scope outside it is found without walking those in it.
ghost use Rattle.std.specs.Prelude.{◌≡◌, ℕ, ◌+◌, ◌-◌, ◌*◌, ◌^◌, ◌<◌, ◌≤◌, [], ◌++◌, length, true, false, replicate, slice_set, IsTrue, OnOk, OnErr};
ghost use Rattle.trail.specs.Finished.{emptied, is_in, with_before, AreIn};
ghost use Rattle.trail.specs.Open.{finished_with};

use std::alloc::{AllocError, Global};
use std::marker::Model;

// How many places a block has, and how many blocks a region.
const BLOCK: usize = 64;

/// A set of scopes by their numbers less 1. Contracts see it as the list that says of each place whether it is in the
/// set.
///
/// The places of a block of 64 that is marked are all in the set, and so are the blocks of a region of 64. So to pass
/// over up to 2^18 places looks at no more than 320 marks.
#[derive(Debug, Drop)]
pub(crate) struct Finished {
    places: Vec<bool>,
    blocks: Vec<bool>,
    regions: Vec<bool>,
}

impl Model for Finished {
    ghost use Rattle.std.specs.Prelude.{List, Bool};

    ghost Value = { List Bool };

    ghost use Rattle.trail.specs.Finished.{AreBlocks};

    ghost view = { λ f. f.places.items };

    ghost invariant = { λ f. AreBlocks f.places.items f.blocks.items × AreBlocks f.blocks.items f.regions.items };
}

impl Finished {
    // An empty set without places.
    pub(crate) fn new(alloc: Global) -> Self
        ensures { result ≡ [] }
    {
        Self {
            places: Vec::new(alloc),
            blocks: Vec::new(alloc),
            regions: Vec::new(alloc),
        }
    }

    // Makes places up to this number of them, which aren't in the set. With no memory it stays as it was.
    pub(crate) fn widen(&mut self, places: usize) -> Result<(), AllocError>
        ensures ok { OnOk result (self.new ≡ self.old ++ replicate (places - length self.old) false) }
        ensures err { OnErr result (self.new ≡ self.old) }
    {
        grow(&mut self.regions, places.div_ceil(BLOCK * BLOCK))?;
        grow(&mut self.blocks, places.div_ceil(BLOCK))?;
        grow(&mut self.places, places)
    }

    // Puts a place in, unless it is past the end.
    pub(crate) fn put(&mut self, place: usize)
        ensures { self.new ≡ slice_set self.old place true }
    {
        if place >= self.places.len() {
            return;
        }
        self.places[place] = true;
        let block = place / BLOCK;
        if is_block_full(&self.places, block) && block < self.blocks.len() {
            self.blocks[block] = true;
            let region = block / BLOCK;
            if is_block_full(&self.blocks, region) && region < self.regions.len() {
                self.regions[region] = true;
            }
        }
    }

    // Puts all places before `end` in, which takes time for those alone that weren't.
    pub(crate) fn put_before(&mut self, end: usize)
        requires { end < 2 ^ 32 }
        ensures { self.new ≡ with_before end self.old }
    {
        let last = end.min(self.places.len());
        let mut place = self.next_outside(0);
        while place < last {
            self.put(place);
            place = self.next_outside(place + 1);
        }
    }

    // Puts in the scope with this number where it is full, and each earlier one once it is decided in it.
    pub(crate) fn note(&mut self, is_full: bool, is_decided: bool, depth: usize)
        requires first { 1 ≤ depth }
        requires small { depth < 2 ^ 32 }
        ensures { self.new ≡ finished_with is_full is_decided depth self.old }
    {
        if is_full {
            self.put(depth - 1);
        }
        if is_decided {
            self.put_before(depth - 1);
        }
    }

    // Takes a place out.
    pub(crate) fn take_out(&mut self, place: usize)
        ensures { self.new ≡ slice_set self.old place false }
    {
        unmark(&mut self.regions, place / BLOCK / BLOCK);
        unmark(&mut self.blocks, place / BLOCK);
        unmark(&mut self.places, place);
    }

    // Takes all places out.
    pub(crate) fn clear(&mut self)
        ensures { self.new ≡ emptied self.old }
    {
        self.regions.fill(false);
        self.blocks.fill(false);
        self.places.fill(false);
    }

    // A place from `from` on, up to which all from there on are in the set: the next one that isn't, in up to 2^18
    // places.
    #[inline(always)]
    pub(crate) fn next_outside(&self, from: usize) -> usize
        requires { from < 2 ^ 32 }
        ensures least { from ≤ result }
        ensures near { result ≤ from + 2 ^ 20 }
        ensures passed { AreIn self.now from result }
    {
        let place = first_unmarked(&self.places, from, block_end(from));
        let block = place / BLOCK;
        let next = first_unmarked(&self.blocks, block, block_end(block));
        let region = next / BLOCK;
        let far = first_unmarked(&self.regions, region, block_end(region));
        let block = next.max(far * BLOCK);
        let last = first_unmarked(&self.blocks, block, block_end(block));
        let place = place.max(last * BLOCK);
        first_unmarked(&self.places, place, block_end(place))
    }
}

// The first place of the next block.
fn block_end(place: usize) -> usize
    requires { place < 2 ^ 40 }
    ensures above { place < result }
    ensures near { result ≤ place + 64 }
{
    (place / BLOCK + 1) * BLOCK
}

// The first place from `from` up to `to` that isn't marked, or `to`.
fn first_unmarked(marks: &[bool], from: usize, to: usize) -> usize
    requires { from ≤ to }
    ensures least { from ≤ result }
    ensures most { result ≤ to }
    ensures passed { AreIn marks.now from result }
{
    let mut place = from;
    while place < to && is_marked(marks, place) {
        place += 1;
    }
    place
}

// Whether all places of a block are marked.
fn is_block_full(marks: &[bool], block: usize) -> bool
    requires { block < 2 ^ 57 }
    ensures { IsTrue result → AreIn marks.now (block * 64) (block * 64 + 64) }
{
    let start = block * BLOCK;
    first_unmarked(marks, start, start + BLOCK) == start + BLOCK
}

// Whether a place is marked.
fn is_marked(marks: &[bool], place: usize) -> bool
    ensures { result ≡ is_in marks.now place }
{
    match marks.get(place) {
        Some(mark) => *mark,
        None => false,
    }
}

// Takes the mark of a place away.
fn unmark(marks: &mut Vec<bool>, place: usize)
    ensures { marks.new.items ≡ slice_set marks.old.items place false }
{
    if place < marks.len() {
        marks[place] = false;
    }
}

// Makes places up to this number of them, without marks.
fn grow(marks: &mut Vec<bool>, places: usize) -> Result<(), AllocError>
    ensures same { (i : ℕ) → is_in marks.new.items i ≡ is_in marks.old.items i }
    ensures ok { OnOk result (marks.new.items ≡ marks.old.items ++ replicate (places - length marks.old.items) false) }
    ensures err { OnErr result (marks.new.items ≡ marks.old.items) }
{
    if marks.len() < places {
        marks.resize(places, false)?;
    }
    Ok(())
}
