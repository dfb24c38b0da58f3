//! Blocks of link fields, for the rows that have links. The owner is in the block, and not in a list of its own: the
//! arena is moved out of the derivation and back at each look of a watch, and is 128 bytes so, where it would be 176.
ghost use Rattle.std.specs.Prelude.{◌≡◌, ◌≢◌, ℕ, ◌+◌, ◌-◌, ◌<◌, ◌≤◌, ◌∷◌, ◌++◌, [], None, Option, OnOk, Some, IsTrue, is_some, count_by, length, replicate, slice_index_or, slice_set};
ghost use Rattle.rows.specs.Arena.{set_three};
ghost use Rattle.rows.specs.Places.{Reblocks, blocks_of, most_blocks, place_at};
ghost use Rattle.rows.specs.Blocks.{AreBlocks, LosesBlock, block_at, block_in, links_in};

use super::places::set_block;
use super::rows::RowId;
use super::spots::Places;
use short_numbers::Numbers;
use std::alloc::{AllocError, Global};
use std::marker::Model;

// How many link fields a block has.
const LINKS: usize = 8;

// How many numbers a block takes: its link fields, and the row that owns it.
const BLOCK: usize = 9;

/// The values of three link fields, that of a number and the two behind it.
pub type ThreeLinks = (Option<usize>, Option<usize>, Option<usize>);

// Blocks, in 36 bytes each while their numbers are small. Contracts see them as a list, with how long it may be without
// more memory.
#[derive(Debug, Drop)]
pub(crate) struct Blocks {
    // The link fields of each block, and behind them the row that owns it, one block behind the other.
    numbers: Numbers,
}

impl Model for Blocks {
    ghost use Rattle.std.specs.Prelude.{◌/◌, length};
    ghost use Rattle.rows.specs.Blocks.{AreKept, BlocksState, blocks_from};

    ghost Value = { BlocksState };

    ghost view = { λ b. record {
      items = blocks_from (length b.numbers.items / 9) b.numbers.items;
      room = b.numbers.room / 9;
    } };

    ghost invariant = { λ b. AreKept b.numbers.items };
}

impl Blocks {
    // No blocks. This takes no memory.
    pub(crate) fn new(alloc: Global) -> Self
        ensures { result.items ≡ [] }
    {
        Self {
            numbers: Numbers::new(alloc),
        }
    }

    // How many blocks there are.
    pub(crate) fn len(&self) -> usize
        ensures { result ≡ length self.now.items }
    {
        self.numbers.len() / BLOCK
    }

    // The row that owns a block.
    fn owner(&self, block: usize) -> RowId
        requires { block < length self.now.items }
        ensures { result ≡ (block_at self.now.items block).owner }
    {
        match self.numbers.get(BLOCK * block + LINKS) {
            Some(owner) => owner,
            None => 0,
        }
    }

    // Reads a link field of a block.
    #[inline(always)]
    fn get(&self, block: usize, k: usize) -> Option<usize>
        requires field { k < 8 }
        requires block { block < length self.now.items }
        ensures { result ≡ slice_index_or (block_at self.now.items block).links k None }
    {
        self.numbers.get(BLOCK * block + k)
    }

    // Reads three link fields of a block.
    #[inline(always)]
    fn get_three(&self, block: usize, base: usize) -> ThreeLinks
        requires fields { base + 2 < 8 }
        requires block { block < length self.now.items }
        ensures first { result.0 ≡ slice_index_or (block_at self.now.items block).links base None }
        ensures second { result.1 ≡ slice_index_or (block_at self.now.items block).links (base + 1) None }
        ensures third { result.2 ≡ slice_index_or (block_at self.now.items block).links (base + 2) None }
    {
        (
            self.get(block, base),
            self.get(block, base + 1),
            self.get(block, base + 2),
        )
    }

    // Writes a link field of a block.
    #[inline(always)]
    pub(crate) fn set(&mut self, block: usize, k: usize, value: Option<usize>)
        requires field { k < 8 }
        requires block { block < length self.old.items }
        ensures items { self.new.items ≡ slice_set self.old.items block (record {
          owner = (block_at self.old.items block).owner;
          links = slice_set (block_at self.old.items block).links k value;
        }) }
        ensures room { self.old.room ≤ self.new.room }
        ensures eight { length (block_at self.old.items block).links ≡ 8 }
    {
        self.numbers.set(BLOCK * block + k, value);
    }

    // Writes three link fields of a block.
    #[inline(always)]
    pub(crate) fn set_three(&mut self, block: usize, base: usize, values: ThreeLinks)
        requires fields { base + 2 < 8 }
        requires block { block < length self.old.items }
        ensures items { self.new.items ≡ slice_set self.old.items block (record {
          owner = (block_at self.old.items block).owner;
          links = set_three base values (block_at self.old.items block).links;
        }) }
        ensures room { self.old.room ≤ self.new.room }
        ensures eight { length (block_at self.old.items block).links ≡ 8 }
    {
        self.set(block, base, values.0);
        self.set(block, base + 1, values.1);
        self.set(block, base + 2, values.2);
    }

    // Writes the first six link fields of a block.
    #[inline(always)]
    pub(crate) fn set_six(&mut self, block: usize, one: ThreeLinks, two: ThreeLinks)
        requires { block < length self.old.items }
        ensures items { self.new.items ≡ slice_set self.old.items block (record {
          owner = (block_at self.old.items block).owner;
          links = set_three 3 two (set_three 0 one (block_at self.old.items block).links);
        }) }
        ensures room { self.old.room ≤ self.new.room }
        ensures eight { length (block_at self.old.items block).links ≡ 8 }
    {
        self.set_three(block, 0, one);
        self.set_three(block, 3, two);
    }

    // Reads three link fields of a block, of which the first is none from then on.
    #[inline(always)]
    pub(crate) fn take_three(&mut self, block: usize, base: usize) -> ThreeLinks
        requires fields { base + 2 < 8 }
        requires block { block < length self.old.items }
        ensures first { result.0 ≡ slice_index_or (block_at self.old.items block).links base None }
        ensures second { result.1 ≡ slice_index_or (block_at self.old.items block).links (base + 1) None }
        ensures third { result.2 ≡ slice_index_or (block_at self.old.items block).links (base + 2) None }
        ensures items { self.new.items ≡ slice_set self.old.items block (record {
          owner = (block_at self.old.items block).owner;
          links = slice_set (block_at self.old.items block).links base None;
        }) }
        ensures room { self.old.room ≤ self.new.room }
        ensures eight { length (block_at self.old.items block).links ≡ 8 }
    {
        let links = self.get_three(block, base);
        self.set(block, base, None);
        links
    }

    // Makes room for more blocks. With no memory the blocks stay as they were.
    #[inline(always)]
    pub(crate) fn reserve(&mut self, more: usize) -> Result<(), AllocError>
        requires { more ≤ most_blocks }
        ensures items { self.new.items ≡ self.old.items }
        ensures room { self.old.room ≤ self.new.room }
        ensures ok { OnOk result (length self.old.items + more ≤ self.new.room) }
    {
        self.numbers.reserve(BLOCK * more)
    }

    // Puts the block of a row in that has no link. There is room for it.
    fn push(&mut self, owner: RowId)
        requires room { length self.old.items + 1 ≤ self.old.room }
        requires few { length self.old.items + 1 ≤ most_blocks }
        ensures items { self.new.items ≡ self.old.items ++ (record { owner = owner; links = replicate 8 None }) ∷ [] }
        ensures room { self.old.room ≤ self.new.room }
    {
        let at = self.numbers.len();
        self.numbers.push_none(BLOCK);
        self.numbers.set(at + LINKS, Some(owner));
    }

    // Takes a block out. The last one comes into its place.
    fn remove(&mut self, block: usize)
        requires { block < length self.old.items }
        ensures count { length self.new.items + 1 ≡ length self.old.items }
        ensures moved { block + 1 < length self.old.items
            → block_at self.new.items block ≡ block_at self.old.items (length self.old.items - 1) }
        ensures others { (k : ℕ) → k ≢ block → k + 1 < length self.old.items
            → block_at self.new.items k ≡ block_at self.old.items k }
        ensures room { self.old.room ≤ self.new.room }
    {
        self.numbers.move_last(BLOCK * block, BLOCK);
    }
}

// Reads a link field of a row with this block, if it has one.
#[inline(always)]
pub(crate) fn read(blocks: &Blocks, block: Option<usize>, k: usize) -> Option<usize>
    requires field { k < 8 }
    requires block { (b : ℕ) → block ≡ Some b → b < length blocks.now.items }
    ensures { result ≡ slice_index_or (links_in blocks.now.items block) k None }
{
    match block {
        None => None,
        Some(block) => blocks.get(block, k),
    }
}

// Reads three link fields of a row with this block, if it has one.
#[inline(always)]
pub(crate) fn read_three(blocks: &Blocks, block: Option<usize>, base: usize) -> ThreeLinks
    requires fields { base + 2 < 8 }
    requires block { (b : ℕ) → block ≡ Some b → b < length blocks.now.items }
    ensures first { result.0 ≡ slice_index_or (links_in blocks.now.items block) base None }
    ensures second { result.1 ≡ slice_index_or (links_in blocks.now.items block) (base + 1) None }
    ensures third { result.2 ≡ slice_index_or (links_in blocks.now.items block) (base + 2) None }
{
    match block {
        None => (None, None, None),
        Some(block) => blocks.get_three(block, base),
    }
}

// The block of a live row. Where it has none it gets one, for which there is room.
#[inline(always)]
pub(crate) fn block_for(places: &mut Places, blocks: &mut Blocks, id: RowId) -> usize
    requires live { IsTrue (is_some (place_at places.old id)) }
    requires blocks { AreBlocks (blocks_of places.old) blocks.old.items }
    requires room { count_by is_some (blocks_of places.old) ≤ blocks.old.room }
    requires few { count_by is_some (blocks_of places.old) ≤ most_blocks }
    ensures block { block_in (blocks_of places.new) id ≡ Some (Some result) }
    ensures blocks { AreBlocks (blocks_of places.new) blocks.new.items }
    ensures same { Reblocks places.old places.new }
    ensures live { count_by is_some (blocks_of places.new) ≡ count_by is_some (blocks_of places.old) }
    ensures links { (i : ℕ) (b c : Option ℕ) → block_in (blocks_of places.old) i ≡ Some b →
        block_in (blocks_of places.new) i ≡ Some c → links_in blocks.new.items c ≡ links_in blocks.old.items b }
    ensures room { blocks.old.room ≤ blocks.new.room }
{
    match places.place_of(id).block {
        Some(block) => block,
        None => give_block(places, blocks, id),
    }
}

// Gives a row that has none a block, for which there is room.
#[cold]
#[inline(never)]
fn give_block(places: &mut Places, blocks: &mut Blocks, id: RowId) -> usize
    requires live { block_in (blocks_of places.old) id ≡ Some None }
    requires blocks { AreBlocks (blocks_of places.old) blocks.old.items }
    requires room { count_by is_some (blocks_of places.old) ≤ blocks.old.room }
    requires few { count_by is_some (blocks_of places.old) ≤ most_blocks }
    ensures result { result ≡ length blocks.old.items }
    ensures block { blocks_of places.new ≡ slice_set (blocks_of places.old) id (Some (Some result)) }
    ensures blocks { blocks.new.items ≡ blocks.old.items ++ (record { owner = id; links = replicate 8 None }) ∷ [] }
    ensures same { Reblocks places.old places.new }
    ensures room { blocks.old.room ≤ blocks.new.room }
{
    let block = blocks.len();
    blocks.push(id);
    set_block(places, id, block);
    block
}

// Takes a live row out. Where it has a block, the last block comes into its place.
pub(crate) fn forget(places: &mut Places, blocks: &mut Blocks, id: RowId)
    requires live { IsTrue (is_some (place_at places.old id)) }
    requires blocks { AreBlocks (blocks_of places.old) blocks.old.items }
    requires few { count_by is_some (blocks_of places.old) ≤ most_blocks }
    ensures loses { LosesBlock (blocks_of places.old) blocks.old.items (blocks_of places.new)
        blocks.new.items id }
    ensures same { Reblocks (slice_set places.old id None) places.new }
    ensures live { count_by is_some (blocks_of places.new) + 1 ≡ count_by is_some (blocks_of places.old) }
    ensures room { blocks.old.room ≤ blocks.new.room }
{
    let place = places.place_of(id);
    places.clear(id);
    let Some(block) = place.block else {
        return;
    };
    blocks.remove(block);
    if block < blocks.len() {
        let owner = blocks.owner(block);
        set_block(places, owner, block);
    }
}
