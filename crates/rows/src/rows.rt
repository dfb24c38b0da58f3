//! The arena.
ghost use Rattle.std.specs.Prelude.{◌≡◌, ◌↔◌, ◌<◌, ◌≤◌, ◌+◌, ℕ, [], ◌∷◌, take, IsFalse, IsTrue, Some, None, IfOk, OnOk, OnErr, length, slice_set, count_by, is_some};
ghost use Rattle.rows.specs.Arena.{ChangesAt, ChangesLink, ChangesLinks, next_id, row_at, is_live, literals_at, link_at, new_row, with_row, without_row, with_link, with_links};

use super::blocks::{Blocks, ThreeLinks, block_for, forget, read, read_three};
use super::places::{put, slide};
use super::slots::{slot_from, within};
use super::spots::Places;
use memory::NoMemory;
use prefix::Lit;
use std::alloc::Global;
use std::marker::Model;

/// The id of a row, from 0. It is never given twice, unless it was taken back.
pub type RowId = usize;

/// An arena of rows, clauses and cubes alike. Contracts see it as the list that has, for each id given so far, the
/// row that is live under it.
///
/// Each row has its literals, which never change, and eight link fields, numbered from 0, for lists that are threaded
/// through the rows. Every call takes constant time, but `add` and `add_pair`, which copy the literals, and `compact`,
/// which goes over all ids but those of one gap, none of whose rows is live.
///
/// The literals of all rows stand in one list. A row that goes leaves a hole there, until `compact` or `tidy` moves the
/// others together, and makes the gap as long as it can. A row takes 8 bytes beside its literals, until it has a link.
/// Room for what it takes then, its link fields and 8 bytes more, is taken as rows come in, and written only for rows
/// that have had a link.
#[derive(Debug, Drop)]
pub struct Rows {
    // The literals of the rows, in the order of their ids.
    lits: Vec<Lit>,
    // Where the row of each id stands, if it is live.
    places: Places,
    // The link fields of the rows that have had a link, with room for those of all live rows.
    blocks: Blocks,
    // How many rows are live.
    live: usize,
    // How many rows went since the others were moved together.
    holes: usize,
}

impl Model for Rows {
    ghost use Rattle.std.specs.Prelude.{length};
    ghost use Rattle.rows.specs.Arena.{Arena};

    ghost Value = { Arena };

    ghost use Rattle.rows.specs.Stored.{AreStored, arena_of};

    ghost view = { λ a. arena_of a.lits.items a.blocks.items a.places };

    ghost invariant = { λ a. AreStored (length a.lits.items) a.places a.blocks.items a.live a.blocks.room };
}

impl Rows {
    /// An arena of no rows. This takes no memory.
    pub fn new(alloc: Global) -> Self
        ensures { result ≡ [] }
    {
        Self {
            lits: Vec::new(alloc),
            places: Places::new(alloc),
            blocks: Blocks::new(alloc),
            live: 0,
            holes: 0,
        }
    }

    /// The id that the next row gets, which is greater than every id given.
    pub fn next_id(&self) -> RowId
        ensures { result ≡ next_id self.now }
    {
        self.places.len()
    }

    /// How many rows are live.
    pub fn live(&self) -> usize
        ensures { result ≡ count_by is_some self.now }
    {
        self.live
    }

    /// Whether a row is live under an id, which may be any number.
    pub fn is_live(&self, id: RowId) -> bool
        ensures { result ≡ is_live self.now id }
    {
        self.places.is_live(id)
    }

    /// The literals of a live row, in the order in which they came.
    #[inline]
    pub fn lits(&self, id: RowId) -> &[Lit]
        requires { IsTrue (is_live self.now id) }
        ensures { result.now ≡ literals_at self.now id }
    {
        let place = self.places.place_of(id);
        &self.lits[place.start..place.start + place.len]
    }

    /// A link field of a live row.
    #[inline(always)]
    pub fn link(&self, id: RowId, k: usize) -> Option<usize>
        requires live { IsTrue (is_live self.now id) }
        requires field { k < 8 }
        ensures { result ≡ link_at self.now id k }
    {
        read(&self.blocks, self.places.place_of(id).block, k)
    }

    /// Three link fields of a live row, that of a number and the two behind it.
    #[inline(always)]
    pub fn links_from(&self, id: RowId, base: usize) -> ThreeLinks
        requires live { IsTrue (is_live self.now id) }
        requires fields { base + 2 < 8 }
        ensures first { result.0 ≡ link_at self.now id base }
        ensures second { result.1 ≡ link_at self.now id (base + 1) }
        ensures third { result.2 ≡ link_at self.now id (base + 2) }
    {
        read_three(&self.blocks, self.places.place_of(id).block, base)
    }

    /// Writes a link field of a live row, and changes nothing else.
    #[inline(always)]
    pub fn set_link(&mut self, id: RowId, k: usize, value: Option<usize>)
        requires live { IsTrue (is_live self.old id) }
        requires field { k < 8 }
        ensures arena { self.new ≡ with_link self.old id k value }
        ensures rest { ChangesLink self.old self.new id k value }
        ensures next { next_id self.new ≡ next_id self.old }
    {
        let block = block_for(&mut self.places, &mut self.blocks, id);
        self.blocks.set(block, k, value);
    }

    /// Writes three link fields of a live row, that of a number and the two behind it, and changes nothing else.
    #[inline(always)]
    pub fn set_links(&mut self, id: RowId, base: usize, values: ThreeLinks)
        requires live { IsTrue (is_live self.old id) }
        requires fields { base + 2 < 8 }
        ensures arena { self.new ≡ with_links self.old id base values }
        ensures rest { ChangesLinks self.old self.new id base values }
        ensures next { next_id self.new ≡ next_id self.old }
    {
        let block = block_for(&mut self.places, &mut self.blocks, id);
        self.blocks.set_three(block, base, values);
    }

    /// Writes the first six link fields of a live row, three and three, and changes nothing else.
    #[inline(always)]
    pub fn set_six(&mut self, id: RowId, one: ThreeLinks, two: ThreeLinks)
        requires { IsTrue (is_live self.old id) }
        ensures arena { self.new ≡ with_links (with_links self.old id 0 one) id 3 two }
        ensures first { ChangesLinks self.old (with_links self.old id 0 one) id 0 one }
        ensures second { ChangesLinks (with_links self.old id 0 one) self.new id 3 two }
        ensures next { next_id self.new ≡ next_id self.old }
    {
        let block = block_for(&mut self.places, &mut self.blocks, id);
        self.blocks.set_six(block, one, two);
    }

    /// Three link fields of a live row, that of a number and the two behind it. The first of them is none from then on,
    /// and nothing else changes.
    #[inline(always)]
    pub fn take_links(&mut self, id: RowId, base: usize) -> ThreeLinks
        requires live { IsTrue (is_live self.old id) }
        requires fields { base + 2 < 8 }
        ensures first { result.0 ≡ link_at self.old id base }
        ensures second { result.1 ≡ link_at self.old id (base + 1) }
        ensures third { result.2 ≡ link_at self.old id (base + 2) }
        ensures arena { self.new ≡ with_link self.old id base None }
        ensures rest { ChangesLink self.old self.new id base None }
        ensures next { next_id self.new ≡ next_id self.old }
    {
        match self.places.place_of(id).block {
            None => (None, None, None),
            Some(block) => self.blocks.take_three(block, base),
        }
    }

    /// Puts in a row with a copy of these literals and no links, under the id that comes next. With no memory the
    /// arena stays as it was; there is none for a row of 2^24 - 1 literals or more, nor where 2^40 literals stand in
    /// the arena, nor for more than 2^32 - 2 live rows.
    #[inline(always)]
    pub fn add(&mut self, lits: &[Lit]) -> Result<RowId, NoMemory>
        ensures arena { IfOk result (λ id. (id ≡ next_id self.old) × (self.new ≡ with_row self.old lits.now)) }
        ensures rest { IfOk result (λ id. ChangesAt self.old self.new id (Some (new_row lits.now))) }
        ensures fresh { IfOk result (λ id. (row_at self.old id ≡ None) × (next_id self.new ≡ id + 1)) }
        ensures err { OnErr result (self.new ≡ self.old) }
    {
        let id = self.places.len();
        let slot = slot_from(self.lits.len(), lits)?;
        within(self.live, 1)?;
        self.blocks.reserve(self.live + 1 - self.blocks.len())?;
        self.lits.reserve(lits.len())?;
        self.places.push(self.live, slot)?;
        put(&mut self.lits, lits);
        self.live += 1;
        Ok(id)
    }

    /// Puts in two rows as two calls of `add` do, or none: with no memory the arena stays as it was.
    pub fn add_pair(&mut self, first: &[Lit], second: &[Lit]) -> Result<(RowId, RowId), NoMemory>
        ensures ids { IfOk result (λ ids. (ids.0 ≡ next_id self.old) × (ids.1 ≡ next_id self.old + 1)) }
        ensures arena { OnOk result (self.new ≡ with_row (with_row self.old first.now) second.now) }
        ensures err { OnErr result (self.new ≡ self.old) }
    {
        let id = self.places.len();
        let slot = slot_from(self.lits.len(), first)?;
        let next = slot_from(self.lits.len() + first.len(), second)?;
        within(self.live, 2)?;
        self.blocks.reserve(self.live + 2 - self.blocks.len())?;
        self.lits.reserve(first.len() + second.len())?;
        self.places.push_pair(self.live, slot, next)?;
        put(&mut self.lits, first);
        put(&mut self.lits, second);
        self.live += 2;
        Ok((id, self.places.len() - 1))
    }

    /// Takes a live row out, and no other. Its id isn't given again, unless it is taken back. This takes no memory.
    pub fn free(&mut self, id: RowId)
        requires { IsTrue (is_live self.old id) }
        ensures arena { self.new ≡ without_row self.old id }
        ensures rest { ChangesAt self.old self.new id None }
        ensures next { next_id self.new ≡ next_id self.old }
    {
        self.live -= 1;
        self.holes = self.holes.saturating_add(1);
        forget(&mut self.places, &mut self.blocks, id);
    }

    /// Takes back the ids from one on, under none of which a row is live: the next row gets that id. This takes no
    /// memory.
    pub fn take_back(&mut self, first: RowId)
        requires { (id : ℕ) → first ≤ id → IsFalse (is_live self.old id) }
        ensures { self.new ≡ take first self.old }
    {
        self.places.truncate(first);
    }

    /// Moves what is live together. Every live id keeps its literals and its links, and a freed id stays free. This
    /// takes no memory.
    pub fn compact(&mut self)
        ensures { self.new ≡ self.old }
    {
        slide(&mut self.lits, &mut self.places);
        self.places.trim();
        self.holes = 0;
    }

    /// Moves what is live together, as `compact` does, where as many rows went since the last time as half of the ids
    /// that it would go over. So all such passes together take constant time for each row that went.
    pub fn tidy(&mut self)
        ensures { self.new ≡ self.old }
    {
        if self.holes >= self.places.kept() / 2 {
            self.compact();
        }
    }
}
