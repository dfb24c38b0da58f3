//! A page of places. Whether all places are blank is found from the last one down, since steps mostly go in the order
//! of their ids; so no count is kept.
ghost use Rattle.std.specs.Prelude.{◌≡◌, ◌≢◌, ◌+◌, ◌<◌, ◌≤◌, ℕ, [], ◌∷◌, ◌++◌, take, length, slice_index_or, slice_set, vec_capacity, IfSome, IfNone, OnOk, OnErr};
ghost use Rattle.pages.specs.Paging.{IsFirstFilled, IsLastFilled, page_of};

use super::Blank;
use std::alloc::{AllocError, Global};
use std::marker::Model;

// How many places a page has.
pub(crate) const PAGE: usize = 64;

// A page of places. Blank ones at its end needn't be stored; where all are blank none is, and it takes no memory.
#[derive(Debug, Drop)]
pub(crate) struct Page<T: Blank> {
    stored: Vec<T>,
    len: usize,
}

impl<T: Blank> Model for Page<T> {
    ghost use Rattle.std.specs.Prelude.{List, ◌≤◌, length};

    ghost Value = { List T };

    ghost use Rattle.pages.specs.Paging.{page_of};

    ghost view = { λ p. page_of T.blank p.stored.items p.len };

    ghost invariant = { λ p. length p.stored.items ≤ p.len };
}

impl<T: Blank> Page<T> {
    // A page of no places. This takes no memory.
    pub(crate) fn new(alloc: Global) -> Self
        ensures { result ≡ [] }
    {
        Self {
            stored: Vec::new(alloc),
            len: 0,
        }
    }

    // How many places there are.
    pub(crate) fn len(&self) -> usize
        ensures { result ≡ length self.now }
    {
        self.len
    }

    // The value of a place, if it is stored.
    #[inline]
    pub(crate) fn get(&self, at: usize) -> Option<&T>
        ensures some { IfSome result (λ x. (at < length self.now)
            × (slice_index_or self.now at T.blank ≡ x.now)) }
        ensures none { IfNone result (slice_index_or self.now at T.blank ≡ T.blank) }
    {
        self.stored.get(at)
    }

    // Puts a place in behind the others. With no memory nothing changes.
    #[inline(always)]
    pub(crate) fn push(&mut self, value: T) -> Result<(), AllocError>
        requires { length self.old < 64 }
        ensures ok { OnOk result (self.new ≡ self.old ++ value ∷ []) }
        ensures err { OnErr result (self.new ≡ self.old) }
    {
        self.stored.reserve(PAGE - self.stored.len())?;
        fill(&mut self.stored, self.len);
        let _ = self.stored.push(value);
        self.len += 1;
        Ok(())
    }

    // Gives a place that isn't blank another value. This takes no memory.
    #[inline]
    pub(crate) fn set(&mut self, at: usize, value: T)
        requires { slice_index_or self.old at T.blank ≢ T.blank }
        ensures { self.new ≡ slice_set self.old at value }
    {
        self.stored[at] = value;
    }

    // Makes a place blank, and gives the memory back where all are. This takes no memory.
    pub(crate) fn clear(&mut self, at: usize)
        ensures { self.new ≡ slice_set self.old at T.blank }
    {
        if at >= self.stored.len() {
            return;
        }
        self.stored[at] = T::blank();
        if last_below(&self.stored, self.stored.len()).is_none() {
            self.stored = Vec::new(*self.stored.allocator());
        }
    }

    // Leaves so many places. This takes no memory.
    pub(crate) fn truncate(&mut self, count: usize)
        ensures { self.new ≡ take count self.old }
    {
        self.stored.truncate(count);
        self.len = self.len.min(count);
    }

    // The first place from one on that isn't blank.
    pub(crate) fn next_filled(&self, from: usize) -> Option<usize>
        ensures some { IfSome result (λ at. IsFirstFilled T.blank self.now from at) }
        ensures none { IfNone result ((i : ℕ) → from ≤ i → slice_index_or self.now i T.blank ≡ T.blank) }
    {
        first_from(&self.stored, from)
    }

    // The last place before one that isn't blank.
    pub(crate) fn last_filled(&self, below: usize) -> Option<usize>
        ensures some { IfSome result (λ at. IsLastFilled T.blank self.now below at) }
        ensures none { IfNone result ((i : ℕ) → i < below → slice_index_or self.now i T.blank ≡ T.blank) }
    {
        last_below(&self.stored, below)
    }
}

// Puts blank places in up to a number, for which there is room.
fn fill<T: Blank>(stored: &mut Vec<T>, len: usize)
    requires fits { length stored.old.items ≤ len }
    requires room { len ≤ vec_capacity stored.old }
    ensures items { stored.new.items ≡ page_of T.blank stored.old.items len }
    ensures room { vec_capacity stored.old ≤ vec_capacity stored.new }
{
    for _ in stored.len()..len {
        // There is room for it.
        let _ = stored.push(T::blank());
    }
}

// The first stored place from one on that isn't blank.
fn first_from<T: Blank>(stored: &Vec<T>, from: usize) -> Option<usize>
    ensures some { IfSome result (λ at. IsFirstFilled T.blank stored.now.items from at) }
    ensures none { IfNone result ((i : ℕ) → from ≤ i → slice_index_or stored.now.items i T.blank ≡ T.blank) }
{
    for at in from..stored.len() {
        if !stored[at].is_blank() {
            return Some(at);
        }
    }
    None
}

// The last stored place before one that isn't blank.
fn last_below<T: Blank>(stored: &Vec<T>, below: usize) -> Option<usize>
    ensures some { IfSome result (λ at. IsLastFilled T.blank stored.now.items below at) }
    ensures none { IfNone result ((i : ℕ) → i < below → slice_index_or stored.now.items i T.blank ≡ T.blank) }
{
    let mut at = below.min(stored.len());
    while at > 0 {
        at -= 1;
        if !stored[at].is_blank() {
            return Some(at);
        }
    }
    None
}
