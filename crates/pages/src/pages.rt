//! Lists in pages.
ghost use Rattle.std.specs.Prelude.{◌≡◌, ◌≢◌, ◌+◌, ◌<◌, ◌≤◌, ℕ, [], ◌∷◌, ◌++◌, take, length, slice_index_or, slice_set, IfSome, IfNone, OnOk, OnErr};
ghost use Rattle.pages.specs.Paging.{AreFull, EndsIn, IsFirstFilled, IsLastFilled, joined};

use super::Blank;
use super::page::{PAGE, Page};
use std::alloc::{AllocError, Global};
use std::marker::Model;

/// A list of places, each with a value or a blank one, in pages of 64. A page of which all places are blank takes no
/// memory but its own 32 bytes, which are 4 bits for each place. Contracts see it as the list of its values.
///
/// A place is read and written in constant time; a page that gets its first value, or loses its last one, is made or
/// let go.
#[derive(Debug, Drop)]
pub struct Pages<T: Blank> {
    pages: Vec<Page<T>>,
    len: usize,
}

impl<T: Blank> Model for Pages<T> {
    ghost use Rattle.std.specs.Prelude.{List, ◌≡◌, length};

    ghost Value = { List T };

    ghost use Rattle.pages.specs.Paging.{AreFull, joined};

    ghost view = { λ p. joined p.pages.items };

    ghost invariant = { λ p. AreFull 64 p.pages.items × (p.len ≡ length (joined p.pages.items)) };
}

impl<T: Blank> Pages<T> {
    /// A list of no places. This takes no memory.
    pub fn new(alloc: Global) -> Self
        ensures { result ≡ [] }
    {
        Self {
            pages: Vec::new(alloc),
            len: 0,
        }
    }

    /// How many places there are.
    #[inline]
    pub fn len(&self) -> usize
        ensures { result ≡ length self.now }
    {
        self.len
    }

    /// The value of a place; none only where there is no such place, or a blank one.
    #[inline]
    pub fn get(&self, at: usize) -> Option<&T>
        ensures some { IfSome result (λ x. (at < length self.now)
            × (slice_index_or self.now at T.blank ≡ x.now)) }
        ensures none { IfNone result (slice_index_or self.now at T.blank ≡ T.blank) }
    {
        match self.pages.get(at / PAGE) {
            Some(page) => page.get(at % PAGE),
            None => None,
        }
    }

    /// Puts a place in behind the others. With no memory nothing changes.
    #[inline(always)]
    pub fn push(&mut self, value: T) -> Result<(), AllocError>
        ensures ok { OnOk result (self.new ≡ self.old ++ value ∷ []) }
        ensures err { OnErr result (self.new ≡ self.old) }
    {
        let len = self.len.checked_add(1).ok_or(AllocError)?;
        push_place(&mut self.pages, self.len / PAGE, value)?;
        self.len = len;
        Ok(())
    }

    /// Gives a place that isn't blank another value. This takes no memory.
    #[inline]
    pub fn set(&mut self, at: usize, value: T)
        requires given { at < length self.old }
        requires filled { slice_index_or self.old at T.blank ≢ T.blank }
        ensures { self.new ≡ slice_set self.old at value }
    {
        self.pages[at / PAGE].set(at % PAGE, value);
    }

    /// Makes a place blank, and gives its page back where all places of it are. This takes no memory.
    pub fn clear(&mut self, at: usize)
        requires { at < length self.old }
        ensures { self.new ≡ slice_set self.old at T.blank }
    {
        self.pages[at / PAGE].clear(at % PAGE);
    }

    /// Leaves so many places. This takes no memory.
    pub fn truncate(&mut self, count: usize)
        ensures { self.new ≡ take count self.old }
    {
        if count >= self.len {
            return;
        }
        self.pages.truncate(count / PAGE + 1);
        self.pages[count / PAGE].truncate(count % PAGE);
        self.len = count;
    }

    /// The first place from one on that isn't blank. This goes over pages, and over the places of those that aren't
    /// blank, up to it.
    pub fn next_filled(&self, from: usize) -> Option<usize>
        ensures some { IfSome result (λ at. IsFirstFilled T.blank self.now from at) }
        ensures none { IfNone result ((i : ℕ) → from ≤ i → slice_index_or self.now i T.blank ≡ T.blank) }
    {
        if from >= self.len {
            return None;
        }
        let mut page = from / PAGE;
        let mut start = from % PAGE;
        while page < self.pages.len() {
            if let Some(at) = self.pages[page].next_filled(start) {
                return Some(page * PAGE + at);
            }
            page += 1;
            start = 0;
        }
        None
    }

    /// The last place before one that isn't blank. This goes over pages, and over the places of those that aren't
    /// blank, down to it.
    pub fn last_filled(&self, below: usize) -> Option<usize>
        ensures some { IfSome result (λ at. IsLastFilled T.blank self.now below at) }
        ensures none { IfNone result ((i : ℕ) → i < below → slice_index_or self.now i T.blank ≡ T.blank) }
    {
        let mut page = self.pages.len().min(below / PAGE + 1);
        while page > 0 {
            page -= 1;
            if let Some(at) = self.pages[page].last_filled(below - page * PAGE) {
                return Some(page * PAGE + at);
            }
        }
        None
    }
}

// Puts a place in behind those of all pages, into the last page or a new one, which has this number. With no memory
// nothing changes.
#[inline(always)]
fn push_place<T: Blank>(pages: &mut Vec<Page<T>>, at: usize, value: T) -> Result<(), AllocError>
    requires full { AreFull 64 pages.old.items }
    requires last { EndsIn pages.old.items at }
    ensures ok { OnOk result (AreFull 64 pages.new.items
        × (joined pages.new.items ≡ joined pages.old.items ++ value ∷ [])) }
    ensures err { OnErr result (pages.new.items ≡ pages.old.items) }
{
    if at < pages.len() {
        return pages[at].push(value);
    }
    let mut page = Page::new(*pages.allocator());
    page.push(value)?;
    pages.push(page)?;
    Ok(())
}
