//! The list. To read or write a short number is one look and one comparison. The list of great numbers is empty until
//! the first one comes, though room for it is taken before: it costs no memory until it is written, and no place or
//! number needs memory later.
ghost use Rattle.std.specs.Prelude.{◌≡◌, ◌+◌, ◌-◌, ◌<◌, ◌≤◌, [], ◌++◌, None, Some, OnErr, OnOk, length, replicate, slice_index_or, slice_set, vec_capacity};
ghost use Rattle.short_numbers.specs.Kept.{for_none, numbers_of};
ghost use Rattle.short_numbers.specs.Lists.{last_moved};

use std::alloc::{AllocError, Global};
use std::marker::Model;

// What stands in place of a short number for none.
const FOR_NONE: u32 = u32::MAX;

// What stands there for a number that is too great for it, which stands in the other list.
const FOR_LONG: u32 = u32::MAX - 1;

/// A list of numbers, or none in their place. Contracts see it as that list, with how long it may be without more
/// memory. Each place takes four bytes, and eight more from the first number of 2^32 - 2 or more on.
#[derive(Debug, Drop)]
pub struct Numbers {
    shorts: Vec<u32>,
    // The great numbers, at the places that they have in the list. There is room for one of each place.
    longs: Vec<usize>,
}

impl Model for Numbers {
    ghost use Rattle.std.specs.Prelude.{◌≤◌, length, min, vec_capacity};
    ghost use Rattle.short_numbers.specs.Kept.{numbers_of};
    ghost use Rattle.short_numbers.specs.Lists.{NumbersState};

    ghost Value = { NumbersState };

    ghost view = { λ n. record {
      items = numbers_of n.shorts.items n.longs.items;
      room = min (vec_capacity n.shorts) (vec_capacity n.longs);
    } };

    ghost invariant = { λ n. length n.shorts.items ≤ vec_capacity n.longs };
}

impl Numbers {
    /// A list of no numbers. This takes no memory.
    pub fn new(alloc: Global) -> Self
        ensures { result.items ≡ [] }
    {
        Self {
            shorts: Vec::new(alloc),
            longs: Vec::new(alloc),
        }
    }

    /// How many places it has.
    #[inline]
    #[tactic(auto, using(crate::proofs::Kept::numbers_length))]
    pub fn len(&self) -> usize
        ensures { result ≡ length self.now.items }
    {
        self.shorts.len()
    }

    /// The number of a place, or none.
    #[inline(always)]
    #[tactic(auto, using(crate::proofs::Kept::numbers_length))]
    pub fn get(&self, at: usize) -> Option<usize>
        requires { at < length self.now.items }
        ensures { result ≡ slice_index_or self.now.items at None }
    {
        read(&self.shorts, &self.longs, at)
    }

    /// Writes the number of a place, or none. This takes no memory.
    #[inline(always)]
    #[tactic(auto, using(crate::proofs::Kept::numbers_length))]
    pub fn set(&mut self, at: usize, number: Option<usize>)
        requires { at < length self.old.items }
        ensures items { self.new.items ≡ slice_set self.old.items at number }
        ensures room { self.old.room ≤ self.new.room }
    {
        write(&mut self.shorts, &mut self.longs, at, number);
    }

    /// Makes room for more places. With no memory the list stays as it was.
    #[tactic(auto, using(crate::proofs::Kept::numbers_length))]
    #[inline(always)]
    pub fn reserve(&mut self, more: usize) -> Result<(), AllocError>
        ensures items { self.new.items ≡ self.old.items }
        ensures room { self.old.room ≤ self.new.room }
        ensures ok { OnOk result (length self.old.items + more ≤ self.new.room) }
    {
        self.shorts.reserve(more)?;
        let lacking = self.shorts.len().saturating_sub(self.longs.len());
        self.longs.reserve(lacking.saturating_add(more))?;
        Ok(())
    }

    /// Puts places of no number at the end, for which there is room. This takes no memory.
    #[tactic(auto, using(crate::proofs::Kept::numbers_length))]
    pub fn push_none(&mut self, count: usize)
        requires { length self.old.items + count ≤ self.old.room }
        ensures items { self.new.items ≡ self.old.items ++ replicate count None }
        ensures room { self.old.room ≤ self.new.room }
    {
        put_none(&mut self.shorts, count);
    }

    /// Puts the last numbers, so many, into the place of as many from one on, and takes them from the end. This takes
    /// no memory.
    #[tactic(auto, using(crate::proofs::Kept::numbers_length))]
    pub fn move_last(&mut self, to: usize, count: usize)
        requires { to + count ≤ length self.old.items }
        ensures items { self.new.items ≡ last_moved to count self.old.items }
        ensures room { self.old.room ≤ self.new.room }
    {
        let from = self.shorts.len() - count;
        for k in 0..count {
            let number = read(&self.shorts, &self.longs, from + k);
            write(&mut self.shorts, &mut self.longs, to + k, number);
        }
        self.shorts.truncate(from);
        self.longs.truncate(from);
    }
}

// The number of a place, or none.
#[inline(always)]
fn read(shorts: &Vec<u32>, longs: &Vec<usize>, at: usize) -> Option<usize>
    requires { at < length shorts.now.items }
    ensures { result ≡ slice_index_or (numbers_of shorts.now.items longs.now.items) at None }
{
    let short = shorts[at];
    if short < FOR_LONG {
        return Some(short as usize);
    }
    if short == FOR_NONE {
        return None;
    }
    Some(read_long(longs, at))
}

// The great number of a place; 0 where there is none.
#[cold]
#[inline(never)]
fn read_long(longs: &Vec<usize>, at: usize) -> usize
    ensures { result ≡ slice_index_or longs.now.items at 0 }
{
    match longs.get(at) {
        Some(long) => *long,
        None => 0,
    }
}

// Writes the number of a place, or none. There is room for a great number of each place.
#[inline(always)]
fn write(shorts: &mut Vec<u32>, longs: &mut Vec<usize>, at: usize, number: Option<usize>)
    requires within { at < length shorts.old.items }
    requires room { length shorts.old.items ≤ vec_capacity longs.old }
    ensures items { numbers_of shorts.new.items longs.new.items
        ≡ slice_set (numbers_of shorts.old.items longs.old.items) at number }
    ensures size { length shorts.new.items ≡ length shorts.old.items }
    ensures shorts { vec_capacity shorts.new ≡ vec_capacity shorts.old }
    ensures longs { vec_capacity longs.old ≤ vec_capacity longs.new }
{
    match number {
        None => shorts[at] = FOR_NONE,
        Some(number) => {
            if number < FOR_LONG as usize {
                shorts[at] = number as u32;
            } else {
                write_long(shorts, longs, at, number);
            }
        }
    }
}

// Writes a number that is too great for a short one.
#[cold]
#[inline(never)]
fn write_long(shorts: &mut Vec<u32>, longs: &mut Vec<usize>, at: usize, number: usize)
    requires within { at < length shorts.old.items }
    requires room { length shorts.old.items ≤ vec_capacity longs.old }
    ensures items { numbers_of shorts.new.items longs.new.items
        ≡ slice_set (numbers_of shorts.old.items longs.old.items) at (Some number) }
    ensures size { length shorts.new.items ≡ length shorts.old.items }
    ensures shorts { vec_capacity shorts.new ≡ vec_capacity shorts.old }
    ensures longs { vec_capacity longs.old ≤ vec_capacity longs.new }
{
    fill(longs, shorts.len());
    shorts[at] = FOR_LONG;
    longs[at] = number;
}

// Puts places of no number behind short ones, for which there is room.
fn put_none(shorts: &mut Vec<u32>, count: usize)
    requires { length shorts.old.items + count ≤ vec_capacity shorts.old }
    ensures items { shorts.new.items ≡ shorts.old.items ++ replicate count for_none }
    ensures room { vec_capacity shorts.old ≤ vec_capacity shorts.new }
{
    // There is room for them.
    let _ = shorts.resize(shorts.len() + count, FOR_NONE);
}

// Puts zeros behind long numbers, up to so many, for which there is room.
fn fill(longs: &mut Vec<usize>, count: usize)
    requires { count ≤ vec_capacity longs.old }
    ensures items { longs.new.items ≡ longs.old.items ++ replicate (count - length longs.old.items) 0 }
    ensures room { vec_capacity longs.old ≤ vec_capacity longs.new }
{
    if longs.len() < count {
        // There is room for them.
        let _ = longs.resize(count, 0);
    }
}
