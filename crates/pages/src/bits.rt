//! Lists of bits.
ghost use Rattle.std.specs.Prelude.{◌≡◌, ◌-◌, ◌<◌, [], ◌++◌, true, false, length, replicate, slice_index_or, slice_set, OnOk, OnErr};

use std::alloc::{AllocError, Global};
use std::marker::Model;

// How many bits a word has.
const WORD: usize = 64;

/// A list of bits, in words of 64. Contracts see it as the list of them.
#[derive(Debug, Drop)]
pub struct Bits {
    // The bits behind the last one are zero.
    words: Vec<u64>,
    len: usize,
}

impl Model for Bits {
    ghost use Rattle.std.specs.Prelude.{List, Bool};

    ghost Value = { List Bool };

    ghost use Rattle.pages.specs.Words.{AreWords, bits_of};

    ghost view = { λ b. bits_of b.words.items b.len };

    ghost invariant = { λ b. AreWords b.words.items b.len };
}

impl Bits {
    /// A list of no bits. This takes no memory.
    pub fn new(alloc: Global) -> Self
        ensures { result ≡ [] }
    {
        Self {
            words: Vec::new(alloc),
            len: 0,
        }
    }

    /// How many bits there are.
    pub fn len(&self) -> usize
        ensures { result ≡ length self.now }
    {
        self.len
    }

    /// Whether a bit is set.
    #[inline]
    pub fn get(&self, at: usize) -> bool
        requires { at < length self.now }
        ensures { result ≡ slice_index_or self.now at false }
    {
        (self.words[at / WORD] >> (at % WORD)) & 1 == 1
    }

    /// Sets a bit.
    #[inline]
    pub fn set(&mut self, at: usize)
        requires { at < length self.old }
        ensures { self.new ≡ slice_set self.old at true }
    {
        self.words[at / WORD] |= 1 << (at % WORD);
    }

    /// Takes all bits back.
    pub fn clear(&mut self)
        ensures { self.new ≡ replicate (length self.old) false }
    {
        self.words.fill(0);
    }

    /// Makes the list at least so long, with bits that aren't set. With no memory nothing changes.
    #[inline(always)]
    pub fn grow(&mut self, count: usize) -> Result<(), AllocError>
        ensures ok { OnOk result (self.new ≡ self.old ++ replicate (count - length self.old) false) }
        ensures err { OnErr result (self.new ≡ self.old) }
    {
        if count <= self.len {
            return Ok(());
        }
        self.words
            .resize(self.words.len().max(count / WORD + 1), 0)?;
        self.len = count;
        Ok(())
    }
}
