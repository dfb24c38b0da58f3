//! The text of a short word.
ghost use Rattle.std.specs.Prelude.{◌≡◌, List, ℕ, [], ◌∷◌, ◌++◌, ◌≤◌, ◌<◌, length, take};

use std::marker::Model;

/// At most 16 bytes of text, which take no memory of their own.
#[derive(Debug, Drop)]
pub struct ShortText {
    bytes: [u8; 16],
    len: usize,
}

impl Model for ShortText {
    ghost Value = { List ℕ };

    ghost view = { λ t. take t.len t.bytes };

    ghost invariant = { λ t. t.len ≤ 16 };
}

impl ShortText {
    // No byte.
    pub(crate) fn new() -> Self
        ensures { result ≡ [] }
    {
        Self {
            bytes: [0; 16],
            len: 0,
        }
    }

    /// How many bytes it has.
    pub fn len(&self) -> usize
        ensures { result ≡ length self.now }
    {
        self.len
    }

    /// Its bytes.
    pub fn as_slice(&self) -> &[u8]
        ensures { result.now ≡ self.now }
    {
        &self.bytes[..self.len]
    }

    // Adds a byte where there is room.
    pub(crate) fn push(&mut self, b: u8)
        ensures { self.new ≡ take 16 (self.old ++ b ∷ []) }
    {
        if self.len < 16 {
            self.bytes[self.len] = b;
            self.len += 1;
        }
    }
}
