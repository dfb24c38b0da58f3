//! A line that is built in room of its own.
ghost use Rattle.std.specs.Prelude.{◌≡◌, ◌≤◌, ◌<◌, ◌+◌, ◌++◌, ◌∷◌, [], length};

use arrayvec::ArrayString;
use itoa::Integer;
use std::marker::Model;

/// How many bytes a line has room for: five numbers of at most forty digits, with a word and what stands between them.
const ROOM: usize = 256;

/// A line of a text, or some words of one, in room of its own of 256 bytes: so it takes no memory, and is one piece
/// for a block or a sink. Contracts see it as its bytes.
#[derive(Drop)]
pub struct LineText {
    text: ArrayString<ROOM>,
}

impl Model for LineText {
    ghost use Rattle.std.specs.Prelude.{ℕ, List};

    ghost Value = { List ℕ };

    ghost view = { λ l. l.text.bytes };
}

impl LineText {
    /// A line without words.
    pub fn new() -> Self
        ensures { result ≡ [] }
    {
        Self {
            text: ArrayString::new(),
        }
    }

    /// Puts a word behind what the line has.
    pub fn word(&mut self, word: &str)
        requires room { length self.old + length word.now ≤ 256 }
        ensures bytes { self.new ≡ self.old ++ word.now }
    {
        self.text.push_str(word);
    }

    /// Puts an ASCII character behind what the line has.
    pub fn character(&mut self, c: char)
        requires room { length self.old < 256 }
        requires ascii { c < 128 }
        ensures bytes { self.new ≡ self.old ++ c ∷ [] }
    {
        self.text.push(c);
    }

    /// Puts a number behind what the line has, in decimal digits.
    pub fn digits<I: Integer>(&mut self, n: I)
        requires room { length self.old + 40 ≤ 256 }
        ensures bytes { self.new ≡ self.old ++ I.text n }
        ensures longer { length self.new ≤ length self.old + 40 }
    {
        let mut buffer = itoa::Buffer::new();
        self.text.push_str(buffer.format(n));
    }

    /// Puts a number behind what the line has, in decimal digits, and an ASCII character that ends it.
    pub fn number<I: Integer>(&mut self, n: I, end: char)
        requires room { length self.old + 41 ≤ 256 }
        requires ascii { end < 128 }
        ensures bytes { self.new ≡ self.old ++ (I.text n ++ end ∷ []) }
        ensures longer { length self.new ≤ length self.old + 41 }
    {
        let mut buffer = itoa::Buffer::new();
        self.text.push_str(buffer.format(n));
        self.text.push(end);
    }

    /// The bytes of the line.
    pub fn bytes(&self) -> &[u8]
        ensures { result.now ≡ self.now }
    {
        self.text.as_str().as_bytes()
    }
}
