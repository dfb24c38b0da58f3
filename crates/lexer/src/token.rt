//! Words with their lines, and why none is given.
ghost use Rattle.std.specs.Prelude.{◌≡◌, ◌∷◌, ◌++◌, [], map};
ghost use Rattle.lexer.specs.Words.{begins_comment, byte, beyond, ends_word, is_blank as is_blank_byte, is_line_end as is_line_end_byte, is_lone, is_mark as is_mark_byte, opens_comment};

use crate::text::ShortText;
use thiserror::Error;

/// What is comment. A comment is the rest of its line, and may hold any bytes.
#[derive(Clone, Copy, Debug, PartialEq, Eq)]
pub enum Comments {
    /// A line whose first word begins with `c` (QDIMACS 1.1, input format).
    Dimacs,
    /// A line whose first word is `c`.
    Script,
    /// A `#`, wherever it stands, with the rest of its line. Each bracket, comma and `=` is a word by itself (QCIR-14,
    /// qcir-file).
    Hash,
}

impl Comments {
    // Whether a line whose first word this is, is a comment.
    pub(crate) fn begins(self, word: &[u8]) -> bool
        ensures { result ≡ begins_comment self (map byte word.now) }
    {
        match self {
            Comments::Dimacs => word.first() == Some(&b'c'),
            Comments::Script => matches!(word, [b'c']),
            Comments::Hash => false,
        }
    }

    // The same for a word that goes on behind these bytes.
    pub(crate) fn begins_cut(self, word: &[u8]) -> bool
        ensures { result ≡ begins_comment self (map byte word.now ++ beyond ∷ []) }
    {
        match self {
            Comments::Dimacs => word.first() == Some(&b'c'),
            Comments::Script | Comments::Hash => false,
        }
    }

    // Whether the rest of a line is comment from this byte on.
    pub(crate) fn opens(self, b: u8) -> bool
        ensures { result ≡ opens_comment self b }
    {
        match self {
            Comments::Dimacs | Comments::Script => false,
            Comments::Hash => b == b'#',
        }
    }

    // Whether this byte is a word by itself.
    pub(crate) fn is_lone(self, b: u8) -> bool
        ensures { result ≡ is_lone self b }
    {
        match self {
            Comments::Dimacs | Comments::Script => false,
            Comments::Hash => is_mark(b),
        }
    }

    // Whether this byte ends a word in front of it.
    pub(crate) fn ends_word(self, b: u8) -> bool
        ensures { result ≡ ends_word self b }
    {
        match self {
            Comments::Dimacs | Comments::Script => is_blank(b),
            Comments::Hash => is_blank(b) || is_mark(b) || b == b'#',
        }
    }
}

// White space parts words.
pub(crate) fn is_blank(b: u8) -> bool
    ensures { result ≡ is_blank_byte b }
{
    matches!(b, 9..=13 | b' ')
}

// Byte 10 ends a line.
pub(crate) fn is_line_end(b: u8) -> bool
    ensures { result ≡ is_line_end_byte b }
{
    b == b'\n'
}

// Brackets, the comma and the equals sign.
fn is_mark(b: u8) -> bool
    ensures { result ≡ is_mark_byte b }
{
    matches!(b, b'(' | b')' | b',' | b'=')
}

/// A word: a longest run of bytes that are no white space, and, with `Comments::Hash`, no `#` and no words by
/// themselves. Contracts see a short text as the list of its bytes, so words are matched and not compared by `==`.
#[derive(Debug, Drop)]
pub enum Word {
    /// An optional `-` and decimal digits, from -(2^63 - 1) to 2^63 - 1. A `-` before the value 0 makes no number.
    Num(i64),
    /// No number, and at most 16 bytes.
    Text(ShortText),
    /// No number, and longer.
    Other,
}

/// A word with the number of its line, which is 1 plus the number of line ends before it. Contracts see a short text as
/// the list of its bytes, so words are matched and not compared by `==`.
#[derive(Debug, Drop)]
pub struct Token {
    pub word: Word,
    pub line: u32,
}

/// Why no word is given. The line is that of the word or byte that is refused.
#[derive(Clone, Copy, Debug, PartialEq, Eq, Error)]
pub enum LexRefusal {
    #[error("the text can't be read")]
    ReadFault,
    #[error("line {line}: a byte stands beyond the first 2^30")]
    TooLong { line: u32 },
    #[error("line {line}: a byte of a word is none of 33 to 126")]
    BadByte { line: u32 },
    #[error("line {line}: a number's magnitude is above 2^63 - 1")]
    NumberRange { line: u32 },
}
