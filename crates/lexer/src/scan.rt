//! A word while its bytes come.
ghost use Rattle.std.specs.Prelude.{◌≡◌, MatchResult};
ghost use Rattle.lexer.specs.Scan.{shape_after, scan_after, no_scan, scanned};
ghost use Rattle.lexer.specs.Answers.{IsOfLine, IsScanned};

use crate::text::ShortText;
use crate::token::{LexRefusal, Token, Word};

// 2^63 - 1, the greatest magnitude of a number.
const MAX_MAGNITUDE: u64 = 9_223_372_036_854_775_807;

// What the bytes of a word so far may be.
#[derive(Clone, Copy)]
pub enum Shape {
    // No byte.
    Empty,
    // A `-`.
    Minus,
    // Digits, behind a `-` or not, and their value, which stops at 2^64 - 1.
    Digits(bool, u64),
    // No number's beginning.
    NoNumber,
}

impl Shape {
    // The shape with one more byte.
    pub fn after(self, b: u8) -> Shape
        ensures { result ≡ shape_after self b }
    {
        // The most frequent case stands first.
        if let (Shape::Digits(negative, n), b'0'..=b'9') = (self, b) {
            let n = n.saturating_mul(10).saturating_add(u64::from(b - b'0'));
            return Shape::Digits(negative, n);
        }
        match (self, b) {
            (Shape::Empty, b'-') => Shape::Minus,
            (Shape::Empty, b'0'..=b'9') => Shape::Digits(false, u64::from(b - b'0')),
            (Shape::Minus, b'0'..=b'9') => Shape::Digits(true, u64::from(b - b'0')),
            _ => Shape::NoNumber,
        }
    }
}

// What is kept of a word while its bytes come: its first 16, whether there are more, and whether one may
// not stand in a word.
#[derive(Drop)]
pub struct Scan {
    pub text: ShortText,
    pub is_long: bool,
    pub is_bad: bool,
    pub shape: Shape,
}

impl Scan {
    // No byte.
    pub fn new() -> Self
        ensures { result ≡ no_scan }
    {
        Self {
            text: ShortText::new(),
            is_long: false,
            is_bad: false,
            shape: Shape::Empty,
        }
    }

    // Takes the next byte of the word.
    pub fn push(&mut self, b: u8)
        ensures { self.new ≡ scan_after self.old b }
    {
        if self.text.len() == 16 {
            self.is_long = true;
        }
        if b < 33 || b > 126 {
            self.is_bad = true;
        }
        self.shape = self.shape.after(b);
        self.text.push(b);
    }

    // The token of the whole word, or why it is refused.
    pub fn into_token(self, line: u32) -> Result<Token, LexRefusal>
        ensures item { IsScanned result (scanned line self) }
        ensures line { MatchResult result (λ t. t.line ≡ line) (IsOfLine line) }
    {
        if self.is_bad {
            return Err(LexRefusal::BadByte { line });
        }
        let word = match self.shape {
            Shape::Digits(_, n) if n > MAX_MAGNITUDE => {
                return Err(LexRefusal::NumberRange { line });
            }
            Shape::Digits(false, n) => Word::Num(n as i64),
            Shape::Digits(true, n) if n > 0 => Word::Num(-(n as i64)),
            _ if self.is_long => Word::Other,
            _ => Word::Text(self.text),
        };
        Ok(Token { word, line })
    }
}
