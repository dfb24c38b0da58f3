//! The words of a text, read from a desk through a buffer.
ghost use Rattle.std.specs.Prelude.{◌≡◌, ℕ, ◌+◌, ◌-◌, ◌^◌, ◌<◌, ◌≤◌, Option, None, Some, List, [], ◌∷◌, ◌++◌, true, false, length, take, drop, slice_get, IfSome, IfNone, IfOk, IfErr, OnOk, OnErr, IsErrAnd, IsOk, ◌&&◌, map, is_err};
ghost use Rattle.std.specs.Io.KnownBytes.{Keeps, IsAtEnd};
ghost use Rattle.ports.specs.Causes.{HasCause, IsCounted};
ghost use Rattle.lexer.specs.State.{State, bytes_ahead, upcoming, past, Stays, GoesOn, line_read};
ghost use Rattle.lexer.specs.Words.{is_blank as is_blank_byte, begins_comment, byte, beyond, ends_word, is_lone, items, opens_comment};
ghost use Rattle.lexer.specs.Scan.{no_scan};
ghost use Rattle.lexer.specs.Machine.{cut_items, upcoming_in_word, upcoming_behind_word, upcoming_in_comment};
ghost use Rattle.lexer.specs.declared.token.Comments.TheVariants.{Script};
ghost use Rattle.lexer.specs.Answers.{Answers, AnswersOnLine, AreBehind, IsOfLine, Refuses, IsReadFault};

use crate::scan::Scan;
use crate::token::{Comments, LexRefusal, Token, Word, is_blank, is_line_end};
use ports::{Desk, Failed};
use std::alloc::{AllocError, Global};
use std::marker::Model;

// How many bytes are read at once, at most.
const BUFFER: usize = 4096;

// How many bytes of a text are read.
const MAX_BYTES: u32 = 1 << 30;

/// Reads the words of a text from a desk, one at a time. It keeps no more of the text than a buffer of 4096
/// bytes and one word, and a byte costs it constant time.
#[derive(Drop)]
pub struct Lexer {
    comments: Comments,
    // The line has had no word yet.
    fresh: bool,
    line: u32,
    // How many bytes may still be taken.
    room: u32,
    failed: bool,
    // Its bytes from `at` to `end` were read and not taken.
    buffer: Vec<u8>,
    at: usize,
    end: usize,
}

impl Model for Lexer {
    ghost use Rattle.std.specs.Prelude.{◌≡◌, ℕ, ◌+◌, ◌-◌, ◌^◌, ◌≤◌, length, take, drop};
    ghost use Rattle.lexer.specs.State.{State};

    ghost Value = { State };

    ghost view = { λ l. record {
      comments = l.comments;
      fresh = l.fresh;
      line = l.line;
      room = l.room;
      ahead = drop l.at (take l.end l.buffer.items);
      failed = l.failed;
    } };

    ghost invariant = { λ l. (l.at ≤ l.end) × (l.end ≤ 4096) × (length l.buffer.items ≡ 4096)
        × (l.line + l.room ≤ 2 ^ 30 + 1) };
}

impl Lexer {
    /// A lexer in front of a text, with the buffer that it reads through. Its calls take no more memory.
    pub fn new(alloc: Global, comments: Comments) -> Result<Self, AllocError>
        ensures state { IfOk result (λ l. l ≡ record {
          comments = comments;
          fresh = true;
          line = 1;
          room = 2 ^ 30;
          ahead = [];
          failed = false;
        }) }
        // The items to come are those of the whole text.
        ensures items { IfOk result (λ l. (text : List ℕ) → upcoming l (Some text) ≡ Some (items comments text)) }
    {
        let buffer = vec![in alloc; 0u8; BUFFER]?;
        Ok(Self {
            comments,
            fresh: true,
            line: 1,
            room: MAX_BYTES,
            failed: false,
            buffer,
            at: 0,
            end: 0,
        })
    }

    /// The number of the line that it stands in. At the end of the text that is 1 plus the number of all
    /// line ends.
    pub fn line(&self) -> u32
        ensures { result ≡ self.now.line }
    {
        self.line
    }

    /// Whether a call of `next` was refused. It isn't called again then.
    pub fn has_failed(&self) -> bool
        ensures { result ≡ self.now.failed }
    {
        self.failed
    }

    // The next of the bytes that were read.
    fn first(&self) -> Option<u8>
        ensures { result ≡ slice_get self.now.ahead 0 }
    {
        if self.at < self.end {
            Some(self.buffer[self.at])
        } else {
            None
        }
    }

    // Reads bytes where none is ahead.
    #[inline(never)]
    fn refill<D: Desk>(&mut self, desk: &mut D) -> Result<(), Failed>
        requires { slice_get self.old.ahead 0 ≡ None }
        ensures same { self.new ≡ record self.old { ahead = self.new.ahead } }
        ensures bytes { Keeps (bytes_ahead self.old (D.left desk.old)) (bytes_ahead self.new (D.left desk.new)) }
        ensures end { OnOk result (slice_get self.new.ahead 0 ≡ None → IsAtEnd (D.left desk.new)) }
        ensures content { (n : List ℕ) → D.content desk.new n ≡ D.content desk.old n }
        ensures stays { (n : List ℕ) → D.steady desk.old n → D.steady desk.new n }
        ensures cause { HasCause (D.faults desk.old) (D.faults desk.new) result }
        ensures flows { D.flows desk.old → IsOk result × D.flows desk.new }
        ensures reads { GoesOn self.old self.new desk.old desk.new }
    {
        self.at = 0;
        self.end = 0;
        self.end = desk.read(self.buffer.as_mut_slice())?;
        Ok(())
    }

    // The next byte, which is not taken. None is the end.
    #[inline(always)]
    fn peek<D: Desk>(&mut self, desk: &mut D) -> Result<Option<u8>, LexRefusal>
        ensures same { self.new ≡ record self.old { ahead = self.new.ahead } }
        ensures bytes { Keeps (bytes_ahead self.old (D.left desk.old)) (bytes_ahead self.new (D.left desk.new)) }
        ensures next { IfOk result (λ b. b ≡ slice_get self.new.ahead 0) }
        ensures end { IfOk result (λ b. IfNone b (IsAtEnd (D.left desk.new))) }
        ensures fault { IfErr result IsReadFault }
        ensures cause { HasCause (D.faults desk.old) (D.faults desk.new) result }
        ensures flows { D.flows desk.old → IsOk result × D.flows desk.new }
        ensures content { (n : List ℕ) → D.content desk.new n ≡ D.content desk.old n }
        ensures stays { (n : List ℕ) → D.steady desk.old n → D.steady desk.new n }
        ensures reads { GoesOn self.old self.new desk.old desk.new }
    {
        if let Some(b) = self.first() {
            return Ok(Some(b));
        }
        match self.refill(desk) {
            Ok(()) => Ok(self.first()),
            Err(Failed) => Err(LexRefusal::ReadFault),
        }
    }

    // Takes the next byte.
    fn advance(&mut self, b: u8)
        requires byte { slice_get self.old.ahead 0 ≡ Some b }
        requires room { 0 < self.old.room }
        ensures { self.new ≡ past b self.old }
    {
        self.at += 1;
        self.room -= 1;
        if b == b'\n' {
            self.line += 1;
            self.fresh = true;
        }
    }

    // How many bytes may still be taken.
    fn room(&self) -> u32
        ensures { result ≡ self.now.room }
    {
        self.room
    }

    // Takes white space. Answers the byte behind it.
    fn skip_blanks<D: Desk>(&mut self, desk: &mut D) -> Result<Option<u8>, LexRefusal>
        ensures items { OnOk result (Stays (upcoming self.old (D.left desk.old))
            (upcoming self.new (D.left desk.new))) }
        ensures next { IfOk result (λ b. b ≡ slice_get self.new.ahead 0) }
        ensures word { IfOk result (λ b. IfSome b (λ b. is_blank_byte b ≡ false)) }
        ensures end { IfOk result (λ b. IfNone b (IsAtEnd (D.left desk.new))) }
        ensures refusal { IfErr result (λ e. Refuses e (upcoming self.old (D.left desk.old))) }
        ensures cause { IsCounted (IsErrAnd result IsReadFault) (IsOk result) (D.faults desk.old) (D.faults desk.new) }
        ensures flows { D.flows desk.old → ¬ IsErrAnd result IsReadFault × D.flows desk.new }
        ensures content { (n : List ℕ) → D.content desk.new n ≡ D.content desk.old n }
        ensures stays { (n : List ℕ) → D.steady desk.old n → D.steady desk.new n }
        ensures reads { GoesOn self.old self.new desk.old desk.new }
        ensures room { self.new.room ≤ self.old.room }
        ensures comments { self.new.comments ≡ self.old.comments }
        ensures failed { self.new.failed ≡ self.old.failed }
    {
        loop {
            let Some(b) = self.peek(desk)? else {
                return Ok(None);
            };
            if !is_blank(b) {
                return Ok(Some(b));
            }
            if self.room() == 0 {
                return Err(LexRefusal::TooLong { line: self.line() });
            }
            self.advance(b);
        }
    }

    // Takes white space within the line. Answers the byte behind it. None is the line's end, which isn't taken, or that
    // of the text.
    fn skip_in_line<D: Desk>(&mut self, desk: &mut D) -> Result<Option<u8>, LexRefusal>
        ensures items { OnOk result (Stays (upcoming self.old (D.left desk.old))
            (upcoming self.new (D.left desk.new))) }
        ensures next { IfOk result (λ b. IfSome b (λ b. slice_get self.new.ahead 0 ≡ Some b)) }
        ensures word { IfOk result (λ b. IfSome b (λ b. is_blank_byte b ≡ false)) }
        ensures end { IfOk result (λ b. IfNone b (AreBehind self.old.line (upcoming self.new (D.left desk.new)))) }
        ensures refusal { IfErr result (λ e. Refuses e (upcoming self.old (D.left desk.old))) }
        ensures of_line { IfErr result (IsOfLine self.old.line) }
        ensures cause { IsCounted (IsErrAnd result IsReadFault) (IsOk result) (D.faults desk.old) (D.faults desk.new) }
        ensures flows { D.flows desk.old → ¬ IsErrAnd result IsReadFault × D.flows desk.new }
        ensures content { (n : List ℕ) → D.content desk.new n ≡ D.content desk.old n }
        ensures stays { (n : List ℕ) → D.steady desk.old n → D.steady desk.new n }
        ensures reads { GoesOn self.old self.new desk.old desk.new }
        ensures room { self.new.room ≤ self.old.room }
        ensures comments { self.new.comments ≡ self.old.comments }
        ensures failed { self.new.failed ≡ self.old.failed }
        ensures fresh { self.new.fresh ≡ self.old.fresh }
        ensures line { self.new.line ≡ self.old.line }
    {
        loop {
            let Some(b) = self.peek(desk)? else {
                return Ok(None);
            };
            if !is_blank(b) {
                return Ok(Some(b));
            }
            if self.room() == 0 {
                return Err(LexRefusal::TooLong { line: self.line() });
            }
            if is_line_end(b) {
                return Ok(None);
            }
            self.advance(b);
        }
    }

    // Takes the rest of a comment with its line end.
    fn skip_line<D: Desk>(&mut self, desk: &mut D) -> Result<(), LexRefusal>
        ensures items { OnOk result (Stays (upcoming_in_comment self.old (D.left desk.old))
            (upcoming self.new (D.left desk.new))) }
        ensures refusal { IfErr result (λ e. Refuses e (upcoming_in_comment self.old (D.left desk.old))) }
        ensures cause { IsCounted (IsErrAnd result IsReadFault) (IsOk result) (D.faults desk.old) (D.faults desk.new) }
        ensures flows { D.flows desk.old → ¬ IsErrAnd result IsReadFault × D.flows desk.new }
        ensures content { (n : List ℕ) → D.content desk.new n ≡ D.content desk.old n }
        ensures stays { (n : List ℕ) → D.steady desk.old n → D.steady desk.new n }
        ensures reads { GoesOn self.old self.new desk.old desk.new }
        ensures room { self.new.room ≤ self.old.room }
        ensures comments { self.new.comments ≡ self.old.comments }
        ensures failed { self.new.failed ≡ self.old.failed }
    {
        loop {
            let Some(b) = self.peek(desk)? else {
                return Ok(());
            };
            if self.room() == 0 {
                return Err(LexRefusal::TooLong { line: self.line() });
            }
            self.advance(b);
            if b == b'\n' {
                return Ok(());
            }
        }
    }

    // Whether a word that goes on makes its line a comment.
    fn is_cut_comment(&self, scan: &Scan) -> bool
        ensures { result ≡ (self.now.fresh && begins_comment self.now.comments
            (map byte scan.now.text ++ beyond ∷ [])) }
    {
        self.fresh && self.comments.begins_cut(scan.text.as_slice())
    }

    // Why a word that goes on beyond the limit is refused.
    fn cut(&self, scan: &Scan) -> LexRefusal
        ensures cut { Refuses result (Some (cut_items self.now.comments self.now.fresh self.now.line scan.now)) }
        ensures no_fault { IsReadFault result → ⊥ }
        ensures line { IsOfLine self.now.line result }
    {
        let line = self.line();
        if self.is_cut_comment(scan) {
            LexRefusal::TooLong { line }
        } else if scan.is_bad {
            LexRefusal::BadByte { line }
        } else {
            LexRefusal::TooLong { line }
        }
    }

    // Whether the word that was scanned makes its line a comment.
    fn is_comment(&self, scan: &Scan) -> bool
        ensures { result ≡ (self.now.fresh && begins_comment self.now.comments (map byte scan.now.text)) }
    {
        self.fresh && self.comments.begins(scan.text.as_slice())
    }

    // The line has had a word.
    fn set_word(&mut self)
        ensures { self.new ≡ record self.old { fresh = false } }
    {
        self.fresh = false;
    }

    // Whether the next byte opens a comment.
    fn opens_comment(&self, b: u8) -> bool
        ensures { result ≡ opens_comment self.now.comments b }
    {
        self.comments.opens(b)
    }

    // Takes a comment, which the next byte opens, with its line end.
    fn skip_hash<D: Desk>(&mut self, desk: &mut D, b: u8) -> Result<(), LexRefusal>
        requires byte { slice_get self.old.ahead 0 ≡ Some b }
        requires opens { opens_comment self.old.comments b ≡ true }
        ensures items { OnOk result (Stays (upcoming self.old (D.left desk.old))
            (upcoming self.new (D.left desk.new))) }
        ensures refusal { IfErr result (λ e. Refuses e (upcoming self.old (D.left desk.old))) }
        ensures cause { IsCounted (IsErrAnd result IsReadFault) (IsOk result) (D.faults desk.old) (D.faults desk.new) }
        ensures flows { D.flows desk.old → ¬ IsErrAnd result IsReadFault × D.flows desk.new }
        ensures content { (n : List ℕ) → D.content desk.new n ≡ D.content desk.old n }
        ensures stays { (n : List ℕ) → D.steady desk.old n → D.steady desk.new n }
        ensures reads { GoesOn self.old self.new desk.old desk.new }
        ensures room { OnOk result (self.new.room < self.old.room) }
        ensures comments { self.new.comments ≡ self.old.comments }
        ensures failed { self.new.failed ≡ self.old.failed }
    {
        if self.room() == 0 {
            return Err(LexRefusal::TooLong { line: self.line() });
        }
        self.advance(b);
        self.skip_line(desk)
    }

    // Whether the next byte is a word by itself.
    fn is_lone(&self, b: u8) -> bool
        ensures { result ≡ is_lone self.now.comments b }
    {
        self.comments.is_lone(b)
    }

    // Whether a word ends in front of this byte.
    fn ends_word(&self, b: u8) -> bool
        ensures { result ≡ ends_word self.now.comments b }
    {
        self.comments.ends_word(b)
    }

    // Takes the next byte, which is a word by itself.
    fn lone(&mut self, b: u8) -> Result<Scan, LexRefusal>
        requires byte { slice_get self.old.ahead 0 ≡ Some b }
        requires lone { is_lone self.old.comments b ≡ true }
        ensures items { IfOk result (λ scan. (left : Option (List ℕ)) → Stays (upcoming self.old left)
            (upcoming_behind_word self.new scan left)) }
        ensures refusal { IfErr result (λ e. (left : Option (List ℕ)) → Refuses e (upcoming self.old left)) }
        ensures no_fault { IfErr result (λ e. IsReadFault e → ⊥) }
        ensures room { OnOk result (self.new.room < self.old.room) }
        ensures less { self.new.room ≤ self.old.room }
        ensures comments { self.new.comments ≡ self.old.comments }
        ensures failed { self.new.failed ≡ self.old.failed }
        ensures line { self.new.line ≡ self.old.line }
        ensures read { line_read self.new ≡ line_read self.old }
    {
        if self.room() == 0 {
            return Err(LexRefusal::TooLong { line: self.line() });
        }
        self.advance(b);
        let mut scan = Scan::new();
        scan.push(b);
        Ok(scan)
    }

    // Takes the next word, of which the next byte is the first.
    fn take_word<D: Desk>(&mut self, desk: &mut D, b: u8) -> Result<Scan, LexRefusal>
        requires byte { slice_get self.old.ahead 0 ≡ Some b }
        requires blank { is_blank_byte b ≡ false }
        requires comment { opens_comment self.old.comments b ≡ false }
        ensures items { IfOk result (λ scan. Stays (upcoming self.old (D.left desk.old))
            (upcoming_behind_word self.new scan (D.left desk.new))) }
        ensures refusal { IfErr result (λ e. Refuses e (upcoming self.old (D.left desk.old))) }
        ensures cause { IsCounted (IsErrAnd result IsReadFault) (IsOk result) (D.faults desk.old) (D.faults desk.new) }
        ensures flows { D.flows desk.old → ¬ IsErrAnd result IsReadFault × D.flows desk.new }
        ensures content { (n : List ℕ) → D.content desk.new n ≡ D.content desk.old n }
        ensures stays { (n : List ℕ) → D.steady desk.old n → D.steady desk.new n }
        ensures reads { GoesOn self.old self.new desk.old desk.new }
        ensures room { OnOk result (self.new.room < self.old.room) }
        ensures comments { self.new.comments ≡ self.old.comments }
        ensures failed { self.new.failed ≡ self.old.failed }
        ensures line { self.new.line ≡ self.old.line }
    {
        if self.is_lone(b) {
            return self.lone(b);
        }
        self.word(desk, b)
    }

    // Takes a word that isn't one byte by itself, of which the next byte is the first. Inlined, since each byte of a text
    // comes here.
    #[inline(always)]
    fn word<D: Desk>(&mut self, desk: &mut D, first: u8) -> Result<Scan, LexRefusal>
        requires byte { slice_get self.old.ahead 0 ≡ Some first }
        requires word { ends_word self.old.comments first ≡ false }
        ensures items { IfOk result (λ scan. Stays (upcoming_in_word self.old no_scan (D.left desk.old))
            (upcoming_behind_word self.new scan (D.left desk.new))) }
        ensures refusal { IfErr result (λ e. Refuses e (upcoming_in_word self.old no_scan (D.left desk.old))) }
        ensures cause { IsCounted (IsErrAnd result IsReadFault) (IsOk result) (D.faults desk.old) (D.faults desk.new) }
        ensures flows { D.flows desk.old → ¬ IsErrAnd result IsReadFault × D.flows desk.new }
        ensures content { (n : List ℕ) → D.content desk.new n ≡ D.content desk.old n }
        ensures stays { (n : List ℕ) → D.steady desk.old n → D.steady desk.new n }
        ensures reads { GoesOn self.old self.new desk.old desk.new }
        ensures room { OnOk result (self.new.room < self.old.room) }
        ensures comments { self.new.comments ≡ self.old.comments }
        ensures failed { self.new.failed ≡ self.old.failed }
        ensures fresh { self.new.fresh ≡ self.old.fresh }
        ensures line { self.new.line ≡ self.old.line }
        ensures of_line { IfErr result (IsOfLine self.old.line) }
    {
        let mut scan = Scan::new();
        if self.room() == 0 {
            return Err(self.cut(&scan));
        }
        self.advance(first);
        scan.push(first);
        loop {
            let Some(b) = self.peek(desk)? else {
                return Ok(scan);
            };
            if self.ends_word(b) {
                return Ok(scan);
            }
            if self.room() == 0 {
                return Err(self.cut(&scan));
            }
            self.advance(b);
            scan.push(b);
        }
    }

    // The next word, where comments are left out.
    fn next_word<D: Desk>(&mut self, desk: &mut D) -> Result<Option<Token>, LexRefusal>
        ensures items { Answers result (upcoming self.old (D.left desk.old))
            (upcoming self.new (D.left desk.new)) self.new.line }
        ensures end { IfOk result (λ t. IfNone t (IsAtEnd (D.left desk.new))) }
        ensures cause { IsCounted (IsErrAnd result IsReadFault) (IsOk result) (D.faults desk.old) (D.faults desk.new) }
        ensures flows { D.flows desk.old → ¬ IsErrAnd result IsReadFault × D.flows desk.new }
        ensures content { (n : List ℕ) → D.content desk.new n ≡ D.content desk.old n }
        ensures stays { (n : List ℕ) → D.steady desk.old n → D.steady desk.new n }
        ensures reads { GoesOn self.old self.new desk.old desk.new }
        ensures failed { self.new.failed ≡ self.old.failed }
        ensures less { IfOk result (λ t. IfSome t (λ _. self.new.room < self.old.room)) }
        ensures comments { self.new.comments ≡ self.old.comments }
        ensures word { IfOk result (λ t. IfSome t (λ t. (self.new.fresh ≡ false) × (t.line ≡ self.new.line))) }
    {
        loop {
            let Some(b) = self.skip_blanks(desk)? else {
                return Ok(None);
            };
            if self.opens_comment(b) {
                self.skip_hash(desk, b)?;
                continue;
            }
            let line = self.line();
            let scan = self.take_word(desk, b)?;
            if self.is_comment(&scan) {
                self.skip_line(desk)?;
            } else {
                self.set_word();
                let token = scan.into_token(line)?;
                return Ok(Some(token));
            }
        }
    }

    // The next word of a line of a script that has had one.
    fn word_on_line<D: Desk>(&mut self, desk: &mut D) -> Result<Option<Token>, LexRefusal>
        requires fresh { self.old.fresh ≡ false }
        requires comments { self.old.comments ≡ Script }
        ensures items { AnswersOnLine result (upcoming self.old (D.left desk.old))
            (upcoming self.new (D.left desk.new)) self.old.line }
        ensures cause { IsCounted (IsErrAnd result IsReadFault) (IsOk result) (D.faults desk.old) (D.faults desk.new) }
        ensures flows { D.flows desk.old → ¬ IsErrAnd result IsReadFault × D.flows desk.new }
        ensures content { (n : List ℕ) → D.content desk.new n ≡ D.content desk.old n }
        ensures stays { (n : List ℕ) → D.steady desk.old n → D.steady desk.new n }
        ensures reads { GoesOn self.old self.new desk.old desk.new }
        ensures failed { self.new.failed ≡ self.old.failed }
        ensures less { IfOk result (λ t. IfSome t (λ _. self.new.room < self.old.room)) }
        ensures room { OnOk result (self.new.room ≤ self.old.room) }
        ensures comments { self.new.comments ≡ self.old.comments }
        ensures fresh { self.new.fresh ≡ self.old.fresh }
        ensures line { self.new.line ≡ self.old.line }
    {
        let Some(b) = self.skip_in_line(desk)? else {
            return Ok(None);
        };
        let line = self.line();
        let scan = self.word(desk, b)?;
        let token = scan.into_token(line)?;
        Ok(Some(token))
    }

    /// The next word of the text outside comments. None is the end of the text, whose line `line` tells.
    ///
    /// # Errors
    /// The first place of the text that is no word decides: a byte of a word that is none of 33 to 126, a
    /// number whose magnitude is above 2^63 - 1, a byte beyond the first 2^30. `ReadFault` comes only where
    /// the desk failed in this call.
    pub fn next<D: Desk>(&mut self, desk: &mut D) -> Result<Option<Token>, LexRefusal>
        requires { self.old.failed ≡ false }
        // The items to come, where the desk tells its bytes, are this one and then those to come after.
        ensures items { Answers result (upcoming self.old (D.left desk.old))
            (upcoming self.new (D.left desk.new)) self.new.line }
        // At the end the desk has nothing left.
        ensures end { IfOk result (λ t. IfNone t (IsAtEnd (D.left desk.new))) }
        // It gives up only where the desk failed, so never where it flows.
        ensures cause { IsCounted (IsErrAnd result IsReadFault) (IsOk result) (D.faults desk.old) (D.faults desk.new) }
        ensures flows { D.flows desk.old → ¬ IsErrAnd result IsReadFault × D.flows desk.new }
        ensures content { (n : List ℕ) → D.content desk.new n ≡ D.content desk.old n }
        ensures stays { (n : List ℕ) → D.steady desk.old n → D.steady desk.new n }
        ensures failed { self.new.failed ≡ is_err result }
        // A word takes a byte of the room.
        ensures less { IfOk result (λ t. IfSome t (λ _. self.new.room < self.old.room)) }
        ensures comments { self.new.comments ≡ self.old.comments }
        // Behind a word it stands in the word's line.
        ensures word { IfOk result (λ t. IfSome t (λ t. (self.new.fresh ≡ false) × (t.line ≡ self.new.line))) }
        // It reads only where the line in which it then stands doesn't end among the bytes that were read.
        ensures reads { GoesOn self.old self.new desk.old desk.new }
    {
        let answer = self.next_word(desk);
        if answer.is_err() {
            self.failed = true;
        }
        answer
    }

    /// The next word of the line of the last word, in a script. None is the line's end or that of the text; nothing
    /// behind it is looked at.
    ///
    /// # Errors
    /// As those of `next`, where the line's next place is refused.
    pub fn next_on_line<D: Desk>(&mut self, desk: &mut D) -> Result<Option<Token>, LexRefusal>
        requires ready { self.old.failed ≡ false }
        requires fresh { self.old.fresh ≡ false }
        requires comments { self.old.comments ≡ Script }
        // The items to come, where the desk tells its bytes, are this one, which stands on the line, and then those to
        // come after; or they stay, and stand behind the line.
        ensures items { AnswersOnLine result (upcoming self.old (D.left desk.old))
            (upcoming self.new (D.left desk.new)) self.old.line }
        // It gives up only where the desk failed, so never where it flows.
        ensures cause { IsCounted (IsErrAnd result IsReadFault) (IsOk result) (D.faults desk.old) (D.faults desk.new) }
        ensures flows { D.flows desk.old → ¬ IsErrAnd result IsReadFault × D.flows desk.new }
        ensures content { (n : List ℕ) → D.content desk.new n ≡ D.content desk.old n }
        ensures stays { (n : List ℕ) → D.steady desk.old n → D.steady desk.new n }
        // It reads only where the line's end isn't among the bytes that were read.
        ensures reads { GoesOn self.old self.new desk.old desk.new }
        ensures failed { self.new.failed ≡ is_err result }
        // A word takes a byte of the room.
        ensures less { IfOk result (λ t. IfSome t (λ _. self.new.room < self.old.room)) }
        ensures room { OnOk result (self.new.room ≤ self.old.room) }
        ensures comments { self.new.comments ≡ self.old.comments }
        ensures fresh { self.new.fresh ≡ self.old.fresh }
        ensures line { self.new.line ≡ self.old.line }
    {
        let answer = self.word_on_line(desk);
        if answer.is_err() {
            self.failed = true;
        }
        answer
    }
}
