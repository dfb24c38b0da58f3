//! What has been read. It keeps less than was read: scopes that are merged as sets come, rows of whole clauses, and two
//! marks for each declared number, that it is in a set and that it occurs. `Represents` says, stage by stage, what
//! these stand for.
ghost use Rattle.std.specs.Prelude.{◌≡◌, ℕ, ◌<◌, ◌≤◌, ◌&&◌, not, false, if◌then◌else◌, length, Some, None, true, IfErr, IfOk, OnOk, slice_index_or, nat_abs};
ghost use Rattle.lexer.specs.declared.token.Word.TheVariants.{Text};
ghost use Rattle.prefix.specs.Scopes.{is_among, AreDistinct};
ghost use Rattle.qdimacs.specs.Rules.{nothing, first_of, inside_rules};
ghost use Rattle.reading.specs.Words.{is_text as is_text_word, is_natural, quant_of as quant_of_word, natural_of as natural_of_word};
ghost use Rattle.qdimacs.specs.Step.{Is};
ghost use Rattle.truth.specs.Formed.{IsFormed};
ghost use Rattle.qdimacs.specs.Represents.{Steps, Represents, Passes, Closing, TakesNumber, TakesVariable, IsMarked, Stood, IsFresh};

use crate::clause_rows::Clauses;
use crate::refusal::{
    BAD_HEADER, BAD_WORD, MISSING_ZERO, NO_HEADER, SET_AFTER_CLAUSE, TOO_FEW_CLAUSES,
    TOO_MANY_CLAUSES, beyond, refused,
};
use crate::sets::Sets;
use lexer::{Token, Word};
use prefix::{Prefix, Quant, Var};
use reading::{Quantity, ReadRefusal};
use std::alloc::{AllocError, Global};
use truth::{ClauseList, Formula};

// The greatest number of declared clauses.
const MAX_CLAUSES: u64 = 16_777_216;

// How far the text has been read: up to before the header, behind `p`, behind `cnf`, behind the number of variables,
// behind the header, and then between sets and clauses, in a set, or in a clause.
#[derive(Clone, Copy, PartialEq, Eq)]
pub(crate) enum Stage {
    Nothing,
    Problem,
    Format,
    Vars,
    Headed,
    Between,
    InSet(Quant),
    InClause,
}

// What has been read: the stage, the numbers of the header and its line, and what is kept of sets and clauses.
#[derive(Drop)]
pub(crate) struct Reader {
    pub(crate) stage: Stage,
    pub(crate) vars: u64,
    pub(crate) count: u64,
    pub(crate) line: u32,
    pub(crate) sets: Sets,
    pub(crate) clauses: Clauses,
}

impl Reader {
    // Nothing has been read.
    pub(crate) fn new(alloc: Global) -> Self
        ensures { Represents result nothing }
    {
        Self {
            stage: Stage::Nothing,
            vars: 0,
            count: 0,
            line: 0,
            sets: Sets::new(alloc),
            clauses: Clauses::new(alloc),
        }
    }

    // Takes the next word, where no rule refuses it.
    pub(crate) fn take(&mut self, token: Token) -> Result<(), ReadRefusal>
        requires { Stood self.old }
        ensures { Steps result self.old self.new token.word token.line }
    {
        let line = token.line;
        match self.stage {
            Stage::Nothing => self.take_first(&token.word, line),
            Stage::Problem => self.take_format(&token.word, line),
            Stage::Format => self.take_vars(&token.word, line),
            Stage::Vars => self.take_count(&token.word, line),
            Stage::Headed => {
                if line == self.line {
                    return Err(refused(BAD_HEADER, line));
                }
                self.begin_body()?;
                self.take_between(&token.word, line)
            }
            Stage::Between => self.take_between(&token.word, line),
            Stage::InSet(quant) => self.take_in_set(quant, &token.word, line),
            Stage::InClause => self.take_in_clause(&token.word, line),
        }
    }

    // The first word.
    fn take_first(&mut self, word: &Word, line: u32) -> Result<(), ReadRefusal>
        requires { self.old.stage ≡ Stage.Nothing }
        ensures { Steps result self.old self.new word.now line }
    {
        if !is_text(word, b"p".as_slice()) {
            return Err(refused(NO_HEADER, line));
        }
        self.line = line;
        self.stage = Stage::Problem;
        Ok(())
    }

    // The word behind `p`.
    fn take_format(&mut self, word: &Word, line: u32) -> Result<(), ReadRefusal>
        requires { self.old.stage ≡ Stage.Problem }
        ensures { Steps result self.old self.new word.now line }
    {
        if line != self.line {
            return Err(self.bad_header());
        }
        if !is_text(word, b"cnf".as_slice()) {
            return Err(self.bad_header());
        }
        self.stage = Stage::Format;
        Ok(())
    }

    // The number of variables.
    fn take_vars(&mut self, word: &Word, line: u32) -> Result<(), ReadRefusal>
        requires { self.old.stage ≡ Stage.Format }
        ensures { Steps result self.old self.new word.now line }
    {
        self.vars = self.header_number(word, line)?;
        self.stage = Stage::Vars;
        Ok(())
    }

    // The number of clauses.
    fn take_count(&mut self, word: &Word, line: u32) -> Result<(), ReadRefusal>
        requires { self.old.stage ≡ Stage.Vars }
        ensures { Steps result self.old self.new word.now line }
    {
        self.count = self.header_number(word, line)?;
        self.stage = Stage::Headed;
        Ok(())
    }

    // The number that a word of the header is.
    fn header_number(&self, word: &Word, line: u32) -> Result<u64, ReadRefusal>
        ensures ok { IfOk result (λ n. (line ≡ self.now.line) × (is_natural word.now ≡ true)
            × (n ≡ natural_of_word word.now)) }
        ensures err { IfErr result (λ e. (e ≡ ReadRefusal.Refused 11 self.now.line)
            × ((line ≡ self.now.line) → is_natural word.now ≡ false)) }
    {
        if line != self.line {
            return Err(self.bad_header());
        }
        natural_of(word).ok_or_else(|| self.bad_header())
    }

    // Goes on behind the header, where its numbers are within the limits. It takes the marks.
    fn begin_body(&mut self) -> Result<(), ReadRefusal>
        requires stage { self.old.stage ≡ Stage.Headed }
        requires fresh { IsFresh self.old.sets self.old.clauses }
        ensures passes { Passes result self.old self.new }
        ensures marked { OnOk result (IsMarked self.new) }
        ensures stage { OnOk result (self.new.stage ≡ Stage.Between) }
    {
        if self.vars > Var::MAX as u64 {
            return Err(beyond(Quantity::Variables, self.line));
        }
        if self.count > MAX_CLAUSES {
            return Err(beyond(Quantity::Clauses, self.line));
        }
        let len = self.vars as usize + 1;
        self.sets.marks.resize(len, false)?;
        self.clauses.marks.resize(len, false)?;
        self.stage = Stage::Between;
        Ok(())
    }

    // A word between sets and clauses.
    fn take_between(&mut self, word: &Word, line: u32) -> Result<(), ReadRefusal>
        requires stage { self.old.stage ≡ Stage.Between }
        requires marked { IsMarked self.old }
        ensures { Steps result self.old self.new word.now line }
    {
        match word {
            Word::Num(n) => {
                if self.clauses.ended == self.count {
                    return Err(refused(TOO_MANY_CLAUSES, line));
                }
                self.take_literal(*n, line)
            }
            Word::Text(text) => {
                let Some(quant) = quant_of(text.as_slice()) else {
                    return Err(refused(BAD_WORD, line));
                };
                if self.clauses.ended > 0 {
                    return Err(refused(SET_AFTER_CLAUSE, line));
                }
                self.stage = Stage::InSet(quant);
                Ok(())
            }
            Word::Other => Err(refused(BAD_WORD, line)),
        }
    }

    // A number of a clause.
    fn take_literal(&mut self, n: i64, line: u32) -> Result<(), ReadRefusal>
        requires marked { IsMarked self.old }
        requires fewer { self.old.clauses.ended < self.old.count }
        ensures { TakesNumber result self.old self.new n line }
    {
        if n.unsigned_abs() == 0 {
            self.clauses.end()?;
            self.stage = Stage::Between;
            return Ok(());
        }
        self.clauses.check(self.vars, n, line)?;
        self.clauses.push(n)?;
        self.stage = Stage::InClause;
        Ok(())
    }

    // A word of a clause.
    fn take_in_clause(&mut self, word: &Word, line: u32) -> Result<(), ReadRefusal>
        requires stage { self.old.stage ≡ Stage.InClause }
        requires marked { IsMarked self.old }
        requires fewer { self.old.clauses.ended < self.old.count }
        ensures { Steps result self.old self.new word.now line }
    {
        match word {
            Word::Num(n) => self.take_literal(*n, line),
            Word::Text(text) => Err(stray(text.as_slice(), line)),
            Word::Other => Err(refused(BAD_WORD, line)),
        }
    }

    // A word of a set.
    fn take_in_set(&mut self, quant: Quant, word: &Word, line: u32) -> Result<(), ReadRefusal>
        requires stage { self.old.stage ≡ Stage.InSet quant }
        requires marked { IsMarked self.old }
        ensures { Steps result self.old self.new word.now line }
    {
        match word {
            Word::Num(n) => {
                if n.unsigned_abs() == 0 {
                    self.stage = Stage::Between;
                    return Ok(());
                }
                self.take_variable(quant, *n, line)
            }
            Word::Text(text) => Err(stray(text.as_slice(), line)),
            Word::Other => Err(refused(BAD_WORD, line)),
        }
    }

    // A number of a set that doesn't end it.
    fn take_variable(&mut self, quant: Quant, n: i64, line: u32) -> Result<(), ReadRefusal>
        requires stage { self.old.stage ≡ Stage.InSet quant }
        requires marked { IsMarked self.old }
        requires some { 0 < nat_abs n }
        ensures { TakesVariable result self.old self.new quant n line }
    {
        self.sets.check(self.vars, quant, n, line)?;
        let v = n.unsigned_abs();
        self.sets.push(quant, v as u32)?;
        Ok(())
    }

    // Why the header is refused, with its line.
    fn bad_header(&self) -> ReadRefusal
        ensures { result ≡ ReadRefusal.Refused 11 self.now.line }
    {
        refused(BAD_HEADER, self.line)
    }

    // The formula, where the text ends on this line.
    pub(crate) fn close(&mut self, line: u32) -> Result<Formula, ReadRefusal>
        requires { Stood self.old }
        ensures closing { Closing result self.old line }
        ensures formed { IfOk result IsFormed }
    {
        match self.stage {
            Stage::Nothing => Err(refused(NO_HEADER, line)),
            Stage::Problem | Stage::Format | Stage::Vars => Err(self.bad_header()),
            Stage::Headed => {
                self.begin_body()?;
                self.finish(line)
            }
            Stage::Between => self.finish(line),
            Stage::InSet(_) | Stage::InClause => Err(refused(MISSING_ZERO, line)),
        }
    }

    // The formula of whole sets and clauses.
    fn finish(&mut self, line: u32) -> Result<Formula, ReadRefusal>
        requires stage { self.old.stage ≡ Stage.Between }
        requires marked { IsMarked self.old }
        requires stood { Stood self.old }
        ensures closing { Closing result self.old line }
        ensures formed { IfOk result IsFormed }
    {
        if self.clauses.ended < self.count {
            return Err(refused(TOO_FEW_CLAUSES, line));
        }
        let alloc = *self.clauses.rows.allocator();
        let free = free_of(alloc, &self.clauses.marks, &self.sets.marks)?;
        self.sets.put_in_front(free)?;
        if self.sets.rows.len() > Prefix::MAX_SCOPES {
            return Err(beyond(Quantity::Scopes, line));
        }
        let Ok(prefix) = self.sets.prefix() else {
            return Err(ReadRefusal::NoMemory);
        };
        let rows = std::mem::replace(&mut self.clauses.rows, Vec::new(alloc));
        Ok(Formula {
            prefix,
            clauses: ClauseList::from_vec(rows),
            declared_vars: self.vars as u32,
            declared_clauses: self.count as u32,
        })
    }
}

// The numbers that have a mark of the first kind and none of the second.
fn free_of(alloc: Global, occur: &[bool], declared: &[bool]) -> Result<Vec<u32>, AllocError>
    requires same { length occur.now ≡ length declared.now }
    requires few { length occur.now ≤ 1048577 }
    ensures distinct { IfOk result (λ free. AreDistinct free.items) }
    ensures those { IfOk result (λ free. (v : ℕ) → is_among v free.items
        ≡ (slice_index_or occur.now v false && not (slice_index_or declared.now v false))) }
{
    let mut free = Vec::new(alloc);
    for v in 0..occur.len() {
        if is_free(occur, declared, v) {
            free.push(v as u32)?;
        }
    }
    Ok(free)
}

// Whether a number has a mark of the first kind and none of the second.
fn is_free(occur: &[bool], declared: &[bool], v: usize) -> bool
    requires first { v < length occur.now }
    requires second { v < length declared.now }
    ensures { result ≡ (slice_index_or occur.now v false && not (slice_index_or declared.now v false)) }
{
    occur[v] && !declared[v]
}

// Whether a word is this text.
fn is_text(word: &Word, text: &[u8]) -> bool
    ensures { result ≡ is_text_word text.now word.now }
{
    matches!(word, Word::Text(bytes) if bytes.as_slice() == text)
}

// The number that a word is, where it isn't negative.
fn natural_of(word: &Word) -> Option<u64>
    ensures { result ≡ (if is_natural word.now then Some (natural_of_word word.now) else None) }
{
    match word {
        Word::Num(n) if *n >= 0 => Some(*n as u64),
        _ => None,
    }
}

// The quantifier that begins a set by this word.
fn quant_of(text: &[u8]) -> Option<Quant>
    ensures { result ≡ quant_of_word (Text text.now) }
{
    match text {
        [b'e'] => Some(Quant::Exists),
        [b'a'] => Some(Quant::Forall),
        _ => None,
    }
}

// Why a word that is no number is refused in a set or in a clause.
fn stray(text: &[u8], line: u32) -> ReadRefusal
    ensures { Is result (first_of (inside_rules (quant_of_word (Text text.now)) line)) }
{
    let number = if quant_of(text).is_some() {
        MISSING_ZERO
    } else {
        BAD_WORD
    };
    refused(number, line)
}
