//! The words of a script, and why one is refused.
ghost use Rattle.std.specs.Prelude.{◌≡◌, ℕ, ◌<◌, ◌≤◌, true, false, List, Option, IfErr, IfOk, IfNone, IfSome, IsErrOf, IsOk, OnOk, Ok, is_some};
ghost use Rattle.std.specs.Io.KnownBytes.{IsAtEnd};
ghost use Rattle.lexer.specs.Answers.{Answers, AnswersOnLine};
ghost use Rattle.lexer.specs.State.{GoesOn, upcoming};
ghost use Rattle.lexer.specs.declared.token.Comments.TheVariants.{Script};
ghost use Rattle.ports.specs.Causes.{IsCounted};
ghost use Rattle.versions.specs.declared.version.Version.{Version};
ghost use Rattle.qscript.specs.declared.draft.Draft.{Draft};
ghost use Rattle.qscript.specs.Run.{between, within};
ghost use Rattle.qscript.specs.State.{EndsReading, reading_ahead, refusal_for};

use lexer::{LexRefusal, Lexer, Token};
use ports::Desk;
use reading::{Quantity, ReadRefusal};

// The numbers of refusals.
pub(crate) const BAD_BYTE: u8 = 7;

pub(crate) const NUMBER_RANGE: u8 = 8;

pub(crate) const NO_HEADER: u8 = 30;

pub(crate) const BAD_COMMAND: u8 = 31;

pub(crate) const BAD_ARGUMENT: u8 = 32;

// The refusal of this number on this line.
pub(crate) fn refused(number: u8, line: u32) -> ReadRefusal
    ensures { result ≡ ReadRefusal.Refused number line }
{
    ReadRefusal::Refused { number, line }
}

// What the reader answers for a refusal of the lexer.
fn refusal_of(e: LexRefusal) -> ReadRefusal
    ensures { result ≡ refusal_for e }
{
    match e {
        LexRefusal::ReadFault => ReadRefusal::ReadFault,
        LexRefusal::TooLong { line } => ReadRefusal::Limit {
            quantity: Quantity::Bytes,
            line,
        },
        LexRefusal::BadByte { line } => refused(BAD_BYTE, line),
        LexRefusal::NumberRange { line } => refused(NUMBER_RANGE, line),
    }
}

// The next word of a script. None is the end of the text.
pub(crate) fn next_word<D: Desk>(
    lexer: &mut Lexer,
    desk: &mut D,
) -> Result<Option<Token>, ReadRefusal>
    requires ready { lexer.old.failed ≡ false }
    ensures ok { IfOk result (λ word. Answers (Ok word) (upcoming lexer.old (D.left desk.old))
        (upcoming lexer.new (D.left desk.new)) lexer.new.line) }
    ensures err { IfErr result (λ e. (named : Option Version) →
        EndsReading e (reading_ahead (between named) lexer.old (D.left desk.old))) }
    ensures memory { ¬ IsErrOf result ReadRefusal.NoMemory }
    ensures ready { OnOk result (lexer.new.failed ≡ false) }
    ensures comments { lexer.new.comments ≡ lexer.old.comments }
    ensures word { IfOk result (λ word. IfSome word (λ t. (lexer.new.fresh ≡ false) × (t.line ≡ lexer.new.line))) }
    ensures less { IfOk result (λ word. IfSome word (λ _. lexer.new.room < lexer.old.room)) }
    ensures end { IfOk result (λ word. IfNone word (IsAtEnd (D.left desk.new))) }
    ensures telling { OnOk result (IfSome (D.left desk.old) (λ _. is_some (D.left desk.new) ≡ true)) }
    ensures cause { IsCounted (IsErrOf result ReadRefusal.ReadFault) (IsOk result) (D.faults desk.old)
        (D.faults desk.new) }
    ensures flows { D.flows desk.old → ¬ IsErrOf result ReadRefusal.ReadFault × D.flows desk.new }
    ensures content { (n : List ℕ) → D.content desk.new n ≡ D.content desk.old n }
    ensures stays { (n : List ℕ) → D.steady desk.old n → D.steady desk.new n }
    ensures reads { GoesOn lexer.old lexer.new desk.old desk.new }
{
    match lexer.next(desk) {
        Ok(word) => Ok(word),
        Err(e) => Err(refusal_of(e)),
    }
}

// The next word of the line of the last one. None is the line's end.
pub(crate) fn next_on_line<D: Desk>(
    lexer: &mut Lexer,
    desk: &mut D,
) -> Result<Option<Token>, ReadRefusal>
    requires ready { lexer.old.failed ≡ false }
    requires fresh { lexer.old.fresh ≡ false }
    requires comments { lexer.old.comments ≡ Script }
    ensures ok { IfOk result (λ word. AnswersOnLine (Ok word) (upcoming lexer.old (D.left desk.old))
        (upcoming lexer.new (D.left desk.new)) lexer.old.line) }
    ensures err { IfErr result (λ e. (named : Option Version) (draft : Draft) →
        EndsReading e (reading_ahead (within named lexer.old.line draft) lexer.old (D.left desk.old))) }
    ensures memory { ¬ IsErrOf result ReadRefusal.NoMemory }
    ensures ready { OnOk result (lexer.new.failed ≡ false) }
    ensures fresh { lexer.new.fresh ≡ false }
    ensures comments { lexer.new.comments ≡ Script }
    ensures line { lexer.new.line ≡ lexer.old.line }
    ensures less { IfOk result (λ word. IfSome word (λ _. lexer.new.room < lexer.old.room)) }
    ensures room { OnOk result (lexer.new.room ≤ lexer.old.room) }
    ensures telling { OnOk result (IfSome (D.left desk.old) (λ _. is_some (D.left desk.new) ≡ true)) }
    ensures cause { IsCounted (IsErrOf result ReadRefusal.ReadFault) (IsOk result) (D.faults desk.old)
        (D.faults desk.new) }
    ensures flows { D.flows desk.old → ¬ IsErrOf result ReadRefusal.ReadFault × D.flows desk.new }
    ensures content { (n : List ℕ) → D.content desk.new n ≡ D.content desk.old n }
    ensures stays { (n : List ℕ) → D.steady desk.old n → D.steady desk.new n }
    ensures reads { GoesOn lexer.old lexer.new desk.old desk.new }
{
    match lexer.next_on_line(desk) {
        Ok(word) => Ok(word),
        Err(e) => Err(refusal_of(e)),
    }
}
