//! Reads a script line by line.
ghost use Rattle.std.specs.Prelude.{◌≡◌, ℕ, ◌<◌, ◌≤◌, true, false, List, Option, Some, None, is_none, is_some, IfOk, IfErr, IfSome, IfNone, OnOk, IsOk, IsErrOf};
ghost use Rattle.std.specs.Io.KnownBytes.{IsAtEnd};
ghost use Rattle.lexer.specs.State.{GoesOn, Stays};
ghost use Rattle.lexer.specs.declared.token.Comments.TheVariants.{Script};
ghost use Rattle.ports.specs.Causes.{IsCounted};
ghost use Rattle.qscript.specs.Lines.{is_header_line};
ghost use Rattle.qscript.specs.Run.{between, within, is_header, named_behind};
ghost use Rattle.qscript.specs.State.{reading_ahead, script_in, EndsReading, Leaves, IsOver, Heads, Answers};

use crate::command::Command;
use crate::draft::{Draft, Line};
use crate::words::{NO_HEADER, next_on_line, next_word, refused};
use lexer::Lexer;
use ports::Desk;
use reading::ReadRefusal;
use std::alloc::Global;
use versions::Version;

// Reads the words behind those of a line up to the line's end.
fn rest_of_line<D: Desk>(
    lexer: &mut Lexer,
    desk: &mut D,
    named: Option<Version>,
    draft: Draft,
    line: u32,
) -> Result<Line, ReadRefusal>
    requires ready { lexer.old.failed ≡ false }
    requires fresh { lexer.old.fresh ≡ false }
    requires comments { lexer.old.comments ≡ Script }
    requires line { lexer.old.line ≡ line }
    ensures script { IfOk result (λ l. Leaves l
        (reading_ahead (within named line draft) lexer.old (D.left desk.old))
        (reading_ahead (between (named_behind named l)) lexer.new (D.left desk.new))) }
    ensures refusal { IfErr result (λ e. EndsReading e
        (reading_ahead (within named line draft) lexer.old (D.left desk.old))) }
    ensures header { IfOk result (λ l. is_header_line l ≡ is_header draft) }
    ensures memory { is_header draft ≡ true → ¬ IsErrOf result ReadRefusal.NoMemory }
    ensures ready { OnOk result (lexer.new.failed ≡ false) }
    ensures comments { lexer.new.comments ≡ Script }
    ensures room { OnOk result (lexer.new.room ≤ lexer.old.room) }
    ensures telling { OnOk result (IfSome (D.left desk.old) (λ _. is_some (D.left desk.new) ≡ true)) }
    ensures cause { IsCounted (IsErrOf result ReadRefusal.ReadFault) (IsOk result) (D.faults desk.old)
        (D.faults desk.new) }
    ensures flows { D.flows desk.old → ¬ IsErrOf result ReadRefusal.ReadFault × D.flows desk.new }
    ensures content { (n : List ℕ) → D.content desk.new n ≡ D.content desk.old n }
    ensures stays { (n : List ℕ) → D.steady desk.old n → D.steady desk.new n }
    ensures reads { GoesOn lexer.old lexer.new desk.old desk.new }
{
    let mut draft = draft;
    loop {
        let Some(token) = next_on_line(lexer, desk)? else {
            return draft.end(line);
        };
        draft = draft.take(&token.word, line)?;
    }
}

// Reads the first word of a line. None is the end of the text behind whole lines.
fn first_of_line<D: Desk>(
    alloc: Global,
    lexer: &mut Lexer,
    desk: &mut D,
    named: Option<Version>,
) -> Result<Option<(Draft, u32)>, ReadRefusal>
    requires { lexer.old.failed ≡ false }
    ensures begun { IfOk result (λ found. IfSome found (λ b. Stays
        (reading_ahead (between named) lexer.old (D.left desk.old))
        (reading_ahead (within named b.1 b.0) lexer.new (D.left desk.new)))) }
    ensures header { IfOk result (λ found. IfSome found (λ b. is_header b.0 ≡ is_none named)) }
    ensures word { IfOk result (λ found. IfSome found (λ b. (lexer.new.fresh ≡ false)
        × (lexer.new.line ≡ b.1))) }
    ensures fewer { IfOk result (λ found. IfSome found (λ _. lexer.new.room < lexer.old.room)) }
    ensures done { IfOk result (λ found. IfNone found (IsOver
        (reading_ahead (between named) lexer.old (D.left desk.old))
        (reading_ahead (between named) lexer.new (D.left desk.new)))) }
    ensures end { IfOk result (λ found. IfNone found ((is_some named ≡ true) × IsAtEnd (D.left desk.new))) }
    ensures refusal { IfErr result (λ e. EndsReading e
        (reading_ahead (between named) lexer.old (D.left desk.old))) }
    ensures memory { ¬ IsErrOf result ReadRefusal.NoMemory }
    ensures ready { OnOk result (lexer.new.failed ≡ false) }
    ensures comments { lexer.new.comments ≡ lexer.old.comments }
    ensures telling { OnOk result (IfSome (D.left desk.old) (λ _. is_some (D.left desk.new) ≡ true)) }
    ensures cause { IsCounted (IsErrOf result ReadRefusal.ReadFault) (IsOk result) (D.faults desk.old)
        (D.faults desk.new) }
    ensures flows { D.flows desk.old → ¬ IsErrOf result ReadRefusal.ReadFault × D.flows desk.new }
    ensures content { (n : List ℕ) → D.content desk.new n ≡ D.content desk.old n }
    ensures stays { (n : List ℕ) → D.steady desk.old n → D.steady desk.new n }
    ensures reads { GoesOn lexer.old lexer.new desk.old desk.new }
{
    let Some(token) = next_word(lexer, desk)? else {
        if named.is_none() {
            return Err(refused(NO_HEADER, lexer.line()));
        }
        return Ok(None);
    };
    let line = token.line;
    let draft = Draft::start(alloc, named, &token.word, line)?;
    Ok(Some((draft, line)))
}

// Reads the header, and answers the version that it names.
pub(crate) fn header<D: Desk>(
    alloc: Global,
    lexer: &mut Lexer,
    desk: &mut D,
) -> Result<Version, ReadRefusal>
    requires ready { lexer.old.failed ≡ false }
    requires comments { lexer.old.comments ≡ Script }
    ensures script { Heads result
        (reading_ahead (between None) lexer.old (D.left desk.old))
        (λ version. script_in (reading_ahead (between (Some version)) lexer.new (D.left desk.new))) }
    ensures memory { ¬ IsErrOf result ReadRefusal.NoMemory }
    ensures ready { OnOk result (lexer.new.failed ≡ false) }
    ensures comments { lexer.new.comments ≡ Script }
    ensures fewer { OnOk result (lexer.new.room < lexer.old.room) }
    ensures telling { OnOk result (IfSome (D.left desk.old) (λ _. is_some (D.left desk.new) ≡ true)) }
    ensures cause { IsCounted (IsErrOf result ReadRefusal.ReadFault) (IsOk result) (D.faults desk.old)
        (D.faults desk.new) }
    ensures flows { D.flows desk.old → ¬ IsErrOf result ReadRefusal.ReadFault × D.flows desk.new }
    ensures content { (n : List ℕ) → D.content desk.new n ≡ D.content desk.old n }
    ensures stays { (n : List ℕ) → D.steady desk.old n → D.steady desk.new n }
    ensures reads { GoesOn lexer.old lexer.new desk.old desk.new }
{
    match first_of_line(alloc, lexer, desk, None)? {
        Some((draft, line)) => match rest_of_line(lexer, desk, None, draft, line)? {
            Line::Header(version) => Ok(version),
            Line::Command(_) => unreachable!(),
        },
        None => unreachable!(),
    }
}

// Reads the next command behind the header that named this version.
pub(crate) fn command<D: Desk>(
    alloc: Global,
    lexer: &mut Lexer,
    desk: &mut D,
    version: Version,
) -> Result<Option<Command>, ReadRefusal>
    requires ready { lexer.old.failed ≡ false }
    requires comments { lexer.old.comments ≡ Script }
    ensures script { Answers result
        (script_in (reading_ahead (between (Some version)) lexer.old (D.left desk.old)))
        (script_in (reading_ahead (between (Some version)) lexer.new (D.left desk.new))) }
    ensures ready { OnOk result (lexer.new.failed ≡ false) }
    ensures comments { lexer.new.comments ≡ Script }
    ensures end { IfOk result (λ c. IfNone c (IsAtEnd (D.left desk.new))) }
    ensures fewer { IfOk result (λ c. IfSome c (λ _. lexer.new.room < lexer.old.room)) }
    ensures telling { OnOk result (IfSome (D.left desk.old) (λ _. is_some (D.left desk.new) ≡ true)) }
    ensures cause { IsCounted (IsErrOf result ReadRefusal.ReadFault) (IsOk result) (D.faults desk.old)
        (D.faults desk.new) }
    ensures flows { D.flows desk.old → ¬ IsErrOf result ReadRefusal.ReadFault × D.flows desk.new }
    ensures content { (n : List ℕ) → D.content desk.new n ≡ D.content desk.old n }
    ensures stays { (n : List ℕ) → D.steady desk.old n → D.steady desk.new n }
    ensures reads { GoesOn lexer.old lexer.new desk.old desk.new }
{
    let Some((draft, line)) = first_of_line(alloc, lexer, desk, Some(version))? else {
        return Ok(None);
    };
    match rest_of_line(lexer, desk, Some(version), draft, line)? {
        Line::Command(command) => Ok(Some(command)),
        Line::Header(_) => unreachable!(),
    }
}
