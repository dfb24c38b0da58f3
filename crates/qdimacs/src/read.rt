//! Reading a whole text.
ghost use Rattle.std.specs.Prelude.{◌≡◌, List, ℕ, Some, [], IfOk, OnOk, IsOk, IfSome, IsErrOf, false, option_map};
ghost use Rattle.lexer.specs.declared.token.Comments.TheVariants.{Dimacs};
ghost use Rattle.lexer.specs.Words.{items};
ghost use Rattle.lexer.specs.State.{upcoming};
ghost use Rattle.ports.specs.Causes.{IsCounted};
ghost use Rattle.qdimacs.specs.Rules.{nothing};
ghost use Rattle.qdimacs.specs.Answers.{IsAnswer};
ghost use Rattle.truth.specs.Formed.{IsFormed};
ghost use Rattle.qdimacs.specs.Step.{refusal_for};
ghost use Rattle.qdimacs.specs.Represents.{Represents};

use crate::reader::Reader;
use crate::refusal::{BAD_BYTE, NUMBER_RANGE, beyond, refused};
use lexer::{Comments, LexRefusal, Lexer};
use ports::Desk;
use reading::{Quantity, ReadRefusal};
use std::alloc::Global;
use truth::Formula;

// What the reader answers for a refusal of the lexer.
fn refusal_of(e: LexRefusal) -> ReadRefusal
    ensures { result ≡ refusal_for e }
{
    match e {
        LexRefusal::ReadFault => ReadRefusal::ReadFault,
        LexRefusal::TooLong { line } => beyond(Quantity::Bytes, line),
        LexRefusal::BadByte { line } => refused(BAD_BYTE, line),
        LexRefusal::NumberRange { line } => refused(NUMBER_RANGE, line),
    }
}

// Reads the words of a text one by one.
fn read_words<D: Desk>(
    lexer: &mut Lexer,
    reader: &mut Reader,
    desk: &mut D,
) -> Result<Formula, ReadRefusal>
    requires start { upcoming lexer.old (D.left desk.old) ≡ option_map (items Dimacs) (D.left desk.old) }
    requires front { Represents reader.old nothing }
    requires failed { lexer.old.failed ≡ false }
    ensures outcome { IfSome (D.left desk.old) (λ text. IsAnswer result text) }
    ensures formed { IfOk result IsFormed }
    ensures read { OnOk result (IfSome (D.left desk.old) (λ _. D.left desk.new ≡ Some [])) }
    ensures cause { IsCounted (IsErrOf result ReadRefusal.ReadFault) (IsOk result) (D.faults desk.old)
        (D.faults desk.new) }
    ensures flows { D.flows desk.old → ¬ IsErrOf result ReadRefusal.ReadFault × D.flows desk.new }
    ensures content { (n : List ℕ) → D.content desk.new n ≡ D.content desk.old n }
    ensures stays { (n : List ℕ) → D.steady desk.old n → D.steady desk.new n }
{
    loop {
        match lexer.next(desk) {
            Ok(Some(token)) => reader.take(token)?,
            Ok(None) => return reader.close(lexer.line()),
            Err(e) => return Err(refusal_of(e)),
        }
    }
}

/// Reads the formula of the text that is left of the desk, by QDIMACS 1.1.
///
/// The declared clauses are all there, and no more. Neighbouring sets of one quantifier are one scope, and empty sets
/// none. A variable that occurs in a clause and in no set is existential and outermost. A repeated literal stands once,
/// and a clause with a literal and its negation is left out. Else the answer is the first refusal of the text. Repeats
/// and tautologies count for the limits here, and not in an engine: so an engine refuses no clause of the answer by a
/// limit.
pub fn read_formula<D: Desk>(alloc: Global, desk: &mut D) -> Result<Formula, ReadRefusal>
    // The formula, or the first refusal, of the text, where the desk tells what it holds.
    ensures outcome { IfSome (D.left desk.old) (λ text. IsAnswer result text) }
    // What is true of every formula, also where the desk tells nothing.
    ensures formed { IfOk result IsFormed }
    // A text that is a formula is read to its end.
    ensures read { OnOk result (IfSome (D.left desk.old) (λ _. D.left desk.new ≡ Some [])) }
    // It gives up only where the desk failed, so never where it flows.
    ensures cause { IsCounted (IsErrOf result ReadRefusal.ReadFault) (IsOk result) (D.faults desk.old)
        (D.faults desk.new) }
    ensures flows { D.flows desk.old → ¬ IsErrOf result ReadRefusal.ReadFault × D.flows desk.new }
    ensures content { (n : List ℕ) → D.content desk.new n ≡ D.content desk.old n }
    ensures stays { (n : List ℕ) → D.steady desk.old n → D.steady desk.new n }
{
    let mut lexer = Lexer::new(alloc, Comments::Dimacs)?;
    let mut reader = Reader::new(alloc);
    read_words(&mut lexer, &mut reader, desk)
}
