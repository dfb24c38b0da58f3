//! Reading a whole text.
ghost use Rattle.std.specs.Prelude.{◌≡◌, List, ℕ, Some, [], IfOk, OnOk, IsOk, IfSome, IsErrOf, false, option_map};
ghost use Rattle.lexer.specs.declared.token.Comments.TheVariants.{Hash};
ghost use Rattle.lexer.specs.Words.{items};
ghost use Rattle.lexer.specs.State.{upcoming};
ghost use Rattle.ports.specs.Causes.{IsCounted};
ghost use Rattle.qcir_reader.specs.Run.{nothing};
ghost use Rattle.qcir_reader.specs.Answers.{IsAnswer, IsSmall, refusal_for};
ghost use Rattle.qcir_reader.specs.Represents.{Represents};

use crate::reader::Reader;
use crate::refusal::{BAD_BYTE, NUMBER_RANGE, QcirRefusal, beyond, refused};
use crate::sign::Stage;
use lexer::{Comments, LexRefusal, Lexer};
use ports::Desk;
use qcir::Circuit;
use reading::Quantity;
use std::alloc::Global;

// What the reader answers for a refusal of the lexer.
fn refusal_of(e: LexRefusal) -> QcirRefusal
    ensures { result ≡ refusal_for e }
{
    match e {
        LexRefusal::ReadFault => QcirRefusal::ReadFault,
        LexRefusal::TooLong { line } => beyond(Quantity::Bytes, line),
        LexRefusal::BadByte { line } => refused(BAD_BYTE, line),
        LexRefusal::NumberRange { line } => refused(NUMBER_RANGE, line),
    }
}

// Reads the words of a text one by one.
fn read_words<D: Desk>(
    lexer: &mut Lexer,
    reader: &mut Reader,
    desk: &mut D,
) -> Result<Circuit, QcirRefusal>
    requires start { upcoming lexer.old (D.left desk.old) ≡ option_map (items Hash) (D.left desk.old) }
    requires front { Represents reader.old nothing }
    requires stage { reader.old.stage ≡ Stage.Between }
    requires failed { lexer.old.failed ≡ false }
    ensures outcome { IfSome (D.left desk.old) (λ text. IsAnswer result text) }
    ensures small { IfOk result IsSmall }
    ensures read { OnOk result (IfSome (D.left desk.old) (λ _. D.left desk.new ≡ Some [])) }
    ensures cause { IsCounted (IsErrOf result QcirRefusal.ReadFault) (IsOk result) (D.faults desk.old)
        (D.faults desk.new) }
    ensures flows { D.flows desk.old → ¬ IsErrOf result QcirRefusal.ReadFault × D.flows desk.new }
    ensures content { (n : List ℕ) → D.content desk.new n ≡ D.content desk.old n }
    ensures stays { (n : List ℕ) → D.steady desk.old n → D.steady desk.new n }
{
    loop {
        match lexer.next(desk) {
            Ok(Some(token)) => reader.take(token)?,
            Ok(None) => return reader.close(lexer.line()),
            Err(e) => return Err(refusal_of(e)),
        }
    }
}

/// Reads the quantified circuit of the text that is left of the desk, by QCIR-14: prenex, with and/or gates, and with
/// numbers from 1 to 1,048,576 as names.
///
/// A `#` and the rest of its line are comment. First come quantifier statements, the outermost first; empty ones are
/// left out, and neighbours of one quantifier are one scope. Then comes one output statement, and then each gate behind
/// those that it is an input of; the output may name any. `docs/QCIR.md` says what of QCIR-14 is left out. Else the
/// answer is the first refusal of the text.
pub fn read_qcir<D: Desk>(alloc: Global, desk: &mut D) -> Result<Circuit, QcirRefusal>
    // The circuit, or the first refusal, of the text, where the desk tells what it holds.
    ensures outcome { IfSome (D.left desk.old) (λ text. IsAnswer result text) }
    // What is true of every circuit, also where the desk tells nothing.
    ensures small { IfOk result IsSmall }
    // A text that is a circuit is read to its end.
    ensures read { OnOk result (IfSome (D.left desk.old) (λ _. D.left desk.new ≡ Some [])) }
    // It gives up only where the desk failed, so never where it flows.
    ensures cause { IsCounted (IsErrOf result QcirRefusal.ReadFault) (IsOk result) (D.faults desk.old)
        (D.faults desk.new) }
    ensures flows { D.flows desk.old → ¬ IsErrOf result QcirRefusal.ReadFault × D.flows desk.new }
    ensures content { (n : List ℕ) → D.content desk.new n ≡ D.content desk.old n }
    ensures stays { (n : List ℕ) → D.steady desk.old n → D.steady desk.new n }
{
    let mut lexer = Lexer::new(alloc, Comments::Hash)?;
    let mut reader = Reader::new(alloc)?;
    read_words(&mut lexer, &mut reader, desk)
}
