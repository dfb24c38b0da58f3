//! Texts that are written and flushed.
ghost use Rattle.std.specs.Prelude.{◌≡◌, OnOk, IsOk, length, MatchResult};
ghost use Rattle.std.specs.Io.KnownBytes.{Appends};
ghost use Rattle.ports.specs.Bytes.{AllFlushed, AppendsFront};
ghost use Rattle.ports.specs.Causes.{HasCause};
ghost use Rattle.qdimacs_out.specs.Texts.{formula_text};

use ports::{Failed, Sink, write_all};
use qdimacs_out::write_formula;
use solve::Ending;
use truth::Formula;

// Writes a text, and flushes.
pub(crate) fn send_text<S: Sink>(text: &[u8], sink: &mut S) -> Result<(), Failed>
    ensures ok { OnOk result (Appends (S.written sink.old) (S.written sink.new) text.now) }
    ensures front { AppendsFront (S.written sink.old) (S.written sink.new) text.now }
    ensures flushed { OnOk result (AllFlushed (S.written sink.new) (S.flushed sink.old) (S.flushed sink.new)) }
    ensures cause { HasCause (S.faults sink.old) (S.faults sink.new) result }
    ensures room { S.has_room sink.old (length text.now) → IsOk result }
{
    write_all(sink, text)?;
    sink.flush()
}

// Writes a formula, and flushes.
pub(crate) fn send_formula<S: Sink>(f: &Formula, sink: &mut S) -> Result<(), Failed>
    ensures ok { OnOk result (Appends (S.written sink.old) (S.written sink.new) (formula_text f.now)) }
    ensures front { AppendsFront (S.written sink.old) (S.written sink.new) (formula_text f.now) }
    ensures flushed { OnOk result (AllFlushed (S.written sink.new) (S.flushed sink.old) (S.flushed sink.new)) }
    ensures cause { HasCause (S.faults sink.old) (S.faults sink.new) result }
    ensures room { S.has_room sink.old (length (formula_text f.now)) → IsOk result }
{
    write_formula(f, sink)?;
    sink.flush()
}

// How the work ends where a text was sent, or not.
pub(crate) fn ending(sent: Result<(), Failed>) -> Ending
    ensures { MatchResult sent (λ _. result ≡ Ending.Done 0) (λ _. result ≡ Ending.WriteFault) }
{
    match sent {
        Ok(()) => Ending::Done(0),
        Err(Failed) => Ending::WriteFault,
    }
}
