//! What is written of a verdict.
ghost use Rattle.std.specs.Prelude.{◌≡◌};
ghost use Rattle.aiger_out.specs.Aag.{IsAagText};
ghost use Rattle.aiger_out.specs.Binary.{IsAigBytes};
ghost use Rattle.aig.specs.Strategies.{IsStrategy};
ghost use Rattle.qrp_trace.specs.Texts.{qrp_text};
ghost use Rattle.ports.specs.Writing.{Writes};
ghost use Rattle.solve.specs.Answers.{answer_line};
ghost use Rattle.solve.specs.Certificates.{Denotes};
ghost use Rattle.solve.specs.Outputs.{Text};

use crate::answer::Answer;
use aig::Strategy;
use aiger_out::{write_aag, write_aig};
use ports::{Failed, Sink, write_all};
use prefix::Prefix;
use qrp_trace::write_trace;
use step_core::Core;

/// Writes the line of an answer.
pub fn write_answer<S: Sink>(answer: Answer, sink: &mut S) -> Result<(), Failed>
    ensures { Writes S.written S.flushed S.faults S.has_room sink.old sink.new (answer_line answer) result }
{
    write(answer.line().as_bytes(), sink)
}

/// Writes a trace.
pub fn write_core<S: Sink>(core: &Core, prefix: &Prefix, sink: &mut S) -> Result<(), Failed>
    ensures { Writes S.written S.flushed S.faults S.has_room sink.old sink.new (qrp_text prefix.now core.now) result }
{
    write_trace(core, prefix, sink)
}

/// Writes a circuit in ASCII, or in the binary form.
pub fn write_circuit<S: Sink>(strategy: &Strategy, binary: bool, sink: &mut S) -> Result<(), Failed>
    requires { IsStrategy strategy.now }
    ensures { (text : Text) × Denotes binary text strategy.now
        × Writes S.written S.flushed S.faults S.has_room sink.old sink.new text result }
{
    if binary {
        write_bytes(strategy, sink)
    } else {
        write_text(strategy, sink)
    }
}

// Writes a circuit in ASCII.
fn write_text<S: Sink>(strategy: &Strategy, sink: &mut S) -> Result<(), Failed>
    requires { IsStrategy strategy.now }
    ensures { (text : Text) × IsAagText text strategy.now
        × Writes S.written S.flushed S.faults S.has_room sink.old sink.new text result }
{
    write_aag(strategy, sink)
}

// Writes a circuit in the binary form.
fn write_bytes<S: Sink>(strategy: &Strategy, sink: &mut S) -> Result<(), Failed>
    requires { IsStrategy strategy.now }
    ensures { (bytes : Text) × IsAigBytes bytes strategy.now
        × Writes S.written S.flushed S.faults S.has_room sink.old sink.new bytes result }
{
    write_aig(strategy, sink)
}

/// Writes bytes.
pub fn write<S: Sink>(bytes: &[u8], sink: &mut S) -> Result<(), Failed>
    ensures { Writes S.written S.flushed S.faults S.has_room sink.old sink.new bytes.now result }
{
    write_all(sink, bytes)
}
