//! A formula that is made from a seed, written.
ghost use Rattle.std.specs.Prelude.{◌≡◌, ◌≢◌, ◌≤◌, length};
ghost use Rattle.ports.specs.Bytes.{AllFlushed};
ghost use Rattle.ports.specs.Causes.{IsCounted};
ghost use Rattle.generate.specs.Made.{made};
ghost use Rattle.qdimacs_out.specs.Texts.{formula_text};
ghost use Rattle.solve.specs.Endings.{IsDone};
ghost use Rattle.samples.specs.Samples.{LeavesText};

use crate::sending::{ending, send_formula};
use generate::make;
use ports::Sink;
use solve::Ending;
use std::alloc::Global;

/// Writes the formula of a seed with so many variables and clauses as QDIMACS 1.1 writes it, and flushes.
///
/// Ends with `Done(0)`, with `WriteFault` only where the sink counted a fault, or with `NoMemory`.
pub fn write_sample<S: Sink>(
    alloc: Global,
    seed: u32,
    vars: u32,
    clauses: u32,
    sink: &mut S,
) -> Ending
    requires low { 3 ≤ vars }
    requires high { vars ≤ 32000 }
    requires count { clauses ≤ 1000000 }
    ensures output { LeavesText (formula_text (made seed vars clauses)) (S.written sink.old) (S.written sink.new)
        result }
    ensures write_fault { IsCounted (result ≡ Ending.WriteFault) (IsDone result) (S.faults sink.old)
        (S.faults sink.new) }
    ensures room { S.has_room sink.old (length (formula_text (made seed vars clauses))) → result ≢ Ending.WriteFault }
    ensures flushed { IsDone result → AllFlushed (S.written sink.new) (S.flushed sink.old) (S.flushed sink.new) }
{
    match make(alloc, seed, vars, clauses) {
        Ok(f) => ending(send_formula(&f, sink)),
        Err(_) => Ending::NoMemory,
    }
}
