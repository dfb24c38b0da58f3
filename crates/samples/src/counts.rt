//! Formulas that are made from a seed, decided and counted.
ghost use Rattle.std.specs.Prelude.{◌≡◌, ◌≢◌, ◌≤◌, ◌<◌, ◌+◌, ◌%◌, ◌^◌, ◌++◌, ◌∷◌, [], codes, length, IfOk};
ghost use Rattle.std.specs.Fmt.{decimal};
ghost use Rattle.ports.specs.Bytes.{AllFlushed};
ghost use Rattle.ports.specs.Causes.{IsCounted};
ghost use Rattle.solve.specs.Endings.{IsDone};
ghost use Rattle.samples.specs.Samples.{LeavesText, counted_line, counts_lines, counts_text, false_ones, is_true, true_ones};

use crate::sending::{ending, send_text};
use blocks::LineText;
use generate::make;
use memory::NoMemory;
use ports::Sink;
use solve::{Answer, Ending, decide_formula};
use std::alloc::Global;

// How many formulas are true, and how many false.
#[derive(Clone, Copy)]
struct Counts {
    sat: u32,
    unsat: u32,
}

/// Decides so many formulas that are made from a seed on, each in an engine of its own with a budget that suffices, and
/// writes three lines with how many they are, how many are true and how many false; then flushes.
///
/// Ends with `Done(0)`, with `WriteFault` only where the sink counted a fault, or with `NoMemory`.
pub fn count_samples<S: Sink>(alloc: Global, seed: u32, count: u32, sink: &mut S) -> Ending
    requires { count ≤ 10000 }
    ensures output { LeavesText (counts_text seed count) (S.written sink.old) (S.written sink.new) result }
    ensures write_fault { IsCounted (result ≡ Ending.WriteFault) (IsDone result) (S.faults sink.old)
        (S.faults sink.new) }
    ensures room { S.has_room sink.old (length (counts_text seed count)) → result ≢ Ending.WriteFault }
    ensures flushed { IsDone result → AllFlushed (S.written sink.new) (S.flushed sink.old) (S.flushed sink.new) }
{
    match decide_samples(alloc, seed, count) {
        Ok(counts) => ending(send_text(lines(count, counts).bytes(), sink)),
        Err(NoMemory) => Ending::NoMemory,
    }
}

// Decides so many formulas from a seed on.
fn decide_samples(alloc: Global, seed: u32, count: u32) -> Result<Counts, NoMemory>
    requires { count ≤ 10000 }
    ensures sat { IfOk result (λ c. c.sat ≡ true_ones seed count) }
    ensures unsat { IfOk result (λ c. c.unsat ≡ false_ones seed count) }
{
    let mut counts = Counts { sat: 0, unsat: 0 };
    for i in 0..count {
        if decide_sample(alloc, seed, i)? {
            counts.sat += 1;
        } else {
            counts.unsat += 1;
        }
    }
    Ok(counts)
}

// Whether the formula with that number is true.
fn decide_sample(alloc: Global, seed: u32, i: u32) -> Result<bool, NoMemory>
    requires { i < 10000 }
    ensures { IfOk result (λ t. t ≡ is_true seed i) }
{
    let f = make(alloc, seed_at(seed, i), 3 + i % 10, 1 + i % 37)?;
    match decide_formula(alloc, &f)? {
        Answer::Sat => Ok(true),
        // The budget suffices for twelve variables, so this is `Unsat`.
        _ => Ok(false),
    }
}

// The seed so many further on, of which the generator sees the remainder by 2^31 alone.
fn seed_at(seed: u32, i: u32) -> u32
    ensures { result ≡ (seed + i) % 2 ^ 31 }
{
    ((u64::from(seed) + u64::from(i)) % 2_147_483_648) as u32
}

// The three lines.
fn lines(count: u32, counts: Counts) -> LineText
    ensures { result ≡ counts_lines count counts.sat counts.unsat }
{
    let mut lines = LineText::new();
    lines.word("formulas");
    push_count(&mut lines, count);
    lines.word("sat");
    push_count(&mut lines, counts.sat);
    lines.word("unsat");
    push_count(&mut lines, counts.unsat);
    lines
}

// Puts a blank, a number and a line end behind what the lines have.
fn push_count(lines: &mut LineText, n: u32)
    requires { length lines.old + 42 ≤ 256 }
    ensures bytes { lines.new ≡ lines.old ++ (codes " " ++ (decimal n ++ codes "\n")) }
    ensures len { length lines.new ≤ length lines.old + 42 }
{
    lines.word(" ");
    lines.digits(n);
    lines.word("\n");
}
