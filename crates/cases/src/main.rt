//! Runs the program on the rows of tables, and prints a line for each run: its status, what it wrote, whether that was
//! flushed, what it said on the error output, and which searches stopped. The words are the names of the tables.
//!
//! A line of a table is a row, a comment behind `#`, or blank. A row has fields between `|`, without the blanks around
//! them:
//!
//!     NAME | WORDS | INPUT | OPTION | ..
//!
//! WORDS are a command line, the program's name first; `''` is the empty word. INPUT is the text of standard input. In
//! a text `/` stands for a line end, and `{N TEXT}` for a text N times, in which `@` is the number of the time, from 1,
//! and `@+K` that number and K, with a blank behind it. An OPTION is a word with its value:
//!
//! - `file TEXT`: the input of the name `f` has this text;
//! - `reads N`, `writes N`: a read gives at most N bytes, a write takes at most N; without it one;
//! - `room N`: the error output takes N bytes in all, and then fails;
//! - `desk N`, `out N`, `err N`: N runs, in which the 1st, 2nd, .. Nth call of the input, the output or the error
//!   output fails;
//! - `says TEXT`: of the error output it is only printed whether it has this part;
//! - `then WORDS`: what the run writes is standard input of a second run with these words, which is printed.
//!
//! In what is printed a line end is `/`, and any other byte that isn't printable ASCII is `\x` with its number. The
//! text for wrong words (status 7) is left out, and only an `err` stands where there is one.
#![tactic(auto)]

mod runs;
mod table;
mod texts;

use anyhow::Result;
use runs::{Done, carry_out};
use std::{env, fs};
use table::Row;
use texts::meant;

fn main(rt: HostRuntime) -> Result<()> {
    for table in env::args(&rt)?.skip(1) {
        let text = fs::read_to_string(&rt, table.as_str())?;
        for line in text.lines() {
            if let Some(row) = Row::read(line)? {
                print_runs(&rt, &row)?;
            }
        }
    }
    Ok(())
}

// Prints the runs of a row.
fn print_runs(rt: &(impl Print + AllocGlobal), row: &Row) -> Result<()> {
    for call in row.calls.min(1)..=row.calls {
        let input = meant(rt.alloc(), row.input)?.into_bytes();
        let Done { mut said, written } = carry_out(rt.alloc(), row, row.words, input, call)?;
        if !row.then.is_empty() {
            said = carry_out(rt.alloc(), row, row.then, written, call)?.said;
        }
        let name = row.name;
        if call == 0 {
            println!(rt; "{name}: {said}")?;
        } else {
            println!(rt; "{name}, call {call}: {said}")?;
        }
    }
    Ok(())
}
