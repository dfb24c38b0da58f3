//! A call of the program.
ghost use Rattle.std.specs.Prelude.{◌≡◌, IfOk, map, string_bytes};
ghost use Rattle.calls.specs.Calls.{IsCall, IsRun};

use crate::words::words_of;
use crate::{LentDesk, LentSink};
use program::run;
use std::alloc::{AllocError, Global};
use std::str;

/// How a call ends: the exit status, and how many bytes stand at the start of the buffers of the two outputs.
#[derive(Clone, Copy, Debug)]
#[repr(C)]
pub struct Done {
    pub status: u32,
    pub written: usize,
    pub said: usize,
}

/// Carries out the command whose words stand in `line`, parted by white space and without the program's name, as `qbf`
/// does (`program::run`). `input` is the text of standard input, and of each name. What is written goes to the start
/// of `out`, and what is said of an error to that of `error`, as far as it has room.
///
/// The status is that of `qbf`: 4 where `out` is too short for what is written, 5 for want of memory, and 7 also where
/// the line isn't UTF-8.
pub fn call(alloc: Global, line: &[u8], input: &[u8], out: &mut [u8], error: &mut [u8]) -> Done
    ensures { IsCall line.now input.now out.new error.new result }
{
    let Ok(line) = str::from_utf8(line) else {
        return ended(7);
    };
    match called(alloc, line, input, out, error) {
        Ok(done) => done,
        Err(_) => ended(5),
    }
}

// The end of a call that came to nothing.
fn ended(status: u32) -> Done
    ensures { result ≡ record { status = status; written = 0; said = 0 } }
{
    Done {
        status,
        written: 0,
        said: 0,
    }
}

// The same as `call` for a line that is UTF-8, or want of memory.
fn called(
    alloc: Global,
    line: &str,
    input: &[u8],
    out: &mut [u8],
    error: &mut [u8],
) -> Result<Done, AllocError>
    ensures { IfOk result (λ done. IsRun line.now input.now out.new error.new done) }
{
    let words = words_of(alloc, line)?;
    let mut desk = LentDesk::new(input);
    let mut output = LentSink::new(out);
    let mut errors = LentSink::new(error);
    let mut stops = Vec::new(alloc);
    let status = run(
        alloc,
        &words,
        &mut desk,
        &mut output,
        &mut errors,
        &mut stops,
    );
    let written = output.count();
    let said = errors.count();
    Ok(Done {
        status: u32::from(status),
        written,
        said,
    })
}
