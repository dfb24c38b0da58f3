//! The program as a static library with one function, for a web page.
#![tactic(auto)]

ghost use Rattle.calls.specs.Calls.{IsCall};

use calls::{Done, call};
use std::alloc::Global;

/// Carries out the command of a command line on an input, and writes to the start of two buffers (`calls::call`).
#[unsafe(no_mangle)]
pub extern "C" fn qbf_run(
    alloc: Global,
    line: &[u8],
    input: &[u8],
    out: &mut [u8],
    error: &mut [u8],
) -> Done
    ensures { IsCall line.now input.now out.new error.new result }
{
    call(alloc, line, input, out, error)
}
