//! The whole program.
ghost use Rattle.calls.specs.Calls.{IsCall};

use calls::call;
use std::alloc::Global;

/// Carries out the command of a command line on an input, and writes to the start of two buffers (`calls::call`). No
/// handle is wanted. The answer is the exit status; `written` and `said` tell how many bytes stand in the buffers.
#[unsafe(no_mangle)]
pub extern "C" fn qbf_run(
    alloc: Global,
    line: &[u8],
    input: &[u8],
    out: &mut [u8],
    err: &mut [u8],
    written: &mut usize,
    said: &mut usize,
) -> u32
    ensures { IsCall line.now input.now out.new err.new
        (record { status = result; written = written.new; said = said.new }) }
{
    let done = call(alloc, line, input, out, err);
    *written = done.written;
    *said = done.said;
    done.status
}
