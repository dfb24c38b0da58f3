//! Runs on scripts that stop. In the text `/` stands for a line end.

use super::{World, desk, run_on, sink};
use ports::{Desk, MemoryDesk};
use std::alloc::Global;
use std::test::Fail;

// A text whose lines end in `/`, as bytes.
fn lines(alloc: Global, text: &str) -> Result<Vec<u8>, Fail> {
    let mut bytes = Vec::new(alloc);
    for byte in text.as_bytes() {
        bytes.push(if *byte == b'/' { b'\n' } else { *byte })?;
    }
    Ok(bytes)
}

// A script with two replies, a byte a call.
const TWO_REPLIES: &str = "p qscript 1/scope e/var 1 1/clause 1 0/solve/value 1/";

// How many bytes of a script are still to be read where the call of the output with this number fails.
fn left_at(alloc: Global, script: &[u8], call: u64) -> Result<Option<usize>, Fail> {
    let mut world = World {
        desk: desk(alloc, script, 1)?,
        out: sink(alloc, 64, 1, call)?,
        err: sink(alloc, 64, 64, 0)?,
    };
    let status = run_on(alloc, &["qbf", "script"], &mut world)?;
    if status != 4 {
        return Ok(None);
    }
    Ok(bytes_left(&mut world.desk, script.len()))
}

// How many bytes of its chosen input a desk still gives, of this many at most.
fn bytes_left(desk: &mut MemoryDesk, most: usize) -> Option<usize> {
    let mut byte = [0; 1];
    for count in 0..most {
        if desk.read(&mut byte) == Ok(0) {
            return Some(count);
        }
    }
    None
}

// Where `SAT` is written the line behind `solve` isn't read, and where `value 1` is written not the end. The output
// takes a byte a call, so that `value` begins with the fifth.
#[test]
fn a_reply_is_written_before_the_script_is_read_on(rt: HostRuntime) -> Result<(), Fail> {
    let alloc = rt.alloc();
    let script = lines(alloc, TWO_REPLIES)?;
    assert_eq!(rt; left_at(alloc, &script, 1)?, Some(8));
    assert_eq!(rt; left_at(alloc, &script, 5)?, Some(0));
    Ok(())
}
