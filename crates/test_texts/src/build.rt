//! Desks with a text, sinks with some room, and variables of numbers.
ghost use Rattle.std.specs.Prelude.{◌<◌};

use ports::{Desk, Input, MemoryDesk, MemorySink};
use prefix::Var;
use std::alloc::Global;
use std::test::Fail;

// The variable with this number.
pub(crate) fn variable(n: u32) -> Result<Var, Fail> {
    Ok(Var::new(n).ok_or("range")?)
}

// A desk with this text, that gives at most so many bytes a read.
pub(crate) fn desk_with(alloc: Global, text: &[u8], greatest: usize) -> Result<MemoryDesk, Fail>
    requires { 0 < greatest }
{
    failing_desk(alloc, text, greatest, Vec::new(alloc))
}

// A text under the name of the standard input, alone.
fn inputs_of(alloc: Global, text: &[u8]) -> Result<Vec<Input>, Fail> {
    let mut inputs = Vec::new(alloc);
    inputs.push(Input {
        name: String::from_str(alloc, "-")?,
        bytes: Vec::from_slice(alloc, text)?,
    })?;
    Ok(inputs)
}

// A desk with this text, that gives at most so many bytes a read. The calls with these numbers fail.
pub(crate) fn failing_desk(
    alloc: Global,
    text: &[u8],
    greatest: usize,
    failing: Vec<u64>,
) -> Result<MemoryDesk, Fail>
    requires { 0 < greatest }
{
    let mut desk = MemoryDesk::new(inputs_of(alloc, text)?, greatest, failing);
    desk.choose("-")?;
    Ok(desk)
}

// A sink with this room that takes at most so many bytes at once.
pub(crate) fn sink_with(alloc: Global, room: usize, greatest: usize) -> Result<MemorySink, Fail>
    requires { 0 < greatest }
{
    Ok(MemorySink::new(alloc, room, greatest, Vec::new(alloc))?)
}

// The same where the call with this number fails.
pub(crate) fn failing_sink(
    alloc: Global,
    room: usize,
    greatest: usize,
    failing: u64,
) -> Result<MemorySink, Fail>
    requires { 0 < greatest }
{
    let failing = vec![in alloc; failing]?;
    Ok(MemorySink::new(alloc, room, greatest, failing)?)
}
