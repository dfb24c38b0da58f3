//! Runs of the program in memory.

use crate::table::{Port, Row};
use crate::texts::{meant, printed, words_of};
use anyhow::{Result, ensure};
use ports::{Input, MemoryDesk, MemorySink};
use program::run;
use std::alloc::{AllocError, Global};
use trail::Stopped;

// The room of the output.
const ROOM: usize = 4096;

/// What a run came to.
#[derive(Drop)]
pub struct Done {
    /// All of it, as it is printed.
    pub said: String,
    /// What it wrote.
    pub written: Vec<u8>,
}

// What a run works with.
#[derive(Drop)]
struct World {
    desk: MemoryDesk,
    out: MemorySink,
    err: MemorySink,
}

/// Runs the program with these words on this standard input, and with all else as a row says, where the call with this
/// number fails.
pub fn carry_out(alloc: Global, row: &Row, words: &str, input: Vec<u8>, call: u64) -> Result<Done> {
    let mut world = world_of(alloc, row, input, call)?;
    let (status, stops) = ended(alloc, words, &mut world)?;
    let out = told_output(alloc, &world.out)?;
    let err = told_error(alloc, row.says, status, world.err.bytes())?;
    Ok(Done {
        said: format!(in alloc; "{status}{out}{err}{stops}")?,
        written: Vec::from_slice(alloc, world.out.bytes())?,
    })
}

fn world_of(alloc: Global, row: &Row, input: Vec<u8>, call: u64) -> Result<World> {
    let (reads, writes) = (row.reads, row.writes);
    ensure!(reads > 0 && writes > 0, "a call takes a byte at least");
    let inputs = inputs_of(alloc, row, input)?;
    let (desk, out, err) = match row.fails {
        Port::Desk => (call, 0, 0),
        Port::Out => (0, call, 0),
        Port::Err => (0, 0, call),
    };
    Ok(World {
        desk: MemoryDesk::new(inputs, reads, vec![in alloc; desk]?),
        out: MemorySink::new(alloc, ROOM, writes, vec![in alloc; out]?)?,
        err: MemorySink::new(alloc, row.room, writes, vec![in alloc; err]?)?,
    })
}

// The inputs of a row, with this standard input.
fn inputs_of(alloc: Global, row: &Row, input: Vec<u8>) -> Result<Vec<Input>> {
    let mut inputs = Vec::new(alloc);
    for (name, bytes) in [("-", input), ("f", meant(alloc, row.file)?.into_bytes())] {
        let name = String::from_str(alloc, name)?;
        inputs.push(Input { name, bytes })?;
    }
    Ok(inputs)
}

// The status of the program with these words, and the searches that stopped, as they are printed.
fn ended(alloc: Global, words: &str, world: &mut World) -> Result<(u8, String), AllocError> {
    let words = words_of(alloc, words)?;
    let mut stops = Vec::new(alloc);
    let World { desk, out, err } = world;
    let status = run(alloc, &words, desk, out, err, &mut stops);
    Ok((status, told_stops(alloc, &stops)?))
}

fn told_stops(alloc: Global, stops: &[Stopped]) -> Result<String, AllocError> {
    let mut text = String::new(alloc);
    for stop in stops {
        let (budget, vars, restarts) = (stop.budget(), stop.vars(), stop.restarts());
        write!(
            text,
            ", stop (budget {budget}, variables {vars}, restarts {restarts})"
        )?;
    }
    Ok(text)
}

fn told_output(alloc: Global, out: &MemorySink) -> Result<String, AllocError> {
    if out.bytes().is_empty() {
        return Ok(String::new(alloc));
    }
    let text = printed(alloc, out.bytes())?;
    let how = match out.flushed() {
        [] => "unflushed",
        front if front == out.bytes() => "flushed",
        _ => "flushed in part",
    };
    format!(in alloc; ", out \"{text}\" {how}")
}

// The text for wrong words isn't printed, but for the part that it should have.
fn told_error(alloc: Global, says: &str, status: u8, err: &[u8]) -> Result<String, AllocError> {
    let text = printed(alloc, err)?;
    if !says.is_empty() {
        let verb = if text.as_str().contains(says) {
            "says"
        } else {
            "doesn't say"
        };
        return format!(in alloc; ", err {verb} \"{says}\"");
    }
    match (err.is_empty(), status) {
        (true, _) => Ok(text),
        (_, 7) => String::from_str(alloc, ", err"),
        _ => format!(in alloc; ", err \"{text}\""),
    }
}
