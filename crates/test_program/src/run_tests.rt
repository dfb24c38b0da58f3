//! Runs of the whole program in memory that no row of `crates/cases` can say.
ghost use Rattle.std.specs.Prelude.{◌<◌};

mod calls;
mod scripts;

use ports::{Input, MemoryDesk, MemorySink};
use program::{RunEnding, report, run, words_of};
use reading::Quantity;
use solve::Ending;
use std::alloc::Global;
use std::io::{Error, ErrorKind};
use std::test::Fail;

// Texts as words.
fn words(alloc: Global, texts: &[&str]) -> Result<Vec<String>, Fail> {
    let mut all = Vec::new(alloc);
    for text in texts {
        all.push(String::from_str(alloc, text)?)?;
    }
    Ok(all)
}

// A desk with a text as standard input, that gives at most so many bytes a read.
fn desk(alloc: Global, text: &[u8], greatest: usize) -> Result<MemoryDesk, Fail>
    requires { 0 < greatest }
{
    let mut inputs = Vec::new(alloc);
    inputs.push(input(alloc, text)?)?;
    Ok(MemoryDesk::new(inputs, greatest, Vec::new(alloc)))
}

fn input(alloc: Global, text: &[u8]) -> Result<Input, Fail> {
    Ok(Input {
        name: String::from_str(alloc, "-")?,
        bytes: Vec::from_slice(alloc, text)?,
    })
}

// A sink with this room, that takes at most so many bytes at once. The call with this number fails, none where it is 0.
fn sink(alloc: Global, room: usize, greatest: usize, failing: u64) -> Result<MemorySink, Fail>
    requires { 0 < greatest }
{
    let failing = vec![in alloc; failing]?;
    Ok(MemorySink::new(alloc, room, greatest, failing)?)
}

// What a run works with.
#[derive(Drop)]
struct World {
    desk: MemoryDesk,
    out: MemorySink,
    err: MemorySink,
}

// The status of `qbf` with these words.
fn run_on(alloc: Global, given: &[&str], world: &mut World) -> Result<u8, Fail> {
    let given = words(alloc, given)?;
    Ok(carried(alloc, &given, world))
}

fn carried(alloc: Global, given: &[String], world: &mut World) -> u8 {
    let mut stops = Vec::new(alloc);
    let World { desk, out, err } = world;
    run(alloc, given, desk, out, err, &mut stops)
}

// The status where the system has an error of this kind for the words, with what an error output gets of it.
fn status_without_words(alloc: Global, kind: ErrorKind, err: &mut MemorySink) -> u8 {
    match words_of(alloc, Err(Error::from(kind))) {
        Ok(_) => 0,
        Err(ending) => report(err, &ending),
    }
}

// Whether these are the status and the text then.
fn ends_without_words(
    alloc: Global,
    kind: ErrorKind,
    status: u8,
    text: &str,
) -> Result<bool, Fail> {
    let mut err = sink(alloc, 64, 5, 0)?;
    let found = status_without_words(alloc, kind, &mut err);
    Ok(found == status && err.bytes() == text.as_bytes())
}

#[test]
fn words_that_the_system_can_not_give_are_usage(rt: HostRuntime) -> Result<(), Fail> {
    let alloc = rt.alloc();
    for (kind, status, text) in [
        // So a word that isn't UTF-8 is told.
        (ErrorKind::InvalidData, 7, "error: a word isn't UTF-8\n"),
        (ErrorKind::OutOfMemory, 5, "qbf: no memory\n"),
    ] {
        assert!(rt; ends_without_words(alloc, kind, status, text)?, "{text}");
    }
    let given = words_of(alloc, Ok(words(alloc, &["qbf", "solve"])?));
    assert!(rt; given.is_ok_and(|given| given.len() == 2 && given[1].as_str() == "solve"));
    Ok(())
}

// Whether a check formula that is too large in this ends with status 6, and this line.
fn is_limit(alloc: Global, quantity: Quantity, line: &str) -> Result<bool, Fail> {
    let mut err = sink(alloc, 64, 5, 0)?;
    let ending = RunEnding::Worked(Ending::CheckLimit { quantity });
    Ok(report(&mut err, &ending) == 6 && err.bytes() == line.as_bytes())
}

#[test]
fn limits_of_check_formulas_are_told(rt: HostRuntime) -> Result<(), Fail> {
    let alloc = rt.alloc();
    for (quantity, line) in [
        (Quantity::Variables, "qbf: limit variables\n"),
        (Quantity::Clauses, "qbf: limit clauses\n"),
        (Quantity::Literals, "qbf: limit literals\n"),
    ] {
        assert!(rt; is_limit(alloc, quantity, line)?, "{line}");
    }
    Ok(())
}
