//! Runs that call the output once for each block of 4,096 bytes, and once to flush it.

use super::{World, desk, run_on, sink};
use std::alloc::Global;
use std::test::Fail;

const BLOCK: usize = 4096;

// The status of `qbf` with these words, and how many bytes it writes, where the call of the output with this number
// fails. The output takes all that it is given.
fn sent(alloc: Global, given: &[&str], text: &str, failing: u64) -> Result<(u8, usize), Fail> {
    let mut world = World {
        desk: desk(alloc, text.as_bytes(), BLOCK)?,
        out: sink(alloc, 1_000_000, 1_000_000, failing)?,
        err: sink(alloc, 64, 64, 0)?,
    };
    let status = run_on(alloc, given, &mut world)?;
    Ok((status, world.out.bytes().len()))
}

// Whether the call with this number fails behind so many bytes.
fn fails(alloc: Global, given: &[&str], text: &str, call: u64, len: usize) -> Result<bool, Fail> {
    let (status, passed) = sent(alloc, given, text, call)?;
    Ok(status == 4 && passed == len)
}

// Whether each block of so many bytes is one call, and then a flush comes and no other call.
fn is_in_blocks(
    alloc: Global,
    given: &[&str],
    text: &str,
    status: u8,
    len: usize,
) -> Result<bool, Fail> {
    let mut call: u64 = 1;
    for block in 0..len.div_ceil(BLOCK) {
        if !fails(alloc, given, text, call, block.saturating_mul(BLOCK))? {
            return Ok(false);
        }
        call = call.saturating_add(1);
    }
    let flush = fails(alloc, given, text, call, len)?;
    let (found, whole) = sent(alloc, given, text, call.saturating_add(1))?;
    Ok(flush && found == status && whole == len)
}

// A formula without clauses, of so many existential variables.
fn free(alloc: Global, vars: u32) -> Result<String, Fail> {
    let mut text = format!(in alloc; "p cnf {vars} 0\ne ")?;
    for var in 1..=vars {
        write!(text, "{var} ")?;
    }
    text.push_str("0\n")?;
    Ok(text)
}

// A false formula: a chain of implications between four hundred variables, all of which its refutation needs.
fn chain(alloc: Global) -> Result<String, Fail> {
    let mut text = String::from_str(alloc, "p cnf 400 401\n1 0\n")?;
    for var in 1..400 {
        let next = var + 1;
        write!(text, "-{var} {next} 0\n")?;
    }
    text.push_str("-400 0\n")?;
    Ok(text)
}

// Whether more than three blocks come, each by one call, with this status in the end.
fn comes_in_blocks(alloc: Global, given: &[&str], text: &str, status: u8) -> Result<bool, Fail> {
    let (found, len) = sent(alloc, given, text, 0)?;
    Ok(found == status && len > 3 * BLOCK && is_in_blocks(alloc, given, text, status, len)?)
}

#[test]
fn each_block_is_one_call_of_the_output(rt: HostRuntime) -> Result<(), Fail> {
    let alloc = rt.alloc();
    let chain = chain(alloc)?;
    assert!(rt; comes_in_blocks(alloc, &["qbf", "trace"], chain.as_str(), 20)?);
    let free = free(alloc, 2000)?;
    for (given, status) in [
        (["qbf", "cert"].as_slice(), 10),
        (&["qbf", "cert", "--binary"], 10),
        (&["qbf", "solve", "--qdo"], 10),
        (&["qbf", "gen", "7", "300", "1000"], 0),
    ] {
        assert!(rt;
            comes_in_blocks(alloc, given, free.as_str(), status)?,
            "{given:?}"
        );
    }
    Ok(())
}
