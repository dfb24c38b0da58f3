//! Texts of formulas that are made from seeds, read back, and faults of the sink.
use crate::build::{desk_with, failing_sink, sink_with};
use generate::make;
use ports::{Failed, MemorySink};
use qdimacs::read_formula;
use qdimacs_out::write_formula;
use std::alloc::Global;
use std::test::Fail;
use truth::Formula;

const TWO_CLAUSES: &str = "p cnf 4 2\ne 1 0\na 2 0\ne 3 4 0\n-1 -3 -4 0\n-1 3 -4 0\n";

// The formula that a text is read as.
fn read_back(alloc: Global, text: &[u8]) -> Result<Formula, Fail> {
    let mut desk = desk_with(alloc, text, 4096)?;
    Ok(read_formula(alloc, &mut desk)?)
}

// Whether this is all that a sink gets of a formula, and no flush.
fn gets(sink: &mut MemorySink, f: &Formula, want: &str) -> bool {
    write_formula(f, sink) == Ok(())
        && sink.bytes() == want.as_bytes()
        && sink.flushed() == b"".as_slice()
}

#[test]
fn made_formulas_have_these_texts(rt: HostRuntime) -> Result<(), Fail> {
    for (seed, vars, clauses, want) in [
        (0, 3, 1, "p cnf 3 1\ne 1 0\na 2 0\ne 3 0\n-1 2 -3 0\n"),
        (1, 4, 2, TWO_CLAUSES),
        (7, 5, 0, "p cnf 5 0\ne 1 0\na 2 0\ne 3 4 5 0\n"),
    ] {
        let f = make(rt.alloc(), seed, vars, clauses)?;
        let mut sink = sink_with(rt.alloc(), 64, 3)?;
        assert!(rt; gets(&mut sink, &f, want), "seed {seed}");
    }
    Ok(())
}

// A sink with the text of a formula.
fn written(alloc: Global, f: &Formula) -> Result<MemorySink, Fail> {
    let mut sink = sink_with(alloc, 4096, 4096)?;
    write_formula(f, &mut sink)?;
    Ok(sink)
}

// Whether a formula is read back from its text: that of what is read is the same.
fn is_read_back(alloc: Global, f: &Formula) -> Result<bool, Fail> {
    let sink = written(alloc, f)?;
    let again = written(alloc, &read_back(alloc, sink.bytes())?)?;
    Ok(sink.bytes() == again.bytes())
}

#[test]
fn what_is_written_is_read_back(rt: HostRuntime) -> Result<(), Fail> {
    for (seed, vars, clauses) in [(1, 4, 2), (5, 40, 30), (9, 100, 0)] {
        let f = make(rt.alloc(), seed, vars, clauses)?;
        assert!(rt; is_read_back(rt.alloc(), &f)?, "seed {seed}");
    }
    Ok(())
}

// Whether a sink that fails gets this front alone.
fn gets_front(sink: &mut MemorySink, f: &Formula, front: &[u8]) -> bool {
    write_formula(f, sink) == Err(Failed) && sink.bytes() == front
}

// Whether each call for a byte that fails leaves the bytes before it.
fn leaves_each_front(alloc: Global, f: &Formula, whole: &[u8]) -> Result<bool, Fail> {
    for n in 0..whole.len() {
        let mut sink = failing_sink(alloc, 64, 1, n as u64 + 1)?;
        if !gets_front(&mut sink, f, &whole[..n]) {
            return Ok(false);
        }
    }
    Ok(true)
}

// Each of the calls for a byte fails in turn, and then the room is too small.
#[test]
fn a_fault_leaves_a_front(rt: HostRuntime) -> Result<(), Fail> {
    let f = make(rt.alloc(), 1, 4, 2)?;
    let whole = TWO_CLAUSES.as_bytes();
    assert!(rt; leaves_each_front(rt.alloc(), &f, whole)?);
    let mut sink = sink_with(rt.alloc(), whole.len() - 1, 64)?;
    assert!(rt; gets_front(&mut sink, &f, &whole[..whole.len() - 1]));
    Ok(())
}
