//! Texts of the formulas of circuits, and their truth by the plain decider.
use crate::circuits::{Case, formula_of};
use ports::MemorySink;
use qdimacs_out::write_formula;
use std::alloc::Global;
use std::test::Fail;
use steps::Steps;
use truth::{Formula, decide_plain};

const SAME_AFTER: &str =
    "p cnf 12 10\na 7 0\ne 3 5 9 12 0\n7 -12 0\n3 -12 0\n-3 -7 12 0\n-5 -7 0\n-3 -5 0\n\
    3 5 7 0\n9 -12 0\n-5 9 0\n5 -9 12 0\n9 0\n";

const SAME_BEFORE: &str =
    "p cnf 12 10\ne 3 0\na 7 0\ne 5 9 12 0\n7 -12 0\n3 -12 0\n-3 -7 12 0\n-5 -7 0\n-3 -5 0\n\
    3 5 7 0\n9 -12 0\n-5 9 0\n5 -9 12 0\n9 0\n";

const DOUBLED: &str =
    "p cnf 11 10\ne 4 0\na 2 6 0\ne 8 10 11 0\n-2 8 0\n-2 8 0\n4 8 0\n2 -4 -8 0\n6 -11 0\n\
    -6 -11 0\n8 -10 0\n-10 -11 0\n-8 10 11 0\n10 0\n";

const NOTHING: &str = "p cnf 2 2\ne 2 0\n-2 0\n2 0\n";

// Whether a formula is written as this text.
fn writes(sink: &mut MemorySink, formula: &Formula, want: &str) -> Result<bool, Fail> {
    write_formula(formula, sink)?;
    Ok(sink.bytes() == want.as_bytes())
}

fn is_written(alloc: Global, formula: &Formula, want: &str) -> Result<bool, Fail> {
    let mut sink = MemorySink::new(alloc, 256, 256, Vec::new(alloc))?;
    writes(&mut sink, formula, want)
}

// Whether the formula of a circuit is written so.
fn has_text(alloc: Global, case: Case, want: &str) -> Result<bool, Fail> {
    let formula = formula_of(alloc, case)?;
    is_written(alloc, &formula, want)
}

// The same of each. Fails with the place of the first one that has another text.
fn have_texts(alloc: Global, cases: &[(Case, &str)]) -> Result<(), Fail> {
    for (place, (case, want)) in cases.iter().enumerate() {
        if !has_text(alloc, *case, want)? {
            return Err(("circuit", place))?;
        }
    }
    Ok(())
}

#[test]
fn circuits_have_these_formulas(rt: HostRuntime) -> Result<(), Fail> {
    let cases = [
        (Case::SameAfter, SAME_AFTER),
        (Case::SameBefore, SAME_BEFORE),
        (Case::Doubled, DOUBLED),
        (Case::Nothing, NOTHING),
    ];
    have_texts(rt.alloc(), &cases)
}

// The truth of the formula of a circuit.
fn truth_of(alloc: Global, case: Case) -> Result<bool, Fail> {
    let formula = formula_of(alloc, case)?;
    Ok(decide_plain(alloc, &formula, &mut Steps::new(1000))?)
}

// Circuits have these truths. Fails with the place of the first one that has the other one.
fn have_truths(alloc: Global, cases: &[(Case, bool)]) -> Result<(), Fail> {
    for (place, (case, want)) in cases.iter().enumerate() {
        if truth_of(alloc, *case)? != *want {
            return Err(("circuit", place))?;
        }
    }
    Ok(())
}

#[test]
fn formulas_are_true_where_circuits_are(rt: HostRuntime) -> Result<(), Fail> {
    let cases = [
        (Case::SameAfter, true),
        (Case::SameBefore, false),
        (Case::Doubled, true),
        (Case::Nothing, false),
    ];
    have_truths(rt.alloc(), &cases)
}
