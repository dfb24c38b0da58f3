//! Tests of `core_of`.
ghost use Rattle.std.specs.Prelude.{IsTrue};
ghost use Rattle.std.specs.List.{AllByRecursion};
ghost use Rattle.calculus.specs.Rows.{IsRow};
ghost use Rattle.cores.specs.Cores.{grouped_in};

use cores::{Part, Question, core_of};
use fixtures::{is_row, prefix_of, rows};
use prefix::{LitList, Prefix, Quant, Var};
use search::SolveStop;
use std::alloc::Global;
use std::test::Fail;

// Whether each of these clauses is a row over the prefix.
fn are_rows(prefix: &Prefix, rows: &[LitList]) -> bool
    ensures { IsTrue result → AllByRecursion (IsRow prefix.now) rows.now }
{
    for row in rows {
        if !is_row(prefix, row.lits()) {
            return false;
        }
    }
    true
}

// Whether each clause of these groups is one.
fn are_grouped(prefix: &Prefix, parts: &[Part<'_>]) -> bool
    ensures { IsTrue result → AllByRecursion (IsRow prefix.now) (grouped_in parts.now) }
{
    for part in parts {
        if !are_rows(prefix, part.clauses()) {
            return false;
        }
    }
    true
}

// Groups of one clause each, numbered from 1.
fn parts_of<'a>(alloc: Global, rows: &'a [LitList]) -> Result<Vec<Part<'a>>, Fail> {
    let mut parts = Vec::new(alloc);
    let mut number = 0_u32;
    for row in rows.chunks(1) {
        number = number.checked_add(1).ok_or("too many groups")?;
        parts.push(Part::new(number, row))?;
    }
    Ok(parts)
}

// The core of groups of one clause each, without assumptions, with other clauses; all end in 0. None is found where the
// budget is spent.
fn core(
    alloc: Global,
    prefix: &Prefix,
    others: &[i32],
    clauses: &[i32],
    budget: u64,
) -> Result<Option<Vec<u32>>, Fail> {
    let others = rows(alloc, others)?;
    let clauses = rows(alloc, clauses)?;
    let parts = parts_of(alloc, &clauses)?;
    if !are_rows(prefix, &others) {
        return Err("no rows")?;
    }
    if !are_grouped(prefix, &parts) {
        return Err("no groups")?;
    }
    // Its variables are in range.
    let _valid = prefix.scopes();
    let question = Question {
        prefix,
        assumptions: &[],
        budget,
        restarts: 0,
        kept: 512,
    };
    match core_of(alloc, &question, Var::MAX as usize, &others, &parts) {
        Ok(core) => Ok(Some(core)),
        Err(SolveStop::Spent(_)) => Ok(None),
        Err(SolveStop::NoMemory) => Err("out of memory")?,
    }
}

// Over e 1 2, with these other clauses, each clause a group: 1 and 3 are the same, and either falsifies 2; all of a
// chain are needed; none is where the other clauses are false alone; and with the groups 1 and 2 alone both are needed.
#[test]
fn cores_are_found(rt: HostRuntime) -> Result<(), Fail> {
    let prefix = prefix_of(rt.alloc(), &[Quant::Exists], &[1, 1])?;
    for (others, clauses, wanted) in [
        (
            [].as_slice(),
            [1, 0, -1, 0, 1, 0].as_slice(),
            [2, 3].as_slice(),
        ),
        ([].as_slice(), [1, 0, -1, 0].as_slice(), [1, 2].as_slice()),
        (
            [].as_slice(),
            [1, 0, -1, 2, 0, -2, 0].as_slice(),
            [1, 2, 3].as_slice(),
        ),
        (
            [-1, 0].as_slice(),
            [-2, 0, 1, 2, 0, 1, 0].as_slice(),
            [3].as_slice(),
        ),
        (
            [1, 0, -1, 0].as_slice(),
            [2, 0, -2, 0].as_slice(),
            [].as_slice(),
        ),
    ] {
        let core = core(rt.alloc(), &prefix, others, clauses, 1_000)?;
        assert!(rt; core.is_some_and(|core| core.as_slice() == wanted));
    }
    Ok(())
}

// Without steps no trial is decided.
#[test]
fn no_steps_give_no_core(rt: HostRuntime) -> Result<(), Fail> {
    let prefix = prefix_of(rt.alloc(), &[Quant::Exists], &[1, 1])?;
    let core = core(rt.alloc(), &prefix, &[], &[1, 2, 0, -1, 0, -2, 0], 0)?;
    assert!(rt; core.is_none());
    Ok(())
}
