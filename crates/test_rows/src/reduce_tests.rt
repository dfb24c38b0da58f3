//! Tests of `reduce`.
use fixtures::{ascends, literal, prefix_of, rows, variable};
use prefix::{Clauses, Cubes, Lit, LitList, Prefix, Side, Var};
use reduce::{Row, clashes, is_reduced, reduce, resolve};
use std::alloc::Global;
use std::test::Fail;

// Variable 2 in the first scope and 1 in the second; the first is of the side's pivot quantifier, or the second.
fn two_then_one<S: Side>(alloc: Global, pivot_first: bool) -> Result<Prefix, Fail> {
    if pivot_first {
        prefix_of(alloc, &[S::PIVOT, S::PIVOT.other()], &[2, 1])
    } else {
        prefix_of(alloc, &[S::PIVOT.other(), S::PIVOT], &[2, 1])
    }
}

// Puts the literal of a number into a row, or nothing for 0.
fn put(row: &mut Row, number: i32) -> Result<(), Fail> {
    if number != 0 {
        row.push(literal(number)?)?;
    }
    Ok(())
}

// A row as it is before it is written: with the literal of a number, or empty for 0.
fn row_before(alloc: Global, number: i32) -> Result<Row, Fail> {
    let mut row = Row::new(alloc);
    put(&mut row, number)?;
    Ok(row)
}

// Whether the reduction of a row is this one, and the row is told reduced exactly where it is its own reduction.
fn is_reduction<S: Side>(
    prefix: &Prefix,
    lits: &[Lit],
    want: &[Lit],
    out: &mut Row,
) -> Result<bool, Fail> {
    reduce::<S>(prefix, lits, out)?;
    Ok(out.as_slice() == want && is_reduced::<S>(prefix, lits) == (lits == want))
}

// Whether of two rows, which stand in a list, the second is the reduction of the first.
fn is_case<S: Side>(prefix: &Prefix, case: &[LitList], out: &mut Row) -> Result<bool, Fail> {
    match case {
        [lits, want, ..] => is_reduction::<S>(prefix, lits.lits(), want.lits(), out),
        _ => Ok(false),
    }
}

// The same for rows that are given by numbers, each with a 0 behind it.
fn is_listed_case<S: Side>(
    alloc: Global,
    prefix: &Prefix,
    numbers: &[i32],
    out: &mut Row,
) -> Result<bool, Fail> {
    let case = rows(alloc, numbers)?;
    is_case::<S>(prefix, &case, out)
}

// The same for each case. Fails with the place of the first one that isn't so.
fn are_cases<S: Side>(
    alloc: Global,
    prefix: &Prefix,
    cases: &[[i32; 6]],
    out: &mut Row,
) -> Result<(), Fail> {
    for (place, case) in cases.iter().enumerate() {
        if !is_listed_case::<S>(alloc, prefix, case, out)? {
            return Err(("case", place))?;
        }
    }
    Ok(())
}

// The same written over a row with the literal of a number, or over an empty one for 0.
fn reduces_over<S: Side>(
    alloc: Global,
    prefix: &Prefix,
    before: i32,
    cases: &[[i32; 6]],
) -> Result<(), Fail> {
    let mut out = row_before(alloc, before)?;
    are_cases::<S>(alloc, prefix, cases, &mut out)
}

// The same of one side.
fn reduces<S: Side>(
    alloc: Global,
    pivot_first: bool,
    before: i32,
    cases: &[[i32; 6]],
) -> Result<(), Fail> {
    let prefix = two_then_one::<S>(alloc, pivot_first)?;
    reduces_over::<S>(alloc, &prefix, before, cases)
}

#[test]
fn what_nothing_blocks_goes(rt: HostRuntime) -> Result<(), Fail> {
    let cases = [
        [1, 2, 0, 2, 0, 0],
        [-1, -2, 0, -2, 0, 0],
        [1, 0, 1, 0, 0, 0],
        [1, 3, 0, 1, 3, 0],
        [2, 3, 0, 2, 0, 0],
        [0, 0, 0, 0, 0, 0],
    ];
    reduces::<Clauses>(rt.alloc(), true, 5, &cases)?;
    reduces::<Cubes>(rt.alloc(), true, 5, &cases)
}

#[test]
fn a_blocked_literal_stays(rt: HostRuntime) -> Result<(), Fail> {
    let cases = [[1, 2, 0, 1, 2, 0]];
    reduces::<Clauses>(rt.alloc(), false, 0, &cases)?;
    reduces::<Cubes>(rt.alloc(), false, 0, &cases)
}

// Whether the resolvent of two rows on variable 2 is this one.
fn is_resolvent(a: &[Lit], b: &[Lit], want: &[Lit], out: &mut Row) -> Result<bool, Fail> {
    resolve(a, b, variable(2)?, out)?;
    Ok(out.as_slice() == want)
}

// Whether of three rows, which stand in a list, the third is the resolvent of the others.
fn is_resolution(case: &[LitList], out: &mut Row) -> Result<bool, Fail> {
    match case {
        [a, b, want, ..] => is_resolvent(a.lits(), b.lits(), want.lits(), out),
        _ => Ok(false),
    }
}

// The same for rows that are given by numbers, each with a 0 behind it.
fn is_listed_resolution(alloc: Global, numbers: &[i32], out: &mut Row) -> Result<bool, Fail> {
    let case = rows(alloc, numbers)?;
    is_resolution(&case, out)
}

// The same for each case. Fails with the place of the first one that isn't so.
fn are_resolutions(alloc: Global, cases: &[[i32; 12]], out: &mut Row) -> Result<(), Fail> {
    for (place, case) in cases.iter().enumerate() {
        if !is_listed_resolution(alloc, case, out)? {
            return Err(("case", place))?;
        }
    }
    Ok(())
}

// The same written over a row with the literal of a number.
fn resolves(alloc: Global, before: i32, cases: &[[i32; 12]]) -> Result<(), Fail> {
    let mut out = row_before(alloc, before)?;
    are_resolutions(alloc, cases, &mut out)
}

#[test]
fn a_resolvent_has_each_literal_once(rt: HostRuntime) -> Result<(), Fail> {
    let cases = [
        [1, 2, 4, 0, -2, 3, 4, 0, 1, 3, 4, 0],
        [2, 0, -2, 0, 0, 0, 0, 0, 0, 0, 0, 0],
        [2, 7, 0, -2, 4, 6, 0, 4, 6, 7, 0, 0],
    ];
    resolves(rt.alloc(), 5, &cases)
}

// Whether two rows clash but over a variable; none where one of them doesn't ascend.
fn clash(a: &[Lit], b: &[Lit], pivot: Var) -> Option<bool> {
    if !ascends(a) || !ascends(b) {
        return None;
    }
    Some(clashes(a, b, pivot))
}

// Whether the rows over two variables with these signed numbers clash but over the variable of a number.
fn clash_of(first: [i32; 2], second: [i32; 2], pivot: u32) -> Result<Option<bool>, Fail> {
    let a = [literal(first[0])?, literal(first[1])?];
    let b = [literal(second[0])?, literal(second[1])?];
    Ok(clash(&a, &b, variable(pivot)?))
}

// Two rows, a variable, and whether they clash but over it.
type Clash = ([i32; 2], [i32; 2], u32, bool);

fn is_clash(case: Clash) -> Result<bool, Fail> {
    let (first, second, pivot, want) = case;
    Ok(clash_of(first, second, pivot)? == Some(want))
}

fn are_clashes(cases: &[Clash]) -> Result<(), Fail> {
    for (place, case) in cases.iter().enumerate() {
        if !is_clash(*case)? {
            return Err(("case", place))?;
        }
    }
    Ok(())
}

#[test]
fn opposite_signs_clash_but_over_the_pivot() -> Result<(), Fail> {
    are_clashes(&[
        ([1, 2], [-1, -2], 2, true),
        ([1, 2], [-1, -2], 1, true),
        ([1, 2], [-2, 3], 2, false),
        ([1, 2], [-2, 3], 1, true),
        ([-1, -2], [-2, 3], 1, false),
    ])
}
