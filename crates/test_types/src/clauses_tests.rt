//! Rows of clauses that are given as numbers.
use clauses::{is_tautology, row_of, variables};
use prefix::LitList;
use std::alloc::Global;
use std::test::Fail;

fn numbers(row: &LitList) -> Option<[i32; 3]> {
    match row.lits() {
        [a, b, c] => Some([a.number(), b.number(), c.number()]),
        _ => None,
    }
}

// Whether 3, -1, 3 and 2 come to the row of -1, 2 and 3.
fn ascends(alloc: Global) -> Result<bool, Fail> {
    let row = row_of(alloc, &[3, -1, 3, 2])?.ok_or("a row")?;
    Ok(numbers(&row) == Some([-1, 2, 3]))
}

#[test]
fn a_row_ascends_without_repeats(rt: HostRuntime) -> Result<(), Fail> {
    assert!(rt; ascends(rt.alloc())?);
    assert!(rt; row_of(rt.alloc(), &[2, 1, -2])?.is_none());
    assert_eq!(rt; variables(&[3, -1, 3, 2]), 3);
    assert_eq!(rt;
        (is_tautology(&[3, -1, 3, 2]), is_tautology(&[2, 1, -2])),
        (false, true)
    );
    Ok(())
}
