//! Small formulas, decided by the plain decider.
use crate::build::{clause_list, formula};
use prefix::Quant;
use std::alloc::Global;
use std::test::Fail;
use steps::{Steps, Stop};
use truth::{ClauseList, Formula, decide_plain};

// What the decider answers with exactly so many steps, and whether one step fewer is too few.
fn decides(alloc: Global, f: &Formula, steps: u64) -> Result<Option<bool>, Fail> {
    let mut enough = Steps::new(steps);
    let answer = decide_plain(alloc, f, &mut enough)?;
    if enough.spent() != steps {
        return Ok(None);
    }
    if steps > 0 {
        let mut few = Steps::new(steps - 1);
        if decide_plain(alloc, f, &mut few) != Err(Stop::Spent) || few.spent() != steps - 1 {
            return Ok(None);
        }
    }
    Ok(Some(answer))
}

// Whether the formula of these scopes and clauses is decided so.
fn is_decided(
    alloc: Global,
    scopes: &[(Quant, u64)],
    clauses: &[i32],
    steps: u64,
    answer: bool,
) -> Result<bool, Fail> {
    let f = formula(alloc, scopes, clauses)?;
    Ok(decides(alloc, &f, steps)? == Some(answer))
}

const E: Quant = Quant::Exists;

const A: Quant = Quant::Forall;

#[test]
fn formulas_are_decided_in_their_steps(rt: HostRuntime) -> Result<(), Fail> {
    let cases = [
        // For each value of 1 there is one of 2 that differs from it, but not the other way round.
        (
            [(A, 1), (E, 2)].as_slice(),
            [1, 2, 0, -1, -2, 0].as_slice(),
            5,
            true,
        ),
        (
            [(E, 2), (A, 1)].as_slice(),
            [1, 2, 0, -1, -2, 0].as_slice(),
            5,
            false,
        ),
        ([].as_slice(), [].as_slice(), 0, true),
        ([].as_slice(), [0].as_slice(), 0, false),
        ([(E, 1)].as_slice(), [1, 0].as_slice(), 2, true),
        ([(E, 1)].as_slice(), [-1, 0].as_slice(), 1, true),
        // An innermost universal variable.
        (
            [(E, 1), (A, 2)].as_slice(),
            [1, 2, 0, 1, -2, 0].as_slice(),
            5,
            true,
        ),
    ];
    for (scopes, clauses, steps, answer) in cases {
        assert!(rt; is_decided(rt.alloc(), scopes, clauses, steps, answer)?);
    }
    Ok(())
}

#[test]
fn lists_of_clauses_come_from_vectors_and_go_back(rt: HostRuntime) -> Result<(), Fail> {
    let alloc = rt.alloc();
    let list = ClauseList::from_vec(clause_list(alloc, &[1, -2, 0])?.into_vec());
    assert_eq!(rt; list.clauses().len(), 1);
    assert_eq!(rt; list.into_vec().len(), 1);
    Ok(())
}
