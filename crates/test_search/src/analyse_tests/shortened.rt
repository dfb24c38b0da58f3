//! Lessons that are shortened.

use super::{Ask, Move, Told, run};
use std::test::Fail;

// The literal -2 is implied by -1, and goes where two steps are left.
#[test]
fn implied_literals_go(rt: HostRuntime) -> Result<(), Fail> {
    let moves = [
        Move::Put([-1, 2, 0]),
        Move::Put([-1, -2, -3]),
        Move::Decide(1),
        Move::Propagate(2, 0),
        Move::Decide(3),
        Move::Ask(Ask::Analyse, 1, Told::Learn(-3, 1), [-1, -2, -3], 0),
        Move::Ask(Ask::Analyse, 2, Told::Learn(-3, 1), [-1, -3, 0], 1),
    ];
    run(rt.alloc(), true, &[3], &moves)
}

// The literal -3 is implied by -1 through -2. With two steps -2 comes in and stays, so the lesson is the row as it was.
#[test]
fn literals_go_together(rt: HostRuntime) -> Result<(), Fail> {
    let moves = [
        Move::Put([-1, 2, 0]),
        Move::Put([-2, 3, 0]),
        Move::Put([-1, -3, -4]),
        Move::Decide(1),
        Move::Propagate(2, 0),
        Move::Propagate(3, 1),
        Move::Decide(4),
        Move::Ask(Ask::Analyse, 2, Told::Learn(-4, 1), [-1, -3, -4], 1),
        Move::Ask(Ask::Analyse, 3, Told::Learn(-4, 1), [-1, -4, 0], 2),
    ];
    run(rt.alloc(), true, &[4], &moves)
}
