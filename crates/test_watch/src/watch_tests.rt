//! Tests of `watch`.
mod desk;
mod drawn;
mod plain;

use desk::Desk;
use drawn::are_right;
use fixtures::{by_turns, literal, row, variable};
use prefix::{Clauses, Cubes, Lit, Quant, Side};
use rows::RowId;
use std::alloc::Global;
use std::test::Fail;
use watch::Event;

// What to assign so that the literal of a row over this variable is bad, or good.
fn bad<S: Side>(number: u32) -> Result<Lit, Fail> {
    Ok(Lit::new(variable(number)?, S::BAD))
}

fn good<S: Side>(number: u32) -> Result<Lit, Fail> {
    Ok(Lit::new(variable(number)?, !S::BAD))
}

// A move of a script. Rows are named by their ids, variables by their numbers.
#[derive(Clone, Copy)]
enum Move {
    // Puts in and attaches a row of the positive literals over these variables, but for 0.
    Add([i32; 3]),
    Detach(RowId),
    // Lets the literal of rows over a variable become bad, or good.
    Spoil(u32),
    Please(u32),
    // Lets the literal of rows over one variable become bad, and the one over another variable good by a decision: a
    // decision comes only behind another literal.
    Decide(u32, u32),
    // Cuts the trail to level 0, or empties it.
    Undo,
    Clear,
    // Looks whether this comes next: the row is unit in its literal over the variable, bad, or no row is either.
    Unit(RowId, i32),
    Bad(RowId),
    Quiet,
    // Looks whether the row is in the lists of these names.
    Lists(RowId, usize, usize),
    // Makes many moves that are drawn, from a seed.
    Drawn(u32),
}

fn decide_behind<S: Side>(desk: &mut Desk<S>, lit: Lit, next: Lit) -> Result<(), Fail> {
    desk.propagate(lit)?;
    desk.decide(next)
}

// Assigns what a move says; any other one takes literals off.
fn assign<S: Side>(desk: &mut Desk<S>, step: Move) -> Result<(), Fail> {
    match step {
        Move::Spoil(number) => desk.propagate(bad::<S>(number)?),
        Move::Please(number) => desk.propagate(good::<S>(number)?),
        Move::Decide(number, next) => decide_behind(desk, bad::<S>(number)?, good::<S>(next)?),
        Move::Undo => {
            desk.undo(0);
            Ok(())
        }
        _ => {
            desk.clear();
            Ok(())
        }
    }
}

// Looks whether an event comes next.
fn comes_next<S: Side>(desk: &mut Desk<S>, wanted: Event) -> bool {
    match desk.next() {
        Some(event) => event == wanted,
        None => false,
    }
}

fn add<S: Side>(desk: &mut Desk<S>, alloc: Global, numbers: &[i32]) -> Result<bool, Fail> {
    let lits = row(alloc, numbers)?;
    desk.add(&lits)
}

// Makes a move; whether it could be made, and what it looks for is so.
fn make<S: Side>(desk: &mut Desk<S>, alloc: Global, step: Move) -> Result<bool, Fail> {
    match step {
        Move::Add(numbers) => add(desk, alloc, &numbers),
        Move::Detach(id) => Ok(desk.detach(id)),
        Move::Unit(id, number) => {
            let lit = literal(number)?;
            Ok(comes_next(desk, Event::Unit(id, lit)))
        }
        Move::Bad(id) => Ok(comes_next(desk, Event::Bad(id))),
        Move::Quiet => Ok(comes_next(desk, Event::Quiet)),
        Move::Lists(id, first, second) => Ok(desk.is_in(id, first, second)),
        Move::Drawn(seed) => are_right(desk, alloc, seed),
        _ => {
            assign(desk, step)?;
            Ok(true)
        }
    }
}

// Makes the moves of a script. Fails with the place of the first one that isn't as it says, from 0.
fn make_all<S: Side>(desk: &mut Desk<S>, alloc: Global, script: &[Move]) -> Result<(), Fail> {
    for (place, step) in script.iter().enumerate() {
        if !make(desk, alloc, *step)? {
            return Err(("move", place))?;
        }
    }
    Ok(())
}

// The same on a new desk with room for the variables up to a number, over scopes by turns from this quantifier on, with
// so many variables each.
fn play<S: Side>(
    alloc: Global,
    first: Quant,
    sizes: &[u64],
    last: usize,
    script: &[Move],
) -> Result<(), Fail> {
    let prefix = by_turns(alloc, first, sizes)?;
    let mut desk = Desk::<S>::new(alloc, prefix, last)?;
    make_all(&mut desk, alloc, script)
}

// Three pivot-type literals: the row is unit in the last that isn't bad, and bad when all are.
fn three_literals<S: Side>(alloc: Global) -> Result<(), Fail> {
    let script = [
        Move::Add([1, 2, 3]),
        Move::Quiet,
        Move::Spoil(1),
        Move::Quiet,
        Move::Spoil(2),
        Move::Unit(0, 3),
        Move::Clear,
        Move::Spoil(3),
        Move::Spoil(2),
        Move::Unit(0, 1),
        Move::Spoil(1),
        Move::Bad(0),
    ];
    play::<S>(alloc, S::PIVOT, &[3], 4, &script)
}

// A literal of an earlier scope that isn't pivot-type keeps the row from being unit while it is open.
fn earlier_scope<S: Side>(alloc: Global) -> Result<(), Fail> {
    let script = [
        Move::Add([1, 2, 0]),
        Move::Quiet,
        Move::Spoil(1),
        Move::Unit(0, 2),
        Move::Clear,
        Move::Please(1),
        Move::Quiet,
    ];
    play::<S>(alloc, S::PIVOT.other(), &[1, 1], 4, &script)
}

// A literal of a later scope that isn't pivot-type doesn't.
fn later_scope<S: Side>(alloc: Global) -> Result<(), Fail> {
    let script = [
        Move::Add([1, 2, 0]),
        Move::Unit(0, 1),
        Move::Spoil(1),
        Move::Bad(0),
    ];
    play::<S>(alloc, S::PIVOT, &[1, 1], 4, &script)
}

// After an undoing, with nothing assigned since, the row is unit again. A row whose literal became bad while another
// one was good is looked at again when that comes anew and none is.
fn undoing<S: Side>(alloc: Global) -> Result<(), Fail> {
    let script = [
        Move::Add([1, 2, 3]),
        Move::Spoil(1),
        Move::Decide(2, 3),
        Move::Quiet,
        Move::Undo,
        Move::Unit(0, 3),
        Move::Unit(0, 3),
        Move::Clear,
        Move::Please(1),
        Move::Spoil(2),
        Move::Spoil(3),
        Move::Quiet,
        Move::Clear,
        Move::Spoil(2),
        Move::Spoil(3),
        Move::Unit(0, 1),
    ];
    play::<S>(alloc, S::PIVOT, &[4], 4, &script)
}

// The names of the lists of rows that watch the positive literals over the variables 1 to 3.
const FIRST: usize = 6;

const SECOND: usize = 10;

const THIRD: usize = 14;

// A row whose other watched literal is good by then stays in its lists when one of them becomes bad, whichever it is;
// where the other one is open the row watches another literal.
fn good_partner<S: Side>(alloc: Global) -> Result<(), Fail> {
    let script = [
        Move::Add([1, 2, 3]),
        Move::Quiet,
        Move::Lists(0, FIRST, SECOND),
        Move::Please(2),
        Move::Spoil(1),
        Move::Quiet,
        Move::Lists(0, FIRST, SECOND),
        Move::Clear,
        Move::Please(1),
        Move::Spoil(2),
        Move::Quiet,
        Move::Lists(0, FIRST, SECOND),
        Move::Clear,
        Move::Spoil(1),
        Move::Quiet,
        Move::Lists(0, THIRD, SECOND),
    ];
    play::<S>(alloc, S::PIVOT, &[3], 4, &script)
}

// Empty rows, rows of one literal and rows without a pivot-type literal, attached and detached. Of the rows that may be
// told the one that came first is.
fn small_rows<S: Side>(alloc: Global) -> Result<(), Fail> {
    let script = [
        Move::Add([1, 0, 0]),
        Move::Bad(0),
        Move::Please(1),
        Move::Quiet,
        Move::Add([2, 0, 0]),
        Move::Unit(1, 2),
        Move::Add([0, 0, 0]),
        Move::Unit(1, 2),
        Move::Detach(1),
        Move::Bad(2),
        Move::Detach(2),
        Move::Quiet,
        Move::Clear,
        Move::Bad(0),
    ];
    play::<S>(alloc, S::PIVOT.other(), &[1, 1], 4, &script)
}

fn all<S: Side>(alloc: Global) -> Result<(), Fail> {
    three_literals::<S>(alloc)?;
    earlier_scope::<S>(alloc)?;
    later_scope::<S>(alloc)?;
    undoing::<S>(alloc)?;
    good_partner::<S>(alloc)?;
    small_rows::<S>(alloc)
}

#[test]
fn clauses_are_watched(rt: HostRuntime) -> Result<(), Fail> {
    all::<Clauses>(rt.alloc())
}

#[test]
fn cubes_are_watched(rt: HostRuntime) -> Result<(), Fail> {
    all::<Cubes>(rt.alloc())
}

// 2,500 moves that are drawn, from a seed.
fn many_moves<S: Side>(alloc: Global, seed: u32) -> Result<(), Fail> {
    play::<S>(alloc, S::PIVOT, &[3; 4], 12, &[Move::Drawn(seed)])
}

#[test]
fn random_moves_of_clauses_are_right(rt: HostRuntime) -> Result<(), Fail> {
    many_moves::<Clauses>(rt.alloc(), 1)
}

#[test]
fn random_moves_of_cubes_are_right(rt: HostRuntime) -> Result<(), Fail> {
    many_moves::<Cubes>(rt.alloc(), 2)
}
