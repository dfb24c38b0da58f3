//! Tests of `rows`.
use fixtures::row;
use prefix::Lit;
use rows::{RowId, Rows, ThreeLinks};
use std::alloc::Global;
use std::test::Fail;

// What a test does to an arena, or what it looks whether it is so. Rows are named by their ids, and literals given by
// their numbers, filled up with 0.
#[derive(Clone, Copy)]
enum Turn {
    // Puts in a row, which gets this id; or two rows, which get these.
    Add([i32; 2], RowId),
    AddPair([i32; 2], [i32; 2], (RowId, RowId)),
    Free(RowId),
    Compact,
    // Writes a link field; or three, from that of a number on.
    Link(RowId, usize, Option<usize>),
    Links(RowId, usize, ThreeLinks),
    // Takes the first of three link fields away, which are these.
    TakeLinks(RowId, usize, ThreeLinks),
    // Looks whether this id comes next, and whether a row is live.
    Next(RowId),
    Live(RowId),
    Dead(RowId),
    // Looks whether a live row has these literals; this link field; these three; or these eight and no other.
    HasLits(RowId, [i32; 2]),
    HasLink(RowId, usize, Option<usize>),
    HasLinks(RowId, usize, ThreeLinks),
    HasFields(RowId, [Option<usize>; 8]),
}

fn add(rows: &mut Rows, alloc: Global, numbers: &[i32], id: RowId) -> Result<bool, Fail> {
    let lits = row(alloc, numbers)?;
    Ok(rows.add(&lits)? == id)
}

fn add_behind(
    rows: &mut Rows,
    alloc: Global,
    first: &[Lit],
    numbers: &[i32],
    ids: (RowId, RowId),
) -> Result<bool, Fail> {
    let second = row(alloc, numbers)?;
    Ok(rows.add_pair(first, &second)? == ids)
}

fn add_pair(
    rows: &mut Rows,
    alloc: Global,
    first: &[i32],
    second: &[i32],
    ids: (RowId, RowId),
) -> Result<bool, Fail> {
    let first = row(alloc, first)?;
    add_behind(rows, alloc, &first, second, ids)
}

fn free(rows: &mut Rows, id: RowId) -> bool {
    if !rows.is_live(id) {
        return false;
    }
    rows.free(id);
    true
}

fn set_link(rows: &mut Rows, id: RowId, k: usize, value: Option<usize>) -> bool {
    if k >= 8 || !rows.is_live(id) {
        return false;
    }
    rows.set_link(id, k, value);
    true
}

fn set_links(rows: &mut Rows, id: RowId, base: usize, values: ThreeLinks) -> bool {
    if base > 5 || !rows.is_live(id) {
        return false;
    }
    rows.set_links(id, base, values);
    true
}

fn take_links(rows: &mut Rows, id: RowId, base: usize, values: ThreeLinks) -> bool {
    base <= 5 && rows.is_live(id) && rows.take_links(id, base) == values
}

fn is_row(rows: &Rows, id: RowId, lits: &[Lit]) -> bool {
    rows.is_live(id) && rows.lits(id) == lits
}

pub(crate) fn has_lits(
    rows: &Rows,
    alloc: Global,
    id: RowId,
    numbers: &[i32],
) -> Result<bool, Fail> {
    let lits = row(alloc, numbers)?;
    Ok(is_row(rows, id, &lits))
}

pub(crate) fn has_link(rows: &Rows, id: RowId, k: usize, value: Option<usize>) -> bool {
    k < 8 && rows.is_live(id) && rows.link(id, k) == value
}

fn has_links(rows: &Rows, id: RowId, base: usize, values: ThreeLinks) -> bool {
    base <= 5 && rows.is_live(id) && rows.links_from(id, base) == values
}

// Whether the link fields of a live row, from the first on, are these.
fn has_fields(rows: &Rows, id: RowId, fields: &[Option<usize>]) -> bool {
    for (k, value) in fields.iter().enumerate() {
        if !has_link(rows, id, k, *value) {
            return false;
        }
    }
    true
}

// Whether what a turn looks for is so.
fn is_so(rows: &Rows, alloc: Global, turn: Turn) -> Result<bool, Fail> {
    match turn {
        Turn::Next(id) => Ok(rows.next_id() == id),
        Turn::Live(id) => Ok(rows.is_live(id)),
        Turn::Dead(id) => Ok(!rows.is_live(id)),
        Turn::HasLits(id, numbers) => has_lits(rows, alloc, id, &numbers),
        Turn::HasLink(id, k, value) => Ok(has_link(rows, id, k, value)),
        Turn::HasLinks(id, base, values) => Ok(has_links(rows, id, base, values)),
        Turn::HasFields(id, fields) => Ok(has_fields(rows, id, &fields)),
        _ => Ok(false),
    }
}

// Makes a turn; whether it could be made, and gave what it says.
fn make(rows: &mut Rows, alloc: Global, turn: Turn) -> Result<bool, Fail> {
    match turn {
        Turn::Add(numbers, id) => add(rows, alloc, &numbers, id),
        Turn::AddPair(first, second, ids) => add_pair(rows, alloc, &first, &second, ids),
        Turn::Free(id) => Ok(free(rows, id)),
        Turn::Compact => {
            rows.compact();
            Ok(true)
        }
        Turn::Link(id, k, value) => Ok(set_link(rows, id, k, value)),
        Turn::Links(id, base, values) => Ok(set_links(rows, id, base, values)),
        Turn::TakeLinks(id, base, values) => Ok(take_links(rows, id, base, values)),
        _ => is_so(rows, alloc, turn),
    }
}

// Makes turns. Fails with the place of the first one that isn't as it says, from 0.
fn make_all(rows: &mut Rows, alloc: Global, turns: &[Turn]) -> Result<(), Fail> {
    for (place, turn) in turns.iter().enumerate() {
        if !make(rows, alloc, *turn)? {
            return Err(("turn", place))?;
        }
    }
    Ok(())
}

// The same on an arena of no rows.
fn play(alloc: Global, turns: &[Turn]) -> Result<(), Fail> {
    let mut rows = Rows::new(alloc);
    make_all(&mut rows, alloc, turns)
}

#[test]
fn ids_grow_and_none_comes_again(rt: HostRuntime) -> Result<(), Fail> {
    let turns = [
        Turn::Next(0),
        Turn::Add([1, 0], 0),
        Turn::Add([0, 0], 1),
        Turn::Free(1),
        Turn::Free(0),
        Turn::Next(2),
        Turn::Add([2, 0], 2),
        Turn::Compact,
        Turn::Dead(0),
        Turn::Dead(1),
        Turn::Live(2),
        Turn::Dead(3),
    ];
    play(rt.alloc(), &turns)
}

#[test]
fn a_pair_of_rows_comes_with_two_ids(rt: HostRuntime) -> Result<(), Fail> {
    let turns = [
        Turn::Add([4, 0], 0),
        Turn::AddPair([1, 2], [1, 0], (1, 2)),
        Turn::HasLits(1, [1, 2]),
        Turn::HasLits(2, [1, 0]),
        Turn::HasLink(1, 0, None),
        Turn::HasLink(2, 7, None),
        Turn::Next(3),
    ];
    play(rt.alloc(), &turns)
}

#[test]
fn literals_and_links_stay_while_others_come_and_go(rt: HostRuntime) -> Result<(), Fail> {
    let turns = [
        Turn::Add([9, 0], 0),
        Turn::Add([1, -3], 1),
        Turn::Link(1, 7, Some(40)),
        Turn::Free(0),
        Turn::Add([0, 0], 2),
        Turn::Link(2, 7, Some(0)),
        Turn::Compact,
        Turn::HasLits(1, [1, -3]),
        Turn::HasLits(2, [0, 0]),
        Turn::HasLink(1, 7, Some(40)),
    ];
    play(rt.alloc(), &turns)
}

#[test]
fn a_write_changes_one_link_field(rt: HostRuntime) -> Result<(), Fail> {
    let one = [None, None, None, Some(usize::MAX), None, None, None, None];
    let turns = [
        Turn::Add([5, 0], 0),
        Turn::Add([6, 0], 1),
        Turn::Link(0, 3, Some(usize::MAX)),
        Turn::HasFields(0, one),
        Turn::HasFields(1, [None; 8]),
        Turn::Link(0, 3, None),
        Turn::HasLink(0, 3, None),
    ];
    play(rt.alloc(), &turns)
}

#[test]
fn rows_stay_where_one_between_them_goes(rt: HostRuntime) -> Result<(), Fail> {
    let turns = [
        Turn::Add([1, 0], 0),
        Turn::Add([2, 3], 1),
        Turn::Add([4, 0], 2),
        Turn::Link(1, 1, Some(7)),
        Turn::Link(2, 2, Some(9)),
        Turn::Free(1),
        Turn::Compact,
        Turn::HasLits(0, [1, 0]),
        Turn::HasLits(2, [4, 0]),
        Turn::HasLink(2, 2, Some(9)),
        Turn::HasLink(2, 1, None),
        Turn::Dead(1),
    ];
    play(rt.alloc(), &turns)
}

#[test]
fn three_link_fields_are_read_and_written_at_once(rt: HostRuntime) -> Result<(), Fail> {
    let turns = [
        Turn::Add([5, 0], 0),
        Turn::Add([6, 0], 1),
        Turn::HasLinks(0, 5, (None, None, None)),
        Turn::Link(0, 2, Some(8)),
        Turn::Links(0, 3, (Some(1), None, Some(usize::MAX))),
        Turn::HasLinks(0, 1, (None, Some(8), Some(1))),
        Turn::HasLinks(0, 4, (None, Some(usize::MAX), None)),
        Turn::HasLink(0, 3, Some(1)),
        Turn::HasLinks(1, 3, (None, None, None)),
    ];
    play(rt.alloc(), &turns)
}

#[test]
fn the_first_of_three_link_fields_is_taken_away(rt: HostRuntime) -> Result<(), Fail> {
    let turns = [
        Turn::Add([5, 0], 0),
        Turn::TakeLinks(0, 2, (None, None, None)),
        Turn::Links(0, 2, (Some(4), None, Some(9))),
        Turn::TakeLinks(0, 2, (Some(4), None, Some(9))),
        Turn::HasLinks(0, 2, (None, None, Some(9))),
    ];
    play(rt.alloc(), &turns)
}

#[test]
fn rows_stay_where_many_ids_between_them_go(rt: HostRuntime) -> Result<(), Fail> {
    let turns = [
        Turn::AddPair([1, 0], [2, 3], (0, 1)),
        Turn::AddPair([4, 0], [5, 0], (2, 3)),
        Turn::AddPair([6, 0], [7, 0], (4, 5)),
        Turn::Link(5, 1, Some(8)),
        Turn::Free(2),
        Turn::Free(3),
        Turn::Free(4),
        Turn::Compact,
        Turn::Next(6),
        Turn::Dead(3),
        Turn::HasLits(1, [2, 3]),
        Turn::HasLits(5, [7, 0]),
        Turn::Add([8, 0], 6),
        Turn::Free(5),
        Turn::Compact,
        Turn::Dead(5),
        Turn::HasLits(0, [1, 0]),
        Turn::HasLits(6, [8, 0]),
        Turn::Link(6, 0, Some(3)),
        Turn::HasLink(6, 0, Some(3)),
        Turn::Next(7),
    ];
    play(rt.alloc(), &turns)
}
