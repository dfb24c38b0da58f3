//! Tests of `derive`.
ghost use Rattle.std.specs.Prelude.{◌≡◌, ℕ, IsTrue};
ghost use Rattle.rows.specs.Arena.{is_live, next_id};
ghost use Rattle.derive.specs.State.{has_rows};

use super::rows_tests::{has_link, has_lits};
use derive::{Derivation, Step, StepId};
use fixtures::{Workshop, by_turns, row, rows, variable};
use prefix::{LitList, Prefix, Quant};
use rows::Rows;
use std::alloc::Global;
use std::test::Fail;

// What a step is.
#[derive(Clone, Copy)]
enum Kind {
    Clause,
    Cube,
    Reduced(StepId),
    Finished(StepId),
    // Of two steps, on the variable with a number.
    Resolved(StepId, StepId, u32),
}

// What a test does to a derivation, or what it looks whether it is so. Literals are given by their numbers, filled up
// with 0.
#[derive(Clone, Copy)]
enum Turn {
    // Puts in a clause of a frame; its id, and that of its reduction.
    Clause([i32; 2], usize, (StepId, StepId)),
    // Puts in a cube, the reduction of a step, a resolvent on the variable with a number, or the finish of a row under
    // assumptions; the id.
    Cube([i32; 2], StepId),
    Reduce(StepId, StepId),
    Resolve(StepId, StepId, u32, StepId),
    Finish(StepId, [i32; 2], StepId),
    DropFrame(usize),
    CutTo(StepId),
    // Looks whether a step is live, isn't, or comes next.
    Live(StepId),
    Gone(StepId),
    Next(StepId),
    // Looks whether a live step has these literals; and whether it is this, with this tag, too.
    HasRow(StepId, [i32; 2]),
    Has(StepId, Kind, usize, [i32; 2]),
}

fn put_clause(
    shop: &mut Workshop,
    alloc: Global,
    numbers: &[i32],
    frame: usize,
    ids: (StepId, StepId),
) -> Result<bool, Fail> {
    let lits = row(alloc, numbers)?;
    Ok(shop.clause(&lits, frame)? == ids)
}

fn put_cube(shop: &mut Workshop, alloc: Global, numbers: &[i32], id: StepId) -> Result<bool, Fail> {
    let lits = row(alloc, numbers)?;
    Ok(shop.cube(&lits)? == id)
}

fn finish(
    shop: &mut Workshop,
    alloc: Global,
    end: StepId,
    numbers: &[i32],
    id: StepId,
) -> Result<bool, Fail> {
    let assumptions = row(alloc, numbers)?;
    Ok(shop.finish(end, &assumptions)? == id)
}

fn step_of(kind: Kind) -> Result<Step, Fail> {
    match kind {
        Kind::Clause => Ok(Step::InputClause),
        Kind::Cube => Ok(Step::InputCube),
        Kind::Reduced(a) => Ok(Step::Reduced(a)),
        Kind::Finished(a) => Ok(Step::Finished(a)),
        Kind::Resolved(a, b, number) => {
            let pivot = variable(number)?;
            Ok(Step::Resolved { a, b, pivot })
        }
    }
}

fn has(shop: &Workshop, id: StepId, kind: Kind, tag: usize, numbers: &[i32]) -> Result<bool, Fail> {
    let step = step_of(kind)?;
    shop.has(id, step, tag, numbers)
}

// Whether what a turn looks for is so.
fn is_so(shop: &Workshop, turn: Turn) -> Result<bool, Fail> {
    match turn {
        Turn::Live(id) => Ok(shop.derivation().is_live(id)),
        Turn::Gone(id) => Ok(!shop.derivation().is_live(id)),
        Turn::Next(id) => Ok(shop.derivation().next_id() == id),
        Turn::HasRow(id, numbers) => shop.has_row(id, &numbers),
        Turn::Has(id, kind, tag, numbers) => has(shop, id, kind, tag, &numbers),
        _ => Ok(false),
    }
}

// Drops a frame, or what was put in from a step on; any other turn isn't made.
fn drop_some(shop: &mut Workshop, turn: Turn) -> bool {
    match turn {
        Turn::DropFrame(frame) => {
            shop.drop_frame(frame);
            true
        }
        Turn::CutTo(first) => {
            shop.cut_to(first);
            true
        }
        _ => false,
    }
}

// Makes a turn; whether it gave what it says.
fn make(shop: &mut Workshop, alloc: Global, turn: Turn) -> Result<bool, Fail> {
    match turn {
        Turn::Clause(numbers, frame, ids) => put_clause(shop, alloc, &numbers, frame, ids),
        Turn::Cube(numbers, id) => put_cube(shop, alloc, &numbers, id),
        Turn::Reduce(a, id) => Ok(shop.reduce(a)? == id),
        Turn::Resolve(a, b, pivot, id) => Ok(shop.resolve(a, b, pivot)? == id),
        Turn::Finish(end, numbers, id) => finish(shop, alloc, end, &numbers, id),
        Turn::DropFrame(_) | Turn::CutTo(_) => Ok(drop_some(shop, turn)),
        _ => is_so(shop, turn),
    }
}

// Makes turns. Fails with the place of the first one that isn't as it says, from 0.
fn make_all(shop: &mut Workshop, alloc: Global, turns: &[Turn]) -> Result<(), Fail> {
    for (place, turn) in turns.iter().enumerate() {
        if !make(shop, alloc, *turn)? {
            return Err(("turn", place))?;
        }
    }
    Ok(())
}

// A derivation after these turns, over scopes of so many variables each by turns, from this quantifier on.
fn shop_after(
    alloc: Global,
    outer: Quant,
    sizes: &[u64],
    turns: &[Turn],
) -> Result<Workshop, Fail> {
    let mut shop = Workshop::new(alloc, by_turns(alloc, outer, sizes)?);
    make_all(&mut shop, alloc, turns)?;
    Ok(shop)
}

// What is done to a derivation after its turns: nothing, or finishes are dropped, or the steps that name a variable
// outside a prefix, or the rows are taken and put back, or the clauses of a group come in and go.
#[derive(Clone, Copy)]
enum End {
    Plain,
    Unfinished,
    Named,
    Taken,
    Grouped,
}

// Whether it does what it should.
fn is_right(alloc: Global, derivation: &mut Derivation, end: End) -> Result<bool, Fail>
    requires { IsTrue (has_rows derivation.old) }
{
    match end {
        End::Plain => Ok(true),
        End::Unfinished => Ok(is_unfinished(derivation)),
        End::Named => go_with_variables(alloc, derivation),
        End::Taken => links_stay(alloc, derivation),
        End::Grouped => group_comes_again(alloc, derivation),
    }
}

// Fails where it doesn't do what it should.
fn come_to(alloc: Global, derivation: &mut Derivation, end: End) -> Result<(), Fail>
    requires { IsTrue (has_rows derivation.old) }
{
    if !is_right(alloc, derivation, end)? {
        return Err("another end")?;
    }
    Ok(())
}

// Makes turns and comes to an end, over scopes of so many variables each by turns, from this quantifier on.
fn play_to(
    alloc: Global,
    outer: Quant,
    sizes: &[u64],
    turns: &[Turn],
    end: End,
) -> Result<(), Fail> {
    let shop = shop_after(alloc, outer, sizes, turns)?;
    let (_prefix, mut derivation) = shop.into_parts();
    come_to(alloc, &mut derivation, end)
}

// Makes turns over variable 1 under this quantifier and then 2 under the other one.
fn play(alloc: Global, outer: Quant, turns: &[Turn]) -> Result<(), Fail> {
    play_to(alloc, outer, &[1, 1], turns, End::Plain)
}

// Whether step 0 is live and step 1 isn't, once finishes are dropped.
fn is_unfinished(derivation: &mut Derivation) -> bool
    requires { IsTrue (has_rows derivation.old) }
{
    derivation.drop_finish();
    derivation.is_live(0) && !derivation.is_live(1)
}

// Whether step 1 is the first that names a variable outside a prefix.
fn names_first(derivation: &Derivation, prefix: &Prefix) -> bool
    requires { IsTrue (has_rows derivation.now) }
{
    derivation.is_live(1)
        && derivation.names_outside(1, prefix)
        && derivation.outside_from(Quant::Exists, 0, prefix) == 1
}

// Whether of the steps 0 to 4 the first and the last are left.
fn are_left(derivation: &Derivation) -> bool {
    derivation.next_id() == 5
        && derivation.is_live(0)
        && !derivation.is_live(1)
        && !derivation.is_live(2)
        && !derivation.is_live(3)
        && derivation.is_live(4)
}

// Whether of the steps 0 to 4 the first and the last are left, where those go that name a variable outside a prefix.
fn go_outside(derivation: &mut Derivation, prefix: &Prefix) -> bool
    requires { IsTrue (has_rows derivation.old) }
{
    let is_right = names_first(derivation, prefix);
    derivation.drop_outside(0, prefix);
    is_right && are_left(derivation)
}

// The same where of the variables 1 and 2 are.
fn go_with_variables(alloc: Global, derivation: &mut Derivation) -> Result<bool, Fail>
    requires { IsTrue (has_rows derivation.old) }
{
    let prefix = by_turns(alloc, Quant::Exists, &[2])?;
    Ok(go_outside(derivation, &prefix))
}

// The frame of a group's clauses.
const GROUP: usize = 65_537;

// Puts in a group's clauses at once, and the ids of their reductions at the end of a list; whether that holds these.
fn list_group(
    derivation: &mut Derivation,
    prefix: &Prefix,
    clauses: &[LitList],
    reductions: &mut Vec<StepId>,
    ids: [StepId; 2],
) -> Result<bool, Fail>
    requires { IsTrue (has_rows derivation.old) }
    ensures { IsTrue (has_rows derivation.new) }
{
    derivation.input_clauses(prefix, clauses, GROUP, reductions)?;
    Ok(reductions.as_slice() == ids.as_slice())
}

// The same with a list of its own.
fn put_group(
    alloc: Global,
    derivation: &mut Derivation,
    prefix: &Prefix,
    clauses: &[LitList],
    ids: [StepId; 2],
) -> Result<bool, Fail>
    requires { IsTrue (has_rows derivation.old) }
    ensures { IsTrue (has_rows derivation.new) }
{
    let mut reductions = Vec::new(alloc);
    list_group(derivation, prefix, clauses, &mut reductions, ids)
}

// Puts in the clauses 1 2 and -1 at once; whether their reductions have these ids.
fn come_at_once(
    alloc: Global,
    derivation: &mut Derivation,
    prefix: &Prefix,
    ids: [StepId; 2],
) -> Result<bool, Fail>
    requires { IsTrue (has_rows derivation.old) }
    ensures { IsTrue (has_rows derivation.new) }
{
    let clauses = rows(alloc, &[1, 2, 0, -1, 0])?;
    put_group(alloc, derivation, prefix, &clauses, ids)
}

// Whether the steps from an id on are an input clause of the group, its reduction, and another such clause, and the
// last ones. A frame below the group that has no clause has no place among the ids.
fn are_grouped(derivation: &Derivation, first: StepId) -> bool {
    first < 10
        && derivation.next_id() == first + 3
        && is_grouped(derivation, first, Step::InputClause)
        && is_grouped(derivation, first + 1, Step::Reduced(first))
        && is_grouped(derivation, first + 2, Step::InputClause)
        && derivation.frame_from(GROUP) == first
        && derivation.frame_from(GROUP - 1) > first + 2
}

// Whether a step of the group is live, and this.
fn is_grouped(derivation: &Derivation, id: StepId, step: Step) -> bool {
    derivation.is_live(id) && derivation.tag(id) == GROUP && derivation.step(id) == step
}

// Whether of the steps 0, 1 and 3 the first is left.
fn is_first_left(derivation: &Derivation) -> bool {
    derivation.is_live(0) && !derivation.is_live(1) && !derivation.is_live(3)
}

// Whether the clauses of a group come in behind the steps 0 and 1, of which the second goes, a cube that hits the first
// of them alone; and whether they go with the group's frame, and come in again.
fn group_goes_between(
    alloc: Global,
    derivation: &mut Derivation,
    prefix: &Prefix,
) -> Result<bool, Fail>
    requires { IsTrue (has_rows derivation.old) }
{
    let came = come_at_once(alloc, derivation, prefix, [3, 4])? && are_grouped(derivation, 2);
    derivation.drop_frame(GROUP);
    let went = is_first_left(derivation);
    let again = come_at_once(alloc, derivation, prefix, [6, 7])? && are_grouped(derivation, 5);
    Ok(came && went && again)
}

// The same over existential 1 and universal 2.
fn group_comes_again(alloc: Global, derivation: &mut Derivation) -> Result<bool, Fail>
    requires { IsTrue (has_rows derivation.old) }
{
    let prefix = by_turns(alloc, Quant::Exists, &[1, 1])?;
    group_goes_between(alloc, derivation, &prefix)
}

// Whether step 1, while the rows are taken, is the clause of frame 1 that it was, and the last step.
fn is_last_clause(derivation: &Derivation) -> bool {
    derivation.is_live(1)
        && derivation.step(1) == Step::InputClause
        && derivation.tag(1) == 1
        && derivation.next_id() == 2
}

// Whether two rows are there, of which both are live.
fn are_two(rows: &Rows) -> bool {
    rows.next_id() == 2 && rows.is_live(0) && rows.is_live(1)
}

// Writes link field 5 of row 0, if that is live.
fn link_first(rows: &mut Rows)
    ensures next { next_id rows.new ≡ next_id rows.old }
    ensures live { (id : ℕ) → is_live rows.new id ≡ is_live rows.old id }
{
    if !rows.is_live(0) {
        return;
    }
    rows.set_link(0, 5, Some(9));
}

// Takes the rows, writes a link field of the first, and puts them back; whether all looked right in between.
fn link_taken(derivation: &mut Derivation) -> bool
    requires { IsTrue (has_rows derivation.old) }
    ensures { IsTrue (has_rows derivation.new) }
{
    let mut rows = derivation.take_rows();
    let is_right = is_last_clause(derivation) && are_two(&rows);
    link_first(&mut rows);
    derivation.put_rows(rows);
    is_right
}

// Whether the first row has its literal and its link, and the second isn't live.
fn is_as_it_was(rows: &Rows, alloc: Global) -> Result<bool, Fail> {
    let has_its_link = !rows.is_live(1) && has_link(rows, 0, 5, Some(9));
    Ok(has_lits(rows, alloc, 0, &[1])? && has_its_link)
}

// Whether the first row has its literal and its link, and the second goes with frame 1.
fn is_linked(alloc: Global, derivation: &mut Derivation) -> Result<bool, Fail>
    requires { IsTrue (has_rows derivation.old) }
{
    derivation.drop_frame(1);
    let rows = derivation.take_rows();
    is_as_it_was(&rows, alloc)
}

// Whether links and steps are right while the rows are taken, and after they are put back.
fn links_stay(alloc: Global, derivation: &mut Derivation) -> Result<bool, Fail>
    requires { IsTrue (has_rows derivation.old) }
{
    let is_right = link_taken(derivation);
    Ok(is_linked(alloc, derivation)? && is_right)
}

#[test]
fn a_frame_takes_what_rests_on_it(rt: HostRuntime) -> Result<(), Fail> {
    let turns = [
        Turn::Clause([1, 0], 0, (0, 0)),
        Turn::Clause([-1, 0], 1, (1, 1)),
        Turn::Resolve(0, 1, 1, 2),
        Turn::Has(0, Kind::Clause, 0, [1, 0]),
        Turn::Has(2, Kind::Resolved(0, 1, 1), 1, [0, 0]),
        Turn::DropFrame(1),
        Turn::Live(0),
        Turn::Gone(1),
        Turn::Gone(2),
        Turn::Next(3),
    ];
    play(rt.alloc(), Quant::Exists, &turns)
}

// Frames may be opened in any order, dropped and opened again.
#[test]
fn frames_begin_at_their_first_clause(rt: HostRuntime) -> Result<(), Fail> {
    let turns = [
        Turn::Clause([1, 0], 0, (0, 0)),
        Turn::Clause([1, 0], 3, (1, 1)),
        Turn::Clause([1, 0], 1, (2, 2)),
        Turn::DropFrame(3),
        Turn::Clause([1, 0], 3, (3, 3)),
        Turn::DropFrame(1),
        Turn::DropFrame(9),
        Turn::Live(0),
        Turn::Gone(1),
        Turn::Gone(2),
        Turn::Live(3),
        Turn::Next(4),
    ];
    play(rt.alloc(), Quant::Exists, &turns)
}

#[test]
fn a_clause_comes_with_its_reduction(rt: HostRuntime) -> Result<(), Fail> {
    let turns = [
        Turn::Clause([1, 2], 3, (0, 1)),
        Turn::Has(0, Kind::Clause, 3, [1, 2]),
        Turn::Has(1, Kind::Reduced(0), 3, [1, 0]),
        Turn::Reduce(0, 2),
        Turn::Reduce(1, 1),
        Turn::CutTo(1),
        Turn::Live(0),
        Turn::Gone(1),
        Turn::Gone(2),
        Turn::Next(3),
    ];
    play(rt.alloc(), Quant::Exists, &turns)
}

// Whether the pivot quantifier stands first, a row, what is left of it, and the id of that step.
type Reduction = (bool, [i32; 2], [i32; 2], StepId);

// What is left of a clause and of a cube, and the id of that step, where 1 stands before 2 and is of the side's pivot
// quantifier or not.
fn reduce_both(alloc: Global, case: Reduction) -> Result<(), Fail> {
    let (pivot_first, numbers, want, id) = case;
    let outer = if pivot_first {
        Quant::Exists
    } else {
        Quant::Forall
    };
    let clause = [Turn::Clause(numbers, 0, (0, id)), Turn::HasRow(id, want)];
    let cube = [
        Turn::Cube(numbers, 0),
        Turn::Reduce(0, id),
        Turn::HasRow(id, want),
    ];
    play(alloc, outer, &clause)?;
    play(alloc, outer.other(), &cube)
}

fn reduce_each(alloc: Global, cases: &[Reduction]) -> Result<(), Fail> {
    for case in cases {
        reduce_both(alloc, *case)?;
    }
    Ok(())
}

// What nothing blocks goes, and else the step itself is the answer.
#[test]
fn reductions_on_both_sides(rt: HostRuntime) -> Result<(), Fail> {
    let cases = [
        (true, [1, 2], [1, 0], 1),
        (true, [-1, -2], [-1, 0], 1),
        (true, [2, 0], [2, 0], 0),
        (false, [1, 2], [1, 2], 0),
        (false, [1, 0], [1, 0], 0),
        (false, [0, 0], [0, 0], 0),
    ];
    reduce_each(rt.alloc(), &cases)
}

// Two cubes, what rests on each and on both: a clause that both hit takes none of them, one that the second misses
// takes it with what rests on it, and the empty one takes all.
#[test]
fn a_clause_takes_the_cubes_that_miss_it(rt: HostRuntime) -> Result<(), Fail> {
    let turns = [
        Turn::Cube([1, 2], 0),
        Turn::Cube([-1, 2], 1),
        Turn::Reduce(0, 2),
        Turn::Resolve(2, 1, 1, 3),
        Turn::Has(1, Kind::Cube, 0, [-1, 2]),
        Turn::Has(2, Kind::Reduced(0), 0, [1, 0]),
        Turn::Has(3, Kind::Resolved(2, 1, 1), 0, [2, 0]),
        Turn::Clause([-1, 2], 5, (4, 4)),
        Turn::Live(0),
        Turn::Live(1),
        Turn::Live(2),
        Turn::Live(3),
        Turn::Live(4),
        Turn::Next(5),
        Turn::Clause([1, -2], 5, (5, 5)),
        Turn::Live(0),
        Turn::Gone(1),
        Turn::Live(2),
        Turn::Gone(3),
        Turn::Live(4),
        Turn::Live(5),
        Turn::Next(6),
        Turn::Has(0, Kind::Cube, 0, [1, 2]),
        Turn::Cube([1, 2], 6),
        Turn::Clause([0, 0], 5, (7, 7)),
        Turn::Gone(0),
        Turn::Gone(1),
        Turn::Gone(2),
        Turn::Gone(3),
        Turn::Live(4),
        Turn::Live(5),
        Turn::Gone(6),
        Turn::Live(7),
        Turn::Next(8),
    ];
    play(rt.alloc(), Quant::Forall, &turns)
}

// Of an end row under assumptions over its first variable, on either side.
#[test]
fn a_finish_keeps_what_is_assumed(rt: HostRuntime) -> Result<(), Fail> {
    let clause = [
        Turn::Clause([1, 2], 0, (0, 0)),
        Turn::Finish(0, [-1, -2], 0),
        Turn::Finish(0, [-1, 7], 1),
        Turn::Has(1, Kind::Finished(0), 0, [1, 0]),
    ];
    let cube = [
        Turn::Cube([1, 2], 0),
        Turn::Finish(0, [-1, -2], 0),
        Turn::Finish(0, [-1, 7], 1),
        Turn::Has(1, Kind::Finished(0), 0, [1, 0]),
    ];
    play_to(rt.alloc(), Quant::Forall, &[1, 1], &clause, End::Unfinished)?;
    play_to(rt.alloc(), Quant::Exists, &[1, 1], &cube, End::Unfinished)
}

#[test]
fn steps_that_name_a_variable_go(rt: HostRuntime) -> Result<(), Fail> {
    let turns = [
        Turn::Clause([1, 2], 0, (0, 0)),
        Turn::Clause([-2, 3], 0, (1, 1)),
        Turn::Clause([-3, 0], 0, (2, 2)),
        Turn::Resolve(1, 2, 3, 3),
        Turn::HasRow(3, [-2, 0]),
        Turn::Clause([1, -2], 0, (4, 4)),
    ];
    play_to(rt.alloc(), Quant::Exists, &[3], &turns, End::Named)
}

#[test]
fn links_stay_with_rows_that_are_taken_and_put_back(rt: HostRuntime) -> Result<(), Fail> {
    let turns = [
        Turn::Clause([1, 0], 0, (0, 0)),
        Turn::Clause([-1, 0], 1, (1, 1)),
    ];
    play_to(rt.alloc(), Quant::Exists, &[1, 1], &turns, End::Taken)
}

#[test]
fn a_group_comes_at_once(rt: HostRuntime) -> Result<(), Fail> {
    let turns = [Turn::Clause([1, 0], 0, (0, 0)), Turn::Cube([1, 0], 1)];
    play_to(rt.alloc(), Quant::Exists, &[1, 1], &turns, End::Grouped)
}
