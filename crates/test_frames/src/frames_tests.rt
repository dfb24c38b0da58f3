//! Commands on frames, and their refusals in order.
use frames::{FrameRefusal, Frames};
use prefix::{LitList, Quant};
use std::alloc::Global;
use std::test::Fail;
use versions::Version;

// What a test does to the frames.
#[derive(Debug, Clone, Copy)]
enum Turn {
    Scope(Quant),
    Var(u64, u64),
    Push,
    Pop,
    Clause([i64; 2]),
    Assume(i64),
    Open(u64),
    Close,
    Activate(u64),
    Deactivate(u64),
}

fn after(frames: &mut Frames, turn: Turn) -> Result<(), FrameRefusal> {
    match turn {
        Turn::Scope(quant) => frames.scope(quant, None),
        Turn::Var(var, scope) => frames.var(var, scope),
        Turn::Push => frames.push(),
        Turn::Pop => frames.pop(),
        Turn::Clause(lits) => frames.add_clause(&lits),
        Turn::Assume(lit) => frames.assume(lit),
        Turn::Open(group) => frames.open_group(group),
        Turn::Close => frames.close_group(),
        Turn::Activate(group) => frames.activate(group),
        Turn::Deactivate(group) => frames.deactivate(group),
    }
}

fn number(answer: Result<(), FrameRefusal>) -> Option<u8> {
    match answer {
        Ok(()) => Some(0),
        Err(refusal) => refusal.number(),
    }
}

// Whether the turns are answered with these numbers, 0 where one is accepted.
fn answers(frames: &mut Frames, table: &[(Turn, u8)]) -> bool {
    for (turn, wanted) in table {
        if number(after(frames, *turn)) != Some(*wanted) {
            return false;
        }
    }
    true
}

// Puts in the existential variables 1 and 3, then the universal variable 2.
fn put_two_scopes(frames: &mut Frames) -> Result<(), FrameRefusal> {
    frames.scope(Quant::Exists, None)?;
    frames.var(1, 1)?;
    frames.var(3, 1)?;
    frames.scope(Quant::Forall, None)?;
    frames.var(2, 2)
}

// What a test looks for in frames with these two scopes.
#[derive(Clone, Copy)]
enum Play {
    Refusals,
    Clauses,
    TakenBack,
    Filled,
    Turned,
}

// Whether frames with the two scopes do as they should.
fn does(frames: &mut Frames, alloc: Global, play: Play) -> Result<bool, Fail> {
    match play {
        Play::Refusals => Ok(refuses(frames)),
        Play::Clauses => drops_clauses(frames),
        Play::TakenBack => takes_back(frames),
        Play::Filled => is_filled(frames, alloc),
        Play::Turned => is_turned(frames, alloc),
    }
}

fn does_with_scopes(frames: &mut Frames, alloc: Global, play: Play) -> Result<bool, Fail> {
    put_two_scopes(frames)?;
    does(frames, alloc, play)
}

// The same of new frames. One function owns them, which keeps proofs short.
fn holds(alloc: Global, play: Play) -> Result<bool, Fail> {
    let mut frames = Frames::new(alloc);
    does_with_scopes(&mut frames, alloc, play)
}

const REFUSALS: [(Turn, u8); 14] = [
    (Turn::Pop, 40),
    (Turn::Clause([1, 7]), 41),
    (Turn::Clause([0, 1]), 41),
    (Turn::Assume(7), 41),
    (Turn::Assume(2), 42),
    (Turn::Var(1, 1), 1),
    (Turn::Var(0, 1), 2),
    (Turn::Var(4, 9), 3),
    (Turn::Assume(3), 0),
    (Turn::Assume(1), 0),
    (Turn::Assume(1), 0),
    (Turn::Assume(-1), 43),
    (Turn::Var(1, 1), 44),
    (Turn::Scope(Quant::Exists), 44),
];

// How many assumptions, variables and clauses without a group there are.
fn lens(frames: &Frames) -> (usize, usize, usize) {
    (
        frames.assumptions().len(),
        frames.prefix().len(),
        frames.other_clauses().len(),
    )
}

// Whether no assumption is left once they are cleared, so that the opposite of one may come.
fn clears(frames: &mut Frames) -> bool {
    frames.clear_assumptions();
    frames.assumptions().len() == 0 && number(frames.assume(-1)) == Some(0)
}

// Whether turns are refused, of which the accepted ones leave two assumptions, and these may be cleared.
fn refuses(frames: &mut Frames) -> bool {
    answers(frames, &REFUSALS) && lens(frames) == (2, 3, 0) && clears(frames)
}

#[test]
fn refusals_come_in_order(rt: HostRuntime) -> Result<(), Fail> {
    assert!(rt; holds(rt.alloc(), Play::Refusals)?);
    Ok(())
}

// A clause that says its literal twice; and in a frame another one, and one that always holds.
const CLAUSES: [(Turn, u8); 4] = [
    (Turn::Clause([1, 1]), 0),
    (Turn::Push, 0),
    (Turn::Clause([-1, 2]), 0),
    (Turn::Clause([1, -1]), 0),
];

// How many clauses without a group and how many pushed frames there are.
fn heights(frames: &Frames) -> (usize, usize) {
    (frames.other_clauses().len(), frames.depth())
}

// Whether frame 0 alone is left, with one clause, which has one literal.
fn has_unit(frames: &Frames) -> bool {
    heights(frames) == (1, 0)
        && matches!(frames.other_clauses(), [clause] if clause.lits().len() == 1)
}

// Whether clauses come, of which that of the pushed frame goes with it.
fn drops_clauses(frames: &mut Frames) -> Result<bool, Fail> {
    if !answers(frames, &CLAUSES) || heights(frames) != (2, 1) {
        return Ok(false);
    }
    frames.pop()?;
    Ok(has_unit(frames))
}

#[test]
fn clauses_go_with_their_frame(rt: HostRuntime) -> Result<(), Fail> {
    assert!(rt; holds(rt.alloc(), Play::Clauses)?);
    Ok(())
}

// Puts in a clause that is taken back.
fn put_and_take(frames: &mut Frames, lits: &[i64]) -> Result<(), FrameRefusal> {
    frames.add_clause(lits)?;
    frames.take_back();
    Ok(())
}

// Whether a clause stays, and those behind it, of which the last one always holds, are taken back.
fn takes_back(frames: &mut Frames) -> Result<bool, Fail> {
    frames.add_clause(&[1, 2])?;
    put_and_take(frames, &[-1])?;
    if lens(frames) != (0, 3, 1) {
        return Ok(false);
    }
    put_and_take(frames, &[1, -1])?;
    Ok(lens(frames) == (0, 3, 1))
}

#[test]
fn a_clause_is_taken_back(rt: HostRuntime) -> Result<(), Fail> {
    assert!(rt; holds(rt.alloc(), Play::TakenBack)?);
    Ok(())
}

// Whether as many frames are pushed as may, and the next one is refused.
fn pushes_all(frames: &mut Frames) -> Result<bool, Fail> {
    for _ in 0..Frames::MAX_PUSHED {
        frames.push()?;
    }
    Ok(frames.depth() == 65_536 && frames.push() == Err(FrameRefusal::Limit))
}

// The same of new frames.
fn has_limit(alloc: Global) -> Result<bool, Fail> {
    let mut frames = Frames::new(alloc);
    pushes_all(&mut frames)
}

#[test]
fn as_many_frames_are_pushed_as_may(rt: HostRuntime) -> Result<(), Fail> {
    assert!(rt; has_limit(rt.alloc())?);
    Ok(())
}

// A variable that is added above frame 0 and named by a clause, or assumed; and its number again after the pop.
const NAMED: [Turn; 5] = [
    Turn::Scope(Quant::Exists),
    Turn::Push,
    Turn::Var(1, 1),
    Turn::Clause([-1, -1]),
    Turn::Pop,
];

const ASSUMED: [Turn; 5] = [
    Turn::Scope(Quant::Exists),
    Turn::Push,
    Turn::Var(1, 1),
    Turn::Assume(1),
    Turn::Pop,
];

// What the turns leave: the number of variables and of assumptions, and how the variable is answered then.
fn left(frames: &mut Frames, turns: &[Turn]) -> Result<(usize, usize, Option<u8>), Fail> {
    for turn in turns {
        after(frames, *turn)?;
    }
    let (variables, assumed) = (frames.prefix().len(), frames.assumptions().len());
    Ok((variables, assumed, number(frames.var(1, 1))))
}

// The same of new frames.
fn left_by(
    alloc: Global,
    version: Version,
    turns: &[Turn],
) -> Result<(usize, usize, Option<u8>), Fail> {
    let mut frames = Frames::with_version(alloc, version);
    left(&mut frames, turns)
}

#[test]
fn a_variable_leaves_with_its_frame_in_version_two(rt: HostRuntime) -> Result<(), Fail> {
    let named = left_by(rt.alloc(), Version::Two, &NAMED)?;
    let assumed = left_by(rt.alloc(), Version::Two, &ASSUMED)?;
    assert_eq!(rt; (named, assumed), ((0, 0, Some(0)), (0, 0, Some(0))));
    let named = left_by(rt.alloc(), Version::One, &NAMED)?;
    let assumed = left_by(rt.alloc(), Version::One, &ASSUMED)?;
    assert_eq!(rt; (named, assumed), ((1, 0, Some(1)), (1, 1, Some(44))));
    Ok(())
}

// Whether the next pop removes the variables of these numbers, in this order.
fn removes(frames: &Frames, numbers: &[u32]) -> bool {
    let vars = frames.top_vars();
    if vars.len() != numbers.len() {
        return false;
    }
    for (v, number) in vars.iter().zip(numbers) {
        if v.number() != *number {
            return false;
        }
    }
    true
}

// Puts in variable 4, and in a frame variable 3, and in another one variables 2 and 1.
const STACKED: [(Turn, u8); 7] = [
    (Turn::Scope(Quant::Exists), 0),
    (Turn::Var(4, 1), 0),
    (Turn::Push, 0),
    (Turn::Var(3, 1), 0),
    (Turn::Push, 0),
    (Turn::Var(2, 1), 0),
    (Turn::Var(1, 1), 0),
];

// Whether a pop takes place, and the next one is told to remove these then.
fn pops_to(frames: &mut Frames, numbers: &[u32]) -> bool {
    frames.pop() == Ok(()) && removes(frames, numbers)
}

// Whether new frames of version 2 tell what each pop removes, and the variable of frame 0 stays.
fn tells_pops(frames: &mut Frames) -> bool {
    frames.version() == Version::Two
        && answers(frames, &STACKED)
        && removes(frames, &[2, 1])
        && pops_to(frames, &[3])
        && pops_to(frames, &[])
        && frames.prefix().len() == 1
}

fn are_pops_told(alloc: Global) -> bool {
    let mut frames = Frames::with_version(alloc, Version::Two);
    tells_pops(&mut frames)
}

#[test]
fn the_next_pop_is_told(rt: HostRuntime) {
    assert!(rt; are_pops_told(rt.alloc()));
}

// How many clauses these parts have.
fn len_of(first: &[LitList], more: &[&[LitList]]) -> usize {
    let mut len = first.len();
    for part in more {
        len = len.saturating_add(part.len());
    }
    len
}

// How many clauses the open formula has.
fn open_len(alloc: Global, frames: &Frames) -> Result<usize, Fail> {
    let matrix = frames.open_clauses(alloc)?;
    let parts = matrix.parts();
    Ok(len_of(parts.first, parts.more))
}

const GROUPED: [(Turn, u8); 13] = [
    (Turn::Clause([2, 2]), 0),
    (Turn::Close, 48),
    (Turn::Open(0), 47),
    (Turn::Activate(3), 48),
    (Turn::Open(7), 0),
    (Turn::Open(3), 46),
    (Turn::Push, 46),
    (Turn::Clause([1, 1]), 0),
    (Turn::Clause([1, -1]), 0),
    (Turn::Deactivate(7), 46),
    (Turn::Close, 0),
    (Turn::Open(3), 0),
    (Turn::Clause([-1, -1]), 0),
];

// The clause 2, group 7 with the clause 1 and group 3 with the clauses -1 and 1 2, of which the last is taken back.
fn grouped(frames: &mut Frames) -> Result<bool, Fail> {
    let answered = answers(frames, &GROUPED);
    put_and_take(frames, &[1, 2])?;
    Ok(answered)
}

// What is told of the groups: the open one, how many there are and the first's number; whether group 7 is active, and
// how many clauses groups 3 and 7 have.
fn told(frames: &Frames) -> ((Option<u32>, usize, u32), (bool, usize, usize)) {
    let first = if frames.groups_len() > 0 {
        frames.group(0).number()
    } else {
        0
    };
    let active = frames.is_active(7);
    let lens = (frames.group_clauses(3).len(), frames.group_clauses(7).len());
    (
        (frames.current_group(), frames.groups_len(), first),
        (active, lens.0, lens.1),
    )
}

// Whether groups are opened and filled.
fn is_filled(frames: &mut Frames, alloc: Global) -> Result<bool, Fail> {
    Ok(
        grouped(frames)?
            && told(frames) == ((Some(3), 2, 3), (true, 1, 1))
            && open_len(alloc, frames)? == 3,
    )
}

#[test]
fn groups_are_opened_and_filled(rt: HostRuntime) -> Result<(), Fail> {
    assert!(rt; holds(rt.alloc(), Play::Filled)?);
    Ok(())
}

const TURNED: [(Turn, u8); 5] = [
    (Turn::Close, 0),
    (Turn::Push, 0),
    (Turn::Open(3), 49),
    (Turn::Deactivate(5), 48),
    (Turn::Deactivate(7), 0),
];

// Whether group 7 is inactive once turns have their answers.
fn turns_off(frames: &mut Frames, alloc: Global) -> Result<bool, Fail> {
    Ok(
        answers(frames, &TURNED)
            && told(frames) == ((None, 2, 3), (false, 1, 1))
            && open_len(alloc, frames)? == 2,
    )
}

// Whether it is active again then.
fn turns_on(frames: &mut Frames, alloc: Global) -> Result<bool, Fail> {
    frames.activate(7)?;
    Ok(open_len(alloc, frames)? == 3)
}

// Whether a group is made inactive and active, and the groups have their places.
fn is_turned(frames: &mut Frames, alloc: Global) -> Result<bool, Fail> {
    let are_so = grouped(frames)? && turns_off(frames, alloc)? && turns_on(frames, alloc)?;
    Ok(are_so && frames.place_of(7) == Some(1) && frames.place_of(5).is_none())
}

#[test]
fn groups_are_made_active_and_inactive(rt: HostRuntime) -> Result<(), Fail> {
    assert!(rt; holds(rt.alloc(), Play::Turned)?);
    Ok(())
}
