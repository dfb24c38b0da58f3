//! Frames and a search that belong together.
ghost use Rattle.std.specs.Prelude.{◌≡◌, ◌≢◌, ◌≤◌, ◌<◌, ◌+◌, ◌-◌, ◌^◌, ◌==◌, ◌||◌, ℕ, not, filter, List, Some, Err, IfOk, IfErr, IfSome, OnOk, OnErr, IsOkUnless, MatchOption};
ghost use Rattle.steps.specs.Counter.{step_limit};
ghost use Rattle.prefix.specs.Scopes.{Scope};
ghost use Rattle.calculus.specs.Derivations.{Extends};
ghost use Rattle.calculus.specs.Search.{IsRefuted};
ghost use Rattle.derive.specs.State.{OpenClause, clauses_of};
ghost use Rattle.derive.specs.Dropping.{NoneOutsideBelow, is_outside, mentions};
ghost use Rattle.clean.specs.Turns.{reductions_in};
ghost use Rattle.frames.specs.State.{open_clauses};
ghost use Rattle.frames.specs.Commands.{Activate, AddClause, Deactivate, formula_after, refusal_of};
ghost use Rattle.frames.specs.Fold.{returning};
ghost use Rattle.search.specs.Moves.{KeepsOlder, SameSteps};
ghost use Rattle.search.specs.State.{IsResting};
ghost use Rattle.search.specs.Counting.{size_of};
ghost use Rattle.search.specs.Finishes.{HasNoFinish, IsFinishId};
ghost use Rattle.search.specs.Forcing.{HasNoCubes};
ghost use Rattle.search.specs.Long.{long_in};
ghost use Rattle.search.specs.Stops.{IsQuickStop};
ghost use Rattle.engine.specs.Given.{MayBeGiven, numbers_of};
ghost use Rattle.engine.specs.Kept.{AreTied, IsFound, group_tag, joined_tag};
ghost use Rattle.engine.specs.Verdicts.{IsStopFor};

use crate::verdict::{Verdict, truth_against};
use derive::StepId;
use frames::{FrameRefusal, Frames};
use matrix::Matrix;
use memory::NoMemory;
use prefix::{Lit, LitList};
use search::{Search, SolveStop};
use steps::Steps;

// Drops the finish of the last outcome.
pub(crate) fn forget_outcome(search: &mut Search, frames: &Frames)
    requires { AreTied frames.now.formula search.old }
    ensures tied { AreTied frames.now.formula search.new }
    ensures finishes { HasNoFinish search.new.derivation }
    ensures cubes { HasNoCubes search.old → HasNoCubes search.new }
    ensures reductions { reductions_in search.new.derivation ≡ reductions_in search.old.derivation }
    ensures fit { reductions_in search.new.derivation < 2 ^ 64 }
    ensures long { search.new.long ≡ search.old.long }
    ensures older { KeepsOlder search.old.derivation search.new.derivation }
{
    search.drop_finish(frames.prefix());
    // Ids are fewer than 2 ^ 64.
    let _next = search.derivation().next_id();
}

// Decides the open formula under its assumptions, of both of which these are lists.
pub(crate) fn decide(
    search: &mut Search,
    frames: &Frames,
    matrix: &Matrix<'_>,
    assumed: &[Lit],
    restarts: u32,
    kept: u32,
    steps: &mut Steps,
) -> Result<Verdict, SolveStop>
    requires tied { AreTied frames.now.formula search.old }
    requires matrix { matrix.now ≡ open_clauses frames.now.formula }
    requires assumed { assumed.now ≡ frames.now.formula.assumptions }
    ensures tied { AreTied frames.now.formula search.new }
    ensures found { IfOk result (IsFound frames.now.formula search.new.derivation frames.now.formula.assumptions) }
    ensures finishes { IfOk result (λ v. (id : ℕ) → IsFinishId search.new.derivation id → id ≡ v.end) }
    ensures unfinished { OnErr result (HasNoFinish search.new.derivation) }
    ensures stop { IfErr result (IsStopFor restarts frames.now.formula steps.old steps.new) }
    ensures quick { HasNoCubes search.old → IsRefuted frames.now.formula.scopes (open_clauses frames.now.formula)
        frames.now.formula.assumptions → IfErr result (IsQuickStop (size_of frames.now.formula.scopes) steps.old) }
    ensures reductions { reductions_in search.new.derivation
        ≤ reductions_in search.old.derivation + (steps.new.spent - steps.old.spent) + 1 }
    ensures fit { reductions_in search.new.derivation < 2 ^ 64 }
    ensures few { steps.new.spent - steps.old.spent < step_limit restarts (size_of frames.now.formula.scopes) }
    ensures long { OnOk result (long_in search.new.derivation ≤ kept + 1 + size_of frames.now.formula.scopes) }
    ensures within { steps.new.spent ≤ steps.new.budget }
    ensures budget { steps.new.budget ≡ steps.old.budget }
    ensures rises { steps.old.spent ≤ steps.new.spent }
    ensures older { KeepsOlder search.old.derivation search.new.derivation }
{
    // They are of the first scope, and ascend.
    let _assumptions = frames.assumptions();
    let found = search.solve(frames.prefix(), matrix, assumed, restarts, kept, steps);
    // The counter is within its budget, and ids are fewer than 2 ^ 64.
    let _budget = steps.budget();
    let _next = search.derivation().next_id();
    let outcome = found?;
    Ok(Verdict {
        truth: truth_against(outcome.loser),
        end: outcome.end,
    })
}

// A clause as it is given: by numbers, as QDIMACS 1.1 writes literals, or as a row of the prefix, which moves in.
#[derive(Debug, Drop)]
pub(crate) enum Given<'a> {
    Numbers(&'a [i64]),
    Row(LitList),
}

// Puts a clause into the frames.
fn accept(frames: &mut Frames, clause: Given<'_>) -> Result<(), FrameRefusal>
    requires { MayBeGiven frames.old.formula.scopes clause }
    ensures ok { OnOk result (frames.new ≡ record {
      formula = formula_after frames.old.formula (AddClause (numbers_of clause.entry));
      before = Some frames.old.formula;
    }) }
    ensures refused { MatchOption (refusal_of frames.old.formula (AddClause (numbers_of clause.entry)))
        (IsOkUnless result FrameRefusal.NoMemory) (λ e. result ≡ Err e) }
    ensures err { OnErr result (frames.new ≡ frames.old) }
{
    match clause {
        Given::Numbers(lits) => frames.add_clause(lits),
        Given::Row(row) => frames.add_row(row),
    }
}

// Puts a clause into the frames, and its row into the search, where it is open. With no memory the formula and the
// steps stay; where the clause is refused, all does.
pub(crate) fn put_clause(
    frames: &mut Frames,
    search: &mut Search,
    clause: Given<'_>,
) -> Result<(), FrameRefusal>
    requires tied { AreTied frames.old.formula search.old }
    requires given { MayBeGiven frames.old.formula.scopes clause }
    ensures ok { OnOk result (frames.new.formula
        ≡ formula_after frames.old.formula (AddClause (numbers_of clause.entry))) }
    ensures refused { MatchOption (refusal_of frames.old.formula (AddClause (numbers_of clause.entry)))
        (IsOkUnless result FrameRefusal.NoMemory) (λ e. result ≡ Err e) }
    ensures err { OnErr result (frames.new.formula ≡ frames.old.formula) }
    ensures stays { IfErr result (λ e. e ≢ FrameRefusal.NoMemory → search.new ≡ search.old) }
    ensures same { OnErr result (SameSteps search.old.derivation search.new.derivation) }
    ensures fewer { OnErr result (search.new.long ≤ search.old.long) }
    ensures tied { AreTied frames.new.formula search.new }
    ensures cubes { HasNoCubes search.old → HasNoCubes search.new }
    ensures reductions { reductions_in search.new.derivation ≤ reductions_in search.old.derivation + 1 }
    ensures older { KeepsOlder search.old.derivation search.new.derivation }
{
    accept(frames, clause)?;
    if put_last(search, frames).is_err() {
        frames.take_back();
        return Err(FrameRefusal::NoMemory);
    }
    Ok(())
}

// Puts the row of the clause that was just accepted into the search, where it is open.
fn put_last(search: &mut Search, frames: &Frames) -> Result<(), NoMemory>
    requires before { MatchOption frames.now.before ⊥ (λ f. AreTied f search.old) }
    ensures ok { OnOk result (AreTied frames.now.formula search.new) }
    ensures same { OnErr result (SameSteps search.old.derivation search.new.derivation) }
    ensures tied { OnErr result (IfSome frames.now.before (λ f. AreTied f search.new)) }
    ensures fewer { OnErr result (search.new.long ≤ search.old.long) }
    ensures cubes { HasNoCubes search.old → HasNoCubes search.new }
    ensures reductions { reductions_in search.new.derivation ≤ reductions_in search.old.derivation + 1 }
    ensures older { KeepsOlder search.old.derivation search.new.derivation }
{
    let Some(row) = frames.last_row() else {
        return Ok(());
    };
    // All clauses are rows of the prefix.
    let _others = frames.other_clauses();
    let _groups = frames.groups_len();
    match tag_of_last(frames) {
        Some(tag) => search.add_clause(frames.prefix(), row.lits(), tag),
        None => Ok(()),
    }
}

// The tag under which a clause stands that is accepted now, where it is open.
fn tag_of_last(frames: &Frames) -> Option<usize>
    ensures { result ≡ joined_tag frames.now.formula }
{
    match frames.current_group() {
        None => Some(frames.depth()),
        Some(group) if frames.is_active(group) => Some(tag_of(group)),
        Some(_) => None,
    }
}

// The tag of a group's clauses, which is above those of frames.
pub(crate) fn tag_of(group: u32) -> usize
    ensures { result ≡ group_tag group }
{
    Frames::MAX_PUSHED + 1 + group as usize
}

// Puts the clauses of a group that is made active into the search, unless it is active, and answers how many came in.
// With no memory the steps stay.
pub(crate) fn put_group(search: &mut Search, frames: &Frames, group: u32) -> Result<u64, NoMemory>
    requires { AreTied frames.now.formula search.old }
    ensures ok { OnOk result (AreTied (formula_after frames.now.formula (Activate group)) search.new) }
    ensures count { IfOk result (λ n. n ≡ returning frames.now.formula group) }
    ensures same { OnErr result (SameSteps search.old.derivation search.new.derivation) }
    ensures tied { OnErr result (AreTied frames.now.formula search.new) }
    ensures fewer { OnErr result (search.new.long ≤ search.old.long) }
    ensures cubes { HasNoCubes search.old → HasNoCubes search.new }
    ensures reductions { reductions_in search.new.derivation
        ≤ reductions_in search.old.derivation + returning frames.now.formula group }
    ensures older { KeepsOlder search.old.derivation search.new.derivation }
{
    if frames.is_active(group) {
        return Ok(0);
    }
    let clauses = frames.group_clauses(group);
    search.add_clauses(frames.prefix(), clauses, tag_of(group))?;
    Ok(clauses.len() as u64)
}

// Drops the clauses of a group, with all that rests on them.
pub(crate) fn drop_group(search: &mut Search, frames: &Frames, group: u32)
    requires { AreTied frames.now.formula search.old }
    ensures tied { AreTied (formula_after frames.now.formula (Deactivate group)) search.new }
    ensures cubes { HasNoCubes search.old → HasNoCubes search.new }
    ensures reductions { reductions_in search.new.derivation ≤ reductions_in search.old.derivation }
    ensures older { KeepsOlder search.old.derivation search.new.derivation }
{
    let _formula = frames.depth();
    search.drop_frame(tag_of(group));
}

// Drops the clauses of the frame that was the top one, and what names a variable that isn't in the prefix any more: no
// step under an id below the frame's mark does.
pub(crate) fn drop_top(search: &mut Search, frames: &Frames, top: usize, mark: StepId)
    requires resting { (old : List Scope) × Extends frames.now.formula.scopes old × IsResting old search.old }
    requires below { NoneOutsideBelow frames.now.formula.scopes mark search.old.derivation }
    ensures clauses { clauses_of search.new.derivation ≡ filter (λ (c : OpenClause).
        not (c.frame == top || mentions (is_outside frames.now.formula.scopes) c.row))
        (clauses_of search.old.derivation) }
    ensures resting { IsResting frames.now.formula.scopes search.new }
    ensures cubes { HasNoCubes search.old → HasNoCubes search.new }
    ensures reductions { reductions_in search.new.derivation ≤ reductions_in search.old.derivation }
    ensures older { KeepsOlder search.old.derivation search.new.derivation }
{
    search.pop_frame(frames.prefix(), top, mark);
}
