//! Cleaning of reasons.
ghost use Rattle.std.specs.Prelude.{◌≡◌, ◌<◌, ◌≤◌, ◌+◌, ◌*◌, IsTrue, IsFalse, IsOk, IfOk, OnErr, OnOk, Err, Some, ◌∷◌, ◌++◌, [], List, take, length};
ghost use Rattle.prefix.specs.Scopes.{quantifier_of};
ghost use Rattle.steps.specs.Counter.{left};
ghost use Rattle.steps.specs.declared.stop.Stop.TheVariants.{Spent as spent};
ghost use Rattle.calculus.specs.Rows.{IsRow};
ghost use Rattle.calculus.specs.Search.{cause_on, place_on};
ghost use Rattle.calculus.specs.Search.Cause.{Propagated as propagated};
ghost use Rattle.derive.specs.State.{has_rows, row_of, IsLegalFor};
ghost use Rattle.trail.specs.State.{is_marked, IsPropagated, IsTrailFor};
ghost use Rattle.clean.specs.Reasons.{HaveReasons, IsOnTheWay};
ghost use Rattle.clean.specs.Turns.{StopsAfter};
ghost use Rattle.derive.specs.Growing.{GainsSteps};
ghost use Rattle.clean.specs.Cleanable.{IsCleanable, StaysCleanable};
ghost use Rattle.clean.specs.Marks.{CleansReasons, IsReasonBlocked, KeepsReasons, StopsCleaning, marks_left};
ghost use Rattle.clean.specs.Frames.{AreFrames, AreMarkedOn, IsDue, IsFirstBlocked, IsLook, IsTurn};
ghost use Rattle.prefix.specs.Literal.{Literal};
ghost use Rattle.std.specs.Prelude.{Option};

use super::blockers::latest_blocker;
use super::frame::{Frame, Look};
use super::turn::{reason_of, resolve_with_reason};
use derive::{Derivation, StepId};
use prefix::{Lit, Prefix, Side, Var};
use steps::{Steps, Stop};
use trail::Trail;

/// Cleans the reason of a propagated variable and, first, the reasons that it is resolved with; nothing where it is
/// marked as clean. The answer is the id of the reason, which is then marked. This keeps a list of the reasons on the
/// way, and calls itself nowhere.
///
/// Each resolution counts a step, and so does each reduction in which something goes; a resolution costs the lengths
/// of its two rows. There are at most as many resolutions as the reasons made clean times the literals of the trail,
/// and no more reductions. No resolvent clashes, as they are legal, and nothing else comes in. Spent comes only where
/// the budget is spent and a resolution is due for a reason that isn't clean. What a stop leaves is as for `clean`.
pub fn clean_reason<S: Side>(
    derivation: &mut Derivation,
    trail: &mut Trail,
    prefix: &Prefix,
    v: Var,
    steps: &mut Steps,
) -> Result<StepId, Stop>
    requires rows { IsTrue (has_rows derivation.old) }
    requires legal { IsLegalFor prefix.now derivation.old }
    requires trail { IsTrailFor prefix.now trail.old }
    requires reasons { HaveReasons S.PIVOT prefix.now derivation.old trail.old }
    requires propagated { IsPropagated trail.old.placed v }
    requires pivot { quantifier_of prefix.now v ≡ Some S.PIVOT }
    ensures ok { IfOk result (λ id. IsTrue (is_marked trail.new v)
        × (cause_on trail.new.placed v ≡ Some (propagated id))) }
    ensures done { IsTrue (is_marked trail.old v) → IsOk result × (derivation.new ≡ derivation.old)
        × (trail.new ≡ trail.old) × (steps.new ≡ steps.old) }
    ensures cleans { OnOk result (CleansReasons prefix.now derivation.old derivation.new trail.old trail.new
        steps.old steps.new 0) }
    ensures err { OnErr result (StopsCleaning prefix.now derivation.old derivation.new trail.old trail.new
        steps.old steps.new (marks_left trail.old * length trail.old.placed)) }
    ensures due { result ≡ Err spent → IsReasonBlocked S.PIVOT prefix.now derivation.old trail.old v }
    ensures spent { result ≡ Err spent → steps.new.spent ≡ steps.new.budget }
    ensures few { result ≡ Err spent → left steps.old < 2 * (marks_left trail.old * length trail.old.placed) }
    ensures limit { result ≡ Err spent →
        left steps.old < 2 * ((length trail.old.placed + 2) * length trail.old.placed) }
    ensures rises { steps.old.spent ≤ steps.new.spent }
    ensures reasons { KeepsReasons prefix.now derivation.old derivation.new trail.old trail.new }
    ensures trail { IsTrailFor prefix.now trail.new }
    ensures gains { GainsSteps derivation.old derivation.new }
    ensures legal { IsLegalFor prefix.now derivation.new }
{
    // The next id tells that only live rows have links.
    let _ = derivation.next_id();
    clean_marked::<S>(derivation, trail, prefix, v, steps)
}

// `clean_reason` over a derivation whose rows are in it.
fn clean_marked<S: Side>(
    derivation: &mut Derivation,
    trail: &mut Trail,
    prefix: &Prefix,
    v: Var,
    steps: &mut Steps,
) -> Result<StepId, Stop>
    requires cleanable { IsCleanable S.PIVOT prefix.now derivation.old trail.old }
    requires propagated { IsPropagated trail.old.placed v }
    requires pivot { quantifier_of prefix.now v ≡ Some S.PIVOT }
    ensures ok { IfOk result (λ id. IsTrue (is_marked trail.new v)
        × (cause_on trail.new.placed v ≡ Some (propagated id))) }
    ensures done { IsTrue (is_marked trail.old v) → IsOk result × (derivation.new ≡ derivation.old)
        × (trail.new ≡ trail.old) × (steps.new ≡ steps.old) }
    ensures cleans { OnOk result (CleansReasons prefix.now derivation.old derivation.new trail.old trail.new
        steps.old steps.new 0) }
    ensures err { OnErr result (StopsCleaning prefix.now derivation.old derivation.new trail.old trail.new
        steps.old steps.new (marks_left trail.old * length trail.old.placed)) }
    ensures due { result ≡ Err spent → IsReasonBlocked S.PIVOT prefix.now derivation.old trail.old v }
    ensures spent { result ≡ Err spent → (steps.new.spent ≡ steps.new.budget)
        × (left steps.old < 2 * (marks_left trail.old * length trail.old.placed)) }
    ensures cleanable { StaysCleanable prefix.now derivation.old derivation.new trail.old trail.new }
{
    make_clean::<S>(derivation, trail, prefix, v, steps)?;
    Ok(reason_of(trail, v))
}

// Cleans the reason of a variable and marks it, unless it is marked.
fn make_clean<S: Side>(
    derivation: &mut Derivation,
    trail: &mut Trail,
    prefix: &Prefix,
    v: Var,
    steps: &mut Steps,
) -> Result<(), Stop>
    requires cleanable { IsCleanable S.PIVOT prefix.now derivation.old trail.old }
    requires propagated { IsPropagated trail.old.placed v }
    requires pivot { quantifier_of prefix.now v ≡ Some S.PIVOT }
    ensures marked { OnOk result (IsTrue (is_marked trail.new v)) }
    ensures done { IsTrue (is_marked trail.old v) → IsOk result × (derivation.new ≡ derivation.old)
        × (trail.new ≡ trail.old) × (steps.new ≡ steps.old) }
    ensures due { result ≡ Err spent → IsReasonBlocked S.PIVOT prefix.now derivation.old trail.old v }
    ensures cleans { OnOk result (CleansReasons prefix.now derivation.old derivation.new trail.old trail.new
        steps.old steps.new 0) }
    ensures err { OnErr result (StopsCleaning prefix.now derivation.old derivation.new trail.old trail.new
        steps.old steps.new (marks_left trail.old * length trail.old.placed)) }
    ensures spent { result ≡ Err spent → (steps.new.spent ≡ steps.new.budget)
        × (left steps.old < 2 * (marks_left trail.old * length trail.old.placed)) }
    ensures cleanable { StaysCleanable prefix.now derivation.old derivation.new trail.old trail.new }
{
    if trail.is_clean(v) {
        return Ok(());
    }
    let mut stack = Vec::new(trail.alloc());
    stack.push(frame_of(trail, v))?;
    clean_all::<S>(derivation, trail, prefix, &mut stack, steps)
}

// Cleans the reasons of a list, the last first, and, before each, those that it is resolved with.
fn clean_all<S: Side>(
    derivation: &mut Derivation,
    trail: &mut Trail,
    prefix: &Prefix,
    stack: &mut Vec<Frame>,
    steps: &mut Steps,
) -> Result<(), Stop>
    requires cleanable { IsCleanable S.PIVOT prefix.now derivation.old trail.old }
    requires frames { AreFrames S.PIVOT prefix.now derivation.old trail.old (length trail.old.placed)
        stack.old.items }
    requires one { length stack.old.items ≡ 1 }
    ensures marked { OnOk result (AreMarkedOn trail.new stack.old.items) }
    ensures due { OnErr result (IsFirstBlocked S.PIVOT prefix.now derivation.old trail.old stack.old.items) }
    ensures cleans { OnOk result (CleansReasons prefix.now derivation.old derivation.new trail.old trail.new
        steps.old steps.new 0) }
    ensures err { OnErr result (StopsCleaning prefix.now derivation.old derivation.new trail.old trail.new
        steps.old steps.new (marks_left trail.old * length trail.old.placed)) }
    ensures spent { result ≡ Err spent → (steps.new.spent ≡ steps.new.budget)
        × (left steps.old < 2 * (marks_left trail.old * length trail.old.placed)) }
    ensures cleanable { StaysCleanable prefix.now derivation.old derivation.new trail.old trail.new }
{
    while let Some(frame) = stack.pop() {
        turn::<S>(derivation, trail, prefix, frame, stack, steps)?;
    }
    Ok(())
}

// One turn of the list, off which its last reason was taken: that is marked, or waits for another one, or is resolved
// once.
fn turn<S: Side>(
    derivation: &mut Derivation,
    trail: &mut Trail,
    prefix: &Prefix,
    frame: Frame,
    stack: &mut Vec<Frame>,
    steps: &mut Steps,
) -> Result<(), Stop>
    requires cleanable { IsCleanable S.PIVOT prefix.now derivation.old trail.old }
    requires frames { AreFrames S.PIVOT prefix.now derivation.old trail.old (length trail.old.placed)
        (stack.old.items ++ frame ∷ []) }
    ensures ok { OnOk result (IsTurn S.PIVOT prefix.now derivation.old derivation.new trail.old trail.new
        (stack.old.items ++ frame ∷ []) stack.new.items steps.old steps.new) }
    ensures frames { OnOk result (AreFrames S.PIVOT prefix.now derivation.new trail.new (length trail.new.placed)
        stack.new.items) }
    ensures stays { OnErr result (trail.new ≡ trail.old) }
    ensures err { OnErr result (StopsAfter prefix.now 1 derivation.old derivation.new steps.old steps.new) }
    ensures due { OnErr result (IsDue S.PIVOT prefix.now derivation.old trail.old (stack.old.items ++ frame ∷ [])) }
    ensures spent { result ≡ Err spent → (steps.new.spent ≡ steps.new.budget) × (left steps.old < 2) }
    ensures cleanable { StaysCleanable prefix.now derivation.old derivation.new trail.old trail.new }
{
    let end = place_of(trail, frame.var);
    match look::<S>(trail, prefix, derivation.lits(frame.row), end) {
        Look::Ends => {
            trail.set_clean(frame.var, frame.row);
            Ok(())
        }
        Look::Waits { var } => {
            let next = frame_of(trail, var);
            stack.push(frame)?;
            stack.push(next)?;
            Ok(())
        }
        Look::Turns { lit, reason } => {
            let row = resolve_with_reason::<S>(derivation, prefix, frame.row, lit, reason, steps)?;
            let left = place_of(trail, lit.var());
            stack.push(Frame {
                var: frame.var,
                row,
                left,
            })?;
            Ok(())
        }
    }
}

// What comes next for a row on the way, on the first `end` literals of the trail.
fn look<S: Side>(trail: &Trail, prefix: &Prefix, row: &[Lit], end: usize) -> Look
    requires end { end ≤ length trail.now.placed }
    requires trail { IsTrailFor prefix.now trail.now }
    requires row { IsRow prefix.now row.now }
    requires way { (kept : Option Literal) × IsOnTheWay S.PIVOT prefix.now (take end trail.now.placed) kept row.now }
    ensures { IsLook S.PIVOT prefix.now trail.now end row.now result }
{
    match latest_blocker::<S>(trail, prefix, row, end) {
        None => Look::Ends,
        Some(lit) => {
            let waiting = lit.var();
            if trail.is_clean(waiting) {
                let reason = reason_of(trail, waiting);
                Look::Turns { lit, reason }
            } else {
                Look::Waits { var: waiting }
            }
        }
    }
}

// The place of a variable; how many literals the trail has where it is unassigned.
fn place_of(trail: &Trail, v: Var) -> usize
    ensures place { result ≡ place_on trail.now.placed v }
    ensures within { result ≤ length trail.now.placed }
{
    trail.place(v).unwrap_or(trail.len())
}

// The reason of a propagated variable, on the way to be cleaned.
fn frame_of(trail: &Trail, v: Var) -> Frame
    requires { IsPropagated trail.now.placed v }
    ensures variable { result.var ≡ v }
    ensures row { cause_on trail.now.placed v ≡ Some (propagated result.row) }
    ensures whole { result.left ≡ place_on trail.now.placed v }
{
    Frame {
        var: v,
        row: reason_of(trail, v),
        left: place_of(trail, v),
    }
}
