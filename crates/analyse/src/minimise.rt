//! Lessons without literals that others imply.
ghost use Rattle.std.specs.Prelude.{◌≡◌, Contains, IfSome, IsTrue};
ghost use Rattle.prefix.specs.Literal.{Literal};
ghost use Rattle.calculus.specs.Rows.{is_pivot};
ghost use Rattle.calculus.specs.Search.{is_bad_now, value_on};
ghost use Rattle.trail.specs.State.{IsPropagated};
ghost use Rattle.derive.specs.State.{row_of};
ghost use Rattle.clean.specs.Cleanable.{IsCleanable, StaysCleanable};
ghost use Rattle.clean.specs.Cleaning.{MayResolveAway};
ghost use Rattle.clean.specs.Marks.{CleansReasons};
ghost use Rattle.clean.specs.Reasons.{IsReducedStep};

use super::marks::{Mark, mark_of, marks_of};
use clean::try_resolving;
use derive::{Derivation, StepId};
use prefix::{Lit, Prefix, Side, Var};
use steps::Steps;
use trail::{Trail, Why};

// A row without pivot-type literals that others imply, which are resolved away by their reasons as those stand, the
// last on the trail first, at most so many; the row itself where that takes more memory or steps than there are, or
// brings other literals in. A literal of it stays.
pub(crate) fn minimised<S: Side>(
    derivation: &mut Derivation,
    trail: &Trail,
    prefix: &Prefix,
    row: StepId,
    unit: Lit,
    most: usize,
    steps: &mut Steps,
) -> StepId
    requires cleanable { IsCleanable S.PIVOT prefix.now derivation.old trail.now }
    requires row { IsReducedStep S.PIVOT prefix.now derivation.old row }
    requires stands { Contains (row_of derivation.old row) unit }
    ensures step { IsReducedStep S.PIVOT prefix.now derivation.new result }
    ensures part { (l : Literal) → Contains (row_of derivation.new result) l →
        Contains (row_of derivation.old row) l }
    ensures stands { Contains (row_of derivation.new result) unit }
    ensures counted { CleansReasons prefix.now derivation.old derivation.new trail.now trail.now
        steps.old steps.new most }
    ensures cleanable { StaysCleanable prefix.now derivation.old derivation.new trail.now trail.now }
{
    let shorter = resolved::<S>(derivation, trail, prefix, row, unit, most, steps);
    if is_part(derivation.lits(shorter), derivation.lits(row), unit) {
        shorter
    } else {
        row
    }
}

// The row that is left once literals are resolved away.
fn resolved<S: Side>(
    derivation: &mut Derivation,
    trail: &Trail,
    prefix: &Prefix,
    row: StepId,
    unit: Lit,
    most: usize,
    steps: &mut Steps,
) -> StepId
    requires cleanable { IsCleanable S.PIVOT prefix.now derivation.old trail.now }
    requires row { IsReducedStep S.PIVOT prefix.now derivation.old row }
    ensures step { IsReducedStep S.PIVOT prefix.now derivation.new result }
    ensures counted { CleansReasons prefix.now derivation.old derivation.new trail.now trail.now
        steps.old steps.new most }
    ensures cleanable { StaysCleanable prefix.now derivation.old derivation.new trail.now trail.now }
{
    match marks_of::<S>(derivation, trail, prefix, derivation.lits(row), unit) {
        Ok(marks) => resolve_all::<S>(derivation, trail, prefix, row, unit, &marks, most, steps),
        Err(_) => row,
    }
}

// `resolved` by the marks of the variables.
fn resolve_all<S: Side>(
    derivation: &mut Derivation,
    trail: &Trail,
    prefix: &Prefix,
    given: StepId,
    unit: Lit,
    marks: &Vec<Mark>,
    most: usize,
    steps: &mut Steps,
) -> StepId
    requires cleanable { IsCleanable S.PIVOT prefix.now derivation.old trail.now }
    requires row { IsReducedStep S.PIVOT prefix.now derivation.old given }
    ensures step { IsReducedStep S.PIVOT prefix.now derivation.new result }
    ensures counted { CleansReasons prefix.now derivation.old derivation.new trail.now trail.now
        steps.old steps.new most }
    ensures cleanable { StaysCleanable prefix.now derivation.old derivation.new trail.now trail.now }
{
    let mut row = given;
    for _taken in 0..most {
        let Some(lit) = next_implied::<S>(trail, prefix, marks, derivation.lits(row), unit) else {
            return row;
        };
        let Some(next) = try_resolving::<S>(derivation, trail, prefix, row, lit, steps) else {
            return row;
        };
        row = next;
    }
    row
}

// The literal of a row that is resolved away next: the last on the trail of those that others imply.
fn next_implied<S: Side>(
    trail: &Trail,
    prefix: &Prefix,
    marks: &Vec<Mark>,
    row: &[Lit],
    unit: Lit,
) -> Option<Lit>
    ensures { IfSome result (λ l. MayResolveAway S.PIVOT prefix.now trail.now.placed row.now l) }
{
    let lit = latest_implied(trail, marks, row, unit)?;
    if may_resolve::<S>(trail, prefix, lit) {
        return Some(lit);
    }
    None
}

// The last on the trail of a row's literals that others imply.
fn latest_implied(trail: &Trail, marks: &Vec<Mark>, row: &[Lit], unit: Lit) -> Option<Lit>
    ensures { IfSome result (λ l. Contains row.now l) }
{
    let mut latest = None;
    // Its place, once there is one.
    let mut last = 0;
    for lit in row {
        if mark_of(marks, lit.var()) != Mark::Implied || lit.var() == unit.var() {
            continue;
        }
        let place = trail.place(lit.var()).unwrap_or(0);
        if place < last {
            continue;
        }
        latest = Some(*lit);
        last = place;
    }
    latest
}

// Whether a literal is pivot-type and bad, and was propagated.
fn may_resolve<S: Side>(trail: &Trail, prefix: &Prefix, lit: Lit) -> bool
    ensures pivot { IsTrue result → IsTrue (is_pivot S.PIVOT prefix.now lit) }
    ensures bad { IsTrue result → IsTrue (is_bad_now S.PIVOT (value_on trail.now.placed) lit) }
    ensures propagated { IsTrue result → IsPropagated trail.now.placed lit.variable }
{
    prefix.is_pivot::<S>(lit) && is_bad::<S>(trail, lit) && is_propagated(trail, lit.var())
}

// Whether a literal is bad on the trail.
fn is_bad<S: Side>(trail: &Trail, lit: Lit) -> bool
    ensures { result ≡ is_bad_now S.PIVOT (value_on trail.now.placed) lit }
{
    match trail.value(lit.var()) {
        Some(value) => (value == lit.is_positive()) == S::BAD,
        None => false,
    }
}

// Whether a variable was propagated.
fn is_propagated(trail: &Trail, v: Var) -> bool
    ensures { IsTrue result → IsPropagated trail.now.placed v }
{
    matches!(trail.why(v), Some(Why::Propagated(_)))
}

// Whether each literal of a row stands in that one, in the same order, and this one in both.
fn is_part(row: &[Lit], whole: &[Lit], unit: Lit) -> bool
    ensures part { IsTrue result → (l : Literal) → Contains row.now l → Contains whole.now l }
    ensures unit { IsTrue result → Contains row.now unit }
{
    row.contains(&unit) && is_within(row, whole)
}

// Whether each literal of a row stands in that one, in the same order.
fn is_within(row: &[Lit], whole: &[Lit]) -> bool
    ensures { IsTrue result → (l : Literal) → Contains row.now l → Contains whole.now l }
{
    let mut next = 0;
    for lit in whole {
        if next < row.len() && row[next] == *lit {
            next += 1;
        }
    }
    next == row.len()
}
