//! Resolutions with reasons as they stand.
ghost use Rattle.std.specs.Prelude.{◌≡◌, ◌<◌, ◌≤◌, ◌+◌, ◌*◌, IsTrue, IfOk, IfSome, OnErr, OnOk, Err, length};
ghost use Rattle.prefix.specs.Scopes.{IsAscending};
ghost use Rattle.steps.specs.Counter.{left};
ghost use Rattle.steps.specs.declared.stop.Stop.TheVariants.{Spent as spent};
ghost use Rattle.calculus.specs.Rows.{variables_in};
ghost use Rattle.calculus.specs.Search.{clashes_with};
ghost use Rattle.derive.specs.State.{has_rows, row_of, IsLegalFor};
ghost use Rattle.trail.specs.State.{IsTrailFor};
ghost use Rattle.clean.specs.Reasons.{HaveReasons, IsReducedStep};
ghost use Rattle.clean.specs.Cleanable.{IsCleanable, StaysCleanable};
ghost use Rattle.clean.specs.Marks.{CleansReasons, KeepsReasons, StopsCleaning, marks_left};
ghost use Rattle.clean.specs.Cleaning.{MayReplace, MayResolveAway, ReplacesBefore, ReplacesByReason};

use super::cleaning::resolve_away;
use super::turn::{reason_of, resolve_with_reason, resolve_within};
use derive::{Derivation, StepId};
use prefix::{Lit, Prefix, Side};
use reduce::clashes;
use steps::{Steps, Stop};
use trail::Trail;

/// Resolves a bad literal of a row away by its reason: as that stands, where the two rows have no clash, else made
/// clean before, as `resolve_away` does. This counts one step, or two, beside those of reasons made clean, and costs
/// the lengths of the two rows. Spent comes only where the budget is spent. What a stop leaves is as for `clean`.
pub fn resolve_by_reason<S: Side>(
    derivation: &mut Derivation,
    trail: &mut Trail,
    prefix: &Prefix,
    row: StepId,
    lit: Lit,
    steps: &mut Steps,
) -> Result<StepId, Stop>
    requires rows { IsTrue (has_rows derivation.old) }
    requires legal { IsLegalFor prefix.now derivation.old }
    requires trail { IsTrailFor prefix.now trail.old }
    requires reasons { HaveReasons S.PIVOT prefix.now derivation.old trail.old }
    requires may { MayReplace S.PIVOT prefix.now derivation.old trail.old row lit }
    ensures ok { IfOk result (λ id. ReplacesBefore S.PIVOT prefix.now trail.old trail.new derivation.old
        derivation.new steps.old steps.new row lit id) }
    ensures err { OnErr result (StopsCleaning prefix.now derivation.old derivation.new trail.old trail.new
        steps.old steps.new (marks_left trail.old * length trail.old.placed + 1)) }
    ensures spent { result ≡ Err spent → (steps.new.spent ≡ steps.new.budget)
        × (left steps.old < 2 * (marks_left trail.old * length trail.old.placed + 1)) }
    ensures reasons { KeepsReasons prefix.now derivation.old derivation.new trail.old trail.new }
    ensures trail { IsTrailFor prefix.now trail.new }
    ensures legal { IsLegalFor prefix.now derivation.new }
    ensures rows { IsTrue (has_rows derivation.new) }
{
    let reason = reason_of(trail, lit.var());
    if has_clash(derivation.lits(row), derivation.lits(reason), lit) {
        return resolve_away::<S>(derivation, trail, prefix, row, lit, steps);
    }
    resolve_with_reason::<S>(derivation, prefix, row, lit, reason, steps)
}

/// Resolves a bad literal of a row away by its reason as that stands, where the two rows have no clash, two steps are
/// left and there is memory; else the answer is none. This counts one step, or two, and costs the lengths of the two
/// rows. Each step that was counted is one that came in; where the answer is none that is at most the resolvent.
pub fn try_resolving<S: Side>(
    derivation: &mut Derivation,
    trail: &Trail,
    prefix: &Prefix,
    row: StepId,
    lit: Lit,
    steps: &mut Steps,
) -> Option<StepId>
    requires cleanable { IsCleanable S.PIVOT prefix.now derivation.old trail.now }
    requires row { IsReducedStep S.PIVOT prefix.now derivation.old row }
    requires may { MayResolveAway S.PIVOT prefix.now trail.now.placed (row_of derivation.old row) lit }
    ensures some { IfSome result (λ id. ReplacesByReason S.PIVOT prefix.now trail.now.placed derivation.old
        derivation.new row lit id) }
    ensures counted { CleansReasons prefix.now derivation.old derivation.new trail.now trail.now
        steps.old steps.new 1 }
    ensures cleanable { StaysCleanable prefix.now derivation.old derivation.new trail.now trail.now }
{
    if steps.budget() - steps.spent() < 2 {
        return None;
    }
    let antecedent = reason_of(trail, lit.var());
    if has_clash(derivation.lits(row), derivation.lits(antecedent), lit) {
        return None;
    }
    resolve_within::<S>(derivation, prefix, row, lit, antecedent, steps).ok()
}

// Whether a variable other than that of the literal stands with opposite signs in a row and a reason of the literal.
#[inline(always)]
fn has_clash(row: &[Lit], reason: &[Lit], lit: Lit) -> bool
    requires row_ascends { IsAscending (variables_in row.now) }
    requires reason_ascends { IsAscending (variables_in reason.now) }
    ensures { result ≡ clashes_with row.now reason.now lit }
{
    if lit.is_positive() {
        clashes(row, reason, lit.var())
    } else {
        clashes(reason, row, lit.var())
    }
}
