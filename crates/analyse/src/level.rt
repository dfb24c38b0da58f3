//! The level at which a row is to be unit. The least level is learned: with a higher one the row that is learned may be
//! one that is attached already.
ghost use Rattle.std.specs.Prelude.{◌≡◌, ◌<◌, ◌≤◌, ◌⊎◌, None, is_some, IfSome, IsNone, IsTrue, Contains};
ghost use Rattle.prefix.specs.Literal.{Literal};
ghost use Rattle.calculus.specs.Search.{decision_level_on, must_stay as stays, value_on};
ghost use Rattle.analyse.specs.Levels.{IsLevelBelow};

use prefix::{Lit, Prefix, Side, Var};
use trail::Trail;

// The decision level of a variable that is assigned.
pub(crate) fn level_of(trail: &Trail, v: Var) -> usize
    requires { IsTrue (is_some (value_on trail.now.placed v)) }
    ensures { result ≡ decision_level_on trail.now.placed v }
{
    trail.level_of(v).unwrap_or(0)
}

// The decision level of a variable; none exactly where it is unassigned.
fn assigned_level(trail: &Trail, v: Var) -> Option<usize>
    ensures some { IfSome result (λ level. level ≡ decision_level_on trail.now.placed v) }
    ensures none { IsNone result → value_on trail.now.placed v ≡ None }
{
    trail.level_of(v)
}

// Whether a literal must stay bad where another one is to be unit: it is over another variable, and pivot-type or of an
// earlier scope.
fn must_stay<S: Side>(prefix: &Prefix, lit: Lit, unit: Lit) -> bool
    ensures { result ≡ stays S.PIVOT prefix.now unit lit }
{
    if lit.var() == unit.var() {
        return false;
    }
    if prefix.is_pivot::<S>(lit) {
        return true;
    }
    prefix.depth(lit.var()) < prefix.depth(unit.var())
}

// The greatest decision level of a row's literals over other variables than that of a literal that are pivot-type or of
// an earlier scope than it, each of which is assigned; 0 where there are none.
pub(crate) fn level_below<S: Side>(trail: &Trail, prefix: &Prefix, row: &[Lit], unit: Lit) -> usize
    requires { (l : Literal) → Contains row.now l → IsTrue (stays S.PIVOT prefix.now unit l) →
        IsTrue (is_some (value_on trail.now.placed l.variable)) }
    ensures { IsLevelBelow S.PIVOT prefix.now trail.now.placed unit row.now result }
{
    let mut level = 0;
    for lit in row {
        if !must_stay::<S>(prefix, *lit, unit) {
            continue;
        }
        level = level_of(trail, lit.var()).max(level);
    }
    level
}

// The level that `level_below` gives, where each of these literals is assigned and it is smaller than this one. The
// look at the row ends at the first literal by which it isn't so.
pub(crate) fn level_before<S: Side>(
    trail: &Trail,
    prefix: &Prefix,
    row: &[Lit],
    unit: Lit,
    end: usize,
) -> Option<usize>
    ensures some { IfSome result (λ level. IsLevelBelow S.PIVOT prefix.now trail.now.placed unit row.now level) }
    ensures small { IfSome result (λ level. level < end) }
    ensures none { IsNone result → (end ≡ 0) ⊎ ((l : Literal) × Contains row.now l
        × IsTrue (stays S.PIVOT prefix.now unit l) × ((value_on trail.now.placed l.variable ≡ None)
        ⊎ (end ≤ decision_level_on trail.now.placed l.variable))) }
{
    let mut level = 0;
    for lit in row {
        if !must_stay::<S>(prefix, *lit, unit) {
            continue;
        }
        let Some(other) = assigned_level(trail, lit.var()) else {
            return None;
        };
        if end <= other {
            return None;
        }
        level = other.max(level);
    }
    if level < end {
        return Some(level);
    }
    None
}
