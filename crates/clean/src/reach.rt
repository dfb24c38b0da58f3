//! Resolvents from which no reduction removes anything.
ghost use Rattle.std.specs.Prelude.{◌≡◌, IsTrue};
ghost use Rattle.calculus.specs.Rows.{reduce as reduction};
ghost use Rattle.calculus.specs.Search.{resolved_with};
ghost use Rattle.derive.specs.State.{has_rows, row_of};
ghost use Rattle.clean.specs.Staying.{has_as_deep, is_as_deep as is_deep};
ghost use Rattle.clean.specs.Turns.{IsResolvable};

use derive::{Derivation, StepId};
use prefix::{Lit, Prefix, Side, Var};

// Whether one of the two rows has another pivot-type literal no shallower than the literal. If so, reduction removes
// nothing from the resolvent. Mostly this looks at the last literal of the first row alone.
#[inline(always)]
pub(crate) fn stays_reduced<S: Side>(
    derivation: &Derivation,
    prefix: &Prefix,
    row: StepId,
    lit: Lit,
    reason: StepId,
) -> bool
    requires rows { IsTrue (has_rows derivation.now) }
    requires resolvable { IsResolvable S.PIVOT prefix.now derivation.now row lit reason }
    ensures { IsTrue result → reduction S.PIVOT prefix.now
        (resolved_with (row_of derivation.now row) (row_of derivation.now reason) lit)
        ≡ resolved_with (row_of derivation.now row) (row_of derivation.now reason) lit }
{
    reaches::<S>(prefix, derivation.lits(row), lit.var())
        || reaches::<S>(prefix, derivation.lits(reason), lit.var())
}

// Whether a row has a pivot-type literal over another variable no shallower than that one. The look begins at the last
// literal, since variables of inner scopes mostly have greater numbers.
fn reaches<S: Side>(prefix: &Prefix, lits: &[Lit], v: Var) -> bool
    ensures { result ≡ has_as_deep S.PIVOT prefix.now v lits.now }
{
    let depth = prefix.depth(v);
    let mut i = lits.len();
    while i > 0 {
        i -= 1;
        if is_as_deep::<S>(prefix, lits[i], v, depth) {
            return true;
        }
    }
    false
}

// Whether a literal is pivot-type, over another variable, and of no smaller depth than that.
#[inline(always)]
fn is_as_deep<S: Side>(prefix: &Prefix, lit: Lit, v: Var, depth: usize) -> bool
    ensures { result ≡ is_deep S.PIVOT prefix.now v depth lit }
{
    lit.var() != v && prefix.is_pivot::<S>(lit) && depth <= prefix.depth(lit.var())
}
