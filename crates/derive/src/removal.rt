//! Rows with literals removed from them.
ghost use Rattle.std.specs.Prelude.{◌≡◌, ◌↔◌, ◌++◌, is_some, IsTrue, OnOk};
ghost use Rattle.prefix.specs.Scopes.{IsAscending};
ghost use Rattle.truth.specs.Truth.{assumed_value};
ghost use Rattle.calculus.specs.Rows.{reduce as reduction, variables_in};
ghost use Rattle.calculus.specs.Verdicts.{finished};

use memory::NoMemory;
use prefix::{Clauses, Cubes, Lit, Prefix, Quant, Var};
use reduce::{Row, is_reduced, reduce};

// Whether the reduction of a row of that side is the row itself.
#[inline(always)]
pub(crate) fn is_reduced_of(side: Quant, prefix: &Prefix, lits: &[Lit]) -> bool
    ensures { IsTrue result ↔ (reduction side prefix.now lits.now ≡ lits.now) }
{
    match side {
        Quant::Exists => is_reduced::<Clauses>(prefix, lits),
        Quant::Forall => is_reduced::<Cubes>(prefix, lits),
    }
}

// Makes `out` the reduction of a row of that side.
pub(crate) fn reduce_of(
    side: Quant,
    prefix: &Prefix,
    lits: &[Lit],
    out: &mut Row,
) -> Result<(), NoMemory>
    ensures { OnOk result (out.new.items ≡ reduction side prefix.now lits.now) }
{
    match side {
        Quant::Exists => reduce::<Clauses>(prefix, lits, out),
        Quant::Forall => reduce::<Cubes>(prefix, lits, out),
    }
}

// Appends the literals of a row that are over assumed variables.
pub(crate) fn push_assumed(lits: &[Lit], assumptions: &[Lit], out: &mut Row) -> Result<(), NoMemory>
    requires { IsAscending (variables_in assumptions.now) }
    ensures { OnOk result (out.new.items ≡ out.old.items ++ finished assumptions.now lits.now) }
{
    for lit in lits {
        if is_assumed(assumptions, lit.var()) {
            out.push(*lit)?;
        }
    }
    Ok(())
}

// Whether a variable is assumed, by binary search.
fn is_assumed(assumptions: &[Lit], v: Var) -> bool
    requires { IsAscending (variables_in assumptions.now) }
    ensures { result ≡ is_some (assumed_value assumptions.now v) }
{
    let mut low = 0;
    let mut high = assumptions.len();
    while low < high {
        let middle = low + (high - low) / 2;
        let found = assumptions[middle].var();
        if found == v {
            return true;
        }
        if found < v {
            low = middle + 1;
            continue;
        }
        high = middle;
    }
    false
}
