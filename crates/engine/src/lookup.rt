//! What is looked up in rows that ascend by variable.
ghost use Rattle.std.specs.Prelude.{◌≡◌, ◌≤◌, true, false, length, nat_lt};
ghost use Rattle.std.specs.List.Sorted.{IsPartitionPoint};
ghost use Rattle.prefix.specs.Scopes.{IsAscending};
ghost use Rattle.truth.specs.Truth.{assumed_value};
ghost use Rattle.calculus.specs.Rows.{literal_over, variables_in};
ghost use Rattle.calculus.specs.Verdicts.{mentions, relevant_of};

use prefix::{Lit, Var};

// The literal of a row over a variable, by binary search.
pub(crate) fn literal_over(row: &[Lit], v: Var) -> Option<Lit>
    requires { IsAscending (variables_in row.now) }
    ensures { result ≡ literal_over row.now v }
{
    let place = place_of(row, v);
    if place == row.len() {
        return None;
    }
    let lit = row[place];
    if lit.var() == v { Some(lit) } else { None }
}

// The place before which all variables come before this one, and from which on none does.
fn place_of(row: &[Lit], v: Var) -> usize
    requires { IsAscending (variables_in row.now) }
    ensures bound { result ≤ length row.now }
    ensures place { IsPartitionPoint (λ lit. nat_lt lit.variable v ≡ true) (λ lit. nat_lt lit.variable v ≡ false)
        row.now result }
{
    row.partition_point(|lit| is_below(*lit, v))
}

// Whether a literal's variable comes before another.
fn is_below(lit: Lit, v: Var) -> bool
    ensures { result ≡ nat_lt lit.variable v }
{
    lit.var() < v
}

// Whether a row has a literal over a variable.
fn is_mentioned(row: &[Lit], v: Var) -> bool
    requires { IsAscending (variables_in row.now) }
    ensures { result ≡ mentions row.now v }
{
    literal_over(row, v).is_some()
}

// The value of a variable under assumptions, by binary search.
pub(crate) fn assumed_value(assumptions: &[Lit], v: Var) -> Option<bool>
    requires { IsAscending (variables_in assumptions.now) }
    ensures { result ≡ assumed_value assumptions.now v }
{
    match literal_over(assumptions, v) {
        None => None,
        Some(lit) => Some(lit.is_positive()),
    }
}

// Keeps the literals whose variables stand in a row. This takes no memory.
pub(crate) fn keep_mentioned(lits: &mut Vec<Lit>, row: &[Lit])
    requires { IsAscending (variables_in row.now) }
    ensures { lits.new.items ≡ relevant_of lits.old.items row.now }
{
    lits.retain(|lit| is_mentioned(row, lit.var()));
}
