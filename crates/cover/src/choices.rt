//! The literals that are chosen for a cover. A literal is chosen of each clause, also of one that is hit: the one of
//! the latest scope keeps cubes short after reduction.
ghost use Rattle.std.specs.Prelude.{◌≡◌, ℕ, ◌==◌, if◌then◌else◌, IsTrue, IsFalse, OnOk, IfOk, Some, None, Contains};
ghost use Rattle.std.specs.List.{filter_map};
ghost use Rattle.prefix.specs.Literal.{Literal};
ghost use Rattle.calculus.specs.Search.{value_on};
ghost use Rattle.cover.specs.Choices.{Chooses, IsInnermost, is_better as better, is_chosen as chosen, is_true_one as true_one};

use memory::NoMemory;
use prefix::{Lit, Prefix, Side};
use std::alloc::Global;
use trail::Trail;

// Whether a literal is true, and of a variable with the side's pivot quantifier.
fn is_true_one<S: Side>(trail: &Trail, prefix: &Prefix, lit: Lit) -> bool
    ensures { result ≡ true_one S.PIVOT prefix.now (value_on trail.now.placed) lit }
{
    match trail.value(lit.var()) {
        Some(value) => value == lit.is_positive() && prefix.is_pivot::<S>(lit),
        None => false,
    }
}

// Whether a literal is to be taken in the place of that one, if there is one: it is of a later scope, or of the same
// and chosen already.
fn is_better(table: &Vec<Option<Lit>>, prefix: &Prefix, lit: Lit, other: &Option<Lit>) -> bool
    ensures { result ≡ better table.now.items prefix.now other.now lit }
{
    match other {
        Some(other) => {
            let least = prefix.depth(other.var());
            let depth = prefix.depth(lit.var());
            least < depth || (least == depth && is_chosen(table, lit))
        }
        None => true,
    }
}

// A true literal of a clause with the side's pivot quantifier, of the latest scope of those, and chosen already where
// there is such a one; but the first that is of the prefix's last scope, at which the look ends.
pub(crate) fn innermost<S: Side>(
    table: &Vec<Option<Lit>>,
    trail: &Trail,
    prefix: &Prefix,
    clause: &[Lit],
) -> Option<Lit>
    ensures { IsInnermost S.PIVOT prefix.now (value_on trail.now.placed) clause.now result }
{
    let last = prefix.scopes();
    let mut innermost = None;
    for lit in clause {
        if !is_true_one::<S>(trail, prefix, *lit) {
            continue;
        }
        if prefix.depth(lit.var()) == last {
            return Some(*lit);
        }
        if !is_better(table, prefix, *lit, &innermost) {
            continue;
        }
        innermost = Some(*lit);
    }
    innermost
}

// Chooses a literal.
#[inline(always)]
pub(crate) fn choose(table: &mut Vec<Option<Lit>>, lit: Lit) -> Result<(), NoMemory>
    ensures { OnOk result (Chooses table.old.items table.new.items lit) }
{
    let index = lit.var().number() as usize;
    if index >= table.len() {
        table.resize(index + 1, None)?;
    }
    table[index] = Some(lit);
    Ok(())
}

// Whether a literal is chosen over the same variable, of the same sign.
fn is_chosen(table: &Vec<Option<Lit>>, lit: Lit) -> bool
    ensures { result ≡ chosen table.now.items lit }
{
    match table.get(lit.var().number() as usize) {
        Some(Some(other)) => other.is_positive() == lit.is_positive(),
        _ => false,
    }
}

// Whether a literal of a clause is chosen.
pub(crate) fn is_hit(table: &Vec<Option<Lit>>, clause: &[Lit]) -> bool
    ensures hit { IsTrue result → ((l : Literal) × Contains clause.now l × IsTrue (chosen table.now.items l)) }
    ensures missed { IsFalse result → (l : Literal) → Contains clause.now l → IsFalse (chosen table.now.items l) }
{
    for lit in clause {
        if is_chosen(table, *lit) {
            return true;
        }
    }
    false
}

// The chosen literals, by variable.
pub(crate) fn chosen_row(alloc: Global, table: &Vec<Option<Lit>>) -> Result<Vec<Lit>, NoMemory>
    ensures { IfOk result (λ row. row.items ≡ filter_map (λ o. o) table.now.items) }
{
    let mut row = Vec::new(alloc);
    for entry in table {
        match entry {
            Some(lit) => row.push(*lit)?,
            None => continue,
        }
    }
    Ok(row)
}
