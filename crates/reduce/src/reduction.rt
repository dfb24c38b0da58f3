//! Universal reduction of clauses and existential reduction of cubes.
ghost use Rattle.std.specs.Prelude.{◌≡◌, ◌↔◌, [], ◌++◌, filter, length, IsTrue, OnOk, OnErr};
ghost use Rattle.prefix.specs.Scopes.{IsAscending};
ghost use Rattle.calculus.specs.Rows.{reduce as reduction, variables_in};
ghost use Rattle.reduce.specs.Deepest.{IsDeepest, IsDeepestOther, is_before as before, keeps_all as keeps, stays_before};
ghost use Rattle.smallvec.specs.SmallVec.{HasRoomFor};

use super::Row;
use memory::NoMemory;
use prefix::{Lit, Prefix, Side};

/// Makes `out` the reduction of `lits`: each literal goes that is neither pivot-type nor of a smaller depth than some
/// pivot-type literal. A row without pivot-type literals stays as it is. An ascending row stays ascending. After want
/// of memory `out` is empty.
pub fn reduce<S: Side>(prefix: &Prefix, lits: &[Lit], out: &mut Row) -> Result<(), NoMemory>
    ensures ok { OnOk result (out.new.items ≡ reduction S.PIVOT prefix.now lits.now) }
    ensures ascending { OnOk result (IsAscending (variables_in lits.now) → IsAscending (variables_in out.new.items)) }
    ensures err { OnErr result (out.new.items ≡ []) }
{
    out.clear();
    let done = push_reduction::<S>(prefix, lits, out);
    if done.is_err() {
        out.clear();
    }
    done
}

/// Whether the reduction of a row is the row itself. This goes over the row at most twice, and takes no memory.
pub fn is_reduced<S: Side>(prefix: &Prefix, lits: &[Lit]) -> bool
    ensures { IsTrue result ↔ (reduction S.PIVOT prefix.now lits.now ≡ lits.now) }
{
    match deepest_other::<S>(prefix, lits) {
        Some(depth) => keeps_all::<S>(prefix, lits, depth),
        None => true,
    }
}

// The greatest depth of a literal that isn't pivot-type.
fn deepest_other<S: Side>(prefix: &Prefix, lits: &[Lit]) -> Option<usize>
    ensures { IsDeepestOther S.PIVOT prefix.now lits.now result }
{
    let mut deepest = None;
    for lit in lits {
        if prefix.is_pivot::<S>(*lit) {
            continue;
        }
        let depth = prefix.depth(lit.var());
        if !is_before(deepest, depth) {
            deepest = Some(depth);
        }
    }
    deepest
}

// Whether a row has a pivot-type literal of a greater depth than that, or none at all. The look begins at the last
// literal, since variables of inner scopes mostly have greater numbers.
fn keeps_all<S: Side>(prefix: &Prefix, lits: &[Lit], depth: usize) -> bool
    ensures { result ≡ keeps S.PIVOT prefix.now depth lits.now }
{
    let mut i = lits.len();
    let mut has_pivot = false;
    while i > 0 {
        i -= 1;
        let lit = lits[i];
        if !prefix.is_pivot::<S>(lit) {
            continue;
        }
        if depth < prefix.depth(lit.var()) {
            return true;
        }
        has_pivot = true;
    }
    !has_pivot
}

// Appends the reduction of a row.
fn push_reduction<S: Side>(prefix: &Prefix, lits: &[Lit], out: &mut Row) -> Result<(), NoMemory>
    ensures { OnOk result (out.new.items ≡ out.old.items ++ reduction S.PIVOT prefix.now lits.now) }
{
    let deepest = deepest_pivot::<S>(prefix, lits);
    if deepest.is_some() {
        // Room for the whole row, so that no push asks for memory.
        out.reserve(lits.len())?;
        push_staying::<S>(prefix, lits, deepest, out);
        Ok(())
    } else {
        push_all(lits, out)
    }
}

// Whether a depth is smaller than that one, if there is one.
fn is_before(deepest: Option<usize>, depth: usize) -> bool
    ensures { result ≡ before deepest depth }
{
    match deepest {
        Some(deepest) => depth < deepest,
        None => false,
    }
}

// The greatest depth of a pivot-type literal.
fn deepest_pivot<S: Side>(prefix: &Prefix, lits: &[Lit]) -> Option<usize>
    ensures { IsDeepest S.PIVOT prefix.now lits.now result }
{
    let mut deepest = None;
    for lit in lits {
        let depth = prefix.depth(lit.var());
        if prefix.is_pivot::<S>(*lit) && !is_before(deepest, depth) {
            deepest = Some(depth);
        }
    }
    deepest
}

// Whether a literal is pivot-type or of a smaller depth.
fn stays<S: Side>(prefix: &Prefix, deepest: Option<usize>, lit: Lit) -> bool
    ensures { result ≡ stays_before S.PIVOT prefix.now deepest lit }
{
    prefix.is_pivot::<S>(lit) || is_before(deepest, prefix.depth(lit.var()))
}

// Appends the literals that are pivot-type or of a smaller depth, where there is room for all.
fn push_staying<S: Side>(prefix: &Prefix, lits: &[Lit], deepest: Option<usize>, out: &mut Row)
    requires room { HasRoomFor out.old (length lits.now) }
    ensures { out.new.items ≡ out.old.items ++ filter (stays_before S.PIVOT prefix.now deepest) lits.now }
{
    for lit in lits {
        if stays::<S>(prefix, deepest, *lit) {
            out.push_reserved(*lit);
        }
    }
}

// Appends all literals.
fn push_all(lits: &[Lit], out: &mut Row) -> Result<(), NoMemory>
    ensures { OnOk result (out.new.items ≡ out.old.items ++ lits.now) }
{
    out.extend_from_slice(lits)?;
    Ok(())
}
