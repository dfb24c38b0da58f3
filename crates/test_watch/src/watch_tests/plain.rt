//! The plain definitions of rows that are bad or unit.

use prefix::{Lit, Prefix, Side};
use trail::Trail;

// Whether a literal is of a later scope than the one that is kept, if there is one.
fn is_later(prefix: &Prefix, lit: Lit, kept: Option<Lit>) -> bool {
    match kept {
        Some(kept) => prefix.depth(kept.var()) < prefix.depth(lit.var()),
        None => true,
    }
}

// Whether a literal is bad, or open, not pivot-type and of a later scope than the one that is kept, if there is one.
fn may_stand<S: Side>(trail: &Trail, prefix: &Prefix, lit: Lit, kept: Option<Lit>) -> bool {
    match trail.value(lit.var()) {
        Some(value) => (value == lit.is_positive()) == S::BAD,
        None => !prefix.is_pivot::<S>(lit) && is_later(prefix, lit, kept),
    }
}

// Whether a row is bad, or unit in a literal of it that is open and pivot-type.
fn is_pending<S: Side>(trail: &Trail, prefix: &Prefix, lits: &[Lit], kept: Option<Lit>) -> bool {
    for lit in lits {
        if kept != Some(*lit) && !may_stand::<S>(trail, prefix, *lit, kept) {
            return false;
        }
    }
    true
}

// Whether a row is bad.
pub(crate) fn is_bad<S: Side>(trail: &Trail, prefix: &Prefix, lits: &[Lit]) -> bool {
    is_pending::<S>(trail, prefix, lits, None)
}

// Whether a row is unit in a literal.
pub(crate) fn is_unit<S: Side>(trail: &Trail, prefix: &Prefix, lits: &[Lit], lit: Lit) -> bool {
    if trail.value(lit.var()).is_some() || !prefix.is_pivot::<S>(lit) || !lits.contains(&lit) {
        return false;
    }
    is_pending::<S>(trail, prefix, lits, Some(lit))
}

// Whether a row is bad, or unit in some literal of it.
pub(crate) fn tells<S: Side>(trail: &Trail, prefix: &Prefix, lits: &[Lit]) -> bool {
    for lit in lits {
        if is_unit::<S>(trail, prefix, lits, *lit) {
            return true;
        }
    }
    is_bad::<S>(trail, prefix, lits)
}
