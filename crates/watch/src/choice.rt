//! What to do with a row whose literals have these values.
ghost use Rattle.std.specs.Prelude.{◌≡◌, ◌≤◌, Contains, IfSome, IsTrue, None, length};
ghost use Rattle.std.specs.Option.{option_map};
ghost use Rattle.calculus.specs.Rows.{same_literal};
ghost use Rattle.calculus.specs.Search.{is_bad_now, value_on};
ghost use Rattle.watch.specs.Pairs.{FailBetween, IsFound, is_free_pivot, is_good_now, is_partner, joins};
ghost use Rattle.watch.specs.Events.{IsChoice, IsChoiceWith};

use prefix::{Lit, Prefix, Side};
use trail::Trail;

// What to do with a row.
#[derive(Clone, Copy, Debug)]
pub(crate) enum Choice {
    // It may watch these two literals, of which the second was found at this place.
    Pair(Lit, Lit, usize),
    // This good literal holds it.
    Held(Lit),
    // It is unit in this literal.
    Open(Lit),
    // It is bad.
    Fails,
}

// A literal of a row, with its place there.
#[derive(Clone, Copy, Debug)]
struct Found {
    lit: Lit,
    place: usize,
}

// Whether a literal is bad.
fn is_bad<S: Side>(trail: &Trail, lit: Lit) -> bool
    ensures { result ≡ is_bad_now S.PIVOT (value_on trail.now.placed) lit }
{
    match trail.value(lit.var()) {
        None => false,
        Some(b) => (b == lit.is_positive()) == S::BAD,
    }
}

// Whether a literal is good.
pub(crate) fn is_good<S: Side>(trail: &Trail, lit: Lit) -> bool
    ensures { result ≡ is_good_now S.PIVOT (value_on trail.now.placed) lit }
{
    trail.value(lit.var()).is_some() && !is_bad::<S>(trail, lit)
}

// Whether two literals are the same.
fn is_same(a: Lit, b: Lit) -> bool
    ensures { result ≡ same_literal a b }
{
    a.var().number() == b.var().number() && a.is_positive() == b.is_positive()
}

// A pivot-type literal that isn't bad, with its place: the first one from a place on, round the row.
fn free_pivot<S: Side>(prefix: &Prefix, trail: &Trail, lits: &[Lit], start: usize) -> Option<Found>
    ensures { IsFound (is_free_pivot S.PIVOT prefix.now (value_on trail.now.placed)) lits.now
        (option_map (λ found. found.lit) result) }
{
    let start = start.min(lits.len());
    match free_between::<S>(prefix, trail, lits, start, lits.len()) {
        Some(found) => Some(found),
        None => free_between::<S>(prefix, trail, lits, 0, start),
    }
}

// The first pivot-type literal that isn't bad of those from one place on and before another one.
#[inline]
fn free_between<S: Side>(
    prefix: &Prefix,
    trail: &Trail,
    lits: &[Lit],
    from: usize,
    to: usize,
) -> Option<Found>
    requires { to ≤ length lits.now }
    ensures some { IfSome result (λ f. Contains lits.now f.lit
        × IsTrue (is_free_pivot S.PIVOT prefix.now (value_on trail.now.placed) f.lit)) }
    ensures none { result ≡ None →
        FailBetween (is_free_pivot S.PIVOT prefix.now (value_on trail.now.placed)) lits.now from to }
{
    for place in from..to {
        if is_free::<S>(prefix, trail, lits[place]) {
            return Some(Found {
                lit: lits[place],
                place,
            });
        }
    }
    None
}

// Whether a literal is pivot-type and not bad.
pub(crate) fn is_free<S: Side>(prefix: &Prefix, trail: &Trail, lit: Lit) -> bool
    ensures { result ≡ is_free_pivot S.PIVOT prefix.now (value_on trail.now.placed) lit }
{
    !is_bad::<S>(trail, lit) && prefix.is_pivot::<S>(lit)
}

// A literal that makes a typed pair with a pivot-type one, and isn't bad, with its place: the first one from a place
// on, round the row.
fn partner<S: Side>(
    prefix: &Prefix,
    trail: &Trail,
    lits: &[Lit],
    first: Lit,
    start: usize,
) -> Option<Found>
    ensures { IsFound (is_partner S.PIVOT prefix.now (value_on trail.now.placed) first) lits.now
        (option_map (λ found. found.lit) result) }
{
    let start = start.min(lits.len());
    match partner_between::<S>(prefix, trail, lits, first, start, lits.len()) {
        Some(found) => Some(found),
        None => partner_between::<S>(prefix, trail, lits, first, 0, start),
    }
}

// The first such literal of those from one place on and before another one.
#[inline]
fn partner_between<S: Side>(
    prefix: &Prefix,
    trail: &Trail,
    lits: &[Lit],
    first: Lit,
    from: usize,
    to: usize,
) -> Option<Found>
    requires { to ≤ length lits.now }
    ensures some { IfSome result (λ f. Contains lits.now f.lit
        × IsTrue (is_partner S.PIVOT prefix.now (value_on trail.now.placed) first f.lit)) }
    ensures none { result ≡ None →
        FailBetween (is_partner S.PIVOT prefix.now (value_on trail.now.placed) first) lits.now from to }
{
    for place in from..to {
        if is_match::<S>(prefix, trail, lits[place], first) {
            return Some(Found {
                lit: lits[place],
                place,
            });
        }
    }
    None
}

// Whether a literal makes a typed pair with a pivot-type one, and isn't bad.
fn is_match<S: Side>(prefix: &Prefix, trail: &Trail, lit: Lit, first: Lit) -> bool
    ensures { result ≡ is_partner S.PIVOT prefix.now (value_on trail.now.placed) first lit }
{
    !is_bad::<S>(trail, lit) && !is_same(lit, first) && may_join::<S>(prefix, lit, first)
}

// Whether a literal is pivot-type, or of an earlier scope than another one.
fn may_join<S: Side>(prefix: &Prefix, lit: Lit, first: Lit) -> bool
    ensures { result ≡ joins S.PIVOT prefix.now first lit }
{
    prefix.is_pivot::<S>(lit) || prefix.depth(lit.var()) < prefix.depth(first.var())
}

// A good literal.
fn good<S: Side>(trail: &Trail, lits: &[Lit]) -> Option<Lit>
    ensures { IsFound (is_good_now S.PIVOT (value_on trail.now.placed)) lits.now result }
{
    for lit in lits {
        if is_good::<S>(trail, *lit) {
            return Some(*lit);
        }
    }
    None
}

// What to do with a row that has a pivot-type literal that isn't bad.
pub(crate) fn choose_with<S: Side>(
    prefix: &Prefix,
    trail: &Trail,
    lits: &[Lit],
    start: usize,
    pivot: Lit,
) -> Choice
    requires stands { Contains lits.now pivot }
    requires free { IsTrue (is_free_pivot S.PIVOT prefix.now (value_on trail.now.placed) pivot) }
    ensures choice { IsChoice S.PIVOT prefix.now (value_on trail.now.placed) lits.now result }
    ensures first { IsChoiceWith pivot result }
{
    if let Some(other) = partner::<S>(prefix, trail, lits, pivot, start) {
        return Choice::Pair(pivot, other.lit, other.place);
    }
    match good::<S>(trail, lits) {
        Some(lit) => Choice::Held(lit),
        None => Choice::Open(pivot),
    }
}

// What to do with a row, whose literals are searched from a place on.
pub(crate) fn choose<S: Side>(prefix: &Prefix, trail: &Trail, lits: &[Lit], start: usize) -> Choice
    ensures { IsChoice S.PIVOT prefix.now (value_on trail.now.placed) lits.now result }
{
    match free_pivot::<S>(prefix, trail, lits, start) {
        Some(pivot) => choose_with::<S>(prefix, trail, lits, start, pivot.lit),
        None => match good::<S>(trail, lits) {
            Some(lit) => Choice::Held(lit),
            None => Choice::Fails,
        },
    }
}
