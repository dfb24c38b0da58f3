//! The literals of a row that cleaning and analysis look for.
ghost use Rattle.std.specs.Prelude.{◌≡◌, ◌≤◌, take, length};
ghost use Rattle.calculus.specs.Search.{place_on, value_on};
ghost use Rattle.clean.specs.Blockers.{is_free as free, is_deeper as deeper, is_smaller as smaller, IsOutermost, IsLatest, IsLatestBlocker};

use prefix::{Lit, Prefix, Side, Var};
use trail::Trail;

// The place of a variable among the first `end` literals of a trail; `end` where it isn't one of them.
fn place_before(trail: &Trail, v: Var, end: usize) -> usize
    requires { end ≤ length trail.now.placed }
    ensures { result ≡ place_on (take end trail.now.placed) v }
{
    match trail.place(v) {
        Some(place) => place.min(end),
        None => end,
    }
}

// Whether a literal isn't pivot-type and isn't assigned among the first `end` literals of a trail.
fn is_free<S: Side>(trail: &Trail, prefix: &Prefix, lit: Lit, end: usize) -> bool
    requires { end ≤ length trail.now.placed }
    ensures { result ≡ free S.PIVOT prefix.now (value_on (take end trail.now.placed)) lit }
{
    place_before(trail, lit.var(), end) == end && !prefix.is_pivot::<S>(lit)
}

// Whether a literal is pivot-type and of a greater depth than that.
fn is_deeper<S: Side>(prefix: &Prefix, depth_of_other: usize, lit: Lit) -> bool
    ensures { result ≡ deeper S.PIVOT prefix.now depth_of_other lit }
{
    if !prefix.is_pivot::<S>(lit) {
        return false;
    }
    // Each depth is at least 1.
    depth_of_other == 0 || depth_of_other < prefix.depth(lit.var())
}

// Whether a number is smaller than that one, if there is one.
fn is_smaller(number: usize, least: Option<usize>) -> bool
    ensures { result ≡ smaller number least }
{
    match least {
        Some(least) => number < least,
        None => true,
    }
}

// The depth of the outermost literals of a row that aren't pivot-type and aren't among the first `end` of a trail.
fn outermost_free<S: Side>(trail: &Trail, prefix: &Prefix, row: &[Lit], end: usize) -> Option<usize>
    requires { end ≤ length trail.now.placed }
    ensures { IsOutermost S.PIVOT prefix.now (value_on (take end trail.now.placed)) row.now result }
{
    let mut outermost = None;
    for lit in row {
        if !is_free::<S>(trail, prefix, *lit, end) {
            continue;
        }
        let depth = prefix.depth(lit.var());
        if !is_smaller(depth, outermost) {
            continue;
        }
        outermost = Some(depth);
    }
    outermost
}

/// The pivot-type literal of a row, of those of a greater depth than that, which stands last on the trail, of which the
/// first `end` literals are looked at; a literal that isn't one of them counts as the last. This looks at the row
/// once.
pub fn latest_pivot<S: Side>(
    trail: &Trail,
    prefix: &Prefix,
    row: &[Lit],
    end: usize,
    depth: usize,
) -> Option<Lit>
    requires { end ≤ length trail.now.placed }
    ensures { IsLatest S.PIVOT prefix.now (take end trail.now.placed) depth row.now result }
{
    let mut latest = None;
    // Its place, once there is one.
    let mut last = 0;
    for lit in row {
        if !is_deeper::<S>(prefix, depth, *lit) {
            continue;
        }
        let place = place_before(trail, lit.var(), end);
        if place < last {
            continue;
        }
        latest = Some(*lit);
        last = place;
    }
    latest
}

// The literal of a row that stands last on the trail, of which the first `end` literals are looked at, of those that
// keep an open one from reduction. This looks at the row twice.
pub(crate) fn latest_blocker<S: Side>(
    trail: &Trail,
    prefix: &Prefix,
    row: &[Lit],
    end: usize,
) -> Option<Lit>
    requires { end ≤ length trail.now.placed }
    ensures { IsLatestBlocker S.PIVOT prefix.now (take end trail.now.placed) row.now result }
{
    let depth = outermost_free::<S>(trail, prefix, row, end)?;
    latest_pivot::<S>(trail, prefix, row, end, depth)
}
