//! What stands on the trail.
ghost use Rattle.std.specs.Prelude.{◌≡◌};
ghost use Rattle.trail.specs.Table.{AreFloored, floor_from};

use super::Why;
use prefix::Lit;

// A literal on the trail, with its cause, its decision level, the number less 1 of its variable's scope, the number
// of the scope of the last decision up to it, or 1, and whether its reason is marked as clean.
#[derive(Debug, Drop)]
pub(crate) struct Entry {
    pub lit: Lit,
    pub why: Why,
    pub level: usize,
    pub scope: usize,
    pub floor: usize,
    pub clean: bool,
}

// Where a variable stands: its value, and its place among the entries.
#[derive(Clone, Copy, Debug)]
pub(crate) struct Spot {
    pub value: bool,
    pub place: usize,
}

// The number of the scope of the last decision, or 1.
pub(crate) fn last_floor(entries: &[Entry]) -> usize
    requires { AreFloored 1 entries.now }
    ensures { result ≡ floor_from 1 entries.now }
{
    match entries.last() {
        None => 1,
        Some(entry) => entry.floor,
    }
}
