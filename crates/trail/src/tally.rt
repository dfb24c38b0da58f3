//! How many entries are of each scope, by its number less 1.
ghost use Rattle.std.specs.Prelude.{◌≡◌, ◌+◌, ◌-◌, ◌^◌, ◌<◌, ◌≤◌, length, slice_index, slice_set, OnOk};
ghost use Rattle.trail.specs.Table.{AreCounted};

use super::entry::Entry;
use std::alloc::AllocError;

// Makes places up to this number of them, and counts the entries of their scopes.
pub(crate) fn widen(
    tallies: &mut Vec<u32>,
    entries: &[Entry],
    scopes: usize,
) -> Result<(), AllocError>
    requires counted { AreCounted entries.now tallies.old.items }
    requires few { length entries.now < 2 ^ 32 }
    ensures counted { AreCounted entries.now tallies.new.items }
    ensures long { OnOk result (scopes ≤ length tallies.new.items) }
    ensures grown { length tallies.old.items ≤ length tallies.new.items }
{
    let old = tallies.len();
    if old < scopes {
        tallies.resize(scopes, 0)?;
        for entry in entries {
            if entry.scope >= old {
                count_up(tallies, entry.scope);
            }
        }
    }
    Ok(())
}

// Counts one more of a scope that has a place in the table.
pub(crate) fn count_up(tallies: &mut Vec<u32>, scope: usize)
    requires { slice_index tallies.old.items scope + 1 < 2 ^ 32 }
    ensures { tallies.new.items ≡ slice_set tallies.old.items scope (slice_index tallies.old.items scope + 1) }
{
    if scope < tallies.len() {
        tallies[scope] += 1;
    }
}

// Counts one less of a scope that has a place in the table.
pub(crate) fn count_down(tallies: &mut Vec<u32>, scope: usize)
    requires { scope < length tallies.old.items → 1 ≤ slice_index tallies.old.items scope }
    ensures { tallies.new.items ≡ slice_set tallies.old.items scope (slice_index tallies.old.items scope - 1) }
{
    if scope < tallies.len() {
        tallies[scope] -= 1;
    }
}
