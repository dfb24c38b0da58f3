//! What is looked up in a prefix and in lists of clauses.
ghost use Rattle.std.specs.Prelude.{◌≡◌, ◌≤◌, ℕ, nat_abs, true, Some, None, length, take, if◌then◌else◌, not, ◌&&◌, ◌+◌, ◌++◌, [], OnOk, OnErr, IfSome};
ghost use Rattle.std.specs.List.{AllByRecursion, list_all};
ghost use Rattle.clauses.specs.Codes.{IsInRange};
ghost use Rattle.frames.specs.Commands.{exceeds, is_known};
ghost use Rattle.truth.specs.Limits.{max_literals};
ghost use Rattle.frames.specs.Groups.{clauses_at, grouped_in, may_number};
ghost use Rattle.frames.specs.Kept.{AreCounted, last_in, rows_before, rows_with};
ghost use Rattle.frames.specs.Places.{AreInOrder, with_joined, without_last};
ghost use Rattle.frames.specs.State.{literals_in};
ghost use Rattle.clauses.specs.Clause.{is_tautology as is_taut, variables_of};

use crate::frames::Frames;
use crate::groups::Groups;
use crate::refusal::FrameRefusal;
use crate::total::Total;
use clauses::{is_tautology, variables};
use prefix::{LitList, Prefix, Var};
use std::alloc::AllocError;

// The variable of a signed number, where it is in the prefix.
pub(crate) fn known(prefix: &Prefix, n: i64) -> Option<Var>
    ensures value { result ≡ (if is_known prefix.now n then Some (nat_abs n) else None) }
    ensures variable { IfSome result (λ v. v ≡ nat_abs n) }
{
    let magnitude = magnitude_of(n);
    if magnitude > Var::MAX as u64 {
        let _ = prefix.scopes();
        return None;
    }
    let Some(v) = Var::new(magnitude as u32) else {
        let _ = prefix.scopes();
        return None;
    };
    let _ = prefix.level(v)?;
    Some(v)
}

// A number without its sign.
fn magnitude_of(n: i64) -> u64
    ensures { result ≡ nat_abs n }
{
    n.unsigned_abs()
}

// Whether the variables of all these numbers are in the prefix.
pub(crate) fn are_known(prefix: &Prefix, numbers: &[i64]) -> bool
    ensures value { result ≡ list_all (is_known prefix.now) numbers.now }
    ensures range { result ≡ true → AllByRecursion IsInRange numbers.now }
{
    let _ = prefix.scopes();
    for n in numbers {
        if known(prefix, *n).is_none() {
            return false;
        }
    }
    true
}

// Why a clause for which there is no memory is refused, beside so many others: what refuses it otherwise is tried
// first. It has at most as many variables as literals; so only where a row of all of them would go beyond a limit each
// pair is looked at.
pub(crate) fn refusal_without_row(total: &Total, lits: &[i64]) -> FrameRefusal
    requires few { total.now.literals ≤ max_literals }
    requires range { AllByRecursion IsInRange lits.now }
    ensures { result ≡ (if not (is_taut lits.now)
        && exceeds total.now.clauses total.now.literals (length (variables_of lits.now))
        then FrameRefusal.Limit else FrameRefusal.NoMemory) }
{
    if !total.is_beyond(lits.len()) {
        return FrameRefusal::NoMemory;
    }
    if is_tautology(lits) {
        return FrameRefusal::NoMemory;
    }
    if total.is_beyond(variables(lits)) {
        return FrameRefusal::Limit;
    }
    FrameRefusal::NoMemory
}

// Puts a row into the open group, or else behind the rows outside groups. Without memory nothing changes.
pub(crate) fn put_row(
    rows: &mut Vec<LitList>,
    groups: &mut Groups,
    row: LitList,
) -> Result<(), AllocError>
    ensures order { AreInOrder groups.old }
    ensures rows { OnOk result (rows.new.items ≡ rows_with groups.old.current row rows.old.items) }
    ensures groups { OnOk result (groups.new ≡ with_joined row groups.old) }
    ensures err { OnErr result (rows.new.items ≡ rows.old.items) }
    ensures same { OnErr result (groups.new ≡ groups.old) }
{
    if groups.is_open() {
        groups.put(row)
    } else {
        rows.push(row)?;
        Ok(())
    }
}

// The last row of the open group, or else of those outside groups.
pub(crate) fn newest<'a>(rows: &'a [LitList], groups: &'a Groups) -> Option<&'a LitList>
    ensures order { AreInOrder groups.now }
    ensures rows { IfSome result (λ row. rows.now ≡ rows_with groups.now.current row.now
        (rows_before groups.now.current rows.now)) }
    ensures groups { IfSome result (λ row. groups.now ≡ with_joined row.now (without_last groups.now)) }
    ensures none { result ≡ None → last_in groups.now.current rows.now groups.now.groups ≡ [] }
{
    if groups.is_open() {
        groups.newest()
    } else {
        rows.last()
    }
}

// Takes the last row of the open group out, or else that of the rows outside groups.
fn last_row(rows: &mut Vec<LitList>, groups: &mut Groups) -> Option<LitList>
    ensures order { AreInOrder groups.new }
    ensures rows { rows.new.items ≡ rows_before groups.old.current rows.old.items }
    ensures groups { groups.new ≡ without_last groups.old }
    ensures last_row { IfSome result (λ row. rows.old.items ≡ rows_with groups.new.current row rows.new.items) }
    ensures last { IfSome result (λ row. groups.old ≡ with_joined row groups.new) }
    ensures none { result ≡ None → groups.old.current ≡ None → rows.old.items ≡ [] }
    ensures empty { (n : ℕ) → groups.old.current ≡ Some n → result ≡ None → clauses_at groups.old.groups n ≡ [] }
{
    if groups.is_open() {
        groups.take_last()
    } else {
        rows.pop()
    }
}

// Takes the last row of the open group out, or else that of the rows outside groups, and counts it no longer.
pub(crate) fn take_row(rows: &mut Vec<LitList>, groups: &mut Groups, total: &mut Total)
    requires some { 1 ≤ length (last_in groups.old.current rows.old.items groups.old.groups) }
    requires counted { AreCounted total.old (rows.old.items ++ grouped_in groups.old.groups) }
    ensures rows { rows.new.items ≡ rows_before groups.old.current rows.old.items }
    ensures groups { groups.new ≡ without_last groups.old }
    ensures counted { AreCounted total.new (rows.new.items ++ grouped_in groups.new.groups) }
{
    let Some(row) = last_row(rows, groups) else {
        return;
    };
    total.take(row.lits().len());
}

// Drops the rows from a place on, and counts them and their literals no longer.
pub(crate) fn cut(rows: &mut Vec<LitList>, total: &mut Total, len: usize)
    requires clauses { length rows.old.items ≤ total.old.clauses }
    requires literals { literals_in rows.old.items ≤ total.old.literals }
    requires place { len ≤ length rows.old.items }
    ensures rows { rows.new.items ≡ take len rows.old.items }
    ensures clauses { total.new.clauses + length rows.old.items ≡ total.old.clauses + length rows.new.items }
    ensures literals { total.new.literals + literals_in rows.old.items
        ≡ total.old.literals + literals_in rows.new.items }
{
    while rows.len() > len {
        if let Some(row) = rows.pop() {
            total.take(row.lits().len());
        }
    }
}

// The number of a group, where it is in range.
pub(crate) fn group_number(group: u64) -> Option<u32>
    ensures { result ≡ (if may_number group then Some group else None) }
{
    if group == 0 || group > Frames::MAX_GROUP {
        return None;
    }
    Some(group as u32)
}
