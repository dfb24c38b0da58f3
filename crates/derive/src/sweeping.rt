//! Keeping some steps with all that they rest on, and dropping the others.
ghost use Rattle.std.specs.Prelude.{◌≡◌, ◌<◌, ◌≤◌, ◌+◌, ◌||◌, ◌&&◌, ℕ, Bool, List, Some, false, IsTrue, is_some, length, OnOk, Contains};
ghost use Rattle.calculus.specs.Derivations.{rests_on};
ghost use Rattle.derive.specs.State.{note_in};
ghost use Rattle.derive.specs.Antecedents.{AreSupported, Fits};
ghost use Rattle.derive.specs.Dropping.{DropsFrom};
ghost use Rattle.derive.specs.Sweeping.{AreClosed, AreMarked, MarksNamed, goes, is_marked, is_unmarked, rests_in};

use super::StepId;
use super::live::{next_live, note_in};
use super::note::Note;
use super::packed::Slot;
use memory::NoMemory;
use pages::{Bits, Pages};
use rows::Rows;

// Makes places for the marks of so many ids behind those given.
#[inline(always)]
pub(crate) fn widen_marks(marks: &mut Bits, given: usize, more: usize) -> Result<(), NoMemory>
    ensures ok { OnOk result (given + more ≤ length marks.new) }
    ensures grown { length marks.old ≤ length marks.new }
{
    let count = given.checked_add(more).ok_or(NoMemory)?;
    marks.grow(count)?;
    Ok(())
}

// Keeps the input clauses, the steps with these ids and all that they rest on, and drops the other steps with their
// rows, which are moved together.
pub(crate) fn sweep_all(notes: &mut Pages<Slot>, rows: &mut Rows, marks: &mut Bits, keep: &[StepId])
    requires supported { AreSupported notes.old }
    requires fits { Fits notes.old rows.old }
    requires room { length notes.old ≤ length marks.old }
    requires live { (id : ℕ) → Contains keep.now id → IsTrue (is_some (note_in notes.old id)) }
    ensures drops { (ms : List Bool) × AreMarked keep.now notes.old ms 0
        × DropsFrom (is_unmarked ms) notes.old notes.new rows.old rows.new }
    ensures count { length marks.new ≡ length marks.old }
{
    mark(marks, notes, keep);
    drop_unmarked(notes, rows, marks);
    rows.compact();
}

// Marks the steps with these ids and all that they rest on, and no others.
fn mark(marks: &mut Bits, notes: &Pages<Slot>, keep: &[StepId])
    requires supported { AreSupported notes.now }
    requires room { length notes.now ≤ length marks.old }
    requires live { (id : ℕ) → Contains keep.now id → IsTrue (is_some (note_in notes.now id)) }
    ensures marked { AreMarked keep.now notes.now marks.new 0 }
    ensures count { length marks.new ≡ length marks.old }
{
    marks.clear();
    mark_named(marks, keep);
    mark_down(marks, notes);
}

// Marks these ids.
fn mark_named(marks: &mut Bits, keep: &[StepId])
    requires { (id : ℕ) → Contains keep.now id → id < length marks.old }
    ensures named { MarksNamed keep.now marks.old marks.new }
    ensures count { length marks.new ≡ length marks.old }
{
    for id in keep {
        marks.set(*id);
    }
}

// Marks what marked steps rest on, from the last live step down.
fn mark_down(marks: &mut Bits, notes: &Pages<Slot>)
    requires supported { AreSupported notes.now }
    requires room { length notes.now ≤ length marks.old }
    ensures marked { (keep : List ℕ) → AreMarked keep notes.now marks.old (length notes.now) →
        AreMarked keep notes.now marks.new 0 }
    ensures count { length marks.new ≡ length marks.old }
{
    let mut above = notes.len();
    while let Some(id) = notes.last_filled(above) {
        mark_under(marks, notes, id);
        above = id;
    }
}

// Marks what a step rests on, if it is marked and live.
fn mark_under(marks: &mut Bits, notes: &Pages<Slot>, id: StepId)
    requires supported { AreSupported notes.now }
    requires given { id < length notes.now }
    requires room { length notes.now ≤ length marks.old }
    ensures value { (x : ℕ) → is_marked marks.new x ≡ (is_marked marks.old x
        || (is_marked marks.old id && rests_in (note_in notes.now id) x)) }
    ensures count { length marks.new ≡ length marks.old }
{
    if !marks.get(id) {
        return;
    }
    match note_in(notes, id) {
        Some(note) => mark_for(marks, notes, id, &note),
        None => (),
    }
}

// Marks what a live step rests on.
fn mark_for(marks: &mut Bits, notes: &Pages<Slot>, id: StepId, note: &Note)
    requires there { note_in notes.now id ≡ Some note.now }
    requires supported { AreSupported notes.now }
    requires given { id < length notes.now }
    requires room { length notes.now ≤ length marks.old }
    ensures value { (x : ℕ) → is_marked marks.new x ≡ (is_marked marks.old x
        || rests_on note.now.why x) }
    ensures count { length marks.new ≡ length marks.old }
{
    note.mark_antecedents(marks);
}

// Drops the steps that aren't marked, but for input clauses, and frees their rows. What a marked step rests on is
// marked.
fn drop_unmarked(notes: &mut Pages<Slot>, rows: &mut Rows, marks: &Bits)
    requires supported { AreSupported notes.old }
    requires fits { Fits notes.old rows.old }
    requires closed { AreClosed notes.old marks.now 0 }
    requires room { length notes.old ≤ length marks.now }
    ensures { DropsFrom (is_unmarked marks.now) notes.old notes.new rows.old rows.new }
{
    let end = notes.len();
    let mut id = next_live(notes, 0);
    while id < end {
        if is_unneeded(notes, marks, id) {
            notes.clear(id);
            rows.free(id);
        }
        id = next_live(notes, id + 1);
    }
}

// Whether a live step is no input clause and isn't marked.
fn is_unneeded(notes: &Pages<Slot>, marks: &Bits, id: StepId) -> bool
    requires given { id < length notes.now }
    requires room { length notes.now ≤ length marks.now }
    ensures { result ≡ goes marks.now id (note_in notes.now id) }
{
    match note_in(notes, id) {
        Some(note) => !note.is_input_clause() && !marks.get(id),
        None => false,
    }
}
