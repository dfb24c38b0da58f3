//! The live steps, and the order of their ids.
ghost use Rattle.std.specs.Prelude.{◌≡◌, ◌<◌, ◌≤◌, ℕ, None, is_some, length};
ghost use Rattle.derive.specs.State.{note_in};

use super::StepId;
use super::note::Note;
use super::packed::Slot;
use pages::Pages;

// What is kept of the step under an id, if it is live.
#[inline]
pub(crate) fn note_in(notes: &Pages<Slot>, id: StepId) -> Option<Note>
    ensures { result ≡ note_in notes.now id }
{
    match notes.get(id) {
        Some(slot) => slot.note(),
        None => None,
    }
}

// Whether a step is live under an id.
#[inline]
pub(crate) fn is_live(notes: &Pages<Slot>, id: StepId) -> bool
    ensures { result ≡ is_some (note_in notes.now id) }
{
    match notes.get(id) {
        Some(slot) => slot.is_live(),
        None => false,
    }
}

// The first id from one on under which a step is live, and else the id that comes next.
pub(crate) fn next_live(notes: &Pages<Slot>, from: StepId) -> StepId
    ensures within { result ≤ length notes.now }
    ensures above { from ≤ length notes.now → from ≤ result }
    ensures none { (id : ℕ) → from ≤ id → id < result → note_in notes.now id ≡ None }
{
    notes.next_filled(from).unwrap_or(notes.len())
}
