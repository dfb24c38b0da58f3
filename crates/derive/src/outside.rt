//! Steps that name variables outside a prefix.
ghost use Rattle.std.specs.Prelude.{◌≡◌, ◌<◌, ◌≤◌, ℕ, Some, IsTrue, false};
ghost use Rattle.rows.specs.Arena.{is_live as is_stored};
ghost use Rattle.derive.specs.State.{Note as Kept, note_in};
ghost use Rattle.derive.specs.Antecedents.{Fits};
ghost use Rattle.derive.specs.Dropping.{is_outside, mentions, names};

use super::StepId;
use super::live::{next_live, note_in};
use super::packed::Slot;
use pages::Pages;
use prefix::{Lit, Prefix, Quant};
use rows::Rows;

// Whether a row is over a variable that isn't in a prefix.
pub(crate) fn is_outside(lits: &[Lit], prefix: &Prefix) -> bool
    ensures { result ≡ mentions (is_outside prefix.now) lits.now }
{
    lits.iter().any(|lit| prefix.level(lit.var()).is_none())
}

// The least id from `from` on of a step of a side that names a variable outside a prefix, and else the id that comes
// next.
pub(crate) fn first_outside(
    notes: &Pages<Slot>,
    rows: &Rows,
    side: Quant,
    from: StepId,
    prefix: &Prefix,
) -> StepId
    requires fits { Fits notes.now rows.now }
    ensures { (id : ℕ) (note : Kept) → note_in notes.now id ≡ Some note → from ≤ id → id < result →
        note.side ≡ side → names (is_outside prefix.now) rows.now id note ≡ false }
{
    let end = notes.len();
    let mut id = next_live(notes, from);
    while id < end {
        if is_root(notes, rows, id, side, prefix) {
            return id;
        }
        id = next_live(notes, id + 1);
    }
    from.max(end)
}

// Whether a step of a side is live under an id, and names a variable outside a prefix.
fn is_root(notes: &Pages<Slot>, rows: &Rows, id: StepId, side: Quant, prefix: &Prefix) -> bool
    requires { (note : Kept) → note_in notes.now id ≡ Some note → IsTrue (is_stored rows.now id) }
    ensures { (note : Kept) → note_in notes.now id ≡ Some note → note.side ≡ side →
        result ≡ names (is_outside prefix.now) rows.now id note }
{
    match note_in(notes, id) {
        Some(note) => note.side() == side && is_outside(rows.lits(id), prefix),
        None => false,
    }
}
