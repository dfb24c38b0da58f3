//! Notes and rows that come in together.
ghost use Rattle.std.specs.Prelude.{◌≡◌, ◌+◌, [], ◌∷◌, ◌++◌, Some, take, length, IfOk, OnOk, OnErr};
ghost use Rattle.rows.specs.Arena.{next_id as next_row, with_row};

use super::StepId;
use super::note::Note;
use super::packed::Slot;
use memory::NoMemory;
use pages::Pages;
use prefix::Lit;
use rows::Rows;

// Puts in a note with its row. With no memory nothing changes.
#[inline(always)]
pub(crate) fn enter(
    notes: &mut Pages<Slot>,
    rows: &mut Rows,
    note: Note,
    lits: &[Lit],
) -> Result<StepId, NoMemory>
    ensures notes { OnOk result (notes.new ≡ notes.old ++ Some note ∷ []) }
    ensures rows { OnOk result (rows.new ≡ with_row rows.old lits.now) }
    ensures id { IfOk result (λ id. id ≡ next_row rows.old) }
    ensures no_note { OnErr result (notes.new ≡ notes.old) }
    ensures no_row { OnErr result (rows.new ≡ rows.old) }
{
    let count = notes.len();
    notes.push(note.packed())?;
    match rows.add(lits) {
        Ok(id) => Ok(id),
        Err(error) => {
            notes.truncate(count);
            Err(error)
        }
    }
}

// Puts in two notes with their rows. With no memory nothing changes.
pub(crate) fn enter_both(
    notes: &mut Pages<Slot>,
    rows: &mut Rows,
    both: (Note, Note),
    first: &[Lit],
    second: &[Lit],
) -> Result<(StepId, StepId), NoMemory>
    ensures notes { OnOk result (notes.new ≡ (notes.old ++ Some both.0 ∷ []) ++ Some both.1 ∷ []) }
    ensures rows { OnOk result (rows.new ≡ with_row (with_row rows.old first.now) second.now) }
    ensures ids { IfOk result (λ ids. (ids.0 ≡ next_row rows.old) × (ids.1 ≡ next_row rows.old + 1)) }
    ensures no_note { OnErr result (notes.new ≡ notes.old) }
    ensures no_row { OnErr result (rows.new ≡ rows.old) }
{
    let count = notes.len();
    match put_both(notes, rows, both, first, second) {
        Ok(ids) => Ok(ids),
        Err(error) => {
            notes.truncate(count);
            Err(error)
        }
    }
}

// Puts both notes and both rows behind those that are there. With no memory some of the notes may be there.
fn put_both(
    notes: &mut Pages<Slot>,
    rows: &mut Rows,
    both: (Note, Note),
    first: &[Lit],
    second: &[Lit],
) -> Result<(StepId, StepId), NoMemory>
    ensures notes { OnOk result (notes.new ≡ (notes.old ++ Some both.0 ∷ []) ++ Some both.1 ∷ []) }
    ensures rows { OnOk result (rows.new ≡ with_row (with_row rows.old first.now) second.now) }
    ensures ids { IfOk result (λ ids. (ids.0 ≡ next_row rows.old) × (ids.1 ≡ next_row rows.old + 1)) }
    ensures front { take (length notes.old) notes.new ≡ notes.old }
    ensures no_row { OnErr result (rows.new ≡ rows.old) }
{
    notes.push(both.0.packed())?;
    notes.push(both.1.packed())?;
    rows.add_pair(first, second)
}
