//! Dropping steps with all that rests on them.
ghost use Rattle.std.specs.Prelude.{◌≡◌, ◌<◌, ℕ, Some, IsTrue, false};
ghost use Rattle.rows.specs.Arena.{is_live as is_stored};
ghost use Rattle.derive.specs.State.{Note as Kept, note_in};
ghost use Rattle.derive.specs.Antecedents.{AreSupported, Fits};
ghost use Rattle.derive.specs.Dropping.{DropsFrom};
ghost use Rattle.derive.specs.Roots.{is_root};
ghost use Rattle.derive.specs.Missing.{falls_now};

use super::StepId;
use super::cubes::{misses, misses_one};
use super::live::{next_live, note_in};
use super::note::Note;
use super::outside::is_outside;
use super::packed::Slot;
use pages::Pages;
use prefix::{Lit, LitList, Prefix};
use rows::Rows;

// The steps that are dropped, with all that rests on them.
#[derive(Drop)]
pub(crate) enum Roots<'a> {
    // Those with this tag.
    Frame(usize),
    // The finishes.
    Finishes,
    // Those with this id or a later one.
    From(StepId),
    // Those that name a variable outside this prefix.
    Outside(&'a Prefix),
    // The initial cubes that miss this clause.
    Missing(&'a [Lit]),
    // The initial cubes that miss one of these clauses.
    MissingOne(&'a [LitList]),
}

impl Roots<'_> {
    pub(crate) fn contains(&self, id: StepId, note: &Note, rows: &Rows) -> bool
        requires { IsTrue (is_stored rows.now id) }
        ensures { result ≡ is_root self.now rows.now id note.now }
    {
        match self {
            Self::Frame(frame) => note.tag() == *frame,
            Self::Finishes => note.is_finish(),
            Self::From(first) => *first <= id,
            Self::Outside(prefix) => is_outside(rows.lits(id), prefix),
            Self::Missing(clause) => misses(note, rows, id, clause),
            Self::MissingOne(clauses) => misses_one(note, rows, id, clauses),
        }
    }
}

// Drops the roots with all that rests on them, and frees their rows, of which the others are moved together where many
// went. No root has an id below `from`.
pub(crate) fn drop_roots(notes: &mut Pages<Slot>, rows: &mut Rows, from: StepId, roots: &Roots)
    requires supported { AreSupported notes.old }
    requires fits { Fits notes.old rows.old }
    requires below { (id : ℕ) (note : Kept) → note_in notes.old id ≡ Some note → id < from →
        is_root roots.now rows.old id note ≡ false }
    ensures { DropsFrom (is_root roots.now rows.old) notes.old notes.new rows.old rows.new }
{
    let end = notes.len();
    let mut id = next_live(notes, from);
    while id < end {
        if falls(notes, rows, id, roots) {
            notes.clear(id);
            rows.free(id);
        }
        id = next_live(notes, id + 1);
    }
    rows.tidy();
}

// Whether a live step is a root, or rests on one that is gone.
fn falls(notes: &Pages<Slot>, rows: &Rows, id: StepId, roots: &Roots) -> bool
    requires { (note : Kept) → note_in notes.now id ≡ Some note → IsTrue (is_stored rows.now id) }
    ensures { result ≡ falls_now (is_root roots.now rows.now) notes.now id }
{
    match note_in(notes, id) {
        Some(note) => roots.contains(id, &note, rows) || note.misses_antecedent(notes),
        None => false,
    }
}
