//! Initial cubes, and which of them miss a clause. The ids of initial cubes are listed, so that a clause is compared
//! with these alone; a run of clauses before a solve costs its length. A cube that misses a clause is off the list for
//! good.
ghost use Rattle.std.specs.Prelude.{◌≡◌, ◌<◌, ℕ, Some, true, false, IsTrue, OnOk, Contains, filter};
ghost use Rattle.calculus.specs.Rows.{same_literal};
ghost use Rattle.rows.specs.Arena.{is_live as is_stored};
ghost use Rattle.derive.specs.State.{Note as Kept, note_in};
ghost use Rattle.derive.specs.Antecedents.{AreSupported, Fits};
ghost use Rattle.derive.specs.Dropping.{DropsFrom, holds_in, is_cube};
ghost use Rattle.derive.specs.Cubes.{AreCubes, AreListed, hits_clause, is_cube_in, misses, misses_one, misses_some, stands_in};
ghost use Rattle.derive.specs.Roots.{is_root};

use super::StepId;
use super::dropping::{Roots, drop_roots};
use super::live::note_in;
use super::note::Note;
use super::packed::Slot;
use memory::NoMemory;
use pages::Pages;
use prefix::{Lit, LitList};
use rows::Rows;

// Lists the id that comes next, where its step is to be an initial cube.
#[inline(always)]
pub(crate) fn list_cube(cubes: &mut Vec<StepId>, note: &Note, next: StepId) -> Result<(), NoMemory>
    ensures kept { (id : ℕ) → Contains cubes.old.items id → Contains cubes.new.items id }
    ensures listed { OnOk result (is_cube note.now.side note.now.why ≡ true → Contains cubes.new.items next) }
{
    if note.is_initial_cube() {
        cubes.push(next)?;
    }
    Ok(())
}

// Drops some initial cubes, with all that rests on them, and frees their rows. Each initial cube is listed; those that
// are left are listed then. Only where one of them goes are other steps looked at, and these from the first such cube
// on.
pub(crate) fn drop_cubes(
    notes: &mut Pages<Slot>,
    rows: &mut Rows,
    cubes: &mut Vec<StepId>,
    roots: &Roots,
)
    requires supported { AreSupported notes.old }
    requires fits { Fits notes.old rows.old }
    requires listed { AreListed notes.old cubes.old.items }
    requires cubes { AreCubes (is_root roots.now rows.old) }
    ensures drops { DropsFrom (is_root roots.now rows.old) notes.old notes.new rows.old rows.new }
    ensures listed { AreListed notes.new cubes.new.items }
{
    let from = first_cube(cubes.as_slice(), notes, rows, roots);
    drop_roots(notes, rows, from, roots);
    retain_cubes(cubes, notes);
}

// The least id of some initial cubes, and else the id that comes next.
pub(crate) fn first_cube(
    cubes: &[StepId],
    notes: &Pages<Slot>,
    rows: &Rows,
    roots: &Roots,
) -> StepId
    requires fits { Fits notes.now rows.now }
    requires listed { AreListed notes.now cubes.now }
    requires cubes { AreCubes (is_root roots.now rows.now) }
    ensures { (id : ℕ) (note : Kept) → note_in notes.now id ≡ Some note → id < result →
        is_root roots.now rows.now id note ≡ false }
{
    let mut first = notes.len();
    for id in cubes {
        if *id < first && is_root(notes, rows, *id, roots) {
            first = *id;
        }
    }
    first
}

// Whether a live step is a root.
fn is_root(notes: &Pages<Slot>, rows: &Rows, id: StepId, roots: &Roots) -> bool
    requires { (note : Kept) → note_in notes.now id ≡ Some note → IsTrue (is_stored rows.now id) }
    ensures { result ≡ holds_in (is_root roots.now rows.now) id (note_in notes.now id) }
{
    match note_in(notes, id) {
        Some(note) => roots.contains(id, &note, rows),
        None => false,
    }
}

// Whether a live step is an initial cube that misses a clause.
pub(crate) fn misses(note: &Note, rows: &Rows, id: StepId, clause: &[Lit]) -> bool
    requires { IsTrue (is_stored rows.now id) }
    ensures { result ≡ misses clause.now rows.now id note.now }
{
    note.is_initial_cube() && !hits_clause(rows.lits(id), clause)
}

// Whether a live step is an initial cube that misses one of the clauses.
pub(crate) fn misses_one(note: &Note, rows: &Rows, id: StepId, clauses: &[LitList]) -> bool
    requires { IsTrue (is_stored rows.now id) }
    ensures { result ≡ misses_one clauses.now rows.now id note.now }
{
    note.is_initial_cube() && misses_some(rows.lits(id), clauses)
}

// Whether a row holds no literal of one of the clauses.
fn misses_some(row: &[Lit], clauses: &[LitList]) -> bool
    ensures { result ≡ misses_some row.now clauses.now }
{
    clauses
        .iter()
        .any(|clause| !hits_clause(row, clause.lits()))
}

// Whether a row holds a literal of a clause.
fn hits_clause(row: &[Lit], clause: &[Lit]) -> bool
    ensures { result ≡ hits_clause row.now clause.now }
{
    clause.iter().any(|lit| stands_in(row, *lit))
}

// Whether a literal stands in a row.
fn stands_in(row: &[Lit], lit: Lit) -> bool
    ensures { result ≡ stands_in row.now lit }
{
    row.iter().any(|other| is_same(lit, *other))
}

// Whether two literals are the same.
fn is_same(a: Lit, b: Lit) -> bool
    ensures { result ≡ same_literal a b }
{
    a.var().number() == b.var().number() && a.is_positive() == b.is_positive()
}

// Takes the ids out of a list under which no initial cube is live any more.
pub(crate) fn retain_cubes(cubes: &mut Vec<StepId>, notes: &Pages<Slot>)
    ensures { cubes.new.items ≡ filter (λ id. is_cube_in (note_in notes.now id)) cubes.old.items }
{
    cubes.retain(|id| is_cube(notes, *id));
}

// Whether there is an initial cube under an id.
fn is_cube(notes: &Pages<Slot>, id: StepId) -> bool
    ensures { result ≡ is_cube_in (note_in notes.now id) }
{
    match note_in(notes, id) {
        Some(note) => note.is_initial_cube(),
        None => false,
    }
}
