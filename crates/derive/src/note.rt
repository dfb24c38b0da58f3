//! What is kept of a step beside its row.
ghost use Rattle.std.specs.Prelude.{◌≡◌, ◌<◌, ◌≤◌, ◌==◌, ◌||◌, ℕ, Some, false, is_none, length, slice_index_or};
ghost use Rattle.calculus.specs.Derivations.{RestsOn, rests_on};
ghost use Rattle.derive.specs.State.{is_finish as finish, note_in};
ghost use Rattle.derive.specs.Dropping.{is_cube};
ghost use Rattle.derive.specs.Told.{told};
ghost use Rattle.derive.specs.Packed.{joined, why_kept};
ghost use Rattle.derive.specs.declared.note.Kind.TheVariants.{Resolved};
ghost use Rattle.derive.specs.Missing.{misses_antecedent};
ghost use Rattle.derive.specs.Sweeping.{is_input_clause};

use super::live::is_live;
use super::packed::Slot;
use super::{Step, StepId};
use pages::{Bits, Pages};
use prefix::{Quant, Var};
use std::marker::Model;

// How many ids there are with the same bits before the last 32.
pub(crate) const HALF: usize = 4_294_967_296;

// How a step follows from others.
#[derive(Clone, Copy, Debug, PartialEq, Eq)]
pub(crate) enum Kind {
    Given,
    Reduced,
    Finished,
    Resolved,
}

// The side of a step, what it is, and the greatest frame in its support.
#[derive(Debug, Drop)]
pub(crate) struct Note {
    // The last 32 bits of the ids that it rests on; 0 where there is none.
    first: u32,
    second: u32,
    // The number of the variable of a resolution, else 0.
    pivot: u32,
    tag: u32,
    // The 4 bits before the last 32 of these ids.
    first_high: u8,
    second_high: u8,
    kind: Kind,
    side: Quant,
}

impl Model for Note {
    ghost use Rattle.std.specs.Prelude.{◌<◌};
    ghost use Rattle.derive.specs.State.{Note as Kept};

    ghost Value = { Kept };

    ghost use Rattle.derive.specs.Packed.{NamesPivot, joined, why_kept};

    ghost view = { λ n. record {
      side = n.side;
      why = why_kept n.kind (joined n.first n.first_high) (joined n.second n.second_high) n.pivot;
      tag = n.tag;
    } };

    ghost invariant = { λ n. NamesPivot n.kind n.pivot × (n.first_high < 16) × (n.second_high < 16) };
}

impl Note {
    // A note of a step of a kind, which rests on these ids, each in two parts.
    #[inline]
    pub(crate) fn over(
        kind: Kind,
        side: Quant,
        first: (u32, u8),
        second: (u32, u8),
        pivot: u32,
        tag: u32,
    ) -> Self
        requires positive { kind ≡ Resolved → 1 ≤ pivot }
        requires bound { pivot ≤ 1048576 }
        requires first { first.1 < 16 }
        requires second { second.1 < 16 }
        ensures { result ≡ record {
          side = side;
          why = why_kept kind (joined first.0 first.1) (joined second.0 second.1) pivot;
          tag = tag;
        } }
    {
        Self {
            first: first.0,
            second: second.0,
            pivot,
            tag,
            first_high: first.1,
            second_high: second.1,
            kind,
            side,
        }
    }

    // The note as it is kept, in one slot.
    #[inline]
    pub(crate) fn packed(&self) -> Slot
        ensures { result ≡ Some self.now }
    {
        Slot::new(
            self.kind,
            self.side,
            (self.first, self.first_high),
            (self.second, self.second_high),
            self.pivot,
            self.tag,
        )
    }

    pub(crate) fn side(&self) -> Quant
        ensures { result ≡ self.now.side }
    {
        self.side
    }

    pub(crate) fn step(&self) -> Step
        ensures { result ≡ told self.now.side self.now.why }
    {
        match (self.kind, self.side) {
            (Kind::Given, Quant::Exists) => Step::InputClause,
            (Kind::Given, Quant::Forall) => Step::InputCube,
            (Kind::Reduced, _) => Step::Reduced(join(self.first, self.first_high)),
            (Kind::Finished, _) => Step::Finished(join(self.first, self.first_high)),
            (Kind::Resolved, _) => Step::Resolved {
                a: join(self.first, self.first_high),
                b: join(self.second, self.second_high),
                pivot: Var::new(self.pivot).unwrap(),
            },
        }
    }

    pub(crate) fn tag(&self) -> usize
        ensures { result ≡ self.now.tag }
    {
        self.tag as usize
    }

    pub(crate) fn is_initial_cube(&self) -> bool
        ensures { result ≡ is_cube self.now.side self.now.why }
    {
        matches!(self.step(), Step::InputCube)
    }

    pub(crate) fn is_input_clause(&self) -> bool
        ensures { result ≡ is_input_clause self.now.side self.now.why }
    {
        matches!(self.step(), Step::InputClause)
    }

    pub(crate) fn is_finish(&self) -> bool
        ensures { result ≡ finish self.now.why }
    {
        matches!(self.kind, Kind::Finished)
    }

    // Marks the ids that it rests on.
    pub(crate) fn mark_antecedents(&self, marks: &mut Bits)
        requires { (on : ℕ) → RestsOn self.now.why on → on < length marks.old }
        ensures value { (x : ℕ) → slice_index_or marks.new x false ≡ (slice_index_or marks.old x false
            || rests_on self.now.why x) }
        ensures count { length marks.new ≡ length marks.old }
    {
        match self.step() {
            Step::InputClause | Step::InputCube => (),
            Step::Reduced(a) | Step::Finished(a) => set_mark(marks, a),
            Step::Resolved { a, b, .. } => {
                set_mark(marks, a);
                set_mark(marks, b);
            }
        }
    }

    // Whether no step is live any more under an id that it rests on.
    pub(crate) fn misses_antecedent(&self, notes: &Pages<Slot>) -> bool
        ensures { result ≡ misses_antecedent notes.now self.now.why }
    {
        match self.step() {
            Step::InputClause | Step::InputCube => false,
            Step::Reduced(a) | Step::Finished(a) => is_gone(notes, a),
            Step::Resolved { a, b, .. } => is_gone(notes, a) || is_gone(notes, b),
        }
    }
}

// An id, of its last 32 bits and those before them.
fn join(low: u32, high: u8) -> StepId
    ensures { result ≡ joined low high }
{
    high as usize * HALF + low as usize
}

// Marks an id.
fn set_mark(marks: &mut Bits, id: StepId)
    requires { id < length marks.old }
    ensures value { (x : ℕ) →
        slice_index_or marks.new x false ≡ (slice_index_or marks.old x false || id == x) }
    ensures count { length marks.new ≡ length marks.old }
{
    marks.set(id);
}

// Whether no step is live under an id.
fn is_gone(notes: &Pages<Slot>, id: StepId) -> bool
    ensures { result ≡ is_none (note_in notes.now id) }
{
    !is_live(notes, id)
}
