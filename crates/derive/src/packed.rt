//! Notes as they are kept, in 16 bytes each.
ghost use Rattle.std.specs.Prelude.{◌≡◌, ◌+◌, ◌*◌, ◌/◌, ◌%◌, ◌<◌, ◌≤◌, None, Some, is_some};
ghost use Rattle.derive.specs.declared.note.Kind.TheVariants.{Resolved};
ghost use Rattle.derive.specs.Packed.{first_part, joined, kind_numbered, kind_part, pivot_part, second_part, side_numbered, side_part, why_kept};

use super::note::{Kind, Note};
use pages::Blank;
use prefix::Quant;
use std::marker::Model;

// What stands in place of what is short where no step is live.
const NOT_LIVE: u32 = u32::MAX;

// What is kept of a step, or that no step is live.
#[derive(Debug, Drop)]
pub(crate) struct Slot {
    // The last 32 bits of the ids that it rests on; 0 where there is none.
    first: u32,
    second: u32,
    tag: u32,
    // From the last bits on: 4 bits before those of the second id, 4 before those of the first, 1 for the side, 2 for
    // the kind, and 21 for the number of the variable of a resolution, else 0.
    short: u32,
}

impl Model for Slot {
    ghost use Rattle.std.specs.Prelude.{Option};
    ghost use Rattle.derive.specs.State.{Note as Kept};

    ghost Value = { Option Kept };

    ghost use Rattle.derive.specs.Packed.{IsShort, slot_of};

    ghost view = { λ s. slot_of s.first s.second s.tag s.short };

    ghost invariant = { λ s. IsShort s.short };
}

impl Blank for Slot {
    ghost blank = { None };

    fn blank() -> Self {
        Self {
            first: 0,
            second: 0,
            tag: 0,
            short: NOT_LIVE,
        }
    }

    #[inline]
    fn is_blank(&self) -> bool {
        self.short == NOT_LIVE
    }
}

impl Slot {
    // What is kept of a step of a kind, which rests on these ids, each in two parts.
    #[inline]
    pub(crate) fn new(
        kind: Kind,
        side: Quant,
        first: (u32, u8),
        second: (u32, u8),
        pivot: u32,
        tag: u32,
    ) -> Self
        requires positive { kind ≡ Resolved → 1 ≤ pivot }
        requires bound { pivot ≤ 1048576 }
        requires first { first.1 < 16 }
        requires second { second.1 < 16 }
        ensures { result ≡ Some (record {
          side = side;
          why = why_kept kind (joined first.0 first.1) (joined second.0 second.1) pivot;
          tag = tag;
        }) }
    {
        Self {
            first: first.0,
            second: second.0,
            tag,
            short: shorts(kind, side, first.1, second.1, pivot),
        }
    }

    // Whether a step is live.
    #[inline]
    pub(crate) fn is_live(&self) -> bool
        ensures { result ≡ is_some self.now }
    {
        self.short != NOT_LIVE
    }

    // What is kept of the step, if it is live.
    #[inline]
    pub(crate) fn note(&self) -> Option<Note>
        ensures { result ≡ self.now }
    {
        let short = self.short;
        if short == NOT_LIVE {
            return None;
        }
        Some(Note::over(
            kind_of(short / 512 % 4),
            side_of(short / 256 % 2),
            (self.first, (short / 16 % 16) as u8),
            (self.second, (short % 16) as u8),
            short / 2048,
            self.tag,
        ))
    }
}

// The number that holds what is short.
#[inline]
fn shorts(kind: Kind, side: Quant, first: u8, second: u8, pivot: u32) -> u32
    requires bound { pivot ≤ 1048576 }
    requires first { first < 16 }
    requires second { second < 16 }
    ensures pivot { pivot_part result ≡ pivot }
    ensures kind { kind_part result ≡ kind }
    ensures side { side_part result ≡ side }
    ensures first { first_part result ≡ first }
    ensures second { second_part result ≡ second }
    ensures live { result < 4294967295 }
{
    pack(
        pivot,
        number_of_kind(kind),
        number_of_side(side),
        first as u32,
        second as u32,
    )
}

// The number that holds these.
#[inline]
fn pack(pivot: u32, kind: u32, side: u32, first: u32, second: u32) -> u32
    requires pivot { pivot ≤ 1048576 }
    requires kind { kind < 4 }
    requires side { side < 2 }
    requires first { first < 16 }
    requires second { second < 16 }
    ensures pivot { result / 2048 ≡ pivot }
    ensures kind { result / 512 % 4 ≡ kind }
    ensures side { result / 256 % 2 ≡ side }
    ensures first { result / 16 % 16 ≡ first }
    ensures second { result % 16 ≡ second }
    ensures live { result < 4294967295 }
{
    pivot * 2048 + kind * 512 + side * 256 + first * 16 + second
}

// The number that stands for a kind.
#[inline]
fn number_of_kind(kind: Kind) -> u32
    ensures kind { kind_numbered result ≡ kind }
    ensures bound { result < 4 }
{
    match kind {
        Kind::Given => 0,
        Kind::Reduced => 1,
        Kind::Finished => 2,
        Kind::Resolved => 3,
    }
}

// The kind that a number stands for.
#[inline]
fn kind_of(number: u32) -> Kind
    ensures { result ≡ kind_numbered number }
{
    if number == 0 {
        Kind::Given
    } else if number == 1 {
        Kind::Reduced
    } else if number == 2 {
        Kind::Finished
    } else {
        Kind::Resolved
    }
}

// The number that stands for a side.
#[inline]
fn number_of_side(side: Quant) -> u32
    ensures side { side_numbered result ≡ side }
    ensures bound { result < 2 }
{
    match side {
        Quant::Exists => 0,
        Quant::Forall => 1,
    }
}

// The side that a number stands for.
#[inline]
fn side_of(number: u32) -> Quant
    ensures { result ≡ side_numbered number }
{
    if number == 0 {
        Quant::Exists
    } else {
        Quant::Forall
    }
}
