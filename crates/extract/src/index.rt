//! The removals of each variable's literals. One pass over the core lists the removals of all variables; rows are told
//! apart by stamps.
ghost use Rattle.std.specs.Prelude.{◌≡◌, ℕ, ◌+◌, ◌<◌, ◌≤◌, ◌^◌, ◌==◌, [], ◌∷◌, ◌++◌, length, map, is_some, if◌then◌else◌, slice_index_or, All, IfOk, OnOk, vec_len};
ghost use Rattle.calculus.specs.Rows.{bad_choice, literal_over};
ghost use Rattle.step_core.specs.declared.listing.Line.{Line};
ghost use Rattle.step_core.specs.Cores.{core_rows, inferences_of};
ghost use Rattle.extract.specs.Removals.{removals, stands_over};
ghost use Rattle.extract.specs.Tables.{removals_at, unmarked, removals_here, removals_of_line, removed_of};

use memory::NoMemory;
use prefix::{Lit, Quant, Var};
use std::alloc::Global;
use std::marker::Model;
use step_core::{Core, CoreStep};

// A removal of a literal: the place of the step that removed it, from 0, and the value that it forces.
#[derive(Clone, Copy, Debug)]
pub(crate) struct Removal {
    pub(crate) step: usize,
    pub(crate) value: bool,
}

// Removals, in the order of their steps.
#[derive(Debug, Drop)]
pub(crate) struct RemovalList {
    removals: Vec<Removal>,
}

impl Model for RemovalList {
    ghost use Rattle.std.specs.Prelude.{List};
    ghost use Rattle.extract.specs.declared.index.Removal.{Removal};

    ghost Value = { List Removal };

    ghost view = { λ a. a.removals.items };
}

impl RemovalList {
    // An empty list.
    fn new(alloc: Global) -> Self
        ensures { result ≡ [] }
    {
        Self {
            removals: Vec::new(alloc),
        }
    }

    // Its removals.
    pub(crate) fn removals(&self) -> &[Removal]
        ensures { result.now ≡ self.now }
    {
        &self.removals
    }

    // Puts a removal at the end.
    fn push(&mut self, removal: Removal) -> Result<(), NoMemory>
        ensures { OnOk result (self.new ≡ self.old ++ removal ∷ []) }
    {
        self.removals.push(removal)?;
        Ok(())
    }
}

// The removals of each variable's literals, by its number.
pub(crate) fn index_of(
    alloc: Global,
    pivot: Quant,
    core: &Core,
) -> Result<Vec<RemovalList>, NoMemory>
    ensures value { IfOk result (λ index. (x : ℕ) →
        map (removed_of (core_rows core.now.lines)) (removals_at index.items x)
        ≡ removals pivot x (inferences_of core.now.lines)) }
    ensures within { IfOk result (λ index. (x : ℕ) →
        All (λ r. r.step < length core.now.lines) (removals_at index.items x)) }
{
    let mut index = Vec::new(alloc);
    let mut stamps = Vec::new(alloc);
    for i in 0..core.len() {
        push_line(alloc, &mut index, &mut stamps, pivot, core, i)?;
    }
    Ok(index)
}

// Puts the removals of a line into the index. The stamps are at most the lines before.
fn push_line(
    alloc: Global,
    index: &mut Vec<RemovalList>,
    stamps: &mut Vec<usize>,
    pivot: Quant,
    core: &Core,
    i: usize,
) -> Result<(), NoMemory>
    requires within { i < length core.now.lines }
    requires stamped { (x : ℕ) → slice_index_or stamps.old.items x 0 ≤ i }
    ensures pushed { OnOk result ((x : ℕ) (d : Line) →
        removals_at index.new.items x
        ≡ removals_at index.old.items x ++ removals_of_line pivot x i (core_rows core.now.lines) (slice_index_or
        core.now.lines i d)) }
    ensures stamped { OnOk result ((x : ℕ) → slice_index_or stamps.new.items x 0 ≤ i + 1) }
{
    let _ = core.len();
    match core.step(i + 1) {
        CoreStep::Input => Ok(()),
        CoreStep::One(k) => {
            let row = core.lits(i + 1);
            mark_row(stamps, row, i + 1)?;
            push_removed(alloc, index, stamps, pivot, i, row, core.lits(k))
        }
        CoreStep::Two { .. } => Ok(()),
    }
}

// Stamps the variables of a row.
fn mark_row(stamps: &mut Vec<usize>, row: &[Lit], stamp: usize) -> Result<(), NoMemory>
    requires { (x : ℕ) → slice_index_or stamps.old.items x 0 < stamp }
    ensures marked { OnOk result ((x : ℕ) → (slice_index_or stamps.new.items x 0 == stamp)
        ≡ stands_over row.now x) }
    ensures stamped { OnOk result ((x : ℕ) → slice_index_or stamps.new.items x 0 ≤ stamp) }
{
    for lit in row {
        mark(stamps, lit.var(), stamp)?;
    }
    Ok(())
}

// Stamps a variable.
fn mark(stamps: &mut Vec<usize>, v: Var, stamp: usize) -> Result<(), NoMemory>
    ensures { OnOk result ((x : ℕ) →
        slice_index_or stamps.new.items x 0 ≡ (if v == x then stamp else slice_index_or stamps.old.items x 0)) }
{
    let at = v.number() as usize;
    if at >= stamps.len() {
        stamps.resize(at + 1, 0)?;
    }
    stamps[at] = stamp;
    Ok(())
}

// Whether a variable has this stamp.
fn is_marked(stamps: &Vec<usize>, v: Var, stamp: usize) -> bool
    ensures { result ≡ (slice_index_or stamps.now.items v 0 == stamp) }
{
    stamps.get(v.number() as usize).copied().unwrap_or(0) == stamp
}

// Puts the removals of a step that left this row, whose variables are stamped, of these literals into the index.
fn push_removed(
    alloc: Global,
    index: &mut Vec<RemovalList>,
    stamps: &Vec<usize>,
    pivot: Quant,
    step: usize,
    row: &[Lit],
    before: &[Lit],
) -> Result<(), NoMemory>
    requires small { step + 1 < 2 ^ 64 }
    requires marked { (x : ℕ) → (slice_index_or stamps.now.items x 0 == step + 1) ≡ stands_over row.now x }
    ensures { OnOk result ((x : ℕ) →
        removals_at index.new.items x
        ≡ removals_at index.old.items x ++ removals_here pivot x step row.now before.now) }
{
    push_unmarked(alloc, index, stamps, pivot, step, before)
}

// Puts a removal of each literal over a variable without the step's stamp into the index.
fn push_unmarked(
    alloc: Global,
    index: &mut Vec<RemovalList>,
    stamps: &Vec<usize>,
    pivot: Quant,
    step: usize,
    before: &[Lit],
) -> Result<(), NoMemory>
    requires { step + 1 < 2 ^ 64 }
    ensures { OnOk result ((x : ℕ) →
        removals_at index.new.items x
        ≡ removals_at index.old.items x ++ unmarked stamps.now.items pivot x step before.now) }
{
    for lit in before {
        if !is_marked(stamps, lit.var(), step + 1) {
            let value = lit.is_positive() == (pivot == Quant::Forall);
            push_removal(alloc, index, lit.var(), Removal { step, value })?;
        }
    }
    Ok(())
}

// Puts a removal at the end of a variable's list.
fn push_removal(
    alloc: Global,
    index: &mut Vec<RemovalList>,
    v: Var,
    removal: Removal,
) -> Result<(), NoMemory>
    ensures { OnOk result ((x : ℕ) →
        removals_at index.new.items x
        ≡ (if v == x then removals_at index.old.items x ++ removal ∷ [] else removals_at index.old.items x)) }
{
    let at = v.number() as usize;
    make_room(alloc, index, at + 1)?;
    let list = &mut index[at];
    list.push(removal)
}

// Makes the index at least `len` long, with no removals where it is new.
fn make_room(alloc: Global, index: &mut Vec<RemovalList>, len: usize) -> Result<(), NoMemory>
    ensures same { (x : ℕ) → removals_at index.new.items x ≡ removals_at index.old.items x }
    ensures room { OnOk result (len ≤ vec_len index.new) }
{
    'room: while index.len() < len {
        index.push(RemovalList::new(alloc))?;
    }
    Ok(())
}
