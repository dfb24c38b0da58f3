//! The steps of a core in their order.
ghost use Rattle.std.specs.Prelude.{◌≡◌, ℕ, ◌+◌, ◌-◌, ◌<◌, ◌≤◌, ◌&&◌, ◌++◌, false, true, length, slice_index_or, IfOk, OnOk, IsTrue};
ghost use Rattle.derive.specs.State.{is_live, why_at};
ghost use Rattle.step_core.specs.Cores.{core_ids};
ghost use Rattle.step_core.specs.Gathering.{AreCoreIds, AreNeeded, is_in_part, part_of_core};

use derive::{Derivation, Step, StepId};
use memory::NoMemory;
use std::alloc::Global;

// The ids of the marked steps in core order: the inputs first, then the others, ascending both.
pub(crate) fn ids_in_order(
    alloc: Global,
    derivation: &Derivation,
    end: StepId,
    marks: &[bool],
) -> Result<Vec<StepId>, NoMemory>
    requires { AreNeeded derivation.now end marks.now }
    ensures value { IfOk result (λ ids. ids.items ≡ core_ids derivation.now end) }
    ensures closed { IfOk result (λ ids. AreCoreIds derivation.now end marks.now ids.items) }
{
    let mut ids = Vec::new(alloc);
    push_part(derivation, end, marks, true, &mut ids)?;
    push_part(derivation, end, marks, false, &mut ids)?;
    Ok(ids)
}

// Puts the ids of the marked inputs, or those of the other marked steps, at the end of a list.
fn push_part(
    derivation: &Derivation,
    end: StepId,
    marks: &[bool],
    inputs: bool,
    ids: &mut Vec<StepId>,
) -> Result<(), NoMemory>
    requires { AreNeeded derivation.now end marks.now }
    ensures { OnOk result (ids.new.items ≡ ids.old.items ++ part_of_core derivation.now end inputs) }
{
    let mut left = marks.len();
    while left > 0 {
        left -= 1;
        if is_in(derivation, end, marks, left, inputs) {
            ids.push(end - left)?;
        }
    }
    Ok(())
}

// Whether the step at a distance is marked, and an input or another one, as asked.
fn is_in(
    derivation: &Derivation,
    end: StepId,
    marks: &[bool],
    distance: usize,
    inputs: bool,
) -> bool
    requires marks { AreNeeded derivation.now end marks.now }
    requires within { distance < length marks.now }
    ensures { result ≡ (slice_index_or marks.now distance false
        && is_in_part inputs (why_at derivation.now (end - distance))) }
{
    if !marks[distance] {
        return false;
    }
    is_input(derivation, end - distance) == inputs
}

// Whether a step is an input.
fn is_input(derivation: &Derivation, id: StepId) -> bool
    requires { IsTrue (is_live derivation.now id) }
    ensures { result ≡ is_in_part true (why_at derivation.now id) }
{
    matches!(derivation.step(id), Step::InputClause | Step::InputCube)
}
