//! Which steps a step needs. The tables are by the distance from the end, so that no step behind it or before the
//! oldest one that it needs is looked at.
ghost use Rattle.std.specs.Prelude.{◌≡◌, ℕ, ◌+◌, ◌-◌, ◌<◌, ◌≤◌, ◌^◌, ◌==◌, ◌&&◌, ◌||◌, true, false, if◌then◌else◌, length, max, slice_index_or, IfOk, OnOk, IsTrue};
ghost use Rattle.calculus.specs.Derivations.{RestsOn, rests_on};
ghost use Rattle.derive.specs.Antecedents.{IsAntecedentIn};
ghost use Rattle.derive.specs.State.{is_live, side_at, why_at};
ghost use Rattle.step_core.specs.Gathering.{AreMarks, AreNeeded, is_marked};

use derive::{Derivation, Step, StepId};
use memory::NoMemory;
use std::alloc::Global;

// Which steps the end needs, by their distance from it. The table reaches to the oldest of them.
pub(crate) fn needed_for(
    alloc: Global,
    derivation: &Derivation,
    end: StepId,
) -> Result<Vec<bool>, NoMemory>
    requires { IsTrue (is_live derivation.now end) }
    ensures { IfOk result (λ marks. AreNeeded derivation.now end marks.items) }
{
    let _ = derivation.next_id();
    let mut marks = Vec::new(alloc);
    marks.push(true)?;
    let mut distance = 0;
    while distance < marks.len() {
        mark_from(derivation, end, distance, &mut marks)?;
        distance += 1;
    }
    Ok(marks)
}

// Marks what the step at a distance rests on, where it is marked itself.
fn mark_from(
    derivation: &Derivation,
    end: StepId,
    distance: usize,
    marks: &mut Vec<bool>,
) -> Result<(), NoMemory>
    requires live { IsTrue (is_live derivation.now end) }
    requires within { distance < length marks.old.items }
    requires marks { AreMarks derivation.now end marks.old.items }
    ensures marks { OnOk result (AreMarks derivation.now end marks.new.items) }
    ensures value { OnOk result ((x : ℕ) → x ≤ end → is_marked end marks.new.items x
        ≡ (is_marked end marks.old.items x || (is_marked end marks.old.items (end - distance)
        && rests_on (why_at derivation.now (end - distance)) x))) }
    ensures antecedents { is_marked end marks.old.items (end - distance) ≡ true → (on : ℕ) →
        RestsOn (why_at derivation.now (end - distance)) on →
        IsAntecedentIn derivation.now.notes (end - distance) (side_at derivation.now (end - distance)) on }
{
    if !marks[distance] {
        return Ok(());
    }
    mark_antecedents(derivation, end, end - distance, marks)
}

// Marks what a step rests on.
fn mark_antecedents(
    derivation: &Derivation,
    end: StepId,
    id: StepId,
    marks: &mut Vec<bool>,
) -> Result<(), NoMemory>
    requires end { IsTrue (is_live derivation.now end) }
    requires live { IsTrue (is_live derivation.now id) }
    requires within { id ≤ end }
    requires marks { AreMarks derivation.now end marks.old.items }
    ensures marks { OnOk result (AreMarks derivation.now end marks.new.items) }
    ensures value { OnOk result ((x : ℕ) → x ≤ end → is_marked end marks.new.items x
        ≡ (is_marked end marks.old.items x || rests_on (why_at derivation.now id) x)) }
    ensures antecedents { (on : ℕ) → RestsOn (why_at derivation.now id) on →
        IsAntecedentIn derivation.now.notes id (side_at derivation.now id) on }
{
    match derivation.step(id) {
        Step::InputClause | Step::InputCube => Ok(()),
        Step::Reduced(a) => mark(derivation, end, a, marks),
        Step::Finished(a) => mark(derivation, end, a, marks),
        Step::Resolved { a, b, .. } => {
            mark(derivation, end, a, marks)?;
            mark(derivation, end, b, marks)
        }
    }
}

// Marks a live step.
fn mark(
    derivation: &Derivation,
    end: StepId,
    id: StepId,
    marks: &mut Vec<bool>,
) -> Result<(), NoMemory>
    requires end { IsTrue (is_live derivation.now end) }
    requires live { IsTrue (is_live derivation.now id) }
    requires within { id ≤ end }
    requires marks { AreMarks derivation.now end marks.old.items }
    ensures marks { OnOk result (AreMarks derivation.now end marks.new.items) }
    ensures value { OnOk result ((x : ℕ) → x ≤ end → is_marked end marks.new.items x
        ≡ (is_marked end marks.old.items x || id == x)) }
{
    let _ = derivation.next_id();
    mark_distance(marks, end - id)
}

// Marks a distance.
fn mark_distance(marks: &mut Vec<bool>, distance: usize) -> Result<(), NoMemory>
    requires { distance + 1 < 2 ^ 64 }
    ensures value { OnOk result ((x : ℕ) → slice_index_or marks.new.items x false
        ≡ (distance == x || slice_index_or marks.old.items x false)) }
    ensures len { OnOk result (length marks.new.items ≤ max (length marks.old.items) (distance + 1)) }
{
    if distance >= marks.len() {
        marks.resize(distance + 1, false)?;
    }
    marks[distance] = true;
    Ok(())
}
