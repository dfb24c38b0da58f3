//! The numbers of the steps of a core.
ghost use Rattle.std.specs.Prelude.{◌≡◌, ℕ, ◌-◌, ◌<◌, ◌≤◌, length, slice_index_or, Contains, IfOk};
ghost use Rattle.step_core.specs.Cores.{number_in};

use derive::StepId;
use memory::NoMemory;
use std::alloc::Global;

// The place of each of these ids, counted from 1, by its distance from the end, in a table of that length.
pub(crate) fn numbers_of(
    alloc: Global,
    end: StepId,
    ids: &[StepId],
    len: usize,
) -> Result<Vec<usize>, NoMemory>
    requires { (id : ℕ) → Contains ids.now id → (id ≤ end) × (end - id < len) }
    ensures value { IfOk result (λ numbers. (id : ℕ) → Contains ids.now id →
        slice_index_or numbers.items (end - id) 0 ≡ number_in ids.now id) }
    ensures len { IfOk result (λ numbers. length numbers.items ≡ len) }
{
    let mut numbers = Vec::new(alloc);
    numbers.resize(len, 0)?;
    let mut left = ids.len();
    while left > 0 {
        left -= 1;
        let id = ids[left];
        numbers[end - id] = left + 1;
    }
    Ok(numbers)
}
