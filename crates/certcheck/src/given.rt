//! What says that the assumed variables have their assumed values.
ghost use Rattle.std.specs.Prelude.{◌≡◌, ◌<◌, ◌≤◌, length, All, IfOk, List};
ghost use Rattle.prefix.specs.Literal.{Literal};
ghost use Rattle.aig.specs.Strategies.{IsStrategy};
ghost use Rattle.certcheck.specs.Check.{given, given_outputs as given_of_outputs, greatest, named_inputs};
ghost use Rattle.certcheck.specs.Tables.{IsTableOfAssumed};

use crate::names::entry_at;
use crate::put::when;
use aig::Strategy;
use prefix::Var;
use std::alloc::{AllocError, Global};

// The literals that say it of the inputs.
pub(crate) fn given_inputs(
    alloc: Global,
    inputs: &[Var],
    assumed: &[Option<bool>],
) -> Result<Vec<u32>, AllocError>
    requires few { length inputs.now ≤ 1048576 }
    ensures value { IfOk result (λ ns. (assumptions : List Literal) → IsTableOfAssumed assumed.now assumptions
        → ns.items ≡ given assumptions (named_inputs 0 inputs.now)) }
    ensures below { IfOk result (λ ns. All (λ n. n < 2097154) ns.items) }
{
    let mut given = Vec::new(alloc);
    for i in 0..inputs.len() {
        if let Some(value) = entry_at(assumed, inputs[i]) {
            given.push(when(value, 2 * (i as u32 + 1)))?;
        }
    }
    Ok(given)
}

// The literals that say it of the outputs.
pub(crate) fn given_outputs(
    alloc: Global,
    s: &Strategy,
    assumed: &[Option<bool>],
) -> Result<Vec<u32>, AllocError>
    requires strategy { IsStrategy s.now }
    requires small { greatest s.now ≤ 1048576 }
    ensures value { IfOk result (λ ns. (assumptions : List Literal) → IsTableOfAssumed assumed.now assumptions
        → ns.items ≡ given_of_outputs assumptions s.now) }
    ensures below { IfOk result (λ ns. All (λ n. n < 2097154) ns.items) }
{
    let inputs = s.aig.inputs();
    let outputs = s.outputs.outputs();
    let mut given = Vec::new(alloc);
    for i in 0..outputs.len() {
        if let Some(value) = entry_at(assumed, outputs[i].var) {
            given.push(when(value, outputs[i].edge.number(inputs) as u32))?;
        }
    }
    Ok(given)
}
