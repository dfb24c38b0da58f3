//! The circuit of a strategy without the gates that no output is reached from.
ghost use Rattle.std.specs.Prelude.{◌≡◌, ℕ, ◌<◌, length, IfOk};
ghost use Rattle.aig.specs.Strategies.{IsStrategy, values_of};
ghost use Rattle.trim.specs.Trimmed.{IsReached, IsTrimmed, KeepsReached};

use crate::gates::{moved_outputs, put_gates};
use crate::marks::marks_of;
use aig::{Aig, OutputList, Strategy, VarList};
use memory::NoMemory;
use std::alloc::Global;

/// A strategy whose circuit has exactly the gates that an output is reached from, in their order. Winner, inputs,
/// outputs' variables and their order stay, and each output has the values that it had, so it plays as before.
///
/// Fails for want of memory alone. It takes time and memory in proportion to the inputs, the gates and the outputs.
pub fn trim(alloc: Global, strategy: &Strategy) -> Result<Strategy, NoMemory>
    requires { IsStrategy strategy.now }
    ensures trimmed { IfOk result (IsTrimmed strategy.now) }
    ensures gates { IfOk result (KeepsReached strategy.now) }
    ensures whole { IfOk result (λ s. ((j : ℕ) → j < length strategy.now.aig.gates → IsReached strategy.now j)
        → s ≡ strategy.now) }
    ensures plays { IfOk result (λ s. values_of s ≡ values_of strategy.now) }
{
    let marks = marks_of(alloc, strategy)?;
    let mut aig = Aig::new(alloc, strategy.aig.inputs())?;
    let mut table = Vec::new(alloc);
    put_gates(strategy, &marks, &mut aig, &mut table)?;
    let outputs = moved_outputs(alloc, strategy, &table)?;
    let inputs = Vec::from_slice(alloc, strategy.inputs.vars())?;
    Ok(Strategy {
        aig,
        winner: strategy.winner,
        inputs: VarList::from_vec(inputs),
        outputs: OutputList::from_vec(outputs),
    })
}
