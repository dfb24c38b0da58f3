//! The circuit's literals of the formula's variables, and what is assumed of them.
ghost use Rattle.std.specs.Prelude.{◌≡◌, ℕ, ◌+◌, ◌*◌, ◌<◌, ◌≤◌, ◌^◌, ◌==◌, if◌then◌else◌, Some, None, length, slice_index_or, OnOk, IfOk, All};
ghost use Rattle.std.specs.Option.{option_or};
ghost use Rattle.aig.specs.Circuits.{IsEdge};
ghost use Rattle.aig.specs.Strategies.{IsStrategy};
ghost use Rattle.aig.specs.declared.strategy.Output.{Output};
ghost use Rattle.certcheck.specs.Check.{names, named_inputs, named_outputs, greatest};
ghost use Rattle.certcheck.specs.Tables.{IsSmall, IsTableOf, IsTableOfAssumed, entry_of, named};

use aig::Strategy;
use prefix::{Lit, Var};
use std::alloc::{AllocError, Global};

// Puts an entry at a variable's number, unless there is one.
pub(crate) fn put_entry<T: Copy + Drop>(
    table: &mut Vec<Option<T>>,
    v: Var,
    entry: T,
) -> Result<(), AllocError>
    ensures { OnOk result ((w : ℕ) → entry_of table.new.items w
        ≡ option_or (entry_of table.old.items w) (if v == w then Some entry else None)) }
{
    let i = v.number() as usize;
    if i >= table.len() {
        table.resize(i + 1, None)?;
    }
    if table[i].is_none() {
        table[i] = Some(entry);
    }
    Ok(())
}

// The literal of each variable.
pub(crate) fn table_of(alloc: Global, s: &Strategy) -> Result<Vec<Option<u32>>, AllocError>
    requires strategy { IsStrategy s.now }
    requires small { greatest s.now ≤ 1048576 }
    ensures table { IfOk result (λ t. IsTableOf t.items (names s.now)) }
    ensures small { IfOk result (λ t. IsSmall t.items) }
{
    let mut table = Vec::new(alloc);
    put_inputs(&mut table, s.inputs.vars())?;
    put_outputs(&mut table, s)?;
    Ok(table)
}

// Gives the inputs their literals.
fn put_inputs(table: &mut Vec<Option<u32>>, inputs: &[Var]) -> Result<(), AllocError>
    requires { length inputs.now ≤ 1048576 }
    ensures { OnOk result ((w : ℕ) → entry_of table.new.items w
        ≡ option_or (entry_of table.old.items w) (named (named_inputs 0 inputs.now) w)) }
{
    for i in 0..inputs.len() {
        put_entry(table, inputs[i], 2 * (i as u32 + 1))?;
    }
    Ok(())
}

// Gives the outputs the literals of their edges.
fn put_outputs(table: &mut Vec<Option<u32>>, s: &Strategy) -> Result<(), AllocError>
    requires strategy { IsStrategy s.now }
    requires small { greatest s.now ≤ 1048576 }
    ensures { OnOk result ((w : ℕ) → entry_of table.new.items w
        ≡ option_or (entry_of table.old.items w) (named (named_outputs s.now.aig.inputs s.now.outputs) w)) }
{
    let inputs = s.aig.inputs();
    let outputs = s.outputs.outputs();
    for i in 0..outputs.len() {
        put_entry(table, outputs[i].var, outputs[i].edge.number(inputs) as u32)?;
    }
    Ok(())
}

// The assumed values.
pub(crate) fn assumed_of(
    alloc: Global,
    assumptions: &[Lit],
) -> Result<Vec<Option<bool>>, AllocError>
    ensures { IfOk result (λ t. IsTableOfAssumed t.items assumptions.now) }
{
    let mut table = Vec::new(alloc);
    for lit in assumptions {
        put_entry(&mut table, lit.var(), lit.is_positive())?;
    }
    Ok(table)
}

// The entry of a variable.
pub(crate) fn entry_at<T: Copy + Drop>(table: &[Option<T>], v: Var) -> Option<T>
    ensures { result ≡ entry_of table.now v }
{
    table.get(v.number() as usize).copied().unwrap_or(None)
}
