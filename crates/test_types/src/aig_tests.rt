//! Small circuits, their values, and the strategy of one.
ghost use Rattle.std.specs.Prelude.{◌≡◌};
ghost use Rattle.aig.specs.Circuits.{IsEdge};

use crate::build::variable;
use aig::{Aig, Edge, Output, OutputList, Strategy, VarList};
use memory::NoMemory;
use prefix::{Quant, Var};
use std::alloc::Global;
use std::test::Fail;

const ALL: [(bool, bool); 4] = [(false, false), (false, true), (true, false), (true, true)];

// Whether an edge has these values, for the values of two inputs in turn, in a circuit of three gates at most.
fn has_values(aig: &Aig, edge: Edge, values: [bool; 4]) -> bool
    requires edge { IsEdge aig.now edge }
    requires inputs { aig.now.inputs ≡ 2 }
{
    if aig.gates() > 3 {
        return false;
    }
    let mut scratch = [true; 3];
    for ((x, y), value) in ALL.iter().zip(&values) {
        if aig.value(edge, &[*x, *y], &mut scratch) != *value {
            return false;
        }
    }
    true
}

// Whether the conjunction of both inputs, in another order, is the one gate and has its values.
fn makes_one_gate(aig: &mut Aig) -> Result<bool, NoMemory>
    requires { aig.old.inputs ≡ 2 }
{
    let (a, b) = (aig.input(0), aig.input(1));
    let both = aig.and(b, a)?;
    if both.number(2) != 6 || aig.inputs() != 2 || aig.gates() != 1 || aig.gate(0) != (b, a) {
        return Ok(false);
    }
    Ok(has_values(aig, both, [false, false, false, true]))
}

#[test]
fn two_inputs_make_one_gate(rt: HostRuntime) -> Result<(), Fail> {
    let mut aig = Aig::new(rt.alloc(), 2)?;
    assert!(rt; makes_one_gate(&mut aig)?);
    Ok(())
}

// Whether edges have these numbers in a circuit of two inputs.
fn are_numbered(edges: &[(Edge, u128)]) -> bool {
    for (edge, want) in edges {
        if edge.number(2) != *want {
            return false;
        }
    }
    true
}

// Whether constants, inputs, the two conjunctions that are made, and negations have their numbers.
fn has_numbers(aig: &mut Aig) -> Result<bool, NoMemory>
    requires { aig.old.inputs ≡ 2 }
{
    let (a, b) = (aig.input(0), aig.input(1));
    let both = aig.and(a, b)?;
    let none = aig.and(a.not(), b.not())?;
    Ok(are_numbered(&[
        (Edge::constant(false), 0),
        (Edge::constant(true), 1),
        (a, 2),
        (a.not(), 3),
        (b, 4),
        (both, 6),
        (both.not(), 7),
        (none, 8),
    ]))
}

#[test]
fn numbers_are_literals_of_aiger(rt: HostRuntime) -> Result<(), Fail> {
    let mut aig = Aig::new(rt.alloc(), 2)?;
    assert!(rt; has_numbers(&mut aig)?);
    Ok(())
}

// Whether conjunctions with constants, with itself and with its negation make no gate over an input.
fn folds(aig: &mut Aig) -> Result<bool, NoMemory>
    requires { aig.old.inputs ≡ 1 }
{
    let (a, zero, one) = (aig.input(0), Edge::constant(false), Edge::constant(true));
    let folded = [
        aig.and(a, zero)?,
        aig.and(one, a)?,
        aig.and(a, a)?,
        aig.and(a, a.not())?,
    ];
    Ok(folded == [zero, a, a, zero] && aig.gates() == 0)
}

#[test]
fn folds_make_no_gate(rt: HostRuntime) -> Result<(), Fail> {
    let mut aig = Aig::new(rt.alloc(), 1)?;
    assert!(rt; folds(&mut aig)?);
    Ok(())
}

// Whether gates have their values once a third one is made, and so have an input and the constant.
fn keeps_values(aig: &mut Aig) -> Result<bool, NoMemory>
    requires { aig.old.inputs ≡ 2 }
{
    let (a, b) = (aig.input(0), aig.input(1));
    let both = aig.and(b, a)?;
    let none = aig.and(b.not(), a.not())?;
    let either = aig.and(none.not(), both.not())?;
    Ok(
        aig.gates() == 3
            && has_values(aig, both, [false, false, false, true])
            && has_values(aig, none.not(), [false, true, true, true])
            && has_values(aig, either, [false, true, true, false])
            && has_values(aig, b, [false, true, false, true])
            && has_values(aig, Edge::constant(true), [true; 4]),
    )
}

#[test]
fn later_gates_leave_values_as_they_were(rt: HostRuntime) -> Result<(), Fail> {
    let mut aig = Aig::new(rt.alloc(), 2)?;
    assert!(rt; keeps_values(&mut aig)?);
    Ok(())
}

// The inputs 1 and 2.
fn two_inputs(alloc: Global) -> Result<Vec<Var>, Fail> {
    let mut vars = Vec::new(alloc);
    vars.push(variable(1)?)?;
    vars.push(variable(2)?)?;
    Ok(vars)
}

// An edge as the output 3.
fn one_output(alloc: Global, edge: Edge) -> Result<Vec<Output>, Fail> {
    let mut outputs = Vec::new(alloc);
    let var = variable(3)?;
    outputs.push(Output { var, edge })?;
    Ok(outputs)
}

// Whether a strategy has two inputs, the second of which is 2, and the output 3 by this edge.
fn has_names(strategy: &Strategy, edge: Edge) -> bool {
    matches!(strategy.inputs.vars(), [_, second] if second.number() == 2)
        && matches!(
            strategy.outputs.outputs(),
            [output] if output.var.number() == 3 && output.edge == edge
        )
}

// The conjunction of both inputs.
fn conjunction(aig: &mut Aig) -> Result<Edge, NoMemory>
    requires { aig.old.inputs ≡ 2 }
{
    aig.and(aig.input(1), aig.input(0))
}

// The strategy with this circuit and edge.
fn strategy_of(alloc: Global, aig: Aig, edge: Edge) -> Result<Strategy, Fail> {
    let inputs = VarList::from_vec(two_inputs(alloc)?);
    let outputs = OutputList::from_vec(one_output(alloc, edge)?);
    Ok(Strategy {
        aig,
        winner: Quant::Exists,
        inputs,
        outputs,
    })
}

#[test]
fn a_strategy_names_its_inputs_and_outputs(rt: HostRuntime) -> Result<(), Fail> {
    let mut aig = Aig::new(rt.alloc(), 2)?;
    let edge = conjunction(&mut aig)?;
    let strategy = strategy_of(rt.alloc(), aig, edge)?;
    assert!(rt; has_names(&strategy, edge));
    Ok(())
}

// Whether both orders of two inputs give one gate.
fn finds_again(aig: &mut Aig) -> Result<bool, NoMemory>
    requires { aig.old.inputs ≡ 2 }
{
    let (a, b) = (aig.input(0), aig.input(1));
    let first = aig.and(a, b)?;
    let again = aig.and(b, a)?;
    Ok(first.number(2) == 6 && again.number(2) == 6 && aig.gates() == 1)
}

#[test]
fn a_gate_in_either_order_is_found_again(rt: HostRuntime) -> Result<(), Fail> {
    let mut aig = Aig::new(rt.alloc(), 2)?;
    assert!(rt; finds_again(&mut aig)?);
    Ok(())
}
