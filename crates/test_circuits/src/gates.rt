//! Strategies over the inputs 1 and 2, by the AIGER literals of their gates' edges and of their outputs.
ghost use Rattle.std.specs.Prelude.{◌≡◌, length, All, IfOk, OnOk};
ghost use Rattle.aig.specs.Circuits.{IsEdge};
ghost use Rattle.aig.specs.Strategies.{IsStrategy};

use aig::{Aig, Edge, Output, OutputList, Strategy, VarList};
use prefix::{Quant, Var};
use std::alloc::Global;
use std::test::Fail;

// The edge of a literal, by those of the variables.
fn edge_of(aig: &Aig, edges: &[Edge], literal: usize) -> Result<Edge, Fail>
    requires { All (IsEdge aig.now) edges.now }
    ensures { IfOk result (λ e. IsEdge aig.now e) }
{
    let e = edges.get(literal / 2).copied().ok_or("literal")?;
    Ok(if literal % 2 == 1 { e.not() } else { e })
}

// The edges of the constant and of the inputs.
fn first_edges(alloc: Global, aig: &Aig) -> Result<Vec<Edge>, Fail>
    requires { aig.now.inputs ≡ 2 }
    ensures { IfOk result (λ edges. All (IsEdge aig.now) edges.items) }
{
    let first = aig.input(0);
    let second = aig.input(1);
    Ok(Vec::from_slice(alloc, &[Edge::constant(false), first, second])?)
}

// Puts a gate.
fn put_gate(aig: &mut Aig, edges: &mut Vec<Edge>, gate: (usize, usize)) -> Result<(), Fail>
    requires { All (IsEdge aig.old) edges.old.items }
    ensures edges { OnOk result (All (IsEdge aig.new) edges.new.items) }
    ensures inputs { aig.new.inputs ≡ aig.old.inputs }
{
    let a = edge_of(aig, edges, gate.0)?;
    let b = edge_of(aig, edges, gate.1)?;
    let e = aig.and(a, b)?;
    edges.push(e)?;
    Ok(())
}

// Puts gates.
fn put_gates(aig: &mut Aig, edges: &mut Vec<Edge>, gates: &[(usize, usize)]) -> Result<(), Fail>
    requires { All (IsEdge aig.old) edges.old.items }
    ensures edges { OnOk result (All (IsEdge aig.new) edges.new.items) }
    ensures inputs { OnOk result (aig.new.inputs ≡ aig.old.inputs) }
{
    for gate in gates {
        put_gate(aig, edges, *gate)?;
    }
    Ok(())
}

// The variable with this number.
fn variable(n: u32) -> Result<Var, Fail> {
    Ok(Var::new(n).ok_or("range")?)
}

// The inputs' variables.
fn two_inputs(alloc: Global) -> Result<VarList, Fail>
    ensures { IfOk result (λ vars. length vars ≡ 2) }
{
    let first = variable(1)?;
    let second = variable(2)?;
    Ok(VarList::from_vec(Vec::from_slice(alloc, &[first, second])?))
}

// Puts the outputs with these variables and literals in a list.
fn put_outputs(
    aig: &Aig,
    edges: &[Edge],
    list: &mut Vec<Output>,
    outputs: &[(u32, usize)],
) -> Result<(), Fail>
    requires edges { All (IsEdge aig.now) edges.now }
    requires list { All (λ o. IsEdge aig.now o.edge) list.old.items }
    ensures { OnOk result (All (λ o. IsEdge aig.now o.edge) list.new.items) }
{
    for (var, literal) in outputs {
        let var = variable(*var)?;
        let edge = edge_of(aig, edges, *literal)?;
        list.push(Output { var, edge })?;
    }
    Ok(())
}

// The outputs with these variables and literals.
fn outputs_of(
    alloc: Global,
    aig: &Aig,
    edges: &[Edge],
    outputs: &[(u32, usize)],
) -> Result<OutputList, Fail>
    requires { All (IsEdge aig.now) edges.now }
    ensures { IfOk result (λ list. All (λ o. IsEdge aig.now o.edge) list) }
{
    let mut list = Vec::new(alloc);
    put_outputs(aig, edges, &mut list, outputs)?;
    Ok(OutputList::from_vec(list))
}

// Puts gates behind these edges, and finds the outputs.
fn put_behind(
    alloc: Global,
    aig: &mut Aig,
    edges: &mut Vec<Edge>,
    gates: &[(usize, usize)],
    outputs: &[(u32, usize)],
) -> Result<OutputList, Fail>
    requires { All (IsEdge aig.old) edges.old.items }
    ensures outputs { IfOk result (λ list. All (λ o. IsEdge aig.new o.edge) list) }
    ensures inputs { OnOk result (aig.new.inputs ≡ aig.old.inputs) }
{
    put_gates(aig, edges, gates)?;
    outputs_of(alloc, aig, edges, outputs)
}

// Puts gates behind the two inputs, and finds the outputs.
fn put_all(
    alloc: Global,
    aig: &mut Aig,
    gates: &[(usize, usize)],
    outputs: &[(u32, usize)],
) -> Result<OutputList, Fail>
    requires { aig.old.inputs ≡ 2 }
    ensures outputs { IfOk result (λ list. All (λ o. IsEdge aig.new o.edge) list) }
    ensures inputs { OnOk result (aig.new.inputs ≡ 2) }
{
    let mut edges = first_edges(alloc, aig)?;
    put_behind(alloc, aig, &mut edges, gates, outputs)
}

// The strategy with these gates and outputs.
pub(crate) fn strategy(
    alloc: Global,
    winner: Quant,
    gates: &[(usize, usize)],
    outputs: &[(u32, usize)],
) -> Result<Strategy, Fail>
    ensures { IfOk result IsStrategy }
{
    let mut aig = Aig::new(alloc, 2)?;
    let outputs = put_all(alloc, &mut aig, gates, outputs)?;
    let inputs = two_inputs(alloc)?;
    Ok(Strategy {
        aig,
        winner,
        inputs,
        outputs,
    })
}
