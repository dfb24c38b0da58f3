//! The caller of the engine that `docs/LIBRARY.md` reads.
use example_engine::differ_from_one;
use std::alloc::Global;
use std::test::Fail;

// Its answer, and how many inputs and outputs its circuit has.
fn answer(alloc: Global) -> Result<(bool, usize, usize), Fail> {
    let answer = differ_from_one(alloc)?;
    let circuit = &answer.circuit;
    Ok((
        answer.truth,
        circuit.inputs.vars().len(),
        circuit.outputs.outputs().len(),
    ))
}

// The circuit has 1 as its input and 2 as its output.
#[test]
fn one_has_a_value_that_differs(rt: HostRuntime) -> Result<(), Fail> {
    assert_eq!(rt; answer(rt.alloc())?, (true, 1, 1));
    Ok(())
}
