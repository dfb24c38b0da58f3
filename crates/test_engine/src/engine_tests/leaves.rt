//! Variables that leave with their frame.
use super::play::{put, truth_within};
use engine::Engine;
use prefix::Quant;
use std::alloc::Global;
use std::test::Fail;
use versions::Version;

// Puts in variable 1 in the first scope, in a pushed frame.
fn put_pushed(engine: &mut Engine) -> Result<(), Fail> {
    engine.scope(Quant::Exists, None)?;
    engine.push()?;
    engine.var(1, 1)?;
    Ok(())
}

// Whether the variable may be put in again once its frame is popped.
fn comes_again(engine: &mut Engine) -> Result<bool, Fail> {
    engine.pop()?;
    Ok(engine.var(1, 1).is_ok())
}

// Variable 1 must be false, in a frame that is solved and popped. Whether the variable may be put in again then.
fn comes_solved(engine: &mut Engine, alloc: Global) -> Result<bool, Fail> {
    put_pushed(engine)?;
    put(alloc, engine, &[-1, 0])?;
    truth_within(engine, 1_000)?;
    comes_again(engine)
}

// Whether variable 1 is true once it must be.
fn is_true(engine: &mut Engine, alloc: Global) -> Result<bool, Fail> {
    put(alloc, engine, &[1, 0])?;
    Ok(truth_within(engine, 1_000)? && engine.value(1)?.is_positive())
}

// Variable 1 is assumed in a pushed frame that is popped. Whether it may be put in again then.
fn comes_unassumed(engine: &mut Engine) -> Result<bool, Fail> {
    put_pushed(engine)?;
    engine.assume(1)?;
    comes_again(engine)
}

// Whether the formula is true once variable 1 must be false.
fn is_false(engine: &mut Engine, alloc: Global) -> Result<bool, Fail> {
    put(alloc, engine, &[-1, 0])?;
    truth_within(engine, 1_000)
}

// What is done with variable 1 in its frame.
#[derive(Clone, Copy)]
enum Way {
    Solved,
    Assumed,
}

// Whether the variable may be put in again, and whether the formula is true with what must hold of the variable then.
fn goes(engine: &mut Engine, alloc: Global, way: Way) -> Result<(bool, bool), Fail> {
    match way {
        Way::Solved => {
            let again = comes_solved(engine, alloc)?;
            let now = is_true(engine, alloc)?;
            Ok((again, now))
        }
        Way::Assumed => {
            let again = comes_unassumed(engine)?;
            let now = is_false(engine, alloc)?;
            Ok((again, now))
        }
    }
}

// The same of a new engine.
fn leaves(alloc: Global, version: Version, way: Way) -> Result<(bool, bool), Fail> {
    let mut engine = Engine::with_version(alloc, version)?;
    goes(&mut engine, alloc, way)
}

// A number is free again once its variable left, and what was learned of the variable is gone.
fn leave_solved(alloc: Global) -> Result<bool, Fail> {
    Ok(
        leaves(alloc, Version::One, Way::Solved)? == (false, true)
            && leaves(alloc, Version::Two, Way::Solved)? == (true, true),
    )
}

#[test]
fn variables_leave_with_their_frame(rt: HostRuntime) -> Result<(), Fail> {
    assert!(rt; leave_solved(rt.alloc())?);
    Ok(())
}

// An assumption over a variable goes with it.
fn leave_assumed(alloc: Global) -> Result<bool, Fail> {
    Ok(
        leaves(alloc, Version::One, Way::Assumed)? == (false, false)
            && leaves(alloc, Version::Two, Way::Assumed)? == (true, true),
    )
}

#[test]
fn assumptions_leave_with_their_variable(rt: HostRuntime) -> Result<(), Fail> {
    assert!(rt; leave_assumed(rt.alloc())?);
    Ok(())
}
