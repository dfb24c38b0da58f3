//! As many scopes as may stand, and what is refused then.
use frames::Frames;
use prefix::{Prefix, PrefixRefusal, Quant};
use std::alloc::Global;
use std::test::Fail;

// Puts in as many scopes as may stand, the quantifiers in turn.
fn fill(prefix: &mut Prefix) -> Result<(), PrefixRefusal> {
    for number in 0..Prefix::MAX_SCOPES {
        let quant = if number % 2 == 0 {
            Quant::Exists
        } else {
            Quant::Forall
        };
        prefix.add_scope(quant, None)?;
    }
    Ok(())
}

// Whether one more is refused wherever it were put in, also where there is no such place.
fn is_full(prefix: &mut Prefix) -> bool {
    for at in [
        None,
        Some(0),
        Some(1),
        Some(65_536),
        Some(65_537),
        Some(65_538),
    ] {
        if prefix.add_scope(Quant::Exists, at) != Err(PrefixRefusal::ScopeLimit) {
            return false;
        }
    }
    true
}

// Whether variables are put into the last of these scopes, and into none behind it.
fn has_last_scope(prefix: &mut Prefix) -> bool {
    prefix.scopes() == 65_536
        && prefix.add_var(1, 65_537) == Err(PrefixRefusal::ScopeRange)
        && prefix.add_var(1, 65_536) == Ok(())
        && prefix.len() == 1
}

// Whether as many are put in as may, and no more.
fn takes_all(prefix: &mut Prefix) -> Result<bool, Fail> {
    fill(prefix)?;
    Ok(is_full(prefix) && has_last_scope(prefix))
}

// The same of a new prefix.
fn has_limit(alloc: Global) -> Result<bool, Fail> {
    let mut prefix = Prefix::new(alloc);
    takes_all(&mut prefix)
}

#[test]
fn as_many_scopes_are_added_as_may(rt: HostRuntime) -> Result<(), Fail> {
    assert!(rt; has_limit(rt.alloc())?);
    Ok(())
}

// Puts scopes into frames until one is refused: how many there are, and the number of the refusal.
fn scopes_of(frames: &mut Frames) -> (usize, Option<u8>) {
    for _ in 0..Prefix::MAX_SCOPES + 1 {
        if let Err(refusal) = frames.scope(Quant::Forall, None) {
            return (frames.prefix().scopes(), refusal.number());
        }
    }
    (frames.prefix().scopes(), None)
}

// The same of new frames.
fn limit_of(alloc: Global) -> (usize, Option<u8>) {
    let mut frames = Frames::new(alloc);
    scopes_of(&mut frames)
}

#[test]
fn a_scope_too_many_is_refused_by_its_number(rt: HostRuntime) {
    assert_eq!(rt; limit_of(rt.alloc()), (65_536, Some(4)));
}
