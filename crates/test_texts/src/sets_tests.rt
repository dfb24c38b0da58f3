//! As many sets as a formula may have, and what is beyond.
use crate::build::desk_with;
use qdimacs::read_formula;
use reading::{Quantity, ReadRefusal};
use std::alloc::Global;
use std::test::Fail;

// Writes so many sets of one variable each, the first of them universal.
fn write_sets(text: &mut String, last: u32) -> Result<(), Fail> {
    for v in 1..=last {
        let quant = if v % 2 == 0 { 'e' } else { 'a' };
        writeln!(text, "{quant} {v} 0")?;
    }
    Ok(())
}

// A header and so many sets, and then some more.
fn sets(alloc: Global, clauses: u32, last: u32, more: &str) -> Result<String, Fail> {
    let mut text = format!(in alloc; "p cnf 65537 {clauses}\n")?;
    write_sets(&mut text, last)?;
    text.push_str(more)?;
    Ok(text)
}

// How many scopes and variables a text has, or why it is refused.
fn read(alloc: Global, text: &str) -> Result<Result<(usize, usize), ReadRefusal>, Fail> {
    let mut desk = desk_with(alloc, text.as_bytes(), 4096)?;
    Ok(match read_formula(alloc, &mut desk) {
        Ok(formula) => Ok((formula.prefix.scopes(), formula.prefix.len())),
        Err(refusal) => Err(refusal),
    })
}

// The refusal of a scope too many on this line.
fn too_many(line: u32) -> ReadRefusal {
    ReadRefusal::Limit {
        quantity: Quantity::Scopes,
        line,
    }
}

// A free variable joins an existential scope in front of all others, which is one too many where the first is
// universal; this is found at the end of the text.
#[test]
fn as_many_sets_are_read_as_may_be(rt: HostRuntime) -> Result<(), Fail> {
    for (clauses, last, more, want) in [
        (0, 65_536, "", Ok((65_536, 65_536))),
        (0, 65_537, "", Err(too_many(65_538))),
        (1, 65_536, "65537 0\n", Err(too_many(65_539))),
        (1, 65_535, "65537 0\n", Ok((65_536, 65_536))),
        // It joins the set in front of it.
        (0, 65_536, "e 65537 0\n", Ok((65_536, 65_537))),
    ] {
        let text = sets(rt.alloc(), clauses, last, more)?;
        assert!(rt;
            read(rt.alloc(), text.as_str())? == want,
            "{last} sets, {clauses} clauses"
        );
    }
    Ok(())
}
