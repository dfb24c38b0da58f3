//! Texts and what is read of them.
use crate::build::desk_with;
use prefix::{Lit, Prefix, Quant};
use qdimacs::read_formula;
use reading::{Quantity, ReadRefusal};
use std::alloc::Global;
use std::test::Fail;
use truth::Formula;

// Writes the scopes, each with its variables.
fn write_prefix(prefix: &Prefix, to: &mut String) -> Result<(), Fail> {
    for s in 0..prefix.scopes() {
        if prefix.scope_quant(s + 1) == Some(Quant::Exists) {
            to.push('e')?;
        } else {
            to.push('a')?;
        }
        for v in prefix.vars_of(s + 1) {
            write!(to, " {}", v.number())?;
        }
        to.push('/')?;
    }
    Ok(())
}

// Writes a clause.
fn write_clause(lits: &[Lit], to: &mut String) -> Result<(), Fail> {
    for lit in lits {
        write!(to, "{} ", lit.number())?;
    }
    to.push_str("0/")?;
    Ok(())
}

// Writes the scopes and the clauses of a formula, with its declared numbers.
fn write_whole(f: &Formula, to: &mut String) -> Result<(), Fail> {
    write!(to, "{} {}/", f.declared_vars, f.declared_clauses)?;
    write_prefix(&f.prefix, to)?;
    for clause in f.clauses.clauses() {
        write_clause(clause.lits(), to)?;
    }
    Ok(())
}

// The formula of a text, or its refusal.
fn read(alloc: Global, text: &str) -> Result<Result<Formula, ReadRefusal>, Fail> {
    let mut desk = desk_with(alloc, text.as_bytes(), 7)?;
    Ok(read_formula(alloc, &mut desk))
}

// Whether a text is read as the formula that is written so.
fn is_read(alloc: Global, text: &str, want: &str) -> Result<bool, Fail> {
    let f = read(alloc, text)??;
    let mut found = String::new(alloc);
    write_whole(&f, &mut found)?;
    Ok(found.as_str() == want)
}

#[test]
fn texts_are_read_as_their_formulas(rt: HostRuntime) -> Result<(), Fail> {
    let alloc = rt.alloc();
    for (text, want) in [
        ("p cnf 0 0\n", "0 0/"),
        ("p cnf 0 1\n0\n", "0 1/0/"),
        (
            "p cnf 2 2\na 1 0\n1 2 0\n-1 -2 0\n",
            "2 2/e 2/a 1/1 2 0/-1 -2 0/",
        ),
        (
            "p cnf 2 2\na 1 0\ne 2 0\n1 -1 2 0\n2 2 0\n",
            "2 2/a 1/e 2/2 0/",
        ),
        (
            "p cnf 9 3\ne 3 0\na 0\ne 1 0\na 5 4 0\n2 -7 -3 2 0\n8 -8 0\n 0\n",
            "9 3/e 1 2 3 7 8/a 4 5/2 -3 -7 0/0/",
        ),
        (
            "c x\r\np cnf 1 1\r\ne 1 0\nc inside\n1\n0\r\n",
            "1 1/e 1/1 0/",
        ),
        ("p cnf 1048576 0\n", "1048576 0/"),
    ] {
        assert!(rt; is_read(alloc, text, want)?, "{text:?}");
    }
    Ok(())
}

#[test]
fn texts_are_refused_with_number_and_line(rt: HostRuntime) -> Result<(), Fail> {
    let alloc = rt.alloc();
    for (text, number, line) in [
        ("", 10, 1),
        ("\nq cnf 1 0\n", 10, 2),
        ("p cnf 1\n", 11, 1),
        ("p cnf 1 0 0\n", 11, 1),
        ("p cnf 1 1\n2 0\n", 12, 2),
        ("p cnf 1 0\ne 1 0\na 1 0\n", 13, 3),
        ("p cnf 1 1\n1 0\ne 1 0\n", 14, 3),
        ("p cnf 1 1\n1", 15, 2),
        ("p cnf 1 2\n1 0\n", 16, 3),
        ("p cnf 1 1\n1 0\n1 0\n", 17, 3),
        ("p cnf 1 1\nx 0\n", 18, 2),
        ("p cnf 1 1\n1 -0\n", 18, 2),
        ("p cnf 1 1\n\u{e9} 0\n", 7, 2),
        ("p cnf 1 1\n99999999999999999999 0\n", 8, 2),
    ] {
        let want = ReadRefusal::Refused { number, line };
        assert!(rt; read(alloc, text)?.err() == Some(want), "{text}");
    }
    for (text, quantity) in [
        ("p cnf 1048577 0\n", Quantity::Variables),
        ("p cnf 1 16777217\n1 0\n", Quantity::Clauses),
    ] {
        let want = ReadRefusal::Limit { quantity, line: 1 };
        assert!(rt; read(alloc, text)?.err() == Some(want), "{text}");
    }
    Ok(())
}
