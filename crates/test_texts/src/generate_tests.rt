//! Formulas of some seeds.
ghost use Rattle.std.specs.Prelude.{◌≤◌};

use generate::make;
use memory::NoMemory;
use prefix::{Lit, LitList, Prefix, Quant};
use std::alloc::{AllocError, Global};
use std::test::Fail;
use truth::{ClauseList, Formula};

// Puts the numbers of literals, and 0, behind others.
fn push_row(numbers: &mut Vec<i32>, row: &LitList) -> Result<(), AllocError> {
    for lit in row.lits() {
        numbers.push(lit.number())?;
    }
    numbers.push(0)?;
    Ok(())
}

// The same for each row of a list.
fn push_rows(numbers: &mut Vec<i32>, list: &ClauseList) -> Result<(), AllocError> {
    for row in list.clauses() {
        push_row(numbers, row)?;
    }
    Ok(())
}

// The numbers of a formula's literals, with 0 behind each clause.
fn clauses_of(alloc: Global, seed: u32, vars: u32, clauses: u32) -> Result<Vec<i32>, NoMemory>
    requires low { 3 ≤ vars }
    requires high { vars ≤ 32000 }
    requires count { clauses ≤ 1000000 }
{
    let f = make(alloc, seed, vars, clauses)?;
    let mut numbers = Vec::new(alloc);
    push_rows(&mut numbers, &f.clauses)?;
    Ok(numbers)
}

#[test]
fn short_formulas_have_these_clauses(rt: HostRuntime) -> Result<(), Fail> {
    let cases = [
        (0, 3, 1, [-1, 2, -3, 0].as_slice()),
        (1, 4, 2, [-1, -3, -4, 0, -1, 3, -4, 0].as_slice()),
        (2_147_483_648, 3, 1, [-1, 2, -3, 0].as_slice()),
        (7, 3, 0, [].as_slice()),
    ];
    for (seed, vars, clauses, want) in cases {
        assert_eq!(rt;
            clauses_of(rt.alloc(), seed, vars, clauses)?.as_slice(),
            want,
            "seed {seed}"
        );
    }
    Ok(())
}

// A scope's quantifier and how many variables it has, with the first of them.
fn scope_of(prefix: &Prefix, number: usize) -> Option<(Quant, u32, usize)> {
    let quant = prefix.scope_quant(number)?;
    let vars = prefix.vars_of(number);
    Some((quant, vars.first()?.number(), vars.len()))
}

// Whether 32,000 variables are shared out, and no clause is declared.
fn has_thirds(f: &Formula) -> bool {
    scope_of(&f.prefix, 1) == Some((Quant::Exists, 1, 10_666))
        && scope_of(&f.prefix, 2) == Some((Quant::Forall, 10_667, 10_666))
        && scope_of(&f.prefix, 3) == Some((Quant::Exists, 21_333, 10_668))
        && (f.declared_vars, f.declared_clauses) == (32_000, 0)
}

#[test]
fn scopes_take_thirds(rt: HostRuntime) -> Result<(), Fail> {
    let f = make(rt.alloc(), 1, 32_000, 0)?;
    assert!(rt; has_thirds(&f));
    Ok(())
}

// A number that stands for literals, behind one for those before them.
fn mixed(sum: u32, lits: &[Lit]) -> u32 {
    let mut sum = sum;
    for lit in lits {
        let code = 2 * lit.var().number() + u32::from(lit.is_positive());
        sum = sum.wrapping_mul(31).wrapping_add(code);
    }
    sum
}

// The number for all rows of a list.
fn sum_of(list: &ClauseList) -> u32 {
    let mut sum = 0;
    for row in list.clauses() {
        sum = mixed(sum, row.lits());
    }
    sum
}

// The sums were taken from another program.
#[test]
fn longer_formulas_have_these_sums(rt: HostRuntime) -> Result<(), Fail> {
    for (seed, vars, want) in [
        (4_294_967_295, 32_000, 2_979_961_756),
        (7, 12, 1_569_948_740),
    ] {
        let f = make(rt.alloc(), seed, vars, 1_000)?;
        let found = (sum_of(&f.clauses), f.clauses.clauses().len());
        assert!(rt; found == (want, 1_000), "seed {seed}");
    }
    Ok(())
}
