//! Variables, literals and formulas of numbers.
use prefix::{Lit, LitList, Prefix, Quant, Var};
use std::alloc::Global;
use std::mem;
use std::test::Fail;
use truth::{ClauseList, Formula};

// The variable with this number.
pub(crate) fn variable(n: u32) -> Result<Var, Fail> {
    Ok(Var::new(n).ok_or("range")?)
}

// The literal with this number.
pub(crate) fn literal(n: i32) -> Result<Lit, Fail> {
    Ok(Lit::new(variable(n.unsigned_abs())?, n > 0))
}

// The clauses with these literals, each ended by 0.
pub(crate) fn clause_list(alloc: Global, numbers: &[i32]) -> Result<ClauseList, Fail> {
    let mut list = ClauseList::new(alloc);
    let mut lits = Vec::new(alloc);
    for n in numbers {
        if *n == 0 {
            list.push(LitList::from_vec(mem::replace(&mut lits, Vec::new(alloc)))?)?;
            continue;
        }
        lits.push(literal(*n)?)?;
    }
    Ok(list)
}

// The prefix of these scopes, of one variable each.
pub(crate) fn prefix_of(alloc: Global, scopes: &[(Quant, u64)]) -> Result<Prefix, Fail> {
    let mut prefix = Prefix::new(alloc);
    for (quant, var) in scopes {
        prefix.add_scope(*quant, None)?;
        prefix.add_var(*var, prefix.scopes() as u64)?;
    }
    Ok(prefix)
}

// The formula of these scopes, of one variable each, and these clauses, each ended by 0.
pub(crate) fn formula(
    alloc: Global,
    scopes: &[(Quant, u64)],
    clauses: &[i32],
) -> Result<Formula, Fail> {
    Ok(Formula {
        prefix: prefix_of(alloc, scopes)?,
        clauses: clause_list(alloc, clauses)?,
        declared_vars: 0,
        declared_clauses: 0,
    })
}
