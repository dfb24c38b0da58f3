//! The row of a clause, by sorting. By their codes one sort brings literals in order, and repeats and both signs of a
//! variable side by side.
ghost use Rattle.std.specs.Prelude.{◌≡◌, ◌<◌, ◌≤◌, List, ℤ, map, All, OnOk, IfOk, nat_abs};
ghost use Rattle.std.specs.List.{AllByRecursion};
ghost use Rattle.clauses.specs.Clause.{row_unless_tautology};
ghost use Rattle.clauses.specs.Codes.{IsInRange, code_of as code_of_literal, codes_of as codes_of_clause, has_pair, literal_of};

use prefix::{Lit, LitList, Var};
use std::alloc::{AllocError, Global};

/// The literals of a clause once each, ascending by variable; none where a literal stands beside its negation.
///
/// The numbers are those of literals, as QDIMACS 1.1 writes them: a variable's number, negative for its negation. The
/// time is that of sorting them.
pub fn row_of(alloc: Global, numbers: &[i64]) -> Result<Option<LitList>, AllocError>
    requires { AllByRecursion IsInRange numbers.now }
    ensures { IfOk result (λ row. row ≡ row_unless_tautology numbers.now) }
{
    let mut codes = codes_of(alloc, numbers)?;
    let row = row_of_codes(alloc, &mut codes)?;
    Ok(row)
}

/// The row of a clause whose literals come by their codes, as `row_of` answers it. The codes are sorted where they
/// stand, so that a caller who has put them together needs no list of numbers beside them.
pub fn row_of_codes(alloc: Global, codes: &mut Vec<u32>) -> Result<Option<LitList>, AllocError>
    requires { All (λ c. (2 ≤ c) × (c < 2097154)) codes.old.items }
    ensures { IfOk result (λ row. (clause : List ℤ) → AllByRecursion (λ n. 0 < nat_abs n) clause →
        codes.old.items ≡ codes_of_clause clause → row ≡ row_unless_tautology clause) }
{
    codes.sort_unstable();
    codes.dedup();
    if has_both_signs(codes) {
        return Ok(None);
    }
    let row = literals_of(alloc, codes)?;
    Ok(Some(row))
}

// The codes of the literals.
fn codes_of(alloc: Global, numbers: &[i64]) -> Result<Vec<u32>, AllocError>
    requires { AllByRecursion IsInRange numbers.now }
    ensures { IfOk result (λ codes. codes.items ≡ codes_of_clause numbers.now) }
{
    let mut codes = Vec::new(alloc);
    codes.reserve(numbers.len())?;
    for n in numbers {
        codes.push(code_of(*n))?;
    }
    Ok(codes)
}

/// The code of a literal: twice its variable, and one more where it is positive.
pub fn code_of(n: i64) -> u32
    requires { nat_abs n ≤ 1048576 }
    ensures { result ≡ code_of_literal n }
{
    let v = n.unsigned_abs() as u32;
    if n >= 0 { 2 * v + 1 } else { 2 * v }
}

// Whether the codes of both literals of a variable stand side by side.
fn has_both_signs(codes: &[u32]) -> bool
    ensures { result ≡ has_pair codes.now }
{
    for i in 1..codes.len() {
        if codes[i - 1] / 2 == codes[i] / 2 {
            return true;
        }
    }
    false
}

// The literals of codes.
fn literals_of(alloc: Global, codes: &[u32]) -> Result<LitList, AllocError>
    requires { All (λ c. (2 ≤ c) × (c < 2097154)) codes.now }
    ensures { IfOk result (λ row. row ≡ map literal_of codes.now) }
{
    let mut lits = Vec::new(alloc);
    for code in codes {
        if let Some(v) = Var::new(*code / 2) {
            lits.push(Lit::new(v, *code % 2 == 1))?;
        }
    }
    LitList::from_vec(lits)
}
