//! The matrix while the clauses come.
ghost use Rattle.std.specs.Prelude.{◌≡◌, ◌<◌, ◌≤◌, ◌+◌, ◌^◌, [], ◌∷◌, ◌++◌, set, length, true, OnOk, nat_abs, List, ℤ, All};
ghost use Rattle.qdimacs.specs.Kept.{with_clause, literal_rules_kept, Checks};
ghost use Rattle.clauses.specs.Codes.{code_of as code_of_literal, codes_of};
ghost use Rattle.std.specs.List.{AllByRecursion};
ghost use Rattle.qdimacs.specs.Rules.{first_of};

use crate::refusal::{VARIABLE_RANGE, beyond, refused};
use clauses::{code_of, row_of_codes};
use prefix::LitList;
use reading::{Quantity, ReadRefusal};
use std::alloc::{AllocError, Global};

// The greatest number of literals.
const MAX_LITERALS: usize = 268_435_456;

// The rows of the clauses that ended, and how many ended; the codes of the literals of one that hasn't ended; how many
// literals there were, and whether each declared number occurs.
#[derive(Drop)]
pub(crate) struct Clauses {
    pub(crate) rows: Vec<LitList>,
    pub(crate) ended: u64,
    pub(crate) begun: Vec<u32>,
    pub(crate) amount: usize,
    pub(crate) marks: Vec<bool>,
}

impl Clauses {
    // No clause yet, and no mark.
    pub(crate) fn new(alloc: Global) -> Self
        ensures rows { result.rows.items ≡ [] }
        ensures ended { result.ended ≡ 0 }
        ensures begun { result.begun.items ≡ [] }
        ensures amount { result.amount ≡ 0 }
        ensures marks { result.marks.items ≡ [] }
    {
        Self {
            rows: Vec::new(alloc),
            ended: 0,
            begun: Vec::new(alloc),
            amount: 0,
            marks: Vec::new(alloc),
        }
    }

    // Whether the next number of a clause, which isn't 0, is a literal that may stand there.
    pub(crate) fn check(&self, vars: u64, n: i64, line: u32) -> Result<(), ReadRefusal>
        ensures { Checks result (first_of (literal_rules_kept vars self.now.amount n line)) }
    {
        if n.unsigned_abs() > vars {
            return Err(refused(VARIABLE_RANGE, line));
        }
        if self.amount >= MAX_LITERALS {
            return Err(beyond(Quantity::Literals, line));
        }
        Ok(())
    }

    // Puts a literal behind the last.
    pub(crate) fn push(&mut self, n: i64) -> Result<(), AllocError>
        requires marked { nat_abs n < length self.old.marks.items }
        requires small { nat_abs n ≤ 1048576 }
        requires room { self.old.amount < 2 ^ 28 }
        ensures begun { OnOk result (self.new.begun.items ≡ self.old.begun.items ++ code_of_literal n ∷ []) }
        ensures amount { OnOk result (self.new.amount ≡ self.old.amount + 1) }
        ensures marks { OnOk result (self.new.marks.items ≡ set self.old.marks.items (nat_abs n) true) }
        ensures rows { self.new.rows.items ≡ self.old.rows.items }
        ensures ended { self.new.ended ≡ self.old.ended }
    {
        self.begun.push(code_of(n))?;
        self.amount += 1;
        self.marks[n.unsigned_abs() as usize] = true;
        Ok(())
    }

    // Ends the clause.
    pub(crate) fn end(&mut self) -> Result<(), AllocError>
        requires few { self.old.ended < 2 ^ 24 }
        requires codes { All (λ c. (2 ≤ c) × (c < 2097154)) self.old.begun.items }
        ensures rows { OnOk result ((clause : List ℤ) → AllByRecursion (λ n. 0 < nat_abs n) clause
            → self.old.begun.items ≡ codes_of clause → self.new.rows.items ≡ with_clause clause self.old.rows.items) }
        ensures begun { OnOk result (self.new.begun.items ≡ []) }
        ensures ended { OnOk result (self.new.ended ≡ self.old.ended + 1) }
        ensures amount { self.new.amount ≡ self.old.amount }
        ensures marks { self.new.marks.items ≡ self.old.marks.items }
    {
        let row = row_of_codes(*self.rows.allocator(), &mut self.begun)?;
        if let Some(row) = row {
            self.rows.push(row)?;
        }
        self.begun.clear();
        self.ended += 1;
        Ok(())
    }
}
