//! The rows of a formula while its clauses come, as circuit literals.
ghost use Rattle.std.specs.Prelude.{◌≡◌, ◌≢◌, ◌<◌, ◌≤◌, ◌+◌, ◌^◌, ◌||◌, [], ◌∷◌, ◌++◌, length, List, ℕ, All, OnOk, OnErr, IfOk};
ghost use Rattle.prefix.specs.Scopes.{IsAscending, is_among};
ghost use Rattle.clauses.specs.Codes.{has_pair};
ghost use Rattle.builder.specs.Building.{Adds, AreFew, Builds, IsFinish, capped, has_one, no_rows, row_of_sorted};
ghost use Rattle.builder.specs.Rows.{rows_of};

use crate::beyond::Beyond;
use prefix::{Lit, LitList, Var};
use std::alloc::{AllocError, Global};
use std::marker::Model;
use truth::ClauseList;

/// The rows of a formula while its clauses come, each as circuit literals.
///
/// A circuit literal is a number, as AIGER 1.9 writes it: 2v is variable v and 2v + 1 its negation, 0 is false and 1 is
/// true. A clause with the constant true, or with both signs of a variable, has no row; the constant false is left out
/// of its clause, and a repeat counts once. A row ascends by variable.
///
/// Rows are kept as long as they are within the limits, and counted beyond them.
#[derive(Debug, Drop)]
pub struct RowBuilder {
    rows: Vec<LitList>,
    // How many rows there are, and how many literals they have, also beyond the limits.
    count: u64,
    amount: u64,
}

impl Model for RowBuilder {
    ghost use Rattle.builder.specs.Building.{IsCounted, Kept};

    ghost Value = { Kept };

    ghost view = { λ b. record { rows = b.rows.items; count = b.count; amount = b.amount } };

    ghost invariant = { λ b. IsCounted (record { rows = b.rows.items; count = b.count; amount = b.amount }) };
}

impl RowBuilder {
    /// The greatest number of rows.
    pub const MAX_CLAUSES: u64 = 16_777_216;

    /// The greatest number of literals of all rows together.
    pub const MAX_LITERALS: u64 = 268_435_456;

    /// No row. This takes no memory.
    pub fn new(alloc: Global) -> Self
        ensures { result ≡ no_rows }
    {
        Self {
            rows: Vec::new(alloc),
            count: 0,
            amount: 0,
        }
    }

    /// Puts in a clause of constants and of literals of variables up to `Var::MAX`, and empties it. It takes the time
    /// of sorting them. After want of memory the rows are as before, and the clause is empty too.
    pub fn put(&mut self, clause: &mut Vec<u32>) -> Result<(), AllocError>
        requires { All (λ n. n < 2097154) clause.old.items }
        ensures adds { OnOk result (Adds self.old self.new (clause.old.items ∷ [])) }
        ensures err { OnErr result (self.new ≡ self.old) }
        ensures empty { clause.new.items ≡ [] }
    {
        clause.sort_unstable();
        clause.dedup();
        let answer = self.put_sorted(clause);
        clause.clear();
        answer
    }

    // Puts in a clause that ascends.
    fn put_sorted(&mut self, codes: &[u32]) -> Result<(), AllocError>
        requires below { All (λ n. n < 2097154) codes.now }
        requires ascending { IsAscending codes.now }
        // It stands for each clause of the same literals.
        ensures adds { OnOk result ((clause : List ℕ) → ((n : ℕ) → is_among n codes.now ≡ is_among n clause)
            → Adds self.old self.new (clause ∷ [])) }
        ensures err { OnErr result (self.new ≡ self.old) }
    {
        if is_left_out(codes) {
            return Ok(());
        }
        let row = row_of(*self.rows.allocator(), codes)?;
        self.add(row)
    }

    // Puts a row behind the last, and counts it, or counts it alone where it goes beyond a limit.
    fn add(&mut self, row: LitList) -> Result<(), AllocError>
        ensures count { OnOk result (self.new.count ≡ capped (self.old.count + 1)) }
        ensures amount { OnOk result (self.new.amount ≡ capped (self.old.amount + length row)) }
        ensures rows { OnOk result (self.new.count ≤ 2 ^ 24 → self.new.amount ≤ 2 ^ 28 →
            self.new.rows ≡ self.old.rows ++ row ∷ []) }
        ensures err { OnErr result (self.new ≡ self.old) }
    {
        let count = self.count.saturating_add(1);
        let amount = self.amount.saturating_add(row.lits().len() as u64);
        if count <= Self::MAX_CLAUSES && amount <= Self::MAX_LITERALS {
            self.rows.push(row)?;
        }
        self.count = count;
        self.amount = amount;
        Ok(())
    }

    /// The rows, or the limit that they go beyond: that of clauses, or else that of literals. This takes no memory.
    pub fn finish(self) -> Result<ClauseList, Beyond>
        ensures rows { (clauses : List (List ℕ)) → Builds self clauses → IsFinish result (rows_of clauses) }
        ensures few { IfOk result AreFew }
    {
        if self.count > Self::MAX_CLAUSES {
            return Err(Beyond::Clauses);
        }
        if self.amount > Self::MAX_LITERALS {
            return Err(Beyond::Literals);
        }
        Ok(ClauseList::from_vec(self.rows))
    }
}

// Whether a clause that ascends has no row: it has the constant true, or both signs of a variable.
fn is_left_out(codes: &[u32]) -> bool
    ensures { result ≡ (has_one codes.now || has_pair codes.now) }
{
    if codes.first() == Some(&1) {
        return true;
    }
    has_both_signs(codes)
}

// Whether both literals of a variable, or both constants, stand side by side.
fn has_both_signs(codes: &[u32]) -> bool
    ensures { result ≡ has_pair codes.now }
{
    for i in 1..codes.len() {
        if codes[i - 1] / 2 == codes[i] / 2 {
            return true;
        }
    }
    false
}

// The literals of a clause that ascends; 0 is none.
fn row_of(alloc: Global, codes: &[u32]) -> Result<LitList, AllocError>
    requires below { All (λ n. n < 2097154) codes.now }
    requires none { All (λ n. n ≢ 1) codes.now }
    ensures { IfOk result (λ row. row ≡ row_of_sorted codes.now) }
{
    let mut lits = Vec::new(alloc);
    lits.reserve(codes.len())?;
    for code in codes {
        if let Some(v) = Var::new(*code / 2) {
            lits.push(Lit::new(v, *code % 2 == 0))?;
        }
    }
    LitList::from_vec(lits)
}
