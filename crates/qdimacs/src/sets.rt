//! The scopes while the sets come.
ghost use Rattle.std.specs.Prelude.{◌≡◌, ◌<◌, ◌≤◌, ◌+◌, ◌^◌, [], ◌∷◌, ◌++◌, set, length, true, OnOk, OnErr, IfOk, IsOkUnless, map};
ghost use Rattle.qdimacs.specs.Kept.{sets_of, with_last, put_last, last_differs, variable_rules_kept, put_front, Checks, AreScopes};
ghost use Rattle.qdimacs.specs.Rules.{first_of};
ghost use Rattle.qdimacs.specs.Formula.{in_order, same_quant};

use crate::refusal::{VARIABLE_RANGE, VARIABLE_TWICE, beyond, refused};
use builder::add_scope;
use prefix::{Prefix, PrefixRefusal, Quant};
use reading::{Quantity, ReadRefusal};
use std::alloc::{AllocError, Global};

/// A scope: its variables in the order of the text.
#[derive(Drop)]
pub struct Row {
    /// Its quantifier.
    pub quant: Quant,
    /// The numbers of its variables.
    pub vars: Vec<u32>,
}

/// The scopes of the sets so far, neighbours of one quantifier merged and empty sets left out, and a mark for each
/// number that is known.
#[derive(Drop)]
pub struct Sets {
    /// The scopes, the outermost first.
    pub rows: Vec<Row>,
    /// Whether each number is known.
    pub marks: Vec<bool>,
}

impl Sets {
    /// No set yet, and no mark. This takes no memory.
    pub fn new(alloc: Global) -> Self
        ensures rows { result.rows.items ≡ [] }
        ensures marks { result.marks.items ≡ [] }
    {
        Self {
            rows: Vec::new(alloc),
            marks: Vec::new(alloc),
        }
    }

    /// Whether a variable of this quantifier begins a scope.
    pub fn begins_scope(&self, quant: Quant) -> bool
        ensures { result ≡ last_differs quant (sets_of self.now.rows.items) }
    {
        let n = self.rows.len();
        n == 0 || !same(self.rows[n - 1].quant, quant)
    }

    // Whether the next number of a set, which isn't 0, is a variable that may stand there.
    pub(crate) fn check(
        &self,
        vars: u64,
        quant: Quant,
        n: i64,
        line: u32,
    ) -> Result<(), ReadRefusal>
        requires marked { length self.now.marks.items ≡ vars + 1 }
        requires few { vars ≤ 1048576 }
        ensures { Checks result (first_of (variable_rules_kept vars self.now.marks.items
            (sets_of self.now.rows.items) quant n line)) }
    {
        if n < 0 || n as u64 > vars {
            return Err(refused(VARIABLE_RANGE, line));
        }
        if self.marks[n as usize] {
            return Err(refused(VARIABLE_TWICE, line));
        }
        if self.begins_scope(quant) && self.rows.len() >= Prefix::MAX_SCOPES {
            return Err(beyond(Quantity::Scopes, line));
        }
        Ok(())
    }

    /// Puts a variable behind the last, and marks it. With no memory the scopes and marks stay.
    pub fn push(&mut self, quant: Quant, v: u32) -> Result<(), AllocError>
        requires { v < length self.old.marks.items }
        ensures rows { OnOk result (sets_of self.new.rows.items ≡ put_last quant v (sets_of self.old.rows.items)) }
        ensures marks { OnOk result (self.new.marks.items ≡ set self.old.marks.items v true) }
        ensures err { OnErr result (sets_of self.new.rows.items ≡ sets_of self.old.rows.items) }
        ensures unmarked { OnErr result (self.new.marks.items ≡ self.old.marks.items) }
    {
        if self.begins_scope(quant) {
            begin_scope(&mut self.rows, quant, v)?;
        } else {
            join_last(&mut self.rows, v)?;
        }
        self.marks[v as usize] = true;
        Ok(())
    }

    // Puts variables in front, under an outermost existential quantifier.
    pub(crate) fn put_in_front(&mut self, free: Vec<u32>) -> Result<(), AllocError>
        ensures { OnOk result (sets_of self.new.rows.items ≡ put_front free.items (sets_of self.old.rows.items)) }
    {
        if free.is_empty() {
            return Ok(());
        }
        if !self.rows.is_empty() && same(self.rows[0].quant, Quant::Exists) {
            let row = &mut self.rows[0];
            row.vars.extend_from_slice(&free)?;
            return Ok(());
        }
        let row = Row {
            quant: Quant::Exists,
            vars: free,
        };
        self.rows.insert(0, row)?;
        Ok(())
    }

    /// The prefix of the scopes. It sorts the variables of each. Fails for want of memory alone.
    pub fn prefix(&mut self) -> Result<Prefix, PrefixRefusal>
        requires { AreScopes (sets_of self.old.rows.items) }
        ensures scopes { IfOk result (λ p. p ≡ map in_order (sets_of self.old.rows.items)) }
        // The scopes stay, whatever the answer, but for the order of their variables.
        ensures same { map in_order (sets_of self.new.rows.items) ≡ map in_order (sets_of self.old.rows.items) }
        ensures marks { self.new.marks ≡ self.old.marks }
        ensures memory { IsOkUnless result PrefixRefusal.NoMemory }
    {
        let mut prefix = Prefix::new(*self.rows.allocator());
        for i in 0..self.rows.len() {
            let row = &mut self.rows[i];
            row.vars.sort_unstable();
            add_scope(&mut prefix, row.quant, &row.vars)?;
        }
        Ok(prefix)
    }
}

// Puts in a row of one variable as the last.
fn begin_scope(rows: &mut Vec<Row>, quant: Quant, v: u32) -> Result<(), AllocError>
    ensures ok { OnOk result (sets_of rows.new.items ≡ sets_of rows.old.items ++ (quant, v ∷ []) ∷ []) }
    ensures err { OnErr result (rows.new.items ≡ rows.old.items) }
{
    let mut vars = Vec::new(*rows.allocator());
    vars.push(v)?;
    rows.push(Row { quant, vars })?;
    Ok(())
}

// Puts a variable into the last row.
fn join_last(rows: &mut Vec<Row>, v: u32) -> Result<(), AllocError>
    requires { 0 < length rows.old.items }
    ensures ok { OnOk result (sets_of rows.new.items ≡ with_last v (sets_of rows.old.items)) }
    ensures err { OnErr result (sets_of rows.new.items ≡ sets_of rows.old.items) }
{
    let last = rows.len() - 1;
    let row = &mut rows[last];
    row.vars.push(v)?;
    Ok(())
}

// Whether two quantifiers are the same.
fn same(a: Quant, b: Quant) -> bool
    ensures { result ≡ same_quant a b }
{
    a == b
}
