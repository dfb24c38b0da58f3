//! The values tried so far.
ghost use Rattle.std.specs.Prelude.{◌≡◌, ◌↔◌, ℕ, ◌<◌, ◌≤◌, [], ◌∷◌, ◌++◌, length, OnOk, OnErr, IfOk, MatchOption, IsTrue, Some, None, false, IfSome, slice_get};
ghost use Rattle.std.specs.List.{AllByRecursion};
ghost use Rattle.std.specs.Option.{option_map};
ghost use Rattle.truth.specs.Matrix.{no_values, matrix_true};
ghost use Rattle.prefix.specs.Scopes.{prefix_order, BoundVariable};
ghost use Rattle.truth.specs.Search.{assigned, values_of};
ghost use Rattle.truth.specs.Order.{bounds_of};

use super::leaf::is_matrix_true;
use super::order::{BoundVar, order_of};
use prefix::{LitList, Prefix, Quant};
use std::alloc::{AllocError, Global};
use std::marker::Model;

// The variables of a prefix in order, and the values of the first of them.
#[derive(Debug, Drop)]
pub(crate) struct Search {
    order: Vec<BoundVar>,
    tried: Vec<bool>,
    table: Vec<Option<bool>>,
}

impl Model for Search {
    ghost use Rattle.truth.specs.Search.{Tried};

    ghost Value = { Tried };

    ghost use Rattle.truth.specs.Order.{bounds_of};
    ghost use Rattle.truth.specs.Search.{IsSearch};

    ghost view = { λ s. record { order = bounds_of s.order.items; values = s.tried.items } };

    ghost invariant = { λ s. IsSearch (bounds_of s.order.items) s.tried.items s.table.items };
}

impl Search {
    // No value is tried yet.
    pub(crate) fn new(alloc: Global, prefix: &Prefix) -> Result<Self, AllocError>
        ensures { IfOk result (λ search. search ≡ record { order = prefix_order prefix.now; values = [] }) }
    {
        let order = order_of(alloc, prefix)?;
        let table = empty_table(alloc, &order)?;
        Ok(Self {
            order,
            tried: Vec::new(alloc),
            table,
        })
    }

    // Whether every variable has a value.
    pub(crate) fn is_full(&self) -> bool
        ensures full { IsTrue result ↔ (length self.now.values ≡ length self.now.order) }
        ensures open { result ≡ false → length self.now.values < length self.now.order }
    {
        self.tried.len() == self.order.len()
    }

    // Whether every clause is true under the values.
    pub(crate) fn satisfies(&self, clauses: &[LitList]) -> bool
        ensures { result ≡ matrix_true (assigned self.now.order self.now.values no_values) clauses.now }
    {
        is_matrix_true(&self.table, clauses)
    }

    // Gives the next variable a value.
    pub(crate) fn choose(&mut self, value: bool) -> Result<(), AllocError>
        requires { length self.old.values < length self.old.order }
        ensures ok { OnOk result (self.new ≡ record self.old { values = self.old.values ++ value ∷ [] }) }
        ensures err { OnErr result (self.new ≡ self.old) }
    {
        let number = self.order[self.tried.len()].var.number() as usize;
        self.tried.push(value)?;
        self.table[number] = Some(value);
        Ok(())
    }

    // Takes back the last value, with the quantifier of its variable.
    pub(crate) fn take_back(&mut self) -> Option<(Quant, bool)>
        ensures none { result ≡ None → self.new ≡ self.old }
        ensures first { result ≡ None → self.old.values ≡ [] }
        ensures order { self.new.order ≡ self.old.order }
        ensures some { IfSome result (λ r. self.old.values ≡ self.new.values ++ r.1 ∷ []) }
        ensures quantifier { IfSome result (λ r.
            option_map (λ (x : BoundVariable). x.quantifier) (slice_get self.new.order (length self.new.values))
            ≡ Some r.0) }
    {
        let value = self.tried.pop()?;
        let bound = &self.order[self.tried.len()];
        self.table[bound.var.number() as usize] = None;
        Some((bound.quant, value))
    }
}

// A table without values, with a place for each variable.
fn empty_table(alloc: Global, order: &[BoundVar]) -> Result<Vec<Option<bool>>, AllocError>
    ensures empty { IfOk result (λ table. (v : ℕ) → values_of table.items v ≡ no_values v) }
    ensures covers { IfOk result (λ table.
        AllByRecursion (λ (x : BoundVariable). x.variable < length table.items) (bounds_of order.now)) }
{
    let mut table = Vec::new(alloc);
    for bound in order {
        make_room(&mut table, bound.var.number() as usize)?;
    }
    Ok(table)
}

// Makes the table longer than a number, with no value for what is new.
fn make_room(table: &mut Vec<Option<bool>>, number: usize) -> Result<(), AllocError>
    requires { number ≤ 1048576 }
    ensures same { (v : ℕ) → values_of table.new.items v ≡ values_of table.old.items v }
    ensures longer { length table.old.items ≤ length table.new.items }
    ensures ok { OnOk result (number < length table.new.items) }
{
    if table.len() <= number {
        table.resize(number + 1, None)?;
    }
    Ok(())
}
