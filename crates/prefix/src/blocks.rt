//! The scopes of a prefix, each under an id that stays. In a sorted list a variable would move all that are greater: in
//! descending order 262,144 of them took 39 s, where the tree takes 0.1 s.
ghost use Rattle.std.specs.Prelude.{◌≡◌, ◌≤◌, ◌<◌, not, filter, [], ◌==◌, None, false, length, insert, slice_get, slice_index, slice_index_or, IfOk, OnOk, OnErr};
ghost use Rattle.std.specs.List.{AllByRecursion};
ghost use Rattle.std.specs.Option.{option_map};
ghost use Rattle.prefix.specs.Scopes.{Scope, is_among, level_of, with_variable_at, IsAscending, insert_ascending};
ghost use Rattle.prefix.specs.Blocks.{IsTakenOut};

use super::{Quant, Var};
use std::alloc::{AllocError, Global};
use std::collections::BTreeSet;
use std::marker::Model;

// A scope.
#[derive(Debug, Drop)]
struct Block {
    quant: Quant,
    vars: BTreeSet<Var>,
}

// Scopes in order. One that is put in has the next id, and moves four bytes of each that comes after it.
#[derive(Debug, Drop)]
pub(crate) struct Blocks {
    // The scopes, by id.
    blocks: Vec<Block>,
    // The ids, in the order of the scopes.
    order: Vec<u32>,
}

impl Model for Blocks {
    ghost use Rattle.prefix.specs.Blocks.{Ordered};

    ghost Value = { Ordered };

    ghost use Rattle.std.specs.Prelude.{length};
    ghost use Rattle.prefix.specs.Blocks.{made_of, scopes_of, IsOrder};

    ghost view = { λ b. record { scopes = scopes_of (made_of b.blocks.items) b.order.items; ids = b.order.items } };

    ghost invariant = { λ b. IsOrder (length b.blocks.items) b.order.items };
}

impl Blocks {
    // No scopes.
    pub(crate) fn new(alloc: Global) -> Self
        ensures { result ≡ record { scopes = []; ids = [] } }
    {
        Self {
            blocks: Vec::new(alloc),
            order: Vec::new(alloc),
        }
    }

    // How many scopes there are.
    pub(crate) fn len(&self) -> usize
        ensures scopes { result ≡ length self.now.scopes }
        ensures ids { result ≡ length self.now.ids }
    {
        self.order.len()
    }

    // The quantifier of the scope at a place; none exactly where there is none.
    pub(crate) fn quant(&self, place: usize) -> Option<Quant>
        ensures { result ≡ option_map (λ (s : Scope). s.quantifier) (slice_get self.now.scopes place) }
    {
        let id = *self.order.get(place)?;
        Some(self.blocks[id as usize].quant)
    }

    // The variables of the scope at a place.
    pub(crate) fn vars(&self, place: usize) -> &BTreeSet<Var>
        requires { place < length self.now.scopes }
        ensures { (d : Scope) → result.now.keys ≡ (slice_index_or self.now.scopes place d).variables }
    {
        &self.blocks[self.order[place] as usize].vars
    }

    // Puts in a scope without variables.
    pub(crate) fn put_scope(&mut self, place: usize, quant: Quant) -> Result<(), AllocError>
        requires place { place ≤ length self.old.ids }
        requires few { length self.old.ids < 65536 }
        ensures scopes { OnOk result (self.new.scopes ≡ insert self.old.scopes place
            (record { quantifier = quant; variables = [] })) }
        ensures ids { OnOk result (self.new.ids ≡ insert self.old.ids place (length self.old.ids)) }
        ensures err { OnErr result (self.new ≡ self.old) }
    {
        let id = self.blocks.len() as u32;
        self.order.reserve(1)?;
        self.blocks.push(Block {
            quant,
            vars: BTreeSet::new(*self.order.allocator()),
        })?;
        let _ = self.order.insert(place, id);
        Ok(())
    }

    // Puts a variable that no scope has into the scope at a place, and answers the scope's id.
    pub(crate) fn put(&mut self, place: usize, v: Var) -> Result<u32, AllocError>
        requires place { place < length self.old.scopes }
        requires new { level_of self.old.scopes v ≡ None }
        ensures scopes { OnOk result (self.new.scopes ≡ with_variable_at self.old.scopes place v) }
        ensures ids { self.new.ids ≡ self.old.ids }
        ensures id { IfOk result (λ id. id ≡ slice_index self.old.ids place) }
        ensures err { OnErr result (self.new ≡ self.old) }
    {
        let id = self.order[place];
        put(&mut self.blocks[id as usize].vars, v)?;
        Ok(id)
    }

    // Takes a variable out of the scope at a place.
    pub(crate) fn take_out(&mut self, place: usize, v: Var)
        requires place { place < length self.old.scopes }
        requires ascending { AllByRecursion (λ s. IsAscending s.variables) self.old.scopes }
        ensures scopes { IsTakenOut v place self.old.scopes self.new.scopes }
        ensures ids { self.new.ids ≡ self.old.ids }
    {
        let id = self.order[place];
        remove(&mut self.blocks[id as usize].vars, v);
    }
}

// Takes a variable out of a set.
fn remove(vars: &mut BTreeSet<Var>, v: Var)
    requires { IsAscending vars.old.keys }
    ensures { vars.new.keys ≡ filter (λ x. not (x == v)) vars.old.keys }
{
    vars.remove(&v);
}

// Puts a variable into a set that hasn't it.
fn put(vars: &mut BTreeSet<Var>, v: Var) -> Result<(), AllocError>
    requires { is_among v vars.old.keys ≡ false }
    ensures ok { OnOk result (vars.new.keys ≡ insert_ascending v vars.old.keys) }
    ensures err { OnErr result (vars.new.keys ≡ vars.old.keys) }
{
    vars.insert(v)?;
    Ok(())
}
