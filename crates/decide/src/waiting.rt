//! The variables that wait for a decision, and which of them comes first. What the tree names is looked up on the
//! trail, so that a decision is right whether undoings were told or not. A node is a variable's number of four bytes;
//! its scope and priority are looked up by it. Of equal priorities the number decides, not the place in the tree: so
//! room that grew changes no search.
ghost use Rattle.std.specs.Prelude.{◌≡◌, ◌≤◌, IfOk, OnOk};
ghost use Rattle.decide.specs.Tree.{IsTree};

use super::keys::Keys;
use prefix::Var;
use std::alloc::{AllocError, Global};
use std::marker::Model;

// What a bump adds at first to a priority.
const FIRST_INCREMENT: u64 = 1024;

// The increment at which all priorities are divided by 2^32.
const LAST_INCREMENT: u64 = 1 << 48;

// A variable that waits, by its number, with its scope.
#[derive(Clone, Copy, Debug)]
pub(crate) struct Waiting {
    pub scope: usize,
    pub number: u32,
}

// The variables that wait, each at the place of its number less 1. Contracts see it as the number of places.
//
// The nodes are a tree: the children of node i are nodes 2 i and 2 i + 1, the places are the last half of the nodes,
// and node 1 has what comes first of all. A node has a variable's number, or 0 for none.
#[derive(Debug, Drop)]
pub(crate) struct WaitingList {
    nodes: Vec<u32>,
    keys: Keys,
    increment: u64,
}

impl Model for WaitingList {
    ghost use Rattle.std.specs.Prelude.{ℕ};
    ghost use Rattle.decide.specs.Tree.{IsTree};

    ghost Value = { ℕ };

    ghost view = { λ w. w.keys };

    ghost invariant = { λ w. IsTree w.nodes.items w.keys };
}

impl WaitingList {
    // A list without places. This takes no memory.
    pub(crate) fn new(alloc: Global) -> Self
        ensures { result ≡ 0 }
    {
        Self {
            nodes: Vec::new(alloc),
            keys: Keys::new(alloc),
            increment: FIRST_INCREMENT,
        }
    }

    // Makes as many places, each new one of the least priority; no one waits then. It never has fewer places than
    // before.
    pub(crate) fn reserve(&mut self, places: usize) -> Result<(), AllocError>
        ensures ok { OnOk result (places ≤ self.new) }
        ensures grown { self.old ≤ self.new }
    {
        if self.keys.len() < places {
            let nodes = new_tree(*self.nodes.allocator(), places)?;
            self.keys.widen(places)?;
            self.nodes = nodes;
        }
        Ok(())
    }

    // What comes first of all that wait.
    pub(crate) fn first(&self) -> Option<Waiting> {
        let number = *self.nodes.get(1)?;
        if number == 0 {
            return None;
        }
        Some(Waiting {
            scope: self.keys.scope(number as usize - 1),
            number,
        })
    }

    // Whether a variable waits.
    pub(crate) fn is_waiting(&self, v: Var) -> bool {
        let leaf = self.keys.len().saturating_add(v.index());
        match self.nodes.get(leaf) {
            Some(number) => *number != 0,
            None => false,
        }
    }

    // Lets a variable of a scope wait, with its priority; where it waits so already nothing is written.
    pub(crate) fn put(&mut self, v: Var, scope: usize)
        ensures { self.new ≡ self.old }
    {
        let place = v.index();
        if place >= self.keys.len() || (self.is_waiting(v) && self.keys.scope(place) == scope) {
            return;
        }
        self.keys.set_scope(place, scope);
        self.write(v, true);
    }

    // Lets a variable wait no longer.
    pub(crate) fn take_out(&mut self, v: Var)
        ensures { self.new ≡ self.old }
    {
        self.write(v, false);
    }

    // Raises the priority of a variable that a clause has, by what a bump adds at first.
    pub(crate) fn count(&mut self, v: Var)
        ensures { self.new ≡ self.old }
    {
        self.raise(v, FIRST_INCREMENT);
    }

    // Raises the priority of a variable.
    pub(crate) fn bump(&mut self, v: Var)
        ensures { self.new ≡ self.old }
    {
        self.raise(v, self.increment);
    }

    // Raises the priority of a variable by an amount.
    fn raise(&mut self, v: Var, amount: u64)
        ensures { self.new ≡ self.old }
    {
        let place = v.index();
        if place >= self.keys.len() {
            return;
        }
        self.keys.raise(place, amount);
        if self.is_waiting(v) {
            raise_up(&mut self.nodes, &self.keys, v);
        }
    }

    // Lets later bumps count more, by a sixteenth.
    pub(crate) fn decay(&mut self)
        ensures { self.new ≡ self.old }
    {
        self.increment = self.increment.saturating_add(self.increment / 16);
        if self.increment >= LAST_INCREMENT {
            self.increment >>= 32;
            self.keys.scale();
        }
    }

    // Writes whether a variable waits, and what comes first above it; without a place it doesn't wait.
    fn write(&mut self, v: Var, waits: bool)
        ensures { self.new ≡ self.old }
    {
        if v.index() < self.keys.len() {
            write_up(&mut self.nodes, &self.keys, v, waits);
        }
    }
}

// The nodes over as many places, on which no one waits.
fn new_tree(alloc: Global, places: usize) -> Result<Vec<u32>, AllocError>
    ensures { IfOk result (λ nodes. IsTree nodes.items places) }
{
    let mut nodes = Vec::new(alloc);
    nodes.resize(places.saturating_mul(2), 0)?;
    Ok(nodes)
}

// Writes whether a variable waits, and what comes first above it, as far up as a node changes: above one that has
// another variable, as before, all stay as they were.
fn write_up(nodes: &mut Vec<u32>, keys: &Keys, v: Var, waits: bool)
    requires tree { IsTree nodes.old.items keys.now }
    requires within { v ≤ keys.now }
    ensures { IsTree nodes.new.items keys.now }
{
    let mut i = keys.len() + v.index();
    let mut node = if waits { v.number() } else { 0 };
    while i > 0 {
        if nodes[i] == node && node != v.number() {
            return;
        }
        nodes[i] = node;
        i /= 2;
        node = keys.first_of(nodes[2 * i], nodes[2 * i + 1]);
    }
}

// Lets a variable that waits, whose priority was raised, come first as far up as it does now: up to a node with one that
// comes before it still.
fn raise_up(nodes: &mut Vec<u32>, keys: &Keys, v: Var)
    requires tree { IsTree nodes.old.items keys.now }
    requires within { v ≤ keys.now }
    ensures { IsTree nodes.new.items keys.now }
{
    let mut i = (keys.len() + v.index()) / 2;
    while i > 0 {
        let first = nodes[i];
        if first != v.number() {
            if keys.first_of(first, v.number()) == first {
                return;
            }
            nodes[i] = v.number();
        }
        i /= 2;
    }
}
