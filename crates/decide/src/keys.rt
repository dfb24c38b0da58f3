//! What puts the variables that wait in order.
ghost use Rattle.std.specs.Prelude.{◌≡◌, ◌<◌, ◌≤◌, length, OnOk, OnErr};

use std::alloc::{AllocError, Global};
use std::marker::Model;

// What puts variables in order: the scope of each that waits, and the priority of each, at its number less 1. Contracts
// see it as the number of variables.
#[derive(Debug, Drop)]
pub(crate) struct Keys {
    // There may be more scopes than priorities.
    scopes: Vec<u32>,
    scores: Vec<u64>,
}

impl Model for Keys {
    ghost use Rattle.std.specs.Prelude.{◌≤◌, ℕ, length};

    ghost Value = { ℕ };

    ghost view = { λ k. length k.scores.items };

    ghost invariant = { λ k. length k.scores.items ≤ length k.scopes.items };
}

impl Keys {
    // Keys of no variables. This takes no memory.
    pub(crate) fn new(alloc: Global) -> Self
        ensures { result ≡ 0 }
    {
        Self {
            scopes: Vec::new(alloc),
            scores: Vec::new(alloc),
        }
    }

    // How many variables have keys.
    pub(crate) fn len(&self) -> usize
        ensures { result ≡ self.now }
    {
        self.scores.len()
    }

    // Makes keys of so many variables, the new ones of the least priority. With no memory it has as many as before.
    pub(crate) fn widen(&mut self, count: usize) -> Result<(), AllocError>
        requires { self.old ≤ count }
        ensures ok { OnOk result (self.new ≡ count) }
        ensures err { OnErr result (self.new ≡ self.old) }
    {
        self.scopes.resize(count, 0)?;
        self.scores.resize(count, 0)?;
        Ok(())
    }

    // Which of two variables comes first, by their numbers, where 0 stands for none.
    pub(crate) fn first_of(&self, a: u32, b: u32) -> u32
        requires a { a ≤ self.now }
        requires b { b ≤ self.now }
        ensures { result ≤ self.now }
    {
        if a == 0 || (b != 0 && self.comes_before(b, a)) {
            b
        } else {
            a
        }
    }

    // Whether a variable comes before another: it is of an earlier scope, or of the same one with a greater priority;
    // of equal priorities the greater number goes first.
    fn comes_before(&self, a: u32, b: u32) -> bool
        requires a { (1 ≤ a) × (a ≤ self.now) }
        requires b { (1 ≤ b) × (b ≤ self.now) }
    {
        let (i, j) = (a as usize - 1, b as usize - 1);
        if self.scopes[i] != self.scopes[j] {
            return self.scopes[i] < self.scopes[j];
        }
        self.scores[i] > self.scores[j] || (self.scores[i] == self.scores[j] && a > b)
    }

    // The scope of a variable, by its place.
    pub(crate) fn scope(&self, place: usize) -> usize
        requires { place < self.now }
    {
        self.scopes[place] as usize
    }

    // Says of which scope a variable is.
    pub(crate) fn set_scope(&mut self, place: usize, scope: usize)
        requires { place < self.old }
        ensures { self.new ≡ self.old }
    {
        self.scopes[place] = scope.min(u32::MAX as usize) as u32;
    }

    // Raises the priority of a variable.
    pub(crate) fn raise(&mut self, place: usize, by: u64)
        requires { place < self.old }
        ensures { self.new ≡ self.old }
    {
        self.scores[place] = self.scores[place].saturating_add(by);
    }

    // Divides all priorities by 2^32.
    pub(crate) fn scale(&mut self)
        ensures { self.new ≡ self.old }
    {
        scale_scores(&mut self.scores);
    }
}

// Divides priorities by 2^32.
fn scale_scores(scores: &mut Vec<u64>)
    ensures { length scores.new.items ≡ length scores.old.items }
{
    for i in 0..scores.len() {
        scores[i] >>= 32;
    }
}
