//! Assumptions. They are a map and no sorted list, in which literals in descending order would cost the square of their
//! number.
ghost use Rattle.std.specs.Prelude.{◌≡◌, ℕ, [], None, Some, ◌==◌, if◌then◌else◌, length, IfOk, OnOk, OnErr};
ghost use Rattle.prefix.specs.Scopes.{IsAscending};
ghost use Rattle.truth.specs.Truth.{assumed_value};
ghost use Rattle.calculus.specs.Rows.{variables_in, without};
ghost use Rattle.frames.specs.State.{put_assumption};

use prefix::{Lit, Var};
use std::alloc::{AllocError, Global};
use std::collections::BTreeMap;
use std::marker::Model;

/// Assumed literals, ascending by variable and each variable once.
///
/// A literal is put in, and a sign looked up, in the logarithm of how many there are, in whatever order they come.
#[derive(Debug, Drop)]
pub struct Assumptions {
    signs: BTreeMap<Var, bool>,
}

impl Model for Assumptions {
    ghost use Rattle.std.specs.Prelude.{List};
    ghost use Rattle.prefix.specs.Literal.{Literal};

    ghost Value = { List Literal };

    ghost use Rattle.prefix.specs.Scopes.{IsAscending};
    ghost use Rattle.calculus.specs.Rows.{variables_in};
    ghost use Rattle.frames.specs.Kept.{literals_of};

    ghost view = { λ a. literals_of a.signs.entries };

    ghost invariant = { λ a. IsAscending (variables_in (literals_of a.signs.entries)) };
}

impl Assumptions {
    /// No assumption.
    pub fn new(alloc: Global) -> Self
        ensures { result ≡ [] }
    {
        Self {
            signs: BTreeMap::new(alloc),
        }
    }

    /// How many literals are assumed.
    pub fn len(&self) -> usize
        ensures value { result ≡ length self.now }
        ensures ascending { IsAscending (variables_in self.now) }
    {
        self.signs.len()
    }

    /// Whether no literal is assumed.
    pub fn is_empty(&self) -> bool
        ensures { result ≡ (length self.now == 0) }
    {
        self.signs.is_empty()
    }

    /// The assumed sign of a variable; none exactly where it isn't assumed.
    pub fn sign(&self, v: Var) -> Option<bool>
        ensures value { result ≡ assumed_value self.now v }
        ensures ascending { IsAscending (variables_in self.now) }
    {
        Some(*self.signs.get(&v)?)
    }

    /// A list of the literals, ascending by variable.
    pub fn to_vec(&self, alloc: Global) -> Result<Vec<Lit>, AllocError>
        ensures { IfOk result (λ list. list.items ≡ self.now) }
    {
        let mut lits = Vec::with_capacity(alloc, self.signs.len())?;
        for (v, positive) in &self.signs {
            lits.push(Lit::new(*v, *positive))?;
        }
        Ok(lits)
    }

    /// Puts in a literal over a variable that isn't assumed. Without memory nothing changes.
    pub(crate) fn put(&mut self, lit: Lit) -> Result<(), AllocError>
        requires free { assumed_value self.old lit.variable ≡ None }
        ensures ok { OnOk result (self.new ≡ put_assumption lit self.old) }
        ensures err { OnErr result (self.new ≡ self.old) }
    {
        self.signs.insert(lit.var(), lit.is_positive())?;
        Ok(())
    }

    /// Takes out the literal over a variable, if one is there; it takes no memory.
    pub(crate) fn remove(&mut self, v: Var)
        ensures { self.new ≡ without v self.old }
    {
        let _ = self.signs.remove(&v);
    }

    /// Takes all out; it takes no memory.
    pub(crate) fn clear(&mut self)
        ensures { self.new ≡ [] }
    {
        self.signs.clear();
    }
}
