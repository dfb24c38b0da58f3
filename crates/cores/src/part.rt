//! Groups, lent.
ghost use Rattle.std.specs.Prelude.{◌≡◌};

use prefix::LitList;
use std::marker::Model;

/// A group of clauses, which it only lends. Contracts see its number and its clauses.
#[derive(Debug, Drop)]
pub struct Part<'a> {
    number: u32,
    clauses: &'a [LitList],
}

impl<'a> Model for Part<'a> {
    ghost use Rattle.cores.specs.Cores.{Group};

    ghost Value = { Group };

    ghost view = { λ p. record { number = p.number; clauses = p.clauses.now } };
}

impl<'a> Part<'a> {
    /// The group of this number with these clauses.
    pub fn new(number: u32, clauses: &'a [LitList]) -> Self
        ensures { result ≡ record { number = number; clauses = clauses.now } }
    {
        Self { number, clauses }
    }

    /// Its number.
    pub fn number(&self) -> u32
        ensures { result ≡ self.now.number }
    {
        self.number
    }

    /// Its clauses.
    pub fn clauses(&self) -> &'a [LitList]
        ensures { result.now ≡ self.now.clauses }
    {
        self.clauses
    }
}
