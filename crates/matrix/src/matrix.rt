//! A matrix of lent parts.
ghost use Rattle.std.specs.Prelude.{◌≡◌, ◌++◌, OnOk, OnErr};
ghost use Rattle.std.specs.List.{flat_map};

use memory::NoMemory;
use prefix::LitList;
use std::alloc::Global;
use std::marker::Model;

/// The clauses of a formula that stand in several lists, its parts, which it only lends. Contracts see the clauses of
/// all parts, one part behind the other.
#[derive(Debug, Drop)]
pub struct Matrix<'a> {
    first: &'a [LitList],
    more: Vec<&'a [LitList]>,
}

impl<'a> Model for Matrix<'a> {
    ghost use Rattle.std.specs.Prelude.{List, ◌++◌};
    ghost use Rattle.std.specs.List.{flat_map};
    ghost use Rattle.prefix.specs.Literal.{Literal};

    ghost Value = { List (List Literal) };

    ghost view = { λ m. m.first.now ++ flat_map (λ part. part.now) m.more.items };
}

/// The parts of a matrix, in their order. None of them need hold a clause.
#[derive(Clone, Copy, Debug)]
pub struct Parts<'a> {
    /// The first part.
    pub first: &'a [LitList],
    /// The parts behind it.
    pub more: &'a [&'a [LitList]],
}

impl<'a> Matrix<'a> {
    /// The matrix of one part. This takes no memory.
    pub fn new(alloc: Global, first: &'a [LitList]) -> Self
        ensures { result ≡ first.now }
    {
        Self {
            first,
            more: Vec::new(alloc),
        }
    }

    /// Puts a part behind the others. With no memory the matrix stays as it was.
    pub fn push(&mut self, part: &'a [LitList]) -> Result<(), NoMemory>
        ensures ok { OnOk result (self.new ≡ self.old ++ part.now) }
        ensures err { OnErr result (self.new ≡ self.old) }
    {
        self.more.push(part)?;
        Ok(())
    }

    /// Its parts. This takes no memory.
    pub fn parts(&self) -> Parts<'_>
        ensures { self.now ≡ result.first.now ++ flat_map (λ part. part.now) result.more.now }
    {
        Parts {
            first: self.first,
            more: &self.more,
        }
    }
}
