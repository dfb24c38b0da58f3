//! Commands of a script.
ghost use Rattle.std.specs.Prelude.{◌≡◌, [], ◌∷◌, ◌++◌, OnOk, OnErr};

use prefix::Quant;
use std::alloc::{AllocError, Global};
use std::marker::Model;

/// A list of numbers, in the order in which they were put in; contracts see it as that list.
#[derive(Debug, Drop)]
pub struct NumList {
    numbers: Vec<i64>,
}

impl Model for NumList {
    ghost use Rattle.std.specs.Prelude.{List, ℤ};

    ghost Value = { List ℤ };

    ghost view = { λ a. a.numbers.items };
}

impl NumList {
    /// An empty list, which takes no memory.
    pub fn new(alloc: Global) -> Self
        ensures { result ≡ [] }
    {
        Self {
            numbers: Vec::new(alloc),
        }
    }

    /// The list of these numbers. This takes no memory.
    pub fn from_vec(numbers: Vec<i64>) -> Self
        ensures { result ≡ numbers.items }
    {
        Self { numbers }
    }

    /// Its numbers, in a `Vec`. This takes no memory.
    pub fn into_vec(self) -> Vec<i64>
        ensures { result.items ≡ self }
    {
        self.numbers
    }

    /// Its numbers.
    pub fn numbers(&self) -> &[i64]
        ensures { result.now ≡ self.now }
    {
        &self.numbers
    }

    /// Puts a number at the end. With no memory the list stays as it was.
    pub fn push(&mut self, number: i64) -> Result<(), AllocError>
        ensures ok { OnOk result (self.new ≡ self.old ++ number ∷ []) }
        ensures err { OnErr result (self.new ≡ self.old) }
    {
        self.numbers.push(number)?;
        Ok(())
    }
}

/// A command of a script, as its line gives it. Whether its numbers are accepted is not said here: a literal is
/// any number but 0, and a variable, a scope's number, a place or a group any that isn't negative.
#[derive(Debug, Drop)]
pub enum Command {
    /// `scope e` or `scope a`, and a number: a new empty scope with this number, or as the last.
    Scope { quant: Quant, at: Option<u64> },
    /// `var V S`: the variable V joins the scope S.
    Var { var: u64, scope: u64 },
    /// `clause L .. 0`: a clause of these literals in the open group, or else in the top frame. The closing 0 is left
    /// out.
    Clause(NumList),
    /// `push`: opens a frame.
    Push,
    /// `pop`: drops the top pushed frame with its clauses, and from version 2 on with its variables.
    Pop,
    /// `assume L`: assumes a literal for the next verdict.
    Assume(i64),
    /// `solve`: decides the open formula under the assumptions.
    Solve,
    /// `value V`: asks for the winner's value of an outermost variable.
    Value(u64),
    /// `relevant`: asks for the assumptions that the last row of the verdict's proof names.
    Relevant,
    /// `trace`: asks for the verdict's resolution trace.
    Trace,
    /// `cert`: asks for the verdict's circuit.
    Cert,
    /// `open G`: opens a group, which accepted clauses join until it is closed.
    OpenGroup(u64),
    /// `close`: closes the open group.
    CloseGroup,
    /// `activate G`: the clauses of a group join the open formula.
    Activate(u64),
    /// `deactivate G`: they leave it.
    Deactivate(u64),
    /// `core`: asks for groups that make the formula false, none of which can be left out.
    GroupCore,
}
