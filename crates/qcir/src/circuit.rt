//! Circuits.
ghost use Rattle.std.specs.Prelude.{◌≡◌};

use prefix::{Lit, LitList, Prefix, Var};
use std::marker::Model;

/// What a gate makes of its inputs (QCIR-14, ngate_type).
#[derive(Clone, Copy, Debug, PartialEq, Eq)]
pub enum GateKind {
    /// Their conjunction, which is true without inputs.
    And,
    /// Their disjunction, which is false without inputs.
    Or,
}

/// A gate: a variable that has its value, and its inputs, each a quantified variable, a gate before it, or the negation
/// of one (QCIR-14, gate-stmt).
#[derive(Debug, Drop)]
pub struct Gate {
    /// The variable of its value.
    pub var: Var,
    /// What it makes of its inputs.
    pub kind: GateKind,
    /// Its inputs.
    pub inputs: LitList,
}

/// A list of gates, each before those that it is an input of. Contracts see that list.
#[derive(Debug, Drop)]
pub struct GateList {
    gates: Vec<Gate>,
}

impl Model for GateList {
    ghost use Rattle.std.specs.Prelude.{List};
    ghost use Rattle.qcir.specs.declared.circuit.Gate.{Gate};

    ghost Value = { List Gate };

    ghost view = { λ a. a.gates.items };
}

impl GateList {
    /// The list of these gates. This takes no memory.
    pub fn from_vec(gates: Vec<Gate>) -> Self
        ensures { result ≡ gates.items }
    {
        Self { gates }
    }

    /// Its gates.
    pub fn gates(&self) -> &[Gate]
        ensures { result.now ≡ self.now }
    {
        &self.gates
    }
}

/// A quantified circuit in prenex form (QCIR-14, qcir-file): its quantified variables, its gates in order, and its
/// output.
#[derive(Debug, Drop)]
pub struct Circuit {
    /// The quantified variables.
    pub prefix: Prefix,
    /// The gates, each before those that it is an input of.
    pub gates: GateList,
    /// The output, a quantified variable, a gate, or the negation of one.
    pub output: Lit,
}
