//! The formula of a circuit.
ghost use Rattle.std.specs.Prelude.{◌≡◌, ◌≤◌, ◌^◌, length, IfOk};
ghost use Rattle.truth.specs.Truth.{truth};
ghost use Rattle.truth.specs.Formed.{IsFormed};
ghost use Rattle.qcir.specs.Truth.{circuit_truth, gate_names};
ghost use Rattle.qcir.specs.Translation.{IsCircuit, clause_count, scopes_with, translated};

use crate::circuit::Circuit;
use crate::laws::translations_decide;
use crate::matrix::rows_of;
use crate::scopes::{greatest_var, prefix_of};
use memory::NoMemory;
use std::alloc::Global;
use truth::{ClauseList, Formula};

/// The formula of a circuit, by Tseitin's translation: it is true exactly where the circuit is.
///
/// The gates' variables keep their numbers. They join the last scope where that is existential, and are a new last
/// scope else. The clauses of an `and` with the variable g are `-g x` for each input x, and g with the negations of all
/// inputs; those of an `or` are `g -x` for each input x, and -g with all inputs; the last clause is the output.
/// Tautologies are left out, and each row has a literal once and ascends by variable. The formula declares the greatest
/// number of its variables and the number of its clauses. `specs/Translation` writes it out.
///
/// Fails for want of memory alone. The time is linear in the variables and the gates' inputs, apart from sorting.
pub fn translate(alloc: Global, circuit: &Circuit) -> Result<Formula, NoMemory>
    requires circuit { IsCircuit circuit.now }
    requires scopes { length (scopes_with circuit.now.prefix (gate_names circuit.now.gates)) ≤ 65536 }
    requires clauses { clause_count circuit.now.gates ≤ 2 ^ 24 }
    ensures value { IfOk result (λ f. f ≡ translated circuit.now) }
    ensures truth { IfOk result (λ f. truth f.prefix f.clauses ≡ circuit_truth circuit.now) }
    // It is as a formula that was read is.
    ensures formed { IfOk result IsFormed }
{
    translations_decide();
    make(alloc, circuit)
}

// The formula of a circuit, by its definition.
fn make(alloc: Global, circuit: &Circuit) -> Result<Formula, NoMemory>
    requires circuit { IsCircuit circuit.now }
    requires scopes { length (scopes_with circuit.now.prefix (gate_names circuit.now.gates)) ≤ 65536 }
    requires clauses { clause_count circuit.now.gates ≤ 2 ^ 24 }
    ensures { IfOk result (λ f. f ≡ translated circuit.now) }
{
    let Ok(prefix) = prefix_of(alloc, circuit) else {
        return Err(NoMemory);
    };
    let rows = rows_of(alloc, circuit)?;
    let declared_vars = greatest_var(&prefix);
    let declared_clauses = rows.len() as u32;
    Ok(Formula {
        prefix,
        clauses: ClauseList::from_vec(rows),
        declared_vars,
        declared_clauses,
    })
}
