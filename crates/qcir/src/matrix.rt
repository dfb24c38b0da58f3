//! The rows of a circuit's clauses.
ghost use Rattle.std.specs.Prelude.{◌≡◌, ◌++◌, ◌∷◌, [], map, OnOk, IfOk};
ghost use Rattle.std.specs.List.{AllByRecursion, flat_map};
ghost use Rattle.prefix.specs.Literal.{signed_number};
ghost use Rattle.clauses.specs.Codes.{IsInRange};
ghost use Rattle.qcir.specs.Building.{literal_when, pairs};
ghost use Rattle.qcir.specs.Translation.{circuit_clauses, gate_clauses, rows_of as rows_of_clauses, written};

use crate::circuit::{Circuit, Gate, GateKind};
use clauses::row_of;
use prefix::{Lit, LitList};
use std::alloc::{AllocError, Global};

// The rows of the clauses of a circuit.
pub(crate) fn rows_of(alloc: Global, circuit: &Circuit) -> Result<Vec<LitList>, AllocError>
    ensures { IfOk result (λ rows. rows.items
        ≡ rows_of_clauses (circuit_clauses circuit.now.gates circuit.now.output)) }
{
    let mut rows = Vec::new(alloc);
    put_gates(&mut rows, circuit.gates.gates())?;
    put(&mut rows, &[circuit.output])?;
    Ok(rows)
}

// Puts the rows of gates behind others.
fn put_gates(rows: &mut Vec<LitList>, gates: &[Gate]) -> Result<(), AllocError>
    ensures { OnOk result (rows.new.items ≡ rows.old.items ++ rows_of_clauses (flat_map gate_clauses gates.now)) }
{
    for gate in gates {
        put_gate(rows, gate)?;
    }
    Ok(())
}

// Puts the rows of a gate.
fn put_gate(rows: &mut Vec<LitList>, gate: &Gate) -> Result<(), AllocError>
    ensures { OnOk result (rows.new.items ≡ rows.old.items ++ rows_of_clauses (gate_clauses gate.now)) }
{
    let own = Lit::new(gate.var, true);
    let inputs = gate.inputs.lits();
    match gate.kind {
        GateKind::And => {
            put_pairs(rows, own.negate(), inputs, true)?;
            put_whole(rows, own, inputs, false)
        }
        GateKind::Or => {
            put_pairs(rows, own, inputs, false)?;
            put_whole(rows, own.negate(), inputs, true)
        }
    }
}

// Puts for each of these literals, or of their negations, the row of a clause of it and another.
fn put_pairs(
    rows: &mut Vec<LitList>,
    first: Lit,
    lits: &[Lit],
    kept: bool,
) -> Result<(), AllocError>
    ensures { OnOk result (rows.new.items ≡ rows.old.items ++ rows_of_clauses (pairs first kept lits.now)) }
{
    for lit in lits {
        put(rows, &[first, when(kept, *lit)])?;
    }
    Ok(())
}

// Puts the row of the clause of all these literals, or of all their negations, and another.
fn put_whole(
    rows: &mut Vec<LitList>,
    first: Lit,
    lits: &[Lit],
    kept: bool,
) -> Result<(), AllocError>
    ensures { OnOk result (rows.new.items
        ≡ rows.old.items ++ rows_of_clauses ((first ∷ map (literal_when kept) lits.now) ∷ [])) }
{
    let clause = whole_of(*rows.allocator(), first, lits, kept)?;
    put(rows, &clause)
}

// The clause of all these literals, or of all their negations, behind another.
fn whole_of(alloc: Global, first: Lit, lits: &[Lit], kept: bool) -> Result<Vec<Lit>, AllocError>
    ensures { IfOk result (λ clause. clause.items ≡ first ∷ map (literal_when kept) lits.now) }
{
    let mut clause = Vec::new(alloc);
    clause.push(first)?;
    for lit in lits {
        clause.push(when(kept, *lit))?;
    }
    Ok(clause)
}

// A literal itself, or its negation.
fn when(kept: bool, lit: Lit) -> Lit
    ensures { result ≡ literal_when kept lit }
{
    if kept { lit } else { lit.negate() }
}

// Puts the row of a clause behind others, unless it is a tautology.
fn put(rows: &mut Vec<LitList>, clause: &[Lit]) -> Result<(), AllocError>
    ensures { OnOk result (rows.new.items ≡ rows.old.items ++ rows_of_clauses (clause.now ∷ [])) }
{
    let alloc = *rows.allocator();
    let numbers = numbers_of(alloc, clause)?;
    let Some(row) = row_of(alloc, &numbers)? else {
        return Ok(());
    };
    rows.push(row)?;
    Ok(())
}

// A clause as QDIMACS 1.1 writes it.
fn numbers_of(alloc: Global, clause: &[Lit]) -> Result<Vec<i64>, AllocError>
    ensures value { IfOk result (λ numbers. numbers.items ≡ written clause.now) }
    ensures range { IfOk result (λ numbers. AllByRecursion IsInRange numbers.items) }
{
    let mut numbers = Vec::new(alloc);
    numbers.reserve(clause.len())?;
    for lit in clause {
        numbers.push(number_of(*lit))?;
    }
    Ok(numbers)
}

// The number of a literal.
fn number_of(lit: Lit) -> i64
    ensures value { result ≡ signed_number lit }
    ensures range { IsInRange result }
{
    let v = lit.var().number() as i64;
    if lit.is_positive() { v } else { -v }
}
