//! Covers.
ghost use Rattle.std.specs.Prelude.{◌≡◌, [], ◌++◌, List, map, IsTrue, IfOk, OnErr, OnOk, Contains};
ghost use Rattle.truth.specs.Matrix.{clause_true};
ghost use Rattle.calculus.specs.Rows.{Row as Clause};
ghost use Rattle.calculus.specs.Search.{value_on};
ghost use Rattle.derive.specs.Growing.{GainsSteps};
ghost use Rattle.derive.specs.State.{has_rows, open_clauses, IsLegalFor};
ghost use Rattle.trail.specs.State.{IsTrailFor};
ghost use Rattle.cover.specs.Choices.{AreChosenBut};
ghost use Rattle.cover.specs.Covers.{Covers};

use super::choices::{choose, chosen_row, innermost, is_hit};
use derive::{Derivation, StepId};
use matrix::Matrix;
use memory::NoMemory;
use prefix::{Clauses, Cubes, Lit, LitList, Prefix};
use trail::Trail;

/// Puts in an initial cube of true literals that holds a literal of every clause of the matrix, and answers its id: of
/// a clause with a true existential literal it takes one of the latest scope, and of another one that it hits with none
/// of these a true universal one. With no memory the derivation stays as it was. Its tables are made by the allocator
/// of the trail's.
pub fn cover(
    derivation: &mut Derivation,
    trail: &Trail,
    prefix: &Prefix,
    matrix: &Matrix<'_>,
) -> Result<StepId, NoMemory>
    requires rows { IsTrue (has_rows derivation.old) }
    requires trail { IsTrailFor prefix.now trail.now }
    requires clauses { (clause : Clause) → Contains (open_clauses derivation.old) clause → Contains matrix.now clause }
    requires satisfied { (clause : Clause) → Contains matrix.now clause →
        IsTrue (clause_true (value_on trail.now.placed) clause) }
    ensures ok { IfOk result (λ id. Covers prefix.now trail.now.placed matrix.now derivation.old derivation.new id) }
    ensures gains { OnOk result (GainsSteps derivation.old derivation.new) }
    ensures legal { IsLegalFor prefix.now derivation.old → IsLegalFor prefix.now derivation.new }
    ensures err { OnErr result (derivation.new ≡ derivation.old) }
{
    let alloc = trail.alloc();
    let mut table = Vec::new(alloc);
    let mut others = Vec::new(alloc);
    choose_existential(trail, prefix, matrix, &mut table, &mut others)?;
    choose_universal(trail, prefix, &others, &mut table)?;
    let row = chosen_row(alloc, &table)?;
    derivation.input_cube(&row)
}

// Chooses a literal of each clause with a true existential one, and lists the others.
fn choose_existential<'a>(
    trail: &Trail,
    prefix: &Prefix,
    matrix: &'a Matrix<'_>,
    table: &mut Vec<Option<Lit>>,
    others: &mut Vec<&'a LitList>,
) -> Result<(), NoMemory>
    requires table { table.old.items ≡ [] }
    requires others { others.old.items ≡ [] }
    ensures { OnOk result (AreChosenBut prefix.now (value_on trail.now.placed) (map (λ row. row.now) others.new.items)
        matrix.now table.new.items) }
{
    let parts = matrix.parts();
    choose_in_part(trail, prefix, parts.first, table, others)?;
    for part in parts.more {
        choose_in_part(trail, prefix, part, table, others)?;
    }
    Ok(())
}

// Chooses a literal of each clause of a part with a true existential one, and lists the others behind those before.
fn choose_in_part<'a>(
    trail: &Trail,
    prefix: &Prefix,
    part: &'a [LitList],
    table: &mut Vec<Option<Lit>>,
    others: &mut Vec<&'a LitList>,
) -> Result<(), NoMemory>
    ensures { (before : List Clause) → AreChosenBut prefix.now (value_on trail.now.placed)
        (map (λ row. row.now) others.old.items) before table.old.items →
        OnOk result (AreChosenBut prefix.now (value_on trail.now.placed) (map (λ row. row.now) others.new.items)
        (before ++ part.now) table.new.items) }
{
    for clause in part {
        match innermost::<Clauses>(table, trail, prefix, clause.lits()) {
            Some(lit) => choose(table, lit)?,
            None => {
                others.push(clause)?;
                continue;
            }
        }
    }
    Ok(())
}

// Chooses a literal of each of these clauses that isn't hit yet.
fn choose_universal(
    trail: &Trail,
    prefix: &Prefix,
    others: &[&LitList],
    table: &mut Vec<Option<Lit>>,
) -> Result<(), NoMemory>
    requires { IsTrailFor prefix.now trail.now }
    ensures { (clauses : List Clause) →
        ((clause : Clause) → Contains clauses clause → IsTrue (clause_true (value_on trail.now.placed) clause)) →
        AreChosenBut prefix.now (value_on trail.now.placed) (map (λ row. row.now) others.now) clauses table.old.items →
        OnOk result (AreChosenBut prefix.now (value_on trail.now.placed) [] clauses table.new.items) }
{
    for clause in others {
        if is_hit(table, clause.lits()) {
            continue;
        }
        match innermost::<Cubes>(table, trail, prefix, clause.lits()) {
            Some(lit) => choose(table, lit)?,
            // A true clause without a true existential literal has a universal one.
            None => continue,
        }
    }
    Ok(())
}
