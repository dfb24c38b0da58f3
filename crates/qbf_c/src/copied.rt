//! Clauses copied.
ghost use Rattle.std.specs.Prelude.{◌≡◌, ◌++◌, IfOk, OnOk};
ghost use Rattle.std.specs.List.{flat_map};

use matrix::Matrix;
use prefix::LitList;
use std::alloc::{AllocError, Global};

// Copies of the clauses of a matrix, in one list.
pub(crate) fn copied(alloc: Global, matrix: &Matrix<'_>) -> Result<Vec<LitList>, AllocError>
    ensures { IfOk result (λ rows. rows.items ≡ matrix.now) }
{
    let parts = matrix.parts();
    let mut rows = Vec::new(alloc);
    put_copies(&mut rows, parts.first)?;
    put_parts(&mut rows, parts.more)?;
    Ok(rows)
}

// Puts copies of the clauses of lists behind the others.
fn put_parts(rows: &mut Vec<LitList>, more: &[&[LitList]]) -> Result<(), AllocError>
    ensures { OnOk result (rows.new.items ≡ rows.old.items ++ flat_map (λ part. part.now) more.now) }
{
    for part in more {
        put_copies(rows, part)?;
    }
    Ok(())
}

// Puts copies of clauses behind the others.
fn put_copies(rows: &mut Vec<LitList>, clauses: &[LitList]) -> Result<(), AllocError>
    ensures { OnOk result (rows.new.items ≡ rows.old.items ++ clauses.now) }
{
    let alloc = *rows.allocator();
    for clause in clauses {
        rows.push(copy_of(alloc, clause)?)?;
    }
    Ok(())
}

// A copy of a clause.
fn copy_of(alloc: Global, clause: &LitList) -> Result<LitList, AllocError>
    ensures { IfOk result (λ row. row ≡ clause.now) }
{
    let mut lits = Vec::with_capacity(alloc, clause.lits().len())?;
    lits.extend_from_slice(clause.lits())?;
    LitList::from_vec(lits)
}
