//! The writer of formulas whose parts are lent.
ghost use Rattle.std.specs.Prelude.{◌≡◌, ℕ, ◌-◌, ◌≤◌, length, IsOk, OnOk};
ghost use Rattle.std.specs.List.{flat_map};
ghost use Rattle.std.specs.Io.KnownBytes.{Appends, Keeps};
ghost use Rattle.ports.specs.Bytes.{AppendsFront};
ghost use Rattle.ports.specs.Causes.{HasCause};
ghost use Rattle.ports.specs.Writing.{Writes};
ghost use Rattle.blocks.specs.Held.{Puts};
ghost use Rattle.qdimacs_out.specs.Pieces.{clause_text};
ghost use Rattle.qdimacs_out.specs.Texts.{lent_text};

use crate::words;
use crate::write::{put_clauses, put_scopes};
use blocks::Block;
use matrix::Matrix;
use ports::{Failed, Sink};
use prefix::{LitList, Prefix};

/// The numbers of a formula's header: of its variables and of its clauses.
#[derive(Clone, Copy, Debug)]
pub struct Header {
    pub vars: u32,
    pub clauses: u32,
}

/// Writes a formula whose prefix and clauses are lent, as `write_formula` writes one. This takes no memory.
///
/// Fails only where the sink does, with a front of the text written. Nothing is flushed.
pub fn write_lent<S: Sink>(
    header: Header,
    prefix: &Prefix,
    matrix: &Matrix<'_>,
    sink: &mut S,
) -> Result<(), Failed>
    ensures ok { OnOk result
        (Appends (S.written sink.old) (S.written sink.new) (lent_text header prefix.now matrix.now)) }
    ensures front { AppendsFront (S.written sink.old) (S.written sink.new) (lent_text header prefix.now matrix.now) }
    ensures flushed { Keeps (S.flushed sink.old) (S.flushed sink.new) }
    ensures cause { HasCause (S.faults sink.old) (S.faults sink.new) result }
    ensures room { (n : ℕ) → length (lent_text header prefix.now matrix.now) ≤ n → S.has_room sink.old n
        → IsOk result × S.has_room sink.new (n - length (lent_text header prefix.now matrix.now)) }
{
    put_lent(header, prefix, matrix, sink)
}

// Writes such a formula, in blocks.
fn put_lent<S: Sink>(
    header: Header,
    prefix: &Prefix,
    matrix: &Matrix<'_>,
    sink: &mut S,
) -> Result<(), Failed>
    ensures { Writes S.written S.flushed S.faults S.has_room sink.old sink.new
        (lent_text header prefix.now matrix.now) result }
{
    let mut block = Block::new();
    put_parts(header, prefix, matrix, &mut block, sink)?;
    block.finish(sink)
}

// Puts the parts of its text: the header, the scopes and the clauses.
fn put_parts<S: Sink>(
    header: Header,
    prefix: &Prefix,
    matrix: &Matrix<'_>,
    block: &mut Block,
    sink: &mut S,
) -> Result<(), Failed>
    ensures { Puts S.written S.flushed S.faults S.has_room sink.old block.old sink.new block.new
        (lent_text header prefix.now matrix.now) result }
{
    block.put_line(&words::header(header.vars, header.clauses), sink)?;
    put_scopes(prefix, block, sink)?;
    put_matrix(matrix, block, sink)
}

// Puts the lines of the clauses of all lists.
fn put_matrix<S: Sink>(matrix: &Matrix<'_>, block: &mut Block, sink: &mut S) -> Result<(), Failed>
    ensures { Puts S.written S.flushed S.faults S.has_room sink.old block.old sink.new block.new
        (flat_map clause_text matrix.now) result }
{
    let parts = matrix.parts();
    put_clauses(parts.first, block, sink)?;
    put_more(parts.more, block, sink)
}

// Puts the lines of the clauses of lists.
fn put_more<S: Sink>(more: &[&[LitList]], block: &mut Block, sink: &mut S) -> Result<(), Failed>
    ensures { Puts S.written S.flushed S.faults S.has_room sink.old block.old sink.new block.new
        (flat_map (λ part. flat_map clause_text part.now) more.now) result }
{
    for part in more {
        put_clauses(part, block, sink)?;
    }
    Ok(())
}
