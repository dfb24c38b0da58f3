//! The writer.
ghost use Rattle.std.specs.Prelude.{◌≡◌, ℕ, ◌+◌, ◌-◌, ◌≤◌, length, IsOk, OnOk};
ghost use Rattle.std.specs.List.{flat_map};
ghost use Rattle.std.specs.Io.KnownBytes.{Appends, Keeps};
ghost use Rattle.std.specs.Fmt.{decimal};
ghost use Rattle.ports.specs.Bytes.{AppendsFront};
ghost use Rattle.ports.specs.Causes.{HasCause};
ghost use Rattle.qdimacs_out.specs.Pieces.{clause_text, closing, scope_text};
ghost use Rattle.blocks.specs.Lines.{line_text, spaced};
ghost use Rattle.qdimacs_out.specs.Texts.{formula_text, header_line, literal_word, quantifier_word};
ghost use Rattle.ports.specs.Writing.{Writes};
ghost use Rattle.blocks.specs.Held.{Puts};

use crate::words;
use blocks::Block;
use ports::{Failed, Sink};
use prefix::{Lit, LitList, Prefix, Quant, Var};
use std::collections::BTreeSet;
use truth::Formula;

/// Writes a formula as QDIMACS 1.1 writes it: the header `p cnf VARS CLAUSES` with the declared numbers, a line for
/// each scope and a line for each clause, in order. This takes no memory.
///
/// Fails only where the sink does, with a front of the text written. Nothing is flushed.
pub fn write_formula<S: Sink>(f: &Formula, sink: &mut S) -> Result<(), Failed>
    ensures ok { OnOk result (Appends (S.written sink.old) (S.written sink.new) (formula_text f.now)) }
    ensures front { AppendsFront (S.written sink.old) (S.written sink.new) (formula_text f.now) }
    ensures flushed { Keeps (S.flushed sink.old) (S.flushed sink.new) }
    ensures cause { HasCause (S.faults sink.old) (S.faults sink.new) result }
    ensures room { (n : ℕ) → length (formula_text f.now) ≤ n → S.has_room sink.old n
        → IsOk result × S.has_room sink.new (n - length (formula_text f.now)) }
{
    put_formula(f, sink)
}

// Writes a formula, in blocks.
fn put_formula<S: Sink>(f: &Formula, sink: &mut S) -> Result<(), Failed>
    ensures { Writes S.written S.flushed S.faults S.has_room sink.old sink.new (formula_text f.now) result }
{
    let mut block = Block::new();
    put_parts(f, &mut block, sink)?;
    block.finish(sink)
}

// Puts the parts of a formula's text: the header, the scopes and the clauses.
fn put_parts<S: Sink>(f: &Formula, block: &mut Block, sink: &mut S) -> Result<(), Failed>
    ensures { Puts S.written S.flushed S.faults S.has_room sink.old block.old sink.new block.new
        (formula_text f.now) result }
{
    block.put_line(&words::header(f.declared_vars, f.declared_clauses), sink)?;
    put_scopes(&f.prefix, block, sink)?;
    put_clauses(f.clauses.clauses(), block, sink)
}

// Puts the lines of the scopes.
pub(crate) fn put_scopes<S: Sink>(
    prefix: &Prefix,
    block: &mut Block,
    sink: &mut S,
) -> Result<(), Failed>
    ensures { Puts S.written S.flushed S.faults S.has_room sink.old block.old sink.new block.new
        (flat_map scope_text prefix.now) result }
{
    for s in 0..prefix.scopes() {
        put_scope(
            prefix.scope_quant(s + 1).unwrap(),
            prefix.vars_of(s + 1),
            block,
            sink,
        )?;
    }
    Ok(())
}

// Puts the line of a scope.
fn put_scope<S: Sink>(
    quant: Quant,
    vars: &BTreeSet<Var>,
    block: &mut Block,
    sink: &mut S,
) -> Result<(), Failed>
    ensures { Puts S.written S.flushed S.faults S.has_room sink.old block.old sink.new block.new
        (scope_text (record { quantifier = quant; variables = vars.now.keys })) result }
{
    put_quantifier(quant, block, sink)?;
    put_variables(vars, block, sink)?;
    put_end(block, sink)
}

// Puts the letter of a quantifier, and a blank.
fn put_quantifier<S: Sink>(quant: Quant, block: &mut Block, sink: &mut S) -> Result<(), Failed>
    ensures { Puts S.written S.flushed S.faults S.has_room sink.old block.old sink.new block.new
        (spaced (quantifier_word quant)) result }
{
    match quant {
        Quant::Exists => block.put(b"e ", sink),
        Quant::Forall => block.put(b"a ", sink),
    }
}

// Puts the numbers of variables, each with a blank.
fn put_variables<S: Sink>(
    vars: &BTreeSet<Var>,
    block: &mut Block,
    sink: &mut S,
) -> Result<(), Failed>
    ensures { Puts S.written S.flushed S.faults S.has_room sink.old block.old sink.new block.new
        (flat_map (λ v. spaced (decimal v)) vars.now.keys) result }
{
    for v in vars {
        block.put_line(&words::variable(*v), sink)?;
    }
    Ok(())
}

// Puts the lines of clauses.
pub(crate) fn put_clauses<S: Sink>(
    clauses: &[LitList],
    block: &mut Block,
    sink: &mut S,
) -> Result<(), Failed>
    ensures { Puts S.written S.flushed S.faults S.has_room sink.old block.old sink.new block.new
        (flat_map clause_text clauses.now) result }
{
    for clause in clauses {
        put_clause(clause.lits(), block, sink)?;
    }
    Ok(())
}

// Puts the line of a clause.
fn put_clause<S: Sink>(lits: &[Lit], block: &mut Block, sink: &mut S) -> Result<(), Failed>
    ensures { Puts S.written S.flushed S.faults S.has_room sink.old block.old sink.new block.new
        (clause_text lits.now) result }
{
    put_literals(lits, block, sink)?;
    put_end(block, sink)
}

// Puts the numbers of literals, each with a blank.
fn put_literals<S: Sink>(lits: &[Lit], block: &mut Block, sink: &mut S) -> Result<(), Failed>
    ensures { Puts S.written S.flushed S.faults S.has_room sink.old block.old sink.new block.new
        (flat_map (λ l. spaced (literal_word l)) lits.now) result }
{
    for lit in lits {
        block.put_line(&words::literal(*lit), sink)?;
    }
    Ok(())
}

// Puts what ends a scope or a clause.
fn put_end<S: Sink>(block: &mut Block, sink: &mut S) -> Result<(), Failed>
    ensures { Puts S.written S.flushed S.faults S.has_room sink.old block.old sink.new block.new closing result }
{
    block.put(b"0\n", sink)
}
