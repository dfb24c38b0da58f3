//! Traces as texts.
ghost use Rattle.std.specs.Prelude.{◌≡◌, ℕ, ◌+◌, ◌-◌, ◌≤◌, ◌<◌, ◌^◌, ◌++◌, length, max, IsOk, OnOk};
ghost use Rattle.std.specs.List.{flat_map, range_with_len};
ghost use Rattle.std.specs.Io.KnownBytes.{Appends, Keeps};
ghost use Rattle.prefix.specs.Scopes.{all_variables, quantifier_at, variables_at};
ghost use Rattle.ports.specs.Bytes.{AppendsFront};
ghost use Rattle.ports.specs.Causes.{HasCause};
ghost use Rattle.step_core.specs.Cores.{IsNumbered};
ghost use Rattle.qrp_trace.specs.Texts.{greatest, header_line, literal_word, number_word, qrp_text, quantifier_word, scope_line, scope_numbered, step_line, variables_line, verdict_line as last_line};
ghost use Rattle.ports.specs.Writing.{Writes};
ghost use Rattle.blocks.specs.Held.{Puts};

use crate::words;
use blocks::Block;
use ports::{Failed, Sink};
use prefix::{Lit, Prefix, Quant, Var};
use std::collections::BTreeSet;
use step_core::Core;

/// Writes the trace of a core under a prefix: the header, a line for each scope that has variables, one for each step,
/// and the verdict. Each step but the last is, by its number, one that a later one rests on. This takes no memory.
///
/// Fails only where the sink does, with a front of the text written. Nothing is flushed.
pub fn write_trace<S: Sink>(core: &Core, prefix: &Prefix, sink: &mut S) -> Result<(), Failed>
    ensures ok { OnOk result (Appends (S.written sink.old) (S.written sink.new) (qrp_text prefix.now core.now)) }
    ensures front { AppendsFront (S.written sink.old) (S.written sink.new) (qrp_text prefix.now core.now) }
    ensures flushed { Keeps (S.flushed sink.old) (S.flushed sink.new) }
    ensures cause { HasCause (S.faults sink.old) (S.faults sink.new) result }
    ensures room { (n : ℕ) → length (qrp_text prefix.now core.now) ≤ n → S.has_room sink.old n
        → IsOk result × S.has_room sink.new (n - length (qrp_text prefix.now core.now)) }
    ensures numbered { IsNumbered core.now.lines }
{
    let _ = core.len();
    put_trace(core, prefix, sink)
}

// Writes the trace of a core, in blocks.
fn put_trace<S: Sink>(core: &Core, prefix: &Prefix, sink: &mut S) -> Result<(), Failed>
    ensures { Writes S.written S.flushed S.faults S.has_room sink.old sink.new (qrp_text prefix.now core.now) result }
{
    let mut block = Block::new();
    put_parts(core, prefix, &mut block, sink)?;
    block.finish(sink)
}

// Puts the parts of a trace: the header, the scopes, the steps and the verdict.
fn put_parts<S: Sink>(
    core: &Core,
    prefix: &Prefix,
    block: &mut Block,
    sink: &mut S,
) -> Result<(), Failed>
    ensures { Puts S.written S.flushed S.faults S.has_room sink.old block.old sink.new block.new
        (qrp_text prefix.now core.now) result }
{
    put_header(core, prefix, block, sink)?;
    put_scopes(prefix, block, sink)?;
    put_steps(core, block, sink)?;
    put_verdict(core.winner(), block, sink)
}

// Puts the first line.
fn put_header<S: Sink>(
    core: &Core,
    prefix: &Prefix,
    block: &mut Block,
    sink: &mut S,
) -> Result<(), Failed>
    ensures { Puts S.written S.flushed S.faults S.has_room sink.old block.old sink.new block.new
        (header_line (greatest (all_variables prefix.now)) (length core.now.lines)) result }
{
    block.put_line(&words::header(greatest_variable(prefix), core.len()), sink)
}

/// The greatest number of a variable, 0 where there is none.
pub fn greatest_variable(prefix: &Prefix) -> usize
    ensures { result ≡ greatest (all_variables prefix.now) }
{
    let mut most = 0;
    for s in 0..prefix.scopes() {
        most = greater(most, greatest_of(prefix.vars_of(s + 1)));
    }
    most
}

// The greatest number of some variables, 0 where there is none.
fn greatest_of(vars: &BTreeSet<Var>) -> usize
    ensures { result ≡ greatest vars.now.keys }
{
    let mut most = 0;
    for v in vars {
        most = greater(most, v.number() as usize);
    }
    most
}

// The greater of two numbers.
fn greater(a: usize, b: usize) -> usize
    ensures { result ≡ max a b }
{
    a.max(b)
}

// Puts the lines of the scopes.
fn put_scopes<S: Sink>(prefix: &Prefix, block: &mut Block, sink: &mut S) -> Result<(), Failed>
    ensures { Puts S.written S.flushed S.faults S.has_room sink.old block.old sink.new block.new
        (flat_map scope_line prefix.now) result }
{
    for s in 0..prefix.scopes() {
        put_scope(prefix, s + 1, block, sink)?;
    }
    Ok(())
}

// Puts the line of a scope, if it has variables.
fn put_scope<S: Sink>(
    prefix: &Prefix,
    s: usize,
    block: &mut Block,
    sink: &mut S,
) -> Result<(), Failed>
    requires first { 1 ≤ s }
    requires last { s ≤ length prefix.now }
    ensures { Puts S.written S.flushed S.faults S.has_room sink.old block.old sink.new block.new
        (scope_line (scope_numbered prefix.now s)) result }
{
    let vars = prefix.vars_of(s);
    if vars.is_empty() {
        return Ok(());
    }
    put_quantifier(prefix.scope_quant(s).unwrap(), block, sink)?;
    put_variables(vars, block, sink)?;
    block.put(b"0\n", sink)
}

// Puts the letter of a quantifier.
fn put_quantifier<S: Sink>(quant: Quant, block: &mut Block, sink: &mut S) -> Result<(), Failed>
    ensures { Puts S.written S.flushed S.faults S.has_room sink.old block.old sink.new block.new
        (quantifier_word quant) result }
{
    match quant {
        Quant::Exists => block.put(b"e ", sink),
        Quant::Forall => block.put(b"a ", sink),
    }
}

// Puts variables, each with a blank.
fn put_variables<S: Sink>(
    vars: &BTreeSet<Var>,
    block: &mut Block,
    sink: &mut S,
) -> Result<(), Failed>
    ensures { Puts S.written S.flushed S.faults S.has_room sink.old block.old sink.new block.new
        (flat_map number_word vars.now.keys) result }
{
    for v in vars {
        put_number(v.number() as usize, block, sink)?;
    }
    Ok(())
}

// Puts the lines of the steps.
fn put_steps<S: Sink>(core: &Core, block: &mut Block, sink: &mut S) -> Result<(), Failed>
    ensures { Puts S.written S.flushed S.faults S.has_room sink.old block.old sink.new block.new
        (flat_map (step_line core.now.lines) (range_with_len 1 (length core.now.lines))) result }
{
    for i in 0..core.len() {
        put_step(core, i + 1, block, sink)?;
    }
    Ok(())
}

// Puts the line of a step.
fn put_step<S: Sink>(core: &Core, i: usize, block: &mut Block, sink: &mut S) -> Result<(), Failed>
    requires first { 1 ≤ i }
    requires last { i ≤ length core.now.lines }
    ensures { Puts S.written S.flushed S.faults S.has_room sink.old block.old sink.new block.new
        (step_line core.now.lines i) result }
{
    put_number(i, block, sink)?;
    put_literals(core.lits(i), block, sink)?;
    block.put_line(&words::antecedents(core.step(i)), sink)
}

/// Puts literals into a block by their numbers, each with a blank behind it. This takes no memory.
///
/// Fails only where the sink does, with a front of what was held and of these words written. Nothing is flushed.
pub fn put_literals<S: Sink>(lits: &[Lit], block: &mut Block, sink: &mut S) -> Result<(), Failed>
    ensures { Puts S.written S.flushed S.faults S.has_room sink.old block.old sink.new block.new
        (flat_map literal_word lits.now) result }
{
    for lit in lits {
        put_literal(*lit, block, sink)?;
    }
    Ok(())
}

// Puts a literal, and a blank.
fn put_literal<S: Sink>(lit: Lit, block: &mut Block, sink: &mut S) -> Result<(), Failed>
    ensures { Puts S.written S.flushed S.faults S.has_room sink.old block.old sink.new block.new
        (literal_word lit) result }
{
    block.put_line(&words::literal(lit), sink)
}

// Puts the last line.
fn put_verdict<S: Sink>(winner: Quant, block: &mut Block, sink: &mut S) -> Result<(), Failed>
    ensures { Puts S.written S.flushed S.faults S.has_room sink.old block.old sink.new block.new
        (last_line winner) result }
{
    match winner {
        Quant::Exists => block.put(b"r SAT\n", sink),
        Quant::Forall => block.put(b"r UNSAT\n", sink),
    }
}

// Puts a number, and a blank.
fn put_number<S: Sink>(n: usize, block: &mut Block, sink: &mut S) -> Result<(), Failed>
    ensures { Puts S.written S.flushed S.faults S.has_room sink.old block.old sink.new block.new
        (number_word n) result }
{
    block.put_line(&words::number(n), sink)
}
