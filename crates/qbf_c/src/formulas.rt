//! Formulas as texts: the open one, and the one that checks a circuit.
ghost use Rattle.std.specs.Prelude.{◌≡◌, ◌≢◌, ◌+◌, ◌-◌, ◌^◌, ◌<◌, ◌≤◌, length, min, Err, IfErr, IfOk, IfNone, IfSome, OnOk, OnSome};
ghost use Rattle.std.specs.List.{AllByRecursion, flat_map};
ghost use Rattle.prefix.specs.Scopes.{IsPrefix, all_variables};
ghost use Rattle.truth.specs.declared.formula.Formula.{Formula as AnyFormula};
ghost use Rattle.calculus.specs.Rows.{IsRow};
ghost use Rattle.frames.specs.State.{open_clauses as clauses_of};
ghost use Rattle.qdimacs_out.specs.Texts.{formula_text as text_of};
ghost use Rattle.qrp_trace.specs.Texts.{greatest};
ghost use Rattle.engine.specs.Asks.{IsVerdictOf};
ghost use Rattle.qbf_c.specs.Codes.{ask_refusal_code, no_memory};
ghost use Rattle.qbf_c.specs.Formulas.{CheckSays, IsChecked, IsUnchecked, WriteSays, fault_code, most_declared, open_text as text_of_open};
ghost use Rattle.qbf_c.specs.Read.{limit_code};

use crate::code::{NO_MEMORY, asked};
use crate::copied::copied;
use crate::fill::fill;
use crate::reads::beyond;
use crate::texts::circuit;
use buffers::Draft;
use certcheck::{CheckFault, check_circuit};
use engine::Engine;
use matrix::Matrix;
use prefix::{LitList, Prefix};
use qdimacs_out::{Header, write_formula, write_lent};
use qrp_trace::greatest_variable;
use reading::Quantity;
use std::alloc::Global;
use truth::Formula;

pub(crate) fn write(alloc: Global, engine: &Engine, bytes: &mut [u8], count: &mut usize) -> u32
    ensures says { WriteSays engine.now.formula bytes.old bytes.new count.old count.new result }
    ensures valid { IsPrefix engine.now.formula.scopes }
    ensures rows { AllByRecursion (IsRow engine.now.formula.scopes) (clauses_of engine.now.formula) }
{
    match open_text(alloc, engine) {
        Ok(draft) => fill(draft.bytes(), bytes, count),
        Err(code) => code,
    }
}

// The text of the open formula, where a header can declare its clauses.
fn open_text(alloc: Global, engine: &Engine) -> Result<Draft, u32>
    ensures text { IfOk result (λ draft. draft.bytes ≡ text_of_open engine.now.formula) }
    ensures few { OnOk result (length (clauses_of engine.now.formula) ≤ most_declared) }
    ensures many { IfErr result (λ c. c ≢ no_memory → (c ≡ limit_code Quantity.Clauses)
        × (most_declared < length (clauses_of engine.now.formula))) }
    ensures valid { IsPrefix engine.now.formula.scopes }
    ensures rows { AllByRecursion (IsRow engine.now.formula.scopes) (clauses_of engine.now.formula) }
{
    let prefix = engine.prefix();
    let Ok(matrix) = engine.open_clauses(alloc) else {
        return Err(NO_MEMORY);
    };
    let Some(header) = header_of(prefix, &matrix) else {
        return Err(beyond(Quantity::Clauses));
    };
    let mut draft = Draft::new(alloc);
    match write_lent(header, prefix, &matrix, &mut draft) {
        Ok(()) => Ok(draft),
        Err(_) => Err(NO_MEMORY),
    }
}

// The numbers of the header, unless there are more clauses than one declares.
fn header_of(prefix: &Prefix, matrix: &Matrix<'_>) -> Option<Header>
    ensures numbers { IfSome result (λ header. (header.vars ≡ greatest (all_variables prefix.now))
        × (header.clauses ≡ length matrix.now)) }
    ensures few { OnSome result (length matrix.now ≤ most_declared) }
    ensures many { IfNone result (most_declared < length matrix.now) }
{
    let _valid = prefix.scopes();
    let vars = greatest_variable(prefix);
    let clauses = count_of(matrix);
    if clauses > u64::from(u32::MAX) {
        return None;
    }
    Some(Header {
        vars: vars as u32,
        clauses: clauses as u32,
    })
}

// How many clauses a matrix has, up to 2^64 - 1.
fn count_of(matrix: &Matrix<'_>) -> u64
    ensures { result ≡ min (length matrix.now) (2 ^ 64 - 1) }
{
    let parts = matrix.parts();
    count_more(parts.first.len() as u64, parts.more)
}

// The same with what lists have beside so many clauses.
fn count_more(first: u64, more: &[&[LitList]]) -> u64
    ensures { result ≡ min (first + length (flat_map (λ part. part.now) more.now)) (2 ^ 64 - 1) }
{
    let mut count = first;
    for part in more {
        count = count.saturating_add(part.len() as u64);
    }
    count
}

pub(crate) fn check_formula(
    alloc: Global,
    engine: &Engine,
    trimmed: bool,
    bytes: &mut [u8],
    count: &mut usize,
) -> u32
    ensures says { CheckSays trimmed engine.now bytes.old bytes.new count.old count.new result }
    ensures facts { IfSome engine.now.verdict (IsVerdictOf engine.now.formula) }
{
    // For the proof: a verdict that stands is right.
    let _facts = engine.verdict();
    match check_text(alloc, engine, trimmed) {
        Ok(draft) => fill(draft.bytes(), bytes, count),
        Err(code) => code,
    }
}

// The text of the check formula.
fn check_text(alloc: Global, engine: &Engine, trimmed: bool) -> Result<Draft, u32>
    ensures refused { IfSome (ask_refusal_code engine.now) (λ c. result ≡ Err c) }
    ensures text { IfSome engine.now.verdict (λ v. IfOk result (λ draft. (f : AnyFormula)
        × IsChecked trimmed engine.now v f × (draft.bytes ≡ text_of f))) }
    ensures unchecked { IfSome engine.now.verdict (λ v. IfErr result (λ c. c ≢ no_memory
        → IsUnchecked trimmed engine.now v c)) }
{
    let f = checked(alloc, engine, trimmed)?;
    let mut draft = Draft::new(alloc);
    match write_formula(&f, &mut draft) {
        Ok(()) => Ok(draft),
        Err(_) => Err(NO_MEMORY),
    }
}

// The check formula of the circuit of the verdict's proof.
fn checked(alloc: Global, engine: &Engine, trimmed: bool) -> Result<Formula, u32>
    ensures refused { IfSome (ask_refusal_code engine.now) (λ c. result ≡ Err c) }
    ensures formula { IfSome engine.now.verdict (λ v. IfOk result (IsChecked trimmed engine.now v)) }
    ensures unchecked { IfSome engine.now.verdict (λ v. IfErr result (λ c. c ≢ no_memory
        → IsUnchecked trimmed engine.now v c)) }
{
    let circuit = circuit(alloc, engine, trimmed)?;
    let assumed = match engine.assumed() {
        Ok(assumed) => assumed,
        Err(refusal) => return Err(asked(refusal)),
    };
    let Ok(matrix) = engine.open_clauses(alloc) else {
        return Err(NO_MEMORY);
    };
    let Ok(clauses) = copied(alloc, &matrix) else {
        return Err(NO_MEMORY);
    };
    match check_circuit(alloc, engine.prefix(), &clauses, assumed, &circuit) {
        Ok(f) => Ok(f),
        Err(fault) => Err(unmade(fault)),
    }
}

// The code of a formula that isn't made.
fn unmade(fault: CheckFault) -> u32
    ensures { result ≡ fault_code fault }
{
    match fault {
        CheckFault::Limit { quantity } => beyond(quantity),
        CheckFault::NoMemory => NO_MEMORY,
    }
}
