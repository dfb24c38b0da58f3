//! What is written of a verdict.
ghost use Rattle.std.specs.Prelude.{◌≡◌, ◌≤◌, [], length, IfErr, IfOk, IfSome, MatchOption, OnOk};
ghost use Rattle.aig.specs.Strategies.{IsStrategy};
ghost use Rattle.engine.specs.Asks.{IsCertificateOf, IsVerdictOf};
ghost use Rattle.qbf_c.specs.Buffers.{Fills};
ghost use Rattle.qbf_c.specs.Codes.{ask_refusal_code, no_memory};
ghost use Rattle.qbf_c.specs.Told.{IsCircuitText, IsTextOf, IsToldCircuit, IsTraceText, most_gates};

use crate::code::{NO_MEMORY, asked};
use crate::fill::fill;
use aig::Strategy;
use aiger_out::{write_aag, write_aig};
use buffers::Draft;
use engine::Engine;
use ports::Failed;
use qrp_trace::write_trace;
use std::alloc::Global;
use trim::trim;

// The form in which a circuit is shown.
#[derive(Clone, Copy, Debug)]
pub(crate) struct Form {
    // In the binary form of AIGER, or else in ASCII.
    pub binary: bool,
    // Without the gates that no output is reached from.
    pub trimmed: bool,
}

pub(crate) fn certificate(
    alloc: Global,
    engine: &Engine,
    form: Form,
    bytes: &mut [u8],
    count: &mut usize,
) -> u32
    ensures says { Fills (ask_refusal_code engine.now)
        (λ text. IfSome engine.now.verdict (λ v. IsCircuitText form.binary form.trimmed engine.now v text))
        bytes.old bytes.new count.old count.new result }
    ensures facts { IfSome engine.now.verdict (IsVerdictOf engine.now.formula) }
{
    // For the proof: a verdict that stands is right.
    let _facts = engine.verdict();
    match circuit_text(alloc, engine, form) {
        Ok(draft) => fill(draft.bytes(), bytes, count),
        Err(code) => code,
    }
}

pub(crate) fn trace(alloc: Global, engine: &Engine, bytes: &mut [u8], count: &mut usize) -> u32
    ensures says { Fills (ask_refusal_code engine.now)
        (λ text. IfSome engine.now.verdict (λ v. IsTraceText engine.now v text))
        bytes.old bytes.new count.old count.new result }
    ensures facts { IfSome engine.now.verdict (IsVerdictOf engine.now.formula) }
{
    // For the proof: a verdict that stands is right.
    let _facts = engine.verdict();
    match trace_text(alloc, engine) {
        Ok(draft) => fill(draft.bytes(), bytes, count),
        Err(code) => code,
    }
}

// The text of the circuit.
fn circuit_text(alloc: Global, engine: &Engine, form: Form) -> Result<Draft, u32>
    ensures refused { MatchOption (ask_refusal_code engine.now) (IfErr result (λ c. c ≡ no_memory))
        (λ c. result ≡ Err c) }
    ensures text { IfSome engine.now.verdict (λ v. IfOk result
        (λ draft. IsCircuitText form.binary form.trimmed engine.now v draft.bytes)) }
{
    let strategy = circuit(alloc, engine, form.trimmed)?;
    written(alloc, &strategy, form.binary)
}

// The circuit of the verdict's proof, as it is or trimmed.
pub(crate) fn circuit(alloc: Global, engine: &Engine, trimmed: bool) -> Result<Strategy, u32>
    ensures refused { MatchOption (ask_refusal_code engine.now) (IfErr result (λ c. c ≡ no_memory))
        (λ c. result ≡ Err c) }
    ensures strategy { IfOk result IsStrategy }
    ensures told { IfSome engine.now.verdict (λ v. IfOk result (IsToldCircuit trimmed engine.now v)) }
{
    let whole = whole_circuit(engine)?;
    if !trimmed {
        return Ok(whole);
    }
    match trim(alloc, &whole) {
        Ok(strategy) => Ok(strategy),
        Err(_) => Err(NO_MEMORY),
    }
}

// The same as it is.
fn whole_circuit(engine: &Engine) -> Result<Strategy, u32>
    ensures refused { MatchOption (ask_refusal_code engine.now) (IfErr result (λ c. c ≡ no_memory))
        (λ c. result ≡ Err c) }
    ensures strategy { IfOk result IsStrategy }
    ensures certifies { IfSome engine.now.verdict (λ v. IfOk result (IsCertificateOf engine.now.formula v)) }
    ensures few { IfOk result (λ s. length s.aig.gates ≤ most_gates engine.now.counts) }
{
    match engine.certificate() {
        Ok(strategy) => Ok(strategy),
        Err(refusal) => Err(asked(refusal)),
    }
}

// A circuit as a text.
fn written(alloc: Global, strategy: &Strategy, binary: bool) -> Result<Draft, u32>
    requires { IsStrategy strategy.now }
    ensures text { IfOk result (λ draft. IsTextOf binary strategy.now draft.bytes) }
    ensures memory { IfErr result (λ c. c ≡ no_memory) }
{
    let mut draft = Draft::new(alloc);
    match write(strategy, binary, &mut draft) {
        Ok(()) => Ok(draft),
        Err(_) => Err(NO_MEMORY),
    }
}

// Writes a circuit into an empty draft.
fn write(strategy: &Strategy, binary: bool, draft: &mut Draft) -> Result<(), Failed>
    requires strategy { IsStrategy strategy.now }
    requires empty { draft.old.bytes ≡ [] }
    ensures { OnOk result (IsTextOf binary strategy.now draft.new.bytes) }
{
    if binary {
        write_aig(strategy, draft)
    } else {
        write_aag(strategy, draft)
    }
}

// The text of the trace.
fn trace_text(alloc: Global, engine: &Engine) -> Result<Draft, u32>
    ensures refused { MatchOption (ask_refusal_code engine.now) (IfErr result (λ c. c ≡ no_memory))
        (λ c. result ≡ Err c) }
    ensures text { IfSome engine.now.verdict (λ v. IfOk result
        (λ draft. IsTraceText engine.now v draft.bytes)) }
{
    // For the proof: the proof of a verdict is made of steps of the derivation.
    let _proof = engine.derivation();
    let core = match engine.trace_core() {
        Ok(core) => core,
        Err(refusal) => return Err(asked(refusal)),
    };
    let mut draft = Draft::new(alloc);
    match write_trace(&core, engine.prefix(), &mut draft) {
        Ok(()) => Ok(draft),
        Err(_) => Err(NO_MEMORY),
    }
}
