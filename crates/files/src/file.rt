//! One formula, or that of a circuit, read from the chosen input and decided.
ghost use Rattle.std.specs.Prelude.{◌≡◌, ◌≢◌, ◌≤◌, ◌++◌, ◌^◌, ◌-◌, ℕ, Bool, true, length, flat_map, List, IfOk, IfErr, IfSome, IsErrOf, IsOk, OnOk, [], None, Some};
ghost use Rattle.aig.specs.Strategies.{IsStrategy};
ghost use Rattle.ports.specs.Bytes.{AllFlushed};
ghost use Rattle.ports.specs.Causes.{IsCounted};
ghost use Rattle.qdimacs.specs.Rules.{parsed};
ghost use Rattle.solve.specs.Feeding.{HoldsFormula, opened};
ghost use Rattle.ports.specs.Writing.{Writes};
ghost use Rattle.blocks.specs.Held.{Puts};
ghost use Rattle.files.specs.Endings.{IsUnread, ending_with};
ghost use Rattle.engine.specs.Asks.{first_values};
ghost use Rattle.engine.specs.Refusals.{winner_of};
ghost use Rattle.engine.specs.State.{VerdictState};
ghost use Rattle.prefix.specs.Scopes.{quantifier_at};
ghost use Rattle.prefix.specs.Sides.{is_of};
ghost use Rattle.truth.specs.Formed.{IsFormed};
ghost use Rattle.files.specs.Inputs.{Says, format_of};
ghost use Rattle.solve.specs.Decisions.{IsAnsweredBy, answer_with, unassumed};
ghost use Rattle.files.specs.Jobs.{IsHeaderOf, LeavesOutput, RepliesTo, RoomForJob, WritesJob, solution_line, value_line as line_of_value, value_lines};
ghost use Rattle.solve.specs.Certificates.{AllReached, Certifies, gates_after};
ghost use Rattle.solve.specs.Answers.{IsAnswerTo};
ghost use Rattle.solve.specs.Endings.{IsDone};
ghost use Rattle.files.specs.Solve.{HasAnswer, IsEnding, Solves};
ghost use Rattle.solve.specs.Standing.{Standing};
ghost use Rattle.solve.specs.Holding.{Holds};
ghost use Rattle.solve.specs.Outside.{SendsReply, TakesInput};
ghost use Rattle.solve.specs.Terms.{Terms, terms_of};
ghost use Rattle.engine.specs.Keeping.{MayBeKept};
ghost use Rattle.truth.specs.declared.formula.Formula.{Formula as AnyFormula};

use crate::input::read_input;
use crate::job::Job;
use crate::lines::{put_outermost, put_solution, write_solution};
use aig::Strategy;
use blocks::Block;
use engine::Engine;
use memory::NoMemory;
use ports::{Desk, Failed, Sink};
use prefix::{Prefix, Quant};
use solve::{Answer, Ending, decide, engine_of, put_told, write_answer, write_circuit, write_core};
use std::alloc::Global;
use trail::Stopped;
use trim::trim;
use truth::no_assumptions;

// The numbers of a formula's header: of its variables and of its clauses.
#[derive(Clone, Copy, Debug)]
pub(crate) struct Header {
    pub vars: u32,
    pub clauses: u32,
}

/// Reads the formula that is left of the chosen input, or the circuit for `Job::Qcir`, decides it by search with a
/// budget of that many steps, which may begin anew so often and keep so many long learned rows that are no reasons, and
/// writes what the job asks for: the answer's line, `SAT` or `UNSAT`; its solution line with the values of outermost
/// variables (QDIMACS 1.1, output format); the trace of the verdict's proof (QRP); or the circuit by which its winner
/// wins (AIGER 1.9, in ASCII or binary, trimmed or not). A circuit is decided by its formula (`qcir::translate`), and
/// its own variables and gates are the formula's. Where the budget was spent first, it writes `UNKNOWN`, or the
/// solution line of that.
///
/// UNKNOWN comes only where the budget is below the step limit of the formula's variables and of so many restarts, and
/// where propagation alone refutes the clauses only where it is below 2 * n * (n + 3), for n variables. What the search
/// that stopped tells is then put into `stops`, before the line is written. With an answer all that is written is
/// flushed. What a search tells stays in `stops` where the line can't be written.
pub fn run_file<D: Desk, S: Sink>(
    alloc: Global,
    job: Job,
    budget: u64,
    restarts: u32,
    kept: u32,
    desk: &mut D,
    sink: &mut S,
    stops: &mut Vec<Stopped>,
) -> Ending
    requires { MayBeKept kept }
    // The ending is what the text says, where the desk tells what it holds.
    ensures ending { IfSome (D.left desk.old)
        (λ text. IsEnding (format_of job) (terms_of budget restarts kept) text result) }
    ensures status { (s : ℕ) → result ≡ Ending.Done s → HasAnswer s }
    // A text that is decided was read to its end.
    ensures read { IsDone result → IfSome (D.left desk.old) (λ _. D.left desk.new ≡ Some []) }
    // Faults come from outside alone, and an answer only where there was none.
    ensures read_fault { IsCounted (result ≡ Ending.ReadFault) (IsDone result) (D.faults desk.old) (D.faults desk.new) }
    ensures flows { D.flows desk.old → (result ≢ Ending.ReadFault) × D.flows desk.new }
    ensures write_fault { IsCounted (result ≡ Ending.WriteFault) (IsDone result) (S.faults sink.old)
        (S.faults sink.new) }
    ensures room { RoomForJob job (terms_of budget restarts kept) (D.left desk.old) (S.has_room sink.old) → result ≢
        Ending.WriteFault }
    // What is written, with what a search tells that stopped, and that all of it is flushed where there is an answer.
    ensures output { LeavesOutput job (terms_of budget restarts kept) (D.left desk.old)
        (S.written sink.old, S.written sink.new)
        (stops.old.items, stops.new.items) result }
    ensures flushed { IsDone result → AllFlushed (S.written sink.new) (S.flushed sink.old) (S.flushed sink.new) }
    // What the desk holds, and whether it is steady, stays.
    ensures content { (n : List ℕ) → D.content desk.new n ≡ D.content desk.old n }
    ensures stays { (n : List ℕ) → D.steady desk.old n → D.steady desk.new n }
{
    match answer(alloc, job, budget, restarts, kept, desk, sink, stops) {
        Ok(answer) => Ending::Done(answer.status()),
        Err(ending) => ending,
    }
}

// Replies to the formula of the chosen input.
fn answer<D: Desk, S: Sink>(
    alloc: Global,
    job: Job,
    budget: u64,
    restarts: u32,
    kept: u32,
    desk: &mut D,
    sink: &mut S,
    stops: &mut Vec<Stopped>,
) -> Result<Answer, Ending>
    requires { MayBeKept kept }
    ensures answer { IfOk result (λ a. IfSome (D.left desk.old)
        (λ text. Solves (format_of job) (terms_of budget restarts kept) text a)) }
    ensures ending { IfErr result (λ e. ¬ IsDone e × IfSome (D.left desk.old)
        (λ text. IsEnding (format_of job) (terms_of budget restarts kept) text e)) }
    ensures desk { TakesInput D.content D.left D.faults D.steady D.flows desk.old desk.new result }
    ensures sink { SendsReply S.written S.flushed S.faults
        (RoomForJob job (terms_of budget restarts kept) (D.left desk.old) (S.has_room sink.old)) sink.old sink.new
        result }
    ensures output { LeavesOutput job (terms_of budget restarts kept) (D.left desk.old)
        (S.written sink.old, S.written sink.new)
        (stops.old.items, stops.new.items) (ending_with result) }
{
    let (mut engine, header) = load(alloc, job, desk)?;
    reply(
        &mut engine,
        header,
        job,
        budget,
        restarts,
        kept,
        sink,
        stops,
    )
}

// An engine that holds the formula of the chosen input, and the numbers of its header.
fn load<D: Desk>(alloc: Global, job: Job, desk: &mut D) -> Result<(Engine, Header), Ending>
    ensures formula { IfOk result (λ loaded. (f : AnyFormula) × HoldsFormula f.prefix f.clauses loaded.0
        × IsHeaderOf f loaded.1 × IfSome (D.left desk.old) (λ text. Says (format_of job) text (parsed f))) }
    ensures ending { IfErr result (λ e. IsUnread e
        × ((terms : Terms) → IfSome (D.left desk.old) (λ text. IsEnding (format_of job) terms text e))) }
    ensures desk { TakesInput D.content D.left D.faults D.steady D.flows desk.old desk.new result }
{
    let f = read_input(alloc, job, desk)?;
    let header = Header {
        vars: f.declared_vars,
        clauses: f.declared_clauses,
    };
    let engine = engine_of(alloc, f)?;
    Ok((engine, header))
}

// Decides the formula that an engine holds, replies, and flushes.
fn reply<S: Sink>(
    engine: &mut Engine,
    header: Header,
    job: Job,
    budget: u64,
    restarts: u32,
    kept: u32,
    sink: &mut S,
    stops: &mut Vec<Stopped>,
) -> Result<Answer, Ending>
    requires { MayBeKept kept }
    ensures { (f : AnyFormula) → HoldsFormula f.prefix f.clauses engine.old → IsHeaderOf f header → RepliesTo S.written
        S.flushed S.faults S.has_room job (terms_of budget restarts kept) f sink.old sink.new
        (stops.old.items, stops.new.items) result }
{
    // For the proof: the truth under no assumptions is the truth.
    no_assumptions();
    engine.set_restarts(restarts);
    engine.set_kept_rows(kept);
    stops.reserve(1)?;
    let decision = decide(engine, budget)?;
    let answer = decision.answer();
    put_told(stops, decision.into_stopped());
    write_reply(*stops.allocator(), engine, header, job, answer, sink)?;
    sink.flush()?;
    Ok(answer)
}

// Writes what the job asks for, where a formula was decided with this answer.
fn write_reply<S: Sink>(
    alloc: Global,
    engine: &Engine,
    header: Header,
    job: Job,
    answer: Answer,
    sink: &mut S,
) -> Result<(), Ending>
    ensures { (terms : Terms) (f : AnyFormula) (s : Standing) → Holds terms engine.now s → IsHeaderOf f header
        → IsAnsweredBy f answer s → WritesJob S.written S.flushed S.faults S.has_room job terms f answer sink.old
        sink.new result }
{
    match answer {
        Answer::Unknown => write_unknown(header, job, sink),
        _ => write_verdict(alloc, engine, header, job, answer, sink),
    }
}

// The same where the budget was spent.
fn write_unknown<S: Sink>(header: Header, job: Job, sink: &mut S) -> Result<(), Ending>
    ensures { (terms : Terms) (f : AnyFormula) → IsHeaderOf f header → WritesJob S.written S.flushed S.faults S.has_room
        job terms f Answer.Unknown sink.old sink.new result }
{
    match job {
        Job::Qdo => Ok(write_solution(Answer::Unknown, header, sink)?),
        _ => Ok(write_answer(Answer::Unknown, sink)?),
    }
}

// The same where it was decided with a verdict.
fn write_verdict<S: Sink>(
    alloc: Global,
    engine: &Engine,
    header: Header,
    job: Job,
    answer: Answer,
    sink: &mut S,
) -> Result<(), Ending>
    requires { answer ≢ Answer.Unknown }
    ensures { (terms : Terms) (f : AnyFormula) (s : Standing) → Holds terms engine.now s → IsHeaderOf f header
        → IsAnsweredBy f answer s → WritesJob S.written S.flushed S.faults S.has_room job terms f answer sink.old
        sink.new result }
{
    match job {
        Job::Solve | Job::Qcir => Ok(write_answer(answer, sink)?),
        Job::Qdo => Ok(write_result(engine, header, answer, sink)?),
        Job::Trace => write_proof(engine, sink),
        Job::Cert {
            binary,
            trim: trimmed,
        } => write_certificate(alloc, engine, binary, trimmed, sink),
    }
}

// Writes the trace of a verdict's proof. Where there is a verdict, it fails for want of memory or a fault alone.
fn write_proof<S: Sink>(engine: &Engine, sink: &mut S) -> Result<(), Ending>
    ensures { (terms : Terms) (f : AnyFormula) (s : Standing) (truth : Bool) → Holds terms engine.now s
        → IsAnsweredBy f (answer_with truth) s → WritesJob S.written S.flushed S.faults S.has_room Job.Trace terms f
        (answer_with truth) sink.old sink.new result }
{
    // For the proof: the verdict's proof is that of the derivation, which is legal.
    let _proof = engine.derivation();
    match engine.trace_core() {
        Ok(core) => Ok(write_core(&core, engine.prefix(), sink)?),
        Err(_) => Err(Ending::NoMemory),
    }
}

// Writes the certificate of a verdict: its circuit in ASCII or in the binary form, as it is or trimmed.
fn write_certificate<S: Sink>(
    alloc: Global,
    engine: &Engine,
    binary: bool,
    trimmed: bool,
    sink: &mut S,
) -> Result<(), Ending>
    ensures { (terms : Terms) (f : AnyFormula) (s : Standing) (truth : Bool) → Holds terms engine.now s
        → IsAnsweredBy f (answer_with truth) s → WritesJob S.written S.flushed S.faults S.has_room
        (Job.Cert binary trimmed) terms f (answer_with truth) sink.old sink.new result }
{
    let circuit = circuit_of(alloc, engine, trimmed)?;
    Ok(write_circuit(&circuit, binary, sink)?)
}

// The circuit of a verdict, as it is or trimmed. Where there is a verdict, it fails for want of memory alone.
fn circuit_of(alloc: Global, engine: &Engine, trimmed: bool) -> Result<Strategy, NoMemory>
    ensures strategy { IfOk result IsStrategy }
    ensures certifies { (terms : Terms) (s : Standing) → Holds terms engine.now s → IfSome s.script.verdict
        (λ given. IfOk result (Certifies s.script.formula given s.witness.values (gates_after terms s.script))) }
    ensures reached { trimmed ≡ true → IfOk result AllReached }
{
    let whole = whole_circuit(engine)?;
    if trimmed {
        trim(alloc, &whole)
    } else {
        Ok(whole)
    }
}

// The circuit of a verdict as it is.
pub(crate) fn whole_circuit(engine: &Engine) -> Result<Strategy, NoMemory>
    ensures strategy { IfOk result IsStrategy }
    ensures certifies { (terms : Terms) (s : Standing) → Holds terms engine.now s → IfSome s.script.verdict
        (λ given. IfOk result (Certifies s.script.formula given s.witness.values (gates_after terms s.script))) }
{
    match engine.certificate() {
        Ok(strategy) => Ok(strategy),
        Err(_) => Err(NoMemory),
    }
}

// Writes the solution line of a verdict, and the values of the first scope where this is the winner's, in blocks.
fn write_result<S: Sink>(
    engine: &Engine,
    header: Header,
    answer: Answer,
    sink: &mut S,
) -> Result<(), Failed>
    ensures { (terms : Terms) (f : AnyFormula) (s : Standing) (truth : Bool) → Holds terms engine.now s → IsHeaderOf
        f header
        → s.script.formula ≡ opened f → s.script.verdict ≡ Some (unassumed truth) → answer ≡ answer_with truth
        → Writes S.written S.flushed S.faults S.has_room sink.old sink.new
        (solution_line answer f ++ value_lines f.prefix truth s.witness.values) result }
{
    let mut block = Block::new();
    put_result(engine, header, answer, &mut block, sink)?;
    block.finish(sink)
}

// Puts these lines into a block.
fn put_result<S: Sink>(
    engine: &Engine,
    header: Header,
    answer: Answer,
    block: &mut Block,
    sink: &mut S,
) -> Result<(), Failed>
    ensures { (terms : Terms) (f : AnyFormula) (s : Standing) (truth : Bool) → Holds terms engine.now s → IsHeaderOf
        f header
        → s.script.formula ≡ opened f → s.script.verdict ≡ Some (unassumed truth) → answer ≡ answer_with truth
        → Puts S.written S.flushed S.faults S.has_room sink.old block.old sink.new block.new
        (solution_line answer f ++ value_lines f.prefix truth s.witness.values) result }
{
    put_solution(answer, header, block, sink)?;
    if !is_won_first(engine.prefix(), answer.winner()) {
        return Ok(());
    }
    put_values(engine, block, sink)
}

// Whether the first scope is of the side that wins.
fn is_won_first(prefix: &Prefix, winner: Quant) -> bool
    ensures { result ≡ is_of (quantifier_at prefix.now 1) winner }
{
    match prefix.scope_quant(1) {
        Some(quant) => quant == winner,
        None => false,
    }
}

// Puts the values of the first scope, where this is the winner's.
fn put_values<S: Sink>(engine: &Engine, block: &mut Block, sink: &mut S) -> Result<(), Failed>
    requires { 1 ≤ length engine.now.formula.scopes }
    ensures { (v : VerdictState) → engine.now.verdict ≡ Some v
        → quantifier_at engine.now.formula.scopes 1 ≡ Some (winner_of v.truth) → Puts S.written S.flushed S.faults
        S.has_room sink.old block.old sink.new block.new
        (flat_map line_of_value (first_values engine.now.formula v)) result }
{
    for var in engine.prefix().vars_of(1) {
        // Each variable of the first scope has a value where this is the winner's.
        let Ok(lit) = engine.value(var.number() as u64) else {
            return Ok(());
        };
        put_outermost(lit, block, sink)?;
    }
    Ok(())
}
