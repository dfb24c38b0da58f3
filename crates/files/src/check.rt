//! The certificate of one formula's verdict, checked by the formula that says that its circuit loses.
ghost use Rattle.std.specs.Prelude.{◌≡◌, ◌≢◌, ◌++◌, Bool, List, ℕ, Some, [], Ok, false, true, IfOk, IfErr, IfSome, IsErrOf, IsOk, OnOk};
ghost use Rattle.aig.specs.Strategies.{IsStrategy};
ghost use Rattle.aiger_out.specs.Aag.{IsAagText};
ghost use Rattle.ports.specs.Bytes.{AllFlushed};
ghost use Rattle.ports.specs.Causes.{IsCounted};
ghost use Rattle.ports.specs.Writing.{Writes};
ghost use Rattle.trail.specs.State.{Account};
ghost use Rattle.truth.specs.Truth.{truth};
ghost use Rattle.search.specs.Counting.{size_of};
ghost use Rattle.truth.specs.Formed.{IsFormed};
ghost use Rattle.qdimacs.specs.Reads.{Reads};
ghost use Rattle.qdimacs.specs.Rules.{parsed};
ghost use Rattle.qdimacs_out.specs.Texts.{formula_text};
ghost use Rattle.files.specs.Checks.{HasDecided, IsCheck, IsCheckReply, IsFinished, IsFound, LeavesCheck, RoomForCheck, SendsOutcome, WritesOutcome, check_line, ending_after, judged as outcome_of};
ghost use Rattle.files.specs.Endings.{IsUnread};
ghost use Rattle.solve.specs.Feeding.{HoldsFormula};
ghost use Rattle.files.specs.Inputs.Format.{as_formula};
ghost use Rattle.solve.specs.Decisions.{answer_with};
ghost use Rattle.files.specs.Solve.{IsEnding};
ghost use Rattle.solve.specs.Entries.{AddsEntry, IsStopAt};
ghost use Rattle.solve.specs.Outside.{SendsReply, TakesInput};
ghost use Rattle.solve.specs.Terms.{Terms, terms_of};
ghost use Rattle.engine.specs.Keeping.{MayBeKept};

use crate::file::whole_circuit;
use aig::Strategy;
use certcheck::{CheckFault, check_formula};
use engine::Engine;
use memory::NoMemory;
use ports::{Desk, Failed, Sink};
use qdimacs::read_formula;
use qdimacs_out::write_formula;
use reading::Quantity;
use solve::{
    Answer, Decision, Ending, decide, engine_with, put_told, write, write_answer, write_circuit,
};
use std::alloc::Global;
use trail::Stopped;
use truth::{Formula, no_assumptions};

// On what terms a certificate is checked: the budget of each search, how often it may begin anew, how many long learned
// rows it may keep, and whether the check formula is decided too.
#[derive(Clone, Copy, Debug)]
pub(crate) struct Request {
    pub budget: u64,
    pub restarts: u32,
    pub kept: u32,
    pub decide: bool,
}

/// What a check comes to.
#[derive(Clone, Copy, Debug)]
pub enum Outcome {
    /// The budget was spent before a verdict.
    Unknown,
    /// The formula is true, or false, and the check formula of its certificate is written, or decided: it is false.
    Checked(bool),
    /// The budget was spent before the check formula was decided.
    Undecided,
    /// The check formula goes beyond a limit, and the certificate is written.
    Beyond(Quantity),
}

/// Reads the formula that is left of the chosen input, decides it by search with a budget of that many steps, which may
/// begin anew so often, and writes the check formula of a circuit that certifies the verdict: the existential formula,
/// as QDIMACS, that is unsatisfiable exactly where this circuit wins (`certcheck::check_formula`). So any solver of
/// such formulas checks the circuit.
///
/// With `decide` the check formula is decided here, with the same budget and restarts, and the line `WINS` is written
/// in its place. It is never true, since the circuit wins.
///
/// Where the first budget was spent before a verdict, it writes `UNKNOWN`, and where the second was before the check
/// formula was decided, `UNDECIDED`: each only where the budget is below the step limit of that formula's variables
/// and of so many restarts, as in `run_file`. What the search that stopped tells is then put into `stops`, before the
/// line is written.
///
/// The ending is that of the verdict, Done with 0 for either of these lines, and CheckLimit exactly where the check
/// formula of that circuit goes beyond a limit; the circuit is then written in its place, as AIGER 1.9 in ASCII. With
/// an answer all that is written is flushed. What a search tells stays in `stops` where the line can't be written.
pub fn run_check<D: Desk, S: Sink>(
    alloc: Global,
    budget: u64,
    restarts: u32,
    kept: u32,
    decide: bool,
    desk: &mut D,
    sink: &mut S,
    stops: &mut Vec<Stopped>,
) -> Ending
    requires { MayBeKept kept }
    // Where no formula was read, the ending is what the text says, where the desk tells what it holds.
    ensures unread { IsUnread result → IfSome (D.left desk.old)
        (λ text. IsEnding as_formula (terms_of budget restarts kept) text result) }
    // A text whose formula was checked was read to its end.
    ensures read { IsFinished result → IfSome (D.left desk.old) (λ _. D.left desk.new ≡ Some []) }
    // Faults come from outside alone, and a check comes to its end only where there was none.
    ensures read_fault { IsCounted (result ≡ Ending.ReadFault) (IsFinished result) (D.faults desk.old)
        (D.faults desk.new) }
    ensures flows { D.flows desk.old → (result ≢ Ending.ReadFault) × D.flows desk.new }
    ensures write_fault { IsCounted (result ≡ Ending.WriteFault) (IsFinished result) (S.faults sink.old)
        (S.faults sink.new) }
    ensures room { RoomForCheck decide (terms_of budget restarts kept) (D.left desk.old) (S.has_room sink.old)
        → result ≢
        Ending.WriteFault }
    // What is written, with what a search tells that stopped, and that all of it is flushed.
    ensures output { LeavesCheck decide (terms_of budget restarts kept) (D.left desk.old)
        (S.written sink.old, S.written sink.new) (stops.old.items, stops.new.items) result }
    ensures flushed { IsFinished result → AllFlushed (S.written sink.new) (S.flushed sink.old) (S.flushed sink.new) }
    // What the desk holds, and whether it is steady, stays.
    ensures content { (n : List ℕ) → D.content desk.new n ≡ D.content desk.old n }
    ensures stays { (n : List ℕ) → D.steady desk.old n → D.steady desk.new n }
{
    let request = Request {
        budget,
        restarts,
        kept,
        decide,
    };
    ending_of(check(alloc, request, desk, sink, stops))
}

// The ending of a check.
fn ending_of(checked: Result<Outcome, Ending>) -> Ending
    ensures { result ≡ ending_after checked }
{
    match checked {
        Ok(Outcome::Unknown) => Ending::Done(Answer::Unknown.status()),
        Ok(Outcome::Checked(true)) => Ending::Done(Answer::Sat.status()),
        Ok(Outcome::Checked(false)) => Ending::Done(Answer::Unsat.status()),
        Ok(Outcome::Undecided) => Ending::Done(Answer::Unknown.status()),
        Ok(Outcome::Beyond(quantity)) => Ending::CheckLimit { quantity },
        Err(ending) => ending,
    }
}

// Checks the certificate of the formula of the chosen input.
fn check<D: Desk, S: Sink>(
    alloc: Global,
    request: Request,
    desk: &mut D,
    sink: &mut S,
    stops: &mut Vec<Stopped>,
) -> Result<Outcome, Ending>
    requires { MayBeKept request.kept }
    ensures ending { IfErr result (λ e. ¬ IsFinished e × (IsUnread e → IfSome (D.left desk.old)
        (λ text. IsEnding as_formula (terms_of request.budget request.restarts request.kept) text e))) }
    ensures desk { TakesInput D.content D.left D.faults D.steady D.flows desk.old desk.new result }
    ensures sink { SendsReply S.written S.flushed S.faults (RoomForCheck request.decide
        (terms_of request.budget request.restarts request.kept) (D.left desk.old) (S.has_room sink.old)) sink.old
        sink.new result }
    ensures output { LeavesCheck request.decide (terms_of request.budget request.restarts request.kept)
        (D.left desk.old)
        (S.written sink.old, S.written sink.new) (stops.old.items, stops.new.items) (ending_after result) }
{
    let (mut engine, f) = load(alloc, desk)?;
    check_held(alloc, &mut engine, &f, request, sink, stops)
}

// An engine that holds the formula of the chosen input, and the formula.
fn load<D: Desk>(alloc: Global, desk: &mut D) -> Result<(Engine, Formula), Ending>
    ensures formula { IfOk result (λ loaded. HoldsFormula loaded.1.prefix loaded.1.clauses loaded.0
        × IsFormed loaded.1 × IfSome (D.left desk.old) (λ text. Reads text (parsed loaded.1))) }
    ensures ending { IfErr result (λ e. IsUnread e
        × ((terms : Terms) → IfSome (D.left desk.old) (λ text. IsEnding as_formula terms text e))) }
    ensures desk { TakesInput D.content D.left D.faults D.steady D.flows desk.old desk.new result }
{
    let f = read_formula(alloc, desk)?;
    let engine = engine_with(alloc, &f)?;
    Ok((engine, f))
}

// Decides the formula that an engine holds, checks its certificate, and flushes what is written of that.
fn check_held<S: Sink>(
    alloc: Global,
    engine: &mut Engine,
    f: &Formula,
    request: Request,
    sink: &mut S,
    stops: &mut Vec<Stopped>,
) -> Result<Outcome, Ending>
    requires formed { IsFormed f.now }
    requires keeps { MayBeKept request.kept }
    requires holds { HoldsFormula f.now.prefix f.now.clauses engine.old }
    ensures { SendsOutcome S.written S.flushed S.faults S.has_room
        (IsCheck request.decide (terms_of request.budget request.restarts request.kept) f.now
        (stops.old.items, stops.new.items))
        sink.old sink.new (stops.old.items, stops.new.items) result }
{
    // For the proof: the truth under no assumptions is the truth.
    no_assumptions();
    engine.set_restarts(request.restarts);
    engine.set_kept_rows(request.kept);
    stops.reserve(1)?;
    let decision = decide(engine, request.budget)?;
    let answer = decision.answer();
    put_told(stops, decision.into_stopped());
    let outcome = write_check(alloc, engine, f, answer, request, sink, stops)?;
    sink.flush()?;
    Ok(outcome)
}

// Writes what comes of a check, where the formula was decided with this answer.
fn write_check<S: Sink>(
    alloc: Global,
    engine: &Engine,
    f: &Formula,
    answer: Answer,
    request: Request,
    sink: &mut S,
    stops: &mut Vec<Stopped>,
) -> Result<Outcome, Ending>
    requires formed { IsFormed f.now }
    requires keeps { MayBeKept request.kept }
    requires decided { HasDecided (terms_of request.budget request.restarts request.kept) f.now answer engine.now }
    ensures { (before : List Account)
        → AddsEntry (IsStopAt (terms_of request.budget request.restarts request.kept) (size_of f.now.prefix)) before
        stops.old.items
        answer
        → WritesOutcome S.written S.flushed S.faults S.has_room
        (IsCheck request.decide (terms_of request.budget request.restarts request.kept) f.now (before, stops.new.items))
        sink.old sink.new (before, stops.new.items) result }
{
    match answer {
        Answer::Unknown => {
            write_answer(answer, sink)?;
            Ok(Outcome::Unknown)
        }
        Answer::Sat => check_verdict(alloc, engine, f, true, request, sink, stops),
        Answer::Unsat => check_verdict(alloc, engine, f, false, request, sink, stops),
    }
}

// The same where it was decided with this verdict.
fn check_verdict<S: Sink>(
    alloc: Global,
    engine: &Engine,
    f: &Formula,
    value: bool,
    request: Request,
    sink: &mut S,
    stops: &mut Vec<Stopped>,
) -> Result<Outcome, Ending>
    requires formed { IsFormed f.now }
    requires keeps { MayBeKept request.kept }
    requires decided { HasDecided (terms_of request.budget request.restarts request.kept) f.now
        (answer_with value) engine.now }
    ensures { WritesOutcome S.written S.flushed S.faults S.has_room
        (IsCheck request.decide (terms_of request.budget request.restarts request.kept) f.now
        (stops.old.items, stops.new.items))
        sink.old sink.new (stops.old.items, stops.new.items) result }
{
    let circuit = whole_circuit(engine)?;
    match check_formula(alloc, f, &[], &circuit) {
        Ok(g) => write_checked(alloc, &g, value, request, sink, stops),
        Err(CheckFault::Limit { quantity }) => {
            write_instead(&circuit, Outcome::Beyond(quantity), sink)
        }
        Err(CheckFault::NoMemory) => Err(Ending::NoMemory),
    }
}

// Writes the circuit in the place of its check formula, and answers what comes of that.
fn write_instead<S: Sink>(
    circuit: &Strategy,
    outcome: Outcome,
    sink: &mut S,
) -> Result<Outcome, Ending>
    requires { IsStrategy circuit.now }
    ensures { (stops : List Account) → WritesOutcome S.written S.flushed S.faults S.has_room
        (λ o text. (o ≡ outcome) × IsAagText text circuit.now) sink.old sink.new (stops, stops) result }
{
    write_circuit(circuit, false, sink)?;
    Ok(outcome)
}

// Writes the check formula of a verdict, or decides it and writes that.
fn write_checked<S: Sink>(
    alloc: Global,
    g: &Formula,
    value: bool,
    request: Request,
    sink: &mut S,
    stops: &mut Vec<Stopped>,
) -> Result<Outcome, Ending>
    requires formed { IsFormed g.now }
    requires keeps { MayBeKept request.kept }
    requires unsatisfiable { truth g.now.prefix g.now.clauses ≡ false }
    ensures { WritesOutcome S.written S.flushed S.faults S.has_room
        (IsCheckReply request.decide (terms_of request.budget request.restarts request.kept) g.now value
        (stops.old.items, stops.new.items)) sink.old sink.new (stops.old.items, stops.new.items) result }
{
    if request.decide {
        return decide_check(alloc, g, value, request, sink, stops);
    }
    write_text(g, sink)?;
    Ok(Outcome::Checked(value))
}

// Writes a formula.
fn write_text<S: Sink>(g: &Formula, sink: &mut S) -> Result<(), Failed>
    ensures { Writes S.written S.flushed S.faults S.has_room sink.old sink.new (formula_text g.now) result }
{
    write_formula(g, sink)
}

// Decides a check formula, which is false, and writes the line of that.
fn decide_check<S: Sink>(
    alloc: Global,
    g: &Formula,
    value: bool,
    request: Request,
    sink: &mut S,
    stops: &mut Vec<Stopped>,
) -> Result<Outcome, Ending>
    requires formed { IsFormed g.now }
    requires keeps { MayBeKept request.kept }
    requires unsatisfiable { truth g.now.prefix g.now.clauses ≡ false }
    requires asked { request.decide ≡ true }
    ensures { WritesOutcome S.written S.flushed S.faults S.has_room
        (IsCheckReply request.decide (terms_of request.budget request.restarts request.kept) g.now value
        (stops.old.items, stops.new.items)) sink.old sink.new (stops.old.items, stops.new.items) result }
{
    stops.reserve(1)?;
    let decision = search(alloc, g, request)?;
    let found = decision.answer();
    put_told(stops, decision.into_stopped());
    write(line_of(found).as_bytes(), sink)?;
    Ok(judged(found, value))
}

// What a search on a formula comes to.
fn search(alloc: Global, g: &Formula, request: Request) -> Result<Decision, NoMemory>
    requires formed { IsFormed g.now }
    requires keeps { MayBeKept request.kept }
    ensures { IfOk result (IsFound (terms_of request.budget request.restarts request.kept) g.now) }
{
    // For the proof: the truth under no assumptions is the truth.
    no_assumptions();
    let mut engine = engine_with(alloc, g)?;
    engine.set_restarts(request.restarts);
    engine.set_kept_rows(request.kept);
    decide(&mut engine, request.budget)
}

// What is written of the answer to a check formula, which is never true.
fn line_of(found: Answer) -> &'static str
    requires { found ≢ Answer.Sat }
    ensures { result.now ≡ check_line found }
{
    match found {
        Answer::Unknown => "UNDECIDED\n",
        _ => "WINS\n",
    }
}

// What comes of a check by the answer to its formula.
fn judged(found: Answer, value: bool) -> Outcome
    ensures { result ≡ outcome_of found value }
{
    match found {
        Answer::Unknown => Outcome::Undecided,
        _ => Outcome::Checked(value),
    }
}
