//! The program as a function over a desk and two sinks.
ghost use Rattle.std.specs.Prelude.{◌≡◌, ◌≢◌, [], ◌∷◌, List, map, option_map, Contains, Some, string_bytes};
ghost use Rattle.std.specs.Io.KnownBytes.{Appends};
ghost use Rattle.ports.specs.Bytes.{AllFlushed, AppendsFront};
ghost use Rattle.ports.specs.Causes.{IsCounted, Rose};
ghost use Rattle.command.specs.Forms.{Asks, Text, name_in};
ghost use Rattle.files.specs.Checks.{IsFinished, RoomForCheck};
ghost use Rattle.files.specs.Jobs.{RoomForJob};
ghost use Rattle.session.specs.Scripts.{RoomForReplies};
ghost use Rattle.files.specs.Solve.{HasAnswer};
ghost use Rattle.engine.specs.Keeping.{MayBeKept};
ghost use Rattle.program.specs.Asked.{AskedAny, RoomForOutput, RoomForTask, SteadyFor, SteadyForInput, input_name as name_of_input, known_for, solve_job, task_of, task_on, terms_in};
ghost use Rattle.program.specs.Complete.{IsComplete, IsValid};
ghost use Rattle.program.specs.Run.{IsErrorOutput, IsVerdict, line_of, status_of};
ghost use Rattle.program.specs.Told.{IsLimitOf, IsOutput, IsSound};
ghost use Rattle.program.specs.Work.{Carried, IsAtEnd, IsCheckWork, IsDue, IsJobWork, IsReplied, IsWorkOf};

use crate::ending::RunEnding;
use command::{Command, Input, Refused, SolveForm, Verb, read_command};
use files::{Job, run_check, run_file};
use ports::{Desk, Sink};
use samples::{count_samples, write_sample};
use session::run_script;
use solve::Ending;
use std::alloc::Global;
use trail::Stopped;

/// Carries out the command that the words ask for, the program's name first:
/// - `solve [--budget N] [--restarts R] [--keep K] [--qdo | --qcir] [NAME]` decides the formula of the file NAME, or of
///   standard input, by search with a budget of N steps, which may begin anew R times and keep K long learned rows that
///   are no reasons, and writes `SAT`, `UNSAT` or `UNKNOWN` to `out`; with `--qdo` the lines of QDIMACS 1.1's output
///   format. With `--qcir` the input is a quantified circuit (QCIR-14), which is decided by its formula
///   (`qcir::translate`).
/// - `trace [--budget N] [--restarts R] [--keep K] [NAME]` writes in the place of `SAT` and `UNSAT` the trace of the
///   verdict's proof (QRP).
/// - `cert [--budget N] [--restarts R] [--keep K] [--binary] [--trim] [NAME]` writes there the circuit by which the
///   verdict's winner wins (AIGER 1.9): in ASCII, or with `--binary` in the binary form; with `--trim` without the
///   gates that no output is reached from. `UNKNOWN` stays a line of text.
/// - `check [--budget N] [--restarts R] [--keep K] [--decide] [NAME]` writes there the formula that says that this
///   circuit loses, as QDIMACS, which is unsatisfiable; with `--decide` it decides that formula, with a budget of its
///   own, and writes `WINS`, or `UNDECIDED` with status 0 where that budget was spent.
/// - `script [--budget N] [--restarts R] [--keep K] [NAME]` replies on `out` to the commands of that input, each of its
///   solves with a budget of N steps, R restarts and K rows.
/// - `gen SEED VARS CLAUSES` writes a formula that is made from a seed, and `demo SEED COUNT` how many of so many of
///   these are true and false.
///
/// What else happens is said on `err`. With each `UNKNOWN` and `UNDECIDED` what the search that stopped tells is put
/// into `stops`, which is empty at first.
///
/// Answers the exit status: 10 for a true formula or circuit, 20 for a false one, and 0 where the budget was spent; 0
/// too where a script ends well, and of `gen` and `demo`; 2 where the input is malformed and 6 where it goes beyond a
/// limit, each with its line; 6 too where the check formula goes beyond one, and then a circuit is written in its
/// place; 3 for a read fault; 4 for a write fault of `out`; 5 for want of memory, which may come at any time; 7 for
/// other words. A failing `err` changes none.
pub fn run<D: Desk, O: Sink, E: Sink>(
    alloc: Global,
    words: &[String],
    desk: &mut D,
    out: &mut O,
    err: &mut E,
    stops: &mut Vec<Stopped>,
) -> u8
    requires { stops.old.items ≡ [] }
    // each status, and what it says of the words and the input
    ensures statuses { Contains (10 ∷ 20 ∷ 0 ∷ 2 ∷ 3 ∷ 4 ∷ 5 ∷ 6 ∷ 7 ∷ []) result }
    ensures verdict { IsVerdict (map string_bytes words.now) (D.content desk.old) result }

    // an answer comes after the whole input was read
    ensures whole_input { HasAnswer result
        → AskedAny (map string_bytes words.now) (D.content desk.old) (λ _ _ _. D.left desk.new ≡ Some [])
        (λ _ _. D.left desk.new ≡ Some []) }

    // faults come from outside alone, and an answer only where there was none
    ensures read_fault { IsCounted (result ≡ 3) (HasAnswer result) (D.faults desk.old) (D.faults desk.new) }
    ensures write_fault { IsCounted (result ≡ 4) (HasAnswer result) (O.faults out.old) (O.faults out.new) }
    ensures steady { SteadyForInput (map string_bytes words.now) (D.steady desk.old) → result ≢ 3 }
    ensures room { RoomForOutput (map string_bytes words.now) (D.content desk.old) (O.has_room out.old) → result ≢ 4 }

    // a valid input is answered, or its check formula goes beyond a limit, where there is no fault and there is memory
    ensures complete { IsValid (map string_bytes words.now) (D.content desk.old) → result ≢ 3 → result ≢ 4
        → IsComplete (map string_bytes words.now) (D.content desk.old) result }

    // what stands on the output, with what is told of searches that stopped: an entry for each UNKNOWN; and that all of
    // it is flushed where there is an answer
    ensures output { IsOutput (map string_bytes words.now) (D.content desk.old) (O.written out.old, O.written out.new)
        stops.new.items result }
    ensures flushed { HasAnswer result → AllFlushed (O.written out.new) (O.flushed out.old) (O.flushed out.new) }

    // with status 6 the input goes beyond a limit, or the check formula of the circuit that is written, which the error
    // output names; then the whole input was read, no fault came, and the circuit is flushed
    ensures limit { result ≡ 6 → IsLimitOf (map string_bytes words.now) (D.content desk.old) (D.left desk.new)
        (O.written out.old, O.written out.new) stops.new.items (E.faults err.old, E.faults err.new)
        (E.written err.old, E.written err.new) (IsSound (D.faults desk.old, D.faults desk.new)
        (O.faults out.old, O.faults out.new) (O.written out.new) (O.flushed out.old, O.flushed out.new)) }

    // what stands on the error output
    ensures error { IsErrorOutput (map string_bytes words.now) (D.content desk.old) (E.faults err.old, E.faults err.new)
        (E.written err.old) (E.written err.new) result }
{
    let ending = ending_of(alloc, words, desk, out, stops);
    report(err, &ending)
}

/// Writes the line of an ending to the error output, and answers its exit status.
pub fn report<E: Sink>(err: &mut E, ending: &RunEnding) -> u8
    ensures status { result ≡ status_of ending.now }
    ensures front { AppendsFront (E.written err.old) (E.written err.new) (line_of ending.now) }
    ensures whole { ¬ Rose (E.faults err.old) (E.faults err.new)
        → Appends (E.written err.old) (E.written err.new) (line_of ending.now) }
{
    let _ = ending.write_line(err);
    ending.status()
}

// Carries the command out.
fn ending_of<D: Desk, O: Sink>(
    alloc: Global,
    words: &[String],
    desk: &mut D,
    out: &mut O,
    stops: &mut Vec<Stopped>,
) -> RunEnding
    ensures carried { Carried (map string_bytes words.now) (D.content desk.old) (D.left desk.new)
        (O.written out.old, O.written out.new) (stops.old.items, stops.new.items) result }
    ensures outside { IsDue D.faults O.written O.flushed O.faults
        (SteadyForInput (map string_bytes words.now) (D.steady desk.old))
        (RoomForOutput (map string_bytes words.now) (D.content desk.old) (O.has_room out.old))
        (desk.old, desk.new) (out.old, out.new) (λ e. result ≡ RunEnding.Worked e) (IsAtEnd result) }
{
    match read_command(alloc, words) {
        Ok(command) => RunEnding::Worked(carry_out(alloc, command, desk, out, stops)),
        Err(Refused::Usage(text)) => RunEnding::Usage(text),
        Err(Refused::NoMemory) => RunEnding::Worked(Ending::NoMemory),
    }
}

// Carries a command out.
fn carry_out<D: Desk, O: Sink>(
    alloc: Global,
    command: Command,
    desk: &mut D,
    out: &mut O,
    stops: &mut Vec<Stopped>,
) -> Ending
    requires { (words : List Text) × Asks words command }
    ensures work { IsWorkOf (task_of command.entry) (known_for (D.content desk.old) (task_of command.entry))
        (D.left desk.new) (O.written out.old, O.written out.new) (stops.old.items, stops.new.items) result }
    ensures outside { IsDue D.faults O.written O.flushed O.faults
        (SteadyFor (task_of command.entry) (D.steady desk.old))
        (RoomForTask (task_of command.entry) (known_for (D.content desk.old) (task_of command.entry))
        (O.has_room out.old))
        (desk.old, desk.new) (out.old, out.new) (λ e. result ≡ e) (IsFinished result) }
{
    match command {
        Command::Read { verb, input } => carry_out_on(alloc, verb, &input, desk, out, stops),
        Command::Gen {
            seed,
            vars,
            clauses,
        } => write_sample(alloc, seed, vars, clauses, out),
        Command::Demo { seed, count } => count_samples(alloc, seed, count, out),
    }
}

// Carries a command out that reads an input.
fn carry_out_on<D: Desk, O: Sink>(
    alloc: Global,
    verb: Verb,
    input: &Input<'_>,
    desk: &mut D,
    out: &mut O,
    stops: &mut Vec<Stopped>,
) -> Ending
    requires { MayBeKept input.now.kept }
    ensures work { IsWorkOf (task_on verb input.now) (known_for (D.content desk.old) (task_on verb input.now))
        (D.left desk.new) (O.written out.old, O.written out.new) (stops.old.items, stops.new.items) result }
    ensures outside { IsDue D.faults O.written O.flushed O.faults
        (SteadyFor (task_on verb input.now) (D.steady desk.old))
        (RoomForTask (task_on verb input.now) (known_for (D.content desk.old) (task_on verb input.now))
        (O.has_room out.old))
        (desk.old, desk.new) (out.old, out.new) (λ e. result ≡ e) (IsFinished result) }
{
    match verb {
        Verb::Solve { form } => work(alloc, job_of(form), input, desk, out, stops),
        Verb::Trace => work(alloc, Job::Trace, input, desk, out, stops),
        Verb::Cert { binary, trim } => {
            work(alloc, Job::Cert { binary, trim }, input, desk, out, stops)
        }
        Verb::Check { decide } => check(alloc, decide, input, desk, out, stops),
        Verb::Script => reply(alloc, input, desk, out, stops),
    }
}

// The job of `solve`, without a flag, with `--qdo` or with `--qcir`.
fn job_of(form: SolveForm) -> Job
    ensures { result ≡ solve_job form }
{
    match form {
        SolveForm::Plain => Job::Solve,
        SolveForm::Qdo => Job::Qdo,
        SolveForm::Qcir => Job::Qcir,
    }
}

// Does a job on the formula, or the circuit, of an input.
fn work<D: Desk, O: Sink>(
    alloc: Global,
    job: Job,
    input: &Input<'_>,
    desk: &mut D,
    out: &mut O,
    stops: &mut Vec<Stopped>,
) -> Ending
    requires { MayBeKept input.now.kept }
    ensures solved { IsJobWork job (terms_in input.now)
        (D.content desk.old (name_of_input (name_in input.now)))
        (D.left desk.new) (O.written out.old, O.written out.new) (stops.old.items, stops.new.items) result }
    ensures outside { IsDue D.faults O.written O.flushed O.faults
        (D.steady desk.old (name_of_input (name_in input.now)))
        (RoomForJob job (terms_in input.now)
        (D.content desk.old (name_of_input (name_in input.now))) (O.has_room out.old))
        (desk.old, desk.new) (out.old, out.new) (λ e. result ≡ e) (IsFinished result) }
{
    if desk.choose(input_name(input.name)).is_err() {
        return Ending::ReadFault;
    }
    run_file(
        alloc,
        job,
        input.budget,
        input.restarts,
        input.kept,
        desk,
        out,
        stops,
    )
}

// Checks the certificate of the formula of an input.
fn check<D: Desk, O: Sink>(
    alloc: Global,
    decide: bool,
    input: &Input<'_>,
    desk: &mut D,
    out: &mut O,
    stops: &mut Vec<Stopped>,
) -> Ending
    requires { MayBeKept input.now.kept }
    ensures checked { IsCheckWork decide (terms_in input.now)
        (D.content desk.old (name_of_input (name_in input.now)))
        (D.left desk.new) (O.written out.old, O.written out.new) (stops.old.items, stops.new.items) result }
    ensures outside { IsDue D.faults O.written O.flushed O.faults
        (D.steady desk.old (name_of_input (name_in input.now)))
        (RoomForCheck decide (terms_in input.now)
        (D.content desk.old (name_of_input (name_in input.now))) (O.has_room out.old))
        (desk.old, desk.new) (out.old, out.new) (λ e. result ≡ e) (IsFinished result) }
{
    if desk.choose(input_name(input.name)).is_err() {
        return Ending::ReadFault;
    }
    run_check(
        alloc,
        input.budget,
        input.restarts,
        input.kept,
        decide,
        desk,
        out,
        stops,
    )
}

// Replies to the script of an input.
fn reply<D: Desk, O: Sink>(
    alloc: Global,
    input: &Input<'_>,
    desk: &mut D,
    out: &mut O,
    stops: &mut Vec<Stopped>,
) -> Ending
    requires { MayBeKept input.now.kept }
    ensures replied { IsReplied (terms_in input.now) (D.content desk.old (name_of_input (name_in input.now)))
        (D.left desk.new) (O.written out.old, O.written out.new) (stops.old.items, stops.new.items) result }
    ensures outside { IsDue D.faults O.written O.flushed O.faults
        (D.steady desk.old (name_of_input (name_in input.now)))
        (RoomForReplies (terms_in input.now)
        (D.content desk.old (name_of_input (name_in input.now))) (O.has_room out.old))
        (desk.old, desk.new) (out.old, out.new) (λ e. result ≡ e) (IsFinished result) }
{
    if desk.choose(input_name(input.name)).is_err() {
        return Ending::ReadFault;
    }
    run_script(
        alloc,
        input.budget,
        input.restarts,
        input.kept,
        desk,
        out,
        stops,
    )
}

// The name of the input: without one it is standard input.
fn input_name<'a>(name: Option<&'a str>) -> &'a str
    ensures { result.now ≡ name_of_input (option_map (λ s. s.now) name.entry) }
{
    name.unwrap_or("-")
}
