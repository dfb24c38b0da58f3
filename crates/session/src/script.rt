//! A script, read from the chosen input and replied to.
ghost use Rattle.std.specs.Prelude.{◌≡◌, ◌≢◌, ℕ, false, List, Option, IfErr, IfOk, IfSome, IsErrOf, IsOk, OnErr, OnOk, [], Some, None};
ghost use Rattle.ports.specs.Bytes.{AllFlushed};
ghost use Rattle.ports.specs.Causes.{IsCounted};
ghost use Rattle.qscript.specs.declared.command.Command.{Command as AnyCommand};
ghost use Rattle.qscript.specs.Reads.{Ending as ScriptEnding};
ghost use Rattle.qscript.specs.State.{upcoming};
ghost use Rattle.session.specs.Scripts.{Answers, AreAnswered, IsLeftAt, IsOfText, IsScriptEnding, IsScriptOf, IsSentAt, IsWorkedOff, RoomForReplies, ending_of};
ghost use Rattle.session.specs.Steps.{Goes};
ghost use Rattle.solve.specs.Endings.{IsDone};
ghost use Rattle.solve.specs.Outside.{SendsReply, TakesInput};
ghost use Rattle.solve.specs.Standing.{Standing, start_of};
ghost use Rattle.solve.specs.Holding.{Holds};
ghost use Rattle.solve.specs.Terms.{terms_of};
ghost use Rattle.engine.specs.Keeping.{MayBeKept};
ghost use Rattle.versions.specs.declared.version.Version.{Version as AnyVersion};

use crate::reply::{Reply, SessionStop};
use crate::session::Session;
use memory::NoMemory;
use ports::{Desk, Sink};
use qscript::{Command, ScriptReader};
use solve::{Ending, put_told};
use std::alloc::Global;
use trail::Stopped;
use versions::Version;

/// Reads the script that is left of the chosen input, and replies to its commands as they come; each solve takes at
/// most so many steps, begins anew at most so often, and keeps so many long learned rows that are no reasons. Where the
/// script ends well, the output is flushed then.
///
/// The replies are allowed ones (`specs/Replies`) to the commands of the lines before the first malformed one, which
/// ends the run, as want of memory and a fault do. What each search tells that stopped is put into `stops`.
pub fn run_script<D: Desk, S: Sink>(
    alloc: Global,
    budget: u64,
    restarts: u32,
    kept: u32,
    desk: &mut D,
    sink: &mut S,
    stops: &mut Vec<Stopped>,
) -> Ending
    requires { MayBeKept kept }
    // The ending is what the text says, where the desk tells what it holds.
    ensures ending { IfSome (D.left desk.old) (λ text. IsScriptEnding text result) }
    ensures status { (s : ℕ) → result ≡ Ending.Done s → s ≡ 0 }
    // A script that is answered was read to its end.
    ensures read { IsDone result → IfSome (D.left desk.old) (λ _. D.left desk.new ≡ Some []) }
    // Faults come from outside alone, and a script is answered only where there was none.
    ensures read_fault { IsCounted (result ≡ Ending.ReadFault) (IsDone result) (D.faults desk.old) (D.faults desk.new) }
    ensures flows { D.flows desk.old → (result ≢ Ending.ReadFault) × D.flows desk.new }
    ensures write_fault { IsCounted (result ≡ Ending.WriteFault) (IsDone result) (S.faults sink.old)
        (S.faults sink.new) }
    ensures room { RoomForReplies (terms_of budget restarts kept) (D.left desk.old) (S.has_room sink.old) → result ≢
        Ending.WriteFault }
    // What is written, what is told of the searches that stopped, and that all of it is flushed at the end.
    ensures answered { AreAnswered (terms_of budget restarts kept) (D.left desk.old)
        (S.written sink.old, S.written sink.new)
        (stops.old.items, stops.new.items) result }
    ensures flushed { IsDone result → AllFlushed (S.written sink.new) (S.flushed sink.old) (S.flushed sink.new) }
    // What the desk holds, and whether it is steady, stays.
    ensures content { (n : List ℕ) → D.content desk.new n ≡ D.content desk.old n }
    ensures stays { (n : List ℕ) → D.steady desk.old n → D.steady desk.new n }
{
    match answer_script(alloc, budget, restarts, kept, desk, sink, stops) {
        Ok(()) => Ending::Done(0),
        Err(ending) => ending,
    }
}

// Replies to the script of the chosen input, and flushes.
fn answer_script<D: Desk, S: Sink>(
    alloc: Global,
    budget: u64,
    restarts: u32,
    kept: u32,
    desk: &mut D,
    sink: &mut S,
    stops: &mut Vec<Stopped>,
) -> Result<(), Ending>
    requires { MayBeKept kept }
    ensures ending { IfSome (D.left desk.old) (λ text. IsScriptEnding text (ending_of result)) }
    ensures err { IfErr result (λ e. ¬ IsDone e) }
    ensures desk { TakesInput D.content D.left D.faults D.steady D.flows desk.old desk.new result }
    ensures sink { SendsReply S.written S.flushed S.faults
        (RoomForReplies (terms_of budget restarts kept) (D.left desk.old) (S.has_room sink.old)) sink.old sink.new
        result }
    ensures answered { AreAnswered (terms_of budget restarts kept) (D.left desk.old)
        (S.written sink.old, S.written sink.new)
        (stops.old.items, stops.new.items) (ending_of result) }
{
    let mut reader = ScriptReader::new(alloc)?;
    let version = reader.read_header(desk)?;
    let mut session = session_with(alloc, version, budget, restarts, kept)?;
    answer_all(&mut session, &mut reader, desk, sink, stops)
}

// Replies to the commands that a reader has before it, and flushes.
fn answer_all<D: Desk, S: Sink>(
    session: &mut Session,
    reader: &mut ScriptReader,
    desk: &mut D,
    sink: &mut S,
    stops: &mut Vec<Stopped>,
) -> Result<(), Ending>
    requires { reader.old.failed ≡ false }
    ensures all { (known : Option (List ℕ)) (version : AnyVersion)
        → IsOfText known (Some version) (upcoming reader.old (D.left desk.old))
        → Holds session.old.terms session.old.engine (start_of version)
        → IsWorkedOff S.written S.flushed S.faults S.has_room session.old.terms known sink.old sink.new
        (stops.old.items, stops.new.items) result }
    ensures desk { TakesInput D.content D.left D.faults D.steady D.flows desk.old desk.new result }
{
    answer_commands(session, reader, desk, sink, stops)?;
    Ok(sink.flush()?)
}

// A session of no commands in this version, with this budget, each solve of which may begin anew so often, and keep so
// many long learned rows.
fn session_with(
    alloc: Global,
    version: Version,
    budget: u64,
    restarts: u32,
    kept: u32,
) -> Result<Session, NoMemory>
    requires { MayBeKept kept }
    ensures made { IsOk result }
    ensures terms { IfOk result (λ s. s.terms ≡ terms_of budget restarts kept) }
    ensures holds { IfOk result (λ s. Holds (terms_of budget restarts kept) s.engine (start_of version)) }
{
    let mut session = Session::with_version(alloc, budget, version)?;
    session.set_restarts(restarts);
    session.set_kept_rows(kept);
    Ok(session)
}

// Replies to the commands that a reader has before it.
fn answer_commands<D: Desk, S: Sink>(
    session: &mut Session,
    reader: &mut ScriptReader,
    desk: &mut D,
    sink: &mut S,
    stops: &mut Vec<Stopped>,
) -> Result<(), Ending>
    requires { reader.old.failed ≡ false }
    ensures replied { (s : Standing) → Holds session.old.terms session.old.engine s → Answers session.old.terms s
        (upcoming reader.old (D.left desk.old)) (IsLeftAt result)
        (λ text. IsSentAt S.written S.flushed S.faults S.has_room sink.old sink.new text result)
        (stops.old.items, stops.new.items) }
    ensures desk { TakesInput D.content D.left D.faults D.steady D.flows desk.old desk.new result }
{
    while let Some(command) = reader.next_command(desk)? {
        answer(session, &command, sink, stops)?;
    }
    Ok(())
}

// Replies to a command. What a search tells that stopped is put into `stops`.
fn answer<S: Sink>(
    session: &mut Session,
    command: &Command,
    sink: &mut S,
    stops: &mut Vec<Stopped>,
) -> Result<(), Ending>
    ensures terms { session.new.terms ≡ session.old.terms }
    ensures unread { ¬ IsErrOf result Ending.ReadFault }
    ensures goes { (s : Standing) → Holds session.old.terms session.old.engine s → Goes S.written S.flushed S.faults
        S.has_room session.old.terms command.now s sink.old sink.new session.new.engine
        (stops.old.items, stops.new.items) result }
{
    stops.reserve(1)?;
    match session.step(command, sink) {
        Ok(reply) => {
            put_told(stops, reply.into_stopped());
            Ok(())
        }
        Err(SessionStop::WriteFault(told)) => {
            put_told(stops, told);
            Err(Ending::WriteFault)
        }
        Err(SessionStop::NoMemory) => Err(Ending::NoMemory),
    }
}
