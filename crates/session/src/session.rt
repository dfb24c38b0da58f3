//! Sessions: the commands of a script, replied to.
ghost use Rattle.std.specs.Prelude.{◌≡◌, ℕ, Ok, Err, Some, IsOk, IfOk, MatchResult};
ghost use Rattle.frames.specs.Refusal.{number_of};
ghost use Rattle.solve.specs.Standing.{Standing, start, start_of};
ghost use Rattle.solve.specs.Holding.{Holds};
ghost use Rattle.session.specs.Replies.{refusal_number};
ghost use Rattle.session.specs.Steps.{IsQuestion, IsSent, LeavesAtWant, Refuses, StepsOf};
ghost use Rattle.solve.specs.Terms.{Terms, terms_of, with_kept, with_restarts};
ghost use Rattle.engine.specs.Keeping.{MayBeKept, first_kept};

use crate::lines::{write_groups, write_refused, write_relevant, write_value};
use crate::reply::{Reply, SessionStop};
use engine::{CoreRefusal, Engine, FIRST_KEPT};
use frames::FrameRefusal;
use memory::NoMemory;
use ports::{Failed, Sink};
use qscript::Command;
use solve::{Answer, decide, write_answer, write_circuit, write_core};
use std::alloc::Global;
use std::marker::Model;
use versions::Version;

/// An engine that takes the commands of a script and writes their replies. Contracts see the terms of each solve and
/// the engine.
#[derive(Debug, Drop)]
pub struct Session {
    budget: u64,
    restarts: u32,
    // The greatest number of restarts that was set so far.
    greatest: u32,
    // How many long learned rows a solve may keep.
    kept: u32,
    engine: Engine,
}

impl Model for Session {
    ghost use Rattle.session.specs.State.{SessionState};

    ghost Value = { SessionState };

    ghost view = { λ s. record {
      terms = record { budget = s.budget; restarts = s.restarts; greatest = s.greatest; kept = s.kept };
      engine = s.engine;
    } };
}

impl Session {
    /// A session of no commands, in version 1, in which each solve takes at most so many steps. It never begins anew
    /// until `set_restarts` allows it, and keeps 512 long learned rows that are no reasons until `set_kept_rows` says
    /// another number. This takes no memory.
    pub fn new(alloc: Global, budget: u64) -> Result<Self, NoMemory>
        ensures made { IsOk result }
        ensures terms { IfOk result (λ s. s.terms ≡ terms_of budget 0 first_kept) }
        ensures holds { IfOk result (λ s. Holds (terms_of budget 0 first_kept) s.engine start) }
    {
        Self::with_version(alloc, budget, Version::One)
    }

    /// The same in a version of the script format, which says how long a variable stays.
    pub fn with_version(alloc: Global, budget: u64, version: Version) -> Result<Self, NoMemory>
        ensures made { IsOk result }
        ensures terms { IfOk result (λ s. s.terms ≡ terms_of budget 0 first_kept) }
        ensures holds { IfOk result (λ s. Holds (terms_of budget 0 first_kept) s.engine (start_of version)) }
    {
        Ok(Self {
            budget,
            restarts: 0,
            greatest: 0,
            kept: FIRST_KEPT,
            engine: Engine::with_version(alloc, version)?,
        })
    }

    /// How often a solve may begin anew from now on. This is no change: a verdict stays.
    pub fn set_restarts(&mut self, restarts: u32)
        ensures terms { self.new.terms ≡ with_restarts restarts self.old.terms }
        ensures engine { self.new.engine ≡ record self.old.engine { restarts = restarts } }
        ensures holds { (s : Standing) → Holds self.old.terms self.old.engine s
            → Holds self.new.terms self.new.engine s }
    {
        self.restarts = restarts;
        self.greatest = self.greatest.max(restarts);
        self.engine.set_restarts(restarts);
    }

    /// How many long learned rows that are no reasons a solve may keep from now on, from 16 to 16,777,216. This is no
    /// change: a verdict stays.
    pub fn set_kept_rows(&mut self, rows: u32)
        requires { MayBeKept rows }
        ensures terms { self.new.terms ≡ with_kept rows self.old.terms }
        ensures engine { self.new.engine ≡ record self.old.engine { kept_rows = rows } }
        ensures holds { (s : Standing) → Holds self.old.terms self.old.engine s
            → Holds self.new.terms self.new.engine s }
    {
        self.kept = rows;
        self.engine.set_kept_rows(rows);
    }

    /// Carries a command out, and writes its reply; nothing is flushed.
    ///
    /// A command is refused as the table `refusal_number` says, and then leaves the session as it was, as a question
    /// does. Which reply comes, the command pins (`IsReplyFor`). Where the reply can't be written, the command is
    /// carried out and a front of the reply is written. Where there is no memory nothing is written; a solve leaves the
    /// formula and the assumptions, and no verdict, and any other command leaves the session as it was, but that
    /// `clause` and `activate` may have let go of long learned rows. It may be called again after either stop: after a
    /// write fault the session holds what the command came to.
    pub fn step<S: Sink>(&mut self, command: &Command, sink: &mut S) -> Result<Reply, SessionStop>
        ensures terms { self.new.terms ≡ self.old.terms }
        ensures steps { (s : Standing) → Holds self.old.terms self.old.engine s → StepsOf S.written S.flushed S.faults
            S.has_room self.old.terms command.now s sink.old sink.new self.new.engine result }
        // A question, a refusal, and want of memory for any command but a solve leave the session as it was.
        ensures asked { IsQuestion command.now → self.new ≡ self.old }
        ensures refused { (s : Standing) (n : ℕ) → Holds self.old.terms self.old.engine s
            → refusal_number s command.now ≡ Some n → self.new ≡ self.old }
        ensures wants { result ≡ Err SessionStop.NoMemory → LeavesAtWant command.now self.old self.new }
    {
        match command {
            Command::Scope { quant, at } => accept(self.engine.scope(*quant, *at), sink),
            Command::Var { var, scope } => accept(self.engine.var(*var, *scope), sink),
            Command::Clause(lits) => accept(self.engine.clause(lits.numbers()), sink),
            Command::Push => accept(self.engine.push(), sink),
            Command::Pop => accept(self.engine.pop(), sink),
            Command::Assume(lit) => accept(self.engine.assume(*lit), sink),
            Command::Solve => solve(&mut self.engine, self.budget, sink),
            Command::Value(var) => tell_value(&self.engine, *var, sink),
            Command::Relevant => tell_relevant(&self.engine, sink),
            Command::Trace => tell_trace(&self.engine, sink),
            Command::Cert => tell_circuit(&self.engine, sink),
            Command::OpenGroup(group) => accept(self.engine.open_group(*group), sink),
            Command::CloseGroup => accept(self.engine.close_group(), sink),
            Command::Activate(group) => accept(self.engine.activate(*group), sink),
            Command::Deactivate(group) => accept(self.engine.deactivate(*group), sink),
            Command::GroupCore => tell_core(&self.engine, self.budget, sink),
        }
    }
}

// The reply to a change of the formula that was accepted or not.
fn accept<S: Sink>(accepted: Result<(), FrameRefusal>, sink: &mut S) -> Result<Reply, SessionStop>
    ensures { MatchResult accepted
        (λ _. (result ≡ Ok Reply.Silent) × (sink.new ≡ sink.old))
        (λ e. Refuses S.written S.flushed S.faults S.has_room (number_of e) sink.old sink.new result) }
{
    match accepted {
        Ok(()) => Ok(Reply::Silent),
        Err(refusal) => refuse(refusal.number(), sink),
    }
}

// Writes a refusal by its number; one without a number is want of memory.
fn refuse<S: Sink>(number: Option<u8>, sink: &mut S) -> Result<Reply, SessionStop>
    ensures { Refuses S.written S.flushed S.faults S.has_room number sink.old sink.new result }
{
    match number {
        Some(number) => send(write_refused(number, sink), Reply::Refused(number)),
        None => Err(SessionStop::NoMemory),
    }
}

// A reply whose line was written, or whose writing failed.
fn send(written: Result<(), Failed>, reply: Reply) -> Result<Reply, SessionStop>
    ensures { IsSent reply written result }
{
    match written {
        Ok(()) => Ok(reply),
        Err(Failed) => Err(SessionStop::WriteFault(reply.into_stopped())),
    }
}

// Decides the open formula, and writes the answer.
fn solve<S: Sink>(engine: &mut Engine, budget: u64, sink: &mut S) -> Result<Reply, SessionStop>
    ensures { (terms : Terms) (s : Standing) → terms.budget ≡ budget → Holds terms engine.old s → StepsOf S.written
        S.flushed S.faults S.has_room terms Command.Solve s sink.old sink.new engine.new result }
{
    let decision = decide(engine, budget)?;
    let answer = decision.answer();
    send(write_answer(answer, sink), Reply::to_solve(decision))
}

// Tells the winner's value of a variable of the first scope.
fn tell_value<S: Sink>(engine: &Engine, var: u64, sink: &mut S) -> Result<Reply, SessionStop>
    ensures { (terms : Terms) (s : Standing) → Holds terms engine.now s → StepsOf S.written S.flushed S.faults
        S.has_room terms
        (Command.Value var) s sink.old sink.new engine.now result }
{
    match engine.value(var) {
        Ok(lit) => send(write_value(lit, sink), Reply::Written),
        Err(refusal) => refuse(refusal.number(), sink),
    }
}

// Tells the assumptions that the verdict rests on.
fn tell_relevant<S: Sink>(engine: &Engine, sink: &mut S) -> Result<Reply, SessionStop>
    ensures { (terms : Terms) (s : Standing) → Holds terms engine.now s → StepsOf S.written S.flushed S.faults
        S.has_room terms
        Command.Relevant s sink.old sink.new engine.now result }
{
    match engine.relevant() {
        Ok(lits) => send(write_relevant(lits, sink), Reply::Written),
        Err(refusal) => refuse(refusal.number(), sink),
    }
}

// Tells the verdict's trace.
fn tell_trace<S: Sink>(engine: &Engine, sink: &mut S) -> Result<Reply, SessionStop>
    ensures { (terms : Terms) (s : Standing) → Holds terms engine.now s → StepsOf S.written S.flushed S.faults
        S.has_room terms
        Command.Trace s sink.old sink.new engine.now result }
{
    // For the proof: the verdict's proof is that of the derivation, which is legal.
    let _proof = engine.derivation();
    match engine.trace_core() {
        Ok(core) => send(write_core(&core, engine.prefix(), sink), Reply::Written),
        Err(refusal) => refuse(refusal.number(), sink),
    }
}

// Tells the verdict's circuit.
fn tell_circuit<S: Sink>(engine: &Engine, sink: &mut S) -> Result<Reply, SessionStop>
    ensures { (terms : Terms) (s : Standing) → Holds terms engine.now s → StepsOf S.written S.flushed S.faults
        S.has_room terms
        Command.Cert s sink.old sink.new engine.now result }
{
    match engine.certificate() {
        Ok(strategy) => send(write_circuit(&strategy, false, sink), Reply::Written),
        Err(refusal) => refuse(refusal.number(), sink),
    }
}

// Tells the verdict's core.
fn tell_core<S: Sink>(engine: &Engine, budget: u64, sink: &mut S) -> Result<Reply, SessionStop>
    ensures { (terms : Terms) (s : Standing) → terms.budget ≡ budget → Holds terms engine.now s → StepsOf S.written
        S.flushed S.faults S.has_room terms Command.GroupCore s sink.old sink.new engine.now result }
{
    match engine.group_core(budget) {
        Ok(core) => send(write_groups(&core, sink), Reply::Written),
        Err(CoreRefusal::Spent(stopped)) => send(
            write_answer(Answer::Unknown, sink),
            Reply::Unknown(stopped),
        ),
        Err(refusal) => refuse(refusal.number(), sink),
    }
}
