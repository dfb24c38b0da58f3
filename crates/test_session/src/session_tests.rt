//! Commands of a session, one by one.

use ports::MemorySink;
use prefix::Quant;
use qscript::Command;
use session::{Reply, Session, SessionStop};
use std::alloc::Global;
use std::test::Fail;

// A command of a session.
#[derive(Clone, Copy)]
enum Turn {
    Scope,
    Pop,
    Solve,
    Relevant,
}

// The reply to a command.
#[derive(Clone, Copy, PartialEq)]
enum Told {
    Silent,
    Refused(u8),
    Sat,
    Written,
    Other,
}

fn command_of(turn: Turn) -> Command {
    match turn {
        Turn::Scope => Command::Scope {
            quant: Quant::Exists,
            at: None,
        },
        Turn::Pop => Command::Pop,
        Turn::Solve => Command::Solve,
        Turn::Relevant => Command::Relevant,
    }
}

fn sort_of(reply: Result<Reply, SessionStop>) -> Told {
    match reply {
        Ok(Reply::Silent) => Told::Silent,
        Ok(Reply::Refused(number)) => Told::Refused(number),
        Ok(Reply::Sat) => Told::Sat,
        Ok(Reply::Written) => Told::Written,
        _ => Told::Other,
    }
}

fn after(session: &mut Session, sink: &mut MemorySink, turn: Turn) -> Told {
    let command = command_of(turn);
    sort_of(session.step(&command, sink))
}

// Whether commands have these replies.
fn have_replies(session: &mut Session, sink: &mut MemorySink, turns: &[(Turn, Told)]) -> bool {
    for (turn, want) in turns {
        if after(session, sink, *turn) != *want {
            return false;
        }
    }
    true
}

// No step is due without variables.
const FIRST: [(Turn, Told); 3] = [
    (Turn::Scope, Told::Silent),
    (Turn::Pop, Told::Refused(40)),
    (Turn::Solve, Told::Sat),
];

// Whether another number of restarts, and of rows to keep, keeps the verdict.
fn keeps_verdict(session: &mut Session, sink: &mut MemorySink) -> bool {
    session.set_restarts(2);
    session.set_kept_rows(20);
    after(session, sink, Turn::Relevant) == Told::Written
}

// Whether a new session has these replies, and writes them.
fn replies(session: &mut Session, sink: &mut MemorySink) -> bool {
    have_replies(session, sink, &FIRST)
        && keeps_verdict(session, sink)
        && sink.bytes() == b"refused 40\nSAT\nrelevant 0\n".as_slice()
}

fn replies_into(alloc: Global, sink: &mut MemorySink) -> Result<bool, Fail> {
    let mut session = Session::new(alloc, 0)?;
    Ok(replies(&mut session, sink))
}

fn is_replied_to(alloc: Global) -> Result<bool, Fail> {
    let mut sink = MemorySink::new(alloc, 64, 3, Vec::new(alloc))?;
    replies_into(alloc, &mut sink)
}

#[test]
fn commands_are_replied_to_one_by_one(rt: HostRuntime) -> Result<(), Fail> {
    assert!(rt; is_replied_to(rt.alloc())?);
    Ok(())
}
