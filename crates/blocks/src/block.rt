//! A block of bytes on their way to a sink.
ghost use Rattle.std.specs.Prelude.{◌≡◌, ◌≤◌, ◌<◌, ◌++◌, [], length, take, OnOk};
ghost use Rattle.ports.specs.Writing.{Writes};
ghost use Rattle.blocks.specs.Held.{Puts};

use crate::line::LineText;
use arrayvec::ArrayVec;
use ports::{Failed, Sink, write_all};
use std::marker::Model;

/// How many bytes a block has.
const ROOM: usize = 4096;

/// What is held back of a text, at most 4,096 bytes. A writer makes one, puts each word of its text into it, and
/// finishes it before it answers. So a sink that takes whole pieces is called once for each 4,096 bytes, and once for
/// what is left behind them.
#[derive(Drop)]
pub struct Block {
    held: ArrayVec<u8, ROOM>,
}

impl Model for Block {
    ghost use Rattle.std.specs.Prelude.{ℕ, List};

    ghost Value = { List ℕ };

    ghost view = { λ b. b.held.items };
}

impl Block {
    /// A block that holds nothing.
    pub fn new() -> Self
        ensures { result ≡ [] }
    {
        Self {
            held: ArrayVec::new(),
        }
    }

    /// Puts bytes behind those that are held. A full block is passed on to the sink once more bytes come.
    ///
    /// Fails only where the sink does, with a front of the bytes held and these written.
    pub fn put<S: Sink>(&mut self, bytes: &[u8], sink: &mut S) -> Result<(), Failed>
        ensures { Puts S.written S.flushed S.faults S.has_room sink.old self.old sink.new self.new bytes.now result }
    {
        let mut done = 0;
        while done < bytes.len() {
            self.make_room(sink)?;
            done += self.take_front(&bytes[done..]);
        }
        Ok(())
    }

    /// Puts a line behind what is held.
    ///
    /// Fails only where the sink does, with a front of the bytes held and of the line written.
    pub fn put_line<S: Sink>(&mut self, line: &LineText, sink: &mut S) -> Result<(), Failed>
        ensures { Puts S.written S.flushed S.faults S.has_room sink.old self.old sink.new self.new line.now result }
    {
        self.put(line.bytes(), sink)
    }

    /// Passes on all that is held.
    ///
    /// Fails only where the sink does, with a front of it written. Nothing is flushed. A text takes one call of a sink
    /// that takes whole pieces for each 4,096 bytes, rounded up; no clause counts calls.
    pub fn finish<S: Sink>(self, sink: &mut S) -> Result<(), Failed>
        ensures { Writes S.written S.flushed S.faults S.has_room sink.old sink.new self result }
    {
        let bytes = self.held.as_slice();
        write_all(sink, bytes)
    }

    // Passes a full block on, so that there is room for a byte.
    fn make_room<S: Sink>(&mut self, sink: &mut S) -> Result<(), Failed>
        ensures puts { Puts S.written S.flushed S.faults S.has_room sink.old self.old sink.new self.new [] result }
        ensures room { OnOk result (length self.new < 4096) }
    {
        if !self.held.is_full() {
            return Ok(());
        }
        write_all(sink, self.held.as_slice())?;
        self.held.clear();
        Ok(())
    }

    // Takes as many of the bytes as there is room for, and says how many.
    fn take_front(&mut self, bytes: &[u8]) -> usize
        requires { length self.old < 4096 }
        ensures count { result ≤ length bytes.now }
        ensures some { 0 < length bytes.now → 0 < result }
        ensures taken { self.new ≡ self.old ++ take result bytes.now }
    {
        let n = bytes.len().min(self.held.remaining_capacity());
        let _ = self.held.try_extend_from_slice(&bytes[..n]);
        n
    }
}
