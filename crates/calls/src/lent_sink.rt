//! A sink over a lent buffer.
ghost use Rattle.std.specs.Prelude.{◌≡◌, ◌≤◌, ◌<◌, ◌++◌, ◌-◌, ◌+◌, length, take, min, ℕ, IsErr};
ghost use Rattle.ports.specs.Causes.{HasCause, raised};
ghost use Rattle.calls.specs.Lent.{empty, seen};

use ports::{Failed, Sink};

/// A sink that puts what is written into a lent buffer, from its start. A write fails where none of the buffer is left,
/// and nothing else does. What is written stands in the buffer at once, so there is nothing to flush.
#[derive(Drop)]
pub struct LentSink<'a> {
    buffer: &'a mut [u8],
    room: Room,
}

// What is left of a buffer: so many bytes, or none, with the number of writes that failed since.
#[derive(Drop)]
enum Room {
    Left(usize),
    Full { faults: u64 },
}

impl<'a> LentSink<'a> {
    /// A sink over this buffer, with nothing written.
    pub fn new(buffer: &'a mut [u8]) -> LentSink<'a>
        ensures empty { seen result ≡ empty buffer.entry.ghost_name (length buffer.old) }
        ensures now { result.buffer.now ≡ buffer.old }
    {
        let room = Room::Left(buffer.len());
        LentSink { buffer, room }
    }

    /// How many bytes were written. After a fault the buffer is full.
    pub fn count(&self) -> usize
        ensures count { result ≡ length (seen self.now).bytes }
        ensures within { result ≤ (seen self.now).room }
        ensures full { 0 < (seen self.now).faults → (seen self.now).room ≤ result }
    {
        match self.room {
            Room::Left(left) => self.buffer.len().saturating_sub(left),
            Room::Full { .. } => self.buffer.len(),
        }
    }

    // How many more bytes the buffer has room for.
    fn left(&self) -> usize
        ensures { result ≡ (seen self.now).room - length (seen self.now).bytes }
    {
        self.buffer.len() - self.count()
    }

    // Takes what the buffer has room for, where that is something.
    fn take_front(&mut self, piece: &[u8]) -> usize
        requires { length (seen self.old).bytes < (seen self.old).room }
        ensures count { result ≡ min (length piece.now) ((seen self.old).room - length (seen self.old).bytes) }
        ensures taken { seen self.new ≡ record (seen self.old) { bytes = (seen self.old).bytes ++ take result piece.now } }
        ensures within { length (seen self.old).bytes + result ≤ (seen self.old).room }
    {
        let start = self.count();
        let n = piece.len().min(self.buffer.len() - start);
        let end = start + n;
        self.buffer[start..end].copy_from_slice(&piece[..n]);
        self.room = Room::Left(self.buffer.len() - end);
        n
    }

    // Counts a fault where none of the buffer is left.
    fn fail(&mut self) -> Result<usize, Failed>
        requires { (seen self.old).room ≤ length (seen self.old).bytes }
        ensures failed { IsErr result }
        ensures counted { seen self.new ≡ record (seen self.old) { faults = raised (seen self.old).faults } }
        ensures cause { HasCause (seen self.old).faults (seen self.new).faults result }
    {
        let faults = match self.room {
            Room::Left(_) => 1,
            Room::Full { faults } => faults.saturating_add(1),
        };
        self.room = Room::Full { faults };
        Err(Failed)
    }
}

impl<'a> Sink for LentSink<'a> {
    ghost use Rattle.std.specs.Prelude.{None};
    ghost use Rattle.calls.specs.Lent.{HasRoom, behind, seen};

    ghost written = { λ s. behind (seen s).name (seen s).room (seen s).bytes };

    ghost flushed = { λ _. None };

    ghost faults = { λ s. (seen s).faults };

    ghost has_room = { λ s. HasRoom (seen s) };

    fn write(&mut self, piece: &[u8]) -> Result<usize, Failed> {
        if piece.is_empty() {
            return Ok(0);
        }
        if self.left() == 0 {
            return self.fail();
        }
        Ok(self.take_front(piece))
    }

    fn flush(&mut self) -> Result<(), Failed> {
        Ok(())
    }
}
