//! A sink over a writer of the system.
ghost use Rattle.std.specs.Prelude.{◌≡◌, ◌⊎◌, ◌<◌, length, IfErr, OnOk};
ghost use Rattle.std.specs.Io.{WritesAtMost};
ghost use Rattle.ports.specs.Bytes.{TakesSome};

use super::faults::Faults;
use super::{Failed, Sink};
use std::io;
use std::io::Write;

/// A sink over standard output, standard error, a file or another writer. It tells of the bytes written what the writer
/// tells, and nothing of a flush. An error of the writer is a fault, and so is a write that takes nothing of a piece
/// with bytes. It holds nothing back: each write is one call of the writer. An interrupted call is an error like any
/// other, and isn't tried again.
#[derive(Debug, Drop)]
pub struct HostSink<W: Write> {
    to: W,
    faults: Faults,
}

impl<W: Write> HostSink<W> {
    /// A sink that writes to `to`, with no fault yet.
    pub fn new(to: W) -> Self
        ensures to { result.to ≡ to }
        ensures faults { result.faults ≡ 0 }
    {
        Self {
            to,
            faults: Faults::new(),
        }
    }
}

impl<W: Write> Sink for HostSink<W> {
    ghost use Rattle.std.specs.Prelude.{None};

    ghost written = { λ s. W.contents s.to };

    ghost flushed = { λ _. None };

    ghost faults = { λ s. s.faults };

    ghost has_room = { λ _ _. ⊥ };

    fn write(&mut self, piece: &[u8]) -> Result<usize, Failed> {
        let answer = self.to.write(piece);
        self.faults.counted(some_of(piece, answer))
    }

    fn flush(&mut self) -> Result<(), Failed> {
        let answer = self.to.flush();
        self.faults.counted(answer)
    }
}

// The answer to a write of this piece. One that takes nothing of a piece with bytes is an error.
fn some_of(piece: &[u8], answer: io::Result<usize>) -> io::Result<usize>
    requires { WritesAtMost answer piece.now }
    ensures some { TakesSome result piece.now }
    ensures same { OnOk result (result ≡ answer) }
    ensures none { IfErr result (λ e. (answer ≡ Err e) ⊎ ((answer ≡ Ok 0) × (0 < length piece.now))) }
{
    let n = answer?;
    if n == 0 && !piece.is_empty() {
        return Err(io::Error::from(io::ErrorKind::WriteZero));
    }
    Ok(n)
}
