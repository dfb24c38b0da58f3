//! A sink that grows.
ghost use Rattle.std.specs.Prelude.{◌≡◌, ◌++◌, [], ℕ, IsOk, None, OnErr, OnOk, Some};
ghost use Rattle.std.specs.Io.KnownBytes.{Keeps, WriteAppends};
ghost use Rattle.ports.specs.Bytes.{FlushesAll, KeepsOnErr, TakesRoom, TakesSome};
ghost use Rattle.ports.specs.Causes.{HasCause, raised};

use ports::{Failed, Sink};
use std::alloc::Global;
use std::marker::Model;

/// A sink that keeps all bytes, in memory that it takes as they come. A write fails for want of memory alone.
#[derive(Debug, Drop)]
pub struct Draft {
    bytes: Vec<u8>,
    // How often memory was wanting. At 2^64 - 1 the count stays.
    faults: u64,
}

impl Model for Draft {
    ghost use Rattle.buffers.specs.Filled.{Drafted};

    ghost Value = { Drafted };

    ghost view = { λ d. record { bytes = d.bytes.items; faults = d.faults } };
}

impl Draft {
    /// No byte yet. This takes no memory.
    pub fn new(alloc: Global) -> Self
        ensures { result ≡ record { bytes = []; faults = 0 } }
    {
        Self {
            bytes: Vec::new(alloc),
            faults: 0,
        }
    }

    /// The bytes.
    pub fn bytes(&self) -> &[u8]
        ensures { result.now ≡ self.now.bytes }
    {
        &self.bytes
    }
}

impl Sink for Draft {
    ghost written = { λ d. Some d.bytes };

    ghost flushed = { λ _. None };

    ghost faults = { λ d. d.faults };

    // Memory may be wanting at any time.
    ghost has_room = { λ _ _. ⊥ };

    fn write(&mut self, piece: &[u8]) -> Result<usize, Failed>
        ensures some { TakesSome result piece.now }
        ensures bytes { WriteAppends (Some self.old.bytes) (Some self.new.bytes) result piece.now }
        ensures untaken { KeepsOnErr (Some self.old.bytes) (Some self.new.bytes) result }
        ensures cause { HasCause self.old.faults self.new.faults result }

        ensures ok { OnOk result (self.new ≡ record self.old { bytes = self.old.bytes ++ piece.now }) }
        ensures err { OnErr result (self.new ≡ record self.old { faults = raised self.old.faults }) }
    {
        match self.bytes.extend_from_slice(piece) {
            Ok(()) => Ok(piece.len()),
            Err(_) => {
                self.faults = self.faults.saturating_add(1);
                Err(Failed)
            }
        }
    }

    fn flush(&mut self) -> Result<(), Failed>
        ensures bytes { Keeps (Some self.old.bytes) (Some self.new.bytes) }
        ensures flushed { FlushesAll (Some self.new.bytes) None None result }
        ensures cause { HasCause self.old.faults self.new.faults result }

        ensures ok { IsOk result }
        ensures same { self.new ≡ self.old }
    {
        Ok(())
    }
}
