//! A desk over the files and the standard input of the system.
ghost use Rattle.std.specs.Prelude.{◌≡◌, ℕ, None, IfSome};

use super::faults::Faults;
use super::source::Source;
use super::{Desk, Failed};
use std::io::Read;

/// A desk whose names are paths of files, and `-` standard input. It tells of their bytes what the source tells, which
/// is nothing where that is the system. A read or an opening that the source answers with an error is a fault, as of a
/// folder, and so is a read where nothing is chosen. An interrupted read is an error like any other, and isn't tried
/// again.
#[derive(Drop)]
pub struct HostDesk<S: Source> {
    source: S,
    chosen: Option<S::Reader>,
    faults: Faults,
}

impl<S: Source> HostDesk<S> {
    /// A desk of which nothing is chosen, with no fault yet.
    pub fn new(source: S) -> Self
        ensures source { result.source ≡ source }
        ensures chosen { result.chosen ≡ None }
        ensures faults { result.faults ≡ 0 }
    {
        Self {
            source,
            chosen: None,
            faults: Faults::new(),
        }
    }
}

impl<S: Source> Desk for HostDesk<S> {
    ghost use Rattle.std.specs.Option.{option_and_then};

    ghost content = { λ d. S.holds d.source };

    ghost left = { λ d. option_and_then S.Reader.remaining d.chosen };

    ghost faults = { λ d. d.faults };

    ghost steady = { λ _ _. ⊥ };

    ghost flows = { λ _. ⊥ };

    fn choose(&mut self, name: &str) -> Result<(), Failed> {
        if name == "-" {
            self.chosen = Some(self.source.standard());
            return Ok(());
        }
        let answer = self.source.open(name);
        self.chosen = Some(self.faults.counted(answer)?);
        Ok(())
    }

    fn read(&mut self, buf: &mut [u8]) -> Result<usize, Failed> {
        match &mut self.chosen {
            Some(reader) => {
                let answer = reader.read(buf);
                self.faults.counted(answer)
            }
            None => self.faults.fail(),
        }
    }
}
