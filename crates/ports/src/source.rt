//! The system's inputs.
ghost use Rattle.std.specs.Prelude.{◌≡◌, ℕ, IfOk, List, Option, None, codes};

use std::io::Read;
use std::rt::Files;
use std::{fs, io};

/// The calls of the system that a desk makes.
pub trait Source {
    /// An input that was opened.
    type Reader: Read + Drop;

    /// The bytes that a name holds, where they are known.
    ghost holds: { Self → List ℕ → Option (List ℕ) };

    /// Standard input.
    fn standard(&self) -> Self::Reader
        ensures { Self.Reader.remaining result ≡ holds self.now (codes "-") };

    /// The file of that path, from its start.
    fn open(&self, path: &str) -> io::Result<Self::Reader>
        ensures { IfOk result (λ reader. Self.Reader.remaining reader ≡ holds self.now path.now) };
}

/// Standard input or a file of a runtime. What it holds isn't known.
#[derive(Drop)]
pub enum HostReader<R: Files + Input> {
    Standard(R::Reader),
    Named(R::File),
}

impl<R: Files + Input> Read for HostReader<R> {
    ghost remaining = { λ _. None };

    fn read(&mut self, buf: &mut [u8]) -> io::Result<usize> {
        match self {
            Self::Standard(input) => input.read(buf),
            Self::Named(file) => file.read(buf),
        }
    }
}

impl<R: Files + Input> Source for R {
    type Reader = HostReader<R>;

    ghost holds = { λ _ _. None };

    fn standard(&self) -> HostReader<R> {
        HostReader::Standard(self.reader())
    }

    fn open(&self, path: &str) -> io::Result<HostReader<R>> {
        Ok(HostReader::Named(fs::open(self, path)?))
    }
}
