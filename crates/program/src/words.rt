//! The words of the command line.
ghost use Rattle.std.specs.Prelude.{◌≡◌, ◌≢◌, codes, string_bytes, IfErr, IfOk, IsErrAnd, Ok, Err};
ghost use Rattle.std.specs.IoError.{error_kind};
ghost use Rattle.program.specs.Words.{IsRefusal};

use crate::ending::RunEnding;
use solve::Ending;
use std::alloc::Global;
use std::io;

/// The words as the system gives them, or how the run ends where it can't: with want of memory, or where a word isn't
/// UTF-8, which is none of the program's.
pub fn words_of(alloc: Global, given: io::Result<Vec<String>>) -> Result<Vec<String>, RunEnding>
    ensures ok { IfOk given (λ words. result ≡ Ok words) }
    ensures err { IfErr given (λ e. IsErrAnd result (IsRefusal (error_kind e))) }
{
    match given {
        Ok(words) => Ok(words),
        Err(e) => Err(refused(alloc, e.kind())),
    }
}

// How the run ends where the system gives no words.
fn refused(alloc: Global, kind: io::ErrorKind) -> RunEnding
    ensures { IsRefusal kind result }
{
    if kind == io::ErrorKind::OutOfMemory {
        return RunEnding::Worked(Ending::NoMemory);
    }
    match String::from_str(alloc, "error: a word isn't UTF-8\n") {
        Ok(text) => RunEnding::Usage(text),
        Err(_) => RunEnding::Worked(Ending::NoMemory),
    }
}
