//! How a run ends, and what it says on the error output. The line is written piece by piece, so that it takes no
//! memory.
ghost use Rattle.std.specs.Prelude.{◌≡◌, List, ℕ, OnOk, ◌++◌, codes};
ghost use Rattle.std.specs.Io.KnownBytes.{Appends};
ghost use Rattle.ports.specs.Bytes.{AppendsFront};
ghost use Rattle.ports.specs.Causes.{HasCause};
ghost use Rattle.std.specs.Fmt.{decimal};
ghost use Rattle.program.specs.Run.{check_limit_line as line_of_check_limit, status_of, line_of, quantity_name as name_of_quantity, placed_line};

use ports::{Failed, Sink, write_all};
use reading::Quantity;
use solve::Ending;

/// How a run ends.
#[derive(Debug, Drop)]
pub enum RunEnding {
    /// The work on the input ended so.
    Worked(Ending),
    /// The words ask for no command. The text says what is asked for.
    Usage(String),
}

impl RunEnding {
    // The exit status.
    pub(crate) fn status(&self) -> u8
        ensures { result ≡ status_of self.now }
    {
        match self {
            Self::Worked(Ending::Done(status)) => *status,
            Self::Worked(Ending::Refused { .. }) => 2,
            Self::Worked(Ending::ReadFault) => 3,
            Self::Worked(Ending::WriteFault) => 4,
            Self::Worked(Ending::NoMemory) => 5,
            Self::Worked(Ending::Limit { .. }) => 6,
            Self::Worked(Ending::CheckLimit { .. }) => 6,
            Self::Usage(_) => 7,
        }
    }

    // Writes the line on the error output.
    pub(crate) fn write_line<E: Sink>(&self, err: &mut E) -> Result<(), Failed>
        ensures ok { OnOk result (Appends (E.written err.old) (E.written err.new) (line_of self.now)) }
        ensures front { AppendsFront (E.written err.old) (E.written err.new) (line_of self.now) }
        ensures cause { HasCause (E.faults err.old) (E.faults err.new) result }
    {
        match self {
            Self::Worked(Ending::Done(_)) => write_all(err, b""),
            Self::Worked(Ending::Refused { number, line }) => {
                let mut buffer = itoa::Buffer::new();
                write_placed(err, *line, ": refused ", buffer.format(*number))
            }
            Self::Worked(Ending::Limit { quantity, line }) => {
                write_placed(err, *line, ": limit ", quantity_name(quantity))
            }
            Self::Worked(Ending::CheckLimit { quantity }) => {
                write_all(err, check_limit_line(quantity).as_bytes())
            }
            Self::Worked(Ending::ReadFault) => write_all(err, b"qbf: read fault\n"),
            Self::Worked(Ending::WriteFault) => write_all(err, b"qbf: write fault\n"),
            Self::Worked(Ending::NoMemory) => write_all(err, b"qbf: no memory\n"),
            Self::Usage(text) => write_all(err, text.as_bytes()),
        }
    }
}

// Writes what is wrong on a line of the input.
fn write_placed<E: Sink>(err: &mut E, line: u32, what: &str, which: &str) -> Result<(), Failed>
    ensures ok { OnOk result (Appends (E.written err.old) (E.written err.new) (placed_line line what.now which.now)) }
    ensures front { AppendsFront (E.written err.old) (E.written err.new) (placed_line line what.now which.now) }
    ensures cause { HasCause (E.faults err.old) (E.faults err.new) result }
{
    let mut buffer = itoa::Buffer::new();
    write_all(err, b"qbf: line ")?;
    write_all(err, buffer.format(line).as_bytes())?;
    write_all(err, what.as_bytes())?;
    write_all(err, which.as_bytes())?;
    write_all(err, b"\n")
}

// What is written where the check formula goes beyond a limit.
fn check_limit_line(quantity: &Quantity) -> &'static str
    ensures { result.now ≡ line_of_check_limit quantity.now }
{
    match quantity {
        Quantity::Variables => "qbf: limit variables\n",
        Quantity::Scopes => "qbf: limit scopes\n",
        Quantity::Clauses => "qbf: limit clauses\n",
        Quantity::Literals => "qbf: limit literals\n",
        Quantity::Bytes => "qbf: limit bytes\n",
    }
}

// The name of what there may be only so many of.
fn quantity_name(quantity: &Quantity) -> &'static str
    ensures { result.now ≡ name_of_quantity quantity.now }
{
    match quantity {
        Quantity::Variables => "variables",
        Quantity::Scopes => "scopes",
        Quantity::Clauses => "clauses",
        Quantity::Literals => "literals",
        Quantity::Bytes => "bytes",
    }
}
