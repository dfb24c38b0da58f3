//! Worked values of the definitions, each proved.
ghost use Rattle.calls.specs.Worked.{WorkedCalls, WorkedLent, WorkedWords};

/// Room of a lent buffer, and what its sink tells.
pub fn worked_lent()
    ensures { WorkedLent }
{}

/// Words of a command line, and lists that aren't its words.
pub fn worked_words()
    ensures { WorkedWords }
{}

/// Ends of calls, and such as no call has, for a line and a text.
pub fn worked_calls(line: &[u8], text: &[u8])
    ensures { WorkedCalls line.now text.now }
{}
