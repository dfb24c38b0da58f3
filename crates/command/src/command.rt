//! What the words ask for.

/// In which form a formula is given and answered.
#[derive(Clone, Copy, Debug, PartialEq, Eq)]
pub enum SolveForm {
    /// As QDIMACS, answered by a word.
    Plain,
    /// As QDIMACS, answered in the lines of QDIMACS's output format (`--qdo`).
    Qdo,
    /// As a quantified circuit in QCIR, answered by a word (`--qcir`).
    Qcir,
}

/// What a command does with the text of its input.
#[derive(Clone, Copy, Debug, PartialEq, Eq)]
pub enum Verb {
    /// Decide one formula.
    Solve { form: SolveForm },
    /// Write the derivation that a formula's verdict rests on.
    Trace,
    /// Write the circuit that wins for a formula's verdict: in AIGER's binary form where `binary` asks for it, and
    /// without the gates that no output is reached from where `trim` does.
    Cert { binary: bool, trim: bool },
    /// Write the formula that says that the circuit of a formula's verdict loses; where `decide` asks for it, decide
    /// that formula too.
    Check { decide: bool },
    /// Reply to a script of incremental commands.
    Script,
}

/// The input of a command, and what each search on it is given.
#[derive(Clone, Copy, Debug, PartialEq, Eq)]
pub struct Input<'a> {
    /// So many steps; 2^64 - 1 where the words give no number.
    pub budget: u64,
    /// At most so many restarts, from 0 to 1,000,000; none where the words give no number.
    pub restarts: u32,
    /// So many long learned rows to keep, from 16 to 16,777,216; 512 where the words give no number.
    pub kept: u32,
    /// Where the text is; without a name it is read from standard input.
    pub name: Option<&'a str>,
}

/// A command, with the values that its words give.
#[derive(Clone, Copy, Debug, PartialEq, Eq)]
pub enum Command<'a> {
    /// Do this with an input.
    Read { verb: Verb, input: Input<'a> },
    /// Write the formula that the generator makes of this seed, with 3 to 32,000 variables and at most 1,000,000
    /// clauses.
    Gen { seed: u32, vars: u32, clauses: u32 },
    /// Solve this many formulas of the generator, 1 to 10,000, from this seed on.
    Demo { seed: u32, count: u32 },
}
