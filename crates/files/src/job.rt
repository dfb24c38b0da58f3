//! What is asked of a file.

/// What is asked of a file with a formula.
#[derive(Clone, Copy, Debug, PartialEq, Eq)]
pub enum Job {
    /// Whether the formula is true.
    Solve,
    /// The same as a solution line, with the values of the outermost variables where their quantifier wins (QDIMACS
    /// 1.1, output format).
    Qdo,
    /// Whether the quantified circuit is true that stands there in a formula's place, as QCIR-14.
    Qcir,
    /// The trace of the verdict's proof, as QRP.
    Trace,
    /// The circuit by which the verdict's winner wins, as AIGER 1.9: in ASCII or in the binary form, and as it is or
    /// trimmed, without the gates that no output is reached from.
    Cert { binary: bool, trim: bool },
}
