//! Versions of the script format.

/// The version of the script format that the header of a script names, `p qscript 1` to `p qscript 3`. It decides how
/// long a variable stays, and whether there are groups of clauses.
#[derive(Clone, Copy, Debug, PartialEq, Eq)]
pub enum Version {
    /// A variable that is added stays.
    One,
    /// A variable leaves with the frame that was on top when it was added: the `pop` that drops this frame takes it out
    /// of its scope, and an assumption over it with it. What is added while no pushed frame is open stays.
    Two,
    /// As version 2, and clauses may stand in groups, each of which is made active or inactive as a whole.
    Three,
}
