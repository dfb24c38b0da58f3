//! The limits of a formula's rows.

/// A limit that rows go beyond.
#[derive(Clone, Copy, Debug, PartialEq, Eq)]
pub enum Beyond {
    /// There are more than `RowBuilder::MAX_CLAUSES` rows.
    Clauses,
    /// The rows have more than `RowBuilder::MAX_LITERALS` literals.
    Literals,
}
