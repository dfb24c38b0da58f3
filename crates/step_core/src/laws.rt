//! Laws of cores.
ghost use Rattle.step_core.specs.Theorems.{FinishesEndProofs};

/// The id that a derivation answers for the finish of an end row is one whose core is a proof of the verdict under the
/// same assumptions, where the derivation is legal: `core` says so of each id that `IsFinishAt` holds of.
pub fn finishes_end_proofs()
    ensures { FinishesEndProofs }
{}
