//! Why a literal stands on the trail.
ghost use Rattle.std.specs.Prelude.{◌≡◌, suc, ◌+◌, ◌^◌, ◌<◌, if◌then◌else◌};
ghost use Rattle.calculus.specs.Search.{is_decision};
ghost use Rattle.trail.specs.Causes.{cause_of};

/// Why a literal stands on the trail: it was assumed, it was decided, or it was propagated from the row of the step
/// with this id.
#[derive(Clone, Copy, Debug, PartialEq, Eq)]
pub enum Why {
    Assumed,
    Decided,
    Propagated(usize),
}

impl Why {
    // Whether it is a decision.
    pub(crate) fn is_decision(self) -> bool
        ensures { result ≡ is_decision (cause_of self) }
    {
        matches!(self, Self::Decided)
    }

    // The decision level of a literal that comes after this level.
    pub(crate) fn level_after(self, level: usize) -> usize
        requires { level < 2 ^ 63 }
        ensures { result ≡ (if is_decision (cause_of self) then suc level else level) }
    {
        if self.is_decision() { level + 1 } else { level }
    }

    // The number of the scope of the last decision, with the one before a literal of the scope with this number less 1.
    pub(crate) fn floor_after(self, floor: usize, scope: usize) -> usize
        requires { scope < 2 ^ 63 }
        ensures { result ≡ (if is_decision (cause_of self) then scope + 1 else floor) }
    {
        if self.is_decision() { scope + 1 } else { floor }
    }
}
