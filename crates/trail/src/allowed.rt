//! What may be assigned next.
ghost use Rattle.std.specs.Prelude.{◌≡◌};
ghost use Rattle.trail.specs.State.{allowed_anew};

// What may be assigned next.
#[derive(Clone, Copy, Debug)]
pub(crate) enum Allowed {
    // Any literal.
    Anything,
    // After a cut that took literals off: no decision.
    NoDecision,
    // After assumptions were given up: nothing, before the trail is cleared.
    Nothing,
}

impl Allowed {
    // What may be assigned next once a search begins anew: what a cut forbids is allowed again.
    pub(crate) fn anew(self) -> Self
        ensures { result ≡ allowed_anew self }
    {
        match self {
            Self::Anything | Self::NoDecision => Self::Anything,
            Self::Nothing => Self::Nothing,
        }
    }
}
