//! Trails, their assumptions and their reasons.
ghost use Rattle.calculus.specs.TrailTheorems.{AssumptionMoves, Cuts, CutsKeepHasAssumptions, Places, ReasonMoves, ReasonsAreUnit, ReasonsOppose, ReasonsStay, TrailLaws, TrailsAreShort};

/// What a trail's lists give: its values, those of a cut, and the order that additions and cuts keep.
pub fn trail_laws()
    ensures { TrailLaws }
{}

/// A cut trail is a front of the trail, which ends at a decision.
pub fn cuts()
    ensures { Cuts }
{}

/// What places tell of what is assigned, and of fronts.
pub fn places()
    ensures { Places }
{}

/// An ordered trail has at most one literal for each variable of the prefix, so that its weight is bounded.
pub fn trails_are_short()
    ensures { TrailsAreShort }
{}

/// A trail of assumptions has them, and assignments and cuts keep them.
pub fn assumption_moves()
    ensures { AssumptionMoves }
{}

/// A cut may lose what `HasAssumptions` says, so that no invariant can be made of it.
pub fn cuts_lose_assumptions()
    ensures { CutsKeepHasAssumptions → ⊥ }
{}

/// Unit reasons stay where the trail grows or is cut, and under more steps.
pub fn reason_moves()
    ensures { ReasonMoves }
{}

/// A propagated variable's reason was unit before its place.
pub fn reasons_are_unit()
    ensures { ReasonsAreUnit }
{}

/// A reason was unit in the opposite of what it makes bad.
pub fn reasons_oppose()
    ensures { ReasonsOppose }
{}

/// A row that is clean but for its kept literal stays so where the trail grows, and where it is cut after that literal.
pub fn reasons_stay()
    ensures { ReasonsStay }
{}
