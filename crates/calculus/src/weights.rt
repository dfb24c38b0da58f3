//! Weights of trails and numbers of steps.
ghost use Rattle.calculus.specs.WeightTheorems.{LimitsSuffice, SearchesEnd, StepsAreFew, WeightLaws};

/// An assignment raises the weight, and so does a cut at a decision with an assignment that is none in its place; the
/// weight is bounded.
pub fn weight_laws()
    ensures { WeightLaws }
{}

/// A search over n variables makes fewer assignments than the assignment limit for the times that it began anew.
pub fn searches_end()
    ensures { SearchesEnd }
{}

/// With at most n resolutions to clean each reason, and 2 n for each lesson, and a reduction for each of these and for
/// an initial cube, the steps are few.
pub fn steps_are_few()
    ensures { StepsAreFew }
{}

/// So with few assignments the steps stay below the step limit.
pub fn limits_suffice()
    ensures { LimitsSuffice }
{}
