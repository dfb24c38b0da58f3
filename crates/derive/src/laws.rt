//! Laws of derivations.
ghost use Rattle.derive.specs.Theorems.{ClausesAreListed, GrowthLaws, PrefixesMayChange, PrefixesMayGrow, SameClausesServe, SmallerPrefixesAgree, StepsAreListed};

/// Each live step but a finish stays legal when the prefix gets scopes and variables.
pub fn prefixes_may_grow()
    ensures { PrefixesMayGrow }
{}

/// Each live step but a finish stays legal when variables leave the prefix that no live step names.
pub fn prefixes_may_change()
    ensures { PrefixesMayChange }
{}

/// A prefix agrees with a larger one, from which variables left, on its own variables.
pub fn smaller_prefixes_agree()
    ensures { SmallerPrefixesAgree }
{}

/// Each live step but a finish is legal for every formula that has the open clauses and no others.
pub fn same_clauses_serve()
    ensures { SameClausesServe }
{}

/// A derivation grows by added steps, and a cut to the id that came next before gives its steps and its open clauses
/// again.
pub fn growth_laws()
    ensures { GrowthLaws }
{}

/// The steps that contracts list are those under the ids of the live steps but finishes, as the readers tell them.
pub fn steps_are_listed()
    ensures { StepsAreListed }
{}

/// The open clauses that contracts list are the input steps of the side of clauses, each of its frame and with its row.
pub fn clauses_are_listed()
    ensures { ClausesAreListed }
{}
