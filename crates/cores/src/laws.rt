//! Laws of cores.
ghost use Rattle.cores.specs.Cores.{CoresAreMinimal, FewerClausesStayTrue};

/// With fewer clauses a true formula stays true.
pub fn fewer_clauses_stay_true()
    ensures { FewerClausesStayTrue }
{}

/// The core of a false formula is false, and without any one of its groups true; its groups are some of the formula's.
pub fn cores_are_minimal()
    ensures { CoresAreMinimal }
{}
