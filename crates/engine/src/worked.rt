//! Worked values of the definitions, each proved.
ghost use Rattle.engine.specs.Worked.{WorkedEngines};
ghost use Rattle.engine.specs.WorkedAsks.{WorkedAsks, WorkedRefusals};
ghost use Rattle.engine.specs.WorkedVerdicts.{WorkedCertificates, WorkedFirst, WorkedProofs, WorkedStops};

use calculus::worked_refutation;

/// Counts, changes, clauses with the numbers of their frames, and proofs of verdicts of both sides.
pub fn worked_engines()
    ensures { WorkedEngines }
{}

/// When questions are refused, for verdicts of both sides.
pub fn worked_refusals()
    ensures { WorkedRefusals }
{}

/// What verdicts of both sides answer, and which finishes may be live beside them.
pub fn worked_asks()
    ensures { WorkedAsks }
{
    worked_refutation();
}

/// Verdicts that are kept with their proofs.
pub fn worked_proofs()
    ensures { WorkedProofs }
{
    worked_refutation();
}

/// What stops a solve.
pub fn worked_stops()
    ensures { WorkedStops }
{}

/// Values of the first scope.
pub fn worked_first()
    ensures { WorkedFirst }
{}

/// What is no certificate.
pub fn worked_certificates()
    ensures { WorkedCertificates }
{}
