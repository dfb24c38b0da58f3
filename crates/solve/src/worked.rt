//! Worked values of the definitions, each proved.
ghost use Rattle.solve.specs.Worked.{WorkedAnswers, WorkedCertificates, WorkedDecisions, WorkedTraces};

/// Answers to formulas of both truths, and what is told of searches that stopped.
pub fn worked_answers()
    ensures { WorkedAnswers }
{}

/// Decisions that are right, and others.
pub fn worked_decisions()
    ensures { WorkedDecisions }
{}

/// The trace of a proof, and texts that are none.
pub fn worked_traces()
    ensures { WorkedTraces }
{}

/// Certificates in both forms, whole and trimmed, and texts that are none.
pub fn worked_certificates()
    ensures { WorkedCertificates }
{}
