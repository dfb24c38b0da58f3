//! Worked values of the definitions, each proved.
ghost use Rattle.extract.specs.Worked.{WorkedCovers, WorkedEdges, WorkedGiven, WorkedPlays, WorkedRemovals, WorkedRules, WorkedTables, WorkedWeights};

/// What the steps of small cores remove.
pub fn worked_removals()
    ensures { WorkedRemovals }
{}

/// What the first removal with a bad row forces.
pub fn worked_rules()
    ensures { WorkedRules }
{}

/// What removals cost in gates.
pub fn worked_weights()
    ensures { WorkedWeights }
{}

/// The entries of tables, and the removals of lines.
pub fn worked_tables()
    ensures { WorkedTables }
{}

/// What tables agree with, cover, hold and keep.
pub fn worked_covers()
    ensures { WorkedCovers }
{}

/// The edges of inputs and of assumed variables.
pub fn worked_given()
    ensures { WorkedGiven }
{}

/// Edges by the rule, what is kept for rows, and what has to stand first.
pub fn worked_edges()
    ensures { WorkedEdges }
{}

/// Whole tables that play, and some that don't.
pub fn worked_plays()
    ensures { WorkedPlays }
{}
