//! What an engine counts.
ghost use Rattle.std.specs.Prelude.{◌≡◌};
ghost use Rattle.engine.specs.Counting.{no_counts, with_clause, with_clauses, with_solve};

// The accepted clauses and the solves so far, however these ended, and the greatest budget, the greatest number of
// restarts and the greatest number of variables at a solve. A count at its greatest value stays.
#[derive(Clone, Copy, Debug)]
pub(crate) struct Counts {
    pub clauses: u64,
    pub solves: u64,
    pub budget: u64,
    pub restarts: u32,
    pub vars: u64,
}

impl Counts {
    // Nothing counted yet.
    pub(crate) fn new() -> Self
        ensures { result ≡ no_counts }
    {
        Self {
            clauses: 0,
            solves: 0,
            budget: 0,
            restarts: 0,
            vars: 0,
        }
    }

    // Counts an accepted clause.
    pub(crate) fn with_clause(self) -> Self
        ensures { result ≡ with_clause self }
    {
        Self {
            clauses: self.clauses.saturating_add(1),
            ..self
        }
    }

    // Counts clauses that came back with their group.
    pub(crate) fn with_clauses(self, count: u64) -> Self
        ensures { result ≡ with_clauses count self }
    {
        Self {
            clauses: self.clauses.saturating_add(count),
            ..self
        }
    }

    // Counts a solve.
    pub(crate) fn with_solve(self, budget: u64, restarts: u32, vars: u64) -> Self
        ensures { result ≡ with_solve budget restarts vars self }
    {
        Self {
            clauses: self.clauses,
            solves: self.solves.saturating_add(1),
            budget: self.budget.max(budget),
            restarts: self.restarts.max(restarts),
            vars: self.vars.max(vars),
        }
    }
}
