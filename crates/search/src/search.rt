//! A search.
ghost use Rattle.std.specs.Prelude.{◌≡◌, []};
ghost use Rattle.derive.specs.State.{clauses_of};
ghost use Rattle.clean.specs.Turns.{reductions_in};
ghost use Rattle.search.specs.Finishes.{HasNoFinish};
ghost use Rattle.search.specs.State.{IsResting};

use crate::watching::Watches;
use decide::Decider;
use derive::{Derivation, StepId};
use std::alloc::Global;
use std::marker::Model;
use trail::Trail;

// After so many lessons of a solve a restart is due.
pub(crate) const RESTART_INTERVAL: u8 = 64;

/// A search with what it learned so far. Contracts see it as the derivation, the trail, both watches, the signs that
/// variables had last, the ids of the rows to watch, whether the live ones are attached, and how many long learned rows
/// are.
///
/// Between its public calls it is at rest: nothing is assigned, and each live step is legal for the prefix that the
/// calls are given, which may grow between them.
#[derive(Debug, Drop)]
pub struct Search {
    pub(crate) derivation: Derivation,
    pub(crate) trail: Trail,
    pub(crate) watches: Watches,
    pub(crate) decider: Decider,
    // The ids of the rows to watch. Those of steps that were dropped go once the list has grown by a quarter.
    pub(crate) watched: Vec<StepId>,
    // Whether the rows to watch that are live are known to be attached.
    pub(crate) joined: bool,
    // How many long learned rows are attached.
    pub(crate) long: usize,
    // How many rows are listed to watch before those of steps that were dropped go again; contracts don't see it.
    pub(crate) tidy_at: usize,
    // How many ids are given before steps that are forgotten are dropped again; contracts don't see it.
    pub(crate) sweep_at: usize,
    // How many lessons come before the next restart is due; contracts don't see it.
    pub(crate) lessons_left: u8,
    // Whether the watches were quiet since the solve began; contracts don't see it.
    pub(crate) was_quiet: bool,
}

impl Model for Search {
    ghost use Rattle.search.specs.State.{SearchState};

    ghost Value = { SearchState };

    ghost view = { λ s. record {
      derivation = s.derivation;
      trail = s.trail;
      clauses = s.watches.clauses;
      cubes = s.watches.cubes;
      signs = s.decider;
      watched = s.watched.items;
      joined = s.joined;
      long = s.long;
    } };
}

impl Search {
    /// A search of no clauses, without room for variables. This takes no memory.
    pub fn new(alloc: Global) -> Self
        ensures resting { IsResting [] result }
        ensures clauses { clauses_of result.derivation ≡ [] }
        ensures watched { result.watched ≡ [] }
        ensures finishes { HasNoFinish result.derivation }
        ensures reductions { reductions_in result.derivation ≡ 0 }
    {
        Self {
            derivation: Derivation::new(alloc),
            trail: Trail::new(alloc),
            watches: Watches::new(alloc),
            decider: Decider::new(alloc),
            watched: Vec::new(alloc),
            joined: true,
            long: 0,
            tidy_at: 0,
            sweep_at: 0,
            lessons_left: RESTART_INTERVAL,
            was_quiet: false,
        }
    }
}
