//! Clauses of three literals. The third place is moved past the two taken ones, the lesser first, so that it takes one
//! draw whatever they are.
ghost use Rattle.std.specs.Prelude.{◌≡◌, ◌+◌, ◌≤◌, ◌<◌, ◌≢◌, ◌==◌, map, IfOk};
ghost use Rattle.prefix.specs.Literal.{Literal};
ghost use Rattle.prefix.specs.Scopes.{AreDistinct};
ghost use Rattle.generate.specs.Draws.{drawn, state_at};
ghost use Rattle.generate.specs.Made.{by_variable, clause_at, first_place, literal_at, past as moved_past, second_place, third_place};

use crate::draws::Draws;
use prefix::{Lit, LitList, Var};
use std::alloc::{AllocError, Global};

// Draws a clause over that many variables.
pub(crate) fn draw_clause(
    alloc: Global,
    draws: &mut Draws,
    vars: u32,
) -> Result<LitList, AllocError>
    requires low { 3 ≤ vars }
    requires high { vars ≤ 32000 }
    ensures lits { IfOk result (λ c. c ≡ clause_at draws.old vars 0) }
    ensures state { draws.new ≡ state_at draws.old 6 }
{
    let (first, second, third) = draw_places(draws, vars);
    let lits = [
        draw_literal(draws, first),
        draw_literal(draws, second),
        draw_literal(draws, third),
    ];
    row_of(alloc, lits)
}

// Draws three different places below the number of variables.
fn draw_places(draws: &mut Draws, vars: u32) -> (u32, u32, u32)
    requires low { 3 ≤ vars }
    requires high { vars ≤ 32000 }
    ensures state { draws.new ≡ state_at draws.old 3 }
    ensures first { result.0 ≡ first_place draws.old vars 0 }
    ensures second { result.1 ≡ second_place draws.old vars 0 }
    ensures third { result.2 ≡ third_place draws.old vars 0 }
    ensures first_within { result.0 < vars }
    ensures second_within { result.1 < vars }
    ensures third_within { result.2 < vars }
    ensures second_apart { result.0 ≢ result.1 }
    ensures third_apart { (result.0 ≢ result.2) × (result.1 ≢ result.2) }
{
    let first = draws.draw(vars);
    let second = (first + 1 + draws.draw(vars - 1)) % vars;
    let third = past(first.min(second), draws.draw(vars - 2));
    (first, second, past(first.max(second), third))
}

// Moves a place past a taken one that isn't above it.
fn past(taken: u32, place: u32) -> u32
    requires { place ≤ 32000 }
    ensures { result ≡ moved_past taken place }
{
    if taken <= place { place + 1 } else { place }
}

// Draws the sign of the literal at a place.
fn draw_literal(draws: &mut Draws, place: u32) -> Lit
    requires { place < 32000 }
    ensures state { draws.new ≡ state_at draws.old 1 }
    ensures lit { result ≡ literal_at place (drawn draws.old 0 2) }
{
    Lit::new(Var::new(place + 1).unwrap(), draws.draw(2) == 0)
}

// The clause of three literals over different variables.
fn row_of(alloc: Global, lits: [Lit; 3]) -> Result<LitList, AllocError>
    requires { AreDistinct (map (λ (l : Literal). l.variable) lits) }
    ensures { IfOk result (λ c. c ≡ by_variable lits) }
{
    let mut row = Vec::from_array(alloc, lits)?;
    row.sort_unstable_by_key(|l| l.var());
    let clause = LitList::from_vec(row)?;
    Ok(clause)
}
