//! The plain decider.
ghost use Rattle.std.specs.Prelude.{◌≡◌, ◌≢◌, ◌≤◌, ◌<◌, [], ◌∷◌, ◌++◌, length, IfOk, OnOk};
ghost use Rattle.steps.specs.Counter.{after, left, step_limit};
ghost use Rattle.prefix.specs.Scopes.{all_variables};
ghost use Rattle.truth.specs.Truth.{truth, plain_steps, settles as settles_by};

use super::Formula;
use super::search::Search;
use prefix::Quant;
use std::alloc::Global;
use steps::{Steps, Stop};

/// Whether a formula is true, by trying values of its variables in prefix order: false first, and true only where
/// false didn't settle the variable. Each value that is tried is a step, and no other step is counted.
///
/// Spent comes exactly where fewer steps are left than the plain recursion takes (`plain_steps`), which is never where
/// at least `step_limit` of the number of variables are left; then all of the budget is spent. NoMemory may come at any
/// time, and the steps that were counted stay counted.
pub fn decide_plain(alloc: Global, f: &Formula, steps: &mut Steps) -> Result<bool, Stop>
    ensures verdict { IfOk result (λ b. b ≡ truth f.now.prefix f.now.clauses) }
    ensures ok { OnOk result (steps.new ≡ after steps.old (plain_steps f.now.prefix f.now.clauses)) }
    ensures room { OnOk result (plain_steps f.now.prefix f.now.clauses ≤ left steps.old) }
    ensures spent { result ≡ Err Stop.Spent → left steps.old < plain_steps f.now.prefix f.now.clauses }
    ensures never { step_limit 0 (length (all_variables f.now.prefix)) ≤ left steps.old → result ≢ Err Stop.Spent }
    ensures all_spent { result ≡ Err Stop.Spent → steps.new ≡ record steps.old { spent = steps.old.budget } }
    ensures budget { steps.new.budget ≡ steps.old.budget }
    ensures later { steps.old.spent ≤ steps.new.spent }
{
    let mut search = Search::new(alloc, &f.prefix)?;
    let mut answer = None;
    loop {
        if let Some(found) = answer {
            let Some((quant, value)) = search.take_back() else {
                return Ok(found);
            };
            if value || settles(quant, found) {
                continue;
            }
            try_value(&mut search, true, steps)?;
            answer = None;
            continue;
        }
        if search.is_full() {
            answer = Some(search.satisfies(f.clauses.clauses()));
            continue;
        }
        try_value(&mut search, false, steps)?;
    }
}

// Gives the next variable a value, which is a step.
fn try_value(search: &mut Search, value: bool, steps: &mut Steps) -> Result<(), Stop>
    requires { length search.old.values < length search.old.order }
    ensures search { OnOk result (search.new ≡ record search.old { values = search.old.values ++ value ∷ [] }) }
    ensures steps { OnOk result (steps.new ≡ after steps.old 1) }
    ensures within { OnOk result (steps.new.spent ≤ steps.new.budget) }
    ensures spent { result ≡ Err Stop.Spent → steps.new.spent ≡ steps.new.budget }
    ensures unchanged { result ≡ Err Stop.Spent → steps.new ≡ steps.old }
    ensures budget { steps.new.budget ≡ steps.old.budget }
    ensures later { steps.old.spent ≤ steps.new.spent }
{
    steps.tick()?;
    search.choose(value)?;
    Ok(())
}

// Whether the answer at one value settles a variable.
fn settles(quant: Quant, answer: bool) -> bool
    ensures { result ≡ settles_by quant answer }
{
    match quant {
        Quant::Exists => answer,
        Quant::Forall => !answer,
    }
}
