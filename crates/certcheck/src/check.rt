//! The check formula.
ghost use Rattle.std.specs.Prelude.{◌≡◌, ◌↔◌, ◌+◌, ◌<◌, ◌≤◌, ◌++◌, ◌∷◌, [], false, length, All, OnOk, IfOk, IfErr, IsOkUnless, List, ℕ};
ghost use Rattle.std.specs.List.{range_with_len};
ghost use Rattle.prefix.specs.declared.quant.Quant.TheVariants.{Exists};
ghost use Rattle.prefix.specs.Literal.{Literal};
ghost use Rattle.prefix.specs.Sides.{opposite};
ghost use Rattle.truth.specs.Truth.{truth};
ghost use Rattle.calculus.specs.Plays.{Wins};
ghost use Rattle.truth.specs.Formed.{IsFormed};
ghost use Rattle.aig.specs.Strategies.{IsStrategy, values_of};
ghost use Rattle.builder.specs.Rows.{rows_of};
ghost use Rattle.certcheck.specs.Check.{check_clauses, checked, formula_over, gate_clauses, given, given_outputs as given_outputs_of, greatest, lost_count, named_inputs, scopes_to, units};
ghost use Rattle.certcheck.specs.Theorems.{IsFor};
ghost use Rattle.builder.specs.Building.{Adds, Builds};
ghost use Rattle.certcheck.specs.Building.{IsAnswer, losing_clauses, quantity_of as quantity_of_limit};
ghost use Rattle.certcheck.specs.Tables.{IsTableOfAssumed};

use crate::fault::CheckFault;
use crate::given::{given_inputs, given_outputs};
use crate::laws::{check_formulas_decide, check_rows_are_formed};
use crate::lost::{lost_selectors, put_lost, put_missed, put_selectors};
use crate::names::{assumed_of, table_of};
use crate::put::{put_gates, put_units};
use aig::Strategy;
use builder::{Beyond, RowBuilder, add_scope};
use prefix::{Lit, LitList, Prefix, PrefixRefusal, Quant, Var};
use reading::Quantity;
use std::alloc::{AllocError, Global};
use truth::Formula;

/// The formula that says that a circuit loses: it is unsatisfiable exactly where the circuit wins, whether it does or
/// not. So any solver of existential formulas checks a certificate.
///
/// The circuit's inputs are the loser's variables and its outputs the winner's, in prefix order; the clauses are over
/// the prefix, and the assumptions of its first scope. Variable v of the circuit's AIGER text is variable v of the
/// formula, and the selectors come behind those; all are in one existential scope. The clauses are, in order: each
/// assumed input has its value; each gate is the conjunction of its edges; where the existential side is to win, each
/// clause is false whose selector is true, and else all clauses hold where their one selector is true; each assumed
/// output has the wrong value whose selector is true; and a selector is true. A constant true literal takes its clause
/// out, a constant false one is left out of its clause, repeats count once, and tautologies are left out. `specs/Check`
/// writes it out.
///
/// Refused with Limit of Variables where the formula has more than 1,048,576 variables, else of Clauses where it has
/// more than 2^24 clauses, else of Literals where these have more than 2^28 literals. Want of memory may come in place
/// of any answer. It takes time and memory in proportion to the gates, the greatest variable and the literals of the
/// clauses, but for the sorting of each clause.
pub fn check_formula(
    alloc: Global,
    f: &Formula,
    assumptions: &[Lit],
    s: &Strategy,
) -> Result<Formula, CheckFault>
    requires { IsFor f.now.prefix f.now.clauses assumptions.now s.now }
    // The formula, or the first limit that it goes beyond; want of memory says nothing.
    ensures answer { IsAnswer result (checked f.now.clauses assumptions.now s.now) }
    ensures decides { IfOk result (λ g. (truth g.prefix g.clauses ≡ false)
        ↔ Wins (opposite s.now.winner) f.now.prefix f.now.clauses assumptions.now (values_of s.now)) }
    // It is as a formula that was read is.
    ensures formed { IfOk result IsFormed }
{
    check_circuit(alloc, &f.prefix, f.clauses.clauses(), assumptions, s)
}

/// The same of a formula whose prefix and clauses are lent.
pub fn check_circuit(
    alloc: Global,
    prefix: &Prefix,
    clauses: &[LitList],
    assumptions: &[Lit],
    s: &Strategy,
) -> Result<Formula, CheckFault>
    requires { IsFor prefix.now clauses.now assumptions.now s.now }
    ensures answer { IsAnswer result (checked clauses.now assumptions.now s.now) }
    ensures decides { IfOk result (λ g. (truth g.prefix g.clauses ≡ false)
        ↔ Wins (opposite s.now.winner) prefix.now clauses.now assumptions.now (values_of s.now)) }
    ensures formed { IfOk result IsFormed }
{
    check_formulas_decide();
    check_rows_are_formed();
    let _distinct = prefix.scopes();
    let _proper = s.aig.gates();
    make_formula(alloc, clauses, assumptions, s)
}

// The check formula for these clauses, whatever the circuit does.
fn make_formula(
    alloc: Global,
    clauses: &[LitList],
    assumptions: &[Lit],
    s: &Strategy,
) -> Result<Formula, CheckFault>
    requires { IsStrategy s.now }
    ensures { IsAnswer result (checked clauses.now assumptions.now s.now) }
{
    let greatest = within(s.aig.inputs() as u128 + s.aig.gates() as u128)?;
    let assumed = assumed_of(alloc, assumptions)?;
    let outputs = given_outputs(alloc, s, &assumed)?;
    let lost = lost_selectors(s.winner, clauses.len());
    let count = within(greatest as u128 + lost as u128 + outputs.len() as u128)?;
    let build = build_clauses(alloc, clauses, s, &assumed, &outputs)?;
    finish(alloc, build, count)
}

// A number of variables that is within the limit.
fn within(count: u128) -> Result<u32, CheckFault>
    ensures ok { IfOk result (λ n. (n ≡ count) × (count ≤ 1048576)) }
    ensures limit { IfErr result (λ e. (e ≡ CheckFault.Limit Quantity.Variables) × (1048576 < count)) }
{
    if count > Var::MAX as u128 {
        return Err(CheckFault::Limit {
            quantity: Quantity::Variables,
        });
    }
    Ok(count as u32)
}

// The rows of the clauses.
fn build_clauses(
    alloc: Global,
    clauses: &[LitList],
    s: &Strategy,
    assumed: &[Option<bool>],
    outputs: &[u32],
) -> Result<RowBuilder, AllocError>
    requires strategy { IsStrategy s.now }
    requires few { greatest s.now + lost_count s.now.winner clauses.now + length outputs.now ≤ 1048576 }
    requires below { All (λ n. n < 2097154) outputs.now }
    ensures { IfOk result (λ build. (assumptions : List Literal) → IsTableOfAssumed assumed.now assumptions
        → outputs.now ≡ given_outputs_of assumptions s.now
        → Builds build (check_clauses clauses.now assumptions s.now)) }
{
    let mut build = RowBuilder::new(alloc);
    let mut buffer = Vec::new(alloc);
    put_circuit(alloc, &mut build, &mut buffer, s, assumed)?;
    put_losing(alloc, &mut build, &mut buffer, clauses, s, outputs)?;
    Ok(build)
}

// Puts that the assumed inputs have their values, and that the gates are what they are.
fn put_circuit(
    alloc: Global,
    build: &mut RowBuilder,
    buffer: &mut Vec<u32>,
    s: &Strategy,
    assumed: &[Option<bool>],
) -> Result<(), AllocError>
    requires empty { buffer.old.items ≡ [] }
    requires strategy { IsStrategy s.now }
    requires small { greatest s.now ≤ 1048576 }
    ensures adds { OnOk result ((assumptions : List Literal) → IsTableOfAssumed assumed.now assumptions
        → Adds build.old build.new (units (given assumptions (named_inputs 0 s.now.inputs))
        ++ gate_clauses s.now.aig.inputs 0 s.now.aig.gates)) }
    ensures empty { OnOk result (buffer.new.items ≡ []) }
{
    let inputs = given_inputs(alloc, s.inputs.vars(), assumed)?;
    put_units(build, buffer, &inputs)?;
    put_gates(build, buffer, &s.aig)
}

// Puts that a selector is true, and what the selectors say.
fn put_losing(
    alloc: Global,
    build: &mut RowBuilder,
    buffer: &mut Vec<u32>,
    clauses: &[LitList],
    s: &Strategy,
    outputs: &[u32],
) -> Result<(), AllocError>
    requires empty { buffer.old.items ≡ [] }
    requires strategy { IsStrategy s.now }
    requires few { greatest s.now + lost_count s.now.winner clauses.now + length outputs.now ≤ 1048576 }
    requires below { All (λ n. n < 2097154) outputs.now }
    ensures { OnOk result (Adds build.old build.new (losing_clauses clauses.now outputs.now s.now)) }
{
    let table = table_of(alloc, s)?;
    let first = s.aig.inputs() + s.aig.gates() as u32 + 1;
    let lost = lost_selectors(s.winner, clauses.len()) as u32;
    put_lost(build, buffer, s.winner, first, &table, clauses)?;
    put_missed(build, buffer, first + lost, outputs)?;
    put_selectors(build, buffer, first, lost + outputs.len() as u32)
}

// The formula of the rows, or the limit that they go beyond.
fn finish(alloc: Global, build: RowBuilder, count: u32) -> Result<Formula, CheckFault>
    requires { count ≤ 1048576 }
    ensures { (clauses : List (List ℕ)) → Builds build clauses
        → IsAnswer result (formula_over count (rows_of clauses)) }
{
    let clauses = match build.finish() {
        Ok(clauses) => clauses,
        Err(limit) => {
            return Err(CheckFault::Limit {
                quantity: quantity_of(limit),
            });
        }
    };
    let Ok(prefix) = prefix_to(alloc, count) else {
        return Err(CheckFault::NoMemory);
    };
    let declared_clauses = clauses.clauses().len() as u32;
    Ok(Formula {
        prefix,
        clauses,
        declared_vars: count,
        declared_clauses,
    })
}

// The quantity of a limit of rows.
fn quantity_of(limit: Beyond) -> Quantity
    ensures { result ≡ quantity_of_limit limit }
{
    match limit {
        Beyond::Clauses => Quantity::Clauses,
        Beyond::Literals => Quantity::Literals,
    }
}

// The prefix with the existential variables 1 to `count`.
fn prefix_to(alloc: Global, count: u32) -> Result<Prefix, PrefixRefusal>
    requires { count ≤ 1048576 }
    ensures scopes { IfOk result (λ p. p ≡ scopes_to count) }
    ensures memory { IsOkUnless result PrefixRefusal.NoMemory }
{
    let mut prefix = Prefix::new(alloc);
    if count == 0 {
        return Ok(prefix);
    }
    let vars = numbers_to(alloc, count)?;
    add_scope(&mut prefix, Quant::Exists, &vars)?;
    Ok(prefix)
}

// The numbers from 1 to `last`.
fn numbers_to(alloc: Global, last: u32) -> Result<Vec<u32>, AllocError>
    requires { last ≤ 1048576 }
    ensures { IfOk result (λ numbers. numbers.items ≡ range_with_len 1 last) }
{
    let mut numbers = Vec::new(alloc);
    numbers.reserve(last as usize)?;
    for n in 1..last + 1 {
        numbers.push(n)?;
    }
    Ok(numbers)
}
