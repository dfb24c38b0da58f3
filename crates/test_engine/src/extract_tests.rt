//! Tests of `extract`.
ghost use Rattle.std.specs.Prelude.{◌≡◌, ◌==◌, Bool, IsTrue, IfOk, Some};
ghost use Rattle.prefix.specs.Scopes.{IsAscending, level_of};
ghost use Rattle.truth.specs.Truth.{assumed_value};
ghost use Rattle.calculus.specs.Rows.{is_bad_at, is_pivot, variables_in};
ghost use Rattle.calculus.specs.Verdicts.{AreOuter, IsEndRow, is_assumed};
ghost use Rattle.derive.specs.State.{IsLegalFor, has_rows, is_step, row_of, side_at};
ghost use Rattle.aig.specs.Strategies.{IsStrategy};

use aig::Strategy;
use derive::{Derivation, StepId};
use extract::extract;
use fixtures::{Workshop, ascends, is_usable, prefix_of, row, rows};
use prefix::{Clauses, Cubes, Lit, LitList, Prefix, Quant, Var};
use std::alloc::Global;
use std::test::Fail;
use step_core::{core, finishes_end_proofs};

// Whether a literal is over a variable.
fn is_of_var(lit: Lit, v: Var) -> bool
    ensures { result ≡ (lit.variable == v) }
{
    lit.var() == v
}

// The value that an assumption gives a variable.
fn assumed(assumptions: &[Lit], v: Var) -> Option<bool>
    ensures { result ≡ assumed_value assumptions.now v }
{
    for lit in assumptions {
        if is_of_var(*lit, v) {
            return Some(lit.is_positive());
        }
    }
    None
}

// Whether a literal is over a variable of the first scope.
fn is_outer(prefix: &Prefix, lit: Lit) -> bool
    ensures { IsTrue result → level_of prefix.now lit.variable ≡ Some 1 }
{
    prefix.level(lit.var()) == Some(1)
}

// Whether assumptions are over variables of the first scope.
fn are_outer(prefix: &Prefix, assumptions: &[Lit]) -> bool
    ensures { IsTrue result → AreOuter prefix.now assumptions.now }
{
    for lit in assumptions {
        if !is_outer(prefix, *lit) {
            return false;
        }
    }
    true
}

// Whether a literal is bad where its variable has this value.
fn is_bad(side: Quant, value: bool, lit: Lit) -> bool
    ensures { result ≡ is_bad_at side value lit }
{
    (value == lit.is_positive()) == (side == Quant::Forall)
}

// Whether a literal is pivot-type in a row of a side.
fn is_pivot_type(side: Quant, prefix: &Prefix, lit: Lit) -> bool
    ensures { result ≡ is_pivot side prefix.now lit }
{
    match side {
        Quant::Exists => prefix.is_pivot::<Clauses>(lit),
        Quant::Forall => prefix.is_pivot::<Cubes>(lit),
    }
}

// Whether a literal may stand in an end row: it is bad where its variable is assumed, and else not pivot-type.
fn may_end(side: Quant, prefix: &Prefix, assumptions: &[Lit], lit: Lit) -> bool
    ensures pivot { IsTrue result → IsTrue (is_pivot side prefix.now lit) → IsTrue (is_assumed assumptions.now lit) }
    ensures bad { IsTrue result → (b : Bool) → assumed_value assumptions.now lit.variable ≡ Some b →
        IsTrue (is_bad_at side b lit) }
{
    match assumed(assumptions, lit.var()) {
        None => !is_pivot_type(side, prefix, lit),
        Some(value) => is_bad(side, value, lit),
    }
}

// Whether a row is an end row.
fn is_end_row(side: Quant, prefix: &Prefix, assumptions: &[Lit], row: &[Lit]) -> bool
    ensures { IsTrue result → IsEndRow side prefix.now assumptions.now row.now }
{
    for lit in row {
        if !may_end(side, prefix, assumptions, *lit) {
            return false;
        }
    }
    true
}

// The circuit of the finish of an end row.
fn finished_circuit(
    alloc: Global,
    prefix: &Prefix,
    derivation: &mut Derivation,
    end: StepId,
    assumptions: &[Lit],
) -> Result<Strategy, Fail>
    requires rows { IsTrue (has_rows derivation.old) }
    requires legal { IsLegalFor prefix.now derivation.old }
    requires step { IsTrue (is_step derivation.old end) }
    requires end_row { IsEndRow (side_at derivation.old end) prefix.now assumptions.now (row_of derivation.old end) }
    requires ascending { IsAscending (variables_in assumptions.now) }
    requires outer { AreOuter prefix.now assumptions.now }
    ensures strategy { IfOk result IsStrategy }
    ensures rows { IsTrue (has_rows derivation.new) }
    ensures legal { IsLegalFor prefix.now derivation.new }
{
    finishes_end_proofs();
    let finish = derivation.finish(prefix, end, assumptions)?;
    let core = core(alloc, derivation, finish)?;
    Ok(extract(alloc, &core, prefix, assumptions)?)
}

// What a test adds to a derivation after its inputs, whose ids count from 0.
#[derive(Clone, Copy)]
enum Move {
    Reduce(StepId),
    Resolve(StepId, StepId, u32),
}

// A formula with a derivation: the quantifiers of its scopes, the scope of each variable from 1 on, clauses, cubes, of
// which each row ends in 0, and steps, in this order.
#[derive(Clone, Copy)]
struct Derived<'a> {
    quants: &'a [Quant],
    scopes: &'a [u64],
    clauses: &'a [i32],
    cubes: &'a [i32],
    moves: &'a [Move],
}

fn put_each_clause(shop: &mut Workshop, clauses: &[LitList]) -> Result<(), Fail> {
    for clause in clauses {
        shop.clause(clause.lits(), 0)?;
    }
    Ok(())
}

fn put_each_cube(shop: &mut Workshop, cubes: &[LitList]) -> Result<(), Fail> {
    for cube in cubes {
        shop.cube(cube.lits())?;
    }
    Ok(())
}

// Puts in clauses, each with a 0 behind it; or cubes.
fn put_clauses(shop: &mut Workshop, alloc: Global, numbers: &[i32]) -> Result<(), Fail> {
    let clauses = rows(alloc, numbers)?;
    put_each_clause(shop, &clauses)
}

fn put_cubes(shop: &mut Workshop, alloc: Global, numbers: &[i32]) -> Result<(), Fail> {
    let cubes = rows(alloc, numbers)?;
    put_each_cube(shop, &cubes)
}

fn play(shop: &mut Workshop, moves: &[Move]) -> Result<(), Fail> {
    for step in moves {
        match *step {
            Move::Reduce(a) => shop.reduce(a)?,
            Move::Resolve(a, b, pivot) => shop.resolve(a, b, pivot)?,
        };
    }
    Ok(())
}

fn put_derived(shop: &mut Workshop, alloc: Global, derived: Derived) -> Result<(), Fail> {
    put_clauses(shop, alloc, derived.clauses)?;
    put_cubes(shop, alloc, derived.cubes)?;
    play(shop, derived.moves)
}

// The formula's derivation.
fn shop_of(alloc: Global, derived: Derived) -> Result<Workshop, Fail> {
    let prefix = prefix_of(alloc, derived.quants, derived.scopes)?;
    let mut shop = Workshop::new(alloc, prefix);
    put_derived(&mut shop, alloc, derived)?;
    Ok(shop)
}

// The circuit of the finish of the last step, which is an end row.
fn last_circuit(
    alloc: Global,
    prefix: &Prefix,
    derivation: &mut Derivation,
    assumptions: &[Lit],
) -> Result<Strategy, Fail>
    requires rows { IsTrue (has_rows derivation.old) }
    requires legal { IsLegalFor prefix.now derivation.old }
    ensures { IfOk result IsStrategy }
{
    let end = derivation.next_id().saturating_sub(1);
    if !is_usable(derivation, end) {
        return Err("no end")?;
    }
    if !ascends(assumptions) || !are_outer(prefix, assumptions) {
        return Err("no assumptions")?;
    }
    let side = derivation.side(end);
    if !is_end_row(side, prefix, assumptions, derivation.lits(end)) {
        return Err("no end row")?;
    }
    finished_circuit(alloc, prefix, derivation, end, assumptions)
}

// The circuit of a derivation whose last step is an end row, under assumptions.
fn circuit_of(alloc: Global, derived: Derived, assumptions: &[Lit]) -> Result<Strategy, Fail>
    ensures { IfOk result IsStrategy }
{
    let shop = shop_of(alloc, derived)?;
    let (prefix, mut derivation) = shop.into_parts();
    last_circuit(alloc, &prefix, &mut derivation, assumptions)
}

// The value of a variable, whose number is its place.
fn value(values: &[bool], v: Var) -> bool {
    values.get(v.number() as usize).copied().unwrap_or(false)
}

fn put_at(values: &mut [bool], at: usize, value: bool) {
    if at < values.len() {
        values[at] = value;
    }
}

// Puts in the bits of a number, from the lowest on, as values of the variables below 9.
fn put_bits(values: &mut [bool], bits: u32) {
    let mut rest = bits;
    for at in 0..9 {
        put_at(values, at, rest % 2 == 1);
        rest /= 2;
    }
}

// Whether a literal of a row is true.
fn has_true(values: &[bool], lits: &[Lit]) -> bool {
    lits.iter()
        .any(|lit| value(values, lit.var()) == lit.is_positive())
}

// Whether each literal is true.
fn are_true(values: &[bool], lits: &[Lit]) -> bool {
    lits.iter()
        .all(|lit| value(values, lit.var()) == lit.is_positive())
}

// Whether each row has a true literal.
fn all_true(values: &[bool], rows: &[LitList]) -> bool {
    rows.iter().all(|row| has_true(values, row.lits()))
}

// Puts in the values of the inputs, of which there are as many as the circuit has.
fn put_inputs(strategy: &Strategy, values: &[bool], inputs: &mut [bool]) -> Result<(), Fail> {
    let vars = strategy.inputs.vars();
    if vars.len() != strategy.aig.inputs() as usize {
        return Err("other inputs")?;
    }
    for (at, v) in vars.iter().enumerate() {
        put_at(inputs, at, value(values, *v));
    }
    Ok(())
}

// Puts the values of the outputs in, where there are values of the inputs and places for those of the gates.
fn put_outputs(
    strategy: &Strategy,
    inputs: &[bool],
    scratch: &mut [bool],
    values: &mut [bool],
) -> Result<(), Fail>
    requires { IsStrategy strategy.now }
{
    if inputs.len() < strategy.aig.inputs() as usize || scratch.len() < strategy.aig.gates() {
        return Err("no room")?;
    }
    for output in strategy.outputs.outputs() {
        let value = strategy.aig.value(output.edge, inputs, scratch);
        put_at(values, output.var.number() as usize, value);
    }
    Ok(())
}

// Puts in the values of the outputs where those of the inputs are these.
fn answer(strategy: &Strategy, values: &mut [bool]) -> Result<(), Fail>
    requires { IsStrategy strategy.now }
{
    let mut inputs = [false; 9];
    let mut scratch = [false; 64];
    put_inputs(strategy, values, &mut inputs)?;
    put_outputs(strategy, &inputs, &mut scratch, values)
}

// Whether, with these values of the inputs, the matrix is decided for the winner and its own variables keep to the
// assumptions, where those values do.
fn wins_at(
    strategy: &Strategy,
    clauses: &[LitList],
    assumptions: &[Lit],
    bits: u32,
) -> Result<bool, Fail>
    requires { IsStrategy strategy.now }
{
    let mut values = [false; 9];
    put_bits(&mut values, bits);
    if !are_true(&values, assumptions) {
        return Ok(true);
    }
    answer(strategy, &mut values)?;
    let is_true = strategy.winner == Quant::Exists;
    Ok(all_true(&values, clauses) == is_true && are_true(&values, assumptions))
}

// The same for all values. Fails with the first that don't.
fn wins(strategy: &Strategy, clauses: &[LitList], assumptions: &[Lit]) -> Result<(), Fail>
    requires { IsStrategy strategy.now }
{
    for bits in 0..512 {
        if !wins_at(strategy, clauses, assumptions, bits)? {
            return Err(("values", bits))?;
        }
    }
    Ok(())
}

// Whether the outputs have the edges with these numbers.
fn has_edges(strategy: &Strategy, numbers: &[u128]) -> bool {
    let outputs = strategy.outputs.outputs();
    let inputs = strategy.aig.inputs();
    outputs.len() == numbers.len()
        && outputs
            .iter()
            .zip(numbers)
            .all(|(output, number)| output.edge.number(inputs) == *number)
}

// Whether 3 is true exactly where 1 is and 2 isn't, and 6 where 4 is and 5 isn't.
fn is_first(values: &[bool], bits: u32) -> bool {
    values.get(3).copied() == Some(bits / 2 % 2 == 1 && bits / 4 % 2 == 0)
        && values.get(6).copied() == Some(bits / 16 % 2 == 1 && bits / 32 % 2 == 0)
}

// Whether it is so of the values that a circuit answers to these of the inputs.
fn is_first_at(strategy: &Strategy, bits: u32) -> Result<bool, Fail>
    requires { IsStrategy strategy.now }
{
    let mut values = [false; 9];
    put_bits(&mut values, bits);
    answer(strategy, &mut values)?;
    Ok(is_first(&values, bits))
}

// The same for all values of the inputs.
fn are_first(strategy: &Strategy) -> Result<bool, Fail>
    requires { IsStrategy strategy.now }
{
    for bits in 0..512 {
        if !is_first_at(strategy, bits)? {
            return Ok(false);
        }
    }
    Ok(true)
}

// What a circuit is, beside that it wins: it has no gate and such edges; anything; or the values of 3 and of 6 are
// those that `is_first` looks for.
#[derive(Clone, Copy)]
enum Form {
    Edges,
    Any,
    First,
}

// A formula with a derivation, what is assumed, the form of its circuit, and the numbers of its edges for `Edges`.
#[derive(Clone, Copy)]
struct Case<'a> {
    derived: Derived<'a>,
    assumptions: &'a [i32],
    form: Form,
    edges: &'a [u128],
}

fn has_form(strategy: &Strategy, case: Case) -> Result<bool, Fail>
    requires { IsStrategy strategy.now }
{
    match case.form {
        Form::Edges => Ok(strategy.aig.gates() == 0 && has_edges(strategy, case.edges)),
        Form::Any => Ok(true),
        Form::First => are_first(strategy),
    }
}

fn check_circuit(
    alloc: Global,
    strategy: &Strategy,
    case: Case,
    assumptions: &[Lit],
) -> Result<(), Fail>
    requires { IsStrategy strategy.now }
{
    if !has_form(strategy, case)? {
        return Err("another circuit")?;
    }
    let clauses = rows(alloc, case.derived.clauses)?;
    wins(strategy, &clauses, assumptions)
}

// Against all inputs that keep to the assumptions the matrix is decided for the winner, and its own variables keep to
// them; and the circuit has its form.
fn check(alloc: Global, case: Case) -> Result<(), Fail> {
    let assumptions = row(alloc, case.assumptions)?;
    let strategy = circuit_of(alloc, case.derived, &assumptions)?;
    check_circuit(alloc, &strategy, case, &assumptions)
}

fn check_each(alloc: Global, cases: &[Case]) -> Result<(), Fail> {
    for case in cases {
        check(alloc, *case)?;
    }
    Ok(())
}

// Formulas whose circuits have no gate: one false, one true, one true by a single cube, and three under assumptions.
#[test]
fn small_circuits(rt: HostRuntime) -> Result<(), Fail> {
    use Move::{Reduce, Resolve};
    use Quant::{Exists, Forall};
    let cases = [
        Case {
            derived: Derived {
                quants: &[Exists, Forall],
                scopes: &[2, 1],
                clauses: &[1, 2, 0, -1, -2, 0],
                cubes: &[],
                moves: &[Resolve(1, 3, 2)],
            },
            assumptions: &[],
            form: Form::Edges,
            edges: &[2],
        },
        Case {
            derived: Derived {
                quants: &[Forall, Exists],
                scopes: &[1, 2],
                clauses: &[1, 2, 0, -1, -2, 0],
                cubes: &[-1, 2, 0, 1, -2, 0],
                moves: &[Reduce(2), Reduce(3), Resolve(5, 4, 1)],
            },
            assumptions: &[],
            form: Form::Edges,
            edges: &[3],
        },
        Case {
            derived: Derived {
                quants: &[Exists],
                scopes: &[1],
                clauses: &[1, 0],
                cubes: &[1, 0],
                moves: &[],
            },
            assumptions: &[],
            form: Form::Edges,
            edges: &[1],
        },
        Case {
            derived: Derived {
                quants: &[Forall, Exists],
                scopes: &[1, 2],
                clauses: &[1, 2, 0, 1, -2, 0],
                cubes: &[],
                moves: &[Resolve(0, 1, 2)],
            },
            assumptions: &[-1],
            form: Form::Edges,
            edges: &[0],
        },
        Case {
            derived: Derived {
                quants: &[Forall, Exists],
                scopes: &[1, 2, 1],
                clauses: &[1, 2, -3, 0, 1, -2, -3, 0],
                cubes: &[],
                moves: &[Resolve(0, 1, 2)],
            },
            assumptions: &[-1],
            form: Form::Edges,
            edges: &[0, 1],
        },
        Case {
            derived: Derived {
                quants: &[Exists],
                scopes: &[1, 1],
                clauses: &[1, 0],
                cubes: &[],
                moves: &[],
            },
            assumptions: &[-1, 2],
            form: Form::Edges,
            edges: &[],
        },
    ];
    check_each(rt.alloc(), &cases)
}

// 3 is to be the conjunction of 1 and 2.
#[test]
fn a_conjunction(rt: HostRuntime) -> Result<(), Fail> {
    use Move::{Reduce, Resolve};
    use Quant::{Exists, Forall};
    let derived = Derived {
        quants: &[Forall, Exists],
        scopes: &[1, 1, 2],
        clauses: &[1, -3, 0, 2, -3, 0, -1, -2, 3, 0],
        cubes: &[1, 2, 3, 0, -1, -3, 0, -2, -3, 0],
        moves: &[
            Reduce(3),
            Reduce(4),
            Reduce(5),
            Resolve(6, 7, 1),
            Resolve(9, 8, 2),
        ],
    };
    let case = Case {
        derived,
        assumptions: &[],
        form: Form::Any,
        edges: &[],
    };
    check(rt.alloc(), case)
}

// The formula of Kleine Büning, Karpinski and Flögel over two universal variables, 3 and 6. Where 1 and 2 are false,
// rows of two reductions that removed a literal of 3 are false, and the first of them forces false, the last true; the
// same of 4, 5 and 6.
#[test]
fn the_first_falsified_reduction_rules(rt: HostRuntime) -> Result<(), Fail> {
    use Move::{Reduce, Resolve};
    use Quant::{Exists, Forall};
    let derived = Derived {
        quants: &[Exists, Forall, Exists, Forall, Exists],
        scopes: &[1, 1, 2, 3, 3, 4, 5, 5],
        clauses: &[
            -1, -2, 0, 1, 3, -4, -5, 0, 2, -3, -4, -5, 0, 4, 6, -7, -8, 0, 5, -6, -7, -8, 0, 3, 7,
            0, -3, 7, 0, 6, 8, 0, -6, 8, 0,
        ],
        cubes: &[],
        moves: &[
            Resolve(7, 3, 8),
            Resolve(8, 4, 8),
            Resolve(5, 9, 7),
            Reduce(11),
            Resolve(5, 10, 7),
            Reduce(13),
            Resolve(6, 9, 7),
            Reduce(15),
            Resolve(6, 10, 7),
            Reduce(17),
            Resolve(12, 1, 4),
            Resolve(14, 19, 5),
            Reduce(20),
            Resolve(16, 2, 4),
            Resolve(18, 22, 5),
            Reduce(23),
            Resolve(21, 0, 1),
            Resolve(24, 25, 2),
        ],
    };
    let case = Case {
        derived,
        assumptions: &[],
        form: Form::First,
        edges: &[],
    };
    check(rt.alloc(), case)
}
