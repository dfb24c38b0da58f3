//! Tests of `cover`.
ghost use Rattle.std.specs.Prelude.{IsTrue, Contains};
ghost use Rattle.truth.specs.Matrix.{clause_true};
ghost use Rattle.calculus.specs.Rows.{Row};
ghost use Rattle.calculus.specs.Search.{value_on};
ghost use Rattle.derive.specs.State.{has_rows, open_clauses};
ghost use Rattle.trail.specs.State.{IsTrailFor};

use cover::cover;
use derive::{Derivation, Step};
use fixtures::{decide, literal, prefix_of, row, rows};
use matrix::Matrix;
use prefix::{Lit, LitList, Prefix, Quant};
use std::alloc::Global;
use std::marker::Model;
use std::test::Fail;
use steps::Steps;
use trail::Trail;

// Whether a literal of a clause is true.
fn is_true(trail: &Trail, clause: &[Lit]) -> bool
    ensures { IsTrue result → IsTrue (clause_true (value_on trail.now.placed) clause.now) }
{
    for lit in clause {
        if trail.value(lit.var()) == Some(lit.is_positive()) {
            return true;
        }
    }
    false
}

// Whether each clause is true.
fn are_true(trail: &Trail, matrix: &[LitList]) -> bool
    ensures { IsTrue result → (clause : Row) → Contains matrix.now clause →
        IsTrue (clause_true (value_on trail.now.placed) clause) }
{
    for clause in matrix {
        if !is_true(trail, clause.lits()) {
            return false;
        }
    }
    true
}

// A trail on which anything may be assigned next.
#[derive(Debug, Drop)]
struct Game {
    alloc: Global,
    prefix: Prefix,
    trail: Trail,
    steps: Steps,
}

impl Model for Game {
    ghost use Rattle.std.specs.Prelude.{◌≡◌};
    ghost use Rattle.trail.specs.declared.allowed.Allowed.TheVariants.{Anything};
    ghost use Rattle.trail.specs.State.{IsTrailFor, TrailState};

    ghost Value = { TrailState };

    ghost view = { λ g. g.trail };

    ghost invariant = { λ g. IsTrailFor g.prefix g.trail × (g.trail.allowed ≡ Anything) };
}

impl Game {
    // An empty trail over a universal variable 1, and then the existential ones 2 and 3, the last in the scope with
    // this number.
    fn new(alloc: Global, scope: u64) -> Result<Self, Fail> {
        let quants = [Quant::Forall, Quant::Exists, Quant::Exists];
        Ok(Self {
            alloc,
            prefix: prefix_of(alloc, &quants, &[1, 2, scope])?,
            trail: Trail::new(alloc),
            steps: Steps::new(3),
        })
    }

    fn decide(&mut self, number: i32) -> Result<(), Fail> {
        let lit = literal(number)?;
        decide(&mut self.trail, &self.prefix, lit, &mut self.steps)
    }

    fn decide_all(&mut self, numbers: &[i32]) -> Result<(), Fail> {
        for number in numbers {
            self.decide(*number)?;
        }
        Ok(())
    }

    // Whether a cover of some clauses is an initial cube of these literals.
    fn covers(&self, matrix: &[LitList], cube: &[Lit]) -> Result<bool, Fail> {
        if !are_true(&self.trail, matrix) {
            return Err("not true")?;
        }
        covers(self.alloc, &self.trail, &self.prefix, matrix, cube)
    }

    // The same of literals with these numbers.
    fn covers_by(&self, matrix: &[LitList], cube: &[i32]) -> Result<bool, Fail> {
        let lits = row(self.alloc, cube)?;
        self.covers(matrix, &lits)
    }

    // The same of clauses that end in 0.
    fn covers_rows(&self, clauses: &[i32], cube: &[i32]) -> Result<bool, Fail> {
        let matrix = rows(self.alloc, clauses)?;
        self.covers_by(&matrix, cube)
    }

    // The same where 1 and then 2 and 3 are decided.
    fn covers_decided(&mut self, case: Case) -> Result<bool, Fail> {
        self.decide_all(&[case.first, 2, 3])?;
        self.covers_rows(case.clauses, case.cube)
    }
}

// Whether the cover of a matrix is an initial cube of these literals.
fn is_cover(
    derivation: &mut Derivation,
    trail: &Trail,
    prefix: &Prefix,
    matrix: &Matrix<'_>,
    cube: &[Lit],
) -> Result<bool, Fail>
    requires rows { IsTrue (has_rows derivation.old) }
    requires trail { IsTrailFor prefix.now trail.now }
    requires clauses { (clause : Row) → Contains (open_clauses derivation.old) clause → Contains matrix.now clause }
    requires satisfied { (clause : Row) → Contains matrix.now clause →
        IsTrue (clause_true (value_on trail.now.placed) clause) }
{
    let id = cover(derivation, trail, prefix, matrix)?;
    Ok(derivation.step(id) == Step::InputCube && derivation.lits(id) == cube)
}

// The same in a derivation of its own.
fn covers_lent(
    alloc: Global,
    trail: &Trail,
    prefix: &Prefix,
    matrix: &Matrix<'_>,
    cube: &[Lit],
) -> Result<bool, Fail>
    requires trail { IsTrailFor prefix.now trail.now }
    requires satisfied { (clause : Row) → Contains matrix.now clause →
        IsTrue (clause_true (value_on trail.now.placed) clause) }
{
    let mut derivation = Derivation::new(alloc);
    is_cover(&mut derivation, trail, prefix, matrix, cube)
}

// The same of clauses.
fn covers(
    alloc: Global,
    trail: &Trail,
    prefix: &Prefix,
    matrix: &[LitList],
    cube: &[Lit],
) -> Result<bool, Fail>
    requires trail { IsTrailFor prefix.now trail.now }
    requires satisfied { (clause : Row) → Contains matrix.now clause →
        IsTrue (clause_true (value_on trail.now.placed) clause) }
{
    let lent = Matrix::new(alloc, matrix);
    covers_lent(alloc, trail, prefix, &lent, cube)
}

// The scope of variable 3, the literal over 1 that is decided, clauses, each with a 0 behind it, and their cover.
#[derive(Clone, Copy)]
struct Case {
    scope: u64,
    first: i32,
    clauses: &'static [i32],
    cube: &'static [i32],
}

const CASES: [Case; 4] = [
    Case {
        scope: 3,
        first: -1,
        clauses: &[-1, 2, 3, 0, -1, 3, 0, -1, -2, 0],
        cube: &[-1, 3],
    },
    Case {
        scope: 2,
        first: -1,
        clauses: &[3, 0, 2, 3, 0, -1, 2, 3, 0],
        cube: &[3],
    },
    Case {
        scope: 2,
        first: 1,
        clauses: &[2, 0, 3, 0, 1, -3, 0, 1, 2, 0],
        cube: &[1, 2, 3],
    },
    Case {
        scope: 3,
        first: 1,
        clauses: &[],
        cube: &[],
    },
];

fn is_covered(alloc: Global, case: Case) -> Result<bool, Fail> {
    let mut game = Game::new(alloc, case.scope)?;
    game.covers_decided(case)
}

// The cases have their covers. Fails with the place of the first one that has another.
fn are_covered(alloc: Global, cases: &[Case]) -> Result<(), Fail> {
    for (place, case) in cases.iter().enumerate() {
        if !is_covered(alloc, *case)? {
            return Err(("case", place))?;
        }
    }
    Ok(())
}

// Of a clause's existential literals the later one is taken, of one scope one that is chosen already; a universal one
// where a clause has no other, unless it is hit.
#[test]
fn clauses_are_covered(rt: HostRuntime) -> Result<(), Fail> {
    are_covered(rt.alloc(), &CASES)
}
