//! Tests of clauses of a group in `search`.
ghost use Rattle.std.specs.Prelude.{◌≡◌, ◌==◌, ◌++◌, [], IsTrue, IfOk, OnOk, filter, not};
ghost use Rattle.std.specs.List.{AllByRecursion};
ghost use Rattle.calculus.specs.Rows.{IsRow};
ghost use Rattle.derive.specs.State.{OpenClause, clauses_of, open_clauses};
ghost use Rattle.search.specs.Changing.{AddsClauses};

use fixtures::{is_row, prefix_of, rows};
use matrix::Matrix;
use prefix::{LitList, Prefix, Quant, Var};
use search::{Search, resting_grows};
use std::alloc::Global;
use std::marker::Model;
use std::test::Fail;
use steps::Steps;

// The frame of the group's clauses.
const GROUP: usize = 65_537;

// Whether each clause is a row over the prefix.
fn are_rows(prefix: &Prefix, clauses: &[LitList]) -> bool
    ensures { IsTrue result → AllByRecursion (IsRow prefix.now) clauses.now }
{
    for clause in clauses {
        if !is_row(prefix, clause.lits()) {
            return false;
        }
    }
    true
}

// The greatest variable.
fn greatest() -> Result<Var, Fail>
    ensures { IfOk result (λ v. v ≡ 1048576) }
{
    match Var::new(1_048_576) {
        Some(v) => Ok(v),
        None => Err("range")?,
    }
}

// A search at rest, with its prefix; contracts see it as the search.
#[derive(Debug, Drop)]
struct Player {
    prefix: Prefix,
    search: Search,
}

impl Model for Player {
    ghost use Rattle.search.specs.State.{IsResting, SearchState};

    ghost Value = { SearchState };

    ghost view = { λ p. p.search };

    ghost invariant = { λ p. IsResting p.prefix p.search };
}

impl Player {
    // A search of no clauses.
    fn new(alloc: Global, prefix: Prefix) -> Result<Self, Fail>
        ensures { IfOk result (λ p. clauses_of p.derivation ≡ []) }
    {
        let mut search = Search::new(alloc);
        let v = greatest()?;
        search.reserve(v)?;
        resting_grows();
        // No variable is greater.
        let _scopes = prefix.scopes();
        Ok(Self { prefix, search })
    }

    // Puts in clauses of a frame at once. Fails where they are no rows over the prefix.
    fn put(&mut self, clauses: &[LitList], frame: usize) -> Result<(), Fail>
        ensures { OnOk result (AddsClauses frame clauses.now (clauses_of self.old.derivation)
            (clauses_of self.new.derivation)) }
    {
        if !are_rows(&self.prefix, clauses) {
            return Err("no rows")?;
        }
        self.search.add_clauses(&self.prefix, clauses, frame)?;
        Ok(())
    }

    // Drops the group's clauses.
    fn drop_group(&mut self)
        ensures { clauses_of self.new.derivation ≡ filter (λ (c : OpenClause). not (c.frame == 65537))
            (clauses_of self.old.derivation) }
    {
        self.search.drop_frame(GROUP);
    }

    // The side that loses, where these are the open clauses.
    fn loser(&mut self, matrix: &Matrix<'_>) -> Result<Quant, Fail>
        requires { open_clauses self.old.derivation ≡ matrix.now }
        ensures { clauses_of self.new.derivation ≡ clauses_of self.old.derivation }
    {
        let mut steps = Steps::new(u64::MAX);
        let outcome = self
            .search
            .solve(&self.prefix, matrix, &[], 0, 512, &mut steps)?;
        Ok(outcome.loser)
    }

    // The sides that lose with some clauses and a group's, with the former alone, and with both again.
    fn losers(
        &mut self,
        clauses: &[LitList],
        group: &[LitList],
        alone: &Matrix<'_>,
        both: &Matrix<'_>,
    ) -> Result<[Quant; 3], Fail>
        requires begun { clauses_of self.old.derivation ≡ [] }
        requires alone { alone.now ≡ clauses.now }
        requires both { both.now ≡ clauses.now ++ group.now }
    {
        self.put(clauses, 0)?;
        self.put(group, GROUP)?;
        let first = self.loser(both)?;
        self.drop_group();
        let second = self.loser(alone)?;
        self.put(group, GROUP)?;
        let third = self.loser(both)?;
        Ok([first, second, third])
    }
}

// The same of a search of no clauses, over existential 1, universal 2 and existential 3.
fn played(
    alloc: Global,
    clauses: &[LitList],
    group: &[LitList],
    alone: &Matrix<'_>,
    both: &Matrix<'_>,
) -> Result<[Quant; 3], Fail>
    requires alone { alone.now ≡ clauses.now }
    requires both { both.now ≡ clauses.now ++ group.now }
{
    let quants = [Quant::Exists, Quant::Forall, Quant::Exists];
    let prefix = prefix_of(alloc, &quants, &[1, 2, 3])?;
    let mut player = Player::new(alloc, prefix)?;
    player.losers(clauses, group, alone, both)
}

// The same with a matrix of its own for both.
fn joined(
    alloc: Global,
    clauses: &[LitList],
    group: &[LitList],
    alone: &Matrix<'_>,
) -> Result<[Quant; 3], Fail>
    requires { alone.now ≡ clauses.now }
{
    let mut both = Matrix::new(alloc, clauses);
    both.push(group)?;
    played(alloc, clauses, group, alone, &both)
}

// The same with matrices of their own.
fn lent(alloc: Global, clauses: &[LitList], group: &[LitList]) -> Result<[Quant; 3], Fail> {
    let alone = Matrix::new(alloc, clauses);
    joined(alloc, clauses, group, &alone)
}

// The same of a group's clauses that end in 0.
fn grouped(alloc: Global, clauses: &[LitList], group: &[i32]) -> Result<[Quant; 3], Fail> {
    let group = rows(alloc, group)?;
    lent(alloc, clauses, &group)
}

// The same of clauses that end in 0.
fn losers(alloc: Global, clauses: &[i32], group: &[i32]) -> Result<[Quant; 3], Fail> {
    let clauses = rows(alloc, clauses)?;
    grouped(alloc, &clauses, group)
}

// Clauses and a group's, each with a 0 behind it, and the sides that lose.
#[derive(Clone, Copy)]
struct Case {
    clauses: &'static [i32],
    group: &'static [i32],
    sides: [Quant; 3],
}

const CASES: [Case; 3] = [
    Case {
        clauses: &[1, 2, 3, 0, -2, -3, 0],
        group: &[-1, 2, 0, 1, 2, -3, 0],
        sides: [Quant::Exists, Quant::Forall, Quant::Exists],
    },
    Case {
        clauses: &[1, 0, 2, 3, 0],
        group: &[1, 2, 0, 1, -3, 0],
        sides: [Quant::Forall, Quant::Forall, Quant::Forall],
    },
    Case {
        clauses: &[1, 0, -1, 0],
        group: &[3, 0],
        sides: [Quant::Exists, Quant::Exists, Quant::Exists],
    },
];

// These sides lose. Fails with the place of the first case where others do.
fn come_and_go(alloc: Global, cases: &[Case]) -> Result<(), Fail> {
    for (place, case) in cases.iter().enumerate() {
        if losers(alloc, case.clauses, case.group)? != case.sides {
            return Err(("case", place))?;
        }
    }
    Ok(())
}

// A group makes a true formula false, goes, and makes it false again; and one that changes nothing changes nothing.
#[test]
fn a_group_comes_and_goes(rt: HostRuntime) -> Result<(), Fail> {
    come_and_go(rt.alloc(), &CASES)
}
