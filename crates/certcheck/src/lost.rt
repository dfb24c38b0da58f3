//! Puts that the circuit loses: the matrix is decided against the winner, or an output misses its assumed value.
ghost use Rattle.std.specs.Prelude.{◌≡◌, ℕ, ◌+◌, ◌*◌, ◌<◌, ◌≤◌, ◌∷◌, [], length, map, All, OnOk, IfSome, List};
ghost use Rattle.prefix.specs.Literal.{Literal};
ghost use Rattle.builder.specs.Rows.{flipped};
ghost use Rattle.certcheck.specs.Check.{Named, falsified, lost, lost_count, number_of as number_in_circuit, numbered, selectors, units};
ghost use Rattle.builder.specs.Building.{Adds};
ghost use Rattle.certcheck.specs.Building.{lost_clause, selectors_before};
ghost use Rattle.certcheck.specs.Tables.{IsSmall, IsTableOf};

use crate::names::entry_at;
use crate::put::{flip, put_clause, when};
use builder::RowBuilder;
use prefix::{Lit, LitList, Quant};
use std::alloc::AllocError;

// How many selectors say that the matrix is decided against the winner, where it has that many clauses.
pub(crate) fn lost_selectors(winner: Quant, clauses: usize) -> usize
    ensures { (cs : List (List Literal)) → clauses ≡ length cs → result ≡ lost_count winner cs }
{
    match winner {
        Quant::Exists => clauses,
        Quant::Forall => 1,
    }
}

// Puts that the matrix is decided against the winner, where a selector is true.
pub(crate) fn put_lost(
    build: &mut RowBuilder,
    buffer: &mut Vec<u32>,
    winner: Quant,
    first: u32,
    table: &[Option<u32>],
    clauses: &[LitList],
) -> Result<(), AllocError>
    requires empty { buffer.old.items ≡ [] }
    requires few { first + lost_count winner clauses.now ≤ 1048577 }
    requires small { IsSmall table.now }
    ensures adds { OnOk result ((ns : List Named) → IsTableOf table.now ns →
        Adds build.old build.new (lost winner first (numbered ns clauses.now))) }
    ensures empty { OnOk result (buffer.new.items ≡ []) }
{
    for i in 0..clauses.len() {
        let selector = selector_of(winner, first, i);
        put_lost_clause(build, buffer, winner, selector, table, clauses[i].lits())?;
    }
    Ok(())
}

// The selector of the clause at a place: one of its own, or that of all clauses.
fn selector_of(winner: Quant, first: u32, place: usize) -> u32
    requires { first + selectors_before winner place ≤ 1048576 }
    ensures { result ≡ 2 * (first + selectors_before winner place) }
{
    match winner {
        Quant::Exists => 2 * (first + place as u32),
        Quant::Forall => 2 * first,
    }
}

// Puts what the selector of a clause says of it.
fn put_lost_clause(
    build: &mut RowBuilder,
    buffer: &mut Vec<u32>,
    winner: Quant,
    selector: u32,
    table: &[Option<u32>],
    clause: &[Lit],
) -> Result<(), AllocError>
    requires empty { buffer.old.items ≡ [] }
    requires own { selector < 2097154 }
    requires small { IsSmall table.now }
    ensures adds { OnOk result ((ns : List Named) → IsTableOf table.now ns →
        Adds build.old build.new (lost_clause winner selector (map (number_in_circuit ns) clause.now))) }
    ensures empty { OnOk result (buffer.new.items ≡ []) }
{
    match winner {
        Quant::Exists => put_false_clause(build, buffer, selector, table, clause),
        Quant::Forall => put_true_clause(build, buffer, selector, table, clause),
    }
}

// Puts for each literal of a clause that it is false where the selector is true.
fn put_false_clause(
    build: &mut RowBuilder,
    buffer: &mut Vec<u32>,
    selector: u32,
    table: &[Option<u32>],
    clause: &[Lit],
) -> Result<(), AllocError>
    requires empty { buffer.old.items ≡ [] }
    requires own { selector < 2097154 }
    requires small { IsSmall table.now }
    ensures adds { OnOk result ((ns : List Named) → IsTableOf table.now ns → Adds build.old build.new
        (map (λ n. flipped selector ∷ flipped n ∷ []) (map (number_in_circuit ns) clause.now))) }
    ensures empty { OnOk result (buffer.new.items ≡ []) }
{
    for lit in clause {
        put_clause(
            build,
            buffer,
            &[flip(selector), flip(number_of(table, *lit))],
        )?;
    }
    Ok(())
}

// Puts a clause with the opposite of the selector.
fn put_true_clause(
    build: &mut RowBuilder,
    buffer: &mut Vec<u32>,
    selector: u32,
    table: &[Option<u32>],
    clause: &[Lit],
) -> Result<(), AllocError>
    requires empty { buffer.old.items ≡ [] }
    requires own { selector < 2097154 }
    requires small { IsSmall table.now }
    ensures adds { OnOk result ((ns : List Named) → IsTableOf table.now ns → Adds build.old build.new
        ((flipped selector ∷ map (number_in_circuit ns) clause.now) ∷ [])) }
    ensures empty { OnOk result (buffer.new.items ≡ []) }
{
    buffer.push(flip(selector))?;
    for lit in clause {
        buffer.push(number_of(table, *lit))?;
    }
    build.put(buffer)
}

// Puts for each literal that it is false where its selector is true.
pub(crate) fn put_missed(
    build: &mut RowBuilder,
    buffer: &mut Vec<u32>,
    first: u32,
    ns: &[u32],
) -> Result<(), AllocError>
    requires empty { buffer.old.items ≡ [] }
    requires few { first + length ns.now ≤ 1048577 }
    requires below { All (λ n. n < 2097154) ns.now }
    ensures adds { OnOk result (Adds build.old build.new (falsified first (units ns.now))) }
    ensures empty { OnOk result (buffer.new.items ≡ []) }
{
    for i in 0..ns.len() {
        put_clause(build, buffer, &[flip(2 * (first + i as u32)), flip(ns[i])])?;
    }
    Ok(())
}

// Puts a clause of all these selectors.
pub(crate) fn put_selectors(
    build: &mut RowBuilder,
    buffer: &mut Vec<u32>,
    first: u32,
    count: u32,
) -> Result<(), AllocError>
    requires empty { buffer.old.items ≡ [] }
    requires few { first + count ≤ 1048577 }
    ensures adds { OnOk result (Adds build.old build.new (selectors first count ∷ [])) }
    ensures empty { OnOk result (buffer.new.items ≡ []) }
{
    for i in 0..count {
        buffer.push(2 * (first + i))?;
    }
    build.put(buffer)
}

// The circuit's literal of a literal.
fn number_of(table: &[Option<u32>], lit: Lit) -> u32
    requires { IsSmall table.now }
    ensures value { (ns : List Named) → IsTableOf table.now ns → result ≡ number_in_circuit ns lit }
    ensures below { result < 2097154 }
{
    when(lit.is_positive(), entry_at(table, lit.var()).unwrap_or(0))
}
