//! What is seen of a formula.
ghost use Rattle.std.specs.Prelude.{◌≡◌, ◌≤◌, IfOk, MatchOption, SomeIff};
ghost use Rattle.prefix.specs.Scopes.{level_of, quantifier_at, variables_at};
ghost use Rattle.qbf_c.specs.Buffers.{Fills};
ghost use Rattle.qbf_c.specs.Codes.{accepted, forall_number, refusal_at, scope_range, unknown_var};

use crate::code::{ACCEPTED, NO_MEMORY, SCOPE_RANGE, UNKNOWN_VAR};
use crate::fill::fill;
use prefix::{Prefix, Quant, Var};
use std::alloc::{AllocError, Global};
use std::collections::BTreeSet;

pub(crate) fn is_forall(prefix: &Prefix, scope: u64, forall: &mut u32) -> u32
    ensures { MatchOption (quantifier_at prefix.now scope) ((result ≡ scope_range) × (forall.new ≡ forall.old))
        (λ q. (result ≡ accepted) × (forall.new ≡ forall_number q)) }
{
    match prefix.scope_quant(scope as usize) {
        None => SCOPE_RANGE,
        Some(quant) => {
            *forall = number_of(quant);
            ACCEPTED
        }
    }
}

// The number that tells a quantifier.
fn number_of(quant: Quant) -> u32
    ensures { result ≡ forall_number quant }
{
    match quant {
        Quant::Exists => 0,
        Quant::Forall => 1,
    }
}

pub(crate) fn scope_of(prefix: &Prefix, var: u64, scope: &mut u64) -> u32
    ensures { MatchOption (level_of prefix.now var) ((result ≡ unknown_var) × (scope.new ≡ scope.old))
        (λ n. (result ≡ accepted) × (scope.new ≡ n)) }
{
    match level(prefix, var) {
        None => UNKNOWN_VAR,
        Some(level) => {
            *scope = level as u64;
            ACCEPTED
        }
    }
}

// The number of the scope of a variable, where it is in the prefix.
fn level(prefix: &Prefix, var: u64) -> Option<usize>
    ensures { result ≡ level_of prefix.now var }
{
    let _valid = prefix.scopes();
    match variable(var) {
        None => None,
        Some(v) => prefix.level(v),
    }
}

// The variable of a number, where it has one.
fn variable(number: u64) -> Option<Var>
    ensures { SomeIff result ((1 ≤ number) × (number ≤ 1048576)) number }
{
    if number > Var::MAX as u64 {
        return None;
    }
    Var::new(number as u32)
}

pub(crate) fn scope_vars(
    alloc: Global,
    prefix: &Prefix,
    scope: u64,
    vars: &mut [u32],
    count: &mut usize,
) -> u32
    ensures { Fills (refusal_at prefix.now scope) (λ numbers. numbers ≡ variables_at prefix.now scope)
        vars.old vars.new count.old count.new result }
{
    if prefix.scope_quant(scope as usize).is_none() {
        return SCOPE_RANGE;
    }
    match numbers(alloc, prefix.vars_of(scope as usize)) {
        Ok(numbers) => fill(&numbers, vars, count),
        Err(_) => NO_MEMORY,
    }
}

// The numbers of variables.
fn numbers(alloc: Global, vars: &BTreeSet<Var>) -> Result<Vec<u32>, AllocError>
    ensures { IfOk result (λ numbers. numbers.items ≡ vars.now.keys) }
{
    let mut numbers = Vec::with_capacity(alloc, vars.len())?;
    for v in vars {
        numbers.push(v.number())?;
    }
    Ok(numbers)
}
