//! The prefix: what is put into it, and what is asked of it.
ghost use Rattle.std.specs.Prelude.{◌≡◌, true, false, length, MatchOption};
ghost use Rattle.prefix.specs.Scopes.{IsPrefix, all_variables, level_of, quantifier_at, variables_at};
ghost use Rattle.frames.specs.Commands.{AddScope, AddVariable, refusal_of};
ghost use Rattle.engine.specs.State.{changed};
ghost use Rattle.qbf_c.specs.Buffers.{AreLeftOut, Fills};
ghost use Rattle.qbf_c.specs.Codes.{Did, accepted, forall_number, no_engine, place_for, quantifier_for, refusal_at, scope_range, unknown_var};

use crate::code::{ACCEPTED, NO_ENGINE};
use crate::handle::{Handle, taken};
use crate::{commands, looks};
use std::alloc::Global;

/// Puts in a scope as number `at`, from 1, or with 0 as the last.
#[unsafe(no_mangle)]
pub extern "C" fn qbf_scope(alloc: Global, qbf: &mut Handle, forall: bool, at: u64) -> u32
    ensures live { qbf.new.live ≡ qbf.old.live }
    ensures none { qbf.old.live ≡ false → result ≡ no_engine }
    ensures did { qbf.old.live ≡ true
        → Did (refusal_of qbf.old.engine.formula (AddScope (quantifier_for forall) (place_for at)))
        (qbf.new.engine ≡ changed qbf.old.engine (AddScope (quantifier_for forall) (place_for at)))
        (qbf.new.engine ≡ qbf.old.engine) result }
{
    let Some(mut engine) = taken(alloc, qbf) else {
        return NO_ENGINE;
    };
    let code = commands::scope(&mut engine, forall, at);
    *qbf = Handle::of(engine);
    code
}

/// Puts a variable into a scope.
#[unsafe(no_mangle)]
pub extern "C" fn qbf_var(alloc: Global, qbf: &mut Handle, var: u64, scope: u64) -> u32
    ensures live { qbf.new.live ≡ qbf.old.live }
    ensures none { qbf.old.live ≡ false → result ≡ no_engine }
    ensures did { qbf.old.live ≡ true → Did (refusal_of qbf.old.engine.formula (AddVariable var scope))
        (qbf.new.engine ≡ changed qbf.old.engine (AddVariable var scope))
        (qbf.new.engine ≡ qbf.old.engine) result }
{
    let Some(mut engine) = taken(alloc, qbf) else {
        return NO_ENGINE;
    };
    let code = commands::var(&mut engine, var, scope);
    *qbf = Handle::of(engine);
    code
}

/// How many scopes there are.
#[unsafe(no_mangle)]
pub extern "C" fn qbf_scopes(alloc: Global, qbf: &mut Handle, scopes: &mut u64) -> u32
    ensures live { qbf.new.live ≡ qbf.old.live }
    ensures none { qbf.old.live ≡ false → (result ≡ no_engine) × (scopes.new ≡ scopes.old) }
    ensures same { qbf.old.live ≡ true → qbf.new.engine ≡ qbf.old.engine }
    ensures told { qbf.old.live ≡ true → (result ≡ accepted)
        × (scopes.new ≡ length qbf.old.engine.formula.scopes) }
    ensures valid { qbf.old.live ≡ true → IsPrefix qbf.old.engine.formula.scopes }
{
    let Some(engine) = taken(alloc, qbf) else {
        return NO_ENGINE;
    };
    *scopes = engine.prefix().scopes() as u64;
    *qbf = Handle::of(engine);
    ACCEPTED
}

/// How many variables there are.
#[unsafe(no_mangle)]
pub extern "C" fn qbf_vars(alloc: Global, qbf: &mut Handle, vars: &mut u64) -> u32
    ensures live { qbf.new.live ≡ qbf.old.live }
    ensures none { qbf.old.live ≡ false → (result ≡ no_engine) × (vars.new ≡ vars.old) }
    ensures same { qbf.old.live ≡ true → qbf.new.engine ≡ qbf.old.engine }
    ensures told { qbf.old.live ≡ true → (result ≡ accepted)
        × (vars.new ≡ length (all_variables qbf.old.engine.formula.scopes)) }
    ensures valid { qbf.old.live ≡ true → IsPrefix qbf.old.engine.formula.scopes }
{
    let Some(engine) = taken(alloc, qbf) else {
        return NO_ENGINE;
    };
    *vars = engine.prefix().len() as u64;
    *qbf = Handle::of(engine);
    ACCEPTED
}

/// Whether a scope's variables are universal: 1, or else 0.
#[unsafe(no_mangle)]
pub extern "C" fn qbf_is_forall(
    alloc: Global,
    qbf: &mut Handle,
    scope: u64,
    forall: &mut u32,
) -> u32
    ensures live { qbf.new.live ≡ qbf.old.live }
    ensures none { qbf.old.live ≡ false → (result ≡ no_engine) × (forall.new ≡ forall.old) }
    ensures same { qbf.old.live ≡ true → qbf.new.engine ≡ qbf.old.engine }
    ensures told { qbf.old.live ≡ true → MatchOption (quantifier_at qbf.old.engine.formula.scopes scope)
        ((result ≡ scope_range) × (forall.new ≡ forall.old))
        (λ q. (result ≡ accepted) × (forall.new ≡ forall_number q)) }
    ensures valid { qbf.old.live ≡ true → IsPrefix qbf.old.engine.formula.scopes }
{
    let Some(engine) = taken(alloc, qbf) else {
        return NO_ENGINE;
    };
    let code = looks::is_forall(engine.prefix(), scope, forall);
    *qbf = Handle::of(engine);
    code
}

/// The number of a variable's scope.
#[unsafe(no_mangle)]
pub extern "C" fn qbf_scope_of(alloc: Global, qbf: &mut Handle, var: u64, scope: &mut u64) -> u32
    ensures live { qbf.new.live ≡ qbf.old.live }
    ensures none { qbf.old.live ≡ false → (result ≡ no_engine) × (scope.new ≡ scope.old) }
    ensures same { qbf.old.live ≡ true → qbf.new.engine ≡ qbf.old.engine }
    ensures told { qbf.old.live ≡ true → MatchOption (level_of qbf.old.engine.formula.scopes var)
        ((result ≡ unknown_var) × (scope.new ≡ scope.old)) (λ n. (result ≡ accepted) × (scope.new ≡ n)) }
    ensures valid { qbf.old.live ≡ true → IsPrefix qbf.old.engine.formula.scopes }
{
    let Some(engine) = taken(alloc, qbf) else {
        return NO_ENGINE;
    };
    let code = looks::scope_of(engine.prefix(), var, scope);
    *qbf = Handle::of(engine);
    code
}

/// The variables of a scope, ascending, into the buffer; `count` tells how many they are.
#[unsafe(no_mangle)]
pub extern "C" fn qbf_scope_vars(
    alloc: Global,
    qbf: &mut Handle,
    scope: u64,
    vars: &mut [u32],
    count: &mut usize,
) -> u32
    ensures live { qbf.new.live ≡ qbf.old.live }
    ensures none { qbf.old.live ≡ false → AreLeftOut vars.old vars.new count.old count.new result }
    ensures same { qbf.old.live ≡ true → qbf.new.engine ≡ qbf.old.engine }
    ensures told { qbf.old.live ≡ true → Fills (refusal_at qbf.old.engine.formula.scopes scope)
        (λ numbers. numbers ≡ variables_at qbf.old.engine.formula.scopes scope)
        vars.old vars.new count.old count.new result }
    ensures valid { qbf.old.live ≡ true → IsPrefix qbf.old.engine.formula.scopes }
{
    let Some(engine) = taken(alloc, qbf) else {
        return NO_ENGINE;
    };
    let code = looks::scope_vars(alloc, engine.prefix(), scope, vars, count);
    *qbf = Handle::of(engine);
    code
}
