//! Variables that come, and that leave with their frame. Room for a variable is made before the prefix changes, and
//! what the prefix would refuse is asked before that: so want of memory comes last and changes nothing.
ghost use Rattle.std.specs.Prelude.{◌≡◌, ◌≢◌, ◌≤◌, ◌<◌, true, [], ◌∷◌, ◌++◌, length, take, drop, if◌then◌else◌, OnOk, Ok, Err, MatchOption, vec_len, vec_capacity};
ghost use Rattle.prefix.specs.Refusals.{variable_refusal};
ghost use Rattle.frames.specs.State.{leaves_in, without_assumed, without_variables};

use crate::assumptions::Assumptions;
use prefix::{Prefix, PrefixRefusal, Var};
use std::alloc::AllocError;
use versions::Version;

// The variable of this number, where the prefix takes it into the scope; else why it is refused. This takes no memory.
pub(crate) fn variable_for(prefix: &Prefix, var: u64, scope: u64) -> Result<Var, PrefixRefusal>
    ensures value { MatchOption (variable_refusal prefix.now var scope) (result ≡ Ok var) (λ e. result ≡ Err e) }
    ensures memory { result ≢ Err PrefixRefusal.NoMemory }
{
    if var > Var::MAX as u64 {
        return Err(PrefixRefusal::VarRange);
    }
    let Some(v) = Var::new(var as u32) else {
        return Err(PrefixRefusal::VarRange);
    };
    if prefix.level(v).is_some() {
        return Err(PrefixRefusal::VarTwice);
    }
    if scope == 0 || scope > prefix.scopes() as u64 {
        return Err(PrefixRefusal::ScopeRange);
    }
    Ok(v)
}

// Whether a variable that is added leaves with the top frame, where so many frames are pushed.
pub(crate) fn leaves(version: Version, pushed: usize) -> bool
    ensures { result ≡ leaves_in version pushed }
{
    match version {
        Version::One => false,
        Version::Two | Version::Three => pushed > 0,
    }
}

// Makes room for one variable more, where it leaves.
pub(crate) fn make_room(vars: &mut Vec<Var>, leaves: bool) -> Result<(), AllocError>
    ensures same { vars.new.items ≡ vars.old.items }
    ensures room { OnOk result (leaves ≡ true → vec_len vars.new < vec_capacity vars.new) }
{
    if leaves {
        vars.reserve(1)?;
    }
    Ok(())
}

// Puts a variable behind the others, where it leaves.
pub(crate) fn put_variable(vars: &mut Vec<Var>, leaves: bool, v: Var)
    requires { leaves ≡ true → vec_len vars.old < vec_capacity vars.old }
    ensures { vars.new.items ≡ (if leaves then vars.old.items ++ v ∷ [] else vars.old.items) }
{
    if leaves {
        let _ = vars.push(v);
    }
}

// Takes the variables from a place on out of the prefix, and the assumptions over them back. This takes no memory.
pub(crate) fn take_out(
    prefix: &mut Prefix,
    assumptions: &mut Assumptions,
    vars: &mut Vec<Var>,
    len: usize,
)
    requires { len ≤ length vars.old.items }
    ensures vars { vars.new.items ≡ take len vars.old.items }
    ensures prefix { prefix.new ≡ without_variables (drop len vars.old.items) prefix.old }
    ensures assumptions { assumptions.new ≡ without_assumed (drop len vars.old.items) assumptions.old }
{
    while vars.len() > len {
        if let Some(v) = vars.pop() {
            prefix.remove_var(v);
            assumptions.remove(v);
        }
    }
}

// The variables from a place on.
pub(crate) fn vars_from(vars: &[Var], start: usize) -> &[Var]
    requires { start ≤ length vars.now }
    ensures { result.now ≡ drop start vars.now }
{
    &vars[start..]
}
