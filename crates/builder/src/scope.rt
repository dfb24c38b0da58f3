//! A scope put behind a prefix.
ghost use Rattle.std.specs.Prelude.{◌≡◌, ◌<◌, ◌++◌, ◌∷◌, [], length, OnOk, OnErr, IsOkUnless};
ghost use Rattle.builder.specs.NewScope.{AreNew, IsBegun, scope_of};

use prefix::{Prefix, PrefixRefusal, Quant};

/// Puts a scope with these variables behind all scopes of a prefix. The variables may come in any order: a scope has
/// them ascending. It takes the time of `Prefix::add_var` for each of them, which is constant on the average where they
/// ascend.
///
/// The prefix has room for a scope, and the variables, each from 1 to `Var::MAX`, are distinct and in no scope of it.
/// So NoMemory alone is answered; the prefix is then as it was, or it has the new scope with the first of the
/// variables, maybe with none.
pub fn add_scope(prefix: &mut Prefix, quant: Quant, vars: &[u32]) -> Result<(), PrefixRefusal>
    requires room { length prefix.old < 65536 }
    requires new { AreNew prefix.old vars.now }
    ensures ok { OnOk result (prefix.new ≡ prefix.old ++ scope_of quant vars.now ∷ []) }
    ensures err { OnErr result (IsBegun quant vars.now prefix.old prefix.new) }
    ensures memory { IsOkUnless result PrefixRefusal.NoMemory }
{
    prefix.add_scope(quant, None)?;
    let number = prefix.scopes() as u64;
    for v in vars {
        prefix.add_var(*v as u64, number)?;
    }
    Ok(())
}
