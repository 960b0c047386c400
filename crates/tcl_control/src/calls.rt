//! Binds the arguments of a call to the formal arguments of a procedure.

ghost use Rattle.std.specs.Prelude.{◌≡◌, List, ℕ, is_some, drop, true, IfOk, OnErr};
ghost use Rattle.tcl_control.specs.Procs.{takes_all, bound, bound_in, value_for, entered, has_value, binding};
ghost use Rattle.tcl_results.specs.Says.{Binds};
ghost use Rattle.tcl_control.specs.Scopes.{IsOwn, KeepsOuter};
ghost use Rattle.tcl_words.specs.Lists.{written};

use crate::formals::{Formal, Formals};
use command_table::is;
use std::alloc::{AllocError, Global};
use tcl_results::{Complaint, not_set, packed, wrong};
use tcl_subst::Vars;
use tcl_values::Value;

/// Returns whether a formal argument takes all remaining arguments: it is the last, named `args`.
fn takes_all(formal: &Formal, others: &[Formal]) -> bool
    ensures { result ≡ takes_all formal.now others.now }
{
    match others {
        [] => is(formal.name.as_slice(), b"args"),
        [_, ..] => false,
    }
}

/// Returns whether the number of arguments is right.
fn fits(formals: &[Formal], args: &[Value]) -> bool
    ensures { result ≡ is_some (bound formals.now args.now) }
{
    let mut rest = formals;
    let mut left = args;
    while let [formal, others @ ..] = rest {
        if takes_all(formal, others) {
            return true;
        }
        if !has_value(formal, left) {
            return false;
        }
        rest = others;
        left = behind(left);
    }
    left.is_empty()
}

/// Returns whether there is an argument for a formal argument, or a default.
fn has_value(formal: &Formal, args: &[Value]) -> bool
    ensures { result ≡ has_value formal.now args.now }
{
    match args {
        [] => formal.default.is_some(),
        [_, ..] => true,
    }
}

/// Returns the arguments after the first.
fn behind(args: &[Value]) -> &[Value]
    ensures { result.now ≡ drop 1 args.now }
{
    match args {
        [] => args,
        [_, rest @ ..] => rest,
    }
}

/// Sets a name in the innermost scope.
#[tactic(auto, using(crate::proofs::Scopes::keeps_all), unfolding(crate::specs::Procs::binding))]
fn bind(alloc: Global, name: &[u8], value: Value, vars: &mut Vars) -> Result<(), Complaint>
    requires { IsOwn vars.old.locals }
    ensures bound { Binds result (binding name.now value vars.old) vars.new }
    ensures kept { KeepsOuter vars.old vars.new }
{
    match vars.set(name, value) {
        Ok(()) => Ok(()),
        Err(fault) => Err(Complaint::Said(not_set(alloc, name, fault)?)),
    }
}

/// Returns the value of a formal argument: the first argument, or else the default. Empty if it has
/// no default.
fn value_of(alloc: Global, formal: &Formal, args: &[Value]) -> Result<Value, AllocError>
    ensures { IfOk result (λ v. v ≡ value_for formal.now args.now) }
{
    match args {
        [] => match &formal.default {
            None => Ok(Value::new(alloc)),
            Some(value) => value.shared(alloc),
        },
        [value, ..] => value.shared(alloc),
    }
}

/// Returns the list of values.
fn list_of(alloc: Global, values: &[Value]) -> Result<Value, AllocError>
    ensures { IfOk result (λ v. v ≡ written values.now) }
{
    Value::written(alloc, packed(alloc, values)?)
}

/// Sets the formal arguments in the innermost scope, in order. Requires the right number of
/// arguments.
#[tactic(auto, using(crate::proofs::Scopes::keeps_on, crate::proofs::Scopes::keeps_all))]
fn bind_all(
    alloc: Global,
    formals: &[Formal],
    args: &[Value],
    vars: &mut Vars,
) -> Result<(), Complaint>
    requires fits { is_some (bound formals.now args.now) ≡ true }
    requires own { IsOwn vars.old.locals }
    ensures bound { (command : List ℕ) → Binds result (bound_in command (bound formals.now args.now) vars.old) vars.new }
    ensures kept { KeepsOuter vars.old vars.new }
{
    let mut rest = formals;
    let mut left = args;
    while let [formal, others @ ..] = rest {
        if takes_all(formal, others) {
            return bind(alloc, formal.name.as_slice(), list_of(alloc, left)?, vars);
        }
        let value = value_of(alloc, formal, left)?;
        bind(alloc, formal.name.as_slice(), value, vars)?;
        rest = others;
        left = behind(left);
    }
    Ok(())
}

/// Adds a scope for a call, and binds the arguments in it. On an error the variables are unchanged.
pub fn enter(
    alloc: Global,
    command: &[u8],
    formals: &Formals,
    args: &[Value],
    vars: &mut Vars,
) -> Result<(), Complaint>
    ensures entered { Binds result (entered command.now formals.now args.now vars.old) vars.new }
    ensures kept { OnErr result (vars.new ≡ vars.old) }
{
    if !fits(formals.as_slice(), args) {
        return Err(wrong(alloc, command));
    }
    match vars.push_scope() {
        Ok(()) => {}
        Err(_) => return Err(Complaint::Memory),
    }
    match bind_all(alloc, formals.as_slice(), args, vars) {
        Ok(()) => Ok(()),
        Err(complaint) => {
            vars.pop_scope();
            Err(complaint)
        }
    }
}
