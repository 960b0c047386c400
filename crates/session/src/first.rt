//! The initial variables of a script.

ghost use Rattle.std.specs.Prelude.{◌≡◌, IfOk, OnOk};
ghost use Rattle.session.specs.First.{first_variables as first_of, hosted, setting, as_array, with_variables};

use std::alloc::{AllocError, Global};
use tcl_subst::{SubstFault, Vars};
use tcl_values::Value;
use tcl_words::Text;

/// Sets a variable. Changes nothing if it can't have a value.
fn set(vars: &mut Vars, name: &[u8], value: Value) -> Result<(), AllocError>
    ensures { OnOk result (vars.new ≡ setting name.now value vars.old) }
{
    match vars.set(name, value) {
        Ok(()) => Ok(()),
        Err(SubstFault::Memory) => Err(AllocError),
        Err(_) => Ok(()),
    }
}

/// Makes a variable an array, without elements. Changes nothing if it is a text.
fn make_array(vars: &mut Vars, name: &[u8]) -> Result<(), AllocError>
    ensures { OnOk result (vars.new ≡ as_array name.now vars.old) }
{
    match vars.make_array(name) {
        Ok(()) => Ok(()),
        Err(SubstFault::Memory) => Err(AllocError),
        Err(_) => Ok(()),
    }
}

/// Sets variables, in order.
fn add_variables(alloc: Global, vars: &mut Vars, pairs: &[(Text, Text)]) -> Result<(), AllocError>
    ensures { OnOk result (vars.new ≡ with_variables pairs.now vars.old) }
{
    'pairs: for (name, value) in pairs {
        let value = Value::from_slice(alloc, value.as_slice())?;
        set(vars, name.as_slice(), value)?;
    }
    Ok(())
}

/// Sets the variable that stands for each spawn id, if the setting `host` is on.
fn add_hosted(alloc: Global, vars: &mut Vars, host: bool) -> Result<(), AllocError>
    ensures { OnOk result (vars.new ≡ hosted host vars.old) }
{
    if host {
        set(vars, b"any_spawn_id", Value::from_slice(alloc, b"any")?)?;
    }
    Ok(())
}

/// Returns the initial variables of a script: `timeout` is 10, `env` is an array without elements,
/// with `host` `any_spawn_id` is `any`, and then these are set, in order.
pub(crate) fn first_variables(
    alloc: Global,
    host: bool,
    pairs: &[(Text, Text)],
) -> Result<Vars, AllocError>
    ensures { IfOk result (λ v. v ≡ first_of host pairs.now) }
{
    let mut vars = Vars::new(alloc);
    set(&mut vars, b"timeout", Value::from_slice(alloc, b"10")?)?;
    make_array(&mut vars, b"env")?;
    add_hosted(alloc, &mut vars, host)?;
    add_variables(alloc, &mut vars, pairs)?;
    Ok(vars)
}
