//! Variables as commands of Expect use them (expect(1)). A command reads the current scope, or else
//! the outermost one. It sets the current scope.

ghost use Rattle.std.specs.Prelude.{◌≡◌, ◌∷◌, [], IfOk};
ghost use Rattle.tcl_results.specs.Says.{Says};
ghost use Rattle.tcl_subst.specs.Faults.{Gives};
ghost use Rattle.expect_core.specs.Scoped.{scoped as scoped_of, optional as optional_of, needed as needed_of, set_all as set_all_of};

use crate::stored::Stores;
use std::alloc::{AllocError, Global};
use tcl_results::{Complaint, not_read, not_set};
use tcl_subst::{SubstFault, Vars};
use tcl_values::Value;

/// Returns the value of a variable.
fn scoped(vars: &Vars, name: &[u8]) -> Result<Value, SubstFault>
    ensures { Gives result (scoped_of name.now vars.now) }
{
    match vars.get(name) {
        Err(SubstFault::NoVariable) if !vars.is_outermost() => vars.get_global(name),
        read => read,
    }
}

/// Returns the value of a variable, or `None` if there is no such variable.
pub(crate) fn optional(alloc: Global, vars: &Vars, name: &[u8]) -> Result<Option<Value>, Complaint>
    ensures { Says result (optional_of name.now vars.now) }
{
    match scoped(vars, name) {
        Ok(value) => Ok(Some(value)),
        Err(SubstFault::NoVariable) => Ok(None),
        Err(fault) => Err(Complaint::Said(not_read(alloc, name, fault)?)),
    }
}

/// Returns the value of a variable, or an error if it can't be read.
pub(crate) fn needed(alloc: Global, vars: &Vars, name: &[u8]) -> Result<Value, Complaint>
    ensures { Says result (needed_of name.now vars.now) }
{
    match scoped(vars, name) {
        Ok(value) => Ok(value),
        Err(fault) => Err(Complaint::Said(not_read(alloc, name, fault)?)),
    }
}

/// Sets a variable. Returns the text of the error if it can't be set, or `None`.
pub(crate) fn set_one(
    alloc: Global,
    vars: &mut Vars,
    name: &[u8],
    value: Value,
) -> Result<Option<Value>, AllocError>
    ensures { IfOk result (λ r. set_all_of ((name.now, value) ∷ []) vars.old ≡ (vars.new, r)) }
{
    if let Err(fault) = vars.set(name, value) {
        let text = not_set(alloc, name, fault)?;
        return Ok(Some(Value::from_text(alloc, text)?));
    }
    Ok(None)
}

/// Sets variables in order, up to the first that can't be set. Returns the text of that error, or
/// `None`.
pub(crate) fn set_all(
    alloc: Global,
    vars: &mut Vars,
    stores: Stores,
) -> Result<Option<Value>, AllocError>
    ensures { IfOk result (λ r. set_all_of stores vars.old ≡ (vars.new, r)) }
{
    'stores: for (name, value) in stores.list {
        if let Err(fault) = vars.set(name, value) {
            let text = not_set(alloc, name, fault)?;
            return Ok(Some(Value::from_text(alloc, text)?));
        }
    }
    Ok(None)
}
