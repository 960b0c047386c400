//! Arrays of a scope.

ghost use Rattle.std.specs.Prelude.{◌≡◌, Some};
ghost use Rattle.std.specs.Option.{option_copied};
ghost use Rattle.tcl_subst.specs.Entries.{find};
ghost use Rattle.tcl_subst.specs.Faults.{Changes};
ghost use Rattle.tcl_subst.specs.Slots.{entered, elements_in, array_made};

use crate::faults::SubstFault;
use crate::names::Names;
use crate::scope::{Scope, Slot};
use std::alloc::Global;
use tcl_values::Value;

/// Returns the elements of an array. `None` if there is no such array.
pub fn elements<'a>(scope: &'a Scope, name: &[u8]) -> Option<&'a Names<Value>>
    ensures { option_copied result ≡ elements_in (find name.now scope.now) }
{
    match scope.get(name) {
        None => None,
        Some(Slot::Text(_)) => None,
        Some(Slot::Array(elements)) => Some(elements),
        Some(Slot::Link(_)) => None,
    }
}

/// Makes a missing variable an array without elements. On an error the scope is unchanged.
pub fn make_array(scope: &mut Scope, alloc: Global, name: &[u8]) -> Result<(), SubstFault>
    ensures { Changes result (entered name.now scope.old (array_made (find name.now scope.old))) scope.old scope.new }
{
    if let Some(slot) = scope.get_mut(name) {
        return make_slot(slot, alloc);
    }
    scope.insert_new(alloc, name, Slot::Array(Names::new(alloc)))?;
    Ok(())
}

fn make_slot(slot: &mut Slot, alloc: Global) -> Result<(), SubstFault>
    ensures { Changes result (array_made (Some slot.old)) slot.old slot.new }
{
    match slot {
        Slot::Text(_) => Err(SubstFault::NotArray),
        Slot::Array(_) => Ok(()),
        Slot::Link(_) => {
            *slot = Slot::Array(Names::new(alloc));
            Ok(())
        }
    }
}
