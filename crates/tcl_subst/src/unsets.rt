//! Removes variables from a scope, and adds links to another one.

ghost use Rattle.std.specs.Prelude.{◌≡◌, Some};
ghost use Rattle.std.specs.Option.{option_copied};
ghost use Rattle.tcl_subst.specs.Entries.{find};
ghost use Rattle.tcl_subst.specs.Faults.{Changes};
ghost use Rattle.tcl_subst.specs.Slots.{entered, text_unset, entry_unset, element_unset, unset, linked_over, link};

use crate::element::element;
use crate::faults::SubstFault;
use crate::names::Names;
use crate::reads::text_exists;
use crate::scope::{Link, Scope, Slot};
use std::alloc::Global;
use tcl_values::Value;

/// Removes a variable, or its element with an index. On an error the scope is unchanged.
pub fn unset(scope: &mut Scope, variable: &[u8], index: Option<&[u8]>) -> Result<(), SubstFault>
    ensures { Changes result (unset variable.now (option_copied index.entry) scope.old) scope.old scope.new }
{
    match index {
        None => unset_text(scope, variable),
        Some(index) => unset_element(scope, variable, index),
    }
}

fn unset_text(scope: &mut Scope, name: &[u8]) -> Result<(), SubstFault>
    ensures { Changes result (text_unset (find name.now scope.old) name.now scope.old) scope.old scope.new }
{
    if !text_exists(scope, name) {
        return Err(SubstFault::NoVariable);
    }
    scope.remove(name);
    Ok(())
}

fn unset_element(scope: &mut Scope, array: &[u8], index: &[u8]) -> Result<(), SubstFault>
    ensures { Changes result (entered array.now scope.old (element_unset index.now (find array.now scope.old))) scope.old scope.new }
{
    if let Some(slot) = scope.get_mut(array) {
        return unset_member(slot, index);
    }
    Err(SubstFault::NoVariable)
}

fn unset_member(slot: &mut Slot, index: &[u8]) -> Result<(), SubstFault>
    ensures { Changes result (element_unset index.now (Some slot.old)) slot.old slot.new }
{
    match slot {
        Slot::Text(_) => Err(SubstFault::NotArray),
        Slot::Array(elements) => unset_entry(elements, index),
        Slot::Link(_) => Err(SubstFault::NoVariable),
    }
}

fn unset_entry(elements: &mut Names<Value>, index: &[u8]) -> Result<(), SubstFault>
    ensures { Changes result (entry_unset (find index.now elements.old) index.now elements.old) elements.old elements.new }
{
    match elements.remove(index) {
        None => Err(SubstFault::NoVariable),
        Some(_) => Ok(()),
    }
}

/// Links a name to another variable. On an error the scope is unchanged.
pub fn link(scope: &mut Scope, alloc: Global, to: Link, name: &[u8]) -> Result<(), SubstFault>
    ensures { Changes result (link to name.now scope.old) scope.old scope.new }
{
    match element(name) {
        None => link_name(scope, alloc, to, name),
        Some(_) => Ok(()),
    }
}

fn link_name(scope: &mut Scope, alloc: Global, to: Link, name: &[u8]) -> Result<(), SubstFault>
    ensures { Changes result (entered name.now scope.old (linked_over to (find name.now scope.old))) scope.old scope.new }
{
    if let Some(slot) = scope.get_mut(name) {
        return link_slot(slot, to);
    }
    scope.insert_new(alloc, name, Slot::Link(to))?;
    Ok(())
}

fn link_slot(slot: &mut Slot, to: Link) -> Result<(), SubstFault>
    ensures { Changes result (linked_over to (Some slot.old)) slot.old slot.new }
{
    match slot {
        Slot::Text(_) => Err(SubstFault::Exists),
        Slot::Array(_) => Err(SubstFault::Exists),
        Slot::Link(_) => {
            *slot = Slot::Link(to);
            Ok(())
        }
    }
}
