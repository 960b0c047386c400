//! Parses values of a scope as lists.

ghost use Rattle.std.specs.Prelude.{◌≡◌, Some};
ghost use Rattle.std.specs.Option.{option_copied};
ghost use Rattle.tcl_subst.specs.Entries.{find};
ghost use Rattle.tcl_subst.specs.Faults.{Tells};
ghost use Rattle.tcl_subst.specs.Slots.{text_in, element_in, read_at, some_list, there, list_in};
ghost use Rattle.tcl_words.specs.Lists.{elements};

use crate::faults::SubstFault;
use crate::names::Names;
use crate::scope::{Scope, Slot};
use std::alloc::Global;
use tcl_values::Value;

/// Parses a variable, or its element with an index, as a list, and keeps its elements. Its value is
/// unchanged.
pub fn list(
    scope: &mut Scope,
    alloc: Global,
    variable: &[u8],
    index: Option<&[u8]>,
) -> Result<(), SubstFault>
    ensures same { scope.new ≡ scope.old }
    ensures told { Tells result (list_in (read_at variable.now (option_copied index.entry) scope.old)) }
{
    match index {
        None => list_text(scope, alloc, variable),
        Some(index) => list_element(scope, alloc, variable, index),
    }
}

fn list_text(scope: &mut Scope, alloc: Global, name: &[u8]) -> Result<(), SubstFault>
    ensures same { scope.new ≡ scope.old }
    ensures told { Tells result (list_in (text_in (find name.now scope.old))) }
{
    if let Some(slot) = scope.get_mut(name) {
        return list_slot(slot, alloc);
    }
    Err(SubstFault::NoVariable)
}

fn list_slot(slot: &mut Slot, alloc: Global) -> Result<(), SubstFault>
    ensures same { slot.new ≡ slot.old }
    ensures told { Tells result (list_in (text_in (Some slot.old))) }
{
    match slot {
        Slot::Text(value) => list_value(value, alloc),
        Slot::Array(_) => Err(SubstFault::IsArray),
        Slot::Link(_) => Err(SubstFault::NoVariable),
    }
}

fn list_element(
    scope: &mut Scope,
    alloc: Global,
    array: &[u8],
    index: &[u8],
) -> Result<(), SubstFault>
    ensures same { scope.new ≡ scope.old }
    ensures told { Tells result (list_in (element_in index.now (find array.now scope.old))) }
{
    if let Some(slot) = scope.get_mut(array) {
        return list_member(slot, alloc, index);
    }
    Err(SubstFault::NoVariable)
}

fn list_member(slot: &mut Slot, alloc: Global, index: &[u8]) -> Result<(), SubstFault>
    ensures same { slot.new ≡ slot.old }
    ensures told { Tells result (list_in (element_in index.now (Some slot.old))) }
{
    match slot {
        Slot::Text(_) => Err(SubstFault::NotArray),
        Slot::Array(elements) => list_entry(elements, alloc, index),
        Slot::Link(_) => Err(SubstFault::NoVariable),
    }
}

fn list_entry(elements: &mut Names<Value>, alloc: Global, index: &[u8]) -> Result<(), SubstFault>
    ensures same { elements.new ≡ elements.old }
    ensures told { Tells result (list_in (there (find index.now elements.old))) }
{
    if let Some(value) = elements.get_mut(index) {
        return list_value(value, alloc);
    }
    Err(SubstFault::NoVariable)
}

fn list_value(value: &mut Value, alloc: Global) -> Result<(), SubstFault>
    ensures same { value.new ≡ value.old }
    ensures told { Tells result (some_list (elements value.old)) }
{
    value.listed(alloc)?;
    Ok(())
}
