//! Changes a scope.

ghost use Rattle.std.specs.Option.{option_copied};
ghost use Rattle.std.specs.Prelude.{Some};
ghost use Rattle.tcl_subst.specs.Entries.{find};
ghost use Rattle.tcl_subst.specs.Faults.{Changes};
ghost use Rattle.tcl_subst.specs.Slots.{entered, entry_written, text_written, element_written, written};
ghost use Rattle.tcl_subst.specs.Writes.{write_of};

use crate::faults::SubstFault;
use crate::names::Names;
use crate::scope::{Scope, Slot};
use crate::write::{Write, write_value};
use std::alloc::Global;
use tcl_values::Value;

/// Writes a variable, or its element with an index. A missing value counts as empty. On an error
/// the scope is unchanged.
pub fn write(
    scope: &mut Scope,
    alloc: Global,
    variable: &[u8],
    index: Option<&[u8]>,
    write: Write<'_>,
) -> Result<(), SubstFault>
    ensures { Changes result (written (write_of write.entry) variable.now (option_copied index.entry) scope.old) scope.old scope.new }
{
    match index {
        None => write_text(scope, alloc, variable, write),
        Some(index) => write_element(scope, alloc, variable, index, write),
    }
}

fn write_text(
    scope: &mut Scope,
    alloc: Global,
    name: &[u8],
    write: Write<'_>,
) -> Result<(), SubstFault>
    ensures { Changes result (entered name.now scope.old (text_written (write_of write.entry) (find name.now scope.old))) scope.old scope.new }
{
    if let Some(slot) = scope.get_mut(name) {
        return write_slot(slot, alloc, write);
    }
    let mut slot = Slot::Text(Value::new(alloc));
    write_slot(&mut slot, alloc, write)?;
    scope.insert_new(alloc, name, slot)?;
    Ok(())
}

fn write_slot(slot: &mut Slot, alloc: Global, write: Write<'_>) -> Result<(), SubstFault>
    ensures { Changes result (text_written (write_of write.entry) (Some slot.old)) slot.old slot.new }
{
    match slot {
        Slot::Text(value) => write_value(value, alloc, write),
        Slot::Array(_) => Err(SubstFault::IsArray),
        Slot::Link(_) => {
            let mut value = Value::new(alloc);
            write_value(&mut value, alloc, write)?;
            *slot = Slot::Text(value);
            Ok(())
        }
    }
}

fn write_element(
    scope: &mut Scope,
    alloc: Global,
    array: &[u8],
    index: &[u8],
    write: Write<'_>,
) -> Result<(), SubstFault>
    ensures { Changes result (entered array.now scope.old (element_written (write_of write.entry) index.now (find array.now scope.old))) scope.old scope.new }
{
    if let Some(slot) = scope.get_mut(array) {
        return write_member(slot, alloc, index, write);
    }
    let mut slot = Slot::Array(Names::new(alloc));
    write_member(&mut slot, alloc, index, write)?;
    scope.insert_new(alloc, array, slot)?;
    Ok(())
}

fn write_member(
    slot: &mut Slot,
    alloc: Global,
    index: &[u8],
    write: Write<'_>,
) -> Result<(), SubstFault>
    ensures { Changes result (element_written (write_of write.entry) index.now (Some slot.old)) slot.old slot.new }
{
    match slot {
        Slot::Text(_) => Err(SubstFault::NotArray),
        Slot::Array(elements) => write_entry(elements, alloc, index, write),
        Slot::Link(_) => {
            let mut elements = Names::new(alloc);
            write_entry(&mut elements, alloc, index, write)?;
            *slot = Slot::Array(elements);
            Ok(())
        }
    }
}

fn write_entry(
    elements: &mut Names<Value>,
    alloc: Global,
    index: &[u8],
    write: Write<'_>,
) -> Result<(), SubstFault>
    ensures { Changes result (entry_written (write_of write.entry) index.now elements.old) elements.old elements.new }
{
    if let Some(value) = elements.get_mut(index) {
        return write_value(value, alloc, write);
    }
    let mut value = Value::new(alloc);
    write_value(&mut value, alloc, write)?;
    elements.insert_new(alloc, index, value)?;
    Ok(())
}
