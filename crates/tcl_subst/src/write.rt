//! The ways to write a value.

ghost use Rattle.tcl_subst.specs.Faults.{Changes};
ghost use Rattle.tcl_subst.specs.Writes.{write_of, set_to, appended, elements_appended};

use crate::faults::SubstFault;
use crate::limits::{VALUE_LIMIT, are_too_long, is_too_long};
use std::alloc::Global;
use tcl_values::Value;
use tcl_words::Packed;

/// A way to write a value.
#[derive(Drop)]
pub enum Write<'a> {
    /// Replaces the old value.
    Set(Value),
    /// Appends bytes to the old value.
    Append(&'a [u8]),
    /// Appends elements to the list that the old value is.
    Elements(&'a Packed),
}

/// Writes a value. On an error it is unchanged.
pub fn write_value(value: &mut Value, alloc: Global, write: Write<'_>) -> Result<(), SubstFault>
    ensures { Changes result (write_of write.entry value.old) value.old value.new }
{
    match write {
        Write::Set(new) => set_value(value, new),
        Write::Append(bytes) => append_bytes(value, alloc, bytes),
        Write::Elements(more) => append_elements(value, alloc, more),
    }
}

fn set_value(value: &mut Value, new: Value) -> Result<(), SubstFault>
    ensures { Changes result (set_to new value.old) value.old value.new }
{
    if is_too_long(new.len()) {
        return Err(SubstFault::TooLong);
    }
    *value = new;
    Ok(())
}

fn append_bytes(value: &mut Value, alloc: Global, bytes: &[u8]) -> Result<(), SubstFault>
    ensures { Changes result (appended bytes.now value.old) value.old value.new }
{
    if are_too_long(value.as_slice(), bytes) {
        return Err(SubstFault::TooLong);
    }
    value.append(alloc, bytes)?;
    Ok(())
}

#[tactic(auto, unfolding(crate::specs::Faults::limit))]
fn append_elements(value: &mut Value, alloc: Global, more: &Packed) -> Result<(), SubstFault>
    ensures { Changes result (elements_appended more.now value.old) value.old value.new }
{
    value.append_elements(alloc, more, VALUE_LIMIT)?;
    Ok(())
}
