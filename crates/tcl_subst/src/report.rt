//! The values of a scope, for a report.

ghost use Rattle.std.specs.Prelude.{◌≡◌, IfOk, OnOk};
ghost use Rattle.tcl_subst.specs.Entries.{with_entry};
ghost use Rattle.tcl_subst.specs.Report.{elements_onto, slot_onto, scope_onto};

use crate::byte_names::ByteNames;
use crate::joined::element_name;
use crate::names::Names;
use crate::scope::{Scope, Slot};
use std::alloc::{AllocError, Global};
use tcl_values::Value;
use tcl_words::Text;

/// Adds the values of a scope, each under its name.
pub fn add_scope(
    values: &mut ByteNames<Text>,
    alloc: Global,
    scope: &Scope,
) -> Result<(), AllocError>
    ensures { OnOk result (values.new ≡ scope_onto values.old scope.now) }
{
    for (name, slot) in scope.entries(alloc)?.into_iter() {
        add_slot(values, alloc, name.as_slice(), slot)?;
    }
    Ok(())
}

fn add_slot(
    values: &mut ByteNames<Text>,
    alloc: Global,
    name: &[u8],
    slot: &Slot,
) -> Result<(), AllocError>
    ensures { OnOk result (values.new ≡ slot_onto values.old name.now slot.now) }
{
    match slot {
        Slot::Text(value) => add_value(values, alloc, name, value),
        Slot::Array(elements) => add_elements(values, alloc, name, elements),
        Slot::Link(_) => Ok(()),
    }
}

fn add_value(
    values: &mut ByteNames<Text>,
    alloc: Global,
    name: &[u8],
    value: &Value,
) -> Result<(), AllocError>
    ensures { OnOk result (values.new ≡ with_entry name.now value.now values.old) }
{
    let text = Text::from_slice(alloc, value.as_slice())?;
    values.insert(alloc, name, text)
}

fn add_elements(
    values: &mut ByteNames<Text>,
    alloc: Global,
    array: &[u8],
    elements: &Names<Value>,
) -> Result<(), AllocError>
    ensures { OnOk result (values.new ≡ elements_onto values.old array.now elements.now) }
{
    for (index, value) in elements.entries(alloc)?.into_iter() {
        let name = element_name(alloc, array, index.as_slice())?;
        add_value(values, alloc, name.as_slice(), value)?;
    }
    Ok(())
}

/// Returns names and values as a list.
pub fn listed_values(
    alloc: Global,
    values: ByteNames<Text>,
) -> Result<Vec<(Text, Text)>, AllocError>
    ensures { IfOk result (λ v. v.items ≡ values) }
{
    let mut list = Vec::new(alloc);
    for (name, value) in values.into_entries() {
        list.push((Text { bytes: name }, value))?;
    }
    Ok(list)
}
