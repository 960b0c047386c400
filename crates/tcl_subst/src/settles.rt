//! Adopts lists that other owners parsed.

ghost use Rattle.std.specs.Prelude.{◌≡◌};

use crate::names::Names;
use crate::scope::{Scope, Slot};
use std::alloc::Global;
use tcl_values::Value;

/// Adopts the list that another owner parsed of the value of a variable, or of its element with an
/// index. No value changes.
pub fn settle(scope: &mut Scope, alloc: Global, variable: &[u8], index: Option<&[u8]>)
    ensures { scope.new ≡ scope.old }
{
    match index {
        None => settle_text(scope, alloc, variable),
        Some(index) => settle_element(scope, alloc, variable, index),
    }
}

fn settle_text(scope: &mut Scope, alloc: Global, name: &[u8])
    ensures { scope.new ≡ scope.old }
{
    if let Some(slot) = scope.get_mut(name) {
        settle_slot(slot, alloc);
    }
}

fn settle_slot(slot: &mut Slot, alloc: Global)
    ensures { slot.new ≡ slot.old }
{
    match slot {
        Slot::Text(value) => value.settle(alloc),
        Slot::Array(_) => {}
        Slot::Link(_) => {}
    }
}

fn settle_element(scope: &mut Scope, alloc: Global, array: &[u8], index: &[u8])
    ensures { scope.new ≡ scope.old }
{
    if let Some(slot) = scope.get_mut(array) {
        settle_member(slot, alloc, index);
    }
}

fn settle_member(slot: &mut Slot, alloc: Global, index: &[u8])
    ensures { slot.new ≡ slot.old }
{
    match slot {
        Slot::Text(_) => {}
        Slot::Array(elements) => settle_entry(elements, alloc, index),
        Slot::Link(_) => {}
    }
}

fn settle_entry(elements: &mut Names<Value>, alloc: Global, index: &[u8])
    ensures { elements.new ≡ elements.old }
{
    if let Some(value) = elements.get_mut(index) {
        value.settle(alloc);
    }
}
