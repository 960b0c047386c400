//! Reads a scope.

ghost use Rattle.std.specs.Prelude.{◌≡◌, Ok, Err, MatchResult};
ghost use Rattle.tcl_subst.specs.Entries.{find};
ghost use Rattle.std.specs.Option.{option_copied};
ghost use Rattle.tcl_subst.specs.Slots.{text_in, element_in, read, read_at, text_exists, element_exists, slot_exists};

use crate::element::parts;
use crate::faults::SubstFault;
use crate::scope::{Scope, Slot};
use tcl_values::Value;

/// Returns the value of a variable or an element.
pub fn read<'a>(scope: &'a Scope, name: &[u8]) -> Result<&'a Value, SubstFault>
    ensures { MatchResult result (λ v. read name.now scope.now ≡ Ok v.now) (λ f. read name.now scope.now ≡ Err f) }
{
    let (variable, index) = parts(name);
    read_at(scope, variable, index)
}

/// Returns the value of a variable, or of its element with an index.
#[inline(always)]
pub fn read_at<'a>(
    scope: &'a Scope,
    variable: &[u8],
    index: Option<&[u8]>,
) -> Result<&'a Value, SubstFault>
    ensures { MatchResult result (λ v. read_at variable.now (option_copied index.entry) scope.now ≡ Ok v.now) (λ f. read_at variable.now (option_copied index.entry) scope.now ≡ Err f) }
{
    match index {
        None => text(scope, variable),
        Some(index) => member(scope, variable, index),
    }
}

#[inline(always)]
fn text<'a>(scope: &'a Scope, name: &[u8]) -> Result<&'a Value, SubstFault>
    ensures { MatchResult result (λ v. text_in (find name.now scope.now) ≡ Ok v.now) (λ f. text_in (find name.now scope.now) ≡ Err f) }
{
    match scope.get(name) {
        None => Err(SubstFault::NoVariable),
        Some(Slot::Text(value)) => Ok(value),
        Some(Slot::Array(_)) => Err(SubstFault::IsArray),
        Some(Slot::Link(_)) => Err(SubstFault::NoVariable),
    }
}

/// Returns the value of an array's element.
fn member<'a>(scope: &'a Scope, array: &[u8], index: &[u8]) -> Result<&'a Value, SubstFault>
    ensures { MatchResult result (λ v. element_in index.now (find array.now scope.now) ≡ Ok v.now) (λ f. element_in index.now (find array.now scope.now) ≡ Err f) }
{
    match scope.get(array) {
        None => Err(SubstFault::NoVariable),
        Some(Slot::Text(_)) => Err(SubstFault::NotArray),
        Some(Slot::Array(elements)) => match elements.get(index) {
            None => Err(SubstFault::NoVariable),
            Some(value) => Ok(value),
        },
        Some(Slot::Link(_)) => Err(SubstFault::NoVariable),
    }
}

/// Returns whether a variable exists, or its element with an index.
pub fn is_there(scope: &Scope, variable: &[u8], index: Option<&[u8]>) -> bool
    ensures { result ≡ slot_exists (option_copied index.entry) (find variable.now scope.now) }
{
    match index {
        None => text_exists(scope, variable),
        Some(index) => element_exists(scope, variable, index),
    }
}

pub fn text_exists(scope: &Scope, name: &[u8]) -> bool
    ensures { result ≡ text_exists (find name.now scope.now) }
{
    match scope.get(name) {
        None => false,
        Some(Slot::Text(_)) => true,
        Some(Slot::Array(_)) => true,
        Some(Slot::Link(_)) => false,
    }
}

fn element_exists(scope: &Scope, array: &[u8], index: &[u8]) -> bool
    ensures { result ≡ element_exists index.now (find array.now scope.now) }
{
    match scope.get(array) {
        None => false,
        Some(Slot::Text(_)) => false,
        Some(Slot::Array(elements)) => elements.get(index).is_some(),
        Some(Slot::Link(_)) => false,
    }
}
