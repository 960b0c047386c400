//! The words of a command, as they are passed to it.

ghost use Rattle.std.specs.Prelude.{◌≡◌, IfOk};
ghost use Rattle.tcl_eval.specs.Handed.{handed_words};

use std::alloc::{AllocError, Global};
use tcl_host::Values;
use tcl_values::Value;

/// The values of a command's words. They are owned, or lent by words that are literals.
#[derive(Drop)]
pub(crate) enum Handed<'w> {
    Own(Values),
    Lent(&'w [Value]),
}

impl Handed<'_> {
    /// Returns the values, in order.
    pub(crate) fn as_slice(&self) -> &[Value]
        ensures { result.now ≡ handed_words self.now }
    {
        match self {
            Handed::Own(values) => values.as_slice(),
            Handed::Lent(values) => *values,
        }
    }

    /// Returns the values as an owned list. Lent values are shared.
    pub(crate) fn own(self, alloc: Global) -> Result<Values, AllocError>
        ensures { IfOk result (λ v. v ≡ handed_words self.entry) }
    {
        match self {
            Handed::Own(values) => Ok(values),
            Handed::Lent(values) => shared(alloc, values),
        }
    }
}

/// Returns these values as a list. Each value is shared.
fn shared(alloc: Global, values: &[Value]) -> Result<Values, AllocError>
    ensures { IfOk result (λ v. v ≡ values.now) }
{
    let mut list = Values::with_room(alloc, values.len())?;
    for value in values {
        list.push(value.shared(alloc)?)?;
    }
    Ok(list)
}
