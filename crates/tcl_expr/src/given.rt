//! The values given for operands, in order.

ghost use Rattle.std.specs.Prelude.{◌≡◌, ◌∷◌, ◌++◌, [], length, OnOk, OnErr};

use std::alloc::{AllocError, Global};
use std::marker::Model;
use tcl_values::Value;

/// A list of values, in order. A contract sees a list of byte lists.
#[derive(Drop)]
pub(crate) struct Given {
    values: Vec<Value>,
}

impl Model for Given {
    ghost use Rattle.std.specs.Prelude.{List, ℕ};

    ghost Value = { List (List ℕ) };

    ghost view = { λ g. g.values.items };
}

impl Given {
    /// Creates an empty list without allocating.
    pub(crate) fn new(alloc: Global) -> Given
        ensures { result ≡ [] }
    {
        Given {
            values: Vec::new(alloc),
        }
    }

    /// Returns the values, in order.
    pub(crate) fn as_slice(&self) -> &[Value]
        ensures { result.now ≡ self.now }
    {
        self.values.as_slice()
    }

    /// Returns the number of values.
    pub(crate) fn len(&self) -> usize
        ensures { result ≡ length self.now }
    {
        self.values.len()
    }

    /// Appends a value. On `AllocError` the list is unchanged.
    #[inline(always)]
    pub(crate) fn push(&mut self, value: Value) -> Result<(), AllocError>
        ensures pushed { OnOk result (self.new ≡ self.old ++ value ∷ []) }
        ensures kept { OnErr result (self.new ≡ self.old) }
    {
        self.values.push(value)?;
        Ok(())
    }
}
