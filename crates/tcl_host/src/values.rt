//! Lists of values.

ghost use Rattle.std.specs.Prelude.{◌≡◌, ◌++◌, ◌∷◌, [], length, take, IfOk, OnErr, OnOk};

use std::alloc::{AllocError, Global};
use std::marker::Model;
use tcl_values::{Elements, Value};

/// Values in order, such as the words of a command. Contracts see a list of byte lists.
#[derive(Drop)]
pub struct Values {
    list: Vec<Value>,
}

impl Model for Values {
    ghost use Rattle.std.specs.Prelude.{List, ℕ};

    ghost Value = { List (List ℕ) };

    ghost view = { λ v. v.list.items };
}

impl Values {
    /// Returns an empty list. Allocates nothing.
    pub fn new(alloc: Global) -> Values
        ensures { result ≡ [] }
    {
        Values {
            list: Vec::new(alloc),
        }
    }

    /// Returns an empty list with room for `count` values.
    pub fn with_room(alloc: Global, count: usize) -> Result<Values, AllocError>
        ensures { IfOk result (λ v. v ≡ []) }
    {
        Ok(Values {
            list: Vec::with_capacity(alloc, count)?,
        })
    }

    /// Returns the values, in order.
    pub fn as_slice(&self) -> &[Value]
        ensures { result.now ≡ self.now }
    {
        self.list.as_slice()
    }

    /// Returns the number of values.
    pub fn len(&self) -> usize
        ensures { result ≡ length self.now }
    {
        self.list.len()
    }

    /// Appends a value. On `AllocError` the list is unchanged.
    #[inline(always)]
    pub fn push(&mut self, value: Value) -> Result<(), AllocError>
        ensures pushed { OnOk result (self.new ≡ self.old ++ value ∷ []) }
        ensures kept { OnErr result (self.new ≡ self.old) }
    {
        self.list.push(value)?;
        Ok(())
    }

    /// Appends the elements of a list, in order. On `AllocError` the values are unchanged.
    pub fn push_all(&mut self, alloc: Global, elements: &Elements) -> Result<(), AllocError>
        ensures pushed { OnOk result (self.new ≡ self.old ++ elements.now) }
        ensures kept { OnErr result (self.new ≡ self.old) }
    {
        let count = self.list.len();
        let pushed = push_elements(&mut self.list, alloc, elements);
        if pushed.is_err() {
            self.list.truncate(count);
        }
        pushed
    }
}

/// Appends the elements of a list, in order. On `AllocError` some of them are appended, and the values before them are unchanged.
fn push_elements(
    list: &mut Vec<Value>,
    alloc: Global,
    elements: &Elements,
) -> Result<(), AllocError>
    ensures pushed { OnOk result (list.new.items ≡ list.old.items ++ elements.now) }
    ensures front { take (length list.old.items) list.new.items ≡ list.old.items }
{
    let mut at = 0;
    while let Some(value) = elements.value(alloc, at)? {
        list.push(value)?;
        at += 1;
    }
    Ok(())
}
