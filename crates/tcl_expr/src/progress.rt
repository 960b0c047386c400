//! The progress of an evaluation.

ghost use Rattle.std.specs.Prelude.{◌≡◌, ◌≤◌, ◌∷◌, ◌++◌, [], true, length, IfOk, OnOk, OnErr};
ghost use Rattle.std.specs.List.{list_all};
ghost use Rattle.tcl_expr.specs.Stack.{is_below};

use crate::given::Given;
use crate::stack::Stack;
use std::alloc::{AllocError, Global};
use tcl_values::Value;

/// The operands given to an evaluation, and its progress with them.
///
/// Use one `Operands` per expression. Intermediate results are kept, so that nothing is computed
/// twice.
#[derive(Drop)]
pub struct Operands {
    /// The given values, in order.
    pub(crate) given: Given,
    /// The number of values that were used.
    pub(crate) used: usize,
    /// The index of the next instruction.
    pub(crate) at: usize,
    /// The values that wait for their operators.
    pub(crate) stack: Stack,
    ghost used_are_given: { used ≤ length given },
    ghost stack_is_used: { list_all (is_below used) stack ≡ true },
}

impl Operands {
    ghost use Rattle.tcl_expr.specs.Tree.{Tree};
    ghost use Rattle.tcl_expr.specs.Run.{Serves};

    /// Creates the state of an evaluation that has not begun. It does not allocate.
    pub fn new(alloc: Global) -> Operands
        ensures given { result.given ≡ [] }
        ensures serves { (t : Tree) → Serves t result }
    {
        Operands {
            given: Given::new(alloc),
            used: 0,
            at: 0,
            stack: Stack::new(alloc),
        }
    }

    /// Adds the value of the operand that was asked for last. On `AllocError` nothing changes.
    #[inline(always)]
    pub fn give(&mut self, value: Value) -> Result<(), AllocError>
        ensures given { OnOk result (self.new.given ≡ self.old.given ++ value ∷ []) }
        ensures serves { OnOk result ((t : Tree) → Serves t self.old → Serves t self.new) }
        ensures kept { OnErr result (self.new ≡ self.old) }
    {
        self.given.push(value)?;
        Ok(())
    }
}
