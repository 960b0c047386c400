//! The result of a step of an evaluation.

use crate::begun::Begun;
use tcl_expr::ExprFault;
use tcl_values::Value;

/// The result of a step of an evaluation.
#[derive(Drop)]
pub(crate) enum Advance {
    /// The value.
    Value(Value),
    /// An operand's value is needed. Its substitution has begun.
    Operand(Begun),
    /// The evaluation failed.
    Fault(ExprFault),
}
