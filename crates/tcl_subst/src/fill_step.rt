//! The result of a step of a substitution.

use crate::faults::SubstFault;
use tcl_values::Value;

/// The result of a step of a substitution.
#[derive(Drop)]
pub enum FillStep {
    /// The value of the word.
    Value(Value),
    /// The value of a script is needed. The number is that of its step.
    NeedScript(usize),
    /// A variable could not be read, or the value would be too long.
    Fault(SubstFault),
}
