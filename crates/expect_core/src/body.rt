//! A script that a command evaluates.

use crate::plan::PlanBox;

/// A script that a command evaluates, by the command.
#[derive(Drop)]
pub enum Body {
    /// The action of this `expect`.
    Action(PlanBox),
    /// What `source` read.
    Source,
}
