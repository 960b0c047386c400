//! Repairs the log of a run that was cut off.
#![tactic(auto)]

mod mending;

pub use mending::{mend, mending_law};
