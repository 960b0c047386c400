//! The texts that `show` and `explain` write about a log.
//!
//! [`show_log`] writes a line for each event. [`explain`] writes the explanations of scripts over
//! the events: the requests and waits of each script after each of its events. `specs/Show` and
//! `specs/Explain` define these texts.
#![tactic(auto)]

mod closing;
mod events;
mod explaining;
mod meetings;
mod nearest;
mod patterns;
mod showing;
mod shown;
mod trail;
mod waits;

pub use explaining::{ExplainFault, explain};
pub use showing::{ShowFault, show_log};
pub use trail::push_places;
