//! One script with its children: its commands over their events, its requests, its report.
//!
//! `specs/Meaning` defines what a script means over all its events. A session keeps no event that a
//! command has taken.
#![tactic(auto)]

mod first;
mod laws;
mod place;
mod report;
mod session;
mod show;
mod watched;
mod watcher;

pub use expect_core::{Act, Pairs, Request, Requests, Settings};
pub use laws::{growth, limit_law, no_meaning_is_memory, request_law};
pub use place::{ErrorPlace, ErrorPlaces};
pub use report::{Counts, Report};
pub use session::{NewFault, SOURCE_LIMIT, STEPS_LIMIT, Session};
pub use tcl_host::Ending;
pub use watcher::Watcher;
