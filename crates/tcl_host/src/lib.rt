//! The interface between an evaluator of scripts and its host.
//!
//! A [`Host`] carries out the commands that the language lacks. The evaluator calls it with a command's words and the script's variables,
//! and the host answers with a [`HostStep`]. `specs/Calls` has these calls and replies as data.
//!
//! The types that both sides use are here too: [`Values`], [`Pile`] and [`Ending`].
#![tactic(auto)]

mod ending;
mod host;
mod pile;
mod values;

pub use ending::Ending;
pub use host::{Host, HostStep};
pub use pile::Pile;
pub use values::Values;
