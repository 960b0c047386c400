//! The command `string`.
#![tactic(auto)]

mod classes;
mod mapping;
mod strings;
mod trimming;

pub use mapping::pairs_of;
pub use strings::string;
