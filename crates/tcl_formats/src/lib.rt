//! The commands `format` and `scan`.
#![tactic(auto)]

mod digits;
mod fields;
mod formats;
mod scanning;
mod templates;

pub use formats::format;
pub use scanning::scan;
