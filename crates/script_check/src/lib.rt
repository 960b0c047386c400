//! Finds errors in a script without running it.
//!
//! [`check`] reads a whole source, with the scripts in its words. It finds malformed commands and
//! unknown commands, and errors in numbers of arguments, flags, patterns and expressions, as far as
//! the words are literal. Each finding gives the position of its command in the source, and the
//! text of the error that a run would end with.
//!
//! `specs/Findings` defines the findings of a source, over the commands that tcl_words reads.
#![tactic(auto)]

mod brackets;
mod expects;
mod faults;
mod findings;
mod laws;
mod lines;
mod nested;
mod placed;
mod problem;
mod readings;
mod sights;
mod span;
mod stretch;

pub use findings::{Findings, check};
pub use laws::findings_hold;
pub use lines::{line_of, newlines};
pub use problem::{Finding, Problem};
pub use readings::begin_of;
pub use span::Span;
