//! The words that start a program in a terminal of the system, through the shell (POSIX, sh(1)).
//!
//! [`quoted`] and [`quoted_words`] quote words for the shell, which reads them back as they were,
//! whatever bytes they contain. [`terminal_words`] makes the words of a command that starts a
//! program in a terminal of its own, through setsid(1) and script(1).
#![tactic(auto)]

mod changes;
mod quoting;
mod terminal;
#[cfg(test)]
mod tests;

pub use changes::{EnvironmentChange, is_name};
pub use quoting::{quoted, quoted_words};
pub use terminal::terminal_words;
