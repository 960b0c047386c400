//! Scripts that are parsed once and run often.
//!
//! A [`Script`] is the list of its text's commands, up to a malformed one, which is the last. A
//! command's [`Words`] are kept as steps that substitute them, so that a loop parses nothing again.
//! Scripts and words are shared, not copied.
//!
//! `specs/Commands` defines the commands of a text, over the grammar of tcl_words.
#![tactic(auto)]

mod script;
mod words;

pub use script::{Reading, Script};
pub use words::{KeptWord, Words};
