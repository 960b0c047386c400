//! A terminal: its modes, how it changes a program's output, and how it handles typed bytes.
//!
//! The rules are those of POSIX.1-2017, XBD chapter 11 (General Terminal Interface). `specs/Modes`
//! defines the words of stty(1), and `specs/Output` the changes to output.
//!
//! `specs/Segments`, `specs/Editing`, `specs/Handed` and `specs/Echo` define what is handed over
//! and echoed, for the whole text typed. `specs/Buffer` describes the code, byte by byte.
//! `specs/Sends` states the law of sends.
#![tactic(auto)]

mod action;
mod draft;
mod given;
mod keys;
mod line;
mod modes;
mod output;

pub use action::{Action, Actions};
pub use line::{Line, sends_join};
pub use modes::{BadMode, Modes};
pub use output::{Seen, convert, convert_behind};
