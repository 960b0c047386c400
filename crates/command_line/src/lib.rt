//! The command line of the program: its commands and options, and how it is read.
#![tactic(auto)]

mod help;
mod offers;
mod order;
mod reading;

pub use order::{Alone, Check, Explain, LogPlan, Order, Replay, Run, Scripts, Show, Variables};
pub use reading::read_words;
