//! A worker's desk: a hall with its scripts' endpoints of rings, and the record of what it took.
#![tactic(auto)]

mod attending;
mod book;
mod desk;
mod ends;
mod entering;
mod hearing;
mod laws;
mod line;
mod readers;

pub use book::Book;
pub use desk::{Desk, Outcome, stop_all};
pub use ends::Ends;
pub use laws::limits;
pub use line::ScriptState;
pub use readers::Readers;
