//! The commands that evaluate no script: those on variables, and the choice of all others.
#![tactic(auto)]

mod arrays;
mod commands;
mod ends;
mod substituting;
mod upvars;
mod variables;
mod versions;

pub use commands::plain;
