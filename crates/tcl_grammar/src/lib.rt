//! The grammar of commands, rule by rule.
//!
//! `specs/CommandRules` has a rule for each form of a word, each substitution, white space,
//! comments and ends of commands. [`command_rules`] states that the reader of `tcl_words` follows
//! the rules.
#![tactic(auto)]

mod laws;

pub use laws::command_rules;
