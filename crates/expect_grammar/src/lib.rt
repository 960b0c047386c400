//! The arguments of `expect`, the flags of other commands and the words of `stty_init`, rule by
//! rule, and how `regex` treats regular patterns.
//!
//! `specs/ArgumentRules` has a rule for each form of an argument: flags, patterns and keywords with
//! their actions, spawn ids and times. It also has a rule for each error. [`argument_rules`] states
//! that the reader of `exp_match` follows the rules.
//!
//! `specs/FlagRules` and [`flag_rules`] do the same for the flags of `spawn`, `send`, `close`,
//! `wait`, `match_max`, `remove_nulls`, `exp_continue` and `send_user`, and the reader of
//! `expect_core`. `specs/ModeRules` and [`mode_rules`] do the same for the words that set a
//! terminal's modes, and the reader of `tty`.
//!
//! [`patterns_are_read`] states that `regex` parses the text of each regular pattern of
//! `exp_match`.
#![tactic(auto)]

mod laws;

pub use laws::{argument_rules, flag_rules, mode_rules, patterns_are_read};
