//! The table of commands: one row for each command of Tcl and Expect.
//!
//! A row says how many arguments a command takes, which flags it has, and how each argument is
//! read. The rows in `specs/Rows` follow the synopses of Tcl(n) and expect(1). The names are in
//! `specs/Commands`. `specs/Advice` says what to use instead of missing commands.
#![tactic(auto)]

mod advice;
mod commands;
mod counts;
mod flags;
mod options;
mod reading;
mod rows;
mod switches;

pub use advice::advice_for;
pub use commands::{
    Command, ExpectCommand, TclCommand, ValueCommand, command_of, expect_command, fixed_expect, is,
    is_redefinable, redefinable_command, takes_patterns, tcl_command,
};
pub use counts::{Count, fits};
pub use flags::{Flags, Own, Role, begins_with_minus, flag_role};
pub use options::{
    ArrayOption, ClockOption, FileOption, InfoOption, PackageOption, StringOption, array_count,
    array_option, clock_count, clock_option, file_count, file_option, info_count, info_option,
    option_count, option_switches, package_count, package_option, string_count, string_option,
};
pub use reading::{Kind, Stage, begin, is_short, step, texts};
pub use rows::{Row, expect_row, row_of, tcl_row, value_row};
pub use switches::{
    Switch, Switches, flags_needed, is_end, switch_of, takes_value, words_before, words_behind,
};
