//! The syntax of a Tcl subset: commands with their words and parts, operands of expressions,
//! escapes and lists.
//!
//! Texts are bytes. `Commands`, `Operands`, `Backslash` and `Lists` in `specs/` define how they are
//! read. `ListRules` gives the rules of lists.
#![tactic(auto)]

mod bytes;
mod commands;
mod escapes;
mod faults;
mod lists;
mod operands;
mod packed;
mod places;
mod reading;
mod scan;
mod shapes;
mod skip;
mod stop;
mod token;
mod writing;

pub use bytes::{Text, Texts, copied_texts};
pub use commands::next_command;
pub use escapes::{backslash, blanks, digit};
pub use faults::{ListFault, WordFault};
pub use lists::{is_white, read_list};
pub use operands::operand;
pub use packed::Packed;
pub use reading::{text_parts, texts_have_no_script};
pub use scan::{ends_command, is_blank, is_continued};
pub use shapes::{Command, Part, Word, copied_part, copied_parts};
pub use writing::{list_is_command, list_rules, one_list, stands_bare, write_behind, write_list};
