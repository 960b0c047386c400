//! The results of commands: values, codes and the texts of errors. Also what several commands read
//! in the same way: arguments, flags, indexes and patterns.
#![tactic(auto)]

mod cases;
mod code;
mod complaint;
pub mod front;
pub mod given;
pub mod indices;
mod outcomes;
pub mod parts;
mod sets;
pub mod setting;
pub mod switches;
mod texts;
mod values;
mod ways;
mod white;

pub use cases::{are_same, lower, order};
pub use code::{Carried, Code, script_code};
pub use complaint::Complaint;
pub use outcomes::{error, said, told, wrong_call};
pub use sets::ByteSet;
pub use texts::{
    bad_flag, bad_format, bad_index, bad_list, bad_option, bad_regular, expected_number,
    expr_fault, is_missing, no_list, no_package, not_read, not_set, not_unset, over_limit, quoted,
    too_deep, too_long, version_conflict, word_fault, wrong, wrong_args,
};
pub use values::{
    as_number, bit_text, count_text, extend_limited, is_too_long, limited, list_of, list_text,
    number_text, packed, place_text, texts_of,
};
pub use ways::{Way, finds, matches, no_match, pattern_of};
pub use white::{trimmed_end, trimmed_front, white_front};
