//! The patterns of an `expect` command: how its arguments write them, and which one matches first,
//! as in expect(1). Regular patterns also serve other commands: `Compiled` compiles them, and a
//! `Searcher` finds their matches.
//!
//! `specs/Arguments.antt` defines how arguments are read. `specs/Grammar.antt` defines which texts
//! are regular patterns, and `specs/Translation.antt` the text that `regex` gets for one.
//! `specs/Written.antt` defines what a regular pattern finds, and `specs/Choice.antt` which pattern
//! is chosen.
#![tactic(auto)]

mod arguments;
mod choose;
mod chosen;
mod class;
mod compiled;
mod count;
mod entry;
mod escapes;
mod exact;
mod faults;
mod grammar;
mod list;
mod matcher;
mod matchers;
mod pending;
mod places;
mod reach;
mod readers;
mod regular;
mod token;
mod translation;

pub use chosen::{Chosen, Picked};
pub use compiled::Compiled;
pub use entry::{Entries, Entry, Keyword, Want};
pub use faults::{PatternFault, RegularFault};
pub use grammar::pattern_rules;
pub use list::PatternList;
pub use matcher::{Searcher, Spans};
pub use matchers::Matchers;
pub use regular::Regular;
