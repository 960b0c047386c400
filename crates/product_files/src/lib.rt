//! The names of the files that a run writes: which of them clash, and how each file is written.
//!
//! Nothing here accesses the file system. [`clash`] finds two names that can't be used in one run.
//! [`way_to`] and [`page_way`] decide how a file is written, by the kind of file that has its name
//! now. [`part_name`] is the name of a file until it is complete.
#![tactic(auto)]

mod entry;
mod part;
mod way;

pub use entry::{Entry, Node, clash};
pub use part::part_name;
pub use way::{Found, Way, page_way, way_to};
