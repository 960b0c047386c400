//! Tables of texts in CSV (RFC 4180): the names of the columns in the first record, and a row of as
//! many values in each later one.
#![tactic(auto)]

mod records;
mod table;

pub use table::{TableFault, read_table};
