//! The commands on lists. Also the text that `eval` and `expr` make of their arguments.
#![tactic(auto)]

mod editing;
mod joining;
mod lists;
mod searching;
mod sorting;
mod splitting;

pub use editing::{lassign, linsert, lrepeat, lreplace, lreverse, lset};
pub use joining::{concat, eval_text, expr_text};
pub use lists::{lindex, list, llength, lrange};
pub use searching::lsearch;
pub use sorting::lsort;
pub use splitting::{join, some_parts, split};
