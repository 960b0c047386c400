//! The commands `regexp` and `regsub`.
#![tactic(auto)]

mod inlining;
mod matches;
mod parens;
mod regexps;
mod replacing;
mod shown;

pub use regexps::regexp;
pub use replacing::regsub;
