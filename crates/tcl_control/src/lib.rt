//! The arguments of the commands that evaluate scripts: `if`, `switch`, `foreach`, `proc` and `exit`.
//! Also calls of procedures.
#![tactic(auto)]

mod arms;
mod calls;
mod choosing;
mod formals;
mod groups;
mod status;
mod verbs;

pub use arms::{Arms, arms_of};
pub use calls::enter;
pub use choosing::body_of_switch;
pub use formals::{Formal, Formals, formals_of};
pub use groups::{Groups, each_of};
pub use status::exit_status;
pub use verbs::{Verb, redefinable_verb, verb_of};
