//! The evaluation of scripts with any host.
//!
//! A [`Machine`] runs the commands of a script. It carries out commands of the language and calls
//! of procedures itself, and calls a [`tcl_host::Host`] for all other commands. If the host waits,
//! the machine pauses. It continues at the same place when it is run again.
//!
//! `specs/Meaning` defines the meaning of a script: a tree of the host's calls, with what follows
//! each reply.
#![tactic(auto)]

mod advance;
mod arms;
mod asking;
mod begun;
mod control;
mod engine;
mod evaluation;
mod exprs;
mod frame;
mod laws;
mod loops;
mod machine;
mod meter;
mod numbers;
mod out;
mod places;
mod procedure;
mod procs;
mod read_texts;
mod replies;
mod resuming;
mod scripts;
mod stop;
mod stops;
mod trail;
mod values;
mod words;

pub use frame::End;
pub use laws::loops_unroll;
pub use machine::{Machine, Pause};
pub use meter::Meter;
pub use tcl_results::{Carried, Code};
pub use trail::{Origin, Trail};
