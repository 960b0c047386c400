//! Many scripts over one list of events. Each script sees only its own events and the ticks.
#![tactic(auto)]

mod fault;
mod hall;
mod laws;
mod refusal;
mod reports;
mod run;
mod script;
mod shares;

pub use fault::{MOST_SCRIPTS, opening_fault};
pub use hall::{Hall, HallFault};
pub use laws::{hall_law, limits, raised_moments, ticks};
pub use refusal::HallRefusal;
pub use reports::Reports;
pub use run::{LogRunFault, RunFault, isolation, run_all, run_log};
pub use script::Script;
