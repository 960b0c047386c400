//! Runs, replays, plans and checks scripts, from readers to writers.
//!
//! [`replay`] runs scripts over a log, and [`drive`] over children. Both pass transcripts to a
//! [`Shelf`] and write reports. [`plan_log`] writes a log for a script. [`check_source`] writes
//! what is wrong in a source. [`clocks`] print progress while scripts run. `specs/Replay`,
//! `specs/Drive`, `specs/Planning` and `specs/Check` define what these functions write.
#![tactic(auto)]

mod alone;
mod checking;
mod driving;
mod early;
mod fault;
mod following;
mod labelling;
mod laws;
mod log_writer;
mod logging;
mod planning;
mod progress;
mod record;
mod replaying;
mod shelf;
mod teller;
mod telling;
mod voice;

pub use alone::{Played, Player};
pub use checking::{CheckFault, check_source};
pub use driving::{DriveFault, Written, drive, drive_early};
pub use early::{Early, Told};
pub use fault::ReplayFault;
pub use following::Follower;
pub use laws::run_is_replay;
pub use log_writer::LogWriteFault;
pub use planning::{PlanLogFault, plan_log};
pub use record::Record;
pub use replaying::{replay, reports_read};
pub use shelf::{NoShelf, Shelf};
pub use telling::{Telling, clocks};
