//! Merges the records of several workers into one, as they come.
//!
//! Each worker puts what its hall took into a ring. From time to time it also puts that no later
//! item is earlier than a moment ([`LogItem`]). A [`Merger`] passes on the events that no later
//! item of any worker can precede, in order of moments, then of workers.
#![tactic(auto)]

mod merger;
mod numbering;
mod recorder;
mod reel;

pub use merger::Merger;
pub use numbering::WorkerIndex;
pub use recorder::{NoRecorder, Recorder};
pub use reel::Reel;
