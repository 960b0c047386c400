//! Events of the children of scripts, the world that a script knows by them, and the log of events.
#![tactic(auto)]

mod child_numbers;
mod counted;
mod digits;
mod event;
mod faults;
mod fields;
mod hall_events;
mod judging;
mod line;
mod log_lines;
mod log_reader;
mod next;
mod piece_line;
mod queue;
mod reading;
mod slot;
mod version;
mod world;
mod writing;

pub use child_numbers::ChildNumbers;
pub use counted::Counted;
pub use event::{Answer, Cause, Event, HallEvent, Item, What, own_event};
pub use faults::LogFault;
pub use hall_events::HallEvents;
pub use log_lines::LogLines;
pub use log_reader::LogReader;
pub use next::{pick, pick_law};
pub use queue::Queue;
pub use reading::{log_laws, read_log};
pub use world::{later, world_law};
pub use writing::{cause_name, fits, push_heading, push_lines, push_total, write_log};
