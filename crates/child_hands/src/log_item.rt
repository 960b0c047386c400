//! The items of a worker's record.

use child_events::HallEvent;

/// An item that a worker puts into the ring of its record.
#[derive(Drop)]
pub enum LogItem {
    /// An event that the worker's hall took.
    Event(HallEvent),
    /// No later event has an earlier moment than this.
    Still(u64),
}
