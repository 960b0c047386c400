//! A hall with the ring of its record.

ghost use Rattle.std.specs.Prelude.{◌≤◌};

use child_hands::LogItem;
use dialogue_sched::Hall;
use feed_rings::FeedIn;

/// A hall, and the ring into which it puts the events that it took, in order.
#[derive(Drop)]
pub struct Book {
    /// The hall.
    pub hall: Hall,
    /// The ring of the record.
    pub log: FeedIn<LogItem>,
    /// The moment of the next events, in milliseconds.
    pub stamp: u64,
    pub ghost within: { stamp ≤ 9000000000000000 },
}
