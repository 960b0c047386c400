//! Enters events: the hall takes them, and the record gets them.

ghost use Rattle.std.specs.Prelude.{◌≡◌, [], length, IsTrue, true, None};
ghost use Rattle.dialogue_sched.specs.Refusal.{refusal_of};
ghost use Rattle.feed_rings.specs.Ends.{put_items};
ghost use Rattle.child_desk.specs.Book.{Enters, HasRoom, IsRecord, Looks, logged};

use crate::book::Book;
use child_events::HallEvent;
use child_hands::LogItem;
use dialogue_sched::Hall;
use feed_rings::{Bell, FeedIn, await_room};
use std::sync::Wait;

impl Book {
    /// Creates a book of a new hall and the ring of its record. Requires that nothing was put into
    /// it.
    pub fn new(hall: Hall, log: FeedIn<LogItem>) -> Book
        requires { put_items log ≡ [] }
        ensures hall { result.hall ≡ hall }
        ensures log { result.log ≡ log }
        ensures record { IsRecord result }
    {
        Book {
            hall,
            log,
            stamp: 0,
        }
    }

    /// Returns whether there is room for an entry.
    pub fn has_room(&mut self) -> bool
        ensures looks { Looks self.old self.new }
        ensures room { IsTrue result → HasRoom self.new }
    {
        self.log.has_room()
    }

    /// Waits until there is room for an entry. Returns false if nobody takes the record any more.
    pub fn await_room<R: Wait>(&mut self, rt: &R, bell: &Bell) -> bool
        ensures looks { Looks self.old self.new }
        ensures room { IsTrue result → HasRoom self.new }
    {
        await_room(rt, bell, &mut self.log)
    }
}

/// Passes the copy of an event to the hall, and records the event. Returns whether the hall took
/// it. A refused event changes nothing.
pub fn enter(book: &mut Book, event: HallEvent, copy: HallEvent) -> bool
    requires same { copy ≡ event }
    requires room { HasRoom book.old }
    ensures { Enters event result book.old book.new }
{
    if book.hall.step(copy).is_err() {
        return false;
    }
    let Ok(()) = book.log.put(LogItem::Event(event)) else {
        unreachable!()
    };
    true
}

/// Passes the copy of an event to the hall, and records the event. Requires that the hall takes it.
pub fn enter_taken(book: &mut Book, entry: HallEvent, copy: HallEvent)
    requires same { copy ≡ entry }
    requires room { HasRoom book.old }
    requires taken { refusal_of (length book.old.hall) entry ≡ None }
    ensures { Enters entry true book.old book.new }
{
    let Ok(()) = book.hall.step(copy) else {
        unreachable!()
    };
    let Ok(()) = book.log.put(LogItem::Event(entry)) else {
        unreachable!()
    };
}
