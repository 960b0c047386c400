//! The two ends of a ring between two threads. No call in this module waits.

ghost use Rattle.std.specs.Prelude.{◌≡◌, ◌+◌, ◌<◌, ◌≤◌, ◌↔◌, [], ◌∷◌, ◌++◌, length, IsOk, IsSome, IsTrue, OnOk, IfOk, IfErr, IfSome, IfNone, false};
ghost use mathlib.Core.List.{IsPrefix};
ghost use Rattle.feed_rings.specs.Ends.{put_items, room, taken_items, seen_items, all_put, IsPair, SameIn, SameOut, EndsRingOf, IsFinishedOf, LooksOn};

use crate::bell::{Bell, Ringer};
use rtrb::{Consumer, Producer, PushError, RingBuffer};
use std::alloc::{AllocError, Global};

/// The end of a ring into which one thread puts items.
///
/// It rings the taking thread at each put, and when it finishes or is dropped.
#[derive(Drop)]
pub struct FeedIn<T: Drop> {
    producer: Producer<T>,
    taker: Ringer,
}

/// The end of a ring from which one thread takes items.
///
/// It rings the putting thread when an item leaves a full ring, and when it is dropped.
#[derive(Drop)]
pub struct FeedOut<T: Drop> {
    consumer: Consumer<T>,
    putter: Ringer,
}

/// All items that were ever put into a ring whose putting end has finished.
#[derive(Drop)]
pub struct Finished<T: Drop> {
    ring: rtrb::Finished<T>,
}

/// Creates a ring with room for n items. Its two ends connect the thread of one bell to that of the
/// other.
pub fn feed_pair<T: Drop>(
    alloc: Global,
    n: usize,
    from: &Bell,
    to: &Bell,
) -> Result<(FeedIn<T>, FeedOut<T>), AllocError>
    ensures pair { IfOk result (λ r. IsPair r.0 r.1) }
    ensures empty { IfOk result (λ r. (put_items r.0 ≡ []) × (taken_items r.1 ≡ []) × (room r.0 ≡ n)) }
{
    let taker = to.ringer()?;
    let putter = from.ringer()?;
    let (producer, consumer) = RingBuffer::new(alloc, n)?;
    Ok((FeedIn { producer, taker }, FeedOut { consumer, putter }))
}

impl<T: Drop> FeedIn<T> {
    /// Puts an item. Returns the item as an error if the ring looks full.
    pub fn put(&mut self, item: T) -> Result<(), T>
        ensures ring { SameIn self.old self.new }
        ensures ok { OnOk result ((put_items self.new ≡ put_items self.old ++ item ∷ []) × (room self.old ≤ room self.new + 1)) }
        ensures full { IfErr result (λ back. (back ≡ item) × (put_items self.new ≡ put_items self.old)) }
        ensures succeeds { 0 < room self.old → IsOk result }
    {
        let outcome = match self.producer.push(item) {
            Ok(()) => Ok(()),
            Err(PushError::Full(back)) => Err(back),
        };
        self.taker.ring();
        outcome
    }

    /// Returns whether there is room for an item. No other thread can use up this room.
    pub fn has_room(&mut self) -> bool
        ensures looks { LooksOn self.old self.new }
        ensures room { IsTrue result ↔ (0 < room self.new) }
    {
        self.producer.slots() > 0
    }

    /// Returns whether the taking end is gone, so that no thread takes later items. The contract
    /// says nothing about the result.
    pub fn is_left(&mut self) -> bool
        ensures { LooksOn self.old self.new }
    {
        self.producer.is_abandoned()
    }

    /// Ends this end of the ring and returns the list of all items put. `None` if the taking end is
    /// gone.
    pub fn finish(self) -> Option<Finished<T>>
        ensures ring { IfSome result (λ f. EndsRingOf self f) }
        ensures items { IfSome result (λ f. all_put f ≡ put_items self) }
    {
        let FeedIn {
            producer,
            taker: _taker,
        } = self;
        let ring = producer.finish()?;
        Some(Finished { ring })
    }
}

impl<T: Drop> FeedOut<T> {
    /// Takes the oldest item. `None` if the ring looks empty.
    pub fn take(&mut self) -> Option<T>
        ensures ring { SameOut self.old self.new }
        ensures some { IfSome result (λ x. (taken_items self.new ≡ taken_items self.old ++ x ∷ []) × IsPrefix (seen_items self.old) (x ∷ seen_items self.new)) }
        ensures none { IfNone result (taken_items self.new ≡ taken_items self.old) }
        ensures succeeds { 0 < length (seen_items self.old) → IsSome result }
    {
        let Ok(item) = self.consumer.pop() else {
            return None;
        };
        self.ring_if_full();
        Some(item)
    }

    /// Returns whether the ring looks empty. An item that was seen stays until it is taken.
    pub fn is_empty(&mut self) -> bool
        ensures ring { SameOut self.old self.new }
        ensures taken { taken_items self.new ≡ taken_items self.old }
        ensures seen { IsPrefix (seen_items self.old) (seen_items self.new) }
        ensures found { result ≡ false → 0 < length (seen_items self.new) }
    {
        self.consumer.slots() == 0
    }

    /// Rings the putting thread if the ring was full until an item was taken.
    ///
    /// The check must follow the take. A thread that found the ring full has then put every item
    /// that this check can miss.
    fn ring_if_full(&mut self)
        ensures ring { SameOut self.old self.new }
        ensures taken { taken_items self.new ≡ taken_items self.old }
        ensures seen { IsPrefix (seen_items self.old) (seen_items self.new) }
    {
        if self.consumer.slots() + 1 >= self.consumer.capacity() {
            self.putter.ring();
        }
    }

    /// Returns the number of items left after the putting end has finished. The items taken and
    /// these are all items put.
    pub fn left(&mut self, finished: &mut Finished<T>) -> usize
        requires { IsFinishedOf finished.old self.old }
        ensures ring { SameOut self.old self.new }
        ensures finished { IsFinishedOf finished.new self.new × (all_put finished.new ≡ all_put finished.old) }
        ensures taken { taken_items self.new ≡ taken_items self.old }
        ensures all { taken_items self.new ++ seen_items self.new ≡ all_put finished.old }
        ensures count { result ≡ length (seen_items self.new) }
    {
        self.consumer.slots_after(&mut finished.ring)
    }

    /// Returns the number of items left, given both ends. The items taken and these are all items
    /// put.
    pub fn left_beside(&mut self, feed: &mut FeedIn<T>) -> usize
        requires { IsPair feed.old self.old }
        ensures ring { SameOut self.old self.new }
        ensures feed { LooksOn feed.old feed.new }
        ensures taken { taken_items self.new ≡ taken_items self.old }
        ensures all { taken_items self.new ++ seen_items self.new ≡ put_items feed.old }
        ensures count { result ≡ length (seen_items self.new) }
    {
        self.consumer.slots_beside(&mut feed.producer)
    }

    /// Takes an item that is sure to be there. It rings no thread, so use it only on a ring without
    /// further puts.
    pub fn take_seen(&mut self) -> T
        requires { 0 < length (seen_items self.old) }
        ensures ring { SameOut self.old self.new }
        ensures taken { taken_items self.new ≡ taken_items self.old ++ result ∷ [] }
        ensures seen { seen_items self.old ≡ result ∷ seen_items self.new }
    {
        self.consumer.pop_known()
    }
}
