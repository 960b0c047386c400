//! Waits for room in a ring, or for an item.
//!
//! A thread spins once, checks again, and then rests on its bell until the other thread rings.

ghost use Rattle.std.specs.Prelude.{◌≡◌, [], ◌∷◌, ◌++◌, ◌<◌, IsTrue, MatchBool};
ghost use Rattle.feed_rings.specs.Ends.{put_items, room, taken_items, SameIn, SameOut, LooksOn};

use crate::bell::Bell;
use crate::feed::{FeedIn, FeedOut};
use crossbeam_utils::Backoff;
use std::sync::Wait;

/// Waits until the ring has room. Returns false if the taking end is gone and the ring is full,
/// which then stays so.
///
/// `bell` must be the bell that the ring was made to put from.
pub fn await_room<T: Drop, R: Wait>(rt: &R, bell: &Bell, feed: &mut FeedIn<T>) -> bool
    ensures looks { LooksOn feed.old feed.new }
    ensures room { MatchBool result (0 < room feed.new) (room feed.new ≡ 0) }
{
    if feed.has_room() {
        return true;
    }
    Backoff::new().spin();
    for _ in rt.forever() {
        let left = feed.is_left();
        if feed.has_room() {
            return true;
        }
        if left {
            return false;
        }
        bell.rest(rt);
    }
    unreachable!()
}

/// Puts an item as soon as the ring has room. Returns false, without putting it, if the taking end
/// is gone and the ring is full.
pub fn put_waiting<T: Drop, R: Wait>(rt: &R, bell: &Bell, feed: &mut FeedIn<T>, item: T) -> bool
    ensures ring { SameIn feed.old feed.new }
    ensures put { MatchBool result (put_items feed.new ≡ put_items feed.old ++ item ∷ []) ((put_items feed.new ≡ put_items feed.old) × (room feed.new ≡ 0)) }
    ensures succeeds { 0 < room feed.old → IsTrue result }
{
    await_room(rt, bell, feed) && feed.put(item).is_ok()
}

/// Takes the oldest item, waiting until there is one. `bell` must be the bell that the ring was
/// made to take to.
pub fn take_waiting<T: Drop, R: Wait>(rt: &R, bell: &Bell, out: &mut FeedOut<T>) -> T
    ensures ring { SameOut out.old out.new }
    ensures taken { taken_items out.new ≡ taken_items out.old ++ result ∷ [] }
{
    if let Some(first) = out.take() {
        return first;
    }
    Backoff::new().spin();
    for _ in rt.forever() {
        if let Some(item) = out.take() {
            return item;
        }
        bell.rest(rt);
    }
    unreachable!()
}
