//! The places of a script's children, and the result of a hand.

ghost use Rattle.std.specs.Prelude.{◌≡◌, [], length};
ghost use Rattle.feed_rings.specs.Ends.{put_items};

use crate::reader::Reads;
use crate::{Keeper, RingItem};
use feed_rings::{Bell, FeedIn, FeedOut, Finished};
use std::thread::PromisedHandle;

/// The ring end of a child without a reader, with the reader's bell.
#[derive(Drop)]
pub struct Fresh<K: Keeper> {
    /// The putting end of the child's ring.
    pub feed: FeedIn<RingItem<K>>,
    /// The bell that the ring was made to put from.
    pub bell: Bell,
    pub ghost empty: { length (put_items feed) ≡ 0 },
}

impl<K: Keeper> Fresh<K> {
    /// Wraps a ring end into which nothing was put yet.
    pub fn new(feed: FeedIn<RingItem<K>>, bell: Bell) -> Self
        requires { put_items feed ≡ [] }
        ensures { result.feed ≡ feed }
    {
        Fresh { feed, bell }
    }
}

/// The place of a child.
#[derive(Drop)]
pub enum Work<K: Keeper> {
    /// The child has no reader yet.
    Free(Fresh<K>),
    /// The items that the child's reader put, if they are available. `None` while it reads.
    Ended(Option<Finished<RingItem<K>>>),
}

/// A running reader, and the index of its child, from 0.
#[derive(Drop)]
pub struct Reader<K: Keeper> {
    pub index: usize,
    pub handle: PromisedHandle<Option<Finished<RingItem<K>>>, Reads<K>>,
}

/// Why a hand has ended.
#[derive(Clone, Copy, PartialEq, Eq)]
pub enum Outcome {
    /// It took `Stop`.
    Stopped,
    /// Its keeper has made the most calls possible.
    Exhausted,
    /// The ring for its answers is full, and has no taking end.
    Left,
}

/// The result of a hand.
#[derive(Drop)]
pub struct HandEnd<K: Keeper> {
    /// The place of each child, from child 1 on.
    pub works: Vec<Work<K>>,
    /// All answers that were put, if they are available.
    pub answers: Option<Finished<RingItem<K>>>,
    /// The end from which requests were taken.
    pub asks: FeedOut<RingItem<K>>,
    /// Why the hand has ended.
    pub outcome: Outcome,
    /// The number of requests that were carried out although the gate refused them.
    pub forced: u64,
}
