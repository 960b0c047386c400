//! The record of one worker, taken from its ring.

ghost use Rattle.std.specs.Prelude.{◌≡◌, ◌++◌, [], OnOk};
ghost use Rattle.feed_rings.specs.Ends.{put_items, taken_items, IsPair, LooksOn, SameOut};
ghost use Rattle.child_hands.specs.Record.{events_at, moment_at};
ghost use Rattle.run_records.specs.Merged.{TakesOn, TakesFirst, Moves, IsFresh};

use crate::numbering::{WorkerIndex, moment, renumbered};
use child_events::{HallEvent, HallEvents};
use child_hands::LogItem;
use feed_rings::{FeedIn, FeedOut};
use std::alloc::{AllocError, Global};
use std::collections::VecDeque;

/// The most items that one turn takes from a ring.
const ROUND: u32 = 1_024;

/// The taking endpoint of a worker's ring, and the events that were taken but not yet passed on.
#[derive(Drop)]
pub struct Reel {
    pub(crate) out: FeedOut<LogItem>,
    pub(crate) held: VecDeque<HallEvent>,
    /// The moment of the last item taken, in milliseconds.
    pub(crate) since: u64,
}

/// Returns the moment of an item, in milliseconds.
fn item_moment(item: &LogItem) -> u64
    ensures { result ≡ moment_at item.now }
{
    match item {
        LogItem::Event(event) => moment(event),
        LogItem::Still(moment) => *moment,
    }
}

impl Reel {
    /// Creates a reel of a ring from which nothing was taken.
    pub fn new(alloc: Global, out: FeedOut<LogItem>) -> Reel
        requires { taken_items out ≡ [] }
        ensures out { result.out ≡ out }
        ensures fresh { IsFresh result }
    {
        Reel {
            out,
            held: VecDeque::new(alloc),
            since: 0,
        }
    }

    /// Holds the event of an item, if it is one.
    fn hold(&mut self, item: LogItem) -> Result<(), AllocError>
        ensures out { self.new.out ≡ self.old.out }
        ensures held { OnOk result (self.new.held.items ≡ self.old.held.items ++ events_at item) }
        ensures since { OnOk result (self.new.since ≡ moment_at item) }
    {
        self.since = item_moment(&item);
        match item {
            LogItem::Event(event) => {
                self.held.push_back(event)?;
            }
            LogItem::Still(_) => {}
        }
        Ok(())
    }

    /// Takes items, up to a limit. Returns whether there was one.
    pub(crate) fn take_some(&mut self) -> Result<bool, AllocError>
        ensures ring { SameOut self.old.out self.new.out }
        ensures takes { OnOk result (TakesOn self.old self.new) }
    {
        for turn in 0..ROUND {
            let Some(item) = self.out.take() else {
                return Ok(turn > 0);
            };
            self.hold(item)?;
        }
        Ok(true)
    }

    /// Takes items, up to a limit, and drops them. Returns whether there was one.
    pub(crate) fn drop_some(&mut self) -> bool
        ensures ring { SameOut self.old.out self.new.out }
    {
        for turn in 0..ROUND {
            if self.out.take().is_none() {
                return turn > 0;
            }
        }
        true
    }

    /// Takes what is left. `log` is the putting endpoint of the ring.
    pub(crate) fn take_rest(&mut self, log: &mut FeedIn<LogItem>) -> Result<(), AllocError>
        requires pair { IsPair log.old self.old.out }
        ensures ring { SameOut self.old.out self.new.out }
        ensures log { LooksOn log.old log.new }
        ensures takes { OnOk result (TakesOn self.old self.new) }
        ensures rest { OnOk result (taken_items self.new.out ≡ put_items log.old) }
    {
        let count = self.out.left_beside(log);
        for _ in 0..count {
            let item = self.out.take_seen();
            self.hold(item)?;
        }
        Ok(())
    }

    /// Takes the first held event, if it is before a moment.
    fn next_before(&mut self, bound: u64) -> Option<HallEvent>
        ensures { TakesFirst bound self.old self.new result }
    {
        match self.held.front() {
            Some(event) if moment(event) < bound => self.held.pop_front(),
            _ => None,
        }
    }

    /// Moves the held events at the front that are before a moment to the end of `all`. Scripts get
    /// their numbers among all.
    #[tactic(auto, using(crate::proofs::Parting::moves_none, crate::proofs::Parting::moves_all))]
    pub(crate) fn move_before(
        &mut self,
        bound: u64,
        index: WorkerIndex,
        all: &mut HallEvents,
    ) -> Result<(), AllocError>
        ensures out { (self.new.out ≡ self.old.out) }
        ensures moves { OnOk result (Moves bound index.workers index.worker self.old all.old self.new all.new) }
    {
        for _ in 0..self.held.len() {
            let Some(event) = self.next_before(bound) else {
                return Ok(());
            };
            all.push(renumbered(index.workers, index.worker, event))?;
        }
        Ok(())
    }
}
