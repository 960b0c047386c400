//! A script's endpoints of its rings.

ghost use Rattle.std.specs.Prelude.{◌≡◌, ◌≤◌, ◌++◌, [], ◌∷◌, None, OnOk, IfErr, is_some};
ghost use Rattle.feed_rings.specs.Ends.{taken_items, all_put, SameOut, IsFinishedOf};
ghost use Rattle.child_desk.specs.Told.{Asks, Stops, tells, told_of, heard_of_hand, asked_of_hand};
ghost use Rattle.child_desk.specs.Line.{TakesNone, IsFrontOf};

use crate::readers::{Readers, Taken, is_last};
use child_events::Answer;
use child_hands::{Answered, Keeper, RingItem};
use expect_core::{Act, Request};
use feed_rings::{FeedIn, FeedOut, Finished};
use std::alloc::{AllocError, Global};

/// A script's endpoints of its rings, and the counts of its children.
#[derive(Drop)]
pub struct Ends<K: Keeper> {
    /// To its hand.
    pub asks: FeedIn<RingItem<K>>,
    /// From its hand.
    pub answers: FeedOut<RingItem<K>>,
    /// From the readers of its children.
    pub readers: Readers<K>,
    /// The item that waits for room in the ring to the hand.
    pub ready: Option<RingItem<K>>,
    /// The greatest number of a child that a sent request starts.
    greatest: u8,
    /// The number of children that were started.
    started: u8,
    /// The number of children whose output has ended.
    ended: u8,
}

impl<K: Keeper> Ends<K> {
    /// Creates endpoints of new rings.
    pub fn new(
        asks: FeedIn<RingItem<K>>,
        answers: FeedOut<RingItem<K>>,
        readers: Readers<K>,
    ) -> Ends<K>
        ensures readers { result.readers ≡ readers }
        ensures answers { result.answers ≡ answers }
        ensures asks { result.asks ≡ asks }
        ensures ready { result.ready ≡ None }
    {
        Ends {
            asks,
            answers,
            readers,
            ready: None,
            greatest: 0,
            started: 0,
            ended: 0,
        }
    }

    /// Returns whether nothing waits for room, and the output of each started child has ended.
    pub(crate) fn is_quiet(&self) -> bool {
        self.ready.is_none() && self.ended >= self.started
    }

    /// Returns the greatest number of a child that a sent request starts, at most 16.
    pub(crate) fn children(&self) -> u8
        ensures { result ≤ 16 }
    {
        self.greatest.min(16)
    }

    /// Takes the next item of the hand. `None` if there is none, or it isn't an answer.
    pub(crate) fn next_answer(&mut self) -> Option<Answered<K>>
        ensures readers { self.new.readers ≡ self.old.readers }
        ensures ring { SameOut self.old.answers self.new.answers }
        ensures told { heard_of_hand self.new.answers ≡ heard_of_hand self.old.answers ++ told_of result }
        ensures asked { asked_of_hand self.new ≡ asked_of_hand self.old }
    {
        let item = self.answers.take()?;
        answered_in(item)
    }

    /// Returns whether an answer seems to have come.
    pub(crate) fn has_answer(&mut self) -> bool
        ensures readers { self.new.readers ≡ self.old.readers }
        ensures ring { SameOut self.old.answers self.new.answers }
        ensures taken { taken_items self.new.answers ≡ taken_items self.old.answers }
        ensures asked { asked_of_hand self.new ≡ asked_of_hand self.old }
    {
        !self.answers.is_empty()
    }

    /// Looks once more at the ring from the hand, which has finished it.
    pub(crate) fn close(&mut self, finished: Finished<RingItem<K>>)
        requires finished { IsFinishedOf finished self.old.answers }
        ensures readers { self.new.readers ≡ self.old.readers }
        ensures ring { SameOut self.old.answers self.new.answers }
        ensures taken { taken_items self.new.answers ≡ taken_items self.old.answers }
        ensures front { IsFrontOf (taken_items self.new.answers) (all_put finished) }
        ensures asked { asked_of_hand self.new ≡ asked_of_hand self.old }
    {
        let mut finished = finished;
        self.answers.left(&mut finished);
    }

    /// Counts an output as ended, if its last item was taken.
    pub(crate) fn count(&mut self, taken: &Taken)
        ensures rings { TakesNone self.old self.new }
        ensures asked { asked_of_hand self.new ≡ asked_of_hand self.old }
    {
        if is_last(taken) {
            self.ended = self.ended.saturating_add(1);
        }
    }

    /// Counts a child, if it was started.
    pub(crate) fn count_start(&mut self, started: bool)
        ensures rings { TakesNone self.old self.new }
        ensures asked { asked_of_hand self.new ≡ asked_of_hand self.old }
    {
        if started {
            self.started = self.started.saturating_add(1);
        }
    }

    /// Returns whether an item waits for room in the ring to the hand.
    pub(crate) fn is_waiting(&self) -> bool
        ensures { result ≡ is_some self.now.ready }
    {
        self.ready.is_some()
    }

    /// Makes a copy of a request ready for the hand. On `AllocError` nothing is made ready.
    pub(crate) fn send(&mut self, alloc: Global, request: &Request) -> Result<(), AllocError>
        requires { self.old.ready ≡ None }
        ensures rings { TakesNone self.old self.new }
        ensures asked { OnOk result (asked_of_hand self.new ≡ asked_of_hand self.old ++ Asks request.now ∷ []) }
        ensures refused { IfErr result (λ _. asked_of_hand self.new ≡ asked_of_hand self.old) }
    {
        let copy = request.copied(alloc)?;
        if let Act::Spawn(_) = &request.act {
            self.greatest = self.greatest.max(request.child);
        }
        self.ready = Some(RingItem::Ask(copy));
        Ok(())
    }

    /// Makes the stop ready for the hand, in place of an item that waits for room.
    pub(crate) fn stop(&mut self)
        ensures rings { TakesNone self.old self.new }
        ensures asked { self.old.ready ≡ None → asked_of_hand self.new ≡ asked_of_hand self.old ++ Stops ∷ [] }
    {
        self.ready = Some(RingItem::Stop);
    }

    /// Puts the item that waits for room. Returns whether it was put.
    pub(crate) fn flush(&mut self) -> bool
        ensures rings { TakesNone self.old self.new }
        ensures asked { asked_of_hand self.new ≡ asked_of_hand self.old }
    {
        let Some(item) = self.ready.take() else {
            return false;
        };
        match self.asks.put(item) {
            Ok(()) => true,
            Err(back) => {
                self.ready = Some(back);
                false
            }
        }
    }
}

/// Returns the answer, if an item is one.
fn answered_in<K: Keeper>(item: RingItem<K>) -> Option<Answered<K>>
    ensures { told_of result ≡ tells item }
{
    match item {
        RingItem::Answer { answered, .. } => Some(answered),
        _ => None,
    }
}

/// Returns whether an answer says that a child was started.
pub(crate) fn starts<K: Keeper>(answered: &Answered<K>) -> bool {
    match &answered.request.act {
        Act::Spawn(_) => answered.answer == Answer::Ok,
        _ => false,
    }
}
