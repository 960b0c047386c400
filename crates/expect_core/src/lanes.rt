//! What came to a script from its children and was not taken yet.

ghost use Rattle.std.specs.Prelude.{◌≡◌, [], IfOk, OnOk};
ghost use Rattle.child_events.specs.Queue.{with_echo};
ghost use Rattle.expect_core.specs.Answered.{first_answer, first_item};
ghost use Rattle.expect_core.specs.Good.{ItemsBy, LanesBy};
ghost use Rattle.expect_core.specs.Heard.{head_of};
ghost use Rattle.expect_core.specs.Hearing.{TakesFrom};
ghost use Rattle.expect_core.specs.Lanes.{no_lane, no_lanes, lane_of, with_items, with_answers, with_item, lane_with, grown, untaken_of, place as place_of};

use crate::answers::{Answers, is_within};
use crate::listen::{Times, take_item};
use crate::place::{MOST_CHILDREN, Place};
use child_events::{Answer, Item, Queue, What};
use std::alloc::{AllocError, Global};
use std::marker::Model;

/// What came from one child and was not taken yet.
#[derive(Drop)]
pub struct Lane {
    /// Its output, the end of it or a read failure, and the echo of what was sent to it.
    pub items: Queue,
    /// The answers to requests to it.
    pub answers: Answers,
    /// Whether its output ended or reading it failed. Later items are dropped.
    pub over: bool,
}

impl Lane {
    /// Creates an empty lane without allocating.
    fn new(alloc: Global) -> Lane
        ensures { result ≡ no_lane }
    {
        Lane {
            items: Queue::new(alloc),
            answers: Answers::new(alloc),
            over: false,
        }
    }

    /// Appends an item. `ends` says whether it is the last. After the last item it does nothing.
    #[tactic(auto, using(crate::proofs::Pushing::pushed_behind))]
    fn push(&mut self, moment: u64, item: Item, ends: bool) -> Result<(), AllocError>
        ensures { ItemsBy moment self.old.items → OnOk result (self.new ≡ with_item moment item ends self.old) }
    {
        if self.over {
            return Ok(());
        }
        self.items.push(moment, item)?;
        self.over = ends;
        Ok(())
    }

    /// Adds what an event brings. The moment must not be before an earlier one.
    fn add(&mut self, moment: u64, what: What) -> Result<(), AllocError>
        ensures { ItemsBy moment self.old.items → OnOk result (self.new ≡ lane_with moment what self.old) }
    {
        match what {
            What::Out(piece) => self.push(moment, Item::Out(piece), false),
            What::Eof => self.push(moment, Item::Eof, true),
            What::ReadFail(cause) => self.push(moment, Item::ReadFail(cause), true),
            What::Answer(answer) => self.answers.push(moment, answer),
        }
    }
}

/// The lanes of children 1 to 16. A contract sees a list.
#[derive(Drop)]
pub struct Lanes {
    pub(crate) list: Vec<Lane>,
}

impl Model for Lanes {
    ghost use Rattle.std.specs.Prelude.{List};
    ghost use Rattle.expect_core.specs.declared.lanes.Lane.{Lane};

    ghost Value = { List Lane };

    ghost view = { λ t. t.list.items };
}

/// Takes the first item, if its moment is no later than `limit`.
fn take_first(items: &mut Queue, limit: Option<u64>) -> Option<(u64, Item)>
    ensures { first_item limit items.old ≡ (result, items.new) }
{
    let (moment, _) = items.peek()?;
    if is_within(moment, limit) {
        items.next()
    } else {
        None
    }
}

/// Returns the index of a child's lane. The child is numbered from 1. Number 0 has no lane.
pub(crate) fn place(child: u16) -> usize
    ensures { result ≡ place_of child }
{
    if child == 0 {
        MOST_CHILDREN
    } else {
        usize::from(child - 1)
    }
}

impl Lanes {
    /// Creates 16 empty lanes.
    #[tactic(auto, unfolding(crate::specs::Lanes::no_lanes))]
    pub(crate) fn new(alloc: Global) -> Result<Lanes, AllocError>
        ensures { IfOk result (λ l. l ≡ no_lanes) }
    {
        let mut list = Vec::new(alloc);
        for _ in 0..MOST_CHILDREN {
            list.push(Lane::new(alloc))?;
        }
        Ok(Lanes { list })
    }

    /// Adds what an event of a child brings. The moment must not be before an earlier one.
    #[tactic(auto, using(crate::proofs::Moments::items_by))]
    pub(crate) fn add(&mut self, child: u16, moment: u64, what: What) -> Result<(), AllocError>
        ensures { LanesBy moment self.old → OnOk result (self.new ≡ grown (lane_with moment what) (place_of child) self.old) }
    {
        let at = place(child);
        if at < self.list.len() {
            let lane = &mut self.list[at];
            lane.add(moment, what)?;
        }
        Ok(())
    }

    /// Returns the number of items from a child that were not taken yet. Echoes don't count.
    pub(crate) fn untaken(&self, child: u8) -> usize
        ensures { result ≡ untaken_of child self.now }
    {
        let at = place(u16::from(child));
        if at < self.list.len() {
            return self.list[at].items.count_came();
        }
        0
    }

    /// Takes the first answer of a child, if its moment is no later than `limit`.
    pub(crate) fn take_answer(&mut self, i: Place, limit: Option<u64>) -> Option<(u64, Answer)>
        ensures taken { result ≡ (first_answer limit (lane_of i self.old).answers).0 }
        ensures left { self.new ≡ with_answers i (first_answer limit (lane_of i self.old).answers).1 self.old }
    {
        let i = i.index();
        if i < self.list.len() {
            let lane = &mut self.list[i];
            return lane.answers.take(limit);
        }
        None
    }

    /// Takes the first item of a child, if its moment is no later than `limit`.
    pub(crate) fn take_first(&mut self, i: Place, limit: Option<u64>) -> Option<(u64, Item)>
        ensures taken { result ≡ (first_item limit (lane_of i self.old).items).0 }
        ensures left { self.new ≡ with_items i (first_item limit (lane_of i self.old).items).1 self.old }
    {
        let i = i.index();
        if i < self.list.len() {
            let lane = &mut self.list[i];
            return take_first(&mut lane.items, limit);
        }
        None
    }

    /// Returns the moment of a child's first item, or `None`.
    pub(crate) fn head(&self, i: Place) -> Option<u64>
        ensures { result ≡ head_of (lane_of i self.now).items }
    {
        let i = i.index();
        if i < self.list.len() {
            let (moment, _) = self.list[i].items.peek()?;
            return Some(moment);
        }
        None
    }

    /// Takes the first item of a child, if it is in time.
    pub(crate) fn take_item(
        &mut self,
        i: Place,
        times: Times,
        deadline: Option<u128>,
    ) -> Option<(u64, Item)>
        ensures { TakesFrom times deadline i self.old result self.new }
    {
        let i = i.index();
        if i < self.list.len() {
            let lane = &mut self.list[i];
            return take_item(&mut lane.items, times, deadline);
        }
        None
    }

    /// Adds the echo of what was sent to a child to its items.
    pub(crate) fn echo(&mut self, i: Place, moment: u64, bytes: &[u8]) -> Result<(), AllocError>
        ensures { OnOk result (self.new ≡ with_items i (with_echo moment bytes.now (lane_of i self.old).items) self.old) }
    {
        let i = i.index();
        if i < self.list.len() {
            let lane = &mut self.list[i];
            lane.items.insert_echo(moment, bytes)?;
        }
        Ok(())
    }
}
