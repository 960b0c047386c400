//! A worker's desk.

ghost use Rattle.std.specs.Prelude.{◌≡◌, ◌≢◌, ◌<◌, ◌≤◌, ℕ, List, length, slice_get, IfOk, OnOk, IsTrue};
ghost use Rattle.child_events.specs.declared.event.HallEvent.{HallEvent};
ghost use Rattle.dialogue_sched.specs.Deadlines.{soonest};
ghost use Rattle.feed_rings.specs.Ends.{all_put};
ghost use Rattle.child_desk.specs.Book.{HasRoom, Looks, is_behind, logged};
ghost use Rattle.child_desk.specs.Line.{Leaves, KeepsAll, HearsNoHand, IsEndOf, IsFrontIn, AllOver, AllShown};
ghost use Rattle.child_desk.specs.Heard.{HearsAll, Settles, FinishedIn, TakenIn};
ghost use Rattle.child_desk.specs.Turn.{Turns, HearsHandIn, HasAskedIn};

use crate::attending::{attend_all, still, tick};
use crate::book::Book;
use crate::ends::Ends;
use crate::hearing::{has_come_to, settle_child};
use crate::line::ScriptState;
use child_events::HallEvent;
use child_hands::{Keeper, LogItem, RingItem};
use dialogue_sched::Reports;
use feed_rings::{Bell, FeedIn, Finished};
use std::alloc::{AllocError, Global};
use std::sync::Wait;

/// A worker's desk: a hall with its record, and each script's line and endpoints of rings.
#[derive(Drop)]
pub struct Desk<K: Keeper> {
    alloc: Global,
    /// The hall and the record.
    pub book: Book,
    /// The line of each script.
    pub lines: Vec<ScriptState>,
    /// The endpoints of each script's rings.
    pub ends: Vec<Ends<K>>,
}

/// The result of a desk: a report of each script, in order, and the ring of the record.
#[derive(Drop)]
pub struct Outcome {
    /// The reports.
    pub reports: Reports,
    /// The ring of the record.
    pub log: FeedIn<LogItem>,
}

impl<K: Keeper> Desk<K> {
    /// Creates a desk. The hall is new, and has a line and endpoints for each script.
    pub fn new(alloc: Global, book: Book, lines: Vec<ScriptState>, ends: Vec<Ends<K>>) -> Desk<K>
        ensures book { result.book ≡ book }
        ensures lines { result.lines.items ≡ lines.items }
        ensures ends { result.ends.items ≡ ends.items }
    {
        Desk {
            alloc,
            book,
            lines,
            ends,
        }
    }

    /// Waits until the record has room for an entry. Returns false if nobody takes the record any
    /// more.
    pub fn await_room<R: Wait>(&mut self, rt: &R, bell: &Bell) -> bool
        ensures lines { self.new.lines.items ≡ self.old.lines.items }
        ensures ends { self.new.ends.items ≡ self.old.ends.items }
        ensures book { Looks self.old.book self.new.book }
        ensures room { IsTrue result → HasRoom self.new.book }
    {
        self.book.await_room(rt, bell)
    }

    /// Takes a turn: a tick if the time went on, then each script's part. That takes at most one
    /// answer and the output of children, and sends the next request. Returns whether a script took
    /// or sent anything.
    pub fn turn(&mut self, now: u64) -> Result<bool, AllocError>
        requires lines { (length self.old.lines.items ≤ length self.old.book.hall) × (length self.old.book.hall ≤ 64) }
        requires room { HasRoom self.old.book }
        ensures kept { KeepsAll self.old.lines.items self.old.ends.items self.old.book self.new.lines.items self.new.ends.items self.new.book }
        ensures heard { HearsAll self.old.ends.items (logged self.old.book) self.new.ends.items (logged self.new.book) }
        ensures comes { Turns now self.old.book self.new.book }
        ensures entered { (at : ℕ) → HearsHandIn at self.old.lines.items self.old.ends.items self.old.book self.new.ends.items self.new.book }
        ensures asked { OnOk result ((at : ℕ) → HasAskedIn at self.new.lines.items self.new.ends.items self.new.book) }
    {
        tick(&mut self.book, now);
        attend_all(self.alloc, &mut self.book, &mut self.lines, &mut self.ends)
    }

    /// Records that no later event has an earlier moment, if the ring has room and the time went
    /// on. The hall takes no tick for it.
    pub fn still(&mut self, now: u64)
        ensures lines { self.new.lines.items ≡ self.old.lines.items }
        ensures ends { self.new.ends.items ≡ self.old.ends.items }
        ensures book { Leaves self.old.book self.new.book }
        ensures log { logged self.new.book ≡ logged self.old.book }
    {
        still(&mut self.book, now);
    }

    /// Returns whether anything seems to have come for a script.
    pub fn has_come(&mut self) -> bool
        ensures lines { self.new.lines.items ≡ self.old.lines.items }
        ensures book { self.new.book ≡ self.old.book }
        ensures heard { HearsAll self.old.ends.items (logged self.old.book) self.new.ends.items (logged self.new.book) }
        ensures hands { HearsNoHand self.old.ends.items self.new.ends.items }
    {
        for at in 0..self.ends.len() {
            let over = is_over(self.lines.as_slice(), at);
            if has_come_at(&self.book, over, &mut self.ends, at) {
                return true;
            }
        }
        false
    }

    /// Returns whether this moment is past the deadline of a script.
    pub fn is_due(&self, moment: u64) -> bool
        ensures { result ≡ is_behind moment (soonest self.now.book.hall) }
    {
        match self.book.hall.deadline() {
            Some(deadline) => moment > deadline,
            None => false,
        }
    }

    /// Returns whether nothing more can come: each script has ended, no request awaits its answer,
    /// and the output of each started child has ended.
    pub fn is_done(&self) -> bool
        ensures { IsTrue result → AllOver self.now.lines.items }
    {
        all_over(self.lines.as_slice()) && all_quiet(self.ends.as_slice())
    }

    /// Takes what is left in a child's ring, which its reader has finished. Waits for room in the
    /// record. `at` is the script's index, `index` the child's. Returns false if nobody takes the
    /// record any more.
    pub fn settle<R: Wait>(
        &mut self,
        rt: &R,
        bell: &Bell,
        at: usize,
        index: u8,
        finished: Finished<RingItem<K>>,
    ) -> Result<bool, AllocError>
        requires place { (at < length self.old.book.hall) × (at < 64) × (index < 16) }
        requires finished { FinishedIn at index finished self.old.ends.items }
        ensures lines { self.new.lines.items ≡ self.old.lines.items }
        ensures book { Leaves self.old.book self.new.book }
        ensures heard { Settles at index self.old.ends.items (logged self.old.book) self.new.ends.items (logged self.new.book) }
        ensures hands { HearsNoHand self.old.ends.items self.new.ends.items }
        ensures all { IfOk result (λ all. IsTrue all → TakenIn at index (all_put finished) self.new.ends.items) }
    {
        match self.ends.get_mut(at) {
            Some(ends) => settle_child(
                rt,
                bell,
                self.alloc,
                &mut self.book,
                ends,
                at,
                index,
                finished,
            ),
            None => Ok(true),
        }
    }
}

impl<K: Keeper> Desk<K> {
    /// Looks once more at the ring from the hand of the script at index `at`, which has finished
    /// it. Takes nothing. What was taken before is then known to be a prefix of all that was put
    /// there.
    pub fn close(&mut self, at: usize, finished: Finished<RingItem<K>>)
        requires { IsEndOf at finished self.old.ends.items }
        ensures lines { self.new.lines.items ≡ self.old.lines.items }
        ensures book { self.new.book ≡ self.old.book }
        ensures heard { HearsAll self.old.ends.items (logged self.old.book) self.new.ends.items (logged self.new.book) }
        ensures hands { HearsNoHand self.old.ends.items self.new.ends.items }
        ensures others { (i : ℕ) → i ≢ at → slice_get self.new.ends.items i ≡ slice_get self.old.ends.items i }
        ensures front { IsFrontIn at (all_put finished) self.new.ends.items }
    {
        if let Some(ends) = self.ends.get_mut(at) {
            ends.close(finished);
        }
    }

    /// Returns the reports and the ring of the record. The desk is dropped. A script's report is
    /// its meaning over its part of the record, unless the session or the report was refused
    /// memory. That affects no other report, nor the record.
    pub fn into_outcome(self) -> Outcome
        ensures shown { AllShown self.book result.reports }
        ensures log { result.log ≡ self.book.log }
    {
        let Desk { book, .. } = self;
        outcome_of(book)
    }

    /// Sends the stop to each hand whose ring has room. Call it if the scripts can't go on.
    pub fn stop_all(&mut self)
        ensures lines { self.new.lines.items ≡ self.old.lines.items }
        ensures book { self.new.book ≡ self.old.book }
    {
        stop_all(&mut self.ends);
    }

    /// Returns the endpoints of the rings. The rest of the desk is dropped.
    pub fn into_ends(self) -> Vec<Ends<K>>
        ensures { result ≡ self.ends }
    {
        let Desk { ends, .. } = self;
        ends
    }
}

/// Sends the stop to each hand whose ring has room.
pub fn stop_all<K: Keeper>(ends: &mut Vec<Ends<K>>) {
    for ends in ends {
        ends.stop();
        ends.flush();
    }
}

/// Returns the result of a book's scripts.
fn outcome_of(book: Book) -> Outcome
    ensures shown { AllShown book result.reports }
    ensures log { result.log ≡ book.log }
{
    let Book { hall, log, .. } = book;
    Outcome {
        reports: hall.into_reports(),
        log,
    }
}

/// Returns whether the script at an index is over. False if there is none.
fn is_over(lines: &[ScriptState], at: usize) -> bool {
    match lines.get(at) {
        Some(line) => line.over,
        None => false,
    }
}

/// Returns whether anything to take now seems to have come for the script at an index.
fn has_come_at<K: Keeper>(book: &Book, over: bool, ends: &mut Vec<Ends<K>>, at: usize) -> bool
    ensures heard { (es : List HallEvent) → HearsAll ends.old.items es ends.new.items es }
    ensures hands { HearsNoHand ends.old.items ends.new.items }
{
    match ends.get_mut(at) {
        Some(ends) => has_come_to(book, over, ends, at),
        None => false,
    }
}

/// Returns whether each script is over, and no request awaits its answer.
#[tactic(auto, using(crate::proofs::Kept::one_over, crate::proofs::Kept::none_over))]
fn all_over(lines: &[ScriptState]) -> bool
    ensures { IsTrue result → AllOver lines.now }
{
    match lines.split_first() {
        Some((line, rest)) => is_settled(line) && all_over(rest),
        None => true,
    }
}

/// Returns whether a script is over, and no request awaits its answer.
fn is_settled(line: &ScriptState) -> bool
    ensures { IsTrue result → IsTrue line.now.over }
{
    line.over && line.awaited.is_none()
}

/// Returns whether nothing is under way in any ring.
fn all_quiet<K: Keeper>(ends: &[Ends<K>]) -> bool {
    for ends in ends {
        if !ends.is_quiet() {
            return false;
        }
    }
    true
}
