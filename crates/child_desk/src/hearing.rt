//! The output of a script's children.

ghost use Rattle.std.specs.Prelude.{◌≡◌, ◌<◌, ◌≤◌, ◌+◌, [], ◌∷◌, ℕ, List, length, IsTrue, IfOk, OnOk};
ghost use Rattle.child_events.specs.declared.event.What.{What};
ghost use Rattle.child_events.specs.declared.event.HallEvent.{HallEvent};
ghost use Rattle.dialogue_sched.specs.Refusal.{piece_len};
ghost use Rattle.feed_rings.specs.Ends.{taken_items, all_put, SameOut};
ghost use Rattle.child_desk.specs.Book.{HasRoom, logged};
ghost use Rattle.child_desk.specs.Told.{asked_of_hand};
ghost use Rattle.child_desk.specs.Line.{Leaves, TakesNone};
ghost use Rattle.child_desk.specs.Ends.{IsOutput, output_at};
ghost use Rattle.child_desk.specs.Heard.{Adds, Says, HearsAt, Hears, FinishedAt, TakenAt, SeenAt, LeavesOneLess};
ghost use Rattle.child_desk.specs.Turn.{Comes};

use crate::book::Book;
use crate::ends::Ends;
use crate::entering::enter_taken;
use crate::readers::{Taken, room};
use child_events::{HallEvent, What};
use child_hands::{Keeper, RingItem};
use feed_rings::{Bell, Finished};
use std::alloc::{AllocError, Global};
use std::sync::Wait;

/// The most items that one turn takes from a child's ring.
const ROUND: u32 = 64;

/// The most untaken items of a child before its ring is left alone. A child that floods then waits
/// in its write.
const UNTAKEN: usize = 256;

/// Returns the event of a child's output. `at` is the script's index.
fn output_event(at: usize, child: u8, moment: u64, what: What) -> HallEvent
    requires { at < 64 }
    ensures { result ≡ output_at at child moment what }
{
    HallEvent::Child {
        script: (at + 1) as u8,
        child: u16::from(child),
        moment,
        what,
    }
}

/// Enters an item of a child's output. `at` is the script's index.
fn enter_output(book: &mut Book, at: usize, child: u8, what: What, copy: What)
    requires same { copy ≡ what }
    requires output { IsOutput what × (piece_len what ≤ 4096) }
    requires place { (at < length book.old.hall) × (at < 64) × (1 ≤ child) × (child ≤ 16) }
    requires room { HasRoom book.old }
    ensures kept { Leaves book.old book.new }
    ensures adds { Adds (at + 1) child (what ∷ []) (logged book.old) (logged book.new) }
    ensures comes { Comes at book.old book.new }
{
    let event = output_event(at, child, book.stamp, what);
    let copy = output_event(at, child, book.stamp, copy);
    enter_taken(book, event, copy);
}

/// Enters what was taken from a child's ring. Returns whether anything was taken.
#[tactic(auto, using(crate::proofs::Kept::leaves_all, crate::proofs::Coming::comes_all))]
fn enter_heard<K: Keeper>(
    book: &mut Book,
    ends: &mut Ends<K>,
    at: usize,
    index: u8,
    taken: Taken,
) -> bool
    requires place { (at < length book.old.hall) × (at < 64) × (index < 16) }
    requires room { HasRoom book.old }
    requires says { (said : List What) × Says said taken }
    ensures kept { Leaves book.old book.new }
    ensures adds { (said : List What) → Says said taken → Adds (at + 1) (index + 1) said (logged book.old) (logged book.new) }
    ensures comes { Comes at book.old book.new }
    ensures rings { TakesNone ends.old ends.new }
    ensures asked { asked_of_hand ends.new ≡ asked_of_hand ends.old }
{
    ends.count(&taken);
    match taken {
        Taken::Nothing => false,
        Taken::Passed => true,
        Taken::Heard(heard) => {
            enter_output(book, at, index + 1, heard.what, heard.copy);
            true
        }
    }
}

/// Takes the next item of a child's ring, if the record has room, and enters it. Returns whether
/// there was one.
#[tactic(auto, using(crate::proofs::Kept::leaves_all, crate::proofs::Kept::leaves_same, crate::proofs::Kept::leaves_then, crate::proofs::Hears::hears_at_none, crate::proofs::Hears::takes_none, crate::proofs::Coming::comes_all, crate::proofs::Coming::comes_same, crate::proofs::Coming::comes_then))]
fn hear<K: Keeper>(
    alloc: Global,
    book: &mut Book,
    ends: &mut Ends<K>,
    at: usize,
    index: u8,
) -> Result<bool, AllocError>
    requires place { (at < length book.old.hall) × (at < 64) × (index < 16) }
    ensures kept { Leaves book.old book.new }
    ensures heard { HearsAt (at + 1) index ends.old.readers (logged book.old) ends.new.readers (logged book.new) }
    ensures comes { Comes at book.old book.new }
    ensures hand { (ends.new.answers ≡ ends.old.answers) × (asked_of_hand ends.new ≡ asked_of_hand ends.old) }
{
    if ends.readers.seems_empty(index) {
        return Ok(false);
    }
    if !book.has_room() {
        return Ok(false);
    }
    let room = room(alloc)?;
    let taken = ends.readers.next(index, room);
    Ok(enter_heard(book, ends, at, index, taken))
}

/// Returns whether a child's ring is left alone. Then the child has more than `UNTAKEN` untaken
/// items, and its script isn't over and may still take them.
fn is_held_back(book: &Book, over: bool, at: usize, index: u8) -> bool {
    !over
        && book
            .hall
            .untaken(at.saturating_add(1), index.saturating_add(1))
            > UNTAKEN
}

/// Takes the items of a child's ring, up to a limit. Returns whether there was one.
#[tactic(auto, using(crate::proofs::Kept::leaves_all, crate::proofs::Hears::hears_at_same, crate::proofs::Coming::comes_all))]
fn hear_child<K: Keeper>(
    alloc: Global,
    book: &mut Book,
    over: bool,
    ends: &mut Ends<K>,
    at: usize,
    index: u8,
) -> Result<bool, AllocError>
    requires place { (at < length book.old.hall) × (at < 64) × (index < 16) }
    ensures kept { Leaves book.old book.new }
    ensures heard { HearsAt (at + 1) index ends.old.readers (logged book.old) ends.new.readers (logged book.new) }
    ensures comes { Comes at book.old book.new }
    ensures hand { (ends.new.answers ≡ ends.old.answers) × (asked_of_hand ends.new ≡ asked_of_hand ends.old) }
{
    if is_held_back(book, over, at, index) {
        return Ok(false);
    }
    for turn in 0..ROUND {
        if !hear(alloc, book, ends, at, index)? {
            return Ok(turn > 0);
        }
    }
    Ok(true)
}

/// Takes the items of all children of a script, up to a limit each. Returns whether there was one.
#[tactic(auto, using(crate::proofs::Kept::leaves_all, crate::proofs::Kept::leaves_then, crate::proofs::Hears::hears_same, crate::proofs::Hears::hears_then, crate::proofs::Hears::hears_of, crate::proofs::Coming::comes_all))]
pub(crate) fn hear_children<K: Keeper>(
    alloc: Global,
    book: &mut Book,
    over: bool,
    ends: &mut Ends<K>,
    at: usize,
) -> Result<bool, AllocError>
    requires place { (at < length book.old.hall) × (at < 64) }
    ensures kept { Leaves book.old book.new }
    ensures heard { Hears (at + 1) ends.old.readers (logged book.old) ends.new.readers (logged book.new) }
    ensures comes { Comes at book.old book.new }
    ensures hand { (ends.new.answers ≡ ends.old.answers) × (asked_of_hand ends.new ≡ asked_of_hand ends.old) }
{
    let mut busy = false;
    for index in 0..ends.children() {
        if hear_child(alloc, book, over, ends, at, index)? {
            busy = true;
        }
    }
    Ok(busy)
}

/// Takes what is left in a child's ring, which its reader has finished. Waits for room in the
/// record. Returns false if nobody takes the record any more.
#[tactic(auto, using(crate::proofs::Kept::leaves_all, crate::proofs::Kept::leaves_then, crate::proofs::Hears::hears_at_same, crate::proofs::Hears::hears_at_then))]
pub(crate) fn settle_child<K: Keeper, R: Wait>(
    rt: &R,
    bell: &Bell,
    alloc: Global,
    book: &mut Book,
    ends: &mut Ends<K>,
    at: usize,
    index: u8,
    finished: Finished<RingItem<K>>,
) -> Result<bool, AllocError>
    requires place { (at < length book.old.hall) × (at < 64) × (index < 16) }
    requires finished { FinishedAt index finished ends.old.readers }
    ensures kept { Leaves book.old book.new }
    ensures heard { HearsAt (at + 1) index ends.old.readers (logged book.old) ends.new.readers (logged book.new) }
    ensures hand { (ends.new.answers ≡ ends.old.answers) × (asked_of_hand ends.new ≡ asked_of_hand ends.old) }
    ensures all { IfOk result (λ all. IsTrue all → TakenAt index (all_put finished) ends.new.readers) }
{
    let mut finished = finished;
    let count = ends.readers.left(index, &mut finished);
    for _ in 0..count {
        if !book.await_room(rt, bell) {
            return Ok(false);
        }
        hear_left(alloc, book, ends, at, index)?;
    }
    Ok(true)
}

/// Takes an item that is known to be left in a child's ring, and enters it.
#[tactic(auto, using(crate::proofs::Kept::leaves_all, crate::proofs::Kept::leaves_same, crate::proofs::Kept::leaves_then))]
fn hear_left<K: Keeper>(
    alloc: Global,
    book: &mut Book,
    ends: &mut Ends<K>,
    at: usize,
    index: u8,
) -> Result<(), AllocError>
    requires place { (at < length book.old.hall) × (at < 64) × (index < 16) }
    requires seen { SeenAt index ends.old.readers }
    requires room { HasRoom book.old }
    ensures kept { Leaves book.old book.new }
    ensures heard { HearsAt (at + 1) index ends.old.readers (logged book.old) ends.new.readers (logged book.new) }
    ensures hand { (ends.new.answers ≡ ends.old.answers) × (asked_of_hand ends.new ≡ asked_of_hand ends.old) }
    ensures left { OnOk result (LeavesOneLess index ends.old.readers ends.new.readers) }
{
    let room = room(alloc)?;
    let taken = ends.readers.next_left(index, room);
    enter_heard(book, ends, at, index, taken);
    Ok(())
}

/// Returns whether anything to take now seems to have come for a script.
pub(crate) fn has_come_to<K: Keeper>(book: &Book, over: bool, ends: &mut Ends<K>, at: usize) -> bool
    ensures heard { (script : ℕ) (es : List HallEvent) → Hears script ends.old.readers es ends.new.readers es }
    ensures ring { SameOut ends.old.answers ends.new.answers }
    ensures taken { taken_items ends.new.answers ≡ taken_items ends.old.answers }
    ensures asked { asked_of_hand ends.new ≡ asked_of_hand ends.old }
{
    if ends.has_answer() {
        return true;
    }
    for index in 0..ends.children() {
        if !ends.readers.seems_empty(index) && !is_held_back(book, over, at, index) {
            return true;
        }
    }
    false
}
