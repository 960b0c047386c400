//! A script's part of a turn: it takes what came, and sends what the script asks for.

ghost use Rattle.std.specs.Prelude.{◌≡◌, ◌<◌, ◌≤◌, ◌+◌, ℕ, length, true, false, OnOk, None, vec_len};
ghost use Rattle.dialogue_sched.specs.declared.script.Script.{Script};
ghost use Rattle.feed_rings.specs.Ends.{SameOut};
ghost use Rattle.child_desk.specs.Book.{HasRoom, logged};
ghost use Rattle.child_desk.specs.Told.{Rings, heard_of_hand, rings_of};
ghost use Rattle.child_desk.specs.Line.{Keeping, InLine, Leaves, Keeps, KeepsAll, TakesNone};
ghost use Rattle.child_desk.specs.Heard.{Unheard, Hears, HearsAll};
ghost use Rattle.child_desk.specs.Turn.{Comes, ComesTo, Ticks, HearsHand, HearsHandIn, HasAsked, HasAskedIn, HasNoRequest, IsServed, SameElsewhere, goes_on as is_later};

use crate::book::Book;
use crate::ends::{Ends, starts};
use crate::entering::enter_taken;
use crate::hearing::hear_children;
use crate::line::{ScriptState, ask_next, enter_answer, enter_end};
use child_events::HallEvent;
use child_hands::{Keeper, LogItem};
use std::alloc::{AllocError, Global};

/// The last moment, in milliseconds.
const MOMENT_LIMIT: u64 = 9_000_000_000_000_000;

/// Returns whether the time went on, and isn't past the last moment.
fn goes_on(stamp: u64, now: u64) -> bool
    ensures { result ≡ is_later stamp now }
{
    stamp < now && now <= MOMENT_LIMIT
}

/// Sets the moment of what comes next.
fn set_stamp(book: &mut Book, now: u64)
    requires { is_later book.old.stamp now ≡ true }
    ensures hall { book.new.hall ≡ book.old.hall }
    ensures log { book.new.log ≡ book.old.log }
    ensures stamp { book.new.stamp ≡ now }
{
    book.stamp = now;
}

/// Enters a tick, if the time went on.
pub(crate) fn tick(book: &mut Book, now: u64)
    requires room { HasRoom book.old }
    ensures kept { Leaves book.old book.new }
    ensures silent { Unheard (logged book.old) (logged book.new) }
    ensures ticked { Ticks now book.old book.new }
{
    if !goes_on(book.stamp, now) {
        return;
    }
    set_stamp(book, now);
    enter_taken(
        book,
        HallEvent::Tick { moment: now },
        HallEvent::Tick { moment: now },
    );
}

/// Records that no later event has an earlier moment, if the ring has room and the time went on.
/// The moment becomes the stamp.
pub(crate) fn still(book: &mut Book, now: u64)
    ensures kept { Leaves book.old book.new }
    ensures log { logged book.new ≡ logged book.old }
{
    if !book.has_room() || !goes_on(book.stamp, now) {
        return;
    }
    set_stamp(book, now);
    let Ok(()) = book.log.put(LogItem::Still(now)) else {
        unreachable!()
    };
}

/// Takes the next answer of a script's hand, if the record has room. Enters it if it is the awaited
/// one. Returns whether there was one.
fn hear_answer<K: Keeper>(
    book: &mut Book,
    line: &mut ScriptState,
    ends: &mut Ends<K>,
    at: usize,
) -> bool
    requires { at < 64 }
    ensures kept { Keeps (rings_of ends.old) (rings_of ends.new) at line.old book.old line.new book.new }
    ensures readers { ends.new.readers ≡ ends.old.readers }
    ensures ring { SameOut ends.old.answers ends.new.answers }
    ensures silent { Unheard (logged book.old) (logged book.new) }
    ensures comes { Comes at book.old book.new }
    ensures entered { (keeper : Keeping) (script : Script) → InLine (rings_of ends.old) keeper script at line.old book.old → HearsHand at line.old (heard_of_hand ends.old.answers) (logged book.old) (heard_of_hand ends.new.answers) (logged book.new) }
{
    if !book.has_room() {
        return false;
    }
    let Some(answered) = ends.next_answer() else {
        return false;
    };
    let starts = starts(&answered);
    let entered = enter_answer(book, line, at, answered);
    ends.count_start(entered && starts);
    true
}

/// Makes ready what goes to the hand next: the awaited request, unless it was sent. If the script
/// has ended, it is the stop.
fn prepare<K: Keeper>(
    alloc: Global,
    book: &Book,
    line: &mut ScriptState,
    ends: &mut Ends<K>,
    at: usize,
) -> Result<(), AllocError>
    requires place { at < 64 }
    requires open { line.old.over ≡ false }
    requires free { ends.old.ready ≡ None }
    requires next { line.old.awaited ≡ None → HasNoRequest at book.now }
    ensures kept { Keeps (rings_of ends.old) (rings_of ends.new) at line.old book.now line.new book.now }
    ensures rings { TakesNone ends.old ends.new }
    ensures served { OnOk result (IsServed at line.new book.now) }
{
    if line.sent {
        return Ok(());
    }
    if let Some(request) = &line.awaited {
        ends.send(alloc, request)?;
        line.sent = true;
        return Ok(());
    }
    if enter_end(book, line, at) {
        ends.stop();
    }
    Ok(())
}

/// Sends a script's next request, or the stop after its end. Returns whether anything was sent.
fn ask<K: Keeper>(
    alloc: Global,
    book: &mut Book,
    line: &mut ScriptState,
    ends: &mut Ends<K>,
    at: usize,
) -> Result<bool, AllocError>
    requires { (at < length book.old.hall) × (at < 64) }
    ensures kept { Keeps (rings_of ends.old) (rings_of ends.new) at line.old book.old line.new book.new }
    ensures rings { TakesNone ends.old ends.new }
    ensures log { logged book.new ≡ logged book.old }
    ensures comes { Comes at book.old book.new }
    ensures asked { OnOk result (HasAsked at line.new ends.new book.new) }
{
    let put = ends.flush();
    if line.over {
        return Ok(put);
    }
    if ends.is_waiting() {
        return Ok(put);
    }
    ask_next(book, line, at);
    prepare(alloc, book, line, ends, at)?;
    Ok(put | ends.flush())
}

/// Takes what came for a script, and sends its next request. Returns whether there was anything.
fn attend<K: Keeper>(
    alloc: Global,
    book: &mut Book,
    line: &mut ScriptState,
    ends: &mut Ends<K>,
    at: usize,
) -> Result<bool, AllocError>
    requires { (at < length book.old.hall) × (at < 64) }
    ensures kept { Keeps (rings_of ends.old) (rings_of ends.new) at line.old book.old line.new book.new }
    ensures heard { Hears (at + 1) ends.old.readers (logged book.old) ends.new.readers (logged book.new) }
    ensures ring { SameOut ends.old.answers ends.new.answers }
    ensures comes { Comes at book.old book.new }
    ensures entered { (keeper : Keeping) (script : Script) → InLine (rings_of ends.old) keeper script at line.old book.old → HearsHand at line.old (heard_of_hand ends.old.answers) (logged book.old) (heard_of_hand ends.new.answers) (logged book.new) }
    ensures asked { OnOk result (HasAsked at line.new ends.new book.new) }
{
    let answered = hear_answer(book, line, ends, at);
    let heard = hear_children(alloc, book, line.over, ends, at)?;
    let asked = ask(alloc, book, line, ends, at)?;
    Ok(answered | heard | asked)
}

/// Attends to the script at an index. Does nothing if there is none.
fn attend_at<K: Keeper>(
    alloc: Global,
    book: &mut Book,
    lines: &mut Vec<ScriptState>,
    ends: &mut Vec<Ends<K>>,
    at: usize,
) -> Result<bool, AllocError>
    requires hall { (at < length book.old.hall) × (at < 64) }
    requires place { at < vec_len lines.old }
    ensures kept { KeepsAll lines.old.items ends.old.items book.old lines.new.items ends.new.items book.new }
    ensures heard { HearsAll ends.old.items (logged book.old) ends.new.items (logged book.new) }
    ensures comes { Comes at book.old book.new }
    ensures elsewhere { SameElsewhere at lines.old.items ends.old.items lines.new.items ends.new.items }
    ensures entered { HearsHandIn at lines.old.items ends.old.items book.old ends.new.items book.new }
    ensures asked { OnOk result (HasAskedIn at lines.new.items ends.new.items book.new) }
{
    let Some(ends) = ends.get_mut(at) else {
        return Ok(false);
    };
    let line = &mut lines[at];
    attend(alloc, book, line, ends, at)
}

/// Attends to each script. Returns whether there was anything for one.
#[tactic(auto, using(crate::proofs::Kept::all_same, crate::proofs::Kept::all_then))]
pub(crate) fn attend_all<K: Keeper>(
    alloc: Global,
    book: &mut Book,
    lines: &mut Vec<ScriptState>,
    ends: &mut Vec<Ends<K>>,
) -> Result<bool, AllocError>
    requires { (length lines.old.items ≤ length book.old.hall) × (length book.old.hall ≤ 64) }
    ensures kept { KeepsAll lines.old.items ends.old.items book.old lines.new.items ends.new.items book.new }
    ensures heard { HearsAll ends.old.items (logged book.old) ends.new.items (logged book.new) }
    ensures comes { ComesTo book.old.stamp (logged book.old) book.new }
    ensures entered { (at : ℕ) → HearsHandIn at lines.old.items ends.old.items book.old ends.new.items book.new }
    ensures asked { OnOk result ((at : ℕ) → HasAskedIn at lines.new.items ends.new.items book.new) }
{
    let mut busy = false;
    for at in 0..lines.len() {
        if attend_at(alloc, book, lines, ends, at)? {
            busy = true;
        }
    }
    Ok(busy)
}
