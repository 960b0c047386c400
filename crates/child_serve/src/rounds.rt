//! Takes a desk's turns until nothing more can come.

ghost use Rattle.std.specs.Prelude.{◌≡◌, ◌≤◌, ◌+◌, length, false, IfOk, IfSome};
ghost use Rattle.child_desk.specs.Book.{logged};
ghost use Rattle.child_desk.specs.Line.{KeepsAll, Leaves, HearsNoHand, AllOver};
ghost use Rattle.child_desk.specs.Heard.{HearsAll};
ghost use Rattle.child_serve.specs.Over.{is_end as is_end_of};
ghost use Rattle.child_serve.specs.Rests.{woken_of};

use crate::audience::Audience;
use crate::stopping::Stopping;
use child_desk::Desk;
use child_hands::{Clock, Keeper};
use crossbeam_utils::Backoff;
use dialogue_sched::Hall;
use feed_rings::Bell;
use std::alloc::{AllocError, Global};
use std::sync::Wait;
use tcl_host::Ending;

/// The longest rest of a desk, in milliseconds.
const REST: u64 = 100;

/// A desk may wake this many milliseconds after a deadline, and still take what came as in time.
const LATE: u64 = 1_000;

/// The last moment, in milliseconds.
const LAST: u64 = 9_000_000_000_000_000;

/// What an audience has learned of a script.
#[derive(Clone, Copy)]
struct Told {
    /// The number of bytes of its transcript.
    shown: usize,
    /// Whether it learned that the script has ended.
    is_over: bool,
}

/// Passes the new bytes of a script's transcript to an audience.
fn tell_shown<A: Audience>(audience: &mut A, place: usize, shown: &[u8], told: &mut Told) {
    if told.shown < shown.len() {
        audience.hear(place, shown.split_at(told.shown).1);
        told.shown = shown.len();
    }
}

/// Returns whether a script with this ending has ended.
fn is_end(ending: Option<Ending>) -> bool
    ensures { result ≡ is_end_of ending }
{
    match ending {
        None => false,
        Some(Ending::Exit(_)) => true,
        Some(Ending::Error) => true,
        Some(Ending::StepLimit) => true,
        Some(Ending::TimeLimit) => true,
        Some(Ending::Memory) => true,
        Some(Ending::Waiting) => false,
    }
}

/// Tells an audience that a script has ended, if it has and that is new. `place` is the script's
/// index, `number` its number in the hall.
fn tell_end<A: Audience>(
    audience: &mut A,
    place: usize,
    number: usize,
    hall: &Hall,
    told: &mut Told,
)
    requires { number ≡ place + 1 }
{
    if !told.is_over && is_end(hall.ending(number)) {
        audience.part(place, hall);
        told.is_over = true;
    }
}

/// Tells an audience what is new of each script of a hall.
fn tell_all<A: Audience>(hall: &Hall, audience: &mut A, told: &mut [Told]) {
    for place in 0..told.len() {
        let told = &mut told[place];
        tell_shown(audience, place, hall.transcript(place + 1), told);
        tell_end(audience, place, place + 1, hall, told);
    }
}

/// Creates the initial state of an audience: it has learned nothing.
fn nothing_told(alloc: Global, hall: &Hall) -> Result<Vec<Told>, AllocError> {
    let mut told = Vec::with_capacity(alloc, hall.len())?;
    for _ in 0..hall.len() {
        told.push(Told {
            shown: 0,
            is_over: false,
        })?;
    }
    Ok(told)
}

/// Takes a turn of a desk once its record has room, and tells the audience what is new. Returns
/// false if nobody takes the record any more.
fn turn<K: Keeper, C: Audience, W: Wait>(
    rt: &W,
    bell: &Bell,
    desk: &mut Desk<K>,
    now: u64,
    audience: &mut C,
    told: &mut [Told],
) -> Result<bool, AllocError>
    requires { (length desk.old.lines.items ≤ length desk.old.book.hall) × (length desk.old.book.hall ≤ 64) }
    ensures kept { KeepsAll desk.old.lines.items desk.old.ends.items desk.old.book desk.new.lines.items desk.new.ends.items desk.new.book }
    ensures heard { HearsAll desk.old.ends.items (logged desk.old.book) desk.new.ends.items (logged desk.new.book) }
{
    if !desk.await_room(rt, bell) {
        return Ok(false);
    }
    desk.turn(now)?;
    tell_all(&desk.book.hall, audience, told);
    Ok(true)
}

/// Records that nothing more comes, once the record has room.
pub(crate) fn end_record<K: Keeper, W: Wait>(rt: &W, bell: &Bell, desk: &mut Desk<K>)
    ensures lines { desk.new.lines.items ≡ desk.old.lines.items }
    ensures ends { desk.new.ends.items ≡ desk.old.ends.items }
    ensures book { Leaves desk.old.book desk.new.book }
    ensures log { logged desk.new.book ≡ logged desk.old.book }
{
    if !desk.await_room(rt, bell) {
        return;
    }
    desk.still(LAST);
}

/// Takes the last turn of a desk that gives up its scripts.
fn last_turn<K: Keeper, C: Clock + Audience, W: Wait>(
    rt: &W,
    bell: &Bell,
    desk: &mut Desk<K>,
    clock: &mut C,
    told: &mut [Told],
) -> Result<(), AllocError>
    requires { (length desk.old.lines.items ≤ length desk.old.book.hall) × (length desk.old.book.hall ≤ 64) }
    ensures kept { KeepsAll desk.old.lines.items desk.old.ends.items desk.old.book desk.new.lines.items desk.new.ends.items desk.new.book }
    ensures heard { HearsAll desk.old.ends.items (logged desk.old.book) desk.new.ends.items (logged desk.new.book) }
{
    let now = clock.now();
    turn(rt, bell, desk, now, clock, told)?;
    clock.leave(&desk.book.hall);
    end_record(rt, bell, desk);
    Ok(())
}

/// Takes a desk's turns until nothing more can come for any script, or the scripts are given up.
/// Tells the audience what is new after each turn. Returns whether the scripts were given up.
///
/// After the first turn there is one only if something came or a script may time out, or as the
/// last one before giving up. The scripts are given up if the clock says so, or nobody takes the
/// record any more.
///
/// A turn after another one uses the clock's reading from before that one. A turn after a rest uses
/// the reading from the end of the rest, or a deadline that passed at most `LATE` before it. What
/// came in time is therefore taken before the tick that would make it late.
pub fn turn_all<K: Keeper, C: Clock + Audience + Stopping, W: Wait + std::time::Clock>(
    rt: &W,
    alloc: Global,
    bell: &Bell,
    desk: &mut Desk<K>,
    clock: &mut C,
) -> Result<bool, AllocError>
    requires { (length desk.old.lines.items ≤ length desk.old.book.hall) × (length desk.old.book.hall ≤ 64) }
    ensures kept { KeepsAll desk.old.lines.items desk.old.ends.items desk.old.book desk.new.lines.items desk.new.ends.items desk.new.book }
    ensures over { IfOk result (λ stopped. stopped ≡ false → AllOver desk.new.lines.items) }
    ensures heard { HearsAll desk.old.ends.items (logged desk.old.book) desk.new.ends.items (logged desk.new.book) }
{
    let mut told = nothing_told(alloc, &desk.book.hall)?;
    let mut held = clock.now();
    let mut is_taken = turn(rt, bell, desk, held, clock, &mut told)?;
    for _ in rt.forever() {
        if desk.is_done() {
            clock.leave(&desk.book.hall);
            return Ok(false);
        }
        if !is_taken || clock.is_stopped() {
            last_turn(rt, bell, desk, clock, &mut told)?;
            return Ok(true);
        }
        let reading = clock.now();
        if desk.has_come() || desk.is_due(held) {
            is_taken = turn(rt, bell, desk, held, clock, &mut told)?;
            held = reading;
        } else if desk.is_due(reading) {
            held = reading;
        } else {
            stand_by(rt, bell, desk, reading);
            held = woken_at(desk.book.hall.deadline(), clock.now());
        }
    }
    unreachable!()
}

/// Returns the moment of what came while a desk rested, given when it woke. If the deadline passed
/// at most `LATE` before, what came is in time.
fn woken_at(deadline: Option<u64>, woken: u64) -> u64
    ensures { result ≡ woken_of deadline woken }
{
    match deadline {
        Some(last) if last < woken && woken - last <= LATE => last,
        _ => woken,
    }
}

/// Records that no later event is earlier than a moment, and rests until something comes.
fn stand_by<K: Keeper, W: Wait + std::time::Clock>(
    rt: &W,
    bell: &Bell,
    desk: &mut Desk<K>,
    moment: u64,
)
    ensures kept { KeepsAll desk.old.lines.items desk.old.ends.items desk.old.book desk.new.lines.items desk.new.ends.items desk.new.book }
    ensures heard { HearsAll desk.old.ends.items (logged desk.old.book) desk.new.ends.items (logged desk.new.book) }
{
    desk.still(moment);
    rest(rt, bell, desk, moment);
}

/// Returns how many milliseconds a desk rests: until its deadline is past, but at most `REST`.
fn rest_before(deadline: Option<u64>, moment: u64) -> u64
    ensures most { result ≤ 100 }
    ensures before { IfSome deadline (λ last. moment ≤ last → moment + result ≤ last + 1) }
{
    match deadline {
        Some(last) => last.saturating_sub(moment).saturating_add(1).min(REST),
        None => REST,
    }
}

/// Rests until something comes or a script may time out, but at most `REST` milliseconds.
fn rest<K: Keeper, W: Wait + std::time::Clock>(rt: &W, bell: &Bell, desk: &mut Desk<K>, moment: u64)
    ensures same { (desk.new.lines.items ≡ desk.old.lines.items) × (desk.new.book ≡ desk.old.book) }
    ensures heard { HearsAll desk.old.ends.items (logged desk.old.book) desk.new.ends.items (logged desk.new.book) }
    ensures hands { HearsNoHand desk.old.ends.items desk.new.ends.items }
{
    Backoff::new().spin();
    if !desk.has_come() {
        bell.rest_at_most(rt, rest_before(desk.book.hall.deadline(), moment));
    }
}
