//! A wait for patterns of several children.

ghost use Rattle.std.specs.Prelude.{◌≡◌, ◌<◌, ◌+◌, List, length, IfOk, OnOk, box_value, option_map};
ghost use Rattle.expect_core.specs.declared.lanes.Lane.{Lane};
ghost use Rattle.expect_core.specs.declared.own.Own.{Own};
ghost use Rattle.expect_core.specs.Heard.{at_most as is_at_most, lapse, watched, Listened, chosen_of, decided, tested, heard, heads as heads_of, listen as listen_of, look as look_of};
ghost use Rattle.expect_core.specs.Quiet.{side, AreQuiet, AreQuietBut, GoesOnQuiet, GoesOnQuietBut, TrimsNone};
ghost use Rattle.expect_core.specs.Sought.{IsSought, AreSought, GoesOnSought, FoundNone};
ghost use Rattle.expect_core.specs.Known.{Knows};
ghost use Rattle.expect_core.specs.Hearing.{goes, turns, Takes, turned, at_child, IsFewer};

use crate::answers::is_within;
use crate::known::Known;
use crate::lanes::Lanes;
use crate::own::Own;
use crate::phase::Heard;
use crate::place::Place;
use crate::plan::{Groups, Plan};
use crate::quiet::Quiet;
use crate::sought::Sought;
use child_events::{Cause, Item, Queue, pick};
use exp_match::{Matchers, Picked, Spans};
use std::alloc::{AllocError, Global};

/// The time of a script, in milliseconds.
#[derive(Clone, Copy)]
pub struct Times {
    /// The last moment, or `None` without a time limit.
    pub limit: Option<u64>,
    /// The greatest moment of the events so far.
    pub horizon: u64,
}

/// Returns whether a moment is no later than a deadline. `None` is no deadline.
fn is_before(moment: u64, deadline: Option<u128>) -> bool
    ensures { result ≡ is_at_most moment deadline }
{
    match deadline {
        Some(last) => u128::from(moment) <= last,
        None => true,
    }
}

/// Returns the result if no item is in time: a timeout, the end of the script's time, or neither
/// yet.
fn lapsed(times: Times, deadline: Option<u128>) -> Heard
    ensures { result ≡ lapse times.limit times.horizon deadline }
{
    match deadline {
        Some(last) if last < u128::from(times.horizon) => {
            if is_within(last as u64, times.limit) {
                Heard::TimedOut(last as u64)
            } else {
                Heard::OverLimit
            }
        }
        _ => {
            if is_within(times.horizon, times.limit) {
                Heard::NotYet
            } else {
                Heard::OverLimit
            }
        }
    }
}

/// Moves the end of a wait to the heap. An optional box costs little to return, and each item
/// returns one.
fn boxed(alloc: Global, heard: Heard) -> Result<Box<Heard>, AllocError>
    ensures { IfOk result (λ b. b.value ≡ heard) }
{
    Ok(Box::new(alloc, heard)?)
}

/// Returns the result for a match.
fn matched(
    alloc: Global,
    child: Place,
    index: usize,
    spans: &Spans,
) -> Result<Box<Heard>, AllocError>
    ensures { IfOk result (λ b. b.value ≡ Heard.Match child index spans.now) }
{
    boxed(alloc, Heard::Match(child, index, *spans))
}

/// Returns the result for a full match buffer.
fn filled(alloc: Global, child: Place) -> Result<Box<Heard>, AllocError>
    ensures { IfOk result (λ b. b.value ≡ Heard.Full child) }
{
    boxed(alloc, Heard::Full(child))
}

/// Returns the result for the end of a child's output.
fn ended(alloc: Global, child: Place) -> Result<Box<Heard>, AllocError>
    ensures { IfOk result (λ b. b.value ≡ Heard.Ended child) }
{
    boxed(alloc, Heard::Ended(child))
}

/// Returns the result for a failed read.
fn unread(alloc: Global, child: Place, cause: Cause) -> Result<Box<Heard>, AllocError>
    ensures { IfOk result (λ b. b.value ≡ Heard.Failed child cause) }
{
    boxed(alloc, Heard::Failed(child, cause))
}

/// Returns the result if no item is in time.
fn too_late(alloc: Global, times: Times, deadline: Option<u128>) -> Result<Box<Heard>, AllocError>
    ensures { IfOk result (λ b. b.value ≡ lapse times.limit times.horizon deadline) }
{
    boxed(alloc, lapsed(times, deadline))
}

/// Takes the first item, if it is in time.
pub(crate) fn take_item(
    items: &mut Queue,
    times: Times,
    deadline: Option<u128>,
) -> Option<(u64, Item)>
    ensures { Takes times deadline items.old result items.new }
{
    let (moment, _) = items.peek()?;
    if is_before(moment, deadline) && is_within(moment, times.limit) {
        items.next()
    } else {
        None
    }
}

/// Returns the moments of the next items of the children that take part.
fn heads(
    alloc: Global,
    sides: &[(Place, Groups)],
    lanes: &Lanes,
) -> Result<Vec<Option<u64>>, AllocError>
    ensures { IfOk result (λ v. v.items ≡ heads_of sides.now lanes.now) }
{
    let mut list = Vec::new(alloc);
    'sides: for (child, _) in sides {
        list.push(lanes.head(*child))?;
    }
    Ok(list)
}

/// Tests a child's match buffer, whose first `sought` bytes hold no match. If nothing is chosen,
/// trims the buffer to its size.
fn test_one<'l>(
    alloc: Global,
    plan: &'l Plan,
    matchers: &mut Matchers<'l>,
    child: Place,
    groups: &Groups,
    sought: usize,
    own: &mut Own,
) -> Result<Option<Box<Heard>>, AllocError>
    requires { IsSought plan.now (child, groups.now) sought own.old }
    ensures goes { IfOk result (λ r. (lanes : List Lane) (k : Own → Listened) → decided child (chosen_of plan.now (child, groups.now) own.old) lanes own.old k ≡ goes (option_map box_value r) lanes own.new k) }
    ensures trims { IfOk result (λ r. TrimsNone (option_map box_value r) plan.now (child, groups.now) own.old own.new) }
    ensures none { IfOk result (λ r. FoundNone (option_map box_value r) plan.now (child, groups.now) own.old) }
{
    let groups = groups.list.as_slice();
    let mut spans = [None; 10];
    let picked = own.children.choose(
        alloc, matchers, child, &plan.list, groups, sought, &mut spans,
    )?;
    match picked {
        Picked::Pattern(index) => Ok(Some(matched(alloc, child, index, &spans)?)),
        Picked::Full => Ok(Some(filled(alloc, child)?)),
        Picked::None => {
            own.children.trim(child);
            Ok(None)
        }
    }
}

/// Tests the match buffer of the child at an index, unless it is quiet.
fn test_side<'l>(
    alloc: Global,
    plan: &'l Plan,
    matchers: &mut Matchers<'l>,
    quiet: &mut Quiet,
    sought: &mut Sought,
    changed: &Option<Place>,
    at: usize,
    own: &mut Own,
) -> Result<Option<Box<Heard>>, AllocError>
    requires here { at < length (watched plan.now) }
    requires quiet { AreQuietBut changed.now at plan.now quiet.old own.old }
    requires sought { AreSought plan.now sought.old own.old }
    ensures goes { IfOk result (λ r. (lanes : List Lane) (k : Own → Listened) → decided (side plan.now at).0 (chosen_of plan.now (side plan.now at) own.old) lanes own.old k ≡ goes (option_map box_value r) lanes own.new k) }
    ensures quiet { IfOk result (λ r. GoesOnQuietBut (option_map box_value r) changed.now (at + 1) plan.now quiet.new own.new) }
    ensures sought { IfOk result (λ r. GoesOnSought (option_map box_value r) plan.now sought.new own.new) }
{
    let (child, groups) = &plan.sides.list[at];
    if quiet.spares(at, *child, changed) {
        return Ok(None);
    }
    let fits = own.children.fits(*child);
    let heard = test_one(alloc, plan, matchers, *child, groups, sought.at(at), own)?;
    quiet.set(at, fits);
    sought.forget(plan, child);
    sought.set(at, own.children.count_kept(*child));
    Ok(heard)
}

/// Tests the match buffers one after the other, each against its own patterns. Skips quiet
/// children, unless their bytes have changed.
fn test<'l>(
    alloc: Global,
    plan: &'l Plan,
    matchers: &mut Matchers<'l>,
    quiet: &mut Quiet,
    sought: &mut Sought,
    changed: &Option<Place>,
    own: &mut Own,
) -> Result<Option<Box<Heard>>, AllocError>
    requires quiet { AreQuietBut changed.now 0 plan.now quiet.old own.old }
    requires sought { AreSought plan.now sought.old own.old }
    ensures tested { IfOk result (λ r. (lanes : List Lane) (k : Own → Listened) → tested plan.now plan.now.sides lanes own.old k ≡ goes (option_map box_value r) lanes own.new k) }
    ensures quiet { IfOk result (λ r. GoesOnQuiet (option_map box_value r) plan.now quiet.new own.new) }
    ensures sought { IfOk result (λ r. GoesOnSought (option_map box_value r) plan.now sought.new own.new) }
{
    'sides: for at in 0..plan.sides.list.len() {
        let tested = test_side(alloc, plan, matchers, quiet, sought, changed, at, own)?;
        if let Some(heard) = tested {
            return Ok(Some(heard));
        }
    }
    Ok(None)
}

/// Handles an item that was taken. After output it tests the match buffers. The end of the output
/// or a failed read ends the wait.
fn hear<'l>(
    alloc: Global,
    plan: &'l Plan,
    matchers: &mut Matchers<'l>,
    quiet: &mut Quiet,
    sought: &mut Sought,
    child: Place,
    item: Item,
    own: &mut Own,
) -> Result<Option<Box<Heard>>, AllocError>
    requires quiet { AreQuiet plan.now quiet.old own.old }
    requires sought { AreSought plan.now sought.old own.old }
    ensures heard { IfOk result (λ r. (lanes : List Lane) (k : Own → Listened) → heard plan.now child item lanes own.old k ≡ goes (option_map box_value r) lanes own.new k) }
    ensures quiet { IfOk result (λ r. GoesOnQuiet (option_map box_value r) plan.now quiet.new own.new) }
    ensures sought { IfOk result (λ r. GoesOnSought (option_map box_value r) plan.now sought.new own.new) }
{
    match item {
        Item::Out(piece) => {
            own.receive(alloc, child, piece.as_slice())?;
            test(alloc, plan, matchers, quiet, sought, &Some(child), own)
        }
        Item::Eof => Ok(Some(ended(alloc, child)?)),
        Item::ReadFail(cause) => Ok(Some(unread(alloc, child, cause)?)),
    }
}

/// Returns the child whose item is next. A single child needs no comparison, and allocates nothing.
fn next_child(
    alloc: Global,
    times: Times,
    plan: &Plan,
    lanes: &Lanes,
) -> Result<Option<Place>, AllocError>
    ensures { IfOk result (λ r. (o : Own) (k : List Lane → Own → Listened) → turned times plan.now lanes.now o k ≡ at_child times plan.now r lanes.now o k) }
{
    let sides = plan.sides.list.as_slice();
    if sides.len() == 1 {
        let (child, _) = &sides[0];
        return Ok(Some(*child));
    }
    let heads = heads(alloc, sides, lanes)?;
    let Some(next) = pick(heads.as_slice(), times.horizon) else {
        return Ok(None);
    };
    let (child, _) = &sides[next];
    Ok(Some(*child))
}

/// Takes the next item, if one is in time, and tests the match buffers.
fn turn<'l>(
    alloc: Global,
    times: Times,
    plan: &'l Plan,
    matchers: &mut Matchers<'l>,
    known: &mut Known,
    lanes: &mut Lanes,
    own: &mut Own,
) -> Result<Option<Box<Heard>>, AllocError>
    requires knows { Knows plan.now known.old own.old }
    ensures turned { IfOk result (λ r. (k : List Lane → Own → Listened) → turned times plan.now lanes.old own.old k ≡ turns (option_map box_value r) lanes.new own.new k) }
    ensures fewer { IfOk result (λ r. IsFewer (option_map box_value r) lanes.old lanes.new) }
    ensures knows { OnOk result (Knows plan.now known.new own.new) }
{
    let Some(child) = next_child(alloc, times, plan, lanes)? else {
        return Ok(Some(too_late(alloc, times, plan.deadline)?));
    };
    let Some((moment, item)) = lanes.take_item(child, times, plan.deadline) else {
        return Ok(Some(too_late(alloc, times, plan.deadline)?));
    };
    own.advance(moment);
    let heard = hear(
        alloc,
        plan,
        matchers,
        &mut known.quiet,
        &mut known.sought,
        child,
        item,
        own,
    )?;
    let Some(decided) = heard else {
        return Ok(None);
    };
    *known = Known::nothing(alloc);
    Ok(Some(decided))
}

/// Takes items until one ends the wait, or none is in time. All tests share the matchers.
fn hear_all<'l>(
    alloc: Global,
    times: Times,
    plan: &'l Plan,
    matchers: &mut Matchers<'l>,
    known: &mut Known,
    lanes: &mut Lanes,
    own: &mut Own,
) -> Result<Box<Heard>, AllocError>
    requires knows { Knows plan.now known.old own.old }
    ensures heard { IfOk result (λ h. listen_of times.limit times.horizon plan.now lanes.old own.old ≡ (h.value, lanes.new, own.new)) }
    ensures knows { OnOk result (Knows plan.now known.new own.new) }
{
    'turns: loop {
        match turn(alloc, times, plan, matchers, known, lanes, own)? {
            Some(heard) => return Ok(heard),
            None => continue,
        }
    }
}

/// Takes items until one ends the wait, or none is in time. Uses and updates what is known of the
/// bytes.
pub(crate) fn listen<'l>(
    alloc: Global,
    times: Times,
    plan: &'l Plan,
    known: &mut Known,
    lanes: &mut Lanes,
    own: &mut Own,
) -> Result<Box<Heard>, AllocError>
    requires knows { Knows plan.now known.old own.old }
    ensures heard { IfOk result (λ h. listen_of times.limit times.horizon plan.now lanes.old own.old ≡ (h.value, lanes.new, own.new)) }
    ensures knows { OnOk result (Knows plan.now known.new own.new) }
{
    let mut matchers: Matchers<'l> = Matchers::new(alloc);
    hear_all(alloc, times, plan, &mut matchers, known, lanes, own)
}

/// Tests the match buffers, and then takes items as `listen` does. Returns what it knows of the
/// bytes, too.
pub(crate) fn look<'l>(
    alloc: Global,
    times: Times,
    plan: &'l Plan,
    lanes: &mut Lanes,
    own: &mut Own,
) -> Result<(Box<Heard>, Known), AllocError>
    ensures heard { IfOk result (λ r. look_of times.limit times.horizon plan.now lanes.old own.old ≡ (r.0.value, lanes.new, own.new)) }
    ensures knows { IfOk result (λ r. Knows plan.now r.1 own.new) }
{
    let mut matchers: Matchers<'l> = Matchers::new(alloc);
    let mut known = Known::new(alloc, plan.sides.list.len())?;
    let tested = test(
        alloc,
        plan,
        &mut matchers,
        &mut known.quiet,
        &mut known.sought,
        &None,
        own,
    )?;
    if let Some(heard) = tested {
        return Ok((heard, Known::nothing(alloc)));
    }
    let heard = hear_all(alloc, times, plan, &mut matchers, &mut known, lanes, own)?;
    Ok((heard, known))
}
