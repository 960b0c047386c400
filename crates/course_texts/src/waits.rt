//! The text of what a script asks for and waits for.

ghost use Rattle.std.specs.Prelude.{◌≡◌, ◌++◌, IfOk, OnOk, Some, None, MatchOption};
ghost use Rattle.exp_match.specs.Choice.{in_groups};
ghost use Rattle.session.specs.Awaited.{answering, starting, hearing, expecting};
ghost use Rattle.course_texts.specs.Waits.{margin, request_line, plain_lines, request_lines, child_line, answer_line, start_line, output_line, only_line, verdict_by, verdict_in, verdict as verdict_of, entry_line, own_line, own_lines, tail_of, plain_buffer, buffer_line, side_lines, deadline_line, endless_line, until_line, expect_lines, wait_lines};

use crate::nearest::front_of;
use crate::patterns::{is_hidden, push_want};
use exp_match::{Entry, Want};
use expect_core::{Groups, Place, Plan};
use report_texts::{Spelling, masked_requests, push_act, push_labelled, push_quoted};
use secret_words::{Secret, masked};
use session::{Request, Session};
use std::alloc::{AllocError, Global};
use tcl_words::Text;

/// The greatest number of a child's last bytes shown.
pub(crate) const SHOWN: usize = 200;

/// The most bytes in which fronts of patterns are looked for.
const SOUGHT: usize = 4_000;

/// Appends the columns of an event's moment, as spaces.
#[tactic(auto, unfolding(crate::specs::Waits::margin))]
pub(crate) fn push_margin(text: &mut Text) -> Result<(), AllocError>
    ensures { OnOk result (text.new ≡ text.old ++ margin) }
{
    text.extend(b"             ")
}

/// Appends the line of a request.
#[tactic(auto, unfolding(crate::specs::Waits::request_line))]
fn push_request(alloc: Global, text: &mut Text, request: &Request) -> Result<(), AllocError>
    ensures { OnOk result (text.new ≡ text.old ++ request_line request.now) }
{
    push_margin(text)?;
    push_labelled(alloc, text, b"asks child ", u128::from(request.child))?;
    text.extend(b": ")?;
    push_act(alloc, text, Spelling::Quoted, &request.act)?;
    text.extend(b"\n")
}

/// Appends the lines of requests as they are.
fn push_plain_requests(
    alloc: Global,
    text: &mut Text,
    requests: &[Request],
) -> Result<(), AllocError>
    ensures { OnOk result (text.new ≡ text.old ++ plain_lines requests.now) }
{
    for request in requests {
        push_request(alloc, text, request)?;
    }
    Ok(())
}

/// Appends the lines of requests.
pub fn push_requests(
    alloc: Global,
    text: &mut Text,
    secrets: &[Secret],
    requests: &[Request],
) -> Result<(), AllocError>
    ensures { OnOk result (text.new ≡ text.old ++ request_lines secrets.now requests.now) }
{
    if secrets.is_empty() {
        return push_plain_requests(alloc, text, requests);
    }
    let shown = masked_requests(alloc, secrets, requests)?;
    push_plain_requests(alloc, text, shown.as_slice())
}

/// Appends a line about a child, if there is one.
fn push_child(
    alloc: Global,
    text: &mut Text,
    words: &[u8],
    child: Option<u8>,
) -> Result<(), AllocError>
    ensures { OnOk result (text.new ≡ text.old ++ child_line words.now child) }
{
    let Some(child) = child else {
        return Ok(());
    };
    push_margin(text)?;
    push_labelled(alloc, text, words, u128::from(child))?;
    text.extend(b"\n")
}

/// Appends the line of the child whose answer the script waits for, if there is one.
#[tactic(auto, unfolding(crate::specs::Waits::answer_line))]
fn push_answer(alloc: Global, text: &mut Text, child: Option<u8>) -> Result<(), AllocError>
    ensures { OnOk result (text.new ≡ text.old ++ answer_line child) }
{
    push_child(alloc, text, b"waits for the answer of child ", child)
}

/// Appends the line of the child whose start the script waits for, if there is one.
#[tactic(auto, unfolding(crate::specs::Waits::start_line))]
fn push_start(alloc: Global, text: &mut Text, child: Option<u8>) -> Result<(), AllocError>
    ensures { OnOk result (text.new ≡ text.old ++ start_line child) }
{
    push_child(alloc, text, b"waits for the start of child ", child)
}

/// Appends the line of the child whose output a command awaits, if there is one.
#[tactic(auto, unfolding(crate::specs::Waits::output_line))]
fn push_output(alloc: Global, text: &mut Text, child: Option<u8>) -> Result<(), AllocError>
    ensures { OnOk result (text.new ≡ text.old ++ output_line child) }
{
    push_child(alloc, text, b"waits for the end of child ", child)
}

/// Appends the verdict for a pattern of which only a front matches.
#[tactic(auto, unfolding(crate::specs::Waits::only_line))]
fn push_only(alloc: Global, text: &mut Text, front: &[u8]) -> Result<(), AllocError>
    ensures { OnOk result (text.new ≡ text.old ++ only_line front.now) }
{
    text.extend(b"  no, only ")?;
    push_quoted(alloc, text, front)?;
    text.extend(b"\n")
}

/// Appends the verdict for a pattern that did not match in bytes, given its longest front that
/// does.
fn push_verdict_by(
    alloc: Global,
    text: &mut Text,
    bytes: &[u8],
    front: &[u8],
) -> Result<(), AllocError>
    ensures { OnOk result (text.new ≡ text.old ++ verdict_by bytes.now front.now) }
{
    match (bytes, front) {
        ([], _) => text.extend(b"  no\n"),
        (_, []) => text.extend(b"  no, nothing of it\n"),
        _ => push_only(alloc, text, front),
    }
}

/// Appends the verdict for a pattern that did not match in bytes.
fn push_verdict_in(
    alloc: Global,
    text: &mut Text,
    bytes: &[u8],
    want: &Want,
) -> Result<(), AllocError>
    ensures { OnOk result (text.new ≡ text.old ++ verdict_in bytes.now want.now) }
{
    if bytes.len() <= SOUGHT {
        let front = front_of(alloc, want, bytes)?;
        push_verdict_by(alloc, text, bytes, front.as_slice())
    } else {
        text.extend(b"  no\n")
    }
}

/// Appends the verdict for an entry that did not match in bytes. Of a pattern with a secret it shows
/// no front.
fn push_verdict(
    alloc: Global,
    text: &mut Text,
    secrets: &[Secret],
    bytes: &[u8],
    want: &Want,
) -> Result<(), AllocError>
    ensures { OnOk result (text.new ≡ text.old ++ verdict_of secrets.now bytes.now want.now) }
{
    if is_hidden(alloc, secrets, want)? {
        return text.extend(b"  no\n");
    }
    match want {
        Want::Exact { .. } => push_verdict_in(alloc, text, bytes, want),
        Want::Glob { .. } => push_verdict_in(alloc, text, bytes, want),
        Want::Regular(_) => text.extend(b"  no\n"),
        Want::Keyword(_) => text.extend(b"\n"),
    }
}

#[tactic(auto, unfolding(crate::specs::Waits::entry_line))]
fn push_entry(
    alloc: Global,
    text: &mut Text,
    secrets: &[Secret],
    bytes: &[u8],
    entry: &Entry,
) -> Result<(), AllocError>
    ensures { OnOk result (text.new ≡ text.old ++ entry_line secrets.now bytes.now entry.now) }
{
    push_margin(text)?;
    text.extend(b"    ")?;
    push_want(alloc, text, secrets, &entry.want)?;
    push_verdict(alloc, text, secrets, bytes, &entry.want)
}

/// Returns whether an entry belongs to one of the groups.
fn is_own(groups: &[usize], entry: &Entry) -> bool
    ensures { result ≡ in_groups groups.now entry.now }
{
    let group = entry.group;
    groups.iter().any(|g| *g == group)
}

/// Appends an entry's line, if it belongs to one of these groups.
fn push_own(
    alloc: Global,
    text: &mut Text,
    secrets: &[Secret],
    bytes: &[u8],
    groups: &[usize],
    entry: &Entry,
) -> Result<(), AllocError>
    ensures { OnOk result (text.new ≡ text.old ++ own_line secrets.now bytes.now groups.now entry.now) }
{
    if is_own(groups, entry) {
        return push_entry(alloc, text, secrets, bytes, entry);
    }
    Ok(())
}

fn push_entries(
    alloc: Global,
    text: &mut Text,
    secrets: &[Secret],
    bytes: &[u8],
    groups: &[usize],
    entries: &[Entry],
) -> Result<(), AllocError>
    ensures { OnOk result (text.new ≡ text.old ++ own_lines secrets.now bytes.now groups.now entries.now) }
{
    for entry in entries {
        push_own(alloc, text, secrets, bytes, groups, entry)?;
    }
    Ok(())
}

/// Returns the last bytes of a text, at most `SHOWN`.
pub(crate) fn tail(bytes: &[u8]) -> &[u8]
    ensures { result.now ≡ tail_of bytes.now }
{
    &bytes[bytes.len().saturating_sub(SHOWN)..]
}

/// Appends the number of bytes from a child that no pattern has consumed, and the last of them.
#[tactic(auto, unfolding(crate::specs::Waits::plain_buffer))]
fn push_plain_buffer(
    alloc: Global,
    text: &mut Text,
    child: u8,
    bytes: &[u8],
) -> Result<(), AllocError>
    ensures { OnOk result (text.new ≡ text.old ++ plain_buffer child bytes.now) }
{
    push_margin(text)?;
    push_labelled(alloc, text, b"  child ", u128::from(child))?;
    push_labelled(alloc, text, b" has ", bytes.len() as u128)?;
    text.extend(b" bytes, the last are ")?;
    push_quoted(alloc, text, tail(bytes))?;
    text.extend(b"\n")
}

/// Appends the same, with names in place of secrets.
fn push_buffer(
    alloc: Global,
    text: &mut Text,
    secrets: &[Secret],
    child: u8,
    bytes: &[u8],
) -> Result<(), AllocError>
    ensures { OnOk result (text.new ≡ text.old ++ buffer_line secrets.now child bytes.now) }
{
    if secrets.is_empty() {
        return push_plain_buffer(alloc, text, child, bytes);
    }
    let shown = masked(alloc, secrets, bytes)?;
    push_plain_buffer(alloc, text, child, shown.as_slice())
}

/// Appends each child's bytes and patterns.
fn push_sides(
    alloc: Global,
    text: &mut Text,
    secrets: &[Secret],
    session: &Session,
    entries: &[Entry],
    sides: &[(Place, Groups)],
) -> Result<(), AllocError>
    ensures { OnOk result (text.new ≡ text.old ++ side_lines secrets.now session.now.dialogue.own.children entries.now sides.now) }
{
    for (place, groups) in sides {
        let child = place.number();
        let bytes = session.buffer_copied(alloc, child)?;
        push_buffer(alloc, text, secrets, child, bytes.as_slice())?;
        push_entries(
            alloc,
            text,
            secrets,
            bytes.as_slice(),
            groups.as_slice(),
            entries,
        )?;
    }
    Ok(())
}

/// Appends the line of an `expect` that waits until a moment.
#[tactic(auto, unfolding(crate::specs::Waits::deadline_line))]
fn push_deadline(alloc: Global, text: &mut Text, last: u128) -> Result<(), AllocError>
    ensures { OnOk result (text.new ≡ text.old ++ deadline_line last) }
{
    push_margin(text)?;
    push_labelled(alloc, text, b"waits for output until ", last)?;
    text.extend(b" ms\n")
}

/// Appends the line of an `expect` that waits without a time limit.
#[tactic(auto, unfolding(crate::specs::Waits::endless_line))]
fn push_endless(text: &mut Text) -> Result<(), AllocError>
    ensures { OnOk result (text.new ≡ text.old ++ endless_line) }
{
    push_margin(text)?;
    text.extend(b"waits for output\n")
}

/// Appends the line of the moment until which an `expect` waits, if there is one.
fn push_until(alloc: Global, text: &mut Text, last: Option<u64>) -> Result<(), AllocError>
    ensures { OnOk result (text.new ≡ text.old ++ until_line last) }
{
    match last {
        Some(last) => push_deadline(alloc, text, u128::from(last)),
        None => push_endless(text),
    }
}

/// Appends the lines of an `expect` that waits.
fn push_expect(
    alloc: Global,
    text: &mut Text,
    secrets: &[Secret],
    session: &Session,
    plan: &Plan,
) -> Result<(), AllocError>
    ensures { OnOk result (text.new ≡ text.old ++ expect_lines secrets.now session.now.dialogue.own.children (Some plan.now)) }
{
    push_until(alloc, text, plan.last_moment())?;
    push_sides(
        alloc,
        text,
        secrets,
        session,
        plan.list.entries.as_slice(),
        plan.sides.as_slice(),
    )
}

/// Appends the lines of what a session waits for.
#[tactic(auto, unfolding(crate::specs::Waits::wait_lines))]
pub fn push_waits(
    alloc: Global,
    text: &mut Text,
    secrets: &[Secret],
    session: &Session,
) -> Result<(), AllocError>
    ensures { OnOk result (text.new ≡ text.old ++ wait_lines secrets.now session.now) }
{
    push_answer(alloc, text, session.answering())?;
    push_start(alloc, text, session.starting())?;
    push_output(alloc, text, session.hearing())?;
    match session.expecting() {
        Some(plan) => push_expect(alloc, text, secrets, session, plan),
        None => Ok(()),
    }
}
