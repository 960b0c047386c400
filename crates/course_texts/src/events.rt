//! The text of events, one line each.

ghost use Rattle.std.specs.Prelude.{◌≡◌, ◌++◌, drop, codes, IfOk, OnOk};
ghost use Rattle.course_texts.specs.Show.{moment_text, answer_text, loss_text, what_text, told_line, is_of as is_of_script, shown_event, shown_log};

use child_events::{Answer, Cause, HallEvent, What, cause_name};
use report_texts::{push_labelled, push_quoted};
use std::alloc::{AllocError, Global};
use tcl_words::Text;

/// The columns of a moment.
const COLUMNS: &[u8] = b"        ";

/// Returns the spaces before a number of digits in the columns.
fn spaces(digits: usize) -> &'static [u8]
    ensures { result.now ≡ drop digits (codes "        ") }
{
    if digits > COLUMNS.len() {
        return b"";
    }
    &COLUMNS[digits..]
}

/// Appends a moment.
fn push_moment(alloc: Global, text: &mut Text, moment: u64) -> Result<(), AllocError>
    ensures { OnOk result (text.new ≡ text.old ++ moment_text moment) }
{
    let digits = moment.to_string(alloc)?;
    text.extend(spaces(digits.len()))?;
    text.extend(digits.as_bytes())?;
    text.extend(b" ms")
}

/// Appends a label and a word.
fn push_word(text: &mut Text, label: &[u8], word: &[u8]) -> Result<(), AllocError>
    ensures { OnOk result (text.new ≡ text.old ++ (label.now ++ word.now)) }
{
    text.extend(label)?;
    text.extend(word)
}

/// Appends the answer to a request.
fn push_answer(alloc: Global, text: &mut Text, answer: Answer) -> Result<(), AllocError>
    ensures { OnOk result (text.new ≡ text.old ++ answer_text answer) }
{
    match answer {
        Answer::Ok => text.extend(b"request done"),
        Answer::Fail(cause) => push_word(text, b"request failed: ", cause_name(cause)),
        Answer::Exit(status) => {
            push_labelled(alloc, text, b"ended with status ", u128::from(status))
        }
        Answer::Killed => text.extend(b"ended by a signal"),
    }
}

/// Appends why a child's output can't be read any longer.
fn push_loss(text: &mut Text, closed: bool, cause: Cause) -> Result<(), AllocError>
    ensures { OnOk result (text.new ≡ text.old ++ loss_text closed cause) }
{
    if closed {
        return text.extend(b"output closed by exprun");
    }
    push_word(text, b"output lost: ", cause_name(cause))
}

/// Appends what happened to a child. `closed` says whether exprun had closed its output itself.
fn push_what(alloc: Global, text: &mut Text, closed: bool, what: &What) -> Result<(), AllocError>
    ensures { OnOk result (text.new ≡ text.old ++ what_text closed what.now) }
{
    match what {
        What::Out(piece) => {
            text.extend(b"wrote ")?;
            push_quoted(alloc, text, piece.as_slice())
        }
        What::Eof => text.extend(b"output ended"),
        What::ReadFail(cause) => push_loss(text, closed, *cause),
        What::Answer(answer) => push_answer(alloc, text, *answer),
    }
}

/// Appends the line of an event. `closed` says whether exprun had closed the child's output itself.
#[tactic(auto, unfolding(crate::specs::Show::told_line))]
pub(crate) fn push_line(
    alloc: Global,
    text: &mut Text,
    closed: bool,
    event: &HallEvent,
) -> Result<(), AllocError>
    ensures { OnOk result (text.new ≡ text.old ++ told_line closed event.now) }
{
    match event {
        HallEvent::Child {
            script,
            child,
            moment,
            what,
        } => {
            push_moment(alloc, text, *moment)?;
            push_labelled(alloc, text, b"  script ", u128::from(*script))?;
            push_labelled(alloc, text, b"  child ", u128::from(*child))?;
            text.extend(b"  ")?;
            push_what(alloc, text, closed, what)?;
            text.push(b'\n')
        }
        HallEvent::Tick { moment } => {
            push_moment(alloc, text, *moment)?;
            text.extend(b"  tick")?;
            text.push(b'\n')
        }
    }
}

/// Returns whether an event belongs to a script. Every event does if no script is named, and a tick
/// belongs to every script.
fn is_of(script: Option<u8>, event: &HallEvent) -> bool
    ensures { result ≡ is_of_script script event.now }
{
    let Some(number) = script else {
        return true;
    };
    match event {
        HallEvent::Child { script, .. } => *script == number,
        HallEvent::Tick { .. } => true,
    }
}

/// Appends the line of an event, if it belongs to a script.
fn push_event(
    alloc: Global,
    text: &mut Text,
    script: Option<u8>,
    event: &HallEvent,
) -> Result<(), AllocError>
    ensures { OnOk result (text.new ≡ text.old ++ shown_event script event.now) }
{
    if !is_of(script, event) {
        return Ok(());
    }
    push_line(alloc, text, false, event)
}

/// Returns the lines of the events that belong to a script, or of all events if no script is named.
pub fn events_text(
    alloc: Global,
    script: Option<u8>,
    events: &[HallEvent],
) -> Result<Text, AllocError>
    ensures { IfOk result (λ t. t ≡ shown_log script events.now) }
{
    let mut text = Text::new(alloc);
    for event in events {
        push_event(alloc, &mut text, script, event)?;
    }
    Ok(text)
}
