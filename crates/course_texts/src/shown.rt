//! What is shown of bytes and events: names stand in place of secrets.

ghost use Rattle.std.specs.Prelude.{◌≡◌, ◌++◌, IfOk, OnOk};
ghost use Rattle.course_texts.specs.Shown.{shown_bytes, shown_event, event_line};

use crate::events::push_line;
use child_events::{HallEvent, What};
use secret_words::{Secret, Secrets, masked};
use std::alloc::{AllocError, Global};
use tcl_words::Text;

/// Returns bytes as they are shown.
pub(crate) fn shown(alloc: Global, secrets: &[Secret], bytes: Text) -> Result<Text, AllocError>
    ensures { IfOk result (λ t. t ≡ shown_bytes secrets.now bytes) }
{
    if secrets.is_empty() {
        return Ok(bytes);
    }
    masked(alloc, secrets, bytes.as_slice())
}

/// Returns an event as it is shown, if there are secrets.
fn shown_event(
    alloc: Global,
    secrets: &[Secret],
    event: &HallEvent,
) -> Result<HallEvent, AllocError>
    ensures { IfOk result (λ e. e ≡ shown_event secrets.now event.now) }
{
    match event {
        HallEvent::Child {
            script,
            child,
            moment,
            what: What::Out(piece),
        } => Ok(HallEvent::Child {
            script: *script,
            child: *child,
            moment: *moment,
            what: What::Out(masked(alloc, secrets, piece.as_slice())?),
        }),
        _ => event.copied(alloc),
    }
}

/// Appends the line of an event, as it is shown. `closed` says whether exprun had closed the child's
/// output itself.
pub(crate) fn push_shown_line(
    alloc: Global,
    text: &mut Text,
    secrets: &Secrets,
    closed: bool,
    event: &HallEvent,
) -> Result<(), AllocError>
    ensures { OnOk result (text.new ≡ text.old ++ event_line secrets.now closed event.now) }
{
    if secrets.is_empty() {
        return push_line(alloc, text, closed, event);
    }
    let shown = shown_event(alloc, secrets.as_slice(), event)?;
    push_line(alloc, text, closed, &shown)
}
