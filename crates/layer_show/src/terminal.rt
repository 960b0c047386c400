//! Shows what a terminal echoes and passes on.

use crate::calls::name_in;
use crate::complaint::Complaint;
use crate::spell::{alloc_of, push_hex, push_labelled};
use std::alloc::AllocError;
use tcl_words::Text;
use tty::{Action, Actions, Line, Modes, convert};

fn push_actions(text: &mut Text, actions: &Actions) -> Result<(), AllocError> {
    'actions: for action in actions.as_slice() {
        match action {
            Action::Write(bytes) => push_labelled(text, b" write:", bytes.as_slice())?,
            Action::End => text.extend(b" end")?,
        }
    }
    Ok(())
}

/// Appends what the terminal shows for bytes that are written to it, including NUL bytes.
fn push_mapped(text: &mut Text, modes: Modes, bytes: &[u8]) -> Result<(), AllocError> {
    let shown = convert(alloc_of(text), false, modes, bytes)?;
    push_hex(text, shown.as_slice())
}

/// Appends a line for a text that is sent: its echo as the terminal shows it, and what is passed
/// on.
fn push_sent(
    text: &mut Text,
    line: &mut Line,
    modes: Modes,
    bytes: &[u8],
) -> Result<(), AllocError> {
    let (echo, actions) = line.send(bytes)?;
    push_mapped(text, modes, echo.as_slice())?;
    push_actions(text, &actions)
}

fn push_call(
    text: &mut Text,
    line: &mut Line,
    modes: Modes,
    call: &[Text],
) -> Result<(), Complaint> {
    let [name, bytes] = call else {
        return Err(Complaint::Call);
    };
    match name_in(name.as_slice()) {
        "send" => Ok(push_sent(text, line, modes, bytes.as_slice())?),
        "print" => Ok(push_mapped(text, modes, bytes.as_slice())?),
        _ => Err(Complaint::Call),
    }
}

fn push_calls(
    text: &mut Text,
    line: &mut Line,
    modes: Modes,
    calls: &[Vec<Text>],
) -> Result<(), Complaint> {
    'calls: for call in calls {
        push_call(text, line, modes, call.as_slice())?;
        text.push(b'\n')?;
    }
    Ok(())
}

/// Shows a terminal. The first call contains the words of its modes. Each other call is `send` and
/// a text that is typed, or `print` and a text that a program writes. Appends a line for each: the
/// echo and what is passed on, or what the terminal shows.
pub fn push_terminal(text: &mut Text, calls: &[Vec<Text>]) -> Result<(), Complaint> {
    let alloc = alloc_of(text);
    let [words, rest @ ..] = calls else {
        return Ok(());
    };
    match Modes::read(words.as_slice()) {
        Ok(modes) => push_calls(text, &mut Line::new(alloc, modes), modes, rest),
        Err(_) => Err(Complaint::Call),
    }
}
