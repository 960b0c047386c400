//! The text of where an error occurred.

ghost use Rattle.std.specs.Prelude.{◌≡◌, ◌++◌, ◌≤◌, drop, take, length, OnOk};
ghost use Rattle.course_texts.specs.Trail.{line_len, shortened, command_line, in_procedure, label_before, line_label as line_label_of, procedure_line, place_line, place_lines};

use report_texts::{push_labelled, push_line, push_quoted};
use script_check::{begin_of, line_of};
use session::ErrorPlace;
use std::alloc::{AllocError, Global};
use tcl_words::Text;

/// The number of bytes shown of a command's line.
const SHOWN: usize = 150;

/// Returns the number of bytes before the end of a line.
#[tactic(auto, unfolding(crate::specs::Trail::line_len))]
fn line_len(text: &[u8]) -> usize
    ensures value { result ≡ line_len text.now }
    ensures within { result ≤ length text.now }
{
    text.iter().take_while(|b| **b != b'\n').count()
}

/// Returns the first line of a text.
fn first_line(text: &[u8]) -> &[u8]
    ensures { result.now ≡ take (line_len text.now) text.now }
{
    text.split_at(line_len(text)).0
}

/// Returns the rest of a script from a place on.
fn rest_of(script: &[u8], at: usize) -> &[u8]
    ensures { result.now ≡ drop at script.now }
{
    if script.len() <= at {
        return &[];
    }
    script.split_at(at).1
}

/// Appends the first bytes of a line, with dots after them if the line is longer.
fn push_shortened(alloc: Global, text: &mut Text, line: &[u8]) -> Result<(), AllocError>
    ensures { OnOk result (text.new ≡ text.old ++ shortened line.now) }
{
    if SHOWN < line.len() {
        push_line(alloc, text, line.split_at(SHOWN).0)?;
        text.extend(b"...")
    } else {
        push_line(alloc, text, line)
    }
}

/// Appends the line of a command, which begins the rest of its script.
#[tactic(auto, unfolding(crate::specs::Trail::command_line))]
fn push_command(
    alloc: Global,
    text: &mut Text,
    label: &[u8],
    script: &[u8],
    left: &[u8],
) -> Result<(), AllocError>
    ensures { OnOk result (text.new ≡ text.old ++ command_line label.now script.now left.now) }
{
    let line = line_of(script, script.len().saturating_sub(left.len()));
    push_labelled(alloc, text, label, line as u128)?;
    text.extend(b": ")?;
    push_shortened(alloc, text, first_line(left))?;
    text.extend(b"\n")
}

/// Appends the words before a procedure's name.
#[tactic(auto, unfolding(crate::specs::Trail::in_procedure))]
fn push_in_procedure(text: &mut Text) -> Result<(), AllocError>
    ensures { OnOk result (text.new ≡ text.old ++ in_procedure) }
{
    text.extend(b"  in procedure ")
}

/// Appends the line of a procedure.
fn push_procedure(alloc: Global, text: &mut Text, name: &[u8]) -> Result<(), AllocError>
    ensures { OnOk result (text.new ≡ text.old ++ procedure_line name.now) }
{
    push_in_procedure(text)?;
    push_quoted(alloc, text, name)?;
    text.extend(b"\n")
}

fn push_place(
    alloc: Global,
    text: &mut Text,
    label: &[u8],
    place: &ErrorPlace,
) -> Result<(), AllocError>
    ensures { OnOk result (text.new ≡ text.old ++ place_line label.now place.now) }
{
    match place {
        ErrorPlace::Command { script, at } => {
            let script = script.as_slice();
            push_command(alloc, text, label, script, begin_of(rest_of(script, *at)))
        }
        ErrorPlace::Procedure { name } => push_procedure(alloc, text, name.as_slice()),
    }
}

/// Returns the label of lines that are counted from an opening brace.
#[tactic(auto, unfolding(crate::specs::Trail::line_label))]
pub(crate) fn line_label() -> &'static [u8]
    ensures { result.now ≡ line_label_of }
{
    b"  line "
}

/// Returns the label of a command that these places follow.
fn label_of<'a>(last: &'a [u8], places: &[ErrorPlace]) -> &'a [u8]
    ensures { result.now ≡ label_before last.now places.now }
{
    if places.is_empty() {
        last
    } else {
        line_label()
    }
}

/// Appends the lines of the places where an error occurred, the innermost first. `last` is the label
/// of the last one, which is a command of the script itself. Its line number follows.
pub fn push_places(
    alloc: Global,
    text: &mut Text,
    last: &[u8],
    places: &[ErrorPlace],
) -> Result<(), AllocError>
    ensures { OnOk result (text.new ≡ text.old ++ place_lines last.now places.now) }
{
    match places {
        [] => Ok(()),
        [place, rest @ ..] => {
            push_place(alloc, text, label_of(last, rest), place)?;
            push_places(alloc, text, last, rest)
        }
    }
}
