//! Reads the commands of a script, with their positions in the source.

ghost use Rattle.std.specs.Prelude.{◌≡◌, IfOk};
ghost use Rattle.tcl_words.specs.Pieces.{command_view};
ghost use Rattle.script_check.specs.Readings.{begin_of, command_in, readings, readings_in};

use crate::placed::{Words, behind_gap, placed_words, told};
use crate::span::Span;
use crate::stretch::{behind, part, place};
use std::alloc::{AllocError, Global};
use tcl_words::{Command, WordFault, next_command};

/// A command of a script.
#[derive(Drop)]
pub enum Reading {
    /// A command: its position, and its words, at least one.
    Command(usize, Words),
    /// A malformed command: its position, and the error. It is the last command.
    Malformed(usize, WordFault),
}

/// Returns the rest of a text from its next command on.
pub fn begin_of(text: &[u8]) -> &[u8]
    ensures { result.now ≡ begin_of text.now }
{
    behind_gap(true, text)
}

/// Reads the command of a text that ends at position `end` of the source.
fn command_in(
    alloc: Global,
    end: usize,
    text: &[u8],
    command: &Command,
) -> Result<Reading, AllocError>
    ensures { IfOk result (λ r. r ≡ command_in end text.now (command_view command.now)) }
{
    let begin = behind_gap(true, text);
    let words = placed_words(alloc, end, command.words.as_slice(), begin)?;
    Ok(Reading::Command(place(end, begin), words))
}

/// Reads the commands of a text that ends at position `end` of the source.
fn read(alloc: Global, end: usize, text: &[u8]) -> Result<Vec<Reading>, AllocError>
    ensures { IfOk result (λ v. v.items ≡ readings end text.now) }
{
    let mut list = Vec::new(alloc);
    let mut rest = text;
    'commands: while !rest.is_empty() {
        match next_command(alloc, rest, 0) {
            Ok(Some((command, n))) => {
                list.push(command_in(alloc, end, rest, &command)?)?;
                rest = behind(behind(rest, 1), n.saturating_sub(1));
            }
            Ok(None) => return Ok(list),
            Err(fault) => {
                let at = place(end, behind_gap(true, rest));
                list.push(Reading::Malformed(at, told(fault)?))?;
                return Ok(list);
            }
        }
    }
    Ok(list)
}

/// Reads the commands of the script in a range of the source.
pub(crate) fn readings_in(
    alloc: Global,
    source: &[u8],
    span: Span,
) -> Result<Vec<Reading>, AllocError>
    ensures { IfOk result (λ v. v.items ≡ readings_in source.now span) }
{
    read(alloc, span.to, part(source, span))
}
