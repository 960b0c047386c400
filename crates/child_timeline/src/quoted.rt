//! Reads a text between quotes.

ghost use Rattle.std.specs.Prelude.{◌≡◌, ◌<◌, ◌++◌, [], IfOk, IfSome, OnOk, option_map};
ghost use Rattle.child_timeline.specs.Quoted.{escaped as escaped_of, hex_digit as hex_digit_of, step as step_of, in_front, text_from, at_end, IsQuoteState, IsStep};

use crate::words::is_blank;
use std::alloc::{AllocError, Global};
use tcl_words::Text;

/// The state before a byte of the text.
#[derive(Clone, Copy)]
pub(crate) enum QuoteState {
    /// The byte stands for itself, unless it is a quote or a backslash.
    Plain,
    /// After a backslash.
    Escape,
    /// Before the first of two hexadecimal digits.
    High,
    /// Before the second digit. The field is the value of the first.
    Low(u8),
    /// After the closing quote.
    Closed,
}

/// Returns the byte that an escape stands for. `None` if the escape is unknown.
fn escaped(byte: u8) -> Option<u8>
    ensures { result ≡ escaped_of byte }
{
    if byte == b'"' {
        Some(b'"')
    } else if byte == b'\\' {
        Some(b'\\')
    } else if byte == b'n' {
        Some(b'\n')
    } else if byte == b'r' {
        Some(b'\r')
    } else if byte == b't' {
        Some(b'\t')
    } else {
        None
    }
}

/// Returns the value of a hexadecimal digit.
fn hex_digit(byte: u8) -> Option<u8>
    ensures value { result ≡ hex_digit_of byte }
    ensures few { IfSome result (λ d. d < 16) }
{
    if b'0' <= byte && byte <= b'9' {
        Some(byte - b'0')
    } else if b'a' <= byte && byte <= b'f' {
        Some(byte - b'a' + 10)
    } else if b'A' <= byte && byte <= b'F' {
        Some(byte - b'A' + 10)
    } else {
        None
    }
}

/// The byte that is read, or `None`, and the state after it.
type Step = (Option<u8>, QuoteState);

fn plain_step(byte: u8) -> Option<Step>
    ensures { result ≡ step_of QuoteState.Plain byte }
{
    if byte == b'"' {
        Some((None, QuoteState::Closed))
    } else if byte == b'\\' {
        Some((None, QuoteState::Escape))
    } else {
        Some((Some(byte), QuoteState::Plain))
    }
}

fn escape_step(byte: u8) -> Option<Step>
    ensures { result ≡ step_of QuoteState.Escape byte }
{
    if byte == b'x' {
        return Some((None, QuoteState::High));
    }
    let byte = escaped(byte)?;
    Some((Some(byte), QuoteState::Plain))
}

fn high_step(byte: u8) -> Option<Step>
    ensures next { result ≡ step_of QuoteState.High byte }
    ensures state { IsStep result }
{
    let high = hex_digit(byte)?;
    Some((None, QuoteState::Low(high)))
}

fn low_step(high: u8, byte: u8) -> Option<Step>
    requires { high < 16 }
    ensures { result ≡ step_of (QuoteState.Low high) byte }
{
    let low = hex_digit(byte)?;
    Some((Some(16 * high + low), QuoteState::Plain))
}

fn closed_step(byte: u8) -> Option<Step>
    ensures { result ≡ step_of QuoteState.Closed byte }
{
    if is_blank(byte) {
        Some((None, QuoteState::Closed))
    } else {
        None
    }
}

/// Reads one byte in a state. `None` if it is not allowed there.
fn step(state: QuoteState, byte: u8) -> Option<Step>
    requires { IsQuoteState state }
    ensures next { result ≡ step_of state byte }
    ensures state { IsStep result }
{
    match state {
        QuoteState::Plain => plain_step(byte),
        QuoteState::Escape => escape_step(byte),
        QuoteState::High => high_step(byte),
        QuoteState::Low(high) => low_step(high, byte),
        QuoteState::Closed => closed_step(byte),
    }
}

/// Appends a byte, if there is one.
fn push_said(text: &mut Text, said: Option<u8>) -> Result<(), AllocError>
    ensures { OnOk result (text.new ≡ text.old ++ in_front said []) }
{
    match said {
        Some(byte) => text.push(byte),
        None => Ok(()),
    }
}

/// Returns the text if its closing quote was read.
fn whole(state: QuoteState, text: Text) -> Option<Text>
    ensures { result ≡ option_map (λ rest. text ++ rest) (at_end state) }
{
    match state {
        QuoteState::Closed => Some(text),
        QuoteState::Plain => None,
        QuoteState::Escape => None,
        QuoteState::High => None,
        QuoteState::Low(_) => None,
    }
}

/// Reads a text after its opening quote, up to its closing quote. `None` if the text is malformed.
pub(crate) fn read_quoted(alloc: Global, bytes: &[u8]) -> Result<Option<Text>, AllocError>
    ensures { IfOk result (λ text. text ≡ text_from QuoteState.Plain bytes.now) }
{
    let mut text = Text::new(alloc);
    let mut state = QuoteState::Plain;
    for byte in bytes {
        let Some((said, next)) = step(state, *byte) else {
            return Ok(None);
        };
        push_said(&mut text, said)?;
        state = next;
    }
    Ok(whole(state, text))
}
