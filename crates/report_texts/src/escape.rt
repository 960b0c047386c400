//! Any bytes as text that has no effect on a terminal.

ghost use Rattle.std.specs.Prelude.{◌≡◌, ◌++◌, OnOk};
ghost use Rattle.report_texts.specs.Escape.{is_within as is_within_of, turns as turns_of, is_seen as is_seen_of, seen_len as seen_len_of, begins_line as begins_line_of, stays as stays_of, is_mark as is_mark_of, kept_len as kept_len_of, still_kept as still_kept_of, escape, byte_text, escaped, quoted};

use crate::line::push_escaped;
use bstr::decode_utf8;
use std::alloc::{AllocError, Global};
use tcl_words::Text;

/// Where the text is written.
#[derive(Clone, Copy)]
pub enum Escaping {
    /// Outside quotes, on lines of its own.
    Lines,
    /// Between quotes.
    Quotes,
}

fn is_within(low: u32, high: u32, code: u32) -> bool
    ensures { result ≡ is_within_of low high code }
{
    low <= code && code <= high
}

/// Returns whether a character ends a line or a paragraph, or changes the direction of the text
/// after it.
fn turns(c: char) -> bool
    ensures { result ≡ turns_of c }
{
    let code = c as u32;
    code == 0x061C
        || is_within(0x200E, 0x200F, code)
        || is_within(0x2028, 0x202E, code)
        || is_within(0x2066, 0x2069, code)
}

/// Returns whether there is a character, and it is shown as itself.
fn is_seen(c: Option<char>) -> bool
    ensures { result ≡ is_seen_of c }
{
    match c {
        Some(c) => !(c.is_control() || turns(c)),
        None => false,
    }
}

/// Returns the number of first bytes that form a character that is shown as itself.
#[tactic(auto, unfolding(crate::specs::Escape::seen_len))]
fn seen_len(bytes: &[u8]) -> usize
    ensures { result ≡ seen_len_of bytes.now }
{
    let (c, size) = decode_utf8(bytes);
    if is_seen(c) {
        return size;
    }
    0
}

fn begins_line(bytes: &[u8]) -> bool
    ensures { result ≡ begins_line_of bytes.now }
{
    match bytes {
        [] => false,
        [first, ..] => *first == b'\n',
    }
}

/// Returns whether a control character is kept before these bytes: a tab, or the end of a line.
fn stays(place: Escaping, byte: u8, next: &[u8]) -> bool
    ensures { result ≡ stays_of place byte next.now }
{
    match place {
        Escaping::Lines => byte == b'\t' || byte == b'\n' || (byte == b'\r' && begins_line(next)),
        Escaping::Quotes => false,
    }
}

/// Returns whether a byte would be read as something else.
fn is_mark(place: Escaping, byte: u8) -> bool
    ensures { result ≡ is_mark_of place byte }
{
    match place {
        Escaping::Lines => byte == b'\\',
        Escaping::Quotes => byte == b'\\' || byte == b'"',
    }
}

/// Returns the number of first bytes that are kept. If it is 0, the first byte is escaped.
#[tactic(auto, unfolding(crate::specs::Escape::kept_len))]
fn kept_len(place: Escaping, bytes: &[u8]) -> usize
    ensures { result ≡ kept_len_of place bytes.now }
{
    match bytes {
        [] => 0,
        [first, next @ ..] => {
            if stays(place, *first, next) {
                return 1;
            }
            if is_mark(place, *first) {
                return 0;
            }
            seen_len(bytes)
        }
    }
}

/// Appends an escaped byte.
#[tactic(auto, unfolding(crate::specs::Escape::escape))]
fn push_escape(alloc: Global, text: &mut Text, byte: u8) -> Result<(), AllocError>
    ensures { OnOk result (text.new ≡ text.old ++ escape byte) }
{
    if byte == b'"' {
        return text.extend(b"\\\"");
    }
    if byte == b'\\' {
        return text.extend(b"\\\\");
    }
    if byte == b'\t' {
        return text.extend(b"\\t");
    }
    if byte == b'\n' {
        return text.extend(b"\\n");
    }
    if byte == b'\r' {
        return text.extend(b"\\r");
    }
    push_escaped(alloc, text, b"\\x", byte)
}

/// Returns the number of first bytes that are kept, if `kept` bytes are still to be kept.
fn still_kept(place: Escaping, kept: usize, bytes: &[u8]) -> usize
    ensures { result ≡ still_kept_of place kept bytes.now }
{
    if kept == 0 {
        return kept_len(place, bytes);
    }
    kept
}

/// Appends a byte. It is escaped if `kept` is 0.
fn push_byte(alloc: Global, text: &mut Text, kept: usize, byte: u8) -> Result<(), AllocError>
    ensures { OnOk result (text.new ≡ text.old ++ byte_text kept byte) }
{
    if kept == 0 {
        return push_escape(alloc, text, byte);
    }
    text.push(byte)
}

/// Appends bytes as text.
pub fn push_text(
    alloc: Global,
    text: &mut Text,
    place: Escaping,
    bytes: &[u8],
) -> Result<(), AllocError>
    ensures { OnOk result (text.new ≡ text.old ++ escaped place bytes.now) }
{
    let mut left: usize = 0;
    for i in 0..bytes.len() {
        let kept = still_kept(place, left, &bytes[i..]);
        push_byte(alloc, text, kept, bytes[i])?;
        left = kept.saturating_sub(1);
    }
    Ok(())
}

/// Appends bytes between quotes.
#[tactic(auto, unfolding(crate::specs::Escape::quoted))]
pub fn push_quoted(alloc: Global, text: &mut Text, bytes: &[u8]) -> Result<(), AllocError>
    ensures { OnOk result (text.new ≡ text.old ++ quoted bytes.now) }
{
    text.push(b'"')?;
    push_text(alloc, text, Escaping::Quotes, bytes)?;
    text.push(b'"')
}
