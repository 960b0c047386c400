//! Reads lists.

ghost use Rattle.std.specs.Prelude.{◌≡◌, ℕ, List, Err, ◌<◌, ◌≤◌, length, take, drop, IfOk, IfSome, IsTrue};
ghost use Rattle.tcl_words.specs.Lists.{GivesOption, stops_element, is_white, begins_white, content, closing, element, elements, with_text, put_behind, ReadsAs};

use crate::bytes::Text;
use crate::escapes::backslash;
use crate::faults::ListFault;
use crate::packed::Packed;
use crate::places::{after, before};
use crate::scan::is_blank;
use std::alloc::{AllocError, Global};

/// Returns whether a byte is white space between the elements of a list: 09 to 0D or 20.
pub fn is_white(b: u8) -> bool
    ensures { result ≡ is_white b }
{
    is_blank(b) || b == b'\n'
}

/// Returns whether an element in braces or quotes may end before these bytes.
fn begins_white(bytes: &[u8]) -> bool
    ensures { result ≡ begins_white bytes.now }
{
    match bytes {
        [] => true,
        [b, ..] => is_white(*b),
    }
}

/// Returns whether a byte ends an element, in quotes or not.
fn stops_element(quoted: bool, b: u8) -> bool
    ensures { result ≡ stops_element quoted b }
{
    if quoted { b == b'"' } else { is_white(b) }
}

/// Reads the bytes up to the end of an element, with escapes replaced. Returns the value and the
/// number of bytes read.
fn content(alloc: Global, bytes: &[u8], quoted: bool) -> Result<(Text, usize), ListFault>
    ensures value { GivesOption (λ x. (x.0, x.1)) result (content quoted bytes.now) }
    ensures within { IfOk result (λ x. x.1 ≤ length bytes.now) }
    ensures quote { IsTrue quoted → IfOk result (λ x. x.1 < length bytes.now) }
{
    let mut text = Vec::new(alloc);
    let mut at = 0;
    while at < bytes.len() {
        let b = bytes[at];
        if stops_element(quoted, b) {
            return Ok((Text { bytes: text }, at));
        }
        if b == b'\\' {
            let (value, count) = backslash(after(bytes, at + 1));
            text.extend_from_slice(value.as_slice())?;
            at += 1 + count;
        } else {
            text.push(b)?;
            at += 1;
        }
    }
    if quoted {
        return Err(ListFault::BadList);
    }
    Ok((Text { bytes: text }, at))
}

/// Returns the number of leading bytes that neither end an element nor are a backslash.
fn plain_len(bytes: &[u8], quoted: bool) -> usize
    ensures within { result ≤ length bytes.now }
    ensures read { with_text (take result bytes.now) result (content quoted (drop result bytes.now)) ≡ content quoted bytes.now }
{
    let mut at = 0;
    while at < bytes.len() {
        let b = bytes[at];
        if b == b'\\' || stops_element(quoted, b) {
            return at;
        }
        at += 1;
    }
    at
}

/// Appends the value of the bytes up to the end of an element. Returns the number of bytes read.
/// Bytes without escapes are copied as a block.
fn push_content(
    list: &mut Packed,
    alloc: Global,
    bytes: &[u8],
    quoted: bool,
) -> Result<usize, ListFault>
    ensures value { GivesOption (λ n. (list.new, n)) result (put_behind list.old (content quoted bytes.now)) }
    ensures within { IfOk result (λ n. n ≤ length bytes.now) }
    ensures quote { IsTrue quoted → IfOk result (λ n. n < length bytes.now) }
{
    let n = plain_len(bytes, quoted);
    if n < bytes.len() && stops_element(quoted, bytes[n]) {
        list.push(before(bytes, n))?;
        return Ok(n);
    }
    if n == bytes.len() && !quoted {
        list.push(bytes)?;
        return Ok(n);
    }
    let (text, n) = content(alloc, bytes, quoted)?;
    list.push(text.as_slice())?;
    Ok(n)
}

/// Returns the number of bytes before the closing brace.
pub(crate) fn closing(bytes: &[u8]) -> Option<usize>
    ensures value { result ≡ closing bytes.now 0 }
    ensures within { IfSome result (λ n. n < length bytes.now) }
{
    let mut open: usize = 0;
    let mut at = 0;
    while at < bytes.len() {
        let b = bytes[at];
        if b == b'}' {
            if open == 0 {
                return Some(at);
            }
            open -= 1;
            at += 1;
        } else if b == b'{' {
            open += 1;
            at += 1;
        } else if b == b'\\' {
            at += 2;
        } else {
            at += 1;
        }
    }
    None
}

/// Appends the element at the front of a text. Returns the number of bytes it takes.
#[tactic(auto, unfolding(crate::specs::Lists::element))]
fn push_element(list: &mut Packed, alloc: Global, bytes: &[u8]) -> Result<usize, ListFault>
    ensures value { GivesOption (λ n. (list.new, n)) result (put_behind list.old (element bytes.now)) }
    ensures within { IfOk result (λ n. n ≤ length bytes.now) }
{
    match bytes {
        [] => {
            list.push(bytes)?;
            Ok(0)
        }
        [b'{', rest @ ..] => {
            let Some(n) = closing(rest) else {
                return Err(ListFault::BadList);
            };
            if !begins_white(after(rest, n + 1)) {
                return Err(ListFault::BadList);
            }
            list.push(before(rest, n))?;
            Ok(n + 2)
        }
        [b'"', rest @ ..] => {
            let n = push_content(list, alloc, rest, true)?;
            if !begins_white(after(rest, n + 1)) {
                return Err(ListFault::BadList);
            }
            Ok(n + 2)
        }
        [_, ..] => push_content(list, alloc, bytes, false),
    }
}

/// Reads the elements of a list, in order.
///
/// `BadList` means that the text is no list.
pub fn read_list(alloc: Global, text: &[u8]) -> Result<Packed, ListFault>
    ensures found { IfOk result (λ l. ReadsAs text.now l) }
    ensures bad { result ≡ Err ListFault.BadList → (l : List (List ℕ)) → ¬ ReadsAs text.now l }
{
    split(alloc, text)
}

/// Reads the elements of a text, by the definition that the laws of this crate use.
fn split(alloc: Global, text: &[u8]) -> Result<Packed, ListFault>
    ensures { GivesOption (λ l. l) result (elements text.now) }
{
    let mut list = Packed::new(alloc);
    let mut at = 0;
    while at < text.len() {
        if is_white(text[at]) {
            at += 1;
        } else {
            let n = push_element(&mut list, alloc, after(text, at))?;
            at += n;
        }
    }
    Ok(list)
}
