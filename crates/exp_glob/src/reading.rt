//! Parses the elements of a pattern.

ghost use Rattle.std.specs.Prelude.{◌≡◌, ◌≤◌, ◌+◌, ◌<◌, ◌≢◌, ℕ, ◌==◌, false, None, length, slice_index, position, IfOk};
ghost use Rattle.exp_glob.specs.Elements.{element_at as element_of, class_or_bracket, escaped as escaped_of, dollar as dollar_of, elements_of};

use crate::element::{Element, Elements, Members, Single};
use crate::places::after;
use std::alloc::{AllocError, Global};

/// Returns the index after the last `]`, or 0.
fn behind_last_close(bytes: &[u8]) -> usize
    ensures within { result ≤ length bytes.now }
    ensures none_behind { (k : ℕ) → result ≤ k → k < length bytes.now → slice_index bytes.now k ≢ 93 }
{
    let mut end = bytes.len();
    while end > 0 && bytes[end - 1] != b']' {
        end -= 1;
    }
    end
}

/// Returns the index of the first `]`.
fn close_place(rest: &[u8]) -> Option<usize>
    ensures { result ≡ position (λ c. c == 93) rest.now }
{
    rest.iter().position(|c| *c == b']')
}

/// Returns the element that a `[` begins, and the number of later bytes that belong to it.
fn class(alloc: Global, rest: &[u8], closes: bool) -> Result<(Element, usize), AllocError>
    requires { closes ≡ false → position (λ c. c == 93) rest.now ≡ None }
    ensures value { IfOk result (λ e. e ≡ class_or_bracket rest.now (position (λ c. c == 93) rest.now)) }
    ensures within { IfOk result (λ e. e.1 ≤ length rest.now) }
{
    if !closes {
        return Ok((Element::One(Single::Byte(b'[')), 0));
    }
    match close_place(rest) {
        Some(n) => {
            let members = Members::from_slice(alloc, &rest[..n])?;
            Ok((Element::One(Single::Class(members)), n + 1))
        }
        None => Ok((Element::One(Single::Byte(b'[')), 0)),
    }
}

/// Returns the element that a backslash begins, and the number of later bytes that belong to it.
fn escaped(rest: &[u8]) -> (Element, usize)
    ensures value { result ≡ escaped_of rest.now }
    ensures within { result.1 ≤ length rest.now }
{
    match rest {
        [] => (Element::One(Single::Byte(b'\\')), 0),
        [b, ..] => (Element::One(Single::Byte(*b)), 1),
    }
}

/// Returns the element of a `$`.
fn dollar(rest: &[u8]) -> Element
    ensures { (result, 0) ≡ dollar_of rest.now }
{
    match rest {
        [] => Element::End,
        [_, ..] => Element::One(Single::Byte(b'$')),
    }
}

/// Returns the element that a byte begins, and the number of later bytes that belong to it.
///
/// Pass `closes` as false only if `rest` contains no `]`. A pattern with many `[` is then read in
/// linear time.
#[tactic(auto, unfolding(crate::specs::Elements::element_at))]
fn element_at(
    alloc: Global,
    byte: u8,
    rest: &[u8],
    closes: bool,
) -> Result<(Element, usize), AllocError>
    requires { closes ≡ false → position (λ c. c == 93) rest.now ≡ None }
    ensures value { IfOk result (λ e. e ≡ element_of byte rest.now) }
    ensures within { IfOk result (λ e. e.1 ≤ length rest.now) }
{
    match byte {
        b'*' => Ok((Element::Star, 0)),
        b'?' => Ok((Element::One(Single::Any), 0)),
        b'[' => class(alloc, rest, closes),
        b'\\' => Ok(escaped(rest)),
        b'$' => Ok((dollar(rest), 0)),
        other => Ok((Element::One(Single::Byte(other)), 0)),
    }
}

/// Parses the elements of a pattern without a `^` at its start.
pub(crate) fn elements(alloc: Global, bytes: &[u8]) -> Result<Elements, AllocError>
    ensures { IfOk result (λ es. es ≡ elements_of bytes.now) }
{
    let mut made = Elements::with_room(alloc, bytes.len())?;
    let closed = behind_last_close(bytes);
    let mut at = 0;
    while at < bytes.len() {
        let rest = after(bytes, at + 1);
        let (element, n) = element_at(alloc, bytes[at], rest, at + 1 < closed)?;
        made.push(element)?;
        at += 1 + n;
    }
    Ok(made)
}
