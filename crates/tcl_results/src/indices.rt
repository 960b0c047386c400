//! Indexes of lists and strings (string(n)).

ghost use Rattle.std.specs.Prelude.{◌≡◌, ◌<◌, ◌+◌, min, take, drop, length, [], position, slice_index_or, true, false, bytes_eq, IfOk, IfSome, MatchOption, option_map, option_and_then, ◌+ℤ◌, ◌-ℤ◌, ◌≤ℤ◌, ◌<ℤ◌, ◌^◌, pos, negsuc};
ghost use Rattle.tcl_results.specs.Indices.{is_sign, within, signed, signed_by, one_or_two, place_of, index_by, index_of, before, up_to, between, element_at};
ghost use Rattle.tcl_results.specs.Says.{Says};
ghost use Rattle.tcl_expr.specs.Number.{number_of};

use crate::complaint::Complaint;
use crate::texts::bad_index;
use command_table::is;
use std::alloc::{AllocError, Global};
use tcl_expr::read_number;
use tcl_values::{Elements, Value};
use tcl_words::Packed;

/// Returns a text without its first four bytes. `None` if they aren't `front`.
fn behind<'a>(text: &'a [u8], front: &[u8]) -> Option<&'a [u8]>
    requires { length front.now ≡ 4 }
    ensures { MatchOption result (bytes_eq (take 4 text.now) front.now ≡ false) (λ t. (bytes_eq (take 4 text.now) front.now ≡ true) × (t.now ≡ drop 4 text.now)) }
{
    if text.len() < 4 {
        return None;
    }
    let (start, rest) = text.split_at(4);
    if is(start, front) { Some(rest) } else { None }
}

/// Returns a position, or `None` if it doesn't fit in 64 bits.
fn within(place: i128) -> Option<i128>
    ensures { result ≡ within place }
{
    if i64::MIN as i128 <= place && place <= i64::MAX as i128 {
        Some(place)
    } else {
        None
    }
}

/// Returns the position `end-n`, given the text of n. `None` if the text is no number.
fn before_end(end: i128, number: &[u8]) -> Option<i128>
    requires low { negsuc 0 ≤ℤ end }
    requires high { end <ℤ pos (2 ^ 64) }
    ensures { result ≡ option_map (λ n. end -ℤ n) (number_of number.now) }
{
    match read_number(number) {
        Some(back) => Some(end - back as i128),
        None => None,
    }
}

/// Returns the position `end+n`. `None` also if it doesn't fit in 64 bits.
fn behind_end(end: i128, number: &[u8]) -> Option<i128>
    requires low { negsuc 0 ≤ℤ end }
    requires high { end <ℤ pos (2 ^ 64) }
    ensures { result ≡ option_and_then (λ n. within (end +ℤ n)) (number_of number.now) }
{
    match read_number(number) {
        Some(more) => within(end + more as i128),
        None => None,
    }
}

/// Returns the sum or difference of two numbers. `None` also if it doesn't fit in 64 bits.
fn signed(sign: u8, a: Option<i64>, b: Option<i64>) -> Option<i128>
    ensures { result ≡ signed sign a b }
{
    match a {
        None => None,
        Some(a) => match b {
            None => None,
            Some(b) => {
                if sign == b'+' {
                    within(a as i128 + b as i128)
                } else {
                    within(a as i128 - b as i128)
                }
            }
        },
    }
}

/// Returns the sum or difference of a number and the one after a sign.
fn signed_by(first: &[u8], rest: &[u8]) -> Option<i128>
    ensures { result ≡ signed_by first.now rest.now }
{
    match rest {
        [] => None,
        [sign, second @ ..] => signed(*sign, read_number(first), read_number(second)),
    }
}

/// Returns the number that a text is, or `None`.
fn number(text: &[u8]) -> Option<i128>
    ensures { result ≡ number_of text.now }
{
    match read_number(text) {
        Some(place) => Some(place as i128),
        None => None,
    }
}

/// Returns the index of the first sign.
fn sign_place(text: &[u8]) -> Option<usize>
    ensures place { result ≡ position is_sign text.now }
    ensures within { IfSome result (λ k. k < length text.now) }
{
    text.iter().position(|b| *b == b'+' || *b == b'-')
}

/// Returns the number that a text is, or the sum or difference of two numbers. A sign at the front
/// belongs to the first number.
fn one_or_two(text: &[u8]) -> Option<i128>
    ensures { result ≡ one_or_two (position is_sign (drop 1 text.now)) text.now }
{
    match text {
        [] => number(text),
        [_, rest @ ..] => match sign_place(rest) {
            Some(at) => {
                let (first, signed) = text.split_at(at + 1);
                signed_by(first, signed)
            }
            None => number(text),
        },
    }
}

/// Returns the position that an index denotes, given the position of `end`. `None`: no index.
fn place_of(end: i128, text: &[u8]) -> Option<i128>
    requires low { negsuc 0 ≤ℤ end }
    requires high { end <ℤ pos (2 ^ 64) }
    ensures { result ≡ place_of end text.now }
{
    if is(text, b"end") {
        return Some(end);
    }
    if let Some(number) = behind(text, b"end-") {
        return before_end(end, number);
    }
    if let Some(number) = behind(text, b"end+") {
        return behind_end(end, number);
    }
    one_or_two(text)
}

/// Does the same. The error is `bad index` if the text is no index.
fn index_by(alloc: Global, end: i128, text: &[u8]) -> Result<i128, Complaint>
    requires low { negsuc 0 ≤ℤ end }
    requires high { end <ℤ pos (2 ^ 64) }
    ensures { Says result (index_by end text.now) }
{
    match place_of(end, text) {
        Some(place) => Ok(place),
        None => Err(Complaint::Said(bad_index(alloc, text)?)),
    }
}

/// Returns the position that an index denotes among `count` items. `end` is the last item. The
/// position may be out of range.
pub fn index_of(alloc: Global, count: usize, text: &[u8]) -> Result<i128, Complaint>
    ensures { Says result (index_of count text.now) }
{
    index_by(alloc, count as i128 - 1, text)
}

/// Returns the position that an index denotes among `count` items. `end` is the position after the
/// last item.
pub fn index_behind(alloc: Global, count: usize, text: &[u8]) -> Result<i128, Complaint>
    ensures { Says result (index_by (pos count) text.now) }
{
    index_by(alloc, count as i128, text)
}

/// Returns how many of `count` items come before a position.
pub fn before(place: i128, count: usize) -> usize
    ensures { result ≡ min (before place) count }
{
    if place < 0 {
        0
    } else if place < count as i128 {
        place as usize
    } else {
        count
    }
}

/// Returns how many of `count` items come up to a position, inclusive.
pub fn up_to(place: i128, count: usize) -> usize
    ensures { result ≡ min (up_to place) count }
{
    if place < 0 {
        0
    } else if place < count as i128 {
        place as usize + 1
    } else {
        count
    }
}

/// Returns the items from one position to another, inclusive.
#[tactic(auto, using(std::proofs::lemmas::List::take_min, std::proofs::lemmas::List::drop_min))]
pub fn between<T>(from: i128, to: i128, items: &[T]) -> &[T]
    ensures { result.now ≡ between from to items.now }
{
    let front = items.split_at(up_to(to, items.len())).0;
    front.split_at(before(from, front.len())).1
}

/// Copies the elements from one position to another, inclusive.
#[tactic(auto, using(std::proofs::lemmas::List::take_min, std::proofs::lemmas::List::drop_min))]
pub fn elements_between(
    alloc: Global,
    from: i128,
    to: i128,
    elements: &Elements,
) -> Result<Packed, AllocError>
    ensures { IfOk result (λ p. p ≡ between from to elements.now) }
{
    let count = up_to(to, elements.len());
    elements.part(alloc, before(from, count), count)
}

/// Returns the element at a position, or an empty value if there is none.
pub fn element_at(alloc: Global, place: i128, elements: &Elements) -> Result<Value, AllocError>
    ensures { IfOk result (λ v. v ≡ element_at place elements.now) }
{
    if place < 0 {
        return Ok(Value::new(alloc));
    }
    if elements.len() as i128 <= place {
        return Ok(Value::new(alloc));
    }
    match elements.value(alloc, place as usize)? {
        Some(element) => Ok(element),
        None => Ok(Value::new(alloc)),
    }
}

/// Returns the element at an index, or an empty text if there is none.
pub fn element(elements: &Elements, index: usize) -> &[u8]
    ensures { result.now ≡ slice_index_or elements.now index [] }
{
    match elements.get(index) {
        Some(element) => element,
        None => &[],
    }
}
