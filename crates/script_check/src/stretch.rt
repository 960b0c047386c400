//! The bytes of a range, and positions.

ghost use Rattle.std.specs.Prelude.{◌≡◌, ◌-◌, drop, take, length};
ghost use Rattle.script_check.specs.Stretches.{begins_with, part, inside};

use crate::span::Span;

/// Returns the elements from index n on. Empty past the end.
pub(crate) fn behind<T>(list: &[T], n: usize) -> &[T]
    ensures { result.now ≡ drop n list.now }
{
    if n < list.len() {
        list.split_at(n).1
    } else {
        &[]
    }
}

/// Returns the first n bytes, or all of them.
pub(crate) fn before(bytes: &[u8], n: usize) -> &[u8]
    ensures { result.now ≡ take n bytes.now }
{
    if n < bytes.len() {
        bytes.split_at(n).0
    } else {
        bytes
    }
}

/// Returns the bytes in a range.
pub(crate) fn part(source: &[u8], span: Span) -> &[u8]
    ensures { result.now ≡ part source.now span }
{
    before(behind(source, span.from), span.to.saturating_sub(span.from))
}

/// Returns a range without its first and its last byte.
pub(crate) fn inside(span: Span) -> Span
    ensures { result ≡ inside span }
{
    if span.from < span.to {
        Span {
            from: span.from + 1,
            to: span.to - 1,
        }
    } else {
        span
    }
}

/// Returns the position of a text that ends at `end`.
pub(crate) fn place(end: usize, text: &[u8]) -> usize
    ensures { result ≡ end - length text.now }
{
    end.saturating_sub(text.len())
}

/// Returns whether a text begins with a byte.
pub(crate) fn begins_with(b: u8, bytes: &[u8]) -> bool
    ensures { result ≡ begins_with b bytes.now }
{
    match bytes {
        [] => false,
        [first, ..] => *first == b,
    }
}
