//! Reads a line of output from left to right. Most lines of a log are lines of output.

ghost use Rattle.std.specs.Prelude.{◌≡◌, ◌≤◌, ◌<◌, ◌∷◌, take as first, length, codes, Some, IfOk, IfSome};
ghost use Rattle.std.specs.Bool.{OnTrue};
ghost use Rattle.child_events.specs.Reading.{parts, digits_number, NumberFirst};
ghost use Rattle.child_events.specs.Judging.{ArePairs, IsPieceLine, IsStampOf, SaysPiece};

use crate::child_numbers::ChildNumbers;
use crate::digits::{decoded, is_lower_hex};
use crate::fields::{MOST_DECIMALS, MOST_DIGITS, MOST_MOMENT, Stamp, starts_number};
use std::alloc::{AllocError, Global};
use tcl_words::Text;

/// Returns the bytes after the first word, if this is `out`.
fn behind_out(line: &[u8]) -> Option<&[u8]>
    ensures { IfSome result (λ rest. parts 32 line.now ≡ codes "out" ∷ parts 32 rest.now) }
{
    match line {
        [b'o', b'u', b't', b' ', rest @ ..] => Some(rest),
        _ => None,
    }
}

/// Returns the number before the space at index `at`, and the bytes after the space.
fn ended(bytes: &[u8], at: usize, number: u64) -> Option<(u64, &[u8])>
    requires within { at < length bytes.now }
    requires few { at ≤ 16 }
    requires number { digits_number (first at bytes.now) ≡ Some number }
    ensures { IfSome result (λ found. NumberFirst bytes.now found.0 found.1.now) }
{
    if bytes[at] != b' ' || !starts_number(&bytes[..at]) {
        return None;
    }
    Some((number, &bytes[at + 1..]))
}

/// Returns a one-digit number and the bytes after its space.
fn one_digit<'a>(digit: u8, rest: &'a [u8]) -> Option<(u64, &'a [u8])>
    ensures { IfSome result (λ found. NumberFirst (digit ∷ 32 ∷ rest.now) found.0 found.1.now) }
{
    if !digit.is_ascii_digit() {
        return None;
    }
    Some((u64::from(digit - b'0'), rest))
}

/// Returns a two-digit number and the bytes after its space.
fn two_digits<'a>(high: u8, low: u8, rest: &'a [u8]) -> Option<(u64, &'a [u8])>
    ensures { IfSome result (λ found. NumberFirst (high ∷ low ∷ 32 ∷ rest.now) found.0 found.1.now) }
{
    if !high.is_ascii_digit() || high == b'0' || !low.is_ascii_digit() {
        return None;
    }
    Some((u64::from(high - b'0') * 10 + u64::from(low - b'0'), rest))
}

/// Returns a number of one or two digits and the bytes after its space.
fn small_number(bytes: &[u8]) -> Option<(u64, &[u8])>
    ensures { IfSome result (λ found. NumberFirst bytes.now found.0 found.1.now) }
{
    match bytes {
        [digit, b' ', rest @ ..] => one_digit(*digit, rest),
        [high, low, b' ', rest @ ..] => two_digits(*high, *low, rest),
        _ => None,
    }
}

/// Returns the number before the first space and the bytes after the space.
fn leading_number(bytes: &[u8]) -> Option<(u64, &[u8])>
    ensures { IfSome result (λ found. NumberFirst bytes.now found.0 found.1.now) }
{
    let end = bytes.len().min(MOST_DECIMALS + 1);
    let mut number: u64 = 0;
    for i in 0..end {
        let b = bytes[i];
        if !b.is_ascii_digit() {
            return ended(bytes, i, number);
        }
        number = number * 10 + u64::from(b - b'0');
    }
    None
}

/// Returns true only if these are the digits of a non-empty piece.
fn are_pairs(digits: &[u8]) -> bool
    ensures { OnTrue result (ArePairs digits.now) }
{
    !digits.is_empty()
        && digits.len() % 2 == 0
        && digits.len() <= MOST_DIGITS
        && is_lower_hex(digits)
}

/// Returns the stamp, if the three numbers are within their limits.
fn stamp_of(numbers: ChildNumbers, script: u64, child: u64, moment: u64) -> Option<Stamp>
    ensures { IfSome result (λ stamp. IsStampOf numbers script child moment stamp) }
{
    if script < 1 || 64 < script || MOST_MOMENT < moment {
        return None;
    }
    if child < numbers.least() || numbers.most() < child {
        return None;
    }
    Some(Stamp {
        script: script as u8,
        child: child as u16,
        moment,
    })
}

/// Returns the stamp and the last word of a line of output. The line is correct if that word
/// contains the digits of a non-empty piece.
///
/// `None` says nothing about the line.
fn head(numbers: ChildNumbers, line: &[u8]) -> Option<(Stamp, &[u8])>
    ensures { IfSome result (λ found. ArePairs found.1.now → IsPieceLine numbers line.now found.0 found.1.now) }
{
    if line.len() > numbers.longest() {
        return None;
    }
    let rest = behind_out(line)?;
    let (script, rest) = small_number(rest)?;
    let (child, rest) = small_number(rest)?;
    let (moment, digits) = leading_number(rest)?;
    let stamp = stamp_of(numbers, script, child, moment)?;
    Some((stamp, digits))
}

/// Returns the stamp and the digits of a correct line of output. `None` says nothing about the
/// line.
pub fn piece_line(numbers: ChildNumbers, line: &[u8]) -> Option<(Stamp, &[u8])>
    ensures { IfSome result (λ found. IsPieceLine numbers line.now found.0 found.1.now) }
{
    let (stamp, digits) = head(numbers, line)?;
    if !are_pairs(digits) {
        return None;
    }
    Some((stamp, digits))
}

/// Returns the stamp and the bytes of a correct line of output, in one pass over the digits.
///
/// `None` says nothing about the line.
#[tactic(auto, using(crate::proofs::Pieces::piece_read))]
pub fn read_piece(
    alloc: Global,
    numbers: ChildNumbers,
    line: &[u8],
) -> Result<Option<(Stamp, Text)>, AllocError>
    ensures { IfOk result (λ found. IfSome found (λ p. SaysPiece numbers line.now p.0 p.1)) }
{
    let Some((stamp, digits)) = head(numbers, line) else {
        return Ok(None);
    };
    if digits.is_empty() || digits.len() > MOST_DIGITS {
        return Ok(None);
    }
    match decoded(alloc, digits)? {
        Some(piece) => Ok(Some((stamp, piece))),
        None => Ok(None),
    }
}
