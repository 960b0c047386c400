//! Numbers as text: an optional minus and digits without a leading zero, within 64 bits.

ghost use Rattle.std.specs.Prelude.{◌≡◌, ◌≤◌, ◌<◌, ◌==◌, ◌||◌, not, length, IfOk};
ghost use Rattle.tcl_expr.specs.Number.{is_digit, digits_value, based as based_of, begins_with_zero, numeral as numeral_of, negative, number_of, number_text};

use crate::white::before;
use itoa::Buffer;
use std::alloc::{AllocError, Global};
use tcl_values::Value;
use tcl_words::digit;

/// Returns whether a byte is an ASCII digit.
pub(crate) fn is_digit(b: u8) -> bool
    ensures { result ≡ is_digit b }
{
    48 <= b && b <= 57
}

/// Returns the value of at most 19 digits. `None` if a byte is no digit.
fn value(text: &[u8]) -> Option<u64>
    requires { length text.now ≤ 19 }
    ensures { result ≡ digits_value text.now }
{
    let mut n: u64 = 0;
    for b in text {
        if !is_digit(*b) {
            return None;
        }
        n = n * 10 + u64::from(*b - b'0');
    }
    Some(n)
}

/// Returns whether a text of 1 to 19 bytes begins with a leading zero, if its bytes are digits.
fn is_padded(text: &[u8]) -> bool
    requires { 0 < length text.now }
    ensures { result ≡ not (length text.now == 1 || not (begins_with_zero text.now)) }
{
    text.len() != 1 && text[0] == b'0'
}

/// Returns the number that the digits write. `None` if it exceeds `most`, or if they are no
/// numeral.
pub(crate) fn numeral(most: u64, text: &[u8]) -> Option<u64>
    ensures value { result ≡ numeral_of most text.now }
    ensures within { IfSome result (λ n. n ≤ most) }
{
    if text.is_empty() || text.len() > 19 || is_padded(text) {
        return None;
    }
    let n = value(text)?;
    if n <= most { Some(n) } else { None }
}

/// Returns the number that one or more digits of a base write. `None` if a byte is no digit, or the number exceeds the
/// greatest of 64 bits with a sign.
pub(crate) fn based(base: u8, text: &[u8]) -> Option<u64>
    requires { base ≤ 16 }
    ensures value { result ≡ based_of base 9223372036854775807 text.now }
    ensures within { IfSome result (λ n. n ≤ 9223372036854775807) }
{
    if text.is_empty() {
        return None;
    }
    let mut n: u64 = 0;
    for b in text {
        let d = digit(base, *b)?;
        let longer = u128::from(base) * u128::from(n) + u128::from(d);
        if longer > 9_223_372_036_854_775_807 {
            return None;
        }
        n = longer as u64;
    }
    Some(n)
}

/// Returns the negative number of a magnitude. `None` for 0, because `-0` is no number.
fn negative(magnitude: Option<u64>) -> Option<i64>
    requires { IfSome magnitude (λ n. n ≤ 9223372036854775808) }
    ensures { result ≡ negative magnitude }
{
    match magnitude {
        None => None,
        Some(n) => {
            if n == 0 {
                return None;
            }
            Some(!((n - 1) as i64))
        }
    }
}

ghost use Rattle.std.specs.Prelude.{IfSome};
ghost use Rattle.tcl_expr.specs.Number.{positive};

fn positive(magnitude: Option<u64>) -> Option<i64>
    requires { IfSome magnitude (λ n. n ≤ 9223372036854775807) }
    ensures { result ≡ positive magnitude }
{
    match magnitude {
        None => None,
        Some(n) => Some(n as i64),
    }
}

/// Returns the number that a text is. `None` if it is none.
///
/// A number is an optional minus and digits without a leading zero, from -9223372036854775808 to
/// 9223372036854775807. `-0`, `+1`, `007`, digits with blanks around them and the empty text are no
/// numbers.
#[tactic(auto, unfolding(crate::specs::Number::number_of))]
pub fn read_number(text: &[u8]) -> Option<i64>
    ensures { result ≡ number_of text.now }
{
    match text {
        [] => None,
        [b'-', digits @ ..] => negative(numeral(9_223_372_036_854_775_808, digits)),
        [_, ..] => positive(numeral(9_223_372_036_854_775_807, text)),
    }
}

/// Returns the text of a number: its decimal digits, with `-` before them if it is negative. A text
/// of at most 15 bytes needs no allocation.
pub fn write_number(alloc: Global, number: i64) -> Result<Value, AllocError>
    ensures text { IfOk result (λ t. t ≡ number_text number) }
{
    let mut digits = Buffer::new();
    Value::from_slice(alloc, digits.format(number).as_bytes())
}
