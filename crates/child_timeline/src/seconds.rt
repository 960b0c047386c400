//! Reads times in seconds.

ghost use Rattle.std.specs.Prelude.{◌≡◌, ◌+◌, ◌-◌, if◌then◌else◌, IfOk};
ghost use Rattle.fast_float.specs.Text.{Parts};
ghost use Rattle.child_timeline.specs.Seconds.{padded as padded_of, short_number as short_number_of, place_of, micros_with, micros_of};

use crate::words::digits_number;
use fast_float::Numeral;
use std::alloc::{AllocError, Global};
use tcl_words::Text;

/// The decimal places of a microsecond in a second.
const PLACES: u128 = 6;

/// The most digits of a number.
const MOST_DIGITS: u128 = 16;

/// Returns the first `place` digits, padded with zeros.
fn padded(alloc: Global, place: usize, digits: &[u8]) -> Result<Text, AllocError>
    ensures { IfOk result (λ t. t ≡ padded_of place digits.now) }
{
    if place <= digits.len() {
        return Text::from_slice(alloc, &digits[..place]);
    }
    let mut text = Text::from_slice(alloc, digits)?;
    for _ in digits.len()..place {
        text.push(b'0')?;
    }
    Ok(text)
}

/// Returns the number that at most sixteen digits write.
fn short_number(digits: &[u8]) -> Option<u64>
    ensures { result ≡ short_number_of digits.now }
{
    if digits.len() as u128 <= MOST_DIGITS {
        digits_number(digits)
    } else {
        None
    }
}

/// Returns the number that the first `place` digits write, padded with zeros. `None` for more than
/// sixteen digits.
fn number_at(alloc: Global, place: u128, digits: &[u8]) -> Result<Option<u64>, AllocError>
    ensures { IfOk result (λ n. n ≡ short_number_of (padded_of place digits.now)) }
{
    if place > MOST_DIGITS {
        return Ok(None);
    }
    let digits = padded(alloc, place as usize, digits)?;
    Ok(short_number(digits.as_slice()))
}

/// Returns the position of the decimal point after the exponent has moved it, plus six places.
fn place(whole: usize, back: bool, exponent: u64) -> u128
    ensures { result ≡ (if back then whole + 6 - exponent else whole + 6 + exponent) }
{
    let moved = whole as u128 + PLACES;
    if back {
        moved.saturating_sub(u128::from(exponent))
    } else {
        moved + u128::from(exponent)
    }
}

/// Returns the microseconds of a number of seconds.
fn micros_in(alloc: Global, number: &Numeral<'_>) -> Result<Option<u64>, AllocError>
    ensures { IfOk result (λ m. m ≡ micros_with number.now (short_number_of number.now.exponent)) }
{
    let Some(exponent) = short_number(number.exponent()) else {
        return Ok(None);
    };
    let whole = number.whole();
    let place = place(whole.len(), number.is_exponent_negative(), exponent);
    let mut digits = Text::from_slice(alloc, whole)?;
    digits.extend(number.fraction())?;
    number_at(alloc, place, digits.as_slice())
}

/// Reads a number of seconds and returns it in microseconds. `None` if the text is no number, or
/// for more than 9,999,999,999,999,999 microseconds.
pub(crate) fn micros(alloc: Global, text: &[u8]) -> Result<Option<u64>, AllocError>
    ensures { IfOk result (λ m. m ≡ micros_of text.now) }
{
    let number = Numeral::scan(text);
    if number.has_digits() && number.len() == text.len() {
        micros_in(alloc, &number)
    } else {
        Ok(None)
    }
}
