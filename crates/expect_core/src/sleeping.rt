//! `sleep` (expect(1)) and `after` (after(n)).

ghost use Rattle.std.specs.Prelude.{◌≡◌, ◌≤◌, ◌<◌, ◌+◌, ◌*◌, ◌-◌, ◌==◌, ◌&&◌, nat_le, ℕ, Option, length, position, option_map, IfOk, IfSome};
ghost use Rattle.tcl_words.specs.Bytes as ascii;
ghost use Rattle.tcl_results.specs.Says.{Says};
ghost use Rattle.expect_core.specs.Pauses.{nothing_until as nothing_of};
ghost use Rattle.expect_core.specs.Sleeping.{digit_at as digit_of, digits as digits_of, kept, seconds as seconds_of, signed as signed_of, sleeping, sleeping_for as sleeping_of, sleeping_if, thousandths as thousandths_of, until as until_of, waiting_after, whole as whole_of};

use crate::effect::Effects;
use crate::flags::{arguments, text};
use crate::own::Own;
use crate::place::Place;
use crate::plan::{Plan, PlanBox, Sides, Span};
use crate::served::ServedGroups;
use crate::spread::Spread;
use crate::turn::{Deed, done};
use command_table::ExpectCommand;
use exp_match::{Entries, PatternList};
use std::alloc::{AllocError, Global};
use tcl_results::{Complaint, expected_number};
use tcl_values::Value;
use tcl_words::Texts;

/// The longest time, in milliseconds. A longer one never ends, and is kept as one more than this.
const LONGEST: u64 = 9_000_000_000_000_000;

/// Returns what is kept of a time.
fn kept(time: u64) -> u64
    ensures { result ≡ kept time }
{
    time.min(LONGEST + 1)
}

/// Returns what is kept of a number with one digit more.
fn with_digit(number: u64, digit: u8) -> u64
    requires { number ≤ 9000000000000001 }
    ensures { result ≡ kept (number * 10 + (digit - 48)) }
{
    kept(number * 10 + u64::from(digit.saturating_sub(b'0')))
}

/// Returns whether a byte is a digit.
fn is_digit(byte: u8) -> bool
    ensures { result ≡ (nat_le 48 byte && nat_le byte 57) }
{
    b'0' <= byte && byte <= b'9'
}

/// Returns what is kept of the number that digits write.
pub(crate) fn digits(text: &[u8]) -> Option<u64>
    ensures number { result ≡ option_map kept (digits_of text.now) }
    ensures most { IfSome result (λ n. n ≤ 9000000000000001) }
{
    if text.is_empty() {
        return None;
    }
    let mut number = 0;
    for byte in text {
        if !is_digit(*byte) {
            return None;
        }
        number = with_digit(number, *byte);
    }
    Some(number)
}

/// Returns the digit at an index, or 0 behind the last one.
fn digit_at(digits: &[u8], n: usize) -> u64
    ensures digit { result ≡ digit_of digits.now n }
    ensures most { result ≤ 207 }
{
    match digits.get(n) {
        Some(digit) => u64::from(digit.saturating_sub(b'0')),
        None => 0,
    }
}

/// Returns three decimals in thousandths.
fn thousandths(decimals: &[u8]) -> Option<u64>
    ensures decimals { result ≡ thousandths_of decimals.now }
    ensures most { IfSome result (λ n. n ≤ 22977) }
{
    match digits(decimals) {
        Some(_) => Some(
            100 * digit_at(decimals, 0) + 10 * digit_at(decimals, 1) + digit_at(decimals, 2),
        ),
        None => None,
    }
}

/// Returns what is kept of the number before the point at an index.
fn whole(text: &[u8], at: usize) -> Option<u64>
    requires { at ≤ length text.now }
    ensures number { result ≡ option_map kept (whole_of text.now at) }
    ensures most { IfSome result (λ n. n ≤ 9000000000000001) }
{
    if at == 0 {
        return Some(0);
    }
    digits(&text[..at])
}

/// Returns what is kept of seconds and thousandths, in milliseconds.
fn milliseconds(seconds: u64, thousandths: u64) -> u64
    requires { (seconds ≤ 9000000000000001) × (thousandths ≤ 22977) }
    ensures { (n : ℕ) → kept n ≡ seconds → result ≡ kept (n * 1000 + thousandths) }
{
    kept(seconds * 1000 + thousandths)
}

/// Returns the index of the first point.
fn point_in(text: &[u8]) -> Option<usize>
    ensures place { result ≡ position (λ c. c == ascii.dot) text.now }
    ensures within { IfSome result (λ n. n < length text.now) }
{
    text.iter().position(|byte| *byte == b'.')
}

/// Returns what is kept of a time in seconds, in milliseconds.
fn seconds(text: &[u8]) -> Option<u64>
    ensures { result ≡ option_map kept (seconds_of text.now) }
{
    let Some(at) = point_in(text) else {
        return match digits(text) {
            Some(seconds) => Some(milliseconds(seconds, 0)),
            None => None,
        };
    };
    match (whole(text, at), thousandths(&text[at + 1..])) {
        (Some(seconds), Some(thousandths)) => Some(milliseconds(seconds, thousandths)),
        (Some(_), None) => None,
        (None, _) => None,
    }
}

/// Returns what is kept of a time in seconds, in milliseconds. A time below zero is none.
pub(crate) fn signed(text: &[u8]) -> Option<u64>
    ensures { result ≡ option_map kept (signed_of text.now) }
{
    match text {
        [] => None,
        [b'-', rest @ ..] => match seconds(rest) {
            Some(_) => Some(0),
            None => None,
        },
        [_, ..] => seconds(text),
    }
}

/// Returns the last moment of a wait, given what is kept of its time.
pub(crate) fn until(clock: u64, time: u64) -> Option<u128>
    ensures exact { result ≡ until_of clock time }
    ensures kept { (n : ℕ) → kept n ≡ time → result ≡ until_of clock n }
{
    if LONGEST < time {
        return None;
    }
    Some(u128::from(clock) + u128::from(time))
}

/// Returns a wait that no child takes part in. After it, what is pending is sent.
pub(crate) fn nothing_until(
    alloc: Global,
    last: Option<u128>,
    pending: Option<(Place, Spread)>,
) -> Result<PlanBox, AllocError>
    ensures { IfOk result (λ p. p ≡ nothing_of last pending) }
{
    PlanBox::new(
        alloc,
        Plan {
            sides: Sides::new(alloc),
            ids: ServedGroups::new(alloc),
            list: PatternList {
                entries: Entries::new(alloc),
                ids: Texts::new(alloc),
                timeout: None,
            },
            span: Span::Never,
            deadline: last,
            met: None,
            pending,
        },
    )
}

/// Returns what waits for a time, given what is kept of it.
fn sleeping_for(alloc: Global, own: &Own, time: u64) -> Result<Deed, AllocError>
    ensures { (n : ℕ) → kept n ≡ time → IfOk result (λ d. d ≡ sleeping_of own.now n) }
{
    if time == 0 {
        return Ok(Deed::Alone(Effects::new(alloc), done(Value::new(alloc))));
    }
    Ok(Deed::Expect(nothing_until(alloc, until(own.clock, time), None)?))
}

/// Returns what waits for the time that a text writes, given what is kept of it.
fn deed_of(alloc: Global, own: &Own, text: &Value, time: Option<u64>) -> Result<Deed, Complaint>
    ensures { (meant : Option ℕ) → option_map kept meant ≡ time → Says result (sleeping_if own.now text.now meant) }
{
    match time {
        Some(time) => Ok(sleeping_for(alloc, own, time)?),
        None => Err(Complaint::Said(expected_number(alloc, text.as_slice())?)),
    }
}

/// Returns what `sleep seconds` does.
pub(crate) fn sleep(
    alloc: Global,
    name: &[u8],
    args: &[Value],
    own: &Own,
) -> Result<Deed, Complaint>
    ensures { Says result (sleeping name.now args.now own.now) }
{
    let (_, at) = arguments(alloc, ExpectCommand::Sleep, name, args)?;
    let word = text(alloc, &args[at..])?;
    deed_of(alloc, own, &word, signed(word.as_slice()))
}

/// Returns what `after ms` does.
pub(crate) fn after(
    alloc: Global,
    name: &[u8],
    args: &[Value],
    own: &Own,
) -> Result<Deed, Complaint>
    ensures { Says result (waiting_after name.now args.now own.now) }
{
    let (_, at) = arguments(alloc, ExpectCommand::After, name, args)?;
    let word = text(alloc, &args[at..])?;
    deed_of(alloc, own, &word, digits(word.as_slice()))
}
