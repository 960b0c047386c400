//! Counts of repetition in a regular pattern.

ghost use Rattle.std.specs.Prelude.{◌≡◌, ◌+◌, ◌≤◌, ◌<◌, IfSome, IsTrue, length};
ghost use Rattle.exp_match.specs.Scan.{is_digit as is_digit_of, three_digits as three_digits_of, number as number_of, count_to as count_to_of, count_on as count_on_of, count_from as count_from_of, count as count_of};

use crate::places::{after, char_at, is_at};

/// Returns whether a character is an ASCII digit.
pub(crate) fn is_digit(c: char) -> bool
    ensures value { result ≡ is_digit_of c }
    ensures range { IsTrue result → (48 ≤ c) × (c ≤ 57) }
{
    '0' <= c && c <= '9'
}

/// Returns the value of a digit.
fn value(c: char) -> usize
    requires { (48 ≤ c) × (c ≤ 57) }
    ensures value { result + 48 ≡ c }
    ensures small { result ≤ 9 }
{
    c as usize - 48
}

/// Returns a number of three digits and its length. `None` above 255.
fn three_digits(n: usize) -> Option<(usize, usize)>
    ensures value { result ≡ three_digits_of n }
    ensures digits { IfSome result (λ p. p.1 ≡ 3) }
{
    if n <= 255 { Some((n, 3)) } else { None }
}

/// Returns the number at the front, and its number of digits. A `0` is not followed by digits.
#[tactic(auto, unfolding(crate::specs::Scan::number))]
fn number(chars: &[char]) -> Option<(usize, usize)>
    ensures value { result ≡ number_of chars.now }
    ensures within { IfSome result (λ p. p.1 ≤ length chars.now) }
{
    let a = char_at(chars, 0);
    if !is_digit(a) {
        return None;
    }
    let b = char_at(chars, 1);
    if a == '0' {
        return Some((value(a), 1));
    }
    if !is_digit(b) {
        return Some((value(a), 1));
    }
    let c = char_at(chars, 2);
    if !is_digit(c) {
        return Some((10 * value(a) + value(b), 2));
    }
    three_digits(100 * value(a) + 10 * value(b) + value(c))
}

/// Returns the number of characters after `{m,` up to and including the `}`, given the second
/// number.
fn count_to(low: usize, chars: &[char], high: Option<(usize, usize)>) -> Option<usize>
    ensures value { result ≡ count_to_of low chars.now high }
    ensures within { IfSome result (λ n. n ≤ length chars.now) }
{
    match high {
        Some((high, n)) => {
            if is_at(chars, n, '}') && low <= high {
                Some(n + 1)
            } else {
                None
            }
        }
        None => None,
    }
}

/// Returns the number of characters after `{m,` up to and including the `}`.
fn count_on(low: usize, chars: &[char]) -> Option<usize>
    ensures value { result ≡ count_on_of low chars.now }
    ensures within { IfSome result (λ n. n ≤ length chars.now) }
{
    if is_at(chars, 0, '}') {
        return Some(1);
    }
    count_to(low, chars, number(chars))
}

/// Returns the number of characters in a count after its `{`, with its `}`, given its first number.
fn count_from(chars: &[char], low: Option<(usize, usize)>) -> Option<usize>
    ensures value { result ≡ count_from_of chars.now low }
    ensures within { IfSome result (λ n. n ≤ length chars.now) }
{
    let Some((low, n)) = low else {
        return None;
    };
    if is_at(chars, n, '}') {
        return Some(n + 1);
    }
    if !is_at(chars, n, ',') {
        return None;
    }
    match count_on(low, after(chars, n + 1)) {
        Some(k) => Some(n + 1 + k),
        None => None,
    }
}

/// Returns the number of characters in a count after its `{`, with its `}`.
#[tactic(auto, unfolding(crate::specs::Scan::count))]
pub(crate) fn count(chars: &[char]) -> Option<usize>
    ensures value { result ≡ count_of chars.now }
    ensures within { IfSome result (λ n. n ≤ length chars.now) }
{
    count_from(chars, number(chars))
}
