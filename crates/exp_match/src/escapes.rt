//! Escapes in a regular pattern.

ghost use Rattle.std.specs.Prelude.{◌≡◌, ◌≢◌, ◌+◌, ◌≤◌, ◌<◌, IfSome, IsTrue, length, option_map, true};
ghost use Rattle.std.specs.Char.{digit_value};
ghost use Rattle.exp_match.specs.Scan.{control as control_of, is_quotable as quotable, quoted as quoted_of, is_hex as hex, pair as pair_of, unless_surrogate as unless_surrogate_of, two_pairs as two_pairs_of, escaped as escaped_of, is_set as set};

use crate::places::{after, char_at};

/// Returns the control character of a letter: the escapes `\a \e \f \n \r \t \v`.
fn control(c: char) -> Option<usize>
    ensures { result ≡ control_of c }
{
    match c {
        'a' => Some(0x07),
        'e' => Some(0x1B),
        'f' => Some(0x0C),
        'n' => Some(0x0A),
        'r' => Some(0x0D),
        't' => Some(0x09),
        'v' => Some(0x0B),
        _ => None,
    }
}

/// Returns whether a character stands for itself after a backslash.
fn is_quotable(c: char) -> bool
    ensures { result ≡ quotable c }
{
    c.is_ascii() && !c.is_ascii_alphanumeric()
}

/// Returns the character that a backslash and one character stand for. `None` if the escape is
/// unknown.
fn quoted(c: char) -> Option<usize>
    ensures { result ≡ quoted_of c }
{
    if is_quotable(c) {
        Some(c as usize)
    } else {
        control(c)
    }
}

/// Returns whether a character is a hexadecimal digit.
fn is_hex(c: char) -> bool
    ensures value { result ≡ hex c }
    ensures some { IsTrue result → c ≢ 0 }
{
    c.is_digit(16)
}

/// Returns the value of a hexadecimal digit.
fn hex_value(c: char) -> usize
    requires { hex c ≡ true }
    ensures value { result ≡ digit_value c }
    ensures small { result < 16 }
{
    match c.to_digit(16) {
        Some(value) => value as usize,
        None => 0,
    }
}

/// Returns the number that two hexadecimal digits write.
fn pair(chars: &[char]) -> Option<usize>
    ensures value { result ≡ pair_of chars.now }
    ensures small { IfSome result (λ n. n < 256) }
    ensures within { IfSome result (λ _. 2 ≤ length chars.now) }
{
    let high = char_at(chars, 0);
    let low = char_at(chars, 1);
    if is_hex(high) && is_hex(low) {
        Some(16 * hex_value(high) + hex_value(low))
    } else {
        None
    }
}

/// Returns a number that is no surrogate, so that it is a character.
fn unless_surrogate(n: usize) -> Option<usize>
    ensures { result ≡ unless_surrogate_of n }
{
    if 0xD800 <= n && n <= 0xDFFF {
        None
    } else {
        Some(n)
    }
}

/// Returns the character that four hexadecimal digits write.
fn two_pairs(chars: &[char]) -> Option<usize>
    ensures value { result ≡ two_pairs_of chars.now }
    ensures within { IfSome result (λ _. 4 ≤ length chars.now) }
{
    let high = pair(chars)?;
    let low = pair(after(chars, 2))?;
    unless_surrogate(256 * high + low)
}

/// Returns a character with the number of characters that write it.
fn with_length(value: Option<usize>, length: usize) -> Option<(usize, usize)>
    ensures { result ≡ option_map (λ v. (v, length)) value }
{
    match value {
        Some(value) => Some((value, length)),
        None => None,
    }
}

/// Returns the character that an escape stands for, after its backslash, and the number of
/// characters that write it.
#[tactic(auto, unfolding(crate::specs::Scan::escaped))]
pub(crate) fn escaped(chars: &[char]) -> Option<(usize, usize)>
    ensures value { result ≡ escaped_of chars.now }
    ensures within { IfSome result (λ p. p.1 ≤ length chars.now) }
{
    match chars {
        [] => None,
        [c, rest @ ..] => match *c {
            'x' => with_length(pair(rest), 3),
            'u' => with_length(two_pairs(rest), 5),
            _ => with_length(quoted(*c), 1),
        },
    }
}

/// Returns whether an escape stands for a set of characters.
pub(crate) fn is_set(c: char) -> bool
    ensures { result ≡ set c }
{
    matches!(c, 'd' | 's' | 'w' | 'D' | 'S' | 'W')
}
