//! Reads backslash escapes.

ghost use Rattle.std.specs.Prelude.{◌≡◌, ◌≤◌, [], ◌∷◌, length, encode_utf8};
ghost use Rattle.tcl_words.specs.Backslash.{escaped, digits, blanks, backslash, digit};

use arrayvec::ArrayVec;

/// Returns the byte that a letter after a backslash names. Seven letters name a control character,
/// all other bytes themselves.
fn named(b: u8) -> u8
    ensures { result ≡ escaped b }
{
    match b {
        b'a' => 0x07,
        b'b' => 0x08,
        b'f' => 0x0c,
        b'n' => 0x0a,
        b'r' => 0x0d,
        b't' => 0x09,
        b'v' => 0x0b,
        _ => b,
    }
}

/// Returns the value of a digit in a base, which is at most 16. `None` if the byte is no such digit.
#[tactic(auto, unfolding(crate::specs::Backslash::digit))]
pub fn digit(base: u8, b: u8) -> Option<u8>
    ensures { result ≡ digit base b }
{
    let value = match b {
        b'0'..=b'9' => b - b'0',
        b'a'..=b'f' => b - 87,
        b'A'..=b'F' => b - 55,
        _ => return None,
    };
    if value < base { Some(value) } else { None }
}

/// Returns the number after at most `most` further digits, and how many digits were read. A digit
/// that would exceed `top` isn't read.
#[tactic(auto, unfolding(crate::specs::Backslash::digits))]
fn digits(base: u8, top: u16, most: u8, value: u16, bytes: &[u8]) -> (u16, usize)
    ensures value { result ≡ digits base top most value bytes.now }
    ensures below { value ≤ top → result.0 ≤ top }
    ensures within { result.1 ≤ length bytes.now }
{
    match bytes {
        [b, rest @ ..] if most > 0 => match digit(base, *b) {
            Some(d) => {
                let longer = base as u32 * value as u32 + d as u32;
                if longer <= top as u32 {
                    let (last, count) = digits(base, top, most - 1, longer as u16, rest);
                    (last, count + 1)
                } else {
                    (value, 0)
                }
            }
            None => (value, 0),
        },
        _ => (value, 0),
    }
}

/// Returns the number of leading spaces and tabs. After a backslash and a newline they belong to
/// the escape.
#[tactic(auto, unfolding(crate::specs::Backslash::blanks))]
pub fn blanks(bytes: &[u8]) -> usize
    ensures value { result ≡ blanks bytes.now }
    ensures within { result ≤ length bytes.now }
{
    bytes
        .iter()
        .take_while(|b| **b == b' ' || **b == b'\t')
        .count()
}

/// Returns a text of one byte.
fn one(b: u8) -> ArrayVec<u8, 3>
    ensures { result.items ≡ b ∷ [] }
{
    let mut text = ArrayVec::new();
    text.push(b);
    text
}

/// Returns the UTF-8 bytes of a number. Surrogates are no exception.
#[tactic(auto, unfolding(std::specs::Prelude::encode_utf8))]
fn encoded(n: u16) -> ArrayVec<u8, 3>
    ensures { result.items ≡ encode_utf8 n }
{
    let mut text = ArrayVec::new();
    if n < 0x80 {
        text.push(n as u8);
    } else if n < 0x800 {
        text.push(0xc0 + (n / 64) as u8);
        text.push(0x80 + (n % 64) as u8);
    } else {
        text.push(0xe0 + (n / 4096) as u8);
        text.push(0x80 + (n / 64 % 64) as u8);
        text.push(0x80 + (n % 64) as u8);
    }
    text
}

/// Returns the bytes that a backslash with these bytes after it stands for, and how many of them
/// belong to it. At the end of the text a backslash stands for itself.
#[tactic(auto, unfolding(crate::specs::Backslash::backslash))]
pub fn backslash(bytes: &[u8]) -> (ArrayVec<u8, 3>, usize)
    ensures value { (result.0.items, result.1) ≡ backslash bytes.now }
    ensures within { result.1 ≤ length bytes.now }
{
    match bytes {
        [] => (one(b'\\'), 0),
        [b'\n', rest @ ..] => (one(b' '), blanks(rest) + 1),
        [b'x', rest @ ..] => match digits(16, 255, 2, 0, rest) {
            (_, 0) => (one(b'x'), 1),
            (value, n) => (one(value as u8), n + 1),
        },
        [b'u', rest @ ..] => match digits(16, 65_535, 4, 0, rest) {
            (_, 0) => (one(b'u'), 1),
            (value, n) => (encoded(value), n + 1),
        },
        [b, rest @ ..] => match digit(8, *b) {
            Some(d) => {
                let (value, n) = digits(8, 255, 2, d as u16, rest);
                (one(value as u8), n + 1)
            }
            None => (one(named(*b)), 1),
        },
    }
}
