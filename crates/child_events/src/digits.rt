//! The last word of a log line, which may contain the hexadecimal digits of a piece.

ghost use Rattle.std.specs.Prelude.{◌≡◌, ◌*◌, ◌<◌, ℕ, true, length, Some, Ok, IfOk};
ghost use Rattle.hex.specs.Hex.{decode_of, hex_digit_value, pair_value};
ghost use Rattle.child_events.specs.Reading.{is_lower_hex_digit as is_digit, all_lower_hex};
ghost use Rattle.child_events.specs.Judging.{Decodes};

use std::alloc::{AllocError, Global};
use std::marker::Model;
use tcl_words::Text;

/// A word, with the result of one pass over its bytes. A contract sees the bytes.
#[derive(Drop)]
pub struct Digits<'a> {
    word: &'a [u8],
    /// Whether all bytes are lower-case hexadecimal digits.
    lower: bool,
}

impl<'a> Model for Digits<'a> {
    ghost use Rattle.std.specs.Prelude.{List, ℕ, ◌≡◌};
    ghost use Rattle.child_events.specs.Reading.{all_lower_hex};

    ghost Value = { List ℕ };

    ghost view = { λ d. d.word.now };

    ghost invariant = { λ d. d.lower ≡ all_lower_hex d.word.now };
}

fn is_lower_hex_digit(digit: u8) -> bool
    ensures { result ≡ is_digit digit }
{
    (b'0' <= digit && digit <= b'9') || (b'a' <= digit && digit <= b'f')
}

/// Returns whether all bytes are lower-case hexadecimal digits.
pub fn is_lower_hex(word: &[u8]) -> bool
    ensures { result ≡ all_lower_hex word.now }
{
    let mut all = true;
    for digit in word {
        all = all & is_lower_hex_digit(*digit);
    }
    all
}

/// Returns the value of a lower-case digit. The result is unspecified for other bytes.
fn value_of(digit: u8) -> u8
    ensures value { is_digit digit ≡ true → hex_digit_value digit ≡ Some result }
    ensures small { is_digit digit ≡ true → result < 16 }
{
    if digit <= b'9' {
        digit.wrapping_sub(b'0')
    } else {
        digit.wrapping_sub(b'a' - 10)
    }
}

/// Returns the byte of two lower-case digits. The result is unspecified for other bytes.
fn byte_of(high: u8, low: u8) -> u8
    ensures { is_digit high ≡ true → is_digit low ≡ true → (at : ℕ) → pair_value high low at ≡ Ok result }
{
    value_of(high).wrapping_mul(16).wrapping_add(value_of(low))
}

/// Decodes pairs of lower-case digits into `out` in one pass. Returns false if a byte is no such
/// digit; `out` is then unspecified.
fn decode_lower(word: &[u8], out: &mut [u8]) -> bool
    requires { length word.now ≡ 2 * length out.old }
    ensures judged { result ≡ all_lower_hex word.now }
    ensures decoded { result ≡ true → decode_of word.now ≡ Ok out.new }
{
    let mut lower = true;
    'bytes: for i in 0..out.len() {
        let high = word[2 * i];
        let low = word[2 * i + 1];
        lower = lower & is_lower_hex_digit(high) & is_lower_hex_digit(low);
        out[i] = byte_of(high, low);
    }
    lower
}

/// Decodes pairs of lower-case digits in one pass. `None` if the word has an odd length or another
/// byte.
pub fn decoded(alloc: Global, word: &[u8]) -> Result<Option<Text>, AllocError>
    ensures { IfOk result (Decodes word.now) }
{
    if word.len() % 2 != 0 {
        return Ok(None);
    }
    let mut bytes = vec![in alloc; 0u8; word.len() / 2]?;
    if decode_lower(word, bytes.as_mut_slice()) {
        Ok(Some(Text { bytes }))
    } else {
        Ok(None)
    }
}

impl<'a> Digits<'a> {
    pub fn new(word: &'a [u8]) -> Digits<'a>
        ensures { result ≡ word.now }
    {
        Digits {
            word,
            lower: is_lower_hex(word),
        }
    }

    /// Returns whether all bytes are lower-case hexadecimal digits.
    pub fn is_lower(&self) -> bool
        ensures { result ≡ all_lower_hex self.now }
    {
        self.lower
    }

    pub fn word(&self) -> &'a [u8]
        ensures { result.now ≡ self.now }
    {
        self.word
    }
}
