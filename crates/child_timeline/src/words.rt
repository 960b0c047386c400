//! Splits lines into words.

ghost use Rattle.std.specs.Prelude.{◌≡◌, ◌≤◌, length};
ghost use Rattle.std.specs.Str.{bytes_eq};
ghost use Rattle.child_events.specs.Reading.{number_of, starts_number as starts, digits_number as digits_number_of, SplitsAt};
ghost use Rattle.tcl_words.specs.Bytes.{newline};
ghost use Rattle.child_timeline.specs.Words.{is_blank as is_blank_of, after_blanks, first_word, past_word as past_word_of, behind_word};

use memchr::memchr;

pub(crate) fn is_blank(byte: u8) -> bool
    ensures { result ≡ is_blank_of byte }
{
    byte == b' ' || byte == b'\t'
}

/// Returns the bytes after the leading blanks.
pub(crate) fn skip_blanks(bytes: &[u8]) -> &[u8]
    ensures { result.now ≡ after_blanks bytes.now }
{
    for i in 0..bytes.len() {
        if !is_blank(bytes[i]) {
            return &bytes[i..];
        }
    }
    &[]
}

/// Returns the bytes before the first blank, and those from it on.
fn split_at_blank(bytes: &[u8]) -> (&[u8], &[u8])
    ensures word { result.0.now ≡ first_word bytes.now }
    ensures past { result.1.now ≡ past_word_of bytes.now }
{
    for i in 0..bytes.len() {
        if is_blank(bytes[i]) {
            return (&bytes[..i], &bytes[i..]);
        }
    }
    (bytes, &[])
}

/// Returns the first word, and the words after it.
pub(crate) fn split_word(words: &[u8]) -> (&[u8], &[u8])
    ensures word { result.0.now ≡ first_word words.now }
    ensures behind { result.1.now ≡ behind_word words.now }
{
    let (word, past) = split_at_blank(words);
    (word, skip_blanks(past))
}

/// Returns the bytes before and after the first newline. `None` if there is no newline.
pub(crate) fn split_line(bytes: &[u8]) -> Option<(&[u8], &[u8])>
    ensures { SplitsAt newline bytes.now result }
{
    match memchr(b'\n', bytes) {
        Some(i) => Some((&bytes[..i], &bytes[i + 1..])),
        None => None,
    }
}

pub(crate) fn is(word: &[u8], name: &[u8]) -> bool
    ensures { result ≡ bytes_eq word.now name.now }
{
    word == name
}

/// Returns whether the word is a single byte, or begins with a byte other than `0`.
fn starts_number(word: &[u8]) -> bool
    ensures { result ≡ starts word.now }
{
    match word {
        [] => false,
        [_] => true,
        [first, ..] => *first != b'0',
    }
}

/// Returns the number that the decimal digits write. `None` if a byte is no digit.
#[tactic(auto, using(child_events::proofs::Numbers::number_stops, child_events::proofs::Numbers::number_ends))]
pub(crate) fn digits_number(word: &[u8]) -> Option<u64>
    requires { length word.now ≤ 16 }
    ensures { result ≡ digits_number_of word.now }
{
    let mut n: u64 = 0;
    for b in word {
        if !b.is_ascii_digit() {
            return None;
        }
        n = n * 10 + u64::from(*b - b'0');
    }
    Some(n)
}

/// Returns the number that at most sixteen decimal digits write. `None` on a leading zero or
/// another byte.
pub(crate) fn number(word: &[u8]) -> Option<u64>
    ensures { result ≡ number_of word.now }
{
    if starts_number(word) && word.len() <= 16 {
        digits_number(word)
    } else {
        None
    }
}
