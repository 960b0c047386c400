//! Reads the fields of a log line one by one.

ghost use Rattle.std.specs.Prelude.{◌≡◌, ◌≤◌, ◌+◌, ◌<◌, ◌∷◌, [], length, IfOk};
ghost use Rattle.std.specs.Str.{bytes_eq};
ghost use Rattle.child_events.specs.Judging.{judged};
ghost use Rattle.child_events.specs.Reading.{SplitsAt, starts_number as starts, digits_number as digits_number_of, number_of, or_fault, number_within as within, is_lower_hex_digit as is_digit, all_lower_hex, piece_of, cause_of, what_alone as alone_of, failed as failed_of, what_failed as failed_with, moment_of, stamp_of, any_empty as any_empty_of, Reads};

use crate::child_numbers::ChildNumbers;
use crate::digits::{Digits, decoded};
use crate::event::{Answer, Cause, HallEvent, What};
use crate::faults::LogFault;
use memchr::memchr;
use std::alloc::Global;
use tcl_words::Text;

/// The greatest moment in a log, in milliseconds.
pub(crate) const MOST_MOMENT: u64 = 9_000_000_000_000_000;

/// The most decimal digits in a number.
pub const MOST_DECIMALS: usize = 16;

/// The most hexadecimal digits in a piece.
pub const MOST_DIGITS: usize = 8192;

/// The three words of a child's line that give script, child and moment.
#[derive(Clone, Copy)]
pub struct StampWords<'a> {
    pub script: &'a [u8],
    pub child: &'a [u8],
    pub moment: &'a [u8],
}

impl StampWords<'_> {
    pub fn any_empty(&self) -> bool
        ensures { result ≡ any_empty_of (self.now.script.now ∷ self.now.child.now ∷ self.now.moment.now ∷ []) }
    {
        self.script.is_empty() || self.child.is_empty() || self.moment.is_empty()
    }
}

/// Returns the bytes before and after the first separator. `None` if there is no separator.
pub fn split_first(bytes: &[u8], separator: u8) -> Option<(&[u8], &[u8])>
    ensures { SplitsAt separator bytes.now result }
{
    for i in 0..bytes.len() {
        if bytes[i] == separator {
            return Some((&bytes[..i], &bytes[i + 1..]));
        }
    }
    None
}

/// Returns the bytes before and after the first newline. `None` if there is no newline.
pub fn split_line(bytes: &[u8]) -> Option<(&[u8], &[u8])>
    ensures { SplitsAt 10 bytes.now result }
{
    match memchr(b'\n', bytes) {
        Some(i) => Some((&bytes[..i], &bytes[i + 1..])),
        None => None,
    }
}

pub fn is(word: &[u8], name: &[u8]) -> bool
    ensures { result ≡ bytes_eq word.now name.now }
{
    word == name
}

/// Returns whether the word is a single byte, or begins with a byte other than `0`.
pub fn starts_number(word: &[u8]) -> bool
    ensures { result ≡ starts word.now }
{
    match word {
        [] => false,
        [_] => true,
        [first, ..] => *first != b'0',
    }
}

/// Returns the number that the decimal digits write. `None` if a byte is no digit.
#[tactic(auto, using(crate::proofs::Numbers::number_stops, crate::proofs::Numbers::number_ends))]
fn digits_number(word: &[u8]) -> Option<u64>
    requires { length word.now ≤ 16 }
    ensures { result ≡ digits_number_of word.now }
{
    let mut n: u64 = 0;
    for b in word {
        if !b.is_ascii_digit() {
            return None;
        }
        n = n * 10 + u64::from(*b - b'0');
    }
    Some(n)
}

/// Returns the number that at most sixteen decimal digits write. `None` on a leading zero or
/// another byte.
fn number(word: &[u8]) -> Option<u64>
    ensures { result ≡ number_of word.now }
{
    if starts_number(word) && word.len() <= MOST_DECIMALS {
        digits_number(word)
    } else {
        None
    }
}

/// Reads a number without bounds. `line` is the line number for the error.
pub fn any_number(line: usize, word: &[u8]) -> Result<u64, LogFault>
    ensures { result ≡ or_fault (LogFault.Number line) (number_of word.now) }
{
    let Some(n) = number(word) else {
        return Err(LogFault::Number(line));
    };
    Ok(n)
}

/// Reads a number from `low` to `high`. `outside` is the error for one out of bounds.
fn number_within(
    line: usize,
    word: &[u8],
    low: u64,
    high: u64,
    outside: LogFault,
) -> Result<u64, LogFault>
    ensures value { result ≡ within line word.now low high outside }
    ensures bound { IfOk result (λ n. n ≤ high) }
{
    let n = any_number(line, word)?;
    if low <= n && n <= high {
        Ok(n)
    } else {
        Err(outside)
    }
}

/// Reads a moment, in milliseconds.
pub fn moment(line: usize, word: &[u8]) -> Result<u64, LogFault>
    ensures { result ≡ moment_of line word.now }
{
    number_within(line, word, 0, MOST_MOMENT, LogFault::Number(line))
}

/// The script, the child and the moment of an event.
#[derive(Clone, Copy)]
pub struct Stamp {
    pub script: u8,
    pub child: u16,
    pub moment: u64,
}

impl Stamp {
    /// Returns the event with this stamp and this content.
    pub fn bring(self, what: What) -> HallEvent
        ensures { result ≡ HallEvent.Child self.script self.child self.moment what }
    {
        HallEvent::Child {
            script: self.script,
            child: self.child,
            moment: self.moment,
            what,
        }
    }
}

/// Reads the script, the child and the moment of a line.
pub fn read_stamp(numbers: ChildNumbers, line: usize, words: &StampWords) -> Result<Stamp, LogFault>
    ensures { result ≡ stamp_of numbers line words.now.script.now words.now.child.now words.now.moment.now }
{
    let script = number_within(line, words.script, 1, 64, LogFault::NoSuchScript(line))?;
    let outside = LogFault::NoSuchChild(line);
    let child = number_within(line, words.child, numbers.least(), numbers.most(), outside)?;
    let moment = moment(line, words.moment)?;
    Ok(Stamp {
        script: script as u8,
        child: child as u16,
        moment,
    })
}

/// Reads an exit status.
pub fn status(line: usize, word: &[u8]) -> Result<u8, LogFault>
    ensures { result ≡ within line word.now 0 255 (LogFault.Number line) }
{
    let n = number_within(line, word, 0, 255, LogFault::Number(line))?;
    Ok(n as u8)
}

/// Checks that a word is a piece: lower-case pairs of hexadecimal digits, or `-`.
#[tactic(auto, using(crate::proofs::Judged::piece_checked))]
pub fn check_piece(line: usize, digits: &Digits) -> Result<(), LogFault>
    ensures { result ≡ judged (piece_of line digits.now) }
{
    let word = digits.word();
    if is(word, b"-") {
        return Ok(());
    }
    if word.len() % 2 != 0 || !digits.is_lower() {
        return Err(LogFault::Hex(line));
    }
    if word.len() > MOST_DIGITS {
        return Err(LogFault::TooLong(line));
    }
    Ok(())
}

/// Reads a piece: the bytes that lower-case pairs of digits encode, or no bytes for `-`.
pub fn piece(alloc: Global, line: usize, digits: &Digits) -> Result<Text, LogFault>
    ensures { Reads result (piece_of line digits.now) }
{
    check_piece(line, digits)?;
    let word = digits.word();
    if is(word, b"-") {
        return Ok(Text::new(alloc));
    }
    let Some(bytes) = decoded(alloc, word)? else {
        return Err(LogFault::Hex(line));
    };
    Ok(bytes)
}

/// Returns the cause that a word names. `None` if it names none.
pub fn cause(word: &[u8]) -> Option<Cause>
    ensures { result ≡ cause_of word.now }
{
    if is(word, b"notfound") {
        Some(Cause::NotFound)
    } else if is(word, b"denied") {
        Some(Cause::Denied)
    } else if is(word, b"broken") {
        Some(Cause::Broken)
    } else if is(word, b"memory") {
        Some(Cause::Memory)
    } else if is(word, b"other") {
        Some(Cause::Other)
    } else {
        None
    }
}

/// Returns the content of an event whose first word determines it. `None` for other words.
pub fn what_alone(kind: &[u8]) -> Option<What>
    ensures { result ≡ alone_of kind.now }
{
    if is(kind, b"ok") {
        Some(What::Answer(Answer::Ok))
    } else if is(kind, b"end") {
        Some(What::Eof)
    } else if is(kind, b"killed") {
        Some(What::Answer(Answer::Killed))
    } else {
        None
    }
}

/// Returns the content of an event whose line ends with a cause. `None` if a word doesn't fit.
pub fn what_failed(kind: &[u8], word: &[u8]) -> Option<What>
    ensures { result ≡ failed_with kind.now (cause_of word.now) }
{
    let cause = cause(word)?;
    if is(kind, b"fail") {
        Some(What::ReadFail(cause))
    } else if is(kind, b"bad") {
        Some(What::Answer(Answer::Fail(cause)))
    } else {
        None
    }
}
