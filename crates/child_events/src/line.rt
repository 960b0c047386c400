//! Reads a line of a log: its content, its error, and its event.

ghost use Rattle.std.specs.Prelude.{◌≡◌, ◌∷◌, [], Err, if◌then◌else◌};
ghost use Rattle.child_events.specs.Reading.{parts, any_empty as any_empty_of, tick_of, stamp_of, failed_event as failed_of, fields_event, line_event, Reads, SplitsAt};
ghost use Rattle.child_events.specs.Judging.{said_event, says, judged};

use crate::child_numbers::ChildNumbers;
use crate::digits::Digits;
use crate::event::{Answer, HallEvent, What};
use crate::faults::LogFault;
use crate::fields::{
    Stamp, StampWords, check_piece, is, moment, piece, read_stamp, split_first, status, what_alone,
    what_failed,
};
use crate::piece_line::{piece_line, read_piece};
use std::alloc::Global;

/// The content of a line, as far as it needs no allocation.
#[derive(Drop)]
pub enum LogLine<'a> {
    Event(HallEvent),
    /// A line of output: its stamp and the digits of its piece, which are not yet checked.
    Piece(Stamp, Digits<'a>),
}

impl LogLine<'_> {
    /// Checks that the line describes an event.
    fn check(&self, number: usize) -> Result<(), LogFault>
        ensures { result ≡ judged (said_event number self.now) }
    {
        match self {
            LogLine::Event(_) => Ok(()),
            LogLine::Piece(_, digits) => check_piece(number, digits),
        }
    }

    /// Returns the event of the line.
    fn event(self, alloc: Global, number: usize) -> Result<HallEvent, LogFault>
        ensures { Reads result (said_event number self.entry) }
    {
        match self {
            LogLine::Event(event) => Ok(event),
            LogLine::Piece(stamp, digits) => {
                let piece = piece(alloc, number, &digits)?;
                Ok(stamp.bring(What::Out(piece)))
            }
        }
    }
}

fn tick_event(line: usize, kind: &[u8], word: &[u8]) -> Result<HallEvent, LogFault>
    ensures { result ≡ (if any_empty_of (kind.now ∷ word.now ∷ []) then Err (LogFault.Shape line) else tick_of line kind.now word.now) }
{
    if word.is_empty() || !is(kind, b"tick") {
        return Err(LogFault::Shape(line));
    }
    let moment = moment(line, word)?;
    Ok(HallEvent::Tick { moment })
}

/// Reads the event of a child whose first word determines its content.
fn bare_event(
    numbers: ChildNumbers,
    line: usize,
    kind: &[u8],
    words: &StampWords,
) -> Result<HallEvent, LogFault>
    ensures { result ≡ fields_event numbers line (kind.now ∷ words.now.script.now ∷ words.now.child.now ∷ words.now.moment.now ∷ []) }
{
    if words.any_empty() {
        return Err(LogFault::Shape(line));
    }
    let Some(what) = what_alone(kind) else {
        return Err(LogFault::Shape(line));
    };
    Ok(read_stamp(numbers, line, words)?.bring(what))
}

/// Reads the event of a child whose last word is a cause.
fn failed_event(
    numbers: ChildNumbers,
    line: usize,
    kind: &[u8],
    words: &StampWords,
    held: &[u8],
) -> Result<HallEvent, LogFault>
    ensures { result ≡ failed_of line kind.now held.now (stamp_of numbers line words.now.script.now words.now.child.now words.now.moment.now) }
{
    let Some(what) = what_failed(kind, held) else {
        return Err(LogFault::Shape(line));
    };
    Ok(read_stamp(numbers, line, words)?.bring(what))
}

fn failed_line<'a>(
    numbers: ChildNumbers,
    line: usize,
    kind: &[u8],
    words: &StampWords,
    held: &[u8],
) -> Result<LogLine<'a>, LogFault>
    ensures { says line result ≡ failed_of line kind.now held.now (stamp_of numbers line words.now.script.now words.now.child.now words.now.moment.now) }
{
    let event = failed_event(numbers, line, kind, words, held)?;
    Ok(LogLine::Event(event))
}

/// Reads the event of a child whose last word is its value.
fn held_line<'a>(
    numbers: ChildNumbers,
    line: usize,
    kind: &[u8],
    words: &StampWords,
    held: Digits<'a>,
) -> Result<LogLine<'a>, LogFault>
    ensures { says line result ≡ fields_event numbers line (kind.now ∷ words.now.script.now ∷ words.now.child.now ∷ words.now.moment.now ∷ held.entry ∷ []) }
{
    let word = held.word();
    if words.any_empty() || word.is_empty() {
        return Err(LogFault::Shape(line));
    }
    if is(kind, b"out") {
        let stamp = read_stamp(numbers, line, words)?;
        return Ok(LogLine::Piece(stamp, held));
    }
    if is(kind, b"exit") {
        let stamp = read_stamp(numbers, line, words)?;
        let status = status(line, word)?;
        return Ok(LogLine::Event(stamp.bring(What::Answer(Answer::Exit(status)))));
    }
    failed_line(numbers, line, kind, words, word)
}

/// Splits the last word at its first space, if it has one. Hexadecimal digits contain no space.
#[tactic(auto, using(crate::proofs::Judged::lower_whole))]
fn further<'a>(held: &Digits<'a>) -> Option<(&'a [u8], &'a [u8])>
    ensures { SplitsAt 32 held.now result }
{
    if held.is_lower() {
        return None;
    }
    split_first(held.word(), b' ')
}

/// Reads the fields of a line.
fn read_fields(numbers: ChildNumbers, number: usize, line: &[u8]) -> Result<LogLine, LogFault>
    ensures { says number result ≡ fields_event numbers number (parts 32 line.now) }
{
    let Some((kind, rest)) = split_first(line, b' ') else {
        return Err(LogFault::Shape(number));
    };
    let Some((script, rest)) = split_first(rest, b' ') else {
        let event = tick_event(number, kind, rest)?;
        return Ok(LogLine::Event(event));
    };
    let Some((child, rest)) = split_first(rest, b' ') else {
        return Err(LogFault::Shape(number));
    };
    let Some((moment, held)) = split_first(rest, b' ') else {
        let words = StampWords {
            script,
            child,
            moment: rest,
        };
        let event = bare_event(numbers, number, kind, &words)?;
        return Ok(LogLine::Event(event));
    };
    let held = Digits::new(held);
    if let Some(_) = further(&held) {
        return Err(LogFault::Shape(number));
    }
    let words = StampWords {
        script,
        child,
        moment,
    };
    held_line(numbers, number, kind, &words, held)
}

/// Reads a line, which is given without its newline.
fn read_words(numbers: ChildNumbers, number: usize, line: &[u8]) -> Result<LogLine, LogFault>
    ensures { says number result ≡ line_event numbers number line.now }
{
    if line.len() > numbers.longest() {
        return Err(LogFault::TooLong(number));
    }
    read_fields(numbers, number, line)
}

/// Checks that a line describes an event. It does not allocate.
pub fn judge_line(numbers: ChildNumbers, number: usize, line: &[u8]) -> Result<(), LogFault>
    ensures { result ≡ judged (line_event numbers number line.now) }
{
    if let Some(_) = piece_line(numbers, line) {
        return Ok(());
    }
    let said = read_words(numbers, number, line)?;
    said.check(number)
}

/// Reads the event that a line describes.
pub fn read_line(
    alloc: Global,
    numbers: ChildNumbers,
    number: usize,
    line: &[u8],
) -> Result<HallEvent, LogFault>
    ensures { Reads result (line_event numbers number line.now) }
{
    if let Some((stamp, piece)) = read_piece(alloc, numbers, line)? {
        return Ok(stamp.bring(What::Out(piece)));
    }
    let said = read_words(numbers, number, line)?;
    said.event(alloc, number)
}
