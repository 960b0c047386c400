//! Reads typescripts of script(1).

ghost use Rattle.std.specs.Prelude.{◌≡◌, ◌≤◌, length, IfOk};
ghost use Rattle.child_timeline.specs.Told.{AreTold};
ghost use Rattle.child_timeline.specs.Line.{Reads};
ghost use Rattle.child_timeline.specs.Words.{after_blanks};
ghost use Rattle.child_timeline.specs.Typescript.{begins_with as begins_with_of, is_typescript as is_typescript_of, behind_line as behind_line_of, is_empty as is_empty_of, is_end as is_end_of, before_end as before_end_of, shown as shown_of, is_kind as is_kind_of, kind_of, behind_kind, output as output_of, header as header_of, said_by as said_by_of, with_entry as with_entry_of, with_timing as with_timing_of, with_rest as with_rest_of, wound_up as wound_up_of, unwound as unwound_of, typescript_of, timed_by as timed_by_of, timed_typescript};

use crate::cast::later;
use crate::exits::Exit;
use crate::fault::TimelineFault;
use crate::line::{TimelineLine, When, status};
use crate::seconds::micros;
use crate::timeline::{Timeline, with_line};
use crate::words::{is, number, skip_blanks, split_line, split_word};
use child_events::What;
use std::alloc::Global;
use tcl_words::Text;

fn begins_with(words: &[u8], bytes: &[u8]) -> bool
    ensures { result ≡ begins_with_of words.now bytes.now }
{
    words.len() <= bytes.len() && &bytes[..words.len()] == words
}

/// Returns whether a text is a typescript of script(1).
pub(crate) fn is_typescript(text: &[u8]) -> bool
    ensures { result ≡ is_typescript_of text.now }
{
    begins_with(b"Script started on ", text)
}

/// Returns the bytes after the first line.
fn behind_line(text: &[u8]) -> &[u8]
    ensures { result.now ≡ behind_line_of text.now }
{
    for i in 0..text.len() {
        if text[i] == b'\n' {
            return &text[i + 1..];
        }
    }
    &[]
}

fn is_empty(bytes: &[u8]) -> bool
    ensures { result ≡ is_empty_of bytes.now }
{
    match bytes {
        [] => true,
        [_, ..] => false,
    }
}

/// Returns whether the bytes are the newline after the output and the last line of a typescript.
fn is_end(bytes: &[u8]) -> bool
    ensures { result ≡ is_end_of bytes.now }
{
    match bytes {
        [] => false,
        [_, rest @ ..] => begins_with(b"\nScript done on ", bytes) && is_empty(behind_line(rest)),
    }
}

/// Returns the bytes before the last line.
fn before_end(bytes: &[u8]) -> &[u8]
    ensures { result.now ≡ before_end_of bytes.now }
{
    for i in 0..bytes.len() {
        if is_end(&bytes[i..]) {
            return &bytes[..i];
        }
    }
    bytes
}

/// Returns the output in a typescript.
fn shown(text: &[u8]) -> &[u8]
    ensures { result.now ≡ shown_of text.now }
{
    before_end(behind_line(text))
}

/// Returns whether a word is the kind of an entry.
fn is_kind(word: &[u8]) -> bool
    ensures { result ≡ is_kind_of word.now }
{
    match word {
        [kind] => !kind.is_ascii_digit(),
        _ => false,
    }
}

/// Returns the kind of an entry and the words after it.
fn split_kind(words: &[u8]) -> (&[u8], &[u8])
    ensures kind { result.0.now ≡ kind_of words.now }
    ensures behind { result.1.now ≡ behind_kind words.now }
{
    let (word, behind) = split_word(words);
    if is_kind(word) {
        (word, behind)
    } else {
        (b"O", words)
    }
}

/// The line that an entry stands for, and the number of bytes shown after it.
type Said = (TimelineLine, usize);

/// Returns an entry of output: the next `count` bytes of the text.
fn output(
    alloc: Global,
    line: usize,
    clock: u64,
    body: &[u8],
    at: usize,
    count: u64,
) -> Result<Said, TimelineFault>
    requires { at ≤ length body.now }
    ensures { Reads result (output_of line clock body.now at count) }
{
    let rest = body.split_at(at).1;
    if count > rest.len() as u64 {
        return Err(TimelineFault::Event(line));
    }
    let count = count as usize;
    let text = Text::from_slice(alloc, &rest[..count])?;
    let said = TimelineLine::Child {
        when: When::At(clock / 1000),
        child: 1,
        what: What::Out(text),
    };
    Ok((said, at + count))
}

/// Reads a word of the header: the program's exit status, or another word, which is ignored.
fn header(line: usize, at: usize, words: &[u8]) -> Result<Said, TimelineFault>
    ensures { result ≡ header_of line at words.now }
{
    let (name, behind) = split_word(words);
    if is(name, b"EXIT_CODE") {
        let (word, _) = split_word(behind);
        let answer = status(line, word)?;
        return Ok((TimelineLine::Exit(Exit { child: 1, answer }), at));
    }
    Ok((TimelineLine::Nothing, at))
}

/// Reads an entry of a kind, given the words after its time.
fn said_by(
    alloc: Global,
    line: usize,
    clock: u64,
    body: &[u8],
    at: usize,
    kind: &[u8],
    words: &[u8],
) -> Result<Said, TimelineFault>
    requires { at ≤ length body.now }
    ensures { Reads result (said_by_of line clock body.now at kind.now words.now) }
{
    if is(kind, b"O") {
        let (word, _) = split_word(words);
        let Some(count) = number(word) else {
            return Err(TimelineFault::Event(line));
        };
        return output(alloc, line, clock, body, at, count);
    }
    if is(kind, b"H") {
        return header(line, at, words);
    }
    Ok((TimelineLine::Nothing, at))
}

/// A timeline, its current clock in microseconds, and the number of bytes shown.
#[derive(Drop)]
struct Tape {
    timeline: Timeline,
    clock: u64,
    at: usize,
}

/// Adds an entry.
fn with_entry(
    alloc: Global,
    line: usize,
    body: &[u8],
    tape: Tape,
    words: &[u8],
) -> Result<Tape, TimelineFault>
    requires early { tape.timeline.moment ≤ 9000000000000000 }
    requires clock { tape.clock ≤ 9000000000000000 }
    requires at { tape.at ≤ length body.now }
    ensures { Reads result (with_entry_of line body.now tape words.now) }
{
    let (kind, words) = split_kind(words);
    let (time, words) = split_word(words);
    let Some(time) = micros(alloc, time)? else {
        return Err(TimelineFault::Moment(line));
    };
    let Tape {
        timeline,
        clock,
        at,
    } = tape;
    let clock = later(line, clock, time)?;
    let (said, at) = said_by(alloc, line, clock, body, at, kind, words)?;
    let timeline = with_line(alloc, line, timeline, said)?;
    Ok(Tape {
        timeline,
        clock,
        at,
    })
}

/// Adds a line of a timing file.
fn with_timing(
    alloc: Global,
    line: usize,
    body: &[u8],
    tape: Tape,
    bytes: &[u8],
) -> Result<Tape, TimelineFault>
    requires early { tape.timeline.moment ≤ 9000000000000000 }
    requires clock { tape.clock ≤ 9000000000000000 }
    requires at { tape.at ≤ length body.now }
    ensures { Reads result (with_timing_of line body.now tape bytes.now) }
{
    match skip_blanks(bytes) {
        [] => Ok(tape),
        words => with_entry(alloc, line, body, tape, words),
    }
}

/// Adds the bytes that no entry covers.
fn with_rest(alloc: Global, timeline: Timeline, rest: &[u8]) -> Result<Timeline, TimelineFault>
    requires { timeline.moment ≤ 9000000000000000 }
    ensures { Reads result (with_rest_of timeline rest.now) }
{
    if is_empty(rest) {
        return Ok(timeline);
    }
    let text = Text::from_slice(alloc, rest)?;
    let last = TimelineLine::Child {
        when: When::After(0),
        child: 1,
        what: What::Out(text),
    };
    with_line(alloc, 1, timeline, last)
}

/// Adds the remaining bytes and the end of the output.
fn wind_up(alloc: Global, body: &[u8], tape: Tape) -> Result<Timeline, TimelineFault>
    requires early { tape.timeline.moment ≤ 9000000000000000 }
    requires at { tape.at ≤ length body.now }
    ensures { Reads result (wound_up_of body.now tape) }
{
    let Tape {
        timeline,
        clock: _,
        at,
    } = tape;
    let timeline = with_rest(alloc, timeline, body.split_at(at).1)?;
    let end = TimelineLine::Child {
        when: When::After(0),
        child: 1,
        what: What::Eof,
    };
    with_line(alloc, 1, timeline, end)
}

/// Returns the tape before the first entry.
fn unwound(alloc: Global) -> Tape
    ensures { result ≡ unwound_of }
{
    Tape {
        timeline: Timeline::new(alloc),
        clock: 0,
        at: 0,
    }
}

/// Reads the timeline of a typescript without its timing file. The output is that of child 1, all
/// at once.
pub(crate) fn read_typescript(alloc: Global, text: &[u8]) -> Result<Timeline, TimelineFault>
    ensures reads { Reads result (typescript_of text.now) }
    ensures told { IfOk result (λ t. AreTold t.events) }
{
    wind_up(alloc, shown(text), unwound(alloc))
}

/// Returns the timeline of an output, each part at its time.
fn timed_by(alloc: Global, body: &[u8], timing: &[u8]) -> Result<Timeline, TimelineFault>
    ensures reads { Reads result (timed_by_of body.now timing.now) }
    ensures told { IfOk result (λ t. AreTold t.events) }
{
    let mut tape = unwound(alloc);
    let mut rest = timing;
    let mut number: usize = 1;
    'lines: while let Some((line, behind)) = split_line(rest) {
        tape = with_timing(alloc, number, body, tape, line)?;
        rest = behind;
        number += 1;
    }
    let tape = with_timing(alloc, number, body, tape, rest)?;
    wind_up(alloc, body, tape)
}

/// Reads the timeline of a typescript with its timing file. The output is that of child 1, each
/// part at its time.
///
/// An error has the number of the first bad line of the timing file, counted from 1. It may also be
/// `Memory`.
pub fn read_timed_typescript(
    alloc: Global,
    text: &[u8],
    timing: &[u8],
) -> Result<Timeline, TimelineFault>
    ensures reads { Reads result (timed_typescript text.now timing.now) }
    ensures told { IfOk result (λ t. AreTold t.events) }
{
    timed_by(alloc, shown(text), timing)
}
