//! Reads a line of a timeline.

ghost use Rattle.std.specs.Prelude.{◌≡◌, ◌≤◌};
ghost use Rattle.child_events.specs.Reading.{cause_of};
ghost use Rattle.child_timeline.specs.Words.{after_blanks};
ghost use Rattle.child_timeline.specs.Line.{alone as alone_of, when_of, or_fault, child_in, behind_child as behind_child_of, status_of, text_of, ending_of, what_of, child_line as child_line_of, event_line as event_line_of, moment_line as moment_line_of, exit_line as exit_line_of, is_of_exit as is_of_exit_of, says_nothing as says_nothing_of, words_line as words_line_of, line_of, Reads};

use crate::exits::Exit;
use crate::fault::TimelineFault;
use crate::quoted::read_quoted;
use crate::words::{is, number, skip_blanks, split_word};
use child_events::{Answer, Cause, What};
use std::alloc::Global;

/// The moment of a line, in milliseconds.
#[derive(Clone, Copy)]
pub(crate) enum When {
    At(u64),
    /// The time since the previous line.
    After(u64),
}

/// The content of a line.
#[derive(Drop)]
pub(crate) enum TimelineLine {
    Nothing,
    Tick(When),
    Child { when: When, child: u8, what: What },
    Exit(Exit),
}

/// Reads a moment, or the time since the previous line.
fn moment_word(word: &[u8]) -> Option<When>
    ensures { result ≡ when_of word.now }
{
    match word {
        [] => None,
        [first, digits @ ..] => {
            if *first == b'+' {
                return Some(When::After(number(digits)?));
            }
            Some(When::At(number(word)?))
        }
    }
}

/// Returns the child that the first two words name, or child 1.
fn child(line: usize, words: &[u8]) -> Result<u8, TimelineFault>
    ensures { result ≡ child_in line words.now }
{
    let (word, behind) = split_word(words);
    if !is(word, b"child") {
        return Ok(1);
    }
    let (word, _) = split_word(behind);
    let Some(child) = number(word) else {
        return Err(TimelineFault::Child(line));
    };
    if 1 <= child && child <= 16 {
        Ok(child as u8)
    } else {
        Err(TimelineFault::Child(line))
    }
}

/// Returns the words after those that name a child.
fn behind_child(words: &[u8]) -> &[u8]
    ensures { result.now ≡ behind_child_of words.now }
{
    let (word, behind) = split_word(words);
    if !is(word, b"child") {
        return words;
    }
    let (_, behind) = split_word(behind);
    behind
}

/// Returns the cause that a word names.
fn cause(word: &[u8]) -> Option<Cause>
    ensures { result ≡ cause_of word.now }
{
    if is(word, b"notfound") {
        Some(Cause::NotFound)
    } else if is(word, b"denied") {
        Some(Cause::Denied)
    } else if is(word, b"broken") {
        Some(Cause::Broken)
    } else if is(word, b"memory") {
        Some(Cause::Memory)
    } else if is(word, b"other") {
        Some(Cause::Other)
    } else {
        None
    }
}

/// Reads how a child ends: an exit status, or `killed`.
pub(crate) fn status(line: usize, word: &[u8]) -> Result<Answer, TimelineFault>
    ensures { result ≡ status_of line word.now }
{
    if is(word, b"killed") {
        return Ok(Answer::Killed);
    }
    let Some(status) = number(word) else {
        return Err(TimelineFault::Status(line));
    };
    if status <= 255 {
        Ok(Answer::Exit(status as u8))
    } else {
        Err(TimelineFault::Status(line))
    }
}

/// Checks that no words follow.
fn ended(line: usize, behind: &[u8]) -> Result<(), TimelineFault>
    ensures { result ≡ alone_of line tt behind.now }
{
    match behind {
        [] => Ok(()),
        [_, ..] => Err(TimelineFault::Shape(line)),
    }
}

/// Reads a text after its opening quote.
fn text(alloc: Global, line: usize, bytes: &[u8]) -> Result<What, TimelineFault>
    ensures { Reads result (text_of line bytes.now) }
{
    match read_quoted(alloc, bytes) {
        Ok(Some(text)) => Ok(What::Out(text)),
        Ok(None) => Err(TimelineFault::Text(line)),
        Err(_) => Err(TimelineFault::Memory),
    }
}

/// Reads the end of an output, or a read failure.
fn ending(line: usize, word: &[u8], behind: &[u8]) -> Result<What, TimelineFault>
    ensures { result ≡ ending_of line word.now behind.now }
{
    if is(word, b"end") {
        ended(line, behind)?;
        return Ok(What::Eof);
    }
    if !is(word, b"fail") {
        return Err(TimelineFault::Shape(line));
    }
    let (name, behind) = split_word(behind);
    let Some(cause) = cause(name) else {
        return Err(TimelineFault::Cause(line));
    };
    ended(line, behind)?;
    Ok(What::ReadFail(cause))
}

/// Reads the content of a child's event.
fn what(alloc: Global, line: usize, words: &[u8]) -> Result<What, TimelineFault>
    ensures { Reads result (what_of line words.now) }
{
    match words {
        [] => Err(TimelineFault::Shape(line)),
        [first, behind @ ..] => {
            if *first == b'"' {
                return text(alloc, line, behind);
            }
            let (word, behind) = split_word(words);
            ending(line, word, behind)
        }
    }
}

/// Reads a line with a child's event at a moment.
fn child_line(
    alloc: Global,
    line: usize,
    when: When,
    words: &[u8],
) -> Result<TimelineLine, TimelineFault>
    ensures { Reads result (child_line_of line when words.now) }
{
    let child = child(line, words)?;
    let what = what(alloc, line, behind_child(words))?;
    Ok(TimelineLine::Child { when, child, what })
}

/// Reads the rest of a line that begins with a moment.
fn event_line(
    alloc: Global,
    line: usize,
    when: When,
    words: &[u8],
) -> Result<TimelineLine, TimelineFault>
    ensures { Reads result (event_line_of line when words.now) }
{
    let (word, behind) = split_word(words);
    if !is(word, b"tick") {
        return child_line(alloc, line, when, words);
    }
    ended(line, behind)?;
    Ok(TimelineLine::Tick(when))
}

/// Reads a line that begins with a moment.
fn moment_line(alloc: Global, line: usize, words: &[u8]) -> Result<TimelineLine, TimelineFault>
    ensures { Reads result (moment_line_of line words.now) }
{
    let (word, behind) = split_word(words);
    let Some(when) = moment_word(word) else {
        return Err(TimelineFault::Moment(line));
    };
    event_line(alloc, line, when, behind)
}

/// Reads a line that tells how a child ends.
fn exit_line(line: usize, words: &[u8]) -> Result<TimelineLine, TimelineFault>
    ensures { result ≡ exit_line_of line words.now }
{
    let child = child(line, words)?;
    let (word, behind) = split_word(behind_child(words));
    if !is(word, b"exit") {
        return Err(TimelineFault::Shape(line));
    }
    let (word, behind) = split_word(behind);
    let answer = status(line, word)?;
    ended(line, behind)?;
    Ok(TimelineLine::Exit(Exit { child, answer }))
}

fn is_of_exit(word: &[u8]) -> bool
    ensures { result ≡ is_of_exit_of word.now }
{
    is(word, b"child") || is(word, b"exit")
}

/// Returns whether the words are empty or a comment.
pub(crate) fn says_nothing(words: &[u8]) -> bool
    ensures { result ≡ says_nothing_of words.now }
{
    match words {
        [] => true,
        [first, ..] => *first == b'#',
    }
}

fn words_line(alloc: Global, line: usize, words: &[u8]) -> Result<TimelineLine, TimelineFault>
    ensures { Reads result (words_line_of line words.now) }
{
    if says_nothing(words) {
        return Ok(TimelineLine::Nothing);
    }
    let (word, _) = split_word(words);
    if is_of_exit(word) {
        return exit_line(line, words);
    }
    moment_line(alloc, line, words)
}

/// Reads a line, which is given without its newline.
pub(crate) fn read_line(
    alloc: Global,
    line: usize,
    bytes: &[u8],
) -> Result<TimelineLine, TimelineFault>
    ensures { Reads result (line_of line bytes.now) }
{
    words_line(alloc, line, skip_blanks(bytes))
}
