//! `send -s` and `send -h` (expect(1)): a text goes out in pieces, with a pause before each.

ghost use Rattle.std.specs.Prelude.{◌≡◌, codes, take, drop, slice_index_or, IfOk};
ghost use Rattle.tcl_results.specs.Says.{Says};
ghost use Rattle.expect_core.specs.Spread.{after_pause, beginning, behind_piece, elements_in, ends_word as ends_word_of, going_on as going_on_of, human_by, is_letter, or_bad, pace_by, pace_if as pace_if_of, pace_of as pace_meant, pause_of as pause_meant, piece_of as piece_meant, sent_on, size_of as size_meant, slow_by, time_of, typing};

use crate::scoped::needed;
use crate::sleeping::{digits, signed, until};
use crate::turn::{Next, done};
use std::alloc::{AllocError, Global};
use tcl_results::{Complaint, list_of, said};
use tcl_subst::Vars;
use tcl_values::Value;
use tcl_words::{Text, Texts};

/// The times between the bytes of `send -h`, in milliseconds.
#[derive(Clone, Copy)]
pub struct Human {
    /// The time before a byte, but for the first one after a word.
    pub inside: u64,
    /// The time before the first byte after a word.
    pub ending: u64,
    /// The shortest time.
    pub least: u64,
    /// The longest time. It counts more than the shortest one.
    pub most: u64,
}

/// How a text goes out.
#[derive(Clone, Copy)]
pub enum Pace {
    /// In pieces of this many bytes, with this time in milliseconds between two pieces.
    Slow(u64, u64),
    /// Byte by byte.
    Human(Human),
}

/// A text that goes out in pieces.
#[derive(Drop)]
pub struct Spread {
    /// The text.
    pub text: Value,
    /// The index of the first byte that wasn't sent yet.
    pub at: usize,
    /// How it goes out.
    pub pace: Pace,
}

/// Returns what is kept of a time in seconds, in milliseconds.
fn time_of(text: &Text) -> Option<u64>
    ensures { result ≡ time_of text.now }
{
    signed(text.as_slice())
}

/// Returns the pace that the elements of `send_slow` set: a number of bytes above 0, and a time.
fn slow_by(words: &[Text]) -> Option<Pace>
    ensures { result ≡ slow_by words.now }
{
    match words {
        [count, time] => {
            let count = digits(count.as_slice())?;
            let time = time_of(time)?;
            if count == 0 {
                return None;
            }
            Some(Pace::Slow(count, time))
        }
        _ => None,
    }
}

/// Returns the pace that the elements of `send_human` set: the times before a byte and after a
/// word, how they vary, which counts for nothing, the shortest and the longest time.
fn human_by(words: &[Text]) -> Option<Pace>
    ensures { result ≡ human_by words.now }
{
    match words {
        [inside, ending, vary, least, most] => {
            let inside = time_of(inside)?;
            let ending = time_of(ending)?;
            time_of(vary)?;
            let least = time_of(least)?;
            let most = time_of(most)?;
            Some(Pace::Human(Human {
                inside,
                ending,
                least,
                most,
            }))
        }
        _ => None,
    }
}

/// Returns the elements of a variable's value.
fn elements_of(alloc: Global, vars: &Vars, name: &[u8]) -> Result<Texts, Complaint>
    ensures { Says result (elements_in name.now vars.now) }
{
    let value = needed(alloc, vars, name)?;
    let elements = list_of(alloc, &value)?;
    Ok(elements.texts(alloc)?)
}

/// Returns the pace, or an error with this text.
fn or_bad(alloc: Global, text: &[u8], pace: Option<Pace>) -> Result<Pace, Complaint>
    ensures { Says result (or_bad text.now pace) }
{
    match pace {
        Some(pace) => Ok(pace),
        None => Err(Complaint::Said(Text::from_slice(alloc, text)?)),
    }
}

/// Returns the pace of `send -s`, given the elements of `send_slow`, or the error for them.
fn slow_pace(alloc: Global, words: Result<Texts, Value>) -> Result<Pace, Complaint>
    ensures { Says result (pace_by (codes "bad send_slow") slow_by words) }
{
    match words {
        Ok(words) => or_bad(alloc, b"bad send_slow", slow_by(words.as_slice())),
        Err(_) => or_bad(alloc, b"bad send_slow", None),
    }
}

/// Returns the pace of `send -h`, given the elements of `send_human`, or the error for them.
fn human_pace(alloc: Global, words: Result<Texts, Value>) -> Result<Pace, Complaint>
    ensures { Says result (pace_by (codes "bad send_human") human_by words) }
{
    match words {
        Ok(words) => or_bad(alloc, b"bad send_human", human_by(words.as_slice())),
        Err(_) => or_bad(alloc, b"bad send_human", None),
    }
}

/// Returns the pace of `send -h` or `send -s`.
fn pace_of(alloc: Global, is_human: bool, vars: &Vars) -> Result<Pace, Complaint>
    ensures { Says result (pace_meant is_human vars.now) }
{
    if is_human {
        human_pace(alloc, said(alloc, elements_of(alloc, vars, b"send_human"))?)
    } else {
        slow_pace(alloc, said(alloc, elements_of(alloc, vars, b"send_slow"))?)
    }
}

/// Returns the pace of a `send`. `human` says whether the last of `-h` and `-s` is `-h`.
pub(crate) fn pace_if(
    alloc: Global,
    human: Option<bool>,
    vars: &Vars,
) -> Result<Option<Pace>, Complaint>
    ensures { Says result (pace_if_of human vars.now) }
{
    match human {
        None => Ok(None),
        Some(is_human) => Ok(Some(pace_of(alloc, is_human, vars)?)),
    }
}

/// Returns whether a byte is a letter or a digit.
fn is_letter(byte: u8) -> bool
    ensures { result ≡ is_letter byte }
{
    b'0' <= byte && byte <= b'9' || b'A' <= byte && byte <= b'Z' || b'a' <= byte && byte <= b'z'
}

/// Returns the byte at an index, or 0 if there is none.
fn byte_at(text: &[u8], at: usize) -> u8
    ensures { result ≡ slice_index_or text.now at 0 }
{
    match text.get(at) {
        Some(byte) => *byte,
        None => 0,
    }
}

/// Returns whether the byte at an index is the first one after a word.
fn ends_word(text: &[u8], at: usize) -> bool
    ensures { result ≡ ends_word_of at text.now }
{
    is_letter(byte_at(text, at.saturating_sub(1))) && !is_letter(byte_at(text, at))
}

impl Human {
    /// Returns the time before the byte at an index.
    fn before(&self, text: &[u8], at: usize) -> u64
        ensures { result ≡ typing self.now at text.now }
    {
        let time = if ends_word(text, at) {
            self.ending
        } else {
            self.inside
        };
        self.most.min(self.least.max(time))
    }
}

/// Returns the bytes before an index, or all of them if there are fewer.
fn before(text: &[u8], at: usize) -> &[u8]
    ensures { result.now ≡ take at text.now }
{
    if text.len() < at {
        return text;
    }
    &text[..at]
}

/// Returns the bytes from an index on, or none if there are fewer.
fn behind(text: &[u8], at: usize) -> &[u8]
    ensures { result.now ≡ drop at text.now }
{
    if text.len() < at {
        return &[];
    }
    &text[at..]
}

impl Pace {
    /// Returns the number of bytes of a piece.
    fn size(&self) -> usize
        ensures { result ≡ size_meant self.now }
    {
        match self {
            Pace::Slow(count, _) => *count as usize,
            Pace::Human(_) => 1,
        }
    }
}

impl Spread {
    /// Returns the pause before the next piece.
    fn pause(&self) -> u64
        ensures { result ≡ pause_meant self.now }
    {
        match &self.pace {
            Pace::Slow(_, time) => { if self.at == 0 { 0 } else { *time } }
            Pace::Human(human) => human.before(self.text.as_slice(), self.at),
        }
    }

    /// Returns the next piece.
    fn piece(&self, alloc: Global) -> Result<Value, AllocError>
        ensures { IfOk result (λ v. v ≡ piece_meant self.now) }
    {
        let left = behind(self.text.as_slice(), self.at);
        Value::from_slice(alloc, before(left, self.pace.size()))
    }

    /// Returns what is left after the next piece.
    fn behind(self) -> Spread
        ensures { result ≡ behind_piece self }
    {
        let at = self
            .text
            .len()
            .min(self.at.saturating_add(self.pace.size()));
        Spread {
            text: self.text,
            at,
            pace: self.pace,
        }
    }

    /// Sends the next piece.
    pub(crate) fn send(self, alloc: Global) -> Result<Next, AllocError>
        ensures { IfOk result (λ n. n ≡ sent_on self) }
    {
        let piece = self.piece(alloc)?;
        Ok(Next::Send(piece, Some(self.behind())))
    }

    /// Sends the next piece after its pause.
    fn go_on(self, alloc: Global, clock: u64) -> Result<Next, AllocError>
        ensures { IfOk result (λ n. n ≡ after_pause clock (pause_meant self) self) }
    {
        let pause = self.pause();
        if pause == 0 {
            return self.send(alloc);
        }
        Ok(Next::Pause(until(clock, pause), self))
    }
}

/// Returns what follows a piece that was accepted: the next one after its pause, or the end of the
/// command.
pub(crate) fn going_on(alloc: Global, clock: u64, left: Option<Spread>) -> Result<Next, AllocError>
    ensures { IfOk result (λ n. n ≡ going_on_of clock left) }
{
    let Some(spread) = left else {
        return Ok(Next::Finish(done(Value::new(alloc))));
    };
    if spread.at < spread.text.len() {
        return spread.go_on(alloc, clock);
    }
    Ok(Next::Finish(done(Value::new(alloc))))
}

/// Sends a text at once, or begins to send it at a pace.
pub(crate) fn begin(
    alloc: Global,
    clock: u64,
    text: Value,
    pace: Option<Pace>,
) -> Result<Next, AllocError>
    ensures { IfOk result (λ n. n ≡ beginning clock text pace) }
{
    match pace {
        None => Ok(Next::Send(text, None)),
        Some(pace) => going_on(alloc, clock, Some(Spread { text, at: 0, pace })),
    }
}
