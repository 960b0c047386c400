//! The time of day: `clock` (clock(n)) and `timestamp` (expect(1)).

ghost use Rattle.std.specs.Prelude.{◌≡◌, ◌∷◌, ℕ, Option, option_map, option_and_then, is_some, IfOk};
ghost use Rattle.command_table.specs.Options.{clock_option as clock_option_of};
ghost use Rattle.tcl_results.specs.Says.{Says};
ghost use Rattle.expect_core.specs.Sleeping.{digits as digits_of, kept};
ghost use Rattle.expect_core.specs.TimeOfDay.{as_text as as_text_of, time_at as time_at_of, time_of as time_meant, told as told_of};
ghost use Rattle.expect_core.specs.Times.{clock_by as clock_by_of, clocking, complete as complete_of, counted as counted_of, date_words as date_words_of, flagged, no_stamp as no_stamp_of, plain_stamp as plain_stamp_of, stamp_of as stamp_meant, stamp_behind as stamp_behind_of, stamp_with, stamped as stamped_of, stamping, Takes, telling as telling_of};
ghost use Rattle.expect_core.specs.Tools.{dated as dated_of, learned as learned_of};

use crate::effect::{Effect, Effects};
use crate::flags::{arguments, bad_flag};
use crate::own::Own;
use crate::programs::plain_tool;
use crate::reading::without_newline;
use crate::sleeping::digits;
use crate::texts::decimal;
use crate::tool::{Job, ToolRun};
use crate::tools::{failed, is_well, tool as start};
use crate::turn::{Deed, Next, Reaction, done};
use child_events::{Answer, Cause};
use command_table::{
    ClockOption, ExpectCommand, begins_with_minus, clock_count, clock_option, fits, is,
};
use std::alloc::{AllocError, Global};
use tcl_results::{Complaint, bad_option, expected_number, wrong_args};
use tcl_values::Value;
use tcl_words::{Text, Texts};

/// The most seconds of a time of day.
const MOST_SECONDS: u64 = 9_000_000_000_000;

/// Returns the time of day at a moment of the clock, given the time at another moment. Both are in
/// milliseconds.
fn time_at(clock: u64, known: (u64, u64)) -> u64
    ensures { result ≡ time_at_of clock known }
{
    let (time, at) = known;
    time.saturating_add(clock).saturating_sub(at)
}

/// Returns a time in milliseconds as an option of `clock` gives it.
fn as_text(alloc: Global, unit: ClockOption, time: u64) -> Result<Value, AllocError>
    ensures { IfOk result (λ v. v ≡ as_text_of unit time) }
{
    match unit {
        ClockOption::Seconds => Value::from_text(alloc, decimal(alloc, (time / 1000) as usize)?),
        ClockOption::Milliseconds => Value::from_text(alloc, decimal(alloc, time as usize)?),
    }
}

/// Returns a time in milliseconds, given what is kept of it in seconds.
fn time_of(seconds: u64) -> Option<u64>
    ensures { (n : ℕ) → kept n ≡ seconds → result ≡ time_meant n }
{
    if MOST_SECONDS < seconds {
        return None;
    }
    Some(seconds * 1000)
}

/// Returns a time in milliseconds, given what is kept of it in seconds, if it is one.
fn time_if(seconds: Option<u64>) -> Option<u64>
    ensures { (meant : Option ℕ) → option_map kept meant ≡ seconds → result ≡ option_and_then time_meant meant }
{
    match seconds {
        Some(seconds) => time_of(seconds),
        None => None,
    }
}

/// Returns the time that date(1) told, in milliseconds.
fn told(bytes: &[u8]) -> Option<u64>
    ensures { result ≡ told_of bytes.now }
{
    time_if(digits(without_newline(bytes)))
}

/// Returns the end of a command that learned the time of day.
fn learned(
    alloc: Global,
    unit: ClockOption,
    run: &ToolRun,
    time: Option<u64>,
) -> Result<Reaction, AllocError>
    ensures { IfOk result (λ r. r ≡ learned_of unit run.now time) }
{
    match time {
        None => failed(alloc, run, Cause::Other),
        Some(time) => {
            let effects = Effects::one(alloc, Effect::Day(time))?;
            let next = Next::Finish(done(as_text(alloc, unit, time)?));
            Ok(Reaction { effects, next })
        }
    }
}

/// Returns the end of a command that asked for the time of day.
pub(crate) fn dated(
    alloc: Global,
    unit: ClockOption,
    run: &ToolRun,
    answer: Answer,
) -> Result<Reaction, AllocError>
    ensures { IfOk result (λ r. r ≡ dated_of unit run.now answer) }
{
    if is_well(answer) {
        return learned(alloc, unit, run, told(run.bytes.as_slice()));
    }
    failed(alloc, run, Cause::Other)
}

/// Returns what tells the time of day. The first time it asks for it.
fn telling(alloc: Global, unit: ClockOption, own: &Own) -> Result<Deed, Complaint>
    ensures { Says result (telling_of unit own.now) }
{
    match own.day {
        None => {
            let mut words = Texts::new(alloc);
            words.push(Text::from_slice(alloc, b"date")?)?;
            words.push(Text::from_slice(alloc, b"+%s")?)?;
            let tool = plain_tool(alloc, words, Job::Day(unit))?;
            start(alloc, tool, own)
        }
        Some(known) => {
            let value = as_text(alloc, unit, time_at(own.clock, known))?;
            Ok(Deed::Alone(Effects::new(alloc), done(value)))
        }
    }
}

/// Returns what `clock` does, given its option and the arguments after it.
fn clock_by(
    alloc: Global,
    name: &[u8],
    word: &[u8],
    args: &[Value],
    own: &Own,
) -> Result<Deed, Complaint>
    ensures { Says result (clock_by_of name.now word.now (clock_option_of word.now) args.now own.now) }
{
    match clock_option(word) {
        None => Err(Complaint::Said(bad_option(alloc, word)?)),
        Some(unit) => {
            if !fits(clock_count(unit), args.len()) {
                return Err(Complaint::Said(wrong_args(alloc, name)?));
            }
            telling(alloc, unit, own)
        }
    }
}

/// Returns what `clock option` does.
pub(crate) fn clock(
    alloc: Global,
    name: &[u8],
    args: &[Value],
    own: &Own,
) -> Result<Deed, Complaint>
    ensures { Says result (clocking name.now args.now own.now) }
{
    let (_, at) = arguments(alloc, ExpectCommand::Clock, name, args)?;
    match &args[at..] {
        [] => clock_by(alloc, name, b"", &[], own),
        [option, rest @ ..] => clock_by(alloc, name, option.as_slice(), rest, own),
    }
}

/// What the next word of `timestamp` is.
#[derive(Clone, Copy)]
pub enum Awaited {
    Flag,
    Format,
    Seconds,
}

/// The flags of `timestamp`.
#[derive(Drop)]
pub struct Stamp {
    /// The format of date(1), or `None`.
    pub format: Option<Text>,
    /// The seconds since 1970, or `None` for now.
    pub seconds: Option<Text>,
    /// Whether the time is that of Greenwich.
    pub gmt: bool,
    /// What the next word is.
    pub next: Awaited,
}

/// Returns a stamp without flags.
fn no_stamp() -> Stamp
    ensures { result ≡ no_stamp_of }
{
    Stamp {
        format: None,
        seconds: None,
        gmt: false,
        next: Awaited::Flag,
    }
}

impl Stamp {
    /// Takes a flag.
    fn take_flag(&mut self, alloc: Global, name: &[u8], word: &[u8]) -> Result<(), Complaint>
        ensures { Takes result (flagged name.now word.now self.old) self.new }
    {
        if is(word, b"-gmt") {
            self.gmt = true;
            return Ok(());
        }
        if is(word, b"-format") {
            self.next = Awaited::Format;
            return Ok(());
        }
        if is(word, b"-seconds") {
            self.next = Awaited::Seconds;
            return Ok(());
        }
        if begins_with_minus(word) {
            return Err(Complaint::Said(bad_flag(alloc, word)?));
        }
        Err(Complaint::Said(wrong_args(alloc, name)?))
    }

    /// Takes a word: a flag, or the value of the flag before it.
    fn take(&mut self, alloc: Global, name: &[u8], word: &[u8]) -> Result<(), Complaint>
        ensures { Takes result (stamp_with name.now word.now self.old.next self.old) self.new }
    {
        match self.next {
            Awaited::Flag => self.take_flag(alloc, name, word),
            Awaited::Format => {
                self.format = Some(Text::from_slice(alloc, word)?);
                self.next = Awaited::Flag;
                Ok(())
            }
            Awaited::Seconds => {
                self.seconds = Some(Text::from_slice(alloc, word)?);
                self.next = Awaited::Flag;
                Ok(())
            }
        }
    }
}

/// Returns the stamp that words describe.
fn stamp_behind(alloc: Global, name: &[u8], words: &[Value]) -> Result<Stamp, Complaint>
    ensures { Says result (stamp_behind_of name.now no_stamp_of words.now) }
{
    let mut stamp = no_stamp();
    'words: for word in words {
        stamp.take(alloc, name, word.as_slice())?;
    }
    Ok(stamp)
}

/// Returns the stamp, if its last flag has its value.
fn complete(alloc: Global, name: &[u8], stamp: Stamp) -> Result<Stamp, Complaint>
    ensures { Says result (complete_of name.now stamp.next stamp) }
{
    match stamp.next {
        Awaited::Flag => Ok(stamp),
        Awaited::Format => Err(Complaint::Said(wrong_args(alloc, name)?)),
        Awaited::Seconds => Err(Complaint::Said(wrong_args(alloc, name)?)),
    }
}

/// Returns whether a text is a number in digits.
#[tactic(auto, using(crate::proofs::Dates::kept_some))]
fn is_number(text: &[u8]) -> bool
    ensures { result ≡ is_some (digits_of text.now) }
{
    digits(text).is_some()
}

/// Returns the stamp, if its seconds are a number.
fn counted(alloc: Global, stamp: Stamp) -> Result<Stamp, Complaint>
    ensures { Says result (counted_of stamp.seconds stamp) }
{
    match &stamp.seconds {
        None => Ok(stamp),
        Some(text) => {
            if is_number(text.as_slice()) {
                return Ok(stamp);
            }
            Err(Complaint::Said(expected_number(alloc, text.as_slice())?))
        }
    }
}

/// Returns the stamp that the arguments of `timestamp` describe.
fn stamp_of(alloc: Global, name: &[u8], args: &[Value]) -> Result<Stamp, Complaint>
    ensures { Says result (stamp_meant name.now args.now) }
{
    let stamp = stamp_behind(alloc, name, args)?;
    let stamp = complete(alloc, name, stamp)?;
    counted(alloc, stamp)
}

/// Returns the sign, and the word after it.
fn behind_sign(alloc: Global, sign: u8, word: &[u8]) -> Result<Text, AllocError>
    ensures { IfOk result (λ t. t ≡ sign ∷ word.now) }
{
    let mut text = Text::new(alloc);
    text.push(sign)?;
    text.extend(word)?;
    Ok(text)
}

/// Returns the words of date(1).
fn date_words(
    alloc: Global,
    gmt: bool,
    seconds: &Option<Text>,
    format: &[u8],
) -> Result<Texts, AllocError>
    ensures { IfOk result (λ t. t ≡ date_words_of gmt seconds.now format.now) }
{
    let mut words = Texts::new(alloc);
    words.push(Text::from_slice(alloc, b"date")?)?;
    if gmt {
        words.push(Text::from_slice(alloc, b"-u")?)?;
    }
    if let Some(seconds) = seconds {
        words.push(Text::from_slice(alloc, b"-d")?)?;
        words.push(behind_sign(alloc, b'@', seconds.as_slice())?)?;
    }
    words.push(behind_sign(alloc, b'+', format)?)?;
    Ok(words)
}

/// Returns what `timestamp` without a format does.
fn plain_stamp(alloc: Global, seconds: &Option<Text>, own: &Own) -> Result<Deed, Complaint>
    ensures { Says result (plain_stamp_of seconds.now own.now) }
{
    match seconds {
        None => telling(alloc, ClockOption::Seconds, own),
        Some(text) => {
            let value = Value::from_slice(alloc, text.as_slice())?;
            Ok(Deed::Alone(Effects::new(alloc), done(value)))
        }
    }
}

/// Returns what `timestamp` does with these flags.
fn stamped(alloc: Global, stamp: &Stamp, own: &Own) -> Result<Deed, Complaint>
    ensures { Says result (stamped_of stamp.now.format stamp.now own.now) }
{
    match &stamp.format {
        None => plain_stamp(alloc, &stamp.seconds, own),
        Some(format) => {
            let words = date_words(alloc, stamp.gmt, &stamp.seconds, format.as_slice())?;
            let tool = plain_tool(alloc, words, Job::Line)?;
            start(alloc, tool, own)
        }
    }
}

/// Returns what `timestamp ?-format format? ?-seconds n? ?-gmt?` does.
pub(crate) fn timestamp(
    alloc: Global,
    name: &[u8],
    args: &[Value],
    own: &Own,
) -> Result<Deed, Complaint>
    ensures { Says result (stamping name.now args.now own.now) }
{
    let stamp = stamp_of(alloc, name, args)?;
    stamped(alloc, &stamp, own)
}
