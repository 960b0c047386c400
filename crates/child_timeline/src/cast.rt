//! Reads casts of asciinema.

ghost use Rattle.std.specs.Prelude.{◌≡◌, ◌≤◌, ◌+◌, option_map, option_and_then, IfOk};
ghost use Rattle.json.specs.Value.{value_view};
ghost use Rattle.child_timeline.specs.Told.{AreTold};
ghost use Rattle.child_timeline.specs.Line.{Reads};
ghost use Rattle.child_timeline.specs.Cast.{value_of, counts_on as counts_on_of, version_of, header_counts_on as header_counts_on_of, scene_in as scene_in_of, within as within_of, clock_after as clock_after_of, line_of_scene as line_of_scene_of, at_clock as at_clock_of, with_scene as with_scene_of, with_event as with_event_of, closed as closed_of, events_from, is_cast as is_cast_of, cast_of};

use crate::exits::Exit;
use crate::fault::TimelineFault;
use crate::line::{TimelineLine, When, says_nothing, status};
use crate::seconds::micros;
use crate::timeline::{Timeline, with_line};
use crate::words::split_line;
use child_events::What;
use json::{Error, Scratch, Value};
use std::alloc::{AllocError, Global};
use tcl_words::Text;

/// The last moment of a cast, in microseconds.
const CLOCK_LIMIT: u64 = 9_000_000_000_000_000;

/// Parses a JSON value. `None` if the bytes are none.
fn value<'a>(
    alloc: Global,
    bytes: &'a [u8],
    scratch: &'a mut Scratch<Global>,
) -> Result<Option<Value<'a>>, AllocError>
    ensures { IfOk result (λ v. option_map value_view v ≡ value_of bytes.now) }
{
    match Value::from_slice(alloc, bytes, scratch) {
        Ok(value) => Ok(Some(value)),
        Err(Error::Invalid) => Ok(None),
        Err(Error::OutOfMemory) => Err(AllocError),
        Err(Error::TooLong) => unreachable!(),
        Err(Error::DuplicateKey) => unreachable!(),
    }
}

/// Returns whether the times of a version count from the previous event. `None` for an unknown
/// version.
fn counts_on(version: &str) -> Option<bool>
    ensures { result ≡ counts_on_of version.now }
{
    if version == "3" {
        Some(true)
    } else if version == "2" {
        Some(false)
    } else {
        None
    }
}

/// Like `counts_on`, for the version that a header names.
fn version_counts_on(header: &Value<'_>) -> Option<bool>
    ensures { result ≡ option_and_then counts_on_of (version_of (value_view header.now)) }
{
    let version = header.get("version")?.as_number()?;
    counts_on(version)
}

/// Like `version_counts_on`, for the bytes of a header.
fn header_counts_on(
    alloc: Global,
    bytes: &[u8],
    scratch: &mut Scratch<Global>,
) -> Result<Option<bool>, AllocError>
    ensures { IfOk result (λ on. on ≡ header_counts_on_of bytes.now) }
{
    match value(alloc, bytes, scratch)? {
        Some(header) => Ok(version_counts_on(&header)),
        None => Ok(None),
    }
}

/// An event of a cast.
#[derive(Clone, Copy)]
struct Scene<'a> {
    time: &'a str,
    code: &'a str,
    text: &'a str,
}

/// Reads the event that a JSON value describes. `None` if it describes none.
fn scene_in<'a>(value: &Value<'a>) -> Option<Scene<'a>>
    ensures { option_map (λ s. (s.time.now, (s.code.now, s.text.now))) result ≡ scene_in_of (value_view value.now) }
{
    let time = value.at(0)?.as_number()?;
    let code = value.at(1)?.as_str()?;
    let text = value.at(2)?.as_str()?;
    Some(Scene { time, code, text })
}

/// Checks that a clock is not past the last moment.
fn within(line: usize, clock: u64) -> Result<u64, TimelineFault>
    ensures { result ≡ within_of line clock }
{
    if clock <= CLOCK_LIMIT {
        Ok(clock)
    } else {
        Err(TimelineFault::Moment(line))
    }
}

/// Returns the clock `time` microseconds after `last`. An error if it is past the last moment.
pub(crate) fn later(line: usize, last: u64, time: u64) -> Result<u64, TimelineFault>
    requires { last ≤ 9000000000000000 }
    ensures { result ≡ within_of line (last + time) }
{
    if time <= CLOCK_LIMIT - last {
        Ok(last + time)
    } else {
        Err(TimelineFault::Moment(line))
    }
}

/// Returns the clock of the event that follows one at clock `last`, in microseconds.
fn clock_after(line: usize, on: bool, last: u64, time: u64) -> Result<u64, TimelineFault>
    requires { last ≤ 9000000000000000 }
    ensures { result ≡ clock_after_of line on last time }
{
    if on {
        return later(line, last, time);
    }
    if last <= time {
        within(line, time)
    } else {
        Err(TimelineFault::Back(line))
    }
}

/// Returns the timeline's line for an event.
fn line_of_scene(
    alloc: Global,
    line: usize,
    clock: u64,
    code: &str,
    text: &str,
) -> Result<TimelineLine, TimelineFault>
    ensures { Reads result (line_of_scene_of line clock code.now text.now) }
{
    if code == "o" {
        let text = Text::from_slice(alloc, text.as_bytes())?;
        return Ok(TimelineLine::Child {
            when: When::At(clock / 1000),
            child: 1,
            what: What::Out(text),
        });
    }
    if code == "x" {
        let answer = status(line, text.as_bytes())?;
        return Ok(TimelineLine::Exit(Exit { child: 1, answer }));
    }
    Ok(TimelineLine::Nothing)
}

/// A timeline, and its current clock in microseconds.
#[derive(Drop)]
struct Reel {
    timeline: Timeline,
    clock: u64,
}

/// Adds the event of a line.
fn with_scene(
    alloc: Global,
    line: usize,
    on: bool,
    reel: Reel,
    time: &str,
    code: &str,
    text: &str,
) -> Result<Reel, TimelineFault>
    requires early { reel.timeline.moment ≤ 9000000000000000 }
    requires clock { reel.clock ≤ 9000000000000000 }
    ensures { Reads result (with_scene_of line on reel (time.now, (code.now, text.now))) }
{
    let Some(moment) = micros(alloc, time.as_bytes())? else {
        return Err(TimelineFault::Moment(line));
    };
    let Reel { timeline, clock } = reel;
    let clock = clock_after(line, on, clock, moment)?;
    let said = line_of_scene(alloc, line, clock, code, text)?;
    let timeline = with_line(alloc, line, timeline, said)?;
    Ok(Reel { timeline, clock })
}

/// Adds the event that the bytes of a line describe. An empty line and a comment change nothing.
fn with_event(
    alloc: Global,
    line: usize,
    on: bool,
    reel: Reel,
    bytes: &[u8],
    scratch: &mut Scratch<Global>,
) -> Result<Reel, TimelineFault>
    requires early { reel.timeline.moment ≤ 9000000000000000 }
    requires clock { reel.clock ≤ 9000000000000000 }
    ensures { Reads result (with_event_of line on reel bytes.now) }
{
    if says_nothing(bytes) {
        return Ok(reel);
    }
    let Some(value) = value(alloc, bytes, scratch)? else {
        return Err(TimelineFault::Event(line));
    };
    let Some(scene) = scene_in(&value) else {
        return Err(TimelineFault::Event(line));
    };
    with_scene(alloc, line, on, reel, scene.time, scene.code, scene.text)
}

/// Adds the end of the output and returns the timeline.
fn close(alloc: Global, reel: Reel) -> Result<Timeline, TimelineFault>
    requires { reel.timeline.moment ≤ 9000000000000000 }
    ensures { Reads result (closed_of reel) }
{
    let Reel { timeline, clock: _ } = reel;
    let end = TimelineLine::Child {
        when: When::After(0),
        child: 1,
        what: What::Eof,
    };
    with_line(alloc, 1, timeline, end)
}

/// Returns the timeline of the lines after a header, with the end of the output.
fn with_events(
    alloc: Global,
    on: bool,
    text: &[u8],
    scratch: &mut Scratch<Global>,
) -> Result<Timeline, TimelineFault>
    ensures reads { Reads result (events_from on text.now) }
    ensures told { IfOk result (λ t. AreTold t.events) }
{
    let mut reel = Reel {
        timeline: Timeline::new(alloc),
        clock: 0,
    };
    let mut rest = text;
    let mut number: usize = 2;
    'lines: while let Some((line, behind)) = split_line(rest) {
        reel = with_event(alloc, number, on, reel, line, scratch)?;
        rest = behind;
        number += 1;
    }
    let reel = with_event(alloc, number, on, reel, rest, scratch)?;
    close(alloc, reel)
}

/// Reads the timeline of an asciinema cast, of version 2 or 3. The cast's output is that of child
/// 1, and ends with the cast.
///
/// An error has the number of the first bad line, counted from 1. It is `Header` if the header is
/// of neither version. It may also be `Memory`.
pub(crate) fn read_cast(alloc: Global, text: &[u8]) -> Result<Timeline, TimelineFault>
    ensures reads { Reads result (cast_of text.now) }
    ensures told { IfOk result (λ t. AreTold t.events) }
{
    let mut scratch = Scratch::new(alloc);
    let (header, events) = split_line(text).unwrap_or((text, &[]));
    let Some(on) = header_counts_on(alloc, header, &mut scratch)? else {
        return Err(TimelineFault::Header);
    };
    with_events(alloc, on, events, &mut scratch)
}

/// Returns whether a text is a cast: it begins with `{`, as a header does.
pub(crate) fn is_cast(text: &[u8]) -> bool
    ensures { result ≡ is_cast_of text.now }
{
    match text {
        [] => false,
        [first, ..] => *first == b'{',
    }
}
