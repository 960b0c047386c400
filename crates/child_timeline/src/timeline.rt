//! What the children of a script do, and when.

ghost use Rattle.std.specs.Prelude.{◌≡◌, ◌++◌, ◌∷◌, [], ◌≤◌, ◌+◌, length, map, take as first, drop, Ok, IfOk, OnOk};
ghost use Rattle.child_timeline.specs.Told.{AreTold};
ghost use Rattle.child_timeline.specs.Line.{Reads};
ghost use Rattle.child_timeline.specs.Timeline.{within as within_of, moment_after as moment_after_of, pieces, written, events_of, with_events as with_events_of, with_exit as with_exit_of, with_line as with_line_of, with_bytes as with_bytes_of, silence, timeline_of};

use crate::exits::{Exit, Exits};
use crate::fault::TimelineFault;
use crate::line::{TimelineLine, When, read_line};
use crate::words::split_line;
use child_events::{HallEvent, HallEvents, What};
use std::alloc::{AllocError, Global};
use tcl_words::Text;

/// The last moment, in milliseconds.
const MOMENT_LIMIT: u64 = 9_000_000_000_000_000;

/// The longest piece of output in an event, in bytes.
const LONGEST_PIECE: usize = 4096;

/// What the children of one script do, in order, and how they end.
#[derive(Drop)]
pub struct Timeline {
    /// The events of the children, and ticks. The script has number 1.
    pub events: HallEvents,
    /// The answers to waits for children.
    pub exits: Exits,
    /// The moment of the last line with a moment, in milliseconds.
    pub moment: u64,
}

/// Checks that a moment is not past the last one.
fn within(line: usize, moment: u64) -> Result<u64, TimelineFault>
    ensures { result ≡ within_of line moment }
{
    if moment <= MOMENT_LIMIT {
        Ok(moment)
    } else {
        Err(TimelineFault::Moment(line))
    }
}

/// Returns the moment `time` milliseconds after `last`. An error if it is past the last one.
fn later(line: usize, last: u64, time: u64) -> Result<u64, TimelineFault>
    requires { last ≤ 9000000000000000 }
    ensures { result ≡ within_of line (last + time) }
{
    if time <= MOMENT_LIMIT - last {
        Ok(last + time)
    } else {
        Err(TimelineFault::Moment(line))
    }
}

/// Returns the moment of a line that follows one of moment `last`.
fn moment_after(line: usize, last: u64, when: When) -> Result<u64, TimelineFault>
    requires { last ≤ 9000000000000000 }
    ensures { result ≡ moment_after_of line last when }
{
    match when {
        When::At(moment) => {
            let moment = within(line, moment)?;
            if last <= moment {
                Ok(moment)
            } else {
                Err(TimelineFault::Back(line))
            }
        }
        When::After(time) => later(line, last, time),
    }
}

/// Appends the event that a child wrote this piece.
fn push_piece(
    alloc: Global,
    events: &mut HallEvents,
    child: u8,
    moment: u64,
    piece: &[u8],
) -> Result<(), AllocError>
    ensures { OnOk result (events.new ≡ events.old ++ written child moment piece.now ∷ []) }
{
    let piece = Text::from_slice(alloc, piece)?;
    events.push(HallEvent::Child {
        script: 1,
        child: u16::from(child),
        moment,
        what: What::Out(piece),
    })
}

/// Returns the first 4,096 bytes and the rest.
fn split_piece(bytes: &[u8]) -> (&[u8], &[u8])
    requires { 4096 ≤ length bytes.now }
    ensures piece { result.0.now ≡ first 4096 bytes.now }
    ensures rest { result.1.now ≡ drop 4096 bytes.now }
{
    bytes.split_at(LONGEST_PIECE)
}

/// Appends the events that a child wrote these bytes, in pieces of 4,096 bytes.
pub(crate) fn push_pieces(
    alloc: Global,
    events: &mut HallEvents,
    child: u8,
    moment: u64,
    bytes: &[u8],
) -> Result<(), AllocError>
    ensures { OnOk result (events.new ≡ events.old ++ map (written child moment) (pieces bytes.now)) }
{
    let mut rest = bytes;
    for _ in 0..bytes.len().saturating_sub(1) / LONGEST_PIECE {
        let (piece, behind) = split_piece(rest);
        push_piece(alloc, events, child, moment, piece)?;
        rest = behind;
    }
    push_piece(alloc, events, child, moment, rest)
}

/// Appends the events of a child's content.
fn push_what(
    alloc: Global,
    events: &mut HallEvents,
    child: u8,
    moment: u64,
    what: What,
) -> Result<(), AllocError>
    ensures { OnOk result (events.new ≡ events.old ++ events_of child moment what) }
{
    match what {
        What::Out(text) => push_pieces(alloc, events, child, moment, text.as_slice()),
        What::Answer(_) => Ok(()),
        What::Eof => events.push(HallEvent::Child {
            script: 1,
            child: u16::from(child),
            moment,
            what: What::Eof,
        }),
        What::ReadFail(cause) => events.push(HallEvent::Child {
            script: 1,
            child: u16::from(child),
            moment,
            what: What::ReadFail(cause),
        }),
    }
}

impl Timeline {
    /// Creates an empty timeline without allocating.
    pub fn new(alloc: Global) -> Timeline
        ensures { result ≡ silence }
    {
        Timeline {
            events: HallEvents::new(alloc),
            exits: Exits::new(alloc),
            moment: 0,
        }
    }
}

/// Adds a tick.
fn with_tick(timeline: Timeline, moment: u64) -> Result<Timeline, TimelineFault>
    ensures { Reads result (Ok (with_events_of timeline moment (HallEvent.Tick moment ∷ []))) }
{
    let Timeline {
        events,
        exits,
        moment: _,
    } = timeline;
    let mut events = events;
    events.push(HallEvent::Tick { moment })?;
    Ok(Timeline {
        events,
        exits,
        moment,
    })
}

/// Adds the content of a child's event.
fn with_what(
    alloc: Global,
    timeline: Timeline,
    child: u8,
    moment: u64,
    what: What,
) -> Result<Timeline, TimelineFault>
    ensures { Reads result (Ok (with_events_of timeline moment (events_of child moment what))) }
{
    let Timeline {
        events,
        exits,
        moment: _,
    } = timeline;
    let mut events = events;
    push_what(alloc, &mut events, child, moment, what)?;
    Ok(Timeline {
        events,
        exits,
        moment,
    })
}

/// Adds the end of a child. An error if it was given before.
fn with_exit(line: usize, timeline: Timeline, exit: Exit) -> Result<Timeline, TimelineFault>
    ensures { Reads result (with_exit_of line timeline exit) }
{
    let Timeline {
        events,
        exits,
        moment,
    } = timeline;
    if exits.told(exit.child).is_some() {
        return Err(TimelineFault::Again(line));
    }
    let mut exits = exits;
    exits.push(exit)?;
    Ok(Timeline {
        events,
        exits,
        moment,
    })
}

/// Adds the content of a line.
pub(crate) fn with_line(
    alloc: Global,
    line: usize,
    timeline: Timeline,
    said: TimelineLine,
) -> Result<Timeline, TimelineFault>
    requires { timeline.moment ≤ 9000000000000000 }
    ensures { Reads result (with_line_of line timeline said) }
{
    match said {
        TimelineLine::Nothing => Ok(timeline),
        TimelineLine::Tick(when) => {
            let moment = moment_after(line, timeline.moment, when)?;
            with_tick(timeline, moment)
        }
        TimelineLine::Child { when, child, what } => {
            let moment = moment_after(line, timeline.moment, when)?;
            with_what(alloc, timeline, child, moment, what)
        }
        TimelineLine::Exit(exit) => with_exit(line, timeline, exit),
    }
}

/// Adds the content of a line's bytes.
fn with_bytes(
    alloc: Global,
    line: usize,
    timeline: Timeline,
    bytes: &[u8],
) -> Result<Timeline, TimelineFault>
    requires { timeline.moment ≤ 9000000000000000 }
    ensures { Reads result (with_bytes_of line timeline bytes.now) }
{
    let said = read_line(alloc, line, bytes)?;
    with_line(alloc, line, timeline, said)
}

/// Reads the timeline of a text.
///
/// An error is the first one in the text, with its line number, counted from 1. It may also be
/// `Memory`.
pub fn read_timeline(alloc: Global, text: &[u8]) -> Result<Timeline, TimelineFault>
    ensures reads { Reads result (timeline_of text.now) }
    ensures told { IfOk result (λ t. AreTold t.events) }
{
    let mut timeline = Timeline::new(alloc);
    let mut rest = text;
    let mut number: usize = 1;
    'lines: while let Some((line, behind)) = split_line(rest) {
        timeline = with_bytes(alloc, number, timeline, line)?;
        rest = behind;
        number += 1;
    }
    with_bytes(alloc, number, timeline, rest)
}
