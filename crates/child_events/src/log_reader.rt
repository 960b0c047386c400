//! A log that is checked as a whole, and then gives its events part by part.

ghost use Rattle.std.specs.Prelude.{◌≡◌, ◌∷◌, ◌<◌, ◌≤◌, length, take as first, drop, IfOk, IfErr, OnOk, OnErr};
ghost use Rattle.child_events.specs.Log.{LogText};
ghost use Rattle.child_events.specs.Reading.{parts, first_line, last_part as last_of, lines_events, log_events, Refused};

use crate::child_numbers::ChildNumbers;
use crate::event::HallEvent;
use crate::faults::LogFault;
use crate::fields::split_line;
use crate::hall_events::HallEvents;
use crate::judging::{judge_lines, opened};
use crate::line::read_line;
use crate::version::Version;
use std::alloc::{AllocError, Global};
use std::marker::Model;

/// The events left in a checked log. A contract sees a list. It holds no more than a reference to
/// the bytes.
#[derive(Drop)]
pub struct LogReader<'a> {
    numbers: ChildNumbers,
    rest: &'a [u8],
    /// The number of the next line.
    number: usize,
    /// The number of event lines left.
    left: usize,
}

impl<'a> Model for LogReader<'a> {
    ghost use Rattle.std.specs.Prelude.{List};
    ghost use Rattle.child_events.specs.declared.event.HallEvent.{HallEvent};
    ghost use Rattle.child_events.specs.Reading.{parts};
    ghost use Rattle.child_events.specs.Judging.{lines_read, events_in, AreJudged};

    ghost Value = { List HallEvent };

    ghost view = { λ r. events_in (lines_read r.numbers r.number r.left (parts 10 r.rest.now)) };

    ghost invariant = { λ r. AreJudged r.numbers r.number r.left r.rest.now };
}

impl<'a> LogReader<'a> {
    /// Checks the lines of a log of this version.
    fn of_lines(version: Version, bytes: &'a [u8]) -> Result<LogReader<'a>, LogFault>
        ensures { result ≡ lines_events version (first_line version) (parts 10 bytes.now) }
    {
        let left = judge_lines(version, version.first_line(), bytes)?;
        Ok(LogReader {
            numbers: version.numbers(),
            rest: bytes,
            number: version.first_line(),
            left,
        })
    }

    /// Checks a log of any version.
    fn of_log(bytes: &'a [u8]) -> Result<LogReader<'a>, LogFault>
        ensures { result ≡ log_events bytes.now }
    {
        let (version, lines) = opened(bytes)?;
        LogReader::of_lines(version, lines)
    }

    /// Checks a whole log without allocating, and prepares to read its events.
    ///
    /// An error is the first one in the log, with its line number, counted from 1.
    #[tactic(auto, using(crate::proofs::Judged::judged_found, crate::proofs::Judged::judged_refused))]
    pub fn new(bytes: &'a [u8]) -> Result<LogReader<'a>, LogFault>
        ensures found { IfOk result (λ es. LogText bytes.now es) }
        ensures refused { IfErr result (λ f. Refused bytes.now f) }
    {
        LogReader::of_log(bytes)
    }

    /// Returns the number of events left.
    pub fn len(&self) -> usize
        ensures { result ≡ length self.now }
    {
        self.left
    }

    /// Takes the next event. Requires at least one.
    fn next(&mut self, alloc: Global) -> Result<HallEvent, AllocError>
        requires { 0 < length self.old }
        ensures { IfOk result (λ e. self.old ≡ e ∷ self.new) }
    {
        let Some((line, behind)) = split_line(self.rest) else {
            unreachable!()
        };
        match read_line(alloc, self.numbers, self.number, line) {
            Ok(event) => {
                *self = LogReader {
                    numbers: self.numbers,
                    rest: behind,
                    number: self.number + 1,
                    left: self.left - 1,
                };
                Ok(event)
            }
            Err(_) => Err(AllocError),
        }
    }

    /// Takes up to `most` events. On `AllocError` no event is taken.
    pub fn take(&mut self, alloc: Global, most: usize) -> Result<HallEvents, AllocError>
        ensures given { IfOk result (λ es. es ≡ first most self.old) }
        ensures left { OnOk result (self.new ≡ drop most self.old) }
        ensures kept { OnErr result (self.new ≡ self.old) }
    {
        let count = most.min(self.left);
        let mut reader = LogReader {
            numbers: self.numbers,
            rest: self.rest,
            number: self.number,
            left: self.left,
        };
        let mut events = HallEvents::with_capacity(alloc, count)?;
        for _ in 0..count {
            let event = reader.next(alloc)?;
            events.push(event)?;
        }
        *self = reader;
        Ok(events)
    }
}
