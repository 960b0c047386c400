//! A log that is checked while it is read, part by part.

ghost use Rattle.std.specs.Prelude.{◌≡◌, ◌≢◌, ◌+◌, ◌<◌, ◌^◌, [], List, Result, length, Ok, Err, IfOk, IfErr, OnErr};
ghost use Rattle.child_events.specs.declared.event.HallEvent.{HallEvent as HallEventOf};
ghost use Rattle.child_events.specs.declared.faults.LogFault.{LogFault as LogFaultOf};
ghost use Rattle.child_events.specs.Reading.{parts, line_event, numbers_in, none_where, with_line, Reads, Refused};
ghost use Rattle.child_events.specs.Judging.{judged, SaysLog, GivesPart, GivesNext};

use crate::event::HallEvent;
use crate::faults::LogFault;
use crate::fields::split_line;
use crate::hall_events::HallEvents;
use crate::judging::{end, judge_lines, last_part, opened};
use crate::line::{judge_line, read_line};
use crate::version::Version;
use std::alloc::Global;
use std::marker::Model;

/// The rest of a log: its bytes, and the events or the first error in them. It holds no more than a
/// reference to the bytes.
#[derive(Drop)]
pub struct LogLines<'a> {
    version: Version,
    rest: &'a [u8],
    /// The number of the next line.
    number: usize,
}

impl<'a> Model for LogLines<'a> {
    ghost use Rattle.std.specs.Prelude.{◌+◌, ◌<◌, ◌^◌, length};
    ghost use Rattle.child_events.specs.Reading.{parts, lines_events};
    ghost use Rattle.child_events.specs.Judging.{Left};

    ghost Value = { Left };

    ghost view = { λ l. record { bytes = length l.rest.now; said = lines_events l.version l.number (parts 10 l.rest.now) } };

    ghost invariant = { λ l. l.number + length l.rest.now < 2 ^ 64 };
}

/// Ends the log at a line that could not be read as an event. If it is an event, memory was
/// refused.
fn end_at(version: Version, number: usize, line: &[u8], behind: &[u8]) -> Result<(), LogFault>
    requires { number + 1 < 2 ^ 64 }
    ensures { (others : Result (List HallEventOf) LogFaultOf) → Reads (none_where result) (with_line version number line.now (line_event (numbers_in version) number line.now) (parts 10 behind.now) others) }
{
    match judge_line(version.numbers(), number, line) {
        Ok(()) => Err(LogFault::Memory),
        Err(fault) => end(version, number, line, fault, behind),
    }
}

impl<'a> LogLines<'a> {
    /// Opens a log and reads the line of its version, if it has one.
    ///
    /// An error means that the version is unknown.
    #[tactic(auto, using(crate::proofs::Judged::says_log))]
    pub fn new(bytes: &'a [u8]) -> Result<LogLines<'a>, LogFault>
        ensures found { IfOk result (λ left. SaysLog bytes.now left.said) }
        ensures refused { IfErr result (λ f. Refused bytes.now f) }
    {
        let (version, rest) = opened(bytes)?;
        Ok(LogLines {
            version,
            rest,
            number: version.first_line(),
        })
    }

    /// Returns the same rest of the log.
    fn again(&self) -> LogLines<'a>
        ensures { result ≡ self.now }
    {
        LogLines {
            version: self.version,
            rest: self.rest,
            number: self.number,
        }
    }

    /// Returns the number of bytes left.
    pub fn bytes(&self) -> usize
        ensures { result ≡ self.now.bytes }
    {
        self.rest.len()
    }

    /// Takes the next event. `None` if the log has ended without an error.
    fn next(&mut self, alloc: Global) -> Result<Option<HallEvent>, LogFault>
        ensures given { IfOk result (λ e. GivesNext self.old e self.new) }
        ensures refused { IfErr result (λ f. f ≢ LogFault.Memory → self.old.said ≡ Err f) }
    {
        let Some((line, behind)) = split_line(self.rest) else {
            last_part(self.version, self.number, self.rest)?;
            return Ok(None);
        };
        match read_line(alloc, self.version.numbers(), self.number, line) {
            Ok(event) => {
                *self = LogLines {
                    version: self.version,
                    rest: behind,
                    number: self.number + 1,
                };
                Ok(Some(event))
            }
            Err(_) => {
                end_at(self.version, self.number, line, behind)?;
                Ok(None)
            }
        }
    }

    /// Takes up to `most` events. Fewer events mean that the log has ended without an error.
    ///
    /// An error is the first one in the rest. Its line number counts from 1 at the first line of
    /// the log. It may also be `Memory`. On an error the rest is unchanged.
    pub fn take(&mut self, alloc: Global, most: usize) -> Result<HallEvents, LogFault>
        ensures given { IfOk result (λ es. GivesPart self.old es self.new) }
        ensures whole { IfOk result (λ es. length es < most → self.new.said ≡ Ok []) }
        ensures refused { IfErr result (λ f. f ≢ LogFault.Memory → self.old.said ≡ Err f) }
        ensures kept { OnErr result (self.new ≡ self.old) }
    {
        let mut lines = self.again();
        let mut events = HallEvents::with_capacity(alloc, most.min(self.rest.len()))?;
        for _ in 0..most {
            let Some(event) = lines.next(alloc)? else {
                break;
            };
            events.push(event)?;
        }
        *self = lines;
        Ok(events)
    }

    /// Checks the rest of the log to its end, without allocating.
    pub fn judge(&self) -> Result<(), LogFault>
        ensures { result ≡ judged self.now.said }
    {
        judge_lines(self.version, self.number, self.rest)?;
        Ok(())
    }
}
