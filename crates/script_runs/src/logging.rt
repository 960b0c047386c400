//! Writes the log of a run's record, as the record arises.

ghost use Rattle.std.specs.Prelude.{◌≡◌, ◌≢◌, ◌+◌, ◌≤◌, List, ℕ, length, None, IfOk, IsOk};
ghost use Rattle.child_events.specs.declared.child_numbers.ChildNumbers.TheVariants.{To16};
ghost use Rattle.child_events.specs.Log.{heading, lines_text, total_line, IsOfBytes};
ghost use Rattle.std.specs.List.{AllByRecursion};
ghost use Rattle.script_runs.specs.Logging.{HasPut, PutsOn, if_kept};

use crate::log_writer::{LogWriteFault, LogWriter};
use child_events::{
    ChildNumbers, Counted, HallEvent, HallEvents, push_heading, push_lines, push_total,
};
use report_texts::write_all;
use run_records::Recorder;
use std::alloc::{AllocError, Global};
use std::io::Write;
use tcl_words::Text;

/// Returns the first line of a log.
fn heading_text(alloc: Global) -> Result<Text, AllocError>
    ensures { IfOk result (λ text. text ≡ heading To16) }
{
    let mut text = Text::new(alloc);
    push_heading(&mut text, ChildNumbers::To16)?;
    Ok(text)
}

/// Returns the last line of a log of `count` events.
fn total_text(alloc: Global, count: u64) -> Result<Text, AllocError>
    ensures { IfOk result (λ text. text ≡ total_line count) }
{
    let mut text = Text::new(alloc);
    push_total(alloc, &mut text, count)?;
    Ok(text)
}

/// Returns the lines of events.
fn lines_of(alloc: Global, events: &[HallEvent]) -> Result<Text, AllocError>
    ensures { IfOk result (λ text. (text ≡ lines_text events.now) × AllByRecursion IsOfBytes events.now) }
{
    let mut text = Text::new(alloc);
    push_lines(alloc, &mut text, events)?;
    Ok(text)
}

impl<L: Write + Drop> LogWriter<L> {
    /// Creates a writer for a device to which nothing was written.
    fn new(alloc: Global, log: Counted<L>) -> LogWriter<L>
        requires failures { log.failures ≡ 0 }
        requires calls { log.calls ≡ 0 }
        ensures log { result.log ≡ log }
        ensures count { result.count ≡ 0 }
        ensures fault { result.fault ≡ None }
    {
        LogWriter {
            alloc,
            log,
            count: 0,
            fault: None,
        }
    }

    /// Writes a text, unless memory for it was refused or there was an error before.
    fn put(&mut self, made: Result<Text, AllocError>)
        ensures put { (more : List ℕ) → IfOk made (λ text. text ≡ more) → PutsOn L.contents more self.old self.new }
        ensures count { self.new.count ≡ self.old.count }
        ensures well { self.new.fault ≡ None → (self.old.fault ≡ None) × IsOk made }
        ensures still { self.old.fault ≢ None → self.new ≡ self.old }
    {
        if self.fault.is_some() {
            return;
        }
        let Ok(text) = made else {
            self.fault = Some(LogWriteFault::Memory);
            return;
        };
        if write_all(&mut self.log, text.as_slice()).is_err() {
            self.fault = Some(LogWriteFault::Write);
        }
    }

    /// Writes the first line of a log.
    fn begin(&mut self)
        ensures put { PutsOn L.contents (heading To16) self.old self.new }
        ensures count { self.new.count ≡ self.old.count }
    {
        self.put(heading_text(self.alloc));
    }

    /// Creates a writer for a device to which nothing was written. Writes the first line of a log,
    /// if `recorded`.
    pub fn begun(alloc: Global, log: Counted<L>, recorded: bool) -> LogWriter<L>
        requires failures { log.failures ≡ 0 }
        requires calls { log.calls ≡ 0 }
        ensures put { HasPut L.contents (L.contents log.device) (if_kept recorded (heading To16)) result }
        ensures count { result.count ≡ 0 }
    {
        let mut writer = LogWriter::new(alloc, log);
        if recorded {
            writer.begin();
        }
        writer
    }

    /// Writes the last line of a log with the number of events written, if `recorded`.
    pub fn end(&mut self, recorded: bool)
        ensures put { PutsOn L.contents (if_kept recorded (total_line self.old.count)) self.old self.new }
        ensures well { self.new.fault ≡ None → self.old.fault ≡ None }
        ensures still { self.old.fault ≢ None → self.new ≡ self.old }
    {
        if recorded {
            self.put(total_text(self.alloc, self.count));
        }
    }

    /// Returns the lines of events, and counts the events.
    fn counted_lines(&mut self, events: &[HallEvent]) -> Result<Text, AllocError>
        ensures log { self.new.log ≡ self.old.log }
        ensures fault { self.new.fault ≡ self.old.fault }
        ensures lines { IfOk result (λ text. (text ≡ lines_text events.now) × (self.new.count ≡ self.old.count + length events.now) × AllByRecursion IsOfBytes events.now) }
    {
        let Some(count) = self.count.checked_add(events.len() as u64) else {
            return Err(AllocError);
        };
        let text = lines_of(self.alloc, events)?;
        self.count = count;
        Ok(text)
    }
}

impl<L: Write + Drop> Recorder for LogWriter<L> {
    ghost use Rattle.script_runs.specs.Logging.{Notes};

    ghost notes = { Notes L.contents };

    fn note(&mut self, events: HallEvents) {
        if self.fault.is_some() {
            return;
        }
        let lines = self.counted_lines(events.as_slice());
        self.put(lines);
    }
}
