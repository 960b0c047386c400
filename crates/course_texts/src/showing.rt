//! Shows a log as readable text, from any reader to any writer.

ghost use Rattle.std.specs.Prelude.{◌≡◌, ◌≢◌, ◌≤◌, take as first, drop, IfOk, IfErr, IfSome, OnOk, OnErr, Err};
ghost use Rattle.report_texts.specs.Devices.{GaveUp};
ghost use Rattle.course_texts.specs.Show.{shown_log, Shows, ShowsEvents, Judged, IsNoWant, IsBefore};

use crate::events::events_text;
use child_events::{Counted, LogFault, LogReader};
use report_texts::{ReadFault, read_all, write_all};
use std::alloc::{AllocError, Global};
use std::io::{Read, Write};
use tcl_words::Text;

/// The number of events held at once.
const PART: usize = 256;

/// Why showing a log failed.
#[derive(Clone, Copy, PartialEq, Eq)]
pub enum ShowFault {
    /// A read of the log failed, or the log had no end after the greatest number of reads.
    Read,
    /// The log has a bad line. This is never `LogFault::Memory`.
    Log(LogFault),
    /// A write failed, or the greatest number of writes was not enough.
    Write,
    /// Memory was refused.
    Memory,
}

impl From<AllocError> for ShowFault {
    ghost use Rattle.std.specs.Prelude.{◌≡◌};
    ghost use Rattle.course_texts.specs.declared.showing.ShowFault.TheVariants.{Memory};

    ghost from_gives = { λ _ e. e ≡ Memory };

    fn from(_e: AllocError) -> ShowFault {
        ShowFault::Memory
    }
}

/// Checks a log.
fn judged(bytes: &[u8]) -> Result<LogReader, ShowFault>
    ensures { Judged bytes.now result }
{
    match LogReader::new(bytes) {
        Ok(log) => Ok(log),
        Err(LogFault::Memory) => Err(ShowFault::Memory),
        Err(fault) => Err(ShowFault::Log(fault)),
    }
}

/// Returns the text of the next `PART` events of a log, and takes them from the log.
fn part_text(alloc: Global, script: Option<u8>, log: &mut LogReader) -> Result<Text, AllocError>
    ensures text { IfOk result (λ t. t ≡ shown_log script (first 256 log.old)) }
    ensures left { OnOk result (log.new ≡ drop 256 log.old) }
{
    let events = log.take(alloc, PART)?;
    events_text(alloc, script, events.as_slice())
}

/// Writes the text of a log's remaining events.
fn write_events<W: Write>(
    alloc: Global,
    script: Option<u8>,
    log: &mut LogReader,
    out: &mut Counted<W>,
) -> Result<(), ShowFault>
    requires failures { out.old.failures ≡ 0 }
    requires calls { out.old.calls ≤ 1099511627776 }
    ensures { ShowsEvents script log.old (W.contents out.old.device) (W.contents out.new.device) out.new.failures out.new.calls result }
{
    'parts: while log.len() > 0 {
        let Ok(text) = part_text(alloc, script, log) else {
            return Err(ShowFault::Memory);
        };
        let Ok(()) = write_all(out, text.as_slice()) else {
            return Err(ShowFault::Write);
        };
    }
    Ok(())
}

/// Reads a log, and writes a line for each event that belongs to a script, or for every event if no
/// script is named.
///
/// Errors are returned in the order of `ShowFault`'s variants, except `Memory`. `Memory` may
/// replace any of them, and may also occur between writes. After `Write` and after `Memory`, a
/// front of the text was written. After any other error, nothing was written. An interrupted read
/// or write is tried again.
pub fn show_log<R: Read, W: Write>(
    alloc: Global,
    script: Option<u8>,
    log: &mut Counted<R>,
    out: &mut Counted<W>,
) -> Result<(), ShowFault>
    requires log_failures { log.old.failures ≡ 0 }
    requires log_calls { log.old.calls ≡ 0 }
    requires out_failures { out.old.failures ≡ 0 }
    requires out_calls { out.old.calls ≡ 0 }
    ensures answers { IfSome (R.remaining log.old.device) (λ bytes.
        Shows script bytes (W.contents out.old.device) (W.contents out.new.device) result) }
    ensures unwritten { IfErr result (λ fault. IsBefore fault → out.new ≡ out.old) }
    ensures read { result ≡ Err ShowFault.Read → GaveUp log.new.failures log.new.calls }
    ensures read_whole { result ≢ Err ShowFault.Read → log.new.failures ≡ 0 }
    ensures write { result ≡ Err ShowFault.Write → GaveUp out.new.failures out.new.calls }
    ensures written_whole { result ≢ Err ShowFault.Write → out.new.failures ≡ 0 }
    ensures memory { IfErr result (λ fault. IsNoWant fault) }
{
    let bytes = match read_all(alloc, log) {
        Ok(bytes) => bytes,
        Err(ReadFault::Failed) => return Err(ShowFault::Read),
        Err(ReadFault::Memory) => return Err(ShowFault::Memory),
    };
    let mut events = judged(bytes.as_slice())?;
    write_events(alloc, script, &mut events, out)
}
