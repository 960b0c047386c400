//! Plans the log of one script, from the output that its children shall write.

ghost use Rattle.std.specs.Prelude.{◌≡◌, ◌≢◌, IfOk, IfErr, IfSome, Err};
ghost use Rattle.child_timeline.specs.Line.{Reads};
ghost use Rattle.child_timeline.specs.Told.{AreTold};
ghost use Rattle.report_texts.specs.Devices.{GaveUp};
ghost use Rattle.script_runs.specs.Planning.{told_by as told_by_of, Tells, Logs, LogsOver, PlansLog, IsNoWant};

use child_events::{Counted, write_log};
use child_timeline::{Timeline, TimelineFault, read_said, read_timed_typescript};
use dialogue_sched::Script;
use log_plan::{PlanFault, plan};
use report_texts::{ReadFault, read_all, write_all};
use std::alloc::{AllocError, Global};
use std::io::{Read, Write};
use tcl_words::Text;

/// Why no log was planned, or not all of it was written.
#[derive(Clone, Copy, PartialEq, Eq)]
pub enum PlanLogFault {
    /// A read of the timeline failed, or the timeline had no end after the greatest number of
    /// reads.
    Read,
    /// The timeline or the timing file has a bad line. This is never `TimelineFault::Memory`.
    Timeline(TimelineFault),
    /// The script has no plan. This is never `PlanFault::Memory`.
    Plan(PlanFault),
    /// A write failed, or the greatest number of writes was not enough.
    Write,
    /// Memory was refused.
    Memory,
}

impl From<AllocError> for PlanLogFault {
    ghost use Rattle.std.specs.Prelude.{◌≡◌};
    ghost use Rattle.script_runs.specs.declared.planning.PlanLogFault.TheVariants.{Memory};

    ghost from_gives = { λ _ e. e ≡ Memory };

    fn from(_e: AllocError) -> PlanLogFault {
        PlanLogFault::Memory
    }
}

/// Reads the timeline of a text. With a timing file, the text is a typescript.
fn told_by(alloc: Global, bytes: &[u8], timing: &Option<Text>) -> Result<Timeline, TimelineFault>
    ensures reads { Reads result (told_by_of bytes.now timing.now) }
    ensures told { IfOk result (λ t. AreTold t.events) }
{
    match timing {
        Some(timing) => read_timed_typescript(alloc, bytes, timing.as_slice()),
        None => read_said(alloc, bytes),
    }
}

/// Like `told_by`, but returns the error of planning.
fn told(alloc: Global, bytes: &[u8], timing: &Option<Text>) -> Result<Timeline, PlanLogFault>
    ensures { Tells bytes.now timing.now result }
{
    match told_by(alloc, bytes, timing) {
        Ok(timeline) => Ok(timeline),
        Err(TimelineFault::Memory) => Err(PlanLogFault::Memory),
        Err(fault) => Err(PlanLogFault::Timeline(fault)),
    }
}

/// Returns the log of a script's plan.
fn log_of(alloc: Global, script: Script, timeline: Timeline) -> Result<Text, PlanLogFault>
    requires { AreTold timeline.events }
    ensures { Logs script timeline result }
{
    match plan(alloc, script, timeline) {
        Ok(events) => Ok(write_log(alloc, events.as_slice())?),
        Err(PlanFault::Memory) => Err(PlanLogFault::Memory),
        Err(fault) => Err(PlanLogFault::Plan(fault)),
    }
}

/// Returns the log of a script's plan over the timeline of a text.
fn log_over(
    alloc: Global,
    script: Script,
    bytes: &[u8],
    timing: &Option<Text>,
) -> Result<Text, PlanLogFault>
    ensures { LogsOver script bytes.now timing.now result }
{
    let timeline = told(alloc, bytes, timing)?;
    log_of(alloc, script, timeline)
}

/// Reads a timeline, a cast or a typescript, and writes the log of a script's plan over it. A
/// timing file belongs to a typescript.
///
/// Errors are returned in the order of `PlanLogFault`'s variants, except `Memory`. `Memory` may
/// replace any of them before the first write. After `Write`, a front of the log was written. After
/// any other error, nothing was written. An interrupted read or write is tried again.
pub fn plan_log<R: Read, W: Write>(
    alloc: Global,
    script: Script,
    timeline: &mut Counted<R>,
    timing: &Option<Text>,
    out: &mut Counted<W>,
) -> Result<(), PlanLogFault>
    requires timeline_failures { timeline.old.failures ≡ 0 }
    requires timeline_calls { timeline.old.calls ≡ 0 }
    requires out_failures { out.old.failures ≡ 0 }
    requires out_calls { out.old.calls ≡ 0 }
    ensures answers { IfSome (R.remaining timeline.old.device) (λ bytes.
        PlansLog script bytes timing.now (W.contents out.old.device) (W.contents out.new.device) result) }
    ensures unwritten { IfErr result (λ fault. fault ≢ PlanLogFault.Write → out.new ≡ out.old) }
    ensures read { result ≡ Err PlanLogFault.Read → GaveUp timeline.new.failures timeline.new.calls }
    ensures read_whole { result ≢ Err PlanLogFault.Read → timeline.new.failures ≡ 0 }
    ensures write { result ≡ Err PlanLogFault.Write → GaveUp out.new.failures out.new.calls }
    ensures written_whole { result ≢ Err PlanLogFault.Write → out.new.failures ≡ 0 }
    ensures memory { IfErr result (λ fault. IsNoWant fault) }
{
    let bytes = match read_all(alloc, timeline) {
        Ok(bytes) => bytes,
        Err(ReadFault::Failed) => return Err(PlanLogFault::Read),
        Err(ReadFault::Memory) => return Err(PlanLogFault::Memory),
    };
    let text = log_over(alloc, script, bytes.as_slice(), timing)?;
    match write_all(out, text.as_slice()) {
        Ok(()) => Ok(()),
        Err(_) => Err(PlanLogFault::Write),
    }
}
