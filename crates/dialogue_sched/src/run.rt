//! Whole runs.

ghost use Rattle.std.specs.Prelude.{◌≡◌, ◌+◌, ◌<◌, ◌^◌, [], length, None, Ok, Err, IfOk, IfErr};
ghost use Rattle.child_events.specs.Judging.{GivesPart};
ghost use Rattle.dialogue_sched.specs.Refusal.{first_refusal, IsAcceptedTo};
ghost use Rattle.dialogue_sched.specs.Run.{Runs, OpensFor, log_first as log_first_of, StopsAtPart, TakesLog, RunsLog, Isolated};

use crate::fault::opening_fault;
use crate::hall::{Hall, HallFault};
use crate::refusal::{HallRefusal, refusal};
use crate::reports::Reports;
use crate::script::Script;
use child_events::{HallEvent, HallEvents, LogFault, LogLines};
use std::alloc::{AllocError, AllocFailed, Global};

/// The most events of a log in memory at once.
const PART: usize = 512;

/// Why a run has no reports.
#[derive(Clone, Copy, Debug, PartialEq, Eq)]
pub enum RunFault {
    /// The hall refuses an event. `at` is the index of the first refused one, counted from 0.
    Refused { at: usize, refusal: HallRefusal },
    /// There is no hall, for a reason other than memory.
    New(HallFault),
    /// Memory was refused for what all scripts share: the hall or its parts, or the events. The
    /// scripts are otherwise correct.
    Memory,
}

impl From<AllocError> for RunFault {
    ghost use Rattle.std.specs.Prelude.{◌≡◌};
    ghost use Rattle.dialogue_sched.specs.declared.run.RunFault.TheVariants.{Memory};

    ghost from_gives = { λ _ e. e ≡ Memory };

    fn from(_e: AllocError) -> RunFault {
        RunFault::Memory
    }
}

impl<T: Drop> From<AllocFailed<T>> for RunFault {
    ghost use Rattle.std.specs.Prelude.{◌≡◌};
    ghost use Rattle.dialogue_sched.specs.declared.run.RunFault.TheVariants.{Memory};

    ghost from_gives = { λ _ e. e ≡ Memory };

    fn from(_e: AllocFailed<T>) -> RunFault {
        RunFault::Memory
    }
}

/// Why a run over a log has no reports.
#[derive(Clone, Copy, PartialEq, Eq)]
pub enum LogRunFault {
    /// The first error of the log.
    Log(LogFault),
    /// The error of the run.
    Run(RunFault),
}

fn open(alloc: Global, scripts: Vec<Script>) -> Result<Hall, RunFault>
    ensures { OpensFor scripts.items result }
{
    match Hall::new(alloc, scripts) {
        Ok(hall) => Ok(hall),
        Err(HallFault::Memory) => Err(RunFault::Memory),
        Err(HallFault::TooManyScripts) => Err(RunFault::New(HallFault::TooManyScripts)),
        Err(HallFault::SourceTooLong(n)) => Err(RunFault::New(HallFault::SourceTooLong(n))),
    }
}

/// Returns the first event that a hall with this number of scripts refuses. `from` is the index of
/// the first event.
fn first_refused(scripts: usize, from: usize, events: &[HallEvent]) -> Option<(usize, HallRefusal)>
    requires { from + length events.now < 2 ^ 64 }
    ensures { result ≡ first_refusal scripts from events.now }
{
    let mut at = from;
    for event in events {
        if let Some(refusal) = refusal(scripts, event) {
            return Some((at, refusal));
        }
        at += 1;
    }
    None
}

/// Returns a copy of events.
fn copies(alloc: Global, events: &[HallEvent]) -> Result<HallEvents, AllocError>
    ensures { IfOk result (λ es. es ≡ events.now) }
{
    let mut list = HallEvents::with_capacity(alloc, events.len())?;
    for event in events {
        list.push(event.copied(alloc)?)?;
    }
    Ok(list)
}

/// Runs scripts over a list of events. Each report is the meaning of its script's source, settings
/// and own events, and of nothing else. Or it says that this script was refused memory.
///
/// `Memory` means that the hall or the copies of events were refused memory, and that there is no
/// other error. Room for the reports is part of the hall. A report that is refused memory therefore
/// affects only its own script.
pub fn run_all(
    alloc: Global,
    scripts: Vec<Script>,
    events: &[HallEvent],
) -> Result<Reports, RunFault>
    ensures runs { Runs scripts.items events.now result }
    ensures memory { result ≡ Err RunFault.Memory → first_refusal (length scripts.items) 0 events.now ≡ None }
{
    if let Some(fault) = opening_fault(scripts.as_slice()) {
        return Err(RunFault::New(fault));
    }
    if let Some((at, refusal)) = first_refused(scripts.len(), 0, events) {
        return Err(RunFault::Refused { at, refusal });
    }
    let mut hall = open(alloc, scripts)?;
    let Ok(()) = hall.take_all(alloc, copies(alloc, events)?) else {
        return Err(RunFault::Memory);
    };
    Ok(hall.into_reports())
}

/// Returns the error of a run over a log. An error of the log comes first.
fn log_first(log: &LogLines, fault: RunFault) -> LogRunFault
    ensures { result ≡ log_first_of log.now.said fault }
{
    match log.judge() {
        Ok(()) => LogRunFault::Run(fault),
        Err(bad) => LogRunFault::Log(bad),
    }
}

/// Takes the next part of a log.
fn next_part(alloc: Global, log: &mut LogLines) -> Result<HallEvents, LogRunFault>
    ensures given { IfOk result (λ es. GivesPart log.old es log.new) }
    ensures whole { IfOk result (λ es. length es < 512 → log.new.said ≡ Ok []) }
    ensures stops { IfErr result (λ f. (log.new ≡ log.old) × StopsAtPart log.old.said f) }
{
    match log.take(alloc, PART) {
        Ok(part) => Ok(part),
        Err(LogFault::Memory) => Err(LogRunFault::Run(RunFault::Memory)),
        Err(fault) => Err(LogRunFault::Log(fault)),
    }
}

/// Passes the rest of a log to a hall, part by part, up to the first part with a refused event or
/// an error.
fn take_log(alloc: Global, hall: &mut Hall, log: &mut LogLines) -> Result<(), LogRunFault>
    ensures takes { TakesLog log.old.said hall.old hall.new result }
    ensures memory { result ≡ Err (LogRunFault.Run RunFault.Memory) → IsAcceptedTo (length hall.old) log.old.said log.new.said }
{
    let all = log.bytes();
    let mut before: usize = 0;
    'parts: loop {
        let part = next_part(alloc, log)?;
        let count = part.len();
        if let Some((at, refusal)) = first_refused(hall.len(), before, part.as_slice()) {
            return Err(log_first(log, RunFault::Refused { at, refusal }));
        }
        let Ok(()) = hall.take_all(alloc, part) else {
            return Err(LogRunFault::Run(RunFault::Memory));
        };
        if count < PART {
            return Ok(());
        }
        before += count;
    }
}

/// Runs scripts over the rest of a log, as `run_all` does over a list. At most 512 events are in
/// memory at once.
///
/// The log is checked while it is read. Its first error, wherever it is, comes before an error of
/// the run, except for refused memory. If memory is refused, the hall refused none of the events
/// before those that are left.
pub fn run_log(
    alloc: Global,
    scripts: Vec<Script>,
    log: &mut LogLines,
) -> Result<Reports, LogRunFault>
    ensures runs { RunsLog scripts.items log.old.said result }
    ensures memory { result ≡ Err (LogRunFault.Run RunFault.Memory) → IsAcceptedTo (length scripts.items) log.old.said log.new.said }
{
    let mut hall = match open(alloc, scripts) {
        Ok(hall) => hall,
        Err(fault) => return Err(log_first(log, fault)),
    };
    take_log(alloc, &mut hall, log)?;
    Ok(hall.into_reports())
}

/// States that no script changes another one. Take two lists of events with the same own events of
/// a script, after their moments are raised. The script's reports are the same, whatever the other
/// scripts and events are, and whatever its numbers are. Scripts that were refused memory are
/// excepted. It does nothing at run time.
pub fn isolation()
    ensures { Isolated }
{}
