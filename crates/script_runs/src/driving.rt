//! Runs scripts over children. The record and the reports go to any two writers.

ghost use Rattle.std.specs.Prelude.{◌≡◌, ◌<◌, ◌≤◌, length, map, IsErr};
ghost use Rattle.child_serve.specs.Whole.{keeping_of};
ghost use Rattle.script_runs.specs.Drive.{Drives, Records, Logs, log_fault_of};

use crate::log_writer::{LogWriteFault, LogWriter};
use crate::shelf::{Shelf, keep_all};
use child_events::Counted;
use child_hands::{Clock, Gate, Keeper};
use child_serve::{Audience, ServeFault, Served, Stopping, serve};
use dialogue_sched::Script;
use report_texts::{Form, Unwritten, made_spares, masked_reports, write_reports};
use std::alloc::{AllocError, Global};
use std::io::Write;
use std::sync::Wait;
use std::thread::Threads;

/// Why scripts were not served.
#[derive(Clone, Copy, PartialEq, Eq)]
pub enum DriveFault {
    /// A reason other than memory.
    Serve(ServeFault),
    /// Memory was refused.
    Memory,
}

/// The outcome of writing the record and the reports of a run. Neither depends on the other.
#[derive(Clone, Copy)]
pub struct Written {
    /// Whether each script ended with status 0, or why not all reports were written.
    pub reports: Result<bool, Unwritten>,
    /// Why not all of the record was written, or `None`.
    pub log: Option<LogWriteFault>,
}

impl From<AllocError> for DriveFault {
    ghost use Rattle.std.specs.Prelude.{◌≡◌};
    ghost use Rattle.script_runs.specs.declared.driving.DriveFault.TheVariants.{Memory};

    ghost from_gives = { λ _ e. e ≡ Memory };

    fn from(_e: AllocError) -> DriveFault {
        DriveFault::Memory
    }
}

impl From<ServeFault> for DriveFault {
    ghost use Rattle.std.specs.Prelude.{◌≡◌};
    ghost use Rattle.script_runs.specs.Drive.{fault_of};

    ghost from_gives = { λ f e. e ≡ fault_of f };

    fn from(fault: ServeFault) -> DriveFault {
        match fault {
            ServeFault::New(fault) => DriveFault::Serve(ServeFault::New(fault)),
            ServeFault::NoThread => DriveFault::Serve(ServeFault::NoThread),
            ServeFault::Memory => DriveFault::Memory,
        }
    }
}

/// Serves scripts, each with its keeper. Writes the log of their record as it arises, if the run is
/// recorded. Also returns why not all of it was written.
fn serve_and_log<
    K: Keeper + Send + Drop + 'static,
    C: Clock + Audience + Stopping + Send + Drop + 'static,
    G: Gate + Sync + Send + Drop + 'static,
    W: Threads + Wait + std::time::Clock + Copy + Send + Drop + 'static,
    L: Write + Drop,
>(
    rt: W,
    alloc: Global,
    scripts: Vec<Script>,
    keepers: Vec<K>,
    clocks: Vec<C>,
    gate: G,
    recorded: bool,
    log: Counted<L>,
) -> (
    Result<(Served, Option<LogWriteFault>), DriveFault>,
    Counted<L>,
)
    requires workers { (0 < length clocks.items) × (length clocks.items ≤ 64) }
    requires keepers { length keepers.items ≡ length scripts.items }
    requires log_failures { log.failures ≡ 0 }
    requires log_calls { log.calls ≡ 0 }
    ensures { Logs K.told K.gives recorded (length clocks.items) (map (keeping_of K.named K.made) keepers.items) scripts.items
        (L.contents log.device) (L.contents result.1.device) result.1.failures result.1.calls result.0 }
{
    let writer = LogWriter::begun(alloc, log, recorded);
    let (outcome, writer) = serve(rt, alloc, scripts, keepers, clocks, gate, writer, recorded);
    let served = match outcome {
        Ok(served) => served,
        Err(fault) => return (Err(fault.into()), writer.log),
    };
    let mut writer = writer;
    writer.end(recorded);
    (Ok((served, writer.fault)), writer.log)
}

/// Returns why not all of the record was written, if the scripts were served.
fn log_fault(
    outcome: Result<(Served, Option<LogWriteFault>), DriveFault>,
) -> Result<Option<LogWriteFault>, DriveFault>
    ensures { result ≡ log_fault_of outcome }
{
    let (_, fault) = outcome?;
    Ok(fault)
}

/// Serves scripts, each with its keeper, with one worker per clock. Writes the log of their record
/// to `log` as it arises, if `recorded`. The clocks receive the reports as scripts end. Returns why
/// not all of the record was written, or `None`, and the log's device.
///
/// After a failed write, or if memory is refused for the record's text, a front of the record is
/// written. If the scripts were not served, a front of a log is written. An interrupted write is
/// tried again.
pub fn drive_early<
    K: Keeper + Send + Drop + 'static,
    C: Clock + Audience + Stopping + Send + Drop + 'static,
    G: Gate + Sync + Send + Drop + 'static,
    W: Threads + Wait + std::time::Clock + Copy + Send + Drop + 'static,
    L: Write + Drop,
>(
    rt: W,
    alloc: Global,
    scripts: Vec<Script>,
    keepers: Vec<K>,
    clocks: Vec<C>,
    gate: G,
    recorded: bool,
    log: Counted<L>,
) -> (Result<Option<LogWriteFault>, DriveFault>, Counted<L>)
    requires workers { (0 < length clocks.items) × (length clocks.items ≤ 64) }
    requires keepers { length keepers.items ≡ length scripts.items }
    requires log_failures { log.failures ≡ 0 }
    requires log_calls { log.calls ≡ 0 }
    ensures { Records K.told K.gives recorded (length clocks.items) (map (keeping_of K.named K.made) keepers.items) scripts.items
        (L.contents log.device) (L.contents result.1.device) result.1.failures result.1.calls result.0 }
{
    let (outcome, log) = serve_and_log(rt, alloc, scripts, keepers, clocks, gate, recorded, log);
    (log_fault(outcome), log)
}

/// Serves scripts, each with its keeper, with one worker per clock. Writes the log of their record
/// to `log` as it arises, if `recorded`. Then passes the transcripts to a shelf and writes the
/// reports to `out`, even if not all of the record was written. In both, names stand in place of the
/// secrets of `form`. Returns the outcome of both, and the log's device.
///
/// Reports are written one by one. If memory is refused for one report or its text, that script's
/// report says `memory`, and the others are whole. After a failed write of the record, or if memory
/// is refused for its text, a front of it is written. After a failed write of the reports, a front
/// of them is written. If the scripts were not served, a front of a log is written, no report is
/// written, and nothing is kept. An interrupted write is tried again.
pub fn drive<
    K: Keeper + Send + Drop + 'static,
    C: Clock + Audience + Stopping + Send + Drop + 'static,
    G: Gate + Sync + Send + Drop + 'static,
    W: Threads + Wait + std::time::Clock + Copy + Send + Drop + 'static,
    S: Shelf,
    L: Write + Drop,
    O: Write,
>(
    rt: W,
    alloc: Global,
    scripts: Vec<Script>,
    keepers: Vec<K>,
    clocks: Vec<C>,
    gate: G,
    recorded: bool,
    form: &Form,
    shelf: &mut S,
    log: Counted<L>,
    out: &mut Counted<O>,
) -> (Result<Written, DriveFault>, Counted<L>)
    requires workers { (0 < length clocks.items) × (length clocks.items ≤ 64) }
    requires keepers { length keepers.items ≡ length scripts.items }
    requires log_failures { log.failures ≡ 0 }
    requires log_calls { log.calls ≡ 0 }
    requires out_failures { out.old.failures ≡ 0 }
    requires out_calls { out.old.calls ≡ 0 }
    ensures answers { Drives K.told K.gives recorded (length clocks.items) (map (keeping_of K.named K.made) keepers.items) scripts.items form.now
        (S.handed shelf.old) (S.handed shelf.new) (L.contents log.device) (L.contents result.1.device) result.1.failures result.1.calls
        (O.contents out.old.device) (O.contents out.new.device) out.new.failures out.new.calls result.0 }
    ensures unserved { IsErr result.0 → (shelf.new ≡ shelf.old) × (out.new ≡ out.old) }
{
    let spares = match made_spares(alloc, form, scripts.len()) {
        Ok(spares) => spares,
        Err(_) => return (Err(DriveFault::Memory), log),
    };
    let (outcome, log) = serve_and_log(rt, alloc, scripts, keepers, clocks, gate, recorded, log);
    let (served, fault) = match outcome {
        Ok(served) => served,
        Err(fault) => return (Err(fault), log),
    };
    let shown = masked_reports(alloc, form.secrets.as_slice(), served.reports);
    keep_all(shown.as_slice(), shelf);
    let written = Written {
        reports: write_reports(alloc, form, shown.as_slice(), spares, out),
        log: fault,
    };
    (Ok(written), log)
}
