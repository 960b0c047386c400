//! Runs scripts over a log of events, from any reader to any writer.

ghost use Rattle.std.specs.Prelude.{◌≡◌, ◌≢◌, length, option_map, IfOk, IfErr, IfSome, Err};
ghost use Rattle.report_texts.specs.Devices.{GaveUp};
ghost use Rattle.script_runs.specs.Replay.{Opens, log_of, RunOrFault, ReportsOver, ReportsRead, Replays, IsNoWant};

use crate::fault::ReplayFault;
use crate::shelf::{Shelf, keep_all};
use child_events::{Counted, LogFault, LogLines};
use cut_logs::mend;
use dialogue_sched::{HallFault, LogRunFault, Reports, RunFault, Script, run_log};
use report_texts::{Form, ReadFault, made_spares, masked_reports, read_all, write_reports};
use std::alloc::Global;
use std::io::{Read, Write};
use tcl_words::Text;

/// Returns the reports of scripts over the rest of a log.
fn reports_of(
    alloc: Global,
    scripts: Vec<Script>,
    log: &mut LogLines,
) -> Result<Reports, ReplayFault>
    ensures ran { RunOrFault scripts.items log.old.said result }
    ensures count { IfOk result (λ rs. length rs ≡ length scripts.items) }
{
    match run_log(alloc, scripts, log) {
        Ok(reports) => Ok(reports),
        Err(LogRunFault::Log(LogFault::Memory)) => Err(ReplayFault::Memory),
        Err(LogRunFault::Log(fault)) => Err(ReplayFault::Log(fault)),
        Err(LogRunFault::Run(RunFault::Memory)) => Err(ReplayFault::Memory),
        Err(LogRunFault::Run(RunFault::New(HallFault::Memory))) => Err(ReplayFault::Memory),
        Err(LogRunFault::Run(fault)) => Err(ReplayFault::Run(fault)),
    }
}

/// Returns the lines of a log with these bytes.
fn lines_of(bytes: &[u8]) -> Result<LogLines, ReplayFault>
    ensures { Opens bytes.now result }
{
    match LogLines::new(bytes) {
        Ok(log) => Ok(log),
        Err(LogFault::Memory) => Err(ReplayFault::Memory),
        Err(fault) => Err(ReplayFault::Log(fault)),
    }
}

/// Returns the reports of scripts over a log with these bytes.
fn reports_over(alloc: Global, scripts: Vec<Script>, bytes: &[u8]) -> Result<Reports, ReplayFault>
    ensures over { ReportsOver scripts.items bytes.now result }
    ensures count { IfOk result (λ rs. length rs ≡ length scripts.items) }
{
    let mut log = lines_of(bytes)?;
    reports_of(alloc, scripts, &mut log)
}

/// Returns the remaining bytes of a reader. If `cut`, the log may be cut off, and it is made whole.
fn log_bytes<R: Read>(alloc: Global, log: &mut Counted<R>, cut: bool) -> Result<Text, ReadFault>
    requires failures { log.old.failures ≡ 0 }
    requires calls { log.old.calls ≡ 0 }
    ensures bytes { IfOk result (λ text. IfSome (option_map (log_of cut) (R.remaining log.old.device)) (λ bytes. text ≡ bytes)) }
    ensures failed { result ≡ Err ReadFault.Failed → GaveUp log.new.failures log.new.calls }
    ensures unfailed { result ≢ Err ReadFault.Failed → log.new.failures ≡ 0 }
{
    let mut bytes = read_all(alloc, log)?;
    if cut {
        mend(alloc, &mut bytes)?;
    }
    Ok(bytes)
}

/// Returns the reports of scripts over the remaining log of a reader. If `cut`, the log may be cut
/// off.
pub fn reports_read<R: Read>(
    alloc: Global,
    log: &mut Counted<R>,
    cut: bool,
    scripts: Vec<Script>,
) -> Result<Reports, ReplayFault>
    requires failures { log.old.failures ≡ 0 }
    requires calls { log.old.calls ≡ 0 }
    ensures read { ReportsRead scripts.items (option_map (log_of cut) (R.remaining log.old.device)) log.new.failures log.new.calls result }
    ensures read_whole { result ≢ Err ReplayFault.Read → log.new.failures ≡ 0 }
    ensures count { IfOk result (λ rs. length rs ≡ length scripts.items) }
{
    let bytes = match log_bytes(alloc, log, cut) {
        Ok(bytes) => bytes,
        Err(ReadFault::Failed) => return Err(ReplayFault::Read),
        Err(ReadFault::Memory) => return Err(ReplayFault::Memory),
    };
    reports_over(alloc, scripts, bytes.as_slice())
}

/// Reads a log, runs the scripts over its events while it is checked, passes their transcripts to a
/// shelf, and writes their reports, both with names in place of the secrets of `form`. Returns
/// whether each script ended with status 0. If `cut`, the log may be cut off, and is read up to its
/// last whole line.
///
/// Reports are written one by one. If memory is refused for one report or its text, that script's
/// report says `memory`, and the others are whole.
///
/// Errors are returned in the order of `ReplayFault`'s variants, except `Memory`. `Memory` may
/// replace any of them before the first transcript is kept. After `Write`, a front of the reports'
/// text was written. After any other error, nothing was written or kept. An interrupted read or
/// write is tried again.
pub fn replay<R: Read, S: Shelf, W: Write>(
    alloc: Global,
    log: &mut Counted<R>,
    cut: bool,
    scripts: Vec<Script>,
    form: &Form,
    shelf: &mut S,
    out: &mut Counted<W>,
) -> Result<bool, ReplayFault>
    requires log_failures { log.old.failures ≡ 0 }
    requires log_calls { log.old.calls ≡ 0 }
    requires out_failures { out.old.failures ≡ 0 }
    requires out_calls { out.old.calls ≡ 0 }
    ensures answers { IfSome (option_map (log_of cut) (R.remaining log.old.device)) (λ bytes.
        Replays scripts.items form.now bytes (S.handed shelf.old) (S.handed shelf.new) (W.contents out.old.device) (W.contents out.new.device) result) }
    ensures unwritten { IfErr result (λ fault. fault ≢ ReplayFault.Write → (shelf.new ≡ shelf.old) × (out.new ≡ out.old)) }
    ensures read { result ≡ Err ReplayFault.Read → GaveUp log.new.failures log.new.calls }
    ensures read_whole { result ≢ Err ReplayFault.Read → log.new.failures ≡ 0 }
    ensures write { result ≡ Err ReplayFault.Write → GaveUp out.new.failures out.new.calls }
    ensures written_whole { result ≢ Err ReplayFault.Write → out.new.failures ≡ 0 }
    ensures memory { IfErr result (λ fault. IsNoWant fault) }
{
    let spares = made_spares(alloc, form, scripts.len())?;
    let reports = reports_read(alloc, log, cut, scripts)?;
    let shown = masked_reports(alloc, form.secrets.as_slice(), reports);
    keep_all(shown.as_slice(), shelf);
    match write_reports(alloc, form, shown.as_slice(), spares, out) {
        Ok(well) => Ok(well),
        Err(_) => Err(ReplayFault::Write),
    }
}
