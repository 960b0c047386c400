//! Runs scripts over processes, and writes the files of a run.

ghost use Rattle.std.specs.Prelude.{◌≡◌, ◌≤◌, length, vec_len, IfOk};

use crate::account::{Account, opened_account, remove_account, tell_account};
use crate::complaint::{Complaint, tell};
use crate::files::{Cast, System, cast_of};
use crate::folder::{Folder, Pages, paths_of};
use crate::names::{Names, Role, judge_old};
use crate::outcome::Outcome;
use crate::part::{SyncedFile, Target, given};
use child_events::Counted;
use child_pipes::{Cancellation, ErrorPipes, Free, Pipes, Programs, Reaper, Stop, Wall, Watch};
use command_line::Run;
use dialogue_sched::Script;
use report_texts::{Format, Unwritten};
use script_runs::{
    DriveFault, Early, LogWriteFault, NoShelf, Record, Telling, Told, Written, clocks, drive,
    drive_early,
};
use secret_words::Secrets;
use std::alloc::{AllocError, Global};
use std::env::Env;
use std::io::{self, ErrorKind, IsTerminal, Write};
use std::rt::Files;
use std::sync::{Arc, Wait};
use std::thread::Threads;
use std::time::Clock;
use tcl_words::Text;

/// Returns a cancellation for each of `count` scripts.
pub fn cancellations<R: Files>(
    rt: &R,
    alloc: Global,
    count: usize,
) -> Result<Vec<Arc<Cancellation>>, AllocError>
    ensures { IfOk result (λ cs. length cs.items ≡ count) }
{
    let mut cancellations = Vec::new(alloc);
    for at in 0..count {
        let Ok(()) = cancellations.push(Arc::new(alloc, Cancellation::new(rt))?) else {
            return Err(AllocError);
        };
    }
    Ok(cancellations)
}

/// Returns a keeper of processes for the script of each cancellation.
pub fn keepers<R: Programs + Wait + Clock + Copy + Drop>(
    rt: R,
    alloc: Global,
    reaper: &Reaper,
    errors: &Option<ErrorPipes>,
    cancellations: &[Arc<Cancellation>],
) -> Result<Vec<Pipes<R>>, AllocError>
    ensures { IfOk result (λ ks. length ks.items ≡ length cancellations.now) }
{
    let mut keepers = Vec::new(alloc);
    for at in 0..cancellations.len() {
        let cancellation = Arc::try_clone(&cancellations[at])?;
        let errors = match errors {
            Some(errors) => Some(errors.shared()?),
            None => None,
        };
        let keeper = Pipes::new(rt, alloc, at as u64, reaper.shared()?, errors, cancellation)?;
        let Ok(()) = keepers.push(keeper) else {
            return Err(AllocError);
        };
    }
    Ok(keepers)
}

/// Returns the number of workers: the requested number, limited to 1 to 64.
fn workers(asked: u8) -> u8
    ensures some { 1 ≤ result }
    ensures most { result ≤ 64 }
    ensures asked { 1 ≤ asked → asked ≤ 64 → result ≡ asked }
{
    if asked < 1 {
        return 1;
    }
    if asked > 64 {
        return 64;
    }
    asked
}

/// Returns the outcome of a run whose reports were written, given what was written as its scripts
/// ended.
fn outcome_of<R: Pages + Drop>(
    reports: Result<bool, Unwritten>,
    told: Told<Folder<R>>,
) -> Result<Outcome, Unwritten> {
    let Told { outcome, shelf } = told;
    let is_whole = match &shelf {
        Some(folder) => folder.is_whole(),
        None => true,
    };
    Ok(Outcome::of(reports? && outcome?, is_whole))
}

/// The results of scripts that were served.
#[derive(Drop)]
struct Driven<L: Drop> {
    /// The outcome of the run, or that a write of the reports failed.
    outcome: Result<Outcome, Unwritten>,
    /// Why not all of the record was written, or `None`.
    log: Option<LogWriteFault>,
    record: L,
}

/// Runs scripts over processes. Transcripts go to `folder` as scripts end, the record goes to
/// `record` as it arises, and the reports go to `out`. Output and progress of running scripts go to
/// `errors`, if requested. Returns an error if the scripts can't be served.
fn run_scripts<
    R: Files + Eprint + Pages + Threads + Wait + Clock + Programs + Copy + Send + Drop + 'static,
    E: Write + IsTerminal + Copy + Send + Drop + 'static,
    O: Write + Copy + Send + Drop + 'static,
    L: Write + Drop,
>(
    rt: R,
    alloc: Global,
    scripts: Vec<Script>,
    order: &Run<'_>,
    errors: E,
    out: O,
    folder: Option<Folder<R>>,
    record: L,
    stop: &Arc<Stop>,
) -> Result<Driven<L>, DriveFault> {
    let guard = match order.guard {
        true => rt.start_guard(alloc).ok(),
        false => None,
    };
    let (count, workers) = (scripts.len(), workers(order.workers));
    let reaper = Reaper::new(alloc, order.terms, guard)?;
    let cancellations = cancellations(&rt, alloc, count)?;
    let pipes = match order.labels {
        true => Some(ErrorPipes::new(alloc)?),
        false => None,
    };
    let keepers = keepers(rt, alloc, &reaper, &pipes, cancellations.as_slice())?;
    let form = &order.scripts.form;
    let secrets = &form.secrets;
    let telling = Telling::new(
        rt,
        alloc,
        errors,
        order.follow,
        pipes,
        secrets,
        count,
        workers,
    )?;
    let wall = Wall::new(rt);
    let is_early = matches!(form.format, Format::JsonLines);
    let early = Early::start(
        rt,
        alloc,
        count,
        secrets,
        if is_early { Some(form) } else { None },
        out,
        folder,
    )?;
    let clocks = clocks(
        alloc,
        &wall,
        workers,
        &telling,
        rt,
        &early,
        cancellations.as_slice(),
        stop,
    )?;
    drop(cancellations);
    let watch = Watch::start(rt, alloc, &wall, reaper, Arc::try_clone(stop)?, errors)?;
    let recorded = order.record.is_some() || order.explain.is_some();
    let log = Counted::new(record);
    let (written, log) = if is_early {
        let (outcome, log) = drive_early(rt, alloc, scripts, keepers, clocks, Free, recorded, log);
        match outcome {
            Ok(fault) => (
                Ok(Written {
                    reports: Ok(true),
                    log: fault,
                }),
                log,
            ),
            Err(fault) => (Err(fault), log),
        }
    } else {
        let mut out = Counted::new(out);
        let shelf = &mut NoShelf;
        drive(
            rt, alloc, scripts, keepers, clocks, Free, recorded, form, shelf, log, &mut out,
        )
    };
    let told = early.end(&rt);
    watch.stop(rt, alloc, errors);
    telling.end(&rt);
    let Written {
        reports,
        log: fault,
    } = written?;
    Ok(Driven {
        outcome: outcome_of(reports, told),
        log: fault,
        record: log.device,
    })
}

/// The results of a run.
#[derive(Drop)]
struct Ran {
    /// The outcome, or that a write of the reports failed.
    outcome: Result<Outcome, Unwritten>,
    /// Whether the file of its record has its name. `true` if there is no file.
    is_recorded: bool,
    /// Its record, if it was to be kept and memory for it was not refused.
    kept: Option<Text>,
}

/// The file of a record.
#[derive(Drop)]
pub struct RecordFile<'a, F: Drop> {
    pub target: Target<'a>,
    pub file: F,
}

/// Opens the file of a record at a path, if there is one.
pub fn opened_record<'a, R: Files>(
    rt: &R,
    alloc: Global,
    path: Option<&'a str>,
) -> Result<Option<RecordFile<'a, R::File>>, Complaint<'a>> {
    let Some(path) = path else {
        return Ok(None);
    };
    let target = Target::asked(rt, alloc, path)?;
    match target.create(rt) {
        Ok(file) => Ok(Some(RecordFile { target, file })),
        Err(reason) => Err(Complaint::NotWritten { path, reason }),
    }
}

/// Creates the folder of transcripts, if requested.
fn opened_folder<'a, R: Files + Pages + Drop>(
    rt: R,
    alloc: Global,
    order: &Run<'a>,
) -> Result<Option<Folder<R>>, Complaint<'a>> {
    let Some(path) = order.scripts.transcripts else {
        return Ok(None);
    };
    let paths = paths_of(alloc, path, order.scripts.form.files.as_slice())?;
    Ok(Some(Folder::new(rt, alloc, path, paths)?))
}

/// Returns the complaint for the first two names of a run's files that clash. Otherwise, for a file
/// with a product's name that is not an earlier product.
fn judge_run<'a, R: Files>(rt: &R, alloc: Global, order: &Run<'a>) -> Result<(), Complaint<'a>> {
    let mut names = Names::of_scripts(rt, alloc, &order.scripts)?;
    if let Some(path) = order.record {
        names.push_product(rt, alloc, Role::Record, path)?;
    }
    if let Some(path) = order.explain {
        names.push_product(rt, alloc, Role::Account, path)?;
    }
    if let Some(path) = order.scripts.transcripts {
        let paths = paths_of(alloc, path, order.scripts.form.files.as_slice())?;
        names.push_transcripts(rt, alloc, path, paths.as_slice())?;
    }
    names.judged(alloc)?;
    if let Some(path) = order.record {
        judge_old(rt, alloc, path, Role::Record)?;
    }
    if let Some(path) = order.explain {
        judge_old(rt, alloc, path, Role::Account)?;
    }
    Ok(())
}

/// Gives the file of a record its name, if all of the record is in it. Returns whether it has the
/// name. If not, prints why.
fn give_record<R: Files + Eprint>(
    rt: &R,
    alloc: Global,
    target: &Target<'_>,
    whole: io::Result<&R::File>,
) -> bool {
    let Err(reason) = given(rt, target, whole) else {
        return true;
    };
    let path = target.path();
    if target.has_part() {
        tell(rt, alloc, &Complaint::CutRecord { path, reason });
    } else {
        tell(rt, alloc, &Complaint::NotWritten { path, reason });
    }
    false
}

/// Returns the file of a record, if all of the record is in it, or why not.
fn whole<R: Clock + Drop, F: Drop>(
    file: &SyncedFile<R, F>,
    log: Option<LogWriteFault>,
) -> io::Result<&F> {
    match log {
        Some(LogWriteFault::Memory) => Err(io::Error::from(ErrorKind::OutOfMemory)),
        _ => file.whole(),
    }
}

/// Gives the file of a record its name, as `give_record` does. Returns `true` if there is no file.
pub fn is_given<R: Files + Eprint + Clock + Drop>(
    rt: &R,
    alloc: Global,
    target: &Option<Target<'_>>,
    file: &Option<SyncedFile<R, R::File>>,
    log: Option<LogWriteFault>,
) -> bool {
    match (target, file) {
        (Some(target), Some(file)) => give_record(rt, alloc, target, whole(file, log)),
        _ => true,
    }
}

/// Removes the file of a record if its scripts were not served, unless memory was refused. Returns
/// the complaint.
pub fn unserved<'a, R: Files>(
    rt: &R,
    target: &Option<Target<'_>>,
    fault: DriveFault,
    sources: &[&'a str],
) -> Complaint<'a> {
    if let (DriveFault::Serve(_), Some(target)) = (&fault, target) {
        target.remove(rt);
    }
    Complaint::of_drive(fault, sources)
}

/// Runs an order's scripts, and writes their record to its file, if there is one. Returns the
/// results of the run, and the record appended to `kept`. If the scripts were not served, returns a
/// complaint, and removes the file unless memory was refused.
fn run_recorded<
    'a,
    R: Files + Eprint + Pages + Threads + Wait + Clock + Programs + Copy + Send + Drop + 'static,
    E: Write + IsTerminal + Copy + Send + Drop + 'static,
    O: Write + Copy + Send + Drop + 'static,
>(
    rt: R,
    alloc: Global,
    order: &Run<'a>,
    errors: E,
    out: O,
    scripts: Vec<Script>,
    folder: Option<Folder<R>>,
    record: Option<RecordFile<'a, R::File>>,
    kept: Option<Text>,
    stop: &Arc<Stop>,
) -> Result<Ran, Complaint<'a>> {
    let (target, file) = match record {
        Some(RecordFile { target, file }) => (Some(target), Some(SyncedFile::new(rt, file))),
        None => (None, None),
    };
    let record = Record::new(file, kept);
    let ran = run_scripts(rt, alloc, scripts, order, errors, out, folder, record, stop);
    let Driven {
        outcome,
        log,
        record,
    } = match ran {
        Ok(driven) => driven,
        Err(fault) => {
            let sources = order.scripts.sources.as_slice();
            return Err(unserved(&rt, &target, fault, sources));
        }
    };
    let (file, kept) = record.into_parts();
    let is_recorded = is_given(&rt, alloc, &target, &file, log);
    Ok(Ran {
        outcome,
        is_recorded,
        kept: if log.is_none() { kept } else { None },
    })
}

/// Writes an explanation over a record. The record is `None` if memory for keeping it was refused.
/// Returns whether the explanation was written.
fn tell_kept<R: Files + Eprint>(
    rt: &R,
    alloc: Global,
    account: Account<'_, R::File>,
    secrets: &Secrets,
    record: Option<Text>,
) -> bool {
    let Some(record) = record else {
        remove_account(rt, Some(account));
        tell(rt, alloc, &Complaint::Memory);
        return false;
    };
    match tell_account(rt, alloc, account, secrets, record.as_slice()) {
        Ok(()) => true,
        Err(complaint) => {
            tell(rt, alloc, &complaint);
            false
        }
    }
}

/// Runs scripts with open files for the record and the explanation, prints the reports, and writes
/// the explanation. Returns the outcome of all.
fn run_open<
    'a,
    R: Files + Eprint + Pages + Threads + Wait + Clock + Programs + Copy + Send + Drop + 'static,
    E: Write + IsTerminal + Copy + Send + Drop + 'static,
    O: Write + Copy + Send + Drop + 'static,
>(
    rt: R,
    alloc: Global,
    order: &Run<'a>,
    errors: E,
    out: O,
    scripts: Vec<Script>,
    folder: Option<Folder<R>>,
    record: Option<RecordFile<'a, R::File>>,
    account: Option<Account<'a, R::File>>,
    stop: &Arc<Stop>,
) -> Result<Outcome, Complaint<'a>> {
    let kept = match &account {
        Some(_) => Some(Text::new(alloc)),
        None => None,
    };
    let ran = run_recorded(
        rt, alloc, order, errors, out, scripts, folder, record, kept, stop,
    );
    let Ran {
        outcome,
        is_recorded,
        kept,
    } = match ran {
        Ok(ran) => ran,
        Err(complaint) => {
            remove_account(&rt, account);
            return Err(complaint);
        }
    };
    let is_told = match account {
        Some(account) => tell_kept(&rt, alloc, account, &order.scripts.form.secrets, kept),
        None => true,
    };
    match outcome {
        Ok(outcome) => Ok(outcome.and(is_recorded).and(is_told)),
        Err(Unwritten) => Err(Complaint::Unwritten),
    }
}

/// Runs the files of an order over real children and prints the reports. Keeps transcripts and
/// writes the record and the explanation, if requested. What running scripts show is printed on
/// `errors`, if requested. A signal that this process has blocked stops the run.
pub fn run_files<
    'a,
    R: Files
        + Env
        + Eprint
        + Pages
        + Threads
        + Wait
        + Clock
        + Programs
        + Copy
        + Send
        + Drop
        + 'static,
    E: Write + IsTerminal + Copy + Send + Drop + 'static,
    O: Write + Copy + Send + Drop + 'static,
>(rt: R, alloc: Global, order: &mut Run<'a>, errors: E, out: O) -> Result<Outcome, Complaint<'a>> {
    let Cast {
        scripts,
        names,
        secrets,
    } = cast_of(&System { rt: &rt }, alloc, &order.scripts)?;
    order.scripts.form.files = names;
    order.scripts.form.secrets = secrets;
    judge_run(&rt, alloc, order)?;
    let stop = Arc::new(alloc, Stop::new(&rt))?;
    let account = match order.explain {
        Some(path) => Some(opened_account(&rt, alloc, path, scripts.as_slice())?),
        None => None,
    };
    let record = match opened_record(&rt, alloc, order.record) {
        Ok(record) => record,
        Err(complaint) => {
            remove_account(&rt, account);
            return Err(complaint);
        }
    };
    let folder = match opened_folder(rt, alloc, order) {
        Ok(folder) => folder,
        Err(complaint) => {
            remove_account(&rt, account);
            if let Some(record) = record {
                record.target.remove(&rt);
            }
            return Err(complaint);
        }
    };
    let outcome = run_open(
        rt, alloc, order, errors, out, scripts, folder, record, account, &stop,
    )?;
    Ok(outcome.unless_stopped(stop.signal()))
}
