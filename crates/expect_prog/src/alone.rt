//! Runs a script as a command, as expect(1) does.

ghost use Rattle.std.specs.Prelude.{◌≡◌, ◌++◌, ◌∷◌, [], IfOk};
ghost use Rattle.tcl_words.specs.Bytes as ascii;
ghost use Rattle.expect_prog.specs.Outcome.{last_line, last_lines};

use crate::complaint::Complaint;
use crate::files::{Single, System, alone_script, opened_log, unless_long};
use crate::names::{Names, Role, judge_old};
use crate::outcome::Outcome;
use crate::part::SyncedFile;
use crate::running::{RecordFile, cancellations, is_given, keepers, opened_record, unserved};
use child_events::Counted;
use child_pipes::{Free, Programs, Reaper, Stop, Terms, Wall, Watch};
use command_line::Alone;
use course_texts::push_places;
use dialogue_sched::Script;
use report_texts::{masked_report, write_all};
use script_runs::{DriveFault, LogWriteFault, Played, Player, Record, drive_early, reports_read};
use secret_words::{Secrets, masker_of};
use session::{Ending, Report};
use std::alloc::{AllocError, Global};
use std::env::Env;
use std::io::Write;
use std::mem;
use std::rt::Files;
use std::sync::{Arc, Mutex, Wait};
use std::thread::Threads;
use std::time::Clock;
use tcl_words::Text;

/// When programs that outlive the script are hung up.
const TERMS: Terms = Terms {
    grace: 2_000,
    hangs_up: false,
};

/// Returns the line on standard error after a script. Empty if it called `exit`.
fn line_after(alloc: Global, ending: Ending, fault: &[u8]) -> Result<Text, AllocError>
    ensures { IfOk result (λ line. line ≡ last_line ending fault.now) }
{
    let mut line = Text::new(alloc);
    match ending {
        Ending::Exit(_) => return Ok(line),
        Ending::Error => line.extend(fault)?,
        Ending::StepLimit => line.extend(b"exprun: steplimit")?,
        Ending::TimeLimit => line.extend(b"exprun: timelimit")?,
        Ending::Memory => line.extend(b"exprun: memory")?,
        Ending::Waiting => line.extend(b"exprun: waiting")?,
    }
    line.push(b'\n')?;
    Ok(line)
}

/// Returns the label of a line of a file: its path and a colon.
fn label_of(alloc: Global, file: &[u8]) -> Result<Text, AllocError>
    ensures { IfOk result (λ t. t ≡ file.now ++ ascii.colon ∷ []) }
{
    let mut label = Text::from_slice(alloc, file)?;
    label.push(b':')?;
    Ok(label)
}

/// Returns the lines on standard error after a script in this file: why it ended, and where an error
/// occurred.
fn lines_after(alloc: Global, file: &[u8], report: &Report) -> Result<Text, AllocError>
    ensures { IfOk result (λ lines. lines ≡ last_lines file.now report.now) }
{
    let mut lines = line_after(alloc, report.ending, report.fault.as_slice())?;
    let label = label_of(alloc, file)?;
    push_places(alloc, &mut lines, label.as_slice(), report.trail.as_slice())?;
    Ok(lines)
}

/// Writes a whole text.
fn written<'a, O: Write + Drop>(out: O, text: &[u8]) -> Result<(), Complaint<'a>> {
    match write_all(&mut Counted::new(out), text) {
        Ok(()) => Ok(()),
        Err(_) => Err(Complaint::Unwritten),
    }
}

/// Returns a list with one element.
fn one<T: Drop>(alloc: Global, element: T) -> Result<Vec<T>, AllocError>
    ensures { IfOk result (λ list. list.items ≡ element ∷ []) }
{
    let mut list = Vec::new(alloc);
    let Ok(()) = list.push(element) else {
        return Err(AllocError);
    };
    Ok(list)
}

/// Replays a script over the log at a path. Returns its report.
fn replayed<'a, R: Files>(
    rt: &R,
    alloc: Global,
    order: &Alone<'a>,
    path: &'a str,
    script: Script,
) -> Result<Report, Complaint<'a>> {
    let mut log = Counted::new(opened_log(rt, path, false)?);
    let mut reports = match reports_read(alloc, &mut log, false, one(alloc, script)?) {
        Ok(reports) => reports,
        Err(fault) => {
            let complaint = Complaint::of_replay(fault, path, [order.source].as_slice());
            return Err(unless_long(&log.device, path, complaint));
        }
    };
    match reports.list.pop() {
        Some(report) => Ok(report),
        None => Err(Complaint::Memory),
    }
}

/// Replays a script over the log at a path, and prints what it shows. Returns its report. If a
/// signal comes, and the script still computes three seconds later, this process is killed.
fn replay_alone<
    'a,
    R: Files + Threads + Wait + Clock + Programs + Copy + Send + Drop + 'static,
    E: Write + Copy + Send + Drop + 'static,
    O: Write + Drop,
>(
    rt: R,
    alloc: Global,
    order: &Alone<'a>,
    path: &'a str,
    single: Single,
    errors: E,
    out: O,
    stop: &Arc<Stop>,
) -> Result<Report, Complaint<'a>> {
    let Single { script, secrets } = single;
    let reaper = Reaper::new(alloc, TERMS, None)?;
    let watch = Watch::start(
        rt,
        alloc,
        &Wall::new(rt),
        reaper,
        Arc::try_clone(stop)?,
        errors,
    )?;
    stop.enter();
    let replayed = replayed(&rt, alloc, order, path, script);
    stop.leave();
    watch.stop(rt, alloc, errors);
    let report = masked_report(alloc, secrets.as_slice(), replayed?);
    written(out, report.transcript.as_slice())?;
    Ok(report)
}

/// Returns the complaint if the file of the record is the script's own, or has the name of a file
/// that is no record.
fn judge_alone<'a, R: Files>(
    rt: &R,
    alloc: Global,
    order: &Alone<'a>,
) -> Result<(), Complaint<'a>> {
    let Some(record) = order.record else {
        return Ok(());
    };
    let mut names = Names::new(alloc);
    names.push_read(rt, alloc, Role::Script, order.source)?;
    names.push_secrets(rt, alloc, order.variables.secrets.as_slice())?;
    names.push_product(rt, alloc, Role::Record, record)?;
    names.judged(alloc)?;
    judge_old(rt, alloc, record, Role::Record)
}

/// Returns the place where what is known of a script is kept. Nothing is known yet.
fn unplayed(alloc: Global) -> Result<Arc<Mutex<Played>>, AllocError> {
    Ok(Arc::new(alloc, Mutex::new(Played::new()))?)
}

/// A script that has run.
#[derive(Drop)]
struct Ran<L: Drop> {
    /// What is known of it.
    played: Played,
    /// Why not all of its record was written, or `None`.
    log: Option<LogWriteFault>,
    record: L,
}

/// Runs a script with real programs, and prints what it shows as it appears. The record goes to
/// `record` as it arises, if `recorded`. Returns an error if the script can't be served.
fn run_script<
    R: Files + Threads + Wait + Clock + Programs + Copy + Send + Drop + 'static,
    E: Write + Copy + Send + Drop + 'static,
    O: Write + Copy + Send + Drop + 'static,
    L: Write + Drop,
>(
    rt: R,
    alloc: Global,
    script: Script,
    secrets: &Secrets,
    errors: E,
    out: O,
    recorded: bool,
    record: L,
    stop: &Arc<Stop>,
) -> Result<Ran<L>, DriveFault> {
    let scripts = one(alloc, script)?;
    let reaper = Reaper::new(alloc, TERMS, None)?;
    let cancellations = cancellations(&rt, alloc, 1)?;
    let keepers = keepers(rt, alloc, &reaper, &None, cancellations.as_slice())?;
    let wall = Wall::new(rt);
    let played = unplayed(alloc)?;
    let player = Player::new(
        rt,
        alloc,
        wall.again(),
        out,
        masker_of(alloc, secrets)?,
        Arc::try_clone(&cancellations[0])?,
        Arc::try_clone(stop)?,
        Arc::try_clone(&played)?,
    );
    let clocks = one(alloc, player)?;
    drop(cancellations);
    let watch = Watch::start(rt, alloc, &wall, reaper, Arc::try_clone(stop)?, errors)?;
    let log = Counted::new(record);
    let (outcome, log) = drive_early(rt, alloc, scripts, keepers, clocks, Free, recorded, log);
    watch.stop(rt, alloc, errors);
    let mut kept = played.lock(&rt);
    Ok(Ran {
        played: mem::replace(&mut *kept, Played::new()),
        log: outcome?,
        record: log.device,
    })
}

/// Runs a script with real programs, prints what it shows as it appears, and writes its record, if
/// requested. Returns its report, and whether the record was written.
fn play<
    'a,
    R: Files + Eprint + Threads + Wait + Clock + Programs + Copy + Send + Drop + 'static,
    E: Write + Copy + Send + Drop + 'static,
    O: Write + Copy + Send + Drop + 'static,
>(
    rt: R,
    alloc: Global,
    order: &Alone<'a>,
    single: Single,
    errors: E,
    out: O,
    stop: &Arc<Stop>,
) -> Result<(Report, bool), Complaint<'a>> {
    let Single { script, secrets } = single;
    judge_alone(&rt, alloc, order)?;
    let (target, file) = match opened_record(&rt, alloc, order.record)? {
        Some(RecordFile { target, file }) => (Some(target), Some(SyncedFile::new(rt, file))),
        None => (None, None),
    };
    let recorded = target.is_some();
    let record = Record::new(file, None);
    let ran = run_script(
        rt, alloc, script, &secrets, errors, out, recorded, record, stop,
    );
    let Ran {
        played,
        log,
        record,
    } = match ran {
        Ok(ran) => ran,
        Err(fault) => return Err(unserved(&rt, &target, fault, [order.source].as_slice())),
    };
    let (file, _) = record.into_parts();
    let is_recorded = is_given(&rt, alloc, &target, &file, log);
    match played {
        Played { is_lost: true, .. } => Err(Complaint::Unwritten),
        Played {
            report: Some(report),
            ..
        } => Ok((
            masked_report(alloc, secrets.as_slice(), report),
            is_recorded,
        )),
        Played { report: None, .. } => Err(Complaint::Memory),
    }
}

/// Runs a script as a command, or replays such a run. Prints what it shows, and on `errors` why it
/// ended, unless it called `exit`. A signal that this process has blocked stops the run.
pub fn run_alone<
    'a,
    R: Files + Env + Eprint + Threads + Wait + Clock + Programs + Copy + Send + Drop + 'static,
    E: Write + Copy + Send + Drop + 'static,
    O: Write + Copy + Send + Drop + 'static,
>(rt: R, alloc: Global, order: &Alone<'a>, errors: E, out: O) -> Result<Outcome, Complaint<'a>> {
    let single = alone_script(&System { rt: &rt }, alloc, order)?;
    let stop = Arc::new(alloc, Stop::new(&rt))?;
    let (report, is_recorded) = match order.log {
        Some(path) => {
            let report = replay_alone(rt, alloc, order, path, single, errors, out, &stop)?;
            (report, true)
        }
        None => play(rt, alloc, order, single, errors, out, &stop)?,
    };
    if stop.signal().is_none() || report.ending != Ending::Waiting {
        let lines = lines_after(alloc, order.source.as_bytes(), &report)?;
        let _ = written(errors, lines.as_slice());
    }
    let outcome = Outcome::ended(report.ending).and(is_recorded);
    Ok(outcome.unless_stopped(stop.signal()))
}
