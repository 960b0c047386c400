//! Reads and runs the files of an order.

ghost use Rattle.std.specs.Prelude.{◌≡◌, ◌++◌, ◌≤◌, ◌<◌, ℕ, List, length, IsTrue, IfOk, OnOk};
ghost use Rattle.expect_prog.specs.Variables.{AreGiven, AreAlone};
ghost use Rattle.expect_prog.specs.Secrets.{pairs_of};
ghost use Rattle.expect_prog.specs.Given.{settings_given, alone_settings, all_scripts, scripts_given, vars_told, AreHeld, AreOfFiles, IsOfFile};

use crate::complaint::Complaint;
use crate::each::{names_given, rows_given};
use crate::folder::{Folder, Pages, paths_of};
use crate::names::{Names, Role};
use crate::outcome::Outcome;
use crate::secrets::{push_secrets, secrets_given};
use crate::sized::{Bounded, LONGEST_LOG};
use crate::standard::Patient;
use crate::variables::{alone_given, own_entries, variables_given};
use child_events::Counted;
use command_line::{Alone, Check, Explain, LogPlan, Replay, Scripts, Show, Variables};
use course_texts::{explain, show_log};
use dialogue_sched::Script;
use report_texts::{Form, Format, ReadFault, read_all};
use script_runs::{CheckFault, NoShelf, Shelf, check_source, plan_log, replay};
use secret_words::Secrets;
use session::{Pairs, SOURCE_LIMIT, Settings};
use std::alloc::{AllocError, Global};
use std::env::Env;
use std::fs::{self, OpenFile};
use std::io::{self, ErrorKind, Read, Write};
use std::rt::Files;
use tcl_words::{Text, Texts};

/// Opens a file for reading.
pub fn opened<'a, R: Files>(rt: &R, path: &'a str) -> Result<R::File, Complaint<'a>> {
    match fs::open(rt, path) {
        Ok(file) => Ok(file),
        Err(e) => {
            if e.kind() == ErrorKind::OutOfMemory {
                return Err(Complaint::Memory);
            }
            Err(Complaint::Unreadable(path))
        }
    }
}

/// Opens a log's file for reading. Fails if it is empty or too long. `cut` says that the log may be
/// cut off: then its lines have no greatest length.
pub fn opened_log<'a, R: Files>(
    rt: &R,
    path: &'a str,
    cut: bool,
) -> Result<Bounded<R::File>, Complaint<'a>> {
    let file = opened(rt, path)?;
    match file.metadata() {
        Ok(it) if it.is_file() && it.len() == 0 => Err(Complaint::EmptyLog(path)),
        Ok(it) if it.is_file() && it.len() > LONGEST_LOG => Err(Complaint::LongLog(path)),
        _ => Ok(Bounded::new(file, !cut)),
    }
}

/// Returns the complaint for an error in reading a log: that the log is too long, if it is,
/// otherwise this complaint.
pub fn unless_long<'a, D: Drop>(
    log: &Bounded<D>,
    path: &'a str,
    complaint: Complaint<'a>,
) -> Complaint<'a> {
    if log.is_over() {
        return Complaint::LongLog(path);
    }
    complaint
}

/// Reads all bytes of a file. Its path names it in a complaint.
fn read_whole<'a, D: Read + Drop>(
    alloc: Global,
    device: D,
    path: &'a str,
) -> Result<Text, Complaint<'a>> {
    let mut reader = Counted::new(device);
    match read_all(alloc, &mut reader) {
        Ok(text) => Ok(text),
        Err(ReadFault::Failed) => Err(Complaint::Unreadable(path)),
        Err(ReadFault::Memory) => Err(Complaint::Memory),
    }
}

/// Reads a source. Of a source that is too long, reads one byte more than is allowed.
fn source<'a, R: Files>(rt: &R, alloc: Global, path: &'a str) -> Result<Text, Complaint<'a>> {
    let file = opened(rt, path)?;
    read_whole(alloc, file.take(SOURCE_LIMIT as u64 + 1), path)
}

/// Where sources and exprun's own environment are read from.
///
/// Each implementation gives `holds` and `sets` its own meaning. Generic code can learn that they
/// hold only from a call of `source` or `entries`. A source for a path was therefore read at this
/// path, and entries were read in this environment.
pub trait Sources {
    /// These bytes were read at a path.
    ghost holds: { List ℕ → List ℕ → Type 0 };

    /// These are the entries of the environment.
    ghost sets: { List (List ℕ) → Type 0 };

    /// Reads the source at a path. Of a source that is too long, one byte more than is allowed.
    fn source<'a>(&self, alloc: Global, path: &'a str) -> Result<Text, Complaint<'a>>
        ensures { IfOk result (λ text. holds path.now text) };

    /// Reads the entries of the environment, in order.
    fn entries<'a>(&self, alloc: Global) -> Result<Texts, Complaint<'a>>
        ensures { IfOk result (λ texts. sets texts) };
}

/// The files of the system, and the environment of the process.
#[derive(Drop)]
pub struct System<'r, R> {
    pub rt: &'r R,
}

impl<'r, R: Files + Env> Sources for System<'r, R> {
    ghost holds = { λ _ _. Unit {0} };

    ghost sets = { λ _. Unit {0} };

    fn source<'a>(&self, alloc: Global, path: &'a str) -> Result<Text, Complaint<'a>> {
        source(self.rt, alloc, path)
    }

    fn entries<'a>(&self, alloc: Global) -> Result<Texts, Complaint<'a>> {
        own_entries(self.rt, alloc)
    }
}

/// Reads the entries of exprun's own environment, if any of it may be requested.
fn needed_entries<'a, S: Sources>(
    from: &S,
    alloc: Global,
    asked: &Variables<'_>,
) -> Result<Texts, Complaint<'a>>
    ensures whole { IfOk result (λ es. IsTrue asked.now.all → S.sets es) }
    ensures named { IfOk result (λ es. 0 < length asked.now.env.items → S.sets es) }
{
    if asked.all {
        return from.entries(alloc);
    }
    if asked.env.is_empty() {
        return Ok(Texts::new(alloc));
    }
    from.entries(alloc)
}

/// Returns the variables of scripts at the start. Returns the complaint for the first word that sets
/// none.
fn variables<'a, S: Sources>(
    from: &S,
    alloc: Global,
    asked: &Variables<'a>,
) -> Result<Pairs, Complaint<'a>>
    ensures { IfOk result (AreGiven S.sets asked.now) }
{
    let entries = needed_entries(from, alloc, asked)?;
    variables_given(alloc, asked, entries.as_slice())
}

/// Returns variables, and then those whose values are secrets.
fn with_secrets(alloc: Global, vars: Pairs, secrets: &Secrets) -> Result<Pairs, AllocError>
    ensures { IfOk result (λ ps. ps ≡ vars ++ pairs_of secrets.now) }
{
    let mut vars = vars;
    push_secrets(alloc, &mut vars, secrets.as_slice())?;
    Ok(vars)
}

/// Reads the sources at paths, in order. Returns the complaint for the first one that can't be
/// read.
fn read_sources<'a, S: Sources>(
    from: &S,
    alloc: Global,
    paths: &[&'a str],
) -> Result<Texts, Complaint<'a>>
    ensures { IfOk result (λ texts. AreHeld S.holds paths.now texts) }
{
    let mut texts = Texts::new(alloc);
    for path in paths {
        texts.push(from.source(alloc, path)?)?;
    }
    Ok(texts)
}

/// Appends the scripts of sources, in their order, with the same settings.
fn push_scripts(
    alloc: Global,
    scripts: &mut Vec<Script>,
    settings: &Settings,
    sources: &[Text],
) -> Result<(), AllocError>
    ensures { OnOk result (scripts.new.items ≡ scripts.old.items ++ scripts_given settings.now sources.now) }
{
    for source in sources {
        let script = Script {
            source: source.copied(alloc)?,
            settings: settings.copied(alloc)?,
        };
        let Ok(()) = scripts.push(script) else {
            return Err(AllocError);
        };
    }
    Ok(())
}

/// Returns a script's variables at the start: those of all scripts, and then those of its row.
fn vars_of(alloc: Global, vars: &Pairs, row: &Pairs) -> Result<Pairs, AllocError>
    ensures { IfOk result (λ ps. ps ≡ vars.now ++ row.now) }
{
    let mut all = vars.copied(alloc)?;
    for variable in row.as_slice() {
        all.push(variable.0.copied(alloc)?, variable.1.copied(alloc)?)?;
    }
    Ok(all)
}

/// Returns the scripts of an order's sources, which run once per row.
fn scripts_of(
    alloc: Global,
    order: &Scripts<'_>,
    vars: &Pairs,
    rows: &[Pairs],
    sources: &[Text],
) -> Result<Vec<Script>, AllocError>
    ensures { IfOk result (λ ss. ss.items ≡ all_scripts order.now vars.now rows.now sources.now) }
{
    let mut scripts = Vec::new(alloc);
    for row in rows {
        let settings = settings_of(order, vars_of(alloc, vars, row)?);
        push_scripts(alloc, &mut scripts, &settings, sources)?;
    }
    Ok(scripts)
}

/// Returns whether reports in a form contain the variables.
fn tells_vars(form: &Form) -> bool
    ensures { result ≡ vars_told form.now.format form.now.shown.vars }
{
    match form.format {
        Format::Text => form.shown.vars,
        Format::Bare => form.shown.vars,
        Format::Escaped => form.shown.vars,
        Format::Summary => false,
        Format::Json => form.shown.vars,
        Format::JsonLines => form.shown.vars,
        Format::Tap => false,
    }
}

/// Returns the settings of each script of an order.
fn settings_of(asked: &Scripts<'_>, vars: Pairs) -> Settings
    ensures { result ≡ settings_given asked.now vars }
{
    Settings {
        steps: asked.steps,
        limit_ms: asked.limit_ms,
        vars,
        host: asked.host,
        tells_vars: tells_vars(&asked.form),
    }
}

/// The scripts of an order, and the names that reports give them.
#[derive(Drop)]
pub struct Cast {
    pub scripts: Vec<Script>,
    pub names: Texts,
    /// The secrets that scripts have as variables.
    pub secrets: Secrets,
}

/// Reads the list of an order, then exprun's own environment, as far as they are needed, then its
/// secrets, and then its sources, in order. Returns their scripts. Returns the complaint for what is
/// wrong in the list, for the first word that sets no variable or gives no secret, or for the first
/// source that can't be read.
pub fn cast_of<'a, S: Sources>(
    from: &S,
    alloc: Global,
    order: &Scripts<'a>,
) -> Result<Cast, Complaint<'a>>
    ensures { IfOk result (AreOfFiles S.holds S.sets order.now) }
{
    let rows = rows_given(from, alloc, order.each)?;
    let vars = variables(from, alloc, &order.variables)?;
    let secrets = secrets_given(from, alloc, order.variables.secrets.as_slice())?;
    let vars = with_secrets(alloc, vars, &secrets)?;
    let files = order.sources.as_slice();
    let sources = read_sources(from, alloc, files)?;
    Ok(Cast {
        scripts: scripts_of(alloc, order, &vars, rows.as_slice(), sources.as_slice())?,
        names: names_given(alloc, rows.as_slice(), files)?,
        secrets,
    })
}

/// Returns the variables at the start of a script that is run as a command. Returns the complaint
/// for the first word that sets none.
fn alone_variables<'a, S: Sources>(
    from: &S,
    alloc: Global,
    order: &Alone<'a>,
) -> Result<Pairs, Complaint<'a>>
    ensures { IfOk result (AreAlone S.sets order.now) }
{
    let entries = needed_entries(from, alloc, &order.variables)?;
    alone_given(
        alloc,
        order.source,
        order.args.as_slice(),
        &order.variables,
        entries.as_slice(),
    )
}

/// Returns the settings of a script that is run as a command.
fn alone_settings(alone: &Alone<'_>, vars: Pairs) -> Settings
    ensures { result ≡ alone_settings alone.now vars }
{
    Settings {
        steps: alone.steps,
        limit_ms: alone.limit_ms,
        vars,
        host: alone.host,
        tells_vars: false,
    }
}

/// A script that is run as a command, and its secrets.
#[derive(Drop)]
pub struct Single {
    pub script: Script,
    pub secrets: Secrets,
}

/// Reads exprun's own environment, if needed, then the secrets, and then the source of a script that
/// is run as a command. Returns the script and its secrets. Returns the complaint for the first word
/// that sets no variable or gives no secret, or for a source that can't be read.
pub fn alone_script<'a, S: Sources>(
    from: &S,
    alloc: Global,
    order: &Alone<'a>,
) -> Result<Single, Complaint<'a>>
    ensures { IfOk result (IsOfFile S.holds S.sets order.now) }
{
    let vars = alone_variables(from, alloc, order)?;
    let secrets = secrets_given(from, alloc, order.variables.secrets.as_slice())?;
    let settings = alone_settings(order, with_secrets(alloc, vars, &secrets)?);
    let source = from.source(alloc, order.source)?;
    Ok(Single {
        script: Script { source, settings },
        secrets,
    })
}

/// Replays an order's scripts over its log, passes their transcripts to a shelf, and prints the
/// reports. Returns whether each script ended with status 0.
fn replay_order<'a, R: Files + Print, L: Read + Drop, S: Shelf>(
    rt: &R,
    alloc: Global,
    order: &Replay<'a>,
    scripts: Vec<Script>,
    log: Bounded<L>,
    shelf: &mut S,
) -> Result<bool, Complaint<'a>> {
    let mut log = Counted::new(log);
    let mut out = Counted::new(Patient(io::writer(rt)));
    match replay(
        alloc,
        &mut log,
        order.cut,
        scripts,
        &order.scripts.form,
        shelf,
        &mut out,
    ) {
        Ok(well) => Ok(well),
        Err(fault) => {
            let sources = order.scripts.sources.as_slice();
            let complaint = Complaint::of_replay(fault, order.log, sources);
            Err(unless_long(&log.device, order.log, complaint))
        }
    }
}

/// Returns the complaint for the first transcript of a replay that is also one of its sources or
/// its log.
fn judge_replay<'a, R: Files>(
    rt: &R,
    alloc: Global,
    order: &Replay<'a>,
    folder: &'a str,
    paths: &Texts,
) -> Result<(), Complaint<'a>> {
    let mut names = Names::of_scripts(rt, alloc, &order.scripts)?;
    names.push_read(rt, alloc, Role::Log, order.log)?;
    names.push_transcripts(rt, alloc, folder, paths.as_slice())?;
    names.judged(alloc)
}

/// Replays the files of an order, keeps their transcripts if requested, and prints the reports.
///
/// Reads the sources in order, and then the log. Returns the complaint for the first one that can't
/// be read.
pub fn replay_files<'a, R: Files + Env + Print + Eprint + Pages + Copy + Drop>(
    rt: &R,
    alloc: Global,
    order: &mut Replay<'a>,
) -> Result<Outcome, Complaint<'a>> {
    let Cast {
        scripts,
        names,
        secrets,
    } = cast_of(&System { rt }, alloc, &order.scripts)?;
    order.scripts.form.files = names;
    order.scripts.form.secrets = secrets;
    let log = opened_log(rt, order.log, order.cut)?;
    let Some(path) = order.scripts.transcripts else {
        let well = replay_order(rt, alloc, order, scripts, log, &mut NoShelf)?;
        return Ok(Outcome::of(well, true));
    };
    let paths = paths_of(alloc, path, order.scripts.form.files.as_slice())?;
    judge_replay(rt, alloc, order, path, &paths)?;
    let mut folder = Folder::new(*rt, alloc, path, paths)?;
    let well = replay_order(rt, alloc, order, scripts, log, &mut folder)?;
    Ok(Outcome::of(well, folder.is_whole()))
}

/// Shows the log of an order.
pub fn show_file<'a, R: Files + Print>(
    rt: &R,
    alloc: Global,
    order: &Show<'a>,
) -> Result<Outcome, Complaint<'a>> {
    let mut log = Counted::new(opened_log(rt, order.log, false)?);
    let mut out = Counted::new(Patient(io::writer(rt)));
    match show_log(alloc, order.script, &mut log, &mut out) {
        Ok(()) => Ok(Outcome::Well),
        Err(fault) => {
            let complaint = Complaint::of_show(fault, order);
            Err(unless_long(&log.device, order.log, complaint))
        }
    }
}

/// Explains an order's scripts over its log.
///
/// Reads the sources in order, and then the log. Returns the complaint for the first one that can't
/// be read.
pub fn explain_files<'a, R: Files + Env + Print>(
    rt: &R,
    alloc: Global,
    order: &Explain<'a>,
) -> Result<Outcome, Complaint<'a>> {
    let Cast {
        scripts,
        secrets,
        ..
    } = cast_of(&System { rt }, alloc, &order.scripts)?;
    let mut log = Counted::new(opened_log(rt, order.log, false)?);
    let mut out = Counted::new(Patient(io::writer(rt)));
    match explain(alloc, order.only, &secrets, &mut log, scripts, &mut out) {
        Ok(()) => Ok(Outcome::Well),
        Err(fault) => {
            let complaint = Complaint::of_explain(fault, order);
            Err(unless_long(&log.device, order.log, complaint))
        }
    }
}

/// Reads the timing file, if there is one.
fn timing<'a, R: Files>(
    rt: &R,
    alloc: Global,
    path: Option<&'a str>,
) -> Result<Option<Text>, Complaint<'a>> {
    let Some(path) = path else {
        return Ok(None);
    };
    let text = read_whole(alloc, opened(rt, path)?.take(LONGEST_LOG), path)?;
    Ok(Some(text))
}

/// Plans the log of an order. Reads its script first, then its timing file, and then the timeline.
pub fn plan_file<'a, R: Files + Env + Print>(
    rt: &R,
    alloc: Global,
    order: &LogPlan<'a>,
) -> Result<Outcome, Complaint<'a>> {
    let from = System { rt };
    let vars = variables(&from, alloc, &order.variables)?;
    let secrets = secrets_given(&from, alloc, order.variables.secrets.as_slice())?;
    let vars = with_secrets(alloc, vars, &secrets)?;
    let source = source(rt, alloc, order.source)?;
    let settings = Settings {
        steps: order.steps,
        limit_ms: order.limit_ms,
        vars,
        host: order.host,
        tells_vars: false,
    };
    let script = Script { source, settings };
    let timing = timing(rt, alloc, order.timing)?;
    let mut timeline = Counted::new(Bounded::new(opened(rt, order.timeline)?, false));
    let mut out = Counted::new(Patient(io::writer(rt)));
    match plan_log(alloc, script, &mut timeline, &timing, &mut out) {
        Ok(()) => Ok(Outcome::Well),
        Err(fault) => {
            let complaint = Complaint::of_plan(fault, order);
            Err(unless_long(&timeline.device, order.timeline, complaint))
        }
    }
}

/// Writes what is wrong in the source of a file. Returns whether nothing is wrong.
fn check_file<'a, R: Files, W: Write>(
    rt: &R,
    alloc: Global,
    path: &'a str,
    out: &mut Counted<W>,
) -> Result<bool, Complaint<'a>>
    requires failures { out.old.failures ≡ 0 }
    requires calls { out.old.calls ≤ 1099511627776 }
    ensures { OnOk result ((out.new.failures ≡ 0) × (out.new.calls ≤ 1099511627776)) }
{
    let source = source(rt, alloc, path)?;
    if source.len() > SOURCE_LIMIT {
        return Err(Complaint::SourceTooLong(path));
    }
    match check_source(alloc, path.as_bytes(), source.as_slice(), out) {
        Ok(well) => Ok(well),
        Err(CheckFault::Write) => Err(Complaint::Unwritten),
        Err(CheckFault::Memory) => Err(Complaint::Memory),
    }
}

/// Checks the files of an order, one after another. The outcome is `Well` if nothing is wrong in
/// any of them.
///
/// Returns the complaint for the first file that can't be read. The findings in earlier files are
/// written before.
pub fn check_files<'a, R: Files + Print>(
    rt: &R,
    alloc: Global,
    order: &Check<'a>,
) -> Result<Outcome, Complaint<'a>> {
    let mut out = Counted::new(Patient(io::writer(rt)));
    let mut well = true;
    for path in &order.sources {
        well &= check_file(rt, alloc, path, &mut out)?;
    }
    Ok(Outcome::of(well, true))
}
