//! The requests of a command line.

ghost use Rattle.std.specs.Prelude.{◌≡◌};
ghost use Rattle.command_line.specs.Given.{file_of_lines, format_behind_shown, format_on_terminal, is_single};

use child_pipes::Terms;
use report_texts::{Form, Format};

/// A request of a command line.
#[derive(Drop)]
pub enum Order<'a> {
    Replay(Replay<'a>),
    Run(Run<'a>),
    Script(Alone<'a>),
    Show(Show<'a>),
    Plan(LogPlan<'a>),
    Check(Check<'a>),
    Explain(Explain<'a>),
}

/// Scripts, with their common options.
#[derive(Drop)]
pub struct Scripts<'a> {
    /// The most steps of each script.
    pub steps: u64,
    /// The time limit of each script, in milliseconds.
    pub limit_ms: Option<u64>,
    /// The form of their reports.
    pub form: Form,
    /// The folder for their transcripts.
    pub transcripts: Option<&'a str>,
    /// Their variables at the start.
    pub variables: Variables<'a>,
    /// Whether a `spawn` without `-notty` runs its program on a terminal.
    pub host: bool,
    /// The list on whose rows each of them runs once.
    pub each: Option<&'a str>,
    /// The files of their sources.
    pub sources: Vec<&'a str>,
}

impl Scripts<'_> {
    /// Returns whether there is a single script: one file, and no list.
    fn is_single(&self) -> bool
        ensures { result ≡ is_single self.now }
    {
        self.sources.len() == 1 && self.each.is_none()
    }
}

/// The variables of scripts at the start. If a name occurs twice, the last value counts.
#[derive(Drop)]
pub struct Variables<'a> {
    /// Whether `env` first gets all of exprun's own environment.
    pub all: bool,
    /// The other elements of `env`, in order: NAME=VALUE, or NAME for a variable of exprun's own
    /// environment.
    pub env: Vec<&'a str>,
    /// The other variables, in order: NAME=VALUE.
    pub sets: Vec<&'a str>,
    /// The secrets, in order: NAME=FILE.
    pub secrets: Vec<&'a str>,
}

/// The request for a replay of a log.
#[derive(Drop)]
pub struct Replay<'a> {
    pub scripts: Scripts<'a>,
    pub log: &'a str,
    /// Whether the log may be cut off.
    pub cut: bool,
}

/// The request for a run with real programs.
#[derive(Drop)]
pub struct Run<'a> {
    pub scripts: Scripts<'a>,
    /// The number of workers.
    pub workers: u8,
    /// The file for the record.
    pub record: Option<&'a str>,
    /// Whether what the scripts show is also printed as it appears.
    pub follow: bool,
    /// Whether a format was named.
    pub has_format: bool,
    /// When children are ended.
    pub terms: Terms,
    /// Whether children are ended even if this program is killed.
    pub guard: bool,
    /// Whether the lines of children on standard error are labelled with their scripts' numbers.
    pub labels: bool,
    /// The file for the explanation.
    pub explain: Option<&'a str>,
}

/// Returns the format of whole reports whose transcripts were already shown. Other formats are
/// unchanged.
fn behind_shown(format: Format) -> Format
    ensures { result ≡ format_behind_shown format }
{
    match format {
        Format::Text => Format::Bare,
        _ => format,
    }
}

impl Run<'_> {
    /// Returns the format of the reports. `is_one_terminal` tells whether what scripts show and the
    /// reports go to one terminal.
    fn format_on(&self, is_one_terminal: bool) -> Format
        ensures { result ≡ format_on_terminal is_one_terminal self.now.follow (is_single self.now.scripts) self.now.has_format self.now.scripts.form.format }
    {
        let is_shown = is_one_terminal && self.follow && self.scripts.is_single();
        if is_shown && !self.has_format {
            return behind_shown(self.scripts.form.format);
        }
        self.scripts.form.format
    }

    /// Omits the transcript from the report of a single script that is followed on the terminal of
    /// the report. If a format was named, the report is unchanged.
    pub fn show_once(&mut self, is_one_terminal: bool)
        ensures format { self.new.scripts.form.format ≡ format_on_terminal is_one_terminal self.old.follow (is_single self.old.scripts) self.old.has_format self.old.scripts.form.format }
        ensures form { (self.new.scripts.form.shown ≡ self.old.scripts.form.shown) × (self.new.scripts.form.files ≡ self.old.scripts.form.files) × (self.new.scripts.form.secrets ≡ self.old.scripts.form.secrets) }
        ensures limits { (self.new.scripts.steps ≡ self.old.scripts.steps) × (self.new.scripts.limit_ms ≡ self.old.scripts.limit_ms) × (self.new.scripts.host ≡ self.old.scripts.host) }
        ensures files { (self.new.scripts.transcripts ≡ self.old.scripts.transcripts) × (self.new.scripts.variables ≡ self.old.scripts.variables) × (self.new.scripts.each ≡ self.old.scripts.each) × (self.new.scripts.sources ≡ self.old.scripts.sources) }
        ensures products { (self.new.record ≡ self.old.record) × (self.new.explain ≡ self.old.explain) }
        ensures rest { (self.new.workers ≡ self.old.workers) × (self.new.follow ≡ self.old.follow) × (self.new.has_format ≡ self.old.has_format) × (self.new.terms ≡ self.old.terms) × (self.new.guard ≡ self.old.guard) × (self.new.labels ≡ self.old.labels) }
    {
        self.scripts.form.format = self.format_on(is_one_terminal);
    }
}

/// The request to show a log.
#[derive(Drop)]
pub struct Show<'a> {
    pub log: &'a str,
    /// The only script whose events are shown, or `None` for all.
    pub script: Option<u8>,
}

/// The request to explain scripts over a log.
#[derive(Drop)]
pub struct Explain<'a> {
    pub scripts: Scripts<'a>,
    pub log: &'a str,
    /// The only script that is explained, or `None` for all.
    pub only: Option<u8>,
}

/// The request to plan a log of a script from a timeline.
#[derive(Drop)]
pub struct LogPlan<'a> {
    /// The most steps of the script.
    pub steps: u64,
    /// The time limit of the script, in milliseconds.
    pub limit_ms: Option<u64>,
    /// Its variables at the start.
    pub variables: Variables<'a>,
    /// Whether a `spawn` without `-notty` runs its program on a terminal.
    pub host: bool,
    /// The file of its source.
    pub source: &'a str,
    /// The file of the timeline, or of a recording.
    pub timeline: &'a str,
    /// The timing file of a typescript.
    pub timing: Option<&'a str>,
}

impl<'a> LogPlan<'a> {
    /// Returns the file whose lines may be bad: the timing file if there is one, otherwise the
    /// timeline.
    pub fn lines(&self) -> &'a str
        ensures { result ≡ file_of_lines self.now.timeline self.now.timing }
    {
        match self.timing {
            Some(timing) => timing,
            None => self.timeline,
        }
    }
}

/// The request to run a script as a command, or to replay such a run.
#[derive(Drop)]
pub struct Alone<'a> {
    /// The most steps of the script.
    pub steps: u64,
    /// The time limit of the script, in milliseconds.
    pub limit_ms: Option<u64>,
    /// Its variables at the start, without `argv0`, `argv` and `argc`.
    pub variables: Variables<'a>,
    /// Whether a `spawn` without `-notty` runs its program on a terminal.
    pub host: bool,
    /// The file for the record.
    pub record: Option<&'a str>,
    /// The log of an earlier run. With it no programs are started.
    pub log: Option<&'a str>,
    /// The file of its source.
    pub source: &'a str,
    /// Its arguments.
    pub args: Vec<&'a str>,
}

/// The request to check scripts.
#[derive(Drop)]
pub struct Check<'a> {
    pub sources: Vec<&'a str>,
}
