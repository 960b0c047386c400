//! Errors as lines on standard error.

ghost use Rattle.std.specs.Prelude.{◌≡◌};
ghost use Rattle.expect_prog.specs.Complaint.{LogLine, OpeningLine, RunLine, FaultLine, DriveLine, ShowLine, ExplainLine, AccountLine, PlanLine, TimelineLine, BadLine, refusal_number as number_of};

use child_events::LogFault;
use child_serve::ServeFault;
use child_timeline::TimelineFault;
use command_line::{Explain, LogPlan, Show};
use course_texts::{ExplainFault, ShowFault};
use dialogue_sched::{HallFault, HallRefusal, RunFault};
use log_plan::PlanFault;
use report_texts::{Escaping, push_text};
use script_runs::{DriveFault, PlanLogFault, ReplayFault};
use std::alloc::{AllocError, AllocFailed, Global};
use std::io;
use tcl_words::Text;
use thiserror::Error;

/// What is wrong in a line of a timeline or a recording.
#[derive(Clone, Copy, Debug, Error)]
pub enum Wrong {
    #[error("no line of a timeline")]
    Shape,
    #[error("no moment")]
    Moment,
    #[error("a moment before the last one")]
    Back,
    #[error("no child: they are 1 to 16")]
    Child,
    #[error("no cause")]
    Cause,
    #[error("no text between quotes")]
    Text,
    #[error("no status")]
    Status,
    #[error("the child's exit again")]
    Again,
    #[error("no header of a cast of version 2 or 3")]
    Header,
    #[error("no event of a recording")]
    Event,
}

/// Why an order failed.
#[derive(Debug, Drop, Error)]
pub enum Complaint<'a> {
    #[error("cannot read the command line")]
    Words,
    #[error("cannot read {0}")]
    Unreadable(&'a str),
    #[error("cannot read the environment")]
    Environment,
    #[error("--env {0} has no name: write NAME or NAME=VALUE")]
    NoName(&'a str),
    #[error("--set {0} sets no variable: write NAME=VALUE, with a NAME that isn't env and has no parenthesis")]
    BadSet(&'a str),
    #[error("--secret {0} sets no variable: write NAME=FILE, with a NAME that isn't env and has no parenthesis")]
    BadSecret(&'a str),
    #[error("--secret {0}: its NAME is given twice")]
    SecretAgain(&'a str),
    #[error("--secret {0}: its file has no secret")]
    EmptySecret(&'a str),
    #[error("{0} has more than 1048576 bytes")]
    LongList(&'a str),
    #[error("{0} isn't UTF-8")]
    NotText(&'a str),
    #[error("{0} has no row below the names of its columns")]
    NoRows(&'a str),
    #[error("{path}: row {row} doesn't have one value per column")]
    UnevenRow {
        path: &'a str,
        row: usize,
    },
    #[error("{path}: column {column} sets no variable: its name is empty, is env, or has a parenthesis")]
    BadColumn {
        path: &'a str,
        column: usize,
    },
    #[error("log fault {number} at line {line}")]
    Log {
        number: u8,
        line: usize,
    },
    #[error("event {event} refused {number}")]
    Event {
        event: u128,
        number: u8,
    },
    #[error("plan: {path}:{line}: {what}")]
    Timeline {
        path: &'a str,
        line: usize,
        what: Wrong,
    },
    #[error("plan: {path} asks on and on at {moment} ms")]
    Unending {
        path: &'a str,
        moment: u64,
    },
    #[error("too many scripts")]
    TooManyScripts,
    #[error("source too long: {0}")]
    SourceTooLong(&'a str),
    #[error("cannot write")]
    Unwritten,
    #[error("cannot write {path}: {reason}")]
    NotWritten {
        path: &'a str,
        reason: io::Error,
    },
    #[error("cannot write {path}: {reason}; what there is of it stays in {path}.part, for replay --cut")]
    CutRecord {
        path: &'a str,
        reason: io::Error,
    },
    #[error("cannot write {path}: it is {kind}")]
    NoFile {
        path: &'a str,
        kind: &'static str,
    },
    #[error("{0}")]
    Clash(String),
    #[error("cannot write {path}: {reason}")]
    PageNotWritten {
        path: String,
        reason: io::Error,
    },
    #[error("{path} isn't {what}, so it isn't replaced: name another file after {option}")]
    NotReplaced {
        path: &'a str,
        what: &'static str,
        option: &'static str,
    },
    #[error("{path} isn't {what}, so it isn't replaced: write {option} FILE {path} if {path} is a script to run")]
    ScriptNotReplaced {
        path: &'a str,
        what: &'static str,
        option: &'static str,
    },
    #[error("{0} is empty")]
    EmptyLog(&'a str),
    #[error("{0} has more than 4294967296 bytes")]
    LongLog(&'a str),
    #[error("cannot start a thread")]
    NoThread,
    #[error("out of memory")]
    Memory,
}

impl From<AllocError> for Complaint<'_> {
    ghost use Rattle.std.specs.Prelude.{◌≡◌};
    ghost use Rattle.expect_prog.specs.declared.complaint.Complaint.TheVariants.{Memory};

    ghost from_gives = { λ _ e. e ≡ Memory };

    fn from(_e: AllocError) -> Self {
        Complaint::Memory
    }
}

impl<T: Drop> From<AllocFailed<T>> for Complaint<'_> {
    ghost use Rattle.std.specs.Prelude.{◌≡◌};
    ghost use Rattle.expect_prog.specs.declared.complaint.Complaint.TheVariants.{Memory};

    ghost from_gives = { λ _ e. e ≡ Memory };

    fn from(_e: AllocFailed<T>) -> Self {
        Complaint::Memory
    }
}

/// Returns the line of a complaint, with control characters escaped.
fn line(alloc: Global, complaint: &Complaint<'_>) -> Result<Text, AllocError> {
    let raw = complaint.to_string(alloc)?;
    let mut line = Text::new(alloc);
    push_text(alloc, &mut line, Escaping::Quotes, raw.as_bytes())?;
    Ok(line)
}

/// Writes the line of a complaint on standard error. If memory for it is refused, writes that
/// instead.
pub fn tell(rt: &impl Eprint, alloc: Global, complaint: &Complaint<'_>) {
    match line(alloc, complaint) {
        Ok(line) => {
            let line = std::str::from_utf8(line.as_slice()).unwrap_or("");
            let _ = eprintln!(rt; "exprun: {line}");
        }
        Err(_) => {
            let _ = eprintln!(rt; "exprun: out of memory");
        }
    }
}

/// Returns the number of a refusal.
fn refusal_number(refusal: HallRefusal) -> u8
    ensures { result ≡ number_of refusal }
{
    match refusal {
        HallRefusal::NoSuchScript => 1,
        HallRefusal::NoSuchChild => 2,
        HallRefusal::MomentTooLarge => 3,
        HallRefusal::PieceTooLong => 4,
    }
}

impl<'a> Complaint<'a> {
    fn of_log(fault: LogFault) -> Complaint<'a>
        ensures { LogLine fault result }
    {
        match fault {
            LogFault::Shape(line) => Complaint::Log { number: 1, line },
            LogFault::Number(line) => Complaint::Log { number: 2, line },
            LogFault::Hex(line) => Complaint::Log { number: 3, line },
            LogFault::NoSuchScript(line) => Complaint::Log { number: 4, line },
            LogFault::NoSuchChild(line) => Complaint::Log { number: 5, line },
            LogFault::TooLong(line) => Complaint::Log { number: 6, line },
            LogFault::Total(line) => Complaint::Log { number: 8, line },
            LogFault::Version(line) => Complaint::Log { number: 9, line },
            LogFault::Memory => Complaint::Memory,
        }
    }

    fn of_opening(fault: HallFault, sources: &[&'a str]) -> Complaint<'a>
        ensures { OpeningLine sources.now fault result }
    {
        match fault {
            HallFault::TooManyScripts => Complaint::TooManyScripts,
            HallFault::SourceTooLong(script) => {
                let path = sources.get(script.saturating_sub(1));
                Complaint::SourceTooLong(path.copied().unwrap_or(""))
            }
            HallFault::Memory => Complaint::Memory,
        }
    }

    fn of_run(fault: RunFault, sources: &[&'a str]) -> Complaint<'a>
        ensures { RunLine sources.now fault result }
    {
        match fault {
            RunFault::Refused { at, refusal } => Complaint::Event {
                event: at as u128 + 1,
                number: refusal_number(refusal),
            },
            RunFault::New(fault) => Complaint::of_opening(fault, sources),
            RunFault::Memory => Complaint::Memory,
        }
    }

    /// Returns the complaint for an error of a replay of the log at a path, for scripts with these
    /// files.
    pub fn of_replay(fault: ReplayFault, log: &'a str, sources: &[&'a str]) -> Complaint<'a>
        ensures { FaultLine log.entry sources.now fault result }
    {
        match fault {
            ReplayFault::Read => Complaint::Unreadable(log),
            ReplayFault::Log(fault) => Complaint::of_log(fault),
            ReplayFault::Run(fault) => Complaint::of_run(fault, sources),
            ReplayFault::Write => Complaint::Unwritten,
            ReplayFault::Memory => Complaint::Memory,
        }
    }

    /// Returns the complaint for an error in showing a log.
    pub fn of_show(fault: ShowFault, order: &Show<'a>) -> Complaint<'a>
        ensures { ShowLine order.now.log fault result }
    {
        match fault {
            ShowFault::Read => Complaint::Unreadable(order.log),
            ShowFault::Log(fault) => Complaint::of_log(fault),
            ShowFault::Write => Complaint::Unwritten,
            ShowFault::Memory => Complaint::Memory,
        }
    }

    /// Returns the complaint for an error in explaining scripts over a log.
    pub fn of_explain(fault: ExplainFault, order: &Explain<'a>) -> Complaint<'a>
        ensures { ExplainLine order.now.log order.now.scripts.sources.items fault result }
    {
        match fault {
            ExplainFault::Read => Complaint::Unreadable(order.log),
            ExplainFault::Log(fault) => Complaint::of_log(fault),
            ExplainFault::TooManyScripts => Complaint::TooManyScripts,
            ExplainFault::SourceTooLong(script) => Complaint::of_opening(
                HallFault::SourceTooLong(script),
                order.scripts.sources.as_slice(),
            ),
            ExplainFault::Write => Complaint::Unwritten,
            ExplainFault::Memory => Complaint::Memory,
        }
    }

    /// Returns the complaint for an error in writing the explanation of a run. Its log is the run's
    /// own record.
    pub fn of_account(fault: ExplainFault, path: &'a str) -> Complaint<'a>
        ensures { AccountLine path.entry fault result }
    {
        let reason = io::Error::other("the record can't be told");
        match fault {
            ExplainFault::Read => Complaint::NotWritten { path, reason },
            ExplainFault::Log(_) => Complaint::NotWritten { path, reason },
            ExplainFault::TooManyScripts => Complaint::NotWritten { path, reason },
            ExplainFault::SourceTooLong(_) => Complaint::NotWritten { path, reason },
            ExplainFault::Write => Complaint::NotWritten { path, reason },
            ExplainFault::Memory => Complaint::Memory,
        }
    }

    /// Returns the complaint for a bad line in a timeline's file.
    fn bad(path: &'a str, line: usize, what: Wrong) -> Complaint<'a>
        ensures { BadLine path.entry line what result }
    {
        Complaint::Timeline { path, line, what }
    }

    fn of_timeline(fault: TimelineFault, path: &'a str) -> Complaint<'a>
        ensures { TimelineLine path.entry fault result }
    {
        match fault {
            TimelineFault::Shape(line) => Complaint::bad(path, line, Wrong::Shape),
            TimelineFault::Moment(line) => Complaint::bad(path, line, Wrong::Moment),
            TimelineFault::Back(line) => Complaint::bad(path, line, Wrong::Back),
            TimelineFault::Child(line) => Complaint::bad(path, line, Wrong::Child),
            TimelineFault::Cause(line) => Complaint::bad(path, line, Wrong::Cause),
            TimelineFault::Text(line) => Complaint::bad(path, line, Wrong::Text),
            TimelineFault::Status(line) => Complaint::bad(path, line, Wrong::Status),
            TimelineFault::Again(line) => Complaint::bad(path, line, Wrong::Again),
            TimelineFault::Header => Complaint::bad(path, 1, Wrong::Header),
            TimelineFault::Event(line) => Complaint::bad(path, line, Wrong::Event),
            TimelineFault::Memory => Complaint::Memory,
        }
    }

    /// Returns the complaint for an error in planning a log.
    pub fn of_plan(fault: PlanLogFault, order: &LogPlan<'a>) -> Complaint<'a>
        ensures { PlanLine order.now.source order.now.timeline order.now.timing fault result }
    {
        match fault {
            PlanLogFault::Read => Complaint::Unreadable(order.timeline),
            PlanLogFault::Timeline(fault) => Complaint::of_timeline(fault, order.lines()),
            PlanLogFault::Plan(PlanFault::SourceTooLong) => Complaint::SourceTooLong(order.source),
            PlanLogFault::Plan(PlanFault::Unending(moment)) => Complaint::Unending {
                path: order.source,
                moment,
            },
            PlanLogFault::Plan(PlanFault::Memory) => Complaint::Memory,
            PlanLogFault::Write => Complaint::Unwritten,
            PlanLogFault::Memory => Complaint::Memory,
        }
    }

    /// Returns the complaint for an error of a run of scripts with these files.
    pub fn of_drive(fault: DriveFault, sources: &[&'a str]) -> Complaint<'a>
        ensures { DriveLine sources.now fault result }
    {
        match fault {
            DriveFault::Serve(ServeFault::New(fault)) => Complaint::of_opening(fault, sources),
            DriveFault::Serve(ServeFault::NoThread) => Complaint::NoThread,
            DriveFault::Serve(ServeFault::Memory) => Complaint::Memory,
            DriveFault::Memory => Complaint::Memory,
        }
    }
}
