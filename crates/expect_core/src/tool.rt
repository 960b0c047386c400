//! What a tool run is: a program that a command starts, reads and waits for.

use child_events::Cause;
use command_table::ClockOption;
use tcl_words::{Text, Texts};

/// What a program is run for.
#[derive(Drop)]
pub enum Job {
    /// `exec`, and whether the last newline of the output stays.
    Exec(bool),
    /// `system`: the output goes to the transcript.
    System,
    /// `source`: the output is evaluated.
    Source,
    /// A test of `file`: the status says whether it holds.
    Test,
    /// A number of stat(1), by its index.
    Field(usize),
    /// All numbers of stat(1), for the array with this name.
    Stat(Text),
    /// A change of files, or the end of a channel that was written. The output counts for nothing.
    Change,
    /// The output, without its last newline.
    Line,
    /// The time of day, given in this unit.
    Day(ClockOption),
    /// A channel that reads a file.
    Reader,
    /// A channel that reads what a program writes.
    Pipe,
    /// A channel that writes a file. The program goes on.
    Writer,
    /// Standard error, and the first text for it. The program goes on.
    Complainer(Text),
}

/// A program that is to be run.
#[derive(Drop)]
pub struct Tool {
    /// The words of the request.
    pub words: Texts,
    /// The error text in front of the cause, if the program can't do its work.
    pub failing: Text,
    /// What it is for.
    pub job: Job,
}

/// A program that runs.
#[derive(Drop)]
pub struct ToolRun {
    /// The error text in front of the cause, if the program can't do its work.
    pub failing: Text,
    /// What it is for.
    pub job: Job,
    /// Its output so far.
    pub bytes: Text,
    /// Why its output could not be read to the end, or `None`.
    pub broken: Option<Cause>,
}

/// The request of a run whose answer is awaited.
#[derive(Clone, Copy)]
pub enum Stride {
    /// To start the program.
    Start,
    /// To show it the end of its input.
    Fed,
    /// To close it, after its output.
    Shut,
    /// To wait for it.
    Gone,
}
