//! The versions of a log, and the first and the last line of versions 2 and 3.

ghost use Rattle.std.specs.Prelude.{◌≡◌, ◌+◌, ◌<◌, ◌^◌, codes};
ghost use Rattle.std.specs.Str.{bytes_eq};
ghost use Rattle.child_events.specs.Reading.{parts, first_word, version_of as version_of_line, numbers_in, first_line, total_of as total_of_fields, line_total as total_of_line, closed};

use crate::child_numbers::ChildNumbers;
use crate::faults::LogFault;
use crate::fields::{any_number, is, split_first};

/// The version of a log.
#[derive(Clone, Copy, PartialEq, Eq)]
pub enum Version {
    /// Version 1: only lines of events.
    Plain,
    /// Version 2 or 3: the line of the version, lines of events, and a line with their number.
    Counted(ChildNumbers),
}

impl Version {
    /// Returns the numbers of children that the version allows.
    pub fn numbers(self) -> ChildNumbers
        ensures { result ≡ numbers_in self }
    {
        match self {
            Version::Plain => ChildNumbers::To16,
            Version::Counted(numbers) => numbers,
        }
    }

    /// Returns the line number of the first event, counted from 1.
    pub fn first_line(self) -> usize
        ensures { result ≡ first_line self }
    {
        match self {
            Version::Plain => 1,
            Version::Counted(_) => 2,
        }
    }
}

/// Returns whether the first word of a line is the name of the format.
fn names_format(line: &[u8]) -> bool
    ensures { result ≡ bytes_eq (first_word (parts 32 line.now)) (codes "exprun-log") }
{
    match split_first(line, b' ') {
        Some((word, _)) => is(word, b"exprun-log"),
        None => is(line, b"exprun-log"),
    }
}

/// Returns the version that a first line names, or version 1 if it names none. An error means an
/// unknown version.
pub fn version_of(line: &[u8]) -> Result<Version, LogFault>
    ensures { result ≡ version_of_line line.now }
{
    if line.len() > ChildNumbers::To16.longest() || !names_format(line) {
        Ok(Version::Plain)
    } else if is(line, b"exprun-log 2") {
        Ok(Version::Counted(ChildNumbers::To16))
    } else if is(line, b"exprun-log 3") {
        Ok(Version::Counted(ChildNumbers::To999))
    } else {
        Err(LogFault::Version(1))
    }
}

/// Returns the number in a line `total N`. Returns `fault` for any other line.
fn total_of(line: usize, text: &[u8], fault: LogFault) -> Result<u64, LogFault>
    ensures { result ≡ total_of_fields line fault (parts 32 text.now) }
{
    let Some((kind, word)) = split_first(text, b' ') else {
        return Err(fault);
    };
    if !is(kind, b"total") || word.is_empty() {
        return Err(fault);
    }
    match split_first(word, b' ') {
        Some(_) => Err(fault),
        None => any_number(line, word),
    }
}

/// Returns the total in a line. Returns `fault` for any other line, and for each line of version 1.
pub fn line_total(
    version: Version,
    line: usize,
    text: &[u8],
    fault: LogFault,
) -> Result<u64, LogFault>
    ensures { result ≡ total_of_line version line fault text.now }
{
    match version {
        Version::Plain => Err(fault),
        Version::Counted(numbers) if text.len() > numbers.longest() => Err(fault),
        Version::Counted(_) => total_of(line, text, fault),
    }
}

/// Checks the total in line `line` against the `seen` events before it, and that no bytes follow.
#[tactic(auto, using(crate::proofs::Closing::closed_behind))]
pub fn close(line: usize, seen: usize, total: u64, behind: &[u8]) -> Result<(), LogFault>
    requires { line + 1 < 2 ^ 64 }
    ensures { result ≡ closed line seen total (parts 10 behind.now) }
{
    if total != seen as u64 {
        Err(LogFault::Total(line))
    } else if !behind.is_empty() {
        Err(LogFault::Total(line + 1))
    } else {
        Ok(())
    }
}
