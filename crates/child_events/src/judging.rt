//! Checks the lines of a log without allocating.

ghost use Rattle.std.specs.Prelude.{◌≡◌, ◌+◌, ◌<◌, ◌≤◌, ◌^◌, length, IfOk, IfErr, Err};
ghost use Rattle.child_events.specs.Reading.{parts, first_line, last_part as last_of, ended, lines_events, log_events};
ghost use Rattle.child_events.specs.Judging.{Judges};

use crate::faults::LogFault;
use crate::fields::split_line;
use crate::line::judge_line;
use crate::version::{Version, close, line_total, version_of};

/// Returns the version of a log, and its bytes from the line of its first event on.
pub fn opened(bytes: &[u8]) -> Result<(Version, &[u8]), LogFault>
    ensures found { IfOk result (λ log. log_events bytes.now ≡ lines_events log.0 (first_line log.0) (parts 10 log.1.now)) }
    ensures refused { IfErr result (λ f. log_events bytes.now ≡ Err f) }
{
    let Some((line, behind)) = split_line(bytes) else {
        return Ok((Version::Plain, bytes));
    };
    match version_of(line)? {
        Version::Plain => Ok((Version::Plain, bytes)),
        Version::Counted(numbers) => Ok((Version::Counted(numbers), behind)),
    }
}

/// Checks the bytes after the last newline, which would be line `number`.
pub fn last_part(version: Version, number: usize, rest: &[u8]) -> Result<(), LogFault>
    ensures { result ≡ last_of version number rest.now }
{
    if rest.len() > version.numbers().longest() {
        return Err(LogFault::TooLong(number));
    }
    if !rest.is_empty() {
        return Err(LogFault::Shape(number));
    }
    match version {
        Version::Plain => Ok(()),
        Version::Counted(_) => Err(LogFault::Total(number)),
    }
}

/// Checks that the log ends at this line, which is no event because of `fault`. The line must be
/// the total, with no bytes after it.
pub fn end(
    version: Version,
    number: usize,
    line: &[u8],
    fault: LogFault,
    behind: &[u8],
) -> Result<(), LogFault>
    requires { number + 1 < 2 ^ 64 }
    ensures { result ≡ ended version number line.now fault (parts 10 behind.now) }
{
    let total = line_total(version, number, line, fault)?;
    close(number, number.saturating_sub(2), total, behind)
}

/// Counts the lines that are events, from line `first` on, and checks the end of the log. Otherwise
/// returns the first error.
pub fn judge_lines(version: Version, first: usize, bytes: &[u8]) -> Result<usize, LogFault>
    requires { first + length bytes.now < 2 ^ 64 }
    ensures judged { Judges version first (parts 10 bytes.now) result }
    ensures few { IfOk result (λ seen. seen ≤ length bytes.now) }
{
    let mut seen: usize = 0;
    let mut rest = bytes;
    let mut number = first;
    'lines: while let Some((line, behind)) = split_line(rest) {
        match judge_line(version.numbers(), number, line) {
            Ok(()) => {
                seen += 1;
                rest = behind;
                number += 1;
            }
            Err(fault) => {
                end(version, number, line, fault, behind)?;
                return Ok(seen);
            }
        }
    }
    last_part(version, number, rest)?;
    Ok(seen)
}
