//! Makes a log of one that was cut off at any byte.

ghost use Rattle.std.specs.Prelude.{◌≡◌, ◌++◌, ◌-◌, ◌<◌, ◌≤◌, ◌^◌, ℕ, List, length, take as first, OnOk, OnErr};
ghost use Rattle.child_events.specs.Log.{heading, total_line, CountedLog, LogText};
ghost use Rattle.child_events.specs.declared.child_numbers.ChildNumbers.{ChildNumbers};
ghost use Rattle.child_events.specs.declared.event.HallEvent.{HallEvent};
ghost use Rattle.cut_logs.specs.Cut.{whole, lines, mended, is_log as is_log_of};

use child_events::{LogReader, push_total};
use std::alloc::{AllocError, Global};
use tcl_words::Text;

/// Returns the number of bytes up to and including the last newline.
fn whole_len(bytes: &[u8]) -> usize
    ensures { first result bytes.now ≡ whole bytes.now }
{
    match memchr::memrchr(b'\n', bytes) {
        Some(at) => at + 1,
        None => 0,
    }
}

/// Drops the bytes after the last newline.
fn drop_rest(text: &mut Text)
    ensures { text.new ≡ whole text.old }
{
    let kept = whole_len(text.as_slice());
    text.bytes.truncate(kept);
}

/// Returns the number of newlines.
fn count_lines(bytes: &[u8]) -> usize
    ensures { result ≡ lines bytes.now }
{
    bytes.iter().filter(|b| **b == b'\n').count()
}

/// Returns whether the bytes are a log. It does not allocate.
fn is_log(bytes: &[u8]) -> bool
    ensures { result ≡ is_log_of bytes.now }
{
    match LogReader::new(bytes) {
        Ok(_) => true,
        Err(_) => false,
    }
}

/// Appends the line of the total. On `AllocError` the text is unchanged.
fn close(alloc: Global, text: &mut Text, count: u64) -> Result<(), AllocError>
    ensures closed { OnOk result (text.new ≡ text.old ++ total_line count) }
    ensures kept { OnErr result (text.new ≡ text.old) }
{
    let mut line = Text::new(alloc);
    push_total(alloc, &mut line, count)?;
    text.extend(line.as_slice())
}

/// Completes a log that was cut off. Drops the bytes after the last newline, and appends the total
/// if the rest is no log without it.
///
/// On `AllocError` only the bytes after the last newline are dropped.
pub fn mend(alloc: Global, text: &mut Text) -> Result<(), AllocError>
    ensures mended { OnOk result (text.new ≡ mended text.old) }
    ensures kept { OnErr result (text.new ≡ whole text.old) }
{
    let count = count_lines(text.as_slice());
    drop_rest(text);
    if is_log(text.as_slice()) {
        return Ok(());
    }
    close(alloc, text, count.saturating_sub(1) as u64)
}

/// States laws of every text and every list of events. Take a front of a log in version 2 or 3,
/// with at least its heading. `mend` makes of it the log of the events whose lines are complete, in
/// the same version. A log is unchanged. It does nothing at run time.
pub fn mending_law()
    ensures front { (nums : ChildNumbers) (front rest : List ℕ) (es : List HallEvent) → CountedLog nums (front ++ rest) es → length es < 10 ^ 16 → length (heading nums) ≤ length front → CountedLog nums (mended front) (first (lines front - 1) es) }
    ensures whole { (bytes : List ℕ) (es : List HallEvent) → LogText bytes es → mended bytes ≡ bytes }
{}
