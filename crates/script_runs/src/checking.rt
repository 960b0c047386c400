//! What is wrong in sources, one line per finding.

ghost use Rattle.std.specs.Prelude.{◌≡◌, ◌≤◌, ◌++◌, ℕ, List, IfOk, OnOk};
ghost use Rattle.script_check.specs.Lines.{line_of as line_at};
ghost use Rattle.script_runs.specs.Check.{is_control as is_control_of, within_line, lines_within, in_line, finding_text, finding_line, finding_lines, checked as checked_text, is_nothing as is_nothing_of, Checks};

use child_events::Counted;
use report_texts::{Escaping, push_labelled, push_text, write_all};
use script_check::{Finding, Span, check, line_of, newlines};
use std::alloc::{AllocError, Global};
use std::io::Write;
use tcl_words::Text;

/// Why not all findings were written.
#[derive(Clone, Copy, PartialEq, Eq)]
pub enum CheckFault {
    /// A write failed, or the greatest number of writes was not enough.
    Write,
    /// Memory was refused.
    Memory,
}

/// Returns the line number of `at`, given the line number of `known`. Reads only the text between
/// the two. If `at` comes before `known`, reads all the text before `at`.
fn line_from(source: &[u8], known: usize, line: usize, at: usize) -> usize
    requires { line ≡ line_at source.now known }
    ensures { result ≡ line_at source.now at }
{
    if at < known {
        return line_of(source, at);
    }
    line + newlines(
        source,
        Span {
            from: known,
            to: at,
        },
    )
}

/// Returns whether a byte is an ASCII control character other than DEL.
fn is_control(byte: u8) -> bool
    ensures { result ≡ is_control_of byte }
{
    byte < b' '
}

/// Appends a byte, escaped if it could end the line.
fn push_within(alloc: Global, text: &mut Text, byte: u8) -> Result<(), AllocError>
    ensures { OnOk result (text.new ≡ text.old ++ within_line byte) }
{
    if is_control(byte) {
        return push_text(alloc, text, Escaping::Quotes, &[byte]);
    }
    text.push(byte)
}

/// Appends bytes, escaped if they could end the line.
fn push_lines_within(alloc: Global, text: &mut Text, bytes: &[u8]) -> Result<(), AllocError>
    ensures { OnOk result (text.new ≡ text.old ++ lines_within bytes.now) }
{
    for byte in bytes {
        push_within(alloc, text, *byte)?;
    }
    Ok(())
}

/// Appends bytes as text that does nothing on a terminal and ends no line.
fn push_in_line(alloc: Global, text: &mut Text, bytes: &[u8]) -> Result<(), AllocError>
    ensures { OnOk result (text.new ≡ text.old ++ in_line bytes.now) }
{
    let mut lines = Text::new(alloc);
    push_text(alloc, &mut lines, Escaping::Lines, bytes)?;
    push_lines_within(alloc, text, lines.as_slice())
}

/// Returns the text of a finding. `line` is the finding's line in the source.
#[tactic(auto, unfolding(crate::specs::Check::finding_text))]
fn text_of(alloc: Global, file: &[u8], line: usize, finding: &Finding) -> Result<Text, AllocError>
    ensures { (source : List ℕ) → line ≡ line_at source finding.now.at → IfOk result (λ text. text ≡ finding_text file.now source finding.now) }
{
    let mut text = Text::new(alloc);
    text.extend(file)?;
    push_labelled(alloc, &mut text, b":", line as u128)?;
    text.extend(b": ")?;
    let what = finding.what.text(alloc)?;
    text.extend(what.as_slice())?;
    Ok(text)
}

/// Appends the line of a finding. `line` is the finding's line in the source.
#[tactic(auto, unfolding(crate::specs::Check::finding_line))]
fn push_finding(
    alloc: Global,
    text: &mut Text,
    file: &[u8],
    line: usize,
    finding: &Finding,
) -> Result<(), AllocError>
    ensures { (source : List ℕ) → line ≡ line_at source finding.now.at → OnOk result (text.new ≡ text.old ++ finding_line file.now source finding.now) }
{
    let told = text_of(alloc, file, line, finding)?;
    push_in_line(alloc, text, told.as_slice())?;
    text.push(b'\n')
}

/// Appends the lines of findings.
fn push_findings(
    alloc: Global,
    text: &mut Text,
    file: &[u8],
    source: &[u8],
    findings: &[Finding],
) -> Result<(), AllocError>
    ensures { OnOk result (text.new ≡ text.old ++ finding_lines file.now source.now findings.now) }
{
    let mut known: usize = 0;
    let mut line: usize = 1;
    for finding in findings {
        line = line_from(source, known, line, finding.at);
        known = finding.at;
        push_finding(alloc, text, file, line, finding)?;
    }
    Ok(())
}

/// Returns the lines of all findings in the source of a file.
fn checked(alloc: Global, file: &[u8], source: &[u8]) -> Result<Text, AllocError>
    ensures { IfOk result (λ t. t ≡ checked_text file.now source.now) }
{
    let findings = check(alloc, source)?;
    let mut text = Text::new(alloc);
    push_findings(alloc, &mut text, file, source, findings.as_slice())?;
    Ok(text)
}

fn is_nothing(text: &[u8]) -> bool
    ensures { result ≡ is_nothing_of text.now }
{
    match text {
        [] => true,
        [_, ..] => false,
    }
}

/// Writes a line for each finding in the source of a file. Returns whether there are none.
///
/// After `Write`, a front of the lines was written. After `Memory`, nothing was written. An
/// interrupted write is tried again.
pub fn check_source<W: Write>(
    alloc: Global,
    file: &[u8],
    source: &[u8],
    out: &mut Counted<W>,
) -> Result<bool, CheckFault>
    requires failures { out.old.failures ≡ 0 }
    requires calls { out.old.calls ≤ 1099511627776 }
    ensures { Checks file.now source.now (W.contents out.old.device) (W.contents out.new.device) out.new.failures out.new.calls result }
{
    let Ok(text) = checked(alloc, file, source) else {
        return Err(CheckFault::Memory);
    };
    let Ok(()) = write_all(out, text.as_slice()) else {
        return Err(CheckFault::Write);
    };
    Ok(is_nothing(text.as_slice()))
}
