//! Reports as tests of the Test Anything Protocol.

ghost use Rattle.std.specs.Prelude.{◌≡◌, ◌++◌, IfOk, OnOk};
ghost use Rattle.report_texts.specs.Tap.{name_byte, name_text, plan, passed, not_passed, diagnostic, tap_test};

use crate::line::{push_line, push_line_byte};
use crate::texts::{is_done, push_ending, push_labelled};
use session::{Ending, Report};
use std::alloc::{AllocError, Global};
use tcl_words::Text;

/// Appends a byte of a test's name.
fn push_name_byte(alloc: Global, text: &mut Text, byte: u8) -> Result<(), AllocError>
    ensures { OnOk result (text.new ≡ text.old ++ name_byte byte) }
{
    if byte == b'#' {
        return text.extend(b"\\#");
    }
    push_line_byte(alloc, text, byte)
}

/// Appends the name of a test.
fn push_name(alloc: Global, text: &mut Text, name: &[u8]) -> Result<(), AllocError>
    ensures { OnOk result (text.new ≡ text.old ++ name_text name.now) }
{
    for byte in name {
        push_name_byte(alloc, text, *byte)?;
    }
    Ok(())
}

/// Returns the version, and the plan for this number of tests.
#[tactic(auto, unfolding(crate::specs::Tap::plan))]
pub fn plan_text(alloc: Global, count: usize) -> Result<Text, AllocError>
    ensures { IfOk result (λ t. t ≡ plan count) }
{
    let mut text = Text::new(alloc);
    text.extend(b"TAP version 13\n")?;
    push_labelled(alloc, &mut text, b"1..", count as u128)?;
    text.push(b'\n')?;
    Ok(text)
}

/// Appends a test that passed.
#[tactic(auto, unfolding(crate::specs::Tap::passed))]
fn push_passed(alloc: Global, text: &mut Text, file: &[u8], number: usize) -> Result<(), AllocError>
    ensures { OnOk result (text.new ≡ text.old ++ passed file.now number) }
{
    push_labelled(alloc, text, b"ok ", number as u128)?;
    text.extend(b" - ")?;
    push_name(alloc, text, file)?;
    text.push(b'\n')
}

/// Appends a test that failed, with the ending of its script.
#[tactic(auto, unfolding(crate::specs::Tap::not_passed))]
fn push_not_passed(
    alloc: Global,
    text: &mut Text,
    file: &[u8],
    number: usize,
    ending: Ending,
) -> Result<(), AllocError>
    ensures { OnOk result (text.new ≡ text.old ++ not_passed file.now number ending) }
{
    push_labelled(alloc, text, b"not ok ", number as u128)?;
    text.extend(b" - ")?;
    push_name(alloc, text, file)?;
    text.extend(b": ")?;
    push_ending(alloc, text, ending)?;
    text.push(b'\n')
}

/// Appends the text of an error, as a diagnostic.
fn push_diagnostic(
    alloc: Global,
    text: &mut Text,
    ending: Ending,
    fault: &Text,
) -> Result<(), AllocError>
    ensures { OnOk result (text.new ≡ text.old ++ diagnostic ending fault.now) }
{
    match ending {
        Ending::Error => {
            text.extend(b"# ")?;
            push_line(alloc, text, fault.as_slice())?;
            text.push(b'\n')
        }
        Ending::Exit(_) => Ok(()),
        Ending::StepLimit => Ok(()),
        Ending::TimeLimit => Ok(()),
        Ending::Memory => Ok(()),
        Ending::Waiting => Ok(()),
    }
}

/// Returns the test of script `number`, with its file. It passes if the script ended with status 0.
pub fn test_text(
    alloc: Global,
    file: &[u8],
    number: usize,
    report: &Report,
) -> Result<Text, AllocError>
    ensures { IfOk result (λ t. t ≡ tap_test file.now number report.now) }
{
    let mut text = Text::new(alloc);
    if is_done(report.ending) {
        push_passed(alloc, &mut text, file, number)?;
        return Ok(text);
    }
    push_not_passed(alloc, &mut text, file, number, report.ending)?;
    push_diagnostic(alloc, &mut text, report.ending, &report.fault)?;
    Ok(text)
}
