//! The texts of reports.

ghost use Rattle.std.specs.Prelude.{◌≡◌, ◌++◌, ◌∷◌, [], sum, Bool, true, IfOk, OnOk};
ghost use Rattle.std.specs.Fmt.{decimal};
ghost use Rattle.child_events.specs.Log.{hex_text};
ghost use Rattle.report_texts.specs.Report.{labelled, ended_text, ending_text, head_words, head_line, tail_part, fault_part, var_line, vars_lines, vars_part, report_bytes, bare_report, escaped_report, is_done as is_done_of};

use crate::asks::push_shown_asks;
use crate::escape::{Escaping, push_text};
use session::{Ending, Report};
use std::alloc::{AllocError, Global};
use tcl_words::Text;

/// The optional parts of a report, which follow its transcript and its error.
#[derive(Clone, Copy)]
pub struct Shown {
    /// The global variables, if the script's settings include them.
    pub vars: bool,
    /// The requests to the children.
    pub requests: bool,
}

/// Appends a label and a number.
#[tactic(auto, unfolding(crate::specs::Report::labelled))]
pub fn push_labelled(
    alloc: Global,
    text: &mut Text,
    label: &[u8],
    n: u128,
) -> Result<(), AllocError>
    ensures { OnOk result (text.new ≡ text.old ++ labelled label.now n) }
{
    text.extend(label)?;
    let digits = n.to_string(alloc)?;
    text.extend(digits.as_bytes())
}

pub(crate) fn push_ending(alloc: Global, text: &mut Text, ending: Ending) -> Result<(), AllocError>
    ensures { OnOk result (text.new ≡ text.old ++ ending_text ending) }
{
    match ending {
        Ending::Exit(status) => push_labelled(alloc, text, b"exit:", u128::from(status)),
        Ending::Error => text.extend(b"error"),
        Ending::StepLimit => text.extend(b"steplimit"),
        Ending::TimeLimit => text.extend(b"timelimit"),
        Ending::Memory => text.extend(b"memory"),
        Ending::Waiting => text.extend(b"waiting"),
    }
}

#[tactic(auto, unfolding(crate::specs::Report::ended_text))]
fn push_ended(alloc: Global, text: &mut Text, ending: Ending) -> Result<(), AllocError>
    ensures { OnOk result (text.new ≡ text.old ++ ended_text ending) }
{
    text.extend(b" end=")?;
    push_ending(alloc, text, ending)
}

/// Returns the sum of counts. It can't overflow.
pub fn total(counts: &[u64]) -> u128
    ensures { result ≡ sum counts.now }
{
    let mut total: u128 = 0;
    for count in counts {
        total += u128::from(*count);
    }
    total
}

/// Appends the words of the first line of script `number`'s report.
#[tactic(auto, unfolding(crate::specs::Report::head_words))]
pub fn push_head(
    alloc: Global,
    text: &mut Text,
    number: usize,
    report: &Report,
) -> Result<(), AllocError>
    ensures { OnOk result (text.new ≡ text.old ++ head_words number report.now) }
{
    push_labelled(alloc, text, b"script ", number as u128)?;
    push_ended(alloc, text, report.ending)?;
    push_labelled(alloc, text, b" steps=", u128::from(report.steps))?;
    push_labelled(alloc, text, b" sent=", total(report.sent.as_slice()))?;
    push_labelled(
        alloc,
        text,
        b" transcript=",
        report.transcript.len() as u128,
    )
}

/// Appends the error of a report: the length of its text in bytes, and the text as it is written.
fn push_fault(
    alloc: Global,
    text: &mut Text,
    ending: Ending,
    size: usize,
    told: &[u8],
) -> Result<(), AllocError>
    ensures { OnOk result (text.new ≡ text.old ++ fault_part ending size told.now) }
{
    match ending {
        Ending::Error => {
            push_labelled(alloc, text, b"error ", size as u128)?;
            text.push(b'\n')?;
            text.extend(told)?;
            text.push(b'\n')
        }
        Ending::Exit(_) => Ok(()),
        Ending::StepLimit => Ok(()),
        Ending::TimeLimit => Ok(()),
        Ending::Memory => Ok(()),
        Ending::Waiting => Ok(()),
    }
}

/// Appends bytes in hexadecimal, or `-` if there are none.
pub(crate) fn push_hex(alloc: Global, text: &mut Text, bytes: &[u8]) -> Result<(), AllocError>
    ensures { OnOk result (text.new ≡ text.old ++ hex_text bytes.now) }
{
    if bytes.is_empty() {
        return text.push(b'-');
    }
    let digits = hex::encode(alloc, bytes)?;
    text.extend(digits.as_bytes())
}

#[tactic(auto, unfolding(crate::specs::Report::var_line))]
fn push_var(alloc: Global, text: &mut Text, name: &[u8], value: &[u8]) -> Result<(), AllocError>
    ensures { OnOk result (text.new ≡ text.old ++ var_line (name.now, value.now)) }
{
    text.extend(b"var ")?;
    push_hex(alloc, text, name)?;
    text.push(b' ')?;
    push_hex(alloc, text, value)?;
    text.push(b'\n')
}

fn push_vars(alloc: Global, text: &mut Text, vars: &[(Text, Text)]) -> Result<(), AllocError>
    ensures { OnOk result (text.new ≡ text.old ++ vars_lines vars.now) }
{
    for var in vars {
        push_var(alloc, text, var.0.as_slice(), var.1.as_slice())?;
    }
    Ok(())
}

fn push_shown_vars(
    alloc: Global,
    text: &mut Text,
    shown: bool,
    vars: &[(Text, Text)],
) -> Result<(), AllocError>
    ensures { OnOk result (text.new ≡ text.old ++ vars_part shown vars.now) }
{
    if !shown {
        return Ok(());
    }
    push_vars(alloc, text, vars)
}

/// Returns the text of script `number`'s report up to its transcript.
pub fn head_text(alloc: Global, number: usize, report: &Report) -> Result<Text, AllocError>
    ensures { IfOk result (λ t. t ≡ head_line number report.now) }
{
    let mut text = Text::new(alloc);
    push_head(alloc, &mut text, number, report)?;
    text.push(b'\n')?;
    Ok(text)
}

/// Returns the text of a report after its transcript, with the text of an error as it is written.
pub fn tail_text(
    alloc: Global,
    shown: Shown,
    told: &[u8],
    report: &Report,
) -> Result<Text, AllocError>
    ensures { IfOk result (λ t. t ≡ tail_part shown told.now report.now) }
{
    let mut text = Text::new(alloc);
    text.push(b'\n')?;
    push_fault(alloc, &mut text, report.ending, report.fault.len(), told)?;
    push_shown_vars(alloc, &mut text, shown.vars, report.vars.as_slice())?;
    push_shown_asks(alloc, &mut text, shown.requests, report.requests.as_slice())?;
    Ok(text)
}

/// Returns the text of script `number`'s report.
pub fn report_text(
    alloc: Global,
    shown: Shown,
    number: usize,
    report: &Report,
) -> Result<Text, AllocError>
    ensures { IfOk result (λ t. t ≡ report_bytes shown number report.now) }
{
    let mut text = head_text(alloc, number, report)?;
    text.extend(report.transcript.as_slice())?;
    let tail = tail_text(alloc, shown, report.fault.as_slice(), report)?;
    text.extend(tail.as_slice())?;
    Ok(text)
}

/// Returns the text of script `number`'s report without its transcript.
pub fn bare_text(
    alloc: Global,
    shown: Shown,
    number: usize,
    report: &Report,
) -> Result<Text, AllocError>
    ensures { IfOk result (λ t. t ≡ bare_report shown number report.now) }
{
    let mut text = head_text(alloc, number, report)?;
    let tail = tail_text(alloc, shown, report.fault.as_slice(), report)?;
    text.extend(tail.as_slice())?;
    Ok(text)
}

/// Returns the text of script `number`'s report for a terminal.
pub fn escaped_text(
    alloc: Global,
    shown: Shown,
    number: usize,
    report: &Report,
) -> Result<Text, AllocError>
    ensures { IfOk result (λ t. t ≡ escaped_report shown number report.now) }
{
    let mut text = head_text(alloc, number, report)?;
    let mut told = Text::new(alloc);
    push_text(
        alloc,
        &mut text,
        Escaping::Lines,
        report.transcript.as_slice(),
    )?;
    push_text(alloc, &mut told, Escaping::Lines, report.fault.as_slice())?;
    let tail = tail_text(alloc, shown, told.as_slice(), report)?;
    text.extend(tail.as_slice())?;
    Ok(text)
}

/// Returns whether it is an exit with status 0.
pub fn is_done(ending: Ending) -> bool
    ensures { result ≡ is_done_of ending }
{
    match ending {
        Ending::Exit(status) => status == 0,
        Ending::Error => false,
        Ending::StepLimit => false,
        Ending::TimeLimit => false,
        Ending::Memory => false,
        Ending::Waiting => false,
    }
}
