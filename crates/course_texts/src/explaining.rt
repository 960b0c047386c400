//! Explains scripts over a log, event by event, from any reader to any writer.

ghost use Rattle.std.specs.Prelude.{ℕ, List, ◌≡◌, ◌≢◌, ◌≤◌, ◌++◌, [], ◌==◌, length, vec_len, false, if◌then◌else◌, IfOk, IfErr, IfSome, IsTrue, OnOk, OnErr, Some, Err};
ghost use Rattle.child_events.specs.Log.{LogText};
ghost use Rattle.child_events.specs.Reading.{Refused};
ghost use Rattle.report_texts.specs.Devices.{GaveUp};
ghost use Rattle.course_texts.specs.Waits.{wait_lines};
ghost use Rattle.course_texts.specs.Explain.{is_quiet as is_quiet_of, SaysAll, TellsBehind, heading as heading_of, StartsOne, fault_line, end_text, is_told as is_told_of, Explains, Tells, TellsOne, StepTold, Judged, IsNoWant};

use crate::closing::is_closed;
use crate::meetings::{Teller, rest_of};
use crate::shown::push_shown_line;
use crate::trail::{line_label, push_places};
use crate::waits::{push_requests, push_waits};
use child_events::{Counted, HallEvent, HallEvents, LogFault, LogReader, own_event};
use dialogue_sched::{MOST_SCRIPTS, Script};
use report_texts::{
    ReadFault, masked_report, push_head, push_labelled, push_quoted, read_all, write_all,
};
use secret_words::Secrets;
use session::{Ending, NewFault, Report, Session};
use std::alloc::{AllocError, Global};
use std::io::{Read, Write};
use std::mem;
use tcl_words::Text;

/// Why an explanation failed.
#[derive(Clone, Copy, PartialEq, Eq)]
pub enum ExplainFault {
    /// A read of the log failed, or the log had no end after the greatest number of reads.
    Read,
    /// The log has a bad line. This is never `LogFault::Memory`.
    Log(LogFault),
    /// There are more than 64 scripts.
    TooManyScripts,
    /// The script with this number, from 1, is longer than 1048576 bytes.
    SourceTooLong(usize),
    /// A write failed, or the greatest number of writes was not enough.
    Write,
    /// Memory was refused.
    Memory,
}

impl From<AllocError> for ExplainFault {
    ghost use Rattle.std.specs.Prelude.{◌≡◌};
    ghost use Rattle.course_texts.specs.declared.explaining.ExplainFault.TheVariants.{Memory};

    ghost from_gives = { λ _ e. e ≡ Memory };

    fn from(_e: AllocError) -> ExplainFault {
        ExplainFault::Memory
    }
}

/// Returns whether an event is a tick after which the script began no further step.
fn is_quiet(event: &HallEvent, still: bool) -> bool
    ensures { result ≡ is_quiet_of event.now still }
{
    match event {
        HallEvent::Child { .. } => false,
        HallEvent::Tick { .. } => still,
    }
}

/// Returns whether a session may have been refused memory.
fn is_spent(session: &Session) -> bool
    ensures { result ≡ false → IsTrue session.now.lives }
{
    matches!(session.ending(), Ending::Memory)
}

/// Returns the text of a teller, and the session's requests that it has not written yet.
fn told(
    alloc: Global,
    secrets: &Secrets,
    teller: Teller,
    session: &Session,
) -> Result<Text, AllocError>
    ensures { IfOk result (λ t. SaysAll secrets.now teller session.now t) }
{
    if teller.is_refused() || is_spent(session) {
        return Err(AllocError);
    }
    let told = teller.told();
    let mut text = teller.into_text();
    push_requests(
        alloc,
        &mut text,
        secrets.as_slice(),
        rest_of(session.requests(), told),
    )?;
    Ok(text)
}

/// Appends what a session waits for, unless `quiet`.
fn push_unless(
    alloc: Global,
    text: &mut Text,
    secrets: &Secrets,
    quiet: bool,
    session: &Session,
) -> Result<(), AllocError>
    ensures { OnOk result (text.new ≡ text.old ++ (if quiet then [] else wait_lines secrets.now session.now)) }
{
    if quiet {
        return Ok(());
    }
    push_waits(alloc, text, secrets.as_slice(), session)
}

/// Passes an event to the session of script `number`, if it belongs to that script, and appends the
/// text of the event.
fn step(
    alloc: Global,
    text: &mut Text,
    secrets: &Secrets,
    number: u8,
    session: &mut Session,
    event: &HallEvent,
) -> Result<(), AllocError>
    ensures { OnOk result (StepTold secrets.now number event.now session.old session.new text.old text.new) }
{
    let Some(own) = own_event(alloc, number, event)? else {
        return Ok(());
    };
    let closed = is_closed(session.requests(), session.ending(), event);
    push_shown_line(alloc, text, secrets, closed, event)?;
    let asked = session.requests().len();
    let begun = session.steps();
    let front = mem::replace(text, Text::new(alloc));
    let own_secrets = secrets.copied(alloc)?;
    let teller = session.feed_watched(own, Teller::new(alloc, own_secrets, front, asked));
    let told = told(alloc, secrets, teller, session)?;
    drop(mem::replace(text, told));
    let quiet = is_quiet(event, begun == session.steps());
    push_unless(alloc, text, secrets, quiet, session)
}

/// Appends the text of events for a session.
fn push_course(
    alloc: Global,
    text: &mut Text,
    secrets: &Secrets,
    number: u8,
    session: &mut Session,
    events: &[HallEvent],
) -> Result<(), AllocError>
    ensures { OnOk result (TellsBehind secrets.now number session.old events.now text.old session.new text.new) }
{
    for event in events {
        step(alloc, text, secrets, number, session, event)?;
    }
    Ok(())
}

/// Returns the heading of script `number`'s explanation.
#[tactic(auto, unfolding(crate::specs::Explain::heading))]
fn heading(alloc: Global, number: u8) -> Result<Text, AllocError>
    ensures { IfOk result (λ t. t ≡ heading_of number) }
{
    let mut text = Text::new(alloc);
    push_labelled(alloc, &mut text, b"script ", u128::from(number))?;
    text.extend(b"\n")?;
    Ok(text)
}

/// Returns the text of a teller at a session's first wait, and what the session waits for.
fn first_told(
    alloc: Global,
    secrets: &Secrets,
    teller: Teller,
    session: &Session,
) -> Result<Text, AllocError>
    ensures { IfOk result (λ t. (told : List ℕ) × SaysAll secrets.now teller session.now told × (t ≡ told ++ wait_lines secrets.now session.now)) }
{
    let mut text = told(alloc, secrets, teller, session)?;
    push_waits(alloc, &mut text, secrets.as_slice(), session)?;
    Ok(text)
}

/// Returns the session of script `number` at its first wait, and the beginning of its explanation.
fn begun(
    alloc: Global,
    secrets: &Secrets,
    number: u8,
    script: Script,
) -> Result<(Session, Text), ExplainFault>
    ensures { StartsOne secrets.now number script result }
{
    let Script { source, settings } = script;
    let teller = Teller::new(alloc, secrets.copied(alloc)?, heading(alloc, number)?, 0);
    let (session, teller) = match Session::watched(alloc, source, settings, teller) {
        Ok(begun) => begun,
        Err(NewFault::SourceTooLong) => {
            return Err(ExplainFault::SourceTooLong(usize::from(number)));
        }
        Err(NewFault::Memory) => return Err(ExplainFault::Memory),
    };
    match first_told(alloc, secrets, teller, &session) {
        Ok(text) => Ok((session, text)),
        Err(AllocError) => {
            drop(session);
            Err(ExplainFault::Memory)
        }
    }
}

fn push_fault(
    alloc: Global,
    text: &mut Text,
    ending: Ending,
    fault: &[u8],
) -> Result<(), AllocError>
    ensures { OnOk result (text.new ≡ text.old ++ fault_line ending fault.now) }
{
    match ending {
        Ending::Error => {
            text.extend(b"error: ")?;
            push_quoted(alloc, text, fault)?;
            text.extend(b"\n")
        }
        Ending::Exit(_) => Ok(()),
        Ending::StepLimit => Ok(()),
        Ending::TimeLimit => Ok(()),
        Ending::Memory => Ok(()),
        Ending::Waiting => Ok(()),
    }
}

/// Appends the end of script `number`'s explanation.
#[tactic(auto, unfolding(crate::specs::Explain::end_text))]
fn push_end(alloc: Global, text: &mut Text, number: u8, report: &Report) -> Result<(), AllocError>
    ensures { OnOk result (text.new ≡ text.old ++ end_text number report.now) }
{
    push_head(alloc, text, usize::from(number), report)?;
    text.push(b'\n')?;
    push_fault(alloc, text, report.ending, report.fault.as_slice())?;
    push_places(alloc, text, line_label(), report.trail.as_slice())
}

/// Returns the explanation of script `number` over events.
fn course(
    alloc: Global,
    secrets: &Secrets,
    number: u8,
    script: Script,
    events: &[HallEvent],
) -> Result<Text, ExplainFault>
    ensures { TellsOne secrets.now number script events.now result }
{
    let (mut session, mut text) = match begun(alloc, secrets, number, script) {
        Ok(begun) => begun,
        Err(fault) => return Err(fault),
    };
    push_course(alloc, &mut text, secrets, number, &mut session, events)?;
    let report = masked_report(alloc, secrets.as_slice(), session.into_report());
    push_end(alloc, &mut text, number, &report)?;
    Ok(text)
}

/// Returns whether script `number` is explained.
fn is_told(only: Option<u8>, number: u8) -> bool
    ensures { result ≡ is_told_of only number }
{
    match only {
        None => true,
        Some(only) => number == only,
    }
}

/// Returns the explanations of scripts over events, or of only one script.
fn courses(
    alloc: Global,
    only: Option<u8>,
    secrets: &Secrets,
    events: &[HallEvent],
    scripts: Vec<Script>,
) -> Result<Text, ExplainFault>
    requires few { vec_len scripts ≤ 64 }
    ensures { Tells secrets.now only events.now scripts.items result }
{
    let mut text = Text::new(alloc);
    let mut number: u8 = 0;
    for script in scripts {
        number += 1;
        if is_told(only, number) {
            match course(alloc, secrets, number, script, events) {
                Ok(told) => text.extend(told.as_slice())?,
                Err(fault) => return Err(fault),
            }
        }
    }
    Ok(text)
}

/// Checks a log, and returns all its events.
fn judged(alloc: Global, bytes: &[u8]) -> Result<HallEvents, ExplainFault>
    ensures { Judged bytes.now result }
{
    let mut log = match LogReader::new(bytes) {
        Ok(log) => log,
        Err(LogFault::Memory) => return Err(ExplainFault::Memory),
        Err(fault) => return Err(ExplainFault::Log(fault)),
    };
    let count = log.len();
    Ok(log.take(alloc, count)?)
}

/// Reads a log and writes the explanations of its scripts, or of only one. After each event of a
/// script, an explanation shows the script's requests, its matches, and what it then waits for. Names
/// stand in place of secrets. Events of scripts that don't exist are ignored.
///
/// Errors are returned in the order of `ExplainFault`'s variants, except `Memory`. `Memory` may
/// replace any of them before the first byte is written. After `Write`, a front of the text was
/// written. After any other error, nothing was written. An interrupted read or write is tried
/// again.
pub fn explain<R: Read, W: Write>(
    alloc: Global,
    only: Option<u8>,
    secrets: &Secrets,
    log: &mut Counted<R>,
    scripts: Vec<Script>,
    out: &mut Counted<W>,
) -> Result<(), ExplainFault>
    requires log_failures { log.old.failures ≡ 0 }
    requires log_calls { log.old.calls ≡ 0 }
    requires out_failures { out.old.failures ≡ 0 }
    requires out_calls { out.old.calls ≡ 0 }
    ensures answers { IfSome (R.remaining log.old.device) (λ bytes.
        Explains secrets.now only scripts.items bytes (W.contents out.old.device) (W.contents out.new.device) result) }
    ensures unwritten { IfErr result (λ fault. fault ≢ ExplainFault.Write → out.new ≡ out.old) }
    ensures read { result ≡ Err ExplainFault.Read → GaveUp log.new.failures log.new.calls }
    ensures read_whole { result ≢ Err ExplainFault.Read → log.new.failures ≡ 0 }
    ensures write { result ≡ Err ExplainFault.Write → GaveUp out.new.failures out.new.calls }
    ensures written_whole { result ≢ Err ExplainFault.Write → out.new.failures ≡ 0 }
    ensures memory { IfErr result (λ fault. IsNoWant fault) }
{
    let bytes = match read_all(alloc, log) {
        Ok(bytes) => bytes,
        Err(ReadFault::Failed) => return Err(ExplainFault::Read),
        Err(ReadFault::Memory) => return Err(ExplainFault::Memory),
    };
    let events = judged(alloc, bytes.as_slice())?;
    if scripts.len() > MOST_SCRIPTS {
        return Err(ExplainFault::TooManyScripts);
    }
    let text = courses(alloc, only, secrets, events.as_slice(), scripts)?;
    match write_all(out, text.as_slice()) {
        Ok(()) => Ok(()),
        Err(_) => Err(ExplainFault::Write),
    }
}
