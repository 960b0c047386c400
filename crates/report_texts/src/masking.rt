//! Reports with names in place of secrets.

ghost use Rattle.std.specs.Prelude.{◌≡◌, ◌<◌, length, vec_len, map, take, drop, IfOk};
ghost use Rattle.secret_words.specs.Masking.{masked as masked_text};
ghost use Rattle.report_texts.specs.Masked.{masked_act as act_of, masked_request as request_of, masked_pair as pair_of, masked_command as command_of, masked_place as place_of, shown_report as shown_of, AllMasked, IsMasked, MaskedAt};

use dialogue_sched::Reports;
use secret_words::{Secret, masked};
use session::{Act, ErrorPlace, ErrorPlaces, Pairs, Report, Request, Requests};
use std::alloc::{AllocError, Global};
use std::mem;
use tcl_words::{Text, Texts};

/// Returns the words of a program with names in place of secrets.
fn masked_words(alloc: Global, secrets: &[Secret], words: &[Text]) -> Result<Texts, AllocError>
    ensures { IfOk result (λ ts. ts ≡ map (masked_text secrets.now) words.now) }
{
    let mut made = Texts::new(alloc);
    for word in words {
        made.push(masked(alloc, secrets, word.as_slice())?)?;
    }
    Ok(made)
}

fn masked_act(alloc: Global, secrets: &[Secret], act: &Act) -> Result<Act, AllocError>
    ensures { IfOk result (λ a. a ≡ act_of secrets.now act.now) }
{
    match act {
        Act::Spawn(words) => Ok(Act::Spawn(masked_words(alloc, secrets, words.as_slice())?)),
        Act::Write(bytes) => Ok(Act::Write(masked(alloc, secrets, bytes.as_slice())?)),
        Act::End => Ok(Act::End),
        Act::Close => Ok(Act::Close),
        Act::Wait => Ok(Act::Wait),
    }
}

/// Returns requests with names in place of secrets.
pub fn masked_requests(
    alloc: Global,
    secrets: &[Secret],
    requests: &[Request],
) -> Result<Requests, AllocError>
    ensures { IfOk result (λ rs. rs ≡ map (request_of secrets.now) requests.now) }
{
    let mut made = Requests::new(alloc);
    for request in requests {
        let act = masked_act(alloc, secrets, &request.act)?;
        made.push(Request {
            child: request.child,
            act,
        })?;
    }
    Ok(made)
}

/// Returns variables with names in place of secrets.
fn masked_pairs(
    alloc: Global,
    secrets: &[Secret],
    pairs: &[(Text, Text)],
) -> Result<Pairs, AllocError>
    ensures { IfOk result (λ ps. ps ≡ map (pair_of secrets.now) pairs.now) }
{
    let mut made = Pairs::new(alloc);
    for pair in pairs {
        let name = masked(alloc, secrets, pair.0.as_slice())?;
        made.push(name, masked(alloc, secrets, pair.1.as_slice())?)?;
    }
    Ok(made)
}

/// Returns the first bytes of a text, at most `count`.
fn front_of(text: &[u8], count: usize) -> &[u8]
    ensures { result.now ≡ take count text.now }
{
    &text[..count.min(text.len())]
}

/// Returns the rest of a text from a place on.
fn rest_of(text: &[u8], from: usize) -> &[u8]
    ensures { result.now ≡ drop from text.now }
{
    if text.len() <= from {
        return &[];
    }
    &text[from..]
}

/// Returns the place of a command in the text of a script, both with names in place of secrets.
fn masked_command(
    alloc: Global,
    secrets: &[Secret],
    script: &[u8],
    at: usize,
) -> Result<ErrorPlace, AllocError>
    ensures { IfOk result (λ p. p ≡ command_of secrets.now script.now at) }
{
    let mut text = masked(alloc, secrets, front_of(script, at))?;
    let begins = text.len();
    let rest = masked(alloc, secrets, rest_of(script, at))?;
    text.extend(rest.as_slice())?;
    Ok(ErrorPlace::Command {
        script: text,
        at: begins,
    })
}

fn masked_place(
    alloc: Global,
    secrets: &[Secret],
    place: &ErrorPlace,
) -> Result<ErrorPlace, AllocError>
    ensures { IfOk result (λ p. p ≡ place_of secrets.now place.now) }
{
    match place {
        ErrorPlace::Command { script, at } => {
            masked_command(alloc, secrets, script.as_slice(), *at)
        }
        ErrorPlace::Procedure { name } => Ok(ErrorPlace::Procedure {
            name: masked(alloc, secrets, name.as_slice())?,
        }),
    }
}

/// Returns the places that an error passed, with names in place of secrets.
fn masked_places(
    alloc: Global,
    secrets: &[Secret],
    places: &[ErrorPlace],
) -> Result<ErrorPlaces, AllocError>
    ensures { IfOk result (λ ps. ps ≡ map (place_of secrets.now) places.now) }
{
    let mut list = Vec::new(alloc);
    for place in places {
        let Ok(()) = list.push(masked_place(alloc, secrets, place)?) else {
            return Err(AllocError);
        };
    }
    Ok(ErrorPlaces { list })
}

/// Returns a report with names in place of secrets.
fn shown_report(alloc: Global, secrets: &[Secret], report: &Report) -> Result<Report, AllocError>
    ensures { IfOk result (λ r. r ≡ shown_of secrets.now report.now) }
{
    Ok(Report {
        ending: report.ending,
        fault: masked(alloc, secrets, report.fault.as_slice())?,
        trail: masked_places(alloc, secrets, report.trail.as_slice())?,
        transcript: masked(alloc, secrets, report.transcript.as_slice())?,
        vars: masked_pairs(alloc, secrets, report.vars.as_slice())?,
        requests: masked_requests(alloc, secrets, report.requests.as_slice())?,
        sent: report.sent.copied(alloc)?,
        steps: report.steps,
        starting: report.starting,
    })
}

/// Returns a report with names in place of secrets. Without secrets it is unchanged. If memory is
/// refused, returns the report of a script that was refused memory.
pub fn masked_report(alloc: Global, secrets: &[Secret], report: Report) -> Report
    ensures { IsMasked secrets.now report result }
{
    if secrets.is_empty() {
        return report;
    }
    match shown_report(alloc, secrets, &report) {
        Ok(shown) => shown,
        Err(_) => Report::of_memory(alloc),
    }
}

/// Puts names in place of secrets in the report at an index.
fn mask_at(alloc: Global, secrets: &[Secret], reports: &mut Vec<Report>, i: usize)
    requires { i < vec_len reports.old }
    ensures masked { MaskedAt secrets.now i reports.old.items reports.new.items }
    ensures same { vec_len reports.new ≡ vec_len reports.old }
{
    let place = &mut reports[i];
    let report = mem::replace(&mut *place, Report::of_memory(alloc));
    *place = masked_report(alloc, secrets, report);
}

/// Puts names in place of secrets in each report.
fn mask_all(alloc: Global, secrets: &[Secret], reports: &mut Vec<Report>)
    ensures masked { AllMasked secrets.now reports.old.items reports.new.items }
    ensures same { vec_len reports.new ≡ vec_len reports.old }
{
    for i in 0..reports.len() {
        mask_at(alloc, secrets, reports, i);
    }
}

/// Returns reports with names in place of secrets, each as `masked_report` does.
pub fn masked_reports(alloc: Global, secrets: &[Secret], reports: Reports) -> Reports
    ensures masked { AllMasked secrets.now reports result }
    ensures count { length result ≡ length reports }
{
    let Reports { mut list } = reports;
    mask_all(alloc, secrets, &mut list);
    Reports { list }
}
