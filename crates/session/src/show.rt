//! The report of a paused machine.

ghost use Rattle.std.specs.Prelude.{◌≡◌, ◌-◌, [], map, IfOk, if◌then◌else◌};
ghost use Rattle.tcl_subst.specs.Report.{values_of};
ghost use Rattle.session.specs.Play.{ending_by, fault_by, ending_at as ending_told, ending_of as ending_meant, fault_at as fault_told, fault_of as fault_meant, trail_at as trail_told, trail_of as trail_meant, said_with, told};
ghost use Rattle.session.specs.Shown.{shown as shown_of};

use crate::place::ErrorPlaces;
use crate::report::{Counts, Report};
use expect_core::{DialogueHost, Pairs};
use std::alloc::{AllocError, Global};
use tcl_eval::{Code, End, Machine, Origin};
use tcl_host::Ending;
use tcl_results::script_code;
use tcl_subst::Vars;
use tcl_values::Value;
use tcl_words::Text;

fn ending_by(code: Code) -> Ending
    ensures { result ≡ ending_by code }
{
    match code {
        Code::Ok | Code::Return(_) => Ending::Exit(0),
        Code::Error => Ending::Error,
        Code::Break => Ending::Error,
        Code::Continue => Ending::Error,
        Code::Again => Ending::Error,
        Code::AgainLater => Ending::Error,
    }
}

fn ending_at(code: Code) -> Ending
    ensures { result ≡ ending_told code }
{
    ending_by(script_code(code))
}

fn fault_by(alloc: Global, code: Code, value: &Value) -> Result<Text, AllocError>
    ensures { IfOk result (λ t. t ≡ fault_by code value.now) }
{
    match code {
        Code::Ok | Code::Return(_) => Ok(Text::new(alloc)),
        Code::Error => Text::from_slice(alloc, value.as_slice()),
        Code::Break => Text::from_slice(alloc, b"invoked \"break\" outside of a loop"),
        Code::Continue => Text::from_slice(alloc, b"invoked \"continue\" outside of a loop"),
        Code::Again => Text::from_slice(alloc, b"exp_continue outside of expect"),
        Code::AgainLater => Text::from_slice(alloc, b"exp_continue outside of expect"),
    }
}

fn fault_at(alloc: Global, code: Code, value: &Value) -> Result<Text, AllocError>
    ensures { IfOk result (λ t. t ≡ fault_told code value.now) }
{
    fault_by(alloc, script_code(code), value)
}

/// Returns the ending of a script.
pub(crate) fn ending_of(end: &End) -> Ending
    ensures { result ≡ ending_meant end.now }
{
    match end {
        End::Finished(code, _) => ending_at(*code),
        End::Stopped(ending) => *ending,
        End::StepLimit => Ending::StepLimit,
        End::Memory => Ending::Memory,
    }
}

fn fault_of(alloc: Global, end: &End) -> Result<Text, AllocError>
    ensures { IfOk result (λ t. t ≡ fault_meant end.now) }
{
    match end {
        End::Finished(code, value) => fault_at(alloc, *code, value),
        End::Stopped(_) => Ok(Text::new(alloc)),
        End::StepLimit => Ok(Text::new(alloc)),
        End::Memory => Ok(Text::new(alloc)),
    }
}

/// Returns the places that the error passed which ended a script.
fn trail_at(alloc: Global, code: Code, trail: &[Origin]) -> Result<ErrorPlaces, AllocError>
    ensures { IfOk result (λ p. p ≡ trail_told code trail.now) }
{
    match code {
        Code::Error => ErrorPlaces::of(alloc, trail),
        _ => Ok(ErrorPlaces::new(alloc)),
    }
}

fn trail_of(alloc: Global, end: &End, trail: &[Origin]) -> Result<ErrorPlaces, AllocError>
    ensures { IfOk result (λ p. p ≡ trail_meant end.now trail.now) }
{
    match end {
        End::Finished(code, _) => trail_at(alloc, *code, trail),
        End::Stopped(_) => Ok(ErrorPlaces::new(alloc)),
        End::StepLimit => Ok(ErrorPlaces::new(alloc)),
        End::Memory => Ok(ErrorPlaces::new(alloc)),
    }
}

/// Returns the variables of a report.
fn told_vars(alloc: Global, tells: bool, vars: &Vars) -> Result<Pairs, AllocError>
    ensures { IfOk result (λ p. p ≡ (if tells then values_of vars.now.globals else [])) }
{
    if tells {
        Ok(Pairs {
            list: vars.globals()?,
        })
    } else {
        Ok(Pairs::new(alloc))
    }
}

fn said(
    alloc: Global,
    ending: Ending,
    fault: Text,
    trail: ErrorPlaces,
    steps: u64,
    vars: Pairs,
    dialogue: &DialogueHost,
) -> Result<Report, AllocError>
    ensures { IfOk result (λ r. r ≡ said_with ending fault trail steps vars dialogue.now) }
{
    Ok(Report {
        ending,
        fault,
        trail,
        transcript: Text::from_slice(alloc, dialogue.state().transcript())?,
        vars,
        requests: dialogue.state().requests_copied(alloc)?,
        sent: Counts {
            list: dialogue.state().sent(alloc)?,
        },
        steps,
        starting: dialogue.state().starting(),
    })
}

/// Returns the report of a paused machine.
pub(crate) fn shown(
    alloc: Global,
    bound: u64,
    tells: bool,
    machine: &Machine,
    left: u64,
    dialogue: &DialogueHost,
) -> Result<Report, AllocError>
    ensures { IfOk result (λ r. r ≡ told tells (shown_of bound machine.now.engine machine.now.mode left dialogue.now)) }
{
    let steps = bound.saturating_sub(left);
    let vars = told_vars(alloc, tells, machine.vars())?;
    match machine.end() {
        Some(end) => said(
            alloc,
            ending_of(end),
            fault_of(alloc, end)?,
            trail_of(alloc, end, machine.trail())?,
            steps,
            vars,
            dialogue,
        ),
        None => said(
            alloc,
            Ending::Waiting,
            Text::new(alloc),
            ErrorPlaces::new(alloc),
            steps,
            vars,
            dialogue,
        ),
    }
}

/// Returns the report as `said` does, but takes the transcript and the requests from the dialogue.
fn said_last(
    alloc: Global,
    ending: Ending,
    fault: Text,
    trail: ErrorPlaces,
    steps: u64,
    vars: Pairs,
    dialogue: &mut DialogueHost,
) -> Result<Report, AllocError>
    ensures { IfOk result (λ r. r ≡ said_with ending fault trail steps vars dialogue.old) }
{
    let counts = dialogue.state().sent(alloc)?;
    let starting = dialogue.state().starting();
    let (transcript, requests) = dialogue.give_told();
    Ok(Report {
        ending,
        fault,
        trail,
        transcript,
        vars,
        requests,
        sent: Counts { list: counts },
        steps,
        starting,
    })
}

/// Returns the report as `shown` does, but takes the transcript and the requests from the dialogue.
pub(crate) fn shown_last(
    alloc: Global,
    bound: u64,
    tells: bool,
    machine: &Machine,
    left: u64,
    dialogue: &mut DialogueHost,
) -> Result<Report, AllocError>
    ensures { IfOk result (λ r. r ≡ told tells (shown_of bound machine.now.engine machine.now.mode left dialogue.old)) }
{
    let steps = bound.saturating_sub(left);
    let vars = told_vars(alloc, tells, machine.vars())?;
    match machine.end() {
        Some(end) => said_last(
            alloc,
            ending_of(end),
            fault_of(alloc, end)?,
            trail_of(alloc, end, machine.trail())?,
            steps,
            vars,
            dialogue,
        ),
        None => said_last(
            alloc,
            Ending::Waiting,
            Text::new(alloc),
            ErrorPlaces::new(alloc),
            steps,
            vars,
            dialogue,
        ),
    }
}
