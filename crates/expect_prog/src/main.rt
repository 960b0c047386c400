//! Runs scripts, or replays them over a log, and prints their reports. Also runs a script as a
//! command, shows, explains and plans logs, and checks scripts.
#![tactic(auto)]

mod account;
mod alone;
mod complaint;
mod each;
mod files;
mod folder;
mod names;
mod outcome;
mod part;
mod running;
mod secrets;
mod sized;
mod standard;
mod variables;

use crate::alone::run_alone;
use crate::complaint::{Complaint, tell};
use crate::files::{check_files, explain_files, plan_file, replay_files, show_file};
use crate::running::run_files;
use crate::standard::{Patient, is_unread, open_closed};
use command_line::{Order, read_words};
use report_texts::{Escaping, push_text};
use std::alloc::{AllocError, Global};
use std::env;
use std::env::Env;
use std::io::{ErrorKind, IsTerminal};
use std::process::ExitCode;
use tcl_words::Text;

/// The exit status after an error.
const FAULT: u8 = 2;

/// The exit status if standard output has no reader: that of a program that SIGPIPE ended.
const UNREAD: u8 = 141;

fn complain(rt: &impl Eprint, alloc: Global, complaint: &Complaint<'_>) -> ExitCode {
    tell(rt, alloc, complaint);
    ExitCode::from(FAULT)
}

fn words(rt: &(impl Env + AllocGlobal), alloc: Global) -> Result<Vec<String>, Complaint<'static>> {
    match env::args(rt) {
        Ok(words) => Ok(words.collect(alloc)?),
        Err(e) => {
            if e.kind() == ErrorKind::OutOfMemory {
                return Err(Complaint::Memory);
            }
            Err(Complaint::Words)
        }
    }
}

/// Prints a usage error, with control characters escaped.
fn told_usage(rt: &impl Eprint, alloc: Global, error: &clap::Error) -> Result<(), AllocError> {
    let raw = error.to_string(alloc)?;
    let mut text = Text::new(alloc);
    push_text(alloc, &mut text, Escaping::Lines, raw.as_bytes())?;
    let _ = eprint!(rt; "{}", std::str::from_utf8(text.as_slice()).unwrap_or(""));
    Ok(())
}

/// Prints the requested help, or a usage error.
fn show(rt: &(impl Print + Eprint), alloc: Global, error: &clap::Error) -> ExitCode {
    if error.kind() == clap::error::ErrorKind::OutOfMemory {
        return complain(rt, alloc, &Complaint::Memory);
    }
    if error.use_stderr() {
        return match told_usage(rt, alloc, error) {
            Ok(()) => ExitCode::from(FAULT),
            Err(_) => complain(rt, alloc, &Complaint::Memory),
        };
    }
    match error.print(rt) {
        Ok(()) => ExitCode::from(u8::try_from(error.exit_code()).unwrap_or(FAULT)),
        Err(_) => complain(rt, alloc, &Complaint::Unwritten),
    }
}

fn main(rt: HostRuntime) -> ExitCode {
    open_closed(&rt);
    let words = match words(&rt, rt.alloc()) {
        Ok(words) => words,
        Err(complaint) => return complain(&rt, rt.alloc(), &complaint),
    };
    let mut order = match read_words(rt.alloc(), words.as_slice()) {
        Ok(order) => order,
        Err(error) => return show(&rt, rt.alloc(), &error),
    };
    if let Order::Run(run) = &mut order {
        run.show_once(rt.stdout().is_terminal() && rt.stderr().is_terminal());
    }
    let outcome = match &mut order {
        Order::Replay(replay) => replay_files(&rt, rt.alloc(), replay),
        Order::Run(run) => run_files(rt, rt.alloc(), run, rt.stderr(), Patient(rt.stdout())),
        Order::Script(alone) => run_alone(rt, rt.alloc(), alone, rt.stderr(), Patient(rt.stdout())),
        Order::Show(show) => show_file(&rt, rt.alloc(), show),
        Order::Plan(plan) => plan_file(&rt, rt.alloc(), plan),
        Order::Check(check) => check_files(&rt, rt.alloc(), check),
        Order::Explain(explain) => explain_files(&rt, rt.alloc(), explain),
    };
    match outcome {
        Ok(outcome) => ExitCode::from(outcome.status()),
        Err(Complaint::Unwritten) if is_unread() => ExitCode::from(UNREAD),
        Err(complaint) => complain(&rt, rt.alloc(), &complaint),
    }
}
