//! Shows the results of scripts.

ghost use Rattle.std.specs.Prelude.{◌≡◌, ◌≢◌, false, Err, IfOk};

use crate::calls::number;
use crate::complaint::Complaint;
use crate::hosts::{SmallHost, digit};
use crate::spell::{alloc_of, push_labelled, push_string};
use std::alloc::{AllocError, Global};
use tcl_eval::{Code, Machine, Meter, Pause};
use tcl_host::Ending;
use tcl_subst::Vars;
use tcl_values::Value;
use tcl_words::Text;

fn exit_text(alloc: Global, status: u8) -> Result<Text, AllocError> {
    let mut text = Text::from_slice(alloc, b"exit ")?;
    push_string(&mut text, format!(in alloc; "{status}"))?;
    Ok(text)
}

fn finished_text(alloc: Global, code: Code, value: &Value) -> Result<Text, AllocError> {
    let mut text = Text::from_slice(alloc, b"code ")?;
    text.push(digit(code))?;
    push_labelled(&mut text, b" value ", value.as_slice())?;
    Ok(text)
}

fn pause_text(alloc: Global, pause: &Pause) -> Result<Text, AllocError> {
    match pause {
        Pause::Finished(code, value) => finished_text(alloc, *code, value),
        Pause::Waits => Text::from_slice(alloc, b"waits"),
        Pause::Stopped(Ending::Exit(status)) => exit_text(alloc, *status),
        Pause::Stopped(Ending::Error) => Text::from_slice(alloc, b"halted"),
        Pause::Stopped(_) => Text::from_slice(alloc, b"stopped"),
        Pause::StepLimit => Text::from_slice(alloc, b"no step left"),
        Pause::Memory => Text::from_slice(alloc, b"no memory left"),
    }
}

/// Returns how a run ended. `Memory` is an end only if the script asked for it. Otherwise it is an
/// error.
fn shown_pause(alloc: Global, pause: &Pause, is_spent: bool) -> Result<Text, Complaint>
    ensures { pause.now ≡ Pause.Memory → is_spent ≡ false → result ≡ Err Complaint.Memory }
{
    match pause {
        Pause::Memory if !is_spent => Err(Complaint::Memory),
        _ => Ok(pause_text(alloc, pause)?),
    }
}

/// Runs until the end. Returns the end, and the number of pauses before it.
fn run_on(
    machine: &mut Machine,
    host: &mut SmallHost,
    meter: &mut Meter,
) -> Result<(Pause, u64), Complaint>
    ensures { IfOk result (λ r. r.0 ≢ Pause.Waits) }
{
    'runs: for waits in 0..u64::MAX {
        let pause = machine.run(host, meter);
        if !matches!(&pause, Pause::Waits) {
            return Ok((pause, waits));
        }
    }
    Err(Complaint::Call)
}

/// Returns how a run ended, and drops its pause.
fn shown_end(alloc: Global, pause: Pause, host: &SmallHost) -> Result<Text, Complaint> {
    shown_pause(alloc, &pause, host.is_spent)
}

/// Runs a machine that has ended once more. Returns whether the end is the same, and nothing else
/// changed.
fn stays(
    alloc: Global,
    machine: &mut Machine,
    host: &mut SmallHost,
    meter: &mut Meter,
    end: &Text,
) -> Result<bool, Complaint> {
    let (steps, calls, put) = (meter.count(), host.calls, host.output.len());
    let again = shown_end(alloc, machine.run(host, meter), host)?;
    if again.as_slice() != end.as_slice() {
        return Ok(false);
    }
    Ok(meter.count() == steps && host.calls == calls && host.output.len() == put)
}

/// Appends the output and the counts.
fn push_counts(
    text: &mut Text,
    host: &SmallHost,
    steps: u64,
    waits: u64,
) -> Result<(), AllocError> {
    let alloc = alloc_of(text);
    push_labelled(text, b" output ", host.output.as_slice())?;
    let calls = host.calls;
    push_string(
        text,
        format!(in alloc; " steps {steps} waits {waits} calls {calls}"),
    )
}

/// Appends a line with the result of a machine.
fn push_run(
    text: &mut Text,
    machine: &mut Machine,
    host: &mut SmallHost,
    meter: &mut Meter,
) -> Result<(), Complaint> {
    let alloc = alloc_of(text);
    let (pause, waits) = run_on(machine, host, meter)?;
    let end = shown_end(alloc, pause, host)?;
    text.extend(end.as_slice())?;
    push_counts(text, host, meter.count(), waits)?;
    let is_same = stays(alloc, machine, host, meter, &end)?;
    Ok(text.extend(if is_same { b" stays\n" } else { b" strays\n" })?)
}

/// Runs a script from its start.
fn push_script(text: &mut Text, bound: u64, waits: u8, source: &[u8]) -> Result<(), Complaint> {
    let alloc = alloc_of(text);
    let mut machine = Machine::new(alloc, source, Vars::new(alloc))?;
    let mut host = SmallHost::new(alloc, waits);
    push_run(text, &mut machine, &mut host, &mut Meter::new(bound))
}

/// Runs scripts. Each call contains a step limit, how often the host puts each of its calls off,
/// and a script. Appends a line for each: how the run ended, its output, the number of steps begun,
/// the number of pauses, and the number of calls that the host carried out. The line also says
/// whether another run changes nothing.
pub fn push_runs(text: &mut Text, calls: &[Vec<Text>]) -> Result<(), Complaint> {
    'calls: for call in calls {
        let [bound, waits, source] = call.as_slice() else {
            return Err(Complaint::Call);
        };
        push_script(text, number(bound)?, number(waits)?, source.as_slice())?;
    }
    Ok(())
}
