//! Tool runs: a command starts a program, takes all its output, and waits for its end.

ghost use Rattle.std.specs.Prelude.{◌≡◌, ◌∷◌, [], None, if◌then◌else◌, IfOk, OnOk};
ghost use Rattle.tcl_results.specs.Says.{Says};
ghost use Rattle.expect_core.specs.Answered.{failure as failure_of};
ghost use Rattle.expect_core.specs.Tools.{asking as asking_of, behind as behind_of, cause_by as cause_by_of, changed as changed_of, ended_badly as ended_badly_of, executed as executed_of, failed as failed_of, fed as fed_of, first_complaint, gathered, gathering as gathering_of, is_well as is_well_of, lined as lined_of, made as made_of, named as named_of, opening as opening_of, piping as piping_of, says as says_of, shown as shown_of, sourced as sourced_of, starting as starting_of, tested as tested_of, tested_by as tested_by_of, tool_answered as tool_answered_of, tool_heard as tool_heard_of, tool_over as tool_over_of, tool_piece as tool_piece_of, tool_started as tool_started_of, tooling, unread_by as unread_by_of};

use crate::day::dated;
use crate::dialogue::failure;
use crate::effect::{Effect, Effects};
use crate::own::Own;
use crate::place::Place;
use crate::reading::{name_at, plain_lines, with_newline, without_newline};
use crate::request::Act;
use crate::stat::{fielded, stated};
use crate::texts::with_cause;
use crate::tool::{Job, Stride, Tool, ToolRun};
use crate::turn::{Aim, Deed, Next, Purpose, Reaction, done};
use child_events::{Answer, Cause, Item};
use std::alloc::{AllocError, Global};
use tcl_host::Pile;
use tcl_results::Complaint;
use tcl_values::Value;
use tcl_words::{Text, Texts};
use tty::{Action, Modes};

/// The most bytes of output.
const MOST_BYTES: usize = 1_048_576;

/// Returns a run whose program has written nothing yet.
fn run_of(alloc: Global, failing: Text, job: Job) -> ToolRun
    ensures { result ≡ record { failing = failing; job = job; bytes = []; broken = None } }
{
    ToolRun {
        failing,
        job,
        bytes: Text::new(alloc),
        broken: None,
    }
}

/// Returns the effects that add a child and request its start.
fn start(alloc: Global, words: Texts) -> Result<Effects, AllocError>
    ensures { IfOk result (λ e. e ≡ starting_of words) }
{
    Effects::one(alloc, Effect::Add(Modes::bare()))?.with(Effect::Ask(Act::Spawn(words)))
}

/// Returns what starts a run, or an error if there are 16 children.
pub(crate) fn tool(alloc: Global, tool: Tool, own: &Own) -> Result<Deed, Complaint>
    ensures { Says result (tooling tool own.now) }
{
    let Some(i) = Place::new(own.children.len()) else {
        let text = Text::from_slice(alloc, b"too many spawned children")?;
        return Err(Complaint::Said(text));
    };
    let effects = start(alloc, tool.words)?;
    let run = run_of(alloc, tool.failing, tool.job);
    let next = Next::Await(Purpose::Tool(Stride::Start, run));
    Ok(Deed::To(i, Reaction { effects, next }))
}

/// Returns a request of a run.
fn ask(alloc: Global, act: Act, stride: Stride, run: ToolRun) -> Result<Reaction, AllocError>
    ensures { IfOk result (λ r. r ≡ asking_of act stride run) }
{
    Ok(Reaction {
        effects: Effects::one(alloc, Effect::Ask(act))?,
        next: Next::Await(Purpose::Tool(stride, run)),
    })
}

/// Returns the wait for the next item of a run.
fn hear(alloc: Global, run: ToolRun) -> Reaction
    ensures { result ≡ record { effects = []; next = Next.Hear (Aim.Tool run) } }
{
    Reaction {
        effects: Effects::new(alloc),
        next: Next::Hear(Aim::Tool(run)),
    }
}

/// Returns the error of a run.
pub(crate) fn failed(alloc: Global, run: &ToolRun, cause: Cause) -> Result<Reaction, AllocError>
    ensures { IfOk result (λ r. r ≡ failed_of run.now cause) }
{
    let text = with_cause(alloc, run.failing.as_slice(), cause)?;
    Reaction::badly(alloc, Effects::new(alloc), text)
}

/// Returns the request that writes the first text for standard error.
fn complain(alloc: Global, text: &Text) -> Result<Reaction, AllocError>
    ensures { IfOk result (λ r. r ≡ first_complaint text.now) }
{
    let effects = Effects::one(alloc, Effect::Errors)?.with(Effect::Ask(Act::Write(text.copied(
        alloc,
    )?)))?;
    let action = Action::Write(text.copied(alloc)?);
    let next = Next::Await(Purpose::Send(action, Pile::new(alloc), None));
    Ok(Reaction { effects, next })
}

/// Returns what follows the start of a program.
fn fed(alloc: Global, run: ToolRun) -> Result<Reaction, AllocError>
    ensures { IfOk result (λ r. r ≡ fed_of run.job run) }
{
    match &run.job {
        Job::Writer => Ok(hear(alloc, run)),
        Job::Complainer(text) => complain(alloc, text),
        _ => ask(alloc, Act::End, Stride::Fed, run),
    }
}

/// Returns what follows the answer to the request that starts a program.
fn tool_started(alloc: Global, run: ToolRun, cause: Option<Cause>) -> Result<Reaction, AllocError>
    ensures { IfOk result (λ r. r ≡ tool_started_of run cause) }
{
    match cause {
        None => fed(alloc, run),
        Some(cause) => failed(alloc, &run, cause),
    }
}

/// Returns what follows a piece of output, given the run with it. Too much output is an error.
fn gathering(alloc: Global, run: ToolRun) -> Result<Reaction, AllocError>
    ensures { IfOk result (λ r. r ≡ gathering_of run) }
{
    if MOST_BYTES < run.bytes.len() {
        let text = Text::from_slice(alloc, b"value too long")?;
        return Reaction::badly(alloc, Effects::new(alloc), text);
    }
    Ok(hear(alloc, run))
}

impl ToolRun {
    /// Appends a piece of output.
    fn gather(&mut self, piece: &[u8]) -> Result<(), AllocError>
        ensures { OnOk result (self.new ≡ gathered piece.now self.old) }
    {
        self.bytes.extend(piece)
    }
}

/// Returns the end of a command that opens a channel. Its value is the name of the channel.
fn named(alloc: Global, i: Place, effect: Effect) -> Result<Reaction, AllocError>
    ensures { IfOk result (λ r. r ≡ named_of i (effect ∷ [])) }
{
    let name = Value::from_text(alloc, name_at(alloc, i)?)?;
    Ok(Reaction {
        effects: Effects::one(alloc, effect)?,
        next: Next::Finish(done(name)),
    })
}

/// Returns what follows a piece of output.
fn tool_piece(alloc: Global, run: ToolRun, i: Place, piece: &[u8]) -> Result<Reaction, AllocError>
    ensures { IfOk result (λ r. r ≡ tool_piece_of run.job run i piece.now) }
{
    match &run.job {
        Job::Writer => named(alloc, i, Effect::Writer),
        _ => {
            let mut run = run;
            run.gather(piece)?;
            gathering(alloc, run)
        }
    }
}

/// Returns what follows an item of a run.
pub(crate) fn tool_heard(
    alloc: Global,
    run: ToolRun,
    i: Place,
    item: &Item,
) -> Result<Reaction, AllocError>
    ensures { IfOk result (λ r. r ≡ tool_heard_of run i item.now) }
{
    match item {
        Item::Out(piece) => tool_piece(alloc, run, i, piece.as_slice()),
        Item::Eof => ask(alloc, Act::Close, Stride::Shut, run),
        Item::ReadFail(cause) => {
            let mut run = run;
            run.broken = Some(*cause);
            ask(alloc, Act::Close, Stride::Shut, run)
        }
    }
}

/// Returns whether a program ended with status 0.
pub(crate) fn is_well(answer: Answer) -> bool
    ensures { result ≡ is_well_of answer }
{
    match answer {
        Answer::Exit(status) => status == 0,
        Answer::Killed => false,
        Answer::Ok => false,
        Answer::Fail(_) => false,
    }
}

/// Returns the text that says how a program ended that didn't end well.
fn ended_badly(answer: Answer) -> &'static [u8]
    ensures { result.now ≡ ended_badly_of answer }
{
    match answer {
        Answer::Killed => b"child killed: unknown signal",
        Answer::Exit(_) => b"child process exited abnormally",
        Answer::Ok => b"child process exited abnormally",
        Answer::Fail(_) => b"child process exited abnormally",
    }
}

/// Returns why a file was not read, by the status of the program that reads it.
fn cause_by(status: u8) -> Cause
    ensures { result ≡ cause_by_of status }
{
    if status == 2 {
        Cause::NotFound
    } else if status == 13 {
        Cause::Denied
    } else {
        Cause::Other
    }
}

/// Returns why a file was not read, by the end of the program that reads it.
fn unread_by(answer: Answer) -> Cause
    ensures { result ≡ unread_by_of answer }
{
    match answer {
        Answer::Exit(status) => cause_by(status),
        Answer::Killed => Cause::Other,
        Answer::Ok => Cause::Other,
        Answer::Fail(_) => Cause::Other,
    }
}

/// Returns the end of a command with this value.
pub(crate) fn says(alloc: Global, value: Value) -> Reaction
    ensures { result ≡ says_of value }
{
    Reaction {
        effects: Effects::new(alloc),
        next: Next::Finish(done(value)),
    }
}

/// Returns an error text behind the output of a program.
fn behind(alloc: Global, output: &[u8], text: &[u8]) -> Result<Text, AllocError>
    ensures { IfOk result (λ t. t ≡ behind_of output.now text.now) }
{
    match output {
        [] => Text::from_slice(alloc, text),
        [_, ..] => {
            let mut all = Text::from_slice(alloc, output)?;
            all.push(b'\n')?;
            all.extend(text)?;
            Ok(all)
        }
    }
}

/// Returns the end of an `exec`.
fn executed(
    alloc: Global,
    keep: bool,
    run: &ToolRun,
    answer: Answer,
) -> Result<Reaction, AllocError>
    ensures { IfOk result (λ r. r ≡ executed_of keep run.now answer) }
{
    let bytes = run.bytes.as_slice();
    if is_well(answer) {
        let value = with_newline(keep, bytes);
        return Ok(says(alloc, Value::from_slice(alloc, value)?));
    }
    let text = behind(alloc, without_newline(bytes), ended_badly(answer))?;
    Reaction::badly(alloc, Effects::new(alloc), text)
}

/// Returns the end of a `system`.
fn shown(alloc: Global, run: ToolRun, answer: Answer) -> Result<Reaction, AllocError>
    ensures { IfOk result (λ r. r ≡ shown_of run answer) }
{
    let effects = Effects::one(alloc, Effect::Tell(run.bytes))?;
    if is_well(answer) {
        return Ok(Reaction::well(alloc, effects));
    }
    let text = Text::from_slice(alloc, b"child process exited abnormally")?;
    Reaction::badly(alloc, effects, text)
}

/// Returns what follows when `source` has read a file.
fn sourced(alloc: Global, run: ToolRun, answer: Answer) -> Result<Reaction, AllocError>
    ensures { IfOk result (λ r. r ≡ sourced_of run answer) }
{
    if is_well(answer) {
        return Ok(Reaction {
            effects: Effects::new(alloc),
            next: Next::Evaluate(run.bytes),
        });
    }
    failed(alloc, &run, unread_by(answer))
}

/// Returns the end of a test, by the status of test(1).
fn tested_by(alloc: Global, run: &ToolRun, status: u8) -> Result<Reaction, AllocError>
    ensures { IfOk result (λ r. r ≡ tested_by_of run.now status) }
{
    if status == 0 {
        Ok(says(alloc, Value::from_slice(alloc, b"1")?))
    } else if status == 1 {
        Ok(says(alloc, Value::from_slice(alloc, b"0")?))
    } else {
        failed(alloc, run, Cause::Other)
    }
}

/// Returns the end of a test.
fn tested(alloc: Global, run: &ToolRun, answer: Answer) -> Result<Reaction, AllocError>
    ensures { IfOk result (λ r. r ≡ tested_of run.now answer) }
{
    match answer {
        Answer::Exit(status) => tested_by(alloc, run, status),
        Answer::Killed => failed(alloc, run, Cause::Other),
        Answer::Ok => failed(alloc, run, Cause::Other),
        Answer::Fail(_) => failed(alloc, run, Cause::Other),
    }
}

/// Returns the end of a command whose value is the output without its last newline.
fn lined(alloc: Global, run: &ToolRun, answer: Answer) -> Result<Reaction, AllocError>
    ensures { IfOk result (λ r. r ≡ lined_of run.now answer) }
{
    if is_well(answer) {
        let value = without_newline(run.bytes.as_slice());
        return Ok(says(alloc, Value::from_slice(alloc, value)?));
    }
    failed(alloc, run, Cause::Other)
}

/// Returns the end of a change of files.
fn changed(alloc: Global, run: &ToolRun, answer: Answer) -> Result<Reaction, AllocError>
    ensures { IfOk result (λ r. r ≡ changed_of run.now answer) }
{
    if is_well(answer) {
        return Ok(Reaction::well(alloc, Effects::new(alloc)));
    }
    failed(alloc, run, Cause::Other)
}

/// Returns the end of an `open` that reads a file.
fn opening(alloc: Global, run: &ToolRun, i: Place, answer: Answer) -> Result<Reaction, AllocError>
    ensures { IfOk result (λ r. r ≡ opening_of run.now i answer) }
{
    if is_well(answer) {
        let bytes = plain_lines(alloc, run.bytes.as_slice())?;
        return named(alloc, i, Effect::Reader(bytes, Text::new(alloc)));
    }
    failed(alloc, run, unread_by(answer))
}

/// Returns the error text for the `close` of a channel whose program ended. No bytes if it ended
/// well.
fn close_text(alloc: Global, answer: Answer) -> Result<Text, AllocError>
    ensures { IfOk result (λ t. t ≡ (if is_well_of answer then [] else ended_badly_of answer)) }
{
    if is_well(answer) {
        return Ok(Text::new(alloc));
    }
    Text::from_slice(alloc, ended_badly(answer))
}

/// Returns the end of an `open` that reads what a program writes.
fn piping(alloc: Global, run: &ToolRun, i: Place, answer: Answer) -> Result<Reaction, AllocError>
    ensures { IfOk result (λ r. r ≡ piping_of run.now i answer) }
{
    let bytes = plain_lines(alloc, run.bytes.as_slice())?;
    let ended = close_text(alloc, answer)?;
    named(alloc, i, Effect::Reader(bytes, ended))
}

/// Returns the end of a run whose output was read to its end.
fn made(alloc: Global, run: ToolRun, i: Place, answer: Answer) -> Result<Reaction, AllocError>
    ensures { IfOk result (λ r. r ≡ made_of run.job run i answer) }
{
    match &run.job {
        Job::Exec(keep) => executed(alloc, *keep, &run, answer),
        Job::System => shown(alloc, run, answer),
        Job::Source => sourced(alloc, run, answer),
        Job::Test => tested(alloc, &run, answer),
        Job::Field(n) => fielded(alloc, *n, &run, answer),
        Job::Stat(name) => stated(alloc, name.as_slice(), &run, answer),
        Job::Change => changed(alloc, &run, answer),
        Job::Line => lined(alloc, &run, answer),
        Job::Day(unit) => dated(alloc, *unit, &run, answer),
        Job::Reader => opening(alloc, &run, i, answer),
        Job::Pipe => piping(alloc, &run, i, answer),
        Job::Writer => failed(alloc, &run, Cause::Other),
        Job::Complainer(_) => failed(alloc, &run, Cause::Other),
    }
}

/// Returns the end of a run.
fn tool_over(alloc: Global, run: ToolRun, i: Place, answer: Answer) -> Result<Reaction, AllocError>
    ensures { IfOk result (λ r. r ≡ tool_over_of run i answer run.broken) }
{
    match run.broken {
        None => made(alloc, run, i, answer),
        Some(cause) => {
            let text = with_cause(alloc, b"read failed", cause)?;
            Reaction::badly(alloc, Effects::new(alloc), text)
        }
    }
}

/// Returns what follows the answer to a request of a run. Those to the end of the input and to the
/// close decide nothing.
pub(crate) fn tool_answered(
    alloc: Global,
    stride: Stride,
    run: ToolRun,
    i: Place,
    answer: Answer,
) -> Result<Reaction, AllocError>
    ensures { IfOk result (λ r. r ≡ tool_answered_of stride run i answer (failure_of answer)) }
{
    match stride {
        Stride::Start => tool_started(alloc, run, failure(answer)),
        Stride::Fed => Ok(hear(alloc, run)),
        Stride::Shut => ask(alloc, Act::Wait, Stride::Gone, run),
        Stride::Gone => tool_over(alloc, run, i, answer),
    }
}
