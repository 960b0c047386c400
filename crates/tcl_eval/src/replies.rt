//! Continues a machine by the host's replies.

ghost use Rattle.std.specs.Prelude.{◌≡◌, ℕ, ◌+◌, ◌<◌, ◌*◌, [], IfOk, false, ◌≤◌, take};
ghost use Rattle.tcl_eval.specs.Asked.{WaitsAt, GoesDown, IsAskingOnPause};
ghost use Rattle.tcl_eval.specs.Rest.{body_for, words_for, unknown_for, frame_rest, rest_of, RestIs};
ghost use Rattle.tcl_host.specs.Calls.{Stepped};
ghost use Rattle.tcl_eval.specs.Tree.{follow};
ghost use Rattle.tcl_eval.specs.Potential.{potential, bodies, call_credit, credit, again};
ghost use Rattle.tcl_eval.specs.Meaning.{eval, after_body, words_in, once_more, next_body};

use crate::engine::Engine;
use crate::frame::{Asked, Call, End, Frame, Mode, Then};
use crate::procs::no_command;
use std::alloc::{AllocError, Global};
use tcl_host::{HostStep, Values};
use tcl_results::Code;
use tcl_values::Value;

/// Returns a result that continues with this mode.
pub(crate) fn on(mode: Mode) -> Asked
    ensures { result ≡ record { mode = mode; paused = false } }
{
    Asked {
        mode,
        paused: false,
    }
}

/// Returns the error of a command that the host doesn't know.
fn unknown_for(alloc: Global, call: &Call) -> Result<Value, AllocError>
    ensures { IfOk result (λ v. v ≡ unknown_for call.now) }
{
    match call {
        Call::Begin(words) => no_command(alloc, words),
        Call::AfterWords(_) => Ok(Value::new(alloc)),
        Call::AfterBody { .. } => Ok(Value::new(alloc)),
    }
}

/// Returns the first of these words, if there is one.
fn first_of(alloc: Global, words: &Values) -> Result<Values, AllocError>
    ensures { IfOk result (λ v. v ≡ take 1 words.now) }
{
    let mut first = Values::new(alloc);
    if let [word, ..] = words.as_slice() {
        first.push(word.shared(alloc)?)?;
    }
    Ok(first)
}

impl Engine {
    /// Begins a script that the host asked for. `bound` is the number of further scripts that it
    /// may ask for.
    #[tactic(auto, unfolding(crate::specs::Rest::frame_rest))]
    fn host_body(&mut self, text: Value, bound: u64, depth: u32) -> Result<Mode, AllocError>
        ensures rest { RestIs self.old result self.new (λ k st. eval depth text (after_body (eval depth) k bound) st) }
        ensures potential { IfOk result (λ mode. bodies self.new.stack + credit mode ≤ bodies self.old.stack + 4) }
        ensures less { self.new.left ≤ self.old.left }
    {
        let script = self.read.script_of(self.alloc, &text)?;
        self.stack.push(Frame::HostBody { bound, depth })?;
        Ok(Mode::Run { script, depth })
    }

    /// Begins the substitution of the words of a text that the host asked for. They follow the first
    /// of the command's words.
    fn host_words(&mut self, words: &Values, text: Value, depth: u32) -> Result<Mode, AllocError>
        ensures rest { RestIs self.old result self.new (λ k st. words_in (eval depth) (take 1 words.now) k text st) }
        ensures potential { IfOk result (λ mode. potential self.new mode ≤ 8 * self.old.left + bodies self.old.stack + 5) }
        ensures less { self.new.left ≤ self.old.left }
    {
        let script = self.read.script_of(self.alloc, &text)?;
        let done = first_of(self.alloc, words)?;
        let (words, fault) = script.all_words(self.alloc)?;
        let out = self.words_from(&words, 0, done, Then::List(fault), depth);
        let mode = self.settle_by(out)?;
        Ok(mode)
    }

    /// Processes the host's reply to a call.
    pub(crate) fn take(
        &mut self,
        call: Call,
        depth: u32,
        step: HostStep,
    ) -> Result<Asked, AllocError>
        ensures rest { IfOk result (λ a. rest_of self.new a.mode ≡ follow (rest_of self.old (Mode.Call call depth false)) (Stepped step self.old.vars)) }
        ensures paused { IfOk result (λ a. WaitsAt a (Stepped step self.old.vars)) }
        ensures asking { IfOk result (λ a. IsAskingOnPause a) }
        ensures potential { IfOk result (λ a. GoesDown a (potential self.new a.mode) (8 * self.old.left + bodies self.old.stack + call_credit call)) }
        ensures less { self.new.left ≤ self.old.left }
    {
        match step {
            HostStep::Done(code, value) => Ok(on(Mode::Give(code, value))),
            HostStep::Fail(text) => Ok(on(Mode::Give(Code::Error, text))),
            HostStep::Body(text) => {
                let mode = self.body_for(&call, text, depth)?;
                Ok(on(mode))
            }
            HostStep::Words(text) => {
                let mode = self.words_for(&call, text, depth)?;
                Ok(on(mode))
            }
            HostStep::Wait => Ok(Asked {
                mode: Mode::Call {
                    call,
                    depth,
                    resumed: true,
                },
                paused: true,
            }),
            HostStep::Stop(ending) => Ok(on(Mode::Ended(End::Stopped(ending)))),
            HostStep::Unknown => {
                let text = unknown_for(self.alloc, &call)?;
                Ok(on(Mode::Give(Code::Error, text)))
            }
            HostStep::Memory => Ok(on(Mode::Ended(End::Memory))),
        }
    }

    /// Begins a script that the host asked for in its reply to a call.
    fn body_for(&mut self, call: &Call, text: Value, depth: u32) -> Result<Mode, AllocError>
        ensures rest { RestIs self.old result self.new (λ k st. body_for (eval depth) call.now k text st) }
        ensures potential { IfOk result (λ mode. bodies self.new.stack + credit mode < bodies self.old.stack + call_credit call.now) }
        ensures less { self.new.left ≤ self.old.left }
    {
        match call {
            Call::Begin(_) => self.host_body(text, self.left, depth),
            Call::AfterWords(_) => self.host_body(text, self.left, depth),
            Call::AfterBody { code, bound, .. } => self.body_again(*code, text, *bound, depth),
        }
    }

    /// Begins the substitution of words that the host asked for in its reply to a call.
    fn words_for(&mut self, call: &Call, text: Value, depth: u32) -> Result<Mode, AllocError>
        ensures rest { RestIs self.old result self.new (λ k st. words_for (eval depth) call.now k text st) }
        ensures potential { IfOk result (λ mode. potential self.new mode < 8 * self.old.left + bodies self.old.stack + call_credit call.now) }
        ensures less { self.new.left ≤ self.old.left }
    {
        match call {
            Call::Begin(words) => self.host_words(words, text, depth),
            Call::AfterWords(_) => Ok(Mode::Give(Code::Error, text)),
            Call::AfterBody { .. } => Ok(Mode::Give(Code::Error, text)),
        }
    }

    /// Begins another script of the host, at the two codes that allow one.
    fn body_again(
        &mut self,
        code: Code,
        text: Value,
        bound: u64,
        depth: u32,
    ) -> Result<Mode, AllocError>
        ensures rest { RestIs self.old result self.new (λ k st. once_more code (next_body (eval depth) k bound) k text st) }
        ensures potential { IfOk result (λ mode. bodies self.new.stack + credit mode < bodies self.old.stack + 3 + again code) }
        ensures less { self.new.left ≤ self.old.left }
    {
        match code {
            Code::Again => self.next_body(text, bound, depth),
            Code::AgainLater => self.next_body(text, bound, depth),
            _ => Ok(Mode::Give(Code::Error, text)),
        }
    }

    /// Begins another script of the host, if one is left.
    fn next_body(&mut self, text: Value, bound: u64, depth: u32) -> Result<Mode, AllocError>
        ensures rest { RestIs self.old result self.new (λ k st. next_body (eval depth) k bound text st) }
        ensures potential { IfOk result (λ mode. bodies self.new.stack + credit mode ≤ bodies self.old.stack + 4) }
        ensures less { self.new.left ≤ self.old.left }
    {
        if bound == 0 {
            return Ok(Mode::Ended(End::StepLimit));
        }
        let mode = self.host_body(text, bound - 1, depth)?;
        Ok(mode)
    }
}
