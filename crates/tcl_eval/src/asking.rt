//! Runs a machine with its host.

ghost use Rattle.std.specs.Prelude.{◌≡◌, ◌+◌, ◌≤◌, ◌<◌, ◌*◌, List, IfOk};
ghost use Rattle.tcl_eval.specs.Asked.{IsAskingOnPause, IsSettled, WaitsAt, GoesDown, PausesAt, OnPause, Falls};
ghost use Rattle.tcl_eval.specs.Rest.{host_call, rest_of};
ghost use Rattle.tcl_host.specs.Calls.{Reply, Stepped};
ghost use Rattle.tcl_eval.specs.Tree.{Answers, follow, Leads};
ghost use Rattle.tcl_eval.specs.Potential.{potential, bodies, credit};

use crate::engine::Engine;
use crate::frame::{Asked, Call, Mode};
use crate::out::came;
use crate::replies::on;
use std::alloc::AllocError;
use tcl_host::{Host, HostStep};
use tcl_values::Value;

impl Engine {
    /// Continues until the host is needed or the run has ended.
    fn settle(&mut self, mode: Mode) -> Result<Mode, AllocError>
        ensures rest { IfOk result (λ m. rest_of self.new m ≡ rest_of self.old mode) }
        ensures potential { IfOk result (λ m. potential self.new m ≤ potential self.old mode) }
        ensures settled { IfOk result IsSettled }
        ensures less { self.new.left ≤ self.old.left }
    {
        match mode {
            Mode::Give(code, value) => {
                let mode = self.settle_by(came(code, value))?;
                Ok(mode)
            }
            Mode::Run { script, depth } => {
                let out = self.script(&script, depth);
                let mode = self.settle_by(out)?;
                Ok(mode)
            }
            other => Ok(other),
        }
    }

    /// Calls the host, or resumes that call.
    fn call<H: Host>(&mut self, host: &mut H, call: &Call, resumed: bool) -> HostStep
        ensures answered { H.answers host.old (host_call resumed call.now self.old.vars) (Stepped result self.new.vars) host.new }
        ensures same { self.new ≡ record self.old { vars = self.new.vars } }
    {
        if resumed {
            return host.resume(&mut self.vars);
        }
        match call {
            Call::Begin(words) => host.begin(&mut self.vars, words),
            Call::AfterWords(words) => host.after_words(&mut self.vars, words),
            Call::AfterBody { code, value, .. } => host.after_body(&mut self.vars, *code, value),
        }
    }

    /// Asks the host whether it knows the name of a new procedure, and defines the procedure.
    fn ask_known<H: Host>(
        &mut self,
        host: &H,
        name: Value,
        formals: Value,
        body: Value,
    ) -> Result<Mode, AllocError>
        ensures answered { IfOk result (λ mode. (r : Reply) × Answers H.answers (rest_of self.old (Mode.Define name formals body)) host.now r host.now × (rest_of self.new mode ≡ follow (rest_of self.old (Mode.Define name formals body)) r)) }
        ensures potential { IfOk result (λ mode. bodies self.new.stack + credit mode < bodies self.old.stack + 6) }
        ensures less { self.new.left ≤ self.old.left }
    {
        let is_known = host.knows(name.as_slice());
        let mode = self.define(name, formals, body, is_known)?;
        Ok(mode)
    }

    /// Calls the host if it is needed, or carries out what has begun.
    fn ask<H: Host>(&mut self, host: &mut H, mode: Mode) -> Result<Asked, AllocError>
        ensures leads { IfOk result (λ a. (replies : List Reply) × Leads H.answers replies (rest_of self.old mode) host.old (rest_of self.new a.mode) host.new × OnPause a replies) }
        ensures potential { IfOk result (λ a. GoesDown a (potential self.new a.mode) (Falls mode (potential self.old mode))) }
        ensures less { self.new.left ≤ self.old.left }
    {
        match mode {
            Mode::Give(code, value) => Ok(on(Mode::Give(code, value))),
            Mode::Ended(end) => Ok(Asked {
                mode: Mode::Ended(end),
                paused: true,
            }),
            Mode::Run { script, depth } => Ok(on(Mode::Run { script, depth })),
            Mode::Call {
                call,
                depth,
                resumed,
            } => {
                let step = self.call(host, &call, resumed);
                let asked = self.take(call, depth, step)?;
                Ok(asked)
            }
            Mode::Define {
                name,
                formals,
                body,
            } => {
                let mode = self.ask_known(host, name, formals, body)?;
                Ok(on(mode))
            }
        }
    }

    /// Runs until the run has ended or the host paused.
    pub(crate) fn go<H: Host>(&mut self, host: &mut H, mode: Mode) -> Result<Asked, AllocError>
        ensures leads { IfOk result (λ a. (replies : List Reply) × Leads H.answers replies (rest_of self.old mode) host.old (rest_of self.new a.mode) host.new × PausesAt a.mode replies) }
        ensures less { self.new.left ≤ self.old.left }
    {
        let mut mode = mode;
        'rounds: loop {
            mode = self.settle(mode)?;
            let asked = self.ask(host, mode)?;
            if asked.paused {
                return Ok(asked);
            }
            mode = asked.mode;
        }
    }
}
