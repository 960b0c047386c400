//! Evaluates scripts by function calls. The work left is saved in frames only when a run stops.

ghost use Rattle.std.specs.Prelude.{◌≡◌, ℕ, ◌+◌, ◌++◌, ◌≤◌, ◌∷◌, List, [], drop, take, OnOk};
ghost use Rattle.tcl_scripts.specs.Commands.{commands};
ghost use Rattle.tcl_eval.specs.Handed.{handed_words};
ghost use Rattle.tcl_eval.specs.Meaning.{Next, eval, command, invoke, sequence, scope_end};
ghost use Rattle.tcl_eval.specs.Native.{not_called, other_command, ended, flow, owed, CameIs, Comes, Known, Spent};
ghost use Rattle.tcl_eval.specs.Rest.{frame_rest, now_of, then_rest};

use crate::engine::Engine;
use crate::frame::{Call, End, Frame, Mode, Then};
use crate::out::{Exception, Leave};
use crate::stops::{below, stopped};
use crate::trail::Origin;
use crate::values::Handed;
use std::alloc::AllocError;
use std::mem;
use tcl_control::{redefinable_verb, verb_of};
use tcl_host::Values;
use tcl_results::{too_deep, word_fault};
use tcl_scripts::{Reading, Script, Words};
use tcl_values::Value;

impl Engine {
    /// Evaluates a script.
    #[cycle(native)]
    pub(crate) fn script(&mut self, script: &Script, depth: u32) -> Result<Value, Leave>
        ensures measures { Spent self.old self.new 0 (owed 0 result) }
        ensures rest { CameIs self.old result self.new (λ k st. eval depth script.now k st) }
    {
        if depth == 0 {
            let text = self.value(too_deep())?;
            return Err(Leave::Gone(Exception::Error, text));
        }
        let value = Value::new(self.alloc);
        self.sequence(script, 0, depth - 1, value)
    }

    /// Evaluates the commands of a script from number `start` on. `last` is the value of the
    /// previous command.
    #[cycle(native)]
    pub(crate) fn sequence(
        &mut self,
        script: &Script,
        start: usize,
        depth: u32,
        last: Value,
    ) -> Result<Value, Leave>
        ensures measures { Spent self.old self.new 0 (owed 0 result) }
        ensures rest { CameIs self.old result self.new (λ k st. sequence (eval depth) script.now (drop start (commands script.now)) k last st) }
    {
        let mut next = start;
        let mut value = last;
        'commands: loop {
            let Some((reading, to)) = script.next(next) else {
                return Ok(value);
            };
            let given = self.step(script, reading, to, depth)?;
            drop(mem::replace(&mut value, given));
            next = to;
        }
    }

    /// Evaluates a command of a script, and adds it to the trail of an error.
    #[cycle(native)]
    #[tactic(auto, unfolding(crate::specs::Rest::frame_rest))]
    fn step(
        &mut self,
        script: &Script,
        reading: &Reading,
        to: usize,
        depth: u32,
    ) -> Result<Value, Leave>
        ensures measures { Spent self.old self.new 0 (owed 0 result) }
        ensures rest { (last : List ℕ) → Comes self.old result self.new (sequence (eval depth) script.now (drop to (commands script.now))) (λ k st. sequence (eval depth) script.now (reading.now ∷ drop to (commands script.now)) k last st) }
    {
        match reading {
            Reading::Malformed { at, fault } => {
                let text = self.value(word_fault(*fault))?;
                self.note(script, *at)?;
                Err(Leave::Gone(Exception::Error, text))
            }
            Reading::Command { at, words } => {
                let out = self.command(words, depth);
                self.behind_command(out, script, *at, to, depth)
            }
        }
    }

    /// Adds a command of a script to the trail of an error. `at` is the index in the text from
    /// which it was read.
    fn note(&mut self, script: &Script, at: usize) -> Result<(), AllocError>
        ensures noted { OnOk result (self.new ≡ record self.old { trail = take 31 self.old.trail ++ Origin.Command script.now at ∷ [] }) }
        ensures measures { Spent self.old self.new 0 0 }
    {
        let script = script.shared()?;
        self.trail.push(Origin::Command { script, at })?;
        Ok(())
    }

    /// Continues after a command of a script, and adds the command to the trail of an error.
    #[tactic(auto, using(crate::proofs::Natives::code_passes), unfolding(crate::specs::Rest::frame_rest))]
    pub(crate) fn behind_command(
        &mut self,
        out: Result<Value, Leave>,
        script: &Script,
        at: usize,
        next: usize,
        depth: u32,
    ) -> Result<Value, Leave>
        ensures measures { Spent self.old self.new (owed 0 out) (owed 0 result) }
        ensures known { Known result → Known out }
        ensures rest { Known result → (k : Next) → flow result (now_of self.new) k (sequence (eval depth) script.now (drop next (commands script.now)) k) ≡ ended out (now_of self.old) (frame_rest (Frame.Sequence script.now at next depth) k) }
    {
        match out {
            Err(Leave::Gone(Exception::Error, text)) => {
                self.note(script, at)?;
                Err(Leave::Gone(Exception::Error, text))
            }
            Err(Leave::Stopped(stop)) => {
                let script = script.shared()?;
                let frame = Frame::Sequence {
                    script,
                    at,
                    next,
                    depth,
                };
                Err(below(stop, frame))
            }
            out => out,
        }
    }

    /// Substitutes the words of a command and carries it out.
    #[cycle(native)]
    fn command(&mut self, words: &Words, depth: u32) -> Result<Value, Leave>
        ensures measures { Spent self.old self.new 0 (owed 0 result) }
        ensures rest { CameIs self.old result self.new (λ k st. command (eval depth) words.now k st) }
    {
        if let Some(values) = words.literals() {
            return self.begun(Handed::Lent(values), depth);
        }
        let mut done = Values::with_room(self.alloc, words.len())?;
        self.words(words, 0, &mut done, Then::Command, depth)?;
        self.begun(Handed::Own(done), depth)
    }

    /// Begins a command with substituted words, if a step is left, and carries it out.
    #[cycle(native)]
    pub(crate) fn begun(&mut self, words: Handed<'_>, depth: u32) -> Result<Value, Leave>
        ensures measures { Spent self.old self.new 0 (owed 0 result) }
        ensures rest { CameIs self.old result self.new (λ k st. then_rest depth Then.Command k (handed_words words.entry) st) }
    {
        if !self.begin() {
            return Err(stopped(self.alloc, Mode::Ended(End::StepLimit)));
        }
        self.carry_out(words, depth)
    }

    /// Carries out a command whose step has begun.
    #[cycle(native)]
    fn carry_out(&mut self, words: Handed<'_>, depth: u32) -> Result<Value, Leave>
        ensures measures { Spent self.old self.new 6 (owed 0 result) }
        ensures rest { CameIs self.old result self.new (λ k st. invoke (eval depth) (handed_words words.entry) k st) }
    {
        let Some((name, args)) = words.as_slice().split_first() else {
            return Ok(Value::new(self.alloc));
        };
        match verb_of(name.as_slice()) {
            None => {
                let words = words.own(self.alloc)?;
                self.other(words, depth)
            }
            Some(verb) => self.verb(verb, name.as_slice(), args, depth),
        }
    }

    /// Calls the procedure with the command's name, if there is one.
    #[cycle(native)]
    #[inline(never)]
    fn other(&mut self, words: Values, depth: u32) -> Result<Value, Leave>
        ensures measures { Spent self.old self.new 6 (owed 0 result) }
        ensures rest { CameIs self.old result self.new (λ k st. other_command (eval depth) words k st) }
    {
        match self.enter(&words)? {
            None => self.not_called(words, depth),
            Some(script) => self.body(words, &script, depth),
        }
    }

    /// Carries out a command whose name no procedure has. Unless it is one of the language, the host is needed.
    #[cycle(native)]
    #[inline(never)]
    fn not_called(&mut self, words: Values, depth: u32) -> Result<Value, Leave>
        ensures measures { Spent self.old self.new 6 (owed 0 result) }
        ensures rest { CameIs self.old result self.new (λ k st. not_called (eval depth) words k st) }
    {
        if let Some((name, args)) = words.as_slice().split_first() {
            if let Some(verb) = redefinable_verb(name.as_slice()) {
                return self.verb(verb, name.as_slice(), args, depth);
            }
        }
        Err(stopped(
            self.alloc,
            Mode::Call {
                call: Call::Begin(words),
                depth,
                resumed: false,
            },
        ))
    }

    /// Evaluates the body of a procedure that was called with these words, and leaves its scope.
    #[cycle(native)]
    #[tactic(auto, unfolding(crate::specs::Rest::frame_rest))]
    fn body(&mut self, words: Values, script: &Script, depth: u32) -> Result<Value, Leave>
        ensures measures { Spent self.old self.new 0 (owed 0 result) }
        ensures rest { CameIs self.old result self.new (λ k st. eval depth script.now (scope_end words k) st) }
    {
        let out = self.script(script, depth);
        self.leave_scope(words, out)
    }

    /// Evaluates a text as a script.
    #[cycle(native)]
    pub(crate) fn text(&mut self, text: &Value, depth: u32) -> Result<Value, Leave>
        ensures measures { Spent self.old self.new 0 (owed 0 result) }
        ensures rest { CameIs self.old result self.new (λ k st. eval depth text.now k st) }
    {
        let script = self.read.script_of(self.alloc, text)?;
        self.script(&script, depth)
    }
}
