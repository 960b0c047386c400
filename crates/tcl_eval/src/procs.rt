//! Evaluates procedures and `catch`.

ghost use Rattle.std.specs.Prelude.{◌≡◌, ◌+◌, ◌≤◌, [], drop, IfOk, ◌≢◌, ℕ};
ghost use Rattle.tcl_results.specs.Texts.{quoted, not_set};
ghost use Rattle.tcl_eval.specs.Meaning.{returned, eval, caught, digit, Next, no_command, passed, scope_end, outside_loop, reserved, defined};
ghost use Rattle.tcl_eval.specs.Rest.{frame_rest, now_of, RestIs};
ghost use Rattle.tcl_eval.specs.Native.{ended, entered_rest, other_command, owed, CameIs, Comes, Known, Spent};
ghost use Rattle.tcl_eval.specs.Potential.{bodies, credit, again};

use crate::engine::Engine;
use crate::frame::{Frame, Mode};
use crate::out::{Exception, Leave};
use crate::procedure::Procedure;
use crate::stops::below;
use crate::trail::Origin;
use std::alloc::{AllocError, Global};
use tcl_control::{enter, formals_of};
use tcl_host::Values;
use tcl_results::{Carried, Code, Complaint, not_set, quoted, said};
use tcl_scripts::Script;
use tcl_subst::SubstFault;
use tcl_values::Value;

/// Returns the digit of a code.
fn digit(code: Code) -> &'static [u8]
    ensures { result.now ≡ digit code }
{
    match code {
        Code::Ok => b"0",
        Code::Error => b"1",
        Code::Return(_) => b"2",
        Code::Break => b"3",
        Code::Continue => b"4",
        Code::Again => b"5",
        Code::AgainLater => b"6",
    }
}

/// Returns the error of `break` or `continue` outside a loop.
fn outside_loop(alloc: Global, word: &[u8]) -> Result<Value, AllocError>
    ensures { IfOk result (λ v. v ≡ outside_loop word.now) }
{
    let mut text = quoted(alloc, b"invoked ", word)?;
    text.extend(b" outside of a loop")?;
    Value::from_text(alloc, text)
}

/// Returns a text followed by a quoted name.
fn named(alloc: Global, front: &[u8], name: &[u8]) -> Result<Value, AllocError>
    ensures { IfOk result (λ v. v ≡ quoted front.now name.now) }
{
    let text = quoted(alloc, front, name)?;
    Value::from_text(alloc, text)
}

impl Engine {
    /// Continues after the script of a `catch`, given its outcome.
    #[tactic(auto, unfolding(crate::specs::Rest::frame_rest))]
    pub(crate) fn caught_as(
        &mut self,
        name: Option<Value>,
        out: Result<Value, Leave>,
    ) -> Result<Value, Leave>
        ensures measures { Spent self.old self.new (owed 0 out) (owed 0 result) }
        ensures known { Known result → Known out }
        ensures rest { CameIs self.old result self.new (λ k st. ended out st (frame_rest (Frame.Catch name) k)) }
    {
        match out {
            Ok(value) => self.caught_by(name, Code::Ok, value),
            Err(Leave::Gone(exception, value)) => self.caught_by(name, exception.code(), value),
            Err(Leave::Stopped(stop)) => Err(below(stop, Frame::Catch { name })),
            Err(Leave::Memory) => Err(Leave::Memory),
        }
    }

    /// Continues after the script of a `catch`, given its code.
    fn caught_by(&mut self, name: Option<Value>, code: Code, value: Value) -> Result<Value, Leave>
        ensures measures { Spent self.old self.new 0 (owed 0 result) }
        ensures rest { CameIs self.old result self.new (λ k st. caught name k code value st) }
    {
        self.trail.clear();
        let Some(name) = name else {
            return Ok(self.value(digit(code))?);
        };
        match self.vars.set(name.as_slice(), value) {
            Ok(()) => Ok(self.value(digit(code))?),
            Err(fault) => {
                let text = not_set_text(self.alloc, name.as_slice(), fault)?;
                Err(Leave::Gone(Exception::Error, text))
            }
        }
    }

    /// Continues after a `return` in a procedure that was called with these words. Its scope has
    /// ended.
    fn returned(&mut self, words: Values, carried: Carried, value: Value) -> Result<Value, Leave>
        ensures measures { Spent self.old self.new 0 (owed 0 result) }
        ensures rest { CameIs self.old result self.new (λ k st. returned words k carried value st) }
    {
        match carried {
            Carried::Ok => Ok(value),
            Carried::Error => self.error_out(words, value),
            Carried::Return => Err(Leave::Gone(Exception::Return(Carried::Ok), value)),
            Carried::Break => Err(Leave::Gone(Exception::Break, value)),
            Carried::Continue => Err(Leave::Gone(Exception::Continue, value)),
        }
    }

    /// Continues after the body of a procedure that was called with these words.
    #[tactic(auto, unfolding(crate::specs::Rest::frame_rest))]
    pub(crate) fn leave_scope(
        &mut self,
        words: Values,
        out: Result<Value, Leave>,
    ) -> Result<Value, Leave>
        ensures measures { Spent self.old self.new (owed 0 out) (owed 0 result) }
        ensures known { Known result → Known out }
        ensures rest { CameIs self.old result self.new (λ k st. ended out st (frame_rest (Frame.Scope words) k)) }
    {
        match out {
            Ok(value) => {
                self.leave();
                Ok(value)
            }
            Err(Leave::Gone(Exception::Return(carried), value)) => {
                self.leave();
                self.returned(words, carried, value)
            }
            Err(Leave::Gone(Exception::Error, text)) => {
                self.leave();
                self.error_out(words, text)
            }
            Err(Leave::Gone(Exception::Break, _)) => {
                self.leave();
                let text = outside_loop(self.alloc, b"break")?;
                self.error_out(words, text)
            }
            Err(Leave::Gone(Exception::Continue, _)) => {
                self.leave();
                let text = outside_loop(self.alloc, b"continue")?;
                self.error_out(words, text)
            }
            Err(Leave::Gone(exception, value)) => {
                self.leave();
                Err(Leave::Gone(exception, value))
            }
            Err(Leave::Stopped(stop)) => Err(below(stop, Frame::Scope { words })),
            Err(Leave::Memory) => Err(Leave::Memory),
        }
    }

    /// Adds the procedure to the trail of an error that leaves it.
    fn error_out(&mut self, words: Values, text: Value) -> Result<Value, Leave>
        ensures measures { Spent self.old self.new 0 (owed 0 result) }
        ensures rest { CameIs self.old result self.new (λ k st. k Code.Error text (passed (Origin.Procedure words) st)) }
    {
        self.trail.push(Origin::Procedure { words })?;
        Err(Leave::Gone(Exception::Error, text))
    }

    /// Ends the current scope, unless it is the outermost one.
    fn leave(&mut self)
        ensures { self.new ≡ record self.old { vars = record { globals = self.old.vars.globals; locals = drop 1 self.old.vars.locals } } }
    {
        if !self.vars.is_outermost() {
            self.vars.pop_scope();
        }
    }

    /// Enters the procedure with the name of a command, and returns its body. `None` if there is no
    /// such procedure.
    pub(crate) fn enter(&mut self, words: &Values) -> Result<Option<Script>, Leave>
        ensures measures { Spent self.old self.new 0 (owed 0 result) }
        ensures rest { (depth : ℕ) → Comes self.old result self.new (entered_rest (eval depth) words.now) (λ k st. other_command (eval depth) words.now k st) }
    {
        let Some((name, args)) = words.as_slice().split_first() else {
            return Ok(None);
        };
        let name = name.as_slice();
        let Some(procedure) = self.procs.get(name) else {
            return Ok(None);
        };
        let script = procedure.body.shared()?;
        match enter(self.alloc, name, &procedure.formals, args, &mut self.vars) {
            Ok(()) => Ok(Some(script)),
            Err(Complaint::Said(text)) => {
                let text = Value::from_text(self.alloc, text)?;
                Err(Leave::Gone(Exception::Error, text))
            }
            Err(Complaint::Memory) => Err(Leave::Memory),
        }
    }

    /// Defines a procedure, unless the host has a command of its name.
    pub(crate) fn define(
        &mut self,
        name: Value,
        formals: Value,
        body: Value,
        is_known: bool,
    ) -> Result<Mode, AllocError>
        ensures rest { RestIs self.old result self.new (λ k st. defined name formals body is_known k st) }
        ensures potential { IfOk result (λ mode. bodies self.new.stack + credit mode ≤ bodies self.old.stack) }
        ensures less { self.new.left ≤ self.old.left }
    {
        self.define_by(&name, &formals, &body, is_known)
    }

    /// Defines a procedure, given its texts.
    fn define_by(
        &mut self,
        name: &Value,
        formals: &Value,
        body: &Value,
        is_known: bool,
    ) -> Result<Mode, AllocError>
        ensures rest { RestIs self.old result self.new (λ k st. defined name.now formals.now body.now is_known k st) }
        ensures potential { IfOk result (λ mode. bodies self.new.stack + credit mode ≤ bodies self.old.stack) }
        ensures less { self.new.left ≤ self.old.left }
    {
        if is_known {
            let text = reserved(self.alloc, name.as_slice())?;
            return Ok(Mode::Give(Code::Error, text));
        }
        match said(self.alloc, formals_of(self.alloc, formals))? {
            Ok(formals) => {
                let body = Script::read(self.alloc, body.shared(self.alloc)?)?;
                let procedure = Procedure { formals, body };
                self.procs.insert(self.alloc, name.as_slice(), procedure)?;
                Ok(Mode::Give(Code::Ok, Value::new(self.alloc)))
            }
            Err(text) => Ok(Mode::Give(Code::Error, text)),
        }
    }
}

/// Returns the error of a variable that can't be set.
fn not_set_text(alloc: Global, name: &[u8], fault: SubstFault) -> Result<Value, AllocError>
    ensures text { IfOk result (λ v. v ≡ not_set name.now fault) }
    ensures memory { IfOk result (λ _. fault ≢ SubstFault.Memory) }
{
    let text = not_set(alloc, name, fault)?;
    Value::from_text(alloc, text)
}

/// Returns the error of a name that no procedure can have.
pub(crate) fn reserved(alloc: Global, name: &[u8]) -> Result<Value, AllocError>
    ensures { IfOk result (λ v. v ≡ reserved name.now) }
{
    named(alloc, b"can't redefine ", name)
}

/// Returns the error of an unknown command.
pub(crate) fn no_command(alloc: Global, words: &Values) -> Result<Value, AllocError>
    ensures { IfOk result (λ v. v ≡ no_command words.now) }
{
    match words.as_slice() {
        [] => named(alloc, b"invalid command name ", &[]),
        [name, ..] => named(alloc, b"invalid command name ", name.as_slice()),
    }
}
