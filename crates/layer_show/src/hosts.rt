//! A host with a few commands, which can put each of its calls off.
//!
//! - `puts TEXT` outputs a text.
//! - `keep NAME VALUE` sets a variable.
//! - `again ?VALUE?` and `later ?VALUE?` return a code of a host's loops.
//! - `run SCRIPT` returns the code and the value of a script as a list.
//! - `looping SCRIPT` evaluates a script again at those codes, at most three times.
//! - `insist SCRIPT` asks for a script once more at any code.
//! - `ask TEXT` returns the words of a text as a list. If the first word is `run`, the second is
//!   evaluated. If it is `ask`, further words are requested. If it is `none`, the host has no answer.
//! - `halt` ends the script, and `spend` ends it with `Memory`.

ghost use Rattle.std.specs.Prelude.{◌≡◌, false, IfOk, OnOk, OnErr};

use crate::calls::name_in;
use std::alloc::{AllocError, Global};
use std::mem;
use tcl_eval::Code;
use tcl_host::{Ending, Host, HostStep, Values};
use tcl_subst::{SubstFault, Vars};
use tcl_values::Value;
use tcl_words::{Packed, Text, write_list};

/// The result of a call, unless memory is refused.
type Step = Result<HostStep, AllocError>;

/// Why the host asked for a script.
#[derive(Clone, Copy)]
pub enum Purpose {
    /// For its code and value.
    Run,
    /// For a loop, with this number of turns left.
    Loop(u8),
    /// To ask for it once more.
    Insist,
}

/// A command of the host. The comment at the top of this file lists them.
#[derive(Clone, Copy)]
enum Act {
    Puts,
    Keep,
    Again(Code),
    Want(Purpose),
    Ask,
    Halt,
    Spend,
}

/// A script that the host asked for.
#[derive(Drop)]
pub struct Wanted {
    pub purpose: Purpose,
    pub script: Value,
}

/// A call that was put off.
#[derive(Clone, Copy)]
pub enum Held {
    /// None was.
    Nothing,
    /// The start of a command.
    Begin,
    /// The continuation after the requested words.
    Words,
    /// The continuation after the requested script, with its code.
    Body(Code),
}

/// A host with a few commands, which puts each call off `waits` times.
#[derive(Drop)]
pub struct SmallHost {
    pub alloc: Global,
    /// The number of times that each call is put off.
    pub waits: u8,
    /// The number of times that the current call is still put off.
    pub left: u8,
    /// The current call, if it was put off.
    pub held: Held,
    /// The words of that call, or the value of its script.
    pub words: Values,
    /// The scripts that were requested and have not ended, innermost last.
    pub wanted: Vec<Wanted>,
    /// The output of `puts`.
    pub output: Text,
    /// The number of calls that were answered with something other than `Wait`.
    pub calls: u64,
    /// Whether a script asked for an end by `Memory`.
    pub is_spent: bool,
}

/// Returns the digit of a code.
pub fn digit(code: Code) -> u8 {
    match code {
        Code::Ok => b'0',
        Code::Error => b'1',
        Code::Return(_) => b'2',
        Code::Break => b'3',
        Code::Continue => b'4',
        Code::Again => b'5',
        Code::AgainLater => b'6',
    }
}

fn is_again(code: Code) -> bool {
    matches!(code, Code::Again | Code::AgainLater)
}

/// Returns the step, or `Memory` if memory was refused.
fn or_memory(step: Step) -> HostStep
    ensures ok { IfOk step (λ s. result ≡ s) }
    ensures err { OnErr step (result ≡ HostStep.Memory) }
{
    match step {
        Ok(step) => step,
        Err(_) => HostStep::Memory,
    }
}

/// Returns an error with this text.
fn failed(alloc: Global, text: &[u8]) -> Step
    ensures { IfOk result (λ s. s ≡ HostStep.Fail text.now) }
{
    Ok(HostStep::Fail(Value::from_slice(alloc, text)?))
}

/// Returns a code without a value.
fn done(alloc: Global, code: Code) -> HostStep {
    HostStep::Done(code, Value::new(alloc))
}

/// Returns a code with a value.
fn done_with(alloc: Global, code: Code, value: &Value) -> Step {
    Ok(HostStep::Done(code, value.shared(alloc)?))
}

/// Asks for the words of a text.
fn ask(alloc: Global, text: &Value) -> Step {
    Ok(HostStep::Words(text.shared(alloc)?))
}

fn copied(alloc: Global, words: &[Value]) -> Result<Values, AllocError> {
    let mut copy = Values::new(alloc);
    'words: for word in words {
        copy.push(word.shared(alloc)?)?;
    }
    Ok(copy)
}

fn alone_copied(alloc: Global, value: &Value) -> Result<Values, AllocError> {
    let mut copy = Values::new(alloc);
    copy.push(value.shared(alloc)?)?;
    Ok(copy)
}

/// Returns a list of these elements.
fn done_list(alloc: Global, elements: &Packed) -> Step {
    let text = write_list(alloc, elements)?;
    Ok(HostStep::Done(Code::Ok, Value::from_text(alloc, text)?))
}

/// Returns a list of these values.
fn listed(alloc: Global, words: &[Value]) -> Step {
    let mut packed = Packed::new(alloc);
    'words: for word in words {
        packed.push(word.as_slice())?;
    }
    done_list(alloc, &packed)
}

/// Returns a code and a value as a list.
fn told(alloc: Global, code: Code, value: &Value) -> Step {
    let mut packed = Packed::new(alloc);
    packed.push(&[digit(code)])?;
    packed.push(value.as_slice())?;
    done_list(alloc, &packed)
}

/// Returns the act of a name, if it is a command of the host.
fn act_of(name: &[u8]) -> Option<Act> {
    match name_in(name) {
        "puts" => Some(Act::Puts),
        "keep" => Some(Act::Keep),
        "again" => Some(Act::Again(Code::Again)),
        "later" => Some(Act::Again(Code::AgainLater)),
        "run" => Some(Act::Want(Purpose::Run)),
        "looping" => Some(Act::Want(Purpose::Loop(3))),
        "insist" => Some(Act::Want(Purpose::Insist)),
        "ask" => Some(Act::Ask),
        "halt" => Some(Act::Halt),
        "spend" => Some(Act::Spend),
        _ => None,
    }
}

/// Carries out `keep NAME TEXT`.
fn keep(alloc: Global, vars: &mut Vars, name: &[u8], text: &Value) -> Step {
    let value = text.shared(alloc)?;
    match vars.set(name, value) {
        Ok(()) => Ok(done(alloc, Code::Ok)),
        Err(SubstFault::Memory) => Err(AllocError),
        Err(_) => failed(alloc, b"not kept"),
    }
}

impl SmallHost {
    /// Creates a host that puts each call off `waits` times.
    pub fn new(alloc: Global, waits: u8) -> SmallHost
        ensures { result.is_spent ≡ false }
    {
        SmallHost {
            alloc,
            waits,
            left: 0,
            held: Held::Nothing,
            words: Values::new(alloc),
            wanted: Vec::new(alloc),
            output: Text::new(alloc),
            calls: 0,
            is_spent: false,
        }
    }

    /// Outputs a text and a newline.
    fn put(&mut self, text: &Value) -> Step {
        self.output.extend(text.as_slice())?;
        self.output.push(b'\n')?;
        Ok(done(self.alloc, Code::Ok))
    }

    /// Asks for a script.
    fn want(&mut self, purpose: Purpose, script: &Value) -> Step {
        let kept = script.shared(self.alloc)?;
        self.wanted.push(Wanted {
            purpose,
            script: kept,
        })?;
        Ok(HostStep::Body(script.shared(self.alloc)?))
    }

    /// Carries out a command without arguments.
    fn alone(&mut self, act: Act) -> Step {
        match act {
            Act::Again(code) => Ok(done(self.alloc, code)),
            Act::Halt => Ok(HostStep::Stop(Ending::Error)),
            Act::Spend => {
                self.is_spent = true;
                Ok(HostStep::Memory)
            }
            _ => failed(self.alloc, b"too few words"),
        }
    }

    /// Carries out a command with one argument.
    fn with_one(&mut self, act: Act, arg: &Value) -> Step {
        match act {
            Act::Puts => self.put(arg),
            Act::Again(code) => done_with(self.alloc, code, arg),
            Act::Want(purpose) => self.want(purpose, arg),
            Act::Ask => ask(self.alloc, arg),
            _ => failed(self.alloc, b"another number of words"),
        }
    }

    fn perform(&mut self, vars: &mut Vars, act: Act, args: &[Value]) -> Step {
        match (act, args) {
            (_, []) => self.alone(act),
            (_, [arg]) => self.with_one(act, arg),
            (Act::Keep, [name, text]) => keep(self.alloc, vars, name.as_slice(), text),
            _ => failed(self.alloc, b"too many words"),
        }
    }

    /// Carries out a command.
    fn on_begin(&mut self, vars: &mut Vars, words: &Values) -> Step {
        self.calls = self.calls.saturating_add(1);
        let [name, args @ ..] = words.as_slice() else {
            return Ok(HostStep::Unknown);
        };
        match act_of(name.as_slice()) {
            Some(act) => self.perform(vars, act, args),
            None => Ok(HostStep::Unknown),
        }
    }

    /// Takes the words of `ask`. That word comes first.
    fn on_words(&mut self, words: &Values) -> Step {
        self.calls = self.calls.saturating_add(1);
        let words = match words.as_slice() {
            [] => &[],
            [_ask, words @ ..] => words,
        };
        match words {
            [name, script] if name.as_slice() == b"run".as_slice() => {
                self.want(Purpose::Run, script)
            }
            [name, text] if name.as_slice() == b"ask".as_slice() => ask(self.alloc, text),
            [name] if name.as_slice() == b"none".as_slice() => Ok(HostStep::Unknown),
            words => listed(self.alloc, words),
        }
    }

    /// Continues after a script that was requested.
    fn after(&mut self, wanted: &Wanted, code: Code, value: &Value) -> Step {
        match wanted.purpose {
            Purpose::Run => told(self.alloc, code, value),
            Purpose::Insist => self.want(Purpose::Run, &wanted.script),
            Purpose::Loop(left) if is_again(code) && 0 < left => {
                self.want(Purpose::Loop(left - 1), &wanted.script)
            }
            Purpose::Loop(_) => done_with(self.alloc, code, value),
        }
    }

    /// Continues after the innermost requested script.
    fn on_body(&mut self, code: Code, value: &Value) -> Step {
        self.calls = self.calls.saturating_add(1);
        let Some(wanted) = self.wanted.pop() else {
            return failed(self.alloc, b"no script was wanted");
        };
        self.after(&wanted, code, value)
    }

    /// Carries out a call that was put off, with its words or value.
    fn on_held(&mut self, vars: &mut Vars, held: Held, words: &Values) -> Step {
        match (held, words.as_slice()) {
            (Held::Begin, _) => self.on_begin(vars, words),
            (Held::Words, _) => self.on_words(words),
            (Held::Body(code), [value]) => self.on_body(code, value),
            _ => failed(self.alloc, b"nothing was put off"),
        }
    }

    /// Puts a call off, with its words or value.
    fn hold(&mut self, held: Held, words: Result<Values, AllocError>) -> HostStep
        ensures ok { OnOk words (result ≡ HostStep.Wait) }
        ensures err { OnErr words (result ≡ HostStep.Memory) }
    {
        let Ok(words) = words else {
            return HostStep::Memory;
        };
        self.words = words;
        self.held = held;
        self.left = self.waits;
        HostStep::Wait
    }
}

impl Host for SmallHost {
    ghost answers = { λ _ _ _ _. Unit {0} };

    fn knows(&self, name: &[u8]) -> bool {
        act_of(name).is_some()
    }

    fn begin(&mut self, vars: &mut Vars, words: &Values) -> HostStep {
        if 0 < self.waits {
            return self.hold(Held::Begin, copied(self.alloc, words.as_slice()));
        }
        or_memory(self.on_begin(vars, words))
    }

    fn resume(&mut self, vars: &mut Vars) -> HostStep {
        if 1 < self.left {
            self.left -= 1;
            return HostStep::Wait;
        }
        let held = mem::replace(&mut self.held, Held::Nothing);
        let words = mem::replace(&mut self.words, Values::new(self.alloc));
        or_memory(self.on_held(vars, held, &words))
    }

    fn after_words(&mut self, _vars: &mut Vars, words: &Values) -> HostStep {
        if 0 < self.waits {
            return self.hold(Held::Words, copied(self.alloc, words.as_slice()));
        }
        or_memory(self.on_words(words))
    }

    fn after_body(&mut self, _vars: &mut Vars, code: Code, value: &Value) -> HostStep {
        if 0 < self.waits {
            return self.hold(Held::Body(code), alone_copied(self.alloc, value));
        }
        or_memory(self.on_body(code, value))
    }
}
