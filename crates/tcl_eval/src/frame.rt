//! The work that a machine has left.

ghost use Rattle.std.specs.Prelude.{◌≡◌, IfOk};

use crate::evaluation::{Evaluation, Test};
use std::alloc::AllocError;
use tcl_control::{Arms, Groups};
use tcl_host::{Ending, Values};
use tcl_results::Code;
use tcl_scripts::{Script, Words};
use tcl_subst::Filler;
use tcl_values::Value;
use tcl_words::WordFault;

/// The end of a run.
#[derive(Drop)]
pub enum End {
    /// The script ended with a code and a value.
    Finished(Code, Value),
    /// A command ended the run.
    Stopped(Ending),
    /// The limit on steps was reached.
    StepLimit,
    /// Memory was refused.
    Memory,
}

/// What follows the substitution of words.
#[derive(Clone, Copy)]
pub enum Then {
    /// The words are a command.
    Command,
    /// The host asked for the words. If the text is malformed at its end, this is the error.
    List(Option<WordFault>),
}

/// A loop: `while`, or `for` after its start.
#[derive(Drop)]
pub struct Turning {
    /// The condition.
    pub test: Test,
    /// The body.
    pub body: Script,
    /// The third argument of `for`, which is evaluated after each turn.
    pub next: Option<Script>,
    /// The most turns left: the number of steps left when the loop began.
    pub bound: u64,
}

impl Turning {
    /// Returns the same loop for another owner, without copying it.
    pub(crate) fn shared(&self) -> Result<Turning, AllocError>
        ensures { IfOk result (λ t. t ≡ self.now) }
    {
        let test = self.test.shared()?;
        let body = self.body.shared()?;
        let next = shared_next(&self.next)?;
        Ok(Turning {
            test,
            body,
            next,
            bound: self.bound,
        })
    }
}

/// Returns the script after a turn for another owner.
fn shared_next(next: &Option<Script>) -> Result<Option<Script>, AllocError>
    ensures { IfOk result (λ s. s ≡ next.now) }
{
    match next {
        None => Ok(None),
        Some(script) => Ok(Some(script.shared()?)),
    }
}

/// The work left after the code `Ok`.
#[derive(Drop)]
pub enum Onward {
    /// Continues the substitution of a word, given the value of one of its scripts.
    Word {
        filler: Filler,
        depth: u32,
    },
    /// Continues the substitution of words: the words and the index after the current one, whether
    /// `{*}` precedes it, and the finished values.
    Fill {
        words: Words,
        next: usize,
        expand: bool,
        done: Values,
        then: Then,
        depth: u32,
    },
    /// Evaluates the rest of an expression, given the value of an operand.
    Operand {
        evaluation: Evaluation,
        depth: u32,
    },
    /// Runs the turns of a loop, given the value of its condition.
    Test {
        turning: Turning,
        depth: u32,
    },
    /// Runs a body of `if` or tests the next condition, given the value of this one.
    Arm {
        body: Value,
        arms: Arms,
        depth: u32,
    },
    /// The end of the script after a turn of `for`.
    Next {
        turning: Turning,
        depth: u32,
    },
    /// The end of the start of `for`, with its condition, the script after each turn, and its body.
    Start {
        test: Value,
        next: Value,
        body: Value,
        depth: u32,
    },
}

/// The work left, given the code and the value of the frame above.
#[derive(Drop)]
pub enum Frame {
    /// The end of a command of a script: the index in the text from which it was read, and the
    /// number of the next command.
    Sequence {
        script: Script,
        at: usize,
        next: usize,
        depth: u32,
    },
    /// Continues after `Ok`, and passes any other code on.
    Onward(Onward),
    /// The end of a `catch`, with the variable for the value.
    Catch {
        name: Option<Value>,
    },
    /// The end of a loop's body.
    Turn {
        turning: Turning,
        depth: u32,
    },
    /// The end of the body of `foreach`.
    Each {
        groups: Groups,
        body: Script,
        depth: u32,
    },
    /// The end of a procedure that was called with these words.
    Scope {
        words: Values,
    },
    /// The end of a script that the host asked for. `bound` is the number of further scripts that
    /// the host may ask for.
    HostBody {
        bound: u64,
        depth: u32,
    },
}

/// A call of the host.
#[derive(Drop)]
pub enum Call {
    /// The host begins a command.
    Begin(Values),
    /// The host gets the words that it asked for.
    AfterWords(Values),
    /// The host gets the outcome of a script that it asked for. `bound` is the number of further
    /// scripts that it may ask for.
    AfterBody {
        code: Code,
        value: Value,
        bound: u64,
    },
}

/// What a machine does next.
#[derive(Drop)]
pub enum Mode {
    /// Passes a code and a value to the top frame.
    Give(Code, Value),
    /// Evaluates a script.
    Run {
        script: Script,
        depth: u32,
    },
    /// Calls the host, or resumes that call.
    Call {
        call: Call,
        depth: u32,
        resumed: bool,
    },
    /// Asks the host whether it knows the name of a new procedure.
    Define {
        name: Value,
        formals: Value,
        body: Value,
    },
    /// The run has ended.
    Ended(End),
}

/// The result of a call of the host.
#[derive(Drop)]
pub struct Asked {
    pub mode: Mode,
    pub paused: bool,
}
