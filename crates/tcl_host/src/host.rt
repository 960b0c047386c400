//! A host: it carries out the commands that the language lacks.

ghost use Rattle.std.specs.Prelude.{◌≡◌};

use crate::ending::Ending;
use crate::values::Values;
use tcl_results::Code;
use tcl_subst::Vars;
use tcl_values::Value;

/// The answer of a host to a call.
#[derive(Drop)]
pub enum HostStep {
    /// The command is done, with a code and a value.
    Done(Code, Value),
    /// The command fails with this error text.
    Fail(Value),
    /// The evaluator must evaluate this script, and then call `after_body`.
    Body(Value),
    /// The evaluator must substitute the words of this text, and then call `after_words` with the
    /// command's first word and these.
    Words(Value),
    /// There is no answer yet. The evaluator must call `resume` later.
    Wait,
    /// The whole script ends.
    Stop(Ending),
    /// The host has no command of that name.
    Unknown,
    /// Memory was refused.
    Memory,
}

/// Carries out the commands that the language lacks.
///
/// Every call but `knows` borrows the script's variables, and may change them.
///
/// A step without a meaning is an error of the command. These are `Words` and `Unknown` from a call other than `begin`, and `Body` from
/// `after_body` at a code other than `Again` and `AgainLater`.
pub trait Host {
    ghost use Rattle.tcl_host.specs.Calls.{Call, Reply};

    /// In this state the host may give this reply to this call, and change to that state.
    ghost answers: { Self → Call → Reply → Self → Type 0 };

    /// Returns whether the host has a command of this name. If it has, no procedure can have that
    /// name.
    fn knows(&self, name: &[u8]) -> bool
        ensures { answers self.now (Call.Knows name.now) (Reply.Known result) self.now };

    /// Begins a command, given its words.
    fn begin(&mut self, vars: &mut Vars, words: &Values) -> HostStep
        ensures { answers self.old (Call.Begin words.now vars.old) (Reply.Stepped result vars.new) self.new };

    /// Continues a call that was answered `Wait`.
    fn resume(&mut self, vars: &mut Vars) -> HostStep
        ensures { answers self.old (Call.Resume vars.old) (Reply.Stepped result vars.new) self.new };

    /// Continues a command with the words that it asked for. Its own first word precedes them.
    fn after_words(&mut self, vars: &mut Vars, words: &Values) -> HostStep
        ensures { answers self.old (Call.AfterWords words.now vars.old) (Reply.Stepped result vars.new) self.new };

    /// Continues a command after the script that it asked for. The script ended with this code and value.
    fn after_body(&mut self, vars: &mut Vars, code: Code, value: &Value) -> HostStep
        ensures { answers self.old (Call.AfterBody code value.now vars.old) (Reply.Stepped result vars.new) self.new };
}
