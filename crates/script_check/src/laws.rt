//! The law of findings. Its function does nothing at run time: its contract is the law.

ghost use Rattle.script_check.specs.Runs.{FindingsHold};

/// States that findings hold when a script runs.
///
/// If the arguments of a command of the language have a problem, then a run of the command is an
/// error with the problem's text, unless a procedure stands for the command. The run evaluates nothing. A word that isn't literal may be any
/// word in that run. The law covers numbers of arguments, options, flags, and the arms of `if`.
pub fn findings_hold()
    ensures { FindingsHold }
{}
