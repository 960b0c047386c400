//! The commands of the language by their names.

ghost use Rattle.std.specs.Prelude.{◌≡◌};
ghost use Rattle.tcl_control.specs.Verbs.{as_verb, verb_of, redefinable_verb};

use command_table::{TclCommand, ValueCommand, redefinable_command, tcl_command};

/// A command of the language.
#[derive(Clone, Copy, PartialEq, Eq)]
pub enum Verb {
    /// One that evaluates nothing.
    Plain(ValueCommand),
    If,
    While,
    For,
    Foreach,
    Proc,
    Expr,
    Eval,
    Catch,
    Exit,
    Switch,
}

/// Returns the command of the language for its entry in the table.
fn as_verb(command: TclCommand) -> Verb
    ensures { result ≡ as_verb command }
{
    match command {
        TclCommand::Value(value) => Verb::Plain(value),
        TclCommand::If => Verb::If,
        TclCommand::While => Verb::While,
        TclCommand::For => Verb::For,
        TclCommand::Foreach => Verb::Foreach,
        TclCommand::Proc => Verb::Proc,
        TclCommand::Expr => Verb::Expr,
        TclCommand::Eval => Verb::Eval,
        TclCommand::Catch => Verb::Catch,
        TclCommand::Exit => Verb::Exit,
        TclCommand::Switch => Verb::Switch,
    }
}

/// Finds a command that no procedure can have the name of.
pub fn verb_of(word: &[u8]) -> Option<Verb>
    ensures { result ≡ verb_of word.now }
{
    match tcl_command(word) {
        None => None,
        Some(command) => Some(as_verb(command)),
    }
}

/// Finds a command by a name that a procedure can have. The procedure is then called in its place.
pub fn redefinable_verb(word: &[u8]) -> Option<Verb>
    ensures { result ≡ redefinable_verb word.now }
{
    match redefinable_command(word) {
        None => None,
        Some(command) => Some(as_verb(command)),
    }
}
