//! The errors that a check finds, and their texts.

ghost use Rattle.std.specs.Prelude.{◌≡◌, IfOk};
ghost use Rattle.script_check.specs.Texts.{no_command, text_of};

use command_table::advice_for;
use std::alloc::{AllocError, Global};
use tcl_expr::ExprFault;
use tcl_results::{bad_option, expr_fault, quoted, too_deep, word_fault, wrong_args};
use tcl_words::{Text, WordFault};

/// An error of a command.
#[derive(Drop)]
pub enum Problem {
    /// The command is malformed.
    Malformed(WordFault),
    /// The first word names neither a command nor a procedure of the source.
    NoCommand(Text),
    /// Too few or too many arguments for the command with this name.
    WrongArgs(Text),
    /// This word is no option of the command.
    BadOption(Text),
    /// This word is no flag of the command.
    BadFlag(Text),
    /// This word is no flag of `expect`, or a flag without its argument.
    BadExpectFlag(Text),
    /// This word is no regular pattern.
    BadRegular(Text),
    /// This text is no expression.
    BadExpression(Text),
    /// An expression nests too deep.
    DeepExpression,
    /// A script inside more than 200 others. It was not read.
    TooDeep,
}

/// A finding: an error and its position.
#[derive(Drop)]
pub struct Finding {
    /// The position of the command in the source, in bytes.
    pub at: usize,
    /// The error.
    pub what: Problem,
}

/// Returns the text for an unknown command, followed by advice on what to use instead, if there is
/// any.
fn no_command(alloc: Global, name: &[u8]) -> Result<Text, AllocError>
    ensures { IfOk result (λ t. t ≡ no_command name.now) }
{
    let mut text = quoted(alloc, b"invalid command name ", name)?;
    let advice = advice_for(name);
    if !advice.is_empty() {
        text.extend(b": ")?;
        text.extend(advice)?;
    }
    Ok(text)
}

impl Problem {
    /// Returns the text of the error that a run would end with. For an unknown command, advice on
    /// what to use instead follows, if there is any.
    pub fn text(&self, alloc: Global) -> Result<Text, AllocError>
        ensures { IfOk result (λ t. t ≡ text_of self.now) }
    {
        match self {
            Problem::Malformed(fault) => Text::from_slice(alloc, word_fault(*fault)),
            Problem::NoCommand(name) => no_command(alloc, name.as_slice()),
            Problem::WrongArgs(name) => wrong_args(alloc, name.as_slice()),
            Problem::BadOption(word) => bad_option(alloc, word.as_slice()),
            Problem::BadFlag(word) => quoted(alloc, b"bad flag ", word.as_slice()),
            Problem::BadExpectFlag(word) => quoted(alloc, b"bad expect flag ", word.as_slice()),
            Problem::BadRegular(word) => {
                quoted(alloc, b"bad regular expression ", word.as_slice())
            }
            Problem::BadExpression(text) => {
                expr_fault(alloc, text.as_slice(), &ExprFault::Syntax)
            }
            Problem::DeepExpression => Text::from_slice(alloc, b"expression too deep"),
            Problem::TooDeep => Text::from_slice(alloc, too_deep()),
        }
    }
}
