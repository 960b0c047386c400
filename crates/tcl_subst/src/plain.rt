//! Words of one literal or one variable.

ghost use Rattle.std.specs.Prelude.{◌≡◌, true, IfOk};
ghost use Rattle.tcl_words.specs.Pieces.{literal, variable, no_pieces, piece, part_view, word_view};
ghost use Rattle.tcl_subst.specs.Filling.{fill};
ghost use Rattle.tcl_subst.specs.Plain.{is_plain_piece, is_plain, TellsValue};
ghost use Rattle.tcl_subst.specs.Variables.{Variables};

use crate::faults::SubstFault;
use crate::limits::is_too_long;
use crate::vars::Vars;
use std::alloc::{AllocError, Global};
use tcl_values::Value;
use tcl_words::{Part, Word};

/// Returns the value of a word that is one literal or one variable. `None` for other words, and if
/// the substitution fails.
pub fn plain_value(alloc: Global, word: &Word, vars: &mut Vars) -> Result<Option<Value>, AllocError>
    ensures value { IfOk result (λ o. TellsValue o (is_plain (word_view word.now).pieces) (fill (word_view word.now).pieces vars.old)) }
    ensures same { vars.new ≡ vars.old }
{
    match word.parts.as_slice() {
        [part] => part_value(alloc, part, vars),
        _ => Ok(None),
    }
}

/// Returns the value of a word of one part, if this is a literal or a variable.
fn part_value(alloc: Global, part: &Part, vars: &mut Vars) -> Result<Option<Value>, AllocError>
    ensures value { IfOk result (λ o. TellsValue o (is_plain_piece (part_view part.now)) (fill (piece (part_view part.now) no_pieces) vars.old)) }
    ensures same { vars.new ≡ vars.old }
{
    match part {
        Part::Lit(text) => Ok(literal_value(Value::from_slice(alloc, text.as_slice())?)),
        Part::Var(name, index) => match index {
            None => variable_value(name.as_slice(), vars),
            Some(_) => Ok(None),
        },
        Part::Script(_) => Ok(None),
    }
}

/// Returns the value of a word that is one literal. `None` if it is too long.
#[inline(always)]
pub fn literal_value(text: Value) -> Option<Value>
    ensures { (vars : Variables) → TellsValue result true (fill (piece (literal text) no_pieces) vars) }
{
    if is_too_long(text.len()) {
        return None;
    }
    Some(text)
}

/// Returns the value of a word that is one variable. `None` if the substitution fails.
#[inline(always)]
pub fn variable_value(name: &[u8], vars: &mut Vars) -> Result<Option<Value>, AllocError>
    ensures value { IfOk result (λ o. TellsValue o true (fill (piece (variable name.now) no_pieces) vars.old)) }
    ensures same { vars.new ≡ vars.old }
{
    match vars.settled(name) {
        Ok(value) => Ok(literal_value(value)),
        Err(SubstFault::Memory) => Err(AllocError),
        Err(_) => Ok(None),
    }
}
