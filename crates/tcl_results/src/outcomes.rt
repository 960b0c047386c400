//! Turns results into outcomes of commands.

ghost use Rattle.std.specs.Prelude.{◌≡◌, ℕ, List, IfOk};
ghost use Rattle.tcl_results.specs.Said.{Said as Meant, told};
ghost use Rattle.tcl_results.specs.Says.{Says};
ghost use Rattle.tcl_results.specs.Texts.{wrong_args};
ghost use Rattle.tcl_subst.specs.Variables.{Variables};

use crate::code::Code;
use crate::complaint::Complaint;
use crate::texts::wrong_args;
use std::alloc::{AllocError, Global};
use tcl_values::Value;
use tcl_words::Text;

/// Returns a value with `Code::Ok`, or the text of an error with `Code::Error`. Passes on
/// `AllocError`.
pub fn told(alloc: Global, given: Result<Value, Complaint>) -> Result<(Code, Value), AllocError>
    ensures { (meant : Meant (List ℕ)) (vars : Variables) → Says given meant → IfOk result (λ r. told meant vars ≡ (r.0, r.1, vars)) }
{
    match given {
        Ok(value) => Ok((Code::Ok, value)),
        Err(Complaint::Said(text)) => error(alloc, text),
        Err(Complaint::Memory) => Err(AllocError),
    }
}

/// Returns a result, or the text of its error as a value. Passes on `AllocError`.
pub fn said<T: Drop>(
    alloc: Global,
    given: Result<T, Complaint>,
) -> Result<Result<T, Value>, AllocError>
    ensures { (meant : Meant T) → Says given meant → IfOk result (λ r. meant ≡ r) }
{
    match given {
        Ok(x) => Ok(Ok(x)),
        Err(Complaint::Said(text)) => Ok(Err(Value::from_text(alloc, text)?)),
        Err(Complaint::Memory) => Err(AllocError),
    }
}

/// Returns the error that a command has too few or too many arguments.
pub fn wrong_call(alloc: Global, command: &[u8]) -> Result<(Code, Value), AllocError>
    ensures { IfOk result (λ r. r ≡ (Code.Error, wrong_args command.now)) }
{
    error(alloc, wrong_args(alloc, command)?)
}

/// Returns an error with this text.
pub fn error(alloc: Global, text: Text) -> Result<(Code, Value), AllocError>
    ensures { IfOk result (λ r. r ≡ (Code.Error, text)) }
{
    Ok((Code::Error, Value::from_text(alloc, text)?))
}
