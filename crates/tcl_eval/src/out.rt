//! The results of evaluating functions.

ghost use Rattle.std.specs.Prelude.{◌≡◌, ◌≤◌, ℕ, List};
ghost use Rattle.tcl_results.specs.Said.{Said as Meant};
ghost use Rattle.tcl_results.specs.Says.{Says};
ghost use Rattle.tcl_eval.specs.Meaning.{Next, on_ok, on_said};
ghost use Rattle.tcl_eval.specs.Native.{Known, code_of, ended, flow, owed};
ghost use Rattle.tcl_eval.specs.Potential.{again};
ghost use Rattle.tcl_eval.specs.Tree.{State, Tree};

use crate::stop::Stop;
use std::alloc::{AllocError, AllocFailed, Global};
use tcl_results::{Carried, Code, Complaint};
use tcl_values::Value;

/// A return code other than `Ok` (Tcl(n): an exceptional return).
#[derive(Clone, Copy)]
pub enum Exception {
    Error,
    Return(Carried),
    Break,
    Continue,
    Again,
    AgainLater,
}

impl Exception {
    /// Returns its code.
    pub(crate) fn code(self) -> Code
        ensures { result ≡ code_of self }
    {
        match self {
            Exception::Error => Code::Error,
            Exception::Return(carried) => Code::Return(carried),
            Exception::Break => Code::Break,
            Exception::Continue => Code::Continue,
            Exception::Again => Code::Again,
            Exception::AgainLater => Code::AgainLater,
        }
    }
}

/// Why an evaluating function returns no value.
#[derive(Drop)]
pub enum Leave {
    /// A code other than `Ok` with its value. It is the outcome of the whole command.
    Gone(Exception, Value),
    /// The run has stopped: it waits or has ended.
    Stopped(Box<Stop>),
    /// Memory was refused.
    Memory,
}

impl From<AllocError> for Leave {
    ghost use Rattle.std.specs.Prelude.{◌≡◌};
    ghost use Rattle.tcl_eval.specs.declared.out.Leave.TheVariants.{Memory};

    ghost from_gives = { λ _ l. l ≡ Memory };

    fn from(_e: AllocError) -> Leave {
        Leave::Memory
    }
}

impl<T: Drop> From<AllocFailed<T>> for Leave {
    ghost use Rattle.std.specs.Prelude.{◌≡◌};
    ghost use Rattle.tcl_eval.specs.declared.out.Leave.TheVariants.{Memory};

    ghost from_gives = { λ _ l. l ≡ Memory };

    fn from(_e: AllocFailed<T>) -> Leave {
        Leave::Memory
    }
}

/// Returns the outcome of a command with this code and value.
pub(crate) fn came(code: Code, value: Value) -> Result<Value, Leave>
    ensures known { Known result }
    ensures rest { (k : Next) (st : State) → ended result st k ≡ k code value st }
    ensures within { (k : Next) (go : List ℕ → State → Tree) (st : State) → flow result st k go ≡ on_ok go k code value st }
    ensures weight { owed 0 result ≤ again code }
{
    let exception = match code {
        Code::Ok => return Ok(value),
        Code::Error => Exception::Error,
        Code::Return(carried) => Exception::Return(carried),
        Code::Break => Exception::Break,
        Code::Continue => Exception::Continue,
        Code::Again => Exception::Again,
        Code::AgainLater => Exception::AgainLater,
    };
    Err(Leave::Gone(exception, value))
}

/// Returns the result of a call. A complaint becomes an error of the command.
pub(crate) fn given<T: Drop>(alloc: Global, heard: Result<T, Complaint>) -> Result<T, Leave>
    ensures rest { (meant : Meant T) → Says heard meant → Known result → (k : Next) (go : T → State → Tree) (st : State) → flow result st k go ≡ on_said meant k go st }
    ensures within { (meant : Meant T) → Says heard meant → Known result → (k : Next) (on : List ℕ → State → Tree) (go : T → State → Tree) (st : State) → flow result st (on_ok on k) go ≡ on_said meant k go st }
    ensures weight { owed 0 result ≡ 0 }
{
    match heard {
        Ok(x) => Ok(x),
        Err(Complaint::Said(text)) => {
            let text = Value::from_text(alloc, text)?;
            Err(Leave::Gone(Exception::Error, text))
        }
        Err(Complaint::Memory) => Err(Leave::Memory),
    }
}
