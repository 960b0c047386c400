//! How a command or a script ends.

ghost use Rattle.std.specs.Prelude.{◌≡◌};
ghost use Rattle.tcl_results.specs.Codes.{carried_code as carried_code_of, script_code as script_code_of};

/// The code that `return` has a procedure end with.
#[derive(Clone, Copy, PartialEq, Eq)]
pub enum Carried {
    Ok,
    Error,
    Return,
    Break,
    Continue,
}

/// How a command or a script ended.
#[derive(Clone, Copy, PartialEq, Eq)]
pub enum Code {
    /// With a value.
    Ok,
    /// With an error. The value is its text.
    Error,
    /// It leaves the enclosing procedure or script, with a value. That one ends with the code
    /// within.
    Return(Carried),
    /// It leaves the enclosing loop.
    Break,
    /// It continues with the next iteration of the enclosing loop.
    Continue,
    /// A loop of the host continues at once.
    Again,
    /// A loop of the host continues later.
    AgainLater,
}

/// Returns the code that `return` carries.
fn carried_code(carried: Carried) -> Code
    ensures { result ≡ carried_code_of carried }
{
    match carried {
        Carried::Ok => Code::Ok,
        Carried::Error => Code::Error,
        Carried::Return => Code::Return(Carried::Ok),
        Carried::Break => Code::Break,
        Carried::Continue => Code::Continue,
    }
}

/// Returns the code of a file or a script whose last command ended with this code.
pub fn script_code(code: Code) -> Code
    ensures { result ≡ script_code_of code }
{
    match code {
        Code::Return(carried) => carried_code(carried),
        _ => code,
    }
}
