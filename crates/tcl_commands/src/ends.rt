//! The command `return`.

ghost use Rattle.std.specs.Prelude.{◌≡◌, IfOk};
ghost use Rattle.std.specs.Option.{option_copied};
ghost use Rattle.tcl_commands.specs.Returns.{code_named, with_code, no_option, is_dropped, returned};
ghost use Rattle.tcl_results.specs.Said.{on_said};
ghost use Rattle.tcl_results.specs.Says.{Says, Complains};

use command_table::is;
use std::alloc::{AllocError, Global};
use tcl_results::given::{arg, behind};
use tcl_results::{Carried, Code, Complaint, bad_flag, bad_option, said, wrong};
use tcl_subst::Vars;
use tcl_values::Value;

/// Returns the code that a word names, or `None`.
fn code_named(word: &[u8]) -> Option<Carried>
    ensures { result ≡ code_named word.now }
{
    if is(word, b"ok") || is(word, b"0") {
        Some(Carried::Ok)
    } else if is(word, b"error") || is(word, b"1") {
        Some(Carried::Error)
    } else if is(word, b"return") || is(word, b"2") {
        Some(Carried::Return)
    } else if is(word, b"break") || is(word, b"3") {
        Some(Carried::Break)
    } else if is(word, b"continue") || is(word, b"4") {
        Some(Carried::Continue)
    } else {
        None
    }
}

fn with_code(
    alloc: Global,
    code: Option<&[u8]>,
    value: Value,
) -> Result<(Carried, Value), Complaint>
    ensures { Says result (with_code (option_copied code.entry) value) }
{
    let Some(word) = code else {
        return Ok((Carried::Ok, value));
    };
    match code_named(word) {
        None => Err(Complaint::Said(bad_option(alloc, word)?)),
        Some(carried) => Ok((carried, value)),
    }
}

/// Returns the error of a word that is no option of `return`.
fn no_option(alloc: Global, command: &[u8], word: &[u8]) -> Complaint
    ensures { Complains result (no_option command.now word.now) }
{
    match word {
        [b'-', ..] => match bad_flag(alloc, word) {
            Ok(text) => Complaint::Said(text),
            Err(_) => Complaint::Memory,
        },
        _ => wrong(alloc, command),
    }
}

/// Returns whether an option is read and has no effect.
fn is_dropped(option: &[u8]) -> bool
    ensures { result ≡ is_dropped option.now }
{
    is(option, b"-errorinfo") || is(option, b"-errorcode")
}

/// Reads the arguments of `return`: options and their words in pairs, and a value.
#[tactic(auto, using(crate::proofs::Returned::code_read, crate::proofs::Returned::option_dropped, crate::proofs::Returned::none_read))]
fn returned(alloc: Global, command: &[u8], args: &[Value]) -> Result<(Carried, Value), Complaint>
    ensures { Says result (returned command.now args.now None) }
{
    let mut code = None;
    let mut rest = args;
    while rest.len() > 1 {
        let option = arg(rest, 0);
        let word = arg(rest, 1);
        if is(option, b"-code") {
            code = Some(word);
        } else if !is_dropped(option) {
            return Err(no_option(alloc, command, option));
        }
        rest = behind(rest, 2);
    }
    match rest {
        [] => with_code(alloc, code, Value::new(alloc)),
        [value, ..] => with_code(alloc, code, value.shared(alloc)?),
    }
}

/// Runs `return ?-code code? ?-errorinfo text? ?-errorcode text? ?value?`.
pub(crate) fn returns(
    alloc: Global,
    command: &[u8],
    args: &[Value],
    vars: &Vars,
) -> Result<(Code, Value), AllocError>
    ensures { IfOk result (λ r. on_said (returned command.now args.now None) vars.now (λ c. (Code.Return c.0, c.1, vars.now)) ≡ (r.0, r.1, vars.now)) }
{
    match said(alloc, returned(alloc, command, args))? {
        Ok((carried, value)) => Ok((Code::Return(carried), value)),
        Err(text) => Ok((Code::Error, text)),
    }
}
