//! The command `subst`.

ghost use Rattle.std.specs.Prelude.{◌≡◌, ◌≢◌, IfOk};
ghost use Rattle.tcl_commands.specs.Substituted.{said_of, text_said, substituted};
ghost use Rattle.tcl_results.specs.Said.{told};
ghost use Rattle.tcl_results.specs.Says.{Says};
ghost use Rattle.tcl_results.specs.Texts.{word_fault};
ghost use Rattle.tcl_subst.specs.Filled.{filled};
ghost use Rattle.tcl_subst.specs.Filling.{fill};
ghost use Rattle.tcl_words.specs.Pieces.{parts_view};

use command_table::Switches;
use std::alloc::{AllocError, Global};
use tcl_results::given::{arg, behind};
use tcl_results::switches::flags_of;
use tcl_results::{Code, Complaint, not_read, told, word_fault};
use tcl_subst::{Filled, Vars, fill_word};
use tcl_values::Value;
use tcl_words::{Part, Text, Word, WordFault, text_parts};

/// Returns the value, or why a variable can't be read.
fn said_of(alloc: Global, filled: Filled) -> Result<Value, Complaint>
    ensures { Says result (said_of filled) }
{
    match filled {
        Filled::Value(value) => Ok(value),
        Filled::Fault(fault, name) => {
            Err(Complaint::Said(not_read(alloc, name.as_slice(), fault)?))
        }
        Filled::Script => Ok(Value::new(alloc)),
    }
}

/// Returns the value of parts without scripts.
fn filled_parts(alloc: Global, parts: Vec<Part>, vars: &mut Vars) -> Result<Value, Complaint>
    ensures value { Says result (said_of (filled (fill (parts_view parts.items) vars.old))) }
    ensures same { vars.new ≡ vars.old }
{
    let word = Word {
        expand: false,
        parts,
    };
    let filled = fill_word(alloc, &word, vars)?;
    said_of(alloc, filled)
}

/// Returns why a text can't be parsed. `AllocError` for `Memory`.
fn not_parsed(alloc: Global, fault: WordFault) -> Result<Text, AllocError>
    ensures text { IfOk result (λ t. t ≡ word_fault fault) }
    ensures memory { IfOk result (λ _. fault ≢ WordFault.Memory) }
{
    match fault {
        WordFault::Memory => Err(AllocError),
        _ => Text::from_slice(alloc, word_fault(fault)),
    }
}

/// Returns a text with its backslashes and variables replaced.
#[tactic(auto, using(crate::proofs::Parsed::fails_said))]
fn text_said(alloc: Global, text: &[u8], vars: &mut Vars) -> Result<Value, Complaint>
    ensures value { Says result (text_said text.now vars.old) }
    ensures same { vars.new ≡ vars.old }
{
    match text_parts(alloc, text) {
        Ok(parts) => filled_parts(alloc, parts, vars),
        Err(fault) => Err(Complaint::Said(not_parsed(alloc, fault)?)),
    }
}

/// Returns the value of `subst -nocommands text`.
fn substituted(
    alloc: Global,
    command: &[u8],
    args: &[Value],
    vars: &mut Vars,
) -> Result<Value, Complaint>
    ensures value { Says result (substituted command.now args.now vars.old) }
    ensures same { vars.new ≡ vars.old }
{
    let (_, count) = flags_of(alloc, Switches::Substitute, 1, command, args)?;
    text_said(alloc, arg(behind(args, count), 0), vars)
}

/// Runs `subst -nocommands text`.
pub(crate) fn subst(
    alloc: Global,
    command: &[u8],
    args: &[Value],
    vars: &mut Vars,
) -> Result<(Code, Value), AllocError>
    ensures { IfOk result (λ r. told (substituted command.now args.now vars.old) vars.old ≡ (r.0, r.1, vars.new)) }
{
    let said = substituted(alloc, command, args, vars);
    let (code, value) = told(alloc, said)?;
    Ok((code, value))
}
