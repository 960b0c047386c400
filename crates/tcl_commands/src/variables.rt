//! The commands that read and change variables.

ghost use Rattle.std.specs.Prelude.{◌≡◌, IfOk, OnOk};
ghost use Rattle.std.specs.List.{flat_map};
ghost use Rattle.tcl_commands.specs.Plain.{set, unset, is_quiet, unset_names, global, old_number, sum, incremented, increment, incr, append, lappend, info_by, info};
ghost use Rattle.tcl_results.specs.Says.{Says};
ghost use Rattle.tcl_results.specs.Setting.{written_to, changed_or, unset_quietly};
ghost use Rattle.tcl_subst.specs.Variables.{with_value, without_value};
ghost use Rattle.tcl_subst.specs.Writes.{appended, elements_appended};

use command_table::{InfoOption, fits, info_count, info_option, is};
use std::alloc::{AllocError, Global};
use tcl_results::given::{arg, others};
use tcl_results::setting::{read, set_if_said, set_to};
use tcl_results::{
    Code, Complaint, as_number, bad_option, bit_text, error, is_missing, not_read, not_set,
    not_unset, number_text, packed, told, wrong,
};
use tcl_subst::{SubstFault, Vars};
use tcl_values::Value;
use tcl_words::Text;

/// Runs `set name ?value?`.
pub(crate) fn set(
    alloc: Global,
    args: &[Value],
    vars: &mut Vars,
) -> Result<(Code, Value), AllocError>
    ensures { IfOk result (λ r. set args.now vars.old ≡ (r.0, r.1, vars.new)) }
{
    match args {
        [] => told(alloc, read(alloc, &[], vars)),
        [name] => told(alloc, read(alloc, name.as_slice(), vars)),
        [name, value, ..] => set_to(alloc, name.as_slice(), value, vars),
    }
}

/// Unsets a variable. Does nothing if it can't be unset.
fn unset_one(name: &[u8], vars: &mut Vars) -> Result<(), AllocError>
    ensures { OnOk result (vars.new ≡ changed_or vars.old (without_value name.now vars.old)) }
{
    match vars.unset(name) {
        Ok(()) => Ok(()),
        Err(SubstFault::Memory) => Err(AllocError),
        Err(SubstFault::NoVariable) => Ok(()),
        Err(SubstFault::IsArray) => Ok(()),
        Err(SubstFault::NotArray) => Ok(()),
        Err(SubstFault::TooLong) => Ok(()),
        Err(SubstFault::Exists) => Ok(()),
        Err(SubstFault::BadList) => Ok(()),
    }
}

/// Unsets all variables that can be unset.
pub(crate) fn unset_quietly(
    alloc: Global,
    args: &[Value],
    vars: &mut Vars,
) -> Result<(Code, Value), AllocError>
    ensures { IfOk result (λ r. unset_quietly args.now vars.old ≡ (r.0, r.1, vars.new)) }
{
    let mut names = args;
    while let [name, rest @ ..] = names {
        unset_one(name.as_slice(), vars)?;
        names = rest;
    }
    Ok((Code::Ok, Value::new(alloc)))
}

/// Returns whether a word is `-nocomplain`, and not the name of an existing variable.
fn is_quiet(word: &[u8], vars: &Vars) -> bool
    ensures { result ≡ is_quiet word.now vars.now }
{
    is(word, b"-nocomplain") && !vars.exists(word)
}

/// Runs `unset ?-nocomplain? name ..`.
pub(crate) fn unset_names(
    alloc: Global,
    args: &[Value],
    vars: &mut Vars,
) -> Result<(Code, Value), AllocError>
    ensures { IfOk result (λ r. unset_names args.now vars.old ≡ (r.0, r.1, vars.new)) }
{
    match args {
        [] => unset(alloc, args, vars),
        [word, names @ ..] => {
            if is_quiet(word.as_slice(), vars) {
                return unset_quietly(alloc, names, vars);
            }
            unset(alloc, args, vars)
        }
    }
}

/// Unsets variables in order, up to the first that can't be unset.
fn unset(alloc: Global, args: &[Value], vars: &mut Vars) -> Result<(Code, Value), AllocError>
    ensures { IfOk result (λ r. unset args.now vars.old ≡ (r.0, r.1, vars.new)) }
{
    let mut names = args;
    while let [name, rest @ ..] = names {
        let name = name.as_slice();
        if let Err(fault) = vars.unset(name) {
            return error(alloc, not_unset(alloc, name, fault)?);
        }
        names = rest;
    }
    Ok((Code::Ok, Value::new(alloc)))
}

/// Runs `global name ..`.
pub(crate) fn global(
    alloc: Global,
    args: &[Value],
    vars: &mut Vars,
) -> Result<(Code, Value), AllocError>
    ensures { IfOk result (λ r. global args.now vars.old ≡ (r.0, r.1, vars.new)) }
{
    let mut names = args;
    while let [name, rest @ ..] = names {
        let name = name.as_slice();
        if let Err(fault) = vars.link_global(name) {
            return error(alloc, not_set(alloc, name, fault)?);
        }
        names = rest;
    }
    Ok((Code::Ok, Value::new(alloc)))
}

/// Returns the number that a variable is. A missing variable counts as 0.
fn old_number(alloc: Global, name: &[u8], vars: &Vars) -> Result<i64, Complaint>
    ensures { Says result (old_number name.now vars.now) }
{
    match vars.peek(name) {
        Ok(text) => as_number(alloc, text),
        Err(fault) => {
            if is_missing(fault) {
                return as_number(alloc, b"0");
            }
            Err(Complaint::Said(not_read(alloc, name, fault)?))
        }
    }
}

fn sum(alloc: Global, a: i64, b: i64) -> Result<Value, Complaint>
    ensures { Says result (sum a b) }
{
    match a.checked_add(b) {
        Some(number) => Ok(number_text(alloc, number)?),
        None => Err(Complaint::Said(Text::from_slice(alloc, b"integer overflow")?)),
    }
}

/// Returns the value of a variable plus a number.
fn incremented(alloc: Global, name: &[u8], by: &[u8], vars: &Vars) -> Result<Value, Complaint>
    ensures { Says result (incremented name.now by.now vars.now) }
{
    let old = old_number(alloc, name, vars)?;
    let by = as_number(alloc, by)?;
    sum(alloc, old, by)
}

/// Returns the increment of `incr`, by default 1.
fn increment(args: &[Value]) -> &[u8]
    ensures { result.now ≡ increment args.now }
{
    match args {
        [_, by, ..] => by.as_slice(),
        _ => b"1",
    }
}

/// Runs `incr name ?number?`.
pub(crate) fn incr(
    alloc: Global,
    args: &[Value],
    vars: &mut Vars,
) -> Result<(Code, Value), AllocError>
    ensures { IfOk result (λ r. incr args.now vars.old ≡ (r.0, r.1, vars.new)) }
{
    let value = incremented(alloc, arg(args, 0), increment(args), vars);
    set_if_said(alloc, arg(args, 0), value, vars)
}

/// Returns the concatenated bytes of texts.
fn joined(alloc: Global, texts: &[Value]) -> Result<Text, AllocError>
    ensures { IfOk result (λ t. t ≡ flat_map (λ t. t) texts.now) }
{
    let mut text = Text::new(alloc);
    for more in texts {
        text.extend(more.as_slice())?;
    }
    Ok(text)
}

/// Runs `append name text ..`.
pub(crate) fn append(
    alloc: Global,
    args: &[Value],
    vars: &mut Vars,
) -> Result<(Code, Value), AllocError>
    ensures { IfOk result (λ r. append args.now vars.old ≡ (r.0, r.1, vars.new)) }
{
    append_to(alloc, arg(args, 0), others(args), vars)
}

fn append_to(
    alloc: Global,
    name: &[u8],
    texts: &[Value],
    vars: &mut Vars,
) -> Result<(Code, Value), AllocError>
    ensures { IfOk result (λ r. written_to name.now vars.old (with_value (appended (flat_map (λ t. t) texts.now)) name.now vars.old) ≡ (r.0, r.1, vars.new)) }
{
    let bytes = joined(alloc, texts)?;
    append_bytes(alloc, name, bytes.as_slice(), vars)
}

fn append_bytes(
    alloc: Global,
    name: &[u8],
    bytes: &[u8],
    vars: &mut Vars,
) -> Result<(Code, Value), AllocError>
    ensures { IfOk result (λ r. written_to name.now vars.old (with_value (appended bytes.now) name.now vars.old) ≡ (r.0, r.1, vars.new)) }
{
    match vars.append(name, bytes) {
        Ok(()) => told(alloc, read(alloc, name, vars)),
        Err(fault) => error(alloc, not_set(alloc, name, fault)?),
    }
}

/// Runs `lappend name value ..`.
pub(crate) fn lappend(
    alloc: Global,
    args: &[Value],
    vars: &mut Vars,
) -> Result<(Code, Value), AllocError>
    ensures { IfOk result (λ r. lappend args.now vars.old ≡ (r.0, r.1, vars.new)) }
{
    let name = arg(args, 0);
    let more = packed(alloc, others(args))?;
    match vars.append_elements(name, &more) {
        Ok(()) => told(alloc, read(alloc, name, vars)),
        Err(fault) => error(alloc, not_set(alloc, name, fault)?),
    }
}

/// Returns the value of `info option arg ..`.
pub(crate) fn info(
    alloc: Global,
    command: &[u8],
    args: &[Value],
    vars: &Vars,
) -> Result<Value, Complaint>
    ensures { Says result (info command.now args.now vars.now) }
{
    match info_option(arg(args, 0)) {
        None => Err(Complaint::Said(bad_option(alloc, arg(args, 0))?)),
        Some(option) => {
            let words = others(args);
            if fits(info_count(option), words.len()) {
                return info_by(alloc, option, words, vars);
            }
            Err(wrong(alloc, command))
        }
    }
}

/// Runs an option of `info` with the arguments after it.
fn info_by(
    alloc: Global,
    option: InfoOption,
    args: &[Value],
    vars: &Vars,
) -> Result<Value, Complaint>
    ensures { Says result (info_by option args.now vars.now) }
{
    match option {
        InfoOption::Exists => Ok(bit_text(alloc, vars.exists(arg(args, 0)))?),
    }
}
