//! The command `array`.

ghost use Rattle.std.specs.Prelude.{◌≡◌, ◌∷◌, [], false, IfOk, length, map, is_some, if◌then◌else◌};
ghost use Rattle.exp_glob.specs.Whole.{whole_of, matches};
ghost use Rattle.tcl_commands.specs.Arrays.{elements_of, matching, indexes, alternating, set_elements, set_named, array_set, removed, pattern, array_by, array};
ghost use Rattle.tcl_results.specs.Says.{Says};
ghost use Rattle.tcl_results.specs.Said.{limited};
ghost use Rattle.tcl_results.specs.Given.{arg};
ghost use Rattle.tcl_results.specs.Setting.{unset_quietly};
ghost use Rattle.tcl_results.specs.Values.{count_text, bit_text};
ghost use Rattle.tcl_subst.specs.Variables.{array_of};
ghost use Rattle.tcl_subst.specs.Filling.{element_name};
ghost use Rattle.tcl_words.specs.Lists.{written};

use crate::variables::unset_quietly;
use command_table::{ArrayOption, array_count, array_option, fits};
use exp_glob::Glob;
use std::alloc::{AllocError, Global};
use tcl_lists::list;
use tcl_results::given::{arg, arg_or, others};
use tcl_results::indices::element;
use tcl_results::{
    Code, Complaint, bad_option, bit_text, count_text, error, not_set, said, told, wrong_call,
};
use tcl_strings::pairs_of;
use tcl_subst::{Names, SubstFault, Vars, element_name};
use tcl_values::{Elements, Value};

/// Returns whether a pattern matches an index.
#[tactic(auto, using(exp_glob::proofs::Wholes::whole_is))]
fn is_match(glob: &Glob, pattern: &[u8], index: &[u8]) -> bool
    requires { glob.now ≡ whole_of pattern.now }
    ensures { result ≡ matches false pattern.now index.now }
{
    glob.is_found(index, false)
}

/// Returns the indexes that match a pattern, in byte order.
#[tactic(auto, using(crate::proofs::Matched::index_on, crate::proofs::Matched::index_at))]
fn indexes(alloc: Global, pattern: &[u8], elements: &Names<Value>) -> Result<Vec<Value>, AllocError>
    ensures { IfOk result (λ v. v.items ≡ indexes (matching pattern.now elements.now)) }
{
    let glob = Glob::whole(alloc, pattern, false)?;
    let mut made = Vec::new(alloc);
    for (index, _) in elements.entries(alloc)?.into_iter() {
        if !is_match(&glob, pattern, index.as_slice()) {
            continue;
        }
        made.push(Value::from_slice(alloc, index.as_slice())?)?;
    }
    Ok(made)
}

/// Returns the elements whose indexes match a pattern, as indexes and values in turn.
#[tactic(auto, using(crate::proofs::Matched::value_on, crate::proofs::Matched::value_at))]
fn alternating(
    alloc: Global,
    pattern: &[u8],
    elements: &Names<Value>,
) -> Result<Vec<Value>, AllocError>
    ensures { IfOk result (λ v. v.items ≡ alternating (matching pattern.now elements.now)) }
{
    let glob = Glob::whole(alloc, pattern, false)?;
    let mut made = Vec::new(alloc);
    for (index, value) in elements.entries(alloc)?.into_iter() {
        if !is_match(&glob, pattern, index.as_slice()) {
            continue;
        }
        made.push(Value::from_slice(alloc, index.as_slice())?)?;
        made.push(value.shared(alloc)?)?;
    }
    Ok(made)
}

/// Returns the indexes of an array that match a pattern. There are none if there is no such array.
fn names_of(
    alloc: Global,
    name: &[u8],
    pattern: &[u8],
    vars: &Vars,
) -> Result<Vec<Value>, AllocError>
    ensures { IfOk result (λ v. v.items ≡ indexes (matching pattern.now (elements_of name.now vars.now))) }
{
    match vars.array(name) {
        None => Ok(Vec::new(alloc)),
        Some(elements) => indexes(alloc, pattern, elements),
    }
}

/// Returns the elements of an array that match a pattern, as indexes and values in turn.
fn pairs_in(
    alloc: Global,
    name: &[u8],
    pattern: &[u8],
    vars: &Vars,
) -> Result<Vec<Value>, AllocError>
    ensures { IfOk result (λ v. v.items ≡ alternating (matching pattern.now (elements_of name.now vars.now))) }
{
    match vars.array(name) {
        None => Ok(Vec::new(alloc)),
        Some(elements) => alternating(alloc, pattern, elements),
    }
}

/// Returns the value of `array names name ?pattern?`.
fn array_names(alloc: Global, args: &[Value], vars: &Vars) -> Result<Value, Complaint>
    ensures { Says result (limited (written (indexes (matching (pattern args.now) (elements_of (arg 0 args.now) vars.now))))) }
{
    let names = names_of(alloc, arg(args, 0), arg_or(args, 1, b"*"), vars)?;
    list(alloc, names.as_slice())
}

/// Returns the value of `array get name ?pattern?`.
fn array_get(alloc: Global, args: &[Value], vars: &Vars) -> Result<Value, Complaint>
    ensures { Says result (limited (written (alternating (matching (pattern args.now) (elements_of (arg 0 args.now) vars.now))))) }
{
    let pairs = pairs_in(alloc, arg(args, 0), arg_or(args, 1, b"*"), vars)?;
    list(alloc, pairs.as_slice())
}

/// Returns the value of `array size name`.
fn array_size(alloc: Global, name: &[u8], vars: &Vars) -> Result<Value, AllocError>
    ensures { IfOk result (λ v. v ≡ count_text (length (elements_of name.now vars.now))) }
{
    match vars.array(name) {
        None => count_text(alloc, 0),
        Some(elements) => count_text(alloc, elements.entries(alloc)?.len()),
    }
}

/// Makes a missing variable an array without elements.
fn with_array(alloc: Global, name: &[u8], vars: &mut Vars) -> Result<(Code, Value), AllocError>
    ensures { IfOk result (λ r. set_elements name.now [] vars.old ≡ (r.0, r.1, vars.new)) }
{
    match vars.make_array(name) {
        Ok(()) => Ok((Code::Ok, Value::new(alloc))),
        Err(fault) => error(alloc, not_set(alloc, name, fault)?),
    }
}

/// Sets the elements of an array, up to the first that can't be set. Indexes and values alternate.
#[tactic(auto, using(crate::proofs::Pairwise::set_on, crate::proofs::Pairwise::set_fails, crate::proofs::Pairwise::set_end))]
fn set_elements(
    alloc: Global,
    name: &[u8],
    elements: &Elements,
    vars: &mut Vars,
) -> Result<(Code, Value), AllocError>
    ensures { IfOk result (λ r. set_elements name.now elements.now vars.old ≡ (r.0, r.1, vars.new)) }
{
    for pair in 0..elements.len() / 2 {
        let index = element(elements, 2 * pair);
        let text = element(elements, 2 * pair + 1);
        let place = element_name(alloc, name, index)?;
        let value = Value::from_slice(alloc, text)?;
        if let Err(fault) = vars.set(place.as_slice(), value) {
            return error(alloc, not_set(alloc, place.as_slice(), fault)?);
        }
    }
    with_array(alloc, name, vars)
}

/// Sets the elements of an array. A name with a parenthesis is not that of an array.
fn set_named(
    alloc: Global,
    name: &[u8],
    elements: &Elements,
    vars: &mut Vars,
) -> Result<(Code, Value), AllocError>
    ensures { IfOk result (λ r. set_named name.now elements.now vars.old ≡ (r.0, r.1, vars.new)) }
{
    if name.contains(&b'(') {
        return error(alloc, not_set(alloc, name, SubstFault::NotArray)?);
    }
    set_elements(alloc, name, elements, vars)
}

/// Runs `array set name list`.
fn array_set(
    alloc: Global,
    name: &[u8],
    list: &Value,
    vars: &mut Vars,
) -> Result<(Code, Value), AllocError>
    ensures { IfOk result (λ r. array_set name.now list.now vars.old ≡ (r.0, r.1, vars.new)) }
{
    match said(alloc, pairs_of(alloc, list))? {
        Err(text) => Ok((Code::Error, text)),
        Ok(elements) => set_named(alloc, name, &elements, vars),
    }
}

/// Returns the names of elements of an array.
fn element_names(alloc: Global, name: &[u8], indexes: &[Value]) -> Result<Vec<Value>, AllocError>
    ensures { IfOk result (λ v. v.items ≡ map (element_name name.now) indexes.now) }
{
    let mut made = Vec::new(alloc);
    for index in indexes {
        let place = element_name(alloc, name, index.as_slice())?;
        made.push(Value::from_text(alloc, place)?)?;
    }
    Ok(made)
}

/// Returns the name of an array if there is such an array, otherwise nothing.
fn name_of_array(alloc: Global, name: &[u8], vars: &Vars) -> Result<Vec<Value>, AllocError>
    ensures { IfOk result (λ v. v.items ≡ (if is_some (array_of name.now vars.now) then name.now ∷ [] else [])) }
{
    let mut made = Vec::new(alloc);
    if vars.array(name).is_none() {
        return Ok(made);
    }
    made.push(Value::from_slice(alloc, name)?)?;
    Ok(made)
}

/// Returns the names that `array unset name ?pattern?` unsets.
fn removed(alloc: Global, args: &[Value], vars: &Vars) -> Result<Vec<Value>, AllocError>
    ensures { IfOk result (λ v. v.items ≡ removed args.now vars.now) }
{
    match args {
        [] => name_of_array(alloc, &[], vars),
        [name] => name_of_array(alloc, name.as_slice(), vars),
        [name, pattern, ..] => {
            let indexes = names_of(alloc, name.as_slice(), pattern.as_slice(), vars)?;
            element_names(alloc, name.as_slice(), indexes.as_slice())
        }
    }
}

/// Runs `array unset name ?pattern?`.
fn array_unset(alloc: Global, args: &[Value], vars: &mut Vars) -> Result<(Code, Value), AllocError>
    ensures { IfOk result (λ r. unset_quietly (removed args.now vars.old) vars.old ≡ (r.0, r.1, vars.new)) }
{
    let names = removed(alloc, args, vars)?;
    unset_quietly(alloc, names.as_slice(), vars)
}

/// Returns whether there is such an array.
fn array_exists(alloc: Global, name: &[u8], vars: &Vars) -> Result<Value, AllocError>
    ensures { IfOk result (λ v. v ≡ bit_text (is_some (array_of name.now vars.now))) }
{
    bit_text(alloc, vars.array(name).is_some())
}

/// Runs an option of `array` with the arguments after it.
fn array_by(
    alloc: Global,
    option: ArrayOption,
    args: &[Value],
    vars: &mut Vars,
) -> Result<(Code, Value), AllocError>
    ensures { IfOk result (λ r. array_by option args.now vars.old ≡ (r.0, r.1, vars.new)) }
{
    match option {
        ArrayOption::Exists => Ok((Code::Ok, array_exists(alloc, arg(args, 0), vars)?)),
        ArrayOption::Get => told(alloc, array_get(alloc, args, vars)),
        ArrayOption::Names => told(alloc, array_names(alloc, args, vars)),
        ArrayOption::Set => match args {
            [name, list, ..] => array_set(alloc, name.as_slice(), list, vars),
            [name] => array_set(alloc, name.as_slice(), &Value::new(alloc), vars),
            [] => array_set(alloc, &[], &Value::new(alloc), vars),
        },
        ArrayOption::Size => Ok((Code::Ok, array_size(alloc, arg(args, 0), vars)?)),
        ArrayOption::Unset => array_unset(alloc, args, vars),
    }
}

/// Runs `array option name ..`.
pub(crate) fn array(
    alloc: Global,
    command: &[u8],
    args: &[Value],
    vars: &mut Vars,
) -> Result<(Code, Value), AllocError>
    ensures { IfOk result (λ r. array command.now args.now vars.old ≡ (r.0, r.1, vars.new)) }
{
    match array_option(arg(args, 0)) {
        None => error(alloc, bad_option(alloc, arg(args, 0))?),
        Some(option) => {
            let words = others(args);
            if fits(array_count(option), words.len()) {
                return array_by(alloc, option, words, vars);
            }
            wrong_call(alloc, command)
        }
    }
}
