//! Shows the values of variables.

ghost use Rattle.std.specs.Prelude.{◌≡◌, Err};

use crate::calls::{name_in, number};
use crate::complaint::Complaint;
use crate::fills::{Filling, filled, push_filled, push_refusal};
use crate::spell::{alloc_of, push_labelled};
use std::alloc::Global;
use tcl_subst::{SubstFault, Vars};
use tcl_values::Value;
use tcl_words::{Packed, Text};

/// Appends `ok`, or the error.
fn push_done(text: &mut Text, done: Result<(), SubstFault>) -> Result<(), Complaint>
    ensures { done ≡ Err SubstFault.Memory → result ≡ Err Complaint.Memory }
{
    match done {
        Ok(()) => Ok(text.extend(b"ok")?),
        Err(fault) => push_refusal(text, fault),
    }
}

/// Appends a value, or `none` if there is none.
fn push_found(text: &mut Text, value: Option<&[u8]>) -> Result<(), Complaint> {
    match value {
        Some(value) => Ok(push_labelled(text, b"value ", value)?),
        None => Ok(text.extend(b"none")?),
    }
}

fn push_yes(text: &mut Text, is_so: bool) -> Result<(), Complaint> {
    Ok(text.extend(if is_so { b"yes" } else { b"no" })?)
}

/// Appends the value, or the error.
fn push_value(text: &mut Text, read: Result<Value, SubstFault>) -> Result<(), Complaint> {
    match read {
        Ok(value) => push_found(text, Some(value.as_slice())),
        Err(fault) => push_refusal(text, fault),
    }
}

/// Appends `yes` if the value's bytes were read as a list that is not stored with the value,
/// otherwise `no`. Appends the error if there is one.
fn push_read(text: &mut Text, read: Result<Value, SubstFault>) -> Result<(), Complaint> {
    match read {
        Ok(value) => push_yes(text, value.was_read()),
        Err(fault) => push_refusal(text, fault),
    }
}

/// Appends the element of a list at a place, `none` if there is none, or the error.
fn push_element(text: &mut Text, value: &Value, place: &Text) -> Result<(), Complaint> {
    let index = number(place)?;
    match value.elements(alloc_of(text)) {
        Ok(elements) => push_found(text, elements.get(index)),
        Err(fault) => push_refusal(text, SubstFault::from(fault)),
    }
}

/// Appends the value of a word.
fn fill(text: &mut Text, vars: &mut Vars, word: &[u8]) -> Result<(), Complaint> {
    let filled = filled(alloc_of(text), vars, word)?;
    push_filled(text, &filled)
}

/// Appends each variable of the outermost scope that has a value, with its value.
fn push_globals(text: &mut Text, vars: &Vars) -> Result<(), Complaint> {
    text.extend(b"globals")?;
    let values = vars.globals()?;
    'values: for (name, value) in &values {
        push_labelled(text, b" ", name.as_slice())?;
        push_labelled(text, b"=", value.as_slice())?;
    }
    Ok(())
}

/// Ends the current scope, unless it is the outermost one.
fn pop(text: &mut Text, vars: &mut Vars) -> Result<(), Complaint> {
    if vars.is_outermost() {
        text.extend(b"outermost")?;
        return Ok(());
    }
    vars.pop_scope();
    Ok(text.extend(b"ok")?)
}

fn on_scopes(text: &mut Text, vars: &mut Vars, act: &str) -> Result<(), Complaint> {
    match act {
        "push" => push_done(text, vars.push_scope()),
        "pop" => pop(text, vars),
        "globals" => push_globals(text, vars),
        _ => Err(Complaint::Call),
    }
}

fn on_name(text: &mut Text, vars: &mut Vars, act: &str, name: &[u8]) -> Result<(), Complaint> {
    match act {
        "get" => push_value(text, vars.get(name)),
        "global" => push_value(text, vars.get_global(name)),
        "exists" => push_yes(text, vars.exists(name)),
        "unset" => push_done(text, vars.unset(name)),
        "link" => push_done(text, vars.link_global(name)),
        "list" => push_done(text, vars.listed(name)),
        "read" => push_read(text, vars.get(name)),
        "fill" => fill(text, vars, name),
        _ => Err(Complaint::Call),
    }
}

/// Sets a variable to the value of a word.
fn assign(text: &mut Text, vars: &mut Vars, name: &[u8], word: &[u8]) -> Result<(), Complaint> {
    match filled(alloc_of(text), vars, word)? {
        Filling::Value(value) => push_done(text, vars.set(name, value)),
        refused => push_filled(text, &refused),
    }
}

/// Sets a variable.
fn set(text: &mut Text, vars: &mut Vars, name: &[u8], bytes: &[u8]) -> Result<(), Complaint> {
    let value = Value::from_slice(alloc_of(text), bytes)?;
    push_done(text, vars.set(name, value))
}

/// Appends words to the elements of a variable.
fn append_elements(
    text: &mut Text,
    vars: &mut Vars,
    name: &[u8],
    words: &[Text],
) -> Result<(), Complaint> {
    let mut more = Packed::new(alloc_of(text));
    'words: for word in words {
        more.push(word.as_slice())?;
    }
    push_done(text, vars.append_elements(name, &more))
}

/// Appends the element at a place of a variable.
fn push_element_of(
    text: &mut Text,
    vars: &Vars,
    name: &[u8],
    place: &Text,
) -> Result<(), Complaint> {
    match vars.get(name) {
        Ok(value) => push_element(text, &value, place),
        Err(fault) => push_refusal(text, fault),
    }
}

fn on_word(
    text: &mut Text,
    vars: &mut Vars,
    act: &str,
    name: &[u8],
    word: &Text,
) -> Result<(), Complaint> {
    let bytes = word.as_slice();
    match act {
        "set" => set(text, vars, name, bytes),
        "append" => push_done(text, vars.append(name, bytes)),
        "assign" => assign(text, vars, name, bytes),
        "member" => push_value(text, vars.get_member(name, bytes)),
        "element" => push_element_of(text, vars, name, word),
        _ => Err(Complaint::Call),
    }
}

fn perform(text: &mut Text, vars: &mut Vars, act: &str, words: &[Text]) -> Result<(), Complaint> {
    match words {
        [name, more @ ..] if act == "lappend" => {
            append_elements(text, vars, name.as_slice(), more)
        }
        [] => on_scopes(text, vars, act),
        [name] => on_name(text, vars, act, name.as_slice()),
        [name, word] => on_word(text, vars, act, name.as_slice(), word),
        _ => Err(Complaint::Call),
    }
}

/// Appends a line with the result of a call.
fn push_answer(text: &mut Text, vars: &mut Vars, call: &Vec<Text>) -> Result<(), Complaint> {
    let [act, words @ ..] = call.as_slice() else {
        return Err(Complaint::Call);
    };
    perform(text, vars, name_in(act.as_slice()), words)?;
    Ok(text.push(b'\n')?)
}

/// Carries out all calls `count` times, without showing them.
fn rounds(
    alloc: Global,
    vars: &mut Vars,
    calls: &[Vec<Text>],
    count: u64,
) -> Result<(), Complaint> {
    let mut unshown = Text::new(alloc);
    'rounds: for _ in 0..count {
        'calls: for call in calls {
            push_answer(&mut unshown, vars, call)?;
        }
    }
    Ok(())
}

/// Returns how often the following calls are carried out, if this call says so.
fn times(call: &Vec<Text>) -> Result<Option<u64>, Complaint> {
    match call.as_slice() {
        [act, count] if act.as_slice() == b"times".as_slice() => Ok(Some(number(count)?)),
        _ => Ok(None),
    }
}

/// Appends a line for each call. `times` and a number carries out all following calls that many
/// times before, without a line.
fn push_answers(text: &mut Text, vars: &mut Vars, calls: &[Vec<Text>]) -> Result<(), Complaint> {
    'calls: for index in 0..calls.len() {
        let call = &calls[index];
        match times(call)? {
            None => push_answer(text, vars, call)?,
            Some(count) => rounds(alloc_of(text), vars, &calls[index + 1..], count)?,
        }
    }
    Ok(())
}

/// Carries out calls on variables, and appends a line with the result of each.
///
/// The calls are: `push`, `pop` or `globals`. `get`, `global`, `exists`, `unset`, `link`, `list` or
/// `read` and a name. `fill` and a text. `set` or `append`, a name and bytes. `assign`, a name and
/// a text. `member`, an array and an index. `element`, a name and a place. `lappend`, a name and
/// elements.
pub fn push_variables(text: &mut Text, calls: &[Vec<Text>]) -> Result<(), Complaint> {
    let mut vars = Vars::new(alloc_of(text));
    push_answers(text, &mut vars, calls)
}
