//! What stat(1) writes: ten numbers, of which the mode is in hexadecimal digits.

ghost use Rattle.std.specs.Prelude.{◌≡◌, IfOk};
ghost use Rattle.tcl_results.specs.Says.{Says};
ghost use Rattle.expect_core.specs.Tools.{element as element_of, field as field_of, fielded as fielded_of, fields_of as fields_meant, hex as hex_of, hex_step as hex_step_of, sets as sets_of, from_size, from_mode, kind_of, stat_effects, stated as stated_of, stored_by as stored_by_of, type_by as type_by_of};

use crate::effect::{Effect, Effects};
use crate::texts::{decimal, with_cause};
use crate::tool::ToolRun;
use crate::tools::{failed, is_well, says};
use crate::turn::Reaction;
use child_events::{Answer, Cause};
use std::alloc::{AllocError, Global};
use tcl_results::{Complaint, list_of};
use tcl_values::Value;
use tcl_words::{Text, Texts, digit};

/// Returns a number with one digit more. It has at most eight digits.
fn hex_step(number: u64, byte: u8) -> Option<u64>
    ensures { result ≡ hex_step_of number byte }
{
    if 268_435_455 < number {
        return None;
    }
    match digit(16, byte) {
        Some(digit) => Some(number * 16 + u64::from(digit)),
        None => None,
    }
}

/// Returns the number that hexadecimal digits write.
fn hex(text: &[u8]) -> Option<u64>
    ensures { result ≡ hex_of text.now }
{
    let mut number: u64 = 0;
    'digits: for byte in text {
        match hex_step(number, *byte) {
            Some(next) => number = next,
            None => return None,
        }
    }
    Some(number)
}

/// Returns the kind of a file, by the upper bits of its mode.
fn type_by(bits: u64) -> &'static [u8]
    ensures { result.now ≡ type_by_of bits }
{
    match bits {
        1 => b"fifo",
        2 => b"characterSpecial",
        4 => b"directory",
        6 => b"blockSpecial",
        8 => b"file",
        12 => b"socket",
        _ => b"unknown",
    }
}

/// Returns the kind of a file with this mode.
#[tactic(auto, unfolding(crate::specs::Tools::kind_of))]
fn kind_of(mode: u64) -> &'static [u8]
    ensures { result.now ≡ kind_of mode }
{
    type_by(mode / 4096)
}

/// Returns the field with this index, or no bytes if there is none.
fn field(fields: &[Text], n: usize) -> &[u8]
    ensures { result.now ≡ field_of n fields.now }
{
    if n < fields.len() {
        fields[n].as_slice()
    } else {
        &[]
    }
}

/// Returns the name of an element of an array.
fn element(alloc: Global, name: &[u8], index: &[u8]) -> Result<Text, AllocError>
    ensures { IfOk result (λ t. t ≡ element_of name.now index.now) }
{
    let mut text = Text::from_slice(alloc, name)?;
    text.push(b'(')?;
    text.extend(index)?;
    text.push(b')')?;
    Ok(text)
}

/// Returns the effect that sets an element.
fn sets(alloc: Global, name: &[u8], index: &[u8], value: &[u8]) -> Result<Effect, AllocError>
    ensures { IfOk result (λ e. e ≡ sets_of name.now index.now value.now) }
{
    let name = element(alloc, name, index)?;
    Ok(Effect::Set(name, Value::from_slice(alloc, value)?))
}

/// Returns the effects that set the elements of an array from `size` on.
fn set_from_size(
    alloc: Global,
    name: &[u8],
    fields: &[Text],
    mode: u64,
) -> Result<Effects, AllocError>
    ensures { IfOk result (λ e. e ≡ from_size name.now fields.now mode) }
{
    Effects::one(alloc, sets(alloc, name, b"uid", field(fields, 9))?)?
        .behind(sets(alloc, name, b"type", kind_of(mode))?)?
        .behind(sets(alloc, name, b"size", field(fields, 8))?)
}

/// Returns the effects that set the elements of an array from `mode` on.
fn set_from_mode(
    alloc: Global,
    name: &[u8],
    fields: &[Text],
    mode: u64,
) -> Result<Effects, AllocError>
    ensures { IfOk result (λ e. e ≡ from_mode name.now fields.now mode) }
{
    let decimal_mode = decimal(alloc, mode as usize)?;
    set_from_size(alloc, name, fields, mode)?
        .behind(sets(alloc, name, b"nlink", field(fields, 7))?)?
        .behind(sets(alloc, name, b"mtime", field(fields, 6))?)?
        .behind(sets(alloc, name, b"mode", decimal_mode.as_slice())?)
}

/// Returns the effects that set the elements of an array.
fn set_all(alloc: Global, name: &[u8], fields: &[Text], mode: u64) -> Result<Effects, AllocError>
    ensures { IfOk result (λ e. e ≡ stat_effects name.now fields.now mode) }
{
    set_from_mode(alloc, name, fields, mode)?
        .behind(sets(alloc, name, b"ino", field(fields, 4))?)?
        .behind(sets(alloc, name, b"gid", field(fields, 3))?)?
        .behind(sets(alloc, name, b"dev", field(fields, 2))?)?
        .behind(sets(alloc, name, b"ctime", field(fields, 1))?)?
        .behind(sets(alloc, name, b"atime", field(fields, 0))?)
}

/// Returns the ten fields, or an error.
fn fields_of(alloc: Global, run: &ToolRun) -> Result<Texts, Complaint>
    ensures { Says result (fields_meant run.now) }
{
    let bytes = Value::from_slice(alloc, run.bytes.as_slice())?;
    let elements = list_of(alloc, &bytes)?;
    let fields = elements.texts(alloc)?;
    if fields.len() == 10 {
        return Ok(fields);
    }
    let text = with_cause(alloc, run.failing.as_slice(), Cause::Other)?;
    Err(Complaint::Said(text))
}

/// Returns the end of a `file stat` with these fields.
fn stored(alloc: Global, name: &[u8], fields: &Texts, run: &ToolRun) -> Result<Reaction, AllocError>
    ensures { IfOk result (λ r. r ≡ stored_by_of run.now name.now fields.now (hex_of (field_of 5 fields.now))) }
{
    match hex(field(fields.as_slice(), 5)) {
        None => failed(alloc, run, Cause::Other),
        Some(mode) => {
            let effects = set_all(alloc, name, fields.as_slice(), mode)?;
            Ok(Reaction::well(alloc, effects))
        }
    }
}

/// Returns the end of a command whose value is a field.
pub(crate) fn fielded(
    alloc: Global,
    n: usize,
    run: &ToolRun,
    answer: Answer,
) -> Result<Reaction, AllocError>
    ensures { IfOk result (λ r. r ≡ fielded_of n run.now answer) }
{
    if !is_well(answer) {
        return failed(alloc, run, Cause::NotFound);
    }
    match fields_of(alloc, run) {
        Ok(fields) => {
            let value = Value::from_slice(alloc, field(fields.as_slice(), n))?;
            Ok(says(alloc, value))
        }
        Err(Complaint::Said(text)) => Reaction::badly(alloc, Effects::new(alloc), text),
        Err(Complaint::Memory) => Err(AllocError),
    }
}

/// Returns the end of a `file stat`.
pub(crate) fn stated(
    alloc: Global,
    name: &[u8],
    run: &ToolRun,
    answer: Answer,
) -> Result<Reaction, AllocError>
    ensures { IfOk result (λ r. r ≡ stated_of name.now run.now answer) }
{
    if !is_well(answer) {
        return failed(alloc, run, Cause::NotFound);
    }
    match fields_of(alloc, run) {
        Ok(fields) => stored(alloc, name, &fields, run),
        Err(Complaint::Said(text)) => Reaction::badly(alloc, Effects::new(alloc), text),
        Err(Complaint::Memory) => Err(AllocError),
    }
}
