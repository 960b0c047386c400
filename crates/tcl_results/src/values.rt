//! Reads texts as lists and as numbers.

ghost use Rattle.std.specs.Prelude.{◌≡◌, ◌≢◌, ◌++◌, length, true, false, IfOk, IfErr, OnOk};
ghost use Rattle.tcl_results.specs.Said.{limited, list_of, as_number};
ghost use Rattle.tcl_results.specs.Says.{Says, text_of};
ghost use Rattle.tcl_results.specs.Values.{bit_text, count_text, place_text};
ghost use Rattle.tcl_results.specs.Texts.{too_long};
ghost use Rattle.tcl_expr.specs.Number.{number_text};
ghost use Rattle.tcl_subst.specs.Faults.{is_too_long};
ghost use Rattle.tcl_words.specs.Lists.{written};

use crate::complaint::Complaint;
use crate::texts::{expected_number, no_list, over_limit};
use itoa::Buffer;
use std::alloc::{AllocError, Global};
use tcl_expr::read_number;
use tcl_subst::VALUE_LIMIT;
use tcl_values::{Elements, Value};
use tcl_words::{ListFault, Packed, Text, Texts};

/// Returns the elements of a list. The error is `bad list` if the value is no list.
pub fn list_of(alloc: Global, value: &Value) -> Result<Elements, Complaint>
    ensures { Says result (list_of value.now) }
{
    match value.elements(alloc) {
        Ok(elements) => Ok(elements),
        Err(ListFault::BadList) => Err(no_list(alloc)),
        Err(ListFault::Memory) => Err(Complaint::Memory),
    }
}

/// Returns the number that a text is. The error is `expected number` if it is none.
pub fn as_number(alloc: Global, text: &[u8]) -> Result<i64, Complaint>
    ensures { Says result (as_number text.now) }
{
    match read_number(text) {
        Some(number) => Ok(number),
        None => Err(Complaint::Said(expected_number(alloc, text)?)),
    }
}

/// Returns whether a value of this many bytes would be too long.
#[tactic(auto, unfolding(tcl_subst::specs::Faults::is_too_long))]
pub fn is_too_long(count: usize) -> bool
    ensures { result ≡ is_too_long count }
{
    VALUE_LIMIT < count
}

/// Returns a value. It is an error if it has more than `VALUE_LIMIT` bytes.
pub fn limited(alloc: Global, value: Value) -> Result<Value, Complaint>
    ensures { Says result (limited value) }
{
    if is_too_long(value.len()) {
        return Err(over_limit(alloc));
    }
    Ok(value)
}

/// Appends `gap` and `more` to a text. It is an error if the text is too long afterwards.
pub fn extend_limited(
    alloc: Global,
    text: &mut Text,
    gap: &[u8],
    more: &[u8],
) -> Result<(), Complaint>
    ensures extended { OnOk result (text.new ≡ text.old ++ (gap.now ++ more.now)) }
    ensures short { OnOk result (is_too_long (length text.new) ≡ false) }
    ensures long { IfErr result (λ c. c ≢ Complaint.Memory → (text_of c ≡ too_long) × (is_too_long (length (text.old ++ (gap.now ++ more.now))) ≡ true)) }
{
    text.extend(gap)?;
    text.extend(more)?;
    if is_too_long(text.len()) {
        return Err(over_limit(alloc));
    }
    Ok(())
}

/// Copies values to texts, in order.
pub fn texts_of(alloc: Global, values: &[Value]) -> Result<Texts, AllocError>
    ensures { IfOk result (λ t. t ≡ values.now) }
{
    let mut texts = Texts::new(alloc);
    for value in values {
        texts.push(Text::from_slice(alloc, value.as_slice())?)?;
    }
    Ok(texts)
}

/// Copies values into one block, in order.
pub fn packed(alloc: Global, values: &[Value]) -> Result<Packed, AllocError>
    ensures { IfOk result (λ p. p ≡ values.now) }
{
    let mut packed = Packed::new(alloc);
    for value in values {
        packed.push(value.as_slice())?;
    }
    Ok(packed)
}

/// Returns the decimal text of a number.
pub fn number_text(alloc: Global, number: i64) -> Result<Value, AllocError>
    ensures { IfOk result (λ v. v ≡ number_text number) }
{
    let mut digits = Buffer::new();
    Value::from_slice(alloc, digits.format(number).as_bytes())
}

/// Returns the decimal text of a count.
pub fn count_text(alloc: Global, count: usize) -> Result<Value, AllocError>
    ensures { IfOk result (λ v. v ≡ count_text count) }
{
    let mut digits = Buffer::new();
    Value::from_slice(alloc, digits.format(count).as_bytes())
}

/// Returns the list of elements. It is an error if it is too long.
pub fn list_text(alloc: Global, elements: Packed) -> Result<Value, Complaint>
    ensures { Says result (limited (written elements)) }
{
    limited(alloc, Value::written(alloc, elements)?)
}

/// Returns `1` for true, `0` for false.
pub fn bit_text(alloc: Global, bit: bool) -> Result<Value, AllocError>
    ensures { IfOk result (λ v. v ≡ bit_text bit) }
{
    if bit {
        Value::from_slice(alloc, b"1")
    } else {
        Value::from_slice(alloc, b"0")
    }
}

/// Returns an index as text, or `-1` for `None`.
pub fn place_text(alloc: Global, place: Option<usize>) -> Result<Value, AllocError>
    ensures { IfOk result (λ v. v ≡ place_text place) }
{
    match place {
        None => Value::from_slice(alloc, b"-1"),
        Some(place) => count_text(alloc, place),
    }
}
