//! Commands that edit lists.

ghost use Rattle.std.specs.Prelude.{◌≡◌, ◌≢◌, ◌≤◌, ◌<◌, ◌*◌, ◌^◌, ◌∷◌, [], true, reverse, length, max, IfOk, Err, MatchOption, MatchResult};
ghost use Rattle.std.specs.List.{repeat, splice};
ghost use Rattle.tcl_lists.specs.Editing.{least_size, with_inserted, with_replaced, inserted, linsert, replaced, lreplace, place_within, with_element, variable_with, lset, list_reversed, lreverse, bad_count, repeated, lrepeat, with_result, taken_apart, lassign};
ghost use Rattle.tcl_results.specs.Setting.{assigned};
ghost use Rattle.tcl_results.specs.Said.{Outcome, on_said, limited};
ghost use Rattle.tcl_results.specs.Says.{Says, text_of};
ghost use Rattle.tcl_subst.specs.Faults.{is_too_long};
ghost use Rattle.tcl_subst.specs.Variables.{Variables};
ghost use Rattle.tcl_words.specs.Lists.{written};

use std::alloc::{AllocError, Global};
use tcl_results::given::{arg, behind, others};
use tcl_results::indices::{before, element, index_behind, index_of, up_to};
use tcl_results::setting::{assign_all, read, set_if_said};
use tcl_results::{
    Code, Complaint, as_number, bad_index, list_of, list_text, over_limit, packed, quoted, said,
    texts_of,
};
use tcl_subst::{VALUE_LIMIT, Vars};
use tcl_values::{Elements, Value};
use tcl_words::{Packed, Text};

/// Returns the list with the elements `from..to` replaced by values.
fn spliced(
    alloc: Global,
    from: usize,
    to: usize,
    values: &Packed,
    elements: &Elements,
) -> Result<Value, Complaint>
    ensures { Says result (limited (written (splice elements.now from to values.now))) }
{
    let mut made = elements.part(alloc, 0, from)?;
    made.push_all(values)?;
    made.push_all(&elements.part(alloc, to, elements.len())?)?;
    list_text(alloc, made)
}

/// Returns the list with values inserted before a position.
#[tactic(auto, using(crate::proofs::Edits::inserted_min))]
fn with_inserted(
    alloc: Global,
    place: i128,
    values: &Packed,
    elements: &Elements,
) -> Result<Value, Complaint>
    ensures { Says result (with_inserted place values.now elements.now) }
{
    let at = before(place, elements.len());
    spliced(alloc, at, at, values, elements)
}

/// Returns the list with the elements between two positions, inclusive, replaced by values.
#[tactic(auto, using(crate::proofs::Edits::replaced_min))]
fn with_replaced(
    alloc: Global,
    from: i128,
    to: i128,
    values: &Packed,
    elements: &Elements,
) -> Result<Value, Complaint>
    ensures { Says result (with_replaced from to values.now elements.now) }
{
    let first = before(from, elements.len());
    let end = greater(first, up_to(to, elements.len()));
    spliced(alloc, first, end, values, elements)
}

fn greater(a: usize, b: usize) -> usize
    ensures { result ≡ max a b }
{
    if a < b { b } else { a }
}

/// Returns the value of `linsert list index value ..`.
pub fn linsert(alloc: Global, args: &[Value]) -> Result<Value, Complaint>
    ensures { Says result (linsert args.now) }
{
    match args {
        [] => inserted(alloc, &Value::new(alloc), &[], args),
        [l, ..] => inserted(alloc, l, arg(args, 1), behind(args, 2)),
    }
}

fn inserted(alloc: Global, list: &Value, index: &[u8], values: &[Value]) -> Result<Value, Complaint>
    ensures { Says result (inserted list.now index.now values.now) }
{
    let elements = list_of(alloc, list)?;
    let place = index_behind(alloc, elements.len(), index)?;
    let values = packed(alloc, values)?;
    with_inserted(alloc, place, &values, &elements)
}

/// Returns the value of `lreplace list first last value ..`.
pub fn lreplace(alloc: Global, args: &[Value]) -> Result<Value, Complaint>
    ensures { Says result (lreplace args.now) }
{
    match args {
        [] => replaced(alloc, &Value::new(alloc), &[], &[], args),
        [l, ..] => replaced(alloc, l, arg(args, 1), arg(args, 2), behind(args, 3)),
    }
}

fn replaced(
    alloc: Global,
    list: &Value,
    first: &[u8],
    last: &[u8],
    values: &[Value],
) -> Result<Value, Complaint>
    ensures { Says result (replaced list.now first.now last.now values.now) }
{
    let elements = list_of(alloc, list)?;
    let from = index_of(alloc, elements.len(), first)?;
    let to = index_of(alloc, elements.len(), last)?;
    let values = packed(alloc, values)?;
    with_replaced(alloc, from, to, &values, &elements)
}

/// Returns the position if it is 0 to `count`. Otherwise the error is `bad index`.
fn place_within(alloc: Global, index: &[u8], count: usize, place: i128) -> Result<i128, Complaint>
    ensures { Says result (place_within index.now count place) }
{
    if place < 0 || (count as i128) < place {
        return Err(Complaint::Said(bad_index(alloc, index)?));
    }
    Ok(place)
}

fn only(alloc: Global, value: &[u8]) -> Result<Packed, AllocError>
    ensures { IfOk result (λ p. p ≡ value.now ∷ []) }
{
    let mut values = Packed::new(alloc);
    values.push(value)?;
    Ok(values)
}

/// Returns the list with one element replaced, or with a value appended.
fn with_element(alloc: Global, list: &Value, index: &[u8], value: &[u8]) -> Result<Value, Complaint>
    ensures { Says result (with_element list.now index.now value.now) }
{
    let elements = list_of(alloc, list)?;
    let place = index_of(alloc, elements.len(), index)?;
    let at = place_within(alloc, index, elements.len(), place)?;
    let values = only(alloc, value)?;
    with_replaced(alloc, at, at, &values, &elements)
}

/// Runs `lset name index value`.
pub fn lset(alloc: Global, args: &[Value], vars: &mut Vars) -> Result<(Code, Value), AllocError>
    ensures { IfOk result (λ r. lset args.now vars.old ≡ (r.0, r.1, vars.new)) }
{
    let value = variable_with(alloc, arg(args, 0), arg(args, 1), arg(args, 2), vars);
    set_if_said(alloc, arg(args, 0), value, vars)
}

/// Returns a variable's list with one element replaced, or with a value appended.
fn variable_with(
    alloc: Global,
    name: &[u8],
    index: &[u8],
    value: &[u8],
    vars: &Vars,
) -> Result<Value, Complaint>
    ensures { Says result (variable_with name.now index.now value.now vars.now) }
{
    let list = read(alloc, name, vars)?;
    with_element(alloc, &list, index, value)
}

/// Returns the elements in reverse order.
#[tactic(auto, using(crate::proofs::Edits::reversed_more))]
fn reversed(alloc: Global, elements: &Elements) -> Result<Packed, AllocError>
    ensures { IfOk result (λ p. p ≡ reverse elements.now) }
{
    let mut made = Packed::new(alloc);
    for at in 0..elements.len() {
        made.push(element(elements, elements.len() - 1 - at))?;
    }
    Ok(made)
}

/// Returns the value of `lreverse list`.
pub fn lreverse(alloc: Global, args: &[Value]) -> Result<Value, Complaint>
    ensures { Says result (lreverse args.now) }
{
    match args {
        [] => list_reversed(alloc, &Value::new(alloc)),
        [l, ..] => list_reversed(alloc, l),
    }
}

fn list_reversed(alloc: Global, list: &Value) -> Result<Value, Complaint>
    ensures { Says result (list_reversed list.now) }
{
    let elements = list_of(alloc, list)?;
    list_text(alloc, reversed(alloc, &elements)?)
}

/// Returns the value of `lrepeat count value ..`.
pub fn lrepeat(alloc: Global, args: &[Value]) -> Result<Value, Complaint>
    ensures { Says result (lrepeat args.now) }
{
    let number = as_number(alloc, arg(args, 0))?;
    repeated(alloc, arg(args, 0), others(args), number)
}

/// Returns the number of bytes of all values, plus one per value. `None`: 2^63 or more.
fn least_size(values: &[Value]) -> Option<usize>
    ensures { MatchOption result (2 ^ 63 ≤ least_size values.now) (λ n. n ≡ least_size values.now) }
{
    let mut size: usize = 0;
    for value in values {
        size = size.checked_add(value.as_slice().len() + 1)?;
    }
    Some(size)
}

/// Returns true only if `times * size` exceeds `VALUE_LIMIT + 1`.
#[tactic(auto, using(crate::proofs::Edits::above))]
fn is_over(size: usize, times: usize) -> bool
    ensures { result ≡ true → 1048577 < times * size }
{
    if size == 0 {
        return false;
    }
    (VALUE_LIMIT + 1) / size < times
}

/// Returns true only if the list of the values, repeated this often, is too long.
#[tactic(auto, using(crate::proofs::Edits::over_once, crate::proofs::Edits::over_often))]
fn are_over(values: &[Value], times: usize) -> bool
    ensures { result ≡ true → is_too_long (length (written (repeat times values.now))) ≡ true }
{
    match least_size(values) {
        None => 0 < times,
        Some(size) => is_over(size, times),
    }
}

/// Returns the values, repeated this often. It may fail early if their list would be too long.
#[tactic(auto, using(crate::proofs::Edits::repeated_more, crate::proofs::Edits::repeated_nothing, tcl_results::proofs::Limits::limited_over))]
fn repeated_values(alloc: Global, values: &[Value], times: usize) -> Result<Packed, Complaint>
    ensures { MatchResult result (λ p. p ≡ repeat times values.now) (λ c. c ≢ Complaint.Memory → limited (written (repeat times values.now)) ≡ Err (text_of c)) }
{
    if are_over(values, times) {
        return Err(over_limit(alloc));
    }
    let mut made = Packed::new(alloc);
    if values.is_empty() {
        return Ok(made);
    }
    let round = packed(alloc, values)?;
    for turn in 0..times {
        made.push_all(&round)?;
    }
    Ok(made)
}

/// Returns the list of the values, repeated this often. The error is `bad count` if the number is
/// negative.
fn repeated(alloc: Global, count: &[u8], values: &[Value], number: i64) -> Result<Value, Complaint>
    ensures { Says result (repeated count.now values.now number) }
{
    if number < 0 {
        return Err(Complaint::Said(quoted(alloc, b"bad count ", count)?));
    }
    list_text(alloc, repeated_values(alloc, values, number as usize)?)
}

/// Returns the elements of a list, and the list of those after the first `count`.
fn taken_apart(alloc: Global, count: usize, list: &Value) -> Result<(Elements, Value), Complaint>
    ensures { Says result (taken_apart count list.now) }
{
    let elements = list_of(alloc, list)?;
    let rest = list_text(alloc, elements.part(alloc, count, elements.len())?)?;
    Ok((elements, rest))
}

/// Replaces the value of a command that ended with `Code::Ok`.
fn with_result(
    value: Value,
    ended: Result<(Code, Value), AllocError>,
) -> Result<(Code, Value), AllocError>
    ensures { (meant : Outcome) (vars : Variables) → IfOk ended (λ e. meant ≡ (e.0, e.1, vars)) → IfOk result (λ r. with_result value meant ≡ (r.0, r.1, vars)) }
{
    match ended {
        Err(fault) => Err(fault),
        Ok((Code::Ok, _)) => Ok((Code::Ok, value)),
        Ok((code, other)) => Ok((code, other)),
    }
}

/// Runs `lassign list name ..`.
pub fn lassign(alloc: Global, args: &[Value], vars: &mut Vars) -> Result<(Code, Value), AllocError>
    ensures { IfOk result (λ r. lassign args.now vars.old ≡ (r.0, r.1, vars.new)) }
{
    match args {
        [] => assigned(alloc, &Value::new(alloc), args, vars),
        [l, names @ ..] => assigned(alloc, l, names, vars),
    }
}

/// Sets each name to its element, up to the first that can't be set. A missing element is empty.
fn assign_each(
    alloc: Global,
    names: &[Text],
    elements: &Elements,
    vars: &mut Vars,
) -> Result<(Code, Value), AllocError>
    ensures { IfOk result (λ r. assigned names.now elements.now vars.old ≡ (r.0, r.1, vars.new)) }
{
    assign_all(alloc, names, elements, 0, vars)
}

/// Does the same, and returns a value if all names were set.
fn assign_from(
    alloc: Global,
    names: &[Value],
    elements: &Elements,
    value: Value,
    vars: &mut Vars,
) -> Result<(Code, Value), AllocError>
    ensures { IfOk result (λ r. with_result value (assigned names.now elements.now vars.old) ≡ (r.0, r.1, vars.new)) }
{
    let names = texts_of(alloc, names)?;
    with_result(value, assign_each(alloc, names.as_slice(), elements, vars))
}

/// Sets each name to its element of a list. Returns the list of the remaining elements.
fn assigned(
    alloc: Global,
    list: &Value,
    names: &[Value],
    vars: &mut Vars,
) -> Result<(Code, Value), AllocError>
    ensures { IfOk result (λ r. on_said (taken_apart (length names.now) list.now) vars.old (λ p. with_result p.1 (assigned names.now p.0 vars.old)) ≡ (r.0, r.1, vars.new)) }
{
    match said(alloc, taken_apart(alloc, names.len(), list))? {
        Err(text) => Ok((Code::Error, text)),
        Ok((elements, rest)) => assign_from(alloc, names, &elements, rest, vars),
    }
}
