//! Splits and joins texts (`split`, `join`).

ghost use Rattle.std.specs.Prelude.{◌≡◌, ◌<◌, drop, length, position, IfOk, IfSome};
ghost use Rattle.std.specs.List.{slice_split};
ghost use Rattle.tcl_results.specs.Said.{limited};
ghost use Rattle.tcl_results.specs.Says.{Says};
ghost use Rattle.tcl_results.specs.Sets.{is_one_of};
ghost use Rattle.tcl_lists.specs.Splitting.{bytes_alone, some_parts, parts, split, gap, joined_by, list_joined, join};

use std::alloc::{AllocError, Global};
use tcl_results::given::{arg, arg_or};
use tcl_results::indices::element;
use tcl_results::{ByteSet, Complaint, extend_limited, list_of, list_text};
use tcl_values::{Elements, Value};
use tcl_words::{Packed, Text};

/// Returns each byte of a text as an element.
fn bytes_alone(alloc: Global, text: &[u8]) -> Result<Packed, AllocError>
    ensures { IfOk result (λ p. p ≡ bytes_alone text.now) }
{
    let mut packed = Packed::new(alloc);
    for b in text {
        packed.push(&[*b])?;
    }
    Ok(packed)
}

/// Returns the index of the first byte that is in a set.
fn first_of(set: &ByteSet, text: &[u8]) -> Option<usize>
    ensures place { result ≡ position (is_one_of set.now) text.now }
    ensures within { IfSome result (λ k. k < length text.now) }
{
    text.iter().position(|b| set.has(*b))
}

/// Returns the bytes after the first.
fn behind_first(text: &[u8]) -> &[u8]
    ensures { result.now ≡ drop 1 text.now }
{
    match text {
        [] => text,
        [_, rest @ ..] => rest,
    }
}

/// Returns the texts before, between and after separators.
#[tactic(auto, using(crate::proofs::Splits::part_more, crate::proofs::Splits::part_end))]
fn parts_between(alloc: Global, seps: &ByteSet, text: &[u8]) -> Result<Packed, AllocError>
    ensures { IfOk result (λ p. p ≡ slice_split (is_one_of seps.now) text.now) }
{
    let mut packed = Packed::new(alloc);
    let mut rest = text;
    while let Some(at) = first_of(seps, rest) {
        let (part, others) = rest.split_at(at);
        packed.push(part)?;
        rest = behind_first(others);
    }
    packed.push(rest)?;
    Ok(packed)
}

/// Splits a text at separators, or into bytes if there are none. The empty text has no parts.
fn parts(alloc: Global, seps: &[u8], text: &[u8]) -> Result<Packed, AllocError>
    ensures { IfOk result (λ p. p ≡ parts seps.now text.now) }
{
    match text {
        [] => Ok(Packed::new(alloc)),
        [_, ..] => some_parts(alloc, seps, text),
    }
}

/// Splits a text that isn't empty.
pub fn some_parts(alloc: Global, seps: &[u8], text: &[u8]) -> Result<Packed, AllocError>
    ensures { IfOk result (λ p. p ≡ some_parts seps.now text.now) }
{
    match seps {
        [] => bytes_alone(alloc, text),
        [_, ..] => parts_between(alloc, &ByteSet::new(seps), text),
    }
}

/// Returns the value of `split text ?separators?`.
pub fn split(alloc: Global, args: &[Value]) -> Result<Value, Complaint>
    ensures { Says result (split args.now) }
{
    list_text(
        alloc,
        parts(alloc, arg_or(args, 1, b" \t\n\r"), arg(args, 0))?,
    )
}

/// Returns the text before the element at an index. It is empty for the first element.
fn gap(between: &[u8], at: usize) -> &[u8]
    ensures { result.now ≡ gap between.now at }
{
    if at == 0 { &[] } else { between }
}

/// Joins elements with a text between them. It is an error if the result is too long.
fn joined_by(alloc: Global, between: &[u8], elements: &Elements) -> Result<Text, Complaint>
    ensures { Says result (limited (joined_by between.now elements.now)) }
{
    let mut text = Text::new(alloc);
    for at in 0..elements.len() {
        let part = element(elements, at);
        if let Err(complaint) = extend_limited(alloc, &mut text, gap(between, at), part) {
            return Err(complaint);
        }
    }
    Ok(text)
}

/// Returns the value of `join list ?text?`.
pub fn join(alloc: Global, args: &[Value]) -> Result<Value, Complaint>
    ensures { Says result (join args.now) }
{
    match args {
        [] => list_joined(alloc, &Value::new(alloc), b" "),
        [l, ..] => list_joined(alloc, l, arg_or(args, 1, b" ")),
    }
}

fn list_joined(alloc: Global, list: &Value, between: &[u8]) -> Result<Value, Complaint>
    ensures { Says result (list_joined list.now between.now) }
{
    let elements = list_of(alloc, list)?;
    let text = joined_by(alloc, between, &elements)?;
    Ok(Value::from_text(alloc, text)?)
}
