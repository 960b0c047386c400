//! Shows a match and its groups (`regexp`).

ghost use Rattle.std.specs.Prelude.{◌≡◌, true, [], Some, IfOk};
ghost use Rattle.tcl_patterns.specs.Shown.{last_text, shown};

use crate::matches::part;
use std::alloc::{AllocError, Global};
use tcl_results::count_text;
use tcl_values::Value;
use tcl_words::Text;

/// Returns the index of the last byte before an end, or -1.
fn last_text(alloc: Global, to: usize) -> Result<Value, AllocError>
    ensures { IfOk result (λ v. v ≡ last_text to) }
{
    if to == 0 {
        return Value::from_slice(alloc, b"-1");
    }
    count_text(alloc, to - 1)
}

/// Returns the indexes of a group's first and last byte.
fn indices(alloc: Global, from: usize, to: usize) -> Result<Value, AllocError>
    ensures { IfOk result (λ v. v ≡ shown true [] (Some (from, to))) }
{
    let mut text = Text::from_slice(alloc, count_text(alloc, from)?.as_slice())?;
    text.push(b' ')?;
    text.extend(last_text(alloc, to)?.as_slice())?;
    Value::from_text(alloc, text)
}

/// Returns the text of a group, or with `-indices` the indexes of its first and last byte.
pub(crate) fn shown(
    alloc: Global,
    indexed: bool,
    text: &[u8],
    span: Option<(usize, usize)>,
) -> Result<Value, AllocError>
    ensures { IfOk result (λ v. v ≡ shown indexed text.now span) }
{
    if !indexed {
        return Value::from_slice(alloc, part(span, text));
    }
    match span {
        Some((from, to)) => indices(alloc, from, to),
        None => Value::from_slice(alloc, b"-1 -1"),
    }
}
