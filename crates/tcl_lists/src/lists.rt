//! The commands on lists.

ghost use Rattle.std.specs.Prelude.{◌∷◌, []};
ghost use Rattle.tcl_lists.specs.Lists.{list_length, llength, list_element, lindex, list_range, lrange};
ghost use Rattle.tcl_results.specs.Said.{limited};
ghost use Rattle.tcl_results.specs.Says.{Says};
ghost use Rattle.tcl_words.specs.Lists.{written};

use std::alloc::Global;
use tcl_results::given::arg;
use tcl_results::indices::{element_at, elements_between, index_of};
use tcl_results::{Complaint, count_text, limited, list_of, list_text, packed};
use tcl_values::Value;
use tcl_words::{Packed, stands_bare};

/// Returns the value of `list value ..`.
pub fn list(alloc: Global, args: &[Value]) -> Result<Value, Complaint>
    ensures { Says result (limited (written args.now)) }
{
    match args {
        [value] => list_of_one(alloc, value),
        values => list_text(alloc, packed(alloc, values)?),
    }
}

/// Returns the list with one value as its element. A value that needs no quoting is shared. It is
/// parsed as a list, so that `is_word` is known at its next use if it is long.
fn list_of_one(alloc: Global, value: &Value) -> Result<Value, Complaint>
    ensures { Says result (limited (written (value.now ∷ []))) }
{
    if value.is_word() {
        return limited(alloc, value.shared(alloc)?);
    }
    if stands_bare(value.as_slice()) {
        let _ = value.elements(alloc);
        return limited(alloc, value.shared(alloc)?);
    }
    let mut elements = Packed::new(alloc);
    elements.push(value.as_slice())?;
    list_text(alloc, elements)
}

/// Returns the value of `llength list`.
pub fn llength(alloc: Global, args: &[Value]) -> Result<Value, Complaint>
    ensures { Says result (llength args.now) }
{
    match args {
        [] => list_length(alloc, &Value::new(alloc)),
        [l, ..] => list_length(alloc, l),
    }
}

fn list_length(alloc: Global, list: &Value) -> Result<Value, Complaint>
    ensures { Says result (list_length list.now) }
{
    let elements = list_of(alloc, list)?;
    Ok(count_text(alloc, elements.len())?)
}

/// Returns the value of `lindex list ?index?`.
pub fn lindex(alloc: Global, args: &[Value]) -> Result<Value, Complaint>
    ensures { Says result (lindex args.now) }
{
    match args {
        [] => Ok(Value::new(alloc)),
        [l] => Ok(l.shared(alloc)?),
        [l, i, ..] => list_element(alloc, l, i.as_slice()),
    }
}

fn list_element(alloc: Global, list: &Value, index: &[u8]) -> Result<Value, Complaint>
    ensures { Says result (list_element list.now index.now) }
{
    let elements = list_of(alloc, list)?;
    let place = index_of(alloc, elements.len(), index)?;
    Ok(element_at(alloc, place, &elements)?)
}

/// Returns the value of `lrange list from to`.
pub fn lrange(alloc: Global, args: &[Value]) -> Result<Value, Complaint>
    ensures { Says result (lrange args.now) }
{
    match args {
        [] => list_range(alloc, &Value::new(alloc), &[], &[]),
        [l, ..] => list_range(alloc, l, arg(args, 1), arg(args, 2)),
    }
}

fn list_range(alloc: Global, list: &Value, from: &[u8], to: &[u8]) -> Result<Value, Complaint>
    ensures { Says result (list_range list.now from.now to.now) }
{
    let elements = list_of(alloc, list)?;
    let from = index_of(alloc, elements.len(), from)?;
    let to = index_of(alloc, elements.len(), to)?;
    list_text(alloc, elements_between(alloc, from, to, &elements)?)
}
