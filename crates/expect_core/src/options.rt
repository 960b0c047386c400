//! `match_max` and `remove_nulls` (expect(1)).

ghost use Rattle.tcl_results.specs.Says.{Says};
ghost use Rattle.expect_core.specs.Options.{option_of, removal_of, removing, removing_at, size_by, size_of, sizing, sizing_at, whose};

use crate::child::Change;
use crate::effect::{Effect, Effects};
use crate::flags::{Flags, arguments, first};
use crate::ids::open_to;
use crate::own::Own;
use crate::place::Place;
use crate::texts::{bad_removal, bad_size, bit, decimal};
use crate::turn::{Deed, done};
use command_table::{ExpectCommand, is};
use std::alloc::Global;
use tcl_expr::read_number;
use tcl_results::Complaint;
use tcl_subst::Vars;
use tcl_values::Value;

/// Returns the child whose option is meant, or `None` with `-d`, which means later children.
fn whose(alloc: Global, flags: &Flags, vars: &Vars, own: &Own) -> Result<Option<Place>, Complaint>
    ensures { Says result (whose flags.now vars.now own.now) }
{
    if flags.on {
        return Ok(None);
    }
    Ok(Some(open_to(alloc, &flags.id, vars, own)?))
}

/// Returns whose option is meant, and the new value if there is one.
fn option_of(
    alloc: Global,
    command: ExpectCommand,
    name: &[u8],
    args: &[Value],
    vars: &Vars,
    own: &Own,
) -> Result<(Option<Place>, Option<Value>), Complaint>
    ensures { Says result (option_of command name.now args.now vars.now own.now) }
{
    let (flags, at) = arguments(alloc, command, name, args)?;
    let whose = whose(alloc, &flags, vars, own)?;
    Ok((whose, first(alloc, &args[at..])?))
}

/// Reads the size of a match buffer in bytes.
fn size_of(alloc: Global, text: &[u8]) -> Result<usize, Complaint>
    ensures { Says result (size_of text.now) }
{
    size_by(alloc, text, read_number(text))
}

/// Returns a number as a size, or an error if it isn't from 1 to 1,000,000.
fn size_by(alloc: Global, text: &[u8], number: Option<i64>) -> Result<usize, Complaint>
    ensures { Says result (size_by text.now number) }
{
    match number {
        Some(size) if 1 <= size && size <= 1_000_000 => Ok(size as usize),
        _ => Err(Complaint::Said(bad_size(alloc, text)?)),
    }
}

/// Reads whether NUL bytes are removed: `0` or `1`.
fn removal_of(alloc: Global, text: &[u8]) -> Result<bool, Complaint>
    ensures { Says result (removal_of text.now) }
{
    if is(text, b"0") {
        return Ok(false);
    }
    if is(text, b"1") {
        return Ok(true);
    }
    Err(Complaint::Said(bad_removal(alloc, text)?))
}

/// Sets the size of a match buffer, or returns it if there is no new value.
fn size(
    alloc: Global,
    at: Option<Place>,
    text: &Option<Value>,
    own: &Own,
) -> Result<Deed, Complaint>
    ensures { Says result (sizing_at at text.now own.now) }
{
    let Some(text) = text else {
        let count = Value::from_text(alloc, decimal(alloc, own.size_at(at))?)?;
        return Ok(Deed::over_at(at, Effects::new(alloc), done(count)));
    };
    let size = size_of(alloc, text.as_slice())?;
    let effects = Effects::one(alloc, Effect::Alter(Change::Size(size)))?;
    Ok(Deed::over_at(at, effects, done(Value::new(alloc))))
}

/// Returns what `match_max ?-d? ?-i spawn_id? ?size?` does.
pub(crate) fn match_max(
    alloc: Global,
    name: &[u8],
    args: &[Value],
    vars: &Vars,
    own: &Own,
) -> Result<Deed, Complaint>
    ensures { Says result (sizing name.now args.now vars.now own.now) }
{
    let (at, text) = option_of(alloc, ExpectCommand::MatchMax, name, args, vars, own)?;
    size(alloc, at, &text, own)
}

/// Sets whether NUL bytes are removed, or returns it if there is no new value.
fn removal(
    alloc: Global,
    at: &Option<Place>,
    text: &Option<Value>,
    own: &Own,
) -> Result<Deed, Complaint>
    ensures { Says result (removing_at at.now text.now own.now) }
{
    let Some(text) = text else {
        let on = bit(alloc, own.removes_at(*at))?;
        return Ok(Deed::over_at(*at, Effects::new(alloc), done(on)));
    };
    let on = removal_of(alloc, text.as_slice())?;
    let effects = Effects::one(alloc, Effect::Alter(Change::Removal(on)))?;
    Ok(Deed::over_at(*at, effects, done(Value::new(alloc))))
}

/// Returns what `remove_nulls ?-d? ?-i spawn_id? ?value?` does.
pub(crate) fn remove_nulls(
    alloc: Global,
    name: &[u8],
    args: &[Value],
    vars: &Vars,
    own: &Own,
) -> Result<Deed, Complaint>
    ensures { Says result (removing name.now args.now vars.now own.now) }
{
    let (at, text) = option_of(alloc, ExpectCommand::RemoveNulls, name, args, vars, own)?;
    removal(alloc, &at, &text, own)
}
