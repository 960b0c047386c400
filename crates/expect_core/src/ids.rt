//! The child that a command is for.

ghost use Rattle.tcl_results.specs.Says.{Says};
ghost use Rattle.expect_core.specs.Sides.{still_open};
ghost use Rattle.expect_core.specs.Ids.{known as known_of, id_of as id_named, spoken_to as spoken_to_of, if_open as if_open_of, open_to as open_to_of};

use crate::own::Own;
use crate::place::Place;
use crate::plan::Places;
use crate::scoped::needed;
use crate::texts::{no_such_id, not_open};
use std::alloc::Global;
use tcl_results::Complaint;
use tcl_subst::Vars;
use tcl_values::Value;

/// Returns the child with this spawn id, or an error.
pub(crate) fn known(alloc: Global, id: &[u8], own: &Own) -> Result<Place, Complaint>
    ensures { Says result (known_of id.now own.now) }
{
    match own.children.find(id) {
        Some(i) => Ok(i),
        None => Err(Complaint::Said(no_such_id(alloc, id)?)),
    }
}

/// Returns the spawn id after `-i`, or else the value of the variable `spawn_id`.
fn id_of(alloc: Global, id: &Option<Value>, vars: &Vars) -> Result<Value, Complaint>
    ensures { Says result (id_named id.now vars.now) }
{
    match id {
        Some(id) => Ok(id.shared(alloc)?),
        None => needed(alloc, vars, b"spawn_id"),
    }
}

/// Returns the child that a command is for, open or not.
pub(crate) fn spoken_to(
    alloc: Global,
    id: &Option<Value>,
    vars: &Vars,
    own: &Own,
) -> Result<Place, Complaint>
    ensures { Says result (spoken_to_of id.now vars.now own.now) }
{
    let name = id_of(alloc, id, vars)?;
    known(alloc, name.as_slice(), own)
}

/// Returns the child, or an error if it isn't open.
pub(crate) fn if_open(alloc: Global, i: Place, own: &Own) -> Result<Place, Complaint>
    ensures { Says result (if_open_of i own.now) }
{
    if own.children.standing(i).is_open() {
        Ok(i)
    } else {
        Err(Complaint::Said(not_open(alloc, own.children.id(i))?))
    }
}

/// Returns the child that a command is for, or an error if it isn't open.
pub(crate) fn open_to(
    alloc: Global,
    id: &Option<Value>,
    vars: &Vars,
    own: &Own,
) -> Result<Place, Complaint>
    ensures { Says result (open_to_of id.now vars.now own.now) }
{
    let i = spoken_to(alloc, id, vars, own)?;
    if_open(alloc, i, own)
}

/// Returns the error for the first of these children that isn't open, if there is one.
pub(crate) fn all_open(alloc: Global, places: &Places, own: &Own) -> Result<(), Complaint>
    ensures { Says result (still_open places.now own.now) }
{
    'places: for i in &places.list {
        if_open(alloc, *i, own)?;
    }
    Ok(())
}
