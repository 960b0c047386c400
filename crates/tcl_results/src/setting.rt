//! Reads and sets variables in a command.

ghost use Rattle.std.specs.Prelude.{◌≡◌, ℕ, List, drop, IfOk, Ok};
ghost use Rattle.tcl_results.specs.Said.{Said as Meant, told, on_changed};
ghost use Rattle.tcl_results.specs.Says.{Says};
ghost use Rattle.tcl_results.specs.Setting.{read, set_if_said, assigned, first, others};
ghost use Rattle.tcl_results.specs.Texts.{not_set};
ghost use Rattle.tcl_subst.specs.Variables.{with_value};
ghost use Rattle.tcl_subst.specs.Writes.{set_to};

use crate::code::Code;
use crate::complaint::Complaint;
use crate::outcomes::error;
use crate::texts::{not_read, not_set};
use std::alloc::{AllocError, Global};
use tcl_subst::Vars;
use tcl_values::{Elements, Value};
use tcl_words::Text;

/// Returns the value of a variable. The error says why it can't be read.
pub fn read(alloc: Global, name: &[u8], vars: &Vars) -> Result<Value, Complaint>
    ensures { Says result (read name.now vars.now) }
{
    match vars.get(name) {
        Ok(value) => Ok(value),
        Err(fault) => Err(Complaint::Said(not_read(alloc, name, fault)?)),
    }
}

/// Sets a variable, and returns its value.
pub fn set_to(
    alloc: Global,
    name: &[u8],
    value: &Value,
    vars: &mut Vars,
) -> Result<(Code, Value), AllocError>
    ensures { IfOk result (λ r. on_changed vars.old (not_set name.now) (with_value (set_to value.now) name.now vars.old) (λ new. told (Ok value.now) new) ≡ (r.0, r.1, vars.new)) }
{
    let answer = value.shared(alloc)?;
    match vars.set(name, value.shared(alloc)?) {
        Ok(()) => Ok((Code::Ok, answer)),
        Err(fault) => error(alloc, not_set(alloc, name, fault)?),
    }
}

/// Sets a variable to a value, or returns the error that came instead.
pub fn set_if_said(
    alloc: Global,
    name: &[u8],
    said: Result<Value, Complaint>,
    vars: &mut Vars,
) -> Result<(Code, Value), AllocError>
    ensures { (meant : Meant (List ℕ)) → Says said meant → IfOk result (λ r. set_if_said name.now meant vars.old ≡ (r.0, r.1, vars.new)) }
{
    match said {
        Ok(value) => set_to(alloc, name, &value, vars),
        Err(Complaint::Said(text)) => error(alloc, text),
        Err(Complaint::Memory) => Err(AllocError),
    }
}

/// Sets each name to its element from index `from` on, up to the first that can't be set. A missing
/// element is empty.
pub fn assign_all(
    alloc: Global,
    names: &[Text],
    elements: &Elements,
    from: usize,
    vars: &mut Vars,
) -> Result<(Code, Value), AllocError>
    ensures { IfOk result (λ r. assigned names.now (drop from elements.now) vars.old ≡ (r.0, r.1, vars.new)) }
{
    let mut rest = names;
    let mut at = from;
    while let [name, more @ ..] = rest {
        let name = name.as_slice();
        let value = first(alloc, elements, at)?;
        if let Err(fault) = vars.set(name, value) {
            return error(alloc, not_set(alloc, name, fault)?);
        }
        rest = more;
        at = others(elements, at);
    }
    Ok((Code::Ok, Value::new(alloc)))
}

/// Returns the element at an index, or an empty value if there is none.
#[tactic(auto, using(crate::proofs::Assigned::first_from))]
fn first(alloc: Global, elements: &Elements, from: usize) -> Result<Value, AllocError>
    ensures { IfOk result (λ v. v ≡ first (drop from elements.now)) }
{
    match elements.value(alloc, from)? {
        Some(element) => Ok(element),
        None => Ok(Value::new(alloc)),
    }
}

/// Returns the index after this one, or this one if it has no element.
#[tactic(auto, using(crate::proofs::Assigned::others_from, crate::proofs::Assigned::others_of_none))]
fn others(elements: &Elements, from: usize) -> usize
    ensures { drop result elements.now ≡ others (drop from elements.now) }
{
    if from < elements.len() {
        from + 1
    } else {
        from
    }
}
