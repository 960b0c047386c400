//! The formal arguments of a procedure.

ghost use Rattle.std.specs.Prelude.{◌≡◌, IfOk, Some};
ghost use Rattle.tcl_control.specs.Procs.{formal_in, formals_in, formals_of};
ghost use Rattle.tcl_results.specs.Says.{Says};
ghost use Rattle.tcl_words.specs.Lists.{elements};

use std::alloc::{AllocError, Global};
use std::marker::Model;
use tcl_results::{Complaint, list_of, no_list};
use tcl_values::Value;
use tcl_words::{ListFault, Text};

/// A formal argument.
#[derive(Drop)]
pub struct Formal {
    /// The name.
    pub name: Text,
    /// The value if a call has no argument for it.
    pub default: Option<Value>,
}

/// The formal arguments of a procedure. A contract sees them in order.
#[derive(Drop)]
pub struct Formals {
    pub(crate) list: Vec<Formal>,
}

impl Model for Formals {
    ghost use Rattle.std.specs.Prelude.{List};
    ghost use Rattle.tcl_control.specs.declared.formals.Formal.{Formal};

    ghost Value = { List Formal };

    ghost view = { λ f. f.list.items };
}

impl Formals {
    /// Returns the formal arguments, in order.
    pub(crate) fn as_slice(&self) -> &[Formal]
        ensures { result.now ≡ self.now }
    {
        self.list.as_slice()
    }
}

/// Returns a formal argument, given a name, or a name and a default. `None` if there are other
/// elements.
fn formal_of(alloc: Global, elements: &[Text]) -> Result<Option<Formal>, AllocError>
    ensures { IfOk result (λ o. o ≡ formal_in (Some elements.now)) }
{
    match elements {
        [] => Ok(None),
        [name] => Ok(Some(Formal {
            name: name.copied(alloc)?,
            default: None,
        })),
        [name, default] => Ok(Some(Formal {
            name: name.copied(alloc)?,
            default: Some(Value::from_slice(alloc, default.as_slice())?),
        })),
        [_, _, _, ..] => Ok(None),
    }
}

/// Parses a formal argument. `None` if the text is no list of a name, or of a name and a default.
fn formal_in(alloc: Global, text: &[u8]) -> Result<Option<Formal>, AllocError>
    ensures { IfOk result (λ o. o ≡ formal_in (elements text.now)) }
{
    match Value::from_slice(alloc, text)?.elements(alloc) {
        Ok(elements) => {
            let texts = elements.texts(alloc)?;
            formal_of(alloc, texts.as_slice())
        }
        Err(ListFault::BadList) => Ok(None),
        Err(ListFault::Memory) => Err(AllocError),
    }
}

/// Parses formal arguments. `None` if one of them is invalid.
fn formals_in(alloc: Global, texts: &[Text]) -> Result<Option<Formals>, AllocError>
    ensures { IfOk result (λ o. o ≡ formals_in texts.now) }
{
    let mut list = Vec::new(alloc);
    let mut rest = texts;
    while let [text, more @ ..] = rest {
        let Some(formal) = formal_in(alloc, text.as_slice())? else {
            return Ok(None);
        };
        list.push(formal)?;
        rest = more;
    }
    Ok(Some(Formals { list }))
}

/// Parses a list of formal arguments (proc(n)). The error is `bad list`.
pub fn formals_of(alloc: Global, text: &Value) -> Result<Formals, Complaint>
    ensures { Says result (formals_of text.now) }
{
    let elements = list_of(alloc, text)?;
    let texts = elements.texts(alloc)?;
    match formals_in(alloc, texts.as_slice())? {
        Some(formals) => Ok(formals),
        None => Err(no_list(alloc)),
    }
}
