//! A scope: variables by name.

ghost use Rattle.std.specs.Prelude.{◌≡◌, IfOk};
ghost use Rattle.tcl_subst.specs.Slots.{name_or};

use crate::names::Names;
use std::alloc::{AllocError, Global};
use std::marker::Model;
use tcl_values::Value;
use tcl_words::Text;

/// Where a variable is, seen from a scope.
#[derive(Drop)]
pub struct VariablePlace {
    /// How many calls further out. Past the last one is the outermost scope.
    pub calls: usize,
    /// Its name there. `None` if it is the same.
    pub name: Option<Text>,
}

impl VariablePlace {
    /// Returns the variable's name, given the one under which it was looked for.
    pub fn name_or<'s: 'n, 'n>(&'s self, name: &'n [u8]) -> &'n [u8]
        ensures { result.now ≡ name_or name.now self.now.name }
    {
        match &self.name {
            None => name,
            Some(other) => other.as_slice(),
        }
    }

    /// Returns a copy.
    pub fn copied(&self, alloc: Global) -> Result<VariablePlace, AllocError>
        ensures { IfOk result (λ p. p ≡ self.now) }
    {
        match &self.name {
            None => Ok(VariablePlace {
                calls: self.calls,
                name: None,
            }),
            Some(name) => {
                let name = name.copied(alloc)?;
                Ok(VariablePlace {
                    calls: self.calls,
                    name: Some(name),
                })
            }
        }
    }
}

/// A place on the heap, so that an entry stays small. A contract sees the place.
#[derive(Drop)]
pub struct Link {
    place: Box<VariablePlace>,
}

impl Model for Link {
    ghost use Rattle.tcl_subst.specs.declared.scope.VariablePlace.{VariablePlace};

    ghost Value = { VariablePlace };

    ghost view = { λ l. l.place.value };
}

impl Link {
    /// Moves a place to the heap.
    pub fn new(alloc: Global, place: VariablePlace) -> Result<Link, AllocError>
        ensures { IfOk result (λ l. l ≡ place) }
    {
        Ok(Link {
            place: Box::new(alloc, place)?,
        })
    }

    /// Returns where the link leads.
    pub fn place(&self) -> &VariablePlace
        ensures { result.now ≡ self.now }
    {
        &self.place
    }
}

/// An entry of a scope.
#[derive(Drop)]
pub enum Slot {
    /// A variable.
    Text(Value),
    /// An array: elements by index.
    Array(Names<Value>),
    /// A link to another variable.
    Link(Link),
}

/// A scope.
pub type Scope = Names<Slot>;
