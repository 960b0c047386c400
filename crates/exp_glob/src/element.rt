//! The elements of a glob pattern.

ghost use Rattle.std.specs.Prelude.{◌≡◌, ◌++◌, ◌∷◌, [], IfOk, OnOk, OnErr};

use std::alloc::{AllocError, Global};
use std::marker::Model;

/// The bytes between the brackets of a class. A contract sees a byte list.
#[derive(Drop)]
pub struct Members {
    /// The bytes, in order.
    pub bytes: Vec<u8>,
}

impl Model for Members {
    ghost use Rattle.std.specs.Prelude.{List, ℕ};

    ghost Value = { List ℕ };

    ghost view = { λ m. m.bytes.items };
}

impl Members {
    /// Creates a class from a copy of these bytes.
    pub fn from_slice(alloc: Global, bytes: &[u8]) -> Result<Members, AllocError>
        ensures { IfOk result (λ m. m ≡ bytes.now) }
    {
        Ok(Members {
            bytes: Vec::from_slice(alloc, bytes)?,
        })
    }

    /// Returns the bytes, in order.
    pub fn as_slice(&self) -> &[u8]
        ensures { result.now ≡ self.now }
    {
        self.bytes.as_slice()
    }

    /// Returns a copy.
    fn copied(&self, alloc: Global) -> Result<Members, AllocError>
        ensures { IfOk result (λ m. m ≡ self.now) }
    {
        Members::from_slice(alloc, self.as_slice())
    }
}

/// A part of a pattern that matches one byte.
#[derive(Drop)]
pub enum Single {
    /// `?`: any byte.
    Any,
    /// This byte.
    Byte(u8),
    /// `[..]`: a byte of a class.
    Class(Members),
}

impl Single {
    /// Returns a copy.
    fn copied(&self, alloc: Global) -> Result<Single, AllocError>
        ensures { IfOk result (λ s. s ≡ self.now) }
    {
        match self {
            Single::Any => Ok(Single::Any),
            Single::Byte(byte) => Ok(Single::Byte(*byte)),
            Single::Class(members) => Ok(Single::Class(members.copied(alloc)?)),
        }
    }
}

/// An element of a pattern.
#[derive(Drop)]
pub enum Element {
    /// `*`: any bytes, also none.
    Star,
    /// One byte.
    One(Single),
    /// `$` at the end of the pattern: the end of the text.
    End,
}

impl Element {
    /// Returns a copy.
    fn copied(&self, alloc: Global) -> Result<Element, AllocError>
        ensures { IfOk result (λ e. e ≡ self.now) }
    {
        match self {
            Element::Star => Ok(Element::Star),
            Element::One(single) => Ok(Element::One(single.copied(alloc)?)),
            Element::End => Ok(Element::End),
        }
    }
}

/// A list of elements, in order. A contract sees a list.
#[derive(Drop)]
pub struct Elements {
    /// The elements, in order.
    pub list: Vec<Element>,
}

impl Model for Elements {
    ghost use Rattle.std.specs.Prelude.{List};
    ghost use Rattle.exp_glob.specs.declared.element.Element.{Element};

    ghost Value = { List Element };

    ghost view = { λ e. e.list.items };
}

impl Elements {
    /// Creates an empty list without allocating.
    pub fn new(alloc: Global) -> Elements
        ensures { result ≡ [] }
    {
        Elements {
            list: Vec::new(alloc),
        }
    }

    /// Creates an empty list with room for `count` elements.
    pub(crate) fn with_room(alloc: Global, count: usize) -> Result<Elements, AllocError>
        ensures { IfOk result (λ es. es ≡ []) }
    {
        Ok(Elements {
            list: Vec::with_capacity(alloc, count)?,
        })
    }

    /// Appends an element. On `AllocError` the list is unchanged.
    pub fn push(&mut self, element: Element) -> Result<(), AllocError>
        ensures pushed { OnOk result (self.new ≡ self.old ++ element ∷ []) }
        ensures kept { OnErr result (self.new ≡ self.old) }
    {
        self.list.push(element)?;
        Ok(())
    }

    /// Returns the elements, in order.
    pub fn as_slice(&self) -> &[Element]
        ensures { result.now ≡ self.now }
    {
        self.list.as_slice()
    }

    /// Returns a copy.
    pub(crate) fn copied(&self, alloc: Global) -> Result<Elements, AllocError>
        ensures { IfOk result (λ es. es ≡ self.now) }
    {
        let mut made = Elements::with_room(alloc, self.list.len())?;
        'elements: for element in &self.list {
            made.push(element.copied(alloc)?)?;
        }
        Ok(made)
    }
}
