//! The requests of a script to its children.

ghost use Rattle.std.specs.Prelude.{◌≡◌, ◌++◌, ◌∷◌, ◌↔◌, [], length, IfOk, IsTrue, OnErr, OnOk};

use std::alloc::{AllocError, Global};
use std::marker::Model;
use tcl_words::{Text, Texts};

/// What a child is asked to do.
#[derive(Drop)]
pub enum Act {
    /// Start, as this program with its arguments.
    Spawn(Texts),
    /// Take these bytes as input.
    Write(Text),
    /// See the end of its input.
    End,
    /// Be closed.
    Close,
    /// Be waited for.
    Wait,
}

impl Act {
    /// Returns whether two acts are equal.
    pub fn is_same(&self, other: &Act) -> bool
        ensures { IsTrue result ↔ (self.now ≡ other.now) }
    {
        match (self, other) {
            (Act::Spawn(words), Act::Spawn(others)) => words.is_same(others),
            (Act::Write(text), Act::Write(other)) => text.is_same(other),
            (Act::End, Act::End) => true,
            (Act::Close, Act::Close) => true,
            (Act::Wait, Act::Wait) => true,
            _ => false,
        }
    }

    /// Returns a copy.
    pub fn copied(&self, alloc: Global) -> Result<Act, AllocError>
        ensures { IfOk result (λ a. a ≡ self.now) }
    {
        match self {
            Act::Spawn(words) => Ok(Act::Spawn(words.copied(alloc)?)),
            Act::Write(text) => Ok(Act::Write(text.copied(alloc)?)),
            Act::End => Ok(Act::End),
            Act::Close => Ok(Act::Close),
            Act::Wait => Ok(Act::Wait),
        }
    }
}

/// A request to a child.
#[derive(Drop)]
pub struct Request {
    /// The number of the child, from 1 to 16.
    pub child: u8,
    /// What it is asked to do.
    pub act: Act,
}

impl Request {
    /// Returns whether two requests are equal.
    pub fn is_same(&self, other: &Request) -> bool
        ensures { IsTrue result ↔ (self.now ≡ other.now) }
    {
        self.child == other.child && self.act.is_same(&other.act)
    }

    /// Returns a copy.
    pub fn copied(&self, alloc: Global) -> Result<Request, AllocError>
        ensures { IfOk result (λ r. r ≡ self.now) }
    {
        Ok(Request {
            child: self.child,
            act: self.act.copied(alloc)?,
        })
    }
}

/// A list of requests, in order. A contract sees a list.
#[derive(Drop)]
pub struct Requests {
    /// The requests, in order.
    pub list: Vec<Request>,
}

impl Model for Requests {
    ghost use Rattle.std.specs.Prelude.{List};
    ghost use Rattle.expect_core.specs.declared.request.Request.{Request};

    ghost Value = { List Request };

    ghost view = { λ t. t.list.items };
}

impl Requests {
    /// Creates an empty list without allocating.
    pub fn new(alloc: Global) -> Requests
        ensures { result ≡ [] }
    {
        Requests {
            list: Vec::new(alloc),
        }
    }

    /// Returns the requests, in order.
    pub fn as_slice(&self) -> &[Request]
        ensures { result.now ≡ self.now }
    {
        self.list.as_slice()
    }

    /// Returns the number of requests.
    pub fn len(&self) -> usize
        ensures { result ≡ length self.now }
    {
        self.list.len()
    }

    /// Appends a request. On `AllocError` the list is unchanged.
    pub fn push(&mut self, request: Request) -> Result<(), AllocError>
        ensures pushed { OnOk result (self.new ≡ self.old ++ request ∷ []) }
        ensures kept { OnErr result (self.new ≡ self.old) }
    {
        self.list.push(request)?;
        Ok(())
    }

    /// Returns a copy.
    pub fn copied(&self, alloc: Global) -> Result<Requests, AllocError>
        ensures { IfOk result (λ r. r ≡ self.now) }
    {
        let mut made = Requests::new(alloc);
        for request in self.list.as_slice() {
            made.push(request.copied(alloc)?)?;
        }
        Ok(made)
    }
}
