//! Patterns and keywords with their actions.

ghost use Rattle.std.specs.Prelude.{◌≡◌, ◌++◌, ◌∷◌, [], IfOk, OnOk, OnErr};

use crate::regular::Regular;
use exp_glob::Glob;
use std::alloc::{AllocError, Global};
use std::marker::Model;
use tcl_words::Text;

/// A keyword in the place of a pattern.
#[derive(Clone, Copy)]
pub enum Keyword {
    /// `eof`: the output of the process has ended.
    Eof,
    /// `timeout`: the time has run out.
    Timeout,
    /// `default`: either of the two.
    Default,
    /// `full_buffer`: the buffer is full.
    FullBuffer,
}

/// What an entry waits for.
#[derive(Drop)]
pub enum Want {
    /// Exactly these bytes.
    Exact {
        /// The bytes.
        text: Text,
        /// Whether ASCII letters match in either case.
        nocase: bool,
    },
    /// A match of a glob pattern.
    Glob {
        /// The pattern.
        glob: Glob,
        /// Whether ASCII letters match in either case.
        nocase: bool,
    },
    /// A match of a regular pattern.
    Regular(Regular),
    /// The condition of a keyword.
    Keyword(Keyword),
}

impl Want {
    /// Returns a copy. A regular pattern is not compiled again.
    fn copied(&self, alloc: Global) -> Result<Want, AllocError>
        ensures { IfOk result (λ w. w ≡ self.now) }
    {
        match self {
            Want::Exact { text, nocase } => Ok(Want::Exact {
                text: text.copied(alloc)?,
                nocase: *nocase,
            }),
            Want::Glob { glob, nocase } => Ok(Want::Glob {
                glob: glob.copied(alloc, *nocase)?,
                nocase: *nocase,
            }),
            Want::Regular(regular) => Ok(Want::Regular(regular.shared()?)),
            Want::Keyword(keyword) => Ok(Want::Keyword(*keyword)),
        }
    }
}

/// A pattern or keyword with its action.
#[derive(Drop)]
pub struct Entry {
    /// What it waits for.
    pub want: Want,
    /// `-indices`: the indices of a match are set too.
    pub indices: bool,
    /// `-notransfer`: the matched bytes stay in the buffer.
    pub notransfer: bool,
    /// The script to run. It may be empty.
    pub action: Text,
    /// The number of `-i` flags before it: 0 before the first one.
    pub group: usize,
}

impl Entry {
    /// Returns a copy in another group. A regular pattern is not compiled again.
    pub fn copied(&self, alloc: Global, group: usize) -> Result<Entry, AllocError>
        ensures { IfOk result (λ e. e ≡ record self.now { group = group }) }
    {
        Ok(Entry {
            want: self.want.copied(alloc)?,
            indices: self.indices,
            notransfer: self.notransfer,
            action: self.action.copied(alloc)?,
            group,
        })
    }
}

/// A list of entries, in the order of the arguments. A contract sees a list.
#[derive(Drop)]
pub struct Entries {
    /// The entries, in order.
    pub list: Vec<Entry>,
}

impl Model for Entries {
    ghost use Rattle.std.specs.Prelude.{List};
    ghost use Rattle.exp_match.specs.declared.entry.Entry.{Entry};

    ghost Value = { List Entry };

    ghost view = { λ e. e.list.items };
}

impl Entries {
    /// Creates an empty list without allocating.
    pub fn new(alloc: Global) -> Entries
        ensures { result ≡ [] }
    {
        Entries {
            list: Vec::new(alloc),
        }
    }

    /// Appends an entry. On `AllocError` the list is unchanged.
    pub fn push(&mut self, entry: Entry) -> Result<(), AllocError>
        ensures pushed { OnOk result (self.new ≡ self.old ++ entry ∷ []) }
        ensures kept { OnErr result (self.new ≡ self.old) }
    {
        self.list.push(entry)?;
        Ok(())
    }

    /// Returns the entries, in order.
    pub fn as_slice(&self) -> &[Entry]
        ensures { result.now ≡ self.now }
    {
        self.list.as_slice()
    }
}
