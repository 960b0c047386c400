//! The trail of an error: the commands and procedures that passed it on.

ghost use Rattle.std.specs.Prelude.{◌≡◌, ◌++◌, ◌∷◌, [], take, OnOk};

use std::alloc::{AllocError, Global};
use std::marker::Model;
use tcl_host::Values;
use tcl_scripts::Script;

/// A command or procedure that passed an error on.
#[derive(Drop)]
pub enum Origin {
    /// A command of a script. `at` is the index in the text from which it was read, which is the
    /// end of the previous command.
    Command { script: Script, at: usize },
    /// A procedure that was called with these words.
    Procedure { words: Values },
}

/// The number of first origins that are kept. The last one is kept too.
const FIRST: usize = 31;

/// The trail of an error, the innermost origin first. A contract sees a list.
#[derive(Drop)]
pub struct Trail {
    list: Vec<Origin>,
}

impl Model for Trail {
    ghost use Rattle.std.specs.Prelude.{List};
    ghost use Rattle.tcl_eval.specs.declared.trail.Origin.{Origin};

    ghost Value = { List Origin };

    ghost view = { λ t. t.list.items };
}

impl Trail {
    /// Creates an empty trail without allocating.
    pub fn new(alloc: Global) -> Trail
        ensures { result ≡ [] }
    {
        Trail {
            list: Vec::new(alloc),
        }
    }

    /// Returns the origins, the innermost first.
    pub fn as_slice(&self) -> &[Origin]
        ensures { result.now ≡ self.now }
    {
        self.list.as_slice()
    }

    /// Appends an origin. If there are more than 32, the first 31 and the last are kept.
    pub fn push(&mut self, origin: Origin) -> Result<(), AllocError>
        ensures { OnOk result (self.new ≡ take 31 self.old ++ origin ∷ []) }
    {
        self.list.truncate(FIRST);
        self.list.push(origin)?;
        Ok(())
    }

    /// Removes all origins.
    pub fn clear(&mut self)
        ensures { self.new ≡ [] }
    {
        self.list.clear();
    }
}
