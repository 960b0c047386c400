//! How children end.

ghost use Rattle.std.specs.Prelude.{◌≡◌, ◌++◌, ◌∷◌, [], OnOk};
ghost use Rattle.child_timeline.specs.Exits.{exit_told, exit_of as exit_of_child};

use child_events::Answer;
use std::alloc::{AllocError, Global};
use std::marker::Model;

/// The answer to a wait for a child.
#[derive(Clone, Copy)]
pub struct Exit {
    /// The child's number, from 1.
    pub child: u8,
    pub answer: Answer,
}

/// The answers to waits, at most one per child. A contract sees a list.
#[derive(Drop)]
pub struct Exits {
    list: Vec<Exit>,
}

impl Model for Exits {
    ghost use Rattle.std.specs.Prelude.{List};
    ghost use Rattle.child_timeline.specs.declared.exits.Exit.{Exit};

    ghost Value = { List Exit };

    ghost view = { λ t. t.list.items };
}

impl Exits {
    /// Creates an empty list without allocating.
    pub fn new(alloc: Global) -> Exits
        ensures { result ≡ [] }
    {
        Exits {
            list: Vec::new(alloc),
        }
    }

    /// Returns the answer given for a child. `None` if there is none.
    pub fn told(&self, child: u8) -> Option<Answer>
        ensures { result ≡ exit_told child self.now }
    {
        for exit in self.list.as_slice() {
            if exit.child == child {
                return Some(exit.answer);
            }
        }
        None
    }

    /// Returns the answer to a wait for a child: the given one, or exit status 0.
    pub fn of(&self, child: u8) -> Answer
        ensures { result ≡ exit_of_child child self.now }
    {
        match self.told(child) {
            Some(answer) => answer,
            None => Answer::Exit(0),
        }
    }

    /// Adds the answer to a wait.
    pub fn push(&mut self, exit: Exit) -> Result<(), AllocError>
        ensures { OnOk result (self.new ≡ self.old ++ exit ∷ []) }
    {
        self.list.push(exit)?;
        Ok(())
    }
}
