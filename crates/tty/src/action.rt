//! What a terminal gives to the program that reads from it.

ghost use Rattle.std.specs.Prelude.{◌≡◌, ◌++◌, ◌∷◌, [], length, OnOk, OnErr};

use std::alloc::{AllocError, Global};
use std::marker::Model;
use tcl_words::Text;

/// What a terminal gives to the program that reads from it.
#[derive(Drop)]
pub enum Action {
    /// These bytes.
    Write(Text),
    /// The end of the input.
    End,
}

/// A list of actions, in order. A contract sees a list.
#[derive(Drop)]
pub struct Actions {
    /// The actions, in order.
    pub list: Vec<Action>,
}

impl Model for Actions {
    ghost use Rattle.std.specs.Prelude.{List};
    ghost use Rattle.tty.specs.declared.action.Action.{Action};

    ghost Value = { List Action };

    ghost view = { λ t. t.list.items };
}

impl Actions {
    /// Creates an empty list without allocating.
    pub fn new(alloc: Global) -> Actions
        ensures { result ≡ [] }
    {
        Actions {
            list: Vec::new(alloc),
        }
    }

    /// Returns the actions, in order.
    pub fn as_slice(&self) -> &[Action]
        ensures { result.now ≡ self.now }
    {
        self.list.as_slice()
    }

    /// Returns the number of actions.
    pub fn len(&self) -> usize
        ensures { result ≡ length self.now }
    {
        self.list.len()
    }

    /// Appends an action. On `AllocError` the list is unchanged.
    pub fn push(&mut self, action: Action) -> Result<(), AllocError>
        ensures pushed { OnOk result (self.new ≡ self.old ++ action ∷ []) }
        ensures kept { OnErr result (self.new ≡ self.old) }
    {
        self.list.push(action)?;
        Ok(())
    }
}
