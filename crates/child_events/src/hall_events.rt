//! Lists of events of all scripts.

ghost use Rattle.std.specs.Prelude.{◌≡◌, ◌++◌, ◌∷◌, [], length, IfOk, OnOk, OnErr};

use crate::event::HallEvent;
use std::alloc::{AllocError, Global};
use std::marker::Model;

/// A list of events of all scripts, in order. A contract sees a list.
#[derive(Drop)]
pub struct HallEvents {
    /// The events, in order.
    pub list: Vec<HallEvent>,
}

impl Model for HallEvents {
    ghost use Rattle.std.specs.Prelude.{List};
    ghost use Rattle.child_events.specs.declared.event.HallEvent.{HallEvent};

    ghost Value = { List HallEvent };

    ghost view = { λ t. t.list.items };
}

impl HallEvents {
    /// Creates an empty list without allocating.
    pub fn new(alloc: Global) -> HallEvents
        ensures { result ≡ [] }
    {
        HallEvents {
            list: Vec::new(alloc),
        }
    }

    /// Creates an empty list with room for `capacity` events.
    pub fn with_capacity(alloc: Global, capacity: usize) -> Result<HallEvents, AllocError>
        ensures { IfOk result (λ es. es ≡ []) }
    {
        Ok(HallEvents {
            list: Vec::with_capacity(alloc, capacity)?,
        })
    }

    /// Returns the events, in order.
    pub fn as_slice(&self) -> &[HallEvent]
        ensures { result.now ≡ self.now }
    {
        self.list.as_slice()
    }

    /// Returns the number of events.
    pub fn len(&self) -> usize
        ensures { result ≡ length self.now }
    {
        self.list.len()
    }

    /// Appends an event. On `AllocError` the list is unchanged.
    pub fn push(&mut self, event: HallEvent) -> Result<(), AllocError>
        ensures pushed { OnOk result (self.new ≡ self.old ++ event ∷ []) }
        ensures kept { OnErr result (self.new ≡ self.old) }
    {
        self.list.push(event)?;
        Ok(())
    }
}
