//! Distributes events to the scripts that see them.

ghost use Rattle.std.specs.Prelude.{◌≡◌, ◌<◌, ◌++◌, ◌∷◌, [], length, replicate, vec_len, IfOk, OnOk};
ghost use Rattle.dialogue_sched.specs.Shares.{dealt, PutAt};

use child_events::{Event, HallEvent};
use std::alloc::{AllocError, Global};
use std::marker::Model;

/// The events that one script sees. A contract sees a list.
#[derive(Drop)]
pub struct Share {
    pub events: Vec<Event>,
}

impl Model for Share {
    ghost use Rattle.std.specs.Prelude.{List};
    ghost use Rattle.child_events.specs.declared.event.Event.{Event};

    ghost Value = { List Event };

    ghost view = { λ t. t.events.items };
}

impl Share {
    /// Appends an event.
    fn put(&mut self, event: Event) -> Result<(), AllocError>
        ensures { OnOk result (self.new ≡ self.old ++ event ∷ []) }
    {
        self.events.push(event)?;
        Ok(())
    }
}

/// The events that each script sees, in the order of the scripts. A contract sees a list of lists.
#[derive(Drop)]
pub struct Shares {
    pub list: Vec<Share>,
}

impl Model for Shares {
    ghost use Rattle.std.specs.Prelude.{List};
    ghost use Rattle.child_events.specs.declared.event.Event.{Event};

    ghost Value = { List (List Event) };

    ghost view = { λ t. t.list.items };
}

/// Appends an event to the share at index i.
fn put_at(shares: &mut Vec<Share>, i: usize, event: Event) -> Result<(), AllocError>
    requires { i < vec_len shares.old }
    ensures put { OnOk result (PutAt i event shares.old.items shares.new.items) }
    ensures same { vec_len shares.new ≡ vec_len shares.old }
{
    let share = &mut shares[i];
    share.put(event)?;
    Ok(())
}

/// Appends a tick to each share.
fn put_tick(shares: &mut Vec<Share>, moment: u64) -> Result<(), AllocError>
    ensures { OnOk result (Paired (λ old new. new ≡ old ++ events.Tick moment ∷ []) shares.old.items shares.new.items) }
{
    for i in 0..shares.len() {
        put_at(shares, i, Event::Tick { moment })?;
    }
    Ok(())
}

ghost use Rattle.child_events.specs.declared.event.Event.TheVariants as events;
ghost use Rattle.dialogue_sched.specs.Pairs.{Paired};

impl Shares {
    /// Creates empty shares for this number of scripts.
    pub fn new(alloc: Global, scripts: usize) -> Result<Shares, AllocError>
        ensures { IfOk result (λ shares. shares ≡ replicate scripts []) }
    {
        let mut list = Vec::with_capacity(alloc, scripts)?;
        for _ in 0..scripts {
            list.push(Share {
                events: Vec::new(alloc),
            })?;
        }
        Ok(Shares { list })
    }

    /// Appends an event to the share of each script that sees it.
    pub fn deal(&mut self, event: HallEvent) -> Result<(), AllocError>
        ensures { OnOk result (self.new ≡ dealt 1 event self.old) }
    {
        match event {
            HallEvent::Child {
                script,
                child,
                moment,
                what,
            } => {
                let number = script as usize;
                if number == 0 {
                    return Ok(());
                }
                if number > self.list.len() {
                    return Ok(());
                }
                put_at(
                    &mut self.list,
                    number - 1,
                    Event::Child {
                        child,
                        moment,
                        what,
                    },
                )?;
                Ok(())
            }
            HallEvent::Tick { moment } => {
                put_tick(&mut self.list, moment)?;
                Ok(())
            }
        }
    }
}
