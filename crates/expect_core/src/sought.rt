//! The numbers of bytes that a wait has searched without a match.

ghost use Rattle.std.specs.Prelude.{◌≡◌, length, slice_index, slice_set, IfOk};
ghost use Rattle.expect_core.specs.Heard.{watched};
ghost use Rattle.expect_core.specs.Sought.{Forgets, nothing_sought};

use crate::place::Place;
use crate::plan::Plan;
use std::alloc::{AllocError, Global};
use std::marker::Model;

/// For each child that takes part in a wait, the number of first bytes in its match buffer that
/// were searched without a match. A contract sees a list.
#[derive(Drop)]
pub struct Sought {
    counts: Vec<usize>,
}

impl Model for Sought {
    ghost use Rattle.std.specs.Prelude.{List, ℕ};

    ghost Value = { List ℕ };

    ghost view = { λ s. s.counts.items };
}

impl Sought {
    /// Creates a list for no children, without allocating.
    pub(crate) fn none(alloc: Global) -> Sought
        ensures { result ≡ nothing_sought 0 }
    {
        Sought {
            counts: Vec::new(alloc),
        }
    }

    /// Creates a list for this many children, of which nothing is known.
    pub(crate) fn new(alloc: Global, sides: usize) -> Result<Sought, AllocError>
        ensures { IfOk result (λ s. s ≡ nothing_sought sides) }
    {
        let mut counts = Vec::with_capacity(alloc, sides)?;
        for _ in 0..sides {
            counts.push(0)?;
        }
        Ok(Sought { counts })
    }

    /// Returns the number of searched bytes of the child at an index.
    pub(crate) fn at(&self, at: usize) -> usize
        ensures { result ≡ slice_index self.now at }
    {
        match self.counts.get(at) {
            Some(count) => *count,
            None => 0,
        }
    }

    /// Sets the number of searched bytes of the child at an index.
    pub(crate) fn set(&mut self, at: usize, count: usize)
        ensures { self.new ≡ slice_set self.old at count }
    {
        if at < self.counts.len() {
            self.counts[at] = count;
        }
    }

    /// Sets the number of searched bytes of a child to 0, as its first bytes may be gone.
    pub(crate) fn forget(&mut self, plan: &Plan, child: &Place)
        ensures { Forgets child.now plan.now (length (watched plan.now)) self.old self.new }
    {
        'sides: for at in 0..plan.sides.list.len() {
            let (place, _) = &plan.sides.list[at];
            if place.index() == child.index() {
                self.set(at, 0);
            }
        }
    }
}
