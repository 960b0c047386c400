//! Children whose bytes needn't be tested again.

ghost use Rattle.std.specs.Prelude.{◌≡◌, [], IfOk, slice_set};
ghost use Rattle.expect_core.specs.Quiet.{marked, spared, unmarked};

use crate::place::Place;
use std::alloc::{AllocError, Global};
use std::marker::Model;

/// A mark for each child that takes part: a test of its bytes chose nothing, and they haven't
/// changed. A contract sees a list.
#[derive(Drop)]
pub struct Quiet {
    marks: Vec<bool>,
}

impl Model for Quiet {
    ghost use Rattle.std.specs.Prelude.{List, Bool};

    ghost Value = { List Bool };

    ghost view = { λ q. q.marks.items };
}

impl Quiet {
    /// Creates a list without marks and without room for any. It doesn't allocate.
    pub(crate) fn none(alloc: Global) -> Quiet
        ensures { result ≡ [] }
    {
        Quiet {
            marks: Vec::new(alloc),
        }
    }

    /// Creates a list with room for this many marks, all off. For fewer than two children it has no
    /// room and doesn't allocate.
    pub(crate) fn new(alloc: Global, sides: usize) -> Result<Quiet, AllocError>
        ensures { IfOk result (λ q. q ≡ unmarked sides) }
    {
        let mut marks = Vec::new(alloc);
        if sides < 2 {
            return Ok(Quiet { marks });
        }
        for _ in 0..sides {
            marks.push(false)?;
        }
        Ok(Quiet { marks })
    }

    /// Returns whether there is a mark at an index.
    pub(crate) fn has(&self, at: usize) -> bool
        ensures { result ≡ marked at self.now }
    {
        if at < self.marks.len() {
            self.marks[at]
        } else {
            false
        }
    }

    /// Returns whether the child at an index needn't be tested: it has a mark, and isn't the one
    /// that changed. `child` is its place.
    pub(crate) fn spares(&self, at: usize, child: Place, changed: &Option<Place>) -> bool
        ensures { result ≡ spared at child changed.now self.now }
    {
        match changed {
            None => self.has(at),
            Some(other) => {
                if other.index() == child.index() {
                    false
                } else {
                    self.has(at)
                }
            }
        }
    }

    /// Sets or removes the mark at an index.
    pub(crate) fn set(&mut self, at: usize, mark: bool)
        ensures { self.new ≡ slice_set self.old at mark }
    {
        if at < self.marks.len() {
            self.marks[at] = mark;
        }
    }
}
