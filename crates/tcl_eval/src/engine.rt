//! The state of a run.

ghost use Rattle.std.specs.Prelude.{◌≡◌, ◌+◌, IfOk};
ghost use Rattle.std.specs.Bool.{OnTrue, OnFalse};

use crate::frame::Frame;
use crate::procedure::Procedure;
use crate::read_texts::ReadTexts;
use crate::trail::Trail;
use exp_match::Compiled;
use std::alloc::{AllocError, Global};
use tcl_host::Pile;
use tcl_subst::{Names, Vars};
use tcl_values::Value;

/// The state of a run, except for what it does next.
#[derive(Drop)]
pub struct Engine {
    /// The allocator of values.
    pub(crate) alloc: Global,
    /// The work left, the innermost first.
    pub(crate) stack: Pile<Frame>,
    /// The variables.
    pub vars: Vars,
    /// The procedures.
    pub(crate) procs: Names<Procedure>,
    /// The trail of the current error.
    pub(crate) trail: Trail,
    /// A cache of parsed texts.
    pub(crate) read: ReadTexts,
    /// A cache of compiled patterns.
    pub(crate) patterns: Compiled,
    /// The number of steps left.
    pub(crate) left: u64,
}

impl Engine {
    /// Begins a step if one is left. Returns whether one was.
    pub(crate) fn begin(&mut self) -> bool
        ensures begun { OnTrue result (self.new ≡ record self.old { left = self.new.left } × (self.old.left ≡ self.new.left + 1)) }
        ensures spent { OnFalse result ((self.old.left ≡ 0) × (self.new ≡ self.old)) }
    {
        if self.left == 0 {
            return false;
        }
        self.left -= 1;
        true
    }

    /// Returns a value of these bytes.
    pub(crate) fn value(&self, bytes: &[u8]) -> Result<Value, AllocError>
        ensures { IfOk result (λ v. v ≡ bytes.now) }
    {
        Value::from_slice(self.alloc, bytes)
    }
}
