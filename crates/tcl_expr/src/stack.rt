//! The stack of values that wait for their operators.

ghost use Rattle.std.specs.Prelude.{◌≡◌, ◌∷◌, ◌<◌, [], drop, length, reverse, Some, IfSome, OnOk, OnErr};
ghost use Rattle.tcl_expr.specs.Stack.{first};

use crate::bareword::Bareword;
use arrayvec::ArrayVec;
use std::alloc::{AllocError, Global};
use std::marker::Model;

/// A value. A number is written as text only when its text is needed.
#[derive(Clone, Copy)]
pub(crate) enum StackEntry {
    Number(i64),
    Word(Bareword),
    /// A given operand, by its index among all given ones.
    Given(usize),
}

impl Default for StackEntry {
    /// Returns the filler for unused places of a stack.
    fn default() -> StackEntry {
        StackEntry::Number(0)
    }
}

/// The number of values that a stack stores without allocating.
const FEW: usize = 4;

/// A stack of values. A contract sees the last one first.
#[derive(Drop)]
pub(crate) struct Stack {
    /// The lowest ones.
    low: ArrayVec<StackEntry, FEW>,
    /// The ones above them.
    high: Vec<StackEntry>,
}

impl Model for Stack {
    ghost use Rattle.std.specs.Prelude.{List, reverse, ◌++◌};
    ghost use Rattle.tcl_expr.specs.declared.stack.StackEntry.{StackEntry};

    ghost Value = { List StackEntry };

    ghost view = { λ s. reverse (s.low.items ++ s.high.items) };
}

/// Returns the last value.
fn last(items: &[StackEntry]) -> Option<StackEntry>
    ensures { result ≡ first (reverse items.now) }
{
    match items {
        [] => None,
        [.., item] => Some(*item),
    }
}

/// Returns the value before the last one.
fn last_but_one(items: &[StackEntry]) -> Option<StackEntry>
    ensures { result ≡ first (drop 1 (reverse items.now)) }
{
    match items {
        [] => None,
        [_] => None,
        [.., item, _] => Some(*item),
    }
}

impl Stack {
    /// Creates an empty stack without allocating.
    pub(crate) fn new(alloc: Global) -> Stack
        ensures { result ≡ [] }
    {
        Stack {
            low: ArrayVec::new(),
            high: Vec::new(alloc),
        }
    }

    #[inline(always)]
    pub(crate) fn push(&mut self, item: StackEntry) -> Result<(), AllocError>
        ensures pushed { OnOk result (self.new ≡ item ∷ self.old) }
        ensures kept { OnErr result (self.new ≡ self.old) }
    {
        if self.high.is_empty() && !self.low.is_full() {
            self.low.push(item);
            return Ok(());
        }
        self.high.push(item)?;
        Ok(())
    }

    /// Returns the value on top.
    #[inline(always)]
    pub(crate) fn first(&self) -> Option<StackEntry>
        ensures { result ≡ first self.now }
    {
        if self.high.is_empty() {
            return last(self.low.as_slice());
        }
        last(self.high.as_slice())
    }

    /// Returns the number on top. `None` if the top value is no number item.
    pub(crate) fn number(&self) -> Option<i64>
        ensures { IfSome result (λ z. first self.now ≡ Some (StackEntry.Number z)) }
    {
        match self.first() {
            Some(StackEntry::Number(z)) => Some(z),
            _ => None,
        }
    }

    /// Returns the value below the top.
    #[inline(always)]
    pub(crate) fn second(&self) -> Option<StackEntry>
        ensures { result ≡ first (drop 1 self.now) }
    {
        if self.high.is_empty() {
            return last_but_one(self.low.as_slice());
        }
        if self.high.len() == 1 {
            return last(self.low.as_slice());
        }
        last_but_one(self.high.as_slice())
    }

    /// Removes the top value, if there is one.
    #[inline(always)]
    pub(crate) fn pop(&mut self)
        ensures { self.new ≡ drop 1 self.old }
    {
        if self.high.pop().is_none() {
            let _top = self.low.pop();
        }
    }

    /// Replaces the top value.
    #[inline(always)]
    pub(crate) fn replace(&mut self, item: StackEntry)
        requires { 0 < length self.old }
        ensures { self.new ≡ item ∷ drop 1 self.old }
    {
        let above = self.high.len();
        if above != 0 {
            self.high[above - 1] = item;
            return;
        }
        let last = self.low.len() - 1;
        self.low[last] = item;
    }
}
