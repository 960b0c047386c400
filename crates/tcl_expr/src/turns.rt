//! Carries out instructions.

ghost use Rattle.std.specs.Prelude.{◌≡◌};

use crate::code::Op;
use crate::faults::ExprFault;
use crate::operators::{Eager, Lazy, Prefix};
use crate::progress::Operands;
use crate::stack::StackEntry;
use std::alloc::Global;

/// The result of an instruction.
#[derive(Drop)]
pub(crate) enum Turn {
    /// The instruction was carried out. This number of later instructions is skipped.
    Went(usize),
    /// The next operand isn't given yet.
    Asks,
    /// An error, or memory was refused.
    Failed(ExprFault),
}

/// Returns whether the first operand of `&&` or `||` decides.
fn decides(op: Lazy, truth: bool) -> bool
    ensures { result ≡ decides op truth }
{
    match op {
        Lazy::And => !truth,
        Lazy::Or => truth,
    }
}

ghost use Rattle.tcl_expr.specs.Value.{decides};

impl Operands {
    ghost use Rattle.tcl_expr.specs.Turns.{Turns};
    ghost use Rattle.tcl_expr.specs.Instr.{op_view, push, push_word, ask, apply, combine, test, truth, branch};
    ghost use Rattle.tcl_expr.specs.Instr.{Instr};

    /// Pushes a number.
    pub(crate) fn hold_number(&mut self, number: i64) -> Turn
        ensures { Turns result (push number) self.old self.new }
    {
        match self.stack.push(StackEntry::Number(number)) {
            Ok(()) => Turn::Went(0),
            Err(_) => Turn::Failed(ExprFault::Memory),
        }
    }

    /// Pushes a word.
    fn hold_word(&mut self, word: Bareword) -> Turn
        ensures { Turns result (push_word word) self.old self.new }
    {
        match self.stack.push(StackEntry::Word(word)) {
            Ok(()) => Turn::Went(0),
            Err(_) => Turn::Failed(ExprFault::Memory),
        }
    }

    /// Pushes the next operand.
    fn take(&mut self) -> Turn
        ensures { (w : Spelled) → Turns result (ask w) self.old self.new }
    {
        if self.given.len() <= self.used {
            return Turn::Asks;
        }
        match self.stack.push(StackEntry::Given(self.used)) {
            Ok(()) => {
                self.used += 1;
                Turn::Went(0)
            }
            Err(_) => Turn::Failed(ExprFault::Memory),
        }
    }

    /// Applies a prefix operator to the top value.
    fn apply(&mut self, alloc: Global, op: Prefix) -> Turn
        ensures { Turns result (apply op) self.old self.new }
    {
        let Some(a) = self.stack.first() else {
            return Turn::Failed(ExprFault::Syntax);
        };
        match self.prefixed(alloc, op, a) {
            Err(fault) => Turn::Failed(fault),
            Ok(z) => {
                self.stack.replace(StackEntry::Number(z));
                Turn::Went(0)
            }
        }
    }

    /// Applies an operator to the two top values.
    fn combine(&mut self, alloc: Global, op: Eager) -> Turn
        ensures { Turns result (combine op) self.old self.new }
    {
        let Some(b) = self.stack.first() else {
            return Turn::Failed(ExprFault::Syntax);
        };
        let Some(a) = self.stack.second() else {
            return Turn::Failed(ExprFault::Syntax);
        };
        match self.combined(alloc, op, a, b) {
            Err(fault) => Turn::Failed(fault),
            Ok(z) => {
                self.stack.pop();
                self.stack.replace(StackEntry::Number(z));
                Turn::Went(0)
            }
        }
    }

    /// Tests the first operand of `&&` or `||`.
    fn test(&mut self, alloc: Global, op: Lazy, n: usize) -> Turn
        ensures { Turns result (test op n) self.old self.new }
    {
        let Some(a) = self.stack.first() else {
            return Turn::Failed(ExprFault::Syntax);
        };
        let Some(truth) = self.truth(a) else {
            return Turn::Failed(self.not_number(alloc, a));
        };
        if decides(op, truth) {
            self.stack.replace(StackEntry::Number(bit(truth)));
            return Turn::Went(n);
        }
        self.stack.pop();
        Turn::Went(0)
    }

    /// Makes the second operand of `&&` or `||` a truth value.
    fn truth_value(&mut self, alloc: Global) -> Turn
        ensures { (op : Lazy) → Turns result (truth op) self.old self.new }
    {
        let Some(a) = self.stack.first() else {
            return Turn::Failed(ExprFault::Syntax);
        };
        match self.on_truth(alloc, a, false) {
            Err(fault) => Turn::Failed(fault),
            Ok(z) => {
                self.stack.replace(StackEntry::Number(z));
                Turn::Went(0)
            }
        }
    }

    /// Tests the condition of `?:`.
    fn branch(&mut self, alloc: Global, n: usize) -> Turn
        ensures { Turns result (branch n) self.old self.new }
    {
        let Some(a) = self.stack.first() else {
            return Turn::Failed(ExprFault::Syntax);
        };
        let Some(truth) = self.truth(a) else {
            return Turn::Failed(self.not_number(alloc, a));
        };
        self.stack.pop();
        if truth {
            return Turn::Went(0);
        }
        Turn::Went(n)
    }

    /// Carries out an instruction.
    pub(crate) fn perform(&mut self, alloc: Global, op: &Op) -> Turn
        ensures { Turns result (op_view op.now) self.old self.new }
    {
        match op {
            Op::Number(z) => self.hold_number(*z),
            Op::Word(word) => self.hold_word(*word),
            Op::Operand(_) => self.take(),
            Op::Apply(op) => self.apply(alloc, *op),
            Op::Combine(op) => self.combine(alloc, *op),
            Op::Test(op, n) => self.test(alloc, *op, *n),
            Op::Truth(_) => self.truth_value(alloc),
            Op::Branch(n) => self.branch(alloc, *n),
            Op::Skip(n) => Turn::Went(*n),
            Op::Join => Turn::Went(0),
        }
    }
}

ghost use Rattle.tcl_words.specs.Pieces.{Spelled};

use crate::bareword::Bareword;
use crate::values::bit;
