//! An expression as a list of instructions. Each operand comes before its operator, and jumps skip
//! what isn't needed.

ghost use Rattle.std.specs.Prelude.{◌≡◌, ◌<◌, ◌++◌, ◌∷◌, [], length, replicate, slice_set, OnOk};
ghost use Rattle.tcl_expr.specs.Instr.{op_view, combine};

use crate::bareword::Bareword;
use crate::operators::{Eager, Lazy, Prefix};
use std::alloc::{AllocError, Global};
use std::marker::Model;
use tcl_words::Word;

/// An instruction of a stack machine.
#[derive(Drop)]
pub(crate) enum Op {
    /// Pushes a number.
    Number(i64),
    /// Pushes one of the six words.
    Word(Bareword),
    /// Pushes the next operand, which is the substituted value of this word.
    Operand(Word),
    /// Applies an operator to the top value.
    Apply(Prefix),
    /// Applies an operator to the two top values.
    Combine(Eager),
    /// If the top value decides, makes it a truth value and skips this number of instructions.
    /// Otherwise drops it.
    Test(Lazy, usize),
    /// Makes the top value, which is this operator's second operand, a truth value.
    Truth(Lazy),
    /// Drops the top value. If it was false, skips this number of instructions.
    Branch(usize),
    /// Skips this number of instructions.
    Skip(usize),
    /// The end of `?:`. It does nothing.
    Join,
}

impl Op {
    ghost use Rattle.std.specs.Prelude.{Some, None, MatchOption};
    ghost use Rattle.tcl_words.specs.Pieces.{word_view};
    ghost use Rattle.tcl_expr.specs.Numbered.{asked};

    /// Returns the word of the operand that the instruction pushes. `None` for other instructions.
    pub(crate) fn operand(&self) -> Option<&Word>
        ensures { MatchOption result (asked (Some (op_view self.now)) ≡ None) (λ w. asked (Some (op_view self.now)) ≡ Some (word_view w.now)) }
    {
        match self {
            Op::Operand(word) => Some(word),
            _ => None,
        }
    }
}

/// A list of instructions, in order.
#[derive(Drop)]
pub(crate) struct Code {
    pub(crate) ops: Vec<Op>,
}

impl Model for Code {
    ghost use Rattle.std.specs.Prelude.{List, map};
    ghost use Rattle.std.specs.Coded.{codes};
    ghost use Rattle.tcl_expr.specs.Codes.{coded_spelled};
    ghost use Rattle.tcl_expr.specs.Instr.{Instr, op_view};

    ghost Value = { List Instr };

    ghost coded = { Prim.hlevel (codes, coded_spelled) };

    ghost view = { λ c. map op_view c.ops.items };
}

impl Code {
    pub(crate) fn new(alloc: Global) -> Code
        ensures { result ≡ [] }
    {
        Code {
            ops: Vec::new(alloc),
        }
    }

    pub(crate) fn len(&self) -> usize
        ensures { result ≡ length self.now }
    {
        self.ops.len()
    }

    /// Appends an instruction.
    pub(crate) fn push(&mut self, op: Op) -> Result<(), AllocError>
        ensures pushed { OnOk result (self.new ≡ self.old ++ op_view op ∷ []) }
    {
        self.ops.push(op)?;
        Ok(())
    }

    /// Appends the instruction of an operator this number of times.
    pub(crate) fn combine(&mut self, op: Eager, count: usize) -> Result<(), AllocError>
        ensures { OnOk result (self.new ≡ self.old ++ replicate count (combine op)) }
    {
        for _ in 0..count {
            self.push(Op::Combine(op))?;
        }
        Ok(())
    }

    /// Replaces the instruction at an index.
    pub(crate) fn patch(&mut self, at: usize, op: Op)
        requires { at < length self.old }
        ensures { self.new ≡ slice_set self.old at (op_view op) }
    {
        self.ops[at] = op;
    }
}
