//! Evaluates expressions over numbers only, without texts.

ghost use Rattle.std.specs.Prelude.{◌≡◌, [], IfSome};
ghost use Rattle.tcl_words.specs.Pieces.{word_view};
ghost use Rattle.tcl_expr.specs.Instr.{op_view};
ghost use Rattle.tcl_expr.specs.Answers.{Comes, CountsBy};
ghost use Rattle.tcl_expr.specs.Run.{Serves};

use crate::code::Op;
use crate::parsing::Expr;
use crate::progress::Operands;
use crate::turns::Turn;
use std::alloc::Global;
use tcl_words::Word;

/// A source of the numbers of operands.
pub trait Readings {
    ghost use Rattle.std.specs.Prelude.{ℤ};
    ghost use Rattle.tcl_words.specs.Pieces.{Spelled};

    /// The operand with this word may have this number as its value.
    ghost tells: { Self → Spelled → ℤ → Type 0 };

    /// Returns the number of an operand. `None` if it isn't a number or isn't known.
    fn number(&self, word: &Word) -> Option<i64>
        ensures { IfSome result (λ z. tells self.now (word_view word.now) z) };
}

impl Operands {
    /// Carries out an instruction. An operand that it asks for is taken from the source.
    fn count<R: Readings>(&mut self, alloc: Global, op: &Op, readings: &R) -> Turn
        ensures { CountsBy (R.tells readings.now) result (op_view op.now) self.old self.new }
    {
        match op {
            Op::Operand(word) => match readings.number(word) {
                None => Turn::Asks,
                Some(number) => self.hold_number(number),
            },
            _ => self.perform(alloc, op),
        }
    }
}

impl Expr {
    /// Returns the value if it is a number and each operand needed is a known number. `None`
    /// otherwise, and if memory is refused. More than four values on the stack need an allocation.
    pub fn number<R: Readings>(&self, alloc: Global, readings: &R) -> Option<i64>
        ensures { IfSome result (λ z. Comes (R.tells readings.now) self.now z) }
    {
        let mut log = Operands::new(alloc);
        self.counted(alloc, readings, &mut log)
    }

    /// Like `number`, for an evaluation that has not begun.
    fn counted<R: Readings>(&self, alloc: Global, readings: &R, log: &mut Operands) -> Option<i64>
        requires serves { Serves self.now log.old }
        requires fresh { log.old.given ≡ [] }
        ensures { IfSome result (λ z. Comes (R.tells readings.now) self.now z) }
    {
        let ops = self.code.ops.as_slice();
        while log.at < ops.len() {
            let op = &ops[log.at];
            match log.count(alloc, op, readings) {
                Turn::Went(n) => log.at += 1 + n.min(ops.len() - log.at - 1),
                Turn::Asks => return None,
                Turn::Failed(_) => return None,
            }
        }
        log.stack.number()
    }
}
