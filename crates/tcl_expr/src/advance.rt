//! Evaluates an expression operand by operand.

ghost use Rattle.std.specs.Prelude.{◌≡◌, length};
ghost use Rattle.tcl_expr.specs.Run.{Serves, held};
ghost use Rattle.tcl_expr.specs.Instr.{op_view};
ghost use Rattle.tcl_expr.specs.Tells.{Tells, AsksAt, Answers};

use crate::code::Op;
use crate::faults::ExprFault;
use crate::parsing::Expr;
use crate::progress::Operands;
use crate::script::has_script;
use crate::turns::Turn;
use std::alloc::Global;
use tcl_values::Value;

/// The result of a step of an evaluation.
#[derive(Drop)]
pub enum Step {
    /// The value.
    Value(Value),
    /// The operand with this number is needed next. Its substitution runs no command.
    NeedVar(usize),
    /// The operand with this number is needed next. Its substitution may run a command.
    NeedScript(usize),
    /// The evaluation failed.
    Fault(ExprFault),
}

/// Returns the step for an instruction that asks for its operand. `at` is the index of the
/// instruction.
fn needed(op: &Op, at: usize) -> Step
    ensures { AsksAt result (op_view op.now) at }
{
    match op.operand() {
        None => Step::Fault(ExprFault::Syntax),
        Some(word) => {
            if has_script(word.parts.as_slice()) {
                return Step::NeedScript(at);
            }
            Step::NeedVar(at)
        }
    }
}

/// Returns the value after all instructions.
fn answer(alloc: Global, log: &Operands) -> Step
    ensures { Answers result (held log.now) }
{
    match log.stack.first() {
        None => Step::Fault(ExprFault::Syntax),
        Some(item) => match log.value(alloc, item) {
            Ok(value) => Step::Value(value),
            Err(_) => Step::Fault(ExprFault::Memory),
        },
    }
}

impl Expr {
    /// Continues an evaluation until the value is known, an error occurs, or an operand is needed
    /// that isn't given yet.
    ///
    /// For an operand, the caller computes its value, passes it to [`Operands::give`] and calls
    /// `advance` again. `log` must be used with this expression only. A `Fault` with
    /// [`ExprFault::Memory`] keeps the progress made, so `advance` can be called again.
    pub fn advance(&self, alloc: Global, log: &mut Operands) -> Step
        requires { Serves self.now log.old }
        ensures tells { Tells result self.now log.old.given }
        ensures serves { Serves self.now log.new }
        ensures given { log.new.given ≡ log.old.given }
    {
        let ops = self.code.ops.as_slice();
        while log.at < ops.len() {
            let op = &ops[log.at];
            match log.perform(alloc, op) {
                Turn::Went(n) => log.at += 1 + n.min(ops.len() - log.at - 1),
                Turn::Asks => return needed(op, log.at),
                Turn::Failed(fault) => return Step::Fault(fault),
            }
        }
        answer(alloc, log)
    }
}
