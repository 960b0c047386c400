//! Evaluates expressions operand by operand.

ghost use Rattle.std.specs.Prelude.{◌≡◌, ℕ, List, Some, Ok, IfOk, IfSome, OnOk};
ghost use Rattle.tcl_expr.specs.Answers.{Comes};
ghost use Rattle.tcl_words.specs.Pieces.{Spelled};
ghost use Rattle.tcl_expr.specs.Grammar.{parsed};
ghost use Rattle.tcl_expr.specs.Numbered.{operand_at};
ghost use Rattle.tcl_expr.specs.Reads.{Gives};
ghost use Rattle.tcl_expr.specs.Tells.{TellsFault};
ghost use Rattle.tcl_expr.specs.Tree.{Tree};
ghost use Rattle.tcl_expr.specs.Value.{outcome, faulty};
ghost use Rattle.tcl_subst.specs.Filling.{fill};
ghost use Rattle.tcl_eval.specs.Advanced.{IsTold, begun_fill};
ghost use Rattle.tcl_eval.specs.Evaluated.{fresh, with_operand};

use crate::advance::Advance;
use crate::begun::{Begun, begin_operand};
use crate::read_texts::ReadTexts;
use std::alloc::{AllocError, Global};
use std::marker::Model;
use std::rc::Rc;
use tcl_expr::{Expr, ExprFault, Operands, Readings, Step, parse};
use tcl_subst::Vars;
use tcl_values::Value;

/// An expression with its text.
#[derive(Drop)]
pub struct ReadExpr {
    text: Value,
    expr: Expr,
}

/// An expression with its text, shared between owners. A contract sees the tree.
#[derive(Drop)]
pub struct Test {
    read: Rc<ReadExpr>,
}

impl Model for Test {
    ghost use Rattle.std.specs.Prelude.{◌≡◌, Ok};
    ghost use Rattle.tcl_expr.specs.Grammar.{parsed};
    ghost use Rattle.tcl_expr.specs.Tree.{Tree};
    ghost use Rattle.tcl_eval.specs.Evaluated.{coded_tree};

    ghost Value = { Tree };

    ghost coded = { coded_tree };

    ghost view = { λ t. t.read.value.expr };

    ghost invariant = { λ t. parsed t.read.value.text ≡ Ok t.read.value.expr };
}

impl Test {
    /// Parses a text as an expression.
    pub(crate) fn parse(alloc: Global, text: &Value) -> Result<Test, ExprFault>
        ensures { Gives result (parsed text.now) }
    {
        let expr = parse(alloc, text.as_slice())?;
        let text = text.shared(alloc)?;
        Ok(Test {
            read: Rc::new(alloc, ReadExpr { text, expr })?,
        })
    }

    /// Returns the text of the expression.
    pub(crate) fn text(&self) -> &[u8]
        ensures { parsed result.now ≡ Ok self.now }
    {
        self.read.text.as_slice()
    }

    /// Returns the value if it is a number and all operands needed are known numbers. `None`
    /// otherwise.
    pub(crate) fn number<R: Readings>(&self, alloc: Global, readings: &R) -> Option<i64>
        ensures { IfSome result (λ z. Comes (R.tells readings.now) self.now z) }
    {
        self.read.expr.number(alloc, readings)
    }

    /// Returns the same expression for another owner, without copying it.
    pub(crate) fn shared(&self) -> Result<Test, AllocError>
        ensures { IfOk result (λ t. t ≡ self.now) }
    {
        Ok(Test {
            read: self.read.clone()?,
        })
    }
}

/// The evaluation of an expression. A contract sees the tree and the values of the operands
/// computed so far.
#[derive(Drop)]
pub struct Evaluation {
    test: Test,
    log: Operands,
}

impl Model for Evaluation {
    ghost use Rattle.tcl_expr.specs.Run.{Serves};
    ghost use Rattle.tcl_eval.specs.Evaluated.{Evaluated, coded_evaluated};

    ghost Value = { Evaluated };

    ghost coded = { coded_evaluated };

    ghost view = { λ e. record { tree = e.test; given = e.log.given } };

    ghost invariant = { λ e. Serves e.test e.log };
}

impl Evaluation {
    /// Creates an evaluation with no computed operand.
    pub(crate) fn new(alloc: Global, test: Test) -> Evaluation
        ensures { result ≡ fresh test }
    {
        Evaluation {
            test,
            log: Operands::new(alloc),
        }
    }

    /// Adds the value of the operand that was needed.
    #[inline(always)]
    pub(crate) fn give(&mut self, value: Value) -> Result<(), AllocError>
        ensures { OnOk result (self.new ≡ with_operand value self.old) }
    {
        self.log.give(value)
    }

    /// Continues until the value is known, an error occurs, or an operand is needed. Begins the
    /// substitution of that operand.
    pub(crate) fn step(
        &mut self,
        alloc: Global,
        read: &mut ReadTexts,
        vars: &mut Vars,
    ) -> Result<Advance, AllocError>
        ensures told { IfOk result (λ a. IsTold vars.old a self.old) }
        ensures same { self.new ≡ self.old }
        ensures vars { vars.new ≡ vars.old }
    {
        match self.test.read.expr.advance(alloc, &mut self.log) {
            Step::Value(value) => Ok(Advance::Value(value)),
            Step::NeedVar(number) => Ok(Advance::Operand(self.operand(alloc, number, read, vars)?)),
            Step::NeedScript(number) => Ok(Advance::Operand(self.operand(
                alloc, number, read, vars,
            )?)),
            Step::Fault(fault) => Ok(Advance::Fault(told(fault)?)),
        }
    }

    /// Begins the substitution of the operand with a number.
    #[inline(always)]
    fn operand(
        &self,
        alloc: Global,
        number: usize,
        read: &mut ReadTexts,
        vars: &mut Vars,
    ) -> Result<Begun, AllocError>
        ensures told { (w : Spelled) → operand_at self.now.tree number ≡ Some w → IfOk result (λ b. begun_fill b ≡ fill w.pieces vars.old) }
        ensures same { vars.new ≡ vars.old }
    {
        match self.test.read.expr.operand(number) {
            None => Err(AllocError),
            Some(word) => begin_operand(alloc, word, read, vars),
        }
    }
}

/// Returns an error of the expression itself. Refused memory becomes an `AllocError`.
fn told(fault: ExprFault) -> Result<ExprFault, AllocError>
    ensures { (t : Tree) (given : List (List ℕ)) → TellsFault fault t given → IfOk result (λ f. outcome t given ≡ faulty f) }
{
    match fault {
        ExprFault::Syntax => Ok(ExprFault::Syntax),
        ExprFault::NotNumber(text) => Ok(ExprFault::NotNumber(text)),
        ExprFault::DivideByZero => Ok(ExprFault::DivideByZero),
        ExprFault::ZeroToNegative => Ok(ExprFault::ZeroToNegative),
        ExprFault::NegativeShift => Ok(ExprFault::NegativeShift),
        ExprFault::Overflow => Ok(ExprFault::Overflow),
        ExprFault::BadList => Ok(ExprFault::BadList),
        ExprFault::TooDeep => Ok(ExprFault::TooDeep),
        ExprFault::Memory => Err(AllocError),
    }
}
