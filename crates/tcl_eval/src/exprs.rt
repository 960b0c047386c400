//! Evaluates expressions.

ghost use Rattle.std.specs.Prelude.{◌≡◌, ℕ, ◌≤◌, Bool, List, [], IfOk};
ghost use Rattle.tcl_expr.specs.Tree.{Tree as Expression};
ghost use Rattle.tcl_results.specs.Texts.{expr_fault};
ghost use Rattle.tcl_eval.specs.Advanced.{begun_fill};
ghost use Rattle.tcl_eval.specs.Meaning.{Next, Eval, eval, fill_word, on_ok, on_said, tree_of, expression, condition, tested};
ghost use Rattle.tcl_eval.specs.Rest.{now_of};
ghost use Rattle.tcl_eval.specs.Worth.{worth};
ghost use Rattle.tcl_eval.specs.Native.{CameIs, Known, Spent, TruthIs, WordIs, at_ok, flow, owed};
ghost use Rattle.tcl_eval.specs.Tree.{State, Tree};

use crate::advance::Advance;
use crate::begun::Begun;
use crate::engine::Engine;
use crate::evaluation::{Evaluation, Test};
use crate::frame::Onward;
use crate::numbers::{number_of, truth_by_numbers};
use crate::out::{Exception, Leave};
use crate::stops::onward_below;
use crate::words::unfilled;
use std::alloc::{AllocError, Global};
use tcl_expr::{ExprFault, operands_are_bounded, read_truth, write_number};
use tcl_results::{expected_number, expr_fault};
use tcl_subst::FillStep;
use tcl_values::Value;

impl Engine {
    /// Evaluates the rest of an expression.
    #[cycle(native)]
    #[inline(never)]
    pub(crate) fn worth(&mut self, first: Evaluation, depth: u32) -> Result<Value, Leave>
        ensures measures { Spent self.old self.new 0 (owed 0 result) }
        ensures rest { WordIs self.old result self.new (λ k go st. worth (eval depth) first k go st) }
    {
        operands_are_bounded();
        let mut evaluation = first;
        'operands: loop {
            match evaluation.step(self.alloc, &mut self.read, &mut self.vars)? {
                Advance::Value(value) => return Ok(value),
                Advance::Fault(fault) => {
                    let text = fault_text(self.alloc, &fault)?;
                    return Err(Leave::Gone(Exception::Error, text));
                }
                Advance::Operand(begun) => match self.operand(begun, depth) {
                    Ok(value) => evaluation.give(value)?,
                    Err(leave) => {
                        return Err(onward_below(leave, Onward::Operand { evaluation, depth }));
                    }
                },
            }
        }
    }

    /// Performs the rest of an operand's substitution.
    #[cycle(native)]
    fn operand(&mut self, begun: Begun, depth: u32) -> Result<Value, Leave>
        ensures measures { Spent self.old self.new 0 (owed 0 result) }
        ensures rest { WordIs self.old result self.new (λ k go st. fill_word (eval depth) (begun_fill begun) k go st) }
    {
        match begun {
            Begun::Full(value) => Ok(value),
            Begun::Alone(script) => self.alone_script(&script, depth),
            Begun::Script(filler, number) => {
                let filler = Box::into_inner(filler);
                self.fill_on(filler, FillStep::NeedScript(number), depth)
            }
            Begun::Failed(filler, fault) => {
                let text = unfilled(self.alloc, &filler, fault)?;
                Err(Leave::Gone(Exception::Error, text))
            }
        }
    }

    /// Returns whether a condition is true.
    #[cycle(native)]
    pub(crate) fn truth(&mut self, test: Test, depth: u32) -> Result<bool, Leave>
        ensures measures { Spent self.old self.new 0 (owed 0 result) }
        ensures rest { TruthIs self.old result self.new (λ k go st. condition (eval depth) test k go st) }
    {
        if let Some(holds) = truth_by_numbers(self.alloc, &test, &self.vars) {
            return Ok(holds);
        }
        let value = self.worth(Evaluation::new(self.alloc, test), depth)?;
        truth_of(self.alloc, &value)
    }

    /// Returns whether the condition that a text is is true.
    #[cycle(native)]
    pub(crate) fn text_truth(&mut self, text: &Value, depth: u32) -> Result<bool, Leave>
        ensures measures { Spent self.old self.new 0 (owed 0 result) }
        ensures rest { TruthIs self.old result self.new (λ k go st. on_said (tree_of text.now) k (λ t st. condition (eval depth) t k go st) st) }
    {
        match self.test(text) {
            Ok(test) => self.truth(test, depth),
            Err(leave) => Err(leave),
        }
    }

    /// Parses a text as an expression, or takes it from the cache.
    pub(crate) fn test(&mut self, text: &Value) -> Result<Test, Leave>
        ensures measures { Spent self.old self.new 0 (owed 0 result) }
        ensures same { now_of self.new ≡ now_of self.old }
        ensures rest { Known result → (k : Next) (go : Expression → State → Tree) (st : State) → flow result st k go ≡ on_said (tree_of text.now) k go st }
        ensures within { Known result → (k : Next) (on : List ℕ → State → Tree) (go : Expression → State → Tree) (st : State) → flow result st (on_ok on k) go ≡ on_said (tree_of text.now) k go st }
    {
        match self.read.test(self.alloc, text) {
            Ok(test) => Ok(test),
            Err(ExprFault::Memory) => Err(Leave::Memory),
            Err(fault) => {
                let text = expr_fault(self.alloc, text.as_slice(), &fault)?;
                let text = Value::from_text(self.alloc, text)?;
                Err(Leave::Gone(Exception::Error, text))
            }
        }
    }

    /// Returns the value of an expression, as the value of a command.
    #[cycle(native)]
    pub(crate) fn result(&mut self, test: Test, depth: u32) -> Result<Value, Leave>
        ensures measures { Spent self.old self.new 0 (owed 0 result) }
        ensures rest { CameIs self.old result self.new (λ k st. expression (eval depth) test k (at_ok k) st) }
    {
        if let Some(number) = number_of(self.alloc, &test, &self.vars) {
            return Ok(write_number(self.alloc, number)?);
        }
        self.worth(Evaluation::new(self.alloc, test), depth)
    }
}

/// Returns the truth value of a value.
#[inline(always)]
pub(crate) fn truth_of(alloc: Global, value: &Value) -> Result<bool, Leave>
    ensures rest { Known result → (k : Next) (go : Bool → State → Tree) (st : State) → flow result st k go ≡ tested value.now k go st }
    ensures within { Known result → (k : Next) (on : List ℕ → State → Tree) (go : Bool → State → Tree) (st : State) → flow result st (on_ok on k) go ≡ tested value.now k go st }
    ensures weight { owed 0 result ≡ 0 }
{
    match read_truth(value.as_slice()) {
        Some(holds) => Ok(holds),
        None => {
            let text = expected_number(alloc, value.as_slice())?;
            Err(Leave::Gone(Exception::Error, Value::from_text(alloc, text)?))
        }
    }
}

/// Returns the text of an expression's error.
fn fault_text(alloc: Global, fault: &ExprFault) -> Result<Value, AllocError>
    ensures { IfOk result (λ text. text ≡ expr_fault [] fault.now) }
{
    Value::from_text(alloc, expr_fault(alloc, &[], fault)?)
}
