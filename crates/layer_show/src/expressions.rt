//! Shows the values of expressions.

ghost use Rattle.tcl_expr.specs.Run.{Serves};

use crate::complaint::Complaint;
use crate::spell::{alloc_of, push_labelled};
use std::alloc::AllocError;
use tcl_expr::{Expr, ExprFault, Operands, Step, parse};
use tcl_values::Value;
use tcl_words::Text;

fn push_fault(text: &mut Text, fault: &ExprFault) -> Result<(), AllocError> {
    match fault {
        ExprFault::Syntax => text.extend(b"Syntax"),
        ExprFault::NotNumber(word) => push_labelled(text, b"NotNumber ", word.as_slice()),
        ExprFault::DivideByZero => text.extend(b"DivideByZero"),
        ExprFault::ZeroToNegative => text.extend(b"ZeroToNegative"),
        ExprFault::NegativeShift => text.extend(b"NegativeShift"),
        ExprFault::Overflow => text.extend(b"Overflow"),
        ExprFault::BadList => text.extend(b"BadList"),
        ExprFault::TooDeep => text.extend(b"TooDeep"),
        ExprFault::Memory => Err(AllocError),
    }
}

/// Appends the value of an expression, its error, or the kind of operand that it asks for.
fn push_step(text: &mut Text, step: &Step) -> Result<(), AllocError> {
    match step {
        Step::NeedVar(_) => text.extend(b"variable"),
        Step::NeedScript(_) => text.extend(b"script"),
        Step::Value(value) => push_labelled(text, b"value ", value.as_slice()),
        Step::Fault(fault) => push_fault(text, fault),
    }
}

/// Appends a step. Returns whether it asks for an operand.
fn push_asked(text: &mut Text, step: &Step) -> Result<bool, AllocError> {
    push_step(text, step)?;
    Ok(matches!(step, Step::NeedVar(_) | Step::NeedScript(_)))
}

/// Advances until an operand is requested, or to the end. Returns whether an operand is requested.
fn push_next(text: &mut Text, expr: &Expr, log: &mut Operands) -> Result<bool, AllocError>
    requires { Serves expr.now log.old }
    ensures { Serves expr.now log.new }
{
    let step = expr.advance(alloc_of(text), log);
    push_asked(text, &step)
}

/// Continues with the values of operands, in the order in which they are requested, until no more
/// values are left.
fn push_value(
    text: &mut Text,
    expr: &Expr,
    log: &mut Operands,
    values: &[Text],
) -> Result<(), AllocError>
    requires { Serves expr.now log.old }
{
    'operands: for value in values {
        if !push_next(text, expr, log)? {
            return Ok(());
        }
        text.push(b' ')?;
        log.give(Value::from_slice(alloc_of(text), value.as_slice())?)?;
    }
    push_next(text, expr, log)?;
    Ok(())
}

/// Evaluates an expression with these values of operands.
fn push_worked_out(text: &mut Text, expr: &Expr, values: &[Text]) -> Result<(), AllocError> {
    let mut log = Operands::new(alloc_of(text));
    push_value(text, expr, &mut log, values)
}

fn push_expression(text: &mut Text, source: &[u8], values: &[Text]) -> Result<(), AllocError> {
    match parse(alloc_of(text), source) {
        Ok(expr) => push_worked_out(text, &expr, values),
        Err(fault) => push_fault(text, &fault),
    }
}

/// Shows expressions. Each call contains an expression, and the values of its operands. Appends a
/// line for each: the requested operands and the result.
pub fn push_expressions(text: &mut Text, calls: &[Vec<Text>]) -> Result<(), Complaint> {
    'calls: for call in calls {
        let [source, values @ ..] = call.as_slice() else {
            return Err(Complaint::Call);
        };
        push_expression(text, source.as_slice(), values)?;
        text.push(b'\n')?;
    }
    Ok(())
}
