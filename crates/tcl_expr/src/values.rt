//! Operators on numbers and orders.

ghost use Rattle.std.specs.Prelude.{◌≡◌, ◌+ℤ◌, ◌-ℤ◌, ◌*ℤ◌, ◌^◌, neg_ℤ, pos, ℤ};
ghost use Rattle.std.specs.Option.{SomeIff};
ghost use Rattle.std.specs.Int.{w64, int_pow};
ghost use Rattle.std.specs.Int.RustNames.{FitsSigned};
ghost use Rattle.tcl_expr.specs.Value.{checked, floor_div, divided, remainder, reciprocal, power, shifted_left, shifted_right, arithmetic, negated, holds, bit};

use crate::faults::ExprFault;
use crate::operators::{Arithmetic, Comparison, Prefix};
use std::cmp::Ordering;

fn sum(a: i64, b: i64) -> Result<i64, ExprFault>
    ensures { result ≡ checked (a +ℤ b) }
{
    match a.checked_add(b) {
        Some(z) => Ok(z),
        None => Err(ExprFault::Overflow),
    }
}

fn difference(a: i64, b: i64) -> Result<i64, ExprFault>
    ensures { result ≡ checked (a -ℤ b) }
{
    match a.checked_sub(b) {
        Some(z) => Ok(z),
        None => Err(ExprFault::Overflow),
    }
}

fn product(a: i64, b: i64) -> Result<i64, ExprFault>
    ensures { result ≡ checked (a *ℤ b) }
{
    match a.checked_mul(b) {
        Some(z) => Ok(z),
        None => Err(ExprFault::Overflow),
    }
}

/// Returns the quotient, rounded toward minus infinity.
fn quotient(a: i64, b: i64) -> Result<i64, ExprFault>
    ensures { result ≡ divided a b }
{
    if b == 0 {
        return Err(ExprFault::DivideByZero);
    }
    let Some(q) = a.checked_div_euclid(b) else {
        return Err(ExprFault::Overflow);
    };
    if b < 0 && a.rem_euclid(b) != 0 {
        return difference(q, 1);
    }
    Ok(q)
}

/// Returns the remainder, with the sign of the divisor.
fn remainder(a: i64, b: i64) -> Result<i64, ExprFault>
    ensures { result ≡ remainder a b }
{
    if b == 0 {
        return Err(ExprFault::DivideByZero);
    }
    let Some(r) = a.checked_rem_euclid(b) else {
        return Ok(0);
    };
    if b < 0 && r != 0 {
        return Ok(r + b);
    }
    Ok(r)
}

/// Returns an exponent below 66. With it a power is the same, or is outside 64 bits too.
fn least_exponent(e: u64) -> u32
    ensures { (z : ℤ) → checked (int_pow z result) ≡ checked (int_pow z e) }
{
    if e < 64 {
        return e as u32;
    }
    64 + (e % 2) as u32
}

/// Returns the power with an exponent that isn't negative.
fn raised(z: i64, e: u64) -> Result<i64, ExprFault>
    ensures { result ≡ checked (int_pow z e) }
{
    match z.checked_pow(least_exponent(e)) {
        Some(power) => Ok(power),
        None => Err(ExprFault::Overflow),
    }
}

/// Returns 1 divided by the power with an exponent, rounded toward zero.
fn reciprocal(z: i64, e: u64) -> Result<i64, ExprFault>
    ensures { result ≡ reciprocal z e }
{
    if z == 0 {
        return Err(ExprFault::ZeroToNegative);
    }
    if z.unsigned_abs() == 1 {
        return raised(z, e);
    }
    Ok(0)
}

fn power(z: i64, e: i64) -> Result<i64, ExprFault>
    ensures { result ≡ power z e }
{
    if e < 0 {
        return reciprocal(z, e.unsigned_abs());
    }
    raised(z, e.unsigned_abs())
}

fn narrowed(z: i128) -> Result<i64, ExprFault>
    ensures { result ≡ checked z }
{
    match i64::try_from(z) {
        Ok(z) => Ok(z),
        Err(_) => Err(ExprFault::Overflow),
    }
}

/// Returns a number times two to the power n.
fn scaled(z: i64, n: u64) -> Result<i64, ExprFault>
    ensures { result ≡ checked (z *ℤ pos (2 ^ n)) }
{
    narrowed(i128::from(z) * 2_i128.pow(n.min(64) as u32))
}

fn shifted_left(z: i64, n: i64) -> Result<i64, ExprFault>
    ensures { result ≡ shifted_left z n }
{
    if n < 0 {
        return Err(ExprFault::NegativeShift);
    }
    scaled(z, n.unsigned_abs())
}

/// Returns the quotient by two to the power n, rounded toward minus infinity.
fn halved(z: i64, n: u64) -> i64
    ensures { result ≡ floor_div z (pos (2 ^ n)) }
{
    z >> n.min(63)
}

fn shifted_right(z: i64, n: i64) -> Result<i64, ExprFault>
    ensures { result ≡ shifted_right z n }
{
    if n < 0 {
        return Err(ExprFault::NegativeShift);
    }
    Ok(halved(z, n.unsigned_abs()))
}

/// Applies an operator to two numbers.
#[tactic(auto, unfolding(crate::specs::Value::arithmetic))]
pub(crate) fn arithmetic(op: Arithmetic, a: i64, b: i64) -> Result<i64, ExprFault>
    ensures { result ≡ arithmetic op a b }
{
    match op {
        Arithmetic::Power => power(a, b),
        Arithmetic::Multiply => product(a, b),
        Arithmetic::Divide => quotient(a, b),
        Arithmetic::Remainder => remainder(a, b),
        Arithmetic::Add => sum(a, b),
        Arithmetic::Subtract => difference(a, b),
        Arithmetic::ShiftLeft => shifted_left(a, b),
        Arithmetic::ShiftRight => shifted_right(a, b),
        Arithmetic::BitAnd => Ok(a & b),
        Arithmetic::BitXor => Ok(a ^ b),
        Arithmetic::BitOr => Ok(a | b),
    }
}

fn negative(z: i64) -> Result<i64, ExprFault>
    ensures { result ≡ checked (neg_ℤ z) }
{
    match z.checked_neg() {
        Some(z) => Ok(z),
        None => Err(ExprFault::Overflow),
    }
}

/// Returns 1 for true and 0 for false.
pub(crate) fn bit(truth: bool) -> i64
    ensures { result ≡ bit truth }
{
    if truth { 1 } else { 0 }
}

/// Applies a prefix operator to a number.
pub(crate) fn negated(op: Prefix, z: i64) -> Result<i64, ExprFault>
    ensures { result ≡ negated op z }
{
    match op {
        Prefix::Minus => negative(z),
        Prefix::Plus => Ok(z),
        Prefix::Complement => Ok(!z),
        Prefix::Not => Ok(bit(z == 0)),
    }
}

/// Returns whether a comparison holds for two operands in this order.
pub(crate) fn holds(op: Comparison, order: Ordering) -> bool
    ensures { result ≡ holds op order }
{
    match op {
        Comparison::Less => order.is_lt(),
        Comparison::Greater => order.is_gt(),
        Comparison::AtMost => order.is_le(),
        Comparison::AtLeast => order.is_ge(),
        Comparison::Equal => order.is_eq(),
        Comparison::Unequal => order.is_ne(),
    }
}
