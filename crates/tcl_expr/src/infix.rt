//! The operators and their precedence.

ghost use Rattle.std.specs.Prelude.{◌≡◌, ◌≤◌, length, IfSome};
ghost use Rattle.tcl_expr.specs.Infix.{is_letter, begins_letter, with_equals, word_operator, doubled, after_less, after_greater, after_n, infix_at, level_of, of_level, prefix_at};

use crate::operators::{Arithmetic, Comparison, Eager, Infix, Lazy, Prefix};
use crate::white::{after, begins_with};

/// Returns whether a byte is an ASCII letter.
pub(crate) fn is_letter(b: u8) -> bool
    ensures { result ≡ is_letter b }
{
    matches!(b, b'a'..=b'z' | b'A'..=b'Z')
}

fn begins_letter(bytes: &[u8]) -> bool
    ensures { result ≡ begins_letter bytes.now }
{
    match bytes {
        [] => false,
        [b, ..] => is_letter(*b),
    }
}

fn arithmetic(op: Arithmetic) -> Infix
    ensures { result ≡ arithmetic op }
{
    Infix::Eager(Eager::Arithmetic(op))
}

ghost use Rattle.tcl_expr.specs.Infix.{arithmetic, comparison};

fn comparison(op: Comparison) -> Infix
    ensures { result ≡ comparison op }
{
    Infix::Eager(Eager::Comparison(op))
}

/// Reads an operator that may be followed by `=`, which makes it another operator.
fn with_equals(alone: Option<Infix>, longer: Comparison, rest: &[u8]) -> Option<(Infix, usize)>
    ensures value { result ≡ with_equals alone longer rest.now }
    ensures within { IfSome result (λ x. x.1 ≤ length rest.now) }
{
    if begins_with(b'=', rest) {
        return Some((comparison(longer), 1));
    }
    match alone {
        None => None,
        Some(op) => Some((op, 0)),
    }
}

/// Reads an operator of one byte that becomes another one if it is doubled.
fn doubled(b: u8, alone: Arithmetic, twice: Infix, rest: &[u8]) -> Option<(Infix, usize)>
    ensures value { result ≡ doubled b alone twice rest.now }
    ensures within { IfSome result (λ x. x.1 ≤ length rest.now) }
{
    if begins_with(b, rest) {
        return Some((twice, 1));
    }
    Some((arithmetic(alone), 0))
}

/// Reads the rest of `<<`, `<=` or `<`.
fn after_less(rest: &[u8]) -> Option<(Infix, usize)>
    ensures value { result ≡ after_less rest.now }
    ensures within { IfSome result (λ x. x.1 ≤ length rest.now) }
{
    if begins_with(b'<', rest) {
        return Some((arithmetic(Arithmetic::ShiftLeft), 1));
    }
    with_equals(Some(comparison(Comparison::Less)), Comparison::AtMost, rest)
}

/// Reads the rest of `>>`, `>=` or `>`.
fn after_greater(rest: &[u8]) -> Option<(Infix, usize)>
    ensures value { result ≡ after_greater rest.now }
    ensures within { IfSome result (λ x. x.1 ≤ length rest.now) }
{
    if begins_with(b'>', rest) {
        return Some((arithmetic(Arithmetic::ShiftRight), 1));
    }
    with_equals(
        Some(comparison(Comparison::Greater)),
        Comparison::AtLeast,
        rest,
    )
}

/// Reads `eq`, `ne`, `in` or `ni`, given their second letter. No letter may follow.
fn word_operator(second: u8, op: Eager, rest: &[u8]) -> Option<(Infix, usize)>
    ensures value { result ≡ word_operator second op rest.now }
    ensures within { IfSome result (λ x. x.1 ≤ length rest.now) }
{
    if !begins_with(second, rest) {
        return None;
    }
    if begins_letter(after(rest, 1)) {
        return None;
    }
    Some((Infix::Eager(op), 1))
}

/// Reads the rest of `ni` or `ne`.
fn after_n(rest: &[u8]) -> Option<(Infix, usize)>
    ensures value { result ≡ after_n rest.now }
    ensures within { IfSome result (λ x. x.1 ≤ length rest.now) }
{
    if begins_with(b'i', rest) {
        return word_operator(b'i', Eager::NotIn, rest);
    }
    word_operator(b'e', Eager::Differs, rest)
}

/// Returns the infix operator that begins with a byte, and the number of later bytes that belong to
/// it.
#[tactic(auto, unfolding(crate::specs::Infix::infix_at))]
fn infix_at(b: u8, rest: &[u8]) -> Option<(Infix, usize)>
    ensures value { result ≡ infix_at b rest.now }
    ensures within { IfSome result (λ x. x.1 ≤ length rest.now) }
{
    match b {
        b'*' => doubled(
            b'*',
            Arithmetic::Multiply,
            arithmetic(Arithmetic::Power),
            rest,
        ),
        b'/' => Some((arithmetic(Arithmetic::Divide), 0)),
        b'%' => Some((arithmetic(Arithmetic::Remainder), 0)),
        b'+' => Some((arithmetic(Arithmetic::Add), 0)),
        b'-' => Some((arithmetic(Arithmetic::Subtract), 0)),
        b'^' => Some((arithmetic(Arithmetic::BitXor), 0)),
        b'<' => after_less(rest),
        b'>' => after_greater(rest),
        b'=' => with_equals(None, Comparison::Equal, rest),
        b'!' => with_equals(None, Comparison::Unequal, rest),
        b'&' => doubled(b'&', Arithmetic::BitAnd, Infix::Lazy(Lazy::And), rest),
        b'|' => doubled(b'|', Arithmetic::BitOr, Infix::Lazy(Lazy::Or), rest),
        b'e' => word_operator(b'q', Eager::Same, rest),
        b'n' => after_n(rest),
        b'i' => word_operator(b'n', Eager::In, rest),
        _ => None,
    }
}

/// Returns the level of an operator. Level 1 binds tightest, level 13 loosest.
fn level_of(op: Infix) -> u8
    ensures value { result ≡ level_of op }
{
    match op {
        Infix::Eager(Eager::Arithmetic(op)) => arithmetic_level(op),
        Infix::Eager(Eager::Comparison(op)) => comparison_level(op),
        Infix::Eager(Eager::Same) => 7,
        Infix::Eager(Eager::Differs) => 7,
        Infix::Eager(Eager::In) => 8,
        Infix::Eager(Eager::NotIn) => 8,
        Infix::Lazy(Lazy::And) => 12,
        Infix::Lazy(Lazy::Or) => 13,
    }
}

ghost use Rattle.tcl_expr.specs.Infix.{arithmetic_level, comparison_level};

fn arithmetic_level(op: Arithmetic) -> u8
    ensures value { result ≡ arithmetic_level op }
{
    match op {
        Arithmetic::Power => 1,
        Arithmetic::Multiply => 2,
        Arithmetic::Divide => 2,
        Arithmetic::Remainder => 2,
        Arithmetic::Add => 3,
        Arithmetic::Subtract => 3,
        Arithmetic::ShiftLeft => 4,
        Arithmetic::ShiftRight => 4,
        Arithmetic::BitAnd => 9,
        Arithmetic::BitXor => 10,
        Arithmetic::BitOr => 11,
    }
}

fn comparison_level(op: Comparison) -> u8
    ensures value { result ≡ comparison_level op }
{
    match op {
        Comparison::Less => 5,
        Comparison::Greater => 5,
        Comparison::AtMost => 5,
        Comparison::AtLeast => 5,
        Comparison::Equal => 6,
        Comparison::Unequal => 6,
    }
}

/// Returns the operator of a level that begins with a byte, and the number of later bytes that
/// belong to it.
pub(crate) fn infix_of(level: u8, b: u8, rest: &[u8]) -> Option<(Infix, usize)>
    ensures value { result ≡ of_level level (infix_at b rest.now) }
    ensures within { IfSome result (λ x. x.1 ≤ length rest.now) }
{
    let (op, n) = infix_at(b, rest)?;
    if level_of(op) == level {
        return Some((op, n));
    }
    None
}

/// Returns the prefix operator that a byte is.
pub(crate) fn prefix_at(b: u8) -> Option<Prefix>
    ensures { result ≡ prefix_at b }
{
    match b {
        b'-' => Some(Prefix::Minus),
        b'+' => Some(Prefix::Plus),
        b'~' => Some(Prefix::Complement),
        b'!' => Some(Prefix::Not),
        _ => None,
    }
}
