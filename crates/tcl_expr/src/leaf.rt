//! Reads the leaves of an expression: numbers, words and operands.

ghost use Rattle.std.specs.Prelude.{◌≡◌, ◌≤◌, ◌+◌, ◌<◌, ◌^◌, ◌∷◌, IfOk, IsTrue, length, take, drop};
ghost use Rattle.tcl_expr.specs.Leaf.{based_len, begins_hex, begins_octal, hex_literal, octal_literal, decimal_literal, literal, digits_len, letters_len, number_leaf, word_leaf, operand_leaf, leaf, is_lowest, is_lowest_magnitude};
ghost use Rattle.tcl_expr.specs.Number.{numeral as numeral_of};
ghost use Rattle.tcl_expr.specs.Truth.{word_of};
ghost use Rattle.tcl_words.specs.Operands.{operand as operand_read};
ghost use Rattle.tcl_expr.specs.Reads.{Writes};

use crate::bareword::Bareword;
use crate::code::{Code, Op};
use crate::faults::ExprFault;
use crate::infix::is_letter;
use crate::number::{based, is_digit, numeral};
use crate::white::{after, before, gap};
use std::alloc::Global;
use tcl_words::{WordFault, digit, operand};

/// Returns the number of leading digits.
#[tactic(auto, unfolding(crate::specs::Leaf::digits_len))]
pub(crate) fn digits_len(text: &[u8]) -> usize
    ensures value { result ≡ digits_len text.now }
    ensures within { result ≤ length text.now }
{
    text.iter().take_while(|b| is_digit(**b)).count()
}

/// Returns the number of leading digits of a base.
#[tactic(auto, unfolding(crate::specs::Leaf::based_len))]
fn based_len(base: u8, text: &[u8]) -> usize
    ensures value { result ≡ based_len base text.now }
    ensures within { result ≤ length text.now }
{
    text.iter()
        .take_while(|b| digit(base, **b).is_some())
        .count()
}

/// Returns whether a number is hexadecimal.
fn begins_hex(text: &[u8]) -> bool
    ensures value { result ≡ begins_hex text.now }
    ensures some { IsTrue result → 2 ≤ length text.now }
{
    match text {
        [b, x, ..] => *b == b'0' && (*x == b'x' || *x == b'X'),
        _ => false,
    }
}

/// Returns whether a number is octal.
fn begins_octal(text: &[u8]) -> bool
    ensures { result ≡ begins_octal text.now }
{
    match text {
        [b, d, ..] => *b == b'0' && digit(8, *d).is_some(),
        _ => false,
    }
}

/// Reads a hexadecimal number. Returns its length in bytes and its value.
#[tactic(auto, unfolding(crate::specs::Leaf::hex_literal))]
fn hex_literal(text: &[u8]) -> (usize, Option<u64>)
    requires { 2 ≤ length text.now }
    ensures value { result ≡ hex_literal text.now }
    ensures within { result.0 ≤ length text.now }
    ensures fits { IfSome result.1 (λ v. v ≤ 9223372036854775807) }
{
    let digits = after(text, 2);
    let n = based_len(16, digits);
    (2 + n, based(16, before(digits, n)))
}

/// Reads an octal number. Returns its length in bytes and its value.
#[tactic(auto, unfolding(crate::specs::Leaf::octal_literal))]
fn octal_literal(text: &[u8]) -> (usize, Option<u64>)
    ensures value { result ≡ octal_literal text.now }
    ensures within { result.0 ≤ length text.now }
    ensures fits { IfSome result.1 (λ v. v ≤ 9223372036854775807) }
{
    let n = based_len(8, text);
    (n, based(8, before(text, n)))
}

/// Reads a decimal number. Returns its length in bytes and its value.
#[tactic(auto, unfolding(crate::specs::Leaf::decimal_literal))]
fn decimal_literal(text: &[u8]) -> (usize, Option<u64>)
    ensures value { result ≡ decimal_literal text.now }
    ensures within { result.0 ≤ length text.now }
    ensures fits { IfSome result.1 (λ v. v ≤ 9223372036854775807) }
{
    let n = digits_len(text);
    (n, numeral(9_223_372_036_854_775_807, before(text, n)))
}

/// Reads a number: decimal, octal after a zero, or hexadecimal after `0x`. Returns its length in bytes and its value,
/// which is `None` if there is none, or it exceeds 63 bits.
fn literal(text: &[u8]) -> (usize, Option<u64>)
    ensures value { result ≡ literal text.now }
    ensures within { result.0 ≤ length text.now }
    ensures fits { IfSome result.1 (λ v. v ≤ 9223372036854775807) }
{
    if begins_hex(text) {
        return hex_literal(text);
    }
    if begins_octal(text) {
        return octal_literal(text);
    }
    decimal_literal(text)
}

/// Returns the number of leading letters.
#[tactic(auto, unfolding(crate::specs::Leaf::letters_len))]
fn letters_len(text: &[u8]) -> usize
    ensures value { result ≡ letters_len text.now }
    ensures within { result ≤ length text.now }
{
    text.iter().take_while(|b| is_letter(**b)).count()
}

fn is_lowest_magnitude(magnitude: Option<u64>) -> bool
    ensures { result ≡ is_lowest_magnitude magnitude }
{
    match magnitude {
        None => false,
        Some(n) => n == 9_223_372_036_854_775_808,
    }
}

/// Returns whether the bytes begin with `-9223372036854775808`, the one number whose `-` is part of
/// it.
#[tactic(auto, unfolding(crate::specs::Leaf::is_lowest))]
pub(crate) fn is_lowest(b: u8, rest: &[u8]) -> bool
    ensures { result ≡ is_lowest b rest.now }
{
    if b != b'-' {
        return false;
    }
    is_lowest_magnitude(numeral(9_223_372_036_854_775_808, before(rest, digits_len(rest))))
}

/// Reads a number of n bytes.
fn number_leaf(
    code: &mut Code,
    text: &[u8],
    n: usize,
    value: Option<u64>,
) -> Result<usize, ExprFault>
    requires within { n ≤ length text.now }
    requires fits { IfSome value (λ v. v ≤ 9223372036854775807) }
    ensures value { Writes result (number_leaf text.now n value) code.old code.new }
    ensures within { IfOk result (λ m. m ≤ length text.now) }
{
    match value {
        None => Err(ExprFault::Syntax),
        Some(v) => {
            code.push(Op::Number(v as i64))?;
            Ok(gap(text, n))
        }
    }
}

ghost use Rattle.std.specs.Prelude.{IfSome};

/// Reads a word of n bytes.
fn word_leaf(
    code: &mut Code,
    text: &[u8],
    n: usize,
    word: Option<Bareword>,
) -> Result<usize, ExprFault>
    requires within { n ≤ length text.now }
    ensures value { Writes result (word_leaf text.now n word) code.old code.new }
    ensures within { IfOk result (λ m. m ≤ length text.now) }
{
    match word {
        None => Err(ExprFault::Syntax),
        Some(w) => {
            code.push(Op::Word(w))?;
            Ok(gap(text, n))
        }
    }
}

/// Returns the error of an expression with a malformed word.
fn malformed(fault: WordFault) -> ExprFault
    ensures { IsMalformed fault result }
{
    match fault {
        WordFault::Memory => ExprFault::Memory,
        _ => ExprFault::Syntax,
    }
}

ghost use Rattle.tcl_expr.specs.Leaves.{IsMalformed};

/// Reads an operand: `$..`, `[..]`, `".."` or `{..}`.
fn operand_leaf(alloc: Global, code: &mut Code, text: &[u8]) -> Result<usize, ExprFault>
    ensures value { Writes result (operand_leaf text.now (operand_read text.now)) code.old code.new }
    ensures within { IfOk result (λ m. m ≤ length text.now) }
{
    match operand(alloc, text) {
        Err(fault) => Err(malformed(fault)),
        Ok(None) => Err(ExprFault::Syntax),
        Ok(Some((word, n))) => {
            code.push(Op::Operand(word))?;
            Ok(gap(text, n))
        }
    }
}

/// Reads a number, a word or an operand.
#[tactic(auto, unfolding(crate::specs::Leaf::leaf))]
pub(crate) fn leaf(alloc: Global, code: &mut Code, text: &[u8]) -> Result<usize, ExprFault>
    ensures value { Writes result (leaf text.now) code.old code.new }
    ensures within { IfOk result (λ m. m ≤ length text.now) }
{
    match text {
        [] => Err(ExprFault::Syntax),
        [b, ..] => {
            if is_digit(*b) {
                let (n, value) = literal(text);
                return number_leaf(code, text, n, value);
            }
            if is_letter(*b) {
                let n = letters_len(text);
                return word_leaf(code, text, n, Bareword::read(before(text, n)));
            }
            operand_leaf(alloc, code, text)
        }
    }
}
