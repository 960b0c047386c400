//! Reads the levels of an expression. Each function appends the instructions of what it reads to
//! `code`. It returns the number of bytes read, with the white space after them.
//!
//! `depth` is how many more parentheses, prefix operators and branches of `?:` may nest. A chain of
//! operators is a loop, so only nesting makes the call stack grow.

ghost use Rattle.std.specs.Prelude.{◌≡◌, ◌≤◌, ◌∷◌, IfOk, length};
ghost use Rattle.tcl_expr.specs.Grammar.{inside_of, term, in_parens, prefixed, level, whole};
ghost use Rattle.tcl_expr.specs.White.{gap};
ghost use Rattle.tcl_expr.specs.Reads.{Writes};

use crate::code::{Code, Op};
use crate::faults::ExprFault;
use crate::infix::{infix_of, prefix_at};
use crate::leaf::{digits_len, is_lowest, leaf};
use crate::operators::{Arithmetic, Eager, Infix, Lazy, Prefix};
use crate::white::{after, begins_with, gap};
use std::alloc::{AllocError, Global};

/// The greatest nesting of parentheses, prefix operators and branches.
pub(crate) const DEEPEST: u8 = 200;

/// The loosest level of infix operators.
const LOOSEST: u8 = 13;

/// Reads an expression one level deeper.
#[cycle(expression)]
#[tactic(auto, unfolding(crate::specs::Grammar::inside_of))]
fn inner(alloc: Global, code: &mut Code, text: &[u8], depth: u8) -> Result<usize, ExprFault>
    ensures value { Writes result ((inside_of depth).whole text.now) code.old code.new }
    ensures within { IfOk result (λ n. n ≤ length text.now) }
{
    if depth == 0 {
        return Err(ExprFault::TooDeep);
    }
    whole(alloc, code, text, depth - 1)
}

/// Reads the operand of a prefix operator.
#[cycle(expression)]
#[tactic(auto, unfolding(crate::specs::Grammar::inside_of))]
fn inner_term(alloc: Global, code: &mut Code, text: &[u8], depth: u8) -> Result<usize, ExprFault>
    ensures value { Writes result ((inside_of depth).term text.now) code.old code.new }
    ensures within { IfOk result (λ n. n ≤ length text.now) }
{
    if depth == 0 {
        return Err(ExprFault::TooDeep);
    }
    term(alloc, code, text, depth - 1)
}

/// Reads the expression at index n, and the `)` after it.
#[cycle(expression)]
fn in_parens(
    alloc: Global,
    code: &mut Code,
    text: &[u8],
    n: usize,
    depth: u8,
) -> Result<usize, ExprFault>
    requires { n ≤ length text.now }
    ensures value { Writes result (in_parens text.now n ((inside_of depth).whole (drop n text.now))) code.old code.new }
    ensures within { IfOk result (λ m. m ≤ length text.now) }
{
    let m = n + inner(alloc, code, after(text, n), depth)?;
    if !begins_with(b')', after(text, m)) {
        return Err(ExprFault::Syntax);
    }
    Ok(gap(text, m + 1))
}

ghost use Rattle.std.specs.Prelude.{drop};

/// Reads a prefix operator and its operand.
#[cycle(expression)]
fn prefixed(
    alloc: Global,
    code: &mut Code,
    text: &[u8],
    op: Prefix,
    depth: u8,
) -> Result<usize, ExprFault>
    requires { 1 ≤ length text.now }
    ensures value { Writes result (prefixed (inside_of depth) text.now (Some op)) code.old code.new }
    ensures within { IfOk result (λ n. n ≤ length text.now) }
{
    let n = gap(text, 1);
    let m = inner_term(alloc, code, after(text, n), depth)?;
    code.push(Op::Apply(op))?;
    Ok(n + m)
}

/// Reads level 0: a leaf, an expression in parentheses, or a prefix operator and its operand.
#[cycle(expression)]
#[tactic(auto, unfolding(crate::specs::Grammar::term))]
fn term(alloc: Global, code: &mut Code, text: &[u8], depth: u8) -> Result<usize, ExprFault>
    ensures value { Writes result (term (inside_of depth) text.now) code.old code.new }
    ensures within { IfOk result (λ n. n ≤ length text.now) }
{
    match text {
        [] => Err(ExprFault::Syntax),
        [b, rest @ ..] => {
            if *b == b'(' {
                return in_parens(alloc, code, text, gap(text, 1), depth);
            }
            if is_lowest(*b, rest) {
                code.push(Op::Number(i64::MIN))?;
                return Ok(gap(text, 1 + digits_len(rest)));
            }
            match prefix_at(*b) {
                None => leaf(alloc, code, text),
                Some(op) => prefixed(alloc, code, text, op, depth),
            }
        }
    }
}

/// Reads operands of level 0 with `**` between them. Returns the number of bytes read, and that of
/// the operators, whose instructions aren't appended yet.
#[cycle(expression)]
fn operands(
    alloc: Global,
    code: &mut Code,
    text: &[u8],
    depth: u8,
) -> Result<(usize, usize), ExprFault>
    ensures value { WritesOperands result (level (inside_of depth) 1 text.now) code.old code.new }
    ensures within { IfOk result (λ x. x.0 ≤ length text.now) }
{
    let mut at = term(alloc, code, text, depth)?;
    let mut count = 0;
    while at < text.len() {
        let rest = after(text, at + 1);
        let Some((_, n)) = infix_of(1, text[at], rest) else {
            return Ok((at, count));
        };
        let n = gap(rest, n);
        at += 1 + n + term(alloc, code, after(rest, n), depth)?;
        count += 1;
    }
    Ok((at, count))
}

ghost use Rattle.tcl_expr.specs.Reads.{WritesOperands};

/// Reads level 1: operands with `**` between them, grouped to the right.
#[cycle(expression)]
fn powers(alloc: Global, code: &mut Code, text: &[u8], depth: u8) -> Result<usize, ExprFault>
    ensures value { Writes result (level (inside_of depth) 1 text.now) code.old code.new }
    ensures within { IfOk result (λ n. n ≤ length text.now) }
{
    let (n, count) = operands(alloc, code, text, depth)?;
    code.combine(Eager::Arithmetic(Arithmetic::Power), count)?;
    Ok(n)
}

/// Reads the right operand of an operator, of the next tighter level, and appends the operator's
/// instructions.
#[cycle(expression)]
fn right(
    alloc: Global,
    code: &mut Code,
    op: Infix,
    text: &[u8],
    loosest: u8,
    depth: u8,
) -> Result<usize, ExprFault>
    ensures value { WritesRight result op (level (inside_of depth) loosest text.now) code.old code.new }
    ensures within { IfOk result (λ n. n ≤ length text.now) }
{
    match op {
        Infix::Eager(op) => {
            let n = level(alloc, code, text, loosest, depth)?;
            code.push(Op::Combine(op))?;
            Ok(n)
        }
        Infix::Lazy(op) => {
            let at = code.len();
            code.push(Op::Test(op, 0))?;
            let n = level(alloc, code, text, loosest, depth)?;
            code.push(Op::Truth(op))?;
            code.patch(at, Op::Test(op, code.len() - at - 1));
            Ok(n)
        }
    }
}

ghost use Rattle.tcl_expr.specs.Reads.{WritesRight};

/// Reads a chain of operands with operators of a level between them, or a phrase of a tighter
/// level.
#[cycle(expression)]
fn level(
    alloc: Global,
    code: &mut Code,
    text: &[u8],
    loosest: u8,
    depth: u8,
) -> Result<usize, ExprFault>
    ensures value { Writes result (level (inside_of depth) loosest text.now) code.old code.new }
    ensures within { IfOk result (λ n. n ≤ length text.now) }
{
    if loosest == 0 {
        return term(alloc, code, text, depth);
    }
    if loosest == 1 {
        return powers(alloc, code, text, depth);
    }
    let mut at = level(alloc, code, text, loosest - 1, depth)?;
    while at < text.len() {
        let rest = after(text, at + 1);
        let Some((op, n)) = infix_of(loosest, text[at], rest) else {
            return Ok(at);
        };
        let n = gap(rest, n);
        at += 1 + n + right(alloc, code, op, after(rest, n), loosest - 1, depth)?;
    }
    Ok(at)
}

/// Reads an expression: a chain of the loosest level and, if `?` follows, two branches.
#[cycle(expression)]
pub(crate) fn whole(
    alloc: Global,
    code: &mut Code,
    text: &[u8],
    depth: u8,
) -> Result<usize, ExprFault>
    ensures value { Writes result (whole (inside_of depth) text.now) code.old code.new }
    ensures within { IfOk result (λ n. n ≤ length text.now) }
{
    let n = level(alloc, code, text, LOOSEST, depth)?;
    if !begins_with(b'?', after(text, n)) {
        return Ok(n);
    }
    branches(alloc, code, text, gap(text, n + 1), depth)
}

/// Reads the two branches of `?:`, the first at index n.
#[cycle(expression)]
fn branches(
    alloc: Global,
    code: &mut Code,
    text: &[u8],
    n: usize,
    depth: u8,
) -> Result<usize, ExprFault>
    requires { n ≤ length text.now }
    ensures value { WritesBranches result (inside_of depth) text.now n code.old code.new }
    ensures within { IfOk result (λ m. m ≤ length text.now) }
{
    let test = code.len();
    code.push(Op::Branch(0))?;
    let m = n + inner(alloc, code, after(text, n), depth)?;
    if !begins_with(b':', after(text, m)) {
        return Err(ExprFault::Syntax);
    }
    let m = gap(text, m + 1);
    let leave = code.len();
    code.push(Op::Skip(0))?;
    let k = inner(alloc, code, after(text, m), depth)?;
    code.patch(test, Op::Branch(leave - test));
    code.patch(leave, Op::Skip(code.len() - leave - 1));
    code.push(Op::Join)?;
    Ok(m + k)
}

ghost use Rattle.tcl_expr.specs.Reads.{WritesBranches};
