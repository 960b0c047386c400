//! Finds the scripts in brackets of a text, and in the operands of an expression.

ghost use Rattle.std.specs.Prelude.{◌≡◌, ◌++◌, IfOk, OnOk};
ghost use Rattle.script_check.specs.Brackets.{bracket_at, brackets, operand_at, operands};

use crate::placed::taken;
use crate::span::{Done, Span, Spans, Taken};
use crate::stretch::{before, begins_with, behind, place};
use std::alloc::{AllocError, Global};

/// Appends the script of a bracket at the front of a text. Returns the number of bytes after the
/// first one that belong to the token.
fn bracket_at(alloc: Global, end: usize, b: u8, text: &[u8], out: &mut Spans) -> Taken
    ensures { IfOk result (λ n. (out.new.items ≡ out.old.items ++ (bracket_at end b text.now).0) × (n ≡ (bracket_at end b text.now).1)) }
{
    if b == b'[' {
        let n = taken(alloc, text)?;
        let script = behind(text, 1);
        out.push(Span {
            from: place(end, script),
            to: place(end, behind(script, n.saturating_sub(2))),
        })?;
        return Ok(n.saturating_sub(1));
    }
    if b == b'\\' {
        return Ok(1);
    }
    if b == b'$' && begins_with(b'{', behind(text, 1)) {
        return Ok(taken(alloc, text)?.saturating_sub(1));
    }
    Ok(0)
}

/// Appends the scripts in brackets of a text that ends at position `end` of the source.
pub(crate) fn brackets(alloc: Global, end: usize, text: &[u8], out: &mut Spans) -> Done
    ensures { OnOk result (out.new.items ≡ out.old.items ++ brackets end text.now) }
{
    let mut rest = text;
    while let [b, ..] = rest {
        let n = bracket_at(alloc, end, *b, rest, out)?;
        rest = behind(behind(rest, 1), n);
    }
    Ok(())
}

/// Appends the scripts of the operand at the front of an expression's text. Returns the number of
/// bytes after the first one that belong to it.
fn operand_at(alloc: Global, end: usize, b: u8, text: &[u8], out: &mut Spans) -> Taken
    ensures { IfOk result (λ n. (out.new.items ≡ out.old.items ++ (operand_at end b text.now).0) × (n ≡ (operand_at end b text.now).1)) }
{
    if b == b'{' {
        return Ok(taken(alloc, text)?.saturating_sub(1));
    }
    if b == b'"' || b == b'$' || b == b'[' {
        let n = taken(alloc, text)?;
        brackets(alloc, place(end, behind(text, n)), before(text, n), out)?;
        return Ok(n.saturating_sub(1));
    }
    Ok(0)
}

/// Appends the scripts in the operands of an expression's text that ends at position `end` of the
/// source.
pub(crate) fn operands(alloc: Global, end: usize, text: &[u8], out: &mut Spans) -> Done
    ensures { OnOk result (out.new.items ≡ out.old.items ++ operands end text.now) }
{
    let mut rest = text;
    while let [b, ..] = rest {
        let n = operand_at(alloc, end, *b, rest, out)?;
        rest = behind(behind(rest, 1), n);
    }
    Ok(())
}
