//! Finds the scripts in the words of a command.

ghost use Rattle.std.specs.Prelude.{◌≡◌, ◌++◌, IfOk, OnOk};
ghost use Rattle.script_check.specs.Stretches.{inside};
ghost use Rattle.script_check.specs.Nested.{formula_scripts, is_enclosed, script_at, word_scripts, nested, any_expanded, stage_for, scripts_of};

use crate::brackets::{brackets, operands};
use crate::expects::is_braced;
use crate::placed::{Placed, mark};
use crate::span::{Done, Span, Spans};
use crate::stretch::{begins_with, behind, inside, part};
use command_table::{Kind, Stage, begin, command_of, is, row_of, step, texts};
use std::alloc::{AllocError, Global};
use tcl_expr::{ExprFault, parse};

/// Returns the range of the script that a word is, if the source contains it literally.
fn script_at(source: &[u8], word: &Placed) -> Option<Span>
    ensures { result ≡ script_at source.now word.now }
{
    let span = word.span;
    if is_braced(source, word) {
        return Some(inside(span));
    }
    let Some(text) = &word.value else {
        return None;
    };
    if is(part(source, span), text.as_slice()) {
        return Some(span);
    }
    if begins_with(b'"', part(source, span)) && is(part(source, inside(span)), text.as_slice()) {
        return Some(inside(span));
    }
    None
}

/// Appends the script that a word is, or those in its brackets.
fn push_script(alloc: Global, source: &[u8], word: &Placed, out: &mut Spans) -> Done
    ensures { OnOk result (out.new.items ≡ out.old.items ++ word_scripts source.now word.now Kind.Script) }
{
    match script_at(source, word) {
        None => brackets(alloc, word.span.to, part(source, word.span), out),
        Some(span) => {
            out.push(span)?;
            Ok(())
        }
    }
}

/// Appends the scripts in brackets of an expression in braces. Appends none if it doesn't parse.
fn push_formula(alloc: Global, source: &[u8], word: &Placed, out: &mut Spans) -> Done
    ensures { OnOk result (out.new.items ≡ out.old.items ++ formula_scripts source.now (inside word.now.span) word.now.value) }
{
    let Some(text) = &word.value else {
        return Ok(());
    };
    let span = inside(word.span);
    match parse(alloc, text.as_slice()) {
        Ok(_) => operands(alloc, span.to, part(source, span), out),
        Err(ExprFault::Memory) => Err(AllocError),
        Err(_) => Ok(()),
    }
}

/// Returns whether a word is in braces, with or without `{*}` before them, so that nothing in it is
/// substituted.
fn is_enclosed(source: &[u8], word: &Placed) -> bool
    ensures { result ≡ is_enclosed source.now word.now }
{
    begins_with(b'{', behind(part(source, word.span), mark(word.expand)))
}

/// Appends the scripts in a word, by the kind of the word.
fn word_scripts(alloc: Global, source: &[u8], word: &Placed, kind: Kind, out: &mut Spans) -> Done
    ensures { OnOk result (out.new.items ≡ out.old.items ++ word_scripts source.now word.now kind) }
{
    match kind {
        Kind::Script => push_script(alloc, source, word, out),
        Kind::Expression if is_braced(source, word) => push_formula(alloc, source, word, out),
        Kind::Text | Kind::Name if is_enclosed(source, word) => Ok(()),
        _ => brackets(alloc, word.span.to, part(source, word.span), out),
    }
}

/// Appends the scripts in arguments.
fn nested(alloc: Global, source: &[u8], stage: Stage, args: &[Placed], out: &mut Spans) -> Done
    ensures { OnOk result (out.new.items ≡ out.old.items ++ nested source.now stage args.now) }
{
    let mut stage = stage;
    let mut rest = args;
    while let [word, more @ ..] = rest {
        let (kind, next) = step(stage, &word.value);
        word_scripts(alloc, source, word, kind, out)?;
        stage = next;
        rest = more;
    }
    Ok(())
}

/// Returns whether one of the words stands after `{*}`, so that the number of words is unknown.
pub(crate) fn any_expanded(words: &[Placed]) -> bool
    ensures { result ≡ any_expanded words.now }
{
    words.iter().any(|word| word.expand)
}

/// Returns the stage of the first argument of a command.
pub(crate) fn stage_for(name: &Placed, args: &[Placed]) -> Stage
    ensures { result ≡ stage_for name.now.value args.now }
{
    let Some(text) = &name.value else {
        return texts();
    };
    match command_of(text.as_slice()) {
        Some(command) if !any_expanded(args) => begin(row_of(command).words, args.len()),
        _ => texts(),
    }
}

/// Returns the scripts in the words of a command, in order.
pub(crate) fn scripts_of(
    alloc: Global,
    source: &[u8],
    words: &[Placed],
) -> Result<Spans, AllocError>
    ensures { IfOk result (λ v. v.items ≡ scripts_of source.now words.now) }
{
    let mut list = Vec::new(alloc);
    if let [name, args @ ..] = words {
        word_scripts(alloc, source, name, Kind::Text, &mut list)?;
        nested(alloc, source, stage_for(name, args), args, &mut list)?;
    }
    Ok(list)
}
