//! The text that `regex` gets for a regular pattern.

ghost use Rattle.std.specs.Prelude.{◌≡◌, ◌++◌, IfOk, OnOk, chars, encode_utf8_all};
ghost use Rattle.std.specs.String.{string_bytes};
ghost use Rattle.exp_match.specs.Translation.{in_class as in_class_of, outside as outside_of, in_count as in_count_of, at_first as at_first_of, at_opening as at_opening_of, at_member as at_member_of, in_name as in_name_of, goes_on as goes_on_of, is_operator as operator, needs_backslash as needs_backslash_of, escape_text, text_of, translated as translated_of};

use crate::count::is_digit;
use crate::grammar::characters;
use crate::places::char_at;
use std::alloc::{AllocError, Global};

/// Where a character of a regular pattern stands.
#[derive(Clone, Copy)]
pub enum Context {
    /// Outside classes and counts.
    Outside,
    /// After a backslash outside classes.
    Escape,
    /// In a count, after its `{`.
    Count,
    /// Directly after the `[` of a class.
    Opening,
    /// After `[^`.
    First,
    /// In a class, after its first member.
    Class,
    /// After a backslash in a class.
    ClassEscape,
    /// In the name of a class, after its `[`.
    Name,
}

/// Returns where a pattern goes on after a character of a class.
fn in_class(c: char, next: char) -> Context
    ensures { result ≡ in_class_of c next }
{
    if c == '\\' {
        Context::ClassEscape
    } else if c == '[' && next == ':' {
        Context::Name
    } else {
        Context::Class
    }
}

/// Returns where a pattern goes on after a character outside classes and counts.
fn outside(c: char, next: char) -> Context
    ensures { result ≡ outside_of c next }
{
    if c == '\\' {
        Context::Escape
    } else if c == '[' {
        Context::Opening
    } else if c == '{' && is_digit(next) {
        Context::Count
    } else {
        Context::Outside
    }
}

/// Returns where a pattern goes on after a character of a count.
fn in_count(c: char) -> Context
    ensures { result ≡ in_count_of c }
{
    match c {
        '}' => Context::Outside,
        _ => Context::Count,
    }
}

/// Returns where a pattern goes on after a character that may be the first of a class.
fn at_first(c: char, next: char) -> Context
    ensures { result ≡ at_first_of c next }
{
    if c == ']' {
        Context::Class
    } else {
        in_class(c, next)
    }
}

/// Returns where a pattern goes on after a character directly after the `[` of a class.
fn at_opening(c: char, next: char) -> Context
    ensures { result ≡ at_opening_of c next }
{
    match c {
        '^' => Context::First,
        _ => at_first(c, next),
    }
}

/// Returns where a pattern goes on after a character after the first member of a class.
fn at_member(c: char, next: char) -> Context
    ensures { result ≡ at_member_of c next }
{
    match c {
        ']' => Context::Outside,
        _ => in_class(c, next),
    }
}

/// Returns where a pattern goes on after a character of the name of a class.
fn in_name(c: char) -> Context
    ensures { result ≡ in_name_of c }
{
    match c {
        ']' => Context::Class,
        _ => Context::Name,
    }
}

/// Returns where a pattern goes on after a character that stands in this context.
fn goes_on(context: Context, c: char, next: char) -> Context
    ensures { result ≡ goes_on_of context c next }
{
    match context {
        Context::Outside => outside(c, next),
        Context::Escape => Context::Outside,
        Context::Count => in_count(c),
        Context::Opening => at_opening(c, next),
        Context::First => at_first(c, next),
        Context::Class => at_member(c, next),
        Context::ClassEscape => Context::Class,
        Context::Name => in_name(c),
    }
}

/// Returns whether `regex` would not read a member of a class as a character.
fn is_operator(c: char, next: char) -> bool
    ensures { result ≡ operator c next }
{
    c == '&' || c == '~' || (c == '[' && next != ':')
}

/// Returns whether a character gets a backslash before it.
fn needs_backslash(context: Context, c: char, next: char) -> bool
    ensures { result ≡ needs_backslash_of context c next }
{
    match context {
        Context::Outside => c == '}' || c == ']' || (c == '{' && !is_digit(next)),
        Context::Opening => c == ']' || is_operator(c, next),
        Context::First => c == ']' || c == '^' || is_operator(c, next),
        Context::Class => c == '^' || is_operator(c, next),
        Context::Escape | Context::Count | Context::ClassEscape | Context::Name => false,
    }
}

/// Appends the text of a character after a backslash.
fn push_escape(text: &mut String, c: char) -> Result<(), AllocError>
    ensures { OnOk result (string_bytes text.new ≡ string_bytes text.old ++ encode_utf8_all (escape_text c)) }
{
    match c {
        'e' => text.push_str("x1B"),
        '<' => text.push_str("x3C"),
        '>' => text.push_str("x3E"),
        _ => text.push(c),
    }
}

/// Appends the text of a character, given the next one.
fn push_text(text: &mut String, context: Context, c: char, next: char) -> Result<(), AllocError>
    ensures { OnOk result (string_bytes text.new ≡ string_bytes text.old ++ encode_utf8_all (text_of context c next)) }
{
    match context {
        Context::Escape | Context::ClassEscape => return push_escape(text, c),
        _ => {}
    }
    if needs_backslash(context, c, next) {
        text.push('\\')?;
    }
    text.push(c)
}

/// Returns the text that `regex` gets for a regular pattern.
pub(crate) fn translated(alloc: Global, source: &str) -> Result<String, AllocError>
    ensures { IfOk result (λ text. chars (string_bytes text) ≡ translated_of (chars source.now)) }
{
    let chars = characters(alloc, source)?;
    let chars = chars.as_slice();
    let mut text = String::new(alloc);
    let mut context = Context::Outside;
    let mut at = 0;
    while at < chars.len() {
        let c = char_at(chars, at);
        let next = char_at(chars, at + 1);
        push_text(&mut text, context, c, next)?;
        context = goes_on(context, c, next);
        at += 1;
    }
    Ok(text)
}
