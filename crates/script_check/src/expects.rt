//! Checks the arguments of `expect`, `expect_before` and `expect_after`.

ghost use Rattle.std.specs.Prelude.{◌≡◌, ◌++◌, [], ◌∷◌, IfOk, OnOk, option_map, slice_index_or};
ghost use Rattle.exp_match.specs.Arguments.{Gives, patterns_of};
ghost use Rattle.script_check.specs.Expects.{plain_texts, by_patterns, expect_fault, is_braced, is_listing, names_patterns, list_of, gathered, spread_by};

use crate::faults::Judged;
use crate::placed::{Placed, Words};
use crate::problem::{Finding, Problem};
use crate::readings::{Reading, readings_in};
use crate::span::{Done, Span};
use crate::stretch::{begins_with, inside, part};
use command_table::takes_patterns;
use exp_match::{PatternFault, PatternList};
use std::alloc::{AllocError, Global};
use tcl_values::Value;
use tcl_words::{Text, is_white};

/// Returns the words, if all are literal.
fn plain_texts(alloc: Global, words: &[Placed]) -> Result<Option<Vec<Value>>, AllocError>
    ensures { IfOk result (λ t. option_map (λ v. v.items) t ≡ plain_texts words.now) }
{
    let mut texts = Vec::new(alloc);
    let mut rest = words;
    while let [word, more @ ..] = rest {
        let Some(text) = &word.value else {
            return Ok(None);
        };
        push_text(&mut texts, alloc, text)?;
        rest = more;
    }
    Ok(Some(texts))
}

/// Appends a text as a value.
fn push_text(texts: &mut Vec<Value>, alloc: Global, text: &Text) -> Done
    ensures { OnOk result (texts.new.items ≡ texts.old.items ++ text.now ∷ []) }
{
    texts.push(Value::from_slice(alloc, text.as_slice())?)?;
    Ok(())
}

/// Returns the text at an index, or an empty text.
fn text_at(alloc: Global, texts: &[Value], at: usize) -> Result<Text, AllocError>
    ensures { IfOk result (λ t. t ≡ slice_index_or texts.now at []) }
{
    match texts.get(at) {
        None => Ok(Text::new(alloc)),
        Some(text) => Text::from_slice(alloc, text.as_slice()),
    }
}

/// Checks arguments that are all literal.
fn patterns_fault(alloc: Global, texts: &[Value]) -> Judged
    ensures { IfOk result (λ p. p ≡ by_patterns texts.now (patterns_of texts.now)) }
{
    match PatternList::build(alloc, texts) {
        Ok(_) => Ok(None),
        Err(PatternFault::BadFlag(at)) => {
            Ok(Some(Problem::BadExpectFlag(text_at(alloc, texts, at)?)))
        }
        Err(PatternFault::BadRegex(at)) => {
            Ok(Some(Problem::BadRegular(text_at(alloc, texts, at)?)))
        }
        Err(PatternFault::Refused) => Err(AllocError),
        Err(PatternFault::Memory) => Err(AllocError),
    }
}

/// Checks the arguments of an `expect`, if all are literal.
pub(crate) fn expect_fault(alloc: Global, args: &[Placed]) -> Judged
    ensures { IfOk result (λ p. p ≡ expect_fault args.now) }
{
    match plain_texts(alloc, args)? {
        None => Ok(None),
        Some(texts) => patterns_fault(alloc, texts.as_slice()),
    }
}

/// Returns whether a word is literal, with a newline before its first byte that isn't white space.
fn is_listing(word: &Placed) -> bool
    ensures { result ≡ is_listing word.now.value }
{
    let Some(text) = &word.value else {
        return false;
    };
    let mut rest = text.as_slice();
    while let [b, more @ ..] = rest {
        if *b == b'\n' {
            return true;
        }
        if !is_white(*b) {
            return false;
        }
        rest = more;
    }
    false
}

/// Returns whether a word is in braces.
pub(crate) fn is_braced(source: &[u8], word: &Placed) -> bool
    ensures { result ≡ is_braced source.now word.now }
{
    !word.expand && begins_with(b'{', part(source, word.span))
}

/// Returns whether a word names a command whose arguments are patterns with actions.
fn names_patterns(word: &Placed) -> bool
    ensures { result ≡ names_patterns word.now.value }
{
    match &word.value {
        Some(name) => takes_patterns(name.as_slice()),
        None => false,
    }
}

/// Returns the range of the list of all arguments, if the command takes patterns and has such an
/// argument. Only an argument in braces stands in the source as it is.
fn list_of(source: &[u8], words: &[Placed]) -> Option<Span>
    ensures { result ≡ list_of source.now words.now }
{
    let [name, word] = words else {
        return None;
    };
    if !names_patterns(name) || !is_listing(word) {
        return None;
    }
    if is_braced(source, word) {
        return Some(inside(word.span));
    }
    Some(Span { from: 0, to: 0 })
}

/// Appends words.
fn push_words(words: Words, out: &mut Vec<Placed>) -> Done
    ensures { OnOk result (out.new.items ≡ out.old.items ++ words) }
{
    for word in words.list {
        out.push(word)?;
    }
    Ok(())
}

/// Appends the words of all commands, up to a malformed one, which is returned as a finding.
fn gather(readings: Vec<Reading>, out: &mut Vec<Placed>) -> Result<Option<Finding>, AllocError>
    ensures { IfOk result (λ f. (out.new.items ≡ out.old.items ++ (gathered readings.items).0) × (f ≡ (gathered readings.items).1)) }
{
    for reading in readings {
        match reading {
            Reading::Malformed(at, fault) => {
                return Ok(Some(Finding {
                    at,
                    what: Problem::Malformed(fault),
                }));
            }
            Reading::Command(_, words) => push_words(words, out)?,
        }
    }
    Ok(None)
}

/// Returns the words of a command. If all arguments of an `expect` are given as one list, these are
/// the words of the list. An error that ends the list is returned as a finding.
pub(crate) fn spread(
    alloc: Global,
    source: &[u8],
    words: Words,
) -> Result<(Words, Option<Finding>), AllocError>
    ensures { IfOk result (λ r. r ≡ spread_by source.now words (list_of source.now words)) }
{
    let Some(span) = list_of(source, words.as_slice()) else {
        return Ok((words, None));
    };
    let mut list = words.list;
    list.truncate(1);
    let found = gather(readings_in(alloc, source, span)?, &mut list)?;
    Ok((Words { list }, found))
}
