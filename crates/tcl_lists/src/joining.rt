//! Joins arguments into one text.

ghost use Rattle.std.specs.Prelude.{◌≡◌, ◌∷◌, IfOk, OnOk};
ghost use Rattle.tcl_lists.specs.Joining.{joined, ends_with_backslash, pruned, full, expr_text, concat, eval_text, with_word};
ghost use Rattle.tcl_results.specs.Said.{limited};
ghost use Rattle.tcl_results.specs.Says.{Says};

use std::alloc::{AllocError, Global};
use tcl_results::{Complaint, limited, trimmed_end, trimmed_front, wrong};
use tcl_values::Value;
use tcl_words::Text;

/// Returns words joined by spaces.
fn joined_words(alloc: Global, first: &[u8], words: &[Value]) -> Result<Text, AllocError>
    ensures { IfOk result (λ t. t ≡ joined (first.now ∷ words.now)) }
{
    let mut text = Text::from_slice(alloc, first)?;
    for word in words {
        text.push(b' ')?;
        text.extend(word.as_slice())?;
    }
    Ok(text)
}

/// Returns the text that `expr word ..` evaluates. A single word is not copied.
pub fn expr_text(alloc: Global, command: &[u8], args: &[Value]) -> Result<Value, Complaint>
    ensures { Says result (expr_text command.now args.now) }
{
    match args {
        [] => Err(wrong(alloc, command)),
        [word] => limited(alloc, word.shared(alloc)?),
        [word, words @ ..] => joined_limited(alloc, word.as_slice(), words),
    }
}

fn joined_limited(alloc: Global, first: &[u8], words: &[Value]) -> Result<Value, Complaint>
    ensures { Says result (limited (joined (first.now ∷ words.now))) }
{
    let text = joined_words(alloc, first, words)?;
    limited(alloc, Value::from_text(alloc, text)?)
}

fn ends_with_backslash(text: &[u8]) -> bool
    ensures { result ≡ ends_with_backslash text.now }
{
    match text.last() {
        None => false,
        Some(b) => *b == b'\\',
    }
}

/// Returns a word without the white space at its ends. The first byte of white space after a
/// backslash stays.
fn pruned(word: &[u8]) -> &[u8]
    ensures { result.now ≡ pruned word.now }
{
    let text = trimmed_front(word);
    let front = trimmed_end(text);
    if ends_with_backslash(front) && front.len() < text.len() {
        return text.split_at(front.len() + 1).0;
    }
    front
}

/// Appends a word to a text, with a space between them if neither is empty.
fn push_word(text: &mut Text, word: &[u8]) -> Result<(), AllocError>
    ensures { OnOk result (text.new ≡ with_word text.old word.now) }
{
    if word.is_empty() {
        return Ok(());
    }
    if text.len() == 0 {
        return text.extend(word);
    }
    text.push(b' ')?;
    text.extend(word)
}

/// Returns the pruned words that aren't empty, joined by spaces.
fn full_words(alloc: Global, words: &[Value]) -> Result<Text, AllocError>
    ensures { IfOk result (λ t. t ≡ joined (full words.now)) }
{
    let mut text = Text::new(alloc);
    for word in words {
        push_word(&mut text, pruned(word.as_slice()))?;
    }
    Ok(text)
}

/// Returns the value of `concat word ..`.
pub fn concat(alloc: Global, args: &[Value]) -> Result<Value, Complaint>
    ensures { Says result (concat args.now) }
{
    let text = full_words(alloc, args)?;
    limited(alloc, Value::from_text(alloc, text)?)
}

/// Returns the script that `eval word ..` evaluates.
pub fn eval_text(alloc: Global, command: &[u8], args: &[Value]) -> Result<Value, Complaint>
    ensures { Says result (eval_text command.now args.now) }
{
    match args {
        [] => Err(wrong(alloc, command)),
        [_, ..] => concat(alloc, args),
    }
}
