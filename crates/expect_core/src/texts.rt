//! The texts of errors, spawn ids and the line of a `spawn`.

ghost use Rattle.std.specs.Prelude.{◌≡◌, ◌++◌, IfOk, OnOk};
ghost use Rattle.std.specs.Fmt.{decimal};
ghost use Rattle.expect_core.specs.Texts.{id_at as id_of, spaced, spawn_line as line_of, with_cause as cause_behind, not_executed as not_executed_text, program_of as program_text, bad_stty as bad_stty_text, no_such_id as no_such_id_text, not_open as not_open_text, waited_for as waited_for_text, bad_size as bad_size_text, bad_removal as bad_removal_text, bit, bad_expect_flag as bad_flag_text, bad_regular as bad_regular_text, number_of_cause as number_of};

use crate::place::Place;
use child_events::{Cause, cause_name};
use std::alloc::{AllocError, Global};
use tcl_results::quoted;
use tcl_values::Value;
use tcl_words::Text;

/// Returns a number in decimal digits. A single digit takes a faster path.
#[tactic(auto, using(std::proofs::lemmas::Fmt::decimal_digit))]
pub(crate) fn decimal(alloc: Global, number: usize) -> Result<Text, AllocError>
    ensures { IfOk result (λ t. t ≡ decimal number) }
{
    if number < 10 {
        let mut digit = Text::new(alloc);
        digit.push(b'0' + number as u8)?;
        return Ok(digit);
    }
    Ok(Text {
        bytes: format!(in alloc; "{number}")?.into_bytes(),
    })
}

/// Returns the spawn id of the child at a place.
pub(crate) fn id_at(alloc: Global, i: Place) -> Result<Text, AllocError>
    ensures { IfOk result (λ t. t ≡ id_of i) }
{
    let mut text = Text::from_slice(alloc, b"exp")?;
    text.extend(decimal(alloc, usize::from(i.number()))?.as_slice())?;
    Ok(text)
}

/// Appends words, each with a space before it.
pub(crate) fn push_spaced(line: &mut Text, words: &[Text]) -> Result<(), AllocError>
    ensures { OnOk result (line.new ≡ line.old ++ spaced words.now) }
{
    for word in words {
        line.push(b' ')?;
        line.extend(word.as_slice())?;
    }
    Ok(())
}

/// Returns the line that a `spawn` writes to the transcript: the flags that are shown, and the
/// words.
pub(crate) fn spawn_line(alloc: Global, shown: &[Text], words: &[Text]) -> Result<Text, AllocError>
    ensures { IfOk result (λ t. t ≡ line_of shown.now words.now) }
{
    let mut line = Text::from_slice(alloc, b"spawn")?;
    push_spaced(&mut line, shown)?;
    push_spaced(&mut line, words)?;
    line.extend(b"\r\n")?;
    Ok(line)
}

/// Appends a cause to a text.
fn caused(mut text: Text, cause: Cause) -> Result<Text, AllocError>
    ensures { IfOk result (λ t. t ≡ cause_behind text cause) }
{
    text.extend(b": ")?;
    text.extend(cause_name(cause))?;
    Ok(text)
}

/// Returns a text followed by a cause.
pub(crate) fn with_cause(alloc: Global, front: &[u8], cause: Cause) -> Result<Text, AllocError>
    ensures { IfOk result (λ t. t ≡ cause_behind front.now cause) }
{
    caused(Text::from_slice(alloc, front)?, cause)
}

/// Returns the first word of a `spawn`, or no bytes if there is none.
pub(crate) fn program_of(words: &[Text]) -> &[u8]
    ensures { result.now ≡ program_text words.now }
{
    match words {
        [] => &[],
        [program, ..] => program.as_slice(),
    }
}

/// Returns the error for a program that was not started.
pub(crate) fn not_executed(alloc: Global, words: &[Text], cause: Cause) -> Result<Text, AllocError>
    ensures { IfOk result (λ t. t ≡ not_executed_text words.now cause) }
{
    caused(
        quoted(alloc, b"couldn't execute ", program_of(words))?,
        cause,
    )
}

/// Returns the error for an unknown word of `stty_init`.
pub(crate) fn bad_stty(alloc: Global, word: &[u8]) -> Result<Text, AllocError>
    ensures { IfOk result (λ t. t ≡ bad_stty_text word.now) }
{
    quoted(alloc, b"bad stty_init word ", word)
}

/// Returns the error for an unknown spawn id.
pub(crate) fn no_such_id(alloc: Global, id: &[u8]) -> Result<Text, AllocError>
    ensures { IfOk result (λ t. t ≡ no_such_id_text id.now) }
{
    quoted(alloc, b"no such spawn id ", id)
}

/// Returns the error for a child that isn't open.
pub(crate) fn not_open(alloc: Global, id: &[u8]) -> Result<Text, AllocError>
    ensures { IfOk result (λ t. t ≡ not_open_text id.now) }
{
    let mut text = Text::from_slice(alloc, b"spawn id ")?;
    text.extend(id)?;
    text.extend(b" not open")?;
    Ok(text)
}

/// Returns the error for a child that a `wait` has already asked for.
pub(crate) fn waited_for(alloc: Global, id: &[u8]) -> Result<Text, AllocError>
    ensures { IfOk result (λ t. t ≡ waited_for_text id.now) }
{
    let mut text = Text::from_slice(alloc, b"spawn id ")?;
    text.extend(id)?;
    text.extend(b" already waited for")?;
    Ok(text)
}

/// Returns the error for a bad size of a match buffer.
pub(crate) fn bad_size(alloc: Global, size: &[u8]) -> Result<Text, AllocError>
    ensures { IfOk result (λ t. t ≡ bad_size_text size.now) }
{
    quoted(alloc, b"bad match_max size ", size)
}

/// Returns the error for a bad value of `remove_nulls`.
pub(crate) fn bad_removal(alloc: Global, value: &[u8]) -> Result<Text, AllocError>
    ensures { IfOk result (λ t. t ≡ bad_removal_text value.now) }
{
    quoted(alloc, b"bad remove_nulls value ", value)
}

/// Returns `1` or `0`.
pub(crate) fn bit(alloc: Global, on: bool) -> Result<Value, AllocError>
    ensures { IfOk result (λ v. v ≡ bit on) }
{
    Value::from_slice(alloc, if on { b"1" } else { b"0" })
}

/// Returns the error for a bad flag of `expect`.
pub(crate) fn bad_expect_flag(alloc: Global, word: &[u8]) -> Result<Text, AllocError>
    ensures { IfOk result (λ t. t ≡ bad_flag_text word.now) }
{
    quoted(alloc, b"bad expect flag ", word)
}

/// Returns the error for a bad regular pattern.
pub(crate) fn bad_regular(alloc: Global, pattern: &[u8]) -> Result<Text, AllocError>
    ensures { IfOk result (λ t. t ≡ bad_regular_text pattern.now) }
{
    quoted(alloc, b"bad regular expression ", pattern)
}

/// Returns the error number of a cause.
pub(crate) fn number_of_cause(cause: Cause) -> usize
    ensures { result ≡ number_of cause }
{
    match cause {
        Cause::NotFound => 2,
        Cause::Denied => 13,
        Cause::Broken => 32,
        Cause::Memory => 12,
        Cause::Other => 5,
    }
}
