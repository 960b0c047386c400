//! `puts`, `send_user` and `log_user` (expect(1)).

ghost use Rattle.std.specs.Prelude.{◌≡◌, IfOk, ◌∷◌, []};
ghost use Rattle.tcl_results.specs.Says.{Says};
ghost use Rattle.expect_core.specs.Transcript.{ended as ended_of, log_set, log_told, log_word, logging as logging_of, complain as complain_of, complain_first as complain_first_of, put_by as put_by_of, put_of as put_meant, put_to, put_words, puts as puts_of, sending_error, to_user as user_text, writing};
ghost use Rattle.expect_core.specs.Turns.{done as done_of};

use crate::effect::{Effect, Effects};
use crate::flags::{arguments, bad_flag, text};
use crate::own::Own;
use crate::programs::complaining;
use crate::reading::{put, put_to as put_to_child};
use crate::texts::bit;
use crate::tools::tool;
use crate::turn::{Deed, done};
use command_table::{ExpectCommand, begins_with_minus, is};
use std::alloc::{AllocError, Global};
use tcl_results::{Complaint, bad_option, wrong_args};
use tcl_values::Value;
use tcl_words::Text;

/// Returns a text, with a newline if `line`.
fn ended(alloc: Global, line: bool, text: &[u8]) -> Result<Text, AllocError>
    ensures { IfOk result (λ t. t ≡ ended_of line text.now) }
{
    let mut text = Text::from_slice(alloc, text)?;
    if line {
        text.push(b'\n')?;
    }
    Ok(text)
}

/// Returns the channel and what `puts` writes to it, given a text, or a channel and a text.
fn put_to(
    alloc: Global,
    name: &[u8],
    line: bool,
    words: &[Value],
) -> Result<(Text, Text), Complaint>
    ensures { Says result (put_to name.now line words.now) }
{
    match words {
        [text] => {
            let channel = Text::from_slice(alloc, b"stdout")?;
            Ok((channel, ended(alloc, line, text.as_slice())?))
        }
        [channel, text] => {
            let channel = Text::from_slice(alloc, channel.as_slice())?;
            Ok((channel, ended(alloc, line, text.as_slice())?))
        }
        _ => Err(Complaint::Said(wrong_args(alloc, name)?)),
    }
}

/// Returns the channel and what `puts` writes to it, given its words. The first may be `-nonewline`
/// if others follow.
fn put_words(alloc: Global, name: &[u8], words: &[Value]) -> Result<(Text, Text), Complaint>
    ensures { Says result (put_words name.now words.now) }
{
    match words {
        [first, rest @ ..] if !rest.is_empty() && is(first.as_slice(), b"-nonewline") => {
            put_to(alloc, name, false, rest)
        }
        _ => put_to(alloc, name, true, words),
    }
}

/// Returns the channel and what `puts` writes to it.
fn put_of(alloc: Global, name: &[u8], args: &[Value]) -> Result<(Text, Text), Complaint>
    ensures { Says result (put_meant name.now args.now) }
{
    let (_, at) = arguments(alloc, ExpectCommand::Puts, name, args)?;
    put_words(alloc, name, &args[at..])
}

/// Returns what a command does that writes to the transcript.
fn write(alloc: Global, text: Text) -> Result<Deed, AllocError>
    ensures { IfOk result (λ d. d ≡ Deed.Alone (Effect.Tell text ∷ []) (done_of [])) }
{
    let effects = Effects::one(alloc, Effect::Tell(text))?;
    Ok(Deed::Alone(effects, done(Value::new(alloc))))
}

/// Returns what writes the first text to standard error. An empty one is not written.
fn complain_first(alloc: Global, text: Text, own: &Own) -> Result<Deed, Complaint>
    ensures { Says result (complain_first_of text own.now) }
{
    if text.len() == 0 {
        return Ok(Deed::Alone(Effects::new(alloc), done(Value::new(alloc))));
    }
    tool(alloc, complaining(alloc, text)?, own)
}

/// Returns what writes a text to standard error.
fn complain(alloc: Global, text: Text, own: &Own) -> Result<Deed, Complaint>
    ensures { Says result (complain_of own.now.errors text own.now) }
{
    match own.errors {
        Some(i) => Ok(put_to_child(alloc, i, text)?),
        None => complain_first(alloc, text, own),
    }
}

/// Returns what a `puts` of a text to a channel does.
fn put_by(alloc: Global, channel: &[u8], text: Text, own: &Own) -> Result<Deed, Complaint>
    ensures { Says result (put_by_of channel.now text own.now) }
{
    if is(channel, b"stdout") {
        return Ok(write(alloc, text)?);
    }
    if is(channel, b"stderr") {
        return complain(alloc, text, own);
    }
    if begins_with_minus(channel) {
        return Err(Complaint::Said(bad_flag(alloc, channel)?));
    }
    put(alloc, channel, text, own)
}

/// Returns what `puts ?-nonewline? ?channelId? text` does.
pub(crate) fn puts(alloc: Global, name: &[u8], args: &[Value], own: &Own) -> Result<Deed, Complaint>
    ensures { Says result (puts_of name.now args.now own.now) }
{
    let (channel, text) = put_of(alloc, name, args)?;
    put_by(alloc, channel.as_slice(), text, own)
}

/// Returns what `send_user` writes.
fn to_user(alloc: Global, name: &[u8], args: &[Value]) -> Result<Text, Complaint>
    ensures { Says result (user_text name.now args.now) }
{
    let (_, at) = arguments(alloc, ExpectCommand::SendUser, name, args)?;
    let text = text(alloc, &args[at..])?;
    Ok(Text::from_slice(alloc, text.as_slice())?)
}

/// Returns what `send_user ?--? text` does.
pub(crate) fn send_user(alloc: Global, name: &[u8], args: &[Value]) -> Result<Deed, Complaint>
    ensures { Says result (writing (user_text name.now args.now)) }
{
    let text = to_user(alloc, name, args)?;
    Ok(write(alloc, text)?)
}

/// Returns what `send_error ?--? text` does.
pub(crate) fn send_error(
    alloc: Global,
    name: &[u8],
    args: &[Value],
    own: &Own,
) -> Result<Deed, Complaint>
    ensures { Says result (sending_error name.now args.now own.now) }
{
    let (_, at) = arguments(alloc, ExpectCommand::SendError, name, args)?;
    let text = text(alloc, &args[at..])?;
    complain(alloc, Text::from_slice(alloc, text.as_slice())?, own)
}

/// Reads the argument of `log_user`: whether output goes to the transcript, or `None` for `-info`.
fn log_word(alloc: Global, word: &[u8]) -> Result<Option<bool>, Complaint>
    ensures { Says result (log_word word.now) }
{
    if is(word, b"0") {
        return Ok(Some(false));
    }
    if is(word, b"1") {
        return Ok(Some(true));
    }
    if is(word, b"-info") {
        return Ok(None);
    }
    Err(Complaint::Said(bad_option(alloc, word)?))
}

/// Sets whether output goes to the transcript, or returns it for `None`.
fn log(alloc: Global, on: Option<bool>, own: &Own) -> Result<Deed, AllocError>
    ensures { IfOk result (λ d. d ≡ Deed.Alone (log_set on) (done_of (log_told on own.now))) }
{
    match on {
        Some(on) => {
            let effects = Effects::one(alloc, Effect::LogUser(on))?;
            Ok(Deed::Alone(effects, done(Value::new(alloc))))
        }
        None => {
            let value = bit(alloc, own.log_user)?;
            Ok(Deed::Alone(Effects::new(alloc), done(value)))
        }
    }
}

/// Returns what `log_user 0`, `log_user 1` or `log_user -info` does.
pub(crate) fn log_user(
    alloc: Global,
    name: &[u8],
    args: &[Value],
    own: &Own,
) -> Result<Deed, Complaint>
    ensures { Says result (logging_of name.now args.now own.now) }
{
    let (_, at) = arguments(alloc, ExpectCommand::LogUser, name, args)?;
    let word = text(alloc, &args[at..])?;
    let on = log_word(alloc, word.as_slice())?;
    Ok(log(alloc, on, own)?)
}
