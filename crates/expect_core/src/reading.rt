//! What commands read from channels and write to them: `gets`, `read`, `eof`, `close`, `flush` and
//! `puts` of Tcl.

ghost use Rattle.std.specs.Prelude.{◌≡◌, ◌<◌, ◌==◌, ◌++◌, [], length, position, take, false, if◌then◌else◌, IfOk, IfSome, OnOk};
ghost use Rattle.tcl_results.specs.Says.{Says};
ghost use Rattle.expect_core.specs.Opened.{channel_of, name_at as name_of, reading as reading_of, writing as writing_of};
ghost use Rattle.expect_core.specs.Channels.{channel_named, closing_channel, count_of as count_meant, end_reply as end_reply_of, ends_writing, flushing as flushing_of, flushing_to as flushing_to_of, gets_by as gets_by_of, getting, is_standard as is_standard_of, length_of as length_text, line_byte, line_in as line_of, meeting_end, plain_lines as plain_lines_of, putting as putting_of, putting_to as putting_to_of, read_from as read_from_of, reading_more, reads_all as reads_all_of, reads_by as reads_by_of, reads_some as reads_some_of, second as second_of, shutting as shutting_of, without_newline as without_newline_of, written_to as written_to_of};
ghost use Rattle.expect_core.specs.Turns.{done as done_of};

use crate::channels::{Channel, Rest};
use crate::effect::{Effect, Effects};
use crate::flags::{arguments, text};
use crate::own::Own;
use crate::place::Place;
use crate::request::Act;
use crate::sleeping::digits;
use crate::texts::{bit, decimal};
use crate::tool::{Job, Stride, ToolRun};
use crate::turn::{Deed, Next, Purpose, Reaction, Reply, done};
use command_table::{ExpectCommand, is};
use std::alloc::{AllocError, Global};
use tcl_host::Pile;
use tcl_results::{Complaint, bad_option, expected_number};
use tcl_values::Value;
use tcl_words::Text;
use tty::Action;

/// Returns the bytes without one last newline.
pub(crate) fn without_newline(bytes: &[u8]) -> &[u8]
    ensures { result.now ≡ without_newline_of bytes.now }
{
    match bytes.split_last() {
        None => bytes,
        Some((last, front)) => {
            if *last != b'\n' {
                return bytes;
            }
            front
        }
    }
}

/// Returns the bytes, without one last newline unless that stays.
pub(crate) fn with_newline(stays: bool, bytes: &[u8]) -> &[u8]
    ensures { result.now ≡ (if stays then bytes.now else without_newline_of bytes.now) }
{
    if stays { bytes } else { without_newline(bytes) }
}

/// Returns whether a byte is a newline directly after a carriage return.
fn is_second(returned: bool, byte: u8) -> bool
    ensures { result ≡ (if returned then byte == 10 else false) }
{
    if returned { byte == b'\n' } else { false }
}

/// Appends a byte, directly after a carriage return or not. A carriage return becomes a newline, and
/// a newline directly after one is dropped.
fn push_line_byte(lines: &mut Text, returned: bool, byte: u8) -> Result<(), AllocError>
    ensures { OnOk result (lines.new ≡ lines.old ++ line_byte returned byte) }
{
    if byte == b'\r' {
        return lines.push(b'\n');
    }
    if is_second(returned, byte) {
        return Ok(());
    }
    lines.push(byte)
}

/// Returns bytes whose lines end in newlines: a carriage return is one, with a newline after it too.
pub(crate) fn plain_lines(alloc: Global, bytes: &[u8]) -> Result<Text, AllocError>
    ensures { IfOk result (λ t. t ≡ plain_lines_of bytes.now) }
{
    let mut lines = Text::new(alloc);
    let mut returned = false;
    'bytes: for byte in bytes {
        push_line_byte(&mut lines, returned, *byte)?;
        returned = *byte == b'\r';
    }
    Ok(lines)
}

/// Returns the name of the channel of the child at a place.
pub(crate) fn name_at(alloc: Global, i: Place) -> Result<Text, AllocError>
    ensures { IfOk result (λ t. t ≡ name_of i) }
{
    let mut text = Text::from_slice(alloc, b"file")?;
    text.extend(decimal(alloc, usize::from(i.number()))?.as_slice())?;
    Ok(text)
}

impl Channel {
    /// Creates a channel with these bytes to read.
    pub(crate) fn reading(
        alloc: Global,
        i: Place,
        bytes: Text,
        ended: Text,
    ) -> Result<Channel, AllocError>
        ensures { IfOk result (λ c. c ≡ reading_of i bytes ended) }
    {
        Ok(Channel {
            name: name_at(alloc, i)?,
            child: i,
            reads: true,
            rest: Rest::of(bytes),
            met: false,
            ended,
        })
    }

    /// Creates a channel whose bytes the child at a place takes.
    pub(crate) fn writing(alloc: Global, i: Place) -> Result<Channel, AllocError>
        ensures { IfOk result (λ c. c ≡ writing_of i) }
    {
        Ok(Channel {
            name: name_at(alloc, i)?,
            child: i,
            reads: false,
            rest: Rest::new(alloc),
            met: false,
            ended: Text::new(alloc),
        })
    }
}

/// Returns the index of the channel with a name.
fn channel_at(alloc: Global, name: &[u8], own: &Own) -> Result<usize, Complaint>
    ensures { Says result (channel_named name.now own.now) }
{
    match own.channels.find(name) {
        Some(n) => Ok(n),
        None => Err(Complaint::Said(bad_option(alloc, name)?)),
    }
}

/// Returns the index of the channel that is read.
fn read_from(alloc: Global, name: &[u8], own: &Own) -> Result<usize, Complaint>
    ensures { Says result (read_from_of name.now own.now) }
{
    let n = channel_at(alloc, name, own)?;
    if own.channels.reads(n) {
        Ok(n)
    } else {
        Err(Complaint::Said(bad_option(alloc, name)?))
    }
}

/// Returns the index of the channel that is written.
fn written_to(alloc: Global, name: &[u8], own: &Own) -> Result<usize, Complaint>
    ensures { Says result (written_to_of name.now own.now) }
{
    let n = channel_at(alloc, name, own)?;
    if own.channels.reads(n) {
        Err(Complaint::Said(bad_option(alloc, name)?))
    } else {
        Ok(n)
    }
}

/// Returns the index of the first newline.
fn newline_in(rest: &[u8]) -> Option<usize>
    ensures at { result ≡ position (λ b. b == 10) rest.now }
    ensures within { IfSome result (λ n. n < length rest.now) }
{
    rest.iter().position(|byte| *byte == b'\n')
}

/// Returns the next line of what is left, the number of bytes that it takes, and whether the end is
/// met.
fn line_in(rest: &[u8]) -> (&[u8], usize, bool)
    ensures { (result.0.now, result.1, result.2) ≡ line_of rest.now }
{
    match newline_in(rest) {
        Some(n) => (&rest[..n], n + 1, false),
        None => (rest, rest.len(), true),
    }
}

/// Returns what `gets` does, given what is left of its channel.
fn gets_by(alloc: Global, n: usize, rest: &[u8], name: Option<Value>) -> Result<Deed, AllocError>
    ensures { IfOk result (λ d. d ≡ gets_by_of n rest.now (line_of rest.now) name) }
{
    let (line, count, met) = line_in(rest);
    let effects = Effects::one(alloc, Effect::Move(n, count, met))?;
    let value = Value::from_slice(alloc, line)?;
    match name {
        None => Ok(Deed::Alone(effects, done(value))),
        Some(name) => {
            let name = Text::from_slice(alloc, name.as_slice())?;
            let effects = effects.with(Effect::Set(name, value))?;
            let length = length_of(alloc, rest, line)?;
            Ok(Deed::Alone(effects, done(Value::from_text(alloc, length)?)))
        }
    }
}

/// Returns the length of a line, or -1 if nothing was left.
fn length_of(alloc: Global, rest: &[u8], line: &[u8]) -> Result<Text, AllocError>
    ensures { IfOk result (λ t. t ≡ length_text rest.now line.now) }
{
    match rest {
        [] => Text::from_slice(alloc, b"-1"),
        [_, ..] => decimal(alloc, line.len()),
    }
}

/// Returns the second argument, or `None`.
fn second(alloc: Global, args: &[Value]) -> Result<Option<Value>, AllocError>
    ensures { IfOk result (λ r. r ≡ second_of args.now) }
{
    match args {
        [_, other, ..] => Ok(Some(other.shared(alloc)?)),
        _ => Ok(None),
    }
}

/// Returns what `gets channelId ?varName?` does.
pub(crate) fn gets(alloc: Global, name: &[u8], args: &[Value], own: &Own) -> Result<Deed, Complaint>
    ensures { Says result (getting name.now args.now own.now) }
{
    let (_, at) = arguments(alloc, ExpectCommand::Gets, name, args)?;
    let args = &args[at..];
    let channel = text(alloc, args)?;
    let n = read_from(alloc, channel.as_slice(), own)?;
    let variable = second(alloc, args)?;
    Ok(gets_by(alloc, n, own.channels.rest(n), variable)?)
}

/// Returns what a `read` of all bytes does. `whole`: one last newline stays.
fn reads_all(alloc: Global, whole: bool, name: &[u8], own: &Own) -> Result<Deed, Complaint>
    ensures { Says result (reads_all_of whole name.now own.now) }
{
    let n = read_from(alloc, name, own)?;
    let rest = own.channels.rest(n);
    let effects = Effects::one(alloc, Effect::Move(n, rest.len(), true))?;
    let value = Value::from_slice(alloc, with_newline(whole, rest))?;
    Ok(Deed::Alone(effects, done(value)))
}

/// Returns how many bytes a word asks for.
fn count_of(alloc: Global, word: &[u8]) -> Result<u64, Complaint>
    ensures { Says result (count_meant word.now) }
{
    match digits(word) {
        Some(count) => Ok(count),
        None => Err(Complaint::Said(expected_number(alloc, word)?)),
    }
}

/// Returns the first bytes, as many as `count`, or all if there are fewer.
fn at_most(count: usize, rest: &[u8]) -> &[u8]
    ensures { result.now ≡ take count rest.now }
{
    if count < rest.len() {
        &rest[..count]
    } else {
        rest
    }
}

/// Returns what a `read` of this many bytes does.
fn reads_some(alloc: Global, name: &[u8], count: &[u8], own: &Own) -> Result<Deed, Complaint>
    ensures { Says result (reads_some_of name.now count.now own.now) }
{
    let count = count_of(alloc, count)? as usize;
    let n = read_from(alloc, name, own)?;
    let rest = own.channels.rest(n);
    let effects = Effects::one(alloc, Effect::Move(n, count, rest.len() < count))?;
    let value = Value::from_slice(alloc, at_most(count, rest))?;
    Ok(Deed::Alone(effects, done(value)))
}

/// Returns what a `read` with these arguments does.
fn reads_by(alloc: Global, args: &[Value], own: &Own) -> Result<Deed, Complaint>
    ensures { Says result (reads_by_of args.now own.now) }
{
    match args {
        [first, other, ..] => {
            if is(first.as_slice(), b"-nonewline") {
                reads_all(alloc, false, other.as_slice(), own)
            } else {
                reads_some(alloc, first.as_slice(), other.as_slice(), own)
            }
        }
        [channel] => reads_all(alloc, true, channel.as_slice(), own),
        [] => reads_all(alloc, true, b"", own),
    }
}

/// Returns what `read ?-nonewline? channelId` or `read channelId numChars` does.
pub(crate) fn read(alloc: Global, name: &[u8], args: &[Value], own: &Own) -> Result<Deed, Complaint>
    ensures { Says result (reading_more name.now args.now own.now) }
{
    let (_, at) = arguments(alloc, ExpectCommand::Read, name, args)?;
    reads_by(alloc, &args[at..], own)
}

/// Returns what `eof channelId` does.
pub(crate) fn eof(alloc: Global, name: &[u8], args: &[Value], own: &Own) -> Result<Deed, Complaint>
    ensures { Says result (meeting_end name.now args.now own.now) }
{
    let (_, at) = arguments(alloc, ExpectCommand::Eof, name, args)?;
    let channel = text(alloc, &args[at..])?;
    let n = read_from(alloc, channel.as_slice(), own)?;
    let value = bit(alloc, own.channels.met(n))?;
    Ok(Deed::Alone(Effects::new(alloc), done(value)))
}

/// Returns the end of a `close` of a channel that was read.
fn end_reply(alloc: Global, ended: &[u8]) -> Result<Reply, AllocError>
    ensures { IfOk result (λ r. r ≡ end_reply_of ended.now) }
{
    match ended {
        [] => Ok(done(Value::new(alloc))),
        [_, ..] => Ok(Reply::Fail(Value::from_slice(alloc, ended)?)),
    }
}

/// Returns the request that a channel which was written ends with.
fn end_writing(alloc: Global, n: usize) -> Result<Reaction, AllocError>
    ensures { IfOk result (λ r. r ≡ ends_writing n) }
{
    let run = ToolRun {
        failing: Text::from_slice(alloc, b"close failed")?,
        job: Job::Change,
        bytes: Text::new(alloc),
        broken: None,
    };
    Ok(Reaction {
        effects: Effects::one(alloc, Effect::Shut(n))?.with(Effect::Ask(Act::End))?,
        next: Next::Await(Purpose::Tool(Stride::Fed, run)),
    })
}

/// Returns what the `close` of the channel with this index does.
fn shutting(alloc: Global, n: usize, own: &Own) -> Result<Deed, AllocError>
    ensures { IfOk result (λ d. d ≡ shutting_of n (channel_of n own.now)) }
{
    if own.channels.reads(n) {
        let reply = end_reply(alloc, own.channels.ended(n))?;
        return Ok(Deed::Alone(Effects::one(alloc, Effect::Shut(n))?, reply));
    }
    Ok(Deed::To(own.channels.child(n), end_writing(alloc, n)?))
}

/// Returns what `close channelId` does.
pub(crate) fn close_channel(alloc: Global, name: &[u8], own: &Own) -> Result<Deed, Complaint>
    ensures { Says result (closing_channel name.now own.now) }
{
    let n = channel_at(alloc, name, own)?;
    Ok(shutting(alloc, n, own)?)
}

/// Returns whether a word names standard output or standard error.
fn is_standard(name: &[u8]) -> bool
    ensures { result ≡ is_standard_of name.now }
{
    is(name, b"stdout") || is(name, b"stderr")
}

/// Returns what a command does that does nothing.
fn nothing(alloc: Global) -> Deed
    ensures { result ≡ Deed.Alone [] (done_of []) }
{
    Deed::Alone(Effects::new(alloc), done(Value::new(alloc)))
}

/// Returns what a `flush` of a channel does. Nothing is held back.
fn flush_to(alloc: Global, name: &[u8], own: &Own) -> Result<Deed, Complaint>
    ensures { Says result (flushing_to_of name.now own.now) }
{
    if is_standard(name) {
        return Ok(nothing(alloc));
    }
    written_to(alloc, name, own)?;
    Ok(nothing(alloc))
}

/// Returns what `flush channelId` does.
pub(crate) fn flush(
    alloc: Global,
    name: &[u8],
    args: &[Value],
    own: &Own,
) -> Result<Deed, Complaint>
    ensures { Says result (flushing_of name.now args.now own.now) }
{
    let (_, at) = arguments(alloc, ExpectCommand::Flush, name, args)?;
    let channel = text(alloc, &args[at..])?;
    flush_to(alloc, channel.as_slice(), own)
}

/// Returns what writes a text to the input of a child. An empty one is not written.
pub(crate) fn put_to(alloc: Global, i: Place, text: Text) -> Result<Deed, AllocError>
    ensures { IfOk result (λ d. d ≡ putting_to_of i text) }
{
    if text.len() == 0 {
        return Ok(nothing(alloc));
    }
    let effects = Effects::one(alloc, Effect::Ask(Act::Write(text.copied(alloc)?)))?;
    let next = Next::Await(Purpose::Send(Action::Write(text), Pile::new(alloc), None));
    Ok(Deed::To(i, Reaction { effects, next }))
}

/// Returns what a `puts` to a channel does, given the text with its newline.
pub(crate) fn put(alloc: Global, name: &[u8], text: Text, own: &Own) -> Result<Deed, Complaint>
    ensures { Says result (putting_of name.now text own.now) }
{
    let n = written_to(alloc, name, own)?;
    Ok(put_to(alloc, own.channels.child(n), text)?)
}
