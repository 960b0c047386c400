//! Writes the log of events.

ghost use Rattle.std.specs.Bool.{Decides};
ghost use Rattle.std.specs.Prelude.{◌≡◌, ◌<◌, ◌++◌, ◌∷◌, [], IfOk, OnOk};
ghost use Rattle.std.specs.List.{flat_map, AllByRecursion};
ghost use Rattle.std.specs.Fmt.{decimal};
ghost use Rattle.hex.specs.Hex.{IsBytes};
ghost use Rattle.child_events.specs.declared.child_numbers.ChildNumbers.TheVariants.{To999};
ghost use Rattle.child_events.specs.Log.{cause_text, fits as fits_meant, piece_len as piece_len_of, hex_text, kind_text, held_text, line_of, version_name, heading, lines_text, total_line, AllFit, numbers_of as numbers_meant, CountedLog, HoldsBytes, IsOfBytes};

use crate::child_numbers::ChildNumbers;
use crate::event::{Answer, Cause, HallEvent, What};
use crate::fields::MOST_MOMENT;
use std::alloc::{AllocError, Global};
use tcl_words::Text;

/// Returns the first word of an event's line.
fn kind_name(what: &What) -> &'static [u8]
    ensures { result.now ≡ kind_text what.now }
{
    match what {
        What::Out(_) => b"out",
        What::Eof => b"end",
        What::ReadFail(_) => b"fail",
        What::Answer(Answer::Ok) => b"ok",
        What::Answer(Answer::Fail(_)) => b"bad",
        What::Answer(Answer::Exit(_)) => b"exit",
        What::Answer(Answer::Killed) => b"killed",
    }
}

/// Returns the word for a cause.
pub fn cause_name(cause: Cause) -> &'static [u8]
    ensures { result.now ≡ cause_text cause }
{
    match cause {
        Cause::NotFound => b"notfound",
        Cause::Denied => b"denied",
        Cause::Broken => b"broken",
        Cause::Memory => b"memory",
        Cause::Other => b"other",
    }
}

/// Appends a space and a word.
fn push_word(text: &mut Text, word: &[u8]) -> Result<(), AllocError>
    ensures { OnOk result (text.new ≡ text.old ++ 32 ∷ word.now) }
{
    text.push(b' ')?;
    text.extend(word)
}

/// Appends a space and a number.
fn push_number(alloc: Global, text: &mut Text, number: u64) -> Result<(), AllocError>
    ensures { OnOk result (text.new ≡ text.old ++ 32 ∷ decimal number) }
{
    let digits = number.to_string(alloc)?;
    push_word(text, digits.as_bytes())
}

/// Appends a space and a piece in hexadecimal.
fn push_piece(alloc: Global, text: &mut Text, piece: &[u8]) -> Result<(), AllocError>
    ensures { OnOk result (text.new ≡ text.old ++ 32 ∷ hex_text piece.now) }
{
    if piece.is_empty() {
        return push_word(text, b"-");
    }
    let digits = hex::encode(alloc, piece)?;
    push_word(text, digits.as_bytes())
}

/// Appends the last word of an event's line, if it has one.
fn push_held(alloc: Global, text: &mut Text, what: &What) -> Result<(), AllocError>
    ensures { OnOk result (text.new ≡ text.old ++ flat_map (λ v. 32 ∷ v) (held_text what.now)) }
{
    match what {
        What::Out(piece) => push_piece(alloc, text, piece.as_slice()),
        What::ReadFail(cause) => push_word(text, cause_name(*cause)),
        What::Answer(Answer::Fail(cause)) => push_word(text, cause_name(*cause)),
        What::Answer(Answer::Exit(status)) => push_number(alloc, text, u64::from(*status)),
        What::Eof => Ok(()),
        What::Answer(Answer::Ok) => Ok(()),
        What::Answer(Answer::Killed) => Ok(()),
    }
}

/// Appends a newline.
fn end_line(text: &mut Text) -> Result<(), AllocError>
    ensures { OnOk result (text.new ≡ text.old ++ 10 ∷ []) }
{
    text.push(b'\n')
}

/// Appends an event's line, with its newline.
fn push_line(alloc: Global, text: &mut Text, event: &HallEvent) -> Result<(), AllocError>
    ensures { OnOk result (text.new ≡ text.old ++ (line_of event.now ++ 10 ∷ [])) }
{
    match event {
        HallEvent::Child {
            script,
            child,
            moment,
            what,
        } => {
            text.extend(kind_name(what))?;
            push_number(alloc, text, u64::from(*script))?;
            push_number(alloc, text, u64::from(*child))?;
            push_number(alloc, text, *moment)?;
            push_held(alloc, text, what)?;
        }
        HallEvent::Tick { moment } => {
            text.extend(b"tick")?;
            push_number(alloc, text, *moment)?;
        }
    }
    end_line(text)
}

/// States that a slice consists of bytes. Like the next two, it does nothing at run time.
fn tell_slice_bytes(bytes: &[u8])
    ensures { IsBytes bytes.now }
{}

/// States that the content of an event consists of bytes.
fn tell_bytes(what: &What)
    ensures { HoldsBytes what.now }
{
    match what {
        What::Out(piece) => tell_slice_bytes(piece.as_slice()),
        What::Answer(Answer::Exit(status)) => {
            let _status = *status;
        }
        What::Eof | What::ReadFail(_) | What::Answer(_) => {}
    }
}

/// States that an event consists of bytes.
fn tell_event_bytes(event: &HallEvent)
    ensures { IsOfBytes event.now }
{
    match event {
        HallEvent::Child { what, .. } => tell_bytes(what),
        HallEvent::Tick { .. } => {}
    }
}

/// The longest piece of output in an event, in bytes.
const LONGEST_PIECE: usize = 4096;

/// Returns the length of the piece in an event, or 0.
fn piece_len(what: &What) -> usize
    ensures { result ≡ piece_len_of what.now }
{
    match what {
        What::Out(piece) => piece.len(),
        What::Eof => 0,
        What::ReadFail(_) => 0,
        What::Answer(_) => 0,
    }
}

/// Returns whether an event is within the limits of a log with these numbers of children.
fn fits_alone(numbers: ChildNumbers, event: &HallEvent) -> bool
    ensures { result ≡ fits_meant numbers event.now }
{
    match event {
        HallEvent::Child {
            script,
            child,
            moment,
            what,
        } => {
            (1..=64).contains(script)
                && numbers.least() <= u64::from(*child)
                && u64::from(*child) <= numbers.most()
                && *moment <= MOST_MOMENT
                && piece_len(what) <= LONGEST_PIECE
        }
        HallEvent::Tick { moment } => *moment <= MOST_MOMENT,
    }
}

/// Returns whether a log with these numbers of children can have the events. Scripts are numbered 1
/// to 64. A moment is at most 9,000,000,000,000,000 milliseconds, and a piece at most 4,096 bytes.
pub fn fits(numbers: ChildNumbers, events: &[HallEvent]) -> bool
    ensures { Decides result (AllFit numbers events.now) }
{
    events.iter().all(|event| fits_alone(numbers, event))
}

/// Returns the numbers of children in the log that `write_log` writes of these events.
#[tactic(auto, using(crate::proofs::Whole::in_version_2, crate::proofs::Whole::in_version_3))]
fn numbers_of(events: &[HallEvent]) -> ChildNumbers
    requires { AllFit To999 events.now }
    ensures value { result ≡ numbers_meant events.now }
    ensures fit { AllFit result events.now }
{
    if fits(ChildNumbers::To16, events) {
        ChildNumbers::To16
    } else {
        ChildNumbers::To999
    }
}

/// Returns the first line of a log in version 2 or 3, without its newline.
fn version_line(numbers: ChildNumbers) -> &'static [u8]
    ensures { result.now ≡ version_name numbers }
{
    match numbers {
        ChildNumbers::To16 => b"exprun-log 2",
        ChildNumbers::To999 => b"exprun-log 3",
    }
}

/// Appends the first line of a log in version 2 or 3.
pub fn push_heading(text: &mut Text, numbers: ChildNumbers) -> Result<(), AllocError>
    ensures { OnOk result (text.new ≡ text.old ++ heading numbers) }
{
    text.extend(version_line(numbers))?;
    end_line(text)
}

/// Appends one line per event.
pub fn push_lines(alloc: Global, text: &mut Text, events: &[HallEvent]) -> Result<(), AllocError>
    ensures text { OnOk result (text.new ≡ text.old ++ lines_text events.now) }
    ensures bytes { OnOk result (AllByRecursion IsOfBytes events.now) }
{
    'events: for event in events {
        tell_event_bytes(event);
        push_line(alloc, text, event)?;
    }
    Ok(())
}

/// Appends the last line of a log in version 2 or 3. `count` is the number of events before it.
pub fn push_total(alloc: Global, text: &mut Text, count: u64) -> Result<(), AllocError>
    ensures { OnOk result (text.new ≡ text.old ++ total_line count) }
{
    text.extend(b"total")?;
    push_number(alloc, text, count)?;
    end_line(text)
}

/// Returns the log of these events: in version 2 if all children are numbered 1 to 16, otherwise in
/// version 3. Requires that they fit into version 3.
pub fn write_log(alloc: Global, events: &[HallEvent]) -> Result<Text, AllocError>
    requires { AllFit To999 events.now }
    ensures { IfOk result (λ t. CountedLog (numbers_meant events.now) t events.now) }
{
    let numbers = numbers_of(events);
    let mut text = Text::new(alloc);
    push_heading(&mut text, numbers)?;
    push_lines(alloc, &mut text, events)?;
    push_total(alloc, &mut text, events.len() as u64)?;
    Ok(text)
}
