//! Reports as JSON objects.

ghost use Rattle.std.specs.Prelude.{◌≡◌, ◌++◌, IfOk, OnOk};
ghost use Rattle.std.specs.Str.{is_utf8};
ghost use Rattle.hex.specs.Hex.{encode_lower};
ghost use Rattle.report_texts.specs.Report.{ask_words};
ghost use Rattle.report_texts.specs.Json.{item_front, string_byte, string_bytes, string_text, text_or_null, member_both, object_head, object_counts, later_asks, asks_items, asks_member, var_object, later_vars, vars_items, vars_member, object_texts, object_shown, report_object, array_item, object_line};

use crate::asks::push_ask_words;
use crate::line::push_escaped;
use crate::texts::{Shown, push_ending, push_labelled, total};
use session::{Ending, Report, Request};
use std::alloc::{AllocError, Global};
use tcl_words::Text;

/// Appends a byte of a string.
fn push_string_byte(alloc: Global, text: &mut Text, byte: u8) -> Result<(), AllocError>
    ensures { OnOk result (text.new ≡ text.old ++ string_byte byte) }
{
    if byte == b'"' {
        return text.extend(b"\\\"");
    }
    if byte == b'\\' {
        return text.extend(b"\\\\");
    }
    if byte == b'\n' {
        return text.extend(b"\\n");
    }
    if byte == b'\r' {
        return text.extend(b"\\r");
    }
    if byte < 32 {
        return push_escaped(alloc, text, b"\\u00", byte);
    }
    text.push(byte)
}

fn push_string_bytes(alloc: Global, text: &mut Text, bytes: &[u8]) -> Result<(), AllocError>
    ensures { OnOk result (text.new ≡ text.old ++ string_bytes bytes.now) }
{
    for byte in bytes {
        push_string_byte(alloc, text, *byte)?;
    }
    Ok(())
}

/// Appends a string.
fn push_string(alloc: Global, text: &mut Text, bytes: &[u8]) -> Result<(), AllocError>
    ensures { OnOk result (text.new ≡ text.old ++ string_text bytes.now) }
{
    text.push(b'"')?;
    push_string_bytes(alloc, text, bytes)?;
    text.push(b'"')
}

/// Returns whether the bytes are UTF-8.
fn is_text(bytes: &[u8]) -> bool
    ensures { result ≡ is_utf8 bytes.now }
{
    match std::str::from_utf8(bytes) {
        Ok(_) => true,
        Err(_) => false,
    }
}

/// Appends bytes as a string, or `null` if they aren't UTF-8.
fn push_text_or_null(alloc: Global, text: &mut Text, bytes: &[u8]) -> Result<(), AllocError>
    ensures { OnOk result (text.new ≡ text.old ++ text_or_null bytes.now) }
{
    if !is_text(bytes) {
        return text.extend(b"null");
    }
    push_string(alloc, text, bytes)
}

/// Appends bytes in hexadecimal.
fn push_digits(alloc: Global, text: &mut Text, bytes: &[u8]) -> Result<(), AllocError>
    ensures { OnOk result (text.new ≡ text.old ++ encode_lower bytes.now) }
{
    let digits = hex::encode(alloc, bytes)?;
    text.extend(digits.as_bytes())
}

/// Appends two members: bytes as a string, and in hexadecimal.
#[tactic(auto, unfolding(crate::specs::Json::member_both))]
fn push_both(alloc: Global, text: &mut Text, name: &[u8], bytes: &[u8]) -> Result<(), AllocError>
    ensures { OnOk result (text.new ≡ text.old ++ member_both name.now bytes.now) }
{
    text.push(b'"')?;
    text.extend(name)?;
    text.extend(b"\":")?;
    push_text_or_null(alloc, text, bytes)?;
    text.extend(b",\"")?;
    text.extend(name)?;
    text.extend(b"_hex\":\"")?;
    push_digits(alloc, text, bytes)?;
    text.push(b'"')
}

/// Appends the first members of script `number`'s object.
#[tactic(auto, unfolding(crate::specs::Json::object_head))]
fn push_object_head(
    alloc: Global,
    text: &mut Text,
    file: &[u8],
    number: usize,
    ending: Ending,
) -> Result<(), AllocError>
    ensures { OnOk result (text.new ≡ text.old ++ object_head file.now number ending) }
{
    push_labelled(alloc, text, b"{\"script\":", number as u128)?;
    text.extend(b",\"file\":")?;
    push_text_or_null(alloc, text, file)?;
    text.extend(b",\"ending\":\"")?;
    push_ending(alloc, text, ending)?;
    text.extend(b"\",")
}

#[tactic(auto, unfolding(crate::specs::Json::object_counts))]
fn push_counts(alloc: Global, text: &mut Text, report: &Report) -> Result<(), AllocError>
    ensures { OnOk result (text.new ≡ text.old ++ object_counts report.now) }
{
    push_labelled(alloc, text, b",\"steps\":", u128::from(report.steps))?;
    push_labelled(alloc, text, b",\"sent\":", total(report.sent.as_slice()))?;
    text.push(b',')
}

/// Appends a request, as a string.
fn push_ask(alloc: Global, text: &mut Text, request: &Request) -> Result<(), AllocError>
    ensures { OnOk result (text.new ≡ text.old ++ string_text (ask_words request.now)) }
{
    let mut ask = Text::new(alloc);
    push_ask_words(alloc, &mut ask, request)?;
    push_string(alloc, text, ask.as_slice())
}

fn push_later_asks(alloc: Global, text: &mut Text, requests: &[Request]) -> Result<(), AllocError>
    ensures { OnOk result (text.new ≡ text.old ++ later_asks requests.now) }
{
    for request in requests {
        text.push(b',')?;
        push_ask(alloc, text, request)?;
    }
    Ok(())
}

fn push_asks(alloc: Global, text: &mut Text, requests: &[Request]) -> Result<(), AllocError>
    ensures { OnOk result (text.new ≡ text.old ++ asks_items requests.now) }
{
    match requests {
        [] => Ok(()),
        [first, rest @ ..] => {
            push_ask(alloc, text, first)?;
            push_later_asks(alloc, text, rest)
        }
    }
}

/// Appends the member of requests, if they are shown.
fn push_asks_member(
    alloc: Global,
    text: &mut Text,
    shown: bool,
    requests: &[Request],
) -> Result<(), AllocError>
    ensures { OnOk result (text.new ≡ text.old ++ asks_member shown requests.now) }
{
    if !shown {
        return Ok(());
    }
    text.extend(b",\"requests\":[")?;
    push_asks(alloc, text, requests)?;
    text.push(b']')
}

/// Appends the object of a variable.
#[tactic(auto, unfolding(crate::specs::Json::var_object))]
fn push_var(alloc: Global, text: &mut Text, name: &[u8], value: &[u8]) -> Result<(), AllocError>
    ensures { OnOk result (text.new ≡ text.old ++ var_object (name.now, value.now)) }
{
    text.push(b'{')?;
    push_both(alloc, text, b"name", name)?;
    text.push(b',')?;
    push_both(alloc, text, b"value", value)?;
    text.push(b'}')
}

fn push_later_vars(alloc: Global, text: &mut Text, vars: &[(Text, Text)]) -> Result<(), AllocError>
    ensures { OnOk result (text.new ≡ text.old ++ later_vars vars.now) }
{
    for var in vars {
        text.push(b',')?;
        push_var(alloc, text, var.0.as_slice(), var.1.as_slice())?;
    }
    Ok(())
}

fn push_vars(alloc: Global, text: &mut Text, vars: &[(Text, Text)]) -> Result<(), AllocError>
    ensures { OnOk result (text.new ≡ text.old ++ vars_items vars.now) }
{
    match vars {
        [] => Ok(()),
        [first, rest @ ..] => {
            push_var(alloc, text, first.0.as_slice(), first.1.as_slice())?;
            push_later_vars(alloc, text, rest)
        }
    }
}

/// Appends the member of variables, if they are shown.
fn push_vars_member(
    alloc: Global,
    text: &mut Text,
    shown: bool,
    vars: &[(Text, Text)],
) -> Result<(), AllocError>
    ensures { OnOk result (text.new ≡ text.old ++ vars_member shown vars.now) }
{
    if !shown {
        return Ok(());
    }
    text.extend(b",\"vars\":[")?;
    push_vars(alloc, text, vars)?;
    text.push(b']')
}

#[tactic(auto, unfolding(crate::specs::Json::object_texts))]
fn push_texts(alloc: Global, text: &mut Text, report: &Report) -> Result<(), AllocError>
    ensures { OnOk result (text.new ≡ text.old ++ object_texts report.now) }
{
    push_both(alloc, text, b"fault", report.fault.as_slice())?;
    push_counts(alloc, text, report)?;
    push_both(alloc, text, b"transcript", report.transcript.as_slice())
}

#[tactic(auto, unfolding(crate::specs::Json::object_shown))]
fn push_shown(
    alloc: Global,
    text: &mut Text,
    shown: Shown,
    report: &Report,
) -> Result<(), AllocError>
    ensures { OnOk result (text.new ≡ text.old ++ object_shown shown report.now) }
{
    push_asks_member(alloc, text, shown.requests, report.requests.as_slice())?;
    push_vars_member(alloc, text, shown.vars, report.vars.as_slice())
}

/// Appends the object of script `number`'s report.
#[tactic(auto, unfolding(crate::specs::Json::report_object))]
fn push_object(
    alloc: Global,
    text: &mut Text,
    shown: Shown,
    file: &[u8],
    number: usize,
    report: &Report,
) -> Result<(), AllocError>
    ensures { OnOk result (text.new ≡ text.old ++ report_object shown file.now number report.now) }
{
    push_object_head(alloc, text, file, number, report.ending)?;
    push_texts(alloc, text, report)?;
    push_shown(alloc, text, shown, report)?;
    text.push(b'}')
}

/// Appends the text before the object of script `number`.
fn push_before(text: &mut Text, number: usize) -> Result<(), AllocError>
    ensures { OnOk result (text.new ≡ text.old ++ item_front number) }
{
    if number == 1 {
        return text.push(b'\n');
    }
    text.extend(b",\n")
}

/// Returns the object of script `number`'s report, as an item of an array.
pub fn item_text(
    alloc: Global,
    shown: Shown,
    file: &[u8],
    number: usize,
    report: &Report,
) -> Result<Text, AllocError>
    ensures { IfOk result (λ t. t ≡ array_item shown file.now number report.now) }
{
    let mut text = Text::new(alloc);
    push_before(&mut text, number)?;
    push_object(alloc, &mut text, shown, file, number, report)?;
    Ok(text)
}

/// Returns the object of script `number`'s report, as a line.
pub fn line_text(
    alloc: Global,
    shown: Shown,
    file: &[u8],
    number: usize,
    report: &Report,
) -> Result<Text, AllocError>
    ensures { IfOk result (λ t. t ≡ object_line shown file.now number report.now) }
{
    let mut text = Text::new(alloc);
    push_object(alloc, &mut text, shown, file, number, report)?;
    text.push(b'\n')?;
    Ok(text)
}
