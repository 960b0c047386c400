//! The text of patterns and keywords, as they are written in a list.

ghost use Rattle.std.specs.Prelude.{◌≡◌, ◌++◌, IfOk, OnOk};
ghost use Rattle.course_texts.specs.Patterns.{anchor, is_mark as is_mark_of, byte_text, single_text, element_text, elements_text, glob_text as glob_text_of, bare_text, bare_elements, bare_glob as bare_glob_of, hides as hides_of, is_hidden as is_hidden_of, keyword_text as keyword_text_of, flagged, pattern_text, want_text};

use crate::shown::shown;
use exp_glob::{Element, Single};
use exp_match::{Keyword, Want};
use report_texts::push_quoted;
use secret_words::{Secret, masked};
use std::alloc::{AllocError, Global};
use tcl_words::Text;

/// Returns whether a byte needs a backslash before it in a glob pattern to stand for itself.
fn is_mark(byte: u8) -> bool
    ensures { result ≡ is_mark_of byte }
{
    byte == b'*' || byte == b'?' || byte == b'[' || byte == b'\\' || byte == b'^' || byte == b'$'
}

fn push_byte(text: &mut Text, byte: u8) -> Result<(), AllocError>
    ensures { OnOk result (text.new ≡ text.old ++ byte_text byte) }
{
    if is_mark(byte) {
        text.push(b'\\')?;
    }
    text.push(byte)
}

fn push_single(text: &mut Text, single: &Single) -> Result<(), AllocError>
    ensures { OnOk result (text.new ≡ text.old ++ single_text single.now) }
{
    match single {
        Single::Any => text.extend(b"?"),
        Single::Byte(byte) => push_byte(text, *byte),
        Single::Class(members) => {
            text.extend(b"[")?;
            text.extend(members.as_slice())?;
            text.extend(b"]")
        }
    }
}

fn push_element(text: &mut Text, element: &Element) -> Result<(), AllocError>
    ensures { OnOk result (text.new ≡ text.old ++ element_text element.now) }
{
    match element {
        Element::Star => text.extend(b"*"),
        Element::One(single) => push_single(text, single),
        Element::End => text.extend(b"$"),
    }
}

fn push_elements(text: &mut Text, elements: &[Element]) -> Result<(), AllocError>
    ensures { OnOk result (text.new ≡ text.old ++ elements_text elements.now) }
{
    for element in elements {
        push_element(text, element)?;
    }
    Ok(())
}

/// Returns the text of elements.
pub(crate) fn elements_text(alloc: Global, elements: &[Element]) -> Result<Text, AllocError>
    ensures { IfOk result (λ t. t ≡ elements_text elements.now) }
{
    let mut text = Text::new(alloc);
    push_elements(&mut text, elements)?;
    Ok(text)
}

/// Returns what stands before the elements of a glob pattern. If `anchored`, it matches only at the
/// start.
fn anchor(alloc: Global, anchored: bool) -> Result<Text, AllocError>
    ensures { IfOk result (λ t. t ≡ anchor anchored) }
{
    let mut text = Text::new(alloc);
    if anchored {
        text.extend(b"^")?;
    }
    Ok(text)
}

/// Returns a text of the glob pattern with these elements. If `anchored`, it matches only at the
/// start.
pub(crate) fn glob_text(
    alloc: Global,
    anchored: bool,
    elements: &[Element],
) -> Result<Text, AllocError>
    ensures { IfOk result (λ t. t ≡ glob_text_of anchored elements.now) }
{
    let mut text = anchor(alloc, anchored)?;
    push_elements(&mut text, elements)?;
    Ok(text)
}

/// Appends an element. A byte that stands for itself is not escaped.
fn push_bare(text: &mut Text, element: &Element) -> Result<(), AllocError>
    ensures { OnOk result (text.new ≡ text.old ++ bare_text element.now) }
{
    match element {
        Element::One(Single::Byte(byte)) => text.push(*byte),
        Element::One(Single::Any) => push_element(text, element),
        Element::One(Single::Class(_)) => push_element(text, element),
        Element::Star => push_element(text, element),
        Element::End => push_element(text, element),
    }
}

/// Returns the text of a glob pattern without escapes, as in a pattern that was made from a secret.
fn bare_glob(alloc: Global, anchored: bool, elements: &[Element]) -> Result<Text, AllocError>
    ensures { IfOk result (λ t. t ≡ bare_glob_of anchored elements.now) }
{
    let mut text = anchor(alloc, anchored)?;
    for element in elements {
        push_bare(&mut text, element)?;
    }
    Ok(text)
}

/// Returns whether a secret occurs in bytes.
fn hides(alloc: Global, secrets: &[Secret], bytes: &[u8]) -> Result<bool, AllocError>
    ensures { IfOk result (λ b. b ≡ hides_of secrets.now bytes.now) }
{
    if secrets.is_empty() {
        return Ok(false);
    }
    let shown = masked(alloc, secrets, bytes)?;
    Ok(shown.as_slice() != bytes)
}

/// Returns whether a secret occurs in a pattern.
pub(crate) fn is_hidden(alloc: Global, secrets: &[Secret], want: &Want) -> Result<bool, AllocError>
    ensures { IfOk result (λ b. b ≡ is_hidden_of secrets.now want.now) }
{
    if secrets.is_empty() {
        return Ok(false);
    }
    match want {
        Want::Exact { text, .. } => hides(alloc, secrets, text.as_slice()),
        Want::Glob { glob, .. } => {
            let elements = glob.elements.as_slice();
            let bare = bare_glob(alloc, glob.anchored, elements)?;
            if hides(alloc, secrets, bare.as_slice())? {
                return Ok(true);
            }
            let text = glob_text(alloc, glob.anchored, elements)?;
            hides(alloc, secrets, text.as_slice())
        }
        Want::Regular(pattern) => hides(alloc, secrets, pattern.source()),
        Want::Keyword(_) => Ok(false),
    }
}

/// Returns the text of a glob pattern as it is shown. If a secret occurs in it, it isn't escaped.
fn shown_glob(
    alloc: Global,
    secrets: &[Secret],
    anchored: bool,
    elements: &[Element],
) -> Result<Text, AllocError>
    ensures { IfOk result (λ t. t ≡ pattern_text secrets.now anchored elements.now) }
{
    if !secrets.is_empty() {
        let bare = bare_glob(alloc, anchored, elements)?;
        if hides(alloc, secrets, bare.as_slice())? {
            return shown(alloc, secrets, bare);
        }
    }
    shown(alloc, secrets, glob_text(alloc, anchored, elements)?)
}

fn keyword_text(keyword: Keyword) -> &'static [u8]
    ensures { result.now ≡ keyword_text_of keyword }
{
    match keyword {
        Keyword::Eof => b"eof",
        Keyword::Timeout => b"timeout",
        Keyword::Default => b"default",
        Keyword::FullBuffer => b"full_buffer",
    }
}

/// Appends a pattern after its flags.
#[tactic(auto, unfolding(crate::specs::Patterns::flagged))]
fn push_flagged(
    alloc: Global,
    text: &mut Text,
    nocase: bool,
    flag: &[u8],
    pattern: &[u8],
) -> Result<(), AllocError>
    ensures { OnOk result (text.new ≡ text.old ++ flagged nocase flag.now pattern.now) }
{
    if nocase {
        text.extend(b"-nocase ")?;
    }
    text.extend(flag)?;
    push_quoted(alloc, text, pattern)
}

/// Appends the pattern or keyword of an entry, as it is written in the list, with names in place of
/// secrets.
pub fn push_want(
    alloc: Global,
    text: &mut Text,
    secrets: &[Secret],
    want: &Want,
) -> Result<(), AllocError>
    ensures { OnOk result (text.new ≡ text.old ++ want_text secrets.now want.now) }
{
    match want {
        Want::Exact {
            text: pattern,
            nocase,
        } => {
            let pattern = shown(alloc, secrets, pattern.copied(alloc)?)?;
            push_flagged(alloc, text, *nocase, b"-ex ", pattern.as_slice())
        }
        Want::Glob { glob, nocase } => {
            let pattern = shown_glob(alloc, secrets, glob.anchored, glob.elements.as_slice())?;
            push_flagged(alloc, text, *nocase, b"-gl ", pattern.as_slice())
        }
        Want::Regular(pattern) => {
            let source = shown(alloc, secrets, Text::from_slice(alloc, pattern.source())?)?;
            push_flagged(alloc, text, pattern.nocase(), b"-re ", source.as_slice())
        }
        Want::Keyword(keyword) => text.extend(keyword_text(*keyword)),
    }
}
