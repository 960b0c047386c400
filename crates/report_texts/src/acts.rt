//! The text of requests to a child.

ghost use Rattle.std.specs.Prelude.{◌≡◌, ◌++◌, OnOk};
ghost use Rattle.report_texts.specs.Acts.{spelled, words_part, act_text};

use crate::escape::push_quoted;
use crate::texts::push_hex;
use session::Act;
use std::alloc::{AllocError, Global};
use tcl_words::Text;

/// How bytes are written.
#[derive(Clone, Copy)]
pub enum Spelling {
    /// In hexadecimal, or `-` if empty.
    Hex,
    /// Between quotes.
    Quoted,
}

fn push_spelled(
    alloc: Global,
    text: &mut Text,
    spelling: Spelling,
    bytes: &[u8],
) -> Result<(), AllocError>
    ensures { OnOk result (text.new ≡ text.old ++ spelled spelling bytes.now) }
{
    match spelling {
        Spelling::Hex => push_hex(alloc, text, bytes),
        Spelling::Quoted => push_quoted(alloc, text, bytes),
    }
}

/// Appends the words of a program, each after a space.
fn push_words(
    alloc: Global,
    text: &mut Text,
    spelling: Spelling,
    words: &[Text],
) -> Result<(), AllocError>
    ensures { OnOk result (text.new ≡ text.old ++ words_part spelling words.now) }
{
    for word in words {
        text.push(b' ')?;
        push_spelled(alloc, text, spelling, word.as_slice())?;
    }
    Ok(())
}

/// Appends a request to a child.
pub fn push_act(
    alloc: Global,
    text: &mut Text,
    spelling: Spelling,
    act: &Act,
) -> Result<(), AllocError>
    ensures { OnOk result (text.new ≡ text.old ++ act_text spelling act.now) }
{
    match act {
        Act::Spawn(words) => {
            text.extend(b"spawn")?;
            push_words(alloc, text, spelling, words.as_slice())
        }
        Act::Write(bytes) => {
            text.extend(b"write ")?;
            push_spelled(alloc, text, spelling, bytes.as_slice())
        }
        Act::End => text.extend(b"end"),
        Act::Close => text.extend(b"close"),
        Act::Wait => text.extend(b"wait"),
    }
}
