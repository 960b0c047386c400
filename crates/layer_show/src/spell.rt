//! Bytes, parts and words as text.

ghost use Rattle.std.specs.Prelude.{◌≡◌, ◌↔◌, ◌++◌, None, OnOk};
ghost use Rattle.layer_show.specs.Shown.{hex_text, hex_line};

use std::alloc::{AllocError, Global};
use tcl_words::{Command, Part, Text, WordFault};

/// Returns the allocator of a text.
pub fn alloc_of(text: &Text) -> Global {
    *text.bytes.allocator()
}

/// Appends bytes in hexadecimal, or a dash for none.
pub fn push_hex(text: &mut Text, bytes: &[u8]) -> Result<(), AllocError>
    ensures { OnOk result (text.new ≡ text.old ++ hex_text bytes.now) }
{
    if bytes.is_empty() {
        return text.push(b'-');
    }
    let digits = hex::encode(alloc_of(text), bytes)?;
    text.extend(digits.as_bytes())
}

/// Appends a line of bytes in hexadecimal.
pub fn push_hex_line(text: &mut Text, bytes: &[u8]) -> Result<(), AllocError>
    ensures { OnOk result (text.new ≡ text.old ++ hex_line bytes.now) }
{
    push_hex(text, bytes)?;
    text.push(b'\n')
}

/// Appends a label and bytes in hexadecimal.
pub fn push_labelled(text: &mut Text, label: &[u8], bytes: &[u8]) -> Result<(), AllocError>
    ensures { OnOk result (text.new ≡ text.old ++ label.now ++ hex_text bytes.now) }
{
    text.extend(label)?;
    push_hex(text, bytes)
}

/// Appends a formatted string.
pub fn push_string(text: &mut Text, string: Result<String, AllocError>) -> Result<(), AllocError> {
    text.extend(string?.as_bytes())
}

/// Appends parts, each after a space. The index of an array's element follows in parentheses.
pub fn push_parts(text: &mut Text, parts: &Vec<Part>) -> Result<(), AllocError> {
    'parts: for part in parts {
        match part {
            Part::Lit(bytes) => push_labelled(text, b" lit:", bytes.as_slice())?,
            Part::Var(name, None) => push_labelled(text, b" var:", name.as_slice())?,
            Part::Var(name, Some(index)) => {
                push_labelled(text, b" element:", name.as_slice())?;
                text.extend(b" (")?;
                push_parts(text, index)?;
                text.extend(b" )")?;
            }
            Part::Script(bytes) => push_labelled(text, b" script:", bytes.as_slice())?,
        }
    }
    Ok(())
}

/// Appends a command's line: `word` or `expand` before the parts of each word.
pub fn push_command(text: &mut Text, command: &Command) -> Result<(), AllocError> {
    text.extend(b"command")?;
    'words: for word in &command.words {
        text.extend(if word.expand { b" expand" } else { b" word" })?;
        push_parts(text, &word.parts)?;
    }
    text.push(b'\n')
}

/// Returns the name of an error. `None` for `Memory`, which is not an error of the text.
pub fn fault_name(fault: WordFault) -> Option<&'static [u8]>
    ensures { result ≡ None ↔ (fault ≡ WordFault.Memory) }
{
    match fault {
        WordFault::MissingBrace => Some(b"MissingBrace"),
        WordFault::MissingBracket => Some(b"MissingBracket"),
        WordFault::MissingQuote => Some(b"MissingQuote"),
        WordFault::ExtraAfterQuote => Some(b"ExtraAfterQuote"),
        WordFault::ExtraAfterBrace => Some(b"ExtraAfterBrace"),
        WordFault::TooDeep => Some(b"TooDeep"),
        WordFault::Memory => None,
        WordFault::MissingParen => Some(b"MissingParen"),
    }
}
