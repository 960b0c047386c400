//! Reports on one line each.

ghost use Rattle.std.specs.Prelude.{◌≡◌, ◌++◌, ◌∷◌, [], IfOk, OnOk};
ghost use Rattle.hex.specs.Hex.{encode_lower};
ghost use Rattle.report_texts.specs.Line.{is_control as is_control_of, line_byte, line_text, summary_line};

use crate::texts::push_head;
use session::Report;
use std::alloc::{AllocError, Global};
use tcl_words::Text;

/// Returns whether a byte is an ASCII control character.
fn is_control(byte: u8) -> bool
    ensures { result ≡ is_control_of byte }
{
    byte < 32 || byte == 127
}

/// Appends a label and a byte as two hexadecimal digits.
pub fn push_escaped(
    alloc: Global,
    text: &mut Text,
    label: &[u8],
    byte: u8,
) -> Result<(), AllocError>
    ensures { OnOk result (text.new ≡ text.old ++ label.now ++ encode_lower (byte ∷ [])) }
{
    text.extend(label)?;
    let digits = hex::encode(alloc, [byte].as_slice())?;
    text.extend(digits.as_bytes())
}

/// Appends a byte, escaped if it would end the line.
pub fn push_line_byte(alloc: Global, text: &mut Text, byte: u8) -> Result<(), AllocError>
    ensures { OnOk result (text.new ≡ text.old ++ line_byte byte) }
{
    if byte == b'\\' {
        return text.extend(b"\\\\");
    }
    if is_control(byte) {
        return push_escaped(alloc, text, b"\\x", byte);
    }
    text.push(byte)
}

/// Appends bytes, escaped if they would end the line.
pub fn push_line(alloc: Global, text: &mut Text, bytes: &[u8]) -> Result<(), AllocError>
    ensures { OnOk result (text.new ≡ text.old ++ line_text bytes.now) }
{
    for byte in bytes {
        push_line_byte(alloc, text, *byte)?;
    }
    Ok(())
}

/// Returns the line of script `number` in a summary, with its file.
#[tactic(auto, unfolding(crate::specs::Line::summary_line))]
pub fn summary_text(
    alloc: Global,
    file: &[u8],
    number: usize,
    report: &Report,
) -> Result<Text, AllocError>
    ensures { IfOk result (λ t. t ≡ summary_line file.now number report.now) }
{
    let mut text = Text::new(alloc);
    push_head(alloc, &mut text, number, report)?;
    text.extend(b" file=")?;
    push_line(alloc, &mut text, file)?;
    text.push(b'\n')?;
    Ok(text)
}
