//! Shows the contents of a match buffer.

use crate::calls::{name_in, number};
use crate::complaint::Complaint;
use crate::spell::{alloc_of, push_hex_line};
use match_buffer::Buffer;
use tcl_words::Text;

/// Carries out `trim`, or another call with its word.
fn called(buffer: &mut Buffer, call: &[Text]) -> Result<(), Complaint> {
    match call {
        [name] if name.as_slice() == b"trim".as_slice() => buffer.trim(),
        [name, word] => change(buffer, name_in(name.as_slice()), word)?,
        _ => return Err(Complaint::Call),
    }
    Ok(())
}

/// Carries out `take` and a number, `resize` and a number, or `add` and bytes.
fn change(buffer: &mut Buffer, name: &str, word: &Text) -> Result<(), Complaint> {
    match name {
        "add" => buffer.add(word.as_slice())?,
        "resize" => buffer.resize(number(word)?)?,
        "take" => {
            let count = number(word)?;
            if buffer.ring().len() < count {
                return Err(Complaint::Call);
            }
            buffer.take(count);
        }
        _ => return Err(Complaint::Call),
    }
    Ok(())
}

/// Shows a buffer. The first call contains the buffer's size. For each other call, appends a line
/// of the buffer's contents after it.
pub fn push_buffer(text: &mut Text, calls: &[Vec<Text>]) -> Result<(), Complaint> {
    let alloc = alloc_of(text);
    let [first, rest @ ..] = calls else {
        return Ok(());
    };
    let [size] = first.as_slice() else {
        return Err(Complaint::Call);
    };
    let mut buffer = Buffer::new(alloc, number(size)?)?;
    'calls: for call in rest {
        called(&mut buffer, call.as_slice())?;
        push_hex_line(text, buffer.bytes())?;
    }
    Ok(())
}
