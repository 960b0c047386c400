//! Shows texts that were read.

ghost use Rattle.std.specs.Prelude.{◌≡◌, ◌++◌, ℕ, List, OnOk};
ghost use Rattle.tcl_words.specs.Lists.{ReadsAs};
ghost use Rattle.layer_show.specs.Shown.{hex_lines, list_shown, bad_list};

use crate::spell::{alloc_of, fault_name, push_command, push_hex_line, push_labelled, push_parts};
use std::alloc::AllocError;
use tcl_words::{
    ListFault, Packed, Text, Word, WordFault, next_command, one_list, operand, read_list,
    write_list,
};

/// Appends the line of an error, unless it is `Memory`.
fn push_fault(text: &mut Text, fault: WordFault) -> Result<(), AllocError> {
    let Some(name) = fault_name(fault) else {
        return Err(AllocError);
    };
    text.extend(b"fault ")?;
    text.extend(name)?;
    text.push(b'\n')
}

/// Appends an operand and the text after it.
fn push_found(text: &mut Text, word: &Word, left: &[u8]) -> Result<(), AllocError> {
    text.extend(b"operand")?;
    push_parts(text, &word.parts)?;
    push_labelled(text, b" left ", left)?;
    text.push(b'\n')
}

/// Appends the operand at the front of an expression's text and the text after it. Appends `none`
/// if there is no such operand, or the error.
pub fn push_operand(text: &mut Text, src: &[u8]) -> Result<(), AllocError> {
    match operand(alloc_of(text), src) {
        Ok(Some((word, len))) => push_found(text, &word, src.split_at(len).1),
        Ok(None) => text.extend(b"none\n"),
        Err(fault) => push_fault(text, fault),
    }
}

/// Appends a line for each command of a text, and then the error, if there is one.
pub fn push_commands(text: &mut Text, src: &[u8]) -> Result<(), AllocError> {
    let mut at = 0;
    'commands: for _ in 0..=src.len() {
        match next_command(alloc_of(text), src, at) {
            Ok(Some((command, end))) => {
                push_command(text, &command)?;
                at = end;
            }
            Ok(None) => return Ok(()),
            Err(fault) => return push_fault(text, fault),
        }
    }
    Ok(())
}

fn push_elements(text: &mut Text, list: &[Text]) -> Result<(), AllocError>
    ensures { OnOk result (text.new ≡ text.old ++ hex_lines list.now) }
{
    'elements: for element in list {
        push_hex_line(text, element.as_slice())?;
    }
    Ok(())
}

/// Appends a line for each element of a list, and a line for the list written again.
fn push_written(text: &mut Text, list: &Packed) -> Result<(), AllocError>
    ensures { OnOk result (text.new ≡ text.old ++ list_shown list.now) }
{
    let alloc = alloc_of(text);
    push_elements(text, list.texts(alloc)?.as_slice())?;
    push_hex_line(text, write_list(alloc, list)?.as_slice())
}

/// Appends the elements of a text and the list written again, or `bad list` if the text is not a
/// list.
pub fn push_list(text: &mut Text, src: &[u8]) -> Result<(), AllocError>
    ensures list { (l : List (List ℕ)) → ReadsAs src.now l → OnOk result (text.new ≡ text.old ++ list_shown l) }
    ensures bad { ((l : List (List ℕ)) → ¬ ReadsAs src.now l) → OnOk result (text.new ≡ text.old ++ bad_list) }
{
    one_list();
    match read_list(alloc_of(text), src) {
        Ok(list) => push_written(text, &list),
        Err(ListFault::BadList) => text.extend(b"bad list\n"),
        Err(ListFault::Memory) => Err(AllocError),
    }
}
