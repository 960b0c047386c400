//! Changes of the environment, as commands of the shell.

ghost use Rattle.std.specs.Prelude.{◌≡◌, ◌++◌, Some, IfOk, OnOk};
ghost use Rattle.std.specs.List.{list_all};
ghost use Rattle.sh_words.specs.Reading.{is_name as is_name_of, is_name_byte as is_name_byte_of, sh_commands};
ghost use Rattle.sh_words.specs.Changes.{AreNamed, assignment, change_text, changes_text, change_commands};

use crate::quoting::quoted;
use std::alloc::{AllocError, Global};
use tcl_words::Text;

/// A change of the environment that a program starts with.
#[derive(Drop)]
pub enum EnvironmentChange {
    /// The variable with this name is removed.
    Removed(Text),
    /// The variable with the first text as its name gets the second one as its value.
    Set(Text, Text),
}

/// Returns whether a byte may stand in the name of a variable.
fn is_name_byte(b: u8) -> bool
    ensures { result ≡ is_name_byte_of b }
{
    b.is_ascii_alphanumeric() || b == b'_'
}

/// Returns whether each byte may stand in the name of a variable.
fn are_name_bytes(bytes: &[u8]) -> bool
    ensures { result ≡ list_all is_name_byte_of bytes.now }
{
    bytes.iter().all(|b| is_name_byte(*b))
}

/// Returns whether bytes are the name of a variable: a letter or `_`, and then letters, digits
/// and `_`.
pub fn is_name(bytes: &[u8]) -> bool
    ensures { result ≡ is_name_of bytes.now }
{
    match bytes {
        [] => false,
        [first, ..] => !first.is_ascii_digit() && are_name_bytes(bytes),
    }
}

/// Returns `NAME=VALUE`.
fn assigned(alloc: Global, name: &[u8], value: &[u8]) -> Result<Text, AllocError>
    ensures { IfOk result (λ t. t ≡ assignment name.now value.now) }
{
    let mut text = Text::from_slice(alloc, name)?;
    text.push(b'=')?;
    text.extend(value)?;
    Ok(text)
}

/// Appends the command that makes a change, and `; `.
fn push_change(out: &mut Text, alloc: Global, change: &EnvironmentChange) -> Result<(), AllocError>
    ensures { OnOk result (out.new ≡ out.old ++ change_text change.now) }
{
    match change {
        EnvironmentChange::Removed(name) => {
            out.extend(b"unset ")?;
            out.extend(name.as_slice())?;
        }
        EnvironmentChange::Set(name, value) => {
            let pair = assigned(alloc, name.as_slice(), value.as_slice())?;
            let word = quoted(alloc, pair.as_slice())?;
            out.extend(b"export ")?;
            out.extend(word.as_slice())?;
        }
    }
    out.extend(b"; ")?;
    Ok(())
}

/// Returns the commands that make changes, each followed by `; `. If the names of removed variables
/// are names, the shell reads these commands.
pub(crate) fn changes_made(alloc: Global, changes: &[EnvironmentChange]) -> Result<Text, AllocError>
    ensures text { IfOk result (λ t. t ≡ changes_text changes.now) }
    ensures read { AreNamed changes.now → IfOk result (λ t. sh_commands t ≡ Some (change_commands changes.now)) }
{
    let mut out = Text::new(alloc);
    for change in changes {
        push_change(&mut out, alloc, change)?;
    }
    Ok(out)
}
