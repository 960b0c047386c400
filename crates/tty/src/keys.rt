//! The special characters of a terminal.

ghost use Rattle.std.specs.Prelude.{◌≡◌, IfOk};
ghost use Rattle.tty.specs.Editing.{ends_line};
ghost use Rattle.tty.specs.Handed.{read_byte, received};
ghost use Rattle.tty.specs.Buffer.{clears};

use crate::Modes;
use std::alloc::{AllocError, Global};
use tcl_words::Text;

/// Ends a line.
pub(crate) const NL: u8 = 0x0a;
/// Becomes `NL` under `icrnl`.
const CR: u8 = 0x0d;
/// Ends a line, or the input. It is not handed over.
pub(crate) const EOF: u8 = 0x04;
/// Removes the last byte of the line.
pub(crate) const ERASE: u8 = 0x7f;
/// Removes the line.
pub(crate) const KILL: u8 = 0x15;

pub(crate) fn ends_line(b: u8) -> bool
    ensures { result ≡ ends_line b }
{
    b == NL || b == EOF
}

/// Returns whether the line is empty after this byte.
pub(crate) fn clears(b: u8) -> bool
    ensures { result ≡ clears b }
{
    ends_line(b) || b == KILL
}

/// Returns a byte as the terminal reads it.
pub(crate) fn read_byte(modes: Modes, b: u8) -> u8
    ensures { result ≡ read_byte modes b }
{
    if b == CR && modes.icrnl { NL } else { b }
}

/// Returns bytes as the terminal reads them.
pub(crate) fn received(alloc: Global, modes: Modes, bytes: &[u8]) -> Result<Text, AllocError>
    ensures { IfOk result (λ t. t ≡ received modes bytes.now) }
{
    Ok(Text {
        bytes: bytes.iter().map(|b| read_byte(modes, *b)).collect(alloc)?,
    })
}
