//! The units of a word.

use crate::shapes::Part;
use arrayvec::ArrayVec;

/// A unit of a word: bytes, which join those around them, or a part of its own.
#[derive(Drop)]
pub(crate) enum Token {
    /// A byte that stands for itself.
    Byte(u8),
    /// The bytes that an escape stands for.
    Escape(ArrayVec<u8, 3>),
    /// A variable or a script.
    Substitution(Part),
}
