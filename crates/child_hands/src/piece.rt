//! Pieces of a child's output.

ghost use Rattle.std.specs.Prelude.{◌≡◌, ◌≤◌, [], length, vec_len, vec_capacity, IfOk};

use std::alloc::{AllocError, Global};
use std::marker::Model;
use tcl_words::Text;

/// 1 to 4,096 bytes that a child wrote. A contract sees a list.
#[derive(Drop)]
pub struct Piece {
    text: Text,
}

impl Model for Piece {
    ghost use Rattle.std.specs.Prelude.{ℕ, List, ◌≤◌, length};

    ghost Value = { List ℕ };

    ghost view = { λ p. p.text };

    ghost invariant = { λ p. (1 ≤ length p.text) × (length p.text ≤ 4096) };
}

impl Piece {
    /// Creates a piece from a copy of these bytes. Requires 1 to 4,096 bytes.
    pub fn new(alloc: Global, bytes: &[u8]) -> Result<Piece, AllocError>
        requires { (1 ≤ length bytes.now) × (length bytes.now ≤ 4096) }
        ensures { IfOk result (λ p. (p ≡ bytes.now) × (1 ≤ length p) × (length p ≤ 4096)) }
    {
        Ok(Piece {
            text: Text::from_slice(alloc, bytes)?,
        })
    }

    /// Returns the bytes.
    pub fn text(&self) -> &Text
        ensures bytes { result.now ≡ self.now }
        ensures size { (1 ≤ length self.now) × (length self.now ≤ 4096) }
    {
        &self.text
    }

    /// Returns the bytes without copying them.
    pub fn into_text(self) -> Text
        ensures bytes { result ≡ self }
        ensures size { (1 ≤ length self) × (length self ≤ 4096) }
    {
        let Piece { text } = self;
        text
    }

    /// Returns a copy of the bytes in a buffer that is already allocated. Requires an empty buffer
    /// with a capacity of at least 4,096 bytes.
    pub fn copied_into(&self, room: Vec<u8>) -> Text
        requires { (room.items ≡ []) × (4096 ≤ vec_capacity room) }
        ensures { result ≡ self.now }
    {
        let mut bytes = room;
        let Ok(()) = bytes.extend_from_slice(self.text().as_slice()) else {
            unreachable!()
        };
        Text { bytes }
    }
}
