//! Orders to a hand.

use expect_core::Request;

/// What an item asks of a hand.
#[derive(Drop)]
pub enum Instruction {
    /// Carry out a request.
    Do(Request),
    /// End.
    Halt,
    /// Do nothing: the item isn't for a hand.
    Nothing,
}
