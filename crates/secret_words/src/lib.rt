//! Replaces secrets in texts by their names.
//!
//! [`masked`] does it for a whole text. A [`Masker`] does it for a text that comes in pieces. It holds
//! back the end of a piece that may be the front of a secret. `specs/Masking` and `specs/Pieces` define
//! both.
#![tactic(auto)]

mod masker;
mod masking;
mod secrets;

pub use masker::{Masker, masker_of, pieces_law, unchanged_law};
pub use masking::masked;
pub use secrets::{Secret, Secrets};
