//! Gates for requests.

/// Decides when a request may be carried out, so that requests of several scripts can be ordered.
pub trait Gate {
    /// Returns whether a request of this script to this child may be carried out now. `turn` is the
    /// number of earlier refusals.
    fn pass(&self, script: u8, child: u8, turn: u64) -> bool;
}
