//! Gives scripts up.

/// Says whether a worker gives up its scripts before they have ended.
pub trait Stopping {
    /// Returns whether the worker gives up. Once true, it must stay true.
    fn is_stopped(&mut self) -> bool {
        false
    }
}
