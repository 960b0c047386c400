//! Clocks.

/// A clock. It may go back; its reader must handle that.
pub trait Clock {
    /// Returns the time in milliseconds since an origin of the clock's own.
    fn now(&mut self) -> u64;
}
