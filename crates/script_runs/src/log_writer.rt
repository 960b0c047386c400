//! The writer of the log of a run's record.

ghost use Rattle.std.specs.Prelude.{◌≡◌, ◌≤◌, None};

use child_events::Counted;
use std::alloc::Global;

/// Why not all of a record was written.
#[derive(Clone, Copy, PartialEq, Eq)]
pub enum LogWriteFault {
    /// A write failed, or the greatest number of writes was not enough.
    Write,
    /// Memory was refused.
    Memory,
}

/// Writes the log of a record to a device. After an error, it writes nothing more.
#[derive(Drop)]
pub struct LogWriter<L: Drop> {
    pub(crate) alloc: Global,
    pub log: Counted<L>,
    /// The number of events written.
    pub(crate) count: u64,
    pub fault: Option<LogWriteFault>,
    pub ghost sound: { fault ≡ None → (log.failures ≡ 0) × (log.calls ≤ 1099511627776) },
}
