//! The endings of scripts.

/// How a script ends.
#[derive(Clone, Copy, PartialEq, Eq)]
pub enum Ending {
    /// The script called `exit` with this status, or reached its end.
    Exit(u8),
    /// An error ended the script.
    Error,
    /// The script reached the limit on steps.
    StepLimit,
    /// The script reached the time limit.
    TimeLimit,
    /// Memory was refused.
    Memory,
    /// The script is waiting and has not ended.
    Waiting,
}
