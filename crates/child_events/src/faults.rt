//! The errors of bytes that are no log.

use std::alloc::{AllocError, AllocFailed};

/// The first error of bytes that are no log, with its line number, counted from 1.
#[derive(Clone, Copy, Debug, PartialEq, Eq)]
pub enum LogFault {
    /// No newline, an unknown first word, a wrong number of fields, an empty field or an unknown
    /// cause.
    Shape(usize),
    /// A field that should be a number and is none, or a moment or exit status above its limit.
    Number(usize),
    /// A piece that doesn't consist of pairs of lower-case hexadecimal digits.
    Hex(usize),
    /// A script number outside 1 to 64.
    NoSuchScript(usize),
    /// A child number that the version doesn't allow.
    NoSuchChild(usize),
    /// A line of more than 8,219 bytes, in version 3 8,220, or a piece of more than 4,096.
    TooLong(usize),
    /// A total that isn't the number of events before it, a line after it, or no total.
    Total(usize),
    /// A version that is neither 2 nor 3.
    Version(usize),
    /// Memory was refused.
    Memory,
}

impl From<AllocError> for LogFault {
    ghost use Rattle.std.specs.Prelude.{◌≡◌};
    ghost use Rattle.child_events.specs.declared.faults.LogFault.TheVariants.{Memory};

    ghost from_gives = { λ _ e. e ≡ Memory };

    fn from(_e: AllocError) -> LogFault {
        LogFault::Memory
    }
}

impl<T: Drop> From<AllocFailed<T>> for LogFault {
    ghost use Rattle.std.specs.Prelude.{◌≡◌};
    ghost use Rattle.child_events.specs.declared.faults.LogFault.TheVariants.{Memory};

    ghost from_gives = { λ _ e. e ≡ Memory };

    fn from(_e: AllocFailed<T>) -> LogFault {
        LogFault::Memory
    }
}
