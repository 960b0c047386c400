//! The errors of a text that is no timeline.

use std::alloc::{AllocError, AllocFailed};

/// The first error of a text that is no timeline, cast or timing, with its line number, counted
/// from 1.
#[derive(Clone, Copy, PartialEq, Eq)]
pub enum TimelineFault {
    /// No line of a timeline: an unknown word, a missing word, or a word too many.
    Shape(usize),
    /// A moment that is no number, or is later than 9,000,000,000,000,000 milliseconds.
    Moment(usize),
    /// A moment before that of the previous line.
    Back(usize),
    /// A child number outside 1 to 16.
    Child(usize),
    /// An unknown cause.
    Cause(usize),
    /// A text without a closing quote, with an unknown escape, or followed by more than blanks.
    Text(usize),
    /// An exit status that is neither a number from 0 to 255 nor `killed`.
    Status(usize),
    /// A second line on the end of a child.
    Again(usize),
    /// No header of a cast of version 2 or 3.
    Header,
    /// No event of a cast, or no entry of a timing.
    Event(usize),
    /// Memory was refused.
    Memory,
}

impl From<AllocError> for TimelineFault {
    ghost use Rattle.std.specs.Prelude.{◌≡◌};
    ghost use Rattle.child_timeline.specs.declared.fault.TimelineFault.TheVariants.{Memory};

    ghost from_gives = { λ _ e. e ≡ Memory };

    fn from(_e: AllocError) -> TimelineFault {
        TimelineFault::Memory
    }
}

impl<T: Drop> From<AllocFailed<T>> for TimelineFault {
    ghost use Rattle.std.specs.Prelude.{◌≡◌};
    ghost use Rattle.child_timeline.specs.declared.fault.TimelineFault.TheVariants.{Memory};

    ghost from_gives = { λ _ e. e ≡ Memory };

    fn from(_e: AllocFailed<T>) -> TimelineFault {
        TimelineFault::Memory
    }
}
