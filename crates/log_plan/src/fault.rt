//! Why there is no plan.

use std::alloc::{AllocError, AllocFailed};

/// Why there is no plan.
#[derive(Clone, Copy, PartialEq, Eq)]
pub enum PlanFault {
    /// The source of the script is longer than a session accepts.
    SourceTooLong,
    /// The script got `MOST_ANSWERS` answers and starts at one place of the timeline, at this moment
    /// in milliseconds, and waits for another one.
    Unending(u64),
    /// Memory was refused.
    Memory,
}

impl From<AllocError> for PlanFault {
    ghost use Rattle.std.specs.Prelude.{◌≡◌};
    ghost use Rattle.log_plan.specs.declared.fault.PlanFault.TheVariants.{Memory};

    ghost from_gives = { λ _ e. e ≡ Memory };

    fn from(_e: AllocError) -> PlanFault {
        PlanFault::Memory
    }
}

impl<T: Drop> From<AllocFailed<T>> for PlanFault {
    ghost use Rattle.std.specs.Prelude.{◌≡◌};
    ghost use Rattle.log_plan.specs.declared.fault.PlanFault.TheVariants.{Memory};

    ghost from_gives = { λ _ e. e ≡ Memory };

    fn from(_e: AllocFailed<T>) -> PlanFault {
        PlanFault::Memory
    }
}
