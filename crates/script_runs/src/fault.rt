//! Why a replay did not write all reports.

use child_events::LogFault;
use dialogue_sched::RunFault;
use std::alloc::AllocError;

/// Why not all reports were written.
#[derive(Clone, Copy, PartialEq, Eq)]
pub enum ReplayFault {
    /// A read of the log failed, or the log had no end after the greatest number of reads.
    Read,
    /// The log has a bad line. This is never `LogFault::Memory`.
    Log(LogFault),
    /// The scripts can't be run over the events. The reason is never memory.
    Run(RunFault),
    /// A write failed, or the greatest number of writes was not enough.
    Write,
    /// Memory was refused.
    Memory,
}

impl From<AllocError> for ReplayFault {
    ghost use Rattle.std.specs.Prelude.{◌≡◌};
    ghost use Rattle.script_runs.specs.declared.fault.ReplayFault.TheVariants.{Memory};

    ghost from_gives = { λ _ e. e ≡ Memory };

    fn from(_e: AllocError) -> ReplayFault {
        ReplayFault::Memory
    }
}
