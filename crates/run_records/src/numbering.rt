//! The events of a worker, with the numbers that their scripts have among all.

ghost use Rattle.std.specs.Prelude.{◌≡◌, ◌≤◌};
ghost use Rattle.child_hands.specs.Record.{moment_in};
ghost use Rattle.run_records.specs.Joined.{numbered, script_of};
ghost use Rattle.run_records.specs.Merged.{IsNumbered};

use child_events::HallEvent;

/// The number of workers, and a worker's index, from 0. Its scripts have the numbers worker + 1,
/// worker + 1 + workers, ..
#[derive(Clone, Copy)]
pub struct WorkerIndex {
    /// The number of workers.
    pub workers: u8,
    /// The worker's index.
    pub worker: u8,
}

/// Returns the moment of an event, in milliseconds.
pub(crate) fn moment(event: &HallEvent) -> u64
    ensures { result ≡ moment_in event.now }
{
    match event {
        HallEvent::Child { moment, .. } => *moment,
        HallEvent::Tick { moment } => *moment,
    }
}

/// Returns the number, among all scripts, of a worker's script. 255 if it is greater.
fn number(workers: u8, worker: u8, script: u8) -> u8
    ensures { script_of workers worker script ≤ 255 → result ≡ script_of workers worker script }
{
    let before = u64::from(script).saturating_sub(1) * u64::from(workers);
    u8::try_from(before + u64::from(worker) + 1).unwrap_or(u8::MAX)
}

/// Returns an event of a worker, with the number that its script has among all.
pub(crate) fn renumbered(workers: u8, worker: u8, event: HallEvent) -> HallEvent
    ensures { IsNumbered workers worker event → result ≡ numbered workers worker event }
{
    match event {
        HallEvent::Child {
            script,
            child,
            moment,
            what,
        } => HallEvent::Child {
            script: number(workers, worker, script),
            child,
            moment,
            what,
        },
        HallEvent::Tick { moment } => HallEvent::Tick { moment },
    }
}
