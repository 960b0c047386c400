//! Signals that stop a run.

use crate::programs::Programs;
use std::sync::atomic::{AtomicU64, Ordering};

/// The set of SIGHUP, SIGINT and SIGTERM. Bit N - 1 stands for signal N.
const STOPPING: u64 = 0x4003;

/// The time between the check that sees a signal and the stop, in milliseconds, so that all workers
/// stop at the same time.
const DELAY: u64 = 150;

/// How long after the stop a worker may still run before the run is killed, in milliseconds.
const PATIENCE: u64 = 3_000;

/// The value for no signal.
const NONE: u64 = u64::MAX;

/// Whether a signal stops a run, and when. Only signals count that were blocked when this process
/// was started, and that it doesn't ignore. They stay pending, and /proc/self/status shows them.
#[derive(Drop)]
pub struct Stop {
    watched: u64,
    signal: AtomicU64,
    moment: AtomicU64,
    /// The number of running workers.
    workers: AtomicU64,
}

/// Returns the set of signals in a line of /proc/self/status, which contains it in hexadecimal.
fn set_of(status: &str, name: &str) -> u64 {
    for line in status.lines() {
        if let Some(digits) = line.strip_prefix(name) {
            return u64::from_str_radix(digits.trim(), 16).unwrap_or(0);
        }
    }
    0
}

/// Returns the number of the first signal in a set.
fn first_of(set: u64) -> u64 {
    u64::from(set.trailing_zeros()).saturating_add(1)
}

impl Stop {
    /// Creates the state of a run that continues.
    pub fn new(rt: &impl Programs) -> Stop {
        let watched = match rt.own_status() {
            Some(status) => set_of(status.as_str(), "SigBlk:")
                & !set_of(status.as_str(), "SigIgn:"),
            None => 0,
        };
        Stop {
            watched: watched & STOPPING,
            signal: AtomicU64::new(NONE),
            moment: AtomicU64::new(NONE),
            workers: AtomicU64::new(0),
        }
    }

    /// Checks at a time, in milliseconds, whether a signal was sent. The first one seen counts.
    pub(crate) fn look(&self, rt: &impl Programs, moment: u64) {
        if self.watched == 0 || self.signal().is_some() {
            return;
        }
        let Some(status) = rt.own_status() else {
            return;
        };
        let sent = self.watched
            & (set_of(status.as_str(), "ShdPnd:") | set_of(status.as_str(), "SigPnd:"));
        if sent != 0 {
            self.moment
                .store(moment.saturating_add(DELAY), Ordering::SeqCst);
            self.signal.store(first_of(sent), Ordering::SeqCst);
        }
    }

    /// Returns the number of the signal that stops the run. `None` if there is none.
    pub fn signal(&self) -> Option<u8> {
        u8::try_from(self.signal.load(Ordering::SeqCst)).ok()
    }

    /// Returns a reading of the clock, or the time of the stop if that is earlier. No worker's
    /// clock runs past it.
    pub fn lowered(&self, moment: u64) -> u64 {
        moment.min(self.moment.load(Ordering::SeqCst))
    }

    /// Returns whether the run is stopped at a reading of the clock.
    pub fn is_due(&self, moment: u64) -> bool {
        moment >= self.moment.load(Ordering::SeqCst)
    }

    /// Counts a worker that begins.
    pub fn enter(&self) {
        let _ = self.workers.fetch_add(1, Ordering::SeqCst);
    }

    /// Counts a worker that has stopped or is done.
    pub fn leave(&self) {
        let _ = self.workers.fetch_sub(1, Ordering::SeqCst);
    }

    /// Returns whether a worker is still running long after the stop. Its script computes without
    /// waiting, so the run can only be killed.
    pub(crate) fn is_held(&self, moment: u64) -> bool {
        let is_late = moment.saturating_sub(PATIENCE) >= self.moment.load(Ordering::SeqCst);
        is_late && self.workers.load(Ordering::SeqCst) > 0
    }
}
