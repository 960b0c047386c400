//! The system's clock.

use child_hands::Clock;
use std::time::{Clock as SystemClock, Instant};

/// Counts the milliseconds since it was created. If the system's clock can't be read, it stands
/// still.
#[derive(Drop)]
pub struct Wall<R: SystemClock + Drop> {
    rt: R,
    start: Option<Instant>,
    last: u64,
}

impl<R: SystemClock + Drop> Wall<R> {
    /// Creates a clock that is at 0 now.
    pub fn new(rt: R) -> Wall<R> {
        let start = Instant::now(&rt).ok();
        Wall { rt, start, last: 0 }
    }
}

impl<R: SystemClock + Copy + Drop> Wall<R> {
    /// Returns another clock with the same origin.
    pub fn again(&self) -> Wall<R> {
        Wall::since(self.rt, self.start)
    }

    /// Returns the time at which it was at 0.
    pub(crate) fn start(&self) -> Option<Instant> {
        self.start
    }

    /// Creates a clock that was at 0 at this time.
    pub(crate) fn since(rt: R, start: Option<Instant>) -> Wall<R> {
        Wall { rt, start, last: 0 }
    }
}

impl<R: SystemClock + Drop> Clock for Wall<R> {
    fn now(&mut self) -> u64 {
        let Some(start) = self.start else {
            return self.last;
        };
        if let Ok(time) = start.elapsed(&self.rt) {
            self.last = u64::try_from(time.as_millis()).unwrap_or(u64::MAX);
        }
        self.last
    }
}
