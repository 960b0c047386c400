//! Lets a thread rest until another thread rings its bell.
//!
//! If no thread is resting, one ring is kept and ends the next rest at its start. A thread that
//! looks for work before each rest therefore misses no ring.

use crossbeam_utils::sync::{Parker, Unparker};
use std::alloc::{AllocError, Global};
use std::sync::Wait;
use std::time::{Clock, Duration};

/// The bell of one thread, which rests on it.
#[derive(Drop)]
pub struct Bell {
    parker: Parker,
}

/// A handle with which another thread rings a bell. Dropping it rings too.
pub struct Ringer {
    unparker: Unparker,
}

impl Bell {
    /// Creates a bell that has not been rung.
    pub fn new(alloc: Global) -> Result<Bell, AllocError> {
        Ok(Bell {
            parker: Parker::new(alloc)?,
        })
    }

    /// Returns another ringer of this bell.
    pub fn ringer(&self) -> Result<Ringer, AllocError> {
        Ok(Ringer {
            unparker: self.parker.unparker().clone()?,
        })
    }

    /// Rests until the bell rings. A rest may also end without a ring, so the caller must check its
    /// condition again.
    pub fn rest<R: Wait>(&self, rt: &R) {
        self.parker.park(rt);
    }

    /// Like `rest`, for at most `milliseconds`. If the clock can't be read, the rest ends at once.
    pub fn rest_at_most<R: Wait + Clock>(&self, rt: &R, milliseconds: u64) {
        self.parker
            .park_timeout(rt, Duration::from_millis(milliseconds));
    }
}

impl Ringer {
    /// Ends the current or the next rest of the bell's thread.
    pub fn ring(&self) {
        self.unparker.unpark();
    }
}

impl Drop for Ringer {
    fn drop(self) {
        self.ring();
        let Ringer { unparker: _ } = self;
    }
}
