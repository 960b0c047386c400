//! Counts the calls of a keeper, and the calls that failed.

ghost use Rattle.std.specs.Prelude.{◌≡◌, ◌+◌, ◌^◌, ◌<◌, ◌≤◌, Bool, if◌then◌else◌};

use std::marker::Model;

/// The number of calls, and of calls that failed. A contract sees a pair.
#[derive(Drop)]
pub struct Counts {
    calls: u64,
    failures: u64,
}

impl Model for Counts {
    ghost use Rattle.std.specs.Prelude.{ℕ, ◌≤◌};

    ghost Value = { ℕ × ℕ };

    ghost view = { λ c. (c.calls, c.failures) };

    ghost invariant = { λ c. c.failures ≤ c.calls };
}

impl Counts {
    /// Creates a count of no calls.
    pub fn new() -> Counts
        ensures { result ≡ (0, 0) }
    {
        Counts {
            calls: 0,
            failures: 0,
        }
    }

    /// Adds a call. `failed` tells whether it failed.
    pub fn count(&mut self, failed: bool)
        requires { self.old.0 < 2 ^ 63 }
        ensures calls { self.new.0 ≡ self.old.0 + 1 }
        ensures failures { self.new.1 ≡ (if failed then self.old.1 + 1 else self.old.1) }
        ensures fewer { self.old.1 ≤ self.old.0 }
    {
        self.calls += 1;
        if failed {
            self.failures += 1;
        }
    }

    /// Returns the number of calls.
    pub fn calls(&self) -> u64
        ensures { result ≡ self.now.0 }
    {
        self.calls
    }

    /// Returns the number of calls that failed.
    pub fn failures(&self) -> u64
        ensures { result ≡ self.now.1 }
    {
        self.failures
    }
}
