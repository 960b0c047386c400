//! A counter of steps with a limit.

ghost use Rattle.std.specs.Prelude.{◌≡◌, ◌≤◌};

/// Counts steps up to a limit.
#[derive(Drop)]
pub struct Meter {
    /// The most steps that may begin.
    bound: u64,
    /// The number of steps that have begun.
    count: u64,
    ghost within: { count ≤ bound },
}

impl Meter {
    ghost use Rattle.tcl_eval.specs.Steps.{left_of};

    /// Creates a meter with this limit and no steps.
    pub fn new(bound: u64) -> Meter
        ensures left { left_of result ≡ bound }
        ensures count { result.count ≡ 0 }
    {
        Meter { bound, count: 0 }
    }

    /// Sets the number of steps left, which must not increase.
    pub(crate) fn go_down(&mut self, left: u64)
        ensures left { left ≤ left_of self.old → left_of self.new ≡ left }
        ensures bound { self.new.bound ≡ self.old.bound }
    {
        self.count = self.bound - left.min(self.bound);
    }

    /// Returns the number of steps that have begun.
    pub fn count(&self) -> u64
        ensures { result ≡ self.now.count }
    {
        self.count
    }

    /// Returns the number of steps left.
    pub fn left(&self) -> u64
        ensures { result ≡ left_of self.now }
    {
        self.bound - self.count
    }
}
