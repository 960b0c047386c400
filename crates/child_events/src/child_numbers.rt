//! The numbers of children that a log allows.

ghost use Rattle.std.specs.Prelude.{◌≡◌};
ghost use Rattle.child_events.specs.Log.{least_child, most_child, longest as longest_of};

/// The numbers of children that a log allows.
#[derive(Clone, Copy, PartialEq, Eq)]
pub enum ChildNumbers {
    /// 1 to 16: versions 1 and 2.
    To16,
    /// 0 to 999: version 3.
    To999,
}

impl ChildNumbers {
    pub(crate) fn least(self) -> u64
        ensures { result ≡ least_child self }
    {
        match self {
            ChildNumbers::To16 => 1,
            ChildNumbers::To999 => 0,
        }
    }

    pub(crate) fn most(self) -> u64
        ensures { result ≡ most_child self }
    {
        match self {
            ChildNumbers::To16 => 16,
            ChildNumbers::To999 => 999,
        }
    }

    /// Returns the most bytes in a line, without its newline.
    pub(crate) fn longest(self) -> usize
        ensures { result ≡ longest_of self }
    {
        match self {
            ChildNumbers::To16 => 8219,
            ChildNumbers::To999 => 8220,
        }
    }
}
