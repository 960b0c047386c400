//! The places of children.

ghost use Rattle.std.specs.Prelude.{◌≡◌, ◌+◌, ◌<◌, ◌≤◌, Some, None, nat_lt, if◌then◌else◌};

use std::marker::Model;

/// The most children of a script.
pub(crate) const MOST_CHILDREN: usize = 16;

/// The place of a child among those of its script, from 0 to 15. A contract sees a number.
#[derive(Clone, Copy)]
pub struct Place {
    at: u8,
}

impl Model for Place {
    ghost use Rattle.std.specs.Prelude.{ℕ, ◌<◌};

    ghost Value = { ℕ };

    ghost view = { λ p. p.at };

    ghost inverse = { λ n. record { at = n } };

    ghost invariant = { λ p. p.at < 16 };
}

impl Place {
    /// Returns the place with this index, or `None` from 16 on.
    pub(crate) fn new(at: usize) -> Option<Place>
        ensures { result ≡ (if nat_lt at 16 then Some at else None) }
    {
        if at < MOST_CHILDREN {
            Some(Place { at: at as u8 })
        } else {
            None
        }
    }

    /// Returns the first place.
    pub(crate) fn first() -> Place
        ensures { result ≡ 0 }
    {
        Place { at: 0 }
    }

    /// Returns the index of the place.
    pub(crate) fn index(self) -> usize
        ensures { result ≡ self }
    {
        usize::from(self.at)
    }

    /// Returns the number of the child at the place, from 1 to 16.
    pub fn number(self) -> u8
        ensures value { result ≡ self + 1 }
        ensures few { (1 ≤ result) × (result ≤ 16) }
    {
        self.at + 1
    }
}
