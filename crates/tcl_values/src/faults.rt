//! The errors of appending elements to a list.

ghost use Rattle.std.specs.Prelude.{◌≡◌};

use std::alloc::{AllocError, AllocFailed};
use tcl_words::ListFault;

/// Why elements can't be appended to a list.
#[derive(Clone, Copy, PartialEq, Eq)]
pub enum GrowFault {
    /// The value is no list.
    BadList,
    /// The list would be longer than allowed, in bytes.
    TooLong,
    /// Memory was refused.
    Memory,
}

impl From<ListFault> for GrowFault {
    ghost use Rattle.tcl_values.specs.Lists.{of_list_fault};

    ghost from_gives = { λ f e. e ≡ of_list_fault f };

    fn from(fault: ListFault) -> GrowFault {
        match fault {
            ListFault::BadList => GrowFault::BadList,
            ListFault::Memory => GrowFault::Memory,
        }
    }
}

impl From<AllocError> for GrowFault {
    ghost use Rattle.tcl_values.specs.declared.faults.GrowFault.TheVariants.{Memory};

    ghost from_gives = { λ _ e. e ≡ Memory };

    fn from(_e: AllocError) -> GrowFault {
        GrowFault::Memory
    }
}

impl<T: Drop> From<AllocFailed<T>> for GrowFault {
    ghost use Rattle.tcl_values.specs.declared.faults.GrowFault.TheVariants.{Memory};

    ghost from_gives = { λ _ e. e ≡ Memory };

    fn from(_e: AllocFailed<T>) -> GrowFault {
        GrowFault::Memory
    }
}
