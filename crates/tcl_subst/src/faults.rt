//! The errors of variables.

ghost use Rattle.std.specs.Prelude.{◌≡◌};

use std::alloc::{AllocError, AllocFailed};
use tcl_values::GrowFault;
use tcl_words::ListFault;

/// Why a variable can't be read or changed.
#[derive(Clone, Copy, PartialEq, Eq)]
pub enum SubstFault {
    /// There is no such variable, or the array has no such element.
    NoVariable,
    /// The variable is an array.
    IsArray,
    /// The variable is no array.
    NotArray,
    /// The value would be longer than allowed, in bytes.
    TooLong,
    /// Memory was refused.
    Memory,
    /// The name of a new link is already the name of a variable.
    Exists,
    /// The value is no list, but is read as one.
    BadList,
}

impl From<AllocError> for SubstFault {
    ghost use Rattle.tcl_subst.specs.declared.faults.SubstFault.TheVariants.{Memory};

    ghost from_gives = { λ _ e. e ≡ Memory };

    fn from(_e: AllocError) -> SubstFault {
        SubstFault::Memory
    }
}

impl<T: Drop> From<AllocFailed<T>> for SubstFault {
    ghost use Rattle.tcl_subst.specs.declared.faults.SubstFault.TheVariants.{Memory};

    ghost from_gives = { λ _ e. e ≡ Memory };

    fn from(_e: AllocFailed<T>) -> SubstFault {
        SubstFault::Memory
    }
}

impl From<ListFault> for SubstFault {
    ghost use Rattle.tcl_subst.specs.Faults.{of_list_fault};

    ghost from_gives = { λ f e. e ≡ of_list_fault f };

    fn from(fault: ListFault) -> SubstFault {
        match fault {
            ListFault::BadList => SubstFault::BadList,
            ListFault::Memory => SubstFault::Memory,
        }
    }
}

impl From<GrowFault> for SubstFault {
    ghost use Rattle.tcl_subst.specs.Faults.{of_grow_fault};

    ghost from_gives = { λ f e. e ≡ of_grow_fault f };

    fn from(fault: GrowFault) -> SubstFault {
        match fault {
            GrowFault::BadList => SubstFault::BadList,
            GrowFault::TooLong => SubstFault::TooLong,
            GrowFault::Memory => SubstFault::Memory,
        }
    }
}
