//! Why a command has no value.

ghost use Rattle.std.specs.Prelude.{◌≡◌};

use std::alloc::{AllocError, AllocFailed};
use tcl_words::Text;

/// Why a command has no value.
#[derive(Drop)]
pub enum Complaint {
    /// Memory was refused.
    Memory,
    /// The text of an error.
    Said(Text),
}

impl From<AllocError> for Complaint {
    ghost use Rattle.tcl_results.specs.declared.complaint.Complaint.TheVariants.{Memory};

    ghost from_gives = { λ _ e. e ≡ Memory };

    fn from(_e: AllocError) -> Complaint {
        Complaint::Memory
    }
}

impl<T: Drop> From<AllocFailed<T>> for Complaint {
    ghost use Rattle.tcl_results.specs.declared.complaint.Complaint.TheVariants.{Memory};

    ghost from_gives = { λ _ e. e ≡ Memory };

    fn from(_e: AllocFailed<T>) -> Complaint {
        Complaint::Memory
    }
}
