//! The errors of the program.

use std::alloc::AllocError;
use std::io::{self, ErrorKind};
use tcl_words::ListFault;

/// Why nothing is shown.
#[derive(Clone, Copy)]
pub enum Complaint {
    /// The command line is not the name of one layer.
    Usage,
    /// Standard input can't be read, or standard output can't be written.
    Device,
    /// A line of standard input is not a call of the layer.
    Call,
    /// Memory was refused.
    Memory,
}

impl From<AllocError> for Complaint {
    ghost use Rattle.std.specs.Prelude.{◌≡◌};
    ghost use Rattle.layer_show.specs.declared.complaint.Complaint.TheVariants.{Memory};

    ghost from_gives = { λ _ c. c ≡ Memory };

    fn from(_e: AllocError) -> Complaint {
        Complaint::Memory
    }
}

impl From<ListFault> for Complaint {
    ghost use Rattle.std.specs.Prelude.{◌≡◌, ◌↔◌};
    ghost use Rattle.tcl_words.specs.declared.faults.ListFault.TheVariants as list;
    ghost use Rattle.layer_show.specs.declared.complaint.Complaint.TheVariants.{Memory};

    ghost from_gives = { λ e c. (e ≡ list.Memory) ↔ (c ≡ Memory) };

    fn from(e: ListFault) -> Complaint {
        match e {
            ListFault::BadList => Complaint::Call,
            ListFault::Memory => Complaint::Memory,
        }
    }
}

impl From<io::Error> for Complaint {
    ghost use Rattle.std.specs.Prelude.{◌≡◌, ◌↔◌};
    ghost use Rattle.std.specs.IoError.{error_kind};
    ghost use Rattle.std.specs.declared.io.ErrorKind.TheVariants.{OutOfMemory};
    ghost use Rattle.layer_show.specs.declared.complaint.Complaint.TheVariants.{Memory};

    ghost from_gives = { λ e c. (error_kind e ≡ OutOfMemory) ↔ (c ≡ Memory) };

    fn from(e: io::Error) -> Complaint {
        if e.kind() == ErrorKind::OutOfMemory {
            return Complaint::Memory;
        }
        Complaint::Device
    }
}
