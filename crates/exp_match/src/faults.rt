//! The errors of a pattern and of a list of patterns.

ghost use Rattle.std.specs.Prelude.{◌≡◌};

use std::alloc::AllocError;

/// Why a text has no compiled pattern.
#[derive(Clone, Copy)]
pub enum RegularFault {
    /// It is no regular pattern.
    NoPattern,
    /// `regex` refuses the pattern: its program would be too big.
    Refused,
    /// Memory was refused.
    Memory,
}

impl From<AllocError> for RegularFault {
    ghost use Rattle.exp_match.specs.declared.faults.RegularFault.TheVariants.{Memory};

    ghost from_gives = { λ _ e. e ≡ Memory };

    fn from(_e: AllocError) -> RegularFault {
        RegularFault::Memory
    }
}

/// Why a list of patterns isn't built.
#[derive(Clone, Copy)]
pub enum PatternFault {
    /// The argument at this index is no flag or pattern that may stand there, or a flag without its
    /// argument.
    BadFlag(usize),
    /// The argument at this index is no regular pattern.
    BadRegex(usize),
    /// A regular pattern of the grammar was not compiled: its program would be too big.
    Refused,
    /// Memory was refused.
    Memory,
}

impl From<AllocError> for PatternFault {
    ghost use Rattle.exp_match.specs.declared.faults.PatternFault.TheVariants.{Memory};

    ghost from_gives = { λ _ e. e ≡ Memory };

    fn from(_e: AllocError) -> PatternFault {
        PatternFault::Memory
    }
}
