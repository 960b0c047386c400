//! The errors of commands and lists.

ghost use Rattle.std.specs.Prelude.{◌≡◌};

use std::alloc::{AllocError, AllocFailed};

/// Why a command can't be read. If several constructs are open, the error is that of the innermost
/// one.
#[derive(Clone, Copy, PartialEq, Eq)]
pub enum WordFault {
    /// A `{` or a `${` without its `}`.
    MissingBrace,
    /// A `[` without its `]`.
    MissingBracket,
    /// A word that begins with `"` and has no closing quote.
    MissingQuote,
    /// A closing quote that isn't followed by white space or the end of the command.
    ExtraAfterQuote,
    /// A closing brace that isn't followed by white space or the end of the command.
    ExtraAfterBrace,
    /// Brackets and indexes that nest more than 200 deep.
    TooDeep,
    /// Memory was refused.
    Memory,
    /// An index of an array without its `)`.
    MissingParen,
}

/// Why a list can't be read.
#[derive(Clone, Copy, PartialEq, Eq)]
pub enum ListFault {
    /// The text is no list.
    BadList,
    /// Memory was refused.
    Memory,
}

impl From<AllocError> for WordFault {
    ghost use Rattle.tcl_words.specs.declared.faults.WordFault.TheVariants.{Memory};

    ghost from_gives = { λ _ e. e ≡ Memory };

    fn from(_e: AllocError) -> WordFault {
        WordFault::Memory
    }
}

impl<T: Drop> From<AllocFailed<T>> for WordFault {
    ghost use Rattle.tcl_words.specs.declared.faults.WordFault.TheVariants.{Memory};

    ghost from_gives = { λ _ e. e ≡ Memory };

    fn from(_e: AllocFailed<T>) -> WordFault {
        WordFault::Memory
    }
}

impl From<AllocError> for ListFault {
    ghost use Rattle.tcl_words.specs.declared.faults.ListFault.TheVariants.{Memory};

    ghost from_gives = { λ _ e. e ≡ Memory };

    fn from(_e: AllocError) -> ListFault {
        ListFault::Memory
    }
}

impl<T: Drop> From<AllocFailed<T>> for ListFault {
    ghost use Rattle.tcl_words.specs.declared.faults.ListFault.TheVariants.{Memory};

    ghost from_gives = { λ _ e. e ≡ Memory };

    fn from(_e: AllocFailed<T>) -> ListFault {
        ListFault::Memory
    }
}
