//! The errors of expressions.

ghost use Rattle.std.specs.Prelude.{◌≡◌};

use std::alloc::{AllocError, AllocFailed};
use tcl_words::{ListFault, Text};

/// Why a text is no expression, or an expression has no value.
#[derive(Drop)]
pub enum ExprFault {
    /// The text is no expression.
    Syntax,
    /// This text should be a number, or one of the six words if a truth value is required, and is
    /// neither.
    NotNumber(Text),
    /// A divisor is 0.
    DivideByZero,
    /// The base of a power with a negative exponent is 0.
    ZeroToNegative,
    /// The second operand of a shift is negative.
    NegativeShift,
    /// A result is outside 64 bits.
    Overflow,
    /// The second operand of `in` or `ni` is no list.
    BadList,
    /// Parentheses, unary operators and branches of `?:` that nest more than 200 deep.
    TooDeep,
    /// Memory was refused.
    Memory,
}

impl From<AllocError> for ExprFault {
    ghost use Rattle.tcl_expr.specs.declared.faults.ExprFault.TheVariants.{Memory};

    ghost from_gives = { λ _ e. e ≡ Memory };

    fn from(_e: AllocError) -> ExprFault {
        ExprFault::Memory
    }
}

impl<T: Drop> From<AllocFailed<T>> for ExprFault {
    ghost use Rattle.tcl_expr.specs.declared.faults.ExprFault.TheVariants.{Memory};

    ghost from_gives = { λ _ e. e ≡ Memory };

    fn from(_e: AllocFailed<T>) -> ExprFault {
        ExprFault::Memory
    }
}

impl From<ListFault> for ExprFault {
    ghost use Rattle.tcl_expr.specs.Items.{of_list_fault};

    ghost from_gives = { λ f e. e ≡ of_list_fault f };

    fn from(fault: ListFault) -> ExprFault {
        match fault {
            ListFault::BadList => ExprFault::BadList,
            ListFault::Memory => ExprFault::Memory,
        }
    }
}
