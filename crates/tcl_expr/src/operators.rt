//! The operators of expressions.

/// A prefix operator.
#[derive(Clone, Copy, PartialEq, Eq)]
pub(crate) enum Prefix {
    /// `-`
    Minus,
    /// `+`
    Plus,
    /// `~`
    Complement,
    /// `!`
    Not,
}

/// An operator on two numbers whose result is a number.
#[derive(Clone, Copy, PartialEq, Eq)]
pub(crate) enum Arithmetic {
    /// `**`
    Power,
    /// `*`
    Multiply,
    /// `/`
    Divide,
    /// `%`
    Remainder,
    /// `+`
    Add,
    /// `-`
    Subtract,
    /// `<<`
    ShiftLeft,
    /// `>>`
    ShiftRight,
    /// `&`
    BitAnd,
    /// `^`
    BitXor,
    /// `|`
    BitOr,
}

/// A comparison: of numbers if both operands are numbers, otherwise of texts.
#[derive(Clone, Copy, PartialEq, Eq)]
pub(crate) enum Comparison {
    /// `<`
    Less,
    /// `>`
    Greater,
    /// `<=`
    AtMost,
    /// `>=`
    AtLeast,
    /// `==`
    Equal,
    /// `!=`
    Unequal,
}

/// An operator that needs both operands.
#[derive(Clone, Copy, PartialEq, Eq)]
pub(crate) enum Eager {
    Arithmetic(Arithmetic),
    Comparison(Comparison),
    /// `eq`
    Same,
    /// `ne`
    Differs,
    /// `in`
    In,
    /// `ni`
    NotIn,
}

/// An operator that needs its second operand only if the first doesn't decide.
#[derive(Clone, Copy, PartialEq, Eq)]
pub(crate) enum Lazy {
    /// `&&`
    And,
    /// `||`
    Or,
}

/// An infix operator.
#[derive(Clone, Copy, PartialEq, Eq)]
pub(crate) enum Infix {
    Eager(Eager),
    Lazy(Lazy),
}
