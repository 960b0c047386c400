//! Ranges of a source, and result types.

use std::alloc::AllocError;

/// A range of a source.
#[derive(Clone, Copy, PartialEq, Eq)]
pub struct Span {
    /// The position of its first byte.
    pub from: usize,
    /// The position after its last byte.
    pub to: usize,
}

/// Ranges, in order.
pub(crate) type Spans = Vec<Span>;

/// The result of a function that appends or allocates.
pub(crate) type Done = Result<(), AllocError>;

/// A number of bytes.
pub(crate) type Taken = Result<usize, AllocError>;
