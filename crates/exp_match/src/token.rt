//! The tokens of a regular pattern.

/// A token of a regular pattern.
#[derive(Clone, Copy)]
pub enum Token {
    /// `|`, `^` or `$`: it can't be repeated.
    Bound,
    /// `*`, `+`, `?` or a count.
    Repeat,
    /// `(` or `(?:`.
    Open,
    /// `)`.
    Close,
    /// A character, an escape or a class.
    Atom,
}

/// The state between two tokens of a regular pattern.
#[derive(Clone, Copy)]
pub struct Nesting {
    /// The number of open groups.
    pub opened: usize,
    /// How many more groups may open inside them.
    pub left: usize,
    /// An atom or a group ended here, so a repetition may follow.
    pub repeatable: bool,
}
