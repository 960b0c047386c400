//! The state between two arguments of `expect`.

use crate::entry::{Keyword, Want};
use crate::list::PatternList;

/// A flag for the next pattern.
#[derive(Clone, Copy)]
pub enum Mark {
    /// `-nocase`
    Nocase,
    /// `-indices`
    Indices,
    /// `-notransfer`
    Notransfer,
}

/// The flags before the next pattern.
#[derive(Clone, Copy)]
pub struct Marks {
    /// `-nocase` was given.
    pub nocase: bool,
    /// `-indices` was given.
    pub indices: bool,
    /// `-notransfer` was given.
    pub notransfer: bool,
}

/// How a pattern is written.
#[derive(Clone, Copy)]
pub enum Way {
    /// After `-ex` or `-exact`.
    Exact,
    /// After `-gl` or `-glob`, or without a flag.
    Glob,
    /// After `-re` or `-regexp`.
    Regular,
}

/// The role of an argument in the place of a pattern.
#[derive(Clone, Copy)]
pub enum Role {
    /// A flag for the next pattern.
    Mark(Mark),
    /// `-i`
    Id,
    /// `-timeout`
    Timeout,
    /// A flag that tells how the next argument is written.
    Written(Way),
    /// A keyword.
    Keyword(Keyword),
    /// A glob pattern.
    Glob,
    /// An argument that may not stand here.
    Bad,
}

/// What may come next. The numbers are the indices of flags.
#[derive(Drop)]
pub enum Pending {
    /// A flag, a pattern, a keyword, or the end.
    Front,
    /// A flag, a pattern or a keyword, but not the end, because this flag came last.
    More(usize),
    /// The list of spawn ids after this `-i`.
    Id(usize),
    /// The time after this `-timeout`.
    Timeout(usize),
    /// The pattern after this flag.
    Pattern(Way, usize),
    /// The action of a pattern or keyword, or the end.
    Action(Want),
}

/// The arguments read so far.
#[derive(Drop)]
pub struct Reader {
    /// The entries with their actions.
    pub list: PatternList,
    /// The flags before the next pattern.
    pub marks: Marks,
    /// What may come next.
    pub pending: Pending,
}
