//! A parsed list of patterns.

use crate::entry::Entries;
use tcl_words::{Text, Texts};

/// The patterns and keywords of an `expect`, numbered together from 0, in groups.
///
/// Group 0 comes before the first `-i`, and group g after the g-th.
#[derive(Drop)]
pub struct PatternList {
    /// The patterns and keywords, in order.
    pub entries: Entries,
    /// The list of spawn ids after each `-i`. That of group g is at index g - 1.
    pub ids: Texts,
    /// The argument of the last `-timeout`.
    pub timeout: Option<Text>,
}
