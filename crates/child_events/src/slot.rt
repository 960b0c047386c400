//! An item of a child, with the echoes that are taken before it.

use crate::event::Item;
use std::collections::VecDeque;

/// An item of a child, and the echoes before it.
#[derive(Drop)]
pub struct Slot {
    /// The echoes, each with its moment in milliseconds.
    pub echoes: VecDeque<(u64, Item)>,
    /// The moment of the child's item, in milliseconds.
    pub moment: u64,
    /// The item.
    pub item: Item,
}
