//! A cache of items by a hash of their texts.

use std::alloc::Global;
use std::marker::Model;
use std::mem;

/// The number of places: one per hash.
const ROOM: usize = 128;

/// The most bytes in a text that has a place.
const LONGEST: usize = 512;

/// A cache with at most one item at each place.
///
/// A contract sees nothing of it. The caller must check that an item belongs to the text.
#[derive(Drop)]
pub(crate) struct Places<T: Drop> {
    /// The item at each place. The places exist only after the first item was kept.
    items: Vec<Option<T>>,
}

impl<T: Drop> Model for Places<T> {
    ghost use Rattle.std.specs.Prelude.{⊤};

    ghost Value = { ⊤ };

    ghost view = { λ _. tt };
}

impl<T: Drop> Places<T> {
    /// Creates an empty cache without allocating.
    pub(crate) fn new(alloc: Global) -> Places<T> {
        Places {
            items: Vec::new(alloc),
        }
    }

    /// Returns the item at the place of a text. `None` if the text has no place or the place is
    /// empty. Time is linear in the length of the text.
    pub(crate) fn at(&self, text: &[u8]) -> Option<&T> {
        match self.items.get(place_of(text)?) {
            Some(Some(item)) => Some(item),
            _ => None,
        }
    }

    /// Keeps an item at the place of a text, if it has one and memory allows. The item that was
    /// there is dropped.
    pub(crate) fn keep(&mut self, text: &[u8], item: T) {
        let Some(place) = place_of(text) else {
            return;
        };
        if self.items.resize_with(ROOM, || None).is_err() {
            return;
        }
        if let Some(kept) = self.items.get_mut(place) {
            drop(mem::replace(kept, Some(item)));
        }
    }
}

/// Returns the place of a text: the upper bits of a hash of its bytes. `None` if the text is too
/// long.
fn place_of(text: &[u8]) -> Option<usize> {
    if LONGEST < text.len() {
        return None;
    }
    let mut hash: u32 = 0x811C_9DC5;
    for byte in text {
        hash = (hash ^ u32::from(*byte)).wrapping_mul(0x0100_0193);
    }
    Some((hash.wrapping_mul(0x9E37_79B9) / 0x0200_0000) as usize)
}
