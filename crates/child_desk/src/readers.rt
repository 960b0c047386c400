//! The output that readers of a script's children put.

ghost use Rattle.std.specs.Prelude.{◌≡◌, ◌<◌, ◌≤◌, [], ◌∷◌, length, vec_capacity, IfSome, IfNone, IfOk};
ghost use Rattle.child_events.specs.declared.event.What.TheVariants.{Out};
ghost use Rattle.feed_rings.specs.Ends.{all_put};
ghost use Rattle.child_desk.specs.Heard.{FinishedAt, SeenAt, TakesAt, IsTaken, IsLeftOf, LeavesOneLess, Says, heard_of};

use child_events::What;
use child_hands::{Keeper, Piece, RingItem};
use feed_rings::{FeedOut, Finished};
use std::alloc::{AllocError, Global};

/// The endpoints of the rings from the readers of a script's children.
#[derive(Drop)]
pub struct Readers<K: Keeper> {
    /// The script's number in their items.
    pub script: u8,
    /// The endpoints, from child 1 on.
    pub outs: Vec<FeedOut<RingItem<K>>>,
}

/// An item of a child's output, and a copy of it.
#[derive(Drop)]
pub struct Heard {
    /// The item.
    pub what: What,
    /// Its copy.
    pub copy: What,
}

/// What was taken from a child's ring.
#[derive(Drop)]
pub enum Taken {
    /// No item: none was seen.
    Nothing,
    /// An item that isn't this child's output.
    Passed,
    /// An item of the child's output.
    Heard(Heard),
}

impl<K: Keeper> Readers<K> {
    /// Returns whether a child's ring seems empty. True if there is no such child.
    pub(crate) fn seems_empty(&mut self, index: u8) -> bool
        ensures { TakesAt index self.old self.new [] }
    {
        match self.outs.get_mut(usize::from(index)) {
            Some(out) => out.is_empty(),
            None => true,
        }
    }

    /// Returns the number of items left in a child's ring, which its reader has finished. 0 if
    /// there is no such child.
    pub(crate) fn left(&mut self, index: u8, finished: &mut Finished<RingItem<K>>) -> usize
        requires { FinishedAt index finished.old self.old }
        ensures taken { TakesAt index self.old self.new [] }
        ensures left { IsLeftOf index finished.new self.new result }
        ensures put { all_put finished.new ≡ all_put finished.old }
    {
        match self.outs.get_mut(usize::from(index)) {
            Some(out) => out.left(finished),
            None => 0,
        }
    }

    fn next_item(&mut self, index: u8) -> Option<RingItem<K>>
        ensures some { IfSome result (λ x. TakesAt index self.old self.new (x ∷ [])) }
        ensures none { IfNone result (TakesAt index self.old self.new []) }
    {
        self.outs.get_mut(usize::from(index))?.take()
    }

    /// Takes the next item of a child's ring, if there is one, with a copy in `room`.
    pub(crate) fn next(&mut self, index: u8, room: Vec<u8>) -> Taken
        requires room { (room.items ≡ []) × (4096 ≤ vec_capacity room) }
        requires child { index < 16 }
        ensures { IsTaken index self.old self.new result }
    {
        match self.next_item(index) {
            Some(item) => taken_of(self.script, index + 1, item, room),
            None => Taken::Nothing,
        }
    }

    /// Takes an item that is known to be left in a child's ring, with a copy in `room`.
    pub(crate) fn next_left(&mut self, index: u8, room: Vec<u8>) -> Taken
        requires room { (room.items ≡ []) × (4096 ≤ vec_capacity room) }
        requires child { index < 16 }
        requires seen { SeenAt index self.old }
        ensures taken { IsTaken index self.old self.new result }
        ensures left { LeavesOneLess index self.old self.new }
    {
        match self.outs.get_mut(usize::from(index)) {
            Some(out) => taken_of(self.script, index + 1, out.take_seen(), room),
            None => Taken::Nothing,
        }
    }
}

/// Allocates room for a copy of a piece: 4,096 bytes.
pub(crate) fn room(alloc: Global) -> Result<Vec<u8>, AllocError>
    ensures { IfOk result (λ r. (r.items ≡ []) × (4096 ≤ vec_capacity r)) }
{
    Vec::with_capacity(alloc, 4096)
}

/// Returns whether this is the last item of a child's output.
pub(crate) fn is_last(taken: &Taken) -> bool {
    match taken {
        Taken::Heard(heard) => matches!(heard.what, What::Eof | What::ReadFail(_)),
        _ => false,
    }
}

/// Returns what an item says of a script's child, with a copy in `room`.
fn taken_of<K: Keeper>(script: u8, child: u8, item: RingItem<K>, room: Vec<u8>) -> Taken
    requires { (room.items ≡ []) × (4096 ≤ vec_capacity room) }
    ensures { Says (heard_of script child item) result }
{
    match item {
        RingItem::Out {
            script: of,
            child: from,
            piece,
        } if of == script && from == child => Taken::Heard(heard_piece(piece, room)),
        RingItem::End {
            script: of,
            child: from,
        } if of == script && from == child => Taken::Heard(Heard {
            what: What::Eof,
            copy: What::Eof,
        }),
        RingItem::ReadFail {
            script: of,
            child: from,
            cause,
        } if of == script && from == child => Taken::Heard(Heard {
            what: What::ReadFail(cause),
            copy: What::ReadFail(cause),
        }),
        _ => Taken::Passed,
    }
}

fn heard_piece(piece: Piece, room: Vec<u8>) -> Heard
    requires { (room.items ≡ []) × (4096 ≤ vec_capacity room) }
    ensures what { result.what ≡ Out piece }
    ensures copy { result.copy ≡ result.what }
    ensures size { length piece ≤ 4096 }
{
    let copy = What::Out(piece.copied_into(room));
    let what = What::Out(piece.into_text());
    Heard { what, copy }
}
