//! The items of one child, and the echo of the input sent to it.

ghost use Rattle.std.specs.Prelude.{◌≡◌, ◌++◌, [], map, drop, length, OnOk, OnErr, IfOk};
ghost use Rattle.child_events.specs.Queue.{first, item_view, pushed, with_echo, how_many_came, echoes, latest, place, Rises};

use crate::event::Item;
use crate::slot::Slot;
use std::alloc::{AllocError, Global};
use std::collections::VecDeque;
use std::marker::Model;
use std::mem;
use tcl_words::Text;

/// The most bytes in one item of an echo.
const PIECE: usize = 4096;

/// The items that a script takes from one child: its output and the echo of input sent to it, in
/// order. A contract sees a list.
///
/// Each echo is stored with the child's item that follows it. Inserting an echo and taking an item
/// therefore move no other items.
#[derive(Drop)]
pub struct Queue {
    alloc: Global,
    /// The child's items, in order of moments.
    slots: VecDeque<Slot>,
    /// The echoes after all of them.
    last: VecDeque<(u64, Item)>,
}

impl Model for Queue {
    ghost use Rattle.std.specs.Prelude.{List, ◌++◌, map};
    ghost use Rattle.child_events.specs.Queue.{Queued, joined, echo, Rises};

    ghost Value = { List Queued };

    ghost view = { λ q. joined q.slots.items ++ map echo q.last.items };

    ghost invariant = { λ q. Rises 0 q.slots.items };
}

/// Cuts an echo into items, each with the moment.
fn cut(alloc: Global, clock: u64, bytes: &[u8]) -> Result<VecDeque<(u64, Item)>, AllocError>
    ensures { IfOk result (λ made. made.items ≡ echoes clock bytes.now) }
{
    let mut made = VecDeque::new(alloc);
    let mut rest = bytes;
    'pieces: while !rest.is_empty() {
        let (piece, more) = rest.split_at(PIECE.min(rest.len()));
        let text = Text::from_slice(alloc, piece)?;
        made.push_back((clock, Item::Out(text)))?;
        rest = more;
    }
    Ok(made)
}

/// Appends echoes to others. Moves nothing if there are none yet. On `AllocError` the others are
/// unchanged.
fn lay_behind(
    echoes: &mut VecDeque<(u64, Item)>,
    mut made: VecDeque<(u64, Item)>,
) -> Result<(), AllocError>
    ensures laid { OnOk result (echoes.new.items ≡ echoes.old.items ++ made.items) }
    ensures kept { OnErr result (echoes.new.items ≡ echoes.old.items) }
{
    if echoes.is_empty() {
        *echoes = made;
        return Ok(());
    }
    echoes.append(&mut made)?;
    Ok(())
}

/// Returns the moment of the child's last item, or 0.
fn latest(slots: &VecDeque<Slot>) -> u64
    ensures { result ≡ latest 0 slots.now.items }
{
    match slots.back() {
        Some(slot) => slot.moment,
        None => 0,
    }
}

/// Returns the index of the child's first item of moment `clock` or later, or the length. It
/// searches from the end, after a look at the first item.
fn place(slots: &VecDeque<Slot>, clock: u64) -> usize
    requires { Rises 0 slots.now.items }
    ensures { result ≡ place clock slots.now.items }
{
    if 0 < slots.len() && clock <= slots[0].moment {
        return 0;
    }
    let mut at = slots.len();
    'later: while 0 < at && clock <= slots[at - 1].moment {
        at -= 1;
    }
    at
}

impl Queue {
    /// Creates an empty queue without allocating.
    pub fn new(alloc: Global) -> Queue
        ensures { result ≡ [] }
    {
        Queue {
            alloc,
            slots: VecDeque::new(alloc),
            last: VecDeque::new(alloc),
        }
    }

    /// Appends an item of the child. Raises its moment to that of the child's previous item. On
    /// `AllocError` the queue is unchanged.
    pub fn push(&mut self, moment: u64, item: Item) -> Result<(), AllocError>
        ensures pushed { OnOk result (self.new ≡ pushed moment item self.old) }
        ensures kept { OnErr result (self.new ≡ self.old) }
    {
        let moment = latest(&self.slots).max(moment);
        self.slots.reserve(1)?;
        let echoes = mem::replace(&mut self.last, VecDeque::new(self.alloc));
        self.slots.push_back_reserved(Slot {
            echoes,
            moment,
            item,
        });
        Ok(())
    }

    /// Inserts the echo of input sent at moment `clock`, in items of 4,096 bytes, the last one
    /// shorter. It goes before the child's first item of that moment or later, or at the end.
    ///
    /// No bytes add no item. On `AllocError` the queue is unchanged.
    pub fn insert_echo(&mut self, clock: u64, bytes: &[u8]) -> Result<(), AllocError>
        ensures placed { OnOk result (self.new ≡ with_echo clock bytes.now self.old) }
        ensures kept { OnErr result (self.new ≡ self.old) }
    {
        let made = cut(self.alloc, clock, bytes)?;
        let at = place(&self.slots, clock);
        let Some(slot) = self.slots.get_mut(at) else {
            lay_behind(&mut self.last, made)?;
            return Ok(());
        };
        lay_behind(&mut slot.echoes, made)?;
        Ok(())
    }

    /// Returns the number of items that came from the child, without the echoes. Constant time.
    pub fn count_came(&self) -> usize
        ensures { result ≡ how_many_came self.now }
    {
        self.slots.len()
    }

    /// Returns the next item and its moment without taking it. `None` if the queue is empty.
    pub fn peek(&self) -> Option<(u64, &Item)>
        ensures { item_view result ≡ first self.now }
    {
        match self.slots.front() {
            Some(slot) => match slot.echoes.front() {
                Some((moment, item)) => Some((*moment, item)),
                None => Some((slot.moment, &slot.item)),
            },
            None => match self.last.front() {
                Some((moment, item)) => Some((*moment, item)),
                None => None,
            },
        }
    }

    /// Takes the next item, with its moment. `None` if the queue is empty.
    pub fn next(&mut self) -> Option<(u64, Item)>
        ensures taken { result ≡ first self.old }
        ensures rest { self.new ≡ drop 1 self.old }
    {
        match self.slots.front_mut() {
            Some(slot) => {
                if let Some(echo) = slot.echoes.pop_front() {
                    return Some(echo);
                }
            }
            None => return self.last.pop_front(),
        }
        let Slot { moment, item, .. } = self.slots.pop_front()?;
        Some((moment, item))
    }
}
