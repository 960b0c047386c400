//! The children of a script: their places, and the running readers.

ghost use Rattle.std.specs.Prelude.{◌≡◌, ◌<◌, ◌≤◌, ◌++◌, ◌∷◌, [], length, vec_len, MatchOption};
ghost use Rattle.feed_rings.specs.Ends.{put_items};
ghost use Rattle.child_hands.specs.declared.work.Work.TheVariants.{Ended};
ghost use Rattle.child_hands.specs.Handed.{PutsAt, TakesPlace, IsTaken, KeepsWorks, KeepsPlaces, EndsReader};

use crate::pump::give_up;
use crate::reader::{Started, start};
use crate::work::{Fresh, Reader, Work};
use crate::{Keeper, RingItem};
use feed_rings::Finished;
use std::alloc::Global;
use std::mem;
use std::sync::Wait;
use std::thread::Threads;

/// The places of a script's children, from child 1 on, and the running readers.
#[derive(Drop)]
pub struct Children<K: Keeper> {
    pub works: Vec<Work<K>>,
    pub readers: Vec<Reader<K>>,
}

impl<K: Keeper> Children<K> {
    /// Creates the places of children without readers.
    pub fn new(alloc: Global, works: Vec<Work<K>>) -> Children<K>
        ensures { (result.works.items ≡ works.items) × (result.readers.items ≡ []) }
    {
        Children {
            works,
            readers: Vec::new(alloc),
        }
    }

    /// Takes the free place of a child. `None` if it isn't free.
    fn take_place(&mut self, index: usize) -> Option<Fresh<K>>
        requires { index < vec_len self.old.works }
        ensures readers { self.new.readers ≡ self.old.readers }
        ensures size { vec_len self.new.works ≡ vec_len self.old.works }
        ensures works { MatchOption result ((self.new.works.items ≡ self.old.works.items) × IsTaken index self.old.works.items) (λ fresh. TakesPlace index fresh self.old.works.items self.new.works.items) }
    {
        let slot = &mut self.works[index];
        match mem::replace(slot, Work::Ended(None)) {
            Work::Free(fresh) => Some(fresh),
            Work::Ended(finished) => {
                drop(mem::replace(slot, Work::Ended(finished)));
                None
            }
        }
    }

    /// Keeps the items that a child's reader put.
    fn keep(&mut self, index: usize, finished: Option<Finished<RingItem<K>>>)
        requires { index < vec_len self.old.works }
        ensures readers { self.new.readers ≡ self.old.readers }
        ensures size { vec_len self.new.works ≡ vec_len self.old.works }
        ensures works { PutsAt index (Ended finished) self.old.works.items self.new.works.items }
    {
        drop(mem::replace(&mut self.works[index], Work::Ended(finished)));
    }

    /// Starts a reader for a child, if its place is free.
    pub fn place<W: Threads + Wait + Copy + Send + 'static>(
        &mut self,
        rt: W,
        alloc: Global,
        script: u8,
        child: u8,
        out: K::Out,
    )
    where
        K: Send + 'static,
        ensures size { vec_len self.new.works ≡ vec_len self.old.works }
        ensures works { KeepsWorks script child (K.Out.remaining out) self.old.works.items self.old.readers.items self.new.works.items self.new.readers.items }
    {
        let Some(index) = usize::from(child).checked_sub(1) else {
            return;
        };
        if index >= self.works.len() {
            return;
        }
        let Some(fresh) = self.take_place(index) else {
            return;
        };
        if self.readers.reserve(1).is_err() {
            self.keep(index, give_up(script, child, fresh.feed));
            return;
        }
        match start(rt, alloc, script, child, out, fresh) {
            Started::Running(handle) => self.readers.push_reserved(Reader { index, handle }),
            Started::Refused(finished) => self.keep(index, finished),
        }
    }

    /// Waits for a reader to end.
    fn end_one<W: Threads>(&mut self, rt: &W, reader: Reader<K>)
        ensures readers { self.new.readers ≡ self.old.readers }
        ensures size { vec_len self.new.works ≡ vec_len self.old.works }
        ensures works { EndsReader reader self.old.works.items self.new.works.items }
    {
        let Reader { index, handle } = reader;
        let finished = handle.join(rt);
        if index < self.works.len() {
            self.keep(index, finished);
        }
    }

    /// Waits for all readers to end.
    pub fn end_all<W: Threads>(&mut self, rt: &W)
        ensures kept { KeepsPlaces self.old.works.items self.old.readers.items self.new.works.items self.new.readers.items }
        ensures size { vec_len self.new.works ≡ vec_len self.old.works }
        ensures none { self.new.readers.items ≡ [] }
    {
        while let Some(reader) = self.readers.pop() {
            self.end_one(rt, reader);
        }
    }
}
