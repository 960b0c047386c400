//! The channels of a script: files that it reads or writes, and programs whose output it reads.

ghost use Rattle.std.specs.Prelude.{◌≡◌, ◌<◌, ◌++◌, ◌∷◌, [], drop, length, position, remove, IfSome, OnOk};
ghost use Rattle.std.specs.Str.{bytes_eq};
ghost use Rattle.expect_core.specs.Opened.{channel_in, with_moved};

use crate::place::Place;
use std::alloc::{AllocError, Global};
use std::marker::Model;
use tcl_words::Text;

/// What is left of the bytes of a channel. A contract sees a list.
#[derive(Drop)]
pub struct Rest {
    bytes: Text,
    at: usize,
}

impl Model for Rest {
    ghost use Rattle.std.specs.Prelude.{ℕ, List, drop};

    ghost Value = { List ℕ };

    ghost view = { λ r. drop r.at r.bytes };
}

impl Rest {
    /// Creates a rest of no bytes.
    pub(crate) fn new(alloc: Global) -> Rest
        ensures { result ≡ [] }
    {
        Rest::of(Text::new(alloc))
    }

    /// Creates a rest of all these bytes.
    pub(crate) fn of(bytes: Text) -> Rest
        ensures { result ≡ bytes }
    {
        Rest { bytes, at: 0 }
    }

    /// Returns the bytes that are left.
    pub(crate) fn as_slice(&self) -> &[u8]
        ensures { result.now ≡ self.now }
    {
        let bytes = self.bytes.as_slice();
        if self.at < bytes.len() {
            &bytes[self.at..]
        } else {
            &[]
        }
    }

    /// Passes over this many bytes, or over all that are left.
    #[tactic(auto, using(crate::proofs::Passing::drop_twice, crate::proofs::Passing::drop_past))]
    pub(crate) fn pass(&mut self, count: usize)
        ensures { self.new ≡ drop count self.old }
    {
        let all = self.bytes.len();
        if count < all.saturating_sub(self.at) {
            self.at += count;
        } else {
            self.at = all;
        }
    }
}

/// A channel.
#[derive(Drop)]
pub struct Channel {
    /// Its name.
    pub name: Text,
    /// The place of the child that reads or writes the file.
    pub child: Place,
    /// Whether it is read. Otherwise it is written.
    pub reads: bool,
    /// What is left of its bytes.
    pub rest: Rest,
    /// Whether the end was met.
    pub met: bool,
    /// The error text when it is closed, or no bytes.
    pub ended: Text,
}

impl Channel {
    /// Returns whether this is the name of the channel.
    fn has_name(&self, name: &[u8]) -> bool
        ensures { result ≡ bytes_eq self.now.name name.now }
    {
        self.name.as_slice() == name
    }

    /// Passes over this many bytes. The end was met or not.
    fn pass(&mut self, count: usize, met: bool)
        ensures { self.new ≡ record self.old { rest = drop count self.old.rest; met = met } }
    {
        self.rest.pass(count);
        self.met = met;
    }
}

/// The channels of a script, in the order in which they were opened. A contract sees a list.
#[derive(Drop)]
pub struct Channels {
    list: Vec<Channel>,
}

impl Model for Channels {
    ghost use Rattle.std.specs.Prelude.{List};
    ghost use Rattle.expect_core.specs.declared.channels.Channel.{Channel};

    ghost Value = { List Channel };

    ghost view = { λ c. c.list.items };
}

impl Channels {
    /// Creates an empty list without allocating.
    pub(crate) fn new(alloc: Global) -> Channels
        ensures { result ≡ [] }
    {
        Channels {
            list: Vec::new(alloc),
        }
    }

    /// Adds a channel.
    pub(crate) fn open(&mut self, channel: Channel) -> Result<(), AllocError>
        ensures { OnOk result (self.new ≡ self.old ++ channel ∷ []) }
    {
        self.list.push(channel)?;
        Ok(())
    }

    /// Returns whether the channel with this index is read.
    pub(crate) fn reads(&self, n: usize) -> bool
        ensures { result ≡ (channel_in n self.now).reads }
    {
        if n < self.list.len() {
            self.list[n].reads
        } else {
            true
        }
    }

    /// Returns what is left of the bytes of the channel with this index.
    pub(crate) fn rest(&self, n: usize) -> &[u8]
        ensures { result.now ≡ (channel_in n self.now).rest }
    {
        if n < self.list.len() {
            self.list[n].rest.as_slice()
        } else {
            &[]
        }
    }

    /// Returns whether the end of the channel with this index was met.
    pub(crate) fn met(&self, n: usize) -> bool
        ensures { result ≡ (channel_in n self.now).met }
    {
        if n < self.list.len() {
            self.list[n].met
        } else {
            false
        }
    }

    /// Returns the error text when the channel with this index is closed.
    pub(crate) fn ended(&self, n: usize) -> &[u8]
        ensures { result.now ≡ (channel_in n self.now).ended }
    {
        if n < self.list.len() {
            self.list[n].ended.as_slice()
        } else {
            &[]
        }
    }

    /// Returns the place of the child of the channel with this index.
    pub(crate) fn child(&self, n: usize) -> Place
        ensures { result ≡ (channel_in n self.now).child }
    {
        if n < self.list.len() {
            self.list[n].child
        } else {
            Place::first()
        }
    }

    /// Passes over this many bytes of the channel with this index, whose end was met or not.
    pub(crate) fn pass(&mut self, n: usize, count: usize, met: bool)
        ensures { self.new ≡ with_moved n count met self.old }
    {
        if n < self.list.len() {
            let channel = &mut self.list[n];
            channel.pass(count, met);
        }
    }

    /// Removes the channel with this index.
    pub(crate) fn shut(&mut self, n: usize)
        ensures { self.new ≡ remove self.old n }
    {
        if n < self.list.len() {
            self.list.remove(n);
        }
    }

    /// Returns the index of the channel with this name.
    pub(crate) fn find(&self, name: &[u8]) -> Option<usize>
        ensures at { result ≡ position (λ c. bytes_eq c.name name.now) self.now }
        ensures within { IfSome result (λ n. n < length self.now) }
    {
        self.list.iter().position(|channel| channel.has_name(name))
    }
}
