//! The match buffer of a child.

ghost use Rattle.std.specs.Prelude.{◌≡◌, ◌<◌, ◌-◌, ◌++◌, [], length, drop, take, nat_le, IfOk, OnOk};
ghost use Rattle.circular_buffer.specs.Buffer.{keep_last};
ghost use Rattle.exp_match.specs.Choice.{HasNone, LeavesNone, with_spans};
ghost use Rattle.exp_match.specs.Decide.{decide};

use exp_match::{Matchers, PatternList, Picked, Spans};
use match_buffer::Buffer;
use std::alloc::{AllocError, Global};
use std::marker::Model;
use tcl_values::Value;
use tcl_words::Text;
use tty::Seen;

/// The bytes of a child that no `expect` has taken, and the size: the number of last bytes that
/// `trim` keeps.
#[derive(Drop)]
pub struct Kept {
    buffer: Buffer,
}

impl Model for Kept {
    ghost use Rattle.expect_core.specs.Held.{Held};

    ghost Value = { Held };

    ghost view = { λ k. record { bytes = k.buffer.ring.items; size = k.buffer.size } };
}

/// Returns the first `most` bytes, or all if there are fewer.
pub(crate) fn front(bytes: &[u8], most: usize) -> &[u8]
    ensures { result.now ≡ take most bytes.now }
{
    if bytes.len() <= most {
        bytes
    } else {
        bytes.split_at(most).0
    }
}

/// Returns the bytes from index `count` on.
pub(crate) fn behind(bytes: &[u8], count: usize) -> &[u8]
    ensures { result.now ≡ drop count bytes.now }
{
    if bytes.len() <= count {
        &[]
    } else {
        bytes.split_at(count).1
    }
}

impl Kept {
    /// Creates an empty buffer with this size in bytes.
    pub(crate) fn new(alloc: Global, size: usize) -> Result<Kept, AllocError>
        ensures { IfOk result (λ k. k ≡ record { bytes = []; size = size }) }
    {
        Ok(Kept {
            buffer: Buffer::new(alloc, size)?,
        })
    }

    /// Returns the size in bytes.
    pub(crate) fn size(&self) -> usize
        ensures { result ≡ self.now.size }
    {
        self.buffer.size
    }

    /// Returns the number of bytes in the buffer.
    pub(crate) fn len(&self) -> usize
        ensures { result ≡ length self.now.bytes }
    {
        self.buffer.ring().len()
    }

    /// Returns a copy of the bytes.
    pub(crate) fn copied(&self, alloc: Global) -> Result<Text, AllocError>
        ensures { IfOk result (λ t. t ≡ self.now.bytes) }
    {
        let (front, back) = self.buffer.ring().as_slices();
        let mut text = Text::from_slice(alloc, front)?;
        text.extend(back)?;
        Ok(text)
    }

    /// Returns whether the bytes don't exceed the size.
    pub(crate) fn fits(&self) -> bool
        ensures { result ≡ nat_le (length self.now.bytes) self.now.size }
    {
        self.len() <= self.size()
    }

    /// Appends bytes. The buffer may exceed its size until `trim`.
    pub(crate) fn add(&mut self, bytes: &[u8]) -> Result<(), AllocError>
        ensures { OnOk result (self.new ≡ record self.old { bytes = self.old.bytes ++ bytes.now }) }
    {
        self.buffer.add(bytes)
    }

    /// Appends output as it is seen.
    pub(crate) fn add_seen(&mut self, seen: Seen<'_>) -> Result<(), AllocError>
        ensures { OnOk result (self.new ≡ record self.old { bytes = self.old.bytes ++ seen.entry }) }
    {
        let mut seen = seen;
        'runs: while let Some(run) = seen.next() {
            self.buffer.add(run)?;
        }
        Ok(())
    }

    /// Drops all but the last bytes, as many as the size.
    pub(crate) fn trim(&mut self)
        ensures { self.new ≡ record self.old { bytes = keep_last self.old.size self.old.bytes } }
    {
        self.buffer.trim();
    }

    /// Sets the size, and drops all but the last bytes.
    pub(crate) fn resize(&mut self, size: usize) -> Result<(), AllocError>
        ensures { OnOk result (self.new ≡ record { bytes = keep_last size self.old.bytes; size = size }) }
    {
        self.buffer.resize(size)
    }

    /// Drops the first `count` bytes, or all if there are fewer.
    pub(crate) fn take(&mut self, count: usize)
        ensures { self.new ≡ record self.old { bytes = drop count self.old.bytes } }
    {
        let count = count.min(self.buffer.ring.len());
        self.buffer.take(count);
    }

    /// Tests the bytes against the patterns of these groups. Writes the spans of a match to
    /// `spans`.
    ///
    /// The first `sought` bytes must hold no match, as an earlier test found. Pass 0 if unknown.
    pub(crate) fn choose<'l>(
        &mut self,
        alloc: Global,
        matchers: &mut Matchers<'l>,
        list: &'l PatternList,
        groups: &[usize],
        sought: usize,
        spans: &mut Spans,
    ) -> Result<Picked, AllocError>
        requires { 0 < sought → HasNone list.now.entries groups.now (take sought self.old.bytes) }
        ensures same { self.new ≡ self.old }
        ensures chosen { IfOk result (λ p. with_spans p spans.new ≡ decide list.now.entries groups.now self.old.bytes self.old.size) }
        ensures none { IfOk result (λ p. LeavesNone list.now.entries groups.now self.old.bytes (with_spans p spans.new)) }
    {
        let size = self.buffer.size;
        list.choose_with(
            alloc,
            matchers,
            groups,
            self.buffer.bytes(),
            sought,
            size,
            spans,
        )
    }

    /// Returns the bytes from `from` to before `to`, as far as they exist.
    pub(crate) fn part(
        &mut self,
        alloc: Global,
        from: usize,
        to: usize,
    ) -> Result<Value, AllocError>
        ensures same { self.new ≡ self.old }
        ensures part { IfOk result (λ v. v ≡ take (to - from) (drop from self.old.bytes)) }
    {
        let bytes = behind(self.buffer.bytes(), from);
        Value::from_slice(alloc, front(bytes, to.saturating_sub(from)))
    }
}
