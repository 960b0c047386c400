//! The output of a program that no pattern has matched yet, and the number of bytes to keep.
//!
//! The bytes are in a ring, so that taking bytes from the front moves no others.
#![tactic(auto)]

ghost use Rattle.std.specs.Prelude.{◌≡◌, ◌≤◌, ◌+◌, ◌++◌, [], length, drop, IfOk, OnOk, OnErr};
ghost use Rattle.std.specs.Borrow.{sem};
ghost use Rattle.circular_buffer.specs.Buffer.{keep_last};
ghost use Rattle.match_buffer.specs.Buffer.{LendsBytes};

use circular_buffer::HeapCircularBuffer;
use std::alloc::{AllocError, Global};

/// Bytes with a size: the number of last bytes that `trim` keeps.
#[derive(Drop)]
pub struct Buffer {
    /// The bytes, in order.
    pub ring: HeapCircularBuffer<u8>,
    /// The number of bytes that `trim` keeps.
    pub size: usize,
}

impl Buffer {
    /// Creates an empty buffer with room for `size` bytes.
    pub fn new(alloc: Global, size: usize) -> Result<Buffer, AllocError>
        ensures empty { IfOk result (λ b. b.ring.items ≡ []) }
        ensures size { IfOk result (λ b. b.size ≡ size) }
    {
        let ring = HeapCircularBuffer::with_capacity(alloc, size)?;
        Ok(Buffer { ring, size })
    }

    /// Appends bytes. The buffer may exceed its size until `trim`. On `AllocError` it is unchanged.
    pub fn add(&mut self, piece: &[u8]) -> Result<(), AllocError>
        ensures size { self.new.size ≡ self.old.size }
        ensures added { OnOk result (self.new.ring.items ≡ self.old.ring.items ++ piece.now) }
        ensures kept { OnErr result (self.new.ring.items ≡ self.old.ring.items) }
    {
        let needed = self.ring.len() + piece.len();
        let room = self.ring.capacity();
        if room < needed {
            self.ring.resize(needed.max(2 * room))?;
        }
        self.ring.extend_from_slice(piece);
        self.straighten();
        Ok(())
    }

    /// Moves wrapped bytes into a new block without a wrap. If memory is refused, they stay
    /// wrapped.
    fn straighten(&mut self)
        ensures size { self.new.size ≡ self.old.size }
        ensures same { self.new.ring.items ≡ self.old.ring.items }
    {
        let (front, back) = self.ring.as_slices();
        if back.is_empty() {
            return;
        }
        let room = self.ring.capacity().max(self.ring.len().saturating_mul(2));
        let alloc = *self.ring.allocator();
        if let Ok(fresh) = laid(alloc, front, back, room) {
            self.ring = fresh;
        }
    }

    /// Drops the first `count` bytes. Requires at least `count` bytes.
    pub fn take(&mut self, count: usize)
        requires { count ≤ length self.old.ring.items }
        ensures size { self.new.size ≡ self.old.size }
        ensures taken { self.new.ring.items ≡ drop count self.old.ring.items }
    {
        let left = self.ring.len() - count;
        self.ring.truncate_front(left);
    }

    /// Drops all but the last `size` bytes.
    pub fn trim(&mut self)
        ensures size { self.new.size ≡ self.old.size }
        ensures trimmed { self.new.ring.items ≡ keep_last self.old.size self.old.ring.items }
    {
        self.ring.truncate_front(self.size);
    }

    /// Sets the size and drops all but the last `size` bytes. On `AllocError` size and bytes are
    /// unchanged.
    pub fn resize(&mut self, size: usize) -> Result<(), AllocError>
        ensures size { OnOk result (self.new.size ≡ size) }
        ensures trimmed { OnOk result (self.new.ring.items ≡ keep_last size self.old.ring.items) }
        ensures size_kept { OnErr result (self.new.size ≡ self.old.size) }
        ensures kept { OnErr result (self.new.ring.items ≡ self.old.ring.items) }
    {
        if self.ring.capacity() < size {
            self.ring.resize(size)?;
        }
        self.size = size;
        self.trim();
        Ok(())
    }

    /// Returns the bytes as one slice, through which they can be changed. Wrapped bytes are moved
    /// first.
    pub fn bytes(&mut self) -> &mut [u8]
        ensures* lends { sem 𝓛 (LendsBytes self.entry result) }
        ensures value { result.now ≡ self.old.ring.items }
    {
        self.ring.make_contiguous()
    }

    /// Returns the ring that contains the bytes.
    pub fn ring(&self) -> &HeapCircularBuffer<u8>
        ensures { result.now.items ≡ self.now.ring.items }
    {
        &self.ring
    }
}

/// Copies two slices into one block with this capacity.
fn laid(
    alloc: Global,
    front: &[u8],
    back: &[u8],
    room: usize,
) -> Result<HeapCircularBuffer<u8>, AllocError>
    requires { length front.now + length back.now ≤ room }
    ensures { IfOk result (λ r. r.items ≡ front.now ++ back.now) }
{
    let mut fresh = HeapCircularBuffer::with_capacity(alloc, room)?;
    fresh.extend_from_slice(front);
    fresh.extend_from_slice(back);
    Ok(fresh)
}
