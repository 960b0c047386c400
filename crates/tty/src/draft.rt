//! A line while bytes are sent to it.

ghost use Rattle.std.specs.Prelude.{◌≡◌, ◌++◌, ◌∷◌, [], take, length, IfOk, OnOk, OnErr};
ghost use Rattle.tty.specs.Editing.{is_empty};
ghost use Rattle.tty.specs.Buffer.{without_last, text_after};

use crate::keys::{ERASE, clears};
use std::alloc::{AllocError, Global};
use std::marker::Model;
use tcl_words::Text;

/// A line while bytes are sent to it: the kept front of the waiting text, followed by new bytes.
///
/// The waiting text is neither changed nor copied, so a failed send leaves the line unchanged. A
/// contract sees the waiting text and the new text.
#[derive(Drop)]
pub(crate) struct Draft<'a> {
    before: &'a [u8],
    /// The number of waiting bytes that are kept.
    kept: usize,
    fresh: Vec<u8>,
}

impl<'a> Model for Draft<'a> {
    ghost use Rattle.std.specs.Prelude.{◌++◌, ◌≤◌, take, length};
    ghost use Rattle.tty.specs.Drafted.{Drafted};

    ghost Value = { Drafted };

    ghost view = { λ d. record { before = d.before.now; text = take d.kept d.before.now ++ d.fresh.items } };

    ghost invariant = { λ d. d.kept ≤ length d.before.now };
}

impl<'a> Draft<'a> {
    /// Begins a send to a waiting line, without allocating.
    pub(crate) fn new(alloc: Global, before: &'a [u8]) -> Draft<'a>
        ensures { result ≡ record { before = before.now; text = before.now } }
    {
        Draft {
            before,
            kept: before.len(),
            fresh: Vec::new(alloc),
        }
    }

    pub(crate) fn is_empty(&self) -> bool
        ensures { result ≡ is_empty self.now.text }
    {
        self.kept == 0 && self.fresh.is_empty()
    }

    /// Returns a copy of the text.
    pub(crate) fn copied(&self, alloc: Global) -> Result<Text, AllocError>
        ensures { IfOk result (λ t. t ≡ self.now.text) }
    {
        let mut text = Text::from_slice(alloc, self.before.split_at(self.kept).0)?;
        text.extend(self.fresh.as_slice())?;
        Ok(text)
    }

    fn clear(&mut self)
        ensures { self.new ≡ record self.old { text = [] } }
    {
        self.kept = 0;
        self.fresh.clear();
    }

    fn erase(&mut self)
        ensures { self.new ≡ record self.old { text = without_last self.old.text } }
    {
        if self.fresh.pop().is_some() {
            return;
        }
        if self.kept > 0 {
            self.kept -= 1;
        }
    }

    fn push(&mut self, b: u8) -> Result<(), AllocError>
        ensures { OnOk result (self.new ≡ record self.old { text = self.old.text ++ b ∷ [] }) }
    {
        self.fresh.push(b)?;
        Ok(())
    }

    /// Adds a byte, which may edit or end the line.
    pub(crate) fn put(&mut self, b: u8) -> Result<(), AllocError>
        ensures { OnOk result (self.new ≡ record self.old { text = text_after b self.old.text }) }
    {
        if clears(b) {
            self.clear();
            return Ok(());
        }
        if b == ERASE {
            self.erase();
            return Ok(());
        }
        self.push(b)
    }

    /// Returns the number of waiting bytes that are kept, and the bytes after them.
    pub(crate) fn into_parts(self) -> (usize, Vec<u8>)
        ensures { take result.0 self.entry.before ++ result.1.items ≡ self.entry.text }
    {
        let Draft {
            before: _,
            kept,
            fresh,
        } = self;
        (kept, fresh)
    }
}

/// Truncates a text and appends bytes. On `AllocError` the text is unchanged.
pub(crate) fn replace_end(text: &mut Text, kept: usize, end: &[u8]) -> Result<(), AllocError>
    ensures replaced { OnOk result (text.new ≡ take kept text.old ++ end.now) }
    ensures same { OnErr result (text.new ≡ text.old) }
{
    text.bytes.reserve(end.len())?;
    text.bytes.truncate(kept);
    text.bytes.extend_from_slice(end)?;
    Ok(())
}
