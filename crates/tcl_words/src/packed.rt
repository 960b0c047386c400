//! Texts that are stored one after another.

ghost use Rattle.std.specs.Prelude.{◌≡◌, ◌++◌, ◌∷◌, ◌≤◌, [], take, drop, length, get_or, slice_get, IfOk, OnOk, OnErr};
ghost use Rattle.std.specs.Option.{option_copied};
ghost use Rattle.tcl_words.specs.Packed.{cut, Rise, begin};

use crate::bytes::{Text, Texts};
use std::alloc::{AllocError, Global};
use std::marker::Model;

/// Texts, stored one after another in one array, so that a short text takes little more than its
/// bytes. A contract sees a list of byte lists.
#[derive(Drop)]
pub struct Packed {
    /// The bytes of all texts, in order.
    bytes: Vec<u8>,
    /// The position after each text.
    ends: Vec<usize>,
}

impl Model for Packed {
    ghost use Rattle.std.specs.Prelude.{List, ℕ, length};
    ghost use Rattle.tcl_words.specs.Packed.{cut, Rise};

    ghost Value = { List (List ℕ) };

    ghost view = { λ p. cut 0 p.ends.items p.bytes.items };

    ghost invariant = { λ p. Rise 0 p.ends.items (length p.bytes.items) };
}

/// Returns the position of the text with this index. Past the last text it is the end of the last
/// one.
fn begin(ends: &[usize], index: usize) -> usize
    ensures { index ≤ length ends.now → result ≡ begin 0 ends.now index }
{
    match index.checked_sub(1) {
        None => 0,
        Some(before) => match ends.get(before) {
            None => 0,
            Some(end) => *end,
        },
    }
}

/// Returns the text with this index, counted from 0.
fn piece<'a>(bytes: &'a [u8], ends: &[usize], index: usize) -> Option<&'a [u8]>
    requires { Rise 0 ends.now (length bytes.now) }
    ensures { option_copied result ≡ slice_get (cut 0 ends.now bytes.now) index }
{
    let end = *ends.get(index)?;
    let front = bytes.split_at(end).0;
    Some(front.split_at(begin(ends, index)).1)
}

impl Packed {
    /// Creates an empty list.
    pub fn new(alloc: Global) -> Packed
        ensures { result ≡ [] }
    {
        Packed {
            bytes: Vec::new(alloc),
            ends: Vec::new(alloc),
        }
    }

    /// Returns the number of texts.
    pub fn len(&self) -> usize
        ensures { result ≡ length self.now }
    {
        self.ends.len()
    }

    /// Appends a text. On `AllocError` the list is unchanged.
    pub fn push(&mut self, text: &[u8]) -> Result<(), AllocError>
        ensures pushed { OnOk result (self.new ≡ self.old ++ text.now ∷ []) }
        ensures kept { OnErr result (self.new ≡ self.old) }
    {
        self.ends.reserve(1)?;
        self.bytes.extend_from_slice(text)?;
        self.ends.push_reserved(self.bytes.len());
        Ok(())
    }

    /// Appends texts. On `AllocError` some of them may be appended.
    fn push_each(&mut self, texts: &Packed) -> Result<(), AllocError>
        ensures pushed { OnOk result (self.new ≡ self.old ++ texts.now) }
        ensures front { take (length self.old) self.new ≡ self.old }
    {
        for index in 0..texts.len() {
            self.push(texts.at(index))?;
        }
        Ok(())
    }

    /// Appends texts. On `AllocError` the list is unchanged.
    pub fn push_all(&mut self, texts: &Packed) -> Result<(), AllocError>
        ensures pushed { OnOk result (self.new ≡ self.old ++ texts.now) }
        ensures kept { OnErr result (self.new ≡ self.old) }
    {
        let count = self.len();
        let pushed = self.push_each(texts);
        if pushed.is_err() {
            self.truncate(count);
        }
        pushed
    }

    /// Drops all but the first `count` texts.
    pub fn truncate(&mut self, count: usize)
        ensures { self.new ≡ take count self.old }
    {
        if self.ends.len() <= count {
            return;
        }
        let end = begin(self.ends.as_slice(), count);
        self.ends.truncate(count);
        self.bytes.truncate(end);
    }

    /// Returns the text with this index, counted from 0. `None` if there is none.
    pub fn get(&self, index: usize) -> Option<&[u8]>
        ensures { option_copied result ≡ slice_get self.now index }
    {
        piece(self.bytes.as_slice(), self.ends.as_slice(), index)
    }

    /// Returns the text with this index, counted from 0, or an empty text.
    pub(crate) fn at(&self, index: usize) -> &[u8]
        ensures { result.now ≡ get_or self.now index [] }
    {
        match self.get(index) {
            Some(text) => text,
            None => &[],
        }
    }

    /// Copies each text into a text of its own.
    pub fn texts(&self, alloc: Global) -> Result<Texts, AllocError>
        ensures { IfOk result (λ ts. ts ≡ self.now) }
    {
        let mut texts = Texts::new(alloc);
        for index in 0..self.len() {
            texts.push(Text::from_slice(alloc, self.at(index))?)?;
        }
        Ok(texts)
    }

    /// Copies the texts from index `from` up to but not including `to`, as far as they exist.
    pub fn part(&self, alloc: Global, from: usize, to: usize) -> Result<Packed, AllocError>
        ensures { IfOk result (λ p. p ≡ drop from (take to self.now)) }
    {
        let mut part = Packed::new(alloc);
        let mut at = from;
        while at < to {
            let Some(text) = self.get(at) else {
                return Ok(part);
            };
            part.push(text)?;
            at += 1;
        }
        Ok(part)
    }
}
