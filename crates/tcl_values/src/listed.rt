//! Texts that are lists, with their elements.

ghost use Rattle.std.specs.Prelude.{◌≡◌, ◌≢◌, ◌+◌, ◌∷◌, [], nat_lt, ℕ, List, Ok, Err, IfOk, IfErr, OnOk, OnErr, IsTrue, IsFalse};
ghost use Rattle.tcl_words.specs.Lists.{ReadsAs, written};
ghost use Rattle.tcl_values.specs.Lists.{with_elements};

use crate::faults::GrowFault;
use std::alloc::{AllocError, Global};
use std::marker::Model;
use tcl_words::{
    ListFault, Packed, Text, one_list, read_list, stands_bare, write_behind, write_list,
};

/// A text that is a list, with its elements. A contract sees the text.
#[derive(Drop)]
pub struct Listed {
    /// The text.
    text: Text,
    /// The elements of the text.
    elements: Packed,
    /// Whether the text is the written form of the elements.
    is_written: bool,
}

impl Model for Listed {
    ghost use Rattle.std.specs.Prelude.{List, ℕ, ◌≡◌, true};
    ghost use Rattle.tcl_words.specs.Lists.{ReadsAs, written};

    ghost Value = { List ℕ };

    ghost view = { λ l. l.text };

    ghost invariant = { λ l. ReadsAs l.text l.elements × (l.is_written ≡ true → l.text ≡ written l.elements) };
}

/// Returns true only if the text is the written form of these elements: a single word that needs no
/// quoting.
fn is_bare(text: &[u8], elements: &Packed) -> bool
    requires { ReadsAs text.now elements.now }
    ensures { IsTrue result → text.now ≡ written elements.now }
{
    one_list();
    if elements.len() != 1 {
        return false;
    }
    stands_bare(text)
}

impl Listed {
    /// Parses a text as a list.
    ///
    /// `BadList` means that the text is no list.
    pub fn read(alloc: Global, text: &[u8]) -> Result<Listed, ListFault>
        ensures same { IfOk result (λ l. l ≡ text.now) }
        ensures bad { result ≡ Err ListFault.BadList → (l : List (List ℕ)) → ¬ ReadsAs text.now l }
    {
        let elements = read_list(alloc, text)?;
        let is_written = is_bare(text, &elements);
        Ok(Listed {
            text: Text::from_slice(alloc, text)?,
            elements,
            is_written,
        })
    }

    /// Creates the written form of elements, and keeps the elements.
    pub fn write(alloc: Global, elements: Packed) -> Result<Listed, AllocError>
        ensures { IfOk result (λ l. l ≡ written elements) }
    {
        one_list();
        let text = write_list(alloc, &elements)?;
        Ok(Listed {
            text,
            elements,
            is_written: true,
        })
    }

    /// Returns the bytes of the text.
    pub fn as_slice(&self) -> &[u8]
        ensures { result.now ≡ self.now }
    {
        self.text.as_slice()
    }

    /// Returns the elements of the text.
    pub fn elements(&self) -> &Packed
        ensures { ReadsAs self.now result.now }
    {
        &self.elements
    }

    /// Returns true only if the text is also the written form of a list with the text as its one
    /// element. Constant time.
    pub fn is_word(&self) -> bool
        ensures { IsTrue result → written (self.now ∷ []) ≡ self.now }
    {
        if !self.is_written {
            return false;
        }
        if self.elements.len() != 1 {
            return false;
        }
        match self.elements.get(0) {
            Some(element) => element.len() == self.text.len(),
            None => false,
        }
    }

    /// Returns the text without its elements.
    pub fn into_text(self) -> Text
        ensures { result ≡ self }
    {
        let Listed {
            text,
            elements: _,
            is_written: _,
        } = self;
        text
    }

    /// Returns the written form of the elements with more appended. `TooLong` if it would have more
    /// than `limit` bytes.
    pub fn with_more(&self, alloc: Global, more: &Packed, limit: usize) -> Result<Listed, GrowFault>
        ensures grown { IfOk result (λ m. with_elements limit self.now more.now ≡ Ok m) }
        ensures refused { IfErr result (λ f. f ≢ GrowFault.Memory → with_elements limit self.now more.now ≡ Err f) }
    {
        let mut all = self.elements.part(alloc, 0, self.elements.len())?;
        all.push_all(more)?;
        let list = Listed::write(alloc, all)?;
        if limit < list.as_slice().len() {
            return Err(GrowFault::TooLong);
        }
        Ok(list)
    }

    /// Appends elements, and makes the text the written form of all of them. `TooLong` if it would
    /// have more than `limit` bytes. On an error nothing changes.
    ///
    /// Time is linear in the length of the added elements if the text is in written form already.
    pub fn push_all(&mut self, alloc: Global, more: &Packed, limit: usize) -> Result<(), GrowFault>
        ensures grown { OnOk result (with_elements limit self.old more.now ≡ Ok self.new) }
        ensures refused { IfErr result (λ f. f ≢ GrowFault.Memory → with_elements limit self.old more.now ≡ Err f) }
        ensures kept { OnErr result (self.new ≡ self.old) }
    {
        if !self.push_behind(alloc, more, limit)? {
            *self = self.with_more(alloc, more, limit)?;
        }
        Ok(())
    }

    /// Does the same if the list is not empty and its text is in written form. Returns whether it
    /// is; otherwise nothing changes.
    fn push_behind(&mut self, alloc: Global, more: &Packed, limit: usize) -> Result<bool, GrowFault>
        ensures grown { IfOk result (λ done. IsTrue done → with_elements limit self.old more.now ≡ Ok self.new) }
        ensures left { IfOk result (λ done. IsFalse done → self.new ≡ self.old) }
        ensures refused { IfErr result (λ f. f ≢ GrowFault.Memory → with_elements limit self.old more.now ≡ Err f) }
        ensures kept { OnErr result (self.new ≡ self.old) }
    {
        let count = self.elements.len();
        if !self.is_written {
            return Ok(false);
        }
        if count == 0 {
            return Ok(false);
        }
        one_list();
        let behind = write_behind(alloc, more)?;
        if exceeds(limit, self.text.len(), behind.len()) {
            return Err(GrowFault::TooLong);
        }
        self.elements.push_all(more)?;
        match self.text.extend(behind.as_slice()) {
            Ok(()) => Ok(true),
            Err(_) => {
                self.elements.truncate(count);
                Err(GrowFault::Memory)
            }
        }
    }
}

/// Returns whether the sum of two numbers exceeds the limit.
fn exceeds(limit: usize, one: usize, other: usize) -> bool
    ensures { result ≡ nat_lt limit (one + other) }
{
    limit < one || limit - one < other
}
