//! Texts: bytes that need not be UTF-8, and lists of texts.

ghost use Rattle.std.specs.Prelude.{◌≡◌, ◌++◌, ◌∷◌, ◌↔◌, [], length, IfOk, IsTrue, OnOk, OnErr};

use std::alloc::{AllocError, Global};
use std::marker::Model;

/// A text: bytes of any value. A contract sees it as the list of its bytes.
#[derive(Drop)]
pub struct Text {
    /// The bytes, in order.
    pub bytes: Vec<u8>,
}

impl Model for Text {
    ghost use Rattle.std.specs.Prelude.{List, ℕ};

    ghost Value = { List ℕ };

    ghost view = { λ t. t.bytes.items };
}

impl Text {
    /// Creates an empty text without allocating.
    pub fn new(alloc: Global) -> Text
        ensures { result ≡ [] }
    {
        Text {
            bytes: Vec::new(alloc),
        }
    }

    /// Creates a text from a copy of these bytes.
    pub fn from_slice(alloc: Global, bytes: &[u8]) -> Result<Text, AllocError>
        ensures { IfOk result (λ t. t ≡ bytes.now) }
    {
        Ok(Text {
            bytes: Vec::from_slice(alloc, bytes)?,
        })
    }

    /// Returns the bytes, in order.
    pub fn as_slice(&self) -> &[u8]
        ensures { result.now ≡ self.now }
    {
        self.bytes.as_slice()
    }

    /// Returns the number of bytes.
    pub fn len(&self) -> usize
        ensures { result ≡ length self.now }
    {
        self.bytes.len()
    }

    /// Appends a byte. On `AllocError` the text is unchanged.
    pub fn push(&mut self, byte: u8) -> Result<(), AllocError>
        ensures pushed { OnOk result (self.new ≡ self.old ++ byte ∷ []) }
        ensures kept { OnErr result (self.new ≡ self.old) }
    {
        self.bytes.push(byte)?;
        Ok(())
    }

    /// Appends bytes. On `AllocError` the text is unchanged.
    pub fn extend(&mut self, bytes: &[u8]) -> Result<(), AllocError>
        ensures extended { OnOk result (self.new ≡ self.old ++ bytes.now) }
        ensures kept { OnErr result (self.new ≡ self.old) }
    {
        self.bytes.extend_from_slice(bytes)?;
        Ok(())
    }

    /// Returns whether another text has the same bytes.
    pub fn is_same(&self, other: &Text) -> bool
        ensures { IsTrue result ↔ (self.now ≡ other.now) }
    {
        self.as_slice() == other.as_slice()
    }

    /// Returns a copy.
    pub fn copied(&self, alloc: Global) -> Result<Text, AllocError>
        ensures { IfOk result (λ t. t ≡ self.now) }
    {
        Text::from_slice(alloc, self.as_slice())
    }
}

/// A list of texts, in order. A contract sees a list of byte lists.
#[derive(Drop)]
pub struct Texts {
    /// The texts, in order.
    pub list: Vec<Text>,
}

impl Model for Texts {
    ghost use Rattle.std.specs.Prelude.{List, ℕ};

    ghost Value = { List (List ℕ) };

    ghost view = { λ t. t.list.items };
}

impl Texts {
    /// Creates an empty list without allocating.
    pub fn new(alloc: Global) -> Texts
        ensures { result ≡ [] }
    {
        Texts {
            list: Vec::new(alloc),
        }
    }

    /// Returns the texts, in order.
    pub fn as_slice(&self) -> &[Text]
        ensures { result.now ≡ self.now }
    {
        self.list.as_slice()
    }

    /// Returns the number of texts.
    pub fn len(&self) -> usize
        ensures { result ≡ length self.now }
    {
        self.list.len()
    }

    /// Appends a text. On `AllocError` the list is unchanged.
    pub fn push(&mut self, text: Text) -> Result<(), AllocError>
        ensures pushed { OnOk result (self.new ≡ self.old ++ text ∷ []) }
        ensures kept { OnErr result (self.new ≡ self.old) }
    {
        self.list.push(text)?;
        Ok(())
    }

    /// Returns whether another list has the same texts in the same order.
    pub fn is_same(&self, other: &Texts) -> bool
        ensures { IsTrue result ↔ (self.now ≡ other.now) }
    {
        if self.len() != other.len() {
            return false;
        }
        for i in 0..self.len() {
            if !self.list[i].is_same(&other.list[i]) {
                return false;
            }
        }
        true
    }

    /// Returns a copy.
    pub fn copied(&self, alloc: Global) -> Result<Texts, AllocError>
        ensures { IfOk result (λ t. t ≡ self.now) }
    {
        copied_texts(alloc, self.list.as_slice())
    }
}

/// Returns a copy of texts.
pub fn copied_texts(alloc: Global, texts: &[Text]) -> Result<Texts, AllocError>
    ensures { IfOk result (λ t. t ≡ texts.now) }
{
    let mut made = Texts::new(alloc);
    for text in texts {
        made.push(text.copied(alloc)?)?;
    }
    Ok(made)
}
