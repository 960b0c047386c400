//! Texts that remember the list that they were parsed as.

ghost use Rattle.std.specs.Prelude.{◌≡◌, ◌++◌, None, IfOk, IfSome, OnOk, OnErr};
ghost use Rattle.tcl_words.specs.Lists.{ReadsAs, elements};
ghost use Rattle.tcl_values.specs.Lists.{elements_of};

use crate::listed::Listed;
use std::alloc::{AllocError, Global};
use std::cell::OnceCell;
use std::marker::Model;
use std::rc::Rc;
use tcl_words::{ListFault, Text};

/// A text with several owners. Each owner may parse it as a list, and all owners share the result.
/// A contract sees the text.
///
/// No contract knows what a cell contains. The parsed list is therefore used only if its text is
/// this one. Comparing the two takes much less time than parsing the list again.
#[derive(Drop)]
pub struct Kept {
    /// The text.
    text: Text,
    /// The list that the text was parsed as, if it was.
    list: OnceCell<Rc<Listed>>,
}

impl Model for Kept {
    ghost use Rattle.std.specs.Prelude.{List, ℕ};

    ghost Value = { List ℕ };

    ghost view = { λ k. k.text };
}

impl Kept {
    /// Creates a text that is not parsed as a list yet.
    pub fn new(text: Text) -> Kept
        ensures { result ≡ text }
    {
        let list = OnceCell::new();
        Kept { text, list }
    }

    /// Returns the bytes of the text.
    pub fn as_slice(&self) -> &[u8]
        ensures { result.now ≡ self.now }
    {
        self.text.as_slice()
    }

    /// Returns the text without its list.
    pub fn into_text(self) -> Text
        ensures { result ≡ self }
    {
        let Kept { text, list: _ } = self;
        text
    }

    /// Appends bytes and drops the parsed list. On `AllocError` the text is unchanged.
    pub fn extend(&mut self, bytes: &[u8]) -> Result<(), AllocError>
        ensures appended { OnOk result (self.new ≡ self.old ++ bytes.now) }
        ensures kept { OnErr result (self.new ≡ self.old) }
    {
        self.list = OnceCell::new();
        self.text.extend(bytes)
    }

    /// Returns whether an owner parsed the text as a list.
    pub fn was_read(&self) -> bool {
        self.list.get().is_some()
    }

    /// Returns the list that the text was parsed as. `None` if it wasn't.
    pub fn found(&self) -> Option<&Rc<Listed>>
        ensures { IfSome result (λ l. l.now.value ≡ self.now) }
    {
        let list = self.list.get()?;
        if list.as_slice() == self.as_slice() {
            return Some(list);
        }
        None
    }

    /// Returns the text as a list with its elements. It parses the text only if no owner did
    /// before.
    ///
    /// `BadList` means that the text is no list.
    pub fn list(&self, alloc: Global) -> Result<Rc<Listed>, ListFault>
        ensures same { IfOk result (λ l. l.value ≡ self.now) }
        ensures found { OnOk result (ReadsAs self.now (elements_of self.now)) }
        ensures bad { result ≡ Err ListFault.BadList → elements self.now ≡ None }
    {
        if let Some(list) = self.found() {
            list.elements();
            return Ok(list.clone()?);
        }
        let list = Listed::read(alloc, self.as_slice())?;
        list.elements();
        let list = Rc::new(alloc, list)?;
        let _ = self.list.set(list.clone()?);
        Ok(list)
    }
}
