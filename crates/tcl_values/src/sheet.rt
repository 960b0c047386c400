//! Lists that several values share, with the elements that were taken out.

ghost use Rattle.std.specs.Prelude.{◌≡◌, ◌≢◌, ◌∷◌, ℕ, List, [], All, slice_get, Some, Ok, Err, IfOk, IfErr, OnOk, OnErr, IsTrue, IsFalse};
ghost use Rattle.tcl_words.specs.Lists.{ReadsAs, written};
ghost use Rattle.tcl_values.specs.Rows.{IsRow};
ghost use Rattle.tcl_values.specs.Lists.{elements_of, with_elements};

use crate::elements::Elements;
use crate::faults::GrowFault;
use crate::listed::Listed;
use crate::rows::Rows;
use std::alloc::{AllocError, Global};
use std::marker::Model;
use std::rc::Rc;
use tcl_words::{Packed, Text};

/// A list that may have several owners, with its elements that were taken out and its rows. A
/// contract sees the text.
#[derive(Drop)]
pub struct Sheet {
    /// The list.
    list: Rc<Listed>,
    /// The elements that were taken out.
    rows: Rc<Rows>,
}

impl Model for Sheet {
    ghost use Rattle.std.specs.Prelude.{List, ℕ, All};
    ghost use Rattle.tcl_values.specs.Lists.{elements_of};
    ghost use Rattle.tcl_values.specs.Rows.{IsRow};

    ghost Value = { List ℕ };

    ghost view = { λ s. s.list.value };

    ghost invariant = { λ s. All (IsRow (elements_of s.list.value)) s.rows.value };
}

/// Drops all rows and the other elements that were taken out. Does nothing if there is no row. On
/// `AllocError` nothing changes.
fn let_go(alloc: Global, rows: &mut Rc<Rows>) -> Result<(), AllocError>
    ensures gone { OnOk result (rows.new.value ≡ []) }
    ensures kept { OnErr result (rows.new ≡ rows.old) }
{
    if rows.has_none() {
        return Ok(());
    }
    *rows = Rc::new(alloc, Rows::new(alloc))?;
    Ok(())
}

/// Creates rows with one row.
fn one_row(alloc: Global, index: usize, list: Rc<Listed>) -> Result<Rc<Rows>, AllocError>
    ensures { (es : List (List ℕ)) → slice_get es index ≡ Some list.value → IfOk result (λ r. All (IsRow es) r.value) }
{
    let mut rows = Rows::new(alloc);
    rows.keep_row(index, list)?;
    Ok(Rc::new(alloc, rows)?)
}

/// Returns true only if the element at an index has these bytes.
fn has_bytes(elements: &Packed, index: usize, bytes: &[u8]) -> bool
    ensures { IsTrue result → slice_get elements.now index ≡ Some bytes.now }
{
    match elements.get(index) {
        None => false,
        Some(element) => {
            if element == bytes {
                return true;
            }
            false
        }
    }
}

impl Sheet {
    /// Creates a list from which nothing was taken out.
    pub fn new(alloc: Global, list: Rc<Listed>) -> Result<Sheet, AllocError>
        ensures { IfOk result (λ s. s ≡ list.value) }
    {
        let rows = Rc::new(alloc, Rows::new(alloc))?;
        Ok(Sheet { list, rows })
    }

    /// Returns the bytes of the text.
    pub fn as_slice(&self) -> &[u8]
        ensures { result.now ≡ self.now }
    {
        self.list.as_slice()
    }

    /// Returns the same list and rows for another owner.
    pub fn shared(&self) -> Result<Sheet, AllocError>
        ensures { IfOk result (λ s. s ≡ self.now) }
    {
        let list = self.list.clone()?;
        let rows = self.rows.clone()?;
        Ok(Sheet { list, rows })
    }

    /// Returns true only if the text is also the written form of a list with the text as its one
    /// element. Constant time.
    pub fn is_word(&self) -> bool
        ensures { IsTrue result → written (self.now ∷ []) ≡ self.now }
    {
        self.list.is_word()
    }

    /// Returns the list without the rows.
    pub fn list(&self) -> Result<Rc<Listed>, AllocError>
        ensures same { IfOk result (λ l. l.value ≡ self.now) }
    {
        self.list.clone()
    }

    /// Returns the elements.
    pub fn elements(&self) -> Result<Elements, AllocError>
        ensures { IfOk result (λ e. ReadsAs self.now e) }
    {
        let list = self.list.clone()?;
        let rows = self.rows.clone()?;
        Ok(Elements::with_rows(list, rows))
    }

    /// Returns whether an element that was taken out was parsed as a list, so that `settle` may
    /// have work. Constant time, except for a lookup in the rows.
    pub fn was_read(&self) -> bool {
        self.rows.read_last().is_some()
    }

    /// Makes the element that was taken out last a row, if an owner parsed it as a list. The text
    /// is unchanged.
    pub fn settle(&mut self, alloc: Global)
        ensures { self.new ≡ self.old }
    {
        if let Some((index, text)) = self.rows.read_last() {
            if let Some(list) = text.found() {
                self.settle_row(alloc, index, list);
            }
        }
    }

    /// Makes an element a row if it has the bytes of this list. If the rows are shared, it begins
    /// new rows with this one. The text is unchanged.
    fn settle_row(&mut self, alloc: Global, index: usize, list: &Rc<Listed>)
        ensures { self.new ≡ self.old }
    {
        if !has_bytes(self.list.elements(), index, list.as_slice()) {
            return;
        }
        let Ok(list) = list.clone() else {
            return;
        };
        match Rc::get_mut(&mut self.rows) {
            Some(rows) => {
                let _ = rows.keep_row(index, list);
            }
            None => {
                if let Ok(rows) = one_row(alloc, index, list) {
                    self.rows = rows;
                }
            }
        }
    }

    /// Returns the text. It is copied if it has other owners.
    pub fn into_text(self, alloc: Global) -> Result<Text, AllocError>
        ensures { IfOk result (λ t. t ≡ self) }
    {
        match Rc::try_unwrap(self.list) {
            Ok(list) => Ok(list.into_text()),
            Err(list) => Text::from_slice(alloc, list.as_slice()),
        }
    }

    /// Appends elements as `Listed::push_all` does and returns true, if the list isn't shared.
    /// Otherwise returns false and leaves the text unchanged. Drops the rows.
    pub fn push_all(
        &mut self,
        alloc: Global,
        more: &Packed,
        limit: usize,
    ) -> Result<bool, GrowFault>
        ensures grown { IfOk result (λ done. IsTrue done → with_elements limit self.old more.now ≡ Ok self.new) }
        ensures left { IfOk result (λ done. IsFalse done → self.new ≡ self.old) }
        ensures refused { IfErr result (λ f. f ≢ GrowFault.Memory → with_elements limit self.old more.now ≡ Err f) }
        ensures kept { OnErr result (self.new ≡ self.old) }
    {
        let_go(alloc, &mut self.rows)?;
        match Rc::get_mut(&mut self.list) {
            Some(list) => {
                list.push_all(alloc, more, limit)?;
                Ok(true)
            }
            None => Ok(false),
        }
    }
}
