//! The elements of a list that were taken out as values, and those that are lists themselves.

ghost use Rattle.std.specs.Prelude.{◌≡◌, ℕ, List, [], All, slice_get, Some, IfOk, IfSome, IsTrue};
ghost use Rattle.tcl_values.specs.Rows.{IsRow};

use crate::kept::Kept;
use crate::listed::Listed;
use std::alloc::{AllocError, Global};
use std::cell::{Cell, RefCell};
use std::collections::BTreeMap;
use std::marker::Model;
use std::rc::Rc;
use tcl_words::Text;

/// An element of a list that is a list itself.
#[derive(Drop)]
pub struct Row {
    /// The index of the element.
    index: usize,
    /// The list that the element was parsed as.
    list: Rc<Listed>,
}

/// The long elements of a list that were taken out as values, and the rows: those of them that are
/// parsed as lists. A contract sees the rows.
///
/// Taking an element again gives the same text, with the list that it was parsed as. No contract
/// knows what a cell contains, so a text is used only if it has the element's bytes. A parsed
/// element becomes a row at the next use of the list's variable (`Sheet::settle`). A row needs no
/// comparison.
#[derive(Drop)]
pub struct Rows {
    /// The texts that were taken out, each at its index, up to the last one.
    texts: RefCell<Vec<Option<Rc<Kept>>>>,
    /// The index of the element that was taken out last.
    last: Cell<usize>,
    /// The rows, by their indexes.
    rows: BTreeMap<usize, Row>,
}

impl Model for Rows {
    ghost use Rattle.std.specs.Prelude.{List};
    ghost use Rattle.std.specs.Map.{values_of};
    ghost use Rattle.tcl_values.specs.declared.rows.Row.{Row};

    ghost Value = { List Row };

    ghost view = { λ r. values_of r.rows.entries };
}

impl Rows {
    /// Creates an empty collection without rows.
    pub fn new(alloc: Global) -> Rows
        ensures { result ≡ [] }
    {
        Rows {
            texts: RefCell::new(Vec::new(alloc)),
            last: Cell::new(0),
            rows: BTreeMap::new(alloc),
        }
    }

    /// Returns true only if there is no row.
    pub fn has_none(&self) -> bool
        ensures { IsTrue result → self.now ≡ [] }
    {
        self.rows.is_empty()
    }

    /// Returns the list that the element at an index is. `None` if it is no row.
    pub fn row(&self, index: usize) -> Option<&Rc<Listed>>
        ensures { (es : List (List ℕ)) → All (IsRow es) self.now → IfSome result (λ l. slice_get es index ≡ Some l.now.value) }
    {
        let row = self.rows.get(&index)?;
        if row.index == index {
            return Some(&row.list);
        }
        None
    }

    /// Adds a row: the list that the element at an index is. On `AllocError` it is not added.
    pub fn keep_row(&mut self, index: usize, list: Rc<Listed>) -> Result<(), AllocError>
        ensures { (es : List (List ℕ)) → All (IsRow es) self.old → slice_get es index ≡ Some list.value → All (IsRow es) self.new }
    {
        self.rows.insert(index, Row { index, list })?;
        Ok(())
    }

    /// Returns the text that was taken out last, with its index, if an owner parsed it as a list
    /// and it is no row yet. Constant time, except for a lookup in the rows.
    pub fn read_last(&self) -> Option<(usize, Rc<Kept>)> {
        let index = self.last.get();
        if self.rows.get(&index).is_some() {
            return None;
        }
        let Ok(texts) = self.texts.try_borrow() else {
            return None;
        };
        let text = texts.get(index)?.as_ref()?;
        if text.was_read() {
            return Some((index, text.clone().ok()?));
        }
        None
    }

    /// Returns the text that was taken out at an index, if it has these bytes.
    pub fn found(&self, index: usize, bytes: &[u8]) -> Option<Rc<Kept>>
        ensures { IfSome result (λ t. t.value ≡ bytes.now) }
    {
        let Ok(texts) = self.texts.try_borrow() else {
            return None;
        };
        let text = texts.get(index)?.as_ref()?;
        if text.as_slice() == bytes {
            return text.clone().ok();
        }
        None
    }

    /// Keeps the text that was taken out at an index.
    fn keep(&self, index: usize, text: &Rc<Kept>) -> Result<(), AllocError> {
        let Ok(mut texts) = self.texts.try_borrow_mut() else {
            return Ok(());
        };
        for _ in texts.len()..=index {
            texts.push(None)?;
        }
        if let Some(place) = texts.get_mut(index) {
            *place = Some(text.clone()?);
        }
        Ok(())
    }

    /// Returns a text of these bytes, which are the element at an index. It copies them only if
    /// they weren't taken out before.
    pub fn text(&self, alloc: Global, index: usize, bytes: &[u8]) -> Result<Rc<Kept>, AllocError>
        ensures { IfOk result (λ t. t.value ≡ bytes.now) }
    {
        self.last.set(index);
        if let Some(text) = self.found(index, bytes) {
            return Ok(text);
        }
        let text = Rc::new(alloc, Kept::new(Text::from_slice(alloc, bytes)?))?;
        self.keep(index, &text)?;
        Ok(text)
    }
}
