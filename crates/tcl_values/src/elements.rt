//! The elements of a list, shared between owners.

ghost use Rattle.std.specs.Prelude.{◌≡◌, All, drop, take, length, slice_get, Some, IfOk, IfSome};
ghost use Rattle.tcl_values.specs.Lists.{elements_of};
ghost use Rattle.tcl_values.specs.Rows.{IsRow};
ghost use Rattle.std.specs.Option.{option_copied};
ghost use Rattle.tcl_words.specs.Lists.{ReadsAs};

use crate::listed::Listed;
use crate::rows::Rows;
use crate::value::Value;
use std::alloc::{AllocError, Global};
use std::marker::Model;
use std::rc::Rc;
use tcl_words::{Packed, Texts};

/// The elements of a list. A contract sees a list of byte lists.
#[derive(Drop)]
pub struct Elements {
    /// The list.
    list: Rc<Listed>,
    /// The elements taken out of the list, if they are kept.
    rows: Option<Rc<Rows>>,
}

impl Model for Elements {
    ghost use Rattle.std.specs.Prelude.{List, ℕ, All, IfSome};
    ghost use Rattle.tcl_values.specs.Lists.{elements_of};
    ghost use Rattle.tcl_values.specs.Rows.{IsRow};

    ghost Value = { List (List ℕ) };

    ghost view = { λ e. elements_of e.list.value };

    ghost invariant = { λ e. IfSome e.rows (λ r. All (IsRow (elements_of e.list.value)) r.value) };
}

impl Elements {
    /// Creates the elements of a list without keeping those that are taken out.
    pub(crate) fn new(list: Rc<Listed>) -> Elements
        ensures { ReadsAs list.value result }
    {
        list.elements();
        Elements { list, rows: None }
    }

    /// Creates the elements of a list, with those that were taken out.
    pub(crate) fn with_rows(list: Rc<Listed>, rows: Rc<Rows>) -> Elements
        requires { All (IsRow (elements_of list.value)) rows.value }
        ensures { ReadsAs list.value result }
    {
        list.elements();
        Elements {
            list,
            rows: Some(rows),
        }
    }

    /// Returns the number of elements.
    pub fn len(&self) -> usize
        ensures { result ≡ length self.now }
    {
        self.list.elements().len()
    }

    /// Returns the element at an index, counted from 0. `None` if there is none.
    pub fn get(&self, index: usize) -> Option<&[u8]>
        ensures { option_copied result ≡ slice_get self.now index }
    {
        self.list.elements().get(index)
    }

    /// Copies each element into a text of its own.
    pub fn texts(&self, alloc: Global) -> Result<Texts, AllocError>
        ensures { IfOk result (λ ts. ts ≡ self.now) }
    {
        self.list.elements().texts(alloc)
    }

    /// Copies the elements from index `from` up to but not including `to`, as far as they exist.
    pub fn part(&self, alloc: Global, from: usize, to: usize) -> Result<Packed, AllocError>
        ensures { IfOk result (λ p. p ≡ drop from (take to self.now)) }
    {
        self.list.elements().part(alloc, from, to)
    }

    /// Returns the element at an index, counted from 0, as a value. `None` if there is none.
    ///
    /// If the list is in a variable, long elements are shared: each taker gets the same bytes. A
    /// list that one taker parsed is available to all takers from the variable's next use on. A
    /// short element is copied, and so is a long one when it is first taken.
    pub fn value(&self, alloc: Global, index: usize) -> Result<Option<Value>, AllocError>
        ensures { IfOk result (λ v. v ≡ slice_get self.now index) }
    {
        if let Some(value) = self.at_hand(alloc, index)? {
            return Ok(Some(value));
        }
        match self.get(index) {
            Some(element) => {
                let value = Value::element(alloc, &self.rows, index, element)?;
                Ok(Some(value))
            }
            None => Ok(None),
        }
    }

    /// Returns the element at an index if it is already parsed as a list.
    fn at_hand(&self, alloc: Global, index: usize) -> Result<Option<Value>, AllocError>
        ensures { IfOk result (λ o. IfSome o (λ v. slice_get self.now index ≡ Some v)) }
    {
        let Some(rows) = &self.rows else {
            return Ok(None);
        };
        let Some(list) = rows.row(index) else {
            return Ok(None);
        };
        let value = Value::of_list(alloc, list.clone()?)?;
        Ok(Some(value))
    }
}
