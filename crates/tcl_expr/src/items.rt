//! Applies operators to values on the stack.

ghost use Rattle.std.specs.Prelude.{◌≡◌, IfOk, bytes_eq};
ghost use Rattle.std.specs.List.{list_any};
ghost use Rattle.tcl_words.specs.Lists.{elements};
ghost use Rattle.tcl_expr.specs.Number.{number_of};
ghost use Rattle.tcl_expr.specs.Truth.{truth_of};
ghost use Rattle.tcl_expr.specs.Value.{prefixed, combined, arithmetic, on_number, on_truth, on_element, negated, order_of, bit};

use crate::bareword::{is_same, read_truth, truth_from};
use crate::faults::ExprFault;
use crate::number::{read_number, write_number};
use crate::operators::{Arithmetic, Eager, Prefix};
use crate::progress::Operands;
use crate::stack::StackEntry;
use crate::values::{arithmetic, bit, holds, negated};
use std::alloc::{AllocError, Global};
use std::cmp::Ordering;
use tcl_values::{Elements, Value};
use tcl_words::Text;

/// The text of a value: borrowed if it exists, otherwise newly written.
#[derive(Drop)]
pub(crate) enum Shown<'a> {
    Lent(&'a [u8]),
    Written(Value),
}

impl Shown<'_> {
    pub(crate) fn as_slice(&self) -> &[u8]
        ensures { result.now ≡ shown_text self.now }
    {
        match self {
            Shown::Lent(bytes) => *bytes,
            Shown::Written(value) => value.as_slice(),
        }
    }
}

/// Returns whether a text is one of the elements.
fn is_element(text: &[u8], elements: &Elements) -> bool
    ensures { result ≡ list_any (bytes_eq text.now) elements.now }
{
    for index in 0..elements.len() {
        match elements.get(index) {
            None => return false,
            Some(element) => {
                if is_same(text, element) {
                    return true;
                }
            }
        }
    }
    false
}

impl Operands {
    ghost use Rattle.tcl_expr.specs.Stack.{item_text};
    ghost use Rattle.tcl_expr.specs.Reads.{Gives, Fails};

    /// Returns the text of a value.
    fn shown(&self, alloc: Global, item: StackEntry) -> Result<Shown<'_>, AllocError>
        ensures { IfOk result (λ s. shown_text s ≡ item_text self.now.given item) }
    {
        match item {
            StackEntry::Number(z) => Ok(Shown::Written(write_number(alloc, z)?)),
            StackEntry::Word(word) => Ok(Shown::Lent(word.text())),
            StackEntry::Given(k) => match self.given.as_slice().get(k) {
                None => Ok(Shown::Lent(b"")),
                Some(value) => Ok(Shown::Lent(value.as_slice())),
            },
        }
    }

    /// Returns a copy of the text of a value.
    fn text(&self, alloc: Global, item: StackEntry) -> Result<Text, AllocError>
        ensures { IfOk result (λ t. t ≡ item_text self.now.given item) }
    {
        let shown = self.shown(alloc, item)?;
        Text::from_slice(alloc, shown.as_slice())
    }

    /// Returns a value on the stack as one that the caller may keep. A given value is shared, not
    /// copied.
    pub(crate) fn value(&self, alloc: Global, item: StackEntry) -> Result<Value, AllocError>
        ensures { IfOk result (λ v. v ≡ item_text self.now.given item) }
    {
        match item {
            StackEntry::Number(z) => write_number(alloc, z),
            StackEntry::Word(word) => Value::from_slice(alloc, word.text()),
            StackEntry::Given(k) => match self.given.as_slice().get(k) {
                None => Ok(Value::new(alloc)),
                Some(value) => value.shared(alloc),
            },
        }
    }

    /// Returns the number that a value is. `None` if it is none.
    fn number(&self, item: StackEntry) -> Option<i64>
        ensures { result ≡ number_of (item_text self.now.given item) }
    {
        match item {
            StackEntry::Number(z) => Some(z),
            StackEntry::Word(_) => None,
            StackEntry::Given(k) => match self.given.as_slice().get(k) {
                None => None,
                Some(value) => read_number(value.as_slice()),
            },
        }
    }

    /// Returns the truth value of a value. `None` if it has none.
    pub(crate) fn truth(&self, item: StackEntry) -> Option<bool>
        ensures { result ≡ truth_of (item_text self.now.given item) }
    {
        match item {
            StackEntry::Number(z) => truth_from(Some(z), b""),
            StackEntry::Word(word) => Some(word.says()),
            StackEntry::Given(k) => match self.given.as_slice().get(k) {
                None => None,
                Some(value) => read_truth(value.as_slice()),
            },
        }
    }

    /// Returns the error for a value that is no number.
    pub(crate) fn not_number(&self, alloc: Global, item: StackEntry) -> ExprFault
        ensures { IsNotNumber result (item_text self.now.given item) }
    {
        match self.text(alloc, item) {
            Err(_) => ExprFault::Memory,
            Ok(text) => ExprFault::NotNumber(text),
        }
    }

    /// Applies a prefix operator on numbers to a value.
    fn on_number(&self, alloc: Global, op: Prefix, item: StackEntry) -> Result<i64, ExprFault>
        ensures { Gives result (on_number (item_text self.now.given item) (number_of (item_text self.now.given item)) (negated op)) }
    {
        match self.number(item) {
            None => Err(self.not_number(alloc, item)),
            Some(z) => negated(op, z),
        }
    }

    /// Returns the truth value of a value, or its opposite, as 1 or 0. An error if it has none.
    pub(crate) fn on_truth(
        &self,
        alloc: Global,
        item: StackEntry,
        opposite: bool,
    ) -> Result<i64, ExprFault>
        ensures { Gives result (on_truth (item_text self.now.given item) (truth_of (item_text self.now.given item)) (λ b. Ok (bit (opposed opposite b)))) }
    {
        match self.truth(item) {
            None => Err(self.not_number(alloc, item)),
            Some(b) => Ok(bit(b != opposite)),
        }
    }

    /// Applies a prefix operator to a value.
    pub(crate) fn prefixed(
        &self,
        alloc: Global,
        op: Prefix,
        item: StackEntry,
    ) -> Result<i64, ExprFault>
        ensures { Gives result (prefixed op (item_text self.now.given item)) }
    {
        match op {
            Prefix::Not => self.on_truth(alloc, item, true),
            Prefix::Minus => self.on_number(alloc, Prefix::Minus, item),
            Prefix::Plus => self.on_number(alloc, Prefix::Plus, item),
            Prefix::Complement => self.on_number(alloc, Prefix::Complement, item),
        }
    }

    /// Applies an operator on numbers to two values. The left one is checked first.
    fn computed(
        &self,
        alloc: Global,
        op: Arithmetic,
        a: StackEntry,
        b: StackEntry,
    ) -> Result<i64, ExprFault>
        ensures { Gives result (combined (Eager.Arithmetic op) (item_text self.now.given a) (item_text self.now.given b)) }
    {
        let Some(x) = self.number(a) else {
            return Err(self.not_number(alloc, a));
        };
        let Some(y) = self.number(b) else {
            return Err(self.not_number(alloc, b));
        };
        arithmetic(op, x, y)
    }

    /// Compares two values as texts.
    fn text_order(
        &self,
        alloc: Global,
        a: StackEntry,
        b: StackEntry,
    ) -> Result<Ordering, AllocError>
        ensures { IfOk result (λ o. o ≡ slice_cmp nat_cmp (item_text self.now.given a) (item_text self.now.given b)) }
    {
        let a = self.shown(alloc, a)?;
        let b = self.shown(alloc, b)?;
        Ok(a.as_slice().cmp(&b.as_slice()))
    }

    /// Compares two values: as numbers if both are numbers, otherwise as texts.
    fn order(&self, alloc: Global, a: StackEntry, b: StackEntry) -> Result<Ordering, AllocError>
        ensures { IfOk result (λ o. o ≡ order_of (number_of (item_text self.now.given a)) (number_of (item_text self.now.given b)) (item_text self.now.given a) (item_text self.now.given b)) }
    {
        match self.number(a) {
            None => self.text_order(alloc, a, b),
            Some(x) => match self.number(b) {
                None => self.text_order(alloc, a, b),
                Some(y) => Ok(x.cmp(&y)),
            },
        }
    }

    /// Returns whether two values have the same text.
    fn same(&self, alloc: Global, a: StackEntry, b: StackEntry) -> Result<bool, AllocError>
        ensures { IfOk result (λ s. s ≡ bytes_eq (item_text self.now.given a) (item_text self.now.given b)) }
    {
        let a = self.shown(alloc, a)?;
        let b = self.shown(alloc, b)?;
        Ok(is_same(a.as_slice(), b.as_slice()))
    }

    /// Returns whether the text of a value is an element of the list that another one is, or the
    /// opposite, as 1 or 0. An error if that one is no list.
    fn on_element(
        &self,
        alloc: Global,
        a: StackEntry,
        b: StackEntry,
        opposite: bool,
    ) -> Result<i64, ExprFault>
        ensures { Gives result (on_element (item_text self.now.given a) (elements (item_text self.now.given b)) (opposed opposite)) }
    {
        let text = self.shown(alloc, a)?;
        let list = self.value(alloc, b)?;
        let elements = list.elements(alloc)?;
        Ok(bit(is_element(text.as_slice(), &elements) != opposite))
    }

    /// Applies an operator to two values.
    pub(crate) fn combined(
        &self,
        alloc: Global,
        op: Eager,
        a: StackEntry,
        b: StackEntry,
    ) -> Result<i64, ExprFault>
        ensures { Gives result (combined op (item_text self.now.given a) (item_text self.now.given b)) }
    {
        match op {
            Eager::Arithmetic(op) => self.computed(alloc, op, a, b),
            Eager::Comparison(op) => Ok(bit(holds(op, self.order(alloc, a, b)?))),
            Eager::Same => Ok(bit(self.same(alloc, a, b)?)),
            Eager::Differs => Ok(bit(!self.same(alloc, a, b)?)),
            Eager::In => self.on_element(alloc, a, b, false),
            Eager::NotIn => self.on_element(alloc, a, b, true),
        }
    }
}

ghost use Rattle.std.specs.Prelude.{Ok};
ghost use Rattle.std.specs.Ordering.{nat_cmp};
ghost use Rattle.std.specs.Cmp.Lexicographic.{slice_cmp};
ghost use Rattle.tcl_expr.specs.Items.{shown_text, opposed, IsNotNumber};
