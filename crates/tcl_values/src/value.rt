//! Values of variables and words: short texts that need no allocation, and longer ones that are
//! shared.

ghost use Rattle.std.specs.Prelude.{◌≡◌, ◌≢◌, ◌++◌, ◌∷◌, [], length, None, Ok, Err, IfOk, IfErr, IfSome, OnOk, OnErr, IsTrue};
ghost use Rattle.tcl_words.specs.Lists.{ReadsAs, elements, written};
ghost use Rattle.tcl_values.specs.Forms.{bytes_of};
ghost use Rattle.tcl_values.specs.Lists.{elements_of, with_elements};

use crate::elements::Elements;
use crate::faults::GrowFault;
use crate::few::Few;
use crate::kept::Kept;
use crate::listed::Listed;
use crate::rows::Rows;
use crate::sheet::Sheet;
use std::alloc::{AllocError, Global};
use std::marker::Model;
use std::rc::Rc;
use tcl_words::{ListFault, Packed, Text, stands_bare};

/// The storage of a value's bytes.
#[derive(Drop)]
pub enum Form {
    /// A short text, stored in the value itself.
    Short(Few),
    /// A text that may have several owners.
    Shared(Rc<Kept>),
    /// A list that may have several owners.
    Listed(Sheet),
}

/// A value: any number of arbitrary bytes. A contract sees the list of its bytes.
#[derive(Drop)]
pub struct Value {
    /// The storage of the bytes.
    form: Form,
}

impl Model for Value {
    ghost use Rattle.std.specs.Prelude.{List, ℕ};

    ghost Value = { List ℕ };

    ghost use Rattle.tcl_values.specs.Forms.{bytes_of};

    ghost view = { λ v. bytes_of v.form };
}

/// Returns the short form of these bytes. `None` if they are too many.
#[inline(always)]
fn short(bytes: &[u8]) -> Option<Form>
    ensures { IfSome result (λ f. bytes_of f ≡ bytes.now) }
{
    match Few::of(bytes) {
        Some(text) => Some(Form::Short(text)),
        None => None,
    }
}

/// Returns the list that another owner of the bytes parsed, for use by this value.
fn taken_up(alloc: Global, list: &Rc<Listed>) -> Result<Sheet, AllocError>
    ensures { IfOk result (λ s. s ≡ list.now.value) }
{
    Sheet::new(alloc, list.clone()?)
}

impl Value {
    /// Creates an empty value without allocating.
    pub fn new(alloc: Global) -> Value
        ensures { result ≡ [] }
    {
        Value {
            form: Form::Short(Few::new()),
        }
    }

    /// Creates a value of a text's bytes.
    pub fn from_text(alloc: Global, text: Text) -> Result<Value, AllocError>
        ensures { IfOk result (λ v. v ≡ text) }
    {
        if let Some(form) = short(text.as_slice()) {
            return Ok(Value { form });
        }
        Ok(Value {
            form: Form::Shared(Rc::new(alloc, Kept::new(text))?),
        })
    }

    /// Creates a value from a copy of these bytes. Short ones need no allocation.
    #[inline(always)]
    pub fn from_slice(alloc: Global, bytes: &[u8]) -> Result<Value, AllocError>
        ensures { IfOk result (λ v. v ≡ bytes.now) }
    {
        if let Some(form) = short(bytes) {
            return Ok(Value { form });
        }
        Value::from_text(alloc, Text::from_slice(alloc, bytes)?)
    }

    /// Creates the written form of elements, and keeps the elements.
    pub fn written(alloc: Global, elements: Packed) -> Result<Value, AllocError>
        ensures { IfOk result (λ v. v ≡ written elements) }
    {
        Value::of_list(alloc, Rc::new(alloc, Listed::write(alloc, elements)?)?)
    }

    /// Creates the value of a list.
    pub(crate) fn of_list(alloc: Global, list: Rc<Listed>) -> Result<Value, AllocError>
        ensures { IfOk result (λ v. v ≡ list.value) }
    {
        Ok(Value {
            form: Form::Listed(Sheet::new(alloc, list)?),
        })
    }

    /// Creates a value of these bytes, which are a list's element at an index.
    pub(crate) fn element(
        alloc: Global,
        rows: &Option<Rc<Rows>>,
        index: usize,
        bytes: &[u8],
    ) -> Result<Value, AllocError>
        ensures { IfOk result (λ v. v ≡ bytes.now) }
    {
        if let Some(form) = short(bytes) {
            return Ok(Value { form });
        }
        match rows {
            Some(rows) => Ok(Value {
                form: Form::Shared(rows.text(alloc, index, bytes)?),
            }),
            None => Value::from_slice(alloc, bytes),
        }
    }

    /// Returns the bytes, in order.
    #[inline(always)]
    pub fn as_slice(&self) -> &[u8]
        ensures { result.now ≡ self.now }
    {
        match &self.form {
            Form::Short(text) => text.as_slice(),
            Form::Shared(text) => text.as_slice(),
            Form::Listed(list) => list.as_slice(),
        }
    }

    /// Returns the number of bytes.
    pub fn len(&self) -> usize
        ensures { result ≡ length self.now }
    {
        self.as_slice().len()
    }

    /// Returns the same value for another owner. It copies at most a short text.
    #[inline(always)]
    pub fn shared(&self, alloc: Global) -> Result<Value, AllocError>
        ensures { IfOk result (λ v. v ≡ self.now) }
    {
        let form = match &self.form {
            Form::Short(text) => Form::Short(*text),
            Form::Shared(text) => Form::Shared(text.clone()?),
            Form::Listed(list) => Form::Listed(list.shared()?),
        };
        Ok(Value { form })
    }

    /// Returns the bytes as a text. A short text is copied, and so is one with other owners.
    pub fn into_text(self, alloc: Global) -> Result<Text, AllocError>
        ensures { IfOk result (λ t. t ≡ self) }
    {
        match self.form {
            Form::Short(text) => Text::from_slice(alloc, text.as_slice()),
            Form::Shared(text) => match Rc::try_unwrap(text) {
                Ok(text) => Ok(text.into_text()),
                Err(text) => Text::from_slice(alloc, text.as_slice()),
            },
            Form::Listed(list) => list.into_text(alloc),
        }
    }

    /// Appends bytes. On `AllocError` the value is unchanged.
    ///
    /// Amortised constant time per byte, if the value isn't shared and wasn't parsed as a list.
    pub fn append(&mut self, alloc: Global, bytes: &[u8]) -> Result<(), AllocError>
        ensures appended { OnOk result (self.new ≡ self.old ++ bytes.now) }
        ensures kept { OnErr result (self.new ≡ self.old) }
    {
        match &mut self.form {
            Form::Short(text) => {
                if text.extend(bytes) {
                    return Ok(());
                }
            }
            Form::Shared(shared) => {
                if let Some(text) = Rc::get_mut(shared) {
                    return text.extend(bytes);
                }
            }
            Form::Listed(_) => {}
        }
        let mut text = Text::from_slice(alloc, self.as_slice())?;
        text.extend(bytes)?;
        *self = Value::from_text(alloc, text)?;
        Ok(())
    }

    /// Appends elements to the list that the value is, and makes the value the written form of all
    /// of them.
    ///
    /// `BadList` means that the value is no list. `TooLong` means that it would have more than
    /// `limit` bytes. On an error the value is unchanged.
    ///
    /// Time is linear in the length of the added elements, if the value isn't shared and got its
    /// elements by this function.
    pub fn append_elements(
        &mut self,
        alloc: Global,
        more: &Packed,
        limit: usize,
    ) -> Result<(), GrowFault>
        ensures grown { OnOk result (with_elements limit self.old more.now ≡ Ok self.new) }
        ensures refused { IfErr result (λ f. f ≢ GrowFault.Memory → with_elements limit self.old more.now ≡ Err f) }
        ensures kept { OnErr result (self.new ≡ self.old) }
    {
        if let Form::Listed(list) = &mut self.form {
            if list.push_all(alloc, more, limit)? {
                return Ok(());
            }
        }
        let list = self.list(alloc)?.with_more(alloc, more, limit)?;
        self.form = Form::Listed(Sheet::new(alloc, Rc::new(alloc, list)?)?);
        Ok(())
    }

    /// Returns true only if the value is also the written form of a list with the value as its one
    /// element. Constant time. For a long value it is known only after the value was parsed as a
    /// list.
    pub fn is_word(&self) -> bool
        ensures { IsTrue result → written (self.now ∷ []) ≡ self.now }
    {
        match &self.form {
            Form::Short(text) => stands_bare(text.as_slice()),
            Form::Shared(_) => false,
            Form::Listed(sheet) => sheet.is_word(),
        }
    }

    /// Returns whether an owner of the bytes parsed them as a list, so that `settle` may have work.
    /// Constant time.
    pub fn was_read(&self) -> bool {
        match &self.form {
            Form::Short(_) => false,
            Form::Shared(text) => text.was_read(),
            Form::Listed(sheet) => sheet.was_read(),
        }
    }

    /// Adopts the list that another owner parsed of the value's bytes, or of an element that was
    /// taken out. Its elements are then available without parsing. The bytes are unchanged.
    pub fn settle(&mut self, alloc: Global)
        ensures { self.new ≡ self.old }
    {
        match &mut self.form {
            Form::Short(_) => {}
            Form::Shared(_) => self.take_up(alloc),
            Form::Listed(sheet) => sheet.settle(alloc),
        }
    }

    /// Adopts the list that another owner parsed of the value's bytes.
    fn take_up(&mut self, alloc: Global)
        ensures { self.new ≡ self.old }
    {
        if let Form::Shared(text) = &self.form {
            if let Some(list) = text.found() {
                if let Ok(list) = taken_up(alloc, list) {
                    self.form = Form::Listed(list);
                }
            }
        }
    }

    /// Parses the value as a list and keeps the elements. The bytes are unchanged.
    ///
    /// `BadList` means that the value is no list.
    pub fn listed(&mut self, alloc: Global) -> Result<(), ListFault>
        ensures same { self.new ≡ self.old }
        ensures found { OnOk result (ReadsAs self.old (elements_of self.old)) }
        ensures bad { result ≡ Err ListFault.BadList → elements self.old ≡ None }
    {
        let list = self.list(alloc)?;
        if let Form::Listed(_) = &self.form {
            return Ok(());
        }
        self.form = Form::Listed(Sheet::new(alloc, list)?);
        Ok(())
    }

    /// Returns the elements of the list that the value is. Copies nothing if the value was parsed
    /// as a list before.
    ///
    /// `BadList` means that the value is no list.
    pub fn elements(&self, alloc: Global) -> Result<Elements, ListFault>
        ensures found { IfOk result (λ e. ReadsAs self.now e) }
        ensures bad { result ≡ Err ListFault.BadList → elements self.now ≡ None }
    {
        if let Form::Listed(sheet) = &self.form {
            return Ok(sheet.elements()?);
        }
        Ok(Elements::new(self.list(alloc)?))
    }

    /// Returns the value as a list with its elements. Copies nothing if it was parsed as a list
    /// before.
    fn list(&self, alloc: Global) -> Result<Rc<Listed>, ListFault>
        ensures same { IfOk result (λ l. l.value ≡ self.now) }
        ensures found { OnOk result (ReadsAs self.now (elements_of self.now)) }
        ensures bad { result ≡ Err ListFault.BadList → elements self.now ≡ None }
    {
        match &self.form {
            Form::Short(text) => {
                let list = Listed::read(alloc, text.as_slice())?;
                list.elements();
                Ok(Rc::new(alloc, list)?)
            }
            Form::Shared(text) => text.list(alloc),
            Form::Listed(sheet) => {
                let list = sheet.list()?;
                list.elements();
                Ok(list)
            }
        }
    }
}
