//! The variables of a script.

ghost use Rattle.std.specs.Prelude.{◌≡◌, ◌≢◌, ◌<◌, ◌==◌, ◌+◌, min, ◌∷◌, [], length, drop, true, Ok, Err, MatchResult, IfOk, IfSome, IfNone};
ghost use Rattle.std.specs.Option.{option_copied};
ghost use Rattle.tcl_subst.specs.Faults.{Gives, Changes, Tells};
ghost use Rattle.tcl_subst.specs.Report.{values_of};
ghost use Rattle.tcl_subst.specs.Slots.{here, leads, read};
ghost use Rattle.tcl_subst.specs.Variables.{list_of, home, name_there, place, place_from, scope_at, link_in, member_of, has, value_of, array_of, with_value, with_array, without_value, linked, linked_up, no_variables};
ghost use Rattle.tcl_subst.specs.Entries.{find};
ghost use Rattle.tcl_subst.specs.Writes.{write_of, set_to, appended, elements_appended};

use crate::arrays::{elements, make_array};
use crate::byte_names::ByteNames;
use crate::element::parts;
use crate::faults::SubstFault;
use crate::lists::list;
use crate::names::Names;
use crate::reads::{is_there, read, read_at};
use crate::report::{add_scope, listed_values};
use crate::scope::{Link, Scope, Slot, VariablePlace};
use crate::settles::settle;
use crate::unsets::{link, unset};
use crate::write::Write;
use crate::writes::write;
use std::alloc::{AllocError, Global};
use std::collections::VecDeque;
use std::marker::Model;
use tcl_values::Value;
use tcl_words::{Packed, Text};

/// The variables of a script: a list of scopes, the innermost of them being the current one
/// (Tcl(n), proc(n), global(n)).
///
/// A name is looked up in the current scope. If it is a link there, it names a variable of a scope
/// further out (upvar(n)). A name whose last byte is `)` and that contains a `(` is the name of an array
/// element: the array stands before the first `(`, the index after it.
///
/// Reading returns `NoVariable` if there is no such variable or element. It returns `IsArray` for
/// the name of an array, and `NotArray` for an element of a variable that is no array. Writing
/// returns `IsArray` and `NotArray` in the same cases, then `BadList`. It returns `TooLong` if the
/// value would have more than `VALUE_LIMIT` bytes.
///
/// Time is linear in the length of the name and logarithmic in the number of variables. Only short
/// values are copied.
#[derive(Drop)]
pub struct Vars {
    alloc: Global,
    /// The outermost scope.
    globals: Scope,
    /// The other scopes, the innermost first.
    locals: VecDeque<Scope>,
}

impl Model for Vars {
    ghost use Rattle.tcl_subst.specs.Variables.{Variables};

    ghost Value = { Variables };

    ghost view = { λ v. record { globals = v.globals; locals = v.locals.items } };
}

/// Returns where the name of a variable leads in a scope.
fn leads(scope: &Scope, alloc: Global, name: &[u8]) -> Result<VariablePlace, AllocError>
    ensures { IfOk result (λ p. p ≡ leads (find name.now scope.now)) }
{
    match scope.get(name) {
        None => Ok(here()),
        Some(Slot::Text(_)) => Ok(here()),
        Some(Slot::Array(_)) => Ok(here()),
        Some(Slot::Link(link)) => link.place().copied(alloc),
    }
}

fn here() -> VariablePlace
    ensures { result ≡ here }
{
    VariablePlace {
        calls: 0,
        name: None,
    }
}

/// Returns the sum of two numbers of calls, or the number of all calls if that is less.
fn bounded(calls: usize, more: usize, depth: usize) -> usize
    ensures { result ≡ min (calls + more) depth }
{
    if depth <= calls {
        return depth;
    }
    if depth - calls <= more {
        return depth;
    }
    calls + more
}

impl Vars {
    /// Creates an empty outermost scope without allocating.
    pub fn new(alloc: Global) -> Vars
        ensures { result ≡ no_variables }
    {
        Vars {
            alloc,
            globals: Names::new(alloc),
            locals: VecDeque::new(alloc),
        }
    }

    /// Returns the scope so many calls further out than the current one, or the outermost one.
    #[inline(always)]
    fn scope_at(&self, calls: usize) -> &Scope
        ensures { result.now ≡ scope_at calls self.now }
    {
        match self.locals.get(calls) {
            None => &self.globals,
            Some(scope) => scope,
        }
    }

    /// Returns the scope in which a variable is looked up, and its name there.
    #[inline(always)]
    fn there<'s: 'n, 'n>(&'s self, name: &'n [u8]) -> (&'s Scope, &'n [u8])
        ensures scope { result.0.now ≡ home name.now self.now }
        ensures name { result.1.now ≡ name_there name.now self.now }
    {
        let Some(scope) = self.locals.front() else {
            return (&self.globals, name);
        };
        match scope.get(name) {
            None => (scope, name),
            Some(Slot::Text(_)) => (scope, name),
            Some(Slot::Array(_)) => (scope, name),
            Some(Slot::Link(link)) => {
                let place = link.place();
                (self.scope_at(place.calls), place.name_or(name))
            }
        }
    }

    /// Returns where a variable of the current scope is.
    fn place(&self, name: &[u8]) -> Result<VariablePlace, AllocError>
        ensures { IfOk result (λ p. p ≡ place name.now self.now) }
    {
        match self.locals.front() {
            None => Ok(here()),
            Some(scope) => leads(scope, self.alloc, name),
        }
    }

    fn write(&mut self, name: &[u8], by: Write<'_>) -> Result<(), SubstFault>
        ensures { Changes result (with_value (write_of by.entry) name.now self.old) self.old self.new }
    {
        let alloc = self.alloc;
        let (variable, index) = parts(name);
        let place = self.place(variable)?;
        let variable = place.name_or(variable);
        if let Some(scope) = self.locals.get_mut(place.calls) {
            return write(scope, alloc, variable, index, by);
        }
        write(&mut self.globals, alloc, variable, index, by)
    }

    /// Returns the value of a variable or an element, shared. The errors are `NoVariable`,
    /// `IsArray`, `NotArray` and `Memory`.
    #[inline(always)]
    pub fn get(&self, name: &[u8]) -> Result<Value, SubstFault>
        ensures { Gives result (value_of name.now self.now) }
    {
        let (variable, index) = parts(name);
        let (scope, variable) = self.there(variable);
        let value = read_at(scope, variable, index)?;
        Ok(value.shared(self.alloc)?)
    }

    /// Returns the value of an array's element, shared.
    pub fn get_member(&self, array: &[u8], index: &[u8]) -> Result<Value, SubstFault>
        ensures { Gives result (member_of array.now index.now self.now) }
    {
        let (scope, array) = self.there(array);
        let value = read_at(scope, array, Some(index))?;
        Ok(value.shared(self.alloc)?)
    }

    /// Adopts the list that another owner parsed of the value of a variable or an element, unless
    /// memory is refused. No value changes.
    fn settle(&mut self, name: &[u8])
        ensures { self.new ≡ self.old }
    {
        let alloc = self.alloc;
        let (variable, index) = parts(name);
        let Ok(place) = self.place(variable) else {
            return;
        };
        let variable = place.name_or(variable);
        if let Some(scope) = self.locals.get_mut(place.calls) {
            return settle(scope, alloc, variable, index);
        }
        settle(&mut self.globals, alloc, variable, index)
    }

    /// Returns the value of a variable or an element, shared, as `get` does. If another owner
    /// parsed it, or an element taken out of it, as a list, the elements are kept from then on. No
    /// value changes.
    #[inline(always)]
    pub fn settled(&mut self, name: &[u8]) -> Result<Value, SubstFault>
        ensures same { self.new ≡ self.old }
        ensures given { Gives result (value_of name.now self.old) }
    {
        let value = self.get(name)?;
        if value.was_read() {
            drop(value);
            self.settle(name);
            return self.get(name);
        }
        Ok(value)
    }

    /// Like `settled`, for an array's element. `name` must be `array(index)`.
    pub fn settled_member(
        &mut self,
        array: &[u8],
        index: &[u8],
        name: &[u8],
    ) -> Result<Value, SubstFault>
        ensures same { self.new ≡ self.old }
        ensures given { Gives result (member_of array.now index.now self.old) }
    {
        let value = self.get_member(array, index)?;
        if value.was_read() {
            drop(value);
            self.settle(name);
            return self.get_member(array, index);
        }
        Ok(value)
    }

    /// Returns the value of a variable or an element of the outermost scope, shared.
    pub fn get_global(&self, name: &[u8]) -> Result<Value, SubstFault>
        ensures { Gives result (read name.now self.now.globals) }
    {
        let value = read(&self.globals, name)?;
        Ok(value.shared(self.alloc)?)
    }

    /// Returns the bytes of a variable or an element.
    pub fn peek(&self, name: &[u8]) -> Result<&[u8], SubstFault>
        ensures { MatchResult result (λ v. value_of name.now self.now ≡ Ok v.now) (λ f. value_of name.now self.now ≡ Err f) }
    {
        let (variable, index) = parts(name);
        let (scope, variable) = self.there(variable);
        Ok(read_at(scope, variable, index)?.as_slice())
    }

    /// Returns whether a variable or an element exists.
    pub fn exists(&self, name: &[u8]) -> bool
        ensures { result ≡ has name.now self.now }
    {
        let (variable, index) = parts(name);
        let (scope, variable) = self.there(variable);
        is_there(scope, variable, index)
    }

    /// Returns the elements of an array. `None` if there is no such array.
    pub fn array(&self, name: &[u8]) -> Option<&Names<Value>>
        ensures { option_copied result ≡ array_of name.now self.now }
    {
        let (scope, name) = self.there(name);
        elements(scope, name)
    }

    /// Makes a missing variable an array without elements. `NotArray` if it is a text. On an error
    /// nothing changes. The name is not that of an element.
    pub fn make_array(&mut self, name: &[u8]) -> Result<(), SubstFault>
        ensures { Changes result (with_array name.now self.old) self.old self.new }
    {
        let alloc = self.alloc;
        let place = self.place(name)?;
        let name = place.name_or(name);
        if let Some(scope) = self.locals.get_mut(place.calls) {
            return make_array(scope, alloc, name);
        }
        make_array(&mut self.globals, alloc, name)
    }

    /// Sets the value of a variable or an element. The errors are `IsArray`, `NotArray`, `TooLong`
    /// and `Memory`. On an error nothing changes.
    pub fn set(&mut self, name: &[u8], value: Value) -> Result<(), SubstFault>
        ensures { Changes result (with_value (set_to value) name.now self.old) self.old self.new }
    {
        self.write(name, Write::Set(value))
    }

    /// Appends bytes to the value of a variable or an element. A missing value counts as empty. The
    /// errors are `IsArray`, `NotArray`, `TooLong` and `Memory`. On an error nothing changes.
    ///
    /// Amortised constant time per byte, if the value isn't shared.
    pub fn append(&mut self, name: &[u8], bytes: &[u8]) -> Result<(), SubstFault>
        ensures { Changes result (with_value (appended bytes.now) name.now self.old) self.old self.new }
    {
        self.write(name, Write::Append(bytes))
    }

    /// Appends elements to the list that a variable or an element is, and makes it the written form
    /// of all of them. A missing value counts as empty. The errors are `IsArray`, `NotArray`,
    /// `BadList`, `TooLong` and `Memory`. On an error nothing changes.
    ///
    /// Time is linear in the length of the added elements, if the value isn't shared and got its
    /// elements by this function.
    pub fn append_elements(&mut self, name: &[u8], more: &Packed) -> Result<(), SubstFault>
        ensures { Changes result (with_value (elements_appended more.now) name.now self.old) self.old self.new }
    {
        self.write(name, Write::Elements(more))
    }

    /// Parses a variable or an element as a list, and keeps its elements. The errors are
    /// `NoVariable`, `IsArray`, `NotArray`, `BadList` and `Memory`. No value changes.
    pub fn listed(&mut self, name: &[u8]) -> Result<(), SubstFault>
        ensures same { self.new ≡ self.old }
        ensures told { Tells result (list_of name.now self.old) }
    {
        let alloc = self.alloc;
        let (variable, index) = parts(name);
        let place = self.place(variable)?;
        let variable = place.name_or(variable);
        if let Some(scope) = self.locals.get_mut(place.calls) {
            return list(scope, alloc, variable, index);
        }
        list(&mut self.globals, alloc, variable, index)
    }

    /// Returns the variables and elements of the outermost scope that have a value, with their
    /// values, in byte order of names.
    pub fn globals(&self) -> Result<Vec<(Text, Text)>, AllocError>
        ensures { IfOk result (λ v. v.items ≡ values_of self.now.globals) }
    {
        let mut values = ByteNames::new(self.alloc);
        add_scope(&mut values, self.alloc, &self.globals)?;
        listed_values(self.alloc, values)
    }

    /// Removes a variable, an array or an element. `NoVariable` if there is none, `NotArray` for an
    /// element of a variable that is no array. A link stays, and so does an array without elements.
    /// On an error nothing changes.
    pub fn unset(&mut self, name: &[u8]) -> Result<(), SubstFault>
        ensures { Changes result (without_value name.now self.old) self.old self.new }
    {
        let (variable, index) = parts(name);
        let place = self.place(variable)?;
        let variable = place.name_or(variable);
        if let Some(scope) = self.locals.get_mut(place.calls) {
            return unset(scope, variable, index);
        }
        unset(&mut self.globals, variable, index)
    }

    fn link(&mut self, place: VariablePlace, name: &[u8]) -> Result<(), SubstFault>
        ensures { Changes result (link_in place name.now self.old self.old.locals) self.old self.new }
    {
        let alloc = self.alloc;
        let link_to = Link::new(alloc, place)?;
        match self.locals.front_mut() {
            None => Ok(()),
            Some(scope) => link(scope, alloc, link_to, name),
        }
    }

    /// Links a name of the current scope to the variable of that name in the outermost scope. Does
    /// nothing in the outermost scope, or for the name of an element. `Exists` if the name is
    /// already the name of a variable. On an error nothing changes.
    pub fn link_global(&mut self, name: &[u8]) -> Result<(), SubstFault>
        ensures { Changes result (linked name.now self.old) self.old self.new }
    {
        let calls = self.locals.len();
        self.link(VariablePlace { calls, name: None }, name)
    }

    /// Links `my` of the current scope to `other` of the scope so many calls further out; past the
    /// last call that is the outermost one. If `other` is a link there, `my` leads where it leads.
    /// Does nothing in the outermost scope, or if `my` is the name of an element. `Exists` if `my`
    /// is already the name of a variable. On an error nothing changes.
    pub fn link_up(&mut self, calls: usize, other: &[u8], my: &[u8]) -> Result<(), SubstFault>
        ensures { Changes result (linked_up calls other.now my.now self.old) self.old self.new }
    {
        let place = self.place_from(calls, other)?;
        self.link(place, my)
    }

    /// Returns where a variable of the scope so many calls further out leads.
    fn place_from(&self, calls: usize, other: &[u8]) -> Result<VariablePlace, AllocError>
        ensures { IfOk result (λ p. p ≡ place_from calls other.now self.now) }
    {
        let place = leads(self.scope_at(calls), self.alloc, other)?;
        let name = Text::from_slice(self.alloc, place.name_or(other))?;
        Ok(VariablePlace {
            calls: bounded(calls, place.calls, self.locals.len()),
            name: Some(name),
        })
    }

    /// Returns the number of calls under way.
    pub fn calls(&self) -> usize
        ensures { result ≡ length self.now.locals }
    {
        self.locals.len()
    }

    /// Begins a scope without variables, which becomes the current one. On an error nothing
    /// changes.
    pub fn push_scope(&mut self) -> Result<(), SubstFault>
        ensures { Changes result (Ok (record self.old { locals = [] ∷ self.old.locals })) self.old self.new }
    {
        self.locals.push_front(Names::new(self.alloc))?;
        Ok(())
    }

    /// Returns whether the current scope is the outermost one.
    pub fn is_outermost(&self) -> bool
        ensures { result ≡ (length self.now.locals == 0) }
    {
        self.locals.is_empty()
    }

    /// Ends the current scope. Requires that it isn't the outermost one.
    pub fn pop_scope(&mut self)
        requires { 0 < length self.old.locals }
        ensures { self.new ≡ record self.old { locals = drop 1 self.old.locals } }
    {
        self.locals.pop_front();
    }
}
