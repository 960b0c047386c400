//! The joined values of a word's parts.

ghost use Rattle.std.specs.Prelude.{◌≡◌, ◌∷◌, [], Ok, Err, IfOk, IfSome, OnErr};
ghost use Rattle.tcl_subst.specs.Filling.{element_name};
ghost use Rattle.tcl_subst.specs.Recipes.{Takes, joined, joined_if_read, nothing, around, taken, fault_of, name_of};
ghost use Rattle.tcl_subst.specs.Variables.{value_of, member_of};

use crate::faults::SubstFault;
use crate::limits::are_too_long;
use crate::recipe::Step;
use crate::vars::Vars;
use std::alloc::{AllocError, AllocFailed, Global};
use std::collections::LinkedList;
use std::mem;
use tcl_values::Value;
use tcl_words::Text;

/// Why the substitution of a word failed.
#[derive(Drop)]
pub enum Refusal {
    /// Memory was refused.
    Memory,
    /// A value would be too long.
    TooLong,
    /// The variable or element with this name can't be read.
    Unread(SubstFault, Text),
}

impl From<AllocError> for Refusal {
    ghost use Rattle.tcl_subst.specs.declared.joined.Refusal.TheVariants.{Memory};

    ghost from_gives = { λ _ e. e ≡ Memory };

    fn from(_e: AllocError) -> Refusal {
        Refusal::Memory
    }
}

impl<T: Drop> From<AllocFailed<T>> for Refusal {
    ghost use Rattle.tcl_subst.specs.declared.joined.Refusal.TheVariants.{Memory};

    ghost from_gives = { λ _ e. e ≡ Memory };

    fn from(_e: AllocFailed<T>) -> Refusal {
        Refusal::Memory
    }
}

impl Refusal {
    /// Returns the error.
    pub fn fault(&self) -> SubstFault
        ensures { result ≡ fault_of self.now }
    {
        match self {
            Refusal::Memory => SubstFault::Memory,
            Refusal::TooLong => SubstFault::TooLong,
            Refusal::Unread(fault, _) => *fault,
        }
    }

    /// Returns the name of the variable that caused the error, or no bytes if none did.
    pub fn name(&self) -> &[u8]
        ensures { result.now ≡ name_of self.now }
    {
        match self {
            Refusal::Memory => &[],
            Refusal::TooLong => &[],
            Refusal::Unread(_, name) => name.as_slice(),
        }
    }
}

/// The joined values of a word's parts. Inside an index it is the index, and the text before the
/// index is kept.
#[derive(Drop)]
pub struct Joined {
    /// The value so far, or the innermost open index.
    pub current: Value,
    /// The texts around it, the innermost first.
    pub outer: LinkedList<Value>,
}

impl Joined {
    /// Creates an empty state.
    pub fn new(alloc: Global) -> Joined
        ensures { result ≡ nothing }
    {
        Joined {
            current: Value::new(alloc),
            outer: LinkedList::new(alloc),
        }
    }

    /// Appends a value. The first value is taken without copying it.
    pub fn join(&mut self, alloc: Global, value: Value) -> Result<(), Refusal>
        ensures taken { Takes result (joined value self.old) self.new }
        ensures kept { OnErr result (self.new ≡ self.old) }
    {
        if are_too_long(self.current.as_slice(), value.as_slice()) {
            return Err(Refusal::TooLong);
        }
        if self.current.len() == 0 {
            self.current = value;
            return Ok(());
        }
        self.current.append(alloc, value.as_slice())?;
        Ok(())
    }

    /// Appends the value of a variable that was read, or returns why it couldn't be read.
    fn join_read(
        &mut self,
        alloc: Global,
        read: Result<Value, SubstFault>,
        name: &[u8],
    ) -> Result<(), Refusal>
        ensures taken { Takes result (joined_if_read read name.now self.old) self.new }
        ensures memory { read ≡ Err SubstFault.Memory → result ≡ Err Refusal.Memory }
    {
        match read {
            Ok(value) => self.join(alloc, value),
            Err(SubstFault::Memory) => Err(Refusal::Memory),
            Err(fault) => Err(Refusal::Unread(fault, Text::from_slice(alloc, name)?)),
        }
    }

    fn variable(&mut self, alloc: Global, name: &Text, vars: &mut Vars) -> Result<(), Refusal>
        ensures taken { Takes result (joined_if_read (value_of name.now vars.old) name.now self.old) self.new }
        ensures same { vars.new ≡ vars.old }
    {
        let name = name.as_slice();
        let read = vars.settled(name);
        self.join_read(alloc, read, name)
    }

    fn open(&mut self, alloc: Global) -> Result<(), Refusal>
        ensures { Takes result (Ok (record { current = []; outer = self.old.current ∷ self.old.outer })) self.new }
    {
        let around = mem::replace(&mut self.current, Value::new(alloc));
        self.outer.push_front(around)?;
        Ok(())
    }

    /// Closes an index, and appends the element's value to the text around the index.
    fn close(&mut self, alloc: Global, array: &Text, vars: &mut Vars) -> Result<(), Refusal>
        ensures taken { Takes result (joined_if_read (member_of array.now self.old.current vars.old) (element_name array.now self.old.current) (around self.old.outer)) self.new }
        ensures same { vars.new ≡ vars.old }
    {
        let index = self.leave_index(alloc);
        self.member(alloc, array.as_slice(), index.as_slice(), vars)
    }

    /// Closes an index and returns it.
    fn leave_index(&mut self, alloc: Global) -> Value
        ensures index { result ≡ self.old.current }
        ensures left { self.new ≡ around self.old.outer }
    {
        let around = self.outer.pop_front().unwrap_or(Value::new(alloc));
        mem::replace(&mut self.current, around)
    }

    fn member(
        &mut self,
        alloc: Global,
        array: &[u8],
        index: &[u8],
        vars: &mut Vars,
    ) -> Result<(), Refusal>
        ensures taken { Takes result (joined_if_read (member_of array.now index.now vars.old) (element_name array.now index.now) self.old) self.new }
        ensures same { vars.new ≡ vars.old }
    {
        if let Some(value) = unread_member(array, index, vars) {
            return self.join(alloc, value);
        }
        let name = element_name(alloc, array, index)?;
        let read = vars.settled_member(array, index, name.as_slice());
        self.join_read(alloc, read, name.as_slice())
    }

    /// Runs a step that is no script.
    pub fn take(&mut self, alloc: Global, step: &Step, vars: &mut Vars) -> Result<(), Refusal>
        ensures taken { Takes result (taken step.now self.old vars.old) self.new }
        ensures same { vars.new ≡ vars.old }
    {
        match step {
            Step::Text(text) => self.join(alloc, text.shared(alloc)?),
            Step::Variable(name) => self.variable(alloc, name, vars),
            Step::Script(_) => Ok(()),
            Step::Open => self.open(alloc),
            Step::Close(array) => self.close(alloc, array, vars),
        }
    }
}

/// Returns the value of an array's element, unless it is missing or another owner has since parsed
/// it as a list.
fn unread_member(array: &[u8], index: &[u8], vars: &Vars) -> Option<Value>
    ensures { IfSome result (λ value. member_of array.now index.now vars.now ≡ Ok value) }
{
    match vars.get_member(array, index) {
        Ok(value) => {
            if value.was_read() {
                return None;
            }
            Some(value)
        }
        Err(_) => None,
    }
}

/// Returns the name `array(index)` of an element.
pub fn element_name(alloc: Global, array: &[u8], index: &[u8]) -> Result<Text, AllocError>
    ensures { IfOk result (λ t. t ≡ element_name array.now index.now) }
{
    let mut name = Text::from_slice(alloc, array)?;
    name.push(b'(')?;
    name.extend(index)?;
    name.push(b')')?;
    Ok(name)
}
