//! What a call changes.

ghost use Rattle.std.specs.Prelude.{◌≡◌, ◌++◌, ◌∷◌, [], IfOk, OnOk};
ghost use Rattle.expect_core.specs.Standing.{left_by};
ghost use Rattle.expect_core.specs.Effects.{added, changed, performed, stored as stored_of, to_come};

use crate::channels::Channel;
use crate::child::Change;
use crate::own::Own;
use crate::place::Place;
use crate::request::Act;
use crate::scoped::{set_all, set_one};
use crate::served::Served;
use crate::standing::StandingList;
use crate::stored::Stores;
use crate::texts::id_at;
use std::alloc::{AllocError, Global};
use std::marker::Model;
use std::mem;
use tcl_subst::Vars;
use tcl_values::Value;
use tcl_words::Text;
use tty::Modes;

/// A change to the child of a turn, or to what all children share.
#[derive(Drop)]
pub enum Effect {
    /// Appends to the transcript.
    Tell(Text),
    /// Appends to the transcript if `log_user` is on.
    Log(Text),
    /// Sets whether output goes to the transcript.
    LogUser(bool),
    /// Adds a child with these terminal modes.
    Add(Modes),
    /// Sets variables.
    Store(Stores),
    /// Sets the variable with this name to this value.
    Set(Text, Value),
    /// Appends a request to the child.
    Ask(Act),
    /// Appends a piece of the child's output to its match buffer and to the transcript, as any that
    /// is taken.
    Receive(Text),
    /// Opens a channel of the child with these bytes to read. Closing it is an error with the second
    /// text, unless that is empty.
    Reader(Text, Text),
    /// Opens a channel whose bytes the child takes.
    Writer,
    /// Passes over this many bytes of the channel with this index, whose end was met or not.
    Move(usize, usize, bool),
    /// Removes the channel with this index.
    Shut(usize),
    /// Makes the child that of standard error.
    Errors,
    /// Keeps the time of day, in milliseconds.
    Day(u64),
    /// Appends entries to those of `expect_before`, after these ids left them.
    Before(Served, StandingList),
    /// Appends entries to those of `expect_after`, after these ids left them.
    After(Served, StandingList),
    /// Changes the child. Without a child it changes the options of later children.
    Alter(Change),
}

/// A list of effects, in order. A contract sees a list.
#[derive(Drop)]
pub struct Effects {
    list: Vec<Effect>,
}

impl Model for Effects {
    ghost use Rattle.std.specs.Prelude.{List};
    ghost use Rattle.expect_core.specs.declared.effect.Effect.{Effect};

    ghost Value = { List Effect };

    ghost view = { λ e. e.list.items };
}

impl Effects {
    /// Creates an empty list without allocating.
    pub(crate) fn new(alloc: Global) -> Effects
        ensures { result ≡ [] }
    {
        Effects {
            list: Vec::new(alloc),
        }
    }

    /// Creates a list of one effect.
    pub(crate) fn one(alloc: Global, effect: Effect) -> Result<Effects, AllocError>
        ensures { IfOk result (λ e. e ≡ effect ∷ []) }
    {
        Effects::new(alloc).with(effect)
    }

    /// Inserts an effect before the others.
    pub(crate) fn behind(mut self, effect: Effect) -> Result<Effects, AllocError>
        ensures { IfOk result (λ e. e ≡ effect ∷ self) }
    {
        self.list.insert(0, effect)?;
        Ok(self)
    }

    /// Appends an effect.
    pub(crate) fn with(mut self, effect: Effect) -> Result<Effects, AllocError>
        ensures { IfOk result (λ e. e ≡ self ++ effect ∷ []) }
    {
        self.list.push(effect)?;
        Ok(self)
    }
}

impl Own {
    /// Adds a child that has not started, if there are fewer than 16.
    fn add(&mut self, alloc: Global, modes: Modes) -> Result<(), AllocError>
        ensures { OnOk result (self.new ≡ added modes self.old) }
    {
        let Some(i) = Place::new(self.children.len()) else {
            return Ok(());
        };
        let id = id_at(alloc, i)?;
        self.children
            .push(alloc, id, modes, self.size, self.remove_nulls)
    }

    /// Changes the options of later children.
    fn alter_new(&mut self, change: Change)
        ensures { self.new ≡ to_come change self.old }
    {
        match change {
            Change::Size(size) => self.size = size,
            Change::Removal(on) => self.remove_nulls = on,
            Change::Stand(_) => {}
            Change::Waited => {}
            Change::Sent(_) => {}
            Change::Take(_) => {}
        }
    }

    /// Opens a channel of a child with these bytes to read.
    fn open_reader(
        &mut self,
        alloc: Global,
        at: &Option<Place>,
        bytes: Text,
        ended: Text,
    ) -> Result<(), AllocError>
        ensures { OnOk result (self.new ≡ changed at.now (Effect.Reader bytes ended) self.old) }
    {
        match at {
            Some(i) => {
                let channel = Channel::reading(alloc, *i, bytes, ended)?;
                self.channels.open(channel)
            }
            None => Ok(()),
        }
    }

    /// Opens a channel whose bytes a child takes.
    fn open_writer(&mut self, alloc: Global, at: &Option<Place>) -> Result<(), AllocError>
        ensures { OnOk result (self.new ≡ changed at.now Effect.Writer self.old) }
    {
        match at {
            Some(i) => {
                let channel = Channel::writing(alloc, *i)?;
                self.channels.open(channel)
            }
            None => Ok(()),
        }
    }

    /// Makes a child that of standard error.
    fn take_errors(&mut self, at: &Option<Place>)
        ensures { self.new ≡ changed at.now Effect.Errors self.old }
    {
        if let Some(i) = at {
            self.errors = Some(*i);
        }
    }

    /// Appends entries to those of `expect_before`, after these ids left them.
    fn stand_before(
        &mut self,
        alloc: Global,
        ids: &Served,
        more: StandingList,
    ) -> Result<(), AllocError>
        ensures { OnOk result (self.new ≡ record self.old { before = left_by ids.now self.old.children self.old.before ++ more }) }
    {
        let old = mem::replace(&mut self.before, StandingList::new(alloc));
        self.before = old.left_by(alloc, ids, &self.children)?;
        self.before.append(more)
    }

    /// Appends entries to those of `expect_after`, after these ids left them.
    fn stand_after(
        &mut self,
        alloc: Global,
        ids: &Served,
        more: StandingList,
    ) -> Result<(), AllocError>
        ensures { OnOk result (self.new ≡ record self.old { after = left_by ids.now self.old.children self.old.after ++ more }) }
    {
        let old = mem::replace(&mut self.after, StandingList::new(alloc));
        self.after = old.left_by(alloc, ids, &self.children)?;
        self.after.append(more)
    }

    /// Appends a request to a child, if there is one.
    fn ask_at(&mut self, at: &Option<Place>, act: Act) -> Result<(), AllocError>
        ensures { OnOk result (self.new ≡ changed at.now (Effect.Ask act) self.old) }
    {
        match at {
            Some(i) => self.ask(*i, act),
            None => Ok(()),
        }
    }

    /// Appends a piece of a child's output, if there is a child.
    fn receive_at(
        &mut self,
        alloc: Global,
        at: &Option<Place>,
        piece: &[u8],
    ) -> Result<(), AllocError>
        ensures { OnOk result (self.new ≡ changed at.now (Effect.Receive piece.now) self.old) }
    {
        match at {
            Some(i) => self.receive(alloc, *i, piece),
            None => Ok(()),
        }
    }

    /// Changes a child, or without one the options of later children.
    fn alter_at(&mut self, at: &Option<Place>, change: Change) -> Result<(), AllocError>
        ensures { OnOk result (self.new ≡ changed at.now (Effect.Alter change) self.old) }
    {
        match at {
            Some(i) => {
                self.children.alter(*i, change)?;
                Ok(())
            }
            None => {
                self.alter_new(change);
                Ok(())
            }
        }
    }

    /// Performs an effect on everything but variables.
    fn change(
        &mut self,
        alloc: Global,
        at: &Option<Place>,
        effect: Effect,
    ) -> Result<(), AllocError>
        ensures { OnOk result (self.new ≡ changed at.now effect self.old) }
    {
        match effect {
            Effect::Store(_) => Ok(()),
            Effect::Set(_, _) => Ok(()),
            Effect::Tell(text) => self.tell(text.as_slice()),
            Effect::Log(text) => self.log(text.as_slice()),
            Effect::LogUser(on) => {
                self.log_user = on;
                Ok(())
            }
            Effect::Add(modes) => self.add(alloc, modes),
            Effect::Ask(act) => self.ask_at(at, act),
            Effect::Receive(piece) => self.receive_at(alloc, at, piece.as_slice()),
            Effect::Reader(bytes, ended) => self.open_reader(alloc, at, bytes, ended),
            Effect::Writer => self.open_writer(alloc, at),
            Effect::Move(n, count, met) => {
                self.channels.pass(n, count, met);
                Ok(())
            }
            Effect::Shut(n) => {
                self.channels.shut(n);
                Ok(())
            }
            Effect::Errors => {
                self.take_errors(at);
                Ok(())
            }
            Effect::Day(time) => {
                self.day = Some((time, self.clock));
                Ok(())
            }
            Effect::Before(ids, more) => self.stand_before(alloc, &ids, more),
            Effect::After(ids, more) => self.stand_after(alloc, &ids, more),
            Effect::Alter(change) => self.alter_at(at, change),
        }
    }

    /// Performs an effect. Returns the error if a variable can't be set.
    fn perform(
        &mut self,
        alloc: Global,
        vars: &mut Vars,
        at: &Option<Place>,
        effect: Effect,
    ) -> Result<Option<Value>, AllocError>
        ensures changed { OnOk result (self.new ≡ changed at.now effect self.old) }
        ensures stored { IfOk result (λ r. stored_of effect vars.old ≡ (vars.new, r)) }
    {
        match effect {
            Effect::Store(stores) => set_all(alloc, vars, stores),
            Effect::Set(name, value) => set_one(alloc, vars, name.as_slice(), value),
            other => {
                self.change(alloc, at, other)?;
                Ok(None)
            }
        }
    }

    /// Performs effects in order, up to the first that fails. Returns its error.
    pub(crate) fn perform_all(
        &mut self,
        alloc: Global,
        vars: &mut Vars,
        at: &Option<Place>,
        effects: Effects,
    ) -> Result<Option<Value>, AllocError>
        ensures { IfOk result (λ r. performed at.now effects vars.old self.old ≡ (r, vars.new, self.new)) }
    {
        'effects: for effect in effects.list {
            if let Some(text) = self.perform(alloc, vars, at, effect)? {
                return Ok(Some(text));
            }
        }
        Ok(None)
    }
}
