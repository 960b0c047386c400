//! Entries by name.

ghost use Rattle.std.specs.Prelude.{◌≡◌, [], map, None, IfNone, IfOk, OnOk, OnErr};
ghost use Rattle.std.specs.Option.{option_copied, option_copied_mut};
ghost use Rattle.std.specs.Borrow.{sem};
ghost use Rattle.tcl_subst.specs.Entries.{find, without, with_entry};

use crate::byte_names::ByteNames;
use crate::short::{SHORT, Short};
use crate::short_names::ShortNames;
use std::alloc::{AllocError, Global};
use std::collections::BTreeMap;
use std::marker::Model;

/// A map from names to values. A contract sees a list of names and values, in byte order of names.
#[derive(Drop)]
pub struct Names<V> {
    short: ShortNames<V>,
    long: ByteNames<V>,
}

impl<V> Model for Names<V> {
    ghost use Rattle.std.specs.Prelude.{List, ℕ};
    ghost use Rattle.tcl_subst.specs.Both.{both};

    ghost Value = { List (List ℕ × V) };

    ghost view = { λ n. both n.short n.long };
}

impl<V> Names<V> {
    ghost use Rattle.tcl_subst.specs.Lending.{lends_entry};

    /// Creates an empty map without allocating.
    pub fn new(alloc: Global) -> Names<V>
        ensures { result ≡ [] }
    {
        Names {
            short: ShortNames::new(alloc),
            long: ByteNames::new(alloc),
        }
    }

    /// Returns the value of a name. `None` if the name is not present.
    #[inline(always)]
    pub fn get(&self, name: &[u8]) -> Option<&V>
        ensures { option_copied result ≡ find name.now self.now }
    {
        match Short::of(name) {
            Some(short) => self.short.get(&short),
            None => self.long.get(name),
        }
    }

    /// Returns the names and values, in order. It allocates a map of references.
    pub fn entries(&self, alloc: Global) -> Result<BTreeMap<Vec<u8>, &V>, AllocError>
        ensures { IfOk result (λ m. map (λ e. (e.0.items, e.1.now)) m.entries ≡ self.now) }
    {
        let mut all = BTreeMap::new(alloc);
        for (name, value) in self.long.entries() {
            if SHORT < name.len() {
                all.insert(Vec::from_slice(alloc, name.as_slice())?, value)?;
            }
        }
        for (name, value) in self.short.entries() {
            all.insert(name.name(alloc)?, value)?;
        }
        Ok(all)
    }

    /// Returns the value of a name for a change. `None` if the name is not present.
    pub fn get_mut(&mut self, name: &[u8]) -> Option<&mut V>
        ensures* writes_back { sem 𝓛 (lends_entry V.row name.now self.entry result) }
        ensures value { option_copied_mut result ≡ find name.now self.old }
    {
        match Short::of(name) {
            Some(short) => self.short.get_mut(&short),
            None => self.long.get_mut(name),
        }
    }

    /// Removes a name and returns its value. `None` if the name is not present.
    pub fn remove(&mut self, name: &[u8]) -> Option<V>
        ensures found { result ≡ find name.now self.old }
        ensures removed { self.new ≡ without name.now self.old }
        ensures left { IfNone result (self.new ≡ self.old) }
    {
        match Short::of(name) {
            Some(short) => self.short.remove(&short),
            None => self.long.remove(name),
        }
    }

    /// Sets the value of a name. On `AllocError` the map is unchanged.
    pub fn insert(&mut self, alloc: Global, name: &[u8], value: V) -> Result<(), AllocError>
    where
        V: Drop,
        ensures put { OnOk result (self.new ≡ with_entry name.now value self.old) }
        ensures kept { OnErr result (self.new ≡ self.old) }
    {
        if let Some(held) = self.get_mut(name) {
            *held = value;
            return Ok(());
        }
        self.insert_new(alloc, name, value)
    }

    /// Adds a name that is not present. On `AllocError` the map is unchanged.
    pub(crate) fn insert_new(
        &mut self,
        alloc: Global,
        name: &[u8],
        value: V,
    ) -> Result<(), AllocError>
    where
        V: Drop,
        ensures put { OnOk result (find name.now self.old ≡ None → self.new ≡ with_entry name.now value self.old) }
        ensures kept { OnErr result (self.new ≡ self.old) }
    {
        match Short::of(name) {
            Some(short) => self.short.insert_new(&short, value),
            None => self.long.insert_new(alloc, name, value),
        }
    }
}
