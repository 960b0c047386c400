//! Entries, ordered by the bytes of their names.

ghost use Rattle.std.specs.Prelude.{◌≡◌, [], map, IfNone, OnOk, OnErr};
ghost use Rattle.std.specs.Option.{option_copied, option_copied_mut};
ghost use Rattle.std.specs.Borrow.{sem};
ghost use Rattle.tcl_subst.specs.Entries.{order, find, without, with_entry};
ghost use Rattle.tcl_subst.specs.Both.{Sorted};
ghost use Rattle.std.specs.BTreeMap.{insert_entry};

use std::alloc::{AllocError, Global};
use std::collections::BTreeMap;
use std::collections::btree_map::{IntoIter, Iter};
use std::marker::Model;

/// A map from names of any length to values. A contract sees a list of names and values, in byte
/// order of names.
#[derive(Drop)]
pub struct ByteNames<V> {
    tree: BTreeMap<Vec<u8>, V>,
}

impl<V> Model for ByteNames<V> {
    ghost use Rattle.std.specs.Prelude.{List, ℕ, map};

    ghost Value = { List (List ℕ × V) };

    ghost view = { λ n. map (λ e. (e.0.items, e.1)) n.tree.entries };
}

impl<V> ByteNames<V> {
    ghost use Rattle.tcl_subst.specs.ByteLending.{lends_entry};

    /// Creates an empty map without allocating.
    pub fn new(alloc: Global) -> ByteNames<V>
        ensures { result ≡ [] }
    {
        ByteNames {
            tree: BTreeMap::new(alloc),
        }
    }

    /// Returns the value of a name. `None` if the name is not present.
    #[inline(always)]
    pub fn get(&self, name: &[u8]) -> Option<&V>
        ensures { option_copied result ≡ find name.now self.now }
    {
        self.tree.get(name)
    }

    /// Returns the names and values, in order.
    pub fn entries(&self) -> Iter<'_, Vec<u8>, V>
        ensures entries { map (λ e. (e.0.items, e.1)) result ≡ self.now }
        ensures sorted { Sorted self.now }
    {
        self.tree.iter()
    }

    /// Returns the names and values by value, in order.
    pub fn into_entries(self) -> IntoIter<Vec<u8>, V>
    where
        V: Drop,
        ensures { map (λ e. (e.0.items, e.1)) result ≡ self }
    {
        self.tree.into_iter()
    }

    /// Returns the value of a name for a change. `None` if the name is not present.
    pub fn get_mut(&mut self, name: &[u8]) -> Option<&mut V>
        ensures* writes_back { sem 𝓛 (lends_entry V.row name.now self.entry result) }
        ensures value { option_copied_mut result ≡ find name.now self.old }
    {
        self.tree.get_mut(name)
    }

    /// Removes a name and returns its value. `None` if the name is not present.
    pub fn remove(&mut self, name: &[u8]) -> Option<V>
        ensures found { result ≡ find name.now self.old }
        ensures removed { self.new ≡ without name.now self.old }
        ensures left { IfNone result (self.new ≡ self.old) }
        ensures sorted { Sorted self.old }
    {
        let _len = self.tree.len();
        self.tree.remove(name)
    }

    /// Sets the value of a name. On `AllocError` the map is unchanged.
    pub fn insert(&mut self, alloc: Global, name: &[u8], value: V) -> Result<(), AllocError>
    where
        V: Drop,
        ensures put { OnOk result (self.new ≡ with_entry name.now value self.old) }
        ensures kept { OnErr result (self.new ≡ self.old) }
    {
        if let Some(held) = self.get_mut(name) {
            *held = value;
            return Ok(());
        }
        self.insert_new(alloc, name, value)
    }

    /// Adds a name that is not present. On `AllocError` the map is unchanged.
    pub fn insert_new(&mut self, alloc: Global, name: &[u8], value: V) -> Result<(), AllocError>
    where
        V: Drop,
        ensures put { OnOk result (self.new ≡ insert_entry order self.old name.now value) }
        ensures kept { OnErr result (self.new ≡ self.old) }
    {
        self.tree.insert(Vec::from_slice(alloc, name)?, value)?;
        Ok(())
    }
}
