//! Entries by short names.

ghost use Rattle.std.specs.Prelude.{◌≡◌, [], map, IfNone, OnOk, OnErr};
ghost use Rattle.std.specs.Option.{option_copied, option_copied_mut};
ghost use Rattle.std.specs.Borrow.{sem};
ghost use Rattle.tcl_subst.specs.Entries.{order, find, without};
ghost use Rattle.tcl_subst.specs.Shorts.{text_of};
ghost use Rattle.tcl_subst.specs.Both.{Sorted};
ghost use Rattle.std.specs.BTreeMap.{insert_entry};

use crate::short::Short;
use std::alloc::{AllocError, Global};
use std::collections::BTreeMap;
use std::collections::btree_map::Iter;
use std::marker::Model;

/// A map from short names to values. A contract sees a list of names and values, in byte order of
/// names.
#[derive(Drop)]
pub struct ShortNames<V> {
    tree: BTreeMap<Short, V>,
}

impl<V> Model for ShortNames<V> {
    ghost use Rattle.std.specs.Prelude.{List, ℕ, map};
    ghost use Rattle.tcl_subst.specs.Shorts.{text_of};

    ghost Value = { List (List ℕ × V) };

    ghost view = { λ n. map (λ e. (text_of e.0.key, e.1)) n.tree.entries };
}

impl<V> ShortNames<V> {
    ghost use Rattle.tcl_subst.specs.ShortLending.{lends_entry};

    /// Creates an empty map without allocating.
    pub fn new(alloc: Global) -> ShortNames<V>
        ensures { result ≡ [] }
    {
        ShortNames {
            tree: BTreeMap::new(alloc),
        }
    }

    /// Returns the value of a name. `None` if the name is not present.
    #[inline(always)]
    pub fn get(&self, name: &Short) -> Option<&V>
        ensures { option_copied result ≡ find (text_of name.now.key) self.now }
    {
        self.tree.get(name)
    }

    /// Returns the names and values, in order.
    pub fn entries(&self) -> Iter<'_, Short, V>
        ensures entries { map (λ e. (text_of e.0.key, e.1)) result ≡ self.now }
        ensures sorted { Sorted self.now }
    {
        self.tree.iter()
    }

    /// Returns the value of a name for a change. `None` if the name is not present.
    pub fn get_mut(&mut self, name: &Short) -> Option<&mut V>
        ensures* writes_back { sem 𝓛 (lends_entry V.row (text_of name.now.key) self.entry result) }
        ensures value { option_copied_mut result ≡ find (text_of name.now.key) self.old }
    {
        self.tree.get_mut(name)
    }

    /// Removes a name and returns its value. `None` if the name is not present.
    pub fn remove(&mut self, name: &Short) -> Option<V>
        ensures found { result ≡ find (text_of name.now.key) self.old }
        ensures removed { self.new ≡ without (text_of name.now.key) self.old }
        ensures left { IfNone result (self.new ≡ self.old) }
        ensures sorted { Sorted self.old }
    {
        let _len = self.tree.len();
        self.tree.remove(name)
    }

    /// Adds a name that is not present. On `AllocError` the map is unchanged.
    pub fn insert_new(&mut self, name: &Short, value: V) -> Result<(), AllocError>
    where
        V: Drop,
        ensures put { OnOk result (self.new ≡ insert_entry order self.old (text_of name.now.key) value) }
        ensures kept { OnErr result (self.new ≡ self.old) }
    {
        self.tree.insert(*name, value)?;
        Ok(())
    }
}
