//! The spawn ids that patterns are for (expect(1), `-i`).

ghost use Rattle.std.specs.Prelude.{◌≡◌, ◌++◌, ◌∷◌, [], ◌==◌, IfOk, OnOk, filter, length, take, slice_index_or};
ghost use Rattle.std.specs.List.{list_any};
ghost use Rattle.expect_core.specs.Sides.{children_in, children_of, is_for, serving as serving_of};
ghost use Rattle.expect_core.specs.Standing.{all_ids as all_ids_of, is_same as is_same_id, stands, stays as stays_among};

use crate::child::Children;
use crate::place::Place;
use crate::plan::{Groups, Places};
use std::alloc::{AllocError, Global};
use std::marker::Model;

/// A spawn id of a list of ids.
#[derive(Clone, Copy)]
pub enum Id {
    /// `any`: each child that takes part.
    Any,
    /// The child at this place.
    One(Place),
}

impl Id {
    /// Returns whether it is the same id.
    fn is_same(self, other: Id) -> bool
        ensures { result ≡ is_same_id self other }
    {
        match self {
            Id::Any => match other {
                Id::Any => true,
                Id::One(_) => false,
            },
            Id::One(i) => match other {
                Id::Any => false,
                Id::One(k) => i.index() == k.index(),
            },
        }
    }

    /// Returns whether the id is for the child at a place.
    fn is_for(self, i: Place) -> bool
        ensures { result ≡ is_for i self }
    {
        match self {
            Id::Any => true,
            Id::One(k) => k.index() == i.index(),
        }
    }

    /// Returns whether its child was not closed.
    fn stands(self, children: &Children) -> bool
        ensures { result ≡ stands children.now self }
    {
        match self {
            Id::Any => true,
            Id::One(i) => children.standing(i).is_open(),
        }
    }
}

/// The spawn ids that a group of patterns is for, in the order of the arguments. A contract sees a
/// list.
#[derive(Drop)]
pub struct Served {
    list: Vec<Id>,
}

impl Model for Served {
    ghost use Rattle.std.specs.Prelude.{List};
    ghost use Rattle.expect_core.specs.declared.served.Id.{Id};

    ghost Value = { List Id };

    ghost view = { λ s. s.list.items };
}

impl Served {
    /// Creates an empty list without allocating.
    pub(crate) fn new(alloc: Global) -> Served
        ensures { result ≡ [] }
    {
        Served {
            list: Vec::new(alloc),
        }
    }

    /// Appends an id.
    pub(crate) fn push(&mut self, id: Id) -> Result<(), AllocError>
        ensures { OnOk result (self.new ≡ self.old ++ id ∷ []) }
    {
        self.list.push(id)?;
        Ok(())
    }

    /// Returns whether there are no ids.
    pub(crate) fn is_empty(&self) -> bool
        ensures { result ≡ (length self.now == 0) }
    {
        self.list.is_empty()
    }

    /// Returns a copy.
    pub(crate) fn copied(&self, alloc: Global) -> Result<Served, AllocError>
        ensures { IfOk result (λ s. s ≡ self.now) }
    {
        Ok(Served {
            list: Vec::from_slice(alloc, self.list.as_slice())?,
        })
    }

    /// Returns whether the id is in the list.
    fn has(&self, id: &Id) -> bool
        ensures { result ≡ list_any (is_same_id id.now) self.now }
    {
        self.list.iter().any(|other| id.is_same(*other))
    }

    /// Returns whether the group serves the child at a place.
    fn is_for(&self, i: Place) -> bool
        ensures { result ≡ list_any (is_for i) self.now }
    {
        self.list.iter().any(|id| id.is_for(i))
    }

    /// Appends the places of the children that the ids name.
    fn push_children(&self, places: &mut Places) -> Result<(), AllocError>
        ensures { OnOk result (places.new ≡ places.old ++ children_in self.now) }
    {
        'ids: for id in &self.list {
            let Id::One(i) = id else {
                continue;
            };
            places.push(*i)?;
        }
        Ok(())
    }

    /// Appends these ids.
    fn push_all(&mut self, ids: &Served) -> Result<(), AllocError>
        ensures { OnOk result (self.new ≡ self.old ++ ids.now) }
    {
        self.list.extend_from_slice(ids.list.as_slice())
    }

    /// Returns the ids that stay if others leave: those of children that were not closed, and that
    /// are none of the others.
    pub(crate) fn staying(
        &self,
        alloc: Global,
        leaving: &Served,
        children: &Children,
    ) -> Result<Served, AllocError>
        ensures { IfOk result (λ s. s ≡ filter (stays_among leaving.now children.now) self.now) }
    {
        let mut staying = Served::new(alloc);
        'ids: for id in &self.list {
            if stays(id, leaving, children) {
                staying.push(*id)?;
            }
        }
        Ok(staying)
    }
}

/// Returns whether an id stays if others leave.
fn stays(id: &Id, leaving: &Served, children: &Children) -> bool
    ensures { result ≡ stays_among leaving.now children.now id.now }
{
    id.stands(children) && !leaving.has(id)
}

/// The spawn ids of each group of patterns. A contract sees a list.
#[derive(Drop)]
pub struct ServedGroups {
    list: Vec<Served>,
}

impl Model for ServedGroups {
    ghost use Rattle.std.specs.Prelude.{List};
    ghost use Rattle.expect_core.specs.declared.served.Id.{Id};

    ghost Value = { List (List Id) };

    ghost view = { λ g. g.list.items };
}

impl ServedGroups {
    /// Creates an empty list without allocating.
    pub(crate) fn new(alloc: Global) -> ServedGroups
        ensures { result ≡ [] }
    {
        ServedGroups {
            list: Vec::new(alloc),
        }
    }

    /// Creates a list of one group.
    pub(crate) fn one(alloc: Global, ids: Served) -> Result<ServedGroups, AllocError>
        ensures { IfOk result (λ g. g ≡ ids ∷ []) }
    {
        let mut groups = ServedGroups::new(alloc);
        groups.push(ids)?;
        Ok(groups)
    }

    /// Appends a group.
    pub(crate) fn push(&mut self, ids: Served) -> Result<(), AllocError>
        ensures { OnOk result (self.new ≡ self.old ++ ids ∷ []) }
    {
        self.list.push(ids)?;
        Ok(())
    }

    /// Returns the number of groups.
    pub(crate) fn len(&self) -> usize
        ensures { result ≡ length self.now }
    {
        self.list.len()
    }

    /// Keeps the first `count` groups.
    pub(crate) fn truncate(&mut self, count: usize)
        ensures { self.new ≡ take count self.old }
    {
        self.list.truncate(count);
    }

    /// Returns a copy of a group's ids. There are none if there is no such group.
    pub(crate) fn ids_of(&self, alloc: Global, group: usize) -> Result<Served, AllocError>
        ensures { IfOk result (λ s. s ≡ slice_index_or self.now group []) }
    {
        if group < self.list.len() {
            return self.list[group].copied(alloc);
        }
        Ok(Served::new(alloc))
    }

    /// Returns the ids of all groups.
    pub(crate) fn all_ids(&self, alloc: Global) -> Result<Served, AllocError>
        ensures { IfOk result (λ s. s ≡ all_ids_of self.now) }
    {
        let mut all = Served::new(alloc);
        'groups: for ids in &self.list {
            all.push_all(ids)?;
        }
        Ok(all)
    }

    /// Returns the places of the children that the groups name, in their order.
    pub(crate) fn children(&self, alloc: Global) -> Result<Places, AllocError>
        ensures { IfOk result (λ p. p ≡ children_of self.now) }
    {
        let mut places = Places::new(alloc);
        'groups: for ids in &self.list {
            ids.push_children(&mut places)?;
        }
        Ok(places)
    }

    /// Returns the numbers of the groups that serve the child at a place.
    pub(crate) fn serving(&self, alloc: Global, i: Place) -> Result<Groups, AllocError>
        ensures { IfOk result (λ g. g ≡ serving_of i 0 self.now) }
    {
        let mut groups = Groups::new(alloc);
        'groups: for at in 0..self.list.len() {
            if self.list[at].is_for(i) {
                groups.push(at)?;
            }
        }
        Ok(groups)
    }
}
