//! What an `expect` waits for.

ghost use Rattle.std.specs.Prelude.{◌≡◌, ◌∷◌, [], ◌++◌, Some, None, MatchOption, IfOk, OnOk};
ghost use Rattle.expect_core.specs.Heard.{groups_at};
ghost use Rattle.expect_core.specs.Sides.{rank_of, with_place, with_places, sides_of};
ghost use Rattle.expect_core.specs.Standing.{own_ids as own_ids_of, planned as planned_by};

use crate::own::Own;
use crate::place::Place;
use crate::served::ServedGroups;
use crate::spread::Spread;
use crate::standing::push_own;
use exp_match::{Entries, PatternList};
use std::alloc::{AllocError, Global};
use std::marker::Model;

/// The timeout of an `expect`.
#[derive(Clone, Copy, PartialEq, Eq)]
pub enum Span {
    /// It never times out.
    Never,
    /// This many seconds.
    Seconds(u64),
}

/// Groups of patterns. A contract sees a list of numbers.
#[derive(Drop)]
pub struct Groups {
    pub(crate) list: Vec<usize>,
}

impl Model for Groups {
    ghost use Rattle.std.specs.Prelude.{List, ℕ};

    ghost Value = { List ℕ };

    ghost view = { λ g. g.list.items };
}

impl Groups {
    /// Creates an empty list without allocating.
    pub(crate) fn new(alloc: Global) -> Groups
        ensures { result ≡ [] }
    {
        Groups {
            list: Vec::new(alloc),
        }
    }

    /// Appends the number of a group.
    pub(crate) fn push(&mut self, group: usize) -> Result<(), AllocError>
        ensures { OnOk result (self.new ≡ self.old ++ group ∷ []) }
    {
        self.list.push(group)?;
        Ok(())
    }

    /// Returns the numbers of the groups. The patterns before the first `-i` are group 0.
    pub fn as_slice(&self) -> &[usize]
        ensures { result.now ≡ self.now }
    {
        self.list.as_slice()
    }
}

/// The places of children, in some order. A contract sees a list of numbers.
#[derive(Drop)]
pub struct Places {
    pub(crate) list: Vec<Place>,
}

impl Model for Places {
    ghost use Rattle.std.specs.Prelude.{List, ℕ};

    ghost Value = { List ℕ };

    ghost view = { λ p. p.list.items };
}

impl Places {
    /// Creates an empty list without allocating.
    pub(crate) fn new(alloc: Global) -> Places
        ensures { result ≡ [] }
    {
        Places {
            list: Vec::new(alloc),
        }
    }

    /// Appends a place.
    pub(crate) fn push(&mut self, place: Place) -> Result<(), AllocError>
        ensures { OnOk result (self.new ≡ self.old ++ place ∷ []) }
    {
        self.list.push(place)?;
        Ok(())
    }

    /// Returns the number of places before this one, in a list in order.
    fn rank(&self, i: Place) -> usize
        ensures { result ≡ rank_of i self.now }
    {
        'places: for at in 0..self.list.len() {
            if self.list[at].index() >= i.index() {
                return at;
            }
        }
        self.list.len()
    }

    /// Inserts a place in its order, unless it is there.
    fn insert(&mut self, i: Place) -> Result<(), AllocError>
        ensures { OnOk result (self.new ≡ with_place i self.old) }
    {
        let at = self.rank(i);
        if at >= self.list.len() {
            self.list.push(i)?;
            return Ok(());
        }
        if self.list[at].index() == i.index() {
            return Ok(());
        }
        self.list.insert(at, i)?;
        Ok(())
    }

    /// Returns the places in order, each once.
    fn in_order(&self, alloc: Global) -> Result<Places, AllocError>
        ensures { IfOk result (λ p. p ≡ with_places self.now []) }
    {
        let mut ordered = Places::new(alloc);
        'places: for i in &self.list {
            ordered.insert(*i)?;
        }
        Ok(ordered)
    }
}

/// The children that take part in an `expect`, in order of places, each with its groups of
/// patterns. A contract sees a list.
#[derive(Drop)]
pub struct Sides {
    pub(crate) list: Vec<(Place, Groups)>,
}

impl Model for Sides {
    ghost use Rattle.std.specs.Prelude.{List, ℕ};

    ghost Value = { List (ℕ × List ℕ) };

    ghost view = { λ t. t.list.items };
}

impl Sides {
    /// Creates an empty list without allocating.
    pub(crate) fn new(alloc: Global) -> Sides
        ensures { result ≡ [] }
    {
        Sides {
            list: Vec::new(alloc),
        }
    }

    /// Returns each child with its groups, in order of places.
    pub fn as_slice(&self) -> &[(Place, Groups)]
        ensures { result.now ≡ self.now }
    {
        self.list.as_slice()
    }

    /// Returns the groups of the child at a place.
    pub(crate) fn groups(&self, i: Place) -> &[usize]
        ensures { result.now ≡ groups_at i self.now }
    {
        'sides: for (child, groups) in &self.list {
            if child.index() == i.index() {
                return groups.list.as_slice();
            }
        }
        &[]
    }

    /// Returns the children that groups of patterns name, in order of places, each with the groups
    /// that serve it.
    pub(crate) fn of(alloc: Global, groups: &ServedGroups) -> Result<Sides, AllocError>
        ensures { IfOk result (λ t. t ≡ sides_of groups.now) }
    {
        let places = groups.children(alloc)?.in_order(alloc)?;
        let mut sides = Sides::new(alloc);
        'places: for i in &places.list {
            let serving = groups.serving(alloc, *i)?;
            sides.list.push((*i, serving))?;
        }
        Ok(sides)
    }
}

/// What ended the wait of an `expect`.
#[derive(Clone, Copy)]
pub struct Met {
    /// The index of the pattern or keyword in its list.
    pub entry: usize,
    /// The child whose bytes were tested, or `None` after a timeout.
    pub child: Option<Place>,
}

/// What an `expect` waits for.
#[derive(Drop)]
pub struct Plan {
    /// The children that take part.
    pub sides: Sides,
    /// The spawn ids of each group: its own groups first, then those of standing patterns.
    pub ids: ServedGroups,
    /// Its own patterns and keywords between the standing ones, with their actions.
    pub list: PatternList,
    /// The timeout. It begins at the start, and again at each `exp_continue` without
    /// `-continue_timer`.
    pub span: Span,
    /// The last moment in milliseconds at which an item is in time, or `None` if it never times
    /// out.
    pub deadline: Option<u128>,
    /// What was met last, or `None` if nothing was. Its entry has the action that is evaluated.
    pub met: Option<Met>,
    /// What is sent after the timeout, and the place of the child: the rest of a `send -s` or
    /// `send -h`.
    pub pending: Option<(Place, Spread)>,
}

impl Plan {
    /// Returns its own list with the standing patterns, and the ids of its own groups.
    pub(crate) fn into_own(self) -> (PatternList, ServedGroups, Span)
        ensures { result ≡ (self.list, own_ids_of self, self.span) }
    {
        let Plan {
            ids,
            list,
            span,
            ..
        } = self;
        let mut groups = ids;
        groups.truncate(list.groups());
        (list, groups, span)
    }

    /// Creates what an `expect` waits for, given its own list and the ids of its own groups. The
    /// standing patterns are copied.
    pub(crate) fn new(
        alloc: Global,
        list: PatternList,
        groups: ServedGroups,
        span: Span,
        deadline: Option<u128>,
        own: &Own,
    ) -> Result<Plan, AllocError>
        ensures { IfOk result (λ p. p ≡ planned_by list groups span deadline own.now) }
    {
        let PatternList {
            entries,
            ids: words,
            timeout,
        } = list;
        let mut groups = groups;
        let count = groups.len();
        let mut all = Entries::new(alloc);
        own.before
            .join(alloc, &own.children, &mut all, &mut groups)?;
        push_own(&mut all, entries, count)?;
        own.after.join(alloc, &own.children, &mut all, &mut groups)?;
        let sides = Sides::of(alloc, &groups)?;
        let list = PatternList {
            entries: all,
            ids: words,
            timeout,
        };
        Ok(Plan {
            sides,
            ids: groups,
            list,
            span,
            deadline,
            met: None,
            pending: None,
        })
    }
}

/// A `Plan` on the heap, so that a turn that holds one is cheap to move. A contract sees the plan.
#[derive(Drop)]
pub struct PlanBox {
    plan: Box<Plan>,
}

impl Model for PlanBox {
    ghost use Rattle.expect_core.specs.declared.plan.Plan.{Plan};

    ghost Value = { Plan };

    ghost view = { λ b. b.plan.value };
}

impl PlanBox {
    /// Moves a plan to the heap.
    pub(crate) fn new(alloc: Global, plan: Plan) -> Result<PlanBox, AllocError>
        ensures { IfOk result (λ b. b ≡ plan) }
    {
        Ok(PlanBox {
            plan: Box::new(alloc, plan)?,
        })
    }

    /// Returns the plan.
    pub(crate) fn get(&self) -> &Plan
        ensures { result.now ≡ self.now }
    {
        &self.plan
    }

    /// Sets what was met last.
    pub(crate) fn meet(&mut self, met: Met)
        ensures { self.new ≡ record self.old { met = Some met } }
    {
        self.plan.met = Some(met);
    }

    /// Takes what is sent after the timeout.
    pub(crate) fn take_pending(&mut self) -> Option<(Place, Spread)>
        ensures { MatchOption result ((self.new ≡ self.old) × (self.old.pending ≡ None)) (λ s. self.old.pending ≡ Some s) }
    {
        self.plan.pending.take()
    }

    /// Moves the plan from the heap.
    pub(crate) fn into_plan(self) -> Plan
        ensures { result ≡ self }
    {
        Box::into_inner(self.plan)
    }
}
