//! Standing patterns: those of `expect_before` and `expect_after` (expect(1)).

ghost use Rattle.std.specs.Prelude.{◌≡◌, ◌++◌, ◌∷◌, [], IfOk, OnOk, filter, length, nat_lt};
ghost use Rattle.expect_core.specs.Sides.{Served as ServedIds};
ghost use Rattle.expect_core.specs.Standing.{as_standing, ids_of_each, in_groups, left_by as left_by_of, own_entries, stays, with_ids};

use crate::child::Children;
use crate::served::{Served, ServedGroups};
use exp_match::{Entries, Entry};
use std::alloc::{AllocError, Global};
use std::marker::Model;

/// A standing pattern or keyword with its action.
#[derive(Drop)]
pub struct StandingEntry {
    /// The spawn ids that it is for.
    pub ids: Served,
    /// The pattern or keyword. Its group means nothing.
    pub entry: Entry,
}

/// The patterns and keywords of `expect_before` or of `expect_after`, in order. A contract sees a
/// list.
#[derive(Drop)]
pub struct StandingList {
    list: Vec<StandingEntry>,
}

impl Model for StandingList {
    ghost use Rattle.std.specs.Prelude.{List};
    ghost use Rattle.expect_core.specs.declared.standing.StandingEntry.{StandingEntry};

    ghost Value = { List StandingEntry };

    ghost view = { λ s. s.list.items };
}

impl StandingList {
    /// Creates an empty list without allocating.
    pub(crate) fn new(alloc: Global) -> StandingList
        ensures { result ≡ [] }
    {
        StandingList {
            list: Vec::new(alloc),
        }
    }

    /// Creates a list of these entries, each with the ids of its group.
    pub(crate) fn of(
        alloc: Global,
        groups: &ServedGroups,
        entries: Entries,
    ) -> Result<StandingList, AllocError>
        ensures { IfOk result (λ s. s ≡ as_standing groups.now entries) }
    {
        let mut made = StandingList::new(alloc);
        'entries: for entry in entries.list {
            let ids = groups.ids_of(alloc, entry.group)?;
            made.list.push(StandingEntry { ids, entry })?;
        }
        Ok(made)
    }

    /// Appends an entry with these ids, unless there are none.
    fn push(&mut self, ids: Served, standing: StandingEntry) -> Result<(), AllocError>
        ensures { OnOk result (self.new ≡ self.old ++ with_ids ids standing []) }
    {
        if ids.is_empty() {
            return Ok(());
        }
        let StandingEntry { entry, .. } = standing;
        self.list.push(StandingEntry { ids, entry })?;
        Ok(())
    }

    /// Returns what is left after these ids and those of closed children have left the entries.
    /// An entry without ids goes.
    #[tactic(auto, using(crate::proofs::Joining::left_more))]
    pub(crate) fn left_by(
        self,
        alloc: Global,
        leaving: &Served,
        children: &Children,
    ) -> Result<StandingList, AllocError>
        ensures { IfOk result (λ s. s ≡ left_by_of leaving.now children.now self) }
    {
        let mut left = StandingList::new(alloc);
        'entries: for standing in self.list {
            let ids = standing.ids.staying(alloc, leaving, children)?;
            left.push(ids, standing)?;
        }
        Ok(left)
    }

    /// Appends entries.
    pub(crate) fn append(&mut self, more: StandingList) -> Result<(), AllocError>
        ensures { OnOk result (self.new ≡ self.old ++ more) }
    {
        'entries: for standing in more.list {
            self.list.push(standing)?;
        }
        Ok(())
    }

    /// Appends copies of the entries that stand, each in a group of its own, and the ids of these
    /// groups.
    #[tactic(auto, using(crate::proofs::Joining::entries_joined, crate::proofs::Joining::groups_joined))]
    pub(crate) fn join(
        &self,
        alloc: Global,
        children: &Children,
        entries: &mut Entries,
        groups: &mut ServedGroups,
    ) -> Result<(), AllocError>
        ensures entries { OnOk result (entries.new ≡ entries.old ++ in_groups (length groups.old) (left_by_of [] children.now self.now)) }
        ensures groups { OnOk result (groups.new ≡ groups.old ++ ids_of_each (left_by_of [] children.now self.now)) }
    {
        let nobody = Served::new(alloc);
        'entries: for standing in &self.list {
            let ids = standing.ids.staying(alloc, &nobody, children)?;
            join_one(alloc, ids, standing, entries, groups)?;
        }
        Ok(())
    }
}

/// Appends a copy of a standing entry, in a group of its own with these ids. Without ids it appends
/// nothing.
fn join_one(
    alloc: Global,
    ids: Served,
    standing: &StandingEntry,
    entries: &mut Entries,
    groups: &mut ServedGroups,
) -> Result<(), AllocError>
    ensures entries { OnOk result (entries.new ≡ entries.old ++ in_groups (length groups.old) (with_ids ids standing.now [])) }
    ensures groups { OnOk result (groups.new ≡ groups.old ++ ids_of_each (with_ids ids standing.now [])) }
{
    if ids.is_empty() {
        return Ok(());
    }
    let entry = standing.entry.copied(alloc, groups.len())?;
    entries.push(entry)?;
    groups.push(ids)?;
    Ok(())
}

/// Appends the entries of the first `count` groups.
pub(crate) fn push_own(all: &mut Entries, entries: Entries, count: usize) -> Result<(), AllocError>
    ensures { OnOk result (all.new ≡ all.old ++ own_entries count entries) }
{
    'entries: for entry in entries.list {
        if entry.group < count {
            all.push(entry)?;
        }
    }
    Ok(())
}
