//! The children of a script.

ghost use Rattle.std.specs.Prelude.{◌≡◌, ◌<◌, ◌≤◌, ◌+◌, ◌-◌, ◌++◌, ◌∷◌, [], min, nat_le, length, take, drop, position, true, slice_set, IfOk, IfSome, OnOk};
ghost use Rattle.circular_buffer.specs.Buffer.{keep_last};
ghost use Rattle.exp_match.specs.Choice.{HasNone, LeavesNone, with_spans};
ghost use Rattle.exp_match.specs.Decide.{decide};
ghost use Rattle.tty.specs.Sends.{handed_by, line_after, echo_of};
ghost use Rattle.tty.specs.Output.{convert};
ghost use Rattle.expect_core.specs.Awaited.{buffer_of};
ghost use Rattle.expect_core.specs.Effects.{altered};
ghost use Rattle.expect_core.specs.Ids.{is_born, is_open as is_open_of, has_id};
ghost use Rattle.expect_core.specs.Owned.{child_as, child_in};

use crate::kept::Kept;
use crate::lanes::place;
use crate::place::Place;
use exp_match::{Matchers, PatternList, Picked, Spans};
use std::alloc::{AllocError, Global};
use std::marker::Model;
use tcl_values::Value;
use tcl_words::Text;
use tty::{Actions, Line, Modes, Seen, convert_behind};

/// Whether a child has a spawn id, and whether it is still open.
#[derive(Clone, Copy, PartialEq, Eq)]
pub enum Standing {
    /// It was requested, but has not started. It has no spawn id.
    Unborn,
    /// It has started.
    Open,
    /// It was closed: by `close`, at the end of its output, or after a failed read.
    Closed,
}

impl Standing {
    /// Returns whether the child has a spawn id.
    fn is_born(self) -> bool
        ensures { result ≡ is_born self }
    {
        match self {
            Standing::Unborn => false,
            Standing::Open => true,
            Standing::Closed => true,
        }
    }

    /// Returns whether the child is open.
    pub(crate) fn is_open(self) -> bool
        ensures { result ≡ is_open_of self }
    {
        match self {
            Standing::Unborn => false,
            Standing::Open => true,
            Standing::Closed => false,
        }
    }
}

/// A change of a child.
#[derive(Clone, Copy)]
pub enum Change {
    /// It has started, or was closed.
    Stand(Standing),
    /// A `wait` has asked for its end.
    Waited,
    /// This many more bytes that were sent to it were accepted.
    Sent(u64),
    /// This many first bytes leave its match buffer, or all if there are fewer.
    Take(usize),
    /// The size of its match buffer becomes this many bytes.
    Size(usize),
    /// NUL bytes in its output are removed from now on, or kept.
    Removal(bool),
}

/// A child that was requested.
#[derive(Drop)]
pub struct Child {
    /// Its spawn id.
    pub id: Text,
    /// Whether it has started, or was closed.
    pub standing: Standing,
    /// Whether a `wait` has asked for its end.
    pub waited: bool,
    /// The input side of its terminal.
    pub line: Line,
    /// Its match buffer.
    pub kept: Kept,
    /// Whether NUL bytes are removed from its output when it is taken.
    pub remove_nulls: bool,
    /// The number of bytes sent to it that were accepted. It stops at 18,446,744,073,709,551,615.
    pub sent: u64,
}

impl Child {
    /// Returns whether the child has this spawn id.
    fn has_id(&self, id: &[u8]) -> bool
        ensures { result ≡ has_id id.now self.now }
    {
        self.standing.is_born() && self.id.as_slice() == id
    }

    /// Changes the child.
    fn alter(&mut self, change: Change) -> Result<(), AllocError>
        ensures { OnOk result (self.new ≡ altered change self.old) }
    {
        match change {
            Change::Stand(standing) => {
                self.standing = standing;
                Ok(())
            }
            Change::Waited => {
                self.waited = true;
                Ok(())
            }
            Change::Sent(count) => {
                self.sent = self.sent.saturating_add(count);
                Ok(())
            }
            Change::Take(count) => {
                self.kept.take(count);
                Ok(())
            }
            Change::Size(size) => self.kept.resize(size),
            Change::Removal(on) => {
                self.remove_nulls = on;
                Ok(())
            }
        }
    }
}

/// A script's children, in the order in which they were requested. A contract sees a list.
#[derive(Drop)]
pub struct Children {
    pub(crate) list: Vec<Child>,
}

impl Model for Children {
    ghost use Rattle.std.specs.Prelude.{List};
    ghost use Rattle.expect_core.specs.declared.child.Child.{Child};

    ghost Value = { List Child };

    ghost view = { λ t. t.list.items };

    ghost use Rattle.std.specs.Prelude.{◌≤◌, length};

    ghost invariant = { λ t. length t.list.items ≤ 16 };
}

impl Children {
    /// Creates an empty list without allocating.
    pub(crate) fn new(alloc: Global) -> Children
        ensures { result ≡ [] }
    {
        Children {
            list: Vec::new(alloc),
        }
    }

    /// Returns the number of children.
    pub(crate) fn len(&self) -> usize
        ensures { result ≡ length self.now }
    {
        self.list.len()
    }

    /// Adds a child that has not started. Requires fewer than 16 children.
    ///
    /// Its match buffer has `size` bytes. `remove` says whether NUL bytes are removed from its
    /// output.
    pub(crate) fn push(
        &mut self,
        alloc: Global,
        id: Text,
        modes: Modes,
        size: usize,
        remove: bool,
    ) -> Result<(), AllocError>
        requires { length self.old < 16 }
        ensures { OnOk result (self.new ≡ self.old ++ child_as id modes size remove ∷ []) }
    {
        self.list.push(Child {
            id,
            standing: Standing::Unborn,
            waited: false,
            line: Line::new(alloc, modes),
            kept: Kept::new(alloc, size)?,
            remove_nulls: remove,
            sent: 0,
        })?;
        Ok(())
    }

    /// Returns the index of the child with this spawn id, or `None`.
    fn position(&self, id: &[u8]) -> Option<usize>
        ensures found { result ≡ position (has_id id.now) self.now }
        ensures within { IfSome result (λ n. n < length self.now) }
    {
        self.list.iter().position(|child| child.has_id(id))
    }

    /// Returns the number of children, at most 16.
    fn count(&self) -> usize
        ensures value { result ≡ length self.now }
        ensures few { result ≤ 16 }
    {
        self.list.len()
    }

    /// Returns the place of the child with this spawn id, or `None`.
    pub(crate) fn find(&self, id: &[u8]) -> Option<Place>
        ensures { result ≡ position (has_id id.now) self.now }
    {
        let count = self.count();
        match self.position(id) {
            Some(at) if at < count => Place::new(at),
            _ => None,
        }
    }

    /// Returns a copy of a child's match buffer. The child is numbered from 1. The copy is empty if
    /// there is no such child.
    pub(crate) fn buffer_copied(&self, alloc: Global, child: u8) -> Result<Text, AllocError>
        ensures { IfOk result (λ t. t ≡ buffer_of child self.now) }
    {
        let at = place(u16::from(child));
        if at < self.list.len() {
            return self.list[at].kept.copied(alloc);
        }
        Ok(Text::new(alloc))
    }

    /// Returns whether a child has started, or was closed.
    pub(crate) fn standing(&self, i: Place) -> Standing
        ensures { result ≡ (child_in i self.now).standing }
    {
        let i = i.index();
        if i < self.list.len() {
            self.list[i].standing
        } else {
            Standing::Unborn
        }
    }

    /// Changes a child.
    pub(crate) fn alter(&mut self, i: Place, change: Change) -> Result<(), AllocError>
        ensures { OnOk result (self.new ≡ slice_set self.old i (altered change (child_in i self.old))) }
    {
        let i = i.index();
        if i < self.list.len() {
            let child = &mut self.list[i];
            child.alter(change)?;
        }
        Ok(())
    }

    /// Returns a child's spawn id.
    pub(crate) fn id(&self, i: Place) -> &[u8]
        ensures { result.now ≡ (child_in i self.now).id }
    {
        let i = i.index();
        if i < self.list.len() {
            self.list[i].id.as_slice()
        } else {
            &[]
        }
    }

    /// Returns whether a `wait` has asked for the child's end.
    pub(crate) fn is_waited(&self, i: Place) -> bool
        ensures { result ≡ (child_in i self.now).waited }
    {
        let i = i.index();
        if i < self.list.len() {
            self.list[i].waited
        } else {
            false
        }
    }

    /// Sends bytes to a child's terminal. Returns what it echoes, and what it hands over.
    pub(crate) fn send(
        &mut self,
        alloc: Global,
        i: Place,
        bytes: &[u8],
    ) -> Result<(Text, Actions), AllocError>
        ensures sent { IfOk result (λ r. r ≡ (echo_of (child_in i self.old).line bytes.now, (handed_by (child_in i self.old).line bytes.now).actions)) }
        ensures line { OnOk result (self.new ≡ slice_set self.old i (record (child_in i self.old) { line = line_after (child_in i self.old).line bytes.now })) }
    {
        let i = i.index();
        if i < self.list.len() {
            let child = &mut self.list[i];
            return child.line.send(bytes);
        }
        Line::new(alloc, Modes::sane()).send(bytes)
    }

    /// Returns the modes of a child's terminal.
    fn modes(&self, i: Place) -> Modes
        ensures { result ≡ (child_in i self.now).line.modes }
    {
        let i = i.index();
        if i < self.list.len() {
            self.list[i].line.modes()
        } else {
            Modes::sane()
        }
    }

    /// Returns whether NUL bytes are removed from a child's output.
    pub(crate) fn removes_nulls(&self, i: Place) -> bool
        ensures { result ≡ (child_in i self.now).remove_nulls }
    {
        let i = i.index();
        if i < self.list.len() {
            self.list[i].remove_nulls
        } else {
            true
        }
    }

    /// Returns a piece of a child's output as it is seen: after its terminal and the removal of NUL
    /// bytes.
    pub(crate) fn seen<'a>(&self, i: Place, piece: &'a [u8]) -> Seen<'a>
        ensures { result ≡ convert (child_in i self.now).remove_nulls (child_in i self.now).line.modes piece.now }
    {
        Seen::new(self.removes_nulls(i), self.modes(i), piece)
    }

    /// Appends a piece of a child's output to a text, as it is seen.
    pub(crate) fn seen_behind(&self, text: Text, i: Place, piece: &[u8]) -> Result<Text, AllocError>
        ensures { IfOk result (λ t. t ≡ text ++ convert (child_in i self.now).remove_nulls (child_in i self.now).line.modes piece.now) }
    {
        convert_behind(text, self.removes_nulls(i), self.modes(i), piece)
    }
}

impl Children {
    /// Returns the size of a child's match buffer, in bytes.
    pub(crate) fn size(&self, i: Place) -> usize
        ensures { result ≡ (child_in i self.now).kept.size }
    {
        let i = i.index();
        if i < self.list.len() {
            self.list[i].kept.size()
        } else {
            0
        }
    }

    /// Returns the number of bytes in a child's match buffer.
    pub(crate) fn count_kept(&self, i: Place) -> usize
        ensures { result ≡ length (child_in i self.now).kept.bytes }
    {
        let i = i.index();
        if i < self.list.len() {
            self.list[i].kept.len()
        } else {
            0
        }
    }

    /// Appends bytes to a child's match buffer. It may exceed its size until `trim`.
    pub(crate) fn keep(&mut self, i: Place, bytes: &[u8]) -> Result<(), AllocError>
        ensures { OnOk result (self.new ≡ slice_set self.old i (record (child_in i self.old) { kept = record (child_in i self.old).kept { bytes = (child_in i self.old).kept.bytes ++ bytes.now } })) }
    {
        let i = i.index();
        if i < self.list.len() {
            let child = &mut self.list[i];
            child.kept.add(bytes)?;
        }
        Ok(())
    }

    /// Appends output to a child's match buffer, as it is seen.
    pub(crate) fn keep_seen(&mut self, i: Place, seen: Seen<'_>) -> Result<(), AllocError>
        ensures { OnOk result (self.new ≡ slice_set self.old i (record (child_in i self.old) { kept = record (child_in i self.old).kept { bytes = (child_in i self.old).kept.bytes ++ seen.entry } })) }
    {
        let i = i.index();
        if i < self.list.len() {
            let child = &mut self.list[i];
            child.kept.add_seen(seen)?;
        }
        Ok(())
    }

    /// Returns whether a child's match buffer doesn't exceed its size.
    pub(crate) fn fits(&self, i: Place) -> bool
        ensures { result ≡ nat_le (length (child_in i self.now).kept.bytes) (child_in i self.now).kept.size }
    {
        let i = i.index();
        if i < self.list.len() {
            return self.list[i].kept.fits();
        }
        true
    }

    /// Drops all but the last bytes of a child's match buffer, as many as its size.
    pub(crate) fn trim(&mut self, i: Place)
        ensures { self.new ≡ slice_set self.old i (record (child_in i self.old) { kept = record (child_in i self.old).kept { bytes = keep_last (child_in i self.old).kept.size (child_in i self.old).kept.bytes } }) }
    {
        let i = i.index();
        if i < self.list.len() {
            let child = &mut self.list[i];
            child.kept.trim();
        }
    }

    /// Tests a child's match buffer against the patterns of these groups. Writes the spans of a
    /// match to `spans`.
    ///
    /// The first `sought` bytes must hold no match, as an earlier test found. Pass 0 if unknown.
    pub(crate) fn choose<'l>(
        &mut self,
        alloc: Global,
        matchers: &mut Matchers<'l>,
        i: Place,
        list: &'l PatternList,
        groups: &[usize],
        sought: usize,
        spans: &mut Spans,
    ) -> Result<Picked, AllocError>
        requires { 0 < sought → HasNone list.now.entries groups.now (take sought (child_in i self.old).kept.bytes) }
        ensures same { self.new ≡ self.old }
        ensures chosen { IfOk result (λ p. with_spans p spans.new ≡ decide list.now.entries groups.now (child_in i self.old).kept.bytes (child_in i self.old).kept.size) }
        ensures none { IfOk result (λ p. LeavesNone list.now.entries groups.now (child_in i self.old).kept.bytes (with_spans p spans.new)) }
    {
        let i = i.index();
        if i < self.list.len() {
            let child = &mut self.list[i];
            return child
                .kept
                .choose(alloc, matchers, list, groups, sought, spans);
        }
        list.choose_with(alloc, matchers, groups, &[], 0, 0, spans)
    }

    /// Returns the bytes from `from` to before `to` of a child's match buffer, as far as they
    /// exist.
    pub(crate) fn part(
        &mut self,
        alloc: Global,
        i: Place,
        from: usize,
        to: usize,
    ) -> Result<Value, AllocError>
        ensures same { self.new ≡ self.old }
        ensures part { IfOk result (λ v. v ≡ take (to - from) (drop from (child_in i self.old).kept.bytes)) }
    {
        let i = i.index();
        if i < self.list.len() {
            let child = &mut self.list[i];
            return child.kept.part(alloc, from, to);
        }
        Ok(Value::new(alloc))
    }
}
