//! `expect` (expect(1)).

ghost use Rattle.std.specs.Prelude.{◌≡◌, ◌<◌, ◌++◌, ◌∷◌, [], List, IfOk, OnOk, take};
ghost use Rattle.exp_match.specs.Choice.{first_in, waits_for_end, waits_for_full};
ghost use Rattle.tcl_results.specs.Says.{Says};
ghost use Rattle.expect_core.specs.declared.body.Body.{Body as BodyOf};
ghost use Rattle.expect_core.specs.Calls.{outer};
ghost use Rattle.expect_core.specs.Heard.{groups_at};
ghost use Rattle.expect_core.specs.Owned.{bytes_of, child_of};
ghost use Rattle.expect_core.specs.Sides.{children_of, still_open};
ghost use Rattle.expect_core.specs.Spread.{sent_on};
ghost use Rattle.expect_core.specs.Turns.{at as at_of, done as done_of, over as over_of};
ghost use Rattle.expect_core.specs.Expecting.{again as again_of, all_met, before as before_of, behind as behind_of, ended as ended_of, ending as ending_of, end_of as end_told, entry_of, expecting, failing as failing_of, full as full_of, group_pairs as group_pairs_of, groups_from, late as late_of, late_by, matched as matched_of, meeting, met_pairs as met_pairs_of, places, shut as shut_of, standing_after, standing_before, text_pair};

use crate::body::Body;
use crate::child::{Change, Standing};
use crate::effect::{Effect, Effects};
use crate::ids::all_open;
use crate::own::{Own, deadline_from};
use crate::place::Place;
use crate::plan::{Met, Plan, PlanBox};
use crate::planning::{plan_of, standing_of};
use crate::request::Act;
use crate::served::ServedGroups;
use crate::spread::Spread;
use crate::stored::{BUFFER, ID, Stores, end_name, start_name, string_name};
use crate::texts::{decimal, with_cause};
use crate::turn::{Deed, Next, Purpose, Reaction, Reply, Stage, Turn, Want, done};
use child_events::Cause;
use exp_match::Spans;
use std::alloc::{AllocError, Global};
use tcl_results::{Code, Complaint, said, script_code};
use tcl_subst::Vars;
use tcl_values::Value;
use tcl_words::Text;

impl Plan {
    /// Returns the action of an entry.
    pub(crate) fn action(&self, index: usize) -> &[u8]
        ensures { result.now ≡ (entry_of index self.now).action }
    {
        let entries = self.list.entries.as_slice();
        if index < entries.len() {
            entries[index].action.as_slice()
        } else {
            &[]
        }
    }

    /// Returns the entry that a full match buffer of the child at a place meets.
    fn full_entry(&self, i: Place) -> Option<usize>
        ensures { result ≡ first_in waits_for_full (groups_at i self.now.sides) self.now.list.entries }
    {
        self.list.at_full(self.sides.groups(i))
    }

    /// Returns the entry that the end of the output of the child at a place meets.
    fn end_entry(&self, i: Place) -> Option<usize>
        ensures { result ≡ first_in waits_for_end (groups_at i self.now.sides) self.now.list.entries }
    {
        self.list.at_end(self.sides.groups(i))
    }

    /// Returns whether an entry has `-indices`, and whether it has `-notransfer`.
    fn marks(&self, index: usize) -> (bool, bool)
        ensures { result ≡ ((entry_of index self.now).indices, (entry_of index self.now).notransfer) }
    {
        let entries = self.list.entries.as_slice();
        if index < entries.len() {
            (entries[index].indices, entries[index].notransfer)
        } else {
            (false, false)
        }
    }
}

/// Returns the index before an exclusive end, in decimal digits.
fn before(alloc: Global, end: usize) -> Result<Text, AllocError>
    ensures { IfOk result (λ t. t ≡ before_of end) }
{
    if end == 0 {
        Text::from_slice(alloc, b"-1")
    } else {
        decimal(alloc, end - 1)
    }
}

/// Appends the indices of a group's first and last byte.
fn push_places(
    alloc: Global,
    stores: &mut Stores,
    group: usize,
    span: (usize, usize),
) -> Result<(), AllocError>
    requires { group < 10 }
    ensures { OnOk result (stores.new ≡ stores.old ++ places group span) }
{
    let (start, end) = span;
    let start = Value::from_text(alloc, decimal(alloc, start)?)?;
    stores.push(start_name(group), start)?;
    let end = Value::from_text(alloc, before(alloc, end)?)?;
    stores.push(end_name(group), end)?;
    Ok(())
}

impl Own {
    /// Appends the bytes of a group that took part in the match.
    fn push_text(
        &mut self,
        alloc: Global,
        stores: &mut Stores,
        i: Place,
        group: usize,
        span: (usize, usize),
    ) -> Result<(), AllocError>
        requires { group < 10 }
        ensures same { self.new ≡ self.old }
        ensures pushed { OnOk result (stores.new ≡ stores.old ++ text_pair (bytes_of i self.old) group span ∷ []) }
    {
        let text = self.children.part(alloc, i, span.0, span.1)?;
        stores.push(string_name(group), text)
    }

    /// Appends the indices and the bytes of a group that took part in the match.
    fn push_whole(
        &mut self,
        alloc: Global,
        stores: &mut Stores,
        i: Place,
        group: usize,
        span: (usize, usize),
    ) -> Result<(), AllocError>
        requires { group < 10 }
        ensures same { self.new ≡ self.old }
        ensures pushed { OnOk result (stores.new ≡ stores.old ++ (places group span ++ text_pair (bytes_of i self.old) group span ∷ [])) }
    {
        push_places(alloc, stores, group, span)?;
        self.push_text(alloc, stores, i, group, span)?;
        Ok(())
    }

    /// Appends the elements for a group, if it took part in the match.
    fn push_group(
        &mut self,
        alloc: Global,
        stores: &mut Stores,
        i: Place,
        indices: bool,
        group: usize,
        span: Option<(usize, usize)>,
    ) -> Result<(), AllocError>
        requires { group < 10 }
        ensures same { self.new ≡ self.old }
        ensures pushed { OnOk result (stores.new ≡ stores.old ++ group_pairs_of indices (bytes_of i self.old) group span) }
    {
        match span {
            None => Ok(()),
            Some(span) => {
                if indices {
                    self.push_whole(alloc, stores, i, group, span)
                } else {
                    self.push_text(alloc, stores, i, group, span)
                }
            }
        }
    }

    /// Appends the elements for the groups that took part in the match.
    fn push_groups(
        &mut self,
        alloc: Global,
        stores: &mut Stores,
        i: Place,
        indices: bool,
        spans: &Spans,
    ) -> Result<(), AllocError>
        ensures same { self.new ≡ self.old }
        ensures pushed { OnOk result (stores.new ≡ stores.old ++ groups_from indices (bytes_of i self.old) 0 spans.now) }
    {
        'groups: for group in 0..spans.len() {
            self.push_group(alloc, stores, i, indices, group, spans[group])?;
        }
        Ok(())
    }

    /// Appends the spawn id, and the first `count` bytes of the match buffer.
    fn push_met(
        &mut self,
        alloc: Global,
        stores: &mut Stores,
        i: Place,
        count: usize,
    ) -> Result<(), AllocError>
        ensures same { self.new ≡ self.old }
        ensures pushed { OnOk result (stores.new ≡ stores.old ++ met_pairs_of (child_of i self.old).id (take count (bytes_of i self.old))) }
    {
        let id = Value::from_slice(alloc, self.children.id(i))?;
        stores.push(ID, id)?;
        let met = self.children.part(alloc, i, 0, count)?;
        stores.push(BUFFER, met)?;
        Ok(())
    }
}

/// Returns the end of a match.
fn end_of(spans: &Spans) -> usize
    ensures { result ≡ end_told spans.now }
{
    match spans[0] {
        Some((_, end)) => end,
        None => 0,
    }
}

/// Returns what `expect` does with these arguments.
pub(crate) fn expect(
    alloc: Global,
    args: &[Value],
    vars: &Vars,
    own: &mut Own,
) -> Result<Deed, Complaint>
    ensures same { own.new ≡ own.old }
    ensures said { Says result (expecting args.now vars.now own.old) }
{
    let plan = plan_of(alloc, args, vars, own)?;
    Ok(Deed::Expect(PlanBox::new(alloc, plan)?))
}

/// Returns what a command does that only has this effect.
fn only(alloc: Global, effect: Effect) -> Result<Deed, AllocError>
    ensures { IfOk result (λ d. d ≡ Deed.Alone (effect ∷ []) (done_of [])) }
{
    let effects = Effects::one(alloc, effect)?;
    Ok(Deed::Alone(effects, done(Value::new(alloc))))
}

/// Returns what `expect_before` does with these arguments.
pub(crate) fn expect_before(
    alloc: Global,
    args: &[Value],
    vars: &Vars,
    own: &mut Own,
) -> Result<Deed, Complaint>
    ensures same { own.new ≡ own.old }
    ensures said { Says result (standing_before args.now vars.now own.old) }
{
    let (ids, entries) = standing_of(alloc, args, vars, own)?;
    Ok(only(alloc, Effect::Before(ids, entries))?)
}

/// Returns what `expect_after` does with these arguments.
pub(crate) fn expect_after(
    alloc: Global,
    args: &[Value],
    vars: &Vars,
    own: &mut Own,
) -> Result<Deed, Complaint>
    ensures same { own.new ≡ own.old }
    ensures said { Says result (standing_after args.now vars.now own.old) }
{
    let (ids, entries) = standing_of(alloc, args, vars, own)?;
    Ok(only(alloc, Effect::After(ids, entries))?)
}

/// Returns the turn that ends a call without a value.
fn nothing(alloc: Global) -> Turn
    ensures { result ≡ over_of (done_of []) }
{
    Turn::over(alloc, done(Value::new(alloc)))
}

/// Returns the turn after a timeout.
pub(crate) fn late(alloc: Global, mut plan: PlanBox) -> Result<Turn, AllocError>
    ensures { IfOk result (λ t. t ≡ late_of plan) }
{
    if let Some((i, rest)) = plan.take_pending() {
        return sent_at(alloc, i, rest);
    }
    Ok(timed_out(alloc, plan))
}

/// Returns the turn that sends the next piece to the child at a place.
fn sent_at(alloc: Global, i: Place, rest: Spread) -> Result<Turn, AllocError>
    ensures { IfOk result (λ t. t ≡ at_of i (record { effects = []; next = sent_on rest })) }
{
    let effects = Effects::new(alloc);
    let next = rest.send(alloc)?;
    Reaction { effects, next }.at(alloc, i)
}

/// Returns the turn after the timeout of an `expect`.
fn timed_out(alloc: Global, plan: PlanBox) -> Turn
    ensures { result ≡ late_by plan None }
{
    match plan.get().list.at_timeout() {
        Some(entry) => Turn::only(alloc, Stage::Act(plan, Met { entry, child: None })),
        None => nothing(alloc),
    }
}

/// Returns the turn that sets the variables, takes the first `count` bytes and evaluates the
/// action.
fn meet(
    alloc: Global,
    plan: PlanBox,
    i: Place,
    entry: usize,
    stores: Stores,
    count: usize,
) -> Result<Turn, AllocError>
    ensures { IfOk result (λ t. t ≡ meeting plan i entry stores count) }
{
    let effects = Effects::one(alloc, Effect::Store(stores))?.with(Effect::Alter(Change::Take(
        count,
    )))?;
    let child = Some(i);
    let stage = Stage::Act(plan, Met { entry, child });
    Ok(Turn {
        child,
        effects,
        stage,
    })
}

/// Returns the turn after a match.
pub(crate) fn matched(
    alloc: Global,
    plan: PlanBox,
    i: Place,
    entry: usize,
    spans: &Spans,
    own: &mut Own,
) -> Result<Turn, AllocError>
    ensures same { own.new ≡ own.old }
    ensures turn { IfOk result (λ t. t ≡ matched_of plan i entry spans.now own.old) }
{
    let (indices, notransfer) = plan.get().marks(entry);
    let end = end_of(spans);
    let mut stores = Stores::new(alloc);
    own.push_groups(alloc, &mut stores, i, indices, spans)?;
    own.push_met(alloc, &mut stores, i, end)?;
    let taken = if notransfer { 0 } else { end };
    meet(alloc, plan, i, entry, stores, taken)
}

/// Returns the turn after a keyword that meets all bytes in the match buffer, if it is listed.
fn meet_all(
    alloc: Global,
    plan: PlanBox,
    i: Place,
    entry: Option<usize>,
    own: &mut Own,
) -> Result<Turn, AllocError>
    ensures same { own.new ≡ own.old }
    ensures turn { IfOk result (λ t. t ≡ all_met plan i entry own.old) }
{
    let Some(entry) = entry else {
        return Ok(nothing(alloc));
    };
    let count = own.children.count_kept(i);
    let mut stores = Stores::new(alloc);
    own.push_met(alloc, &mut stores, i, count)?;
    meet(alloc, plan, i, entry, stores, count)
}

/// Returns the turn after the match buffer is full.
pub(crate) fn full(
    alloc: Global,
    plan: PlanBox,
    i: Place,
    own: &mut Own,
) -> Result<Turn, AllocError>
    ensures same { own.new ≡ own.old }
    ensures turn { IfOk result (λ t. t ≡ full_of plan i own.old) }
{
    let entry = plan.get().full_entry(i);
    meet_all(alloc, plan, i, entry, own)
}

/// Returns the turn after the end of a child's output. It requests to close the child.
pub(crate) fn ending(alloc: Global, plan: PlanBox, i: Place) -> Result<Turn, AllocError>
    ensures { IfOk result (λ t. t ≡ ending_of plan i) }
{
    Ok(Turn {
        child: Some(i),
        effects: Effects::one(alloc, Effect::Ask(Act::Close))?,
        stage: Stage::Wait(Want::End(i, plan)),
    })
}

/// Returns the turn after a failed read. It requests to close the child.
pub(crate) fn failing(alloc: Global, i: Place, cause: Cause) -> Result<Turn, AllocError>
    ensures { IfOk result (λ t. t ≡ failing_of i cause) }
{
    let effects = Effects::one(alloc, Effect::Ask(Act::Close))?;
    let next = Next::Await(Purpose::Fail(cause));
    Reaction { effects, next }.at(alloc, i)
}

/// Marks a child as closed, as the first effect of a turn.
fn shut(i: Place, turn: Turn) -> Result<Turn, AllocError>
    ensures { IfOk result (λ t. t ≡ shut_of i turn) }
{
    Ok(Turn {
        child: Some(i),
        effects: turn
            .effects
            .behind(Effect::Alter(Change::Stand(Standing::Closed)))?,
        stage: turn.stage,
    })
}

/// Returns the turn after the answer to that request, at the end of a child's output. If the
/// request failed, it is an error.
pub(crate) fn ended(
    alloc: Global,
    plan: PlanBox,
    i: Place,
    cause: Option<Cause>,
    own: &mut Own,
) -> Result<Turn, AllocError>
    ensures same { own.new ≡ own.old }
    ensures turn { IfOk result (λ t. t ≡ ended_of plan i cause own.old) }
{
    match cause {
        None => {
            let entry = plan.get().end_entry(i);
            let turn = meet_all(alloc, plan, i, entry, own)?;
            shut(i, turn)
        }
        Some(cause) => {
            let text = with_cause(alloc, b"close failed", cause)?;
            let text = Value::from_text(alloc, text)?;
            shut(i, Turn::over(alloc, Reply::Fail(text)))
        }
    }
}

/// Returns the error for the first of the children of these groups that isn't open, if there is one.
fn groups_open(alloc: Global, groups: &ServedGroups, own: &Own) -> Result<(), Complaint>
    ensures { Says result (still_open (children_of groups.now) own.now) }
{
    let children = groups.children(alloc)?;
    all_open(alloc, &children, own)
}

/// Returns the turn that continues an `expect` with this deadline. It is an error if one of its own
/// children isn't open. The standing patterns are read anew.
fn again(
    alloc: Global,
    plan: PlanBox,
    deadline: Option<u128>,
    own: &Own,
) -> Result<Turn, AllocError>
    ensures { IfOk result (λ t. t ≡ again_of plan deadline own.now) }
{
    let (list, groups, span) = plan.into_plan().into_own();
    match said(alloc, groups_open(alloc, &groups, own))? {
        Ok(()) => {
            let plan = Plan::new(alloc, list, groups, span, deadline, own)?;
            Ok(Turn::only(alloc, Stage::Look(PlanBox::new(alloc, plan)?)))
        }
        Err(text) => Ok(Turn::over(alloc, Reply::Fail(text))),
    }
}

/// Continues an `expect` after its action. The action ended with this code and value.
fn behind(
    alloc: Global,
    code: Code,
    value: &Value,
    plan: PlanBox,
    own: &Own,
) -> Result<Turn, AllocError>
    ensures { (outer : List BodyOf) → IfOk result (λ t. t ≡ behind_of code value.now (Body.Action plan ∷ outer) own.now) }
{
    match code {
        Code::Again => {
            let deadline = deadline_from(own.clock, plan.get().span);
            again(alloc, plan, deadline, own)
        }
        Code::AgainLater => {
            let deadline = plan.get().deadline;
            again(alloc, plan, deadline, own)
        }
        _ => Ok(Turn::over(alloc, Reply::Done(code, value.shared(alloc)?))),
    }
}

impl Own {
    /// Removes the innermost script, which ended with this code and value. Returns the
    /// turn that follows.
    pub(crate) fn end_body(
        &mut self,
        alloc: Global,
        code: Code,
        value: &Value,
    ) -> Result<Turn, AllocError>
        ensures popped { self.new ≡ record self.old { bodies = outer self.old.bodies } }
        ensures turn { IfOk result (λ t. t ≡ behind_of code value.now self.old.bodies self.new) }
    {
        match self.bodies.pop() {
            Some(Body::Action(plan)) => behind(alloc, code, value, plan, self),
            Some(Body::Source) => {
                let reply = Reply::Done(script_code(code), value.shared(alloc)?);
                Ok(Turn::over(alloc, reply))
            }
            None => Ok(Turn::over(alloc, Reply::Done(code, value.shared(alloc)?))),
        }
    }
}
