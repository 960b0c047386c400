//! How a call runs: turn by turn, until it ends or waits.

ghost use Rattle.std.specs.Prelude.{◌≡◌, ℕ, None, IfOk, OnOk};
ghost use Rattle.child_events.specs.declared.event.Answer.{Answer as AnswerOf};
ghost use Rattle.child_events.specs.declared.event.Item.{Item as ItemOf};
ghost use Rattle.tcl_subst.specs.Variables.{Variables};
ghost use Rattle.tty.specs.Sends.{handed_by};
ghost use Rattle.expect_core.specs.declared.dialogue.Dialogue.{Dialogue as DialogueOf};
ghost use Rattle.expect_core.specs.declared.own.Own.{Own as OwnOf};
ghost use Rattle.expect_core.specs.declared.turn.Turn.{Turn as TurnOf};
ghost use Rattle.expect_core.specs.declared.turn.Want.{Want as WantOf};
ghost use Rattle.expect_core.specs.Effects.{performed};
ghost use Rattle.expect_core.specs.Going.{after, goes};
ghost use Rattle.expect_core.specs.Known.{Knows, KnowsAt, KnowsIn, KnowsOf, LeavesKnown};
ghost use Rattle.expect_core.specs.Lanes.{answer_box, item_box};
ghost use Rattle.expect_core.specs.Owned.{child_of};
ghost use Rattle.expect_core.specs.Running.{To, acts, answered as answered_of, awaited, by_heard, heard_as as heard_as_of, none_yet, reads, resuming, run as run_of, staged as staged_of, step_of, turned as turned_of, turns, waited_for};
ghost use Rattle.expect_core.specs.Sending.{typed};

use crate::answers::is_within;
use crate::body::Body;
use crate::dialogue::{Dialogue, failure};
use crate::ends::{broken, closed, waited};
use crate::expect::{ended, ending, failing, full, late, matched};
use crate::known::Known;
use crate::listen::{Times, listen, look};
use crate::own::Own;
use crate::phase::{Heard, Phase};
use crate::place::Place;
use crate::plan::{Met, PlanBox};
use crate::send::{hand, handed};
use crate::spawn::{gone, heard_first, missed, spawned};
use crate::tools::{tool_answered, tool_heard};
use crate::turn::{Aim, Purpose, Reaction, Reply, Stage, Turn, Want};
use child_events::{Answer, Item};
use std::alloc::{AllocError, Global};
use tcl_host::{Ending, HostStep};
use tcl_subst::Vars;
use tcl_values::Value;
use tcl_words::Text;
use tty::Actions;

/// What follows a stage.
#[derive(Drop)]
pub enum Went {
    /// Another turn.
    Turn(Turn),
    /// The end of the call, or a wait, as this step.
    Over(HostStep),
    /// A wait for output, of which this is known.
    Listens(Known),
}

/// A call that has ended or waits.
#[derive(Drop)]
pub struct Paused {
    /// The step of the call.
    pub(crate) step: HostStep,
    /// What is known of the output that it waits for.
    pub(crate) known: Known,
}

impl Paused {
    /// Creates a result with this step, without knowledge of output.
    pub(crate) fn at(alloc: Global, step: HostStep) -> Paused
        ensures step { result.step ≡ step }
        ensures knows { (st : DialogueOf) → KnowsIn result.known st }
    {
        Paused {
            step,
            known: Known::nothing(alloc),
        }
    }

    /// Creates a result that waits for output, with what is known of it.
    fn listening(known: Known) -> Paused
        ensures step { result.step ≡ HostStep.Wait }
        ensures known { result.known ≡ known }
    {
        Paused {
            step: HostStep::Wait,
            known,
        }
    }
}

/// Returns the most turns of a call.
#[tactic(auto, unfolding(crate::specs::Running::turns))]
fn all_turns() -> u64
    ensures { result ≡ turns }
{
    18_446_744_073_709_551_615
}

/// Returns a reply as a step.
fn step(reply: Reply) -> HostStep
    ensures { result ≡ step_of reply }
{
    match reply {
        Reply::Done(code, value) => HostStep::Done(code, value),
        Reply::Fail(text) => HostStep::Fail(text),
    }
}

/// Returns what follows the answer to a request.
fn answered(
    alloc: Global,
    why: Purpose,
    i: Place,
    answer: Answer,
    own: &Own,
) -> Result<Reaction, AllocError>
    ensures { IfOk result (λ r. r ≡ answered_of why i answer own.now) }
{
    match why {
        Purpose::Spawn(terminal, words) => spawned(alloc, terminal, i, words, failure(answer)),
        Purpose::Tool(stride, run) => tool_answered(alloc, stride, run, i, answer),
        Purpose::Missing(words) => missed(alloc, words),
        Purpose::Gone(words) => gone(alloc, &words),
        Purpose::Send(action, rest, more) => {
            handed(alloc, own.clock, &action, rest, more, failure(answer))
        }
        Purpose::Close => closed(alloc, failure(answer)),
        Purpose::Wait => waited(alloc, i, answer, own),
        Purpose::Fail(cause) => broken(alloc, cause),
    }
}

/// Returns what follows an item.
fn heard_as(alloc: Global, why: Aim, i: Place, item: &Item) -> Result<Reaction, AllocError>
    ensures { IfOk result (λ r. r ≡ heard_as_of why i item.now) }
{
    match why {
        Aim::Spawn(words) => heard_first(alloc, words, i, item),
        Aim::Tool(run) => tool_heard(alloc, run, i, item),
    }
}

impl Dialogue {
    /// Returns the time of the script.
    fn times(&self) -> Times
        ensures { result ≡ record { limit = self.now.limit; horizon = self.now.horizon } }
    {
        Times {
            limit: self.limit,
            horizon: self.horizon,
        }
    }

    /// Keeps an `expect`, and asks for the evaluation of an action.
    fn act(&mut self, alloc: Global, mut plan: PlanBox, met: Met) -> Result<Went, AllocError>
        ensures goes { IfOk result (λ r. (k : To) (vars : Variables) → acts plan met vars self.old ≡ goes r k vars self.new) }
        ensures knows { IfOk result (λ r. LeavesKnown r self.new) }
    {
        let action = Value::from_slice(alloc, plan.get().action(met.entry))?;
        plan.meet(met);
        self.own.bodies.push(Body::Action(plan))?;
        Ok(Went::Over(HostStep::Body(action)))
    }

    /// Asks for the evaluation of a script that was read.
    fn read(&mut self, alloc: Global, script: Text) -> Result<Went, AllocError>
        ensures goes { IfOk result (λ r. (k : To) (vars : Variables) → reads script vars self.old ≡ goes r k vars self.new) }
        ensures knows { IfOk result (λ r. LeavesKnown r self.new) }
    {
        let script = Value::from_text(alloc, script)?;
        self.own.bodies.push(Body::Source)?;
        Ok(Went::Over(HostStep::Body(script)))
    }

    /// Returns what follows the result of a wait for patterns.
    fn conclude(
        &mut self,
        alloc: Global,
        left: u64,
        plan: PlanBox,
        heard: &Heard,
        known: Known,
    ) -> Result<Went, AllocError>
        requires { Knows plan known self.old.own }
        ensures goes { IfOk result (λ r. (k : To) (vars : Variables) → by_heard k left plan heard.now vars self.old ≡ goes r k vars self.new) }
        ensures knows { IfOk result (λ r. LeavesKnown r self.new) }
    {
        match heard {
            Heard::NotYet => {
                self.set_phase(Phase::At(left, Want::Output(plan)));
                Ok(Went::Listens(known))
            }
            Heard::OverLimit => Ok(Went::Over(HostStep::Stop(Ending::TimeLimit))),
            Heard::TimedOut(deadline) => {
                self.own.clock = *deadline;
                Ok(Went::Turn(late(alloc, plan)?))
            }
            Heard::Match(i, entry, spans) => {
                let turn = matched(alloc, plan, *i, *entry, spans, &mut self.own)?;
                Ok(Went::Turn(turn))
            }
            Heard::Full(i) => {
                let turn = full(alloc, plan, *i, &mut self.own)?;
                Ok(Went::Turn(turn))
            }
            Heard::Ended(i) => {
                let turn = ending(alloc, plan, *i)?;
                Ok(Went::Turn(turn))
            }
            Heard::Failed(i, cause) => {
                let turn = failing(alloc, *i, *cause)?;
                Ok(Went::Turn(turn))
            }
        }
    }

    /// Begins a wait for patterns.
    fn looking(&mut self, alloc: Global, left: u64, plan: PlanBox) -> Result<Went, AllocError>
        ensures goes { IfOk result (λ r. (k : To) (vars : Variables) → staged_of k left (Stage.Look plan) vars self.old ≡ goes r k vars self.new) }
        ensures knows { IfOk result (λ r. LeavesKnown r self.new) }
    {
        let times = self.times();
        let (heard, known) = look(alloc, times, plan.get(), &mut self.lanes, &mut self.own)?;
        self.conclude(alloc, left, plan, &heard, known)
    }

    /// Continues a wait for patterns.
    fn listening(
        &mut self,
        alloc: Global,
        left: u64,
        plan: PlanBox,
        known: Known,
    ) -> Result<Went, AllocError>
        requires { Knows plan known self.old.own }
        ensures goes { IfOk result (λ r. (k : To) (vars : Variables) → waited_for k left (Want.Output plan) vars self.old ≡ goes r k vars self.new) }
        ensures knows { IfOk result (λ r. LeavesKnown r self.new) }
    {
        let times = self.times();
        let mut known = known;
        let heard = listen(
            alloc,
            times,
            plan.get(),
            &mut known,
            &mut self.lanes,
            &mut self.own,
        )?;
        self.conclude(alloc, left, plan, &heard, known)
    }

    /// Takes the next answer of a child, if it is in time. Moves the clock to its moment.
    fn next_answer(&mut self, i: Place) -> Option<Answer>
        ensures { (k : To) (n : ℕ) (w : WantOf) (made : AnswerOf → OwnOf → TurnOf) (vars : Variables) → awaited answer_box k n w i made vars self.old ≡ after k n w made result vars self.new }
    {
        match self.lanes.take_answer(i, self.limit) {
            Some((moment, answer)) => {
                self.own.advance(moment);
                Some(answer)
            }
            None => None,
        }
    }

    /// Takes the next item of a child, if it is in time. Moves the clock to its moment.
    fn next_item(&mut self, i: Place) -> Option<Item>
        ensures { (k : To) (n : ℕ) (w : WantOf) (made : ItemOf → OwnOf → TurnOf) (vars : Variables) → awaited item_box k n w i made vars self.old ≡ after k n w made result vars self.new }
    {
        match self.lanes.take_first(i, self.limit) {
            Some((moment, item)) => {
                self.own.advance(moment);
                Some(item)
            }
            None => None,
        }
    }

    /// Returns the step of a call for which nothing came yet. It waits, unless the script's last
    /// moment has passed.
    fn wait_for(&mut self, left: u64, want: Want) -> HostStep
        ensures { (vars : Variables) → none_yet left want vars self.old ≡ (result, vars, self.new) }
    {
        if is_within(self.horizon, self.limit) {
            self.set_phase(Phase::At(left, want));
            HostStep::Wait
        } else {
            HostStep::Stop(Ending::TimeLimit)
        }
    }

    /// Waits for the answer to a request.
    fn await_answer(
        &mut self,
        alloc: Global,
        left: u64,
        i: Place,
        why: Purpose,
    ) -> Result<Went, AllocError>
        ensures goes { IfOk result (λ r. (k : To) (vars : Variables) → waited_for k left (Want.Answer i why) vars self.old ≡ goes r k vars self.new) }
        ensures knows { IfOk result (λ r. LeavesKnown r self.new) }
    {
        match self.next_answer(i) {
            Some(answer) => {
                let reaction = answered(alloc, why, i, answer, &self.own)?;
                Ok(Went::Turn(reaction.at(alloc, i)?))
            }
            None => Ok(Went::Over(self.wait_for(left, Want::Answer(i, why)))),
        }
    }

    /// Waits for the next item of a child.
    fn await_item(
        &mut self,
        alloc: Global,
        left: u64,
        i: Place,
        why: Aim,
    ) -> Result<Went, AllocError>
        ensures goes { IfOk result (λ r. (k : To) (vars : Variables) → waited_for k left (Want.Item i why) vars self.old ≡ goes r k vars self.new) }
        ensures knows { IfOk result (λ r. LeavesKnown r self.new) }
    {
        match self.next_item(i) {
            Some(item) => {
                let reaction = heard_as(alloc, why, i, &item)?;
                Ok(Went::Turn(reaction.at(alloc, i)?))
            }
            None => Ok(Went::Over(self.wait_for(left, Want::Item(i, why)))),
        }
    }

    /// Waits for the answer to the request that closes a child at the end of its output.
    fn await_end(
        &mut self,
        alloc: Global,
        left: u64,
        i: Place,
        plan: PlanBox,
    ) -> Result<Went, AllocError>
        ensures goes { IfOk result (λ r. (k : To) (vars : Variables) → waited_for k left (Want.End i plan) vars self.old ≡ goes r k vars self.new) }
        ensures knows { IfOk result (λ r. LeavesKnown r self.new) }
    {
        match self.next_answer(i) {
            Some(answer) => {
                let turn = ended(alloc, plan, i, failure(answer), &mut self.own)?;
                Ok(Went::Turn(turn))
            }
            None => Ok(Went::Over(self.wait_for(left, Want::End(i, plan)))),
        }
    }

    /// Waits. `known` is about the output that is awaited.
    fn wait(
        &mut self,
        alloc: Global,
        left: u64,
        want: Want,
        known: Known,
    ) -> Result<Went, AllocError>
        requires { KnowsOf want known self.old.own }
        ensures goes { IfOk result (λ r. (k : To) (vars : Variables) → waited_for k left want vars self.old ≡ goes r k vars self.new) }
        ensures knows { IfOk result (λ r. LeavesKnown r self.new) }
    {
        match want {
            Want::Answer(i, why) => self.await_answer(alloc, left, i, why),
            Want::Item(i, why) => self.await_item(alloc, left, i, why),
            Want::Output(plan) => self.listening(alloc, left, plan, known),
            Want::End(i, plan) => self.await_end(alloc, left, i, plan),
        }
    }

    /// Sends a text to a child's terminal. Adds its echo to the child's items, and returns what it
    /// hands over.
    fn take_text(&mut self, alloc: Global, i: Place, text: &[u8]) -> Result<Actions, AllocError>
        ensures typed { OnOk result (self.new ≡ typed i text.now self.old) }
        ensures handed { IfOk result (λ a. a ≡ (handed_by (child_of i self.old.own).line text.now).actions) }
    {
        let (echo, actions) = self.own.children.send(alloc, i, text)?;
        self.lanes.echo(i, self.own.clock, echo.as_slice())?;
        Ok(actions)
    }

    /// Runs a stage.
    fn staged(&mut self, alloc: Global, left: u64, stage: Stage) -> Result<Went, AllocError>
        ensures goes { IfOk result (λ r. (k : To) (vars : Variables) → staged_of k left stage vars self.old ≡ goes r k vars self.new) }
        ensures knows { IfOk result (λ r. LeavesKnown r self.new) }
    {
        match stage {
            Stage::Over(reply) => Ok(Went::Over(step(reply))),
            Stage::Act(plan, met) => self.act(alloc, plan, met),
            Stage::Read(script) => self.read(alloc, script),
            Stage::Look(plan) => self.looking(alloc, left, plan),
            Stage::Send(i, text, more) => {
                let actions = self.take_text(alloc, i, text.as_slice())?;
                let reaction = hand(alloc, self.own.clock, actions, more)?;
                Ok(Went::Turn(reaction.at(alloc, i)?))
            }
            Stage::Wait(want) => self.wait(alloc, left, want, Known::nothing(alloc)),
        }
    }

    /// Performs a turn's effects, and runs its stage.
    fn turned(
        &mut self,
        alloc: Global,
        vars: &mut Vars,
        left: u64,
        turn: Turn,
    ) -> Result<Went, AllocError>
        ensures goes { IfOk result (λ r. (k : To) → turned_of k left turn.stage (performed turn.child turn.effects vars.old self.old.own) self.old ≡ goes r k vars.new self.new) }
        ensures knows { IfOk result (λ r. LeavesKnown r self.new) }
    {
        let Turn {
            child,
            effects,
            stage,
        } = turn;
        match self.own.perform_all(alloc, vars, &child, effects)? {
            None => self.staged(alloc, left, stage),
            Some(text) => Ok(Went::Over(HostStep::Fail(text))),
        }
    }

    /// Runs a turn and those that follow it, at most `most`. After that many, the script's time is
    /// over.
    fn run_for(
        &mut self,
        alloc: Global,
        vars: &mut Vars,
        most: u64,
        first: Turn,
    ) -> Result<Paused, AllocError>
        ensures runs { IfOk result (λ p. run_of most first vars.old self.old ≡ (p.step, vars.new, self.new)) }
        ensures knows { IfOk result (λ p. KnowsIn p.known self.new) }
    {
        let mut left = most;
        let mut turn = first;
        'turns: loop {
            if left == 0 {
                return Ok(Paused::at(alloc, HostStep::Stop(Ending::TimeLimit)));
            }
            left -= 1;
            match self.turned(alloc, vars, left, turn)? {
                Went::Over(step) => return Ok(Paused::at(alloc, step)),
                Went::Listens(known) => return Ok(Paused::listening(known)),
                Went::Turn(next) => turn = next,
            }
        }
    }

    /// Runs a turn and those that follow it.
    pub(crate) fn run(
        &mut self,
        alloc: Global,
        vars: &mut Vars,
        first: Turn,
    ) -> Result<Paused, AllocError>
        ensures runs { IfOk result (λ p. run_of turns first vars.old self.old ≡ (p.step, vars.new, self.new)) }
        ensures knows { IfOk result (λ p. KnowsIn p.known self.new) }
    {
        self.run_for(alloc, vars, all_turns(), first)
    }

    /// Continues a call that waited.
    pub(crate) fn go_on(
        &mut self,
        alloc: Global,
        vars: &mut Vars,
        phase: Phase,
        known: Known,
    ) -> Result<Paused, AllocError>
        requires { KnowsAt phase known self.old.own }
        ensures runs { IfOk result (λ p. resuming phase vars.old self.old ≡ (p.step, vars.new, self.new)) }
        ensures knows { IfOk result (λ p. KnowsIn p.known self.new) }
    {
        match phase {
            Phase::Idle => Ok(Paused::at(alloc, HostStep::Fail(Value::new(alloc)))),
            Phase::At(left, want) => match self.wait(alloc, left, want, known)? {
                Went::Over(step) => Ok(Paused::at(alloc, step)),
                Went::Listens(known) => Ok(Paused::listening(known)),
                Went::Turn(next) => self.run_for(alloc, vars, left, next),
            },
        }
    }
}
