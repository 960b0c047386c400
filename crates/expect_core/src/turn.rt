//! A turn of a call: what it changes, and what the call does next.

ghost use Rattle.std.specs.Prelude.{◌≡◌, [], None, IfOk};
ghost use Rattle.expect_core.specs.Turns.{at as at_of, badly, over as over_of, over_at as over_at_of, turn_of, well};

use crate::effect::Effects;
use crate::place::Place;
use crate::plan::{Met, PlanBox};
use crate::sleeping::nothing_until;
use crate::spread::Spread;
use crate::tool::{Stride, ToolRun};
use child_events::Cause;
use std::alloc::{AllocError, Global};
use tcl_host::Pile;
use tcl_results::Code;
use tcl_values::Value;
use tcl_words::{Text, Texts};
use tty::Action;

/// The end of a call.
#[derive(Drop)]
pub enum Reply {
    /// It ends with this code and value.
    Done(Code, Value),
    /// It is an error with this text.
    Fail(Value),
}

/// What an answer is awaited for.
#[derive(Drop)]
pub enum Purpose {
    /// A `spawn` of these words, and whether it is on a terminal of the system.
    Spawn(bool, Texts),
    /// A request of a tool run.
    Tool(Stride, ToolRun),
    /// The `close` of a terminal of the system that a `spawn` of these words found no program for.
    Missing(Texts),
    /// The `wait` for it.
    Gone(Texts),
    /// A `send`: the action that was requested, the remaining ones, and what is sent after them.
    Send(Action, Pile<Action>, Option<Spread>),
    /// A `close`.
    Close,
    /// A `wait`.
    Wait,
    /// The end of an `expect` after a failed read.
    Fail(Cause),
}

/// What an item is awaited for.
#[derive(Drop)]
pub enum Aim {
    /// A `spawn` of these words on a terminal of the system.
    Spawn(Texts),
    /// A tool run.
    Tool(ToolRun),
}

/// What a call does next with the child of its turn.
#[derive(Drop)]
pub enum Next {
    /// It ends.
    Finish(Reply),
    /// It awaits the child's next answer.
    Await(Purpose),
    /// It awaits the child's next item.
    Hear(Aim),
    /// It asks for the evaluation of this script.
    Evaluate(Text),
    /// It sends this text to the child's terminal, and then the rest.
    Send(Value, Option<Spread>),
    /// It waits up to this moment, and then sends the rest.
    Pause(Option<u128>, Spread),
}

/// What a call changes for a child, and what it does next.
#[derive(Drop)]
pub struct Reaction {
    pub effects: Effects,
    pub next: Next,
}

/// What a command does.
#[derive(Drop)]
pub enum Deed {
    /// It is for no child, and ends at once.
    Alone(Effects, Reply),
    /// It is for the child at this place.
    To(Place, Reaction),
    /// It waits for output of the children of this plan.
    Expect(PlanBox),
}

/// What a waiting call waits for.
#[derive(Drop)]
pub enum Want {
    /// The next answer of the child at this place.
    Answer(Place, Purpose),
    /// The next item of the child at this place.
    Item(Place, Aim),
    /// An item of a child of this `expect`.
    Output(PlanBox),
    /// The answer to the request that closes this child at the end of its output, for this
    /// `expect`.
    End(Place, PlanBox),
}

/// What a call does next.
#[derive(Drop)]
pub enum Stage {
    /// It ends.
    Over(Reply),
    /// It evaluates the action of the entry that was met.
    Act(PlanBox, Met),
    /// It tests the match buffers of an `expect`, and then waits for output.
    Look(PlanBox),
    /// It evaluates this script.
    Read(Text),
    /// It sends this text to the terminal of the child at this place, and then the rest.
    Send(Place, Value, Option<Spread>),
    /// It waits.
    Wait(Want),
}

/// A turn: effects on a child, or on what all children share, and what the call does next.
#[derive(Drop)]
pub struct Turn {
    pub child: Option<Place>,
    pub effects: Effects,
    pub stage: Stage,
}

/// Returns the end of a command with this value.
pub(crate) fn done(value: Value) -> Reply
    ensures { result ≡ Reply.Done Code.Ok value }
{
    Reply::Done(Code::Ok, value)
}

impl Reaction {
    /// Returns the end of a call, after these effects.
    pub(crate) fn well(alloc: Global, effects: Effects) -> Reaction
        ensures { result ≡ well effects }
    {
        let next = Next::Finish(done(Value::new(alloc)));
        Reaction { effects, next }
    }

    /// Returns the error of a call, after these effects.
    pub(crate) fn badly(alloc: Global, effects: Effects, text: Text) -> Result<Reaction, AllocError>
        ensures { IfOk result (λ r. r ≡ badly effects text) }
    {
        let next = Next::Finish(Reply::Fail(Value::from_text(alloc, text)?));
        Ok(Reaction { effects, next })
    }

    /// Returns the reaction as a turn of the child at a place.
    pub(crate) fn at(self, alloc: Global, i: Place) -> Result<Turn, AllocError>
        ensures { IfOk result (λ t. t ≡ at_of i self) }
    {
        Ok(Turn {
            child: Some(i),
            effects: self.effects,
            stage: match self.next {
                Next::Finish(reply) => Stage::Over(reply),
                Next::Await(why) => Stage::Wait(Want::Answer(i, why)),
                Next::Hear(aim) => Stage::Wait(Want::Item(i, aim)),
                Next::Evaluate(script) => Stage::Read(script),
                Next::Send(text, rest) => Stage::Send(i, text, rest),
                Next::Pause(last, rest) => {
                    Stage::Look(nothing_until(alloc, last, Some((i, rest)))?)
                }
            },
        })
    }
}

impl Deed {
    /// Returns what a command does that ends at once. It changes a child, or without one what all
    /// children share.
    pub(crate) fn over_at(at: Option<Place>, effects: Effects, reply: Reply) -> Deed
        ensures { result ≡ over_at_of at effects reply }
    {
        match at {
            None => Deed::Alone(effects, reply),
            Some(i) => Deed::To(
                i,
                Reaction {
                    effects,
                    next: Next::Finish(reply),
                },
            ),
        }
    }

    /// Returns the command as a turn.
    pub(crate) fn turn(self, alloc: Global) -> Result<Turn, AllocError>
        ensures { IfOk result (λ t. t ≡ turn_of self) }
    {
        match self {
            Deed::Alone(effects, reply) => Ok(Turn {
                child: None,
                effects,
                stage: Stage::Over(reply),
            }),
            Deed::To(i, reaction) => reaction.at(alloc, i),
            Deed::Expect(plan) => Ok(Turn::only(alloc, Stage::Look(plan))),
        }
    }
}

impl Turn {
    /// Returns a turn without a child and without effects.
    pub(crate) fn only(alloc: Global, stage: Stage) -> Turn
        ensures { result ≡ record { child = None; effects = []; stage = stage } }
    {
        Turn {
            child: None,
            effects: Effects::new(alloc),
            stage,
        }
    }

    /// Returns a turn that only ends the call.
    pub(crate) fn over(alloc: Global, reply: Reply) -> Turn
        ensures { result ≡ over_of reply }
    {
        Turn::only(alloc, Stage::Over(reply))
    }
}
