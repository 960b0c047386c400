//! What a waiting call waits for.

ghost use Rattle.std.specs.Prelude.{◌≡◌, ◌≤◌, Some, None, MatchOption, IfOk, IfSome};
ghost use Rattle.expect_core.specs.Awaited.{answering as answering_of, opens as opens_of, start_of, output_of, starting as starting_of, hearing as hearing_of, expecting as expecting_of, buffer_of};
ghost use Rattle.expect_core.specs.Bodies.{acting_in};
ghost use Rattle.expect_core.specs.Deadlines.{as_moment as as_moment_of};

use crate::deadline::as_moment;
use crate::dialogue::Dialogue;
use crate::phase::Phase;
use crate::place::Place;
use crate::plan::Plan;
use crate::tool::Job;
use crate::turn::{Aim, Want};
use std::alloc::{AllocError, Global};
use tcl_words::Text;

impl Plan {
    /// Returns the last moment in milliseconds at which an item is in time. `None` if the `expect`
    /// never times out.
    pub fn last_moment(&self) -> Option<u64>
        ensures { result ≡ as_moment_of self.now.deadline }
    {
        as_moment(self.deadline)
    }
}

/// Returns whether a program says by its first output that a file is open.
fn opens(job: &Job) -> bool
    ensures { result ≡ opens_of job.now }
{
    match job {
        Job::Writer => true,
        Job::Exec(_) => false,
        Job::System => false,
        Job::Source => false,
        Job::Test => false,
        Job::Field(_) => false,
        Job::Stat(_) => false,
        Job::Change => false,
        Job::Line => false,
        Job::Day(_) => false,
        Job::Reader => false,
        Job::Pipe => false,
        Job::Complainer(_) => false,
    }
}

/// Returns the number of the child at a place if its first item says that it has started.
fn start(i: Place, aim: &Aim) -> Option<u8>
    ensures value { result ≡ start_of aim.now i }
    ensures few { IfSome result (λ c. (1 ≤ c) × (c ≤ 16)) }
{
    match aim {
        Aim::Spawn(_) => Some(i.number()),
        Aim::Tool(run) => {
            if opens(&run.job) {
                Some(i.number())
            } else {
                None
            }
        }
    }
}

/// Returns the number of the child at a place if its items are a command's output.
fn output(i: Place, aim: &Aim) -> Option<u8>
    ensures { result ≡ output_of aim.now i }
{
    match aim {
        Aim::Spawn(_) => None,
        Aim::Tool(run) => {
            if opens(&run.job) {
                None
            } else {
                Some(i.number())
            }
        }
    }
}

impl Dialogue {
    /// Returns the number of the child, from 1, whose answer a call awaits. `None` if no call
    /// awaits one.
    pub fn answering(&self) -> Option<u8>
        ensures { result ≡ answering_of self.now.phase }
    {
        match &self.phase {
            Phase::At(_, Want::Answer(child, _)) => Some(child.number()),
            Phase::At(_, Want::End(child, _)) => Some(child.number()),
            Phase::At(_, Want::Item(_, _)) => None,
            Phase::At(_, Want::Output(_)) => None,
            Phase::Idle => None,
        }
    }

    /// Returns the number of the child, from 1, whose start a call awaits: the first item of a
    /// terminal of the system, or of a program that opens a file to write it. `None` if no call
    /// awaits one.
    pub fn starting(&self) -> Option<u8>
        ensures value { result ≡ starting_of self.now.phase }
        ensures few { IfSome result (λ c. (1 ≤ c) × (c ≤ 16)) }
    {
        match &self.phase {
            Phase::At(_, Want::Item(child, why)) => start(*child, why),
            Phase::At(_, Want::Answer(_, _)) => None,
            Phase::At(_, Want::End(_, _)) => None,
            Phase::At(_, Want::Output(_)) => None,
            Phase::Idle => None,
        }
    }

    /// Returns the number of the child, from 1, whose output is awaited by the command that runs
    /// it. `None` if no call awaits one.
    pub fn hearing(&self) -> Option<u8>
        ensures { result ≡ hearing_of self.now.phase }
    {
        match &self.phase {
            Phase::At(_, Want::Item(child, why)) => output(*child, why),
            Phase::At(_, Want::Answer(_, _)) => None,
            Phase::At(_, Want::End(_, _)) => None,
            Phase::At(_, Want::Output(_)) => None,
            Phase::Idle => None,
        }
    }

    /// Returns the `expect` that waits for output. `None` if none does.
    pub fn expecting(&self) -> Option<&Plan>
        ensures { MatchOption result (expecting_of self.now.phase ≡ None) (λ p. expecting_of self.now.phase ≡ Some p.now) }
    {
        match &self.phase {
            Phase::At(_, Want::Output(plan)) => Some(plan.get()),
            Phase::At(_, Want::Answer(_, _)) => None,
            Phase::At(_, Want::Item(_, _)) => None,
            Phase::At(_, Want::End(_, _)) => None,
            Phase::Idle => None,
        }
    }

    /// Returns the `expect` whose action is the innermost script. `None` if there is none, or if
    /// `source` read that script.
    pub fn acting(&self) -> Option<&Plan>
        ensures { MatchOption result (acting_in self.now.own.bodies ≡ None) (λ p. acting_in self.now.own.bodies ≡ Some p.now) }
    {
        self.own.bodies.top()
    }

    /// Returns a copy of a child's match buffer: the bytes that no `expect` has taken.
    ///
    /// The child is numbered from 1. The copy is empty if there is no such child.
    pub fn buffer_copied(&self, alloc: Global, child: u8) -> Result<Text, AllocError>
        ensures { IfOk result (λ t. t ≡ buffer_of child self.now.own.children) }
    {
        self.own.children.buffer_copied(alloc, child)
    }
}
