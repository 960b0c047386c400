//! A keeper of real processes.

ghost use Rattle.std.specs.Prelude.{◌≡◌, ◌+◌, ◌^◌, ◌<◌, ◌≤◌, OnErr};

use crate::cancellation::Cancellation;
use crate::children::Children;
use crate::counts::Counts;
use crate::errors::ErrorPipes;
use crate::output::Output;
use crate::programs::Programs;
use crate::reaper::Reaper;
use child_events::{Answer, Cause};
use child_hands::Keeper;
use std::alloc::{AllocError, Global};
use std::sync::{Arc, Wait};
use std::time::Clock;
use tcl_words::{Text, Texts};

/// A keeper of real processes, over pipes. When it is dropped, the input of each child ends.
///
/// A program is searched in the folders of `PATH` if its name contains no slash. It gets a pipe for
/// its input and one for its output, and this process's environment and folder. Its standard error
/// is that of this process, or a pipe that `errors` takes. No contract can tell what the program
/// does: `told` and `gives` are always true.
#[derive(Drop)]
pub struct Pipes<R: Programs + Wait + Clock + Drop> {
    name: u64,
    counts: Counts,
    children: Children<R>,
}

impl<R: Programs + Wait + Clock + Drop> Pipes<R> {
    /// Creates a keeper without children. Its name is the number of its script minus 1. The reaper
    /// takes each child that it starts. Once the script is cancelled or the keeper is dropped, no
    /// call waits for a child any longer, and the children must end.
    pub fn new(
        rt: R,
        alloc: Global,
        name: u64,
        reaper: Reaper,
        errors: Option<ErrorPipes>,
        cancellation: Arc<Cancellation>,
    ) -> Result<Pipes<R>, AllocError> {
        Ok(Pipes {
            name,
            counts: Counts::new(),
            children: Children::new(
                rt,
                alloc,
                name.saturating_add(1),
                reaper,
                errors,
                cancellation,
            )?,
        })
    }
}

impl<R: Programs + Wait + Clock + Drop> Keeper for Pipes<R> {
    type Out = Output;

    ghost named = { λ p. p.name };

    ghost made = { λ p. p.counts.0 };

    ghost failed = { λ p. p.counts.1 };

    ghost told = { λ _ _ _ _. Unit {0} };

    ghost gives = { λ _ _ _. Unit {0} };

    fn spawn(&mut self, child: u8, argv: &Texts) -> Result<Output, Cause> {
        let outcome = self.children.start(child, argv);
        self.counts.count(outcome.is_err());
        outcome
    }

    fn write(&mut self, child: u8, bytes: &Text) -> Result<(), Cause> {
        let outcome = self.children.write(child, bytes.as_slice());
        self.counts.count(outcome.is_err());
        outcome
    }

    fn end(&mut self, child: u8) -> Result<(), Cause> {
        let outcome = self.children.end(child);
        self.counts.count(outcome.is_err());
        outcome
    }

    fn close(&mut self, child: u8) -> Result<(), Cause> {
        let outcome = self.children.close(child);
        self.counts.count(outcome.is_err());
        outcome
    }

    fn wait(&mut self, child: u8) -> Answer {
        let answer = self.children.wait(child);
        self.counts.count(matches!(answer, Answer::Fail(_)));
        answer
    }

    fn name(&self) -> u64 {
        self.name
    }

    fn calls(&self) -> u64 {
        self.counts.calls()
    }

    fn failures(&self) -> u64 {
        self.counts.failures()
    }
}
