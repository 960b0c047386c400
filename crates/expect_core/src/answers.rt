//! The answers to the requests to a child.

ghost use Rattle.std.specs.Prelude.{◌≡◌, ◌++◌, ◌∷◌, [], OnOk, OnErr};
ghost use Rattle.expect_core.specs.Answered.{first_answer};
ghost use Rattle.expect_core.specs.Heard.{at_most};

use child_events::Answer;
use std::alloc::{AllocError, Global};
use std::collections::VecDeque;
use std::marker::Model;

/// Answers that no call has taken yet, each with its moment. A contract sees a list.
#[derive(Drop)]
pub struct Answers {
    list: VecDeque<(u64, Answer)>,
}

impl Model for Answers {
    ghost use Rattle.std.specs.Prelude.{List, ℕ};
    ghost use Rattle.child_events.specs.declared.event.Answer.{Answer};

    ghost Value = { List (ℕ × Answer) };

    ghost view = { λ a. a.list.items };
}

impl Answers {
    /// Creates an empty list without allocating.
    pub(crate) fn new(alloc: Global) -> Answers
        ensures { result ≡ [] }
    {
        Answers {
            list: VecDeque::new(alloc),
        }
    }

    /// Appends an answer. On `AllocError` the list is unchanged.
    pub(crate) fn push(&mut self, moment: u64, answer: Answer) -> Result<(), AllocError>
        ensures pushed { OnOk result (self.new ≡ self.old ++ (moment, answer) ∷ []) }
        ensures kept { OnErr result (self.new ≡ self.old) }
    {
        self.list.push_back((moment, answer))?;
        Ok(())
    }

    /// Takes the first answer, if its moment is no later than `limit`.
    pub(crate) fn take(&mut self, limit: Option<u64>) -> Option<(u64, Answer)>
        ensures { first_answer limit self.old ≡ (result, self.new) }
    {
        let (moment, _) = self.list.front()?;
        if !is_within(*moment, limit) {
            return None;
        }
        self.list.pop_front()
    }
}

/// Returns whether a moment is no later than `limit`. `None` is no limit.
pub(crate) fn is_within(moment: u64, limit: Option<u64>) -> bool
    ensures { result ≡ at_most moment limit }
{
    match limit {
        Some(last) => moment <= last,
        None => true,
    }
}
