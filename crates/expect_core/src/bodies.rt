//! The scripts that commands evaluate.

ghost use Rattle.std.specs.Prelude.{◌≡◌, ◌∷◌, [], Some, None, MatchOption, OnOk};
ghost use Rattle.exp_match.specs.Arguments.{Gives, patterns_of};
ghost use Rattle.expect_core.specs.Bodies.{acting_in};

use crate::body::Body;
use crate::plan::Plan;
use exp_match::{Compiled, PatternFault, PatternList};
use std::alloc::{AllocError, Global};
use std::marker::Model;
use tcl_host::Pile;
use tcl_values::Value;

/// The scripts that commands evaluate, the innermost first. A contract sees a list.
///
/// It also has the cache of compiled patterns, which all expects of the script share.
#[derive(Drop)]
pub struct Bodies {
    pile: Pile<Body>,
    compiled: Compiled,
}

impl Model for Bodies {
    ghost use Rattle.std.specs.Prelude.{List};
    ghost use Rattle.expect_core.specs.declared.body.Body.{Body};

    ghost Value = { List Body };

    ghost view = { λ b. b.pile };
}

impl Bodies {
    /// Creates an empty list without allocating.
    pub(crate) fn new(alloc: Global) -> Bodies
        ensures { result ≡ [] }
    {
        Bodies {
            pile: Pile::new(alloc),
            compiled: Compiled::new(alloc),
        }
    }

    /// Adds a script, which becomes the innermost.
    pub(crate) fn push(&mut self, body: Body) -> Result<(), AllocError>
        ensures { OnOk result (self.new ≡ body ∷ self.old) }
    {
        self.pile.push(body)
    }

    /// Returns the `expect` whose action is the innermost script, or `None`.
    pub(crate) fn top(&self) -> Option<&Plan>
        ensures { MatchOption result (acting_in self.now ≡ None) (λ plan. acting_in self.now ≡ Some plan.now) }
    {
        match self.pile.top() {
            Some(Body::Action(plan)) => Some(plan.get()),
            Some(Body::Source) => None,
            None => None,
        }
    }

    /// Removes and returns the innermost script, or `None`.
    pub(crate) fn pop(&mut self) -> Option<Body>
        ensures { MatchOption result ((self.old ≡ []) × (self.new ≡ [])) (λ body. self.old ≡ body ∷ self.new) }
    {
        self.pile.pop()
    }

    /// Reads the patterns and keywords in the arguments of an `expect`.
    pub(crate) fn patterns(
        &mut self,
        alloc: Global,
        args: &[Value],
    ) -> Result<PatternList, PatternFault>
        ensures same { self.new ≡ self.old }
        ensures gives { Gives result (patterns_of args.now) }
    {
        PatternList::build_with(alloc, &mut self.compiled, args)
    }
}
