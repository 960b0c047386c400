//! What a wait for patterns remembers.

ghost use Rattle.std.specs.Prelude.{◌≡◌, IfOk};
ghost use Rattle.expect_core.specs.declared.dialogue.Dialogue.{Dialogue as DialogueOf};
ghost use Rattle.expect_core.specs.declared.own.Own.{Own as OwnOf};
ghost use Rattle.expect_core.specs.declared.plan.Plan.{Plan as PlanOf};
ghost use Rattle.expect_core.specs.declared.turn.Want.{Want as WantOf};
ghost use Rattle.expect_core.specs.Known.{Knows, KnowsIn, KnowsOf};
ghost use Rattle.expect_core.specs.Quiet.{unmarked};
ghost use Rattle.expect_core.specs.Sought.{nothing_sought};

use crate::quiet::Quiet;
use crate::sought::Sought;
use std::alloc::{AllocError, Global};

/// What a wait for patterns has found out about its children's bytes, so that it doesn't test them
/// twice.
#[derive(Drop)]
pub struct Known {
    /// The children that needn't be tested again.
    pub(crate) quiet: Quiet,
    /// The numbers of bytes that were searched without a match.
    pub(crate) sought: Sought,
}

impl Known {
    /// Returns the value that knows nothing, without allocating. It is true of every wait.
    pub(crate) fn nothing(alloc: Global) -> Known
        ensures plan { (p : PlanOf) (o : OwnOf) → Knows p result o }
        ensures wait { (w : WantOf) (o : OwnOf) → KnowsOf w result o }
        ensures waits { (st : DialogueOf) → KnowsIn result st }
    {
        Known {
            quiet: Quiet::none(alloc),
            sought: Sought::none(alloc),
        }
    }

    /// Returns the value that knows nothing, with room for this many children.
    pub(crate) fn new(alloc: Global, sides: usize) -> Result<Known, AllocError>
        ensures { IfOk result (λ k. k ≡ record { quiet = unmarked sides; sought = nothing_sought sides }) }
    {
        Ok(Known {
            quiet: Quiet::new(alloc, sides)?,
            sought: Sought::new(alloc, sides)?,
        })
    }
}
