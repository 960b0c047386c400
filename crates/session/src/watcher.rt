//! Watchers of a script's expects.

use expect_core::{Plan, Request};
use tcl_subst::Vars;

/// Sees what ends the wait of each expect of a script.
pub trait Watcher {
    ghost use Rattle.std.specs.Prelude.{List};
    ghost use Rattle.tcl_subst.specs.Variables.{Variables};
    ghost use Rattle.expect_core.specs.declared.plan.Plan.{Plan};
    ghost use Rattle.expect_core.specs.declared.request.Request.{Request};

    /// The watcher after it sees a plan, the variables and the requests.
    ghost sees: { Self → Plan → Variables → List Request → Self → Type 0 };

    /// Takes note that an expect met something, before its action is evaluated. The plan says what
    /// was met. The variables contain what was stored. `asked` is all requests so far.
    fn met(&mut self, plan: &Plan, vars: &Vars, asked: &[Request])
        ensures { sees self.old plan.now vars.now asked.now self.new };
}

/// A watcher that ignores everything.
#[derive(Clone, Copy)]
pub(crate) struct Nobody {}

impl Watcher for Nobody {
    ghost use Rattle.std.specs.Prelude.{◌≡◌};

    ghost sees = { λ old plan vars asked new. new ≡ old };

    fn met(&mut self, _plan: &Plan, _vars: &Vars, _asked: &[Request]) {}
}
