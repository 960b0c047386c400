//! A dialogue with a watcher of its expects.

ghost use Rattle.std.specs.Prelude.{◌≡◌};
ghost use Rattle.session.specs.Watching.{Sees, met_by};

use crate::watcher::Watcher;
use expect_core::DialogueHost;
use tcl_host::{Host, HostStep, Values};
use tcl_results::Code;
use tcl_subst::Vars;
use tcl_values::Value;

/// A dialogue with a watcher of its expects. As a host it replies as the dialogue does.
#[derive(Drop)]
pub(crate) struct Watched<W: Watcher + Drop> {
    pub dialogue: DialogueHost,
    pub watcher: W,
}

impl<W: Watcher + Drop> Watched<W> {
    /// Shows the watcher what was met, if this step is the action of an expect.
    fn show(&mut self, vars: &Vars, step: &HostStep)
        ensures same { self.new.dialogue ≡ self.old.dialogue }
        ensures seen { Sees W.sees (met_by step.now vars.now self.old.dialogue.own) self.old.watcher self.new.watcher }
    {
        let HostStep::Body(_) = step else {
            return;
        };
        let dialogue = self.dialogue.state();
        if let Some(plan) = dialogue.acting() {
            self.watcher.met(plan, vars, dialogue.requests());
        }
    }
}

impl<W: Watcher + Drop> Host for Watched<W> {
    ghost use Rattle.expect_core.specs.Calls.{IsReply};
    ghost use Rattle.session.specs.Watching.{Sees, met_in};

    ghost answers = { λ old call reply new. IsReply old.dialogue call reply new.dialogue × Sees W.sees (met_in reply new.dialogue.own) old.watcher new.watcher };

    fn knows(&self, name: &[u8]) -> bool {
        self.dialogue.knows(name)
    }

    fn begin(&mut self, vars: &mut Vars, words: &Values) -> HostStep {
        let step = self.dialogue.begin(vars, words);
        self.show(vars, &step);
        step
    }

    fn resume(&mut self, vars: &mut Vars) -> HostStep {
        let step = self.dialogue.resume(vars);
        self.show(vars, &step);
        step
    }

    fn after_words(&mut self, vars: &mut Vars, words: &Values) -> HostStep {
        let step = self.dialogue.after_words(vars, words);
        self.show(vars, &step);
        step
    }

    fn after_body(&mut self, vars: &mut Vars, code: Code, value: &Value) -> HostStep {
        let step = self.dialogue.after_body(vars, code, value);
        self.show(vars, &step);
        step
    }
}
