//! A dialogue as the host of a script.

ghost use Rattle.std.specs.Prelude.{◌≡◌, [], false, IfOk, IsTrue};
ghost use Rattle.expect_core.specs.Calls.{fresh, IsReply};
ghost use Rattle.expect_core.specs.Good.{Good};
ghost use Rattle.expect_core.specs.Known.{KnowsIn};
ghost use Rattle.expect_core.specs.Lanes.{offered, OutlivesTicks};
ghost use Rattle.expect_core.specs.Replies.{OrMemory, StillKnows};

use crate::calls::knows;
use crate::dialogue::Dialogue;
use crate::known::Known;
use crate::request::Requests;
use crate::run::Paused;
use crate::settings::Settings;
use child_events::Event;
use std::alloc::{AllocError, Global};
use std::marker::Model;
use std::mem;
use tcl_host::{Host, HostStep, Values};
use tcl_results::Code;
use tcl_subst::Vars;
use tcl_values::Value;
use tcl_words::Text;

/// The host of a script: its dialogue, and what the current wait remembers.
///
/// A contract sees only the dialogue. What is remembered saves work and changes no result.
#[derive(Drop)]
pub struct DialogueHost {
    dialogue: Dialogue,
    known: Known,
}

impl Model for DialogueHost {
    ghost use Rattle.expect_core.specs.declared.dialogue.Dialogue.{Dialogue};
    ghost use Rattle.expect_core.specs.Known.{KnowsIn};

    ghost Value = { Dialogue };

    ghost view = { λ h. h.dialogue };

    ghost invariant = { λ h. KnowsIn h.known h.dialogue };
}

/// Returns the step of a call, and keeps what its wait knows. If memory was refused, `lives`
/// becomes false and the step is `Memory`.
fn settle(dialogue: &mut Dialogue, known: &mut Known, came: Result<Paused, AllocError>) -> HostStep
    ensures step { OrMemory dialogue.old came result dialogue.new }
    ensures refused { dialogue.new.lives ≡ false → result ≡ HostStep.Memory }
    ensures knows { StillKnows dialogue.old came known.new dialogue.new }
{
    let alloc = dialogue.alloc();
    if let Ok(paused) = came {
        if dialogue.lives {
            *known = paused.known;
            return paused.step;
        }
    }
    dialogue.lives = false;
    *known = Known::nothing(alloc);
    HostStep::Memory
}

impl DialogueHost {
    /// Creates a host to which no event has come.
    pub fn new(alloc: Global, settings: &Settings) -> Result<DialogueHost, AllocError>
        ensures { IfOk result (λ d. d ≡ fresh settings.now) }
    {
        Ok(DialogueHost {
            dialogue: Dialogue::new(alloc, settings)?,
            known: Known::nothing(alloc),
        })
    }

    /// Returns the dialogue.
    pub fn state(&self) -> &Dialogue
        ensures { result.now ≡ self.now }
    {
        &self.dialogue
    }

    /// Adds an event. If its moment is before the greatest one so far, it is raised to that.
    ///
    /// If memory is refused, `lives` becomes false and stays false. A tick allocates nothing.
    pub fn offer(&mut self, event: Event)
        ensures lived { IsTrue self.new.lives → IsTrue self.old.lives }
        ensures ticks { OutlivesTicks event self.old self.new }
        ensures came { Good self.old → IsTrue self.new.lives → self.new ≡ offered event self.old }
    {
        self.dialogue.offer(event);
    }

    /// Takes the transcript and the requests out of the dialogue, and leaves both empty.
    pub fn give_told(&mut self) -> (Text, Requests)
        ensures told { result ≡ (self.old.own.transcript, self.old.own.requests) }
        ensures left { self.new ≡ record self.old { own = record self.old.own { transcript = []; requests = [] } } }
    {
        self.dialogue.give_told()
    }
}

impl Host for DialogueHost {
    ghost answers = { IsReply };

    fn knows(&self, name: &[u8]) -> bool {
        knows(name)
    }

    fn begin(&mut self, vars: &mut Vars, words: &Values) -> HostStep {
        if !self.dialogue.lives {
            return HostStep::Memory;
        }
        let came = self.dialogue.begin_words(vars, words.as_slice());
        settle(&mut self.dialogue, &mut self.known, came)
    }

    fn resume(&mut self, vars: &mut Vars) -> HostStep {
        if !self.dialogue.lives {
            return HostStep::Memory;
        }
        let nothing = Known::nothing(self.dialogue.alloc());
        let known = mem::replace(&mut self.known, nothing);
        let came = self.dialogue.resumed(vars, known);
        settle(&mut self.dialogue, &mut self.known, came)
    }

    fn after_words(&mut self, vars: &mut Vars, words: &Values) -> HostStep {
        if !self.dialogue.lives {
            return HostStep::Memory;
        }
        let came = self.dialogue.begin_filled(vars, words.as_slice());
        settle(&mut self.dialogue, &mut self.known, came)
    }

    fn after_body(&mut self, vars: &mut Vars, code: Code, value: &Value) -> HostStep {
        if !self.dialogue.lives {
            return HostStep::Memory;
        }
        let came = self.dialogue.go_behind(vars, code, value);
        settle(&mut self.dialogue, &mut self.known, came)
    }
}
