//! A script's dialogue with its children.

ghost use Rattle.std.specs.Prelude.{◌≡◌, [], map, IfOk, OnOk, IsTrue};
ghost use Rattle.expect_core.specs.Good.{Good};
ghost use Rattle.expect_core.specs.Lanes.{offered, untaken_of, OutlivesTicks};
ghost use Rattle.expect_core.specs.Answered.{failure as failure_of};
ghost use Rattle.expect_core.specs.Calls.{fresh};

use crate::bodies::Bodies;
use crate::channels::Channels;
use crate::child::Children;
use crate::lanes::Lanes;
use crate::own::Own;
use crate::phase::Phase;
use crate::request::{Request, Requests};
use crate::settings::Settings;
use crate::standing::StandingList;
use child_events::{Answer, Cause, Event, What};
use std::alloc::{AllocError, Global};
use std::mem;
use tcl_words::Text;

/// The host of a script: its children, and what came from them and was not taken yet.
#[derive(Drop)]
pub struct Dialogue {
    /// The script's last moment in milliseconds, or `None` without a time limit.
    pub(crate) limit: Option<u64>,
    /// The greatest moment of the events so far.
    pub(crate) horizon: u64,
    /// What came from each child and was not taken yet.
    pub(crate) lanes: Lanes,
    /// The state that commands change.
    pub(crate) own: Own,
    /// What a waiting call was doing.
    pub(crate) phase: Phase,
    /// Whether memory was never refused.
    pub(crate) lives: bool,
}

/// Returns why a request failed, or `None` if it didn't. The answer to another kind of request
/// counts as a failure.
pub(crate) fn failure(answer: Answer) -> Option<Cause>
    ensures { result ≡ failure_of answer }
{
    match answer {
        Answer::Ok => None,
        Answer::Fail(cause) => Some(cause),
        Answer::Exit(_) => Some(Cause::Other),
        Answer::Killed => Some(Cause::Other),
    }
}

impl Dialogue {
    /// Creates a dialogue to which no event has come.
    pub fn new(alloc: Global, settings: &Settings) -> Result<Dialogue, AllocError>
        ensures { IfOk result (λ d. d ≡ fresh settings.now) }
    {
        Ok(Dialogue {
            limit: settings.limit_ms,
            horizon: 0,
            lanes: Lanes::new(alloc)?,
            own: Own {
                clock: 0,
                transcript: Text::new(alloc),
                requests: Requests::new(alloc),
                children: Children::new(alloc),
                log_user: true,
                host: settings.host,
                size: 2000,
                remove_nulls: true,
                channels: Channels::new(alloc),
                errors: None,
                day: None,
                before: StandingList::new(alloc),
                after: StandingList::new(alloc),
                bodies: Bodies::new(alloc),
            },
            phase: Phase::Idle,
            lives: true,
        })
    }

    /// Adds an event. If its moment is before the greatest one so far, it is raised to that.
    ///
    /// If memory is refused, `lives` becomes false and stays false. A tick allocates nothing.
    pub fn offer(&mut self, event: Event)
        ensures lived { IsTrue self.new.lives → IsTrue self.old.lives }
        ensures ticks { OutlivesTicks event self.old self.new }
        ensures came { Good self.old → IsTrue self.new.lives → self.new ≡ offered event self.old }
        ensures waits { (self.new.phase ≡ self.old.phase) × (self.new.own ≡ self.old.own) }
    {
        if !self.lives {
            return;
        }
        match event {
            Event::Tick { moment } => self.horizon = self.horizon.max(moment),
            Event::Child {
                child,
                moment,
                what,
            } => {
                if self.add(child, moment, what).is_err() {
                    self.lives = false;
                }
            }
        }
    }

    /// Adds what an event of a child brings.
    fn add(&mut self, child: u16, moment: u64, what: What) -> Result<(), AllocError>
        ensures came { Good self.old → OnOk result (self.new ≡ offered (Event.Child child moment what) self.old) }
        ensures waits { (self.new.phase ≡ self.old.phase) × (self.new.own ≡ self.old.own) }
    {
        self.horizon = self.horizon.max(moment);
        self.lanes.add(child, self.horizon, what)?;
        Ok(())
    }

    /// Returns the number of items from a child that no command has taken yet. 0 if there is no
    /// such child.
    ///
    /// An item is a piece of output, the end of the output, or a read failure. Echoes don't count.
    /// The child is numbered from 1. The cost is constant.
    pub fn untaken(&self, child: u8) -> usize
        ensures { result ≡ untaken_of child self.now.lanes }
    {
        self.lanes.untaken(child)
    }

    /// Returns the transcript: what the script wrote, and the output that it took while `log_user`
    /// was on.
    pub fn transcript(&self) -> &[u8]
        ensures { result.now ≡ self.now.own.transcript }
    {
        self.own.transcript.as_slice()
    }

    /// Returns the script's requests to its children, in order.
    pub fn requests(&self) -> &[Request]
        ensures { result.now ≡ self.now.own.requests }
    {
        self.own.requests.as_slice()
    }

    /// Returns copies of the script's requests to its children, in order.
    pub fn requests_copied(&self, alloc: Global) -> Result<Requests, AllocError>
        ensures { IfOk result (λ r. r ≡ self.now.own.requests) }
    {
        self.own.requests.copied(alloc)
    }

    /// Takes the transcript and the requests out of the dialogue, and leaves both empty.
    pub fn give_told(&mut self) -> (Text, Requests)
        ensures told { result ≡ (self.old.own.transcript, self.old.own.requests) }
        ensures left { self.new ≡ record self.old { own = record self.old.own { transcript = []; requests = [] } } }
    {
        let alloc = self.alloc();
        let transcript = mem::replace(&mut self.own.transcript, Text::new(alloc));
        let requests = mem::replace(&mut self.own.requests, Requests::new(alloc));
        (transcript, requests)
    }

    /// Returns, for each child that was requested, the number of bytes sent to it that were
    /// accepted.
    pub fn sent(&self, alloc: Global) -> Result<Vec<u64>, AllocError>
        ensures { IfOk result (λ v. v.items ≡ map (λ child. child.sent) self.now.own.children) }
    {
        let mut counts = Vec::new(alloc);
        for child in &self.own.children.list {
            counts.push(child.sent)?;
        }
        Ok(counts)
    }

    /// Returns whether memory was never refused.
    pub fn lives(&self) -> bool
        ensures { result ≡ self.now.lives }
    {
        let Dialogue { lives, .. } = self;
        *lives
    }

    /// Returns the allocator.
    pub(crate) fn alloc(&self) -> Global {
        *self.lanes.list.allocator()
    }

    /// Sets what the call is doing.
    pub(crate) fn set_phase(&mut self, phase: Phase)
        ensures { self.new ≡ record self.old { phase = phase } }
    {
        self.phase = phase;
    }
}
