//! A hall of sessions. Each session sees only its own events.

ghost use Rattle.std.specs.Prelude.{◌≡◌, ◌<◌, ◌≤◌, [], length, replicate, vec_len};
ghost use Rattle.child_events.specs.declared.event.Event.TheVariants as events;
ghost use Rattle.dialogue_sched.specs.Feeding.{AllFed, FedAt};

use crate::fault::opening_fault;
use crate::refusal::{HallRefusal, refusal};
use crate::reports::Reports;
use crate::script::Script;
use crate::shares::{Share, Shares};
use child_events::{Event, HallEvent, HallEvents};
use expect_core::sooner;
use session::{Ending, Report, Request, Session};
use std::alloc::{AllocError, AllocFailed, Global};
use std::marker::Model;

/// Why there is no hall.
#[derive(Clone, Copy, Debug, PartialEq, Eq)]
pub enum HallFault {
    /// There are more than 64 scripts.
    TooManyScripts,
    /// The source of a script is too long. The number is that of the first one, counted from 1.
    SourceTooLong(usize),
    /// Memory was refused. The scripts are otherwise correct.
    Memory,
}

impl<T: Drop> From<AllocFailed<T>> for HallFault {
    ghost use Rattle.std.specs.Prelude.{◌≡◌};
    ghost use Rattle.dialogue_sched.specs.declared.hall.HallFault.TheVariants.{Memory};

    ghost from_gives = { λ _ e. e ≡ Memory };

    fn from(_e: AllocFailed<T>) -> HallFault {
        HallFault::Memory
    }
}

/// Sessions, numbered from 1. A contract sees a list.
#[derive(Drop)]
pub struct Hall {
    sessions: Vec<Session>,
    /// Room for a report of each session.
    room: Vec<Report>,
}

impl Model for Hall {
    ghost use Rattle.std.specs.Prelude.{List, [], ◌≡◌, ◌≤◌, length, vec_capacity};
    ghost use Rattle.std.specs.Coded.{codes};
    ghost use Rattle.session.specs.Left.{Kept};
    ghost use Rattle.session.specs.contracts.session.Session as session;

    ghost Value = { List Kept };

    ghost coded = { Prim.hlevel (codes, session.the_row.coded) };

    ghost view = { λ h. h.sessions.items };

    ghost invariant = { λ h. (length h.sessions.items ≤ 64) × (h.room.items ≡ []) × (length h.sessions.items ≤ vec_capacity h.room) };
}

/// Passes an event to the session at index i.
fn feed_at(sessions: &mut Vec<Session>, i: usize, event: Event)
    requires { i < vec_len sessions.old }
    ensures fed { FedAt i event sessions.old.items sessions.new.items }
    ensures same { vec_len sessions.new ≡ vec_len sessions.old }
{
    let session = &mut sessions[i];
    session.feed(event);
}

/// Passes a tick to each session.
fn tick_all(sessions: &mut Vec<Session>, moment: u64)
    ensures fed { AllFed (events.Tick moment) sessions.old.items sessions.new.items }
    ensures same { vec_len sessions.new ≡ vec_len sessions.old }
{
    for i in 0..sessions.len() {
        feed_at(sessions, i, Event::Tick { moment });
    }
}

/// Passes events to the session at index i. Requires at least one.
fn feed_all_at(sessions: &mut Vec<Session>, i: usize, events: Vec<Event>)
    requires { i < vec_len sessions.old }
    ensures fed { FedAllAt i events.items sessions.old.items sessions.new.items }
    ensures same { vec_len sessions.new ≡ vec_len sessions.old }
{
    let session = &mut sessions[i];
    session.feed_all(events);
}

/// Passes a share of events to the session at index i. An empty share changes nothing.
fn feed_share(sessions: &mut Vec<Session>, i: usize, events: Vec<Event>)
    requires { i < vec_len sessions.old }
    ensures took { TookAt i events.items sessions.old.items sessions.new.items }
    ensures same { vec_len sessions.new ≡ vec_len sessions.old }
{
    if events.is_empty() {
        return;
    }
    feed_all_at(sessions, i, events);
}

/// Passes to each session the share at its index.
fn feed_shares(sessions: &mut Vec<Session>, shares: Vec<Share>)
    requires { vec_len shares ≡ vec_len sessions.old }
    ensures took { AllTookShare shares.items sessions.old.items sessions.new.items }
    ensures same { vec_len sessions.new ≡ vec_len sessions.old }
{
    let mut i: usize = 0;
    for share in shares {
        let Share { events } = share;
        feed_share(sessions, i, events);
        i += 1;
    }
}

/// Distributes events to this number of scripts.
fn dealt(alloc: Global, scripts: usize, events: Vec<HallEvent>) -> Result<Shares, AllocError>
    ensures { IfOk result (λ shares. shares ≡ dealt_all 1 events.items (replicate scripts [])) }
{
    let mut shares = Shares::new(alloc, scripts)?;
    for event in events {
        shares.deal(event)?;
    }
    Ok(shares)
}

/// Returns the reports of sessions, in the reserved room. Each session is dropped after its report.
fn reports_in(room: Vec<Report>, sessions: Vec<Session>) -> Reports
    requires none { room.items ≡ [] }
    requires room { vec_len sessions ≤ vec_capacity room }
    ensures { AllReport sessions.items result }
{
    let mut list = room;
    for session in sessions {
        list.push_reserved(session.into_report());
    }
    Reports { list }
}

ghost use Rattle.std.specs.Prelude.{IfOk, IfSome, OnOk, OnErr, vec_capacity};
ghost use Rattle.dialogue_sched.specs.Hall.{AllReport};
ghost use Rattle.dialogue_sched.specs.Feeding.{FedAllAt};
ghost use Rattle.dialogue_sched.specs.Shares.{dealt_all, TookAt, AllTookShare};
ghost use Rattle.dialogue_sched.specs.Took.{AllTook};

impl Hall {
    ghost use Rattle.dialogue_sched.specs.Hall.{Opens, Stepped, Requested, Reported, EndsAt, HasShownAt, StartsAt, session_at, untaken_by};
    ghost use Rattle.dialogue_sched.specs.Deadlines.{soonest, AllQuietUntil};
    ghost use Rattle.std.specs.Prelude.{◌≤◌, MatchOption, Some, None};

    /// Creates a hall of these scripts. No event has reached it.
    pub fn new(alloc: Global, scripts: Vec<Script>) -> Result<Hall, HallFault>
        ensures { Opens scripts.items result }
    {
        if let Some(fault) = opening_fault(scripts.as_slice()) {
            return Err(fault);
        }
        let Ok(room) = Vec::with_capacity(alloc, scripts.len()) else {
            return Err(HallFault::Memory);
        };
        let mut sessions = Vec::new(alloc);
        for script in scripts {
            let Script { source, settings } = script;
            match Session::new(alloc, source, settings) {
                Ok(session) => {
                    sessions.push(session)?;
                }
                Err(_) => return Err(HallFault::Memory),
            }
        }
        Ok(Hall { sessions, room })
    }

    /// Returns the number of scripts.
    pub fn len(&self) -> usize
        ensures value { result ≡ length self.now }
        ensures few { result ≤ 64 }
    {
        self.sessions.len()
    }

    /// Passes an event to each script that it concerns. A refused event changes nothing.
    pub fn step(&mut self, event: HallEvent) -> Result<(), HallRefusal>
        ensures { Stepped event self.old self.new result }
    {
        if let Some(refusal) = refusal(self.sessions.len(), &event) {
            return Err(refusal);
        }
        match event {
            HallEvent::Child {
                script,
                child,
                moment,
                what,
            } => {
                let at = script as usize - 1;
                feed_at(
                    &mut self.sessions,
                    at,
                    Event::Child {
                        child,
                        moment,
                        what,
                    },
                );
                Ok(())
            }
            HallEvent::Tick { moment } => {
                tick_all(&mut self.sessions, moment);
                Ok(())
            }
        }
    }

    /// Passes events to the scripts that they concern, in order. Requires events that no script
    /// refuses. On `AllocError` nothing changes.
    pub(crate) fn take_all(&mut self, alloc: Global, events: HallEvents) -> Result<(), AllocError>
        ensures took { OnOk result (AllTook 1 events self.old self.new) }
        ensures kept { OnErr result (self.new ≡ self.old) }
    {
        let HallEvents { list } = events;
        let shares = dealt(alloc, self.sessions.len(), list)?;
        let Shares { list } = shares;
        feed_shares(&mut self.sessions, list);
        Ok(())
    }

    /// Takes the next request of a script. Each request is returned once.
    pub fn request(&mut self, script: usize) -> Option<Request>
        ensures { Requested script self.old result self.new }
    {
        if script == 0 || script > self.sessions.len() {
            return None;
        }
        let session = &mut self.sessions[script - 1];
        session.next_request()
    }

    /// Returns the session of a script. `None` if there is no such script.
    fn session(&self, script: usize) -> Option<&Session>
        ensures { MatchOption result (session_at script self.now ≡ None) (λ s. session_at script self.now ≡ Some s.now) }
    {
        if script == 0 || script > self.sessions.len() {
            return None;
        }
        Some(&self.sessions[script - 1])
    }

    /// Returns the report of a script so far. `None` if there is no such script.
    ///
    /// If the report is refused memory, it is the report of a script that was refused memory. The
    /// hall is unchanged. If the script's `ending` isn't `Memory`, only the report was refused
    /// memory, and it can be requested again.
    pub fn report(&self, script: usize) -> Option<Report>
        ensures { Reported script self.now result }
    {
        match self.session(script) {
            Some(session) => Some(session.report_or_memory()),
            None => None,
        }
    }

    /// Returns the report of each script, in order, as `report` does. Each session is dropped after
    /// its report. Only a single report can be refused memory.
    pub fn into_reports(self) -> Reports
        ensures { AllReport self result }
    {
        let Hall { sessions, room } = self;
        reports_in(room, sessions)
    }

    /// Returns the ending of a script: `Waiting` if it continues. `None` if there is no such
    /// script. Constant time.
    pub fn ending(&self, script: usize) -> Option<Ending>
        ensures { EndsAt script self.now result }
    {
        let session = self.session(script)?;
        Some(session.ending())
    }

    /// Returns the transcript of a script so far. Empty if there is no such script. It copies
    /// nothing.
    pub fn transcript(&self, script: usize) -> &[u8]
        ensures { HasShownAt script self.now result.now }
    {
        match self.session(script) {
            Some(session) => session.transcript(),
            None => &[],
        }
    }

    /// Returns the number, from 1, of the child whose start a script awaits. `None` if it awaits
    /// none, or there is no such script. Constant time.
    pub fn starting(&self, script: usize) -> Option<u8>
        ensures value { StartsAt script self.now result }
        ensures few { IfSome result (λ c. (1 ≤ c) × (c ≤ 16)) }
    {
        let session = self.session(script)?;
        session.starting()
    }

    /// Returns the number of a child's items that no command has taken: pieces of output, the end
    /// of output, or a read failure. Echoes of sent input are not counted. 0 if there is no such
    /// script or child. Constant time.
    pub fn untaken(&self, script: usize, child: u8) -> usize
        ensures { result ≡ untaken_by (session_at script self.now) child }
    {
        match self.session(script) {
            Some(session) => session.untaken(child),
            None => 0,
        }
    }

    /// Returns the last moment, in milliseconds, up to which all scripts keep waiting if only time
    /// passes. A tick no later than that changes no script. `None` if no script waits for the time.
    pub fn deadline(&self) -> Option<u64>
        ensures value { result ≡ soonest self.now }
        ensures quiet { AllQuietUntil self.now result }
    {
        let mut last = None;
        for i in 0..self.sessions.len() {
            let session = &self.sessions[i];
            last = sooner(last, session.deadline());
        }
        last
    }
}
