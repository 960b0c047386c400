//! Runs a script over a timeline, answers each request at once, and tells of each awaited start.

ghost use Rattle.std.specs.Prelude.{◌≡◌, ◌++◌, ◌∷◌, List, [], length, max, false, IfOk, IfErr, OnOk, None};
ghost use Rattle.dialogue_sched.specs.declared.script.Script.{Script};
ghost use Rattle.dialogue_sched.specs.Hall.{AllBegin};
ghost use Rattle.dialogue_sched.specs.Refusal.{refusal_of};
ghost use Rattle.dialogue_sched.specs.Took.{AllTook};
ghost use Rattle.child_timeline.specs.Told.{IsTold, AreTold};
ghost use Rattle.log_plan.specs.Given.{given};
ghost use Rattle.child_events.specs.declared.event.HallEvent.{HallEvent as HallEventOf};
ghost use Rattle.child_timeline.specs.declared.exits.Exit.{Exit};
ghost use Rattle.log_plan.specs.Standing.{Stands, IsAnswered, IsWhole, Begins, moment_in, answer_at, start_at, AnswersNext, SeesNext, AnswersFrom, TellsAll};
ghost use Rattle.log_plan.specs.Plan.{is_too_long};

use crate::fault::PlanFault;
use child_events::{Answer, HallEvent, HallEvents, What};
use child_timeline::Exits;
use dialogue_sched::{Hall, HallFault, Script};
use session::{Act, Ending, Request, SOURCE_LIMIT};
use std::alloc::{AllocError, Global};
use tcl_words::Text;

/// The most answers and starts at one place of a timeline.
pub const MOST_ANSWERS: usize = 100_000;

/// A script, and the events that it has taken.
#[derive(Drop)]
pub struct Planner {
    /// A hall with only this script.
    pub hall: Hall,
    /// All events so far.
    pub events: HallEvents,
    /// The greatest moment so far, in milliseconds.
    pub moment: u64,
}

/// Creates a hall with one script. Requires a source that isn't too long.
fn hall_of(alloc: Global, script: Script) -> Result<Hall, AllocError>
    requires { is_too_long script ≡ false }
    ensures { IfOk result (λ ks. AllBegin (script ∷ []) ks) }
{
    let mut scripts = Vec::with_capacity(alloc, 1)?;
    scripts.push(script)?;
    match Hall::new(alloc, scripts) {
        Ok(hall) => Ok(hall),
        Err(HallFault::Memory) => Err(AllocError),
        Err(HallFault::SourceTooLong(_)) => unreachable!(),
        Err(HallFault::TooManyScripts) => unreachable!(),
    }
}

/// Returns the answer to a request: `ok`, or for a wait the end of the child.
fn answer_to(exits: &Exits, request: &Request) -> Answer
    ensures { result ≡ given exits.now request.now.child request.now.act }
{
    match &request.act {
        Act::Wait => exits.of(request.child),
        Act::Spawn(_) => Answer::Ok,
        Act::Write(_) => Answer::Ok,
        Act::End => Answer::Ok,
        Act::Close => Answer::Ok,
    }
}

/// Returns the moment of an event, in milliseconds.
fn moment_of(event: &HallEvent) -> u64
    ensures { result ≡ moment_in event.now }
{
    match event {
        HallEvent::Child { moment, .. } => *moment,
        HallEvent::Tick { moment } => *moment,
    }
}

impl Planner {
    /// Creates a planner. No event has reached its script.
    pub fn new(alloc: Global, script: Script) -> Result<Planner, PlanFault>
        ensures { Begins script result }
    {
        if script.source.len() > SOURCE_LIMIT {
            return Err(PlanFault::SourceTooLong);
        }
        let hall = hall_of(alloc, script)?;
        Ok(Planner {
            hall,
            events: HallEvents::new(alloc),
            moment: 0,
        })
    }

    /// Passes an event to the script and appends it to the events. Requires an event that the
    /// script doesn't refuse.
    fn take(&mut self, alloc: Global, event: HallEvent) -> Result<(), AllocError>
        requires { refusal_of (length self.old.hall) event ≡ None }
        ensures took { OnOk result (AllTook 1 (event ∷ []) self.old.hall self.new.hall) }
        ensures events { OnOk result (self.new.events ≡ self.old.events ++ event ∷ []) }
        ensures moment { OnOk result (self.new.moment ≡ max self.old.moment (moment_in event)) }
    {
        let moment = moment_of(&event);
        let copy = event.copied(alloc)?;
        let Ok(()) = self.hall.step(copy) else {
            unreachable!()
        };
        self.events.push(event)?;
        self.moment = self.moment.max(moment);
        Ok(())
    }

    /// Returns the event that answers a request now.
    fn answer(&self, exits: &Exits, request: &Request) -> HallEvent
        ensures { result ≡ answer_at exits.now self.now.moment request.now }
    {
        HallEvent::Child {
            script: 1,
            child: u16::from(request.child),
            moment: self.moment,
            what: What::Answer(answer_to(exits, request)),
        }
    }

    /// Returns the first output of a child now.
    fn start(&self, alloc: Global, child: u8) -> Result<HallEvent, AllocError>
        ensures { IfOk result (λ e. e ≡ start_at self.now.moment child) }
    {
        Ok(HallEvent::Child {
            script: 1,
            child: u16::from(child),
            moment: self.moment,
            what: What::Out(Text::from_slice(alloc, b"\n")?),
        })
    }

    /// Answers the open request, or else tells of the start that the script awaits. Returns whether
    /// there was one of them.
    fn answer_next(&mut self, alloc: Global, exits: &Exits) -> Result<bool, AllocError>
        requires { (s : Script) × (told : List HallEventOf) × Stands s exits.now told self.old }
        ensures { (s : Script) (told : List HallEventOf) → Stands s exits.now told self.old → IfOk result (λ more. AnswersNext s exits.now told more self.old self.new) }
    {
        if let Some(request) = self.hall.request(1) {
            let event = self.answer(exits, &request);
            self.take(alloc, event)?;
            return Ok(true);
        }
        let Some(child) = self.hall.starting(1) else {
            return Ok(false);
        };
        let event = self.start(alloc, child)?;
        self.take(alloc, event)?;
        Ok(true)
    }

    /// Returns whether a request is open or a start awaited.
    fn is_asked(&mut self) -> bool
        ensures sees { (s : Script) (exits : List Exit) (told : List HallEventOf) → Stands s exits told self.old → SeesNext s exits told result self.old self.new }
        ensures moment { self.new.moment ≡ self.old.moment }
    {
        if let Some(_) = self.hall.request(1) {
            return true;
        }
        match self.hall.starting(1) {
            Some(_) => true,
            None => false,
        }
    }

    /// Answers requests and tells of starts until none is left, or until `MOST_ANSWERS` events were
    /// inserted.
    pub fn answer_all(&mut self, alloc: Global, exits: &Exits) -> Result<(), PlanFault>
        requires { (s : Script) × (told : List HallEventOf) × Stands s exits.now told self.old }
        ensures { (s : Script) (told : List HallEventOf) → Stands s exits.now told self.old → AnswersFrom s exits.now told self.old.events self.new result }
    {
        for _ in 0..MOST_ANSWERS {
            if !self.answer_next(alloc, exits)? {
                return Ok(());
            }
        }
        if self.is_asked() {
            Err(PlanFault::Unending(self.moment))
        } else {
            Ok(())
        }
    }

    /// Passes an event of a timeline to the script, answers its requests and tells of starts.
    fn tell(&mut self, alloc: Global, exits: &Exits, event: HallEvent) -> Result<(), PlanFault>
        requires stands { (s : Script) × (told : List HallEventOf) × Stands s exits.now told self.old × IsAnswered s exits.now self.old }
        requires told { IsTold event }
        ensures { (s : Script) (told : List HallEventOf) → Stands s exits.now told self.old → IsAnswered s exits.now self.old → AnswersFrom s exits.now (told ++ event ∷ []) (self.old.events ++ event ∷ []) self.new result }
    {
        self.take(alloc, event)?;
        self.answer_all(alloc, exits)
    }

    /// Passes the events of a timeline to the script, answers its requests and tells of starts.
    pub fn tell_all(
        &mut self,
        alloc: Global,
        exits: &Exits,
        events: Vec<HallEvent>,
    ) -> Result<(), PlanFault>
        requires stands { (s : Script) × (told : List HallEventOf) × Stands s exits.now told self.old × IsAnswered s exits.now self.old }
        requires told { AreTold events.items }
        ensures { (s : Script) (told : List HallEventOf) → Stands s exits.now told self.old → IsAnswered s exits.now self.old → TellsAll s exits.now (told ++ events.items) self.new result }
    {
        for event in events {
            self.tell(alloc, exits, event)?;
        }
        Ok(())
    }

    /// Returns all events. `Memory` if the script was refused memory.
    pub fn into_events(self) -> Result<HallEvents, PlanFault>
        ensures events { IfOk result (λ es. es ≡ self.events) }
        ensures whole { OnOk result (IsWhole self) }
        ensures memory { IfErr result (λ f. f ≡ PlanFault.Memory) }
    {
        let ending = self.hall.ending(1);
        let Planner {
            hall: _,
            events,
            moment: _,
        } = self;
        match ending {
            Some(Ending::Memory) => Err(PlanFault::Memory),
            _ => Ok(events),
        }
    }
}
