//! A script that takes its events one by one.

ghost use Rattle.std.specs.Prelude.{◌≡◌, ◌<◌, ◌≤◌, ◌↔◌, ◌≢◌, ◌++◌, [], ◌∷◌, List, length, drop, IfOk, IfSome, OnOk, MatchOption, IsTrue, IsErrOf, None, Some, Ok, false};
ghost use Rattle.std.specs.Bool.{OnFalse};
ghost use Rattle.child_events.specs.declared.event.Event.{Event};
ghost use Rattle.tcl_eval.specs.Steps.{left_of};
ghost use Rattle.tcl_eval.specs.Suspended.{IsOver};
ghost use Rattle.expect_core.specs.Awaited.{buffer_of};
ghost use Rattle.expect_core.specs.Good.{Good};
ghost use Rattle.expect_core.specs.Lanes.{extended, untaken_of};
ghost use Rattle.session.specs.Awaited.{goes_on, answering, starting, hearing, expecting};
ghost use Rattle.session.specs.Left.{left, Fed, HandsOut, HasShown, HasAsked, HasBegun, HasStarted};
ghost use Rattle.session.specs.Meaning.{meaning, steps_of, tree_of};
ghost use Rattle.session.specs.Quiet.{QuietUntil, waits_until};
ghost use Rattle.session.specs.Shown.{Ran};
ghost use Rattle.session.specs.Spent.{memory_report, Reports};
ghost use Rattle.session.specs.Watching.{met_by_run, met_from, met_over, Sights};

use crate::first::first_variables;
use crate::report::Report;
use crate::show::{ending_of, shown, shown_last};
use crate::watched::Watched;
use crate::watcher::{Nobody, Watcher};
use child_events::Event;
use expect_core::{DialogueHost, Pairs, Plan, Request, Settings};
use std::alloc::{AllocError, Global};
use std::collections::VecDeque;
use std::marker::Model;
use std::mem;
use tcl_eval::{Machine, Meter, Pause};
use tcl_host::Ending;
use tcl_words::Text;

/// Why there is no session.
#[derive(Clone, Copy, Debug, PartialEq, Eq)]
pub enum NewFault {
    /// The source has more bytes than `SOURCE_LIMIT`.
    SourceTooLong,
    /// Memory was refused.
    Memory,
}

/// The most bytes of a source.
pub const SOURCE_LIMIT: usize = 1_048_576;

/// The most steps of a script.
pub const STEPS_LIMIT: u64 = 1_000_000_000_000;

fn bounded(steps: u64) -> u64
    ensures { result ≡ steps_of steps }
{
    if steps < STEPS_LIMIT {
        steps
    } else {
        STEPS_LIMIT
    }
}

fn is_memory(pause: &Pause) -> bool
    ensures { OnFalse result (pause.now ≢ Pause.Memory) }
{
    matches!(pause, Pause::Memory)
}

/// Runs the machine to its next pause. Returns whether no memory was refused.
fn run_on(machine: &mut Machine, dialogue: &mut DialogueHost, meter: &mut Meter) -> bool
    requires { IsTrue dialogue.old.lives → Good dialogue.old }
    ensures { IsTrue result → Ran machine.old.engine machine.old.mode (left_of meter.old) dialogue.old machine.new.engine machine.new.mode (left_of meter.new) dialogue.new }
{
    let pause = machine.run(dialogue, meter);
    if is_memory(&pause) {
        return false;
    }
    dialogue.state().lives()
}

/// Returns the requests from an index on.
fn rest_of(requests: &[Request], from: usize) -> &[Request]
    ensures { result.now ≡ drop from requests.now }
{
    if requests.len() <= from {
        &[]
    } else {
        requests.split_at(from).1
    }
}

/// Appends copies of requests to the queue.
fn lay_ready(
    alloc: Global,
    ready: &mut VecDeque<Request>,
    requests: &[Request],
) -> Result<(), AllocError>
    ensures { OnOk result (ready.new.items ≡ ready.old.items ++ requests.now) }
{
    for request in requests {
        ready.push_back(request.copied(alloc)?)?;
    }
    Ok(())
}

/// Appends the requests after the first `asked` ones to the queue, if `ran`. Returns whether no
/// memory was refused, to the run or here. If some was, the queue is empty.
fn lay_behind(
    alloc: Global,
    ready: &mut VecDeque<Request>,
    dialogue: &DialogueHost,
    asked: usize,
    ran: bool,
) -> bool
    ensures ran { IsTrue result → IsTrue ran }
    ensures ready { IsTrue result → ready.new.items ≡ ready.old.items ++ drop asked dialogue.now.own.requests }
    ensures spent { result ≡ false → ready.new.items ≡ [] }
{
    if ran {
        if let Ok(()) = lay_ready(alloc, ready, rest_of(dialogue.state().requests(), asked)) {
            return true;
        }
    }
    *ready = VecDeque::new(alloc);
    false
}

/// Runs the machine to its next pause, and queues the requests of that run. Returns whether no
/// memory was refused. If some was, the queue is empty.
fn go_on(
    alloc: Global,
    machine: &mut Machine,
    dialogue: &mut DialogueHost,
    meter: &mut Meter,
    ready: &mut VecDeque<Request>,
) -> bool
    requires { IsTrue dialogue.old.lives → Good dialogue.old }
    ensures ran { IsTrue result → Ran machine.old.engine machine.old.mode (left_of meter.old) dialogue.old machine.new.engine machine.new.mode (left_of meter.new) dialogue.new }
    ensures ready { IsTrue result → ready.new.items ≡ ready.old.items ++ drop (length dialogue.old.own.requests) dialogue.new.own.requests }
    ensures spent { result ≡ false → ready.new.items ≡ [] }
{
    let asked = dialogue.state().requests().len();
    let ran = run_on(machine, dialogue, meter);
    lay_behind(alloc, ready, dialogue, asked, ran)
}

/// Runs the machine over a watched dialogue to its next pause. Returns whether no memory was
/// refused.
fn run_over_watched<W: Watcher + Drop>(
    machine: &mut Machine,
    watched: &mut Watched<W>,
    meter: &mut Meter,
) -> bool
    requires { IsTrue watched.old.dialogue.lives → Good watched.old.dialogue }
    ensures ran { IsTrue result → Ran machine.old.engine machine.old.mode (left_of meter.old) watched.old.dialogue machine.new.engine machine.new.mode (left_of meter.new) watched.new.dialogue }
    ensures seen { IsTrue result → Sights W.sees (met_by_run machine.old.engine (left_of meter.old) machine.old.mode watched.old.dialogue) watched.old.watcher (met_by_run machine.new.engine (left_of meter.new) machine.new.mode watched.new.dialogue) watched.new.watcher }
{
    let pause = machine.run(watched, meter);
    if is_memory(&pause) {
        return false;
    }
    watched.dialogue.state().lives()
}

/// Returns an unused dialogue, to put in the place of one that is lent.
fn nothing(alloc: Global) -> Result<DialogueHost, AllocError> {
    let settings = Settings {
        steps: 0,
        limit_ms: None,
        vars: Pairs::new(alloc),
        host: false,
        tells_vars: false,
    };
    DialogueHost::new(alloc, &settings)
}

/// Runs the machine as `run_on` does, and shows the watcher what the expects meet. Returns the
/// watcher too.
fn run_watched<W: Watcher + Drop>(
    alloc: Global,
    machine: &mut Machine,
    dialogue: &mut DialogueHost,
    meter: &mut Meter,
    watcher: W,
) -> (bool, W)
    requires { IsTrue dialogue.old.lives → Good dialogue.old }
    ensures ran { IsTrue result.0 → Ran machine.old.engine machine.old.mode (left_of meter.old) dialogue.old machine.new.engine machine.new.mode (left_of meter.new) dialogue.new }
    ensures seen { IsTrue result.0 → Sights W.sees (met_by_run machine.old.engine (left_of meter.old) machine.old.mode dialogue.old) watcher (met_by_run machine.new.engine (left_of meter.new) machine.new.mode dialogue.new) result.1 }
{
    let Ok(none) = nothing(alloc) else {
        return (false, watcher);
    };
    let mut watched = Watched {
        dialogue: mem::replace(dialogue, none),
        watcher,
    };
    let ran = run_over_watched(machine, &mut watched, meter);
    let Watched {
        dialogue: behind,
        watcher,
    } = watched;
    drop(mem::replace(dialogue, behind));
    (ran, watcher)
}

/// Runs the machine as `go_on` does, and shows the watcher what the expects meet. Returns the
/// watcher too.
fn go_on_watched<W: Watcher + Drop>(
    alloc: Global,
    machine: &mut Machine,
    dialogue: &mut DialogueHost,
    meter: &mut Meter,
    ready: &mut VecDeque<Request>,
    watcher: W,
) -> (bool, W)
    requires { IsTrue dialogue.old.lives → Good dialogue.old }
    ensures ran { IsTrue result.0 → Ran machine.old.engine machine.old.mode (left_of meter.old) dialogue.old machine.new.engine machine.new.mode (left_of meter.new) dialogue.new }
    ensures ready { IsTrue result.0 → ready.new.items ≡ ready.old.items ++ drop (length dialogue.old.own.requests) dialogue.new.own.requests }
    ensures spent { result.0 ≡ false → ready.new.items ≡ [] }
    ensures seen { IsTrue result.0 → Sights W.sees (met_by_run machine.old.engine (left_of meter.old) machine.old.mode dialogue.old) watcher (met_by_run machine.new.engine (left_of meter.new) machine.new.mode dialogue.new) result.1 }
{
    let asked = dialogue.state().requests().len();
    let (ran, watcher) = run_watched(alloc, machine, dialogue, meter, watcher);
    let lives = lay_behind(alloc, ready, dialogue, asked, ran);
    (lives, watcher)
}

/// Offers events to the dialogue, one after another.
fn offer_all(dialogue: &mut DialogueHost, events: Vec<Event>)
    ensures lived { IsTrue dialogue.new.lives → IsTrue dialogue.old.lives }
    ensures came { Good dialogue.old → IsTrue dialogue.new.lives → dialogue.new ≡ extended events.items dialogue.old }
{
    'events: for event in events {
        dialogue.offer(event);
    }
}

/// One script: its machine, its dialogue, and the requests to hand out. It keeps no event that a
/// command has taken. A contract sees what is left of the script.
#[derive(Drop)]
pub struct Session {
    alloc: Global,
    /// The most steps.
    bound: u64,
    /// Whether its report contains the variables.
    tells_vars: bool,
    machine: Machine,
    dialogue: DialogueHost,
    meter: Meter,
    /// Copies of the requests not yet handed out.
    ready: VecDeque<Request>,
    /// The number of requests handed out.
    handed: usize,
    /// Whether it was never refused memory.
    lives: bool,
}

impl Model for Session {
    ghost use Rattle.session.specs.Left.{Kept};
    ghost use Rattle.session.specs.Sound.{Sound, kept_of};
    ghost use Rattle.std.specs.Coded.{codes};
    ghost use Rattle.tcl_eval.specs.contracts.engine.Engine as e;
    ghost use Rattle.tcl_eval.specs.contracts.frame.Mode as m;
    ghost use Rattle.expect_core.specs.contracts.dialogue.Dialogue as d;

    ghost Value = { Kept };

    ghost coded = { Prim.hlevel (codes, e.the_row.coded, m.the_row.coded, d.the_row.coded) };

    ghost view = { kept_of };

    ghost invariant = { Sound };
}

impl Session {
    fn open<W: Watcher + Drop>(
        alloc: Global,
        source: &[u8],
        settings: &Settings,
        watcher: W,
    ) -> Result<(Session, W), AllocError>
        ensures left { IfOk result (λ r. IsTrue r.0.lives → (later : List Event) → left r.0 later ≡ meaning source.now settings.now later) }
        ensures handed { IfOk result (λ r. r.0.handed ≡ 0) }
        ensures seen { IfOk result (λ r. IsTrue r.0.lives → Sights W.sees (met_over source.now settings.now) watcher (met_from r.0) r.1) }
    {
        let vars = first_variables(alloc, settings.host, settings.vars.as_slice())?;
        let mut machine = Machine::new(alloc, source, vars)?;
        let mut dialogue = DialogueHost::new(alloc, settings)?;
        let bound = bounded(settings.steps);
        let mut meter = Meter::new(bound);
        let mut ready = VecDeque::new(alloc);
        let (lives, watcher) = go_on_watched(
            alloc,
            &mut machine,
            &mut dialogue,
            &mut meter,
            &mut ready,
            watcher,
        );
        let session = Session {
            alloc,
            bound,
            tells_vars: settings.tells_vars,
            machine,
            dialogue,
            meter,
            ready,
            handed: 0,
            lives,
        };
        Ok((session, watcher))
    }

    /// Creates a session and runs it to its first wait. Shows the watcher what its expects meet,
    /// and returns the watcher too.
    ///
    /// A refusal of memory during the run is no error here: the session's `ending` is then
    /// `Memory`.
    pub fn watched<W: Watcher + Drop>(
        alloc: Global,
        source: Text,
        settings: Settings,
        watcher: W,
    ) -> Result<(Session, W), NewFault>
        ensures left { IfOk result (λ r. IsTrue r.0.lives → (later : List Event) → left r.0 later ≡ meaning source settings later) }
        ensures handed { IfOk result (λ r. r.0.handed ≡ 0) }
        ensures seen { IfOk result (λ r. IsTrue r.0.lives → Sights W.sees (met_over source settings) watcher (met_from r.0) r.1) }
        ensures too_long { IsErrOf result NewFault.SourceTooLong ↔ (SOURCE_LIMIT < length source) }
    {
        if source.len() > SOURCE_LIMIT {
            return Err(NewFault::SourceTooLong);
        }
        match Session::open(alloc, source.as_slice(), &settings, watcher) {
            Ok(opened) => Ok(opened),
            Err(_) => Err(NewFault::Memory),
        }
    }

    /// Creates a session and runs it to its first wait, as `watched` does without a watcher.
    pub fn new(alloc: Global, source: Text, settings: Settings) -> Result<Session, NewFault>
        ensures left { IfOk result (λ s. IsTrue s.lives → (later : List Event) → left s later ≡ meaning source settings later) }
        ensures handed { IfOk result (λ s. s.handed ≡ 0) }
        ensures too_long { IsErrOf result NewFault.SourceTooLong ↔ (SOURCE_LIMIT < length source) }
    {
        let (session, _nobody) = Session::watched(alloc, source, settings, Nobody {})?;
        Ok(session)
    }

    /// Passes an event to the script, and runs it to its next wait. Does nothing if it has ended.
    pub fn feed(&mut self, event: Event)
        ensures { Fed self.old (event ∷ []) self.new }
    {
        if !self.lives {
            return;
        }
        if self.machine.is_over() {
            return;
        }
        self.dialogue.offer(event);
        self.lives = go_on(
            self.alloc,
            &mut self.machine,
            &mut self.dialogue,
            &mut self.meter,
            &mut self.ready,
        );
    }

    /// Passes an event to the script, as `feed` does. Shows the watcher what its expects meet, and
    /// returns the watcher.
    pub fn feed_watched<W: Watcher + Drop>(&mut self, came: Event, watcher: W) -> W
        ensures fed { Fed self.old (came ∷ []) self.new }
        ensures seen { IsTrue self.new.lives → Sights W.sees (λ later. met_from self.old (came ∷ later)) watcher (met_from self.new) result }
    {
        if !self.lives {
            return watcher;
        }
        if self.machine.is_over() {
            return watcher;
        }
        self.dialogue.offer(came);
        let (lives, watcher) = go_on_watched(
            self.alloc,
            &mut self.machine,
            &mut self.dialogue,
            &mut self.meter,
            &mut self.ready,
            watcher,
        );
        self.lives = lives;
        watcher
    }

    /// Passes events to the script, and then runs it to its next wait. Its new requests can be
    /// taken once all events are in. Does nothing if it has ended.
    pub fn feed_all(&mut self, events: Vec<Event>)
        ensures { Fed self.old events.items self.new }
    {
        if !self.lives {
            return;
        }
        if self.machine.is_over() {
            return;
        }
        offer_all(&mut self.dialogue, events);
        self.lives = go_on(
            self.alloc,
            &mut self.machine,
            &mut self.dialogue,
            &mut self.meter,
            &mut self.ready,
        );
    }

    /// Takes the next request. Each request is returned once. `None` if there is none yet.
    pub fn next_request(&mut self) -> Option<Request>
        ensures { HandsOut self.old result self.new }
    {
        if self.handed >= self.dialogue.state().requests().len() {
            return None;
        }
        match self.ready.pop_front() {
            Some(request) => {
                self.handed += 1;
                Some(request)
            }
            None => None,
        }
    }

    /// Returns the ending, or `Waiting`.
    #[tactic(auto, unfolding(crate::specs::Left::left))]
    pub fn ending(&self) -> Ending
        ensures lives { IsTrue self.now.lives → result ≡ (left self.now []).ending }
        ensures spent { self.now.lives ≡ false → result ≡ Ending.Memory }
    {
        if !self.lives {
            return Ending::Memory;
        }
        match self.machine.end() {
            Some(end) => ending_of(end),
            None => Ending::Waiting,
        }
    }

    /// Returns the transcript so far, without a copy. Empty if the session was refused memory.
    pub fn transcript(&self) -> &[u8]
        ensures { HasShown self.now result.now }
    {
        if self.lives {
            self.dialogue.state().transcript()
        } else {
            &[]
        }
    }

    /// Returns the last moment, in milliseconds, up to which the script keeps waiting if only time
    /// passes. That is the earlier of the waiting expect's deadline and the script's time limit.
    /// `None` if there is neither, or the script has ended. A tick no later than that doesn't
    /// change the report.
    #[tactic(auto, unfolding(crate::specs::Left::left))]
    pub fn deadline(&self) -> Option<u64>
        ensures value { result ≡ waits_until self.now }
        ensures quiet { IsTrue self.now.lives → QuietUntil self.now result }
    {
        if !self.lives {
            return None;
        }
        match self.machine.end() {
            Some(_) => None,
            None => self.dialogue.state().deadline(),
        }
    }

    /// Returns the requests so far, in order, without a copy. Empty if the session was refused
    /// memory.
    pub fn requests(&self) -> &[Request]
        ensures { HasAsked self.now result.now }
    {
        if self.lives {
            self.dialogue.state().requests()
        } else {
            &[]
        }
    }

    /// Returns the number of steps begun. 0 if the session was refused memory.
    pub fn steps(&self) -> u64
        ensures { HasBegun self.now result }
    {
        if self.lives {
            self.bound.saturating_sub(self.meter.left())
        } else {
            0
        }
    }

    /// Returns whether the script goes on: it has not ended, and was not refused memory.
    fn goes_on(&self) -> bool
        ensures { result ≡ goes_on self.now }
    {
        match self.machine.end() {
            Some(_) => false,
            None => self.lives,
        }
    }

    /// Returns the number, from 1, of the child whose answer the script awaits. `None` if it awaits
    /// none, or doesn't go on.
    pub fn answering(&self) -> Option<u8>
        ensures { result ≡ answering self.now }
    {
        if self.goes_on() {
            self.dialogue.state().answering()
        } else {
            None
        }
    }

    /// Returns the number, from 1, of the child whose start the script awaits. `None` if it awaits
    /// none, or was refused memory.
    pub fn starting(&self) -> Option<u8>
        ensures value { result ≡ starting self.now }
        ensures says { HasStarted self.now result }
        ensures few { IfSome result (λ c. (1 ≤ c) × (c ≤ 16)) }
    {
        if self.lives {
            self.dialogue.state().starting()
        } else {
            None
        }
    }

    /// Returns the number, from 1, of the child whose output is awaited by the command that runs it.
    /// `None` if the script awaits none, or doesn't go on.
    pub fn hearing(&self) -> Option<u8>
        ensures { result ≡ hearing self.now }
    {
        if self.goes_on() {
            self.dialogue.state().hearing()
        } else {
            None
        }
    }

    /// Returns the expect that waits for an item of one of its children. `None` if none waits, or
    /// the script doesn't go on.
    pub fn expecting(&self) -> Option<&Plan>
        ensures { MatchOption result (expecting self.now ≡ None) (λ p. expecting self.now ≡ Some p.now) }
    {
        if self.goes_on() {
            self.dialogue.state().expecting()
        } else {
            None
        }
    }

    /// Returns a copy of a child's bytes that no expect has taken. Patterns are tried on these.
    /// Empty if there is no such child.
    pub fn buffer_copied(&self, alloc: Global, child: u8) -> Result<Text, AllocError>
        ensures { IfOk result (λ t. t ≡ buffer_of child self.now.dialogue.own.children) }
    {
        self.dialogue.state().buffer_copied(alloc, child)
    }

    /// Returns the number of a child's items that no command has taken: pieces of output, the end
    /// of output, or a read failure. Echoes of sent input are not counted. 0 if there is no such
    /// child. Constant time.
    pub fn untaken(&self, child: u8) -> usize
        ensures { result ≡ untaken_of child self.now.dialogue.lanes }
    {
        self.dialogue.state().untaken(child)
    }

    /// Returns the report so far. On `AllocError` the session is unchanged. It allocates nothing if
    /// the session was refused memory.
    #[tactic(auto, unfolding(crate::specs::Left::left))]
    pub fn report(&self) -> Result<Report, AllocError>
        ensures lives { IfOk result (λ r. IsTrue self.now.lives → r ≡ left self.now []) }
        ensures spent { self.now.lives ≡ false → result ≡ Ok memory_report }
    {
        if !self.lives {
            return Ok(Report::of_memory(self.alloc));
        }
        shown(
            self.alloc,
            self.bound,
            self.tells_vars,
            &self.machine,
            self.meter.left(),
            &self.dialogue,
        )
    }

    /// Returns the report so far. If the report is refused memory, it is the report of a script
    /// that was refused memory.
    pub fn report_or_memory(&self) -> Report
        ensures { Reports self.now result }
    {
        match self.report() {
            Ok(report) => report,
            Err(_) => Report::of_memory(self.alloc),
        }
    }

    /// Returns the last report, as `report_or_memory` does. The session is dropped; its transcript
    /// and its requests are not copied.
    #[tactic(auto, unfolding(crate::specs::Left::left))]
    pub fn into_report(self) -> Report
        ensures { Reports self result }
    {
        let Session {
            alloc,
            bound,
            tells_vars,
            machine,
            mut dialogue,
            meter,
            lives,
            ..
        } = self;
        if !lives {
            return Report::of_memory(alloc);
        }
        match shown_last(
            alloc,
            bound,
            tells_vars,
            &machine,
            meter.left(),
            &mut dialogue,
        ) {
            Ok(report) => report,
            Err(_) => Report::of_memory(alloc),
        }
    }
}
