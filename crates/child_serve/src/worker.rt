//! A worker: serves its scripts at one desk, to their end.

ghost use Rattle.std.specs.Prelude.{◌≡◌, ◌<◌, ◌≤◌, ◌+◌, [], length, IsTrue, Contains, IfOk, IfSome, OnOk, None, true};
ghost use Rattle.dialogue_sched.specs.Hall.{AllBegin, opening_fault};
ghost use Rattle.feed_rings.specs.Ends.{SameIn};
ghost use Rattle.child_desk.specs.Book.{logged};
ghost use Rattle.child_desk.specs.Line.{Leaves, HearsNoHand, IsEndOf, AllShown};
ghost use Rattle.child_desk.specs.Heard.{HearsAll, Settles};
ghost use Rattle.run_records.specs.Joined.{script_of};
ghost use Rattle.child_serve.specs.Opened.{AreNumbers, AreOpened, AreLinked, IsLeftIn, AreLeftIn, IsFinishOf, IsTakenIn, AreTakenIn, IsClosedIn, AreClosedIn, SameElsewhere, AreSettled, KeepsListed, AreListed, AllListed};
ghost use Rattle.child_serve.specs.Teams.{IsSeated, IsWork, AreFirst};

use crate::audience::Audience;
use crate::hands::{Hand, start};
use crate::rounds::{end_record, turn_all};
use crate::served::{Served, Unsettled, WorkerResult};
use crate::stopping::Stopping;
use child_desk::{Book, Desk, Ends, Outcome, ScriptState, stop_all};
use child_hands::{Clock, Fresh, Gate, HandEnd, Keeper, LogItem, RingItem, Work};
use dialogue_sched::{Hall, HallFault, Script};
use feed_rings::{Bell, FeedIn, Finished, Ringer};
use run_records::WorkerIndex;
use std::alloc::{AllocError, AllocFailed, Global};
use std::sync::atomic::{AtomicU64, Ordering};
use std::sync::{Arc, Wait};
use std::thread::Threads;

/// A worker's scripts with their keepers, and its clock, which is also its audience.
#[derive(Drop)]
pub struct Team<K: Drop, C: Drop> {
    /// The keepers.
    pub keepers: Vec<K>,
    /// The scripts.
    pub scripts: Vec<Script>,
    /// The clock and audience.
    pub clock: C,
}

/// A worker's team and bell, the ring of its record, and the sign that it has ended.
#[derive(Drop)]
pub struct Seat<K: Drop, C: Drop> {
    /// The scripts, keepers and clock.
    pub team: Team<K, C>,
    /// The bell on which the worker rests.
    pub bell: Bell,
    /// The ring of its record.
    pub log: FeedIn<LogItem>,
    /// Says that the worker has ended.
    pub over: Over,
}

/// Counts its worker as ended when dropped, and rings the bell of the thread that takes the record.
pub struct Over {
    /// The number of workers that have ended.
    pub ended: Arc<AtomicU64>,
    /// Rings when dropped.
    pub ringer: Ringer,
}

impl Drop for Over {
    fn drop(self) {
        let Over {
            ended,
            ringer: _ringer,
        } = self;
        ended.fetch_add(1, Ordering::SeqCst);
    }
}

/// Why a worker couldn't serve its scripts.
#[derive(Clone, Copy, PartialEq, Eq)]
pub enum WorkFault {
    /// Memory was refused.
    Memory,
    /// A thread couldn't be started.
    NoThread,
}

impl From<AllocError> for WorkFault {
    ghost use Rattle.std.specs.Prelude.{◌≡◌};
    ghost use Rattle.child_serve.specs.declared.worker.WorkFault.TheVariants.{Memory};

    ghost from_gives = { λ _ e. e ≡ Memory };

    fn from(_e: AllocError) -> WorkFault {
        WorkFault::Memory
    }
}

impl<T: Drop> From<AllocFailed<T>> for WorkFault {
    ghost use Rattle.std.specs.Prelude.{◌≡◌};
    ghost use Rattle.child_serve.specs.declared.worker.WorkFault.TheVariants.{Memory};

    ghost from_gives = { λ _ e. e ≡ Memory };

    fn from(_e: AllocFailed<T>) -> WorkFault {
        WorkFault::Memory
    }
}

/// The hands of a worker's scripts, and the desk's endpoints of their rings.
#[derive(Drop)]
struct Opened<K: Keeper> {
    ends: Vec<Ends<K>>,
    hands: Vec<Hand<K>>,
}

/// Creates a line for each keeper.
fn lines_of<K: Keeper>(alloc: Global, keepers: &[K]) -> Result<Vec<ScriptState>, AllocError>
    ensures { IfOk result (λ ls. AreFirst K.named K.made keepers.now ls.items) }
{
    let mut lines = Vec::new(alloc);
    for keeper in keepers {
        lines.push(ScriptState::new(keeper.name(), keeper.calls()))?;
    }
    Ok(lines)
}

/// Returns the number, among all scripts, of a worker's script. `at` is its index at the worker.
fn number_of(place: WorkerIndex, at: usize) -> u8
    requires few { at < 64 }
    requires number { script_of place.workers place.worker (at + 1) ≤ 64 }
    ensures { result ≡ script_of place.workers place.worker (at + 1) }
{
    at as u8 * place.workers + place.worker + 1
}

/// Starts a hand for each keeper. On an error, `opened` contains those before it.
fn open_all<
    K: Keeper + Send + Drop + 'static,
    G: Gate + Sync + Send + Drop + 'static,
    W: Threads + Wait + Copy + Send + Drop + 'static,
>(
    rt: W,
    alloc: Global,
    place: WorkerIndex,
    keepers: Vec<K>,
    gate: &Arc<G>,
    bell: &Bell,
    opened: &mut Opened<K>,
) -> Result<(), WorkFault>
    requires none { (opened.old.ends.items ≡ []) × (opened.old.hands.items ≡ []) }
    requires few { length keepers.items ≤ 64 }
    requires numbers { AreNumbers place.workers place.worker (length keepers.items) }
    ensures count { length opened.new.hands.items ≤ length keepers.items }
    ensures opened { OnOk result (AreOpened place.workers place.worker keepers.items opened.new.ends.items opened.new.hands.items) }
{
    let mut index = 0;
    for keeper in keepers {
        opened.ends.reserve(1)?;
        opened.hands.reserve(1)?;
        let gate = Arc::try_clone(gate)?;
        let number = number_of(place, index);
        let (ends, hand) = start(rt, alloc, number, keeper, gate, bell)?;
        opened.ends.push_reserved(ends);
        opened.hands.push_reserved(hand);
        index += 1;
    }
    Ok(())
}

/// Opens a hall. Requires scripts that can be opened.
fn hall_of(alloc: Global, scripts: Vec<Script>) -> Result<Hall, WorkFault>
    requires { opening_fault scripts.items ≡ None }
    ensures { IfOk result (λ ks. AllBegin scripts.items ks) }
{
    match Hall::new(alloc, scripts) {
        Ok(hall) => Ok(hall),
        Err(HallFault::Memory) => Err(WorkFault::Memory),
        Err(HallFault::TooManyScripts) => unreachable!(),
        Err(HallFault::SourceTooLong(_)) => unreachable!(),
    }
}

/// Ends the hands of a worker that can't go on: stops each one and waits for it.
fn let_go<K: Keeper, W: Threads>(rt: &W, ends: Vec<Ends<K>>, hands: Vec<Hand<K>>) {
    let mut ends = ends;
    stop_all(&mut ends);
    drop(ends);
    for hand in hands {
        drop(hand.join(rt));
    }
}

/// Waits for each hand, and lists all children of its script as unsettled.
fn list_all<K: Keeper, W: Threads>(
    rt: &W,
    alloc: Global,
    place: WorkerIndex,
    hands: Vec<Hand<K>>,
) -> Result<Settled, AllocError>
    requires few { length hands.items ≤ 64 }
    requires numbers { AreNumbers place.workers place.worker (length hands.items) }
    ensures { IfOk result (λ s. AllListed place.workers place.worker (length hands.items) s.unsettled.items) }
{
    let mut settled = Settled {
        unsettled: Vec::new(alloc),
        forced: 0,
    };
    let mut at = 0;
    for hand in hands {
        let end = hand.join(rt);
        settled.forced = settled.forced.saturating_add(end.forced);
        list_children(number_of(place, at), &mut settled)?;
        at += 1;
    }
    Ok(settled)
}

/// Lists the 16 children of a script as unsettled.
fn list_children(script: u8, settled: &mut Settled) -> Result<(), AllocError>
    ensures kept { KeepsListed settled.old.unsettled.items settled.new.unsettled.items }
    ensures listed { OnOk result (AreListed script settled.new.unsettled.items) }
{
    for index in 0..16 {
        list_child(script, index, settled)?;
    }
    Ok(())
}

/// Ends a worker that gives up: stops each hand and waits for it. Further output of children is
/// dropped, so that no hand waits for room.
fn give_up<K: Keeper, W: Threads>(
    rt: &W,
    alloc: Global,
    place: WorkerIndex,
    desk: Desk<K>,
    hands: Vec<Hand<K>>,
) -> Result<WorkerResult, AllocError>
    requires few { length hands.items ≤ 64 }
    requires numbers { AreNumbers place.workers place.worker (length hands.items) }
    ensures shown { IfOk result (λ p. AllShown desk.book p.served.reports) }
    ensures log { IfOk result (λ p. p.log ≡ desk.book.log) }
    ensures listed { IfOk result (λ p. AllListed place.workers place.worker (length hands.items) p.served.unsettled.items) }
    ensures stopped { IfOk result (λ p. p.served.stopped ≡ true) }
{
    let mut desk = desk;
    desk.stop_all();
    desk.ends = Vec::new(alloc);
    let settled = list_all(rt, alloc, place, hands)?;
    Ok(part_of(desk.into_outcome(), settled, true))
}

/// Returns the result of a worker's scripts and their children.
fn part_of(outcome: Outcome, settled: Settled, stopped: bool) -> WorkerResult
    ensures { result ≡ record { served = record { reports = outcome.reports; unsettled = settled.unsettled; forced = settled.forced; stopped = stopped }; log = outcome.log } }
{
    let Outcome { reports, log } = outcome;
    let Settled { unsettled, forced } = settled;
    WorkerResult {
        served: Served {
            reports,
            unsettled,
            forced,
            stopped,
        },
        log,
    }
}

/// What is known of the children after all hands have ended.
#[derive(Drop)]
struct Settled {
    unsettled: Vec<Unsettled>,
    forced: u64,
}

/// Returns the finished ring of a child that wasn't started, or whose reader has ended. `None` if
/// there is none.
fn finished_of<K: Keeper>(work: Work<K>) -> Option<Finished<RingItem<K>>>
    ensures { IfSome result (IsFinishOf work) }
{
    match work {
        Work::Free(Fresh { feed, .. }) => feed.finish(),
        Work::Ended(finished) => finished,
    }
}

/// Looks once more at the finished ring of a script's hand. Returns false if there is none.
fn close<K: Keeper>(desk: &mut Desk<K>, at: usize, answers: Option<Finished<RingItem<K>>>) -> bool
    requires { IfSome answers (λ f. IsEndOf at f desk.old.ends.items) }
    ensures lines { desk.new.lines.items ≡ desk.old.lines.items }
    ensures book { desk.new.book ≡ desk.old.book }
    ensures heard { HearsAll desk.old.ends.items (logged desk.old.book) desk.new.ends.items (logged desk.new.book) }
    ensures hands { HearsNoHand desk.old.ends.items desk.new.ends.items }
    ensures others { SameElsewhere at desk.old.ends.items desk.new.ends.items }
    ensures closed { IsTrue result → IsClosedIn at answers desk.new.ends.items }
{
    let Some(finished) = answers else {
        return false;
    };
    desk.close(at, finished);
    true
}

/// Takes what is left of a child's output. Lists the child as unsettled if its ring or its hand's
/// is missing, or nobody takes the record any more.
fn settle_child<K: Keeper, W: Wait>(
    rt: &W,
    bell: &Bell,
    desk: &mut Desk<K>,
    at: usize,
    script: u8,
    index: u8,
    closed: bool,
    work: Work<K>,
    settled: &mut Settled,
) -> Result<(), AllocError>
    requires place { (at < length desk.old.book.hall) × (at < 64) × (index < 16) }
    requires left { IsLeftIn at index work desk.old.ends.items }
    ensures lines { desk.new.lines.items ≡ desk.old.lines.items }
    ensures book { Leaves desk.old.book desk.new.book }
    ensures heard { Settles at index desk.old.ends.items (logged desk.old.book) desk.new.ends.items (logged desk.new.book) }
    ensures hands { HearsNoHand desk.old.ends.items desk.new.ends.items }
    ensures listed { KeepsListed settled.old.unsettled.items settled.new.unsettled.items }
    ensures taken { OnOk result (IsTakenIn at script index work desk.new.ends.items settled.new.unsettled.items) }
    ensures closed { OnOk result ((Contains settled.new.unsettled.items (record { script = script; child = index + 1 }) → ⊥) → IsTrue closed) }
{
    if !closed {
        return list_child(script, index, settled);
    }
    let Some(finished) = finished_of(work) else {
        return list_child(script, index, settled);
    };
    if desk.settle(rt, bell, at, index, finished)? {
        return Ok(());
    }
    list_child(script, index, settled)
}

/// Lists a child as unsettled. Its number is one more than `index`.
fn list_child(script: u8, index: u8, settled: &mut Settled) -> Result<(), AllocError>
    requires { index < 16 }
    ensures kept { KeepsListed settled.old.unsettled.items settled.new.unsettled.items }
    ensures listed { OnOk result (Contains settled.new.unsettled.items (record { script = script; child = index + 1 })) }
{
    let child = index + 1;
    settled.unsettled.push(Unsettled { script, child })?;
    Ok(())
}

/// Takes what is left of the output of a script's children. Its hand has ended.
fn settle_script<K: Keeper, W: Wait>(
    rt: &W,
    bell: &Bell,
    desk: &mut Desk<K>,
    at: usize,
    script: u8,
    end: HandEnd<K>,
    settled: &mut Settled,
) -> Result<(), AllocError>
    requires place { (at < length desk.old.book.hall) × (at < 64) × (length end.works.items ≤ 16) }
    requires left { AreLeftIn at end.works.items desk.old.ends.items }
    requires answers { IfSome end.answers (λ f. IsEndOf at f desk.old.ends.items) }
    ensures lines { desk.new.lines.items ≡ desk.old.lines.items }
    ensures book { Leaves desk.old.book desk.new.book }
    ensures heard { HearsAll desk.old.ends.items (logged desk.old.book) desk.new.ends.items (logged desk.new.book) }
    ensures hands { HearsNoHand desk.old.ends.items desk.new.ends.items }
    ensures others { SameElsewhere at desk.old.ends.items desk.new.ends.items }
    ensures listed { KeepsListed settled.old.unsettled.items settled.new.unsettled.items }
    ensures taken { OnOk result (AreTakenIn at script end.works.items desk.new.ends.items settled.new.unsettled.items) }
    ensures closed { OnOk result (AreClosedIn at script end.answers (length end.works.items) desk.new.ends.items settled.new.unsettled.items) }
{
    settled.forced = settled.forced.saturating_add(end.forced);
    let closed = close(desk, at, end.answers);
    let mut index: u8 = 0;
    for work in end.works {
        settle_child(rt, bell, desk, at, script, index, closed, work, settled)?;
        index += 1;
    }
    Ok(())
}

/// Waits for each hand, and takes what is left of its children's output. Then records that nothing
/// more comes.
fn settle_all<K: Keeper, W: Threads + Wait>(
    rt: &W,
    alloc: Global,
    place: WorkerIndex,
    bell: &Bell,
    desk: &mut Desk<K>,
    hands: Vec<Hand<K>>,
) -> Result<Settled, AllocError>
    requires few { (length hands.items ≤ length desk.old.book.hall) × (length hands.items ≤ 64) }
    requires numbers { AreNumbers place.workers place.worker (length hands.items) }
    requires linked { AreLinked hands.items desk.old.ends.items }
    ensures lines { desk.new.lines.items ≡ desk.old.lines.items }
    ensures book { Leaves desk.old.book desk.new.book }
    ensures heard { HearsAll desk.old.ends.items (logged desk.old.book) desk.new.ends.items (logged desk.new.book) }
    ensures hands { HearsNoHand desk.old.ends.items desk.new.ends.items }
    ensures settled { IfOk result (λ s. AreSettled place.workers place.worker hands.items desk.new.ends.items s.unsettled.items) }
{
    let mut settled = Settled {
        unsettled: Vec::new(alloc),
        forced: 0,
    };
    let mut at = 0;
    for hand in hands {
        let end = hand.join(rt);
        let number = number_of(place, at);
        settle_script(rt, bell, desk, at, number, end, &mut settled)?;
        at += 1;
    }
    end_record(rt, bell, desk);
    Ok(settled)
}

/// Serves the scripts of a worker to their end.
pub fn work<
    K: Keeper + Send + Drop + 'static,
    C: Clock + Audience + Stopping + Drop,
    G: Gate + Sync + Send + Drop + 'static,
    W: Threads + Wait + std::time::Clock + Copy + Send + Drop + 'static,
>(
    rt: W,
    alloc: Global,
    place: WorkerIndex,
    seat: Seat<K, C>,
    gate: Arc<G>,
) -> Result<WorkerResult, WorkFault>
    requires { IsSeated place.workers place.worker seat }
    ensures { IfOk result (λ p. IsWork K.told K.gives K.named K.made place.workers place.worker seat.team p × SameIn seat.log p.log) }
{
    let Seat {
        team,
        bell,
        log,
        over: _over,
    } = seat;
    let Team {
        keepers,
        scripts,
        clock,
    } = team;
    let mut clock = clock;
    let lines = lines_of(alloc, keepers.as_slice())?;
    let mut opened = Opened {
        ends: Vec::new(alloc),
        hands: Vec::new(alloc),
    };
    let outcome = open_all(rt, alloc, place, keepers, &gate, &bell, &mut opened);
    let Opened { ends, hands } = opened;
    if let Err(fault) = outcome {
        let_go(&rt, ends, hands);
        return Err(fault);
    }
    let Ok(hall) = hall_of(alloc, scripts) else {
        let_go(&rt, ends, hands);
        return Err(WorkFault::Memory);
    };
    let book = Book::new(hall, log);
    let mut desk = Desk::new(alloc, book, lines, ends);
    let Ok(stopped) = turn_all(&rt, alloc, &bell, &mut desk, &mut clock) else {
        let_go(&rt, desk.into_ends(), hands);
        return Err(WorkFault::Memory);
    };
    if stopped {
        return Ok(give_up(&rt, alloc, place, desk, hands)?);
    }
    let settled = settle_all(&rt, alloc, place, &bell, &mut desk, hands)?;
    Ok(part_of(desk.into_outcome(), settled, false))
}
