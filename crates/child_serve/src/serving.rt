//! Serves scripts over real children, with workers in threads.

ghost use Rattle.std.specs.Prelude.{◌≡◌, ◌<◌, ◌≤◌, [], ℕ, List, length, map, false, None, IfOk, IfSome, OnOk};
ghost use mathlib.Core.List.{Mem};
ghost use Rattle.feed_rings.specs.Ends.{IsPair, SameIn};
ghost use Rattle.dialogue_sched.specs.Hall.{opening_fault as fault_in};
ghost use Rattle.run_records.specs.Merged.{IsFresh, AreFresh, ArePairs, IsMerging, SameRings, WasHanded};
ghost use Rattle.child_serve.specs.declared.worker.Team.{Team as TeamOf};
ghost use Rattle.child_serve.specs.Teams.{IsWork, IsTeam, IsSeated, IsStarted, IsRingOf, AllStarted, AllTeams, AreDealt, AreRingsOf, AreLogsOf, HaveServed};
ghost use Rattle.child_serve.specs.Whole.{keeping_of, IsServing, Gathers, Joins, JoinsPart};

use crate::audience::Audience;
use crate::dealing::dealt;
use crate::served::{Served, WorkerResult, assembled};
use crate::stopping::Stopping;
use crate::worker::{Over, Seat, Team, WorkFault, work};
use child_hands::{Clock, Gate, Keeper, LogItem};
use dialogue_sched::{HallFault, Script, opening_fault};
use feed_rings::{Bell, FeedIn, feed_pair};
use run_records::{Merger, Recorder, Reel, WorkerIndex};
use std::alloc::{AllocError, AllocFailed, Global};
use std::snapshot::Snapshot;
use std::sync::atomic::{AtomicU64, Ordering};
use std::sync::{Arc, Wait};
use std::thread;
use std::thread::{Promise, PromisedHandle, Threads};
use std::time::Duration;

/// Why scripts weren't served.
#[derive(Clone, Copy, Debug, PartialEq, Eq)]
pub enum ServeFault {
    /// There is no hall for them, for a reason other than memory.
    New(HallFault),
    /// Memory was refused.
    Memory,
    /// A thread couldn't be started.
    NoThread,
}

impl From<AllocError> for ServeFault {
    ghost use Rattle.std.specs.Prelude.{◌≡◌};
    ghost use Rattle.child_serve.specs.declared.serving.ServeFault.TheVariants.{Memory};

    ghost from_gives = { λ _ e. e ≡ Memory };

    fn from(_e: AllocError) -> ServeFault {
        ServeFault::Memory
    }
}

impl<T: Drop> From<AllocFailed<T>> for ServeFault {
    ghost use Rattle.std.specs.Prelude.{◌≡◌};
    ghost use Rattle.child_serve.specs.declared.serving.ServeFault.TheVariants.{Memory};

    ghost from_gives = { λ _ e. e ≡ Memory };

    fn from(_e: AllocFailed<T>) -> ServeFault {
        ServeFault::Memory
    }
}

impl From<WorkFault> for ServeFault {
    ghost use Rattle.std.specs.Prelude.{◌≡◌};
    ghost use Rattle.child_serve.specs.Whole.{fault_of};

    ghost from_gives = { λ w e. e ≡ fault_of w };

    fn from(e: WorkFault) -> ServeFault {
        match e {
            WorkFault::Memory => ServeFault::Memory,
            WorkFault::NoThread => ServeFault::NoThread,
        }
    }
}

/// The promise of a worker's thread.
#[derive(Drop)]
pub struct Works<K: Drop, C: Drop> {
    /// The number of workers.
    pub workers: u8,
    /// The worker's index.
    pub worker: u8,
    /// Its team at the start.
    pub team: Snapshot<Team<K, C>>,
    /// The ring of its record at the start.
    pub log: Snapshot<FeedIn<LogItem>>,
}

impl<K: Keeper + Drop, C: Drop> Promise<Result<WorkerResult, WorkFault>> for Works<K, C> {
    ghost kept_by = { λ w r. IfOk r (λ p. IsWork K.told K.gives K.named K.made w.workers w.worker w.team.value p × SameIn w.log.value p.log) };
}

/// A running worker.
type Handle<K, C> = PromisedHandle<Result<WorkerResult, WorkFault>, Works<K, C>>;

/// The number of items that a worker's ring has room for.
const ROOM: usize = 1_024;

/// The longest time, in milliseconds, before the workers' rings are looked at again.
const REST: u64 = 100;

/// The pause, in milliseconds, after there was something in a ring. It prevents that each entry
/// wakes the thread that takes it.
const PAUSE: u64 = 1;

/// What the thread that takes records waits for: a bell that the workers ring, and the number of
/// workers that have ended.
#[derive(Drop)]
struct Takings {
    bell: Bell,
    ended: Arc<AtomicU64>,
}

impl Takings {
    fn new(alloc: Global) -> Result<Takings, AllocError> {
        Ok(Takings {
            bell: Bell::new(alloc)?,
            ended: Arc::new(alloc, AtomicU64::new(0))?,
        })
    }
}

/// Starts a worker.
fn start_worker<
    K: Keeper + Send + Drop + 'static,
    C: Clock + Audience + Stopping + Send + Drop + 'static,
    G: Gate + Sync + Send + Drop + 'static,
    W: Threads + Wait + std::time::Clock + Copy + Send + Drop + 'static,
>(rt: W, alloc: Global, place: WorkerIndex, seat: Seat<K, C>, gate: Arc<G>) -> Option<Handle<K, C>>
    requires { IsSeated place.workers place.worker seat }
    ensures { IfSome result (λ h. (h.promise.workers ≡ place.workers) × (h.promise.worker ≡ place.worker) × (h.promise.team.value ≡ seat.team) × (h.promise.log.value ≡ seat.log)) }
{
    let promise = Works {
        workers: place.workers,
        worker: place.worker,
        team: Snapshot::of(&seat.team),
        log: Snapshot::of(&seat.log),
    };
    thread::spawn_with(
        &rt,
        promise,
        move || -> Result<WorkerResult, WorkFault>
            requires out { (life : ℕ) → Mem life K.Out.row.lives → Mem life [] }
            requires seat { IsSeated place.workers place.worker seat }
        { work(rt, alloc, place, seat, gate) },
    )
    .ok()
}

/// Starts a worker. Returns it, and the taking endpoint of its record's ring.
fn start_at<
    K: Keeper + Send + Drop + 'static,
    C: Clock + Audience + Stopping + Send + Drop + 'static,
    G: Gate + Sync + Send + Drop + 'static,
    W: Threads + Wait + std::time::Clock + Copy + Send + Drop + 'static,
>(
    rt: W,
    alloc: Global,
    place: WorkerIndex,
    team: Team<K, C>,
    gate: &Arc<G>,
    takings: &Takings,
) -> Result<(Handle<K, C>, Reel), WorkFault>
    requires { IsTeam place.workers place.worker team }
    ensures { IfOk result (λ s. IsStarted place.workers place.worker team s.0 × IsRingOf s.0 s.1 × IsFresh s.1) }
{
    let bell = Bell::new(alloc)?;
    let (log, out) = feed_pair(alloc, ROOM, &bell, &takings.bell)?;
    let gate = Arc::try_clone(gate)?;
    let over = Over {
        ended: Arc::try_clone(&takings.ended)?,
        ringer: takings.bell.ringer()?,
    };
    let seat = Seat {
        team,
        bell,
        log,
        over,
    };
    match start_worker(rt, alloc, place, seat, gate) {
        Some(handle) => Ok((handle, Reel::new(alloc, out))),
        None => Err(WorkFault::NoThread),
    }
}

/// Starts a worker for each team. On an error, those before it run.
fn start_all<
    K: Keeper + Send + Drop + 'static,
    C: Clock + Audience + Stopping + Send + Drop + 'static,
    G: Gate + Sync + Send + Drop + 'static,
    W: Threads + Wait + std::time::Clock + Copy + Send + Drop + 'static,
>(
    rt: W,
    alloc: Global,
    teams: Vec<Team<K, C>>,
    gate: &Arc<G>,
    takings: &Takings,
    handles: &mut Vec<Handle<K, C>>,
    reels: &mut Vec<Reel>,
) -> Result<(), WorkFault>
    requires few { length teams.items ≤ 64 }
    requires teams { AllTeams teams.items }
    requires none { (handles.old.items ≡ []) × (reels.old.items ≡ []) }
    ensures started { OnOk result (AllStarted (length teams.items) 0 handles.new.items teams.items) }
    ensures rings { AreRingsOf handles.new.items reels.new.items }
    ensures fresh { AreFresh reels.new.items }
    ensures count { length reels.new.items ≤ 64 }
{
    let workers = teams.len() as u8;
    let mut worker = 0;
    for team in teams {
        handles.reserve(1)?;
        reels.reserve(1)?;
        let place = WorkerIndex { workers, worker };
        let (handle, reel) = start_at(rt, alloc, place, team, gate, takings)?;
        handles.push_reserved(handle);
        reels.push_reserved(reel);
        worker += 1;
    }
    Ok(())
}

/// Takes the workers' records as they come, until all workers have ended.
fn take_records<R: Recorder + Drop, W: Wait + std::time::Clock>(
    rt: &W,
    takings: &Takings,
    count: u64,
    merger: &mut Merger<R>,
)
    requires few { length merger.old.reels.items ≤ 64 }
    ensures rings { SameRings merger.old.reels.items merger.new.reels.items }
    ensures keeps { merger.new.keeps ≡ merger.old.keeps }
    ensures merging { (first : R) → IsMerging R.notes first merger.old → IsMerging R.notes first merger.new }
    ensures handed { (first : R) → WasHanded R.notes first merger.old.recorder → WasHanded R.notes first merger.new.recorder }
    ensures unkept { merger.old.keeps ≡ false → merger.new.recorder ≡ merger.old.recorder }
{
    for _ in rt.forever() {
        let are_over = takings.ended.load(Ordering::SeqCst) >= count;
        let busy = merger.turn();
        if are_over {
            return;
        }
        if busy {
            thread::sleep(rt, Duration::from_millis(PAUSE));
        } else {
            takings.bell.rest_at_most(rt, REST);
        }
    }
    unreachable!()
}

/// The workers' results and the rings of their records so far, in order, and the first error.
#[derive(Drop)]
pub(crate) struct Joined {
    pub(crate) parts: Vec<Served>,
    pub(crate) logs: Vec<FeedIn<LogItem>>,
    pub(crate) fault: Option<WorkFault>,
}

/// Adds the result of one worker.
fn join_part(joined: &mut Joined, part: WorkerResult) -> Result<(), AllocError>
    ensures { OnOk result (JoinsPart part joined.old joined.new) }
{
    let WorkerResult { served, log } = part;
    joined.parts.push(served)?;
    joined.logs.push(log)?;
    Ok(())
}

/// Adds the result of one worker, unless there was an error before.
fn join_one(joined: &mut Joined, outcome: Result<WorkerResult, WorkFault>)
    ensures { Joins outcome joined.old joined.new }
{
    if joined.fault.is_some() {
        return;
    }
    match outcome {
        Ok(part) => {
            let Ok(()) = join_part(joined, part) else {
                joined.fault = Some(WorkFault::Memory);
                return;
            };
        }
        Err(fault) => joined.fault = Some(fault),
    }
}

/// Waits for all workers. Returns their results, in order, or the first error.
fn join_all<K: Keeper + Drop, C: Drop, W: Threads>(
    rt: &W,
    alloc: Global,
    handles: Vec<Handle<K, C>>,
) -> Result<Joined, WorkFault>
    ensures served { IfOk result (λ j. (n : ℕ) (teams : List (TeamOf K C)) → AllStarted n 0 handles.items teams → HaveServed K.told K.gives K.named K.made n teams j.parts.items j.logs.items) }
    ensures logs { IfOk result (λ j. AreLogsOf handles.items j.logs.items) }
{
    let mut joined = Joined {
        parts: Vec::new(alloc),
        logs: Vec::new(alloc),
        fault: None,
    };
    for handle in handles {
        let outcome = handle.join(rt);
        join_one(&mut joined, outcome);
    }
    match joined.fault {
        None => Ok(joined),
        Some(fault) => Err(fault),
    }
}

/// What workers share, and their teams.
#[derive(Drop)]
struct Prepared<K: Drop, C: Drop, G: Drop> {
    gate: Arc<G>,
    takings: Takings,
    teams: Vec<Team<K, C>>,
}

/// Distributes scripts and their keepers to one worker per clock.
fn prepare<K: Keeper + Drop, C: Clock + Drop, G: Drop>(
    alloc: Global,
    scripts: Vec<Script>,
    keepers: Vec<K>,
    clocks: Vec<C>,
    gate: G,
) -> Result<Prepared<K, C, G>, AllocError>
    requires clocks { 0 < length clocks.items }
    requires keepers { length keepers.items ≡ length scripts.items }
    requires opens { fault_in scripts.items ≡ None }
    ensures count { IfOk result (λ p. length p.teams.items ≡ length clocks.items) }
    ensures dealt { IfOk result (λ p. AreDealt K.named K.made (map (keeping_of K.named K.made) keepers.items) scripts.items p.teams.items) }
    ensures teams { IfOk result (λ p. AllTeams p.teams.items) }
{
    Ok(Prepared {
        gate: Arc::new(alloc, gate)?,
        takings: Takings::new(alloc)?,
        teams: dealt(alloc, scripts, keepers, clocks)?,
    })
}

/// Combines the workers' results. Passes the rest of their records to the recorder, and returns it
/// too.
fn gathered<R: Recorder + Drop>(
    alloc: Global,
    count: usize,
    joined: Result<Joined, WorkFault>,
    merger: Merger<R>,
) -> (Result<Served, ServeFault>, R)
    requires few { length merger.reels.items ≤ 64 }
    requires pairs { IfOk joined (λ j. ArePairs j.logs.items merger.reels.items) }
    ensures gathers { Gathers R.notes count joined merger result.0 result.1 }
    ensures handed { (first : R) → WasHanded R.notes first merger.recorder → WasHanded R.notes first result.1 }
    ensures unkept { merger.keeps ≡ false → result.1 ≡ merger.recorder }
{
    let Joined { parts, logs, .. } = match joined {
        Ok(joined) => joined,
        Err(fault) => return (Err(fault.into()), merger.into_recorder()),
    };
    let (taken, recorder) = merger.finish(logs);
    if taken.is_err() {
        return (Err(ServeFault::Memory), recorder);
    }
    match assembled(alloc, count, parts) {
        Ok(served) => (Ok(served), recorder),
        Err(_) => (Err(ServeFault::Memory), recorder),
    }
}

/// Serves scripts, each with its keeper, with one worker per clock. Returns the results and the
/// recorder.
///
/// If `keeps`, the recorder gets the record as it comes. After an error it has got only a part of
/// it.
pub fn serve<
    K: Keeper + Send + Drop + 'static,
    C: Clock + Audience + Stopping + Send + Drop + 'static,
    G: Gate + Sync + Send + Drop + 'static,
    R: Recorder + Drop,
    W: Threads + Wait + std::time::Clock + Copy + Send + Drop + 'static,
>(
    rt: W,
    alloc: Global,
    scripts: Vec<Script>,
    keepers: Vec<K>,
    clocks: Vec<C>,
    gate: G,
    recorder: R,
    keeps: bool,
) -> (Result<Served, ServeFault>, R)
    requires workers { (0 < length clocks.items) × (length clocks.items ≤ 64) }
    requires keepers { length keepers.items ≡ length scripts.items }
    ensures serves { IsServing K.told K.gives (length clocks.items) (map (keeping_of K.named K.made) keepers.items) scripts.items R.notes recorder keeps result.0 result.1 }
    ensures unkept { keeps ≡ false → result.1 ≡ recorder }
{
    if let Some(fault) = opening_fault(scripts.as_slice()) {
        return (Err(ServeFault::New(fault)), recorder);
    }
    let count = scripts.len();
    let Prepared {
        gate,
        takings,
        teams,
    } = match prepare(alloc, scripts, keepers, clocks, gate) {
        Ok(prepared) => prepared,
        Err(_) => return (Err(ServeFault::Memory), recorder),
    };
    let mut handles = Vec::new(alloc);
    let mut reels = Vec::new(alloc);
    let started = start_all(rt, alloc, teams, &gate, &takings, &mut handles, &mut reels);
    let mut merger = Merger::new(alloc, reels, recorder, keeps);
    take_records(&rt, &takings, handles.len() as u64, &mut merger);
    let joined = join_all(&rt, alloc, handles);
    match started {
        Ok(()) => gathered(alloc, count, joined, merger),
        Err(fault) => (Err(fault.into()), merger.into_recorder()),
    }
}
