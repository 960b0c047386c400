//! Merges several records into one.

ghost use Rattle.std.specs.Prelude.{◌≡◌, ◌≤◌, length, false, IsTrue, IfOk, OnOk};
ghost use Rattle.run_records.specs.Merged.{IsMerging, HasMerged, HasOne, HandsOn, WasHanded, SameRings, ArePairs, AllTakeOn, AllTaken, AllMove, AllBehind, AreFresh};

use crate::numbering::{WorkerIndex, moment};
use crate::recorder::Recorder;
use crate::reel::Reel;
use child_events::HallEvents;
use child_hands::LogItem;
use feed_rings::FeedIn;
use std::alloc::{AllocError, Global};

/// Takes the records of workers from their rings, and passes them to a recorder as one.
#[derive(Drop)]
pub struct Merger<R: Drop> {
    alloc: Global,
    reels: Vec<Reel>,
    recorder: R,
    /// Whether the recorder gets the record. Otherwise what is taken is dropped.
    keeps: bool,
    /// Whether memory was refused, so that a part of the record is lost.
    is_lost: bool,
}

/// Returns the least of the rings' last moments. No later item is earlier.
fn least(reels: &[Reel]) -> u64
    ensures { AllBehind result reels.now }
{
    let mut least = u64::MAX;
    for reel in reels {
        least = least.min(reel.since);
    }
    least
}

/// Takes items from each ring, up to a limit. Returns whether there was one.
fn take_all(reels: &mut [Reel]) -> Result<bool, AllocError>
    ensures rings { SameRings reels.old reels.new }
    ensures takes { OnOk result (AllTakeOn reels.old reels.new) }
{
    let mut busy = false;
    for at in 0..reels.len() {
        let reel = &mut reels[at];
        if reel.take_some()? {
            busy = true;
        }
    }
    Ok(busy)
}

/// Takes items from each ring, up to a limit, and drops them. Returns whether there was one.
fn drop_all(reels: &mut [Reel]) -> bool
    ensures rings { SameRings reels.old reels.new }
{
    let mut busy = false;
    for at in 0..reels.len() {
        let reel = &mut reels[at];
        if reel.drop_some() {
            busy = true;
        }
    }
    busy
}

/// Takes the held events before a moment, in order of moments, then of workers.
fn merged_before(alloc: Global, reels: &mut [Reel], bound: u64) -> Result<HallEvents, AllocError>
    requires few { length reels.old ≤ 64 }
    ensures rings { SameRings reels.old reels.new }
    ensures moves { IfOk result (λ es. AllMove bound reels.old reels.new es) }
{
    let workers = reels.len() as u8;
    let mut all = HallEvents::new(alloc);
    for worker in 0..workers {
        let reel = &mut reels[worker as usize];
        reel.move_before(bound, WorkerIndex { workers, worker }, &mut all)?;
    }
    all.list.sort_by_key(|e| moment(e))?;
    Ok(all)
}

/// Takes what is left in the rings. `logs` are their putting endpoints.
fn take_rests(reels: &mut [Reel], logs: &mut [FeedIn<LogItem>]) -> Result<(), AllocError>
    requires { ArePairs logs.old reels.old }
    ensures rings { SameRings reels.old reels.new }
    ensures takes { OnOk result (AllTakeOn reels.old reels.new) }
    ensures rests { OnOk result (AllTaken logs.old reels.new) }
{
    for at in 0..reels.len() {
        let log = &mut logs[at];
        reels[at].take_rest(log)?;
    }
    Ok(())
}

impl<R: Recorder + Drop> Merger<R> {
    /// Creates a merger of new rings. If `keeps`, the recorder gets the record; otherwise what is
    /// taken is dropped.
    pub fn new(alloc: Global, reels: Vec<Reel>, recorder: R, keeps: bool) -> Merger<R>
        requires { AreFresh reels.items }
        ensures reels { result.reels.items ≡ reels.items }
        ensures keeps { result.keeps ≡ keeps }
        ensures recorder { result.recorder ≡ recorder }
        ensures lost { result.is_lost ≡ false }
        ensures merging { IsMerging R.notes recorder result }
    {
        Merger {
            alloc,
            reels,
            recorder,
            keeps,
            is_lost: false,
        }
    }

    /// Returns the recorder. It gets no more.
    pub fn into_recorder(self) -> R
        ensures { result ≡ self.recorder }
    {
        let Merger { recorder, .. } = self;
        recorder
    }

    /// Takes items from each ring, up to a limit. Returns whether there was one.
    fn take(&mut self) -> Result<bool, AllocError>
        ensures rings { SameRings self.old.reels.items self.new.reels.items }
        ensures same { (self.new.keeps ≡ self.old.keeps) × (self.new.is_lost ≡ self.old.is_lost) × (self.new.recorder ≡ self.old.recorder) }
        ensures takes { OnOk result (AllTakeOn self.old.reels.items self.new.reels.items) }
    {
        take_all(self.reels.as_mut_slice())
    }

    /// Takes what is left in the rings. `logs` are their putting endpoints.
    fn take_rest(&mut self, logs: &mut [FeedIn<LogItem>]) -> Result<(), AllocError>
        requires { ArePairs logs.old self.old.reels.items }
        ensures rings { SameRings self.old.reels.items self.new.reels.items }
        ensures same { (self.new.keeps ≡ self.old.keeps) × (self.new.recorder ≡ self.old.recorder) }
        ensures takes { OnOk result (AllTakeOn self.old.reels.items self.new.reels.items) }
        ensures rests { OnOk result (AllTaken logs.old self.new.reels.items) }
    {
        take_rests(self.reels.as_mut_slice(), logs)
    }

    /// Passes the held events before a moment to the recorder.
    fn hand_on(&mut self, bound: u64) -> Result<(), AllocError>
        requires few { length self.old.reels.items ≤ 64 }
        ensures rings { SameRings self.old.reels.items self.new.reels.items }
        ensures same { (self.new.keeps ≡ self.old.keeps) × (self.new.is_lost ≡ self.old.is_lost) }
        ensures hands { OnOk result (HandsOn R.notes bound self.old self.new) }
        ensures handed { (first : R) → WasHanded R.notes first self.old.recorder → WasHanded R.notes first self.new.recorder }
    {
        let events = merged_before(self.alloc, self.reels.as_mut_slice(), bound)?;
        self.recorder.note(events);
        Ok(())
    }

    /// Takes items from each ring, up to a limit. Passes on the events that no later item can
    /// precede. Returns whether there was an item.
    #[tactic(auto, using(crate::proofs::Parting::rings_then, crate::proofs::Handing::merged_taken, crate::proofs::Handing::merged_handed))]
    fn take_and_hand(&mut self) -> Result<bool, AllocError>
        requires few { length self.old.reels.items ≤ 64 }
        ensures rings { SameRings self.old.reels.items self.new.reels.items }
        ensures same { (self.new.keeps ≡ self.old.keeps) × (self.new.is_lost ≡ self.old.is_lost) }
        ensures merging { OnOk result ((first : R) → HasMerged R.notes first self.old → HasMerged R.notes first self.new) }
        ensures handed { (first : R) → WasHanded R.notes first self.old.recorder → WasHanded R.notes first self.new.recorder }
    {
        let busy = self.take()?;
        let bound = least(self.reels.as_slice());
        self.hand_on(bound)?;
        Ok(busy)
    }

    /// Takes items from each ring, up to a limit. Passes on the events that no later item can
    /// precede. Returns whether there was an item.
    ///
    /// If memory is refused, a part of the record is lost. Later turns drop what they take, and
    /// `finish` returns `AllocError`.
    pub fn turn(&mut self) -> bool
        requires few { length self.old.reels.items ≤ 64 }
        ensures rings { SameRings self.old.reels.items self.new.reels.items }
        ensures keeps { self.new.keeps ≡ self.old.keeps }
        ensures merging { (first : R) → IsMerging R.notes first self.old → IsMerging R.notes first self.new }
        ensures handed { (first : R) → WasHanded R.notes first self.old.recorder → WasHanded R.notes first self.new.recorder }
        ensures unkept { self.old.keeps ≡ false → self.new.recorder ≡ self.old.recorder }
    {
        if !self.keeps || self.is_lost {
            return drop_all(self.reels.as_mut_slice());
        }
        match self.take_and_hand() {
            Ok(busy) => busy,
            Err(_) => {
                self.is_lost = true;
                true
            }
        }
    }

    /// If the record is kept, takes what is left in the rings, and passes it on. `logs` are their
    /// putting endpoints.
    #[tactic(auto, using(crate::proofs::Handing::merged_taken, crate::proofs::Handing::has_one))]
    fn hand_rest(&mut self, logs: Vec<FeedIn<LogItem>>) -> Result<(), AllocError>
        requires few { length self.old.reels.items ≤ 64 }
        requires pairs { ArePairs logs.items self.old.reels.items }
        ensures one { OnOk result ((first : R) → IsTrue self.old.keeps → IsMerging R.notes first self.old → HasOne R.notes first logs.items self.new.recorder) }
        ensures handed { (first : R) → WasHanded R.notes first self.old.recorder → WasHanded R.notes first self.new.recorder }
        ensures unkept { self.old.keeps ≡ false → self.new.recorder ≡ self.old.recorder }
    {
        if !self.keeps {
            return Ok(());
        }
        if self.is_lost {
            return Err(AllocError);
        }
        let mut logs = logs;
        self.take_rest(logs.as_mut_slice())?;
        self.hand_on(u64::MAX)
    }

    /// If the record is kept, takes what is left in the rings, and passes it on. Returns the recorder
    /// too. `logs` are the putting endpoints of the rings. `AllocError` means that a part of the
    /// record is lost.
    pub fn finish(self, logs: Vec<FeedIn<LogItem>>) -> (Result<(), AllocError>, R)
        requires few { length self.reels.items ≤ 64 }
        requires pairs { ArePairs logs.items self.reels.items }
        ensures one { IfOk result.0 (λ done. (first : R) → IsTrue self.keeps → IsMerging R.notes first self → HasOne R.notes first logs.items result.1) }
        ensures handed { (first : R) → WasHanded R.notes first self.recorder → WasHanded R.notes first result.1 }
        ensures unkept { self.keeps ≡ false → result.1 ≡ self.recorder }
    {
        let mut merger = self;
        let outcome = merger.hand_rest(logs);
        (outcome, merger.into_recorder())
    }
}
