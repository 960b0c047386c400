//! A child's reader in its own thread.

ghost use Rattle.std.specs.Prelude.{◌≡◌, ℕ, []};
ghost use mathlib.Core.List.{Mem};
ghost use Rattle.child_hands.specs.Pumped.{IsRead};
ghost use Rattle.child_hands.specs.Started.{IsStarted};

use crate::pump::{give_up, pump};
use crate::work::Fresh;
use crate::{Keeper, RingItem};
use child_events::Counted;
use feed_rings::{FeedIn, Finished};
use std::alloc::{AllocError, Global};
use std::io::Read;
use std::snapshot::Snapshot;
use std::sync::atomic::{AtomicBool, Ordering};
use std::sync::{Arc, Wait};
use std::thread;
use std::thread::{Promise, PromisedHandle, Threads};

/// The stack size of a reader and of a hand, in bytes.
pub const STACK: usize = 262_144;

/// The promise of a reader's thread about the items it puts.
#[derive(Drop)]
pub struct Reads<K: Keeper> {
    pub script: u8,
    pub child: u8,
    /// The end of the ring into which it puts.
    pub feed: Snapshot<FeedIn<RingItem<K>>>,
    /// The device that it reads.
    pub out: Snapshot<K::Out>,
}

impl<K: Keeper> Promise<Option<Finished<RingItem<K>>>> for Reads<K> {
    ghost kept_by = { λ p r. IsRead p.script p.child (K.Out.remaining p.out.value) p.feed.value r };
}

/// The result of starting a reader.
#[derive(Drop)]
pub enum Started<K: Keeper> {
    /// The reader runs.
    Running(PromisedHandle<Option<Finished<RingItem<K>>>, Reads<K>>),
    /// No thread could be started. A read failure was put instead.
    Refused(Option<Finished<RingItem<K>>>),
}

/// Reads a device to its end and puts its bytes. If `refused` is set, no thread could be started,
/// and a read failure is put instead.
fn read<K: Keeper, R: Read + Drop, W: Wait + Copy>(
    rt: W,
    alloc: Global,
    script: u8,
    child: u8,
    refused: Arc<AtomicBool>,
    out: R,
    fresh: Fresh<K>,
) -> Option<Finished<RingItem<K>>>
    ensures { IsRead script child (R.remaining out) fresh.feed result }
{
    let Fresh { feed, bell } = fresh;
    if refused.load(Ordering::SeqCst) {
        return give_up(script, child, feed);
    }
    let mut device = Counted::new(out);
    pump(&rt, alloc, &bell, script, child, &mut device, feed)
}

/// Starts a thread that reads a device to its end, and puts its bytes.
///
/// If no thread can be started, its closure is returned and runs here. A flag tells it to put a
/// read failure.
pub fn start<K: Keeper + Send + 'static, W: Threads + Wait + Copy + Send + 'static>(
    rt: W,
    alloc: Global,
    script: u8,
    child: u8,
    out: K::Out,
    fresh: Fresh<K>,
) -> Started<K>
    ensures { IsStarted script child fresh.feed out result }
{
    let Ok((refused, told)) = shared_flag(alloc) else {
        return Started::Refused(give_up(script, child, fresh.feed));
    };
    let promise = Reads {
        script,
        child,
        feed: Snapshot::of(&fresh.feed),
        out: Snapshot::of(&out),
    };
    let run = move || -> Option<Finished<RingItem<K>>>
        requires { (life : ℕ) → Mem life K.Out.row.lives → Mem life [] }
    { read(rt, alloc, script, child, told, out, fresh) };
    match thread::Builder::new()
        .stack_size(STACK)
        .spawn_with(&rt, promise, run)
    {
        Ok(handle) => Started::Running(handle),
        Err(refusal) => {
            refused.store(true, Ordering::SeqCst);
            Started::Refused((refusal.value)())
        }
    }
}

/// Creates a flag that is not set, with two owners.
fn shared_flag(alloc: Global) -> Result<(Arc<AtomicBool>, Arc<AtomicBool>), AllocError> {
    let flag = Arc::new(alloc, AtomicBool::new(false))?;
    let same = Arc::try_clone(&flag)?;
    Ok((flag, same))
}
