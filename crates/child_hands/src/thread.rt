//! A hand in its own thread.

ghost use Rattle.std.specs.Prelude.{◌≡◌, ℕ, [], IfSome};
ghost use mathlib.Core.List.{Mem};
ghost use Rattle.child_hands.specs.Handed.{IsHandEnd};

use crate::hand::hand;
use crate::reader::STACK;
use crate::work::{HandEnd, Work};
use crate::{Gate, Keeper, RingItem};
use feed_rings::{Bell, FeedIn, FeedOut};
use std::alloc::Global;
use std::snapshot::Snapshot;
use std::sync::{Arc, Wait};
use std::thread;
use std::thread::{Promise, PromisedHandle, Threads};

/// The promise of a hand's thread about its end.
#[derive(Drop)]
pub struct Obeys<K: Keeper> {
    pub script: u8,
    pub keeper: Snapshot<K>,
    pub asks: Snapshot<FeedOut<RingItem<K>>>,
    pub answers: Snapshot<FeedIn<RingItem<K>>>,
    pub works: Snapshot<Vec<Work<K>>>,
}

impl<K: Keeper> Promise<HandEnd<K>> for Obeys<K> {
    ghost kept_by = { λ p e. IsHandEnd p.script p.keeper.value p.asks.value p.answers.value p.works.value.items e };
}

/// Runs a hand in its own thread. `None` if no thread can be started; all arguments are then
/// dropped.
pub fn start_hand<
    K: Keeper + Send + Drop + 'static,
    G: Gate + Send + Sync + Drop + 'static,
    W: Threads + Wait + Copy + Send + 'static,
>(
    rt: W,
    alloc: Global,
    script: u8,
    keeper: K,
    gate: Arc<G>,
    asks: FeedOut<RingItem<K>>,
    answers: FeedIn<RingItem<K>>,
    bell: Bell,
    works: Vec<Work<K>>,
) -> Option<PromisedHandle<HandEnd<K>, Obeys<K>>>
    ensures { IfSome result (λ h. (h.promise.script ≡ script) × (h.promise.keeper.value ≡ keeper) × (h.promise.asks.value ≡ asks) × (h.promise.answers.value ≡ answers) × (h.promise.works.value ≡ works)) }
{
    let promise = Obeys {
        script,
        keeper: Snapshot::of(&keeper),
        asks: Snapshot::of(&asks),
        answers: Snapshot::of(&answers),
        works: Snapshot::of(&works),
    };
    thread::Builder::new()
        .stack_size(STACK)
        .spawn_with(
            &rt,
            promise,
            move || -> HandEnd<K>
                requires { (life : ℕ) → Mem life K.Out.row.lives → Mem life [] }
            { hand(rt, alloc, script, keeper, gate, asks, answers, bell, works) },
        )
        .ok()
}
