//! A hand: the thread that carries out a script's requests and starts a reader for each child.

ghost use Rattle.std.specs.Prelude.{◌≡◌, ◌+◌, ◌^◌, ◌<◌, ◌≤◌, [], ◌∷◌, ◌++◌, IfSome, is_some, vec_len};
ghost use Rattle.child_hands.specs.Told.{answer_of};
ghost use Rattle.feed_rings.specs.Ends.{put_items, taken_items, room, SameIn, SameOut};
ghost use Rattle.child_hands.specs.Handed.{starts, failure_of, order_of, KeepsGoing, GoesOn, IsEnded, IsHandEnd};

use crate::children::Children;
use crate::order::Instruction;
use crate::work::{HandEnd, Outcome, Work};
use crate::{Answered, Gate, Keeper, RingItem};
use child_events::{Answer, Cause};
use expect_core::{Act, Request};
use feed_rings::{Bell, FeedIn, FeedOut, await_room, take_waiting};
use std::alloc::Global;
use std::sync::{Arc, Wait};
use std::thread::Threads;

/// The most calls of a keeper.
const CALLS: u64 = 1 << 63;

/// The most refusals of a request.
const REFUSALS: u64 = 10_000;

/// The ends of a hand's two rings, and its bell.
#[derive(Drop)]
struct Ends<K: Keeper> {
    asks: FeedOut<RingItem<K>>,
    answers: FeedIn<RingItem<K>>,
    bell: Bell,
}

/// Why a hand has ended, and the number of forced requests.
#[derive(Drop)]
struct Obeyed {
    outcome: Outcome,
    forced: u64,
}

fn answer_to(outcome: Result<(), Cause>) -> Answer
    ensures { result ≡ answer_of outcome }
{
    match outcome {
        Ok(()) => Answer::Ok,
        Err(cause) => Answer::Fail(cause),
    }
}

/// Calls the keeper once. For a child that was started, returns the device to read its output from.
fn ask<K: Keeper>(keeper: &mut K, request: &Request) -> (Answer, Option<K::Out>)
    requires { K.made keeper.old < 2 ^ 63 }
    ensures name { K.named keeper.new ≡ K.named keeper.old }
    ensures calls { K.made keeper.new ≡ K.made keeper.old + 1 }
    ensures fails { K.failed keeper.old + failure_of result.0 ≤ K.failed keeper.new }
    ensures told { K.told (K.named keeper.new) (K.made keeper.new) request.now result.0 }
    ensures starts { starts request.now result.0 ≡ is_some result.1 }
    ensures gives { IfSome result.1 (λ out. K.gives (K.named keeper.new) (K.made keeper.new) (K.Out.remaining out)) }
{
    let child = request.child;
    match &request.act {
        Act::Spawn(words) => match keeper.spawn(child, words) {
            Ok(out) => (Answer::Ok, Some(out)),
            Err(cause) => (Answer::Fail(cause), None),
        },
        Act::Write(bytes) => (answer_to(keeper.write(child, bytes)), None),
        Act::End => (answer_to(keeper.end(child)), None),
        Act::Close => (answer_to(keeper.close(child)), None),
        Act::Wait => (keeper.wait(child), None),
    }
}

/// Calls the keeper once, puts the answer, and starts a reader if a child was started.
fn carry_out<K: Keeper + Send + 'static, W: Threads + Wait + Copy + Send + 'static>(
    rt: W,
    alloc: Global,
    script: u8,
    keeper: &mut K,
    ends: &mut Ends<K>,
    children: &mut Children<K>,
    request: Request,
)
    requires calls { K.made keeper.old < 2 ^ 63 }
    requires space { 0 < room ends.old.answers }
    ensures name { K.named keeper.new ≡ K.named keeper.old }
    ensures calls { K.made keeper.new ≡ K.made keeper.old + 1 }
    ensures asks { ends.new.asks ≡ ends.old.asks }
    ensures size { vec_len children.new.works ≡ vec_len children.old.works }
    ensures answers { SameIn ends.old.answers ends.new.answers }
    ensures going { KeepsGoing script (K.named keeper.old) request
        (record { made = K.made keeper.old; failed = K.failed keeper.old; taken = []; put = put_items ends.old.answers; works = children.old.works.items; readers = children.old.readers.items })
        (record { made = K.made keeper.new; failed = K.failed keeper.new; taken = []; put = put_items ends.new.answers; works = children.new.works.items; readers = children.new.readers.items }) }
{
    let child = request.child;
    let (answer, out) = ask(keeper, &request);
    let answered = Answered::new(keeper.name(), keeper.calls(), request, answer);
    let Ok(()) = ends.answers.put(RingItem::Answer { script, answered }) else {
        unreachable!()
    };
    if let Some(out) = out {
        children.place(rt, alloc, script, child, out);
    }
}

fn order_in<K: Keeper>(item: RingItem<K>) -> Instruction
    ensures { result ≡ order_of item }
{
    match item {
        RingItem::Ask(request) => Instruction::Do(request),
        RingItem::Stop => Instruction::Halt,
        _ => Instruction::Nothing,
    }
}

/// Returns whether the gate lets a request pass. Asks again at once after a refusal, a limited
/// number of times.
fn passes<G: Gate>(gate: &G, script: u8, child: u8) -> bool {
    for turn in 0..REFUSALS {
        if gate.pass(script, child, turn) {
            return true;
        }
    }
    false
}

/// Carries out requests. Takes a request only if there is room for its answer.
fn obey<K: Keeper + Send + 'static, G: Gate, W: Threads + Wait + Copy + Send + 'static>(
    rt: W,
    alloc: Global,
    script: u8,
    keeper: &mut K,
    gate: &G,
    ends: &mut Ends<K>,
    children: &mut Children<K>,
) -> Obeyed
    ensures name { K.named keeper.new ≡ K.named keeper.old }
    ensures asks { SameOut ends.old.asks ends.new.asks }
    ensures size { vec_len children.new.works ≡ vec_len children.old.works }
    ensures answers { SameIn ends.old.answers ends.new.answers }
    ensures going { GoesOn script (K.named keeper.old)
        (record { made = K.made keeper.old; failed = K.failed keeper.old; taken = taken_items ends.old.asks; put = put_items ends.old.answers; works = children.old.works.items; readers = children.old.readers.items })
        (record { made = K.made keeper.new; failed = K.failed keeper.new; taken = taken_items ends.new.asks; put = put_items ends.new.answers; works = children.new.works.items; readers = children.new.readers.items }) }
    ensures ended { IsEnded result.outcome (K.made keeper.new) (room ends.new.answers) (taken_items ends.new.asks) }
{
    let mut forced = 0u64;
    for _ in rt.forever() {
        if keeper.calls() >= CALLS {
            return Obeyed {
                outcome: Outcome::Exhausted,
                forced,
            };
        }
        if !await_room(&rt, &ends.bell, &mut ends.answers) {
            return Obeyed {
                outcome: Outcome::Left,
                forced,
            };
        }
        match order_in(take_waiting(&rt, &ends.bell, &mut ends.asks)) {
            Instruction::Do(request) => {
                if !passes(gate, script, request.child) {
                    forced = forced.saturating_add(1);
                }
                carry_out(rt, alloc, script, keeper, ends, children, request);
            }
            Instruction::Halt => return Obeyed {
                outcome: Outcome::Stopped,
                forced,
            },
            Instruction::Nothing => continue,
        }
    }
    unreachable!()
}

/// Carries out the requests of a script until `Stop`, and waits for the readers of its children.
///
/// Each request waits for the gate, which is asked again at once after a refusal. After 10,000
/// refusals the request is carried out anyway, and is counted as forced. The keeper is dropped
/// before the readers are waited for, so that each child's input ends.
///
/// `bell` must be the bell that the ring of requests rings, and that the ring of answers was made
/// to put from. `works[k]` is the place of child k + 1.
pub fn hand<
    K: Keeper + Send + Drop + 'static,
    G: Gate + Drop,
    W: Threads + Wait + Copy + Send + 'static,
>(
    rt: W,
    alloc: Global,
    script: u8,
    keeper: K,
    gate: Arc<G>,
    asks: FeedOut<RingItem<K>>,
    answers: FeedIn<RingItem<K>>,
    bell: Bell,
    works: Vec<Work<K>>,
) -> HandEnd<K>
    ensures { IsHandEnd script keeper asks answers works.items result }
{
    let mut keeper = keeper;
    let mut ends = Ends {
        asks,
        answers,
        bell,
    };
    let mut children = Children::new(alloc, works);
    let Obeyed { outcome, forced } = obey(
        rt,
        alloc,
        script,
        &mut keeper,
        &*gate,
        &mut ends,
        &mut children,
    );
    drop(keeper);
    children.end_all(&rt);
    let Ends { asks, answers, .. } = ends;
    HandEnd {
        works: children.works,
        answers: answers.finish(),
        asks,
        outcome,
        forced,
    }
}
