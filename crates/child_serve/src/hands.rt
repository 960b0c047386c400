//! A script's rings and hand.

ghost use Rattle.std.specs.Prelude.{IfOk};
ghost use Rattle.child_serve.specs.Opened.{AreRings, IsOpened};

use crate::worker::WorkFault;
use child_desk::{Ends, Readers};
use child_hands::{Fresh, Gate, HandEnd, Keeper, Obeys, RingItem, Work, start_hand};
use feed_rings::{Bell, FeedOut, feed_pair};
use std::alloc::{AllocError, Global};
use std::sync::{Arc, Wait};
use std::thread::{PromisedHandle, Threads};

/// The most children of a script.
const CHILDREN: usize = 16;

/// The number of items that a ring has room for.
const ROOM: usize = 16;

/// A running hand.
pub type Hand<K> = PromisedHandle<HandEnd<K>, Obeys<K>>;

/// The endpoints of the rings of a script's children: those of the readers, and those of the desk.
#[derive(Drop)]
struct Children<K: Keeper> {
    works: Vec<Work<K>>,
    outs: Vec<FeedOut<RingItem<K>>>,
}

/// Creates the rings of a script's children. `desk` is the bell of the desk.
fn child_rings<K: Keeper>(alloc: Global, desk: &Bell) -> Result<Children<K>, AllocError>
    ensures { IfOk result (λ c. AreRings 16 c.works.items c.outs.items) }
{
    let mut works = Vec::with_capacity(alloc, CHILDREN)?;
    let mut outs = Vec::with_capacity(alloc, CHILDREN)?;
    for _ in 0..CHILDREN {
        let bell = Bell::new(alloc)?;
        let (feed, out) = feed_pair(alloc, ROOM, &bell, desk)?;
        works.push(Work::Free(Fresh::new(feed, bell)))?;
        outs.push(out)?;
    }
    Ok(Children { works, outs })
}

/// Creates the rings of a script and starts its hand. Returns the desk's endpoints and the hand.
pub fn start<
    K: Keeper + Send + Drop + 'static,
    G: Gate + Sync + Send + Drop + 'static,
    W: Threads + Wait + Copy + Send + Drop + 'static,
>(
    rt: W,
    alloc: Global,
    script: u8,
    keeper: K,
    gate: Arc<G>,
    desk: &Bell,
) -> Result<(Ends<K>, Hand<K>), WorkFault>
    ensures { IfOk result (λ r. IsOpened script keeper r.0 r.1) }
{
    let bell = Bell::new(alloc)?;
    let (asks, asked) = feed_pair(alloc, ROOM, desk, &bell)?;
    let (answering, answers) = feed_pair(alloc, ROOM, &bell, desk)?;
    let Children { works, outs } = child_rings(alloc, desk)?;
    match start_hand(
        rt, alloc, script, keeper, gate, asked, answering, bell, works,
    ) {
        Some(hand) => Ok((Ends::new(asks, answers, Readers { script, outs }), hand)),
        None => Err(WorkFault::NoThread),
    }
}
