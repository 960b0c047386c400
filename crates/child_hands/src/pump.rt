//! Reads a child's output and puts it into a ring, in pieces.

ghost use Rattle.std.specs.Prelude.{◌≡◌, ◌+◌, ◌^◌, ◌<◌, ◌≤◌, [], ◌∷◌, ◌++◌, IfSome, ℕ, List, Option};
ghost use Rattle.feed_rings.specs.Ends.{put_items, all_put, SameIn};
ghost use Rattle.child_hands.specs.declared.items.RingItem.TheVariants.{ReadFail};
ghost use Rattle.child_hands.specs.Pumped.{PumpsAllBut, IsRead, FailsOnlyFor};

use crate::{Keeper, Piece, RingItem};
use child_events::{Cause, Counted};
use feed_rings::{Bell, FeedIn, Finished, put_waiting};
use std::alloc::Global;
use std::io::{ErrorKind, Read};
use std::sync::Wait;

/// The most reads of a child's output.
const READS: u64 = 1 << 40;

/// The most bytes in one read.
const SIZE: usize = 4096;

/// Reads a device to its end or a failure, and puts its bytes in pieces. `None` if the taking end
/// of the ring is gone.
///
/// An interrupted read is tried again. If a piece is refused memory, the list ends with the cause
/// `Memory`. If a read fails, or the limit on reads is reached, it ends with the cause `Other`.
/// `bell` must be the bell that the ring was made to put from.
pub fn pump<K: Keeper, R: Read, W: Wait>(
    rt: &W,
    alloc: Global,
    bell: &Bell,
    script: u8,
    child: u8,
    device: &mut Counted<R>,
    feed: FeedIn<RingItem<K>>,
) -> Option<Finished<RingItem<K>>>
    requires counts { (device.old.failures ≡ 0) × (device.old.calls ≡ 0) }
    requires empty { put_items feed ≡ [] }
    ensures read { IsRead script child (R.remaining device.old.device) feed result }
    ensures failure { IfSome result (λ f. FailsOnlyFor device.new (all_put f)) }
{
    let mut feed = feed;
    let last = put_pieces(rt, alloc, bell, script, child, device, &mut feed)?;
    if !put_waiting(rt, bell, &mut feed, last) {
        return None;
    }
    feed.finish()
}

/// Puts the pieces, and returns the last item.
fn put_pieces<K: Keeper, R: Read, W: Wait>(
    rt: &W,
    alloc: Global,
    bell: &Bell,
    script: u8,
    child: u8,
    device: &mut Counted<R>,
    feed: &mut FeedIn<RingItem<K>>,
) -> Option<RingItem<K>>
    requires { (device.old.failures ≡ 0) × (device.old.calls ≡ 0) }
    ensures ring { SameIn feed.old feed.new }
    ensures list { IfSome result (λ x. PumpsAllBut script child (R.remaining device.old.device) device.new (put_items feed.old) (put_items feed.new) x) }
{
    let mut buf = [0u8; SIZE];
    for _ in 0..READS {
        match device.read(&mut buf) {
            Ok(0) => return Some(RingItem::End { script, child }),
            Ok(n) => {
                let Ok(piece) = Piece::new(alloc, &buf[..n]) else {
                    return Some(read_failure(script, child, Cause::Memory));
                };
                if !put_waiting(
                    rt,
                    bell,
                    feed,
                    RingItem::Out {
                        script,
                        child,
                        piece,
                    },
                ) {
                    return None;
                }
            }
            Err(e) => match e.kind() {
                ErrorKind::Interrupted => continue,
                _ => return Some(read_failure(script, child, Cause::Other)),
            },
        }
    }
    Some(read_failure(script, child, Cause::Other))
}

/// Puts a read failure instead of a reader's items. `None` if the ring has no room for it.
pub fn give_up<K: Keeper>(
    script: u8,
    child: u8,
    feed: FeedIn<RingItem<K>>,
) -> Option<Finished<RingItem<K>>>
    requires { put_items feed ≡ [] }
    ensures { (bytes : Option (List ℕ)) → IsRead script child bytes feed result }
{
    let mut feed = feed;
    match feed.put(read_failure(script, child, Cause::Other)) {
        Ok(()) => feed.finish(),
        Err(_) => None,
    }
}

fn read_failure<K: Keeper>(script: u8, child: u8, cause: Cause) -> RingItem<K>
    ensures { result ≡ ReadFail script child cause }
{
    RingItem::ReadFail {
        script,
        child,
        cause,
    }
}
