//! Rings between threads.

use feed_rings::{Bell, feed_pair, put_waiting, take_waiting};
use std::test::Fail;
use std::thread;

#[test]
fn a_ring_of_two_takes_two(rt: HostRuntime) -> Result<(), Fail> {
    let alloc = rt.alloc();
    let bell = Bell::new(alloc)?;
    let (mut feed, mut out) = feed_pair(alloc, 2, &bell, &bell)?;
    assert_eq!(rt; feed.put(1u8), Ok(()));
    assert_eq!(rt; feed.put(2), Ok(()));
    assert_eq!(rt; feed.put(3), Err(3));
    assert!(rt; !feed.has_room());
    assert_eq!(rt; out.take(), Some(1));
    assert_eq!(rt; feed.put(3), Ok(()));
    assert_eq!(rt; out.take(), Some(2));
    assert!(rt; !feed.is_left());
    let mut finished = feed.finish().expect(&rt, "the taking end is there");
    assert_eq!(rt; out.left(&mut finished), 1);
    assert_eq!(rt; out.take(), Some(3));
    assert_eq!(rt; out.take(), None);
    Ok(())
}

#[test]
fn a_put_that_waits_is_rung(rt: HostRuntime) -> Result<(), Fail> {
    let alloc = rt.alloc();
    let mine = Bell::new(alloc)?;
    let theirs = Bell::new(alloc)?;
    let (mut feed, mut out) = feed_pair(alloc, 2, &theirs, &mine)?;
    let putter = thread::spawn(&rt, move || {
        for item in 0..1_000u64 {
            if !put_waiting(&rt, &theirs, &mut feed, item) {
                return item;
            }
        }
        1_000
    })?;
    for expected in 0..500u64 {
        assert_eq!(rt; take_waiting(&rt, &mine, &mut out), expected);
    }
    drop(out);
    assert_eq!(rt; putter.join(&rt), 502);
    Ok(())
}
