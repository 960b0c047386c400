//! A hand over a keeper in memory, and a reader by itself.

use crate::keeper::{LINE, LineDevice, Liner, Turnstile};
use child_events::{Answer, Cause, Counted};
use child_hands::pump::pump;
use child_hands::{Fresh, Outcome, RingItem, Work, start_hand};
use expect_core::{Act, Request};
use feed_rings::{Bell, FeedIn, FeedOut, feed_pair, take_waiting};
use std::io;
use std::io::{ErrorKind, Read};
use std::process::Abort;
use std::sync::{Arc, Wait};
use std::test::Fail;
use tcl_words::{Text, Texts};

/// A device that is interrupted, gives a byte, and then fails.
#[derive(Drop)]
struct Flaky {
    turn: u8,
}

impl Read for Flaky {
    fn read(&mut self, buf: &mut [u8]) -> io::Result<usize> {
        if self.turn == 0 {
            self.turn = 1;
            return Err(io::Error::from(ErrorKind::Interrupted));
        }
        if self.turn == 1 && !buf.is_empty() {
            self.turn = 2;
            buf[0] = b'x';
            return Ok(1);
        }
        Err(io::Error::from(ErrorKind::BrokenPipe))
    }
}

/// Returns whether an item is the line of this child of script 3.
fn is_line(item: RingItem<Liner>, of: u8) -> bool {
    match item {
        RingItem::Out {
            script,
            child,
            piece,
        } => script == 3 && child == of && piece.text().as_slice() == LINE,
        _ => false,
    }
}

/// Returns whether an item is the end of this child's output, of script 3.
fn is_end(item: Option<RingItem<Liner>>, of: u8) -> bool {
    match item {
        Some(RingItem::End { script, child }) => script == 3 && child == of,
        _ => false,
    }
}

#[test]
fn a_reader_puts_pieces_and_then_the_end(rt: HostRuntime) -> Result<(), Fail> {
    let alloc = rt.alloc();
    let bell = Bell::new(alloc)?;
    let (feed, mut out) = feed_pair::<RingItem<Liner>>(alloc, 2, &bell, &bell)?;
    let mut device = Counted::new(LineDevice::new(None));
    assert!(rt; pump(&rt, alloc, &bell, 3, 2, &mut device, feed).is_some());
    assert!(rt; is_line(take_waiting(&rt, &bell, &mut out), 2));
    assert!(rt; is_end(out.take(), 2));
    assert!(rt; out.take().is_none());
    Ok(())
}

#[test]
fn a_reader_puts_what_it_read_and_then_the_failure(rt: HostRuntime) -> Result<(), Fail> {
    let alloc = rt.alloc();
    let bell = Bell::new(alloc)?;
    let (feed, mut out) = feed_pair::<RingItem<Liner>>(alloc, 2, &bell, &bell)?;
    let mut device = Counted::new(Flaky { turn: 0 });
    assert!(rt; pump(&rt, alloc, &bell, 3, 2, &mut device, feed).is_some());
    assert!(rt; matches!(out.take(), Some(RingItem::Out { .. })));
    assert!(rt;
        matches!(
            out.take(),
            Some(RingItem::ReadFail {
                cause: Cause::Other,
                ..
            })
        )
    );
    Ok(())
}

fn ask(asks: &mut FeedIn<RingItem<Liner>>, child: u8, act: Act) -> bool {
    asks.put(RingItem::Ask(Request { child, act })).is_ok()
}

/// Checks that the answers to a start, a write and a wait come in this order, with the numbers of
/// their calls.
fn answers_come<R: Wait + Abort>(rt: &R, desk: &Bell, answers: &mut FeedOut<RingItem<Liner>>) {
    let wanted = [Answer::Ok, Answer::Fail(Cause::Broken), Answer::Exit(5)];
    for (answer, call) in wanted.into_iter().zip(1u64..) {
        match take_waiting(rt, desk, answers) {
            RingItem::Answer { script, answered } => {
                assert_eq!(rt; (script, answered.name, answered.call), (3, 7, call));
                assert!(rt; answered.answer == answer);
            }
            _ => assert!(rt; false),
        }
    }
}

#[test]
fn a_hand_asks_its_keeper(rt: HostRuntime) -> Result<(), Fail> {
    let alloc = rt.alloc();
    let desk = Bell::new(alloc)?;
    let resting = Bell::new(alloc)?;
    let reading = Bell::new(alloc)?;
    let (mut asks, taken) = feed_pair(alloc, 4, &desk, &resting)?;
    let (put, mut answers) = feed_pair(alloc, 1, &resting, &desk)?;
    let (feed, mut output) = feed_pair(alloc, 1, &reading, &desk)?;
    let mut works = Vec::new(alloc);
    works.push(Work::Free(Fresh::new(feed, reading)))?;
    let gate = Arc::new(alloc, Turnstile::new())?;
    let theirs = Arc::try_clone(&gate)?;
    let hand = start_hand(
        rt,
        alloc,
        3,
        Liner::new(None, false),
        theirs,
        taken,
        put,
        resting,
        works,
    )
    .expect(&rt, "a thread");
    assert!(rt; ask(&mut asks, 1, Act::Spawn(Texts::new(alloc))));
    assert!(rt; ask(&mut asks, 1, Act::Write(Text::new(alloc))));
    assert!(rt; ask(&mut asks, 2, Act::Wait));
    answers_come(&rt, &desk, &mut answers);
    assert!(rt; is_line(take_waiting(&rt, &desk, &mut output), 1));
    assert!(rt; asks.put(RingItem::Stop).is_ok());
    let mut end = hand.join(&rt);
    assert!(rt; is_end(output.take(), 1));
    assert!(rt; end.outcome == Outcome::Stopped);
    assert_eq!(rt; end.forced, 1);
    assert_eq!(rt; gate.asked(), 10_008);
    assert!(rt; end.answers.is_some());
    assert!(rt; matches!(end.works.pop(), Some(Work::Ended(Some(_)))));
    Ok(())
}
