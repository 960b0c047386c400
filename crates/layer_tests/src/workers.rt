//! Two workers whose gate and clocks wait for one another.

use crate::keeper::liners;
use crate::served::{CAT, all_of_cat, scripts};
use child_hands::{Clock, Gate};
use child_serve::{Audience, Stopping, serve};
use run_records::NoRecorder;
use std::alloc::{AllocError, Global};
use std::sync::Arc;
use std::sync::atomic::{AtomicBool, AtomicU64, Ordering};
use std::test::Fail;
use std::thread;
use std::time::Duration;

/// The most tries of a wait for the other worker, a millisecond each.
const TURNS: u64 = 10_000;

fn pause(rt: HostRuntime) {
    thread::sleep(&rt, Duration::from_millis(1));
}

/// The progress of the workers: for each, the number of requests that came and passed, and of
/// readings begun.
#[derive(Drop)]
struct Course {
    came: [AtomicU64; 2],
    passed: [AtomicU64; 2],
    begun: [AtomicU64; 2],
    /// Whether a wait ended without success.
    gave_up: AtomicBool,
}

impl Course {
    fn new() -> Course {
        Course {
            came: [AtomicU64::new(0), AtomicU64::new(0)],
            passed: [AtomicU64::new(0), AtomicU64::new(0)],
            begun: [AtomicU64::new(0), AtomicU64::new(0)],
            gave_up: AtomicBool::new(false),
        }
    }
}

/// Holds script 1's first request until script 2's second one came, so that script 2's first was
/// answered. Holds script 2's second request until script 1's first passed.
#[derive(Drop)]
struct Crossing {
    rt: HostRuntime,
    course: Arc<Course>,
}

impl Gate for Crossing {
    fn pass(&self, script: u8, _child: u8, turn: u64) -> bool {
        pause(self.rt);
        let (mine, other) = if script == 1 { (0, 1) } else { (1, 0) };
        let course = &*self.course;
        let number = course.passed[mine].load(Ordering::SeqCst);
        course.came[mine].store(number.saturating_add(1), Ordering::SeqCst);
        let passes = match (script, number) {
            (1, 0) => course.came[other].load(Ordering::SeqCst) > 1,
            (2, 1) => course.passed[other].load(Ordering::SeqCst) > 0,
            _ => true,
        };
        if passes {
            course.passed[mine].fetch_add(1, Ordering::SeqCst);
        } else if turn.saturating_add(1) == TURNS {
            course.gave_up.store(true, Ordering::SeqCst);
        }
        passes
    }
}

/// Waits in each of its first two readings until the other worker has begun as many.
#[derive(Drop)]
struct Meeting {
    rt: HostRuntime,
    mine: usize,
    course: Arc<Course>,
}

impl Audience for Meeting {}

impl Stopping for Meeting {}

impl Clock for Meeting {
    fn now(&mut self) -> u64 {
        let course = &*self.course;
        let other = if self.mine == 0 { 1 } else { 0 };
        let own = if self.mine == 0 { 0 } else { 1 };
        let number = course.begun[own]
            .fetch_add(1, Ordering::SeqCst)
            .wrapping_add(1);
        if number > 2 {
            return 0;
        }
        for _ in 0..TURNS {
            if course.begun[other].load(Ordering::SeqCst) >= number {
                return 0;
            }
            pause(self.rt);
        }
        course.gave_up.store(true, Ordering::SeqCst);
        0
    }
}

fn clock_of(rt: HostRuntime, mine: usize, course: &Arc<Course>) -> Result<Meeting, AllocError> {
    Ok(Meeting {
        rt,
        mine,
        course: Arc::try_clone(course)?,
    })
}

#[test]
fn workers_wait_for_one_another(rt: HostRuntime) -> Result<(), Fail> {
    let alloc: Global = rt.alloc();
    let course = Arc::new(alloc, Course::new())?;
    let scripts = scripts(alloc, CAT, 2)?;
    let keepers = liners(alloc, 2)?;
    let mut clocks = Vec::new(alloc);
    clocks.push(clock_of(rt, 0, &course)?)?;
    clocks.push(clock_of(rt, 1, &course)?)?;
    let gate = Crossing {
        rt,
        course: Arc::try_clone(&course)?,
    };
    let (served, _) = serve(rt, alloc, scripts, keepers, clocks, gate, NoRecorder, false);
    let served = served.ok().ok_or("not served")?;
    for worker in 0..2usize {
        assert_eq!(rt; course.passed[worker].load(Ordering::SeqCst), 2);
    }
    assert!(rt; !course.gave_up.load(Ordering::SeqCst) && served.forced == 0);
    assert!(rt; all_of_cat(&served, 2) && served.unsettled.is_empty());
    Ok(())
}
