//! The thread that watches over the children of a run.

use crate::held::Name;
use crate::programs::Programs;
use crate::reaper::{Reaper, Terms};
use crate::stop::Stop;
use crate::wall::Wall;
use child_hands::Clock as _;
use feed_rings::{Bell, Ringer};
use std::alloc::{AllocError, Global};
use std::io::Write;
use std::sync::atomic::{AtomicBool, Ordering};
use std::sync::{Arc, Wait};
use std::thread;
use std::thread::{JoinHandle, Threads};
use std::time::{Clock, Duration, Instant};
use tcl_words::Text;

/// The time between two checks while scripts run, in milliseconds.
const PAUSE: u64 = 100;

/// The most milliseconds between two checks after all scripts have ended.
const LAST_PAUSE: u64 = 16;

/// How long children may take to end after all scripts have ended, in milliseconds, in addition to
/// twice the grace period.
const REST: u64 = 3_000;

/// The time after which the children that the run waits for are named, in milliseconds.
const QUIET: u64 = 1_500;

/// The stack size of the thread, in bytes.
const STACK: usize = 262_144;

/// A thread that watches over the children of a run. It waits for those that have ended, and ends
/// those that outlive their scripts.
#[derive(Drop)]
pub struct Watch {
    reaper: Reaper,
    stop: Arc<Stop>,
    is_over: Arc<AtomicBool>,
    ringer: Ringer,
    thread: Option<JoinHandle<()>>,
}

impl Watch {
    /// Starts to watch. If no thread can be started, only `stop` checks the children. After all
    /// scripts have ended, the children that the run still waits for are named on `errors`.
    pub fn start<
        R: Programs + Threads + Wait + Clock + Copy + Send + Drop + 'static,
        E: Write + Copy + Send + Drop + 'static,
    >(
        rt: R,
        alloc: Global,
        wall: &Wall<R>,
        reaper: Reaper,
        stop: Arc<Stop>,
        errors: E,
    ) -> Result<Watch, AllocError> {
        let bell = Bell::new(alloc)?;
        let ringer = bell.ringer()?;
        let is_over = Arc::new(alloc, AtomicBool::new(false))?;
        let told = Arc::try_clone(&is_over)?;
        let theirs = reaper.shared()?;
        let stop_again = Arc::try_clone(&stop)?;
        let start = wall.start();
        let started = thread::Builder::new().stack_size(STACK).spawn(
            &rt,
            move || look_after(rt, alloc, start, theirs, stop_again, bell, told, errors),
        );
        Ok(Watch {
            reaper,
            stop,
            is_over,
            ringer,
            thread: started.ok(),
        })
    }

    /// Waits until no process is left of any child, for at most twice the grace period and three
    /// seconds. All scripts must have ended.
    pub fn stop<R: Programs + Threads + Wait + Clock + Copy + Drop, E: Write + Copy + Drop>(
        self,
        rt: R,
        alloc: Global,
        errors: E,
    ) {
        let Watch {
            reaper,
            stop,
            is_over,
            ringer,
            thread,
        } = self;
        is_over.store(true, Ordering::SeqCst);
        ringer.ring();
        match thread {
            Some(thread) => {
                thread.join(&rt);
            }
            None => end_all(&rt, alloc, &reaper, &stop, &mut Wall::new(rt), errors),
        }
    }
}

/// Checks children until the scripts have ended and no process is left of any child.
fn look_after<R: Programs + Wait + Clock + Copy + Drop, E: Write + Copy + Drop>(
    rt: R,
    alloc: Global,
    start: Option<Instant>,
    reaper: Reaper,
    stop: Arc<Stop>,
    bell: Bell,
    is_over: Arc<AtomicBool>,
    errors: E,
) {
    let mut clock = Wall::since(rt, start);
    for _ in rt.forever() {
        if is_over.load(Ordering::SeqCst) {
            break;
        }
        let moment = clock.now();
        stop.look(&rt, moment);
        if stop.is_held(moment) {
            rt.signal(alloc, "KILL", [libc::getpid().cast_unsigned()].as_slice());
        }
        reaper.sweep(&rt, reaper.terms(), moment);
        bell.rest_at_most(&rt, PAUSE);
    }
    end_all(&rt, alloc, &reaper, &stop, &mut clock, errors);
}

/// Returns when children are ended after all scripts have ended: at once if a signal stopped the
/// run.
fn terms_of(reaper: &Reaper, stop: &Stop) -> Terms {
    match stop.signal() {
        Some(_) => Terms {
            grace: 0,
            ..reaper.terms()
        },
        None => reaper.terms(),
    }
}

/// Appends a number.
fn push_number(alloc: Global, text: &mut Text, number: u64) -> Result<(), AllocError> {
    let digits = number.to_string(alloc)?;
    text.extend(digits.as_bytes())
}

/// Returns the line that names the children left.
fn line_of(alloc: Global, names: &[Name]) -> Result<Text, AllocError> {
    let mut text = Text::from_slice(alloc, b"exprun: waits for")?;
    for at in 0..names.len() {
        text.extend(if at == 0 { b" child " } else { b", child " })?;
        push_number(alloc, &mut text, u64::from(names[at].child))?;
        text.extend(b" of script ")?;
        push_number(alloc, &mut text, names[at].script)?;
    }
    text.push(b'\n')?;
    Ok(text)
}

/// Names the children that have processes left. Does nothing if memory is refused or a write fails.
fn tell_left<E: Write + Drop>(rt: &impl Wait, alloc: Global, reaper: &Reaper, mut errors: E) {
    let Ok(names) = reaper.left(rt) else {
        return;
    };
    if let Ok(line) = line_of(alloc, names.as_slice()) {
        drop(errors.write_all(line.as_slice()));
    }
}

/// Checks children until no process is left of any, or their time is over.
fn end_all<R: Programs + Wait + Clock + Copy + Drop, E: Write + Copy + Drop>(
    rt: &R,
    alloc: Global,
    reaper: &Reaper,
    stop: &Stop,
    clock: &mut Wall<R>,
    errors: E,
) {
    let start = clock.now();
    let most = reaper.terms().grace.saturating_mul(2).saturating_add(REST);
    let mut pause = 1;
    let mut is_told = false;
    for _ in rt.forever() {
        let moment = clock.now();
        stop.look(rt, moment);
        reaper.sweep(rt, terms_of(reaper, stop), moment);
        if reaper.is_empty(rt) || moment.saturating_sub(start) > most {
            return;
        }
        if !is_told && moment.saturating_sub(start) >= QUIET {
            is_told = true;
            tell_left(rt, alloc, reaper, errors);
        }
        thread::sleep(rt, Duration::from_millis(pause));
        pause = pause.saturating_mul(2).min(LAST_PAUSE);
    }
}
