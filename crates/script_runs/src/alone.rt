//! A script that runs as a command: what it shows is printed as it appears.

use child_events::Counted;
use child_hands::Clock;
use child_pipes::{Cancellation, Stop, Wall};
use child_serve::{Audience, Stopping};
use dialogue_sched::Hall;
use report_texts::write_all;
use secret_words::Masker;
use session::Report;
use std::alloc::{AllocError, Global};
use std::io::Write;
use std::mem;
use std::sync::{Arc, Mutex, Wait};
use std::time::Clock as SystemClock;
use tcl_words::Text;

/// What is known of a script once it has ended.
#[derive(Drop)]
pub struct Played {
    /// Its report.
    pub report: Option<Report>,
    /// Whether a write of what it showed failed. Then it was given up.
    pub is_lost: bool,
}

impl Played {
    /// Creates the state before anything is known.
    pub fn new() -> Played {
        Played {
            report: None,
            is_lost: false,
        }
    }
}

/// The clock of such a script. It also prints what the script shows, and keeps its report.
#[derive(Drop)]
pub struct Player<R: SystemClock + Drop, O: Drop> {
    rt: R,
    alloc: Global,
    wall: Wall<R>,
    out: O,
    /// Puts names in place of secrets, if there are any.
    masker: Option<Masker>,
    is_lost: bool,
    cancellation: Option<Arc<Cancellation>>,
    stop: Arc<Stop>,
    played: Arc<Mutex<Played>>,
}

impl<R: SystemClock + Drop, O: Drop> Player<R, O> {
    /// Creates the clock, and enters it in `stop`.
    pub fn new(
        rt: R,
        alloc: Global,
        wall: Wall<R>,
        out: O,
        masker: Option<Masker>,
        cancellation: Arc<Cancellation>,
        stop: Arc<Stop>,
        played: Arc<Mutex<Played>>,
    ) -> Player<R, O> {
        stop.enter();
        Player {
            rt,
            alloc,
            wall,
            out,
            masker,
            is_lost: false,
            cancellation: Some(cancellation),
            stop,
            played,
        }
    }
}

impl<R: SystemClock + Wait + Copy + Drop, O: Write + Copy + Drop> Player<R, O> {
    /// Prints bytes. If memory for them was refused, or the write fails, the script is given up.
    fn print(&mut self, bytes: Result<Text, AllocError>) {
        let mut out = Counted::new(self.out);
        self.is_lost = match bytes {
            Ok(bytes) => write_all(&mut out, bytes.as_slice()).is_err(),
            Err(_) => true,
        };
    }

    /// Prints what was held back of secrets, since nothing comes after it.
    fn print_rest(&mut self) {
        if self.is_lost {
            return;
        }
        if let Some(masker) = &mut self.masker {
            let rest = masker.rest(self.alloc);
            self.print(rest);
        }
    }

    /// Keeps the script's report, and cancels its requests, unless that was done before.
    fn end(&mut self, hall: &Hall) {
        let Some(cancellation) = mem::take(&mut self.cancellation) else {
            return;
        };
        self.print_rest();
        let mut played = self.played.lock(&self.rt);
        played.report = hall.report(1);
        played.is_lost = self.is_lost;
        drop(played);
        cancellation.cancel();
    }
}

impl<R: SystemClock + Drop, O: Drop> Clock for Player<R, O> {
    fn now(&mut self) -> u64 {
        self.stop.lowered(self.wall.now())
    }
}

impl<R: SystemClock + Drop, O: Drop> Stopping for Player<R, O> {
    fn is_stopped(&mut self) -> bool {
        self.is_lost || self.stop.is_due(self.wall.now())
    }
}

impl<R: SystemClock + Wait + Copy + Drop, O: Write + Copy + Drop> Audience for Player<R, O> {
    fn hear(&mut self, _place: usize, bytes: &[u8]) {
        if self.is_lost {
            return;
        }
        if let Some(masker) = &mut self.masker {
            let shown = masker.take(self.alloc, bytes);
            self.print(shown);
            return;
        }
        let mut out = Counted::new(self.out);
        self.is_lost = write_all(&mut out, bytes).is_err();
    }

    fn part(&mut self, _place: usize, hall: &Hall) {
        self.end(hall);
    }

    fn leave(&mut self, hall: &Hall) {
        self.end(hall);
        self.stop.leave();
    }
}
