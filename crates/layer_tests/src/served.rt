//! Scripts served over keepers in memory.

ghost use Rattle.std.specs.Prelude.{◌≡◌, length, IfOk, ⊤};

use crate::keeper::Liner;
use child_events::{ChildNumbers, HallEvents, fits, read_log, write_log};
use child_hands::{Clock, Gate};
use child_serve::{Audience, Served, Stopping, serve};
use dialogue_sched::Script;
use run_records::Recorder;
use session::{Ending, Pairs, Report, Settings};
use std::alloc::{AllocError, Global};
use std::sync::Wait;
use std::test::Fail;
use std::thread::Threads;
use tcl_words::Text;

/// A script that sends a line to a child, and waits for its echo and the child's output.
pub const CAT: &[u8] = b"spawn cat; send \"hi\\r\"; expect \"hi\\r\\nhi\\r\\n\"";

const LATE: &[u8] = b"spawn p; set timeout 1; expect x {puts got} timeout {puts late}";

/// Creates a script without a time limit.
pub fn script(alloc: Global, source: &[u8]) -> Result<Script, AllocError> {
    Ok(Script {
        source: Text::from_slice(alloc, source)?,
        settings: Settings {
            steps: 1_000_000,
            limit_ms: None,
            vars: Pairs::new(alloc),
            host: false,
            tells_vars: true,
        },
    })
}

/// Creates `count` scripts with this source and without a time limit.
pub fn scripts(alloc: Global, source: &[u8], count: usize) -> Result<Vec<Script>, AllocError>
    ensures { IfOk result (λ scripts. length scripts.items ≡ count) }
{
    let mut scripts = Vec::new(alloc);
    for _ in 0..count {
        let Ok(()) = scripts.push(script(alloc, source)?) else {
            return Err(AllocError);
        };
    }
    Ok(scripts)
}

/// Creates `count` clocks that stand still.
pub fn stopped(alloc: Global, count: usize) -> Result<Vec<Still>, AllocError>
    ensures { IfOk result (λ clocks. length clocks.items ≡ count) }
{
    let mut clocks = Vec::new(alloc);
    for _ in 0..count {
        let Ok(()) = clocks.push(Still) else {
            return Err(AllocError);
        };
    }
    Ok(clocks)
}

/// Returns whether there are `count` reports, each as `is_of_cat` says.
pub fn all_of_cat(served: &Served, count: usize) -> bool {
    let reports = served.reports.as_slice();
    reports.len() == count && reports.iter().all(is_of_cat)
}

/// Returns whether this is the report of [`CAT`] over a child that writes the line that it was
/// sent.
pub fn is_of_cat(report: &Report) -> bool {
    matches!(report.ending, Ending::Exit(0))
        && report.steps == 3
        && report.sent.as_slice() == [3].as_slice()
        && report.transcript.as_slice() == b"spawn cat\r\nhi\r\nhi\r\n".as_slice()
}

/// A clock that stands still.
#[derive(Clone, Copy)]
pub struct Still;

impl Audience for Still {}

impl Stopping for Still {}

impl Clock for Still {
    fn now(&mut self) -> u64 {
        0
    }
}

/// A gate that refuses nothing.
#[derive(Clone, Copy)]
pub struct Open;

impl Gate for Open {
    fn pass(&self, _script: u8, _child: u8, _turn: u64) -> bool {
        true
    }
}

/// A clock that advances by `gain` milliseconds at each reading.
#[derive(Drop)]
struct Gaining {
    moment: u64,
    gain: u64,
}

impl Audience for Gaining {}

impl Stopping for Gaining {}

impl Clock for Gaining {
    fn now(&mut self) -> u64 {
        self.moment = self.moment.saturating_add(self.gain);
        self.moment
    }
}

/// A gate that always gives the same answer.
#[derive(Drop)]
struct Always {
    passes: bool,
}

impl Gate for Always {
    fn pass(&self, _script: u8, _child: u8, _turn: u64) -> bool {
        self.passes
    }
}

/// Keeps the record of a run.
#[derive(Drop)]
pub struct KeptRecord {
    /// The events so far.
    pub events: HallEvents,
    /// Whether an event was refused memory.
    pub is_lost: bool,
}

impl KeptRecord {
    /// Creates an empty record.
    pub fn new(alloc: Global) -> KeptRecord {
        KeptRecord {
            events: HallEvents::new(alloc),
            is_lost: false,
        }
    }
}

impl Recorder for KeptRecord {
    ghost use Rattle.std.specs.Prelude.{⊤};

    ghost notes = { λ _ _ _. ⊤ };

    fn note(&mut self, events: HallEvents) {
        for event in events.list {
            if self.events.push(event).is_err() {
                self.is_lost = true;
            }
        }
    }
}

/// Serves a script with one worker. Returns the results and the record.
fn served<W: Threads + Wait + std::time::Clock + Copy + Send + Drop + 'static>(
    rt: W,
    alloc: Global,
    source: &[u8],
    keeper: Liner,
    gain: u64,
    passes: bool,
) -> Result<(Served, HallEvents), Fail> {
    let mut scripts = Vec::new(alloc);
    scripts.push(script(alloc, source)?)?;
    let mut keepers = Vec::new(alloc);
    keepers.push(keeper)?;
    let mut clocks = Vec::new(alloc);
    clocks.push(Gaining { moment: 0, gain })?;
    let recorder = KeptRecord::new(alloc);
    let (served, record) = serve(
        rt,
        alloc,
        scripts,
        keepers,
        clocks,
        Always { passes },
        recorder,
        true,
    );
    match served {
        Ok(served) if !record.is_lost => Ok((served, record.events)),
        _ => Err(Fail::from("not served")),
    }
}

#[test]
fn a_script_over_a_keeper(rt: HostRuntime) -> Result<(), Fail> {
    let alloc = rt.alloc();
    let (served, logged) = served(rt, alloc, CAT, Liner::new(None, true), 0, true)?;
    assert!(rt; all_of_cat(&served, 1));
    assert!(rt; served.unsettled.is_empty() && served.forced == 0);
    if !fits(ChildNumbers::To999, logged.as_slice()) {
        return Err(Fail::from("no record"));
    }
    let record = write_log(alloc, logged.as_slice())?;
    let again = read_log(alloc, record.as_slice()).ok().ok_or("no log")?;
    if !fits(ChildNumbers::To999, again.as_slice()) {
        return Err(Fail::from("no log"));
    }
    assert_eq!(rt; again.len(), logged.len());
    assert_eq!(rt;
        write_log(alloc, again.as_slice())?.as_slice(),
        record.as_slice()
    );
    Ok(())
}

#[test]
fn a_gate_that_always_refuses(rt: HostRuntime) -> Result<(), Fail> {
    let (served, _) = served(rt, rt.alloc(), CAT, Liner::new(None, true), 0, false)?;
    assert!(rt; all_of_cat(&served, 1));
    assert!(rt; served.unsettled.is_empty() && served.forced == 2);
    Ok(())
}

#[test]
fn a_clock_that_runs(rt: HostRuntime) -> Result<(), Fail> {
    let (served, _) = served(
        rt,
        rt.alloc(),
        LATE,
        Liner::new(Some(rt), true),
        2_000,
        true,
    )?;
    let [report] = served.reports.as_slice() else {
        return Err(Fail::from("no report"));
    };
    assert!(rt; matches!(report.ending, Ending::Exit(0)) && report.steps == 4);
    assert!(rt; report.transcript.as_slice() == b"spawn p\r\nlate\n".as_slice());
    Ok(())
}
