//! Steps a hall of scripts.

use child_events::{Answer, HallEvent, What};
use dialogue_sched::{Hall, HallFault, HallRefusal, Script};
use session::{Act, Ending, Pairs, Report, Settings};
use std::alloc::Global;
use std::process::Abort;
use std::test::Fail;
use tcl_words::Text;

fn script(alloc: Global, source: &[u8]) -> Result<Script, Fail> {
    Ok(Script {
        source: Text::from_slice(alloc, source)?,
        settings: Settings {
            steps: 1_000_000,
            limit_ms: None,
            vars: Pairs::new(alloc),
            host: false,
            tells_vars: true,
        },
    })
}

fn hall(alloc: Global, sources: &[&[u8]]) -> Result<Hall, Fail> {
    let mut scripts = Vec::new(alloc);
    for source in sources {
        scripts.push(script(alloc, source)?)?;
    }
    let opened = Hall::new(alloc, scripts);
    Ok(opened.ok().ok_or("no hall")?)
}

fn answered(script: u8, child: u16, moment: u64) -> HallEvent {
    HallEvent::Child {
        script,
        child,
        moment,
        what: What::Answer(Answer::Ok),
    }
}

fn output(alloc: Global, len: usize) -> Result<HallEvent, Fail> {
    let mut piece = Text::new(alloc);
    for _ in 0..len {
        piece.push(b'b')?;
    }
    Ok(HallEvent::Child {
        script: 1,
        child: 1,
        moment: 3,
        what: What::Out(piece),
    })
}

const DIALOGUE: &[u8] = b"spawn p; send \"a\\n\"; expect -ex b; puts done";

fn step(hall: &mut Hall, event: HallEvent) -> Result<(), Fail> {
    hall.step(event).ok().ok_or("refused")?;
    Ok(())
}

fn is_refused(hall: &mut Hall, event: HallEvent, why: HallRefusal) -> bool {
    hall.step(event).is_err_and(|r| r == why)
}

/// Returns the report of the first script so far.
fn first_report(hall: &Hall) -> Result<Report, Fail> {
    let report = hall.report(1);
    Ok(report.ok_or("no report")?)
}

/// Returns whether the first script waits, after the request of its start only.
fn waits_for_its_start(hall: &Hall) -> Result<bool, Fail> {
    let report = first_report(hall)?;
    let waits = matches!(report.ending, Ending::Waiting) && report.requests.len() == 1;
    drop(report);
    Ok(waits)
}

// Events of no script, of no child, too late and too long are refused. The first reason counts, and
// the hall doesn't change.
#[test]
fn refusals(rt: HostRuntime) -> Result<(), Fail> {
    let alloc = rt.alloc();
    let piece = output(alloc, 4097)?;
    let mut hall = hall(alloc, &[DIALOGUE])?;
    refuses(&rt, &mut hall, piece);
    let waits = waits_for_its_start(&hall);
    drop(hall);
    assert!(rt; waits?);
    Ok(())
}

/// Passes an event for each reason. `piece` is too long.
fn refuses<R: Abort>(rt: &R, hall: &mut Hall, piece: HallEvent) {
    let late = 9_000_000_000_000_001;
    assert!(rt; is_refused(hall, answered(65, 17, 1), HallRefusal::NoSuchScript));
    assert!(rt; is_refused(hall, answered(1, 17, late), HallRefusal::NoSuchChild));
    assert!(rt; is_refused(hall, answered(1, 1, late), HallRefusal::MomentTooLarge));
    assert!(rt; is_refused(hall, piece, HallRefusal::PieceTooLong));
    assert!(rt; hall.report(2).is_none() && hall.report(0).is_none());
}

/// Returns whether the next request of the first script starts its first child.
fn starts_a_child(hall: &mut Hall) -> bool {
    match hall.request(1) {
        Some(request) => matches!(request.act, Act::Spawn(_)) && request.child == 1,
        None => false,
    }
}

/// Returns whether the next request of the first script is a write.
fn writes(hall: &mut Hall) -> bool {
    match hall.request(1) {
        Some(request) => matches!(request.act, Act::Write(_)),
        None => false,
    }
}

/// Returns whether the first script has ended with the expected transcript and writes, and has no
/// further request.
fn is_done(hall: &mut Hall) -> Result<bool, Fail> {
    let report = first_report(hall)?;
    let is_shown = report.transcript.as_slice() == b"spawn p\r\na\r\nbdone\n".as_slice();
    let is_sent = report.sent.as_slice() == [2].as_slice();
    let is_over = matches!(report.ending, Ending::Exit(0));
    drop(report);
    Ok(is_over && is_shown && is_sent && hall.request(1).is_none())
}

// Each request is handed out once, as soon as events decide it.
#[test]
fn requests_once(rt: HostRuntime) -> Result<(), Fail> {
    let alloc = rt.alloc();
    let output = output(alloc, 1)?;
    let mut hall = hall(alloc, &[DIALOGUE, b"puts x"])?;
    let done = goes_on(&rt, &mut hall, output);
    drop(hall);
    assert!(rt; done?);
    Ok(())
}

/// Plays a dialogue with this output. Returns whether it is done at the end.
fn goes_on<R: Abort>(rt: &R, hall: &mut Hall, output: HallEvent) -> Result<bool, Fail> {
    assert!(rt; starts_a_child(hall));
    assert!(rt;
        hall.request(1).is_none() && hall.request(2).is_none() && hall.request(3).is_none()
    );
    step(hall, answered(1, 1, 1))?;
    assert!(rt; writes(hall) && hall.request(1).is_none());
    step(hall, answered(1, 1, 2))?;
    step(hall, output)?;
    step(hall, HallEvent::Tick { moment: 9 })?;
    is_done(hall)
}

/// Creates a source that is one byte too long.
fn long_source(alloc: Global) -> Result<Text, Fail> {
    let mut long = Text::new(alloc);
    for _ in 0..1_048_577 {
        long.push(b' ')?;
    }
    Ok(long)
}

/// Appends `count` scripts.
fn push_scripts(alloc: Global, scripts: &mut Vec<Script>, count: usize) -> Result<(), Fail> {
    for _ in 0..count {
        scripts.push(script(alloc, b"puts x")?)?;
    }
    Ok(())
}

/// Returns why there is no hall of this source with `before` scripts before it and `behind` after
/// it.
fn fault_of(
    alloc: Global,
    before: usize,
    source: &[u8],
    behind: usize,
) -> Result<Option<HallFault>, Fail> {
    let mut scripts = Vec::new(alloc);
    push_scripts(alloc, &mut scripts, before)?;
    scripts.push(script(alloc, source)?)?;
    push_scripts(alloc, &mut scripts, behind)?;
    Ok(Hall::new(alloc, scripts).err())
}

/// Returns whether a 65th script is an error, before a source that is too long, and whether such a
/// source is an error otherwise.
fn tells_faults(alloc: Global, long: &[u8]) -> Result<bool, Fail> {
    let many = fault_of(alloc, 0, long, 64)?;
    let second = fault_of(alloc, 1, long, 0)?;
    Ok(many == Some(HallFault::TooManyScripts) && second == Some(HallFault::SourceTooLong(2)))
}

#[test]
fn opening(rt: HostRuntime) -> Result<(), Fail> {
    let alloc = rt.alloc();
    let long = long_source(alloc)?;
    let told = tells_faults(alloc, long.as_slice());
    drop(long);
    assert!(rt; told?);
    Ok(())
}

// A hall may have no scripts.
#[test]
fn no_scripts(rt: HostRuntime) -> Result<(), Fail> {
    let empty = hall(rt.alloc(), &[])?;
    let count = empty.len();
    drop(empty);
    assert_eq!(rt; count, 0);
    Ok(())
}

const LOOP: &[u8] = b"for {set i 0} {$i < 10000} {incr i} {append a x}; spawn p; expect zz";

/// Returns whether a script that waits after a long loop still waits after this many pieces of
/// output.
fn waits(alloc: Global, pieces: usize) -> Result<bool, Fail> {
    let mut hall = hall(alloc, &[LOOP])?;
    let waits = goes_on_waiting(alloc, &mut hall, pieces);
    drop(hall);
    waits
}

/// Returns the same for the first script of a hall.
fn goes_on_waiting(alloc: Global, hall: &mut Hall, pieces: usize) -> Result<bool, Fail> {
    step(hall, answered(1, 1, 1))?;
    for _ in 0..pieces {
        step(hall, output(alloc, 1)?)?;
    }
    let report = first_report(hall)?;
    let told = report.transcript.len().checked_sub(9) == Some(pieces);
    let waits = matches!(report.ending, Ending::Waiting) && report.steps == 30_004 && told;
    drop(report);
    Ok(waits)
}

// tests/growths counts how often this test and the next one allocate memory.
#[test]
fn one_piece(rt: HostRuntime) -> Result<(), Fail> {
    assert!(rt; waits(rt.alloc(), 1)?);
    Ok(())
}

#[test]
fn eleven_pieces(rt: HostRuntime) -> Result<(), Fail> {
    assert!(rt; waits(rt.alloc(), 11)?);
    Ok(())
}
