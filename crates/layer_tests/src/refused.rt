//! Runs in which tests/refuse refuses each growth in turn. Either the result is right, or memory
//! was refused. Then the call returns an error, or one script's report says so and the others are
//! right.

ghost use Rattle.std.specs.Prelude.{◌<◌, ◌≤◌};

use crate::keeper::liners;
use crate::served::{CAT, KeptRecord, Open, is_of_cat, script, scripts, stopped};
use child_events::{HallEvent, own_event, read_log};
use child_serve::{Served, serve};
use dialogue_sched::{Script, run_all};
use session::{Ending, Report, Session};
use std::alloc::Global;
use std::sync::Wait;
use std::test::Fail;
use std::thread::Threads;

/// The error of a test that met a refusal and nothing else.
const REFUSED: &str = "memory was refused";

const BROKEN: &[u8] = b"ok 1 1 5\nok 2 1 5\nbad 1 1 10 broken\nok 2 1 10\nout 2 1 20 68690a\n";

fn is_refused(report: &Report) -> bool {
    matches!(report.ending, Ending::Memory)
}

/// Returns whether this is the report of [`CAT`] after a failed write.
fn is_of_broken(report: &Report) -> bool {
    matches!(report.ending, Ending::Error)
        && report.steps == 2
        && report.sent.as_slice() == [0].as_slice()
        && report.transcript.as_slice() == b"spawn cat\r\n".as_slice()
        && report.fault.as_slice() == b"write failed: broken".as_slice()
}

// Runs two scripts, of which the first can't write.
#[test]
fn run_of_two(rt: HostRuntime) -> Result<(), Fail> {
    let alloc = rt.alloc();
    let scripts = scripts(alloc, CAT, 2)?;
    let events = read_log(alloc, BROKEN)?;
    let reports = run_all(alloc, scripts, events.as_slice())?;
    judged(reports.as_slice())
}

/// Checks the reports of two scripts, of which the first can't write. `REFUSED` if one was refused
/// memory and the other is right.
fn judged(reports: &[Report]) -> Result<(), Fail> {
    let [first, second] = reports else {
        return Err(Fail::from("not two reports"));
    };
    if is_of_broken(first) && is_of_cat(second) {
        return Ok(());
    }
    if is_refused(first) && is_of_cat(second) || is_of_broken(first) && is_refused(second) {
        return Err(Fail::from(REFUSED));
    }
    Err(Fail::from("another report"))
}

/// Passes the events of script 1 to a session, one by one.
fn feed_all(alloc: Global, session: &mut Session, events: &[HallEvent]) -> Result<(), Fail> {
    for event in events {
        if let Some(event) = own_event(alloc, 1, event)? {
            session.feed(event);
        }
    }
    Ok(())
}

/// Returns the report of a session over the events of a log.
fn report_of(alloc: Global, source: &[u8], log: &[u8]) -> Result<Report, Fail> {
    let events = read_log(alloc, log)?;
    let Script { source, settings } = script(alloc, source)?;
    let mut session = Session::new(alloc, source, settings)?;
    let fed = feed_all(alloc, &mut session, events.as_slice());
    let report = session.into_report();
    if let Err(fault) = fed {
        drop(report);
        return Err(fault);
    }
    Ok(report)
}

/// Returns whether a script ended with exit status 0 and this transcript. `REFUSED` if it was
/// refused memory.
fn is_well(report: &Report, transcript: &[u8]) -> Result<bool, Fail> {
    if is_refused(report) {
        return Err(Fail::from(REFUSED));
    }
    Ok(matches!(report.ending, Ending::Exit(0)) && report.transcript.as_slice() == transcript)
}

/// Returns whether a session over a log ends with exit status 0 and this transcript. `REFUSED` if
/// it was refused memory.
fn ends_with(alloc: Global, source: &[u8], log: &[u8], transcript: &[u8]) -> Result<bool, Fail> {
    let report = report_of(alloc, source, log)?;
    let well = is_well(&report, transcript);
    drop(report);
    well
}

#[test]
fn session_with_indices(rt: HostRuntime) -> Result<(), Fail> {
    let well = ends_with(
        rt.alloc(),
        b"spawn p; expect -indices -re {b(b*).*(k+)}; foreach n {0 1 2} {puts \"$expect_out($n,start) $expect_out($n,end)\"}",
        b"ok 1 1 1\nout 1 1 2 616262626361626b6b6b6b610a\n",
        b"spawn p\r\nabbbcabkkkka\r\n1 10\n2 3\n10 10\n",
    )?;
    assert!(rt; well);
    Ok(())
}

#[test]
fn session_whose_spawn_fails(rt: HostRuntime) -> Result<(), Fail> {
    let well = ends_with(
        rt.alloc(),
        b"if {[catch {spawn nosuch} m]} {puts $m}",
        b"bad 1 1 3 notfound\n",
        b"spawn nosuch\r\ncouldn't execute \"nosuch\": notfound\n",
    )?;
    assert!(rt; well);
    Ok(())
}

#[test]
fn session_that_waits_for_children(rt: HostRuntime) -> Result<(), Fail> {
    let well = ends_with(
        rt.alloc(),
        b"spawn p; puts [wait]; spawn q; puts [wait]; catch {wait} m; puts $m",
        b"ok 1 1 1\nexit 1 1 2 3\nok 1 2 3\nkilled 1 2 4\n",
        b"spawn p\r\n1 exp1 0 3\nspawn q\r\n2 exp2 0 -1 CHILDKILLED unknown unknown\nspawn id exp2 already waited for\n",
    )?;
    assert!(rt; well);
    Ok(())
}

#[test]
fn session_of_expressions(rt: HostRuntime) -> Result<(), Fail> {
    let well = ends_with(
        rt.alloc(),
        b"puts [expr {-7 / 2}]; puts [expr {-7 % 2}]; catch {expr {-9223372036854775808 / -1}} m; puts $m; catch {expr {1 / 0}} m; puts $m; puts [expr {0 && [exit 9]}]",
        b"",
        b"-4\n1\ninteger overflow\ndivide by zero\n0\n",
    )?;
    assert!(rt; well);
    Ok(())
}

#[test]
fn session_that_writes_a_list(rt: HostRuntime) -> Result<(), Fail> {
    let well = ends_with(
        rt.alloc(),
        b"set l [list x {b c} {} a\\{b]; puts $l",
        b"",
        b"x {b c} {} a\\{b\n",
    )?;
    assert!(rt; well);
    Ok(())
}

/// Serves three scripts with this number of workers. Returns whether all reports are those of
/// [`CAT`]. `REFUSED` if one isn't, or a part of the record is lost.
fn serves_three<W: Threads + Wait + std::time::Clock + Copy + Send + Drop + 'static>(
    rt: W,
    alloc: Global,
    workers: usize,
) -> Result<bool, Fail>
    requires { (0 < workers) × (workers ≤ 64) }
{
    let scripts = scripts(alloc, CAT, 3)?;
    let keepers = liners(alloc, 3)?;
    let clocks = stopped(alloc, workers)?;
    let recorder = KeptRecord::new(alloc);
    let (served, record) = serve(rt, alloc, scripts, keepers, clocks, Open, recorder, true);
    if record.is_lost {
        return Err(Fail::from(REFUSED));
    }
    are_of_cat(&served?)
}

/// Returns whether three reports are those of [`CAT`], and no child is unsettled. `REFUSED` if one
/// report isn't.
fn are_of_cat(served: &Served) -> Result<bool, Fail> {
    let reports = served.reports.as_slice();
    let others = reports.iter().filter(|report| !is_of_cat(report)).count();
    if reports.len() == 3 && others == 1 {
        return Err(Fail::from(REFUSED));
    }
    Ok(reports.len() == 3 && others == 0 && served.unsettled.is_empty())
}

#[test]
fn three_by_one_worker(rt: HostRuntime) -> Result<(), Fail> {
    assert!(rt; serves_three(rt, rt.alloc(), 1)?);
    Ok(())
}

#[test]
fn three_by_three_workers(rt: HostRuntime) -> Result<(), Fail> {
    assert!(rt; serves_three(rt, rt.alloc(), 3)?);
    Ok(())
}
