//! The results of served scripts.

ghost use Rattle.std.specs.Prelude.{◌≡◌, IfOk};
ghost use Rattle.child_serve.specs.Turns.{in_turn, TakesFirst, TakesTurn};
ghost use Rattle.child_serve.specs.Served.{IsApart, IsAssembled};

use child_hands::LogItem;
use dialogue_sched::Reports;
use feed_rings::FeedIn;
use session::Report;
use std::alloc::{AllocError, Global};

/// A child whose output may be incomplete in the record.
#[derive(Clone, Copy, PartialEq, Eq)]
pub struct Unsettled {
    /// The number of its script.
    pub script: u8,
    /// The number of the child.
    pub child: u8,
}

/// The results of scripts: of all, or of those of one worker.
#[derive(Drop)]
pub struct Served {
    /// Their reports, in order.
    pub reports: Reports,
    /// The children whose output may be incomplete in the record.
    pub unsettled: Vec<Unsettled>,
    /// The number of requests that were carried out although the gate refused them.
    pub forced: u64,
    /// Whether scripts were given up before they had ended.
    pub stopped: bool,
}

/// The results of one worker's scripts, and the ring of their record.
#[derive(Drop)]
pub struct WorkerResult {
    /// The results.
    pub served: Served,
    /// The ring of the record.
    pub log: FeedIn<LogItem>,
}

/// Takes the first report of the first list, and makes that list the last. `None` if it has none.
fn next_in_turn(parts: &mut Vec<Reports>) -> Result<Option<Report>, AllocError>
    ensures { IfOk result (λ r. TakesTurn parts.old.items r parts.new.items) }
{
    if parts.is_empty() {
        return Ok(None);
    }
    let mut part = parts.remove(0);
    let Some(report) = first_of(&mut part) else {
        return Ok(None);
    };
    parts.push(part)?;
    Ok(Some(report))
}

/// Takes the first report.
fn first_of(reports: &mut Reports) -> Option<Report>
    ensures { TakesFirst reports.old result reports.new }
{
    if reports.list.is_empty() {
        return None;
    }
    Some(reports.list.remove(0))
}

/// Takes up to `count` reports, one of each worker in turn.
fn all_in_turn(alloc: Global, count: usize, parts: Vec<Reports>) -> Result<Reports, AllocError>
    ensures { IfOk result (λ rs. rs ≡ in_turn count parts.items) }
{
    let mut parts = parts;
    let mut list = Vec::new(alloc);
    for _ in 0..count {
        let Some(report) = next_in_turn(&mut parts)? else {
            return Ok(Reports { list });
        };
        list.push(report)?;
    }
    Ok(Reports { list })
}

/// The workers' results, by kind.
#[derive(Drop)]
struct Apart {
    reports: Vec<Reports>,
    unsettled: Vec<Unsettled>,
    forced: u64,
    stopped: bool,
}

fn taken_apart(alloc: Global, parts: Vec<Served>) -> Result<Apart, AllocError>
    ensures { IfOk result (λ a. IsApart parts.items a) }
{
    let mut reports = Vec::new(alloc);
    let mut unsettled = Vec::new(alloc);
    let mut forced: u64 = 0;
    let mut stopped = false;
    for served in parts {
        reports.push(served.reports)?;
        unsettled.extend_from_slice(served.unsettled.as_slice())?;
        forced = forced.saturating_add(served.forced);
        stopped = stopped || served.stopped;
    }
    Ok(Apart {
        reports,
        unsettled,
        forced,
        stopped,
    })
}

/// Combines the results of all workers. `count` is the number of scripts. These were distributed to
/// the workers in turn.
pub fn assembled(alloc: Global, count: usize, parts: Vec<Served>) -> Result<Served, AllocError>
    ensures { IfOk result (λ s. IsAssembled count parts.items s) }
{
    let apart = taken_apart(alloc, parts)?;
    let reports = all_in_turn(alloc, count, apart.reports)?;
    Ok(Served {
        reports,
        unsettled: apart.unsettled,
        forced: apart.forced,
        stopped: apart.stopped,
    })
}
