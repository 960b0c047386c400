//! Tells whether exprun itself closed a child's output.

ghost use Rattle.std.specs.Prelude.{◌≡◌};
ghost use Rattle.std.specs.List.{list_any};
ghost use Rattle.course_texts.specs.Closing.{is_over as is_over_of, is_close as is_close_of, is_loss as is_loss_of, closes as closes_of, is_closed as is_closed_of};

use child_events::{HallEvent, What};
use expect_core::Act;
use session::{Ending, Request};

/// Returns whether a script has ended.
fn is_over(ending: Ending) -> bool
    ensures { result ≡ is_over_of ending }
{
    !matches!(&ending, Ending::Waiting)
}

fn is_close(act: &Act) -> bool
    ensures { result ≡ is_close_of act.now }
{
    matches!(act, Act::Close)
}

/// Returns whether reading a child's output failed.
fn is_loss(what: &What) -> bool
    ensures { result ≡ is_loss_of what.now }
{
    matches!(what, What::ReadFail(_))
}

/// Returns whether a request closes this child.
fn closes(child: u16, request: &Request) -> bool
    ensures { result ≡ closes_of child request.now }
{
    u16::from(request.child) == child && is_close(&request.act)
}

/// Returns whether one of the requests closes this child.
fn has_closed(requests: &[Request], child: u16) -> bool
    ensures { result ≡ list_any (closes_of child) requests.now }
{
    requests.iter().any(|request| closes(child, request))
}

/// Returns whether an event is the end of an output that exprun itself closed. Then reading failed
/// after the script had ended, or had asked to close the child.
pub(crate) fn is_closed(requests: &[Request], ending: Ending, event: &HallEvent) -> bool
    ensures { result ≡ is_closed_of requests.now ending event.now }
{
    match event {
        HallEvent::Child { child, what, .. } => {
            is_loss(what) && (is_over(ending) || has_closed(requests, *child))
        }
        HallEvent::Tick { .. } => false,
    }
}
