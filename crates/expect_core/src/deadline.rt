//! How long a waiting dialogue goes on waiting.

ghost use Rattle.std.specs.Prelude.{◌≡◌};
ghost use Rattle.expect_core.specs.Deadlines.{sooner as sooner_of, as_moment as as_moment_of, soonest as soonest_of, deadline_under as under, deadline_of};
ghost use Rattle.expect_core.specs.Heard.{heads};

use crate::dialogue::Dialogue;
use crate::lanes::Lanes;
use crate::phase::Phase;
use crate::place::Place;
use crate::plan::Groups;
use crate::turn::Want;

/// The greatest moment of 64 bits.
const LAST_MOMENT: u128 = 18_446_744_073_709_551_615;

/// Returns a deadline as a moment. A greater deadline becomes the greatest moment of 64 bits.
pub(crate) fn as_moment(deadline: Option<u128>) -> Option<u64>
    ensures { result ≡ as_moment_of deadline }
{
    match deadline {
        Some(last) => Some(last.min(LAST_MOMENT) as u64),
        None => None,
    }
}

/// Returns the lesser of two moments in milliseconds. `None` counts as later than every moment.
pub fn sooner(first: Option<u64>, second: Option<u64>) -> Option<u64>
    ensures { result ≡ sooner_of first second }
{
    match (first, second) {
        (Some(first), Some(second)) => Some(first.min(second)),
        (Some(first), None) => Some(first),
        (None, last) => last,
    }
}

/// Returns the least of a moment and the moments of the children's next items.
fn soonest(first: Option<u64>, sides: &[(Place, Groups)], lanes: &Lanes) -> Option<u64>
    ensures { result ≡ soonest_of first (heads sides.now lanes.now) }
{
    let mut last = first;
    'sides: for (child, _) in sides {
        last = sooner(last, lanes.head(*child));
    }
    last
}

/// Returns the deadline of the call that waits. A wait for an answer or for the
/// start of a child has none.
///
/// An `expect` has its own deadline, and the moments of its children's next items.
fn deadline_under(phase: &Phase, lanes: &Lanes) -> Option<u64>
    ensures { result ≡ under phase.now lanes.now }
{
    match phase {
        Phase::At(_, Want::Output(plan)) => {
            let plan = plan.get();
            soonest(as_moment(plan.deadline), plan.sides.list.as_slice(), lanes)
        }
        Phase::At(_, Want::Answer(_, _)) => None,
        Phase::At(_, Want::Item(_, _)) => None,
        Phase::At(_, Want::End(_, _)) => None,
        Phase::Idle => None,
    }
}

impl Dialogue {
    /// Returns the last moment, in milliseconds, up to which a waiting call goes on waiting if only
    /// time passes. `None` if there is no such moment.
    ///
    /// It is the least of the deadline of the waiting `expect`, the moments of its children's next
    /// items, and the script's last moment. The `expect` takes a next item as soon as no other
    /// child can have an earlier one.
    pub fn deadline(&self) -> Option<u64>
        ensures { result ≡ deadline_of self.now }
    {
        sooner(deadline_under(&self.phase, &self.lanes), self.limit)
    }
}
