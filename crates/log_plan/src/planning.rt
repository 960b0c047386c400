//! Plans the log of a script.

ghost use Rattle.std.specs.Prelude.{◌≡◌, IfOk};
ghost use Rattle.child_events.specs.Log.{AllFit};
ghost use Rattle.child_events.specs.declared.child_numbers.ChildNumbers.TheVariants.{To999};
ghost use Rattle.child_timeline.specs.Told.{AreTold};
ghost use Rattle.log_plan.specs.Plan.{Plans};

use crate::fault::PlanFault;
use crate::planner::Planner;
use child_events::HallEvents;
use child_timeline::Timeline;
use dialogue_sched::Script;
use std::alloc::Global;

/// Returns the events of a timeline with an answer inserted for each request of the script, and a
/// newline of output for each child whose start the script awaits.
///
/// The script takes the events of the timeline in order. Before the first event and after each one,
/// its open requests are answered at once, at the current moment of the timeline. A start, a write
/// and a close succeed. A wait is answered with the end that the timeline gives for the child. A
/// child on a terminal of the system then starts at once. The script therefore never waits for an
/// answer or a start.
///
/// `Memory` means that the script, its hall or the events were refused memory.
pub fn plan(alloc: Global, script: Script, timeline: Timeline) -> Result<HallEvents, PlanFault>
    requires told { AreTold timeline.events }
    ensures plans { Plans script timeline result }
    ensures fit { IfOk result (λ es. AllFit To999 es) }
{
    let Timeline {
        events,
        exits,
        moment: _,
    } = timeline;
    let HallEvents { list } = events;
    let mut planner = Planner::new(alloc, script)?;
    planner.answer_all(alloc, &exits)?;
    planner.tell_all(alloc, &exits, list)?;
    planner.into_events()
}
