//! Laws of ticks, of moments, and of the order of a hall's calls.

ghost use Rattle.dialogue_sched.specs.Limits.{RunsEnd, SessionsEnd, TicksPass};
ghost use Rattle.dialogue_sched.specs.Ticks.{TicksAreOne, TicksChangeNothing, TicksOnlyAdd};
ghost use Rattle.dialogue_sched.specs.Raised.{MeansRaised};
ghost use Rattle.dialogue_sched.specs.Reached.{FromStart, StepsOn, HandsOn, Tells};

/// States laws of ticks, in events whose moments don't decrease. Inserted ticks mean the same as
/// one tick at the end, at the greatest moment. They therefore change nothing once a script has an
/// ending. Until then its requests and its output remain, and more may follow. It does nothing at
/// run time.
pub fn ticks()
    ensures one { TicksAreOne }
    ensures ended { TicksChangeNothing }
    ensures waiting { TicksOnlyAdd }
{}

/// States that a script means the same if each moment is raised to the greatest one before it. No
/// script can tell by how much a moment was below an earlier one. It does nothing at run time.
pub fn raised_moments()
    ensures { MeansRaised }
{}

/// States that a hall means the events that reached it, whatever the order of its calls. No event
/// has reached a new hall. Each call that takes events adds them at the end. Handing out a request
/// adds none.
///
/// A report is the meaning of its script's source, settings and own events among those, and of
/// nothing else. Or it says that this script was refused memory. It does nothing at run time.
pub fn hall_law()
    ensures from_start { FromStart }
    ensures steps_on { StepsOn }
    ensures hands_on { HandsOn }
    ensures tells { Tells }
{}

/// States that a time limit ends scripts. If the greatest moment of a script's own events is past
/// its limit, no report of a run or a hall says that it waits. A tick past the limit is enough,
/// whatever else happened. It does nothing at run time.
pub fn limits()
    ensures runs { RunsEnd }
    ensures sessions { SessionsEnd }
    ensures ticked { TicksPass }
{}
