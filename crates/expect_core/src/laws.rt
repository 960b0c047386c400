//! Laws of all calls of a dialogue.

ghost use Rattle.expect_core.specs.Apart.{CallsOwn, StaysOfOwn, EventsOne};
ghost use Rattle.expect_core.specs.Heard.{TakesEach};
ghost use Rattle.expect_core.specs.Laws.{AnswersAsked, GoesOn, StaysGood, StaysNumbered, StaysTold, WaitsOn};
ghost use Rattle.expect_core.specs.Tools.{RunsInOrder};
ghost use Rattle.expect_core.specs.Waits.{FirstIsTaken, TakesInOrder};
ghost use Rattle.expect_core.specs.Worlds.{HoldsWorlds};

/// States laws of all calls. It does nothing at run time.
///
/// An event has the same effect before a call and while the call waits. Nothing in a dialogue is
/// later than its greatest moment. No call takes back requests or bytes of the transcript. Each
/// request names a child from 1 to 16. Before the first call the lanes hold what the events say of
/// each child. A waiting call goes on waiting while only time passes, up to its deadline.
///
/// A command is unknown if and only if its first word names no command of Expect. Only the start of
/// a command asks for words. After an action, only codes 5 and 6 ask for another script. No call is
/// defined to give `Memory`, and none ends a dialogue.
pub fn dialogue_laws()
    ensures goes_on { GoesOn }
    ensures stays_good { StaysGood }
    ensures stays_told { StaysTold }
    ensures stays_numbered { StaysNumbered }
    ensures holds_worlds { HoldsWorlds }
    ensures waits_on { WaitsOn }
    ensures answers_asked { AnswersAsked }
{}

/// States that a script's children are kept apart. It does nothing at run time.
///
/// A call doesn't change a child that it isn't for. What came from such a child, its terminal, its
/// match buffer and its requests stay the same. No wait and no action comes to be about it. The
/// child that an `expect` closes takes part in it. An event changes only what came from its own
/// child.
pub fn children_apart()
    ensures calls { CallsOwn }
    ensures waits { StaysOfOwn }
    ensures events { EventsOne }
{}

/// States what a wait for patterns takes. It does nothing at run time.
///
/// A wait takes the first items in time, one after another. It stops at the first item that ends a
/// child's output or after which a test chooses, or if no item is in time. The bound on its turns
/// never stops it. The first item of a terminal of the system is the one that a wait for this child
/// alone takes.
pub fn waits_to_the_end()
    ensures in_order { TakesInOrder }
    ensures each { TakesEach }
    ensures first { FirstIsTaken }
{}

/// States the order of a command that runs a program. It does nothing at run time.
///
/// The command asks for the start, for the end of the input, after the output for the close, and at
/// last for the program's end. Until that is known it changes no variable, no channel and no
/// transcript.
pub fn tools_in_order()
    ensures { RunsInOrder }
{}
