//! Laws of the reports of all scripts.

ghost use Rattle.session.specs.Growth.{EndingStays, OnlyGrows};
ghost use Rattle.session.specs.Limits.{LimitEnds, StaysLimited};
ghost use Rattle.session.specs.Requests.{AllNameAChild, StaysAsking};
ghost use Rattle.session.specs.Spent.{NoneMeansMemory, StaysSpared};

/// States that more events only continue a waiting script. An ending stays, and requests and output
/// are not undone. Each request is therefore handed out once, in order, whenever later events are
/// known. It does nothing at run time.
pub fn growth()
    ensures stays { EndingStays }
    ensures grows { OnlyGrows }
{}

/// States that each request of a report names a child from 1 to 16, as an event with its answer
/// does. So does each request that a session hands out, whatever events it took. It does nothing at
/// run time.
pub fn request_law()
    ensures asked { AllNameAChild }
    ensures handed { StaysAsking }
{}

/// States that no script means the ending `Memory`, whatever its source, settings and events are. A
/// session that was not refused memory never reports it. So if a report has it, memory was refused.
/// It does nothing at run time.
pub fn no_meaning_is_memory()
    ensures meant { NoneMeansMemory }
    ensures said { StaysSpared }
{}

/// States that a time limit ends a script. If the greatest moment of its events is past the limit
/// of its settings, it doesn't wait. The same holds for a session that took such events, and for
/// its report. It does nothing at run time.
pub fn limit_law()
    ensures ends { LimitEnds }
    ensures stays { StaysLimited }
{}
