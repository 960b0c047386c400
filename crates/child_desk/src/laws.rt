//! Laws of time limits at a desk.

ghost use Rattle.child_desk.specs.Limits.{LinesEnd, TurnsPass};

/// States that a time limit ends a script. If a moment of the script's own part of the record is
/// past its limit, its report doesn't say that it waits. One turn is enough, at a moment past the
/// limit and past the stamp. It does nothing at run time.
pub fn limits()
    ensures lines { LinesEnd }
    ensures turns { TurnsPass }
{}
