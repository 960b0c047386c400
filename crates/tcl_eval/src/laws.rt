//! Laws of all meanings.

ghost use Rattle.tcl_eval.specs.Unrolled.{LoopsUnroll, BodiesUnroll};

/// States that loops and host scripts have no bound of their own. A loop is its condition and, if
/// this is true, its body, the script after it, and the loop again. A script that a host asks for
/// is that script, followed by any further one. Such a run ends by a limit only if no step is left.
/// It does nothing at run time.
pub fn loops_unroll()
    ensures loops { LoopsUnroll }
    ensures bodies { BodiesUnroll }
{}
