//! Runs that have stopped.

ghost use Rattle.tcl_eval.specs.Asked.{IsSettled};

use crate::frame::{Frame, Mode};
use tcl_host::Pile;

/// The point at which a run stopped, and the saved frames. The outermost frame was saved last, and
/// is on top.
#[derive(Drop)]
pub struct Stop {
    pub at: Mode,
    pub laid: Pile<Frame>,
    ghost settled: { IsSettled at },
}
