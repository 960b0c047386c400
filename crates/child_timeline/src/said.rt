//! Reads what children do, in any of the supported formats.

ghost use Rattle.std.specs.Prelude.{◌≡◌, IfOk};
ghost use Rattle.child_timeline.specs.Told.{AreTold};
ghost use Rattle.child_timeline.specs.Line.{Reads};
ghost use Rattle.child_timeline.specs.Said.{said_of};

use crate::cast::{is_cast, read_cast};
use crate::fault::TimelineFault;
use crate::timeline::{Timeline, read_timeline};
use crate::typescript::{is_typescript, read_typescript};
use std::alloc::Global;

/// Reads the timeline of a text: a cast of asciinema, a typescript of script(1), or else lines of a
/// timeline.
///
/// An error has the number of the first bad line, counted from 1. It is `Header` if a cast's header
/// is of an unknown version. It may also be `Memory`.
pub fn read_said(alloc: Global, text: &[u8]) -> Result<Timeline, TimelineFault>
    ensures reads { Reads result (said_of text.now) }
    ensures told { IfOk result (λ t. AreTold t.events) }
{
    if is_cast(text) {
        return read_cast(alloc, text);
    }
    if is_typescript(text) {
        return read_typescript(alloc, text);
    }
    read_timeline(alloc, text)
}
