//! Why scripts can't be run together.

ghost use Rattle.std.specs.Prelude.{◌≡◌};
ghost use Rattle.dialogue_sched.specs.Hall.{opening_fault as fault_of, too_long};

use crate::hall::HallFault;
use crate::script::Script;
use session::SOURCE_LIMIT;

/// The most scripts in a hall.
pub const MOST_SCRIPTS: usize = 64;

/// Returns the number of the first script, counted from 1, whose source is too long.
fn first_too_long(scripts: &[Script]) -> Option<HallFault>
    ensures { result ≡ too_long 1 scripts.now }
{
    for i in 0..scripts.len() {
        if scripts[i].source.len() > SOURCE_LIMIT {
            return Some(HallFault::SourceTooLong(i + 1));
        }
    }
    None
}

/// Returns why there can be no hall of these scripts, except for memory. There are too many
/// scripts, or the source of one is too long; the first one counts.
///
/// If scripts run in several halls, call it first with all of them. It reads only the lengths of
/// the sources.
pub fn opening_fault(scripts: &[Script]) -> Option<HallFault>
    ensures { result ≡ fault_of scripts.now }
{
    if scripts.len() > MOST_SCRIPTS {
        return Some(HallFault::TooManyScripts);
    }
    first_too_long(scripts)
}
