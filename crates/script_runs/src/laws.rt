//! A run over children, and a replay of its record.

ghost use Rattle.script_runs.specs.Again.{ReplaysSame, ReplaysPart, ReplaysUnrefused};

use child_hands::Keeper;

/// States that a recorded run is the same as its replay. If `drive` wrote all of the record and the
/// run was not stopped, `replay` of that record with the same scripts and secrets gives the same
/// reports. The printed reports are the same too, except for a script that was refused memory in one
/// of the two. The same holds if only a front of the reports could be written in either. No entry of
/// the record is refused. If the record is shorter than 10^16 bytes, it has no error. The function
/// does nothing when it is called.
pub fn run_is_replay<K: Keeper>()
    ensures same { ReplaysSame K.told K.gives }
    ensures part { ReplaysPart K.told K.gives }
    ensures unrefused { ReplaysUnrefused K.told K.gives }
{}
