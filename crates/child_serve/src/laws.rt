//! Laws that compare serving with a run over its record.

ghost use Rattle.child_serve.specs.Again.{ServingIsRun, ServingsIsolated};

use child_hands::Keeper;

/// States that serving means the same as a run over its record, if no script was given up. The run
/// refuses no event, and gives the same reports, unless one is refused memory. It does nothing at
/// run time.
pub fn serving_is_run<K: Keeper>()
    ensures { ServingIsRun K.told K.gives }
{}

/// States that served scripts don't change one another. Take two records of servings that gave up
/// no script. If a script's own parts are the same after their moments are raised, its reports are
/// the same. Workers, keepers and other scripts may differ. The exception is a script that was
/// refused memory. It does nothing at run time.
pub fn serving_isolation<K: Keeper, L: Keeper>()
    ensures { ServingsIsolated K.told L.told K.gives L.gives }
{}
