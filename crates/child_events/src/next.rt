//! Chooses which child's next item a script takes.

ghost use Rattle.std.specs.Prelude.{◌≡◌, ◌<◌, ◌+◌, ◌^◌, is_some, length, IfSome};
ghost use Rattle.std.specs.List.{list_all};
ghost use Rattle.child_events.specs.Next.{nearer as nearer_of, in_front as in_front_of, earliest as earliest_of, IsNext, next_of, StaysNext, ComesLater};

/// Adds a moment at the front of a list whose earliest moment is given with its index.
fn nearer(moment: u64, others: Option<(usize, u64)>) -> Option<(usize, u64)>
    requires { IfSome others (λ x. x.0 + 1 < 2 ^ 64) }
    ensures { result ≡ nearer_of moment others }
{
    match others {
        Some((at, earliest)) if earliest < moment => Some((at + 1, earliest)),
        _ => Some((0, moment)),
    }
}

/// Returns the index and the moment of the earliest item; the first of several.
fn earliest(heads: &[Option<u64>]) -> Option<(usize, u64)>
    ensures value { result ≡ earliest_of heads.now }
    ensures within { IfSome result (λ x. x.0 < length heads.now) }
{
    match heads {
        [] => None,
        [None, rest @ ..] => {
            let (at, moment) = earliest(rest)?;
            Some((at + 1, moment))
        }
        [Some(moment), rest @ ..] => nearer(*moment, earliest(rest)),
    }
}

/// Returns whether each child has a next item.
fn all_there(heads: &[Option<u64>]) -> bool
    ensures { result ≡ list_all is_some heads.now }
{
    heads.iter().all(|head| head.is_some())
}

/// Returns the index of the child whose next item is the earliest; the first of several. `heads`
/// contains the moment of each child's next item.
///
/// `None` if there is no item, or if a child without one may still get an earlier one.
pub fn pick(heads: &[Option<u64>], horizon: u64) -> Option<usize>
    ensures value { result ≡ next_of heads.now horizon }
    ensures next { IsNext heads.now horizon result }
    ensures within { IfSome result (λ i. i < length heads.now) }
{
    let (at, moment) = earliest(heads)?;
    if moment < horizon || all_there(heads) {
        Some(at)
    } else {
        None
    }
}

/// States that the choice of `pick` is stable while time goes on. Later items come no earlier than
/// the horizon. If `pick` gave `None`, its later choice came no earlier than that horizon. It does
/// nothing at run time.
pub fn pick_law()
    ensures stays { StaysNext }
    ensures later { ComesLater }
{}
