//! The events that a hall refuses.

ghost use Rattle.std.specs.Prelude.{◌≡◌};
ghost use Rattle.dialogue_sched.specs.Refusal.{refusal_of, piece_len as piece_len_of, is_number as is_number_of};

use child_events::{HallEvent, What};

/// Why a hall refuses an event. If there are several reasons, the first one counts.
#[derive(Clone, Copy, Debug, PartialEq, Eq)]
pub enum HallRefusal {
    /// The hall has no script with this number.
    NoSuchScript,
    /// The child number is outside 1 to 16.
    NoSuchChild,
    /// The moment is greater than 9,000,000,000,000,000 milliseconds.
    MomentTooLarge,
    /// The piece of output has more than 4,096 bytes.
    PieceTooLong,
}

fn piece_len(what: &What) -> usize
    ensures { result ≡ piece_len_of what.now }
{
    match what {
        What::Out(piece) => piece.len(),
        What::Eof | What::ReadFail(_) | What::Answer(_) => 0,
    }
}

fn is_number(n: usize, last: usize) -> bool
    ensures { result ≡ is_number_of n last }
{
    0 < n && n <= last
}

/// Returns the first reason why a hall with this number of scripts refuses an event. `None` if it
/// accepts it.
pub fn refusal(scripts: usize, event: &HallEvent) -> Option<HallRefusal>
    ensures { result ≡ refusal_of scripts event.now }
{
    match event {
        HallEvent::Child {
            script,
            child,
            moment,
            what,
        } => {
            if !is_number(*script as usize, scripts) {
                Some(HallRefusal::NoSuchScript)
            } else if !is_number(*child as usize, 16) {
                Some(HallRefusal::NoSuchChild)
            } else if *moment > 9_000_000_000_000_000 {
                Some(HallRefusal::MomentTooLarge)
            } else if piece_len(what) > 4096 {
                Some(HallRefusal::PieceTooLong)
            } else {
                None
            }
        }
        HallEvent::Tick { moment } => {
            if *moment > 9_000_000_000_000_000 {
                Some(HallRefusal::MomentTooLarge)
            } else {
                None
            }
        }
    }
}
