//! What a waiting call was doing.

use crate::place::Place;
use crate::turn::Want;
use child_events::Cause;
use exp_match::Spans;

/// What a waiting call was doing.
#[derive(Drop)]
pub enum Phase {
    /// Nothing: no call waits.
    Idle,
    /// It waits for this. The number is the most turns that may follow.
    At(u64, Want),
}

/// The result of a wait for patterns.
#[derive(Clone, Copy)]
pub enum Heard {
    /// The pattern with this number matches the bytes of this child, with these spans.
    Match(Place, usize, Spans),
    /// The match buffer of this child is full.
    Full(Place),
    /// This deadline has passed.
    TimedOut(u64),
    /// The script's last moment has passed.
    OverLimit,
    /// Nothing yet.
    NotYet,
    /// The output of this child ended.
    Ended(Place),
    /// Reading the output of this child failed.
    Failed(Place, Cause),
}
