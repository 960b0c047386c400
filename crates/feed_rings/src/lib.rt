//! Rings between two threads: the putting end, the taking end, and a bell for each thread.
//!
//! A thread has one bell and rests on it for whatever it waits for. A thread that changes what
//! another one waits for rings its bell. Only the calls in `waiting` and rests wait.
#![tactic(auto)]

pub mod bell;
pub mod feed;
pub mod waiting;

pub use bell::{Bell, Ringer};
pub use feed::{FeedIn, FeedOut, Finished, feed_pair};
pub use waiting::{await_room, put_waiting, take_waiting};
