//! The threads between a script's desk and its children: a hand that carries out requests, and a
//! reader for each child.
//!
//! A hand takes requests from one ring, calls a [`Keeper`] to carry them out, and puts the answers
//! into another ring. The reader of a child puts the child's output into a ring of its own. A
//! thread without work rests on its bell. [`Clock`] is the time, and a [`Gate`] orders requests.
#![tactic(auto)]

pub mod children;
pub mod clock;
pub mod gate;
pub mod hand;
pub mod items;
pub mod keeper;
pub mod log_item;
pub mod order;
pub mod piece;
pub mod pump;
pub mod reader;
pub mod thread;
pub mod work;

pub use clock::Clock;
pub use gate::Gate;
pub use items::{Answered, RingItem};
pub use keeper::Keeper;
pub use log_item::LogItem;
pub use piece::Piece;
pub use thread::{Obeys, start_hand};
pub use work::{Fresh, HandEnd, Outcome, Work};
