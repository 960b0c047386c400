//! What the children of a replayed script do, and when: timelines, and the formats they are read
//! from.
#![tactic(auto)]

mod cast;
mod exits;
mod fault;
mod line;
mod quoted;
mod said;
mod seconds;
mod timeline;
mod typescript;
mod words;

pub use exits::{Exit, Exits};
pub use fault::TimelineFault;
pub use said::read_said;
pub use timeline::{Timeline, read_timeline};
pub use typescript::read_timed_typescript;
