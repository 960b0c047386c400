//! Glob patterns and their search as in expect(1): `*`, `?`, `[..]`, `\x`, `^` at the start and `$`
//! at the end.
//!
//! Texts are bytes. `specs/Elements.antt` defines how a pattern is read. `specs/Spans.antt` defines
//! what it matches and which match is found.
#![tactic(auto)]

mod element;
mod ending;
mod literal;
mod matching;
mod pattern;
mod places;
mod plan;
mod reading;
mod runs;
mod whole;

pub use element::{Element, Elements, Members, Single};
pub use ending::Ending;
pub use literal::{Literal, Literals};
pub use pattern::Glob;
pub use plan::SearchElements;
