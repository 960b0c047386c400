//! The variables of a script, and the substitution of its words.
//!
//! `Vars` is a list of scopes. A scope maps names to values, arrays and links. A `Filler` joins the
//! values of a word's parts, and asks for the value of each script when it is reached.
//! `filling_is_fill` states its meaning. `fill_word` substitutes a word without scripts.
#![tactic(auto)]

mod arrays;
mod byte_names;
mod element;
mod faults;
mod fill_step;
mod filler;
mod joined;
mod laws;
mod limits;
mod lists;
mod names;
mod plain;
mod reads;
mod recipe;
mod report;
mod scope;
mod settles;
mod short;
mod short_names;
mod unsets;
mod vars;
mod whole;
mod write;
mod writes;

pub use element::is_element;
pub use faults::SubstFault;
pub use fill_step::FillStep;
pub use filler::Filler;
pub use joined::element_name;
pub use laws::{filling_is_fill, no_script_is_asked_for};
pub use limits::VALUE_LIMIT;
pub use names::Names;
pub use plain::plain_value;
pub use recipe::Recipe;
pub use vars::Vars;
pub use whole::{Filled, fill_word};
