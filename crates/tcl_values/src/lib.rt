//! Values: texts that are shared if they are long, and lists that keep their elements.
//!
//! A contract sees the bytes of a value. It sees neither the sharing nor the kept elements.
#![tactic(auto)]

mod elements;
mod faults;
mod few;
mod kept;
mod listed;
mod rows;
mod sheet;
mod value;

pub use elements::Elements;
pub use faults::GrowFault;
pub use value::Value;
