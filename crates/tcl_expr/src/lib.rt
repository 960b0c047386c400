//! Expressions of a Tcl subset. A text is parsed once, and its value is then computed operand by
//! operand.
//!
//! [`parse`] parses a text. [`Expr::advance`] continues until the value is known, an error occurs,
//! or the next operand is needed. The caller computes the operand and passes it to
//! [`Operands::give`]. Operands that `&&`, `||` and `?:` don't need are never asked for.
//!
//! The grammar is `specs/Rules`, which gives a text its tree, rule by rule. `specs/Grammar` is the
//! same grammar as a function that also gives the first error. [`parse`] computes that function,
//! and [`expression_rules`] states that both agree. `specs/Value` defines an expression's value, by
//! recursion on its tree.
#![tactic(auto)]

mod advance;
mod bareword;
mod code;
mod faults;
mod given;
mod grammar;
mod infix;
mod items;
mod laws;
mod leaf;
mod number;
mod numeric;
mod operators;
mod parsing;
mod progress;
mod script;
mod stack;
mod turns;
mod values;
mod white;

pub use advance::Step;
pub use bareword::read_truth;
pub use faults::ExprFault;
pub use laws::{expression_rules, numbers_round_trip, operands_are_bounded};
pub use number::{read_number, write_number};
pub use numeric::Readings;
pub use parsing::{Expr, parse};
pub use progress::Operands;
