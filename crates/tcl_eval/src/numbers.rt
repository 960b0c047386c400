//! Evaluates expressions over variables that are numbers.

ghost use Rattle.std.specs.Prelude.{◌≡◌, ℕ, Bool, List, Some, IfSome};
ghost use Rattle.tcl_words.specs.Pieces.{variable, no_pieces, piece, part_view};
ghost use Rattle.tcl_expr.specs.Number.{number_text};
ghost use Rattle.tcl_expr.specs.Truth.{truth_of};
ghost use Rattle.tcl_subst.specs.Filling.{fill, Full};
ghost use Rattle.tcl_eval.specs.Meaning.{Next, Eval, condition, expression};
ghost use Rattle.tcl_eval.specs.Tree.{State, Tree};

use crate::evaluation::Test;
use std::alloc::Global;
use tcl_expr::{Readings, numbers_round_trip, read_number};
use tcl_subst::{VALUE_LIMIT, Vars};
use tcl_words::{Part, Word};

/// The numbers of variables.
#[derive(Drop)]
struct Variables<'v> {
    vars: &'v Vars,
}

impl Readings for Variables<'_> {
    ghost use Rattle.std.specs.Prelude.{◌≡◌};
    ghost use Rattle.tcl_expr.specs.Number.{number_text};
    ghost use Rattle.tcl_subst.specs.Filling.{fill, Full};

    ghost tells = { λ v w z. fill w.pieces v.vars.now ≡ Full (number_text z) };

    fn number(&self, word: &Word) -> Option<i64> {
        match word.parts.as_slice() {
            [part] => part_number(part, self.vars),
            _ => None,
        }
    }
}

/// Returns the number of a word that is one variable, if its value is a number.
fn part_number(part: &Part, vars: &Vars) -> Option<i64>
    ensures { IfSome result (λ z. fill (piece (part_view part.now) no_pieces) vars.now ≡ Full (number_text z)) }
{
    match part {
        Part::Lit(_) => None,
        Part::Var(name, index) => match index {
            None => variable_number(name.as_slice(), vars),
            Some(_) => None,
        },
        Part::Script(_) => None,
    }
}

/// Returns the number of a variable, if its value is one.
#[tactic(auto, unfolding(tcl_subst::specs::Faults::is_too_long))]
fn variable_number(name: &[u8], vars: &Vars) -> Option<i64>
    ensures { IfSome result (λ z. fill (piece (variable name.now) no_pieces) vars.now ≡ Full (number_text z)) }
{
    numbers_round_trip();
    match vars.peek(name) {
        Ok(text) => {
            if VALUE_LIMIT < text.len() {
                return None;
            }
            read_number(text)
        }
        Err(_) => None,
    }
}

/// Returns the value of an expression if each operand that it needs is a variable with a number.
/// `None` otherwise, and if memory is refused.
pub(crate) fn number_of(alloc: Global, test: &Test, vars: &Vars) -> Option<i64>
    ensures { IfSome result (λ z. (ev : Eval) (k : Next) (go : List ℕ → State → Tree) (st : State) → st.vars ≡ vars.now → expression ev test.now k go st ≡ go (number_text z) st) }
{
    test.number(alloc, &Variables { vars })
}

/// Returns whether a condition is true, if each operand that it needs is a variable with a number.
/// `None` otherwise, and if memory is refused.
pub(crate) fn truth_by_numbers(alloc: Global, test: &Test, vars: &Vars) -> Option<bool>
    ensures { IfSome result (λ b. (ev : Eval) (k : Next) (go : Bool → State → Tree) (st : State) → st.vars ≡ vars.now → condition ev test.now k go st ≡ go b st) }
{
    match number_of(alloc, test, vars) {
        None => None,
        Some(number) => Some(is_true(number)),
    }
}

/// Returns whether a number is true.
#[tactic(auto, unfolding(tcl_expr::specs::Truth::truth_of))]
fn is_true(number: i64) -> bool
    ensures { truth_of (number_text number) ≡ Some result }
{
    numbers_round_trip();
    number != 0
}
