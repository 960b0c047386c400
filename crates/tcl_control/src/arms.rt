//! The arguments of `if`.

ghost use Rattle.std.specs.Prelude.{◌≡◌, ◌∷◌, ◌<◌, [], None, length, option_map, reverse, IfOk, IfSome, MatchOption, ℕ, List};
ghost use Rattle.tcl_control.specs.Arms.{with_arm, tests, bodies, body, ends, only_body, arms_of, ended};
ghost use Rattle.tcl_results.specs.Says.{Says};

use command_table::is;
use std::alloc::{AllocError, Global};
use std::marker::Model;
use tcl_results::{Complaint, wrong};
use tcl_values::Value;

/// The conditions with their bodies, and the body after `else`. A contract sees them in order.
#[derive(Drop)]
pub struct Arms {
    /// The conditions with their bodies, the last first.
    list: Vec<(Value, Value)>,
    /// The body after `else`.
    other: Option<Value>,
}

impl Model for Arms {
    ghost use Rattle.std.specs.Prelude.{List, ℕ, Option, reverse};

    ghost Value = { List (List ℕ × List ℕ) × Option (List ℕ) };

    ghost view = { λ a. (reverse a.list.items, a.other) };
}

impl Arms {
    /// Removes the first condition with its body, and returns them. `None` if there is none left.
    pub fn take(&mut self) -> Option<(Value, Value)>
        ensures { MatchOption result ((self.old.0 ≡ []) × (self.new ≡ self.old)) (λ p. (self.old.0 ≡ p ∷ self.new.0) × (self.new.1 ≡ self.old.1)) }
    {
        self.list.pop()
    }

    /// Returns the body after `else`, or `None`.
    pub fn otherwise(self) -> Option<Value>
        ensures { result ≡ self.1 }
    {
        self.other
    }
}

/// Returns a condition, its body and the arguments after them.
fn arm(words: &[Value]) -> Option<(&Value, &Value, &[Value])>
    ensures read { MatchOption result (tests words.now ≡ None) (λ a. tests words.now ≡ option_map (with_arm a.0.now a.1.now) (ends a.2.now)) }
    ensures less { IfSome result (λ a. length a.2.now < length words.now) }
{
    match words {
        [] => None,
        [test, rest @ ..] => match body(rest) {
            None => None,
            Some((body, more)) => Some((test, body, more)),
        },
    }
}

/// Returns a body, after an optional `then`, and the arguments after it.
fn body(words: &[Value]) -> Option<(&Value, &[Value])>
    ensures read { (test : List ℕ) → MatchOption result (bodies test words.now ≡ None) (λ b. bodies test words.now ≡ option_map (with_arm test b.0.now) (ends b.1.now)) }
    ensures less { IfSome result (λ b. length b.1.now < length words.now) }
{
    match words {
        [] => None,
        [word, rest @ ..] => {
            if is(word.as_slice(), b"then") {
                return first_of(rest);
            }
            Some((word, rest))
        }
    }
}

fn first_of(words: &[Value]) -> Option<(&Value, &[Value])>
    ensures read { (test : List ℕ) → MatchOption result (body test words.now ≡ None) (λ b. body test words.now ≡ option_map (with_arm test b.0.now) (ends b.1.now)) }
    ensures less { IfSome result (λ b. length b.1.now < length words.now) }
{
    match words {
        [] => None,
        [word, rest @ ..] => Some((word, rest)),
    }
}

/// Returns the arguments after `elseif`, or `None` if they don't begin with `elseif`.
fn further(words: &[Value]) -> Option<&[Value]>
    ensures read { MatchOption result (ends words.now ≡ ended words.now) (λ w. ends words.now ≡ tests w.now) }
    ensures less { IfSome result (λ w. length w.now < length words.now) }
{
    match words {
        [] => None,
        [word, rest @ ..] => {
            if is(word.as_slice(), b"elseif") {
                return Some(rest);
            }
            None
        }
    }
}

/// Returns the last body. The outer `None` means that it isn't the only argument.
fn only_body(alloc: Global, words: &[Value]) -> Result<Option<Option<Value>>, AllocError>
    ensures { IfOk result (λ o. option_map (λ b. ([], b)) o ≡ only_body words.now) }
{
    match words {
        [] => Ok(None),
        [word] => Ok(Some(Some(word.shared(alloc)?))),
        [_, _, ..] => Ok(None),
    }
}

/// Returns the last body, after an optional `else`. The inner `None` means that there is none. The
/// outer `None` means that there are too few or too many arguments.
fn last_body(alloc: Global, words: &[Value]) -> Result<Option<Option<Value>>, AllocError>
    ensures { IfOk result (λ o. option_map (λ b. ([], b)) o ≡ ended words.now) }
{
    match words {
        [] => Ok(Some(None)),
        [word, rest @ ..] => {
            if is(word.as_slice(), b"else") {
                return only_body(alloc, rest);
            }
            only_body(alloc, words)
        }
    }
}

/// Creates the arms from conditions with their bodies, in order, and the last body.
fn in_order(list: Vec<(Value, Value)>, other: Option<Value>) -> Arms
    ensures { result ≡ (list.items, other) }
{
    let mut list = list;
    list.reverse();
    Arms { list, other }
}

/// Returns the conditions and bodies. `None` if there are too few or too many arguments.
fn read(alloc: Global, args: &[Value]) -> Result<Option<Arms>, AllocError>
    ensures { IfOk result (λ o. o ≡ tests args.now) }
{
    let mut list = Vec::new(alloc);
    let mut words = args;
    'arms: loop {
        let Some((test, body, rest)) = arm(words) else {
            return Ok(None);
        };
        list.push((test.shared(alloc)?, body.shared(alloc)?))?;
        let Some(more) = further(rest) else {
            return match last_body(alloc, rest)? {
                None => Ok(None),
                Some(other) => Ok(Some(in_order(list, other))),
            };
        };
        words = more;
    }
}

/// Returns the conditions and bodies of an `if` (if(n)). The error is `wrong # args`.
pub fn arms_of(alloc: Global, command: &[u8], args: &[Value]) -> Result<Arms, Complaint>
    ensures { Says result (arms_of command.now args.now) }
{
    match read(alloc, args)? {
        None => Err(wrong(alloc, command)),
        Some(arms) => Ok(arms),
    }
}
