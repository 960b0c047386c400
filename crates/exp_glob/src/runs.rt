//! Runs: the elements between stars. The search looks for the least start of each run but the last,
//! and for the greatest start of the last one. It looks for the literals of the runs.

ghost use Rattle.std.specs.Prelude.{◌≡◌, ◌≤◌, ◌+◌, ◌<◌, ℕ, ◌==◌, None, Some, drop, length, MatchOption};
ghost use Rattle.exp_glob.specs.Literals.{IsLiteral, AreLiterals};
ghost use Rattle.exp_glob.specs.Runs.{takes_at as takes_at_of, run_end as run_end_of, IsLeastRun, IsGreatestRun, FindsLongest};
ghost use Rattle.exp_glob.specs.Stars.{is_star as is_star_of, behind_star};

use crate::element::{Element, Single};
use crate::literal::{Literal, first_literal, later_literals};
use crate::matching::takes;
use crate::places::{after, before};
use memchr::memmem::{Finder, FinderRev};

pub(crate) fn is_star(element: &Element) -> bool
    ensures { result ≡ is_star_of element.now }
{
    match element {
        Element::Star => true,
        Element::One(_) => false,
        Element::End => false,
    }
}

/// Returns the index after the first star.
pub(crate) fn star_end(elements: &[Element]) -> Option<usize>
    ensures { MatchOption result (behind_star elements.now ≡ None) (λ n. (n ≤ length elements.now) × (behind_star elements.now ≡ Some (drop n elements.now)) × (0 < n)) }
{
    for (i, element) in elements.iter().enumerate() {
        if is_star(element) {
            return Some(i + 1);
        }
    }
    None
}

/// Returns whether there is a byte at an index and the element matches it.
fn takes_at(single: &Single, text: &[u8], at: usize, nocase: bool) -> bool
    ensures { result ≡ takes_at_of nocase single.now text.now at }
{
    at < text.len() && takes(single, text[at], nocase)
}

/// Returns the end of the first run if it matches at `from`. `None` otherwise.
pub(crate) fn run_end(elements: &[Element], text: &[u8], from: usize, nocase: bool) -> Option<usize>
    ensures { result ≡ run_end_of nocase elements.now text.now from }
{
    let mut at = from;
    for element in elements {
        match element {
            Element::Star => return Some(at),
            Element::One(single) => {
                if !takes_at(single, text, at, nocase) {
                    return None;
                }
                at += 1;
            }
            Element::End => {
                if at != text.len() {
                    return None;
                }
            }
        }
    }
    Some(at)
}

/// Returns the least index from `from` on at which the first run can begin, by the positions of its
/// literal.
fn next_start(
    elements: &[Element],
    literal: &Finder<'_>,
    offset: usize,
    text: &[u8],
    from: usize,
    nocase: bool,
) -> usize
    requires { IsLiteral nocase elements.now offset literal.now }
    ensures forward { from ≤ result }
    ensures nowhere { (k : ℕ) → from ≤ k → k < result → run_end_of nocase elements.now text.now k ≡ None }
{
    if literal.needle().is_empty() {
        return from;
    }
    if text.len() < from {
        return from;
    }
    if text.len() - from < offset {
        return text.len() + 1;
    }
    match literal.find(after(text, from + offset)) {
        Some(n) => from + n,
        None => text.len() + 1,
    }
}

/// Finds the least start from `from` on and below `bound` of a match of the first run, and the
/// run's end. Looks for the literal.
fn least_run_by(
    elements: &[Element],
    literal: &Finder<'_>,
    offset: usize,
    text: &[u8],
    from: usize,
    bound: usize,
    nocase: bool,
) -> Option<(usize, usize)>
    requires bound { bound ≤ length text.now + 1 }
    requires literal { IsLiteral nocase elements.now offset literal.now }
    ensures { IsLeastRun nocase elements.now text.now from bound result }
{
    let mut at = next_start(elements, literal, offset, text, from, nocase);
    'places: while at < bound {
        if let Some(end) = run_end(elements, text, at, nocase) {
            return Some((at, end));
        }
        at = next_start(elements, literal, offset, text, at + 1, nocase);
    }
    None
}

/// Finds the least start from `from` on and below `bound` of a match of the first run, and the
/// run's end.
pub(crate) fn least_run(
    elements: &[Element],
    literals: &[Literal],
    text: &[u8],
    from: usize,
    bound: usize,
    nocase: bool,
) -> Option<(usize, usize)>
    requires bound { bound ≤ length text.now + 1 }
    requires literals { AreLiterals nocase elements.now literals.now }
    ensures { IsLeastRun nocase elements.now text.now from bound result }
{
    if bound <= from {
        return None;
    }
    if let Some(end) = run_end(elements, text, from, nocase) {
        return Some((from, end));
    }
    if bound == from + 1 {
        return None;
    }
    let (offset, bytes) = first_literal(literals);
    let finder = Finder::new(bytes);
    least_run_by(elements, &finder, offset, text, from + 1, bound, nocase)
}

/// Returns a lower bound: the first run can begin below `bound` only before it. Looks for the
/// literal.
fn last_start(
    elements: &[Element],
    literal: &FinderRev<'_>,
    offset: usize,
    text: &[u8],
    bound: usize,
    nocase: bool,
) -> usize
    requires bound { bound ≤ length text.now + 1 }
    requires literal { IsLiteral nocase elements.now offset literal.now }
    ensures back { result ≤ bound }
    ensures nowhere { (k : ℕ) → result ≤ k → k < bound → run_end_of nocase elements.now text.now k ≡ None }
{
    let length = literal.needle().len();
    if length == 0 {
        return bound;
    }
    if bound == 0 {
        return 0;
    }
    if text.len() < offset {
        return 0;
    }
    let starts = before(after(text, offset), bound - 1 + length);
    match literal.rfind(starts) {
        Some(n) => n + 1,
        None => 0,
    }
}

/// Finds the end of the first run at its greatest start from `from` on. Looks for the literal.
fn greatest_run_by(
    elements: &[Element],
    literal: &FinderRev<'_>,
    offset: usize,
    text: &[u8],
    from: usize,
    nocase: bool,
) -> Option<usize>
    requires { IsLiteral nocase elements.now offset literal.now }
    ensures { IsGreatestRun nocase elements.now text.now from result }
{
    let mut bound = last_start(elements, literal, offset, text, text.len() + 1, nocase);
    while from < bound {
        bound -= 1;
        if let Some(end) = run_end(elements, text, bound, nocase) {
            return Some(end);
        }
        bound = last_start(elements, literal, offset, text, bound, nocase);
    }
    None
}

/// Finds the end of the first run at its greatest start from `from` on.
fn greatest_run(
    elements: &[Element],
    literals: &[Literal],
    text: &[u8],
    from: usize,
    nocase: bool,
) -> Option<usize>
    requires { AreLiterals nocase elements.now literals.now }
    ensures { IsGreatestRun nocase elements.now text.now from result }
{
    let (offset, bytes) = first_literal(literals);
    let finder = FinderRev::new(bytes);
    greatest_run_by(elements, &finder, offset, text, from, nocase)
}

/// Finds the greatest end of a match of a star and the later elements, from `from` on.
///
/// Time is at most the number of elements times the length of the text.
pub(crate) fn longest(
    elements: &[Element],
    literals: &[Literal],
    text: &[u8],
    from: usize,
    nocase: bool,
) -> Option<usize>
    requires { AreLiterals nocase elements.now literals.now }
    ensures { FindsLongest nocase elements.now text.now from result }
{
    let mut left = elements;
    let mut sought = literals;
    let mut at = from;
    while let Some(n) = star_end(left) {
        let Some((_, end)) = least_run(left, sought, text, at, text.len() + 1, nocase) else {
            return None;
        };
        at = end;
        left = after(left, n);
        sought = later_literals(sought);
    }
    greatest_run(left, sought, text, at, nocase)
}
