//! Decides by a few bytes that a pattern cannot match text that has arrived since an earlier
//! search.

ghost use Rattle.std.specs.Prelude.{◌≡◌, ◌≤◌, ◌<◌, ◌+◌, ℕ, Bool, List, true, drop, length, IfOk};
ghost use Rattle.memchr.specs.Find.{OccursAt};
ghost use Rattle.exp_glob.specs.Endings.{IsEnding, AreStars, HasNoStar};
ghost use Rattle.exp_glob.specs.Spans.{Spans};
ghost use Rattle.exp_glob.specs.declared.element.Element.{Element as ElementOf};

use crate::element::Element;
use crate::literal::Literal;
use crate::matching::takes;
use crate::places::after;
use crate::plan::literal;
use crate::runs::{is_star, star_end};
use memchr::memmem;
use std::alloc::{AllocError, Global};

/// The literal of the last run that is not empty.
#[derive(Drop)]
pub struct Ending {
    /// An upper bound of its distance from the end of the run, in bytes.
    pub back: usize,
    /// The bytes, or no bytes if the run has no literal.
    pub bytes: Vec<u8>,
}

/// Returns the index after the last element that is no star.
fn stars_from(elements: &[Element]) -> usize
    ensures within { result ≤ length elements.now }
    ensures stars { AreStars (drop result elements.now) }
{
    let mut from = elements.len();
    while from > 0 {
        if !is_star(&elements[from - 1]) {
            return from;
        }
        from -= 1;
    }
    from
}

/// Returns the index after the last star.
fn run_from(elements: &[Element]) -> usize
    ensures within { result ≤ length elements.now }
    ensures none { HasNoStar (drop result elements.now) }
{
    let mut from = elements.len();
    while from > 0 {
        if is_star(&elements[from - 1]) {
            return from;
        }
        from -= 1;
    }
    from
}

/// Returns no literal. It fits all elements.
pub(crate) fn no_ending(alloc: Global) -> Ending
    ensures { (nocase : Bool) → (es : List ElementOf) → IsEnding nocase es result.back result.bytes.items }
{
    Ending {
        back: 0,
        bytes: Vec::new(alloc),
    }
}

/// Returns the literal of the last run that is not empty, or none if there is no star. Only searches
/// for patterns with a star use it. It allocates only if there are elements.
pub(crate) fn ending_of(
    alloc: Global,
    elements: &[Element],
    nocase: bool,
) -> Result<Ending, AllocError>
    ensures { IfOk result (λ e. IsEnding nocase elements.now e.back e.bytes.items) }
{
    if star_end(elements).is_none() {
        return Ok(no_ending(alloc));
    }
    let (sought, _) = elements.split_at(stars_from(elements));
    let run = after(sought, run_from(sought));
    let Literal { offset, bytes } = literal(alloc, run, nocase)?;
    Ok(Ending {
        back: run.len().saturating_sub(offset),
        bytes,
    })
}

impl Ending {
    /// Returns true only if no match can end after index `place`, because the bytes that each match
    /// ends with are missing there. It reads the bytes from a little before `place` on.
    pub(crate) fn is_missing(&self, text: &[u8], place: usize) -> bool
        ensures { result ≡ true → (place < length text.now) × (0 < length self.now.bytes.items) × ((k : ℕ) → place < k + self.now.back → ¬ OccursAt text.now self.now.bytes.items k) }
    {
        if self.bytes.is_empty() || text.len() <= place {
            return false;
        }
        let from = if self.back <= place {
            place - self.back + 1
        } else {
            0
        };
        match memmem::find(after(text, from), self.bytes.as_slice()) {
            Some(_) => false,
            None => true,
        }
    }
}

/// Returns true only if no match of these elements ends at the end of the text. It reads no more
/// bytes than there are elements after the last star.
fn ends_nowhere(elements: &[Element], text: &[u8], nocase: bool) -> bool
    ensures { result ≡ true → (a : ℕ) → ¬ Spans nocase elements.now text.now a (length text.now) }
{
    let mut at = text.len();
    let mut left = elements.len();
    'run: while left > 0 {
        match &elements[left - 1] {
            Element::Star => return false,
            Element::One(single) => {
                if at == 0 || !takes(single, text[at - 1], nocase) {
                    return true;
                }
                at -= 1;
            }
            Element::End => {}
        }
        left -= 1;
    }
    false
}

/// Returns true only if the element is the end of the text.
fn is_end(element: &Element) -> bool
    ensures { result ≡ true → element.now ≡ Element.End }
{
    matches!(element, Element::End)
}

/// Returns true only if the pattern ends with `$` and has no match in the text. It reads the last
/// bytes of the text only.
pub(crate) fn lacks_end(elements: &[Element], text: &[u8], nocase: bool) -> bool
    ensures { result ≡ true → (a b : ℕ) → ¬ Spans nocase elements.now text.now a b }
{
    match elements {
        [] => false,
        [front @ .., last] => is_end(last) && ends_nowhere(front, text, nocase),
    }
}
