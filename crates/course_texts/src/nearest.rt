//! How much of a pattern's front matches in what a child wrote.

ghost use Rattle.std.specs.Prelude.{◌≡◌, length, take, IfOk};
ghost use Rattle.course_texts.specs.Nearest.{is_found as is_found_of, most_found as most_found_of, exact_elements as exact_elements_of, exact_front, glob_front, front_of};

use crate::patterns::{elements_text, glob_text};
use exp_glob::{Element, Elements, Glob, Single};
use exp_match::Want;
use std::alloc::{AllocError, Global};
use tcl_words::Text;

/// The most elements of a pattern that are looked for.
const MOST: usize = 200;

/// Returns the first elements of a list, at most `count`.
fn front<T>(items: &[T], count: usize) -> &[T]
    ensures { result.now ≡ take count items.now }
{
    &items[..count.min(items.len())]
}

/// Returns whether a glob pattern matches in bytes.
fn is_found(alloc: Global, pattern: &[u8], nocase: bool, bytes: &[u8]) -> Result<bool, AllocError>
    ensures { IfOk result (λ b. b ≡ is_found_of pattern.now nocase bytes.now) }
{
    Ok(
        Glob::new(alloc, pattern, nocase)?
            .find(bytes, nocase)
            .is_some(),
    )
}

/// Returns how many elements there are at the longest front of a pattern that matches in bytes.
#[tactic(auto, using(crate::proofs::Fronts::found_here, crate::proofs::Fronts::found_less))]
fn most_found(
    alloc: Global,
    anchored: bool,
    elements: &[Element],
    nocase: bool,
    bytes: &[u8],
) -> Result<usize, AllocError>
    ensures { IfOk result (λ n. n ≡ most_found_of anchored elements.now nocase bytes.now (length elements.now)) }
{
    let mut count = elements.len();
    while count > 0 {
        let pattern = glob_text(alloc, anchored, &elements[..count])?;
        if is_found(alloc, pattern.as_slice(), nocase, bytes)? {
            return Ok(count);
        }
        count -= 1;
    }
    Ok(0)
}

/// Returns the elements of an exact pattern.
fn exact_elements(alloc: Global, text: &[u8]) -> Result<Elements, AllocError>
    ensures { IfOk result (λ es. es ≡ exact_elements_of text.now) }
{
    let mut elements = Elements::new(alloc);
    for byte in text {
        elements.push(Element::One(Single::Byte(*byte)))?;
    }
    Ok(elements)
}

#[tactic(auto, unfolding(crate::specs::Nearest::exact_front))]
fn of_exact(alloc: Global, text: &[u8], nocase: bool, bytes: &[u8]) -> Result<Text, AllocError>
    ensures { IfOk result (λ t. t ≡ exact_front text.now nocase bytes.now) }
{
    let elements = exact_elements(alloc, front(text, MOST))?;
    let count = most_found(alloc, false, elements.as_slice(), nocase, bytes)?;
    Text::from_slice(alloc, front(text, count))
}

#[tactic(auto, unfolding(crate::specs::Nearest::glob_front))]
fn of_glob(alloc: Global, glob: &Glob, nocase: bool, bytes: &[u8]) -> Result<Text, AllocError>
    ensures { IfOk result (λ t. t ≡ glob_front glob.now nocase bytes.now) }
{
    let elements = front(glob.elements.as_slice(), MOST);
    let count = most_found(alloc, glob.anchored, elements, nocase, bytes)?;
    elements_text(alloc, front(elements, count))
}

/// Returns the longest front of a pattern that matches in bytes. Of an exact or glob pattern the
/// first 200 elements are looked for, of others none.
pub(crate) fn front_of(alloc: Global, want: &Want, bytes: &[u8]) -> Result<Text, AllocError>
    ensures { IfOk result (λ t. t ≡ front_of want.now bytes.now) }
{
    match want {
        Want::Exact { text, nocase } => of_exact(alloc, text.as_slice(), *nocase, bytes),
        Want::Glob { glob, nocase } => of_glob(alloc, glob, *nocase, bytes),
        Want::Regular(_) => Ok(Text::new(alloc)),
        Want::Keyword(_) => Ok(Text::new(alloc)),
    }
}
